//! What the rules of tables look at: the header, the section headers and the contents of an image, or of a file that has none in memory
//! (gABI chapter 4, ELF Header, Sections).
ghost use Rattle.std.specs.Prelude.{◌≡◌, ◌<◌, ◌≤◌, ◌+◌, length};
ghost use Rattle.elf_field.specs.Abi.{SHDR_SIZE};
ghost use Rattle.elf_image_rules.specs.Rules.{MAX_LEN};
ghost use Rattle.elf_image_rules.specs.Tables.{content_extent};
ghost use Rattle.elf_image_rules.specs.ValidatedRecords.{file_of};
ghost use Rattle.elf_table_symbols.specs.Sections.{content as content_of_section, count, header_at, order as order_of_sections};
ghost use Rattle.elf_table_symbols.specs.Sections.{section as section_header, sections_in, sections_seen};

use elf_field::abi::SHDR_SIZE;
use elf_field::{Order, Shdr};
use elf_image_rules::ValidatedRecords;
use elf_image_rules::tables::{content_of, order_in};
use elf_image_type::Image;

/// The sections that tables are in.
#[derive(Clone, Copy, Drop)]
pub enum SectionsOf<'i, 'a> {
    /// Those of an image, edited or as read.
    Image(&'i Image<'a>),
    /// Those of a file that keeps rules 1 to 32. They are read where they are, so that they take no memory.
    File(&'i ValidatedRecords<'a>),
}

impl<'i, 'a> SectionsOf<'i, 'a> {
    /// The byte order of the file.
    pub fn order(self) -> Order
        ensures { result ≡ order_of_sections (sections_seen self.entry) }
    {
        match self {
            SectionsOf::Image(image) => image.order(),
            SectionsOf::File(records) => order_of_file(records),
        }
    }

    /// How many section headers there are, number 0 among them; 0 without a section header table.
    pub fn section_count(self) -> usize
        ensures { result ≡ count (sections_seen self.entry) }
    {
        match self {
            SectionsOf::Image(image) => image.section_count(),
            SectionsOf::File(records) => count_in_file(records),
        }
    }

    /// Section header `i`, which is below [`section_count`](SectionsOf::section_count).
    pub fn section(self, i: usize) -> Shdr
        requires { i < count (sections_seen self) }
        ensures { result ≡ section_header (sections_seen self.entry) i }
    {
        match self {
            SectionsOf::Image(image) => image.section(i),
            SectionsOf::File(records) => section_in_file(records, i),
        }
    }

    /// The offset in the file of section header `i`, which is below [`section_count`](SectionsOf::section_count).
    pub fn header_offset(self, i: usize) -> u64
        requires { i < count (sections_seen self) }
        ensures value { result ≡ header_at (sections_seen self.entry) i }
        ensures inside { result + SHDR_SIZE ≤ MAX_LEN }
    {
        match self {
            SectionsOf::Image(image) => image.header_offset(i),
            SectionsOf::File(records) => offset_in_file(records, i),
        }
    }

    /// The content of section `i`: `sh_size` bytes, but none for a section header of type `SHT_NULL` or `SHT_NOBITS`.
    pub fn content(self, i: usize) -> &'a [u8]
        requires { i < count (sections_seen self) }
        ensures bytes { result.now ≡ content_of_section (sections_seen self.entry) i }
        ensures size { length result.now ≡ (content_extent (section_header (sections_seen self.entry) i)).len }
        ensures inside { 0 < length result.now →
            (section_header (sections_seen self.entry) i).sh_offset + length result.now ≤ MAX_LEN }
    {
        match self {
            SectionsOf::Image(image) => image.content(i),
            SectionsOf::File(records) => content_in_file(records, i),
        }
    }

    /// Proves that the content of section `i` lies in a file of at most `MAX_LEN` bytes. It does nothing.
    pub fn prove_content_inside(self, i: usize)
        requires { i < count (sections_seen self) }
        ensures size { length (content_of_section (sections_seen self.entry) i) ≡
            (content_extent (section_header (sections_seen self.entry) i)).len }
        ensures inside { let s = section_header (sections_seen self.entry) i in
            0 < (content_extent s).len → s.sh_offset + (content_extent s).len ≤ MAX_LEN }
    {
        let _ = self.content(i);
    }
}

// The same of a file whose records were validated.

fn order_of_file(records: &ValidatedRecords<'_>) -> Order
    ensures { result ≡ order_of_sections (sections_in (file_of records.now)) }
{
    order_in(&records.header().e_ident)
}

fn count_in_file(records: &ValidatedRecords<'_>) -> usize
    ensures { result ≡ count (sections_in (file_of records.now)) }
{
    records.section_count() as usize
}

fn section_in_file(records: &ValidatedRecords<'_>, i: usize) -> Shdr
    requires { i < count (sections_in (file_of records.now)) }
    ensures { result ≡ section_header (sections_in (file_of records.now)) i }
{
    records.section(i as u64)
}

fn offset_in_file(records: &ValidatedRecords<'_>, i: usize) -> u64
    requires { i < count (sections_in (file_of records.now)) }
    ensures value { result ≡ header_at (sections_in (file_of records.now)) i }
    ensures inside { result + SHDR_SIZE ≤ MAX_LEN }
{
    // All section headers lie in the file.
    let _ = records.section_count();
    records.header().e_shoff + SHDR_SIZE * i as u64
}

fn content_in_file<'a>(records: &ValidatedRecords<'a>, i: usize) -> &'a [u8]
    requires { i < count (sections_in (file_of records.now)) }
    ensures bytes { result.now ≡ content_of_section (sections_in (file_of records.now)) i }
    ensures size { length result.now ≡ (content_extent (section_header (sections_in (file_of records.now)) i)).len }
    ensures inside { 0 < length result.now →
        (section_header (sections_in (file_of records.now)) i).sh_offset + length result.now ≤ MAX_LEN }
{
    // A file is at most 2^30 bytes long.
    let _ = records.section_count();
    content_of(records.bytes(), &section_in_file(records, i))
}
