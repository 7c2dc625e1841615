//! A file as a value: its records, contents and parts.
ghost use Rattle.std.specs.Prelude.{◌≡◌, ◌<◌, ◌≤◌, ◌+◌, ℕ, [], List, get_or, length, map, MatchResult, OnErr, OnOk};
ghost use Rattle.elf_image_rules.specs.Rules.{MAX_LEN};
ghost use Rattle.elf_image_rules.specs.Tables.{content_extent, name_table, order_of, shdr_offset};
ghost use Rattle.elf_image_outline.specs.Image.{IsImage, IsSoundImage, program_header_of, section_header_of, value_names, AreParts};
ghost use Rattle.elf_image_outline.specs.Image.{IsReplaceFault, IsReplaceable, IsSectionIndex, with_content, with_entry, with_flags};
ghost use Rattle.elf_image_outline.specs.Image.{with_zero_gaps};
ghost use Rattle.elf_image_outline.specs.Outline.{image_of};
ghost use Rattle.elf_image_type.specs.ImageView.{LoadsFirst, section_name};

use crate::loading::load;
use crate::strings::string_at;
use elf_field::abi::{SHDR_SIZE, SHT_NOBITS, SHT_NULL};
use elf_field::{Ehdr, Order, Phdr, Shdr};
use elf_image_outline::{NoSection, Outline, Part, ReplaceFault};
use std::marker::Model;

/// An ELF-64 file that breaks no rule, as a value: what [`parse`](crate::parse) makes of the file's
/// bytes, which it borrows, and what [`write`](crate::write) writes.
///
/// Any image, edited or as read, is represented by exactly one list of bytes, which breaks no rule either. No accessor and no edit takes
/// memory. Offsets and lengths are in bytes.
#[derive(Debug, Drop)]
pub struct Image<'a> {
    pub(crate) outline: Outline,
    // The bytes of the file, for the gaps.
    pub(crate) file: &'a [u8],
    // One for each section header, empty where the section has none in the file.
    pub(crate) contents: Vec<&'a [u8]>,
}

impl<'a> Model for Image<'a> {
    ghost use Rattle.elf_image_outline.specs.Image.{ImageValue, IsSoundImage};

    ghost Value = { ImageValue };

    ghost use Rattle.elf_image_type.specs.ImageView.{view_of};

    ghost view = { view_of };

    ghost invariant = { λ a. IsSoundImage (view_of a) };
}

impl<'a> Image<'a> {
    /// The image of these records and parts, with the contents, and the file that the gaps' bytes are in.
    pub(crate) fn new(outline: Outline, file: &'a [u8], contents: Vec<&'a [u8]>) -> Image<'a>
        requires { IsSoundImage (image_of outline (map (λ c. c.now) contents.items) file.now) }
        ensures { result ≡ image_of outline (map (λ c. c.now) contents.entry.items) file.entry.now }
    {
        Image {
            outline,
            file,
            contents,
        }
    }

    /// Proves that the image is represented by a list of bytes that breaks no rule. Code of another type does not see the invariant: this
    /// call shows it. It does nothing.
    pub fn prove_stands(&self)
        ensures { (b : List ℕ) × IsImage self.now b }
    {
        let _ = &self.outline;
    }

    /// The length of the file, in bytes; no edit changes it.
    pub fn len(&self) -> u64
        ensures value { result ≡ self.now.len }
        ensures short { result ≤ MAX_LEN }
    {
        self.outline.len()
    }

    /// The byte order, as identification byte 5 says it (gABI chapter 4, Data Encoding).
    pub fn order(&self) -> Order
        ensures { result ≡ order_of self.now.header.e_ident }
    {
        self.outline.order()
    }

    /// The ELF header (gABI chapter 4, ELF Header).
    pub fn header(&self) -> Ehdr
        ensures { result ≡ self.now.header }
    {
        self.outline.header()
    }

    /// How many section headers there are, number 0 among them; 0 without a section header table.
    pub fn section_count(&self) -> usize
        ensures { result ≡ length self.now.sections }
    {
        self.outline.sections().len()
    }

    /// How many program headers there are.
    pub fn segment_count(&self) -> usize
        ensures { result ≡ length self.now.segments }
    {
        self.outline.segments().len()
    }

    /// The index of the section name string table, 0 for none (gABI chapter 4, ELF Header:
    /// `e_shstrndx`).
    pub fn name_table(&self) -> u32
        ensures { result ≡ name_table self.now.header (section_header_of self.now.sections 0) }
    {
        self.outline.name_table()
    }

    /// Section header `i`, which is below [`section_count`](Image::section_count); number 0 as it is in the file.
    pub fn section(&self, i: usize) -> Shdr
        requires { i < length self.now.sections }
        ensures value { result ≡ section_header_of self.now.sections i }
        ensures inside { shdr_offset self.now.header i + SHDR_SIZE ≤ self.now.len }
        ensures short { self.now.len ≤ MAX_LEN }
    {
        self.outline.section(i)
    }

    /// Proves that section header `i` lies in the file, so that offsets in it are numbers of 64 bits.
    fn prove_header_inside(&self, i: usize)
        requires { i < length self.now.sections }
        ensures inside { shdr_offset self.now.header i + SHDR_SIZE ≤ self.now.len }
        ensures short { self.now.len ≤ MAX_LEN }
    {
        let _ = self.section(i);
    }

    /// The offset in the file of section header `i`, which is below
    /// [`section_count`](Image::section_count).
    pub fn header_offset(&self, i: usize) -> u64
        requires { i < length self.now.sections }
        ensures value { result ≡ shdr_offset self.now.header i }
        ensures inside { result + SHDR_SIZE ≤ self.now.len }
        ensures short { self.now.len ≤ MAX_LEN }
    {
        self.prove_header_inside(i);
        self.header().e_shoff + SHDR_SIZE * i as u64
    }

    /// Program header `j`, which is below [`segment_count`](Image::segment_count).
    pub fn segment(&self, j: usize) -> Phdr
        requires { j < length self.now.segments }
        ensures { result ≡ program_header_of self.now.segments j }
    {
        self.outline.segment(j)
    }

    /// The name of section `i`, without its closing zero. It is empty for a section header of type
    /// `SHT_NULL`, and where there is no section name string table or an empty one. Linear in the name.
    pub fn name(&self, i: usize) -> &'a [u8]
        requires { i < length self.now.sections }
        ensures { result.now ≡ section_name self.now i }
    {
        let section = self.section(i);
        if section.sh_type == SHT_NULL {
            return &[];
        }
        string_at(self.names(), section.sh_name as usize)
    }

    // The content of the section name string table, empty without one.
    fn names(&self) -> &'a [u8]
        ensures { result.now ≡ value_names self.now.header self.now.sections self.now.contents }
    {
        let index = self.name_table() as usize;
        if index == 0 {
            return &[];
        }
        self.contents[index]
    }

    /// The content of section `i`, as read or as replaced: `sh_size` bytes, but none for a section
    /// header of type `SHT_NULL` or `SHT_NOBITS`.
    pub fn content(&self, i: usize) -> &'a [u8]
        requires { i < length self.now.sections }
        ensures bytes { result.now ≡ get_or self.now.contents i [] }
        ensures size { length result.now ≡ (content_extent (section_header_of self.now.sections i)).len }
        ensures inside { 0 < length result.now →
            (section_header_of self.now.sections i).sh_offset + length result.now ≤ self.now.len }
        ensures short { self.now.len ≤ MAX_LEN }
    {
        self.contents[i]
    }

    /// Proves that the content of section `i` lies in the file, so that offsets in it are numbers of 64 bits.
    pub fn prove_content_inside(&self, i: usize)
        requires { i < length self.now.sections }
        ensures size { length (get_or self.now.contents i []) ≡ (content_extent (section_header_of self.now.sections i)).len }
        ensures inside { let s = section_header_of self.now.sections i in
            0 < (content_extent s).len → s.sh_offset + (content_extent s).len ≤ self.now.len }
        ensures short { self.now.len ≤ MAX_LEN }
    {
        let _ = self.content(i);
    }

    /// The offset in the file of the content of section `i`: `sh_offset`, at which the section has
    /// bytes only where its content is not empty.
    pub fn content_offset(&self, i: usize) -> u64
        requires { i < length self.now.sections }
        ensures value { result ≡ (section_header_of self.now.sections i).sh_offset }
        ensures inside { 0 < (content_extent (section_header_of self.now.sections i)).len →
            result + (content_extent (section_header_of self.now.sections i)).len ≤ self.now.len }
        ensures short { self.now.len ≤ MAX_LEN }
    {
        self.prove_content_inside(i);
        self.section(i).sh_offset
    }

    /// The byte that the loadable segments (`PT_LOAD`) give an address, by the first one that has it; `None` if none has it (gABI
    /// chapter 5, Program Header).
    ///
    /// A segment has `p_memsz` addresses from `p_vaddr` on. The first `p_filesz` of them have the bytes at `p_offset` of the file that
    /// represents the image, edited or as read; the others are 0. Linear in the segments and the parts.
    pub fn load(&self, address: u64) -> Option<u8>
        ensures loads { (b : List ℕ) × IsImage self.now b × LoadsFirst b self.now.segments address result }
        ensures each { (b : List ℕ) → IsImage self.now b → LoadsFirst b self.now.segments address result }
    {
        load(&self.outline, &self.contents, self.file, address)
    }

    /// What each byte of the file belongs to: the parts in ascending order, none of them empty, each
    /// byte in just one.
    pub fn parts(&self) -> &[Part]
        ensures value { result.now ≡ map (λ p. p.part) self.now.parts }
        ensures parts { AreParts self.now result.now }
    {
        self.outline.parts()
    }
}

// The edits of an image (gABI chapter 4, ELF Header, Sections). Each changes just its own field, content or gaps, and leaves an
// image again.

impl<'a> Image<'a> {
    /// Sets `e_entry`.
    pub fn set_entry(&mut self, entry: u64)
        ensures { self.new ≡ with_entry self.old entry }
    {
        self.outline.set_entry(entry);
    }

    /// Sets `sh_flags` of section `i`. Returns [`NoSection`], and changes nothing, if `i` is 0 or not below
    /// [`section_count`](Image::section_count).
    pub fn set_flags(&mut self, i: usize, flags: u64) -> Result<(), NoSection>
        ensures ok { OnOk result (IsSectionIndex self.old i × (self.new ≡ with_flags self.old i flags)) }
        ensures err { OnErr result ((¬ IsSectionIndex self.old i) × (self.new ≡ self.old)) }
    {
        self.outline.set_flags(i, flags)
    }

    /// Replaces the content of section `i` by as many other bytes, which are borrowed. A fault changes
    /// nothing. It is [`ReplaceFault::NoSection`] if `i` is 0 or not below
    /// [`section_count`](Image::section_count), or the section is of type `SHT_NULL` or `SHT_NOBITS`; otherwise
    /// [`ReplaceFault::WrongLength`] if these are not `sh_size` bytes; otherwise
    /// [`ReplaceFault::NameTable`] if `i` is [`name_table`](Image::name_table).
    pub fn replace(&mut self, i: usize, content: &'a [u8]) -> Result<(), ReplaceFault>
        ensures ok { OnOk result (IsReplaceable self.old i content.now ×
            (self.new ≡ with_content self.old i content.now)) }
        ensures err { MatchResult result (λ _. Unit {0}) (λ fault.
            IsReplaceFault self.old i content.now fault × (self.new ≡ self.old)) }
    {
        self.check_replaceable(i, content)?;
        self.contents[i] = content;
        Ok(())
    }

    // Why the content of section `i` can't be replaced by this one.
    fn check_replaceable(&self, i: usize, content: &[u8]) -> Result<(), ReplaceFault>
        ensures { MatchResult result (λ _. IsReplaceable self.now i content.now)
            (IsReplaceFault self.now i content.now) }
    {
        if i == 0 || i >= self.section_count() {
            return Err(ReplaceFault::NoSection);
        }
        let section = self.section(i);
        if section.sh_type == SHT_NULL || section.sh_type == SHT_NOBITS {
            return Err(ReplaceFault::NoSection);
        }
        if content.len() as u64 != section.sh_size {
            return Err(ReplaceFault::WrongLength);
        }
        if i == self.name_table() as usize {
            return Err(ReplaceFault::NameTable);
        }
        Ok(())
    }

    /// Sets every byte of every gap to 0.
    pub fn zero_gaps(&mut self)
        ensures { self.new ≡ with_zero_gaps self.old }
    {
        self.outline.zero_gaps();
    }
}
