//! A section that may hold a table, and one that links to another section (gABI chapter 4, Sections).
ghost use Rattle.std.specs.Prelude.{◌≡◌, ◌↔◌, ◌<◌, ◌⊎◌, IsTrue, length, ◌%◌, Some, OnOk};
ghost use Rattle.elf_table_symbols.specs.Sections.{IsLinkOf, IsSymbolType, entry_size as entry_size_of, kind_of, section, sections_seen};
ghost use Rattle.elf_table_symbols.specs.Sections.{own_rules, count, entry_size};
ghost use Rattle.elf_image_rules.specs.Rows.{fault_of, FirstIn};

use crate::rules::*;
use crate::sections_of::SectionsOf;
use elf_field::abi::*;
use elf_field::{Order, Shdr};
use elf_image_rules::Broken;

// The kinds of tables, and what the section headers of those say whose entries are of one size
// (gABI chapter 4, Sections: sh_type, sh_link, sh_entsize).

/// A kind of table.
#[derive(Clone, Copy, PartialEq, Eq)]
pub enum TableKind {
    /// A symbol table: SYMTAB or DYNSYM.
    SymbolTable,
    /// A relocation section: REL or RELA.
    RelocationTable,
    /// A section group: GROUP.
    SectionGroup,
    /// A note section: NOTE.
    NoteSection,
    /// A dynamic array: DYNAMIC.
    DynamicArray,
    /// A symbol hash table: HASH.
    HashTable,
}

impl TableKind {
    /// The kind of table that a section of this type holds; None if it holds none that is a list of entries. String tables
    /// are no lists.
    pub fn of(section_type: u32) -> Option<TableKind>
        ensures { result ≡ kind_of section_type }
    {
        match section_type {
            SHT_SYMTAB | SHT_DYNSYM => Some(TableKind::SymbolTable),
            SHT_REL | SHT_RELA => Some(TableKind::RelocationTable),
            SHT_GROUP => Some(TableKind::SectionGroup),
            SHT_NOTE => Some(TableKind::NoteSection),
            SHT_DYNAMIC => Some(TableKind::DynamicArray),
            SHT_HASH => Some(TableKind::HashTable),
            _ => None,
        }
    }

    /// The size in bytes of the entries of such a table, in a section of this type. Notes are of any size: 1 represents them.
    pub(crate) fn entry_size(self, section_type: u32) -> u64
        ensures value { result ≡ entry_size_of self section_type }
        ensures some { 0 < result }
    {
        match self {
            TableKind::SymbolTable => SYM_SIZE,
            TableKind::RelocationTable if section_type == SHT_RELA => RELA_SIZE,
            TableKind::RelocationTable => REL_SIZE,
            TableKind::DynamicArray => DYN_SIZE,
            TableKind::SectionGroup | TableKind::HashTable => WORD_SIZE,
            TableKind::NoteSection => 1,
        }
    }

    /// Whether such a table may link to a section of this type.
    pub(crate) fn is_link(self, section_type: u32) -> bool
        ensures { IsTrue result ↔ IsLinkOf self section_type }
    {
        match self {
            TableKind::SymbolTable | TableKind::DynamicArray => section_type == SHT_STRTAB,
            TableKind::RelocationTable | TableKind::HashTable => is_symbol_type(section_type),
            TableKind::SectionGroup => section_type == SHT_SYMTAB,
            TableKind::NoteSection => false,
        }
    }
}

// Whether a section of this type holds symbols.
fn is_symbol_type(section_type: u32) -> bool
    ensures { IsTrue result ↔ IsSymbolType section_type }
{
    section_type == SHT_SYMTAB || section_type == SHT_DYNSYM
}

/// A section of an image or of a file, which may hold a table. It is given by its index, of which there is a section.
#[derive(Clone, Copy, Drop)]
pub struct TableSection<'i, 'a> {
    /// The sections of the image or of the file.
    pub sections: SectionsOf<'i, 'a>,
    /// The section's index.
    pub index: usize,
    ghost there: { index < count (sections_seen sections) },
}

impl<'i, 'a> TableSection<'i, 'a> {
    ghost use Rattle.std.specs.Prelude.{◌≡◌, ◌≤◌, ◌+◌};
    ghost use Rattle.elf_image_rules.specs.Rules.{MAX_LEN};
    ghost use Rattle.elf_image_rules.specs.Tables.{content_extent};
    ghost use Rattle.elf_table_symbols.specs.Sections.{content, header_at, order};

    /// The byte order of the file.
    pub fn order(self) -> Order
        ensures { result ≡ order (sections_seen self.entry.sections) }
    {
        self.sections.order()
    }

    /// The section header.
    pub fn header(self) -> Shdr
        ensures { result ≡ section (sections_seen self.entry.sections) self.entry.index }
    {
        self.sections.section(self.index)
    }

    /// The offset in the file of its section header.
    pub fn header_offset(self) -> u64
        ensures value { result ≡ header_at (sections_seen self.entry.sections) self.entry.index }
        ensures inside { result + SHDR_SIZE ≤ MAX_LEN }
    {
        self.sections.header_offset(self.index)
    }

    /// The section's content, empty where it has none in the file.
    pub fn content(self) -> &'a [u8]
        ensures bytes { result.now ≡ content (sections_seen self.entry.sections) self.entry.index }
        ensures size { length result.now ≡ (content_extent (section (sections_seen self.entry.sections) self.entry.index)).len }
        ensures inside { 0 < length result.now →
            (section (sections_seen self.entry.sections) self.entry.index).sh_offset + length result.now ≤ MAX_LEN }
    {
        self.sections.content(self.index)
    }
}

/// A section that links to another one.
#[derive(Clone, Copy, Drop)]
pub struct LinkedTable<'i, 'a> {
    /// The section that links.
    pub table: TableSection<'i, 'a>,
    ghost linked: { (section (sections_seen table.sections) table.index).sh_link < count (sections_seen table.sections) },
}

impl<'i, 'a> LinkedTable<'i, 'a> {
    ghost use Rattle.std.specs.Prelude.{◌≡◌, ◌≤◌, ◌+◌};
    ghost use Rattle.elf_image_rules.specs.Rules.{MAX_LEN};
    ghost use Rattle.elf_table_symbols.specs.Sections.{content};

    /// The index of the section that it links to.
    pub fn link(self) -> usize
        ensures value { result ≡ (section (sections_seen self.entry.table.sections) self.entry.table.index).sh_link }
        ensures there { result < count (sections_seen self.entry.table.sections) }
    {
        self.table.header().sh_link as usize
    }

    /// The header of the section that it links to.
    pub fn linked_header(self) -> Shdr
        ensures { let f = sections_seen self.entry.table.sections in result ≡ section f (section f self.entry.table.index).sh_link }
    {
        self.table.sections.section(self.link())
    }

    /// The content of the section that it links to.
    pub fn linked_content(self) -> &'a [u8]
        ensures bytes { let f = sections_seen self.entry.table.sections in
            result.now ≡ content f (section f self.entry.table.index).sh_link }
        ensures inside { let f = sections_seen self.entry.table.sections in
            0 < length result.now → (section f (section f self.entry.table.index).sh_link).sh_offset + length result.now ≤ MAX_LEN }
    {
        self.table.sections.content(self.link())
    }
}

// Rules 40 and 42 to 44: what the section header of a table says of the table by itself
// (gABI chapter 4, Sections: sh_type, sh_size, sh_link, sh_entsize).

/// Rules 40 and 42 to 44 of a table of this kind.
#[tactic(auto, unfolding(crate::specs::Sections::own_rules))]
pub fn validate_own_rules(table: TableSection<'_, '_>, kind: TableKind) -> Result<(), Broken<u64>>
    ensures fault { FirstIn (own_rules kind (sections_seen table.entry.sections) table.entry.index) (fault_of result) }
    ensures typed { OnOk result (kind_of (section (sections_seen table.entry.sections) table.entry.index).sh_type ≡ Some kind) }
    ensures sized { let s = section (sections_seen table.entry.sections) table.entry.index in
        OnOk result (s.sh_size % entry_size kind s.sh_type ≡ 0) }
    ensures linked { let f = sections_seen table.entry.sections in let link = (section f table.entry.index).sh_link in
        OnOk result ((link < count f) × IsLinkOf kind (section f link).sh_type) }
{
    let section = table.header();
    let at = table.header_offset();
    let size = kind.entry_size(section.sh_type);
    if TableKind::of(section.sh_type) != Some(kind) {
        return Err(Broken::new(WRONG_TABLE_TYPE, at + SH_TYPE_AT));
    }
    if section.sh_entsize != size {
        return Err(Broken::new(WRONG_ENTRY_SIZE, at + SH_ENTSIZE_AT));
    }
    if section.sh_size % size != 0 {
        return Err(Broken::new(PARTIAL_ENTRY, at + SH_SIZE_AT));
    }
    let link = section.sh_link as usize;
    let sections = table.sections;
    if link >= sections.section_count() || !kind.is_link(sections.section(link).sh_type) {
        return Err(Broken::new(WRONG_LINK, at + SH_LINK_AT));
    }
    Ok(())
}
