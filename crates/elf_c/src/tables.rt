//! The tables that sections hold (gABI chapters 4 and 5).
ghost use Rattle.std.specs.Prelude.{◌≡◌, ℕ, length, ◌↔◌, IsTrue, Some, SomeIff};
ghost use Rattle.std.specs.Bool.{OnFalse, OnTrue};
ghost use Rattle.elf_table_lists.specs.Notes.{notes_of};
ghost use Rattle.elf_table_symbols.specs.declared.table_section.TableKind.TheVariants.{NoteSection};
ghost use Rattle.elf_c.specs.Tables.{length_in, HoldsTable, IsLinkThere, IsTableOf, IsTableOfKind, index_place, linked_place};
ghost use Rattle.elf_c.specs.Tables.{strings_place, table_in, whole_notes};
ghost use Rattle.elf_table_symbols.specs.Sections.{kind_of, sections_in};
ghost use Rattle.elf_table_symbols.specs.Symbols.{index_table};
ghost use Rattle.elf_c.specs.Files.{IsFileOf};

use crate::notes::end_of_note;
use crate::places::{NOWHERE, bytes_of, order_of, place_of_content, section_of};
use crate::shapes::{File, Table, put};
use elf_c_parts::Slot;
use elf_field::abi::{SHT_RELA, SHT_SYMTAB_SHNDX, SYM_SIZE, WORD_SIZE};
use elf_field::{Order, Shdr};
use elf_table_lists::{first_null_entry, relocation_count};
use elf_table_symbols::TableKind;

// How many entries a table has (gABI chapters 4 and 5).

/// How many entries a table of this kind has in a section of this type: of a dynamic array those before the first of tag `DT_NULL`, of a
/// note section the notes before the first that is cut, of a group or a hash table its words. A section of no kind is an index table.
pub fn length_of(order: Order, content: &[u8], kind: Option<TableKind>, section_type: u32) -> usize
    ensures { result ≡ length_in kind section_type order content.now }
{
    match kind {
        Some(TableKind::SymbolTable) => content.len() / SYM_SIZE as usize,
        Some(TableKind::RelocationTable) => relocation_count(section_type == SHT_RELA, content),
        Some(TableKind::NoteSection) => note_count(order, content),
        Some(TableKind::DynamicArray) => first_null_entry(order, content),
        Some(TableKind::SectionGroup | TableKind::HashTable) | None => {
            content.len() / WORD_SIZE as usize
        }
    }
}

/// How many notes of a content are before the first that is cut.
fn note_count(order: Order, content: &[u8]) -> usize
    ensures { result ≡ whole_notes order content.now }
{
    let mut count = 0;
    let mut at = 0;
    while let Some(end) = end_of_note(order, content, at as u64) {
        at = end;
        count += 1;
    }
    count
}

/// The numbers of the table in section `index`; false if there is no section of this index, or it holds no table that the accessors
/// read, or a section that it links to is not there.
#[unsafe(no_mangle)]
pub extern "C" fn elfmap_table(file: &File, bytes: &[u8], index: u64, table: &mut Table) -> bool
    ensures there { IsFileOf file.now bytes.now → IsTrue result ↔ HoldsTable bytes.now index }
    ensures value { IsFileOf file.now bytes.now → OnTrue result (table.new ≡ table_in bytes.now index) }
    ensures notes { IsTableOf NoteSection table.new bytes.now index → table.new.entries ≡ length (notes_of (sections_in bytes.now) index) }
    ensures unchanged { OnFalse result (table.new ≡ table.old) }
{
    put(table_of(file, bytes, index), table)
}

/// The numbers of the table in section `index`.
fn table_of(file: &File, bytes: &[u8], index: u64) -> Option<Table>
    ensures { IsFileOf file.now bytes.now → SomeIff result (HoldsTable bytes.now index) (table_in bytes.now index) }
{
    let section = section_of(file, bytes, index)?;
    let kind = TableKind::of(section.sh_type);
    let (linked, strings) = linked_of(file, bytes, index, &section, kind)?;
    let place = place_of_content(&section);
    let content = bytes_of(bytes, place);
    Some(Table {
        content: place,
        linked,
        strings,
        entries: length_of(order_of(file.ei_data), content, kind, section.sh_type) as u64,
        sh_type: section.sh_type,
        ei_data: file.ei_data,
    })
}

/// What a table of this kind in section `index`, with this section header, is read by beside its own content: where its index table or its
/// symbol table is, and where its strings are. A section of no kind is an index table, or none that is read.
fn linked_of(
    file: &File,
    bytes: &[u8],
    index: u64,
    section: &Shdr,
    kind: Option<TableKind>,
) -> Option<(Slot, Slot)>
    ensures { IsFileOf file.now bytes.now → let f = sections_in bytes.now in let s = section.now in
        SomeIff result (IsLinkThere kind f s) (linked_place kind f index s.sh_link, strings_place kind f s.sh_link) }
{
    let link = section.sh_link as u64;
    match kind {
        Some(TableKind::NoteSection) => Some((NOWHERE, NOWHERE)),
        Some(TableKind::RelocationTable | TableKind::SectionGroup) => {
            section_of(file, bytes, link)?;
            Some((NOWHERE, NOWHERE))
        }
        Some(TableKind::SymbolTable) => {
            let names = section_of(file, bytes, link)?;
            Some((
                place_of_index_table(file, bytes, index),
                place_of_content(&names),
            ))
        }
        Some(TableKind::DynamicArray) => {
            let strings = section_of(file, bytes, link)?;
            Some((NOWHERE, place_of_content(&strings)))
        }
        Some(TableKind::HashTable) => {
            let symbols = section_of(file, bytes, link)?;
            let names = section_of(file, bytes, symbols.sh_link as u64)?;
            Some((place_of_content(&symbols), place_of_content(&names)))
        }
        None => {
            if section.sh_type != SHT_SYMTAB_SHNDX {
                return None;
            }
            section_of(file, bytes, link)?;
            Some((NOWHERE, NOWHERE))
        }
    }
}

/// Where the index table of the symbol table in section `index` is: the content of the first section of type `SHT_SYMTAB_SHNDX` that links
/// to it; nowhere where there is none.
fn place_of_index_table(file: &File, bytes: &[u8], index: u64) -> Slot
    ensures { IsFileOf file.now bytes.now → let f = sections_in bytes.now in result ≡ index_place f (index_table f index) }
{
    for j in 0..file.sections {
        let Some(section) = section_of(file, bytes, j) else {
            return NOWHERE;
        };
        if section.sh_type == SHT_SYMTAB_SHNDX && section.sh_link as u64 == index {
            return place_of_content(&section);
        }
    }
    NOWHERE
}

/// Whether these are numbers of a table of this kind.
pub fn is_of_kind(table: &Table, kind: TableKind) -> bool
    ensures { IsTrue result ↔ IsTableOfKind kind table.now }
{
    TableKind::of(table.sh_type) == Some(kind)
}
