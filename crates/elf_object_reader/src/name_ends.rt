//! Where the names of an object's symbols and sections end in the string tables of its file (gABI chapter 4, String Table).
//!
//! Of two names with one end the longer one ends with the shorter one, so neither is read. The longest names of each end, the leaders,
//! share no bytes. They are sorted, and a name is known by the first and the last leader that end with it (`LeaderRange` of
//! `elf_object_strings`). Two names are compared by these numbers and their lengths, also where their ends differ. If the ends of long
//! names ascend, no two are one, and no leader is sought.
//!
//! A slice does not say where it is, and the toolchain compares no pointers into different blocks of memory: so the ends go with the object
//! (`NameEnds` of `elf_object_type`). Names of objects that are made by an application have no known ends, and are compared. Names of up to
//! 64 bytes are compared too. If no name is longer, no ends are listed. One pass over the string table finds where the names end that go on
//! from one block of 4,096 bytes into the next (`StringBlocks`).
ghost use Rattle.std.specs.Prelude.{◌≡◌, ◌<◌, IfOk, Some, length, map};
ghost use Rattle.std.specs.List.{list_any};
ghost use Rattle.elf_object_layout.specs.SectionsLeftOut.{left_out, symbol_table};
ghost use Rattle.elf_object_reader.specs.Denotes.{kept, symbols_denoted};
ghost use Rattle.elf_object_reader.specs.FileRules.{sections_of_file};
ghost use Rattle.elf_object_reader.specs.NameEnds.{is_long, name_end, section_end, symbol_ends, useful_section_ends, useful_symbol_ends};
ghost use Rattle.elf_object_type.specs.ObjectView.{section_value, symbol_value};
ghost use Rattle.elf_table_symbols.specs.Sections.{sections_of};

use crate::reading::ObjectReader;
use elf_field::abi::*;
use elf_field::{Sym, get_at};
use elf_image_rules::MAX_LEN;
use elf_image_type::Image;
use elf_object_layout::symbol_table;
use elf_object_strings::SHORT_NAME;
use elf_object_type::{Section, Symbol};
use std::alloc::{AllocError, Global};

// Symbols.

/// For each symbol that was read of an image, in their order, where its name ends in the string table. If no name is long, the list is
/// empty: only the ends of long names save time.
pub(crate) fn useful_symbol_ends(
    alloc: Global,
    image: &Image<'_>,
    symbols: &[Symbol<'_>],
) -> Result<Vec<u32>, AllocError>
    requires { let f = sections_of image.now in map symbol_value symbols.now ≡ symbols_denoted (left_out f) f (symbol_table f) }
    ensures { let f = sections_of image.now in IfOk result (λ ends. ends.items ≡ useful_symbol_ends (map symbol_value symbols.now) f) }
{
    if has_long_symbol(symbols) {
        symbol_ends(alloc, image, symbols)
    } else {
        Ok(Vec::new(alloc))
    }
}

/// Whether a symbol has a long name.
fn has_long_symbol(symbols: &[Symbol<'_>]) -> bool
    ensures { result ≡ list_any (λ symbol. is_long symbol.name.now) symbols.now }
{
    symbols.iter().any(|symbol| symbol.name.len() > SHORT_NAME)
}

/// For each symbol that was read of an image, in their order, where its name ends in the string table.
fn symbol_ends(
    alloc: Global,
    image: &Image<'_>,
    symbols: &[Symbol<'_>],
) -> Result<Vec<u32>, AllocError>
    requires { let f = sections_of image.now in map symbol_value symbols.now ≡ symbols_denoted (left_out f) f (symbol_table f) }
    ensures { let f = sections_of image.now in IfOk result (λ ends. ends.items ≡ symbol_ends f (symbol_table f)) }
{
    match symbol_table(image) {
        Some(t) => table_ends(alloc, image, t, symbols),
        None => Ok(Vec::new(alloc)),
    }
}

/// For each symbol that was read of the symbol table in section `t`, where its name ends in the string table.
fn table_ends(
    alloc: Global,
    image: &Image<'_>,
    t: usize,
    symbols: &[Symbol<'_>],
) -> Result<Vec<u32>, AllocError>
    requires there { t < length image.now.sections }
    requires read { let f = sections_of image.now in map symbol_value symbols.now ≡ symbols_denoted (left_out f) f (Some t) }
    ensures { IfOk result (λ ends. ends.items ≡ symbol_ends (sections_of image.now) (Some t)) }
{
    let order = image.order();
    let table = image.content(t);
    let mut ends = Vec::with_capacity(alloc, symbols.len())?;
    for j in 0..symbols.len() {
        let entry: Sym = get_at(order, table, SYM_SIZE as usize * (j + 1));
        ends.push(name_end(entry.st_name, symbols[j].name))?;
    }
    Ok(ends)
}

// Sections.

/// For each section that was read of a file, in their order, where its name ends in the section name string table. If no name is long, the
/// list is empty.
pub(crate) fn useful_section_ends(
    alloc: Global,
    reader: &ObjectReader<'_, '_>,
    sections: &[Section<'_>],
) -> Result<Vec<u32>, AllocError>
    ensures { let file = reader.now.file in
        IfOk result (λ ends. ends.items ≡ useful_section_ends (map section_value sections.now) file.left (sections_of_file file)) }
{
    if has_long_section(sections) {
        section_ends(alloc, reader)
    } else {
        Ok(Vec::new(alloc))
    }
}

/// Whether a section has a long name.
fn has_long_section(sections: &[Section<'_>]) -> bool
    ensures { result ≡ list_any (λ section. is_long section.name.now) sections.now }
{
    sections
        .iter()
        .any(|section| section.name.len() > SHORT_NAME)
}

/// For each section that the object keeps, in their order, where its name ends in the section name string table.
fn section_ends(alloc: Global, reader: &ObjectReader<'_, '_>) -> Result<Vec<u32>, AllocError>
    ensures { let file = reader.now.file in let f = sections_of_file file in
        IfOk result (λ ends. ends.items ≡ map (section_end f) (kept file.left f)) }
{
    let file = &reader.file;
    let mut ends = Vec::new(alloc);
    for i in 0..file.image.section_count() {
        if file.is_kept(i) {
            let offset = file.image.section(i).sh_name;
            ends.push(name_end(offset, reader.names.string(offset)))?;
        }
    }
    Ok(ends)
}

// Names.

/// Where a name at an offset of a string table ends: the offset after it, plus 1; 0 where no file is that long.
fn name_end(offset: u32, name: &[u8]) -> u32
    ensures { result ≡ name_end offset name.now }
{
    let after = offset as u64 + name.len() as u64;
    if after < MAX_LEN { after as u32 + 1 } else { 0 }
}
