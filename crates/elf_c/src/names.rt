//! Finding a section by its name (gABI chapter 4, Sections: `sh_name`; String Table).
ghost use Rattle.std.specs.Prelude.{◌≡◌, ◌<◌, ◌+◌, ◌^◌, ◌↔◌, IsTrue, length};
ghost use Rattle.std.specs.Bool.{OnFalse, OnTrue};
ghost use Rattle.elf_extent.specs.Extent.{IsLeast, IsLowest, Never};
ghost use Rattle.elf_field.specs.Strings.{string};
ghost use Rattle.elf_c.specs.Files.{IsFileOf};
ghost use Rattle.elf_c.specs.Names.{HasSectionNamed, IsNamed};

use crate::places::{bytes_of, place_of_content, section_of};
use crate::shapes::{File, put};
use elf_field::abi::{SHDR_SIZE, SHT_NULL};
use elf_image_type::strings::string_at;

/// The index of the first section of this name; false if no section has it.
#[unsafe(no_mangle)]
pub extern "C" fn elfmap_section_named(
    file: &File,
    bytes: &[u8],
    name: &[u8],
    index: &mut u64,
) -> bool
    ensures first { IsFileOf file.now bytes.now → OnTrue result (IsLeast (HasSectionNamed bytes.now name.now) index.new) }
    ensures none { IsFileOf file.now bytes.now → OnFalse result (Never (HasSectionNamed bytes.now name.now)) }
    ensures first_read { OnTrue result (IsLeast (IsNamed file.now bytes.now name.now) index.new) }
    ensures none_read { OnFalse result (Never (IsNamed file.now bytes.now name.now)) }
    ensures unchanged { OnFalse result (index.new ≡ index.old) }
{
    put(first_named(file, bytes, name), index)
}

/// The index of the first section of this name.
fn first_named(file: &File, bytes: &[u8], name: &[u8]) -> Option<u64>
    ensures { IsLowest (IsNamed file.now bytes.now name.now) result }
{
    // No other section header lies in the file.
    for index in 0..file.sections.min(bytes.len() as u64 / SHDR_SIZE) {
        if is_named(file, bytes, name, index) {
            return Some(index);
        }
    }
    None
}

/// Whether section `index` is there, and has this name.
fn is_named(file: &File, bytes: &[u8], name: &[u8], index: u64) -> bool
    ensures { IsTrue result ↔ IsNamed file.now bytes.now name.now index }
{
    let Some(section) = section_of(file, bytes, index) else {
        return false;
    };
    if section.sh_type == SHT_NULL || file.name_table == 0 {
        return name.is_empty();
    }
    match section_of(file, bytes, file.name_table) {
        Some(table) => {
            let strings = bytes_of(bytes, place_of_content(&table));
            is_string_at(strings, section.sh_name, name)
        }
        None => false,
    }
}

/// Whether this is the string at an offset of a string table. No more of that is read than one byte beyond this length.
fn is_string_at(table: &[u8], offset: u32, text: &[u8]) -> bool
    ensures { IsTrue result ↔ (string table.now offset ≡ text.now) }
{
    let end = offset as usize + text.len();
    if end < table.len() && table[end] != 0 {
        return false;
    }
    string_at(table, offset as usize) == text
}
