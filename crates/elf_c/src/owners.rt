//! What an offset of a file belongs to, also of a file that breaks rules.
ghost use Rattle.std.specs.Prelude.{◌≡◌, ◌↔◌, IsTrue};
ghost use Rattle.std.specs.Bool.{OnFalse, OnTrue};
ghost use Rattle.elf_extent.specs.Extent.{IsLeast, IsLowest, Never};
ghost use Rattle.elf_c.specs.Owners.{OwnsOffset, OwnsOffsetFrom, IsInContentAt};

use crate::places::{place_of_content, section_of};
use crate::shapes::{File, put};
use elf_field::abi::{EHDR_SIZE, PHDR_SIZE, SHDR_SIZE};

/// The lowest owner from `first` on that has this offset; false if none has.
#[unsafe(no_mangle)]
pub extern "C" fn elfmap_owner(
    file: &File,
    bytes: &[u8],
    offset: u64,
    first: u64,
    owner: &mut u64,
) -> bool
    ensures found { OnTrue result (IsLeast (OwnsOffsetFrom file.now bytes.now offset first) owner.new) }
    ensures none { OnFalse result (Never (OwnsOffsetFrom file.now bytes.now offset first)) }
    ensures unchanged { OnFalse result (owner.new ≡ owner.old) }
{
    put(first_owner(file, bytes, offset, first), owner)
}

/// The lowest owner from `first` on that has this offset.
fn first_owner(file: &File, bytes: &[u8], offset: u64, first: u64) -> Option<u64>
    ensures { IsLowest (OwnsOffsetFrom file.now bytes.now offset first) result }
{
    // No other section header lies in the file.
    let end = file.sections.min(bytes.len() as u64 / SHDR_SIZE) + 3;
    for owner in first..end {
        if has_offset(file, bytes, offset, owner) {
            return Some(owner);
        }
    }
    None
}

/// Whether an owner has this offset: 0 is the header, 1 the section header table, 2 the program header table, and 3 + i the content of
/// section i.
pub fn has_offset(file: &File, bytes: &[u8], offset: u64, owner: u64) -> bool
    ensures { IsTrue result ↔ OwnsOffset file.now bytes.now offset owner }
{
    if owner == 0 {
        return offset < EHDR_SIZE;
    }
    if owner == 1 {
        let table = file.e_shoff;
        return table != 0 && table <= offset && (offset - table) / SHDR_SIZE < file.sections;
    }
    if owner == 2 {
        let table = file.e_phoff;
        return table != 0 && table <= offset && (offset - table) / PHDR_SIZE < file.segments;
    }
    is_in_content(file, bytes, owner - 3, offset)
}

/// Whether the content of section `index` has this offset. Without a section header table there is none.
fn is_in_content(file: &File, bytes: &[u8], index: u64, offset: u64) -> bool
    ensures { IsTrue result ↔ IsInContentAt file.now bytes.now index offset }
{
    if file.e_shoff == 0 {
        return false;
    }
    match section_of(file, bytes, index) {
        Some(section) => {
            let place = place_of_content(&section);
            place.start <= offset && offset - place.start < place.len
        }
        None => false,
    }
}
