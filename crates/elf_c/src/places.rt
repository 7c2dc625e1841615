//! Where the records and the contents of a file are, by numbers that may be any.
ghost use Rattle.std.specs.Prelude.{◌≡◌, ◌<◌, ◌≤◌, ◌+◌, ◌*◌, SomeIff, length};
ghost use Rattle.elf_field.specs.Abi.{PHDR_SIZE as phdr_size, SHDR_SIZE as shdr_size};
ghost use Rattle.elf_field.specs.Headers.{phdr_at, shdr_at};
ghost use Rattle.elf_image_rules.specs.Tables.{content_extent};
ghost use Rattle.elf_table_symbols.specs.Sections.{count, section, sections_in};
ghost use Rattle.elf_c_parts.specs.Slots.{extent_in};
ghost use Rattle.elf_c.specs.Files.{HasEntry, IsFileOf, file_order, order_named};
ghost use Rattle.elf_c.specs.Tables.{slot_bytes};

use crate::shapes::File;
use elf_c_parts::Slot;
use elf_field::abi::{ELFDATA2MSB, PHDR_SIZE, SHDR_SIZE};
use elf_field::{Order, Phdr, Shdr, get_at};
use elf_image_rules::tables::extent_of_content;

/// A place of no bytes.
pub const NOWHERE: Slot = Slot { start: 0, len: 0 };

/// The order that a data encoding names: any but `ELFDATA2MSB` is taken for the least significant byte first.
pub fn order_of(ei_data: u8) -> Order
    ensures { result ≡ order_named ei_data }
{
    if ei_data == ELFDATA2MSB {
        Order::Big
    } else {
        Order::Little
    }
}

/// Where entry `index` of a table of entries of this size is in a file of `len` bytes; None if it doesn't lie in it.
pub fn place_of(table: u64, size: u64, index: u64, len: usize) -> Option<usize>
    ensures { SomeIff result (table + size * index + size ≤ len) (table + size * index) }
{
    let offset = size.checked_mul(index)?.checked_add(table)?;
    if offset.checked_add(size)? <= len as u64 {
        Some(offset as usize)
    } else {
        None
    }
}

/// Section header `index` of the file; None if there is none of this index, or it doesn't lie in the file.
pub fn section_of(file: &File, bytes: &[u8], index: u64) -> Option<Shdr>
    ensures read { let f = file.now in
        SomeIff result (HasEntry f.sections f.e_shoff shdr_size index (length bytes.now))
        (shdr_at (file_order f) bytes.now (f.e_shoff + shdr_size * index)) }
    ensures listed { IsFileOf file.now bytes.now → let f = sections_in bytes.now in SomeIff result (index < count f) (section f index) }
{
    if index >= file.sections {
        return None;
    }
    let offset = place_of(file.e_shoff, SHDR_SIZE, index, bytes.len())?;
    Some(get_at(order_of(file.ei_data), bytes, offset))
}

/// Program header `index` of the file; None if there is none of this index, or it doesn't lie in the file.
pub fn segment_of(file: &File, bytes: &[u8], index: u64) -> Option<Phdr>
    ensures { let f = file.now in
        SomeIff result (HasEntry f.segments f.e_phoff phdr_size index (length bytes.now))
        (phdr_at (file_order f) bytes.now (f.e_phoff + phdr_size * index)) }
{
    if index >= file.segments {
        return None;
    }
    let offset = place_of(file.e_phoff, PHDR_SIZE, index, bytes.len())?;
    Some(get_at(order_of(file.ei_data), bytes, offset))
}

/// Where the content of a section is.
pub fn place_of_content(section: &Shdr) -> Slot
    ensures { extent_in result ≡ content_extent section.now }
{
    let extent = extent_of_content(section);
    Slot {
        start: extent.start,
        len: extent.len,
    }
}

/// The bytes that are in a place, as far as they lie in the file.
pub fn bytes_of(bytes: &[u8], place: Slot) -> &[u8]
    ensures content { result.now ≡ slot_bytes bytes.now place }
    ensures inside { 0 < length result.now → place.start + length result.now ≤ length bytes.now }
{
    if place.start >= bytes.len() as u64 {
        return &[];
    }
    let rest = &bytes[place.start as usize..];
    if place.len >= rest.len() as u64 {
        return rest;
    }
    &rest[..place.len as usize]
}
