//! The numbers of a file, which its accessors need, and its header.
ghost use Rattle.std.specs.Prelude.{◌≡◌, ◌≤◌, ◌↔◌, IsTrue, length, ◌<◌, ◌+◌, ◌*◌, IfSome, IsSome, ℕ, MatchOption, None, Some};
ghost use Rattle.std.specs.Bool.{OnFalse, OnTrue};
ghost use Rattle.elf_image_rules.specs.Rules.{KeepsRecordRules};
ghost use Rattle.elf_image_rules.specs.Tables.{header as file_header, file_counts, header, sections, segments, bytes_in, program_header_of};
ghost use Rattle.elf_c.specs.Files.{HasCounts, file_in, header_shape, HasEntry, IsFileOf, ReadsSection, file_order, section_shape};
ghost use Rattle.elf_c.specs.Files.{segment_shape, HasName, name_of_section, segments_listed};
ghost use Rattle.elf_field.specs.Abi.{PHDR_SIZE as phdr_size, SHDR_SIZE as shdr_size};
ghost use Rattle.elf_field.specs.Headers.{phdr_at, shdr_at};
ghost use Rattle.elf_field.specs.Strings.{string};
ghost use Rattle.elf_image_type.specs.ImageView.{HasAddress, HaveNoAddress, IsFirstWithAddress, LoadsFirst};
ghost use Rattle.elf_c_parts.specs.Slots.{extent_in};
ghost use Rattle.elf_c.specs.Tables.{name_place, string_place, slot_bytes};

use crate::places::{NOWHERE, bytes_of, place_of, place_of_content, section_of, segment_of};
use crate::shapes::{File, Header, Section, Segment, put};
use elf_c_parts::Slot;
use elf_field::Phdr;
use elf_field::abi::{EHDR_SIZE, EI_DATA, PT_LOAD, SHDR_SIZE, SHT_NULL};
use elf_image_rules::tables::{counts_of, header_of};
use elf_image_rules::{FileRecords, Records};
use elf_image_type::strings::string_at;

/// The numbers of the file, where its header and section header 0 lie in it: else false.
#[unsafe(no_mangle)]
pub extern "C" fn elfmap_file(bytes: &[u8], file: &mut File) -> bool
    ensures there { IsTrue result ↔ HasCounts bytes.now }
    ensures value { OnTrue result (file.new ≡ file_in bytes.now) }
    ensures image { KeepsRecordRules bytes.now → IsTrue result }
    ensures unchanged { OnFalse result (file.new ≡ file.old) }
{
    if (bytes.len() as u64) < EHDR_SIZE {
        return false;
    }
    let header = header_of(bytes);
    if header.e_shoff != 0 && place_of(header.e_shoff, SHDR_SIZE, 0, bytes.len()).is_none() {
        return false;
    }
    let records = FileRecords {
        bytes,
        header: &header,
    };
    let counts = counts_of(&header, &records.section(0));
    *file = File {
        e_phoff: header.e_phoff,
        e_shoff: header.e_shoff,
        sections: counts.sections,
        segments: counts.segments,
        name_table: counts.name_table,
        ei_data: header.e_ident[EI_DATA],
    };
    true
}

/// The ELF header; false if the file is shorter than one.
#[unsafe(no_mangle)]
pub extern "C" fn elfmap_header(bytes: &[u8], header: &mut Header) -> bool
    ensures there { IsTrue result ↔ (EHDR_SIZE ≤ length bytes.now) }
    ensures value { OnTrue result (header.new ≡ header_shape (file_header bytes.now)) }
    ensures unchanged { OnFalse result (header.new ≡ header.old) }
{
    if (bytes.len() as u64) < EHDR_SIZE {
        return false;
    }
    *header = Header::new(&header_of(bytes));
    true
}

// The section headers and program headers of a file.

/// Section header `index` of the file; false if there is none of this index, or it doesn't lie in the bytes.
#[unsafe(no_mangle)]
pub extern "C" fn elfmap_section(
    file: &File,
    bytes: &[u8],
    index: u64,
    section: &mut Section,
) -> bool
    ensures there { IsFileOf file.now bytes.now → IsTrue result ↔ (index < (file_counts bytes.now).sections) }
    ensures value { IsFileOf file.now bytes.now →
        OnTrue result (section.new ≡ section_shape (sections bytes.now (header bytes.now) index)) }
    ensures lies { let f = file.now in IsTrue result ↔ HasEntry f.sections f.e_shoff shdr_size index (length bytes.now) }
    ensures read { let f = file.now in
        OnTrue result (section.new ≡ section_shape (shdr_at (file_order f) bytes.now (f.e_shoff + shdr_size * index))) }
    ensures unchanged { OnFalse result (section.new ≡ section.old) }
{
    put(section_in(file, bytes, index), section)
}

/// Section header `index` of the file in the shape that C has; None if there is none of this index, or it doesn't lie in the bytes.
pub fn section_in(file: &File, bytes: &[u8], index: u64) -> Option<Section>
    ensures { ReadsSection file.now bytes.now index result }
{
    let section = section_of(file, bytes, index)?;
    Some(Section::new(&section))
}

/// Program header `index` of the file; false if there is none of this index, or it doesn't lie in the bytes.
#[unsafe(no_mangle)]
pub extern "C" fn elfmap_segment(
    file: &File,
    bytes: &[u8],
    index: u64,
    segment: &mut Segment,
) -> bool
    ensures there { IsFileOf file.now bytes.now → IsTrue result ↔ (index < (file_counts bytes.now).segments) }
    ensures value { IsFileOf file.now bytes.now →
        OnTrue result (segment.new ≡ segment_shape (segments bytes.now (header bytes.now) index)) }
    ensures lies { let f = file.now in IsTrue result ↔ HasEntry f.segments f.e_phoff phdr_size index (length bytes.now) }
    ensures read { let f = file.now in
        OnTrue result (segment.new ≡ segment_shape (phdr_at (file_order f) bytes.now (f.e_phoff + phdr_size * index))) }
    ensures unchanged { OnFalse result (segment.new ≡ segment.old) }
{
    match segment_of(file, bytes, index) {
        Some(entry) => {
            *segment = Segment::new(&entry);
            true
        }
        None => false,
    }
}

// The names of sections.

/// Where the name of section `index` is in the file, without its closing zero; false if there is no section of this index, or its header
/// doesn't lie in the bytes, or that of the section name string table doesn't, where the name is looked for there. A name of no bytes is
/// said to be at offset 0.
#[unsafe(no_mangle)]
pub extern "C" fn elfmap_name(file: &File, bytes: &[u8], index: u64, name: &mut Slot) -> bool
    ensures there { IsFileOf file.now bytes.now → IsTrue result ↔ (index < (file_counts bytes.now).sections) }
    ensures value { IsFileOf file.now bytes.now →
        OnTrue result (bytes_in bytes.now (extent_in name.new) ≡ name_of_section bytes.now index) }
    ensures lies { IsTrue result ↔ HasName file.now bytes.now index }
    ensures stands { IsFileOf file.now bytes.now → OnTrue result (name.new ≡ name_place bytes.now index) }
    ensures inside { OnTrue result (name.new.start + name.new.len ≤ length bytes.now) }
    ensures unchanged { OnFalse result (name.new ≡ name.old) }
{
    put(name_of(file, bytes, index), name)
}

/// Where the name of section `index` is: it is empty for a section header of type `SHT_NULL`, and where there is no section name string
/// table or an empty one.
fn name_of(file: &File, bytes: &[u8], index: u64) -> Option<Slot>
    ensures there { IsFileOf file.now bytes.now → IsSome result ↔ (index < (file_counts bytes.now).sections) }
    ensures value { IsFileOf file.now bytes.now →
        IfSome result (λ place. bytes_in bytes.now (extent_in place) ≡ name_of_section bytes.now index) }
    ensures lies { IsSome result ↔ HasName file.now bytes.now index }
    ensures stands { IsFileOf file.now bytes.now → IfSome result (λ place. place ≡ name_place bytes.now index) }
    ensures inside { IfSome result (λ place. place.start + place.len ≤ length bytes.now) }
{
    let section = section_of(file, bytes, index)?;
    if section.sh_type == SHT_NULL || file.name_table == 0 {
        return Some(NOWHERE);
    }
    let table = section_of(file, bytes, file.name_table)?;
    Some(place_of_string(bytes, place_of_content(&table), section.sh_name as u64))
}

/// Where the string at an offset of a string table is in the file; one of no bytes nowhere.
pub fn place_of_string(bytes: &[u8], table: Slot, offset: u64) -> Slot
    ensures value { slot_bytes bytes.now result ≡ string (slot_bytes bytes.now table) offset }
    ensures stands { result ≡ string_place bytes.now (extent_in table) offset }
    ensures inside { result.start + result.len ≤ length bytes.now }
{
    let strings = bytes_of(bytes, table);
    let len = string_at(strings, offset as usize).len() as u64;
    if len == 0 {
        return NOWHERE;
    }
    Slot {
        start: table.start + offset,
        len,
    }
}

// The bytes that the loadable segments of a file give their addresses (gABI chapter 5, Program Header).

/// The byte that the first loadable segment with this address gives it; false if none has it.
#[unsafe(no_mangle)]
pub extern "C" fn elfmap_load(file: &File, bytes: &[u8], address: u64, byte: &mut u8) -> bool
    ensures none { IsFileOf file.now bytes.now →
        OnFalse result (LoadsFirst bytes.now (segments_listed bytes.now) address None) }
    ensures value { IsFileOf file.now bytes.now →
        OnTrue result (LoadsFirst bytes.now (segments_listed bytes.now) address (Some byte.new)) }
    ensures unchanged { OnFalse result (byte.new ≡ byte.old) }
{
    match loaded_byte(file, bytes, address) {
        Some(loaded) => {
            *byte = loaded;
            true
        }
        None => false,
    }
}

/// The byte that the first loadable segment with this address gives it: that of the file, or 0 after the segment's bytes there.
fn loaded_byte(file: &File, bytes: &[u8], address: u64) -> Option<u8>
    ensures { IsFileOf file.now bytes.now → LoadsFirst bytes.now (segments_listed bytes.now) address result }
{
    let segment = first_with_address(file, bytes, address)?;
    let k = address - segment.p_vaddr;
    if k >= segment.p_filesz {
        return Some(0);
    }
    let offset = place_of(segment.p_offset, 1, k, bytes.len())?;
    Some(bytes[offset])
}

/// The first segment that is loadable and has this address.
fn first_with_address(file: &File, bytes: &[u8], address: u64) -> Option<Phdr>
    ensures has { IfSome result (λ segment. HasAddress segment address) }
    ensures first { IsFileOf file.now bytes.now → let segments = segments_listed bytes.now in
        MatchOption result (HaveNoAddress segments (length segments) address)
        (λ segment. (j : ℕ) × IsFirstWithAddress segments address j × (segment ≡ program_header_of segments j)) }
{
    for index in 0..file.segments {
        let segment = segment_of(file, bytes, index)?;
        if has_address(&segment, address) {
            return Some(segment);
        }
    }
    None
}

fn has_address(segment: &Phdr, address: u64) -> bool
    ensures { IsTrue result ↔ HasAddress segment.now address }
{
    segment.p_type == PT_LOAD
        && segment.p_vaddr <= address
        && address - segment.p_vaddr < segment.p_memsz
}
