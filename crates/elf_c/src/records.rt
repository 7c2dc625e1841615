//! In which record of an owner an offset is, and in which field of it.
ghost use Rattle.std.specs.Prelude.{◌≡◌, ◌<◌, ◌≤◌, ◌↔◌, IsTrue, MatchOption, None, Some};
ghost use Rattle.std.specs.Bool.{OnFalse, OnTrue};
ghost use Rattle.elf_extent.specs.Extent.{Never};
ghost use Rattle.elf_c.specs.Fields.{record_widths};
ghost use Rattle.elf_c.specs.Owners.{OwnsOffset};
ghost use Rattle.elf_c.specs.Places.{AreRecords, AreRecordsAt, HoldsRecords, IsNotePlaceAt, IsPlaceAmong, IsPlaceOf};
ghost use Rattle.elf_c.specs.declared.fields.RecordKind.TheVariants.{Word};
ghost use Rattle.elf_c.specs.declared.fields.RecordKind.{RecordKind as kinds};
ghost use Rattle.elf_c.specs.declared.records.Records.{Records as records_with};
ghost use Rattle.elf_field.specs.Record.{width_of};

use crate::fields::{RecordKind, field_at};
use crate::note_places::note_place;
use crate::owners::has_offset;
use crate::places::{bytes_of, order_of, place_of_content, section_of};
use crate::shapes::{File, Place, put};
use elf_c_parts::Slot;
use elf_field::abi::*;

/// Records of one kind, one after the other.
#[derive(Clone, Copy)]
pub struct Records {
    /// Their kind.
    pub kind: RecordKind,
    /// The offset of the first one.
    pub start: u64,
}

/// The record of an owner that has this offset, and its field; false if the owner does not have the offset, or is no records, or has the
/// offset in a note that is cut, or after it.
#[unsafe(no_mangle)]
pub extern "C" fn elfmap_place(
    file: &File,
    bytes: &[u8],
    offset: u64,
    owner: u64,
    place: &mut Place,
) -> bool
    ensures found { OnTrue result (IsPlaceOf file.now bytes.now offset owner place.new) }
    ensures none { OnFalse result (Never (AreRecordsAt file.now bytes.now offset owner)) }
    ensures no_note { OnFalse result (Never (IsNotePlaceAt file.now bytes.now offset owner)) }
    ensures unchanged { OnFalse result (place.new ≡ place.old) }
{
    put(place_in(file, bytes, offset, owner), place)
}

/// The record of an owner that has this offset, and its field.
fn place_in(file: &File, bytes: &[u8], offset: u64, owner: u64) -> Option<Place>
    ensures { MatchOption result
        (Never (AreRecordsAt file.now bytes.now offset owner) × Never (IsNotePlaceAt file.now bytes.now offset owner))
        (IsPlaceOf file.now bytes.now offset owner) }
{
    if !has_offset(file, bytes, offset, owner) {
        return None;
    }
    let Some(records) = records_of(file, bytes, owner) else {
        return place_of_note(file, bytes, offset, owner);
    };
    Some(place_among(records, offset))
}

/// The note of an owner that has this offset, and its field; None if the owner is no note section, or the note is cut.
fn place_of_note(file: &File, bytes: &[u8], offset: u64, owner: u64) -> Option<Place>
    requires { OwnsOffset file.now bytes.now offset owner }
    ensures { MatchOption result (Never (IsNotePlaceAt file.now bytes.now offset owner)) (IsNotePlaceAt file.now bytes.now offset owner) }
{
    if owner < 3 {
        return None;
    }
    let Some(section) = section_of(file, bytes, owner - 3) else {
        return None;
    };
    if section.sh_type != SHT_NOTE {
        return None;
    }
    let place = place_of_content(&section);
    let content = bytes_of(bytes, place);
    note_place(order_of(file.ei_data), content, place.start, offset)
}

/// The records that an owner is; None if it is none, and if there is no section of its index.
fn records_of(file: &File, bytes: &[u8], owner: u64) -> Option<Records>
    ensures { MatchOption result (Never (AreRecords file.now bytes.now owner)) (AreRecords file.now bytes.now owner) }
{
    if owner == 0 {
        return Some(Records {
            kind: RecordKind::Ehdr,
            start: 0,
        });
    }
    if owner == 1 {
        return Some(Records {
            kind: RecordKind::Shdr,
            start: file.e_shoff,
        });
    }
    if owner == 2 {
        return Some(Records {
            kind: RecordKind::Phdr,
            start: file.e_phoff,
        });
    }
    let section = section_of(file, bytes, owner - 3)?;
    let kind = record_kind(section.sh_type)?;
    Some(Records {
        kind,
        start: place_of_content(&section).start,
    })
}

/// The records that a section of this type holds.
fn record_kind(section_type: u32) -> Option<RecordKind>
    ensures { MatchOption result (Never (HoldsRecords section_type)) (HoldsRecords section_type) }
{
    match section_type {
        SHT_SYMTAB | SHT_DYNSYM => Some(RecordKind::Sym),
        SHT_RELA => Some(RecordKind::Rela),
        SHT_REL => Some(RecordKind::Rel),
        SHT_DYNAMIC => Some(RecordKind::Dyn),
        SHT_GROUP | SHT_SYMTAB_SHNDX | SHT_HASH => Some(RecordKind::Word),
        _ => None,
    }
}

/// Whether a section of this type holds words.
pub fn holds_words(section_type: u32) -> bool
    ensures { IsTrue result ↔ HoldsRecords section_type Word }
{
    section_type == SHT_GROUP || section_type == SHT_SYMTAB_SHNDX || section_type == SHT_HASH
}

/// Of records one after the other, the one that has this offset, and its field.
fn place_among(records: Records, offset: u64) -> Place
    requires { records.start ≤ offset }
    ensures { IsPlaceAmong records offset result }
{
    let size = size_of(records.kind);
    let entry = (offset - records.start) / size;
    let inner = (offset - records.start) % size;
    Place {
        entry,
        record: Slot {
            start: offset - inner,
            len: size,
        },
        field: field_at(records.kind, inner),
    }
}

/// How many bytes a record takes.
fn size_of(kind: RecordKind) -> u64
    ensures size { result ≡ width_of (record_widths kind) }
    ensures some { 0 < result }
{
    match kind {
        RecordKind::Ehdr => EHDR_SIZE,
        RecordKind::Shdr => SHDR_SIZE,
        RecordKind::Phdr => PHDR_SIZE,
        RecordKind::Sym => SYM_SIZE,
        RecordKind::Rela => RELA_SIZE,
        RecordKind::Rel => REL_SIZE,
        RecordKind::Dyn => DYN_SIZE,
        RecordKind::Word => WORD_SIZE,
    }
}
