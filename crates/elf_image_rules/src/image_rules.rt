//! The first rule that a file breaks.
ghost use Rattle.std.specs.Prelude.{◌≡◌, ◌+◌, ◌<◌, ◌≤◌, ◌^◌, ℕ, List, Some, IfErr, IfOk, OnErr, OnOk, Option, length};
ghost use Rattle.elf_image_rules.specs.Rows.{fault_of, FirstIn};
ghost use Rattle.elf_image_rules.specs.Rules.{IsFault, KeepsRecordRules, header_entry_rules, header_table_rules, AreEnds};
ghost use Rattle.elf_image_rules.specs.ValidatedRecords.{file_of};
ghost use Rattle.elf_image_rules.specs.Tables.{counts_in, names, names_at, phdr_offset, sections, segments, shdr_offset};

use crate::entry_rules::{validate_sections, validate_segments};
use crate::header_rules::{
    validate_header, validate_ident, validate_length, validate_program_table,
    validate_section_table,
};
use crate::name_rules::{TableEnds, ends_of, names_of, validate_names};
use crate::records::{FileRecords, Records};
use crate::rules::SHARED_BYTE;
use crate::tables::{Counts, counts_of, header_of, section_at};
use crate::validated_records::ValidatedRecords;
use elf_extent::OutOfMemory;
use elf_field::Ehdr;
use elf_field::abi::SHDR_SIZE;
use elf_image_rule_names::Broken;
use std::alloc::Global;

/// The first rule of 1 to 33 that the file breaks, and its lowest offset in bytes; None if it breaks none. It takes no memory. It is
/// linear in the records if the contents are in the order of their section headers; otherwise it takes the square of their number.
#[tactic(auto, using(crate::proofs::ImageRules::one_fault))]
pub fn verdict(bytes: &[u8]) -> Option<(u16, u64)>
    ensures fault { IsFault bytes.now result }
    ensures one { (other : Option (ℕ × ℕ)) → IsFault bytes.now other → other ≡ result }
{
    match validate(bytes) {
        Ok(()) => None,
        Err(broken) => Some((broken.rule, broken.at)),
    }
}

/// Whether the file is an image; otherwise the first rule that it breaks, and its lowest offset.
pub(crate) fn validate(bytes: &[u8]) -> Result<(), Broken<u64>>
    ensures { IsFault bytes.now (fault_of result) }
{
    match validate_records(bytes)?.shared_byte() {
        Some(at) => Err(Broken::new(SHARED_BYTE, at)),
        None => Ok(()),
    }
}

/// Validates a file by all 33 rules, as [`verdict`] does, in n log n. If the contents are not in the order of their section headers, they
/// are sorted. If that allocation fails, the same result is found without memory. Returns a file that breaks no rule with its header and
/// counts; otherwise the first rule broken and its lowest offset.
pub fn validate_by_sorting<'a>(
    alloc: Global,
    bytes: &'a [u8],
) -> Result<ValidatedRecords<'a>, Broken<u64>>
    ensures fault { IsFault bytes.entry.now (fault_of result) }
    ensures file { IfOk result (λ records. file_of records ≡ bytes.entry.now) }
{
    let records = validate_records(bytes)?;
    let found = match records.shared_byte_by_sorting(alloc) {
        Ok(found) => found,
        Err(OutOfMemory) => records.shared_byte(),
    };
    match found {
        Some(at) => Err(Broken::new(SHARED_BYTE, at)),
        None => Ok(records),
    }
}

/// The file with its header and counts, where it keeps rules 1 to 32, which leave open only whether two
/// of its parts share a byte; otherwise the first rule that it breaks, and its lowest offset.
pub fn validate_records<'a>(bytes: &'a [u8]) -> Result<ValidatedRecords<'a>, Broken<u64>>
    ensures broken { IfErr result (λ broken. IsFault bytes.entry.now (Some (broken.rule, broken.at))) }
    ensures kept { OnOk result (KeepsRecordRules bytes.entry.now) }
    ensures unkept { OnErr result (¬ KeepsRecordRules bytes.entry.now) }
    ensures file { IfOk result (λ records. file_of records ≡ bytes.entry.now) }
{
    let len = bytes.len() as u64;
    validate_length(len)?;
    let header = header_of(bytes);
    validate_ident(&header.e_ident)?;
    validate_header(&header, len)?;
    let counts = validate_tables(bytes, &header)?;
    Ok(ValidatedRecords::new(bytes, header, counts))
}

/// Rules 13 to 32, of the tables of a file with this header: its counts.
fn validate_tables(bytes: &[u8], header: &Ehdr) -> Result<Counts, Broken<u64>>
    requires { header.now.e_shoff + SHDR_SIZE ≤ length bytes.now }
    ensures fault { let b = bytes.now in
        let h = header.now in
        FirstIn (header_table_rules (length b) h (sections b h) (segments b h) (names b h)) (fault_of result) }
    ensures value { IfOk result (λ c. c ≡ counts_in header.now (sections bytes.now header.now 0)) }
{
    let len = bytes.len() as u64;
    let first = section_at(bytes, header, 0);
    validate_section_table(header, &first, len)?;
    validate_program_table(header, &first, len)?;
    let counts = counts_of(header, &first);
    let ends = ends_of(names_of(bytes, header, counts.name_table));
    validate_entries(&FileRecords { bytes, header }, header, counts, ends, len)?;
    Ok(counts)
}

/// Rules 22 to 32, of a file of `len` bytes with these counts and this section name string table.
pub fn validate_entries<T: Records>(
    records: &T,
    header: &Ehdr,
    counts: Counts,
    ends: TableEnds,
    len: u64,
) -> Result<(), Broken<u64>>
    requires sections { (i : ℕ) → i < counts.sections → T.HasSection records.now i }
    requires section_table { shdr_offset header.now counts.sections < 2 ^ 64 }
    requires segments { (j : ℕ) → j < counts.segments → T.HasSegment records.now j }
    requires program_table { 0 < counts.segments → phdr_offset header.now counts.segments < 2 ^ 64 }
    requires name_table { T.HasSection records.now counts.name_table }
    requires name_table_place { shdr_offset header.now counts.name_table + SHDR_SIZE < 2 ^ 64 }
    requires names { 0 < ends.len → (T.sections records.now counts.name_table).sh_offset + ends.len < 2 ^ 64 }
    ensures { (names : List ℕ) → AreEnds ends names →
        FirstIn (header_entry_rules len header.now counts (T.sections records.now) (T.segments records.now) names)
        (fault_of result) }
{
    validate_sections(records, header, counts.sections, len)?;
    validate_segments(records, header, counts.segments, len)?;
    validate_names(records, header, counts.sections, counts.name_table, ends)
}
