//! Rules 30 to 32: the section name string table, and the sections' names in it
//! (gABI chapter 4, ELF Header: e_shstrndx; String Table; Sections: sh_name).
ghost use Rattle.std.specs.Prelude.{◌≡◌, ◌<◌, ◌+◌, ◌^◌, ℕ, List, length, ◌≢◌, ◌≤◌};
ghost use Rattle.elf_extent.specs.Extent.{IsLowest};
ghost use Rattle.elf_image_rules.specs.Rules.{AreEnds, UnclosedAt, section_name_rules};
ghost use Rattle.elf_image_rules.specs.Rows.{fault_of, FirstIn};
ghost use Rattle.elf_image_rules.specs.Tables.{names_at, sections, shdr_offset};

use crate::entry_rules::{SectionRule, lowest_section};
use crate::records::Records;
use crate::rules::*;
use crate::tables::{content_of, section_at};
use elf_field::Ehdr;
use elf_field::abi::*;
use elf_image_rule_names::Broken;

// String tables (gABI chapter 4, String Table): the first and the last byte are 0.

/// What rules look at of a string table: its length in bytes, and its first and last byte, which are
/// any where it is empty.
#[derive(Clone, Copy, Debug, PartialEq, Eq)]
pub struct TableEnds {
    /// How many bytes it has.
    pub len: u64,
    /// The first byte.
    pub first: u8,
    /// The last byte.
    pub last: u8,
}

/// The length and the ends of a string table.
pub fn ends_of(table: &[u8]) -> TableEnds
    ensures { AreEnds result table.now }
{
    let (first, last) = match (table.first(), table.last()) {
        (Some(first), Some(last)) => (*first, *last),
        _ => (0, 0),
    };
    TableEnds {
        len: table.len() as u64,
        first,
        last,
    }
}

/// The offset in the file of the first or last byte of a string table at `start`, if one of them
/// isn't 0; the lower one where both aren't.
pub fn unclosed_at(table: &[u8], start: u64) -> Option<u64>
    requires { 0 < length table.now → start + length table.now < 2 ^ 64 }
    ensures { IsLowest (UnclosedAt table.now start) result }
{
    unclosed_end(ends_of(table), start)
}

/// What [`unclosed_at`] returns of a table that isn't at hand, by its length and ends.
pub(crate) fn unclosed_end(ends: TableEnds, start: u64) -> Option<u64>
    requires { 0 < ends.len → start + ends.len < 2 ^ 64 }
    ensures { (table : List ℕ) → AreEnds ends table → IsLowest (UnclosedAt table start) result }
{
    if ends.len == 0 {
        None
    } else if ends.first != 0 {
        Some(start)
    } else if ends.last != 0 {
        Some(start + (ends.len - 1))
    } else {
        None
    }
}

/// The content of the section name string table of index `table`; 0 is none, and empty.
#[tactic(auto, unfolding(crate::specs::Tables::names_at))]
pub fn names_of<'a>(bytes: &'a [u8], header: &Ehdr, table: u64) -> &'a [u8]
    requires { header.now.e_shoff ≢ 0 → shdr_offset header.now table + SHDR_SIZE ≤ length bytes.now }
    ensures names { result.now ≡ names_at bytes.now header.now table }
    ensures inside { let start = (sections bytes.now header.now table).sh_offset in
        0 < length result.now → start + length result.now ≤ length bytes.now }
{
    if table == 0 {
        return &[];
    }
    content_of(bytes, &section_at(bytes, header, table))
}

/// Rules 30 to 32, of `count` sections with the name table of index `table`, 0 for none, of this
/// length and these ends.
#[tactic(auto, unfolding(crate::specs::Rules::section_name_rules))]
pub fn validate_names<T: Records>(
    records: &T,
    header: &Ehdr,
    count: u64,
    table: u64,
    ends: TableEnds,
) -> Result<(), Broken<u64>>
    requires there { (i : ℕ) → i < count → T.HasSection records.now i }
    requires fits { shdr_offset header.now count < 2 ^ 64 }
    requires table { T.HasSection records.now table }
    requires place { shdr_offset header.now table + SHDR_SIZE < 2 ^ 64 }
    requires names { 0 < ends.len → (T.sections records.now table).sh_offset + ends.len < 2 ^ 64 }
    ensures { (names : List ℕ) → AreEnds ends names →
        FirstIn (section_name_rules header.now count table (T.sections records.now) names) (fault_of result) }
{
    let entry = records.section(table);
    if table != 0 && entry.sh_type != SHT_STRTAB {
        return Err(Broken::new(
            WRONG_NAME_TABLE_TYPE,
            header.e_shoff + SHDR_SIZE * table + SH_TYPE_AT,
        ));
    }
    if let Some(at) = unclosed_end(ends, entry.sh_offset) {
        return Err(Broken::new(UNCLOSED_NAME_TABLE, at));
    }
    let rule = SectionRule::NamePastEnd(ends.len);
    if let Some(at) = lowest_section(records, header, count, rule) {
        return Err(Broken::new(NAME_PAST_END, at));
    }
    Ok(())
}
