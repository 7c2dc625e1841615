//! String tables (gABI chapter 4, String Table).
ghost use Rattle.std.specs.Prelude.{◌≡◌, ◌≢◌, ◌<◌, ◌≤◌, ◌⊎◌, ◌+◌, MatchOption, length};
ghost use Rattle.elf_image_rules.specs.Rules.{MAX_LEN};
ghost use Rattle.elf_image_rules.specs.Rows.{fault_of, FirstIn};
ghost use Rattle.elf_field.specs.Strings.{string};
ghost use Rattle.elf_table_symbols.specs.Verdicts.{IsValidated, IsOnlyValidated, OfItsFile};
ghost use Rattle.elf_table_symbols.specs.Sections.{content, sections_of, sections_seen};
ghost use Rattle.elf_table_symbols.specs.Symbols.{linked_string_rules, string_table_rules};

use crate::rules::*;
use crate::sections_of::SectionsOf;
use crate::table_section::TableSection;
use elf_field::abi::*;
use elf_image_rules::{Broken, unclosed_at};
use elf_image_stream::Fault;
use elf_image_type::Image;
use elf_image_type::strings::string_at;
use std::marker::Model;

/// A string table: strings one after the other, each ended by a zero. It is a list of bytes, and borrows from the bytes
/// of the file, as its strings do: both may outlive the image.
#[derive(Drop)]
pub struct Strings<'a> {
    table: &'a [u8],
}

impl<'a> Model for Strings<'a> {
    ghost use Rattle.std.specs.Prelude.{ℕ, List};

    ghost Value = { List ℕ };

    ghost view = { λ strings. strings.table.now };
}

impl<'a> Strings<'a> {
    /// The string table that section `i` holds, where `i` is below the image's count of section headers. It takes no memory.
    ///
    /// [`Fault::Rule`] is the first of rules 40 and 41 that the section breaks, at its lowest offset; no other fault comes.
    /// It looks at the first and the last byte of the table alone.
    pub fn new(image: &Image<'a>, i: usize) -> Result<Strings<'a>, Fault>
        requires { i < length image.now.sections }
        ensures validated { IsValidated (string_table_rules (sections_of image.now) i)
            (λ strings. strings ≡ content (sections_of image.now) i) result }
        ensures file { OfItsFile image.now
            (λ f. IsOnlyValidated (string_table_rules f i) (λ strings. strings ≡ content f i) result) }
    {
        image.prove_stands();
        let table = TableSection {
            sections: SectionsOf::Image(image),
            index: i,
        };
        validate_string_table(table)?;
        Ok(Strings {
            table: table.content(),
        })
    }

    /// The bytes from `offset` to the first zero. None if `offset` is not below the table's size in bytes, but an empty
    /// table has the empty string at offset 0. Linear in the string; it takes no memory.
    pub fn get(&self, offset: u64) -> Option<&'a [u8]>
        ensures { MatchOption result
            ((length self.now ≤ offset) × ((offset ≢ 0) ⊎ (0 < length self.now)))
            (λ found. (found.now ≡ string self.now offset) × ((offset < length self.now) ⊎ (offset ≡ 0))) }
    {
        if offset >= self.table.len() as u64 && (offset != 0 || !self.table.is_empty()) {
            return None;
        }
        Some(string_at(self.table, offset as usize))
    }
}

/// Rules 40 and 41 of a string table.
#[tactic(auto, unfolding(crate::specs::Symbols::string_table_rules))]
fn validate_string_table(table: TableSection<'_, '_>) -> Result<(), Broken<u64>>
    ensures { FirstIn (string_table_rules (sections_seen table.entry.sections) table.entry.index) (fault_of result) }
{
    let section = table.header();
    let at = table.header_offset();
    if section.sh_type != SHT_STRTAB {
        return Err(Broken::new(WRONG_TABLE_TYPE, at + SH_TYPE_AT));
    }
    validate_linked_strings(table.content(), section.sh_offset)
}

/// Rule 41 of a string table at this offset in the file, which another table links to. [`Broken`] has the lowest offset where the rule is
/// broken: that of the first byte where this isn't 0, else of the last.
#[tactic(auto, unfolding(crate::specs::Symbols::linked_string_rules))]
pub fn validate_linked_strings(table: &[u8], start: u64) -> Result<(), Broken<u64>>
    requires { 0 < length table.now → start + length table.now ≤ MAX_LEN }
    ensures { FirstIn (linked_string_rules table.now start) (fault_of result) }
{
    match unclosed_at(table, start) {
        Some(at) => Err(Broken::new(UNCLOSED_STRING_TABLE, at)),
        None => Ok(()),
    }
}
