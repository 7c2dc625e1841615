//! All rules of a hash table, with words that the caller lends in place of memory (gABI chapter 5, Hash Table).
ghost use Rattle.std.specs.Prelude.{◌≡◌, ◌≢◌, ◌≤◌, ◌<◌, ◌*◌, length, None, ℕ};
ghost use Rattle.elf_extent.specs.Extent.{IsLowest};
ghost use Rattle.elf_image_rules.specs.Rows.{fault_of, FirstIn};
ghost use Rattle.elf_table_hash.specs.ChainDepths.{IsDepthKnown};
ghost use Rattle.elf_table_hash.specs.HashRules.{chain_rules, hash_parts, hash_parts_value, hash_rules, hash_table_rules, symbol_off_chain};
ghost use Rattle.elf_table_hash.specs.HashTable.{AreHashWords, bucket, bucket_of, name_of, nbucket, nchain};
ghost use Rattle.elf_table_symbols.specs.Sections.{own_rules, section, sections_seen};
ghost use Rattle.elf_table_symbols.specs.Symbols.{AreKnown, symbol_table_rules};

use crate::hash_building::elf_hash;
use crate::hash_chains::KnownChains;
use crate::hash_parts::HashParts;
use crate::hash_rules::{lowest_endless_chain, validate_words};
use elf_field::abi::*;
use elf_image_rules::Broken;
use elf_image_type::strings::string_at;
use elf_table_symbols::rules::*;
use elf_table_symbols::{LinkedTable, SymbolVerdicts, TableKind, TableSection, validate_own_rules};

/// All rules of a hash table, by these verdicts on the symbol tables: 40, 42, 43, 44, then all rules of the symbol table that the section
/// links to, then 65 to 69. [`Broken`] is the first that is broken, at its lowest offset.
///
/// It takes no memory but the room: as many words as the table has bytes are enough. It writes over them. The time is n log n in the
/// symbols, and linear in the lengths of their names together: the name of each symbol is hashed, unless there is one bucket.
#[tactic(auto, unfolding(crate::specs::HashRules::hash_table_rules))]
pub fn validate_hash_table_in(
    table: TableSection<'_, '_>,
    symbols: SymbolVerdicts<'_>,
    room: &mut [u32],
) -> Result<(), Broken<u64>>
    requires known { AreKnown (sections_seen table.sections) symbols }
    requires room { (section (sections_seen table.sections) table.index).sh_size ≤ length room.old }
    ensures fault { FirstIn (hash_table_rules (sections_seen table.entry.sections) table.entry.index) (fault_of result) }
    ensures long { length room.new ≡ length room.old }
{
    validate_own_rules(table, TableKind::HashTable)?;
    let linked = LinkedTable { table };
    symbols.of(linked)?;
    validate_hash_in(linked, room)
}

// Rules 65 to 69 of a hash table whose section header breaks no rule, as the symbol table that it links to.
#[tactic(auto, unfolding(crate::specs::HashRules::hash_rules))]
fn validate_hash_in(linked: LinkedTable<'_, '_>, room: &mut [u32]) -> Result<(), Broken<u64>>
    requires own { FirstIn (own_rules TableKind.HashTable (sections_seen linked.table.sections) linked.table.index) None }
    requires symbols { let f = sections_seen linked.table.sections in
        FirstIn (symbol_table_rules f (section f linked.table.index).sh_link) None }
    requires room { (section (sections_seen linked.table.sections) linked.table.index).sh_size ≤ length room.old }
    ensures fault { FirstIn (hash_rules (sections_seen linked.entry.table.sections) linked.entry.table.index) (fault_of result) }
    ensures long { length room.new ≡ length room.old }
{
    let parts = HashParts::new(linked);
    validate_words(&parts)?;
    validate_chains_in(&parts, room)
}

// Rules 68 and 69.
#[tactic(auto, unfolding(crate::specs::HashRules::chain_rules))]
fn validate_chains_in(parts: &HashParts<'_>, room: &mut [u32]) -> Result<(), Broken<u64>>
    requires some_bucket { nbucket parts.now.words ≢ 0 }
    requires one_each { nchain parts.now.words ≡ length parts.now.names }
    requires linked { AreHashWords parts.now.words }
    requires room { 4 * nchain parts.now.words ≤ length room.old }
    ensures fault { FirstIn (chain_rules (hash_parts_value parts.now)) (fault_of result) }
    ensures long { length room.new ≡ length room.old }
{
    let symbols = parts.words.nchain() as usize;
    let (depth, rest) = room.split_at_mut(symbols);
    let (jump, rest) = rest.split_at_mut(symbols);
    let (starts, path) = rest.split_at_mut(symbols);
    if let Some(at) = lowest_endless_chain(parts, depth, jump, starts, path) {
        return Err(Broken::new(ENDLESS_CHAIN, at));
    }
    let chains = KnownChains::new(&parts.words, depth, jump, starts);
    match lowest_symbol_off(parts, &chains) {
        Some(at) => Err(Broken::new(SYMBOL_OFF_CHAIN, at)),
        None => Ok(()),
    }
}

// The lowest offset in the file of the chain word of a symbol from 1 on that is not on the chain of its name's bucket.
fn lowest_symbol_off(parts: &HashParts<'_>, chains: &KnownChains<'_, '_>) -> Option<u64>
    requires some_bucket { nbucket parts.now.words ≢ 0 }
    requires one_each { nchain parts.now.words ≡ length parts.now.names }
    requires linked { AreHashWords parts.now.words }
    requires own { chains.now.words ≡ parts.now.words }
    requires known { (b : ℕ) → b < nbucket parts.now.words → IsDepthKnown chains.now.depth (bucket parts.now.words b) }
    ensures { IsLowest (symbol_off_chain (hash_parts_value parts.now)) result }
{
    let words = &parts.words;
    for s in 1..words.nchain() {
        let start = start_of_symbol(parts, s);
        if !chains.is_on(start, s) {
            let before = 2 + words.nbucket() as u64 + s as u64;
            return Some(parts.start + WORD_SIZE * before);
        }
    }
    None
}

// The word of the bucket for symbol `s`.
fn start_of_symbol(parts: &HashParts<'_>, s: u32) -> u32
    requires some_bucket { nbucket parts.now.words ≢ 0 }
    requires linked { AreHashWords parts.now.words }
    requires inside { s < length parts.now.names }
    ensures { result ≡ bucket_of parts.now.words (name_of parts.now.names s) }
{
    // Every hash leads to an only bucket.
    if parts.words.nbucket() == 1 {
        return parts.words.bucket_of(0);
    }
    let name = string_at(parts.strings, parts.name_offset(s) as usize);
    parts.words.bucket_of(elf_hash(name))
}
