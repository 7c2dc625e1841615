//! Rules 65 to 69 of a hash table, and all of its rules (gABI chapter 5, Hash Table).
ghost use Rattle.std.specs.Prelude.{◌≡◌, ◌≢◌, ◌≤◌, ◌<◌, ◌+◌, ◌*◌, OnOk, length, get_or, ⊤, ℕ, None, Some, List, IfNone, IfOk};
ghost use Rattle.elf_extent.specs.Extent.{IsLowest};
ghost use Rattle.elf_image_rules.specs.Rows.{fault_of, FirstIn};
ghost use Rattle.elf_table_hash.specs.HashRules.{hash_parts_value, hash_word_past_end, word_rules, hash_parts, chain_rules, hash_rules};
ghost use Rattle.elf_table_hash.specs.HashRules.{endless_chain, hash_table_front, hash_table_rules, symbol_off_chain};
ghost use Rattle.elf_table_hash.specs.HashTable.{AreHashWords, bucket, bucket_of, hash_of, name_of, nbucket, nchain};
ghost use Rattle.elf_table_symbols.specs.Verdicts.{IsTestedAfter};
ghost use Rattle.elf_table_symbols.specs.Symbols.{AreKnown, symbol_table_rules};
ghost use Rattle.elf_table_symbols.specs.Sections.{content, own_rules, section, sections_seen};
ghost use Rattle.elf_table_hash.specs.ChainDepths.{AreKnownChains, IsDepthKnown};

use crate::hash_building::elf_hash;
use crate::hash_chains::{KnownChains, begin, lowest_endless};
use crate::hash_parts::HashParts;
use crate::name_hashes::NameHashes;
use elf_field::abi::*;
use elf_image_rules::Broken;
use elf_image_stream::BytesFault;
use elf_image_type::strings::string_at;
use elf_table_symbols::rules::*;
use elf_table_symbols::{LinkedTable, SymbolVerdicts, TableKind, TableSection, validate_own_rules};
use std::alloc::{AllocError, Global};

// Rules 65 to 67: the words of a hash table (gABI chapter 5, Hash Table).

/// Rules 65 to 67 of a hash table.
#[tactic(auto, unfolding(crate::specs::HashRules::word_rules))]
pub(crate) fn validate_words(parts: &HashParts<'_>) -> Result<(), Broken<u64>>
    ensures fault { FirstIn (word_rules (hash_parts_value parts.now)) (fault_of result) }
    ensures some_bucket { OnOk result (nbucket parts.now.words ≢ 0) }
    ensures one_each { OnOk result (nchain parts.now.words ≡ length parts.now.names) }
    ensures linked { OnOk result (AreHashWords parts.now.words) }
{
    if parts.size < WORD_SIZE * 2 {
        return Err(Broken::new(WRONG_HASH_SIZE, parts.header + SH_SIZE_AT));
    }
    let nbucket = parts.words.nbucket();
    let nchain = parts.words.nchain();
    if parts.size != WORD_SIZE * (2 + nbucket as u64 + nchain as u64) {
        return Err(Broken::new(WRONG_HASH_SIZE, parts.header + SH_SIZE_AT));
    }
    if nbucket == 0 {
        return Err(Broken::new(WRONG_HASH_COUNT, parts.start));
    }
    if nchain as usize != parts.names.len() {
        return Err(Broken::new(WRONG_HASH_COUNT, parts.start + WORD_SIZE));
    }
    match lowest_hash_word_past_end(parts) {
        Some(at) => Err(Broken::new(HASH_WORD_PAST_END, at)),
        None => Ok(()),
    }
}

/// The lowest offset in the file of a word, after the first two, of a table as long as they say, that is none of a symbol.
fn lowest_hash_word_past_end(parts: &HashParts<'_>) -> Option<u64>
    requires { parts.now.size ≡ WORD_SIZE * (2 + nbucket parts.now.words + nchain parts.now.words) }
    ensures { IsLowest (hash_word_past_end (hash_parts_value parts.now)) result }
{
    let nchain = parts.words.nchain();
    for k in 0..parts.words.len() - 2 {
        if parts.words.get(2 + k) >= nchain {
            return Some(parts.start + WORD_SIZE * (2 + k as u64));
        }
    }
    None
}

/// All rules of a hash table, by these verdicts on the symbol tables, and by the hashes of the image's names.
/// [`BytesFault::OutOfMemory`] comes only if no rule from 40 to 67 is broken.
#[tactic(auto, unfolding(crate::specs::HashRules::hash_table_rules, crate::specs::HashRules::hash_table_front))]
pub fn validate_hash_table(
    alloc: Global,
    table: TableSection<'_, '_>,
    symbols: SymbolVerdicts<'_>,
    hashes: &mut NameHashes<'_, '_>,
) -> Result<(), BytesFault>
    requires known { AreKnown (sections_seen table.sections) symbols }
    requires own_hashes { hashes.old ≡ sections_seen table.sections }
    ensures validated { let f = sections_seen table.entry.sections in
        IsTestedAfter (hash_table_front f table.entry.index) (hash_table_rules f table.entry.index) (λ _. ⊤) result }
    ensures image { hashes.new ≡ hashes.old }
{
    validate_own_rules(table, TableKind::HashTable)?;
    let linked = LinkedTable { table };
    symbols.of(linked)?;
    validate_hash(alloc, linked, hashes)
}

/// Rules 65 to 69 of a hash table whose section header breaks no rule, as the symbol table that it links to.
/// [`BytesFault::OutOfMemory`] comes only if none of 65 to 67 is broken.
#[tactic(auto, unfolding(crate::specs::HashRules::hash_rules))]
fn validate_hash(
    alloc: Global,
    linked: LinkedTable<'_, '_>,
    hashes: &mut NameHashes<'_, '_>,
) -> Result<(), BytesFault>
    requires own { FirstIn (own_rules TableKind.HashTable (sections_seen linked.table.sections) linked.table.index) None }
    requires symbols { let f = sections_seen linked.table.sections in
        FirstIn (symbol_table_rules f (section f linked.table.index).sh_link) None }
    requires own_hashes { hashes.old ≡ sections_seen linked.table.sections }
    ensures validated { let f = sections_seen linked.entry.table.sections in let i = linked.entry.table.index in
        IsTestedAfter (word_rules (hash_parts f i)) (hash_rules f i) (λ _. ⊤) result }
    ensures image { hashes.new ≡ hashes.old }
{
    let parts = HashParts::new(linked);
    validate_words(&parts)?;
    let verdict = validate_chains(alloc, &parts, hashes)?;
    Ok(verdict?)
}

// How many words the test of chains takes for each symbol: three lists and a path.
const CHAIN_WORDS: usize = 4;

// Rules 68 and 69.
fn validate_chains(
    alloc: Global,
    parts: &HashParts<'_>,
    hashes: &mut NameHashes<'_, '_>,
) -> Result<Result<(), Broken<u64>>, AllocError>
    requires some_bucket { nbucket parts.now.words ≢ 0 }
    requires one_each { nchain parts.now.words ≡ length parts.now.names }
    requires linked { AreHashWords parts.now.words }
    requires own_strings { parts.now.strings.now ≡ content hashes.old parts.now.strings_index }
    ensures verdict { IfOk result (λ verdict. FirstIn (chain_rules (hash_parts_value parts.now)) (fault_of verdict)) }
    ensures image { hashes.new ≡ hashes.old }
{
    let mut room = Vec::new(alloc);
    room.resize(CHAIN_WORDS * parts.words.nchain() as usize, 0)?;
    validate_chains_by(alloc, parts, hashes, &mut room)
}

// The same, with words to write into.
#[tactic(auto, unfolding(crate::specs::HashRules::chain_rules))]
fn validate_chains_by(
    alloc: Global,
    parts: &HashParts<'_>,
    hashes: &mut NameHashes<'_, '_>,
    room: &mut [u32],
) -> Result<Result<(), Broken<u64>>, AllocError>
    requires some_bucket { nbucket parts.now.words ≢ 0 }
    requires one_each { nchain parts.now.words ≡ length parts.now.names }
    requires linked { AreHashWords parts.now.words }
    requires own_strings { parts.now.strings.now ≡ content hashes.old parts.now.strings_index }
    requires room { 4 * nchain parts.now.words ≤ length room.old }
    ensures verdict { IfOk result (λ verdict. FirstIn (chain_rules (hash_parts_value parts.now)) (fault_of verdict)) }
    ensures image { hashes.new ≡ hashes.old }
{
    let symbols = parts.words.nchain() as usize;
    let (depth, rest) = room.split_at_mut(symbols);
    let (jump, rest) = rest.split_at_mut(symbols);
    let (starts, path) = rest.split_at_mut(symbols);
    if let Some(at) = lowest_endless_chain(parts, depth, jump, starts, path) {
        return Ok(Err(Broken::new(ENDLESS_CHAIN, at)));
    }
    let chains = KnownChains::new(&parts.words, depth, jump, starts);
    match lowest_symbol_off_chain(alloc, parts, &chains, hashes)? {
        Some(at) => Ok(Err(Broken::new(SYMBOL_OFF_CHAIN, at))),
        None => Ok(Ok(())),
    }
}

/// The lowest offset in the file of the word of a bucket whose chain does not end. Where there is none, all chains are known.
pub(crate) fn lowest_endless_chain(
    parts: &HashParts<'_>,
    depth: &mut [u32],
    jump: &mut [u32],
    starts: &mut [u32],
    path: &mut [u32],
) -> Option<u64>
    requires linked { AreHashWords parts.now.words }
    requires depth { length depth.old ≡ nchain parts.now.words }
    requires jump { length jump.old ≡ nchain parts.now.words }
    requires starts { length starts.old ≡ nchain parts.now.words }
    requires path { nchain parts.now.words ≤ length path.old }
    ensures lowest { IsLowest (endless_chain (hash_parts_value parts.now)) result }
    ensures known { IfNone result ((b : ℕ) → b < nbucket parts.now.words → IsDepthKnown depth.new (bucket parts.now.words b)) }
    ensures lists { AreKnownChains parts.now.words depth.new jump.new starts.new }
    ensures path { length path.new ≡ length path.old }
{
    begin(&parts.words, depth, jump, starts);
    match lowest_endless(&parts.words, depth, jump, starts, path) {
        Some(b) => Some(parts.start + WORD_SIZE * (2 + b as u64)),
        None => None,
    }
}

// The lowest offset in the file of the chain word of a symbol from 1 on that is not on the chain of its name's bucket.
fn lowest_symbol_off_chain(
    alloc: Global,
    parts: &HashParts<'_>,
    chains: &KnownChains<'_, '_>,
    hashes: &mut NameHashes<'_, '_>,
) -> Result<Option<u64>, AllocError>
    requires some_bucket { nbucket parts.now.words ≢ 0 }
    requires one_each { nchain parts.now.words ≡ length parts.now.names }
    requires linked { AreHashWords parts.now.words }
    requires own { chains.now.words ≡ parts.now.words }
    requires known { (b : ℕ) → b < nbucket parts.now.words → IsDepthKnown chains.now.depth (bucket parts.now.words b) }
    requires own_strings { parts.now.strings.now ≡ content hashes.old parts.now.strings_index }
    ensures lowest { IfOk result (IsLowest (symbol_off_chain (hash_parts_value parts.now))) }
    ensures image { hashes.new ≡ hashes.old }
{
    let words = &parts.words;
    for s in 1..words.nchain() {
        let start = start_of(alloc, parts, s, hashes)?;
        if !chains.is_on(start, s) {
            let before = 2 + words.nbucket() as u64 + s as u64;
            return Ok(Some(parts.start + WORD_SIZE * before));
        }
    }
    Ok(None)
}

// The word of the bucket for symbol `s`.
fn start_of(
    alloc: Global,
    parts: &HashParts<'_>,
    s: u32,
    hashes: &mut NameHashes<'_, '_>,
) -> Result<u32, AllocError>
    requires some_bucket { nbucket parts.now.words ≢ 0 }
    requires one_each { nchain parts.now.words ≡ length parts.now.names }
    requires linked { AreHashWords parts.now.words }
    requires inside { s < length parts.now.names }
    requires own_strings { parts.now.strings.now ≡ content hashes.old parts.now.strings_index }
    ensures start { IfOk result (λ start. start ≡ bucket_of parts.now.words (name_of parts.now.names s)) }
    ensures image { hashes.new ≡ hashes.old }
{
    // Every hash leads to an only bucket.
    if parts.words.nbucket() == 1 {
        return Ok(parts.words.bucket_of(0));
    }
    let hash = symbol_hash(alloc, parts, s, hashes)?;
    Ok(parts.words.bucket_of(hash))
}

// The hash of the name of symbol `s`. A long name that is not known is hashed with those of the symbols up to twice of `s`: the search may
// end at any symbol, and then at most as many were hashed too early as were needed.
fn symbol_hash(
    alloc: Global,
    parts: &HashParts<'_>,
    s: u32,
    hashes: &mut NameHashes<'_, '_>,
) -> Result<u32, AllocError>
    requires one_each { nchain parts.now.words ≡ length parts.now.names }
    requires linked { AreHashWords parts.now.words }
    requires inside { s < length parts.now.names }
    requires own_strings { parts.now.strings.now ≡ content hashes.old parts.now.strings_index }
    ensures hash { IfOk result (λ hash. hash ≡ hash_of (name_of parts.now.names s)) }
    ensures image { hashes.new ≡ hashes.old }
{
    let (section, strings, offset) = (parts.strings_index, parts.strings, parts.name_offset(s));
    if let Some(hash) = hashes.known(section, strings, offset) {
        return Ok(hash);
    }
    let mut wanted = wanted_offsets(alloc, parts, s, hashes)?;
    wanted.sort_unstable();
    wanted.dedup();
    hashes.keep_all(section, strings, &wanted)?;
    match hashes.known(section, strings, offset) {
        Some(hash) => Ok(hash),
        None => Ok(elf_hash(string_at(strings, offset as usize))),
    }
}

// Where the long names begin, of the symbols from `s` up to twice of it, whose hashes are not kept.
fn wanted_offsets(
    alloc: Global,
    parts: &HashParts<'_>,
    s: u32,
    hashes: &NameHashes<'_, '_>,
) -> Result<Vec<u32>, AllocError>
    requires one_each { nchain parts.now.words ≡ length parts.now.names }
    requires linked { AreHashWords parts.now.words }
{
    let mut wanted = Vec::new(alloc);
    for k in s..parts.words.nchain().min(s.saturating_mul(2)) {
        let offset = parts.name_offset(k);
        if hashes.is_wanted(parts.strings_index, parts.strings, offset) {
            wanted.push(offset)?;
        }
    }
    Ok(wanted)
}
