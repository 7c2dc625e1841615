//! Making a hash table (gABI chapter 5, Hash Table).
ghost use Rattle.std.specs.Prelude.{◌≡◌, ◌≢◌, ◌<◌, ◌≤◌, ◌+◌, ◌%◌, ℕ, IfErr, IfOk, length, get_or, map};
ghost use Rattle.elf_table_hash.specs.HashTable.{hash_of, hash_step, IsBuilt, IsRefused, MAX_HASH, nbucket as nbucket_of};
ghost use Rattle.elf_table_hash.specs.HashTable.{nchain as nchain_of};
ghost use Rattle.elf_table_hash.specs.ChainDepths.{IsThreaded, threaded};

use std::alloc::{AllocError, AllocFailed, Global};
use thiserror::Error;

// The hash of a symbol's name (gABI chapter 5, Hash Table).

/// The hash by which a hash table finds the bucket of a symbol with this name. Linear in the name; it takes no memory.
pub fn elf_hash(name: &[u8]) -> u32
    ensures { result ≡ hash_of name.now }
{
    let mut hash = 0;
    for &byte in name {
        hash = hash_more(hash, byte);
    }
    hash
}

/// The hash after one more byte.
pub(crate) fn hash_more(hash: u32, byte: u8) -> u32
    ensures { result ≡ hash_step hash byte }
{
    let sum = hash.wrapping_mul(16).wrapping_add(byte as u32);
    let top = sum & 0xf000_0000;
    (sum ^ (top >> 24)) & 0x0fff_ffff
}

/// The most names, and the most buckets, of a table that is made.
const MAX_HASH_SIZE: usize = 1 << 24;

/// Why a hash table can't be made; where several hold, the first of them.
#[derive(Clone, Copy, Debug, PartialEq, Eq, Error)]
pub enum HashFault {
    /// There is to be no bucket.
    #[error("a hash table without buckets")]
    NoBuckets,
    /// More than 2^24 names, or buckets.
    #[error("more than 2^24 names or buckets")]
    TooMany,
    /// An allocation failed.
    #[error("out of memory")]
    OutOfMemory,
}

impl From<AllocError> for HashFault {
    ghost use Rattle.elf_table_hash.specs.declared.hash_building.HashFault.TheVariants.{OutOfMemory};

    ghost from_gives = { λ _ fault. fault ≡ OutOfMemory };

    fn from(_refused: AllocError) -> HashFault {
        HashFault::OutOfMemory
    }
}

impl<T: Drop> From<AllocFailed<T>> for HashFault {
    ghost use Rattle.elf_table_hash.specs.declared.hash_building.HashFault.TheVariants.{OutOfMemory};

    ghost from_gives = { λ _ fault. fault ≡ OutOfMemory };

    fn from(_refused: AllocFailed<T>) -> HashFault {
        HashFault::OutOfMemory
    }
}

/// The words of a hash table of so many buckets for symbols of these names, of which there is at least one: the first represents symbol 0,
/// which is on no chain. They are `nbucket`, `nchain`, the word of each bucket and the chain word of each symbol; each chain has the
/// symbols of its own bucket alone, and they ascend along it.
///
/// [`HashFault::NoBuckets`] if there is to be no bucket; else [`HashFault::TooMany`] for more than 2^24 names or buckets; else
/// [`HashFault::OutOfMemory`] if the words don't fit into memory. Linear in the buckets and in the bytes of the names.
pub fn build_hash(alloc: Global, names: &[&[u8]], nbucket: u32) -> Result<Vec<u32>, HashFault>
    requires { 0 < length names.now }
    ensures built { IfOk result (λ words. IsBuilt words.items (map (λ name. name.now) names.now) nbucket) }
    ensures refused { IfErr result (λ fault. IsRefused (length names.now) nbucket fault) }
{
    if nbucket == 0 {
        return Err(HashFault::NoBuckets);
    }
    if names.len() > MAX_HASH_SIZE || nbucket as usize > MAX_HASH_SIZE {
        return Err(HashFault::TooMany);
    }
    let mut words = Vec::new(alloc);
    words.resize(2 + nbucket as usize + names.len(), 0)?;
    words[0] = nbucket;
    words[1] = names.len() as u32;
    thread_symbols(&mut words, names);
    Ok(words)
}

// Puts each symbol, from the last down to 1, before the others on the chain of its bucket.
fn thread_symbols(words: &mut [u32], names: &[&[u8]])
    requires some_bucket { nbucket_of words.old ≢ 0 }
    requires some_name { 0 < length names.now }
    requires one_each { nchain_of words.old ≡ length names.now }
    requires long { length words.old ≡ 2 + nbucket_of words.old + nchain_of words.old }
    requires few_names { length names.now ≤ MAX_HASH }
    requires few_buckets { nbucket_of words.old ≤ MAX_HASH }
    requires empty { (k : ℕ) → 2 ≤ k → get_or words.old k 0 ≡ 0 }
    ensures { IsBuilt words.new (map (λ name. name.now) names.now) (nbucket_of words.old) }
{
    let mut s = names.len();
    'symbols: while s > 1 {
        s -= 1;
        thread_symbol(words, s, elf_hash(names[s]));
    }
}

// Puts symbol `s`, whose name has this hash, before the others on the chain of its bucket.
#[tactic(auto, unfolding(crate::specs::ChainDepths::threaded, crate::specs::HashTable::bucket))]
fn thread_symbol(words: &mut [u32], s: usize, hash: u32)
    requires some_bucket { nbucket_of words.old ≢ 0 }
    requires long { length words.old ≡ 2 + nbucket_of words.old + nchain_of words.old }
    requires inside { s < nchain_of words.old }
    requires few_symbols { nchain_of words.old ≤ MAX_HASH }
    requires few_buckets { nbucket_of words.old ≤ MAX_HASH }
    ensures { words.new ≡ threaded words.old s (hash % nbucket_of words.old) }
{
    let nbucket = words[0];
    let bucket = 2 + (hash % nbucket) as usize;
    words[2 + nbucket as usize + s] = words[bucket];
    words[bucket] = s as u32;
}
