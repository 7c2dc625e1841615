//! Hashing strings side by side that end at one place: tails of one name (gABI chapter 5, Hash Table).
//!
//! The hash of a name says nothing of those of its tails, so each tail is hashed by itself. But from the beginning of the last one on they
//! have the same bytes, and one instruction of the processor can put a byte into several hashes.
ghost use Rattle.std.specs.Prelude.{◌≡◌, ◌<◌, ◌≤◌, ℕ, IfSome, fold, get_or, length};
ghost use Rattle.elf_field.specs.Strings.{string};
ghost use Rattle.elf_table_hash.specs.HashTable.{hash_of, hash_step};
ghost use Rattle.elf_table_hash.specs.NameHashes.{AreLanesOf, AreLanesRun, LANES as lane_count};

use crate::hash_building::{elf_hash, hash_more};
use elf_image_type::strings::string_at;

/// How many strings are hashed side by side.
pub(crate) const LANES: usize = 16;

/// The offsets of strings that end where one of them, the last, ends; and for each the hash of its bytes before the last one begins.
#[derive(Drop)]
pub(crate) struct Lanes {
    pub offsets: [u32; LANES],
    pub hashes: [u32; LANES],
}

impl Lanes {
    /// Each lane has the last string itself, of which nothing is hashed yet.
    pub(crate) fn new(strings: &[u8], last: u32) -> Lanes
        ensures { AreLanesOf strings.now last result }
    {
        let _ = strings;
        Lanes {
            offsets: [last; LANES],
            hashes: [0; LANES],
        }
    }

    /// Puts a string into lane `k`, with the hash of its bytes before the last string begins.
    pub(crate) fn put(&mut self, strings: &[u8], last: u32, k: usize, offset: u32, hash: u32)
        requires lanes { AreLanesOf strings.now last self.old }
        requires there { k < lane_count }
        requires shared { fold hash_step hash (string strings.now last) ≡ hash_of (string strings.now offset) }
        ensures { AreLanesOf strings.now last self.new }
    {
        let _ = strings;
        let _ = last;
        self.offsets[k] = offset;
        self.hashes[k] = hash;
    }

    /// Hashes the last string in each lane: the lanes' hashes are those of their strings then.
    pub(crate) fn run(&mut self, strings: &[u8], last: u32)
        requires { AreLanesOf strings.now last self.old }
        ensures { AreLanesRun strings.now self.new }
    {
        hash_all(&mut self.hashes, string_at(strings, last as usize));
    }
}

/// The hash of the bytes from an offset of a string table up to another one, if these and the string there are one string.
pub(crate) fn hash_up_to(strings: &[u8], from: u32, to: u32) -> Option<u32>
    ensures { IfSome result (λ hash. fold hash_step hash (string strings.now to) ≡ hash_of (string strings.now from)) }
{
    if from > to || to as usize > strings.len() {
        return None;
    }
    let between = &strings[from as usize..to as usize];
    let own = string_at(between, 0);
    if own.len() < between.len() {
        return None;
    }
    Some(elf_hash(own))
}

// Puts the bytes of a name into each hash.
fn hash_all(hashes: &mut [u32; LANES], name: &[u8])
    ensures { (k : ℕ) → k < lane_count → get_or hashes.new k 0 ≡ fold hash_step (get_or hashes.old k 0) name.now }
{
    for &byte in name {
        step_all(hashes, byte);
    }
}

// Puts one more byte into each hash. It is inlined, so that the hashes stay in registers.
#[inline(always)]
fn step_all(hashes: &mut [u32; LANES], byte: u8)
    ensures { (k : ℕ) → k < lane_count → get_or hashes.new k 0 ≡ hash_step (get_or hashes.old k 0) byte }
{
    for hash in hashes.iter_mut() {
        *hash = hash_more(*hash, byte);
    }
}
