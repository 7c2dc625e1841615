//! Slots in which names are by their hashes, and what they say about a name.
//!
//! An ordered map alone would find the entries of a name in log n comparisons. Here it has only the names that find no slot. A slot has 8
//! bytes: the number of a name and half of its hash. A name is in the first free slot of eight; if all are taken, it goes into the map. So
//! most names cost one comparison. Names that were chosen to share a hash cost log n each, where the library's hash map would be quadratic.
//! Symbols are looked up in blocks of 64, so that many reads wait for memory together. A slot that was read early is a hint, and its name
//! is compared.
ghost use Rattle.std.specs.Prelude.{◌≡◌, ◌<◌, ◌≤◌, ◌+◌, MatchOption, length};
ghost use Rattle.elf_link_names.specs.declared.long_symbols.TheConstants.{LONG_NAME};
ghost use Rattle.elf_link_names.specs.Tables.{long_hash, name_hash, short_hash, place_among, upper_of as upper_of_hash, AreEntryOrdinals};
ghost use Rattle.elf_link_names.specs.Tables.{IsOfName, LeadsTo, Sees, SlotsSay, ordinal_entry};

use crate::long_symbols::LONG_NAME;
use std::hash::{FoldHasher, Hasher};

// The hash of a name, and its place in a table.

/// The hash of a name, by a fixed seed: of a long one that of its first and its last bytes and of its length. It reads eight bytes at a
/// time.
pub fn hash_of(name: &[u8]) -> u64
    ensures { result ≡ name_hash name.now }
{
    if name.len() <= LONG_NAME {
        hash_of_short(name)
    } else {
        hash_of_long(name)
    }
}

/// The hash of a name that is not long.
#[tactic(auto, unfolding(crate::specs::Tables::short_hash))]
fn hash_of_short(name: &[u8]) -> u64
    ensures { result ≡ short_hash name.now }
{
    let mut hasher = FoldHasher::default();
    hasher.write(name);
    hasher.finish()
}

/// The hash of a name of at least so many bytes.
#[tactic(auto, unfolding(crate::specs::Tables::long_hash))]
fn hash_of_long(name: &[u8]) -> u64
    requires { LONG_NAME < length name.now }
    ensures { result ≡ long_hash name.now }
{
    let mut hasher = FoldHasher::default();
    hasher.write(&name[..HASHED]);
    hasher.write(&name[name.len() - HASHED..]);
    hasher.write(&name.len().to_le_bytes());
    hasher.finish()
}

/// How many bytes of a long name are hashed, at each of its ends.
const HASHED: usize = 512;

/// The upper half of a hash.
pub(crate) fn upper_of(hash: u64) -> u32
    ensures { result ≡ upper_of_hash hash }
{
    (hash / 0x1_0000_0000) as u32
}

/// The place of a hash among so many: as far into them as its lower half is into the numbers below 2^32. It takes a multiplication, which
/// is faster than a division.
pub(crate) fn home_of(hash: u64, count: usize) -> usize
    requires { 0 < count }
    ensures place { result ≡ place_among hash count }
    ensures below { result < count }
{
    let lower = hash % 0x1_0000_0000;
    (lower as u128 * count as u128 / 0x1_0000_0000) as usize
}

/// How many slots a name may be in, one after the other.
pub(crate) const MOST_STEPS: usize = 8;

/// How many names may have an ordinal.
const MOST_NAMES: usize = 0xffff_ffff;

/// The ordinal of a name among those that are in slots, from 1 on, and 0 in a slot that is free; and the upper half of its hash, by which
/// most other names differ from it without a look at them.
#[derive(Clone, Copy, Debug)]
pub struct Slot {
    pub(crate) upper: u32,
    pub(crate) ordinal: u32,
}

impl Slot {
    /// A free slot, which leads to no name.
    pub const FREE: Slot = Slot {
        upper: 0,
        ordinal: 0,
    };
}

/// A name that is in a slot, and its position.
#[derive(Clone, Copy, Debug)]
pub(crate) struct Entry<'a> {
    pub(crate) name: &'a [u8],
    pub(crate) position: usize,
}

/// What its slots say about a name.
#[derive(Clone, Copy)]
pub(crate) enum Seen {
    /// That it is in none; this one is the first that is free.
    Free(usize),
    /// That the name is at this position.
    Here(usize),
    /// That it is in none, and can take none: none is free, or there is no ordinal left.
    Taken,
}

/// The position of a name that has this hash, by a slot that is taken; `None` where the slot is another name's.
fn position_by(slot: Slot, entries: &[Entry<'_>], upper: u32, name: &[u8]) -> Option<usize>
    requires some { 0 < slot.ordinal }
    requires known { slot.ordinal ≤ length entries.now }
    ensures { MatchOption result (¬ IsOfName entries.now slot upper name.now)
        (λ position. IsOfName entries.now slot upper name.now × (position ≡ (ordinal_entry entries.now slot.ordinal).position)) }
{
    if slot.upper != upper {
        return None;
    }
    let entry = entries[slot.ordinal as usize - 1];
    if entry.name == name {
        Some(entry.position)
    } else {
        None
    }
}

/// The position of a name that has this hash, by a slot that was read at any time; `None` if the slot is free, or leads to another name.
pub(crate) fn position_of(
    slot: Slot,
    entries: &[Entry<'_>],
    hash: u64,
    name: &[u8],
) -> Option<usize>
    ensures { MatchOption result (¬ LeadsTo entries.now slot (upper_of_hash hash) name.now)
        (λ position. LeadsTo entries.now slot (upper_of_hash hash) name.now ×
        (position ≡ (ordinal_entry entries.now slot.ordinal).position)) }
{
    if slot.ordinal == 0 || slot.ordinal as usize > entries.len() {
        return None;
    }
    position_by(slot, entries, upper_of(hash), name)
}

/// What the slots from `home` on say about a name whose hash has this upper half.
fn look_from(slots: &[Slot], entries: &[Entry<'_>], home: usize, upper: u32, name: &[u8]) -> Seen
    requires room { home + MOST_STEPS ≤ length slots.now }
    requires known { AreEntryOrdinals slots.now (length entries.now) }
    ensures { Sees slots.now entries.now home upper name.now result }
{
    for step in 0..MOST_STEPS {
        let slot = slots[home + step];
        if slot.ordinal == 0 {
            return Seen::Free(home + step);
        }
        if let Some(position) = position_by(slot, entries, upper, name) {
            return Seen::Here(position);
        }
    }
    Seen::Taken
}

/// What its slots say about a name of this hash. The last slots are no name's first one, so that each name has as many.
pub(crate) fn look(slots: &[Slot], entries: &[Entry<'_>], hash: u64, name: &[u8]) -> Seen
    requires room { MOST_STEPS < length slots.now }
    requires known { AreEntryOrdinals slots.now (length entries.now) }
    requires hash { hash ≡ name_hash name.now }
    ensures { SlotsSay slots.now entries.now name.now result }
{
    let home = home_of(hash, slots.len() - MOST_STEPS);
    match look_from(slots, entries, home, upper_of(hash), name) {
        Seen::Free(_) if entries.len() >= MOST_NAMES => Seen::Taken,
        Seen::Free(at) => Seen::Free(at),
        Seen::Here(position) => Seen::Here(position),
        Seen::Taken => Seen::Taken,
    }
}
