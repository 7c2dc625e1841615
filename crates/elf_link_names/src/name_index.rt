//! Where each name of a link is.
ghost use Rattle.std.specs.Prelude.{◌≡◌, ℕ, List, IfOk, IfSome, OnErr, None, Some, MatchOption, ◌≤◌, ◌+◌, ◌-◌, ◌<◌, length};
ghost use Rattle.elf_link_names.specs.Tables.{IsPlaced, position_by, IsLookup, LeadsTo, name_hash, name_position};
ghost use Rattle.elf_link_names.specs.Tables.{upper_of as upper_of_hash, AreBlockHashes, AreBlockLookups, IsSymbolHash};
ghost use Rattle.elf_link_files.specs.Files.{object_at};

use crate::known_names::is_local;
use crate::long_symbols::LONG_NAME;
use crate::slots::{Entry, MOST_STEPS, Seen, Slot, hash_of, home_of, look, position_of, upper_of};
use elf_link_files::{InputSymbol, Inputs, SymbolId};
use std::alloc::{AllocError, Global};
use std::collections::BTreeMap;
use std::marker::Model;

// Names in an ordered map.

/// Names by their lengths first: names that share bytes, and may be long, are equal if they are of one length.
type Ordered<'a> = BTreeMap<(usize, &'a [u8]), usize>;

/// The position of a name that has one, which stays; a further name gets this one.
pub(crate) fn place_ordered<'a>(
    positions: &mut Ordered<'a>,
    name: &'a [u8],
    next: usize,
) -> Result<Option<usize>, AllocError>
    ensures old { IfOk result (λ old. old ≡ position_by positions.old name.now) }
    ensures positions { IfOk result (λ old. IsPlaced old name.now next (position_by positions.old) (position_by positions.new)) }
    ensures err { OnErr result ((q : List ℕ) → position_by positions.new q ≡ position_by positions.old q) }
{
    let key = (name.len(), name);
    if let Some(place) = positions.get(&key) {
        return Ok(Some(*place));
    }
    positions.insert(key, next)?;
    Ok(None)
}

/// The position of a name; None if it has none.
fn find_ordered<'a>(positions: &Ordered<'a>, name: &'a [u8]) -> Option<usize>
    ensures { result ≡ position_by positions.now name.now }
{
    positions.get(&(name.len(), name)).copied()
}

/// Where each name is. A name's hash gives it some slots, one after the other, and it is in the first that was free, by an ordinal; names
/// that find all of them taken are in an ordered map. So names that are chosen to share their hashes cost log n comparisons each, as in an
/// ordered map alone; and most other names cost a look at a slot of 8 bytes, and a comparison where it is the name's own.
#[derive(Debug, Drop)]
pub struct NameIndex<'a> {
    slots: Vec<Slot>,
    entries: Vec<Entry<'a>>,
    more: Ordered<'a>,
}

/// What is known of a name before it is placed: [`NameIndex::look_up`] returns it.
#[derive(Clone, Copy)]
pub struct Lookup {
    /// The hash of the name.
    pub hash: u64,
    /// The position of the name; `None` if it has none, or was not found at once.
    pub position: Option<usize>,
}

impl Lookup {
    /// A lookup of no name, to fill an array with.
    pub const NONE: Lookup = Lookup {
        hash: 0,
        position: None,
    };
}

impl<'a> Model for NameIndex<'a> {
    ghost use Rattle.elf_link_names.specs.Tables.{HasNameTables, Positions, positions_value};

    ghost Value = { Positions };

    ghost view = { positions_value };

    ghost invariant = { HasNameTables };
}

impl<'a> NameIndex<'a> {
    /// No names, with capacity for so many. The error comes only if an allocation fails.
    #[tactic(auto, unfolding(crate::specs::Tables::name_position))]
    pub fn new(alloc: Global, room: usize) -> Result<NameIndex<'a>, AllocError>
        ensures { IfOk result (λ positions. (q : List ℕ) → name_position positions q ≡ None) }
    {
        let slots = vec![in alloc; Slot::FREE; room.max(1).saturating_add(MOST_STEPS)]?;
        let entries = Vec::new(alloc);
        let more = BTreeMap::new(alloc);
        Ok(NameIndex {
            slots,
            entries,
            more,
        })
    }

    /// The position of a name that lives as long as those of the index; None if it has none.
    #[tactic(auto, unfolding(crate::specs::Tables::name_position))]
    pub fn get(&self, name: &'a [u8]) -> Option<usize>
        ensures { result ≡ name_position self.now name.now }
    {
        match look(&self.slots, &self.entries, hash_of(name), name) {
            Seen::Free(_) => None,
            Seen::Here(position) => Some(position),
            Seen::Taken => find_ordered(&self.more, name),
        }
    }

    /// The position of any name, or `None` in its place if it has none; and `None` if only the ordered map knows, in which no name is
    /// looked up that may live shorter than its own.
    #[tactic(auto, unfolding(crate::specs::Tables::name_position))]
    pub fn get_at_once(&self, name: &[u8]) -> Option<Option<usize>>
        ensures { IfSome result (λ position. position ≡ name_position self.now name.now) }
    {
        match look(&self.slots, &self.entries, hash_of(name), name) {
            Seen::Free(_) => Some(None),
            Seen::Here(position) => Some(Some(position)),
            Seen::Taken => None,
        }
    }

    /// The slot where a search for a name of this hash begins, for [`look_up`](NameIndex::look_up). When the slots of many names are
    /// read one right after the other, the waits for memory overlap.
    pub fn first_slot(&self, hash: u64) -> Slot {
        self.slots[home_of(hash, self.slots.len() - MOST_STEPS)]
    }

    /// The lookup of a name of this hash by one slot: it has the position if the slot leads to the name. The slot is a hint: it may be any
    /// one, and may have been read at any time, since the name is compared. Takes at most one comparison.
    pub fn look_up(&self, slot: Slot, hash: u64, name: &[u8]) -> Lookup
        ensures hash { result.hash ≡ hash }
        ensures position { MatchOption result.position (¬ LeadsTo self.now.entries slot (upper_of_hash hash) name.now)
            (λ position. name_position self.now name.now ≡ Some position) }
    {
        let position = position_of(slot, &self.entries, hash, name);
        Lookup { hash, position }
    }

    /// The position of a name that has one, which stays; a further name gets this one, and None is returned. The error comes only if
    /// an allocation fails, and leaves each name where it was. Takes a look at a few slots for most names, and log n comparisons for any.
    pub fn place(&mut self, name: &'a [u8], next: usize) -> Result<Option<usize>, AllocError>
        ensures old { IfOk result (λ old. old ≡ name_position self.old name.now) }
        ensures placed { IfOk result (λ old. IsPlaced old name.now next (name_position self.old) (name_position self.new)) }
        ensures err { OnErr result ((q : List ℕ) → name_position self.new q ≡ name_position self.old q) }
    {
        let hash = hash_of(name);
        self.place_hashed(hash, name, next)
    }

    /// What [`place`](NameIndex::place) does, of a name that was looked up: it returns the same, and fails alike. It takes no time if
    /// the lookup has the position; the name is not hashed again.
    pub fn place_looked_up(
        &mut self,
        lookup: Lookup,
        name: &'a [u8],
        next: usize,
    ) -> Result<Option<usize>, AllocError>
        requires { IsLookup (name_position self.old) name.now lookup }
        ensures old { IfOk result (λ old. old ≡ name_position self.old name.now) }
        ensures placed { IfOk result (λ old. IsPlaced old name.now next (name_position self.old) (name_position self.new)) }
        ensures err { OnErr result ((q : List ℕ) → name_position self.new q ≡ name_position self.old q) }
    {
        if let Some(position) = lookup.position {
            return Ok(Some(position));
        }
        self.place_hashed(lookup.hash, name, next)
    }

    /// What [`place`](NameIndex::place) does, of a name of this hash.
    #[tactic(auto, unfolding(crate::specs::Tables::name_position))]
    fn place_hashed(
        &mut self,
        hash: u64,
        name: &'a [u8],
        next: usize,
    ) -> Result<Option<usize>, AllocError>
        requires { hash ≡ name_hash name.now }
        ensures old { IfOk result (λ old. old ≡ name_position self.old name.now) }
        ensures placed { IfOk result (λ old. IsPlaced old name.now next (name_position self.old) (name_position self.new)) }
        ensures err { OnErr result ((q : List ℕ) → name_position self.new q ≡ name_position self.old q) }
    {
        match look(&self.slots, &self.entries, hash, name) {
            Seen::Here(position) => Ok(Some(position)),
            Seen::Free(at) => {
                self.entries.push(Entry {
                    name,
                    position: next,
                })?;
                self.slots[at] = Slot {
                    upper: upper_of(hash),
                    ordinal: self.entries.len() as u32,
                };
                Ok(None)
            }
            Seen::Taken => Ok(place_ordered(&mut self.more, name, next)?),
        }
    }
}

// The names of a block of symbols, looked up before any of them is placed. Each step goes through the whole block, so that the waits for
// memory of many searches overlap.

/// How many symbols a block has at most.
pub(crate) const BLOCK: usize = 64;

/// The hash of a symbol's name; 0 for a local symbol, whose name is not looked up.
fn symbol_hash(symbol: &InputSymbol<'_, '_, '_>) -> u64
    ensures { IsSymbolHash symbol.now.inputs.now symbol.now.id.file symbol.now.id.index result }
{
    let own = symbol.symbol();
    if is_local(&own) {
        return 0;
    }
    hash_of(own.name)
}

/// The hashes of the names of the symbols of a file from `start` to before `end`.
fn block_hashes(inputs: &Inputs<'_, '_>, file: usize, start: usize, end: usize) -> [u64; BLOCK]
    requires file { file < length inputs.now }
    requires within { end ≤ length (object_at inputs.now file).symbols }
    requires few { end ≤ start + BLOCK }
    ensures { AreBlockHashes inputs.now file start (end - start) result }
{
    let mut hashes = [0; BLOCK];
    for index in start..end {
        let id = SymbolId { file, index };
        hashes[index - start] = symbol_hash(&InputSymbol { inputs, id });
    }
    hashes
}

/// The slot where the search for each hash begins. It is only a hint, so no contract says which one it is.
fn first_slots(positions: &NameIndex<'_>, hashes: &[u64; BLOCK]) -> [Slot; BLOCK] {
    let mut slots = [Slot::FREE; BLOCK];
    for step in 0..BLOCK {
        slots[step] = positions.first_slot(hashes[step]);
    }
    slots
}

/// The lookup of a name by a slot. A long name is not compared: each of many symbols that have it would read it.
fn look_up_short(positions: &NameIndex<'_>, slot: Slot, hash: u64, name: &[u8]) -> Lookup
    ensures hash { result.hash ≡ hash }
    ensures position { IfSome result.position (λ position. name_position positions.now name.now ≡ Some position) }
{
    if name.len() > LONG_NAME {
        return Lookup {
            hash,
            position: None,
        };
    }
    positions.look_up(slot, hash, name)
}

/// The lookups of the names of the symbols of a file from `start` to before `end`.
pub(crate) fn block_lookups(
    inputs: &Inputs<'_, '_>,
    positions: &NameIndex<'_>,
    file: usize,
    start: usize,
    end: usize,
) -> [Lookup; BLOCK]
    requires file { file < length inputs.now }
    requires within { end ≤ length (object_at inputs.now file).symbols }
    requires few { end ≤ start + BLOCK }
    ensures { AreBlockLookups inputs.now (name_position positions.now) file start (end - start) result }
{
    let hashes = block_hashes(inputs, file, start, end);
    let slots = first_slots(positions, &hashes);
    let mut lookups = [Lookup::NONE; BLOCK];
    for index in start..end {
        let id = SymbolId { file, index };
        let name = InputSymbol { inputs, id }.symbol().name;
        let step = index - start;
        lookups[step] = look_up_short(positions, slots[step], hashes[step], name);
    }
    lookups
}
