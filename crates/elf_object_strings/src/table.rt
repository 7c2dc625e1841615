//! The bytes of a string table, and where its names begin.
ghost use Rattle.std.specs.Prelude.{◌≡◌, ◌<◌, [], get_or, min, if◌then◌else◌, length, IfOk, ◌≤◌, ◌-◌, true, false, map, set};
ghost use Rattle.std.specs.List.{All, range_with_len};
ghost use Rattle.elf_object_strings.specs.StringTable.{AreOwners, AreTails, AreTheirOwn, HaveZeros, texts, is_suffix, AreZeroFree};
ghost use Rattle.elf_object_strings.specs.StringTable.{HoldsEach, IsShortest, Shares, is_named, name_offset, string_table, HasEnds};
ghost use Rattle.elf_object_strings.specs.StringTable.{with_name};
ghost use Rattle.elf_object_strings.specs.Sorting.{AreBelow, AreRuns, GivesOwner, HasEnd, IsRun, AreInEndsOrder, AreNumbered, indexes_in};
ghost use Rattle.elf_object_strings.specs.Sorting.{names_by_ends};

use crate::leaders::ranges_of;
use crate::name_list::NameList;
use crate::sorting::{Numbered, sorted_names};
use elf_extent::OutOfMemory;
use std::alloc::{AllocError, Global};

// For each name of a list the one whose bytes in the table it shares.

/// The owner of each name: the first name that ends with it, of those that no other name ends with.
///
/// Takes n log n comparisons of ends.
pub(crate) fn owners_of(
    alloc: Global,
    names: &[&[u8]],
    ends: &[u32],
) -> Result<Vec<usize>, AllocError>
    requires { AreTails (texts names.now) ends.now }
    ensures { IfOk result (λ owners. AreOwners (texts names.now) owners.items) }
{
    let ranges = ranges_of(alloc, names, ends)?;
    let list = NameList::new(names, &ranges);
    owners_in(alloc, &list, &sorted_names(alloc, &list)?)
}

fn owners_in(
    alloc: Global,
    list: &NameList<'_, '_>,
    sorted: &[Numbered],
) -> Result<Vec<usize>, AllocError>
    requires numbered { AreNumbered list.now (names_by_ends list.now sorted.now) (indexes_in sorted.now) }
    requires order { AreInEndsOrder (names_by_ends list.now sorted.now) (indexes_in sorted.now) }
    requires ends { All (HasEnd list.now) sorted.now }
    ensures { IfOk result (λ owners. AreOwners list.now owners.items) }
{
    let mut owners = own_owners(alloc, sorted.len())?;
    let mut starts = Vec::with_capacity(alloc, sorted.len())?;
    for position in 0..sorted.len() {
        let (start, owner) = run_of(list, sorted, &starts, &owners, position);
        set_owner(&mut owners, sorted[position].index, owner);
        starts.push(start)?;
    }
    Ok(owners)
}

/// So many names, each of which is its own owner.
pub(crate) fn own_owners(alloc: Global, count: usize) -> Result<Vec<usize>, AllocError>
    ensures { IfOk result (λ owners. owners.items ≡ range_with_len 0 count) }
{
    (0..count).collect(alloc)
}

/// Sets the owner of a name that is its own owner so far. The names come in the order of their ends, so the writes are scattered: nothing
/// is written for a name that stays its own owner.
fn set_owner(owners: &mut [usize], index: usize, owner: usize)
    requires within { index < length owners.old }
    requires own { get_or owners.old index 0 ≡ index }
    ensures { owners.new ≡ set owners.old index owner }
{
    if owner != index {
        owners[index] = owner;
    }
}

/// Where the run of the names that end with this one begins, which ends at it; and its owner.
fn run_of(
    list: &NameList<'_, '_>,
    sorted: &[Numbered],
    starts: &[usize],
    owners: &[usize],
    position: usize,
) -> (usize, usize)
    requires within { position < length sorted.now }
    requires numbered { AreNumbered list.now (names_by_ends list.now sorted.now) (indexes_in sorted.now) }
    requires order { AreInEndsOrder (names_by_ends list.now sorted.now) (indexes_in sorted.now) }
    requires ends { All (HasEnd list.now) sorted.now }
    requires runs { AreRuns (names_by_ends list.now sorted.now) starts.now position }
    requires indexes { AreBelow (indexes_in sorted.now) (length owners.now) }
    ensures run { IsRun (names_by_ends list.now sorted.now) position result.0 }
    ensures owner { GivesOwner (names_by_ends list.now sorted.now) (indexes_in sorted.now) owners.now position result.1 }
{
    let mut start = position;
    let mut owner = sorted[position].index;
    while start > 0 && is_tail(list, &sorted[position], &sorted[start - 1]) {
        owner = least_owner(start == position, owner, owners[sorted[start - 1].index]);
        start = starts[start - 1];
    }
    (start, owner)
}

/// Whether the other name ends with this one. Most names have other last bytes than the one before them: neither is looked at.
fn is_tail(list: &NameList<'_, '_>, name: &Numbered, other: &Numbered) -> bool
    requires name { HasEnd list.now name.now }
    requires other { HasEnd list.now other.now }
    ensures { result ≡ is_suffix (get_or list.now name.now.index []) (get_or list.now other.now.index []) }
{
    name.may_be_tail(other) && list.is_tail(name.index, other.index)
}

fn least_owner(first: bool, owner: usize, met: usize) -> usize
    ensures { result ≡ (if first then met else min owner met) }
{
    if first || met < owner { met } else { owner }
}

/// A string table whose names share their tails: its bytes, and the offset in it at which each name begins.
#[derive(Debug, Drop)]
pub struct Shared {
    /// The content of the table.
    pub bytes: Vec<u8>,
    /// For each name, in their order, the offset in the table at which it begins, in bytes.
    pub offsets: Vec<u64>,
}

/// The string table of these names (gABI chapter 4, String Table): a zero, then each distinct name that is neither empty nor a
/// proper suffix of another one, with the zero that ends it, in the order in which the names first occur.
///
/// Each name is at its offset with a zero after it. Of names without a zero byte the offset is the lowest at which this is so, that of the
/// empty name is 0, and no table that holds them all is shorter. Takes n log n comparisons of names, from their ends on, and at most four
/// numbers of memory for each name besides the table. Returns [`OutOfMemory`] only if an allocation failed.
pub fn shared_table(alloc: Global, names: &[&[u8]]) -> Result<Shared, OutOfMemory>
    ensures bytes { IfOk result (λ shared. shared.bytes.items ≡ string_table (texts names.now)) }
    ensures offsets { IfOk result (λ shared. shared.offsets.items ≡ map (name_offset (texts names.now)) (texts names.now)) }
    ensures shares { IfOk result
        (λ shared. AreZeroFree (texts names.now) → Shares (texts names.now) shared.bytes.items shared.offsets.items) }
    ensures holds { IfOk result (λ shared. HoldsEach shared.bytes.items (texts names.now)) }
    ensures least { IfOk result (λ shared. AreZeroFree (texts names.now) → IsShortest (texts names.now) shared.bytes.items) }
{
    shared_table_at(alloc, names, &[])
}

/// [`shared_table`] of names of which some were read from one string table: for each where it ended there, or 0 if that is not known.
///
/// Names that shared bytes there are compared by numbers, so that no byte of that table is read for each of them. That takes up to eight
/// numbers of memory for each name besides the table.
pub fn shared_table_at(alloc: Global, names: &[&[u8]], ends: &[u32]) -> Result<Shared, OutOfMemory>
    requires { AreTails (texts names.now) ends.now }
    ensures bytes { IfOk result (λ shared. shared.bytes.items ≡ string_table (texts names.now)) }
    ensures offsets { IfOk result (λ shared. shared.offsets.items ≡ map (name_offset (texts names.now)) (texts names.now)) }
    ensures shares { IfOk result
        (λ shared. AreZeroFree (texts names.now) → Shares (texts names.now) shared.bytes.items shared.offsets.items) }
    ensures holds { IfOk result (λ shared. HoldsEach shared.bytes.items (texts names.now)) }
    ensures least { IfOk result (λ shared. AreZeroFree (texts names.now) → IsShortest (texts names.now) shared.bytes.items) }
{
    match table_of(alloc, names, ends) {
        Ok(shared) => Ok(shared),
        Err(AllocError) => Err(OutOfMemory),
    }
}

fn table_of(alloc: Global, names: &[&[u8]], ends: &[u32]) -> Result<Shared, AllocError>
    requires { AreTails (texts names.now) ends.now }
    ensures bytes { IfOk result (λ shared. shared.bytes.items ≡ string_table (texts names.now)) }
    ensures offsets { IfOk result (λ shared. shared.offsets.items ≡ map (name_offset (texts names.now)) (texts names.now)) }
{
    let owners = owners_of(alloc, names, ends)?;
    let (bytes, zeros) = write_names(alloc, names, &owners)?;
    let offsets = offsets_of(names, &owners, zeros);
    Ok(Shared { bytes, offsets })
}

/// The bytes of the table, and where the zero of each name is that is its own owner.
fn write_names(
    alloc: Global,
    names: &[&[u8]],
    owners: &[usize],
) -> Result<(Vec<u8>, Vec<u64>), AllocError>
    requires { AreOwners (texts names.now) owners.now }
    ensures bytes { IfOk result (λ (bytes, ends). bytes.items ≡ string_table (texts names.now)) }
    ensures ends { IfOk result (λ (bytes, ends). HasEnds (texts names.now) (length names.now) ends.items) }
{
    let mut bytes = Vec::new(alloc);
    bytes.push(0)?;
    let mut ends = Vec::with_capacity(alloc, names.len())?;
    for i in 0..names.len() {
        write_name(&mut bytes, names[i], owners[i] == i)?;
        ends.push(bytes.len() as u64 - 1)?;
    }
    Ok((bytes, ends))
}

/// A name with its zero, at the table's end, if it is to be written and isn't empty.
fn write_name(bytes: &mut Vec<u8>, name: &[u8], is_owner: bool) -> Result<(), AllocError>
    ensures { IfOk result (λ done. bytes.new.items ≡ with_name bytes.old.items name.now is_owner) }
{
    if is_owner && !name.is_empty() {
        bytes.extend_from_slice(name)?;
        bytes.push(0)?;
    }
    Ok(())
}

/// Where each name begins, from where the zeros of the owners are.
fn offsets_of(names: &[&[u8]], owners: &[usize], zeros: Vec<u64>) -> Vec<u64>
    requires owners { AreOwners (texts names.now) owners.now }
    requires zeros { HasEnds (texts names.now) (length names.now) zeros.items }
    ensures { result.items ≡ map (name_offset (texts names.now)) (texts names.now) }
{
    begin_names(names, share_ends(owners, zeros))
}

/// Gives each name the end of its owner. An owner is its own owner, so its end stays.
fn share_ends(owners: &[usize], mut ends: Vec<u64>) -> Vec<u64>
    requires all { length ends.items ≡ length owners.now }
    requires own { AreTheirOwn owners.now }
    ensures { result.items ≡ map (λ owner. get_or ends.items owner 0) owners.now }
{
    for i in 0..owners.len() {
        let owner = owners[i];
        if owner != i {
            ends[i] = ends[owner];
        }
    }
    ends
}

/// Where each name begins, from where its zero is.
fn begin_names(names: &[&[u8]], zeros: Vec<u64>) -> Vec<u64>
    requires { HaveZeros (texts names.now) zeros.items }
    ensures { result.items ≡ map (name_offset (texts names.now)) (texts names.now) }
{
    let mut offsets = zeros;
    for i in 0..names.len() {
        offsets[i] = offset_of(names[i], offsets[i]);
    }
    offsets
}

/// Where a name begins that ends at an offset.
fn offset_of(name: &[u8], end: u64) -> u64
    requires { is_named name.now ≡ true → length name.now ≤ end }
    ensures empty { is_named name.now ≡ false → result ≡ 0 }
    ensures named { is_named name.now ≡ true → result ≡ end - length name.now }
{
    if name.is_empty() {
        0
    } else {
        end - name.len() as u64
    }
}
