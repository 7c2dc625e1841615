//! Least places for parts that are laid one after the other.
ghost use Rattle.std.specs.Prelude.{length, IfOk, IfErr, MatchOption};
ghost use Rattle.elf_extent.specs.Place.{AllFit, EndsFit, HasNoPlace, IsLeastPlace, IsPlaceFault, Least};

use std::alloc::Global;
use thiserror::Error;

/// Why parts have no places.
#[derive(Clone, Copy, PartialEq, Eq, Debug, Error)]
pub enum PlaceFault {
    /// At its least place the part at `index` starts or ends past the last offset of a u64; no
    /// part before it does.
    #[error("part {index} ends past the last offset")]
    Overflow { index: usize },
    /// An allocation failed. Each part has a place.
    #[error("out of memory")]
    OutOfMemory,
}

/// The least multiple of `align` not below `cursor`, in bytes; None if it does not fit a u64. The
/// alignment 0 counts as 1. Takes one division and no memory.
pub fn next_place(cursor: u64, align: u64) -> Option<u64>
    ensures { MatchOption result (HasNoPlace cursor align) (IsLeastPlace cursor align) }
{
    let align = align.max(1);
    let past = cursor % align;
    if past == 0 {
        Some(cursor)
    } else {
        cursor.checked_add(align - past)
    }
}

/// The least places of the parts (size, alignment), in bytes: the first part is placed from `from`,
/// each other one from the end of the one before it. The alignment 0 counts as 1.
///
/// Returns [`PlaceFault::Overflow`] with the first part whose start or end does not fit a u64, and
/// [`PlaceFault::OutOfMemory`] only where there is none and an allocation failed. Linear in the parts; only the places take memory.
pub fn place(alloc: Global, parts: &[(u64, u64)], from: u64) -> Result<Vec<u64>, PlaceFault>
    ensures least { IfOk result (λ places. Least parts.now from places.items) }
    ensures fits { IfOk result (λ places. EndsFit parts.now places.items (length parts.now)) }
    ensures err { IfErr result (IsPlaceFault parts.now from) }
{
    let mut places = Vec::new(alloc);
    let mut cursor = from;
    for (index, part) in parts.iter().enumerate() {
        let (size, align) = *part;
        let Some(start) = next_place(cursor, align) else {
            return Err(PlaceFault::Overflow { index });
        };
        let Some(end) = start.checked_add(size) else {
            return Err(PlaceFault::Overflow { index });
        };
        let Ok(()) = places.push(start) else {
            return Err(fault_without_room(parts, from));
        };
        cursor = end;
    }
    Ok(places)
}

// The fault where an allocation failed: an overflow, if any, comes before it.
fn fault_without_room(parts: &[(u64, u64)], from: u64) -> PlaceFault
    ensures { IsPlaceFault parts.now from result }
{
    match first_overflow(parts, from) {
        Some(index) => PlaceFault::Overflow { index },
        None => PlaceFault::OutOfMemory,
    }
}

// The first part whose start or end does not fit a u64.
fn first_overflow(parts: &[(u64, u64)], from: u64) -> Option<usize>
    ensures { MatchOption result (AllFit parts.now from) (λ index. IsPlaceFault parts.now from (PlaceFault.Overflow index)) }
{
    let mut cursor = from;
    for (index, part) in parts.iter().enumerate() {
        let (size, align) = *part;
        let Some(start) = next_place(cursor, align) else {
            return Some(index);
        };
        let Some(after) = start.checked_add(size) else {
            return Some(index);
        };
        cursor = after;
    }
    None
}
