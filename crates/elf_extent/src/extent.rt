//! An extent, a piece of an account, and out of memory.
ghost use Rattle.std.specs.Prelude.{◌≡◌, ◌<◌, ◌+◌, ◌^◌, Some, length, slice_get, filter, IfNone, IfOk};
ghost use Rattle.std.specs.List.{All};
ghost use Rattle.std.specs.List.Sorted.{IsNonDecreasingBy};
ghost use Rattle.elf_extent.specs.Extent.{Doubly, IsLowest, LooksToFirstShared, AreDisjoint, holds_any};

use std::alloc::Global;
use thiserror::Error;

/// An allocation failed.
#[derive(Clone, Copy, PartialEq, Eq, Debug, Error)]
#[error("out of memory")]
pub struct OutOfMemory;

/// The bytes at the offsets from `start` to below `start + len`; none if `len` is 0.
#[derive(Clone, Copy, PartialEq, Eq, Debug)]
pub struct Extent {
    /// The offset of the first byte.
    pub start: u64,
    /// How many bytes.
    pub len: u64,
}

/// The offsets from `start` to below `start + len`: those of an extent of a list, or of a gap
/// between extents.
#[derive(Clone, Copy, PartialEq, Eq, Debug)]
pub struct Piece {
    /// The index of the extent in the list; None for a gap.
    pub owner: Option<usize>,
    /// The first offset.
    pub start: u64,
    /// How many offsets these are.
    pub len: u64,
}

// Rows of extents that are looked at one by one, and counted as they are.

/// Extents that are shown one at a time, each look at one of them counted. Nothing else shows an extent of a row, so the count is
/// the steps that a search over it took.
pub trait Row {
    ghost use Rattle.std.specs.Prelude.{ℕ, List};
    ghost use Rattle.elf_extent.specs.declared.extent.Extent.{Extent};

    // the extents, which no call changes
    ghost extents: { Self → List Extent };

    // how many looks there were
    ghost looks: { Self → ℕ };

    /// How many extents there are. That is no look.
    fn len(&self) -> usize
        ensures { result ≡ length (extents self.now) };

    /// The extent at `k`: one look more.
    fn at(&mut self, k: usize) -> Extent
        requires within { k < length (extents self.old) }
        requires room { looks self.old + 1 < 2 ^ 64 }
        ensures value { slice_get (extents self.old) k ≡ Some result }
        ensures kept { extents self.new ≡ extents self.old }
        ensures counted { looks self.new ≡ looks self.old + 1 };
}

/// A row of the extents of a slice.
#[derive(Clone, Debug, Drop)]
pub struct Counted<'a> {
    extents: &'a [Extent],
    looks: u64,
}

impl<'a> Counted<'a> {
    ghost use Rattle.elf_extent.specs.Extent.{looks_at, shown};

    /// A row of these extents, at none of which there was a look.
    pub fn new(extents: &'a [Extent]) -> Counted<'a>
        ensures shown { shown result ≡ extents.now }
        ensures looks { looks_at result ≡ 0 }
    {
        Counted { extents, looks: 0 }
    }

    /// How many looks there were.
    pub fn looks(&self) -> u64
        ensures { result ≡ looks_at self.now }
    {
        self.looks
    }
}

impl<'a> Row for Counted<'a> {
    ghost use Rattle.elf_extent.specs.Extent.{looks_at, shown};

    ghost extents = { shown };

    ghost looks = { looks_at };

    fn len(&self) -> usize {
        self.extents.len()
    }

    fn at(&mut self, k: usize) -> Extent {
        self.looks += 1;
        self.extents[k]
    }
}

// One pass over extents in ascending order of their starts.

/// The lowest offset, in bytes, that two members of the row hold, be they equal or not; None if there is none.
///
/// It looks at each extent once, up to the first one that shares a byte with an earlier one, and takes no memory. The starts never
/// fall from one extent to the next, and each extent holds a byte. The contract counts how often it looks: one that compares every two
/// extents finds the same offset, and is refused.
pub fn sweep<R: Row>(row: &mut R) -> Option<u64>
    requires ascending { IsNonDecreasingBy (λ e. e.start) (R.extents row.old) }
    requires nonempty { All (λ e. 0 < e.len) (R.extents row.old) }
    requires room { R.looks row.old + length (R.extents row.old) < 2 ^ 64 }
    ensures lowest { IsLowest (Doubly (R.extents row.old)) result }
    ensures kept { R.extents row.new ≡ R.extents row.old }
    ensures looks { LooksToFirstShared (R.extents row.old) (R.looks row.old) (R.looks row.new) }
{
    // As long as no byte is shared, the last extent is the one that reaches furthest; before the first one nothing is reached.
    let mut last = Extent { start: 0, len: 0 };
    for k in 0..row.len() {
        let next = row.at(k);
        // Where an extent ends may not fit a u64, but how far it is from its start does.
        if next.start - last.start < last.len {
            return Some(next.start);
        }
        last = next;
    }
    None
}

// The lowest byte that two members of a list of extents hold.

/// The lowest offset, in bytes, that two members of the list hold, be they equal or not; None if
/// there is none, so that they are disjoint. An extent of length 0 holds no byte.
///
/// Takes n log n comparisons of starts, and memory for the extents that hold a byte. Returns
/// [`OutOfMemory`] only if that allocation failed.
pub fn first_double(alloc: Global, extents: &[Extent]) -> Result<Option<u64>, OutOfMemory>
    ensures lowest { IfOk result (IsLowest (Doubly extents.now)) }
    ensures disjoint { IfOk result (λ found. IfNone found (AreDisjoint extents.now)) }
{
    let mut held = nonempty(alloc, extents)?;
    held.sort_unstable_by_key(|extent| extent.start);
    Ok(sweep(&mut Counted::new(&held)))
}

/// The extents that hold a byte, in the order of the list.
fn nonempty(alloc: Global, extents: &[Extent]) -> Result<Vec<Extent>, OutOfMemory>
    ensures { IfOk result (λ held. held.items ≡ filter holds_any extents.now) }
{
    let mut held = Vec::new(alloc);
    for extent in extents {
        if extent.len > 0 {
            let Ok(()) = held.push(*extent) else {
                return Err(OutOfMemory);
            };
        }
    }
    Ok(held)
}
