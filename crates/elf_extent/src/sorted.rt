//! Extents sorted once, for all that is asked of them in the order of their starts.
ghost use Rattle.std.specs.Prelude.{◌≡◌, filter, length, map, IfOk, IfNone};
ghost use Rattle.std.specs.List.Sorted.{IsNonDecreasingBy, IsPermutation};
ghost use Rattle.elf_extent.specs.Extent.{holds_any, AreMembers, AreDisjoint, Doubly, IsLowest};

use crate::extent::{Extent, OutOfMemory, Row, sweep};
use std::alloc::Global;
use std::marker::Model;

// The extents of a list that hold a byte, in ascending order of their starts.

/// An extent that holds a byte, and its index in the list.
#[derive(Clone, Copy)]
pub struct Member {
    pub index: usize,
    pub extent: Extent,
}

/// The extents that hold a byte, ascending by start.
pub fn members_by_start(alloc: Global, extents: &[Extent]) -> Result<Vec<Member>, OutOfMemory>
    ensures members { IfOk result (λ ms. AreMembers extents.now (length extents.now) ms.items) }
    ensures held { IfOk result (λ ms. IsPermutation (filter holds_any extents.now) (map (λ m. m.extent) ms.items)) }
    ensures ascending { IfOk result (λ ms. IsNonDecreasingBy (λ m. m.extent.start) ms.items) }
{
    let mut members = members_in_order(alloc, extents)?;
    sort_by_start(&mut members);
    Ok(members)
}

/// How many extents at the front of a list may be anywhere, as a file's header and its tables are.
const ANYWHERE: usize = 3;

/// Sorts members by start. If all but the first few ascend, the stable sort is linear; in any other
/// order it is the slower one. It takes a buffer, so the other one sorts if that allocation fails.
fn sort_by_start(members: &mut Vec<Member>)
    ensures permutation { IsPermutation members.old.items members.new.items }
    ensures ascending { IsNonDecreasingBy (λ m. m.extent.start) members.new.items }
{
    let is_nearly_sorted = members.len() > ANYWHERE
        && members[ANYWHERE..].is_sorted_by_key(|member| member.extent.start);
    if is_nearly_sorted && members.sort_by_key(|member| member.extent.start).is_ok() {
        return;
    }
    members.sort_unstable_by_key(|member| member.extent.start);
}

/// The extents that hold a byte, in the order of the list.
fn members_in_order(alloc: Global, extents: &[Extent]) -> Result<Vec<Member>, OutOfMemory>
    ensures members { IfOk result (λ ms. AreMembers extents.now (length extents.now) ms.items) }
    ensures held { IfOk result (λ ms. map (λ m. m.extent) ms.items ≡ filter holds_any extents.now) }
{
    let mut members = Vec::new(alloc);
    for (index, extent) in extents.iter().enumerate() {
        if extent.len > 0 {
            let member = Member {
                index,
                extent: *extent,
            };
            let Ok(()) = members.push(member) else {
                return Err(OutOfMemory);
            };
        }
    }
    Ok(members)
}

/// The extents of a list, sorted by their starts: for the lowest byte that two of them hold, and for their account.
#[derive(Drop)]
pub struct SortedExtents<'a> {
    extents: &'a [Extent],
    members: Vec<Member>,
}

impl<'a> Model for SortedExtents<'a> {
    ghost use Rattle.std.specs.Prelude.{List};
    ghost use Rattle.elf_extent.specs.declared.extent.Extent.{Extent};
    ghost use Rattle.elf_extent.specs.Extent.{AreSortedMembers, list_of};

    ghost Value = { List Extent };

    ghost view = { list_of };

    ghost invariant = { λ a. AreSortedMembers a.extents.now a.members.items };
}

impl<'a> SortedExtents<'a> {
    /// These extents, sorted: takes n log n comparisons of starts, and memory for the extents that hold a byte. Returns
    /// [`OutOfMemory`] only if that allocation failed. If all but the first three ascend, this is linear, and takes as much
    /// memory again for the time of the call. If there is none, it sorts without it.
    pub fn new(alloc: Global, extents: &'a [Extent]) -> Result<SortedExtents<'a>, OutOfMemory>
        ensures { IfOk result (λ sorted. sorted ≡ extents.entry.now) }
    {
        let members = members_by_start(alloc, extents)?;
        Ok(SortedExtents { extents, members })
    }

    /// The lowest offset, in bytes, that two of them hold, as [`first_double`](crate::first_double) finds it. Linear in
    /// the extents; takes no memory.
    pub fn first_double(&self) -> Option<u64>
        ensures lowest { IsLowest (Doubly self.now) result }
        ensures disjoint { IfNone result (AreDisjoint self.now) }
    {
        sweep(&mut MemberRow {
            members: &self.members,
            looks: 0,
        })
    }

    /// The extents that hold a byte, ascending by start.
    pub(crate) fn members(&self) -> &[Member]
        ensures members { AreMembers self.now (length self.now) result.now }
        ensures ascending { IsNonDecreasingBy (λ m. m.extent.start) result.now }
    {
        &self.members
    }
}

/// A row of the extents of members.
#[derive(Drop)]
pub(crate) struct MemberRow<'a> {
    members: &'a [Member],
    looks: u64,
}

impl<'a> Row for MemberRow<'a> {
    ghost use Rattle.elf_extent.specs.Extent.{member_extents, member_looks};

    ghost extents = { member_extents };

    ghost looks = { member_looks };

    fn len(&self) -> usize {
        self.members.len()
    }

    fn at(&mut self, k: usize) -> Extent {
        self.looks += 1;
        self.members[k].extent
    }
}
