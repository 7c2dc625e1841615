//! An account of every offset below a total: the extents that hold it, and the gaps between them.
ghost use Rattle.std.specs.Prelude.{◌≡◌, ◌≤◌, [], ◌∷◌, ◌++◌, IfOk, OnOk};
ghost use Rattle.elf_extent.specs.Account.{Accounts, gap_between};
ghost use Rattle.elf_extent.specs.Extent.{AreDisjoint, AreWithin};

use crate::extent::{Extent, OutOfMemory, Piece};
use crate::sorted::SortedExtents;
use std::alloc::Global;

/// The pieces that hold every offset below `total` exactly once, in ascending order, none of them
/// empty: each extent that holds a byte, with its index as owner, and each gap between them, as
/// long as it can be. Offsets and `total` are in bytes.
///
/// The extents share no byte and end at or below `total`. Takes n log n comparisons of starts, and memory for the extents that hold a byte
/// and for the pieces. Returns [`OutOfMemory`] only if that allocation failed.
pub fn account(alloc: Global, extents: &[Extent], total: u64) -> Result<Vec<Piece>, OutOfMemory>
    requires disjoint { AreDisjoint extents.now }
    requires within { AreWithin extents.now total }
    ensures { IfOk result (λ pieces. Accounts extents.now total 0 pieces.items) }
{
    SortedExtents::new(alloc, extents)?.account(alloc, total)
}

impl<'a> SortedExtents<'a> {
    /// The [`account`] of these extents, which share no byte and end at or below `total`. Linear in the extents; returns [`OutOfMemory`]
    /// only if an allocation fails; the pieces take memory.
    pub fn account(&self, alloc: Global, total: u64) -> Result<Vec<Piece>, OutOfMemory>
        requires disjoint { AreDisjoint self.now }
        requires within { AreWithin self.now total }
        ensures { IfOk result (λ pieces. Accounts self.now total 0 pieces.items) }
    {
        let mut pieces = Vec::new(alloc);
        let mut at = 0;
        for member in self.members() {
            let Extent { start, len } = member.extent;
            push_gap(&mut pieces, at, start)?;
            let owner = Some(member.index);
            push_piece(&mut pieces, Piece { owner, start, len })?;
            at = start + len;
        }
        push_gap(&mut pieces, at, total)?;
        Ok(pieces)
    }
}

/// Adds the gap from `start` to `end`, if it is not empty.
fn push_gap(pieces: &mut Vec<Piece>, start: u64, end: u64) -> Result<(), OutOfMemory>
    requires { start ≤ end }
    ensures { OnOk result (pieces.new.items ≡ pieces.old.items ++ gap_between start end) }
{
    if start < end {
        let gap = Piece {
            owner: None,
            start,
            len: end - start,
        };
        push_piece(pieces, gap)?;
    }
    Ok(())
}

/// Adds the piece.
fn push_piece(pieces: &mut Vec<Piece>, piece: Piece) -> Result<(), OutOfMemory>
    ensures { OnOk result (pieces.new.items ≡ pieces.old.items ++ piece ∷ []) }
{
    let Ok(()) = pieces.push(piece) else {
        return Err(OutOfMemory);
    };
    Ok(())
}
