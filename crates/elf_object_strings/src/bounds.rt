//! Bounds: of all names that a leader ends with, by their lengths, which leader is the last one that ends with them.
ghost use Rattle.std.specs.Prelude.{◌≡◌, ◌<◌, ◌≤◌, ◌+◌, ℕ, [], IfOk, get_or, length};
ghost use Rattle.elf_object_strings.specs.Leaders.{AreBounds, AreCutAt, IsBoundOf, ReachUpTo, StandTogether, no_bound};
ghost use Rattle.elf_object_strings.specs.Sorting.{names_by_ends};

use crate::name_list::ReadNames;
use crate::sorting::{Numbered, common_end};
use std::alloc::AllocError;

/// A bound of the lengths of names that a leader ends with, in bytes, and the position of the last leader that ends with those that are
/// longer than the bound before this one.
#[derive(Clone, Copy, Debug)]
pub(crate) struct Bound {
    pub(crate) limit: usize,
    pub(crate) last: usize,
}

/// The index of the first bound that is at least this length.
fn bound_of(bounds: &[Bound], len: usize) -> usize
    requires reach { (n : ℕ) × ReachUpTo bounds.now n × (len ≤ n) }
    ensures { IsBoundOf bounds.now len result }
{
    bounds.partition_point(|bound| bound.limit < len)
}

/// The position of the last leader that ends with a name of this length.
pub(crate) fn last_with(bounds: &[Bound], len: usize) -> usize
    requires reach { (n : ℕ) × ReachUpTo bounds.now n × (len ≤ n) }
    ensures { (k : ℕ) × IsBoundOf bounds.now len k × (result ≡ (get_or bounds.now k no_bound).last) }
{
    bounds[bound_of(bounds, len)].last
}

/// Makes the bounds of the leader after a position those of the leader there. After the last one there are none.
pub(crate) fn step_back(
    bounds: &mut Vec<Bound>,
    read: &ReadNames<'_, '_>,
    leaders: &[Numbered],
    position: usize,
) -> Result<(), AllocError>
    requires within { position < length leaders.now }
    requires together { StandTogether (names_by_ends read.now leaders.now) }
    requires none { position + 1 ≡ length leaders.now → bounds.old.items ≡ [] }
    requires bounds { position + 1 < length leaders.now → AreBounds (names_by_ends read.now leaders.now) bounds.old.items (position + 1) }
    ensures { IfOk result (λ done. AreBounds (names_by_ends read.now leaders.now) bounds.new.items position) }
{
    let name = read.name(leaders[position].index);
    if position + 1 < leaders.len() {
        let next = read.name(leaders[position + 1].index);
        cut_at(bounds, common_end(name, next))?;
    }
    bounds.push(Bound {
        limit: name.len(),
        last: position,
    })?;
    Ok(())
}

/// Keeps the bounds of the names of up to so many bytes.
fn cut_at(bounds: &mut Vec<Bound>, len: usize) -> Result<(), AllocError>
    requires reach { (n : ℕ) × ReachUpTo bounds.old.items n × (len ≤ n) }
    ensures { IfOk result (λ done. AreCutAt bounds.old.items bounds.new.items len) }
{
    let k = bound_of(bounds, len);
    let last = bounds[k].last;
    bounds.truncate(k);
    bounds.push(Bound { limit: len, last })?;
    Ok(())
}
