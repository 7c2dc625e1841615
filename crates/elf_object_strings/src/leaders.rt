//! The leaders of long names that may share bytes.
ghost use Rattle.std.specs.Prelude.{◌≡◌, ◌<◌, ◌≤◌, ◌+◌, ℕ, IfOk, get_or, length};
ghost use Rattle.std.specs.List.{All};
ghost use Rattle.elf_object_strings.specs.Leaders.{AreBetween, AreBounds, AreLasts, AreLed, IsBetween, StandTogether};
ghost use Rattle.elf_object_strings.specs.Sorting.{AreInEndsOrder, HasEnd, indexes_in, names_by_ends};
ghost use Rattle.elf_object_strings.specs.StringTable.{AreTails, texts};

use crate::bounds::{Bound, last_with, step_back};
use crate::name_list::{LeaderRange, NameList, ReadNames};
use crate::sorting::{Numbered, sort_by_ends};
use std::alloc::{AllocError, Global};

/// A long name: where it ends in the string table that it was read from, its length, and its index among the names.
#[derive(Clone, Copy, Debug, PartialEq, Eq, PartialOrd, Ord)]
struct LongName {
    end: u32,
    len: usize,
    index: usize,
}

/// The leaders of names of which some were read from one string table, with the end of each there, or 0 if that is not known.
///
/// Of the long names that end at one place the longest is a leader. Leaders share no bytes: to sort them takes n log n reads of bytes for a
/// string table of n, however many names a byte is part of. A short name has no known leader, nor has a long one whose end is not known. If
/// no two long names end at one place, none has one. Memory grows with the number of names.
pub(crate) fn ranges_of(
    alloc: Global,
    names: &[&[u8]],
    ends: &[u32],
) -> Result<Vec<LeaderRange>, AllocError>
    requires { AreTails (texts names.now) ends.now }
    ensures { IfOk result (λ ranges. AreLed (texts names.now) ranges.items) }
{
    let read = ReadNames::new(names, ends);
    if ends.is_empty() || ends_ascend(&read) {
        return Ok(Vec::new(alloc));
    }
    let long = long_names(alloc, &read)?;
    let leaders = leaders_of(alloc, &read, &long)?;
    if leaders.len() == long.len() {
        return Ok(Vec::new(alloc));
    }
    let sorted = sort_by_ends(&NameList::new(names, &[]), leaders);
    ranges_by(alloc, &read, &long, sorted)
}

/// Whether the ends of long names ascend, as far as they are known: then no two end at one place.
fn ends_ascend(read: &ReadNames<'_, '_>) -> bool {
    let mut last = 0;
    for index in 0..read.count() {
        let end = read.long_end(index);
        if end > 0 {
            if end <= last {
                return false;
            }
            last = end;
        }
    }
    true
}

/// The long names whose ends are known, by their ends and lengths.
fn long_names(alloc: Global, read: &ReadNames<'_, '_>) -> Result<Vec<LongName>, AllocError> {
    let mut long = Vec::new(alloc);
    for index in 0..read.count() {
        let end = read.long_end(index);
        if end > 0 {
            let len = read.name(index).len();
            long.push(LongName { end, len, index })?;
        }
    }
    long.sort_unstable();
    Ok(long)
}

/// The longest name of each end.
fn leaders_of(
    alloc: Global,
    read: &ReadNames<'_, '_>,
    long: &[LongName],
) -> Result<Vec<Numbered>, AllocError>
    ensures { IfOk result (λ leaders. All (HasEnd read.now) leaders.items) }
{
    let mut leaders = Vec::new(alloc);
    for i in 0..long.len() {
        if i + 1 == long.len() || long[i + 1].end != long[i].end {
            let index = long[i].index;
            leaders.push(Numbered::new(read.name(index), index))?;
        }
    }
    Ok(leaders)
}

/// The ranges of the names: the last leader of each, and the first, which is the last one of the leaders in reverse.
fn ranges_by(
    alloc: Global,
    read: &ReadNames<'_, '_>,
    long: &[LongName],
    sorted: Vec<Numbered>,
) -> Result<Vec<LeaderRange>, AllocError>
    requires { AreInEndsOrder (names_by_ends read.now sorted.items) (indexes_in sorted.items) }
    ensures { IfOk result (λ ranges. AreLed read.now ranges.items) }
{
    let mut leaders = sorted;
    let lasts = lasts_of(alloc, read, long, &leaders)?;
    leaders.reverse();
    let firsts = lasts_of(alloc, read, long, &leaders)?;
    ranges_between(alloc, &firsts, &lasts, leaders.len())
}

/// The range of each name from its first leader, which is counted from the end of so many leaders, to its last one.
fn ranges_between(
    alloc: Global,
    firsts: &[u32],
    lasts: &[u32],
    count: usize,
) -> Result<Vec<LeaderRange>, AllocError>
    requires all { length firsts.now ≡ length lasts.now }
    requires fit { (i : ℕ) → get_or firsts.now i 0 ≤ count }
    ensures { IfOk result (λ ranges. AreBetween firsts.now lasts.now count ranges.items) }
{
    let mut ranges = Vec::with_capacity(alloc, lasts.len())?;
    for i in 0..lasts.len() {
        ranges.push(range_between(firsts[i], lasts[i], count))?;
    }
    Ok(ranges)
}

/// The range of one name; none if its first or its last leader is not known.
fn range_between(first: u32, last: u32, count: usize) -> LeaderRange
    requires { first ≤ count }
    ensures { 0 < result.last → IsBetween first last count result }
{
    let none = LeaderRange { first: 0, last: 0 };
    if first == 0 || last == 0 {
        return none;
    }
    match u32::try_from(count - first as usize + 1) {
        Ok(first) => LeaderRange { first, last },
        Err(_) => none,
    }
}

/// For each name the position of the last leader that ends with it, plus 1; 0 if that is not known.
fn lasts_of(
    alloc: Global,
    read: &ReadNames<'_, '_>,
    long: &[LongName],
    leaders: &[Numbered],
) -> Result<Vec<u32>, AllocError>
    requires { StandTogether (names_by_ends read.now leaders.now) }
    ensures lasts { IfOk result (λ lasts. AreLasts (names_by_ends read.now leaders.now) read.now lasts.items) }
    ensures all { IfOk result (λ lasts. length lasts.items ≡ length read.now) }
{
    let mut lasts = Vec::new(alloc);
    lasts.resize(read.count(), 0)?;
    let mut bounds = Vec::new(alloc);
    let mut position = leaders.len();
    while position > 0 {
        position -= 1;
        step_back(&mut bounds, read, leaders, position)?;
        set_lasts(&mut lasts, read, long, leaders, position, &bounds);
    }
    Ok(lasts)
}

/// Sets the last leader of each long name that ends where the leader at a position does, whose bounds these are.
fn set_lasts(
    lasts: &mut [u32],
    read: &ReadNames<'_, '_>,
    long: &[LongName],
    leaders: &[Numbered],
    position: usize,
    bounds: &[Bound],
)
    requires within { position < length leaders.now }
    requires bounds { AreBounds (names_by_ends read.now leaders.now) bounds.now position }
    requires lasts { AreLasts (names_by_ends read.now leaders.now) read.now lasts.old }
    ensures lasts { AreLasts (names_by_ends read.now leaders.now) read.now lasts.new }
    ensures len { length lasts.new ≡ length lasts.old }
{
    let leader = leaders[position].index;
    let end = read.long_end(leader);
    for i in long.partition_point(|name| name.end < end)..long.len() {
        let index = long[i].index;
        if long[i].end != end {
            return;
        }
        if index < lasts.len() && read.is_tail(index, leader) {
            lasts[index] = number_of(last_with(bounds, read.name(index).len()));
        }
    }
}

/// A position plus 1; 0 if that is too large a number.
fn number_of(position: usize) -> u32
    ensures { 0 < result → result ≡ position + 1 }
{
    u32::try_from(position.saturating_add(1)).unwrap_or(0)
}
