//! Extents, accounts of a file and least places: rows for the tests, and what no clause says of the calls on them.
ghost use Rattle.std.specs.Prelude.{◌≤◌, ◌+◌, ◌↔◌, IsTrue, ◌<◌, length};
ghost use Rattle.std.specs.List.{All, AllAdjacentBelow};

use crate::asserts::assert_same;
use elf_extent::{
    Counted, Extent, OutOfMemory, Piece, PlaceFault, account, first_double, next_place, place,
    sweep,
};
use std::alloc::Global;
use std::process::Abort;

// Extents for the tests.

pub fn extent(start: u64, len: u64) -> Extent {
    Extent { start, len }
}

/// The extents (2k, 1) for k from 0 to below `count`.
pub fn every_other(alloc: Global, count: u64) -> Result<Vec<Extent>, OutOfMemory> {
    let mut extents = Vec::new(alloc);
    for k in 0..count {
        let Ok(()) = extents.push(extent(k.saturating_mul(2), 1)) else {
            return Err(OutOfMemory);
        };
    }
    Ok(extents)
}

// Accounts of every offset.

fn piece(owner: Option<usize>, start: u64, len: u64) -> Piece {
    Piece { owner, start, len }
}

fn all_within(extents: &[Extent], total: u64) -> bool
    ensures { IsTrue result ↔ All (λ e. e.start + e.len ≤ total) extents.now }
{
    extents
        .iter()
        .all(|e| e.start <= total && e.len <= total - e.start)
}

// The account, where the extents are within the total and share no byte.
fn checked_account(
    alloc: Global,
    extents: &[Extent],
    total: u64,
) -> Result<Option<Vec<Piece>>, OutOfMemory> {
    if !all_within(extents, total) {
        return Ok(None);
    }
    let None = first_double(alloc, extents)? else {
        return Ok(None);
    };
    let pieces = account(alloc, extents, total)?;
    Ok(Some(pieces))
}

// Whether the account has these pieces.
fn is_account(
    alloc: Global,
    extents: &[Extent],
    total: u64,
    expected: &[Piece],
) -> Result<bool, OutOfMemory> {
    match checked_account(alloc, extents, total)? {
        Some(pieces) => Ok(pieces.as_slice() == expected),
        None => Ok(false),
    }
}

#[test]
fn accounts_for_every_offset(rt: HostRuntime) {
    let extents = [extent(4, 2), extent(0, 0), extent(1, 1)];
    let pieces = [
        piece(None, 0, 1),
        piece(Some(2), 1, 1),
        piece(None, 2, 2),
        piece(Some(0), 4, 2),
        piece(None, 6, 2),
    ];
    let accounts = [
        is_account(rt.alloc(), &extents, 8, &pieces),
        is_account(rt.alloc(), &[], 0, &[]),
        is_account(rt.alloc(), &[], 3, &[piece(None, 0, 3)]),
    ];
    assert_same(&rt, accounts, [Ok(true); 3]);
}

// How many pieces the account has.
fn piece_count(
    alloc: Global,
    extents: &[Extent],
    total: u64,
) -> Result<Option<usize>, OutOfMemory> {
    match checked_account(alloc, extents, total)? {
        Some(pieces) => Ok(Some(pieces.len())),
        None => Ok(None),
    }
}

// How many pieces the account of a million extents has.
fn piece_count_of_a_million(alloc: Global) -> Result<Option<usize>, OutOfMemory> {
    let extents = every_other(alloc, 1_000_000)?;
    piece_count(alloc, &extents, 2_000_000)
}

// A million extents are accounted for in seconds.
#[test]
fn many_extents_take_no_quadratic_time(rt: HostRuntime) {
    assert_same(
        &rt,
        piece_count_of_a_million(rt.alloc()),
        Ok(Some(2_000_000)),
    );
}

// The lowest byte that two of a list of extents hold.

// Extents that end past a u64 are counted over whole numbers.
#[test]
fn finds_the_lowest_double(rt: HostRuntime) {
    let several = [extent(10, 5), extent(0, 3), extent(2, 9), extent(14, 1)];
    let equal = [extent(5, 0), extent(5, 2), extent(5, 2)];
    let touching = [extent(5, 0), extent(4, 3)];
    let past = [extent(u64::MAX, 1), extent(u64::MAX - 1, u64::MAX)];
    let doubles = [
        first_double(rt.alloc(), &several),
        first_double(rt.alloc(), &equal),
        first_double(rt.alloc(), &touching),
        first_double(rt.alloc(), &past),
    ];
    let expected = [Ok(Some(2)), Ok(Some(5)), Ok(None), Ok(Some(u64::MAX))];
    assert_same(&rt, doubles, expected);
}

// How many of the extents hold this offset.
fn holders(extents: &[Extent], offset: u64) -> u64 {
    let mut holders = 0u64;
    for extent in extents {
        if extent.start <= offset && offset - extent.start < extent.len {
            holders = holders.saturating_add(1);
        }
    }
    holders
}

// The lowest offset below 11 that two of the extents hold, by counting at each offset.
fn counted_double(extents: &[Extent]) -> Option<u64> {
    for offset in 0..11 {
        if holders(extents, offset) > 1 {
            return Some(offset);
        }
    }
    None
}

// The lower one of two offsets, each of which may be missing.
fn lower(a: Option<u64>, b: Option<u64>) -> Option<u64> {
    match (a, b) {
        (Some(x), Some(y)) => Some(x.min(y)),
        (one, None) => one,
        (None, other) => other,
    }
}

// The lowest byte that both extents hold.
fn shared(a: &Extent, b: &Extent) -> Option<u64> {
    let start = a.start.max(b.start);
    if start - a.start < a.len && start - b.start < b.len {
        Some(start)
    } else {
        None
    }
}

// The lowest byte that the extent shares with one of these.
fn shared_with_one(extent: &Extent, others: &[Extent]) -> Option<u64> {
    let mut lowest = None;
    for other in others {
        lowest = lower(lowest, shared(extent, other));
    }
    lowest
}

// The lowest byte that two of the extents hold, by a look at each two of them.
fn pairwise_double(extents: &[Extent]) -> Option<u64> {
    let mut lowest = None;
    for k in 0..extents.len() {
        lowest = lower(lowest, shared_with_one(&extents[k], &extents[..k]));
    }
    lowest
}

fn check_double(rt: &impl Abort, alloc: Global, extents: &[Extent]) {
    let expected = [Ok(counted_double(extents)), Ok(pairwise_double(extents))];
    assert_same(rt, expected, [first_double(alloc, extents); 2]);
}

// Each extent with start and len from 0 to 5 has a number below 36; so has, in each run of 36, each greater number.
fn numbered(n: u64) -> Extent {
    extent(n / 6 % 6, n % 6)
}

// All lists of at most one of these extents.
#[test]
fn agrees_with_other_searches_on_one_extent(rt: HostRuntime) {
    check_double(&rt, rt.alloc(), &[]);
    for n in 0..36 {
        check_double(&rt, rt.alloc(), &[numbered(n)]);
    }
}

#[test]
fn agrees_with_other_searches_on_two_extents(rt: HostRuntime) {
    for n in 0..36 * 36 {
        check_double(&rt, rt.alloc(), &[numbered(n / 36), numbered(n)]);
    }
}

#[test]
fn agrees_with_other_searches_on_three_extents(rt: HostRuntime) {
    for n in 0..36 * 36 * 36 {
        let extents = [numbered(n / (36 * 36)), numbered(n / 36), numbered(n)];
        check_double(&rt, rt.alloc(), &extents);
    }
}

// What is found in a million extents, rising and then falling.
fn doubles_of_a_million(
    alloc: Global,
) -> Result<[Result<Option<u64>, OutOfMemory>; 2], OutOfMemory> {
    let mut extents = every_other(alloc, 1_000_000)?;
    let rising = first_double(alloc, &extents);
    extents.reverse();
    Ok([rising, first_double(alloc, &extents)])
}

// A million extents are searched in seconds.
#[test]
fn many_overlaps_take_no_quadratic_time(rt: HostRuntime) {
    assert_same(&rt, doubles_of_a_million(rt.alloc()), Ok([Ok(None); 2]));
}

// Least places, and the example of the root of elf_extent.

#[test]
fn finds_the_next_place(rt: HostRuntime) {
    let places = [
        next_place(5, 4),
        next_place(8, 4),
        next_place(5, 0),
        next_place(0, 16),
        next_place(7, 3),
        next_place(u64::MAX, 1),
        next_place(u64::MAX, 2),
    ];
    let expected = [
        Some(8),
        Some(8),
        Some(5),
        Some(0),
        Some(9),
        Some(u64::MAX),
        None,
    ];
    assert_same(&rt, places, expected);
}

// The parts have these places, or none for this reason.
fn check_places(
    rt: &impl Abort,
    alloc: Global,
    parts: &[(u64, u64)],
    from: u64,
    expected: Result<&[u64], PlaceFault>,
) {
    match place(alloc, parts, from) {
        Ok(places) => assert_same(rt, Ok(places.as_slice()), expected),
        Err(fault) => assert_same(rt, Err(fault), expected),
    }
}

// The first two are the example of the root of elf_extent.
#[test]
fn places_parts(rt: HostRuntime) {
    let alloc = rt.alloc();
    let double = first_double(alloc, &[extent(0, 4), extent(2, 4)]);
    assert_same(&rt, double, Ok(Some(2)));
    check_places(&rt, alloc, &[(1, 1), (8, 8)], 64, Ok(&[64, 72]));
    check_places(&rt, alloc, &[(1, 4), (0, 8), (3, 2)], 5, Ok(&[8, 16, 16]));
    let overflow = Err(PlaceFault::Overflow { index: 1 });
    check_places(&rt, alloc, &[(1, 1), (1, 2)], u64::MAX - 1, overflow);
    check_places(&rt, alloc, &[(1, 1), (2, 1)], u64::MAX - 1, overflow);
}

// Sweeps, and how often they look.

// Whether the starts never fall.
fn ascends(extents: &[Extent]) -> bool
    ensures { IsTrue result → AllAdjacentBelow (λ e f. e.start ≤ f.start) extents.now (length extents.now) }
{
    for k in 1..extents.len() {
        if extents[k].start < extents[k - 1].start {
            return false;
        }
    }
    true
}

fn each_holds_a_byte(extents: &[Extent]) -> bool
    ensures { IsTrue result ↔ All (λ e. 0 < e.len) extents.now }
{
    extents.iter().all(|e| e.len > 0)
}

// What a sweep answers, and after how many looks; None for extents that it does not take.
fn swept(extents: &[Extent]) -> Option<(Option<u64>, u64)> {
    if !ascends(extents) || !each_holds_a_byte(extents) {
        return None;
    }
    let mut row = Counted::new(extents);
    let double = sweep(&mut row);
    Some((double, row.looks()))
}

#[test]
fn looks_up_to_the_first_shared_byte(rt: HostRuntime) {
    let shared = [extent(0, 3), extent(2, 9), extent(10, 5), extent(14, 1)];
    let touching = [extent(0, 3), extent(3, 1)];
    let last = [
        extent(0, 1),
        extent(2, 3),
        extent(u64::MAX, 1),
        extent(u64::MAX, u64::MAX),
    ];
    assert_same(
        &rt,
        [swept(&shared), swept(&touching), swept(&last), swept(&[])],
        [
            Some((Some(2), 2)),
            Some((None, 2)),
            Some((Some(u64::MAX), 4)),
            Some((None, 0)),
        ],
    );
}
