//! Names sorted by what they end with.
ghost use Rattle.std.specs.Cmp.Lexicographic.{slice_cmp};
ghost use Rattle.std.specs.Ordering.{nat_cmp};
ghost use Rattle.std.specs.Prelude.{◌≡◌, ◌<◌, length, reverse, IfSome, [], get_or, IfOk, true, ℕ, List};
ghost use Rattle.std.specs.List.{All};
ghost use Rattle.std.specs.List.Sorted.{IsPermutation};
ghost use Rattle.elf_object_strings.specs.Leaders.{IsCommonEnd};
ghost use Rattle.elf_object_strings.specs.Sorting.{AreWithoutEqualEnds, AreInEndsOrder, AreNumbered, HasEnd, end_number, ends_order};
ghost use Rattle.elf_object_strings.specs.Sorting.{indexes_in, is_whole, names_by_ends, numbered_order};
ghost use Rattle.elf_object_strings.specs.StringTable.{IsSuffix, is_suffix, texts};
ghost use Rattle.elf_field.specs.Bytes.{IsBytes};

use crate::name_list::NameList;
use std::alloc::{AllocError, Global};
use std::cmp::Ordering;

// Two names, read from their last bytes on.

/// Whether the other name ends with this one.
pub(crate) fn is_suffix(name: &[u8], other: &[u8]) -> bool
    ensures { result ≡ is_suffix name.now other.now }
{
    other.ends_with(name)
}

/// How long the longest name is that both end with, in bytes.
pub(crate) fn common_end(a: &[u8], b: &[u8]) -> usize
    ensures { IsCommonEnd a.now b.now result }
{
    let mut left = a;
    let mut right = b;
    while let Some((less_left, less_right)) = without_equal_ends(left, right) {
        left = less_left;
        right = less_right;
    }
    a.len() - left.len() + equal_bytes(left, right)
}

/// How many of the last bytes of both are equal. It compares byte by byte.
fn equal_bytes(a: &[u8], b: &[u8]) -> usize
    ensures { IsCommonEnd a.now b.now result }
{
    let most = a.len().min(b.len());
    for count in 0..most {
        if a[a.len() - 1 - count] != b[b.len() - 1 - count] {
            return count;
        }
    }
    most
}

/// The order of two names that are read from their last bytes on.
pub(crate) fn compare_ends(a: &[u8], b: &[u8]) -> Ordering
    ensures { result ≡ slice_cmp nat_cmp (reverse a.now) (reverse b.now) }
{
    let mut left = a;
    let mut right = b;
    while let Some((less_left, less_right)) = without_equal_ends(left, right) {
        left = less_left;
        right = less_right;
    }
    left.iter().rev().cmp(right.iter().rev())
}

/// Both without their last bytes, where these are equal.
// Most loops end with the first call, which would be the larger part of their work.
#[inline(always)]
fn without_equal_ends<'a, 'b>(a: &'a [u8], b: &'b [u8]) -> Option<(&'a [u8], &'b [u8])>
    ensures shorter { IfSome result (λ rests. length rests.0.now < length a.now) }
    ensures ends { IfSome result (λ rests. AreWithoutEqualEnds a.now b.now rests.0.now rests.1.now) }
{
    let (a_rest, a_end) = a.split_last_chunk::<32>()?;
    let (b_rest, b_end) = b.split_last_chunk::<32>()?;
    if a_end == b_end {
        Some((a_rest, b_rest))
    } else {
        None
    }
}

/// The index of a name in a list, with the end of the name as a number.
#[derive(Clone, Copy)]
pub(crate) struct Numbered {
    pub(crate) index: usize,
    // The last seven bytes as a number, the last of them the most significant, with zeros for those that a shorter name lacks; and below
    // them its length, or 8 if it is longer. So names of fewer than eight bytes are compared, and found equal, by their numbers alone.
    end: u64,
}

impl Numbered {
    /// The name at an index.
    // As is `end_of`, so that it is a load and two writes: there is one for each name, from three callers.
    #[inline(always)]
    pub(crate) fn new(name: &[u8], index: usize) -> Numbered
        ensures end { (names : List (List ℕ)) → get_or names index [] ≡ name.now → HasEnd names result }
        ensures index { result.index ≡ index }
    {
        Numbered {
            index,
            end: end_of(name),
        }
    }

    /// Whether its number says the whole name: it has fewer than eight bytes.
    fn is_whole(&self) -> bool
        ensures { result ≡ is_whole self.now.end }
    {
        self.end % 256 < 8
    }

    /// Whether the other name may end with this one, by the numbers alone: they are equal, or this name has fewer than eight bytes.
    pub(crate) fn may_be_tail(&self, other: &Numbered) -> bool
        ensures { (names : List (List ℕ)) → HasEnd names self.now → HasEnd names other.now →
            IsSuffix (get_or names self.now.index []) (get_or names other.now.index []) → result ≡ true }
    {
        self.end == other.end || self.is_whole()
    }
}

/// The names of a list, sorted by what they end with: read from their last bytes on, the greatest first; equal names by index.
///
/// A name follows, with those between, each one that ends with it. Takes n log n comparisons of ends.
pub(crate) fn sorted_names(
    alloc: Global,
    list: &NameList<'_, '_>,
) -> Result<Vec<Numbered>, AllocError>
    ensures numbered { IfOk result (λ sorted. AreNumbered list.now (names_by_ends list.now sorted.items) (indexes_in sorted.items)) }
    ensures order { IfOk result (λ sorted. AreInEndsOrder (names_by_ends list.now sorted.items) (indexes_in sorted.items)) }
    ensures ends { IfOk result (λ sorted. All (HasEnd list.now) sorted.items) }
{
    Ok(sort_by_ends(list, number_names(alloc, list.names())?))
}

/// Numbered names of a list, sorted by what they end with, as [`sorted_names`] sorts all of them.
pub(crate) fn sort_by_ends(list: &NameList<'_, '_>, numbered: Vec<Numbered>) -> Vec<Numbered>
    requires { All (HasEnd list.now) numbered.items }
    ensures permutation { IsPermutation numbered.items result.items }
    ensures order { AreInEndsOrder (names_by_ends list.now result.items) (indexes_in result.items) }
    ensures ends { All (HasEnd list.now) result.items }
{
    let mut sorted = numbered;
    sorted.sort_unstable_by(|a, b| by_end(list, a, b));
    sorted
}

fn number_names(alloc: Global, names: &[&[u8]]) -> Result<Vec<Numbered>, AllocError>
    ensures numbered { let all = texts names.now in
        IfOk result (λ numbered. AreNumbered all (names_by_ends all numbered.items) (indexes_in numbered.items)) }
    ensures ends { IfOk result (λ numbered. All (HasEnd (texts names.now)) numbered.items) }
{
    let mut numbered = Vec::with_capacity(alloc, names.len())?;
    for index in 0..names.len() {
        numbered.push(Numbered::new(names[index], index))?;
    }
    Ok(numbered)
}

/// The number of a name.
#[inline(always)]
fn end_of(name: &[u8]) -> u64
    ensures value { result ≡ end_number name.now }
    ensures bytes { IsBytes name.now }
{
    let mut end = [0; 8];
    end[0] = name.len().min(8) as u8;
    let count = name.len().min(7);
    end[8 - count..].copy_from_slice(&name[name.len() - count..]);
    u64::from_le_bytes(end)
}

fn by_end(list: &NameList<'_, '_>, a: &Numbered, b: &Numbered) -> Ordering
    ensures { result ≡ numbered_order list.now a.now b.now }
{
    // Where the numbers differ, they are in the order of the names, which need not be looked at.
    match b.end.cmp(&a.end) {
        Ordering::Equal if a.is_whole() => a.index.cmp(&b.index),
        Ordering::Equal => by_whole_end(list, a.index, b.index),
        order => order,
    }
}

// Out of line, so that the sort, which is copied out for each of its callers, stays small where numbers decide.
#[inline(never)]
fn by_whole_end(list: &NameList<'_, '_>, a: usize, b: usize) -> Ordering
    ensures { result ≡ ends_order (get_or list.now a []) a (get_or list.now b []) b }
{
    match list.compare(b, a) {
        Ordering::Equal => a.cmp(&b),
        order => order,
    }
}
