//! The names that a string table is to hold, with what is known of those that share bytes.
ghost use Rattle.std.specs.Prelude.{◌≡◌, ◌≤◌, IfSome, [], get_or, length, reverse};
ghost use Rattle.std.specs.Bool.{OnFalse, OnTrue};
ghost use Rattle.std.specs.Cmp.Lexicographic.{slice_cmp};
ghost use Rattle.std.specs.Ordering.{nat_cmp};
ghost use Rattle.elf_object_strings.specs.Leaders.{AreLed, no_range};
ghost use Rattle.elf_object_strings.specs.StringTable.{AreTails, IsSuffix, is_suffix, texts};

use crate::sorting::{compare_ends, is_suffix};
use std::cmp::Ordering;
use std::marker::Model;

/// Names of up to so many bytes are compared as they are: that takes no longer than to look up their leaders.
pub const SHORT_NAME: usize = 64;

/// Names, and for each where it ends in the string table that it was read from; 0, or none, if that is not known. Of two names with one end
/// the longer one ends with the other.
#[derive(Drop)]
pub(crate) struct ReadNames<'n, 'a> {
    names: &'n [&'a [u8]],
    ends: &'n [u32],
}

impl<'n, 'a> Model for ReadNames<'n, 'a> {
    ghost use Rattle.std.specs.Prelude.{ℕ, List};

    ghost Value = { List (List ℕ) };

    ghost use Rattle.elf_object_strings.specs.StringTable.{AreTails};
    ghost use Rattle.elf_object_strings.specs.StringTable.{texts};

    ghost view = { λ list. texts list.names.now };

    ghost invariant = { λ list. AreTails (texts list.names.now) list.ends.now };
}

impl<'n, 'a> ReadNames<'n, 'a> {
    /// These names with these ends.
    pub(crate) fn new(names: &'n [&'a [u8]], ends: &'n [u32]) -> ReadNames<'n, 'a>
        requires { AreTails (texts names.now) ends.now }
        ensures { result ≡ texts names.now }
    {
        ReadNames { names, ends }
    }

    /// How many they are.
    pub(crate) fn count(&self) -> usize
        ensures { result ≡ length self.now }
    {
        self.names.len()
    }

    /// The name at this index; beyond the last one the empty name.
    pub(crate) fn name(&self, index: usize) -> &'a [u8]
        ensures { result.now ≡ get_or self.now index [] }
    {
        name_at(self.names, index)
    }

    /// Where the name at this index ends, if it is long and that is known; else 0.
    pub(crate) fn long_end(&self, index: usize) -> u32 {
        if self.name(index).len() > SHORT_NAME {
            number_at(self.ends, index)
        } else {
            0
        }
    }

    /// Whether the name at `b` is known to end with the one at `a`.
    pub(crate) fn is_tail(&self, a: usize, b: usize) -> bool
        ensures { OnTrue result (IsSuffix (get_or self.now a []) (get_or self.now b [])) }
    {
        let end = number_at(self.ends, a);
        end > 0 && end == number_at(self.ends, b) && self.name(a).len() <= self.name(b).len()
    }
}

/// The leaders that end with a name: the positions of the first and the last, each plus 1; 0 where they are not known.
#[derive(Clone, Copy, Debug)]
pub(crate) struct LeaderRange {
    pub(crate) first: u32,
    pub(crate) last: u32,
}

impl LeaderRange {
    /// Whether the leader of this number is one of them.
    fn has(self, number: u32) -> bool
        ensures yes { OnTrue result (self.first ≤ number × number ≤ self.last) }
        ensures no { OnFalse result (self.first ≤ number → number ≤ self.last → ⊥) }
    {
        self.first <= number && number <= self.last
    }
}

/// Names, and the leaders of those that are long and may share bytes, by which these are compared without a look at them.
#[derive(Drop)]
pub(crate) struct NameList<'n, 'a> {
    names: &'n [&'a [u8]],
    ranges: &'n [LeaderRange],
}

impl<'n, 'a> Model for NameList<'n, 'a> {
    ghost use Rattle.std.specs.Prelude.{ℕ, List};

    ghost Value = { List (List ℕ) };

    ghost use Rattle.elf_object_strings.specs.Leaders.{AreLed};
    ghost use Rattle.elf_object_strings.specs.StringTable.{texts};

    ghost view = { λ list. texts list.names.now };

    ghost invariant = { λ list. AreLed (texts list.names.now) list.ranges.now };
}

impl<'n, 'a> NameList<'n, 'a> {
    /// These names with these leaders.
    pub(crate) fn new(names: &'n [&'a [u8]], ranges: &'n [LeaderRange]) -> NameList<'n, 'a>
        requires { AreLed (texts names.now) ranges.now }
        ensures { result ≡ texts names.now }
    {
        NameList { names, ranges }
    }

    /// The names.
    pub(crate) fn names(&self) -> &'n [&'a [u8]]
        ensures { texts result.now ≡ self.now }
    {
        self.names
    }

    /// The name at this index; beyond the last one the empty name.
    pub(crate) fn name(&self, index: usize) -> &'a [u8]
        ensures { result.now ≡ get_or self.now index [] }
    {
        name_at(self.names, index)
    }

    /// The order of the names at two indexes, read from their last bytes on.
    pub(crate) fn compare(&self, a: usize, b: usize) -> Ordering
        ensures { result ≡ slice_cmp nat_cmp (reverse (get_or self.now a [])) (reverse (get_or self.now b [])) }
    {
        let left = self.name(a);
        let right = self.name(b);
        if left.len() > SHORT_NAME {
            if let Some(order) = self.order_by_leaders(a, b) {
                return order;
            }
        }
        compare_ends(left, right)
    }

    /// The order of the names at two indexes, if the leaders of both are known.
    // Few names are long: out of line, so that the comparison of short ones stays small.
    #[inline(never)]
    fn order_by_leaders(&self, a: usize, b: usize) -> Option<Ordering>
        ensures { IfSome result (λ order. order ≡ slice_cmp nat_cmp (reverse (get_or self.now a [])) (reverse (get_or self.now b []))) }
    {
        let left = self.name(a);
        let right = self.name(b);
        let range = range_at(self.ranges, a);
        let other = range_at(self.ranges, b);
        if range.last > 0 && other.last > 0 {
            let lasts = other.last.cmp(&range.last);
            Some(lasts.then(left.len().cmp(&right.len())))
        } else {
            None
        }
    }

    /// Whether the name at `b` ends with the one at `a`.
    pub(crate) fn is_tail(&self, a: usize, b: usize) -> bool
        ensures { result ≡ is_suffix (get_or self.now a []) (get_or self.now b []) }
    {
        let name = self.name(a);
        let other = self.name(b);
        if name.len() > SHORT_NAME {
            if let Some(is_tail) = self.is_tail_by_leaders(a, b) {
                return is_tail;
            }
        }
        is_suffix(name, other)
    }

    /// Whether the name at `b` ends with the one at `a`, if the leaders of both are known.
    // Out of line, as above.
    #[inline(never)]
    fn is_tail_by_leaders(&self, a: usize, b: usize) -> Option<bool>
        ensures { IfSome result (λ is_tail. is_tail ≡ is_suffix (get_or self.now a []) (get_or self.now b [])) }
    {
        let name = self.name(a);
        let other = self.name(b);
        let range = range_at(self.ranges, a);
        let last = range_at(self.ranges, b).last;
        if range.last > 0 && last > 0 {
            Some(range.has(last) && name.len() <= other.len())
        } else {
            None
        }
    }
}

/// The name at this index; beyond the last one the empty name.
fn name_at<'a>(names: &[&'a [u8]], index: usize) -> &'a [u8]
    ensures { result.now ≡ get_or (texts names.now) index [] }
{
    if index < names.len() {
        names[index]
    } else {
        &[]
    }
}

/// The number at this index; beyond the last one 0.
fn number_at(numbers: &[u32], index: usize) -> u32
    ensures { result ≡ get_or numbers.now index 0 }
{
    if index < numbers.len() {
        numbers[index]
    } else {
        0
    }
}

/// The leaders of the name at this index; beyond the last one none is known.
fn range_at(ranges: &[LeaderRange], index: usize) -> LeaderRange
    ensures { result ≡ get_or ranges.now index no_range }
{
    if index < ranges.len() {
        ranges[index]
    } else {
        LeaderRange { first: 0, last: 0 }
    }
}
