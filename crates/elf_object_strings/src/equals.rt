//! Which names of a list are equal.
ghost use Rattle.std.specs.Prelude.{◌≡◌, ◌↔◌, [], get_or, IfOk, IsTrue};
ghost use Rattle.elf_object_strings.specs.Sorting.{AreInEndsOrder, AreNumbered, indexes_in, names_by_ends};
ghost use Rattle.elf_object_strings.specs.StringTable.{AreEqualTo, AreTails, texts};

use crate::leaders::ranges_of;
use crate::name_list::NameList;
use crate::sorting::{Numbered, sorted_names};
use crate::table::own_owners;
use std::alloc::{AllocError, Global};
use std::cmp::Ordering;

/// For each name the index of the first one that is equal. Of names of which some were read from one string table, `ends` has where each
/// ended there, or 0 if that is not known.
///
/// Names that shared bytes there are compared by numbers, so that no byte of that table is read for each of them. Takes n log n comparisons
/// of names, from their ends on. Fails only if an allocation failed.
pub fn first_equals(alloc: Global, names: &[&[u8]], ends: &[u32]) -> Result<Vec<usize>, AllocError>
    requires { AreTails (texts names.now) ends.now }
    ensures { IfOk result (λ firsts. AreEqualTo (texts names.now) firsts.items) }
{
    let ranges = ranges_of(alloc, names, ends)?;
    let list = NameList::new(names, &ranges);
    firsts_in(alloc, &list, &sorted_names(alloc, &list)?)
}

/// For each name of the list the index of the first that is equal: equal ones are sorted one right after the other, by their indexes.
fn firsts_in(
    alloc: Global,
    list: &NameList<'_, '_>,
    sorted: &[Numbered],
) -> Result<Vec<usize>, AllocError>
    requires numbered { AreNumbered list.now (names_by_ends list.now sorted.now) (indexes_in sorted.now) }
    requires order { AreInEndsOrder (names_by_ends list.now sorted.now) (indexes_in sorted.now) }
    ensures { IfOk result (λ firsts. AreEqualTo list.now firsts.items) }
{
    let mut firsts = own_owners(alloc, sorted.len())?;
    for position in 1..sorted.len() {
        let before = sorted[position - 1].index;
        let index = sorted[position].index;
        if is_equal(list, before, index) {
            firsts[index] = firsts[before];
        }
    }
    Ok(firsts)
}

/// Whether the names at two indexes are equal.
fn is_equal(list: &NameList<'_, '_>, a: usize, b: usize) -> bool
    ensures { IsTrue result ↔ (get_or list.now a [] ≡ get_or list.now b []) }
{
    if list.name(a).len() != list.name(b).len() {
        return false;
    }
    match list.compare(a, b) {
        Ordering::Equal => true,
        _ => false,
    }
}
