//! Rule 15: the first field that shares a byte with one before it.
ghost use Rattle.std.specs.Prelude.{◌≡◌, ◌↔◌, ◌+◌, ◌<◌, ◌≤◌, All, IfOk, IsTrue, MatchOption, length, map as map_list, false, ℕ};
ghost use Rattle.elf_extent.specs.Extent.{Doubly};
ghost use Rattle.elf_link_relocate.specs.Passes.{AreSorted, AreSpots, HasNoOverlap, HasShared, IsFirstOverlappingField, IsFirstSharer};
ghost use Rattle.elf_link_relocate.specs.Passes.{IsFollowed, IsLastOfTarget, IsSpotIn, StandsAfter, field_extent};

use crate::field::{Field, FieldList};
use elf_extent::{Extent, OutOfMemory, first_double};
use std::alloc::{AllocError, Global};

// The fields of each section, in the order of their starts.

/// A field of a list, by the section that it is in and where it starts there.
#[derive(Clone, Copy, PartialEq, Eq, PartialOrd, Ord)]
pub(crate) struct Spot {
    /// The file.
    pub file: usize,
    /// The section of it.
    pub target: usize,
    /// Where the field starts there, in bytes.
    pub offset: usize,
    /// The field's position in the list.
    pub position: usize,
}

/// The spot of each field, in the order of the list.
fn spots_in_order(alloc: Global, fields: &[Field]) -> Result<Vec<Spot>, AllocError>
    ensures { IfOk result (λ spots. AreSpots fields.now (length fields.now) spots.items) }
{
    let mut spots = Vec::with_capacity(alloc, fields.len())?;
    for position in 0..fields.len() {
        let field = fields[position];
        spots.push(Spot {
            file: field.site.file,
            target: field.target,
            offset: field.offset,
            position,
        })?;
    }
    Ok(spots)
}

/// The spot of each field, those of each section side by side and ascending.
fn sorted_spots(alloc: Global, fields: &[Field]) -> Result<Vec<Spot>, AllocError>
    ensures spots { IfOk result (λ spots. AreSpots fields.now (length fields.now) spots.items) }
    ensures sorted { IfOk result (λ spots. AreSorted spots.items) }
{
    let mut spots = spots_in_order(alloc, fields)?;
    spots.sort_unstable();
    Ok(spots)
}

/// Whether a spot is the last one of its section.
fn is_last_of_target(spots: &[Spot], i: usize) -> bool
    requires { i < length spots.now }
    ensures last { IsTrue result → IsLastOfTarget spots.now i }
    ensures followed { result ≡ false → IsFollowed spots.now i }
{
    match spots.get(i + 1) {
        Some(next) => next.file != spots[i].file || next.target != spots[i].target,
        None => true,
    }
}

// Whether fields share a byte.

/// The bytes of a field that is before position `end` of the list; no byte of another one.
fn extent_of(fields: &[Field], end: usize, spot: Spot) -> Extent
    requires { spot.position < length fields.now }
    ensures { result ≡ field_extent fields.now end spot }
{
    let len = if spot.position < end {
        fields[spot.position].rule.width.size() as u64
    } else {
        0
    };
    Extent {
        start: spot.offset as u64,
        len,
    }
}

/// Whether two of the fields of a section that are before position `end` of the list share a byte.
fn is_shared(
    alloc: Global,
    fields: &[Field],
    end: usize,
    spots: &[Spot],
) -> Result<bool, AllocError>
    requires { All (IsSpotIn fields.now (length fields.now)) spots.now }
    ensures { IfOk result (λ shared. IsTrue shared ↔ ((x : ℕ) × Doubly (map_list (field_extent fields.now end) spots.now) x)) }
{
    let mut extents = Vec::with_capacity(alloc, spots.len())?;
    for spot in spots {
        extents.push(extent_of(fields, end, *spot))?;
    }
    match first_double(alloc, &extents) {
        Ok(found) => Ok(found.is_some()),
        Err(OutOfMemory) => Err(AllocError),
    }
}

/// Whether two of the fields before position `end` of the list share a byte: a look at each section that they are in.
fn is_any_shared(
    alloc: Global,
    fields: &[Field],
    end: usize,
    spots: &[Spot],
) -> Result<bool, AllocError>
    requires end { end ≤ length fields.now }
    requires spots { AreSpots fields.now (length fields.now) spots.now }
    requires sorted { AreSorted spots.now }
    ensures { IfOk result (λ shared. IsTrue shared ↔ HasShared fields.now end) }
{
    let mut from = 0;
    for i in 0..spots.len() {
        if is_last_of_target(spots, i) {
            if is_shared(alloc, fields, end, &spots[from..i + 1])? {
                return Ok(true);
            }
            from = i + 1;
        }
    }
    Ok(false)
}

/// The position of the first field that shares a byte with one before it, where some do. Halves the list again and again.
fn first_sharer(alloc: Global, fields: &[Field], spots: &[Spot]) -> Result<usize, AllocError>
    requires shared { HasShared fields.now (length fields.now) }
    requires spots { AreSpots fields.now (length fields.now) spots.now }
    requires sorted { AreSorted spots.now }
    ensures { IfOk result (IsFirstSharer fields.now) }
{
    // No two of the first `apart` fields share a byte, and two of the first `shared` ones do.
    let mut apart = 0;
    let mut shared = fields.len();
    while shared - apart > 1 {
        let middle = apart + (shared - apart) / 2;
        if is_any_shared(alloc, fields, middle, spots)? {
            shared = middle;
        } else {
            apart = middle;
        }
    }
    Ok(apart)
}

/// Whether each field is after the one before it in the order of the spots, so that no two share a byte.
fn are_apart(fields: &[Field], spots: &[Spot]) -> bool
    requires spots { AreSpots fields.now (length fields.now) spots.now }
    requires sorted { AreSorted spots.now }
    ensures apart { IsTrue result → HasShared fields.now (length fields.now) → ⊥ }
    ensures shared { result ≡ false → HasShared fields.now (length fields.now) }
{
    for i in 1..spots.len() {
        if !is_after(fields[spots[i - 1].position], fields[spots[i].position]) {
            return false;
        }
    }
    true
}

impl<'f, 'v, 'l, 'a> FieldList<'f, 'v, 'l, 'a> {
    /// Rule 15: the first field that shares a byte with one before it. It sorts the fields, so it is asked only where they do not ascend.
    pub(crate) fn first_overlap(&self, alloc: Global) -> Result<Option<usize>, AllocError>
        ensures { IfOk result
            (λ found. MatchOption found (HasNoOverlap self.now.objects self.now.fields)
            (IsFirstOverlappingField self.now.objects self.now.fields)) }
    {
        let fields = self.fields;
        let spots = sorted_spots(alloc, fields)?;
        if are_apart(fields, &spots) {
            return Ok(None);
        }
        Ok(Some(first_sharer(alloc, fields, &spots)?))
    }
}

// The order of fields.

/// Whether a field is after another one: in a later file or section, or after its end.
pub(crate) fn is_after(before: Field, field: Field) -> bool
    ensures { IsTrue result ↔ StandsAfter before field }
{
    if before.site.file != field.site.file {
        return before.site.file < field.site.file;
    }
    if before.target != field.target {
        return before.target < field.target;
    }
    match field.offset.checked_sub(before.offset) {
        Some(gap) => gap >= before.rule.width.size(),
        None => false,
    }
}
