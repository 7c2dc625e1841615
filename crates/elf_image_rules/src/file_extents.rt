//! The extents of a file, read as they are asked for: no memory is taken.
//!
//! Whether extents share a byte is found in two ways. [`verdict`](crate::verdict) promises to take no memory, so it cannot sort; `check`
//! sorts. Both have one definition, `IsFault`.
ghost use Rattle.std.specs.Prelude.{◌≡◌, ◌≤◌, ◌<◌, ◌+◌, ◌↔◌, IsFalse, IsTrue, IfOk, OnErr, Some, length, slice_get};
ghost use Rattle.elf_extent.specs.Extent.{Doubly, Has, IsLowest, lower_of};
ghost use Rattle.elf_image_rules.specs.Rules.{extents_of_file, DoublyBelow, ExtentsAscend, IsOutside, LieBetween, LieOutside, SharedBelow};
ghost use Rattle.elf_image_rules.specs.Rules.{IsFault, shared_fault};
ghost use Rattle.elf_image_rules.specs.ValidatedRecords.{file_of};

use crate::tables::extent_of_content;
use crate::validated_records::ValidatedRecords;
use elf_extent::{Extent, OutOfMemory, first_double};
use elf_field::abi::{EHDR_SIZE, PHDR_SIZE, SHDR_SIZE};
use std::alloc::{AllocError, Global};

/// The header, the section table, the program table, and then the content of each section.
#[derive(Drop)]
pub struct FileExtents<'a> {
    records: ValidatedRecords<'a>,
}

impl<'a> FileExtents<'a> {
    ghost use Rattle.elf_image_rules.specs.ValidatedRecords.{file_extents};

    /// How many extents are before the contents.
    const BEFORE_CONTENTS: u64 = 3;

    /// The extents of a validated file.
    pub fn new(records: &ValidatedRecords<'a>) -> FileExtents<'a>
        ensures { file_extents result ≡ extents_of_file (file_of records.now) }
    {
        FileExtents { records: *records }
    }

    /// How many there are.
    pub fn len(&self) -> u64
        ensures { result ≡ length (file_extents self.now) }
    {
        FileExtents::BEFORE_CONTENTS + self.records.section_count()
    }

    /// The extent of this index.
    pub fn at(&self, index: u64) -> Extent
        requires { index < length (file_extents self.now) }
        ensures { slice_get (file_extents self.now) index ≡ Some result }
    {
        match index {
            0 => Extent {
                start: 0,
                len: EHDR_SIZE,
            },
            1 => Extent {
                start: self.records.header().e_shoff,
                len: SHDR_SIZE * self.records.section_count(),
            },
            2 => Extent {
                start: self.records.header().e_phoff,
                len: PHDR_SIZE * self.records.segment_count(),
            },
            _ => self.content(index - FileExtents::BEFORE_CONTENTS),
        }
    }

    /// The content of this section.
    fn content(&self, section: u64) -> Extent
        requires { section + 3 < length (file_extents self.now) }
        ensures { slice_get (file_extents self.now) (section + 3) ≡ Some result }
    {
        extent_of_content(&self.records.section(section))
    }

    /// The lowest byte that two of them hold. Where the contents are in the order of their section headers a pass or two settle it; else
    /// every two are compared.
    pub fn lowest_shared_byte(&self) -> Option<u64>
        ensures { IsLowest (Doubly (file_extents self.now)) result }
    {
        match self.lowest_of_ascending() {
            Ok(lowest) => lowest,
            Err(NotAscending) => self.lowest_double(self.len()),
        }
    }

    /// The lowest byte that two of them hold. Where the contents are in the order of their section headers a pass or two settle it; else
    /// they are sorted, which takes memory. Assemblers don't keep that order: they lay a table of relocations after the tables of symbols
    /// and names, and give it the index after its section's.
    pub fn lowest_shared_byte_by_sorting(&self, alloc: Global) -> Result<Option<u64>, OutOfMemory>
        ensures { IfOk result (IsLowest (Doubly (file_extents self.now))) }
    {
        match self.lowest_of_ascending() {
            Ok(lowest) => Ok(lowest),
            Err(NotAscending) => match self.all(alloc) {
                Ok(extents) => first_double(alloc, &extents),
                Err(_) => Err(OutOfMemory),
            },
        }
    }

    /// All of them in a list.
    fn all(&self, alloc: Global) -> Result<Vec<Extent>, AllocError>
        ensures { IfOk result (λ es. es.items ≡ file_extents self.now) }
    {
        let mut extents = Vec::new(alloc);
        for index in 0..self.len() {
            extents.push(self.at(index))?;
        }
        Ok(extents)
    }

    /// The lowest byte that two of them hold, if the contents that are not empty are in the order of
    /// their section headers, each after the ones before it: these share no byte with one another, but
    /// may share one with the header or a table. Mostly the header and both tables are before the first
    /// content or after the last one. Then no content is compared with them.
    fn lowest_of_ascending(&self) -> Result<Option<u64>, NotAscending>
        ensures lowest { IfOk result (IsLowest (Doubly (file_extents self.now))) }
        ensures otherwise { let es = file_extents self.now in OnErr result (¬ ExtentsAscend es 3 (length es)) }
    {
        let hull = self.hull_of_ascending()?;
        if self.meets_hull(&hull) {
            Ok(self.lowest_with_contents())
        } else {
            Ok(self.lowest_double(FileExtents::BEFORE_CONTENTS))
        }
    }

    /// The first and the last content that hold a byte, if those that hold one are in the order of their
    /// section headers, each after the ones before it.
    fn hull_of_ascending(&self) -> Result<Hull, NotAscending>
        ensures ascending { let es = file_extents self.now in IfOk result (λ hull. ExtentsAscend es 3 (length es)) }
        ensures enclosed { IfOk result (λ hull. LieBetween (file_extents self.now) 3 hull.first hull.last) }
        ensures otherwise { let es = file_extents self.now in OnErr result (¬ ExtentsAscend es 3 (length es)) }
    {
        let mut first = Extent { start: 0, len: 0 };
        let mut last = first;
        for section in 0..self.records.section_count() {
            let extent = self.content(section);
            if extent.len > 0 {
                if begins_before_end(&extent, &last) {
                    return Err(NotAscending);
                }
                if last.len == 0 {
                    first = extent;
                }
                last = extent;
            }
        }
        Ok(Hull { first, last })
    }

    /// Whether the header or a table reaches into the hull.
    fn meets_hull(&self, hull: &Hull) -> bool
        ensures { IsFalse result → LieOutside (file_extents self.now) 3 hull.now.first hull.now.last }
    {
        reaches_into(&self.at(0), hull)
            || reaches_into(&self.at(1), hull)
            || reaches_into(&self.at(2), hull)
    }

    /// The lowest byte that the header or a table shares with another of the extents.
    fn lowest_with_contents(&self) -> Option<u64>
        ensures { let es = file_extents self.now in IsLowest (DoublyBelow es 3 (length es)) result }
    {
        let mut lowest = self.lowest_double(FileExtents::BEFORE_CONTENTS);
        for index in FileExtents::BEFORE_CONTENTS..self.len() {
            let extent = self.at(index);
            lowest = lower(lowest, self.lowest_in_tables(index, &extent));
        }
        lowest
    }

    /// The lowest byte that the content of this index shares with the header or a table.
    fn lowest_in_tables(&self, index: u64, extent: &Extent) -> Option<u64>
        requires { slice_get (file_extents self.now) index ≡ Some extent.now }
        ensures { IsLowest (SharedBelow (file_extents self.now) 3 index) result }
    {
        let header = shared(&self.at(0), extent);
        let section_table = shared(&self.at(1), extent);
        let program_table = shared(&self.at(2), extent);
        lower(lower(header, section_table), program_table)
    }

    /// The lowest byte that two of the first `end` extents hold.
    fn lowest_double(&self, end: u64) -> Option<u64>
        requires { end ≤ length (file_extents self.now) }
        ensures { IsLowest (DoublyBelow (file_extents self.now) end end) result }
    {
        let mut lowest = None;
        for index in 0..end {
            lowest = lower(lowest, self.lowest_shared(index));
        }
        lowest
    }

    /// The lowest byte that extent `index` shares with one of a lower index.
    fn lowest_shared(&self, index: u64) -> Option<u64>
        requires { index < length (file_extents self.now) }
        ensures { IsLowest (SharedBelow (file_extents self.now) index index) result }
    {
        let extent = self.at(index);
        let mut lowest = None;
        for other in 0..index {
            lowest = lower(lowest, shared(&self.at(other), &extent));
        }
        lowest
    }
}

/// A content begins before one of a lower index ends.
struct NotAscending;

/// The first and the last content that hold a byte, or two empty extents if no content holds one. Each
/// byte of a content is between the start of the first one and the end of the last one.
#[derive(Drop)]
struct Hull {
    first: Extent,
    last: Extent,
}

/// Whether an extent begins before the hull ends, and ends after the hull begins.
fn reaches_into(extent: &Extent, hull: &Hull) -> bool
    ensures { IsFalse result → IsOutside hull.now.first hull.now.last extent.now }
{
    begins_before_end(extent, &hull.last) && begins_before_end(&hull.first, extent)
}

/// Whether an extent begins before another one ends.
fn begins_before_end(extent: &Extent, other: &Extent) -> bool
    ensures { IsTrue result ↔ (extent.now.start < other.now.start + other.now.len) }
{
    extent.start < other.start || extent.start - other.start < other.len
}

/// The lowest byte that both extents hold.
fn shared(a: &Extent, b: &Extent) -> Option<u64>
    ensures { IsLowest (λ x. Has a.now x × Has b.now x) result }
{
    let start = a.start.max(b.start);
    if start - a.start < a.len && start - b.start < b.len {
        Some(start)
    } else {
        None
    }
}

/// The lower one of two offsets, each of which may be missing.
fn lower(a: Option<u64>, b: Option<u64>) -> Option<u64>
    ensures { result ≡ lower_of a b }
{
    match (a, b) {
        (Some(x), Some(y)) => Some(x.min(y)),
        (None, b) => b,
        (a, None) => a,
    }
}

// Rule 33: no byte of the file belongs to two of its parts (gABI chapter 4, Sections).

impl<'a> ValidatedRecords<'a> {
    /// The lowest byte that two parts of the file hold, which breaks rule 33; None if there is none, and the file is an image. It takes
    /// no memory: where the contents are not in the order of their section headers it compares every two of them, which takes the square of
    /// their number.
    pub fn shared_byte(&self) -> Option<u64>
        ensures { IsFault (file_of self.now) (shared_fault result) }
    {
        FileExtents::new(self).lowest_shared_byte()
    }

    /// The lowest byte that two parts of the file hold, as [`shared_byte`](ValidatedRecords::shared_byte), in n log n: where the contents
    /// are not in the order of their section headers they are sorted. That allocation may fail.
    pub fn shared_byte_by_sorting(&self, alloc: Global) -> Result<Option<u64>, OutOfMemory>
        ensures { IfOk result (λ found. IsFault (file_of self.now) (shared_fault found)) }
    {
        FileExtents::new(self).lowest_shared_byte_by_sorting(alloc)
    }
}
