//! A file in memory as an outline.
//!
//! Its records are read where they are, and nothing can fail to be read. So rules 1 to 32 are tested before memory is taken.
ghost use Rattle.std.specs.Prelude.{◌≡◌, IfErr, IfOk, map};
ghost use Rattle.std.specs.List.{range_with_len};
ghost use Rattle.elf_image_outline.specs.Image.{IsImage};
ghost use Rattle.elf_image_outline.specs.Outline.{IsOutlineOf, image_in};
ghost use Rattle.elf_image_outline.specs.Scanning.{StopsInMemory};
ghost use Rattle.elf_image_rules.specs.Tables.{file_counts, header, sections, segments};
ghost use Rattle.elf_image_rules.specs.ValidatedRecords.{file_of};

use crate::extents::unshared_parts;
use crate::outline::Outline;
use elf_field::{Phdr, Shdr};
use elf_image_rules::{ValidatedRecords, validate_records};
use elf_image_stream::BytesFault;
use std::alloc::{AllocError, Global};

/// The records and the parts of an ELF-64 file in memory that breaks no rule: what [`scan`](crate::scan) reads of these bytes.
///
/// [`BytesFault::Rule`] is the first of rules 1 to 33 that the bytes break, with the lowest offset where they break it.
/// [`BytesFault::OutOfMemory`] comes only if an allocation fails, and they break none of rules 1 to 32. Memory is taken for the two tables,
/// two lists of the extents of the file, and its parts. Sorting takes n log n comparisons; all else is linear in the records.
pub fn outline_of(alloc: Global, bytes: &[u8]) -> Result<Outline, BytesFault>
    ensures image { IfOk result (λ outline. IsImage (image_in outline bytes.now) bytes.now) }
    ensures of { IfOk result (λ outline. IsOutlineOf outline bytes.now) }
    ensures err { IfErr result (StopsInMemory bytes.now) }
{
    // These rules take no memory, so that running out of it never hides one that is broken.
    let records = validate_records(bytes)?;
    let sections = sections_of(alloc, &records)?;
    let segments = segments_of(alloc, &records)?;
    let len = bytes.len() as u64;
    let header = records.header();
    let parts = unshared_parts(alloc, len, &header, &sections, &segments)?;
    Ok(Outline::new(len, header, sections, segments, parts))
}

/// The section headers of a file (gABI chapter 4, Sections).
fn sections_of(alloc: Global, records: &ValidatedRecords<'_>) -> Result<Vec<Shdr>, AllocError>
    ensures { let b = file_of records.now in
        IfOk result (λ v. v.items ≡ map (sections b (header b)) (range_with_len 0 (file_counts b).sections)) }
{
    let count = records.section_count();
    let mut found = Vec::with_capacity(alloc, count as usize)?;
    for i in 0..count {
        found.push(records.section(i))?;
    }
    Ok(found)
}

/// The program headers of a file (gABI chapter 5, Program Header).
fn segments_of(alloc: Global, records: &ValidatedRecords<'_>) -> Result<Vec<Phdr>, AllocError>
    ensures { let b = file_of records.now in
        IfOk result (λ v. v.items ≡ map (segments b (header b)) (range_with_len 0 (file_counts b).segments)) }
{
    let count = records.segment_count();
    let mut found = Vec::with_capacity(alloc, count as usize)?;
    for j in 0..count {
        found.push(records.segment(j))?;
    }
    Ok(found)
}
