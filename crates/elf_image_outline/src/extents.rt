//! What each byte of a file belongs to, by its records.
ghost use Rattle.std.specs.Prelude.{◌≡◌, ◌*◌, ◌<◌, ◌^◌, None, IfErr, IfOk, OnOk, length, map};
ghost use Rattle.elf_extent.specs.Account.{Accounts};
ghost use Rattle.elf_extent.specs.Extent.{AreDisjoint, AreWithin, Doubly, IsLowest};
ghost use Rattle.elf_image_outline.specs.Image.{owner_index, part_piece, value_extents};
ghost use Rattle.elf_image_outline.specs.Scanning.{IsSharedFault};
ghost use Rattle.elf_image_stream.specs.declared.fault.BytesFault.TheVariants.{Rule};

use crate::outline::{Owner, Part};
use elf_extent::{Extent, OutOfMemory, Piece, SortedExtents};
use elf_field::abi::{EHDR_SIZE, PHDR_SIZE, SHDR_SIZE};
use elf_field::{Ehdr, Phdr, Shdr};
use elf_image_rules::Broken;
use elf_image_rules::rules::SHARED_BYTE;
use elf_image_rules::tables::extent_of_content;
use elf_image_stream::BytesFault;
use std::alloc::{AllocError, Global};

/// Rule 33: no byte lies in two of these extents; otherwise it is broken at the lowest such byte.
fn validate_sharing(sorted: &SortedExtents<'_>) -> Result<(), Broken<u64>>
    ensures unshared { OnOk result (IsLowest (Doubly sorted.now) None) }
    ensures disjoint { OnOk result (AreDisjoint sorted.now) }
    ensures err { IfErr result (λ broken. IsSharedFault sorted.now (Rule broken.rule broken.at)) }
{
    match sorted.first_double() {
        Some(at) => Err(Broken::new(SHARED_BYTE, at)),
        None => Ok(()),
    }
}

/// The parts of a file of `len` bytes with this header and these tables, if no byte lies in two of them; otherwise rule 33, at the lowest
/// such byte. The extents are sorted once for both.
pub(crate) fn unshared_parts(
    alloc: Global,
    len: u64,
    header: &Ehdr,
    sections: &[Shdr],
    segments: &[Phdr],
) -> Result<Vec<Part>, BytesFault>
    requires sections { SHDR_SIZE * length sections.now < 2 ^ 64 }
    requires segments { PHDR_SIZE * length segments.now < 2 ^ 64 }
    requires within { AreWithin (value_extents header.now sections.now segments.now) len }
    ensures unshared { OnOk result (IsLowest (Doubly (value_extents header.now sections.now segments.now)) None) }
    ensures parts { IfOk result
        (λ parts. Accounts (value_extents header.now sections.now segments.now) len 0 (map part_piece parts.items)) }
    ensures err { IfErr result (IsSharedFault (value_extents header.now sections.now segments.now)) }
{
    let extents = extents_of(alloc, header, sections, segments)?;
    let sorted = SortedExtents::new(alloc, &extents)?;
    validate_sharing(&sorted)?;
    Ok(account_parts(alloc, &sorted, len)?)
}

/// The parts of a file of `len` bytes with these extents.
fn account_parts(
    alloc: Global,
    sorted: &SortedExtents<'_>,
    len: u64,
) -> Result<Vec<Part>, AllocError>
    requires disjoint { AreDisjoint sorted.now }
    requires within { AreWithin sorted.now len }
    ensures { IfOk result (λ parts. Accounts sorted.now len 0 (map part_piece parts.items)) }
{
    match sorted.account(alloc, len) {
        Ok(pieces) => parts_of(alloc, &pieces),
        Err(OutOfMemory) => Err(AllocError),
    }
}

/// The extents of the header, the two tables and the contents.
fn extents_of(
    alloc: Global,
    header: &Ehdr,
    entries: &[Shdr],
    segments: &[Phdr],
) -> Result<Vec<Extent>, AllocError>
    requires sections { SHDR_SIZE * length entries.now < 2 ^ 64 }
    requires segments { PHDR_SIZE * length segments.now < 2 ^ 64 }
    ensures { IfOk result (λ v. v.items ≡ value_extents header.now entries.now segments.now) }
{
    let mut extents = Vec::with_capacity(alloc, entries.len() + 3)?;
    extents.push(Extent {
        start: 0,
        len: EHDR_SIZE,
    })?;
    extents.push(Extent {
        start: header.e_shoff,
        len: SHDR_SIZE * entries.len() as u64,
    })?;
    extents.push(Extent {
        start: header.e_phoff,
        len: PHDR_SIZE * segments.len() as u64,
    })?;
    for entry in entries {
        extents.push(extent_of_content(entry))?;
    }
    Ok(extents)
}

/// What the extent of this index is of; None is a gap.
fn owner_of(index: Option<usize>) -> Owner
    ensures { owner_index result ≡ index }
{
    match index {
        None => Owner::Gap,
        Some(0) => Owner::Header,
        Some(1) => Owner::SectionTable,
        Some(2) => Owner::ProgramTable,
        Some(index) => Owner::Content(index - 3),
    }
}

/// The parts that these pieces are.
fn parts_of(alloc: Global, pieces: &[Piece]) -> Result<Vec<Part>, AllocError>
    ensures { IfOk result (λ v. map part_piece v.items ≡ pieces.now) }
{
    let mut parts = Vec::with_capacity(alloc, pieces.len())?;
    for piece in pieces {
        parts.push(Part {
            owner: owner_of(piece.owner),
            start: piece.start,
            len: piece.len,
        })?;
    }
    Ok(parts)
}
