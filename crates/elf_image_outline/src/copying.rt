//! The image of an outline onto a writer.
ghost use Rattle.std.specs.Prelude.{◌≡◌, ◌<◌, ◌+◌, ◌^◌, ◌≤◌, ℕ, List, Some, drop, length, take, slice_get};
ghost use Rattle.elf_image_outline.specs.Outline.{bytes_out, later, Copies, ReadsAfter, copy_failure, IsOutlineOf, IsSoundOutline};
ghost use Rattle.elf_image_outline.specs.Outline.{bytes_of_outline, image_in, placed_part, ReadsOfSource, ReadsPart};
ghost use Rattle.elf_image_stream.specs.Source.{Reaches, Remembers};
ghost use Rattle.elf_image_outline.specs.Image.{IsImage, part_bytes};

use crate::entries::write_records;
use crate::outline::{Outline, Owner, Part};
use elf_image_stream::output::{BLOCK, write_zeros};
use elf_image_stream::{ReadFault, Source, WriteFault, read_exactly, write_whole};
use std::io::Write;
use thiserror::Error;

// What can stop a copy.

/// Why an image was not copied whole. Exactly its first `written` bytes were written.
#[derive(Clone, Copy, Debug, PartialEq, Eq, Error)]
pub enum CopyFault {
    /// A call of the source failed that was asked for this offset in the file, or gave no byte where more were to come.
    #[error("read failed at {at} after {written} bytes written")]
    Read { at: u64, written: u64 },
    /// A call of the writer failed, or took none of the bytes that it was offered.
    #[error("write failed after {written}")]
    Write { written: u64 },
}

// No byte of those that were to be read is written.
impl From<ReadFault> for CopyFault {
    ghost use Rattle.elf_image_outline.specs.declared.copying.CopyFault.TheVariants.{Read};

    ghost from_gives = { λ failed fault. fault ≡ Read failed.at 0 };

    fn from(failed: ReadFault) -> CopyFault {
        CopyFault::Read {
            at: failed.at,
            written: 0,
        }
    }
}

impl From<WriteFault> for CopyFault {
    ghost use Rattle.elf_image_outline.specs.declared.copying.CopyFault.TheVariants.{Write};

    ghost from_gives = { λ failed fault. fault ≡ Write failed.written };

    fn from(failed: WriteFault) -> CopyFault {
        CopyFault::Write {
            written: failed.written,
        }
    }
}

impl CopyFault {
    /// The fault, if so many other bytes were written before.
    pub(crate) fn after(self, before: u64) -> CopyFault
        requires { before + bytes_out self < 2 ^ 64 }
        ensures { result ≡ later before self }
    {
        match self {
            CopyFault::Read { at, written } => CopyFault::Read {
                at,
                written: before + written,
            },
            CopyFault::Write { written } => CopyFault::Write {
                written: before + written,
            },
        }
    }
}

// Bytes of a source onto a writer, through one array.

/// Copies as many bytes as the block has, from an offset on.
fn copy_block<S: Source, W: Write>(
    source: &mut S,
    writer: &mut W,
    at: u64,
    block: &mut [u8],
) -> Result<(), CopyFault>
    requires small { length block.old ≤ BLOCK }
    requires fits { at + length block.old < 2 ^ 64 }
    requires within { Reaches (S.content source.old) (at + length block.old) }
    ensures kept { S.content source.new ≡ S.content source.old }
    ensures failures { Remembers (copy_failure result) (S.failures source.old) (S.failures source.new) }
    ensures copies { Copies (S.content source.old) (W.contents writer.old) (W.contents writer.new) (length block.old)
        (λ b. take (length block.old) (drop at b)) result }
    ensures after { ReadsAfter BLOCK at (length block.old) result }
{
    read_exactly(source, at, block)?;
    write_whole(writer, block)?;
    Ok(())
}

/// Copies so many bytes, from an offset on.
pub(crate) fn copy_range<S: Source, W: Write>(
    source: &mut S,
    writer: &mut W,
    start: u64,
    len: u64,
) -> Result<(), CopyFault>
    requires fits { start + len < 2 ^ 64 }
    requires within { Reaches (S.content source.old) (start + len) }
    ensures kept { S.content source.new ≡ S.content source.old }
    ensures failures { Remembers (copy_failure result) (S.failures source.old) (S.failures source.new) }
    ensures copies { Copies (S.content source.old) (W.contents writer.old) (W.contents writer.new) len
        (λ b. take len (drop start b)) result }
    ensures after { ReadsAfter BLOCK start len result }
{
    let mut block = [0; BLOCK];
    let mut done = 0;
    while done < len {
        let size = (len - done).min(block.len() as u64);
        match copy_block(source, writer, start + done, &mut block[..size as usize]) {
            Ok(()) => done += size,
            Err(fault) => return Err(fault.after(done)),
        }
    }
    Ok(())
}

/// Copies one part, which has as many bytes as its length says: the records and the zeroed gaps are the outline's, any other byte is the
/// source's.
fn copy_part<S: Source, W: Write>(
    outline: &Outline,
    part: Part,
    source: &mut S,
    writer: &mut W,
) -> Result<(), CopyFault>
    requires sound { IsSoundOutline outline.now }
    requires part { (k : ℕ) × (slice_get outline.now.parts k ≡ Some part) }
    requires of { (b : List ℕ) → S.content source.old ≡ Some b → IsOutlineOf outline.now b }
    ensures kept { S.content source.new ≡ S.content source.old }
    ensures failures { Remembers (copy_failure result) (S.failures source.old) (S.failures source.new) }
    ensures copies { Copies (S.content source.old) (W.contents writer.old) (W.contents writer.new) part.len
        (λ b. part_bytes (image_in outline.now b) (placed_part outline.now.zeroed b part)) result }
    ensures after { ReadsAfter BLOCK part.start part.len result }
    ensures reads { ReadsPart outline.now.zeroed part.owner result }
{
    match part.owner {
        Owner::Header => Ok(write_records(writer, outline.order(), &[outline.header()])?),
        Owner::SectionTable => Ok(write_records(writer, outline.order(), outline.sections())?),
        Owner::ProgramTable => Ok(write_records(writer, outline.order(), outline.segments())?),
        Owner::Content(_) => copy_range(source, writer, part.start, part.len),
        Owner::Gap if outline.is_zeroed() => Ok(write_zeros(writer, part.len)?),
        Owner::Gap => copy_range(source, writer, part.start, part.len),
    }
}

/// Writes the bytes that represent the image of the outline with the contents and gaps of its source (gABI chapters 4 and 5). It writes
/// exactly these, or exactly their first `written` and returns a fault.
///
/// The outline is of the source's bytes, as [`scan`](elf_image_outline::scan) read it or edited since. The records are the outline's, and
/// are not read again. Contents are read, and gaps too unless they count as zeros, at most 4,096 bytes a call. If the source gives other
/// bytes than before, these are written: for a source that does not report its bytes, only the count of what was written holds.
///
/// [`CopyFault::Read`]: a call of the source failed, or gave no byte though the outline says that there is one; `at` is the offset that it
/// was asked for. After such a call nothing else is returned. [`CopyFault::Write`]: a call of the writer failed, an interruption too, or
/// took 0 bytes of a rest that is not empty. Nothing is tried again, nothing is flushed, and no memory is taken. Linear in the length of
/// the file.
pub fn copy_image<S: Source, W: Write>(
    outline: &Outline,
    source: &mut S,
    writer: &mut W,
) -> Result<(), CopyFault>
    requires of { (b : List ℕ) → S.content source.old ≡ Some b → IsOutlineOf outline.now b }
    ensures kept { S.content source.new ≡ S.content source.old }
    ensures copies { Copies (S.content source.old) (W.contents writer.old) (W.contents writer.new) outline.now.len
        (bytes_of_outline outline.now) result }
    ensures image { (b : List ℕ) → S.content source.old ≡ Some b →
        IsImage (image_in outline.now b) (bytes_of_outline outline.now b) }
    ensures failures { Remembers (copy_failure result) (S.failures source.old) (S.failures source.new) }
    ensures after { ReadsAfter BLOCK 0 outline.now.len result }
    ensures reads { ReadsOfSource outline.now result }
{
    outline.prove_stands();
    for part in outline.parts() {
        match copy_part(outline, *part, source, writer) {
            Ok(()) => {}
            Err(fault) => return Err(fault.after(part.start)),
        }
    }
    Ok(())
}
