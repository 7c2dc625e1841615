//! The executable of relocated bytes onto a writer.
ghost use Rattle.std.specs.Prelude.{◌≡◌, ◌++◌, IfOk, MatchOption};
ghost use Rattle.elf_exec.specs.declared.exec_writing.ExecFault.TheVariants.{OutOfMemory};
ghost use Rattle.elf_image_stream.specs.Output.{Sends, Writes};
ghost use Rattle.elf_field.specs.Abi.{EHDR_SIZE};
ghost use Rattle.elf_exec.specs.ExecWriting.{loads_text, placed_header, placed_table, HasExecOf, IsExecWritten, IsTooLong};
ghost use Rattle.elf_link_relocate.specs.Linked.{IsSoundLinked};

use crate::headers::{ProgramHeaders, exec_header};
use crate::pieces::send_loads;
use crate::placed_exec::{PlacedExec, PlacingFault, file_len, table_end};
use elf_field::abi::*;
use elf_image_outline::{write_entries, write_records};
use elf_image_stream::WriteFault;
use elf_link_relocate::Linked;
use std::alloc::{AllocError, AllocFailed, Global};
use std::io::Write;
use thiserror::Error;

// What can stop an executable from being written.

/// Why an executable is not written.
#[derive(Clone, Copy, Debug, PartialEq, Eq, Error)]
pub enum ExecFault {
    /// It has 0xffff segments or more, or is longer than the longest file, 2^30 bytes. Nothing is written.
    #[error("longer than 2^30 bytes, or too many segments")]
    TooLong,
    /// An allocation failed. Nothing is written.
    #[error("out of memory")]
    OutOfMemory,
    /// A call of the writer failed, or took none of the bytes that it was offered, after exactly the first `written` bytes
    /// of the executable.
    #[error("write failed after {written}")]
    Io { written: u64 },
}

impl From<AllocError> for ExecFault {
    ghost from_gives = { λ _ fault. fault ≡ OutOfMemory };

    fn from(_refused: AllocError) -> ExecFault {
        ExecFault::OutOfMemory
    }
}

impl<T: Drop> From<AllocFailed<T>> for ExecFault {
    ghost from_gives = { λ _ fault. fault ≡ OutOfMemory };

    fn from(_refused: AllocFailed<T>) -> ExecFault {
        ExecFault::OutOfMemory
    }
}

impl From<PlacingFault> for ExecFault {
    ghost use Rattle.elf_exec.specs.ExecWriting.{exec_fault};

    ghost from_gives = { λ refused fault. fault ≡ exec_fault refused };

    fn from(refused: PlacingFault) -> ExecFault {
        match refused {
            PlacingFault::TooLong => ExecFault::TooLong,
            PlacingFault::OutOfMemory => ExecFault::OutOfMemory,
        }
    }
}

// The parts of an executable onto a writer: the header, the program header table, and the bytes of the segments.

/// Sends the whole file.
pub(crate) fn send_exec<W: Write>(
    writer: &mut W,
    placed: &PlacedExec<'_, '_, '_>,
) -> Result<u64, WriteFault>
    ensures { Sends (W.contents writer.old) (W.contents writer.new) 0
        (placed_header placed.now ++ (placed_table placed.now ++ loads_text placed.now)) result }
{
    write_header(writer, placed)?;
    send_after_header(writer, placed)
}

#[tactic(auto, unfolding(crate::specs::Executable::header_bytes))]
fn write_header<W: Write>(writer: &mut W, placed: &PlacedExec<'_, '_, '_>) -> Result<(), WriteFault>
    ensures { Writes (W.contents writer.old) (W.contents writer.new) (placed_header placed.now) result }
{
    let linked = placed.linked();
    let header = exec_header(linked, placed.count());
    write_records(writer, linked.identity().order, &[header])
}

/// Sends what is after the header.
fn send_after_header<W: Write>(
    writer: &mut W,
    placed: &PlacedExec<'_, '_, '_>,
) -> Result<u64, WriteFault>
    ensures { Sends (W.contents writer.old) (W.contents writer.new) EHDR_SIZE (placed_table placed.now ++ loads_text placed.now) result }
{
    let out = send_table(writer, placed)?;
    send_loads(writer, out, placed)
}

/// Sends the program header table.
fn send_table<W: Write>(writer: &mut W, placed: &PlacedExec<'_, '_, '_>) -> Result<u64, WriteFault>
    ensures { Sends (W.contents writer.old) (W.contents writer.new) EHDR_SIZE (placed_table placed.now) result }
{
    let end = table_end(placed.count());
    match write_table(writer, placed) {
        Ok(()) => Ok(end),
        Err(fault) => Err(fault.after(EHDR_SIZE)),
    }
}

#[tactic(auto, unfolding(crate::specs::Executable::table_bytes))]
fn write_table<W: Write>(writer: &mut W, placed: &PlacedExec<'_, '_, '_>) -> Result<(), WriteFault>
    ensures { Writes (W.contents writer.old) (W.contents writer.new) (placed_table placed.now) result }
{
    let order = placed.linked().identity().order;
    write_entries(writer, order, &ProgramHeaders { placed })
}

/// Writes the executable of relocated bytes (gABI chapters 4 and 5): the header, the program header table, and the bytes of each segment
/// with bits at the least place that is a multiple of the page; with zeros between. Each output section that takes memory is a segment of
/// type `PT_LOAD`, and the commons are one. In memory the segments are the memory of the link, and nothing else.
///
/// What is written breaks no rule of images. Its entry is the map's entry, and its loadable segments give an address a byte exactly if the
/// memory of the link has that byte there. No other list of bytes is the executable of this link. If `map` returned the map and `relocate`
/// the relocated bytes, the condition holds.
///
/// [`ExecFault::TooLong`] comes exactly if there are 0xffff segments or more, or the file would be longer than 2^30 bytes.
/// [`ExecFault::OutOfMemory`] comes only if an allocation fails. Both come before the first byte is written. Any error of the writer, an
/// interruption too, is [`ExecFault::Io`], and so is a write that takes 0 bytes of a rest that is not empty. Nothing is tried again and
/// nothing is flushed.
///
/// Memory is taken for the segments, their places and the list of the parts alone. Relocated bytes are passed on as they are. Zeros and
/// program headers are made as they are written. Linear in the bytes that are written, the members and the outputs.
pub fn write_exec<W: Write>(
    alloc: Global,
    linked: &Linked<'_, '_>,
    writer: &mut W,
) -> Result<(), ExecFault>
    requires { IsSoundLinked linked.now }
    ensures { IsExecWritten linked.now (W.contents writer.old) (W.contents writer.new) result }
{
    linked.prove_objects();
    let placed = PlacedExec::new(alloc, linked)?;
    match send_exec(writer, &placed) {
        Ok(_) => Ok(()),
        Err(fault) => Err(ExecFault::Io {
            written: fault.written,
        }),
    }
}

/// How long the executable is that [`write_exec`] writes of these relocated bytes, in bytes; `None` if it writes none, because there are
/// 0xffff segments or more, or the file would be longer than 2^30 bytes. Nothing is written. Fails only when out of memory.
///
/// Memory is taken for the segments, their places and the list of the parts alone. Linear in the outputs.
pub fn exec_length(alloc: Global, linked: &Linked<'_, '_>) -> Result<Option<u64>, AllocError>
    requires { IsSoundLinked linked.now }
    ensures { IfOk result (λ length. MatchOption length (IsTooLong linked.now) (HasExecOf linked.now)) }
{
    linked.prove_objects();
    match PlacedExec::new(alloc, linked) {
        Ok(placed) => Ok(Some(file_len(&placed))),
        Err(PlacingFault::TooLong) => Ok(None),
        Err(PlacingFault::OutOfMemory) => Err(AllocError),
    }
}
