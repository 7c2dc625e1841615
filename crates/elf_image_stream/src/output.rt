//! Bytes and zeros onto a writer, with the count of the bytes that are written.
//!
//! Any error of the writer, an interruption too, is a [`WriteFault`], and so is a write that takes 0
//! bytes of a rest that is not empty. Nothing is tried again, nothing is flushed, and no memory is
//! taken.
ghost use Rattle.std.specs.Prelude.{replicate};
ghost use Rattle.elf_image_stream.specs.Output.{Writes};

use crate::fault::WriteFault;
use std::io::Write;

/// The size in bytes of the array that zeros go out through: no longer slice of them is offered.
pub const BLOCK: usize = 4096;

/// Writes all of `bytes`, or exactly the first `written` of them, fewer than all, and a fault. Each
/// write is offered all that is not out.
pub fn write_whole<W: Write>(writer: &mut W, bytes: &[u8]) -> Result<(), WriteFault>
    ensures { Writes (W.contents writer.old) (W.contents writer.new) bytes.now result }
{
    let mut written = 0;
    while written < bytes.len() {
        match writer.write(&bytes[written..]) {
            Ok(taken) if taken > 0 => written += taken,
            _ => {
                return Err(WriteFault {
                    written: written as u64,
                });
            }
        }
    }
    Ok(())
}

/// Writes so many zeros, or exactly the first `written` of them, fewer than all, and a fault.
pub fn write_zeros<W: Write>(writer: &mut W, count: u64) -> Result<(), WriteFault>
    ensures { Writes (W.contents writer.old) (W.contents writer.new) (replicate count 0) result }
{
    let zeros = [0; BLOCK];
    let mut written = 0;
    while written < count {
        let size = (count - written).min(BLOCK as u64);
        match write_whole(writer, &zeros[..size as usize]) {
            Ok(()) => {}
            Err(fault) => return Err(fault.after(written)),
        }
        written += size;
    }
    Ok(())
}
