//! Chunks one after the other.
//!
//! They are sent here, below all layers that send: objects and executables are both sent in pieces.
ghost use Rattle.std.specs.Prelude.{◌≡◌, ◌<◌, replicate};
ghost use Rattle.std.specs.List.{flat_map, range_with_len};
ghost use Rattle.elf_image_stream.specs.Output.{Sends};

use crate::fault::WriteFault;
use crate::output::{write_whole, write_zeros};
use std::io::Write;

/// Sends these bytes after `out` others, and returns how many are written then: [`u64::MAX`] if there are more.
///
/// [`WriteFault`] if a call of the writer fails, an interruption too, or takes 0 bytes of a rest that is not empty. It has the count
/// of all bytes that are written, in the same way.
pub fn send<W: Write>(writer: &mut W, out: u64, bytes: &[u8]) -> Result<u64, WriteFault>
    ensures { Sends (W.contents writer.old) (W.contents writer.new) out bytes.now result }
{
    match write_whole(writer, bytes) {
        Ok(()) => Ok(out.saturating_add(bytes.len() as u64)),
        Err(fault) => Err(WriteFault {
            written: out.saturating_add(fault.written),
        }),
    }
}

/// Texts by their indexes.
pub trait Chunks {
    ghost use Rattle.std.specs.Prelude.{ℕ, List};
    ghost use Rattle.elf_image_stream.specs.Output.{Sends};

    // how many there are
    ghost count: { Self → ℕ };

    // text j
    ghost chunk: { Self → ℕ → List ℕ };

    /// How many there are.
    fn count(&self) -> usize
        ensures { result ≡ count self.now };

    /// Sends text `j`, which has to be one of them, after `out` bytes.
    fn send<W: Write>(&self, writer: &mut W, out: u64, j: usize) -> Result<u64, WriteFault>
        requires { j < count self.now }
        ensures { Sends (W.contents writer.old) (W.contents writer.new) out (chunk self.now j) result };
}

/// Sends them all, one after the other. The first fault is returned, with the count of all bytes that are written, and no chunk after it is
/// sent.
pub fn send_all<P: Chunks, W: Write>(
    writer: &mut W,
    out: u64,
    chunks: &P,
) -> Result<u64, WriteFault>
    ensures { Sends (W.contents writer.old) (W.contents writer.new) out
        (flat_map (P.chunk chunks.now) (range_with_len 0 (P.count chunks.now))) result }
{
    let mut all = out;
    for j in 0..chunks.count() {
        all = chunks.send(writer, all, j)?;
    }
    Ok(all)
}

// Zeros, as those between two parts of a file.

/// Sends so many zeros after `out` bytes, a block at a time, and returns how many bytes are written then. It counts and fails as
/// [`send`](crate::send) does.
pub fn send_zeros<W: Write>(writer: &mut W, out: u64, count: u64) -> Result<u64, WriteFault>
    ensures { Sends (W.contents writer.old) (W.contents writer.new) out (replicate count 0) result }
{
    match write_zeros(writer, count) {
        Ok(()) => Ok(out.saturating_add(count)),
        Err(fault) => Err(WriteFault {
            written: out.saturating_add(fault.written),
        }),
    }
}
