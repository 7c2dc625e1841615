//! Lines that are made in memory, and go out in pieces.
ghost use Rattle.std.specs.Prelude.{◌≡◌, ◌++◌, ◌<◌, OnOk};
ghost use Rattle.std.specs.List.{flat_map, range_with_len};
ghost use Rattle.elf_tool_text.specs.Buffered.{IsBuffered};

use crate::output::Output;
use elf_tool_check::ToolFault;
use std::alloc::{AllocError, Global};
use std::io::Write;

// Lines of one kind, one after the other: of the sections of a file, of its segments, of the entries of a table.

/// Lines by their indexes.
pub trait Lines {
    ghost use Rattle.std.specs.Prelude.{ℕ, List};

    // how many there are
    ghost count: { Self → ℕ };

    // the text of line j
    ghost line: { Self → ℕ → List ℕ };

    /// How many there are.
    fn count(&self) -> usize
        ensures { result ≡ count self.now };

    /// Appends line `j`, which has to be one of them, to the text that will be written. Fails only when out of memory.
    fn push(&self, alloc: Global, text: &mut Vec<u8>, j: usize) -> Result<(), AllocError>
        requires { j < count self.now }
        ensures { OnOk result (text.new.items ≡ text.old.items ++ line self.now j) };
}

/// Sends them all, in pieces. Fails if the writer does, with how many bytes of the whole text are written, or when out of memory.
pub fn show_lines<L: Lines, W: Write>(
    alloc: Global,
    lines: &L,
    output: &mut Output,
    writer: &mut W,
) -> Result<(), ToolFault>
    ensures { IsBuffered (W.contents writer.old) (W.contents writer.new) output.old output.new
        (flat_map (L.line lines.now) (range_with_len 0 (L.count lines.now))) result }
{
    for j in 0..lines.count() {
        lines.push(alloc, &mut output.pending, j)?;
        output.flush_piece(writer)?;
    }
    Ok(())
}
