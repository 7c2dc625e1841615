//! Lines that are passed on as they are made, without memory: names and bytes go out as they are, or become digits a block at a time.
//! Each call fails only if the writer does, with the count of all bytes that are written, as [`Output::pass`] does.
ghost use Rattle.std.specs.Prelude.{◌≡◌, ◌++◌, ◌<◌, ◌≤◌, codes, length};
ghost use Rattle.std.specs.List.{flat_map, range_with_len};
ghost use Rattle.hex.specs.Hex.{encode_lower};
ghost use Rattle.elf_tool_text.specs.Buffered.{IsPassed};
ghost use Rattle.elf_tool_text.specs.Line.{bytes_text, name_text, ended_by_name};

use crate::line::is_plain;
use crate::line_end::LineEnd;
use crate::output::Output;
use elf_image_stream::WriteFault;
use std::io::Write;

/// Lines by their indexes.
pub trait PassedLines {
    ghost use Rattle.std.specs.Prelude.{ℕ, List};
    ghost use Rattle.elf_tool_text.specs.Buffered.{IsPassed};

    // how many there are
    ghost count: { Self → ℕ };

    // the text of line j
    ghost line: { Self → ℕ → List ℕ };

    /// How many there are.
    fn count(&self) -> usize
        ensures { result ≡ count self.now };

    /// Passes on line `j`, which has to be one of them.
    fn pass<W: Write>(
        &self,
        output: &mut Output,
        writer: &mut W,
        j: usize,
    ) -> Result<(), WriteFault>
        requires { j < count self.now }
        ensures { IsPassed (W.contents writer.old) (W.contents writer.new) output.old output.new (line self.now j) result };
}

/// Passes them all on, one after the other.
pub fn pass_lines<L: PassedLines, W: Write>(
    lines: &L,
    output: &mut Output,
    writer: &mut W,
) -> Result<(), WriteFault>
    ensures { IsPassed (W.contents writer.old) (W.contents writer.new) output.old output.new
        (flat_map (L.line lines.now) (range_with_len 0 (L.count lines.now))) result }
{
    for j in 0..lines.count() {
        lines.pass(output, writer, j)?;
    }
    Ok(())
}

/// Passes on a line with a name as its last word, after the blank that `front` ends with.
pub fn pass_line_of_name<W: Write>(
    front: &[u8],
    name: &[u8],
    output: &mut Output,
    writer: &mut W,
) -> Result<(), WriteFault>
    ensures { IsPassed (W.contents writer.old) (W.contents writer.new) output.old output.new
        (front.now ++ (name_text name.now ++ codes "\n")) result }
{
    output.pass(writer, front)?;
    pass_name(name, output, writer)?;
    output.pass(writer, b"\n")
}

/// Passes on a line that ends with a name: what is put together of it, and then the name, if it is no part of that.
pub fn pass_with_name<W: Write>(
    line: &LineEnd,
    is_whole: bool,
    name: &[u8],
    output: &mut Output,
    writer: &mut W,
) -> Result<(), WriteFault>
    ensures { IsPassed (W.contents writer.old) (W.contents writer.new) output.old output.new
        (ended_by_name line.now is_whole name.now) result }
{
    if is_whole {
        return output.pass(writer, line.as_bytes());
    }
    pass_line_of_name(line.as_bytes(), name, output, writer)
}

/// Passes on a line with the digits of bytes as its last word, or `-` if there are none, after the blank that `front` ends with.
pub fn pass_line_of_bytes<W: Write>(
    front: &[u8],
    bytes: &[u8],
    output: &mut Output,
    writer: &mut W,
) -> Result<(), WriteFault>
    ensures { IsPassed (W.contents writer.old) (W.contents writer.new) output.old output.new
        (front.now ++ (bytes_text bytes.now ++ codes "\n")) result }
{
    output.pass(writer, front)?;
    pass_bytes(bytes, output, writer)?;
    output.pass(writer, b"\n")
}

// A name: as it is where it is plain, `-` where it is empty, and else in hexadecimal after `#`.
#[tactic(auto, unfolding(crate::specs::Line::name_text))]
fn pass_name<W: Write>(name: &[u8], output: &mut Output, writer: &mut W) -> Result<(), WriteFault>
    ensures { IsPassed (W.contents writer.old) (W.contents writer.new) output.old output.new (name_text name.now) result }
{
    if name.is_empty() {
        return output.pass(writer, b"-");
    }
    if is_plain(name) {
        return output.pass(writer, name);
    }
    output.pass(writer, b"#")?;
    pass_hexadecimal(name, output, writer)
}

// The digits of bytes, or that there are none.
fn pass_bytes<W: Write>(bytes: &[u8], output: &mut Output, writer: &mut W) -> Result<(), WriteFault>
    ensures { IsPassed (W.contents writer.old) (W.contents writer.new) output.old output.new (bytes_text bytes.now) result }
{
    if bytes.is_empty() {
        return output.pass(writer, b"-");
    }
    pass_hexadecimal(bytes, output, writer)
}

/// How many bytes become digits at a time.
const BLOCK: usize = 512;

// Each byte as two hexadecimal digits in lower case.
fn pass_hexadecimal<W: Write>(
    bytes: &[u8],
    output: &mut Output,
    writer: &mut W,
) -> Result<(), WriteFault>
    ensures { IsPassed (W.contents writer.old) (W.contents writer.new) output.old output.new (encode_lower bytes.now) result }
{
    let mut next = 0;
    while next < bytes.len() {
        let several = (bytes.len() - next).min(BLOCK);
        pass_block(&bytes[next..next + several], output, writer)?;
        next += several;
    }
    Ok(())
}

fn pass_block<W: Write>(bytes: &[u8], output: &mut Output, writer: &mut W) -> Result<(), WriteFault>
    requires { length bytes.now ≤ BLOCK }
    ensures { IsPassed (W.contents writer.old) (W.contents writer.new) output.old output.new (encode_lower bytes.now) result }
{
    let mut block = [0; 2 * BLOCK];
    let digits = &mut block[..2 * bytes.len()];
    match hex::encode_to_slice(bytes, digits) {
        Ok(()) => output.pass(writer, digits),
        // Its only error is a buffer of another length, and there is a place for each digit.
        Err(_) => unreachable!(),
    }
}
