//! The lines of `map`: those of a link map are passed on as they are made, and the line on what is refused is made whole. The numbers of a
//! line are put together from the last one on, and passed on in one piece, with the name where it is short. A longer name is passed on as
//! it is in its file.
ghost use Rattle.std.specs.Prelude.{◌≡◌, ◌≤◌, ◌+◌, ◌++◌, ◌∷◌, OnOk, length};
ghost use Rattle.elf_tool_check.specs.FileLines.{blank};
ghost use Rattle.elf_tool_text.specs.Buffered.{IsPassed};
ghost use Rattle.elf_tool_link.specs.Map.{binding_text, bits_text, bytes_line, common_line, discarded_line, file_refused_line};
ghost use Rattle.elf_tool_link.specs.Map.{link_refused_line, member_line, name_line, output_line, refusal_line, value_text};
ghost use Rattle.elf_link_outputs.specs.Placed.{common_value, output_value};

use elf_image_stream::WriteFault;
use elf_link_map::{Binding, Common, Member, Named, Output};
use elf_tool_check::Refusal;
use elf_tool_text::Output as Text;
use elf_tool_text::line::{begin_line, end_line, push_decimal, push_word};
use elf_tool_text::line_end::{LINE_ROOM, LineEnd, WIDE_HEXADECIMAL_ROOM};
use elf_tool_text::passed::{pass_line_of_bytes, pass_with_name};
use std::alloc::AllocError;
use std::io::Write;

/// `output ADDRESS LENGTH bits|nobits FLAGS NAME`.
pub(crate) fn pass_output_line<W: Write>(
    output: &Output<'_>,
    text: &mut Text,
    writer: &mut W,
) -> Result<(), WriteFault>
    ensures { IsPassed (W.contents writer.old) (W.contents writer.new) text.old text.new (output_line (output_value output.now)) result }
{
    let mut line = LineEnd::new();
    let is_whole = line.put_name(output.name);
    line.put(b" ");
    line.put_hexadecimal(output.flags);
    put_bits(&mut line, output.no_bits);
    line.put_hexadecimal(output.length);
    line.put_hexadecimal(output.address);
    line.put(b"output");
    pass_with_name(&line, is_whole, output.name, text, writer)
}

/// The most bytes that say whether an output has bits.
const BITS_ROOM: usize = 7;

fn put_bits(line: &mut LineEnd, no_bits: bool)
    requires room { length line.old + BITS_ROOM ≤ LINE_ROOM }
    ensures bytes { line.new ≡ blank ∷ bits_text no_bits ++ line.old }
    ensures room { length line.new ≤ length line.old + BITS_ROOM }
{
    if no_bits {
        line.put(b" nobits");
    } else {
        line.put(b" bits");
    }
}

/// `member ADDRESS SIZE FILE SECTION`.
pub(crate) fn pass_member_line<W: Write>(
    address: u64,
    size: u64,
    member: Member,
    text: &mut Text,
    writer: &mut W,
) -> Result<(), WriteFault>
    ensures { IsPassed (W.contents writer.old) (W.contents writer.new) text.old text.new (member_line address size member) result }
{
    let mut line = LineEnd::new();
    line.put(b"\n");
    line.put_decimal(member.section as u64);
    line.put_decimal(member.file as u64);
    line.put_hexadecimal(size);
    line.put_hexadecimal(address);
    line.put(b"member");
    text.pass(writer, line.as_bytes())
}

/// `common ADDRESS SIZE NAME`.
pub(crate) fn pass_common_line<W: Write>(
    common: &Common<'_>,
    text: &mut Text,
    writer: &mut W,
) -> Result<(), WriteFault>
    ensures { IsPassed (W.contents writer.old) (W.contents writer.new) text.old text.new (common_line (common_value common.now)) result }
{
    let mut line = LineEnd::new();
    let is_whole = line.put_name(common.name);
    line.put(b" ");
    line.put_hexadecimal(common.size);
    line.put_hexadecimal(common.address);
    line.put(b"common");
    pass_with_name(&line, is_whole, common.name, text, writer)
}

/// `discarded FILE SECTION`.
pub(crate) fn pass_discarded_line<W: Write>(
    file: usize,
    section: usize,
    text: &mut Text,
    writer: &mut W,
) -> Result<(), WriteFault>
    ensures { IsPassed (W.contents writer.old) (W.contents writer.new) text.old text.new (discarded_line file section) result }
{
    let mut line = LineEnd::new();
    line.put(b"\n");
    line.put_decimal(section as u64);
    line.put_decimal(file as u64);
    line.put(b"discarded");
    text.pass(writer, line.as_bytes())
}

/// `name VALUE strong|common|weak|zero NAME`, of a name of this value.
pub(crate) fn pass_name_line<W: Write>(
    value: Option<u128>,
    named: Named<'_>,
    text: &mut Text,
    writer: &mut W,
) -> Result<(), WriteFault>
    ensures { IsPassed (W.contents writer.old) (W.contents writer.new) text.old text.new
        (name_line value named.entry.binding named.entry.name.now) result }
{
    let mut line = LineEnd::new();
    let is_whole = line.put_name(named.name);
    line.put(b" ");
    put_binding(&mut line, named.binding);
    put_value(&mut line, value);
    line.put(b"name");
    pass_with_name(&line, is_whole, named.name, text, writer)
}

/// The most bytes that say what a name is bound to.
const BINDING_ROOM: usize = 7;

fn put_binding(line: &mut LineEnd, binding: Binding)
    requires room { length line.old + BINDING_ROOM ≤ LINE_ROOM }
    ensures bytes { line.new ≡ blank ∷ binding_text binding ++ line.old }
    ensures room { length line.new ≤ length line.old + BINDING_ROOM }
{
    match binding {
        Binding::Strong { .. } => line.put(b" strong"),
        Binding::Common { .. } => line.put(b" common"),
        Binding::Weak { .. } => line.put(b" weak"),
        Binding::Zero => line.put(b" zero"),
    }
}

// A value, or that there is none. It may be above 64 bits: that of a symbol far after the last address of its section.
fn put_value(line: &mut LineEnd, value: Option<u128>)
    requires room { length line.old + WIDE_HEXADECIMAL_ROOM ≤ LINE_ROOM }
    ensures bytes { line.new ≡ blank ∷ value_text value ++ line.old }
    ensures room { length line.new ≤ length line.old + WIDE_HEXADECIMAL_ROOM }
{
    match value {
        Some(number) => line.put_wide_hexadecimal(number),
        None => line.put(b" -"),
    }
}

/// `bytes FILE SECTION HEX`.
pub(crate) fn pass_bytes_line<W: Write>(
    member: Member,
    bytes: &[u8],
    text: &mut Text,
    writer: &mut W,
) -> Result<(), WriteFault>
    ensures { IsPassed (W.contents writer.old) (W.contents writer.new) text.old text.new (bytes_line member bytes.now) result }
{
    let mut line = LineEnd::new();
    line.put(b" ");
    line.put_decimal(member.section as u64);
    line.put_decimal(member.file as u64);
    line.put(b"bytes");
    pass_line_of_bytes(line.as_bytes(), bytes, text, writer)
}

/// What is refused: `file F refused R A`, the first rule that the file breaks, at this offset; or `refused RULE FILE INDEX ENTRY`, the
/// first rule of the link that is broken, and where. Of a file that would be too long nothing, since `map` writes none.
pub(crate) fn push_refusal_line(text: &mut Vec<u8>, refusal: Refusal) -> Result<(), AllocError>
    ensures { OnOk result (text.new.items ≡ text.old.items ++ refusal_line refusal) }
{
    match refusal {
        Refusal::File { file, rule, at } => push_file_refused_line(text, file, rule, at),
        Refusal::Link {
            rule,
            file,
            index,
            entry,
        } => push_link_refused_line(text, rule, file, index, entry),
        Refusal::TooLong => Ok(()),
    }
}

fn push_file_refused_line(
    text: &mut Vec<u8>,
    file: usize,
    rule: u16,
    at: u64,
) -> Result<(), AllocError>
    ensures { OnOk result (text.new.items ≡ text.old.items ++ file_refused_line file rule at) }
{
    begin_line(text, b"file")?;
    push_decimal(text, file as u64)?;
    push_word(text, b"refused")?;
    push_decimal(text, rule as u64)?;
    push_decimal(text, at)?;
    end_line(text)
}

fn push_link_refused_line(
    text: &mut Vec<u8>,
    rule: u16,
    file: usize,
    index: usize,
    entry: usize,
) -> Result<(), AllocError>
    ensures { OnOk result (text.new.items ≡ text.old.items ++ link_refused_line rule file index entry) }
{
    begin_line(text, b"refused")?;
    push_decimal(text, rule as u64)?;
    push_decimal(text, file as u64)?;
    push_decimal(text, index as u64)?;
    push_decimal(text, entry as u64)?;
    end_line(text)
}
