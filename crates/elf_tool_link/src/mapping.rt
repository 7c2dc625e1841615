//! `map`: where the sections and names of files are in their link.
ghost use Rattle.std.specs.Prelude.{◌≡◌, ◌≤◌, ◌++◌, ℕ, List, length, None, Some, option_copied, map as map_list};
ghost use Rattle.elf_tool_link.specs.Map.{bytes_lines, CountsLine, CountsMap, IsMapped, IsMappedExactly, IsThis, MapSays, PrintsMap};
ghost use Rattle.elf_tool_link.specs.Map.{RelocationSays, SaysUnlinked, map_text, refusal_line};
ghost use Rattle.elf_tool_check.specs.Engine.{Prints, SaysOne};

use crate::inputs::read_inputs;
use crate::map_lines::push_refusal_line;
use crate::map_text::{pass_map, pass_relocated};
use crate::mapped::{Unlinked, mapped_files, slices_of};
use elf_image_stream::write_whole;
use elf_link_field::RelocRule;
use elf_link_map::Options;
use elf_link_relocate::{Linked, Mapped};
use elf_tool_check::{Refusal, ToolFault, Verdict};
use elf_tool_text::Output as Text;
use std::alloc::Global;
use std::io::{Read, Write};

/// Reads files whole, in order, links the objects that they denote, and writes the lines of their link map; with relocation rules the lines
/// of the relocated bytes after them, `bytes FILE SECTION HEX`, in order of placement.
///
/// If a file is refused, the only line is `file F refused R A` for the first such file: the first rule that it breaks, as an image or, with
/// a number from 40 on, as an object, and its lowest offset. If the files do not link, the only line is `refused RULE FILE INDEX ENTRY`,
/// with the first of the link's rules that is broken.
///
/// The verdict is what the text says. Nothing was written after [`ToolFault::Read`], which carries how many bytes the reader that failed
/// had given, and after [`ToolFault::OutOfMemory`]. After [`ToolFault::Write`] exactly the first `written` bytes of the text are written,
/// if it is shorter than 2^64 bytes, as that of at most 64 files is; of a longer one a beginning. Memory holds all files, their objects,
/// the link map, a piece of the text, and with relocation rules a copy of each live section with bits. The lines are made as they are
/// written, with the names as they are in the files. The time is at most that of `object_of` for each file, of `map` and `relocate` of the
/// library, and of the text.
pub fn map<R: Read, W: Write>(
    alloc: Global,
    readers: &mut [R],
    options: &Options<'_>,
    rules: Option<&[RelocRule]>,
    writer: &mut W,
) -> Result<Verdict, ToolFault>
    ensures any { IsMapped options.now (option_copied rules.entry) (map_list R.remaining readers.old) (map_list R.remaining readers.new)
        (W.contents writer.old) (W.contents writer.new) result }
    ensures few { length readers.old ≤ 64 → IsMappedExactly options.now (option_copied rules.entry) (map_list R.remaining readers.old)
        (map_list R.remaining readers.new) (W.contents writer.old) (W.contents writer.new) result }
    ensures only { (files : List (List ℕ)) → SaysOne (MapSays options.now (option_copied rules.entry) files) }
{
    let files = read_inputs(alloc, readers)?;
    let contents = slices_of(alloc, &files)?;
    map_files(alloc, &contents, options, rules, writer)
}

/// Writes the same of files of these bytes, in order.
///
/// Nothing was written after [`ToolFault::OutOfMemory`]. After [`ToolFault::Write`] exactly the first `written` bytes of the text are, if
/// it is shorter than 2^64 bytes, as that of at most 64 files is; of a longer one a beginning. There is no other fault.
pub fn map_files<W: Write>(
    alloc: Global,
    files: &[&[u8]],
    options: &Options<'_>,
    rules: Option<&[RelocRule]>,
    writer: &mut W,
) -> Result<Verdict, ToolFault>
    ensures any { PrintsMap (MapSays options.now (option_copied rules.entry) (map_list (λ f. f.now) files.now)) (W.contents writer.old)
        (W.contents writer.new) result }
    ensures few { length files.now ≤ 64 → Prints (MapSays options.now (option_copied rules.entry) (map_list (λ f. f.now) files.now))
        (W.contents writer.old) (W.contents writer.new) result }
{
    match map_counted(alloc, files, options, rules, writer) {
        Ok((verdict, _)) => Ok(verdict),
        Err(fault) => Err(fault),
    }
}

/// Writes it, and returns how long it is, up to `u64::MAX`.
pub(crate) fn map_counted<W: Write>(
    alloc: Global,
    files: &[&[u8]],
    options: &Options<'_>,
    rules: Option<&[RelocRule]>,
    writer: &mut W,
) -> Result<(Verdict, u64), ToolFault>
    ensures { CountsMap (MapSays options.now (option_copied rules.entry) (map_list (λ f. f.now) files.now)) (W.contents writer.old)
        (W.contents writer.new) result }
{
    match mapped_files(alloc, files, options) {
        Ok(mapped) => answer_map(alloc, &mapped, rules, writer),
        Err(unlinked) => write_unlinked(alloc, unlinked, writer),
    }
}

fn answer_map<W: Write>(
    alloc: Global,
    mapped: &Mapped<'_>,
    rules: Option<&[RelocRule]>,
    writer: &mut W,
) -> Result<(Verdict, u64), ToolFault>
    ensures { CountsMap (RelocationSays (option_copied rules.entry) mapped.now.objects mapped.now.map) (W.contents writer.old)
        (W.contents writer.new) result }
{
    match rules {
        Some(rules) => answer_relocations(alloc, mapped, rules, writer),
        None => write_map(alloc, mapped, writer),
    }
}

fn answer_relocations<W: Write>(
    alloc: Global,
    mapped: &Mapped<'_>,
    rules: &[RelocRule],
    writer: &mut W,
) -> Result<(Verdict, u64), ToolFault>
    ensures { CountsMap (RelocationSays (Some rules.now) mapped.now.objects mapped.now.map) (W.contents writer.old)
        (W.contents writer.new) result }
{
    match mapped.relocated(alloc, rules) {
        Ok(linked) => write_relocated(alloc, mapped, &linked, writer),
        Err(fault) => write_unlinked(alloc, fault.into(), writer),
    }
}

// Writes the lines of a link map, after its last memory is taken.
fn write_map<W: Write>(
    alloc: Global,
    mapped: &Mapped<'_>,
    writer: &mut W,
) -> Result<(Verdict, u64), ToolFault>
    ensures { CountsMap (RelocationSays None mapped.now.objects mapped.now.map) (W.contents writer.old) (W.contents writer.new) result }
{
    let mut text = Text::with_room(alloc)?;
    pass_map(mapped.objects(), mapped.map(), &mut text, writer)?;
    text.write_pending(writer)?;
    Ok((Verdict::Done, text.count_written()))
}

// Writes them, and those of the relocated bytes after them.
fn write_relocated<W: Write>(
    alloc: Global,
    mapped: &Mapped<'_>,
    linked: &Linked<'_, '_>,
    writer: &mut W,
) -> Result<(Verdict, u64), ToolFault>
    ensures { CountsMap (IsThis Verdict.Done (map_text mapped.now.objects mapped.now.map ++ bytes_lines linked.now)) (W.contents writer.old)
        (W.contents writer.new) result }
{
    let mut text = Text::with_room(alloc)?;
    pass_map(mapped.objects(), mapped.map(), &mut text, writer)?;
    pass_relocated(linked, &mut text, writer)?;
    text.write_pending(writer)?;
    Ok((Verdict::Done, text.count_written()))
}

// Says why files are not linked.
fn write_unlinked<W: Write>(
    alloc: Global,
    unlinked: Unlinked,
    writer: &mut W,
) -> Result<(Verdict, u64), ToolFault>
    ensures { CountsLine (SaysUnlinked unlinked) (W.contents writer.old) (W.contents writer.new) result }
{
    match unlinked {
        Unlinked::Refused(refusal) => write_refusal(alloc, refusal, writer),
        Unlinked::OutOfMemory => Err(ToolFault::OutOfMemory),
    }
}

// Says what is refused.
fn write_refusal<W: Write>(
    alloc: Global,
    refusal: Refusal,
    writer: &mut W,
) -> Result<(Verdict, u64), ToolFault>
    ensures { CountsLine (IsThis (Verdict.Refused refusal) (refusal_line refusal)) (W.contents writer.old) (W.contents writer.new) result }
{
    let mut text = Vec::new(alloc);
    push_refusal_line(&mut text, refusal)?;
    write_text(Verdict::Refused(refusal), &text, writer)
}

// Writes what is said, and returns its verdict and its length.
fn write_text<W: Write>(
    verdict: Verdict,
    text: &[u8],
    writer: &mut W,
) -> Result<(Verdict, u64), ToolFault>
    ensures { CountsLine (IsThis verdict text.now) (W.contents writer.old) (W.contents writer.new) result }
{
    write_whole(writer, text)?;
    Ok((verdict, text.len() as u64))
}
