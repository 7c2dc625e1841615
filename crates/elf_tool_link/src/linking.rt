//! `link`: the executable of files.
ghost use Rattle.std.specs.Prelude.{◌≡◌, ℕ, List, map as map_list};
ghost use Rattle.elf_tool_check.specs.Engine.{Prints, SaysOne};
ghost use Rattle.elf_link_relocate.specs.Linked.{IsSoundLinked};
ghost use Rattle.elf_tool_link.specs.Link.{ExecSays, FilesLink, IsLinkCall, MapLinks, unlinked_verdict};

use crate::inputs::read_inputs;
use crate::mapped::{Unlinked, mapped_files, slices_of};
use elf_exec::{ExecFault, write_exec};
use elf_link_field::RelocRule;
use elf_link_map::Options;
use elf_link_relocate::{Linked, Mapped};
use elf_tool_check::{Refusal, ToolFault, Verdict};
use std::alloc::Global;
use std::io::{Read, Write};

/// Reads files whole, in order, links the objects that they denote, and writes the executable of the link: an image whose segments of type
/// `PT_LOAD` give an address a byte exactly if the memory of the link has that byte there (gABI chapter 5, Program Header).
///
/// If something is refused, nothing is written, and the verdict says what. It is the first file that is no object, with the first rule that
/// it breaks, as an image or, with a number from 40 on, as an object, and its lowest offset. Or it is the first of the link's rules that is
/// broken, with its file, index and entry. Or the executable would have 0xffff segments or more, or be longer than 2^30 bytes.
///
/// Nothing was written after [`ToolFault::Read`], which carries how many bytes the reader that failed had given, and after
/// [`ToolFault::OutOfMemory`]. After [`ToolFault::Write`] exactly the first `written` bytes of the executable are written. Memory holds all
/// files, their objects, the link map, and a copy of each live section with bits. The time is at most that of `object_of` for each file,
/// and of `map`, `relocate` and `write_exec` of the library.
pub fn link<R: Read, W: Write>(
    alloc: Global,
    readers: &mut [R],
    options: &Options<'_>,
    rules: &[RelocRule],
    writer: &mut W,
) -> Result<Verdict, ToolFault>
    ensures said { IsLinkCall options.now rules.now (map_list R.remaining readers.old) (map_list R.remaining readers.new)
        (W.contents writer.old) (W.contents writer.new) result }
    ensures only { (files : List (List ℕ)) → SaysOne (FilesLink options.now rules.now files) }
{
    let files = read_inputs(alloc, readers)?;
    let contents = slices_of(alloc, &files)?;
    link_files(alloc, &contents, options, rules, writer)
}

/// Writes the same of files of these bytes, in order.
///
/// Nothing was written after [`ToolFault::OutOfMemory`]. After [`ToolFault::Write`] exactly the first `written` bytes of the executable are
/// written. There is no other fault.
pub fn link_files<W: Write>(
    alloc: Global,
    files: &[&[u8]],
    options: &Options<'_>,
    rules: &[RelocRule],
    writer: &mut W,
) -> Result<Verdict, ToolFault>
    ensures { Prints (FilesLink options.now rules.now (map_list (λ f. f.now) files.now)) (W.contents writer.old)
        (W.contents writer.new) result }
{
    match mapped_files(alloc, files, options) {
        Ok(mapped) => link_mapped(alloc, &mapped, rules, writer),
        Err(unlinked) => verdict_of(unlinked),
    }
}

fn link_mapped<W: Write>(
    alloc: Global,
    mapped: &Mapped<'_>,
    rules: &[RelocRule],
    writer: &mut W,
) -> Result<Verdict, ToolFault>
    ensures { Prints (MapLinks rules.now mapped.now.objects mapped.now.map) (W.contents writer.old) (W.contents writer.new) result }
{
    match mapped.relocated(alloc, rules) {
        Ok(linked) => link_relocated(alloc, &linked, writer),
        Err(fault) => verdict_of(fault.into()),
    }
}

fn link_relocated<W: Write>(
    alloc: Global,
    linked: &Linked<'_, '_>,
    writer: &mut W,
) -> Result<Verdict, ToolFault>
    requires { IsSoundLinked linked.now }
    ensures { Prints (ExecSays linked.now.objects linked.now.map linked.now.rules) (W.contents writer.old) (W.contents writer.new) result }
{
    match write_exec(alloc, linked, writer) {
        Ok(()) => Ok(Verdict::Done),
        Err(ExecFault::TooLong) => Ok(Verdict::Refused(Refusal::TooLong)),
        Err(ExecFault::OutOfMemory) => Err(ToolFault::OutOfMemory),
        Err(ExecFault::Io { written }) => Err(ToolFault::Write { written }),
    }
}

/// The verdict of what is refused.
pub(crate) fn verdict_of(unlinked: Unlinked) -> Result<Verdict, ToolFault>
    ensures { result ≡ unlinked_verdict unlinked }
{
    match unlinked {
        Unlinked::Refused(refusal) => Ok(Verdict::Refused(refusal)),
        Unlinked::OutOfMemory => Err(ToolFault::OutOfMemory),
    }
}
