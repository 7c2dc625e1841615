//! How long what `map` and `link` write is, beside its verdict: nothing of it is written or kept.
ghost use Rattle.std.specs.Prelude.{◌≡◌, MatchResult, map as map_list, option_copied};
ghost use Rattle.elf_link_relocate.specs.Linked.{IsSoundLinked};
ghost use Rattle.elf_tool_check.specs.Engine.{HasLength, IsMeasured};
ghost use Rattle.elf_tool_check.specs.declared.calls.ToolFault.TheVariants.{OutOfMemory};
ghost use Rattle.elf_tool_link.specs.Link.{ExecSays, FilesLink, MapLinks, unlinked_length};
ghost use Rattle.elf_tool_link.specs.Map.{MapSays};

use crate::mapped::{Unlinked, mapped_files};
use crate::mapping::map_counted;
use elf_exec::exec_length;
use elf_link_field::RelocRule;
use elf_link_map::Options;
use elf_link_relocate::{Linked, Mapped};
use elf_tool_check::{Refusal, ToolFault, Verdict};
use std::alloc::Global;
use std::io::sink;

/// The verdict of [`map_files`](crate::map_files) on files of these bytes, and how long the text is that it writes, in bytes:
/// [`u64::MAX`] if it is longer.
///
/// The only fault is [`ToolFault::OutOfMemory`]. The lines are made to count them, and only a piece of them is kept. Memory and time are
/// those of `map_files`.
pub fn map_length(
    alloc: Global,
    files: &[&[u8]],
    options: &Options<'_>,
    rules: Option<&[RelocRule]>,
) -> Result<(Verdict, u64), ToolFault>
    ensures { MatchResult result (IsMeasured (MapSays options.now (option_copied rules.entry) (map_list (λ f. f.now) files.now)))
        (λ fault. fault ≡ OutOfMemory) }
{
    match map_counted(alloc, files, options, rules, &mut sink()) {
        Ok(said) => Ok(said),
        // A sink takes all that it is given.
        Err(_) => Err(ToolFault::OutOfMemory),
    }
}

/// The verdict of [`link_files`](crate::link_files) on files of these bytes, and how long the executable is that it writes, in bytes; 0 if
/// something is refused.
///
/// The only fault is [`ToolFault::OutOfMemory`]. Memory is that of `link_files`. Time is too, but for the bytes that this writes.
pub fn link_length(
    alloc: Global,
    files: &[&[u8]],
    options: &Options<'_>,
    rules: &[RelocRule],
) -> Result<(Verdict, u64), ToolFault>
    ensures { MatchResult result (HasLength (FilesLink options.now rules.now (map_list (λ f. f.now) files.now)))
        (λ fault. fault ≡ OutOfMemory) }
{
    match mapped_files(alloc, files, options) {
        Ok(mapped) => mapped_length(alloc, &mapped, rules),
        Err(unlinked) => refused_length(unlinked),
    }
}

fn mapped_length(
    alloc: Global,
    mapped: &Mapped<'_>,
    rules: &[RelocRule],
) -> Result<(Verdict, u64), ToolFault>
    ensures { MatchResult result (HasLength (MapLinks rules.now mapped.now.objects mapped.now.map)) (λ fault. fault ≡ OutOfMemory) }
{
    match mapped.relocated(alloc, rules) {
        Ok(linked) => linked_length(alloc, &linked),
        Err(fault) => refused_length(fault.into()),
    }
}

fn linked_length(alloc: Global, linked: &Linked<'_, '_>) -> Result<(Verdict, u64), ToolFault>
    requires { IsSoundLinked linked.now }
    ensures { MatchResult result (HasLength (ExecSays linked.now.objects linked.now.map linked.now.rules)) (λ fault. fault ≡ OutOfMemory) }
{
    match exec_length(alloc, linked) {
        Ok(Some(length)) => Ok((Verdict::Done, length)),
        Ok(None) => Ok((Verdict::Refused(Refusal::TooLong), 0)),
        Err(_) => Err(ToolFault::OutOfMemory),
    }
}

// Of what is refused nothing is written.
fn refused_length(unlinked: Unlinked) -> Result<(Verdict, u64), ToolFault>
    ensures { result ≡ unlinked_length unlinked }
{
    match unlinked {
        Unlinked::Refused(refusal) => Ok((Verdict::Refused(refusal), 0)),
        Unlinked::OutOfMemory => Err(ToolFault::OutOfMemory),
    }
}
