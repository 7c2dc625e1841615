//! The calls of the library for C that return the verdict of an engine, without its output.
ghost use Rattle.std.specs.Prelude.{◌≡◌, MatchResult, map, option_copied};
ghost use Rattle.elf_c_engines.specs.Calls.{AreVerdictOptions, IsLinkVerdictAlone, IsObjectVerdict, IsVerdictCall, IsWantOfMemory};
ghost use Rattle.elf_c_engines.specs.Calls.{LinkVerdictSays, MapCallFails, entry_named};
ghost use Rattle.elf_link_files.specs.declared.fault.Options.{Options as AnOptions};
ghost use Rattle.elf_tool_link.specs.Verdicts.{IsLinkVerdict};

use crate::calls::{CallFault, Outcome, give_up, rules_in, verdict_alone};
use crate::exports::LinkOptions;
use elf_link_field::RelocRule;
use elf_link_map::Options;
use elf_tool_check::Verdict;
use elf_tool_link::link_verdict;
use elf_tool_rewrite::rewrite_within;
use std::alloc::Global;

/// Whether a file of these bytes is an object, and how long its file in canonical layout is; otherwise the first rule that it breaks, or
/// that this file would be too long.
#[unsafe(no_mangle)]
pub extern "C" fn elfmap_object_verdict(alloc: Global, bytes: &[u8], outcome: &mut Outcome) -> u32
    ensures { IsVerdictCall (IsObjectVerdict bytes.now) IsWantOfMemory outcome.new result }
{
    match rewrite_within(alloc, bytes, 0, &mut Vec::new(alloc)) {
        Ok((verdict, length)) => verdict_alone(verdict, length, outcome),
        Err(_) => give_up(CallFault::OutOfMemory, outcome),
    }
}

/// Whether these files link; otherwise the first file that is refused, or the first rule of the link broken.
#[unsafe(no_mangle)]
pub extern "C" fn elfmap_link_verdict(
    alloc: Global,
    files: &[&[u8]],
    options: &LinkOptions,
    entry: &[u8],
    rules: &[u8],
    outcome: &mut Outcome,
) -> u32
    ensures { IsVerdictCall (IsLinkVerdictAlone (map (λ f. f.now) files.now) options.now entry.now rules.now)
        (MapCallFails options.now rules.now) outcome.new result }
{
    match verdict_on(alloc, files, options, entry, rules) {
        Ok(verdict) => verdict_alone(verdict, 0, outcome),
        Err(fault) => give_up(fault, outcome),
    }
}

fn verdict_on(
    alloc: Global,
    files: &[&[u8]],
    options: &LinkOptions,
    entry: &[u8],
    rules: &[u8],
) -> Result<Verdict, CallFault>
    ensures { MatchResult result (LinkVerdictSays (map (λ f. f.now) files.now) options.now entry.now rules.now)
        (MapCallFails options.now rules.now) }
{
    if options.uses_rules == 0 {
        return verdict_by(alloc, files, options, entry, None);
    }
    let table = rules_in(alloc, rules)?;
    verdict_by(alloc, files, options, entry, Some(table.as_slice()))
}

fn verdict_by(
    alloc: Global,
    files: &[&[u8]],
    options: &LinkOptions,
    entry: &[u8],
    rules: Option<&[RelocRule]>,
) -> Result<Verdict, CallFault>
    ensures { MatchResult result
        (λ verdict. (opt : AnOptions) × AreVerdictOptions options.now entry.now opt
        × IsLinkVerdict opt (option_copied rules.entry) (map (λ f. f.now) files.now) verdict)
        IsWantOfMemory }
{
    let options = Options {
        base: options.base,
        page: options.page,
        entry: named(entry),
    };
    match link_verdict(alloc, files, &options, rules) {
        Ok(verdict) => Ok(verdict),
        Err(_) => Err(CallFault::OutOfMemory),
    }
}

// A name; None if it has no bytes.
fn named(name: &[u8]) -> Option<&[u8]>
    ensures { option_copied result ≡ entry_named name.entry.now }
{
    if name.is_empty() { None } else { Some(name) }
}
