//! The calls of the library for C that run a command on files in memory.
ghost use Rattle.std.specs.Prelude.{MatchResult, map, option_copied};
ghost use Rattle.elf_tool_rewrite.specs.Rewrite.{RewriteSays};
ghost use Rattle.elf_tool_show.specs.Show.{ShowSays};
ghost use Rattle.elf_c_engines.specs.Calls.{IsEngineCall, IsSaid, IsWantOfMemory, AreLinkOptions, LacksRules, LinkCallSays, MapCallFails};
ghost use Rattle.elf_c_engines.specs.Calls.{MapCallSays, map_options};
ghost use Rattle.elf_tool_link.specs.Link.{FilesLink};
ghost use Rattle.elf_tool_link.specs.Map.{MapSays};
ghost use Rattle.elf_link_files.specs.declared.fault.Options.{Options as AnOptions};

use crate::calls::{CallFault, Outcome, give_up, put_text, rules_in, small_room};
use crate::said::{Bounded, Said, answer};
use elf_link_field::RelocRule;
use elf_link_map::Options;
use elf_tool_check::ToolFault;
use elf_tool_link::{link_files, link_length, map_files, map_length};
use elf_tool_rewrite::rewrite_within;
use elf_tool_show::{show_bytes, show_length};
use std::alloc::Global;

// What a file holds, and its object in canonical layout.

/// What `elfmap show` writes of a file of these bytes.
#[unsafe(no_mangle)]
pub extern "C" fn elfmap_show(
    alloc: Global,
    bytes: &[u8],
    room: &mut [u8],
    outcome: &mut Outcome,
) -> u32
    ensures { IsEngineCall (ShowSays bytes.now) IsWantOfMemory room.old room.new outcome.new result }
{
    let said = show_within(alloc, bytes, room.len());
    answer(said, room, outcome)
}

// Its text is kept if it has at most `most` bytes.
fn show_within(alloc: Global, bytes: &[u8], most: usize) -> Result<Said, CallFault>
    ensures { MatchResult result (IsSaid (ShowSays bytes.now) most) IsWantOfMemory }
{
    if most > 0 {
        let mut text = Bounded::new(alloc, most);
        match show_bytes(alloc, bytes, &mut text) {
            Ok(verdict) => return Ok(Said::whole(verdict, text)),
            Err(ToolFault::OutOfMemory) => return Err(CallFault::OutOfMemory),
            // The text passes `most` bytes, or there was no memory for it.
            Err(_) => {}
        }
    }
    match show_length(alloc, bytes) {
        Ok((verdict, length)) => Said::unkept(alloc, verdict, length, most),
        Err(_) => Err(CallFault::OutOfMemory),
    }
}

/// What `elfmap rewrite` writes of a file of these bytes.
#[unsafe(no_mangle)]
pub extern "C" fn elfmap_rewrite(
    alloc: Global,
    bytes: &[u8],
    room: &mut [u8],
    outcome: &mut Outcome,
) -> u32
    ensures { IsEngineCall (RewriteSays bytes.now) IsWantOfMemory room.old room.new outcome.new result }
{
    let most = room.len() as u64;
    let mut file = Vec::new(alloc);
    match rewrite_within(alloc, bytes, most, &mut file) {
        Ok((_, length)) if length > most => small_room(length, outcome),
        Ok((verdict, _)) => put_text(verdict, file.as_slice(), room, outcome),
        Err(_) => give_up(CallFault::OutOfMemory, outcome),
    }
}

// Where the sections and names of files are in their link, and the executable of it.

/// `struct elfmap_options`: where the link places sections, and whether `map` has relocation rules.
#[repr(C)]
#[derive(Clone, Copy)]
pub struct LinkOptions {
    /// The address that placement begins at: a multiple of `page`.
    pub base: u64,
    /// What each output section begins at a multiple of: a power of two.
    pub page: u64,
    /// 0 if `map` has no relocation rules, and writes no relocated bytes.
    pub uses_rules: u32,
}

/// What `elfmap map` writes of these files.
#[unsafe(no_mangle)]
pub extern "C" fn elfmap_map(
    alloc: Global,
    files: &[&[u8]],
    options: &LinkOptions,
    rules: &[u8],
    room: &mut [u8],
    outcome: &mut Outcome,
) -> u32
    ensures { IsEngineCall (MapCallSays (map (λ f. f.now) files.now) options.now rules.now) (MapCallFails options.now rules.now)
        room.old room.new outcome.new result }
{
    let said = map_within(alloc, files, options, rules, room.len());
    answer(said, room, outcome)
}

/// What `elfmap link` writes of these files.
#[unsafe(no_mangle)]
pub extern "C" fn elfmap_link(
    alloc: Global,
    files: &[&[u8]],
    options: &LinkOptions,
    entry: &[u8],
    rules: &[u8],
    room: &mut [u8],
    outcome: &mut Outcome,
) -> u32
    ensures { IsEngineCall (LinkCallSays (map (λ f. f.now) files.now) options.now entry.now rules.now) (LacksRules rules.now)
        room.old room.new outcome.new result }
{
    let said = link_within(alloc, files, options, entry, rules, room.len());
    answer(said, room, outcome)
}

// The text is kept if it has at most `most` bytes.
fn map_within(
    alloc: Global,
    files: &[&[u8]],
    options: &LinkOptions,
    rules: &[u8],
    most: usize,
) -> Result<Said, CallFault>
    ensures { MatchResult result (IsSaid (MapCallSays (map (λ f. f.now) files.now) options.now rules.now) most)
        (MapCallFails options.now rules.now) }
{
    if options.uses_rules == 0 {
        return map_by(alloc, files, options, None, most);
    }
    let table = rules_in(alloc, rules)?;
    map_by(alloc, files, options, Some(table.as_slice()), most)
}

fn map_by(
    alloc: Global,
    files: &[&[u8]],
    options: &LinkOptions,
    rules: Option<&[RelocRule]>,
    most: usize,
) -> Result<Said, CallFault>
    ensures { MatchResult result
        (IsSaid (MapSays (map_options options.now) (option_copied rules.entry) (map (λ f. f.now) files.now)) most) IsWantOfMemory }
{
    let options = Options {
        base: options.base,
        page: options.page,
        entry: None,
    };
    map_of(alloc, files, &options, rules, most)
}

fn map_of(
    alloc: Global,
    files: &[&[u8]],
    options: &Options<'_>,
    rules: Option<&[RelocRule]>,
    most: usize,
) -> Result<Said, CallFault>
    ensures { MatchResult result
        (IsSaid (MapSays options.now (option_copied rules.entry) (map (λ f. f.now) files.now)) most) IsWantOfMemory }
{
    if most > 0 {
        let mut text = Bounded::new(alloc, most);
        match map_files(alloc, files, options, rules, &mut text) {
            Ok(verdict) => return Ok(Said::whole(verdict, text)),
            Err(ToolFault::OutOfMemory) => return Err(CallFault::OutOfMemory),
            // The text passes `most` bytes, or there was no memory for it.
            Err(_) => {}
        }
    }
    match map_length(alloc, files, options, rules) {
        Ok((verdict, length)) => Said::unkept(alloc, verdict, length, most),
        Err(_) => Err(CallFault::OutOfMemory),
    }
}

// The file is kept if it has at most `most` bytes.
fn link_within(
    alloc: Global,
    files: &[&[u8]],
    options: &LinkOptions,
    entry: &[u8],
    rules: &[u8],
    most: usize,
) -> Result<Said, CallFault>
    ensures { MatchResult result (IsSaid (LinkCallSays (map (λ f. f.now) files.now) options.now entry.now rules.now) most)
        (LacksRules rules.now) }
{
    let table = rules_in(alloc, rules)?;
    link_by(alloc, files, options, entry, table.as_slice(), most)
}

fn link_by(
    alloc: Global,
    files: &[&[u8]],
    options: &LinkOptions,
    entry: &[u8],
    rules: &[RelocRule],
    most: usize,
) -> Result<Said, CallFault>
    ensures { MatchResult result
        (IsSaid (λ verdict file. (opt : AnOptions) × AreLinkOptions options.now entry.now opt
        × FilesLink opt rules.now (map (λ f. f.now) files.now) verdict file) most)
        IsWantOfMemory }
{
    let options = Options {
        base: options.base,
        page: options.page,
        entry: Some(entry),
    };
    link_of(alloc, files, &options, rules, most)
}

fn link_of(
    alloc: Global,
    files: &[&[u8]],
    options: &Options<'_>,
    rules: &[RelocRule],
    most: usize,
) -> Result<Said, CallFault>
    ensures { MatchResult result (IsSaid (FilesLink options.now rules.now (map (λ f. f.now) files.now)) most) IsWantOfMemory }
{
    if most > 0 {
        let mut file = Bounded::new(alloc, most);
        match link_files(alloc, files, options, rules, &mut file) {
            Ok(verdict) => return Ok(Said::whole(verdict, file)),
            Err(ToolFault::OutOfMemory) => return Err(CallFault::OutOfMemory),
            // The file passes `most` bytes, or there was no memory for it.
            Err(_) => {}
        }
    }
    match link_length(alloc, files, options, rules) {
        Ok((verdict, length)) => Said::unkept(alloc, verdict, length, most),
        Err(_) => Err(CallFault::OutOfMemory),
    }
}
