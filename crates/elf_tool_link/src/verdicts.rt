//! The verdict of `link` alone: nothing is laid out or written.
ghost use Rattle.std.specs.Prelude.{◌≡◌, MatchResult, map as map_list, option_copied};
ghost use Rattle.elf_tool_check.specs.declared.calls.ToolFault.TheVariants.{OutOfMemory};
ghost use Rattle.elf_tool_link.specs.Verdicts.{FirstOfEntries, IsLinkVerdict, SaysFirst};

use crate::linking::verdict_of;
use crate::mapped::mapped_files;
use elf_link_field::RelocRule;
use elf_link_map::Options;
use elf_link_relocate::Mapped;
use elf_tool_check::{ToolFault, Verdict};
use std::alloc::Global;

/// Whether files of these bytes link: [`Verdict::Done`]; the first file that is refused, with the first rule that it breaks, as an image
/// or, with a number from 40 on, as an object, and its lowest offset; or the first of the link's rules that is broken, and where. Without
/// relocation rules these are rules 1 to 11, otherwise 1 to 16. Nothing else is refused: how long the executable would be is not tested.
/// The only fault is out of memory.
pub fn link_verdict(
    alloc: Global,
    files: &[&[u8]],
    options: &Options<'_>,
    rules: Option<&[RelocRule]>,
) -> Result<Verdict, ToolFault>
    ensures { MatchResult result (IsLinkVerdict options.now (option_copied rules.entry) (map_list (λ f. f.now) files.now))
        (λ fault. fault ≡ OutOfMemory) }
{
    match mapped_files(alloc, files, options) {
        Ok(mapped) => entries_verdict(alloc, &mapped, rules),
        Err(unlinked) => verdict_of(unlinked),
    }
}

/// The verdict on the entries that are applied, by rules 12 to 16.
fn entries_verdict(
    alloc: Global,
    mapped: &Mapped<'_>,
    rules: Option<&[RelocRule]>,
) -> Result<Verdict, ToolFault>
    ensures { MatchResult result
        (SaysFirst (FirstOfEntries (option_copied rules.entry) mapped.now.objects mapped.now.map)) (λ fault. fault ≡ OutOfMemory) }
{
    let Some(rules) = rules else {
        return Ok(Verdict::Done);
    };
    match mapped.relocated(alloc, rules) {
        Ok(_) => Ok(Verdict::Done),
        Err(fault) => verdict_of(fault.into()),
    }
}
