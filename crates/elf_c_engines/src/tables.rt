//! The call of the library for C that returns the verdicts on tables.
ghost use Rattle.std.specs.Prelude.{◌≡◌, MatchResult};
ghost use Rattle.elf_c_engines.specs.Tables.{ArePut, IsTablesCall, IsTablesFault, fault_slot};
ghost use Rattle.elf_image_outline.specs.Image.{ImageValue, IsImage};
ghost use Rattle.elf_image_rules.specs.Rows.{fault_of};
ghost use Rattle.elf_table_symbols.specs.Sections.{sections_of};

use crate::calls::{CallFault, Outcome, give_up, verdict_alone};
use elf_image_rules::Broken;
use elf_image_stream::BytesFault;
use elf_image_type::parse_bytes;
use elf_table_all::Tables;
use elf_tool_check::{Refusal, Verdict};
use std::alloc::Global;

/// `struct elfmap_fault`: the first rule that a table breaks, and where; rule 0 if it breaks none.
#[repr(C)]
#[derive(Clone, Copy)]
pub struct TableFault {
    /// The lowest offset at which the rule is broken.
    pub at: u64,
    /// Its number.
    pub rule: u16,
}

/// The verdicts on the tables in the sections from `first` on, one for each slot of the buffer.
#[unsafe(no_mangle)]
pub extern "C" fn elfmap_table_verdicts(
    alloc: Global,
    bytes: &[u8],
    first: u64,
    faults: &mut [TableFault],
    outcome: &mut Outcome,
) -> u32
    ensures { IsTablesCall bytes.now first faults.old faults.new outcome.new result }
{
    match put_verdicts(alloc, bytes, first as usize, faults) {
        Ok(filled) => verdict_alone(Verdict::Done, filled as u64, outcome),
        Err(BytesFault::Rule { rule, at }) => {
            let refused = Verdict::Refused(Refusal::File { file: 0, rule, at });
            verdict_alone(refused, 0, outcome)
        }
        Err(BytesFault::OutOfMemory) => give_up(CallFault::OutOfMemory, outcome),
    }
}

/// Fills in the slots, and returns how many.
fn put_verdicts(
    alloc: Global,
    bytes: &[u8],
    first: usize,
    faults: &mut [TableFault],
) -> Result<usize, BytesFault>
    ensures { MatchResult result
        (λ filled. (v : ImageValue) × IsImage v bytes.now × ArePut (sections_of v) first faults.old faults.new filled)
        (λ fault. IsTablesFault bytes.now fault × (faults.new ≡ faults.old)) }
{
    let image = parse_bytes(alloc, bytes)?;
    let tables = Tables::new(alloc, &image)?;
    Ok(put_faults(&tables, first, faults))
}

/// Fills in the slots, with the verdicts from section `first` on, and returns how many.
fn put_faults(tables: &Tables<'_, '_>, first: usize, faults: &mut [TableFault]) -> usize
    ensures { ArePut (sections_of tables.now.image) first faults.old faults.new result }
{
    let count = tables.section_count();
    let filled = count.saturating_sub(first).min(faults.len());
    for k in 0..filled {
        faults[k] = slot_of(tables.verdict(first + k));
    }
    filled
}

/// A verdict as a slot.
fn slot_of(verdict: Result<(), Broken<u64>>) -> TableFault
    ensures { result ≡ fault_slot (fault_of verdict) }
{
    match verdict {
        Ok(()) => TableFault { at: 0, rule: 0 },
        Err(broken) => TableFault {
            at: broken.at,
            rule: broken.rule,
        },
    }
}
