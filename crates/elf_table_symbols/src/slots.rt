//! Verdicts on tables in slots that a caller lends, one for each section.
ghost use Rattle.std.specs.Prelude.{◌≡◌, ◌≢◌, ◌+◌, ◌-◌, ◌<◌, ◌≤◌, IfSome, length};
ghost use Rattle.elf_image_rules.specs.Rows.{fault_of};
ghost use Rattle.elf_table_symbols.specs.Slots.{IsKept, fault_in_slot, verdict_slot, verdict_slot_at};

use elf_image_rules::Broken;

/// `struct elfmap_fault`: the first rule that a table breaks, and where; rule 0 if it breaks none.
#[repr(C)]
#[derive(Clone, Copy)]
pub struct TableFault {
    /// The lowest offset at which the rule is broken.
    pub at: u64,
    /// Its number.
    pub rule: u16,
}

/// In place of a rule's number, in a slot for which no verdict is wanted. No rule has this number.
pub const LEFT_OUT: u16 = 0xffff;

impl TableFault {
    /// A verdict as a slot.
    pub fn new(verdict: Result<(), Broken<u64>>) -> TableFault
        ensures { result ≡ verdict_slot (fault_of verdict) }
    {
        match verdict {
            Ok(()) => TableFault { at: 0, rule: 0 },
            Err(broken) => TableFault {
                at: broken.at,
                rule: broken.rule,
            },
        }
    }

    /// The verdict in a slot.
    pub fn verdict(self) -> Result<(), Broken<u64>>
        ensures { fault_of result ≡ fault_in_slot self }
    {
        if self.rule == 0 {
            return Ok(());
        }
        Err(Broken::new(self.rule, self.at))
    }
}

/// The verdict on the table in this section, if one of the slots has it, of which the first is for section `first`.
pub(crate) fn kept_verdict(
    first: usize,
    slots: &[TableFault],
    section: usize,
) -> Option<Result<(), Broken<u64>>>
    ensures { IfSome result (λ verdict. IsKept first slots.now section (fault_of verdict)) }
{
    if section < first || section - first >= slots.len() {
        return None;
    }
    let slot = slots[section - first];
    if slot.rule == LEFT_OUT {
        return None;
    }
    Some(slot.verdict())
}
