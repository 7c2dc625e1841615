//! The first rule that a file breaks.
ghost use Rattle.std.specs.Prelude.{◌≡◌, ◌≢◌, None, Some, length, ◌≤◌};
ghost use Rattle.std.specs.Bool.{OnFalse, OnTrue};
ghost use Rattle.elf_image_rules.specs.Rules.{IsFault};
ghost use Rattle.elf_c_parts.specs.Slots.{HasSlotsFor, IsShortRoom, AccountsFor, HasPartsFor, IsShortOfParts, parts_wanted};
ghost use Rattle.elf_c.specs.Files.{SHORT_ROOM as short_room};

use crate::shapes::Fault;
use elf_c_parts::{Part, PartsFault, ShortRoom, Slot, parts_in, verdict_in};
use elf_image_rules::verdict;

/// In place of a rule's number, if a buffer has too few extents. No rule has this number.
pub const SHORT_ROOM: u16 = 0;

/// Whether the file keeps all 33 rules; otherwise the first one that it breaks, and the lowest offset.
#[unsafe(no_mangle)]
pub extern "C" fn elfmap_verdict(bytes: &[u8], fault: &mut Fault) -> bool
    ensures kept { OnTrue result (IsFault bytes.now None) }
    ensures broken { OnFalse result (IsFault bytes.now (Some (fault.new.rule, fault.new.at))) }
    ensures unchanged { OnTrue result (fault.new ≡ fault.old) }
{
    match verdict(bytes) {
        None => true,
        Some((rule, at)) => {
            *fault = Fault { at, rule };
            false
        }
    }
}

/// The verdict of `elfmap_verdict` in n log n for any file, with a buffer for its extents. If the buffer has too few, `at` is how many are
/// needed.
#[unsafe(no_mangle)]
pub extern "C" fn elfmap_verdict_in(bytes: &[u8], room: &mut [Slot], fault: &mut Fault) -> bool
    ensures kept { OnTrue result (IsFault bytes.now None) }
    ensures broken { OnFalse result (fault.new.rule ≢ short_room → IsFault bytes.now (Some (fault.new.rule, fault.new.at))) }
    ensures enough { OnFalse result (fault.new.rule ≢ short_room) → HasSlotsFor bytes.now (length room.old) }
    ensures short { OnFalse result (fault.new.rule ≡ short_room → IsShortRoom bytes.now (length room.old) fault.new.at) }
    ensures unchanged { OnTrue result (fault.new ≡ fault.old) }
{
    *fault = match verdict_in(bytes, room) {
        Ok(None) => return true,
        Ok(Some((rule, at))) => Fault { at, rule },
        Err(ShortRoom { wanted }) => Fault {
            at: wanted,
            rule: SHORT_ROOM,
        },
    };
    false
}

// What each byte of a file belongs to.

/// If the file breaks none of the 33 rules: its parts, in the first slots of the buffer, and how many these are. Otherwise the first rule
/// that it breaks, and the lowest offset. If the buffer has too few slots, `at` is how many are needed.
#[unsafe(no_mangle)]
pub extern "C" fn elfmap_parts(
    bytes: &[u8],
    room: &mut [Part],
    parts: &mut u64,
    fault: &mut Fault,
) -> bool
    ensures kept { OnTrue result (IsFault bytes.now None) }
    ensures room { OnTrue result (parts_wanted bytes.now ≤ length room.old) }
    ensures within { OnTrue result (parts.new ≤ length room.new) }
    ensures account { OnTrue result (AccountsFor bytes.now parts.new room.new) }
    ensures broken { OnFalse result (fault.new.rule ≢ short_room → IsFault bytes.now (Some (fault.new.rule, fault.new.at))) }
    ensures enough { OnFalse result (fault.new.rule ≢ short_room) → HasPartsFor bytes.now (length room.old) }
    ensures short { OnFalse result (fault.new.rule ≡ short_room → IsShortOfParts bytes.now (length room.old) fault.new.at) }
    ensures fault_unchanged { OnTrue result (fault.new ≡ fault.old) }
    ensures parts_unchanged { OnFalse result (parts.new ≡ parts.old) }
{
    *fault = match parts_in(bytes, room) {
        Ok(count) => {
            *parts = count as u64;
            return true;
        }
        Err(PartsFault::Rule { rule, at }) => Fault { at, rule },
        Err(PartsFault::ShortRoom { wanted }) => Fault {
            at: wanted,
            rule: SHORT_ROOM,
        },
    };
    false
}
