//! The verdict on a file, with a buffer for its extents.
ghost use Rattle.std.specs.Prelude.{◌≡◌, ◌≤◌, ◌<◌, IfErr, IfOk, OnOk, Some, filter, length, map, take};
ghost use Rattle.std.specs.List.{All};
ghost use Rattle.elf_extent.specs.Extent.{Doubly, holds_any, IsLowest};
ghost use Rattle.elf_image_rules.specs.ValidatedRecords.{file_extents};
ghost use Rattle.elf_image_rules.specs.Rules.{IsFault};
ghost use Rattle.elf_c_parts.specs.Slots.{HasSlotsFor, IsShortRoom, extent_in};

use elf_extent::{Extent, Row, sweep};
use elf_image_rules::rules::SHARED_BYTE;
use elf_image_rules::{FileExtents, validate_records};

/// `struct elfmap_extent`: a slot of a buffer, which holds an extent of a file.
#[repr(C)]
#[derive(Clone, Copy)]
pub struct Slot {
    /// The offset of the first byte.
    pub start: u64,
    /// How many bytes.
    pub len: u64,
}

/// The buffer has too few slots.
#[derive(Clone, Copy)]
pub struct ShortRoom {
    /// How many slots are needed: three, and one for each section header.
    pub wanted: u64,
}

/// The first of rules 1 to 33 that the file breaks, and its lowest offset in bytes; None if it breaks none. It takes n log n for any file,
/// and no memory but the buffer, which it overwrites. A file that breaks none of rules 1 to 32 needs a buffer with as many slots as it has
/// extents. If the buffer has fewer, rule 33 is not tested.
pub fn verdict_in(bytes: &[u8], room: &mut [Slot]) -> Result<Option<(u16, u64)>, ShortRoom>
    ensures fault { IfOk result (λ found. IsFault bytes.now found) }
    ensures enough { OnOk result (HasSlotsFor bytes.now (length room.old)) }
    ensures short { IfErr result (λ short. IsShortRoom bytes.now (length room.old) short.wanted) }
{
    let records = match validate_records(bytes) {
        Ok(records) => records,
        Err(broken) => return Ok(Some((broken.rule, broken.at))),
    };
    let extents = FileExtents::new(&records);
    let wanted = extents.len();
    if (room.len() as u64) < wanted {
        return Err(ShortRoom { wanted });
    }
    match lowest_shared_byte(&extents, room) {
        Some(at) => Ok(Some((SHARED_BYTE, at))),
        None => Ok(None),
    }
}

/// The lowest byte that two parts of the file hold.
fn lowest_shared_byte(extents: &FileExtents, room: &mut [Slot]) -> Option<u64>
    requires { length (file_extents extents.now) ≤ length room.old }
    ensures { IsLowest (Doubly (file_extents extents.now)) result }
{
    let count = put_extents(extents, room);
    lowest_double(&mut room[..count])
}

/// Puts the extents of the file that hold a byte into the buffer, from its first slot on. Returns how many these are.
fn put_extents(extents: &FileExtents, room: &mut [Slot]) -> usize
    requires { length (file_extents extents.now) ≤ length room.old }
    ensures within { result ≤ length room.new }
    ensures held { map extent_in (take result room.new) ≡ filter holds_any (file_extents extents.now) }
{
    let mut count = 0;
    for index in 0..extents.len() {
        let extent = extents.at(index);
        if extent.len > 0 {
            room[count] = Slot {
                start: extent.start,
                len: extent.len,
            };
            count += 1;
        }
    }
    count
}

/// The lowest byte that two of these hold, each of which holds one. They are sorted by their starts.
fn lowest_double(held: &mut [Slot]) -> Option<u64>
    requires { All (λ e. 0 < e.len) (map extent_in held.old) }
    ensures { IsLowest (Doubly (map extent_in held.old)) result }
{
    held.sort_unstable_by_key(|slot| slot.start);
    sweep(&mut SlotRow {
        slots: held,
        looks: 0,
    })
}

/// A row of the extents in slots.
#[derive(Drop)]
pub(crate) struct SlotRow<'a> {
    slots: &'a [Slot],
    looks: u64,
}

impl<'a> Row for SlotRow<'a> {
    ghost use Rattle.elf_c_parts.specs.Slots.{slot_extents, slot_looks};

    ghost extents = { slot_extents };

    ghost looks = { slot_looks };

    fn len(&self) -> usize {
        self.slots.len()
    }

    fn at(&mut self, k: usize) -> Extent {
        self.looks += 1;
        let slot = self.slots[k];
        Extent {
            start: slot.start,
            len: slot.len,
        }
    }
}
