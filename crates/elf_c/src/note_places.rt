//! Which note of a note section an offset is in, and in which field of it (gABI chapter 5, Note Section).
ghost use Rattle.std.specs.Prelude.{◌≡◌, ◌<◌, ◌≤◌, ◌+◌, ◌-◌, MatchOption, length};
ghost use Rattle.elf_extent.specs.Extent.{Never};
ghost use Rattle.elf_c.specs.Places.{IsNotePlace, note_widths as widths_of_note};
ghost use Rattle.elf_c.specs.Fields.{IsFieldAt};
ghost use Rattle.elf_field.specs.Record.{width_of};
ghost use Rattle.elf_table_lists.specs.Notes.{note_end as note_end_of};

use crate::fields::field_in;
use crate::notes::end_of_note;
use crate::shapes::Place;
use elf_c_parts::Slot;
use elf_field::Order;
use elf_field::abi::{NHDR_SIZE, WORD_SIZE};
use elf_table_lists::NoteHeader;

/// Of the notes of a content that begins at `start` of the file, the one that has this offset of the file, and its field; None if it is
/// cut, or after one that is.
pub fn note_place(order: Order, content: &[u8], start: u64, offset: u64) -> Option<Place>
    requires { start ≤ offset }
    ensures { MatchOption result (Never (IsNotePlace order content.now start offset)) (IsNotePlace order content.now start offset) }
{
    let inner = offset - start;
    let mut at = 0;
    for entry in 0..content.len() {
        let Some(end) = end_of_note(order, content, at as u64) else {
            return None;
        };
        if inner < end as u64 {
            let record = Slot {
                start: start + at as u64,
                len: (end - at) as u64,
            };
            return Some(Place {
                entry: entry as u64,
                record,
                field: note_field(order, content, at, inner - at as u64),
            });
        }
        at = end;
    }
    None
}

/// The field of the whole note at an offset of a content that has the byte at this offset from its beginning.
fn note_field(order: Order, content: &[u8], at: usize, inner: u64) -> Slot
    requires whole { note_end_of order content.now at ≤ length content.now }
    requires inside { at + inner < note_end_of order content.now at }
    ensures { IsFieldAt (widths_of_note order content.now at) inner result }
{
    let widths = note_widths(order, content, at);
    field_in(&widths, inner)
}

/// The widths of the fields of the whole note at an offset of a content: three words, the name and the descriptor.
#[tactic(auto, unfolding(elf_table_lists::specs::Notes::note_end, elf_table_lists::specs::Notes::desc_start))]
fn note_widths(order: Order, content: &[u8], at: usize) -> [u64; 5]
    requires { note_end_of order content.now at ≤ length content.now }
    ensures { result ≡ widths_of_note order content.now at }
{
    let header = NoteHeader {
        order,
        table: content,
        at,
    };
    let name = header.desc_start() - at - NHDR_SIZE as usize;
    let desc = header.note_end() - header.desc_start();
    [WORD_SIZE, WORD_SIZE, WORD_SIZE, name as u64, desc as u64]
}
