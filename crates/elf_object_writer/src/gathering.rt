//! Short parts of a layout, gathered to go out together: a call of the writer may cost more than the bytes that it takes.
//!
//! They wait in a vector of 16 KiB. `BufWriter` of the library is not used: it tries an interrupted write again, and writes once more when
//! it is dropped. Without memory for the vector the parts go out one by one.
ghost use Rattle.std.specs.Io.KnownBytes.{Appends, append_known};
ghost use Rattle.std.specs.Prelude.{◌≡◌, ◌<◌, ◌≤◌, ◌-◌, ◌++◌, [], Err, IfErr, IfOk, IfSome, None, Ok, OnOk, Some, length, slice_index};
ghost use Rattle.elf_object_layout.specs.Laid.{PlainSection, plain_sections};
ghost use Rattle.elf_object_writer.specs.PlacedObject.{WritesAfter, next_bytes};

use crate::placed_object::{LaidSection, PlacedObject};
use elf_image_stream::WriteFault;
use elf_image_stream::output::write_whole;
use std::alloc::Global;
use std::io::Write;

/// How many bytes wait at most.
const ROOM: usize = 16384;

/// No bytes, with room for those that will wait; without room none will.
pub(crate) fn none_waiting(alloc: Global) -> Vec<u8>
    ensures { result.items ≡ [] }
{
    match Vec::with_capacity(alloc, ROOM) {
        Ok(waiting) => waiting,
        Err(_) => Vec::new(alloc),
    }
}

/// Writes the bytes that wait, the last of the first `out`.
pub(crate) fn write_waiting<W: Write>(
    out: u64,
    waiting: &mut Vec<u8>,
    writer: &mut W,
) -> Result<(), WriteFault>
    requires { length waiting.old.items ≤ out }
    ensures none { OnOk result (waiting.new.items ≡ []) }
    ensures ok { OnOk result (Appends (W.contents writer.old) (W.contents writer.new) waiting.old.items) }
    ensures err { IfErr result (λ fault. WritesAfter (out - length waiting.old.items) (W.contents writer.old) (W.contents writer.new)
        waiting.old.items (Err fault)) }
{
    let start = out - waiting.len() as u64;
    match write_whole(writer, waiting) {
        Ok(()) => {
            waiting.clear();
            Ok(())
        }
        Err(fault) => Err(WriteFault {
            written: start + fault.written,
        }),
    }
}

/// The content of a section of a layout, which goes out next, with the zeros before it.
#[derive(Drop)]
pub(crate) struct NextPart<'p, 'o, 'a> {
    /// The object in its layout.
    pub placed: &'p PlacedObject<'o, 'a>,
    /// The position of the section in the layout.
    pub position: usize,
    /// How many bytes of the layout are before it, of which the last may wait.
    pub out: u64,
    ghost there: { position < length (plain_sections placed.now.object) },
    ghost ahead: { out ≤ slice_index placed.now.layout.places position },
}

impl NextPart<'_, '_, '_> {
    /// Whether it has no room after the bytes that wait.
    fn is_long(&self, waiting: &Vec<u8>) -> bool {
        let section = self.placed.section(self.position);
        let laid = LaidSection {
            placed: self.placed,
            section,
        };
        let padding = self.placed.place(self.position) - self.out;
        padding.saturating_add(laid.content_size())
            > waiting.capacity().saturating_sub(waiting.len()) as u64
    }

    /// Adds it to the bytes that wait, which are the last before it. The answer is where it ends; None if there is no room for it, and
    /// nothing is added.
    fn gather(&self, waiting: &mut Vec<u8>) -> Option<u64>
        ensures gathered { let part = self.now in IfSome result (λ end. (d : PlainSection) →
            WritesAfter part.out (Some waiting.old.items) (Some waiting.new.items) (next_bytes part.placed.now part.position part.out d)
            (Ok end)) }
        ensures kept { result ≡ None → waiting.new.items ≡ waiting.old.items }
    {
        let waited = waiting.len();
        if self.is_long(waiting) {
            return None;
        }
        match self.write(waiting) {
            Ok(end) => Some(end),
            Err(_) => {
                waiting.truncate(waited);
                None
            }
        }
    }

    /// Puts it after the bytes before it: it waits with them if it is short, and else it goes out after them. Returns where it ends;
    /// a fault counts the bytes that are written.
    pub(crate) fn pass<W: Write>(
        &self,
        waiting: &mut Vec<u8>,
        writer: &mut W,
    ) -> Result<u64, WriteFault>
        requires { length waiting.old.items ≤ self.now.out }
        ensures ok { let part = self.now in IfOk result (λ end. (d : PlainSection) →
            WritesAfter part.out (append_known (W.contents writer.old) waiting.old.items)
            (append_known (W.contents writer.new) waiting.new.items)
            (next_bytes part.placed.now part.position part.out d) (Ok end)) }
        ensures few { IfOk result (λ end. length waiting.new.items ≤ end) }
        ensures err { let part = self.now in IfErr result (λ fault. (d : PlainSection) →
            WritesAfter (part.out - length waiting.old.items) (W.contents writer.old) (W.contents writer.new)
            (waiting.old.items ++ next_bytes part.placed.now part.position part.out d) (Err fault)) }
    {
        if let Some(end) = self.gather(waiting) {
            return Ok(end);
        }
        match write_waiting(self.out, waiting, writer) {
            Ok(()) => {}
            Err(fault) => return Err(fault),
        }
        match self.write(writer) {
            Ok(end) => Ok(end),
            Err(fault) => Err(fault),
        }
    }
}
