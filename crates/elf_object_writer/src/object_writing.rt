//! An object onto a writer.
ghost use Rattle.std.specs.Prelude.{◌≡◌, [], ◌<◌, ◌≤◌, ℕ, ◌+◌, ◌-◌, ◌^◌, ◌++◌, IfErr, List, Option, get_or, length, replicate, slice_index};
ghost use Rattle.elf_field.specs.Headers.{ehdr_bytes};
ghost use Rattle.elf_image_stream.specs.Output.{Writes};
ghost use Rattle.elf_object_layout.specs.Laid.{file_header, layout_bytes, PlainSection, plain_sections};
ghost use Rattle.elf_object_writer.specs.PlacedObject.{WritesAfter, header_table, next_bytes, plain_section, IsLayoutWritten};
ghost use Rattle.elf_image_rules.specs.Rules.{MAX_LEN};

use crate::gathering::{NextPart, none_waiting, write_waiting};
use crate::headers::{SectionHeaders, file_header};
use crate::placed_object::{LaidSection, PlacedObject};
use elf_field::abi::*;
use elf_image_outline::{write_entries, write_records};
use elf_image_stream::WriteFault;
use elf_image_stream::output::write_zeros;
use elf_object_layout::LayoutFault;
use elf_object_type::Object;
use std::alloc::Global;
use std::io::Write;
use thiserror::Error;

// The parts of an object's canonical layout onto a writer, each at its place, with zeros between (gABI chapter 4, ELF Header,
// Sections).

/// Writes the bytes of the layout, or exactly the first `written` of them, fewer than all, and a fault. It grows nothing: short contents
/// are gathered in the room that `waiting` has.
pub(crate) fn write_placed<W: Write>(
    placed: &PlacedObject<'_, '_>,
    waiting: &mut Vec<u8>,
    writer: &mut W,
) -> Result<(), WriteFault>
    requires { waiting.old.items ≡ [] }
    ensures { Writes (W.contents writer.old) (W.contents writer.new)
        (layout_bytes placed.now.object placed.now.layout.places) result }
{
    placed.prove_placed();
    match write_header(placed, writer) {
        Ok(()) => {}
        Err(fault) => return Err(fault),
    }
    let mut out = EHDR_SIZE;
    for position in 0..placed.section_count() {
        let part = NextPart {
            placed,
            position,
            out,
        };
        match part.pass(waiting, writer) {
            Ok(end) => out = end,
            Err(fault) => return Err(fault),
        }
    }
    match write_waiting(out, waiting, writer) {
        Ok(()) => {}
        Err(fault) => return Err(fault),
    }
    match write_table(placed, out, writer) {
        Ok(_) => Ok(()),
        Err(fault) => Err(fault),
    }
}

fn write_header<W: Write>(placed: &PlacedObject<'_, '_>, writer: &mut W) -> Result<(), WriteFault>
    ensures { let o = placed.now.object in let count = length (plain_sections o) in
        Writes (W.contents writer.old) (W.contents writer.new)
        (ehdr_bytes o.order (file_header o (count + 1) (slice_index placed.now.layout.places count))) result }
{
    write_records(writer, placed.object().order(), &[file_header(placed)])
}

impl NextPart<'_, '_, '_> {
    /// Writes it at its place, where all bytes before it are written. The answer is where it ends.
    pub(crate) fn write<W: Write>(&self, writer: &mut W) -> Result<u64, WriteFault>
        ensures { let part = self.now in (d : PlainSection) → WritesAfter part.out (W.contents writer.old) (W.contents writer.new)
            (next_bytes part.placed.now part.position part.out d) result }
    {
        let placed = self.placed;
        placed.prove_placed();
        let section = placed.section(self.position);
        let laid = LaidSection { placed, section };
        let padding = placed.place(self.position) - self.out;
        let size = laid.content_size();
        let sent = laid.write_padded(padding, writer);
        written_after(self.out, padding + size, sent)
    }
}

impl<'p, 'o, 'a> LaidSection<'p, 'o, 'a> {
    /// Writes zeros, and its content.
    fn write_padded<W: Write>(&self, padding: u64, writer: &mut W) -> Result<(), WriteFault>
        requires { padding + length (plain_section self.now.placed.now.object self.now.section).content < 2 ^ 64 }
        ensures { Writes (W.contents writer.old) (W.contents writer.new)
            (replicate padding 0 ++ (plain_section self.now.placed.now.object self.now.section).content) result }
    {
        match write_zeros(writer, padding) {
            Ok(()) => {}
            Err(fault) => return Err(fault),
        }
        match self.write_content(writer) {
            Ok(()) => Ok(()),
            Err(fault) => Err(WriteFault {
                written: padding + fault.written,
            }),
        }
    }
}

/// The section header table at its place, where so many bytes are written before it.
fn write_table<W: Write>(
    placed: &PlacedObject<'_, '_>,
    out: u64,
    writer: &mut W,
) -> Result<u64, WriteFault>
    requires { out ≤ slice_index placed.now.layout.places (length (plain_sections placed.now.object)) }
    ensures { let o = placed.now.object in let places = placed.now.layout.places in
        WritesAfter out (W.contents writer.old) (W.contents writer.new)
        (replicate (slice_index places (length (plain_sections o)) - out) 0 ++ header_table o places) result }
{
    let padding = placed.table() - out;
    let size = table_size(placed);
    let sent = write_padded_table(placed, padding, writer);
    written_after(out, padding + size, sent)
}

/// The size of the section header table, which ends in time.
fn table_size(placed: &PlacedObject<'_, '_>) -> u64
    ensures value { result ≡ length (header_table placed.now.object placed.now.layout.places) }
    ensures within { slice_index placed.now.layout.places (length (plain_sections placed.now.object)) + result ≤ MAX_LEN }
{
    placed.prove_placed();
    SHDR_SIZE * placed.header_count() as u64
}

/// Zeros, and the section header table.
fn write_padded_table<W: Write>(
    placed: &PlacedObject<'_, '_>,
    padding: u64,
    writer: &mut W,
) -> Result<(), WriteFault>
    requires { padding + length (header_table placed.now.object placed.now.layout.places) < 2 ^ 64 }
    ensures { Writes (W.contents writer.old) (W.contents writer.new)
        (replicate padding 0 ++ header_table placed.now.object placed.now.layout.places) result }
{
    match write_zeros(writer, padding) {
        Ok(()) => {}
        Err(fault) => return Err(fault),
    }
    match write_headers(placed, writer) {
        Ok(()) => Ok(()),
        Err(fault) => Err(WriteFault {
            written: padding + fault.written,
        }),
    }
}

#[tactic(auto, unfolding(crate::specs::PlacedObject::header_table))]
fn write_headers<W: Write>(placed: &PlacedObject<'_, '_>, writer: &mut W) -> Result<(), WriteFault>
    ensures { Writes (W.contents writer.old) (W.contents writer.new)
        (header_table placed.now.object placed.now.layout.places) result }
{
    placed.prove_placed();
    let order = placed.object().order();
    write_entries(writer, order, &SectionHeaders { placed })
}

/// How many bytes are written when so many more are sent after others; a fault counts all of them.
fn written_after(out: u64, size: u64, sent: Result<(), WriteFault>) -> Result<u64, WriteFault>
    requires fits { out + size < 2 ^ 64 }
    requires below { IfErr sent (λ fault. fault.written < size) }
    ensures { (before after : Option (List ℕ)) (bytes : List ℕ) → length bytes ≡ size → Writes before after bytes sent →
        WritesAfter out before after bytes result }
{
    match sent {
        Ok(()) => Ok(out + size),
        Err(fault) => Err(WriteFault {
            written: out + fault.written,
        }),
    }
}

/// Why an object is not written.
#[derive(Clone, Copy, Debug, PartialEq, Eq, Error)]
pub enum ObjectWriteFault {
    /// The object's canonical layout is longer than the longest file, 2^30 bytes. Nothing is written.
    #[error("longer than 2^30 bytes")]
    TooLong,
    /// An allocation failed. Nothing is written.
    #[error("out of memory")]
    OutOfMemory,
    /// A call of the writer failed, or took none of the bytes that it was offered, after exactly the first `written` bytes
    /// of the canonical layout.
    #[error("write failed after {written}")]
    Io { written: u64 },
}

/// Writes an object as its canonical layout (gABI chapter 4): the header, the contents of the sections in the order of their indexes, each
/// at the least place that its alignment allows, and the section header table; with zeros between. The sections are the object's own and
/// after them `.symtab`, `.symtab_shndx` where a symbol needs it, `.strtab` and `.shstrtab`.
///
/// [`ObjectWriteFault::TooLong`] comes exactly if the layout would be longer than 2^30 bytes, and [`ObjectWriteFault::OutOfMemory`] only if
/// an allocation fails. Both come before the first byte is written. Any error of the writer, an interruption too, is
/// [`ObjectWriteFault::Io`], and so is a write that takes 0 bytes of a rest that is not empty. Nothing is tried again and nothing is
/// flushed.
///
/// Memory is taken for the string tables and the places of the parts, and 16 KiB, if there are so many, for short contents, which go out
/// together. Longer ones are passed on as they are in the object, and the entries of tables are made as they are written. It takes the time
/// of [`lay_out`](elf_object_layout::lay_out), and is linear in the bytes written.
pub fn write_layout<W: Write>(
    alloc: Global,
    object: &Object<'_>,
    writer: &mut W,
) -> Result<(), ObjectWriteFault>
    ensures { IsLayoutWritten object.now (W.contents writer.old) (W.contents writer.new) result }
{
    match PlacedObject::new(alloc, object) {
        Ok(placed) => write_out(alloc, &placed, writer),
        Err(LayoutFault::TooLong) => Err(ObjectWriteFault::TooLong),
        Err(LayoutFault::OutOfMemory) => Err(ObjectWriteFault::OutOfMemory),
    }
}

/// Writes the object, which has its layout. Room for what waits is the last memory that is taken, before the first byte is written.
fn write_out<W: Write>(
    alloc: Global,
    placed: &PlacedObject<'_, '_>,
    writer: &mut W,
) -> Result<(), ObjectWriteFault>
    ensures { IsLayoutWritten placed.now.object (W.contents writer.old) (W.contents writer.new) result }
{
    placed.prove_placed();
    let mut waiting = none_waiting(alloc);
    match write_placed(placed, &mut waiting, writer) {
        Ok(()) => Ok(()),
        Err(fault) => Err(ObjectWriteFault::Io {
            written: fault.written,
        }),
    }
}
