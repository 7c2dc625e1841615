//! The pieces that an executable is written from.
ghost use Rattle.std.specs.Prelude.{◌≡◌, ◌<◌, length};
ghost use Rattle.elf_image_stream.specs.Output.{Sends};
ghost use Rattle.elf_link_map.specs.Standing.{member_address};
ghost use Rattle.elf_link_outputs.specs.Placed.{output_value};
ghost use Rattle.elf_exec.specs.ExecWriting.{member_content, member_padding, output_content, load_content, load_padding, loads_text};
ghost use Rattle.elf_link_relocate.specs.Loads.{loads};

use crate::placed_exec::{PlacedExec, table_end};
use elf_image_stream::{Chunks, WriteFault, send, send_all, send_zeros};
use elf_link_map::{Member, Output};
use elf_link_relocate::{Linked, Load, file_size};
use std::io::Write;

// The bytes of an output section, member by member: the relocated bytes of each at its address, with zeros between.

/// Sends the bytes of an output.
pub(crate) fn send_output<W: Write>(
    writer: &mut W,
    out: u64,
    linked: &Linked<'_, '_>,
    output: &Output<'_>,
) -> Result<u64, WriteFault>
    ensures { Sends (W.contents writer.old) (W.contents writer.new) out (output_content linked.now (output_value output.now)) result }
{
    send_all(writer, out, &MemberPieces { linked, output })
}

/// The members of an output.
#[derive(Drop)]
struct MemberPieces<'l, 'm, 'a, 'o, 'n> {
    linked: &'l Linked<'m, 'a>,
    output: &'o Output<'n>,
}

impl<'l, 'm, 'a, 'o, 'n> Chunks for MemberPieces<'l, 'm, 'a, 'o, 'n> {
    ghost use Rattle.std.specs.Prelude.{length};
    ghost use Rattle.elf_link_outputs.specs.Placed.{output_value};
    ghost use Rattle.elf_exec.specs.ExecWriting.{member_piece};

    ghost count = { λ pieces. length pieces.output.now.members.items };

    ghost chunk = { λ pieces. member_piece pieces.linked.now (output_value pieces.output.now) };

    fn count(&self) -> usize {
        self.output.members.len()
    }

    fn send<W: Write>(&self, writer: &mut W, out: u64, j: usize) -> Result<u64, WriteFault> {
        let padding = member_padding(self.linked, self.output, j);
        let out = send_zeros(writer, out, padding)?;
        send(
            writer,
            out,
            member_content(self.linked, self.output.members[j]),
        )
    }
}

/// How far a member is after the one before it; the first one after where its output begins.
fn member_padding(linked: &Linked<'_, '_>, output: &Output<'_>, k: usize) -> u64
    requires { k < length output.now.members.items }
    ensures { result ≡ member_padding linked.now (output_value output.now) k }
{
    let place = member_address(linked, output.members[k]);
    if k == 0 {
        return place.saturating_sub(output.address);
    }
    let before = output.members[k - 1];
    let size = member_content(linked, before).len() as u64;
    place
        .saturating_sub(member_address(linked, before))
        .saturating_sub(size)
}

fn member_address(linked: &Linked<'_, '_>, member: Member) -> u64
    ensures { result ≡ member_address linked.now.map member }
{
    linked
        .map()
        .address(member.file, member.section)
        .unwrap_or(0)
}

/// The relocated bytes of a member; none if it has no bits.
fn member_content<'l>(linked: &'l Linked<'_, '_>, member: Member) -> &'l [u8]
    ensures { result.now ≡ member_content linked.now member }
{
    match linked.bytes(member.file, member.section) {
        Some(bytes) => bytes,
        None => &[],
    }
}

// The bytes of the segments, each at its place in the file, with zeros between.

/// Sends the bytes of all segments.
pub(crate) fn send_loads<W: Write>(
    writer: &mut W,
    out: u64,
    placed: &PlacedExec<'_, '_, '_>,
) -> Result<u64, WriteFault>
    ensures { Sends (W.contents writer.old) (W.contents writer.new) out (loads_text placed.now) result }
{
    send_all(writer, out, &LoadPieces { placed })
}

/// The segments.
#[derive(Drop)]
struct LoadPieces<'p, 'l, 'm, 'a> {
    placed: &'p PlacedExec<'l, 'm, 'a>,
}

impl<'p, 'l, 'm, 'a> Chunks for LoadPieces<'p, 'l, 'm, 'a> {
    ghost use Rattle.std.specs.Prelude.{length};
    ghost use Rattle.elf_link_relocate.specs.Loads.{loads};
    ghost use Rattle.elf_exec.specs.ExecWriting.{load_piece};

    ghost count = { λ pieces. length (loads pieces.placed.now.linked.map) };

    ghost chunk = { λ pieces. load_piece pieces.placed.now };

    fn count(&self) -> usize {
        self.placed.count()
    }

    fn send<W: Write>(&self, writer: &mut W, out: u64, j: usize) -> Result<u64, WriteFault> {
        let padding = load_padding(self.placed, j);
        let out = send_zeros(writer, out, padding)?;
        send_load(writer, out, self.placed.linked(), self.placed.load(j))
    }
}

/// Sends the bytes of a segment, of which one without bits has none.
fn send_load<W: Write>(
    writer: &mut W,
    out: u64,
    linked: &Linked<'_, '_>,
    load: Load,
) -> Result<u64, WriteFault>
    ensures { Sends (W.contents writer.old) (W.contents writer.new) out (load_content linked.now load) result }
{
    if load.no_bits {
        return Ok(out);
    }
    match linked.map().outputs().get(load.position) {
        Some(output) => send_output(writer, out, linked, output),
        None => Ok(out),
    }
}

/// How far the bytes of a segment are after those of the one before it; those of the first one after the program header table.
fn load_padding(placed: &PlacedExec<'_, '_, '_>, k: usize) -> u64
    requires { k < length (loads placed.now.linked.map) }
    ensures { result ≡ load_padding placed.now k }
{
    let place = placed.place(k);
    if k == 0 {
        return place.saturating_sub(table_end(placed.count()));
    }
    place
        .saturating_sub(placed.place(k - 1))
        .saturating_sub(file_size(placed.load(k - 1)))
}
