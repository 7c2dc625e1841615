//! The bytes of a field: read and patched.
//!
//! A number is written in the byte order of its own file, and an addend is read in it. Rule 2 of the link makes the orders of its files
//! equal.
ghost use Rattle.std.specs.Prelude.{◌+◌, ◌≤◌, length, ◌≡◌};
ghost use Rattle.elf_link_field.specs.Field.{size_of, patched, patched_by};

use crate::number::modulo;
use crate::rule::Width;
use byteorder::{BigEndian, ByteOrder, LittleEndian};
use elf_field::Order;

// A field of some bytes.

/// A field of this width at an offset of the bytes, in which it lies whole.
#[derive(Drop)]
pub(crate) struct BytesField<'b> {
    pub bytes: &'b [u8],
    pub offset: usize,
    pub width: Width,
    ghost inside: { offset + size_of width ≤ length bytes.now },
}

// A number in a field.

fn patch_by<O: ByteOrder>(bytes: &mut [u8], offset: usize, width: Width, number: i128)
    requires { offset + size_of width ≤ length bytes.old }
    ensures { bytes.new ≡ patched_by O.bytes_of bytes.old offset (size_of width) number }
{
    O::write_uint(&mut bytes[offset..], modulo(width, number), width.size());
}

/// Puts the number, modulo 2 to the bits of the width, into the field of this width at an offset of the bytes, in which it has to lie
/// whole.
#[tactic(auto, unfolding(elf_field::specs::Bytes::bytes_of))]
pub fn patch(order: Order, bytes: &mut [u8], offset: usize, width: Width, number: i128)
    requires { offset + size_of width ≤ length bytes.old }
    ensures { bytes.new ≡ patched order bytes.old offset (size_of width) number }
{
    match order {
        Order::Little => patch_by::<LittleEndian>(bytes, offset, width, number),
        Order::Big => patch_by::<BigEndian>(bytes, offset, width, number),
    }
}
