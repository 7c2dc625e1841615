//! The number of a relocation entry.
ghost use Rattle.std.specs.Prelude.{◌≡◌, ◌+◌, ◌*◌, ◌^◌, ◌<◌, ◌≤◌, ℤ, pos, neg_ℤ, ◌<ℤ◌, ◌≤ℤ◌, MatchBool, length};
ghost use Rattle.byteorder.specs.Endian.{twos_complement};
ghost use Rattle.elf_field.specs.Bytes.{from};
ghost use Rattle.elf_link_field.specs.Field.{Admits, addend_at, addend_from, modulo as modulo_of, relocation_number, size_of};

use crate::field::BytesField;
use crate::rule::{Form, Range, Width};
use byteorder::{BigEndian, ByteOrder, LittleEndian};
use elf_field::Order;

/// One more than the largest number that a field of this width holds.
fn modulus(width: Width) -> i128
    ensures { result ≡ pos (2 ^ (8 * size_of width)) }
{
    match width {
        Width::W1 => 0x100,
        Width::W2 => 0x1_0000,
        Width::W4 => 0x1_0000_0000,
        Width::W8 => 0x1_0000_0000_0000_0000,
    }
}

/// The number modulo 2 to the bits of the width.
pub(crate) fn modulo(width: Width, number: i128) -> u64
    ensures value { result ≡ modulo_of (size_of width) number }
    ensures fits { result < 256 ^ size_of width }
{
    // By a constant it is a mask; by a number that depends on the width, a division of 128 bits.
    match width {
        Width::W1 => number.rem_euclid(0x100) as u64,
        Width::W2 => number.rem_euclid(0x1_0000) as u64,
        Width::W4 => number.rem_euclid(0x1_0000_0000) as u64,
        Width::W8 => number.rem_euclid(0x1_0000_0000_0000_0000) as u64,
    }
}

impl Form {
    /// The number of an entry of this form, exact: `value` is its symbol's value, which has to be below 2^126, the addend is from
    /// -2^63 to 2^64 - 1, and `address` is that of the field. An entry of form [`Form::None`] has no field, and counts as one of
    /// [`Form::Abs`].
    pub fn number(self, value: u128, addend: i128, address: u64) -> i128
        requires value { value < 2 ^ 126 }
        requires low { neg_ℤ (pos (2 ^ 63)) ≤ℤ addend }
        requires high { addend <ℤ pos (2 ^ 64) }
        ensures { result ≡ relocation_number self value addend address }
    {
        let sum = value as i128 + addend;
        match self {
            Form::Pc => sum - address as i128,
            _ => sum,
        }
    }
}

impl Range {
    /// Whether a field of this width admits the number.
    pub fn admits(self, width: Width, number: i128) -> bool
        ensures { MatchBool result (Admits self (size_of width) number) (¬ (Admits self (size_of width) number)) }
    {
        let modulus = modulus(width);
        match self {
            Range::Signed => -(modulus / 2) <= number && number < modulus / 2,
            Range::Unsigned => 0 <= number && number < modulus,
            Range::Wrap => true,
        }
    }
}

impl<'b> BytesField<'b> {
    /// The number in it, from 0 on.
    fn unsigned<O: ByteOrder>(&self) -> i128
        ensures value { result ≡ pos (from O.number_of self.now.bytes.now self.now.offset (size_of self.now.width)) }
        ensures low { neg_ℤ (pos (2 ^ 63)) ≤ℤ result }
        ensures high { result <ℤ pos (2 ^ 64) }
    {
        O::read_uint(&self.bytes[self.offset..], self.width.size()) as i128
    }

    /// The number in it, as two's complement.
    fn signed<O: ByteOrder>(&self) -> i128
        ensures value { result ≡
            twos_complement (size_of self.now.width) (from O.number_of self.now.bytes.now self.now.offset (size_of self.now.width)) }
        ensures low { neg_ℤ (pos (2 ^ 63)) ≤ℤ result }
        ensures high { result <ℤ pos (2 ^ 64) }
    {
        O::read_int(&self.bytes[self.offset..], self.width.size()) as i128
    }

    /// The addend in it, where it is of this range.
    fn addend<O: ByteOrder>(&self, range: Range) -> i128
        ensures value { result ≡ addend_from O.number_of range self.now.bytes.now self.now.offset (size_of self.now.width) }
        ensures low { neg_ℤ (pos (2 ^ 63)) ≤ℤ result }
        ensures high { result <ℤ pos (2 ^ 64) }
    {
        match range {
            Range::Unsigned => self.unsigned::<O>(),
            Range::Signed | Range::Wrap => self.signed::<O>(),
        }
    }
}

/// The addend that is in the field of this width at an offset of the bytes, in which it has to lie whole (an entry of type `SHT_REL` has no
/// other one): two's complement, but from 0 on where the range is [`Range::Unsigned`].
#[tactic(auto, unfolding(elf_field::specs::Bytes::num))]
pub fn addend_in(order: Order, range: Range, width: Width, bytes: &[u8], offset: usize) -> i128
    requires { offset + size_of width ≤ length bytes.now }
    ensures value { result ≡ addend_at order range bytes.now offset (size_of width) }
    ensures low { neg_ℤ (pos (2 ^ 63)) ≤ℤ result }
    ensures high { result <ℤ pos (2 ^ 64) }
{
    let field = BytesField {
        bytes,
        offset,
        width,
    };
    match order {
        Order::Little => field.addend::<LittleEndian>(range),
        Order::Big => field.addend::<BigEndian>(range),
    }
}
