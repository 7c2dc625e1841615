//! Numbers at offsets of a slice, in either byte order.
ghost use Rattle.std.specs.Prelude.{◌≡◌, ◌+◌, ◌≤◌, ◌++◌, length, take};
ghost use Rattle.std.specs.Int.{w64, cast_signed, cast_unsigned};
ghost use Rattle.elf_field.specs.Bytes.{bytes_of, field};

use byteorder::{BigEndian, ByteOrder, LittleEndian};

// The byte order of a file (gABI chapter 4, Data Encoding).

/// The order of a number's bytes in a file (gABI chapter 4, Data Encoding): identification byte 5.
#[derive(Clone, Copy, Debug, PartialEq, Eq)]
pub enum Order {
    /// Least significant byte first (`ELFDATA2LSB`).
    Little,
    /// Most significant byte first (`ELFDATA2MSB`).
    Big,
}

#[tactic(auto, unfolding(crate::specs::Bytes::num))]
pub fn u8_at(order: Order, b: &[u8], offset: u64) -> u8
    requires { offset + 1 ≤ length b.now }
    ensures { result ≡ field order b.now offset 1 }
{
    match order {
        Order::Little => LittleEndian::read_uint(&b[offset as usize..], 1) as u8,
        Order::Big => BigEndian::read_uint(&b[offset as usize..], 1) as u8,
    }
}

#[tactic(auto, unfolding(crate::specs::Bytes::num))]
pub fn u16_at(order: Order, b: &[u8], offset: u64) -> u16
    requires { offset + 2 ≤ length b.now }
    ensures { result ≡ field order b.now offset 2 }
{
    match order {
        Order::Little => LittleEndian::read_u16(&b[offset as usize..]),
        Order::Big => BigEndian::read_u16(&b[offset as usize..]),
    }
}

#[tactic(auto, unfolding(crate::specs::Bytes::num))]
pub fn u32_at(order: Order, b: &[u8], offset: u64) -> u32
    requires { offset + 4 ≤ length b.now }
    ensures { result ≡ field order b.now offset 4 }
{
    match order {
        Order::Little => LittleEndian::read_u32(&b[offset as usize..]),
        Order::Big => BigEndian::read_u32(&b[offset as usize..]),
    }
}

#[tactic(auto, unfolding(crate::specs::Bytes::num))]
pub fn u64_at(order: Order, b: &[u8], offset: u64) -> u64
    requires { offset + 8 ≤ length b.now }
    ensures { result ≡ field order b.now offset 8 }
{
    match order {
        Order::Little => LittleEndian::read_u64(&b[offset as usize..]),
        Order::Big => BigEndian::read_u64(&b[offset as usize..]),
    }
}

#[tactic(auto, unfolding(crate::specs::Bytes::num))]
pub fn i64_at(order: Order, b: &[u8], offset: u64) -> i64
    requires { offset + 8 ≤ length b.now }
    ensures { result ≡ cast_signed w64 (field order b.now offset 8) }
{
    match order {
        Order::Little => LittleEndian::read_i64(&b[offset as usize..]),
        Order::Big => BigEndian::read_i64(&b[offset as usize..]),
    }
}

// Each `put` below says of the front of the slice that it grows by the number's bytes, so that a record's
// fields, put in their order, are the slice.

#[tactic(auto, unfolding(crate::specs::Bytes::bytes_of))]
pub fn put_u8(order: Order, b: &mut [u8], offset: u64, v: u8)
    requires { offset + 1 ≤ length b.old }
    ensures { take (offset + 1) b.new ≡ take offset b.old ++ bytes_of order 1 v }
{
    match order {
        Order::Little => LittleEndian::write_uint(
            &mut b[offset as usize..offset as usize + 1],
            v as u64,
            1,
        ),
        Order::Big => BigEndian::write_uint(
            &mut b[offset as usize..offset as usize + 1],
            v as u64,
            1,
        ),
    }
}

#[tactic(auto, unfolding(crate::specs::Bytes::bytes_of))]
pub fn put_u16(order: Order, b: &mut [u8], offset: u64, v: u16)
    requires { offset + 2 ≤ length b.old }
    ensures { take (offset + 2) b.new ≡ take offset b.old ++ bytes_of order 2 v }
{
    match order {
        Order::Little => LittleEndian::write_u16(&mut b[offset as usize..offset as usize + 2], v),
        Order::Big => BigEndian::write_u16(&mut b[offset as usize..offset as usize + 2], v),
    }
}

#[tactic(auto, unfolding(crate::specs::Bytes::bytes_of))]
pub fn put_u32(order: Order, b: &mut [u8], offset: u64, v: u32)
    requires { offset + 4 ≤ length b.old }
    ensures { take (offset + 4) b.new ≡ take offset b.old ++ bytes_of order 4 v }
{
    match order {
        Order::Little => LittleEndian::write_u32(&mut b[offset as usize..offset as usize + 4], v),
        Order::Big => BigEndian::write_u32(&mut b[offset as usize..offset as usize + 4], v),
    }
}

#[tactic(auto, unfolding(crate::specs::Bytes::bytes_of))]
pub fn put_u64(order: Order, b: &mut [u8], offset: u64, v: u64)
    requires { offset + 8 ≤ length b.old }
    ensures { take (offset + 8) b.new ≡ take offset b.old ++ bytes_of order 8 v }
{
    match order {
        Order::Little => LittleEndian::write_u64(&mut b[offset as usize..offset as usize + 8], v),
        Order::Big => BigEndian::write_u64(&mut b[offset as usize..offset as usize + 8], v),
    }
}

#[tactic(auto, unfolding(crate::specs::Bytes::bytes_of))]
pub fn put_i64(order: Order, b: &mut [u8], offset: u64, v: i64)
    requires { offset + 8 ≤ length b.old }
    ensures { take (offset + 8) b.new ≡ take offset b.old ++ bytes_of order 8 (cast_unsigned w64 v) }
{
    match order {
        Order::Little => LittleEndian::write_i64(&mut b[offset as usize..offset as usize + 8], v),
        Order::Big => BigEndian::write_i64(&mut b[offset as usize..offset as usize + 8], v),
    }
}
