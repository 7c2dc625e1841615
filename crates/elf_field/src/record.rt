//! What every record of a file has: its size, its bytes, and where its fields are (gABI chapter 4, Data Representation).
ghost use Rattle.std.specs.Prelude.{◌≡◌, ◌+◌, ◌≤◌, ℕ, List, length};
ghost use Rattle.elf_field.specs.Bytes.{IsBytes};
ghost use Rattle.elf_field.specs.Record.{IsRecord};

use crate::number::Order;

/// A record of fixed size: its fields at fixed offsets, in either byte order.
pub trait Record {
    ghost use Rattle.elf_field.specs.declared.number.Order.{Order};

    ghost SIZE: { ℕ };

    // the record at an offset of a list of bytes
    ghost at: { Order → List ℕ → ℕ → Self };

    // the record's bytes
    ghost bytes: { Order → Self → List ℕ };

    // the record's fields are at their offsets from an offset of a list of bytes
    ghost IsAt: { Order → List ℕ → ℕ → Self → Type 0 };

    // each field fits its width
    ghost IsValid: { Self → Type 0 };

    /// The record's size in bytes.
    const SIZE: usize;

    /// The record that `b` represents: each field as it is at its offset.
    fn get(order: Order, b: &[u8]) -> Self
        requires { length b.now ≡ SIZE }
        ensures { result ≡ at order b.now 0 };

    /// Writes the record: `b` is then exactly its bytes.
    fn put(&self, order: Order, b: &mut [u8])
        requires { length b.old ≡ SIZE }
        ensures { b.new ≡ bytes order self.now };

    /// Promises that each field of the record in hand fits its width. It does nothing.
    fn fits(&self)
        ensures { IsValid self.now };

    // What is written is read back, what is read is written back, and the other laws of records.
    ghost laws: { IsRecord SIZE at bytes IsValid };

    // Each field of the record at an offset is at its own after that.
    ghost fields_at: { (o : Order) (b : List ℕ) (x : ℕ) → x + SIZE ≤ length b → IsBytes b → IsAt o b x (at o b x) };
}

/// The record at an offset of a file's bytes, within which it has to end.
pub fn get_at<T: Record>(order: Order, bytes: &[u8], offset: usize) -> T
    requires { offset + T.SIZE ≤ length bytes.now }
    ensures value { result ≡ T.at order bytes.now offset }
    ensures fields { T.IsAt order bytes.now offset result }
{
    T::get(order, &bytes[offset..offset + T::SIZE])
}
