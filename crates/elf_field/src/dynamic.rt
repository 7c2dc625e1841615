//! Entries of a dynamic array (gABI chapter 5, Dynamic Section).
ghost use Rattle.std.specs.Prelude.{◌≡◌, length};
ghost use Rattle.elf_field.specs.Entries.{IsDyn, IsDynAt, dyn_at, dyn_bytes};
ghost use Rattle.elf_field.specs.laws.Entries.{dyn_fields_at, dyn_laws};
ghost use Rattle.elf_field.specs.Abi.{DYN_SIZE};

use crate::abi::{D_TAG_AT, D_UN_AT, DYN_SIZE};
use crate::number::{Order, i64_at, put_i64, put_u64, u64_at};
use crate::record::Record;

/// An entry of the dynamic array.
/// 16 bytes (gABI chapter 5, Dynamic Section).
#[derive(Clone, Copy, Debug, PartialEq, Eq)]
pub struct Dyn {
    /// What the entry holds; two's complement.
    pub d_tag: i64,
    /// The entry's value or address, as its tag says.
    pub d_un: u64,
}

impl Record for Dyn {
    ghost use Rattle.elf_field.specs.Abi.{DYN_SIZE};

    ghost SIZE = { DYN_SIZE };

    ghost at = { dyn_at };

    ghost bytes = { dyn_bytes };

    ghost IsAt = { IsDynAt };

    ghost IsValid = { IsDyn };

    ghost laws = { dyn_laws };

    ghost fields_at = { dyn_fields_at };

    const SIZE: usize = DYN_SIZE as usize;

    // Each arm has the order as a constant, so that it is tested once a record.
    fn get(order: Order, b: &[u8]) -> Self {
        match order {
            Order::Little => read(Order::Little, b),
            Order::Big => read(Order::Big, b),
        }
    }

    fn put(&self, order: Order, b: &mut [u8]) {
        match order {
            Order::Little => write(self, Order::Little, b),
            Order::Big => write(self, Order::Big, b),
        }
    }

    fn fits(&self) {
        prove_fields(*self);
    }
}

fn read(order: Order, b: &[u8]) -> Dyn
    requires { length b.now ≡ DYN_SIZE }
    ensures { result ≡ dyn_at order b.now 0 }
{
    Dyn {
        d_tag: i64_at(order, b, D_TAG_AT),
        d_un: u64_at(order, b, D_UN_AT),
    }
}

fn write(v: &Dyn, order: Order, b: &mut [u8])
    requires { length b.old ≡ DYN_SIZE }
    ensures { b.new ≡ dyn_bytes order v.now }
{
    put_i64(order, b, D_TAG_AT, v.d_tag);
    put_u64(order, b, D_UN_AT, v.d_un);
}

// A value's fields are within their widths because their types are.
fn prove_fields(v: Dyn)
    ensures { IsDyn v }
{
    let _ = v;
}
