//! Symbols (gABI chapter 4, Symbol Table).
ghost use Rattle.std.specs.Prelude.{◌≡◌, ◌/◌, ◌%◌, length};
ghost use Rattle.elf_field.specs.Entries.{IsSym, IsSymAt, sym_at, sym_bytes};
ghost use Rattle.elf_field.specs.laws.Entries.{sym_fields_at, sym_laws};
ghost use Rattle.elf_field.specs.Abi.{SYM_SIZE};

use crate::abi::{
    ST_INFO_AT, ST_NAME_AT, ST_OTHER_AT, ST_SHNDX_AT, ST_SIZE_AT, ST_VALUE_AT, SYM_SIZE,
};
use crate::number::{Order, put_u8, put_u16, put_u32, put_u64, u8_at, u16_at, u32_at, u64_at};
use crate::record::Record;

/// A symbol: one entry of a symbol table.
/// 24 bytes (gABI chapter 4, Symbol Table).
#[derive(Clone, Copy, Debug, PartialEq, Eq)]
pub struct Sym {
    /// Offset of the symbol's name in the linked string table.
    pub st_name: u32,
    /// Binding and type.
    pub st_info: u8,
    /// Visibility; kept, never interpreted.
    pub st_other: u8,
    /// Section header table index of the section that defines the symbol, or a reserved index.
    pub st_shndx: u16,
    /// Value: an address, an offset in a section, or the alignment of a common symbol.
    pub st_value: u64,
    /// Size in bytes, 0 if it is unknown or there is none.
    pub st_size: u64,
}

impl Sym {
    /// The symbol's binding (`ELF64_ST_BIND`): 0 local, 1 global, 2 weak.
    pub fn binding(&self) -> u8
        ensures { result ≡ self.now.st_info / 16 }
    {
        self.st_info / 16
    }

    /// The symbol's type (`ELF64_ST_TYPE`).
    pub fn symbol_type(&self) -> u8
        ensures { result ≡ self.now.st_info % 16 }
    {
        self.st_info % 16
    }
}

impl Record for Sym {
    ghost use Rattle.elf_field.specs.Abi.{SYM_SIZE};

    ghost SIZE = { SYM_SIZE };

    ghost at = { sym_at };

    ghost bytes = { sym_bytes };

    ghost IsAt = { IsSymAt };

    ghost IsValid = { IsSym };

    ghost laws = { sym_laws };

    ghost fields_at = { sym_fields_at };

    const SIZE: usize = SYM_SIZE as usize;

    // Each arm has the order as a constant, so that it is tested once a record.
    fn get(order: Order, b: &[u8]) -> Self {
        match order {
            Order::Little => read(Order::Little, b),
            Order::Big => read(Order::Big, b),
        }
    }

    fn put(&self, order: Order, b: &mut [u8]) {
        match order {
            Order::Little => write(self, Order::Little, b),
            Order::Big => write(self, Order::Big, b),
        }
    }

    fn fits(&self) {
        prove_fields(*self);
    }
}

fn read(order: Order, b: &[u8]) -> Sym
    requires { length b.now ≡ SYM_SIZE }
    ensures { result ≡ sym_at order b.now 0 }
{
    Sym {
        st_name: u32_at(order, b, ST_NAME_AT),
        st_info: u8_at(order, b, ST_INFO_AT),
        st_other: u8_at(order, b, ST_OTHER_AT),
        st_shndx: u16_at(order, b, ST_SHNDX_AT),
        st_value: u64_at(order, b, ST_VALUE_AT),
        st_size: u64_at(order, b, ST_SIZE_AT),
    }
}

fn write(v: &Sym, order: Order, b: &mut [u8])
    requires { length b.old ≡ SYM_SIZE }
    ensures { b.new ≡ sym_bytes order v.now }
{
    put_u32(order, b, ST_NAME_AT, v.st_name);
    put_u8(order, b, ST_INFO_AT, v.st_info);
    put_u8(order, b, ST_OTHER_AT, v.st_other);
    put_u16(order, b, ST_SHNDX_AT, v.st_shndx);
    put_u64(order, b, ST_VALUE_AT, v.st_value);
    put_u64(order, b, ST_SIZE_AT, v.st_size);
}

// A value's fields are within their widths because their types are.
fn prove_fields(v: Sym)
    ensures { IsSym v }
{
    let _ = v;
}
