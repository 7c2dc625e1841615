//! Relocations with addends (gABI chapter 4, Relocation).
ghost use Rattle.std.specs.Prelude.{◌≡◌, ◌/◌, ◌%◌, ◌^◌, length};
ghost use Rattle.elf_field.specs.Entries.{IsRela, IsRelaAt, rela_at, rela_bytes};
ghost use Rattle.elf_field.specs.laws.Entries.{rela_fields_at, rela_laws};
ghost use Rattle.elf_field.specs.Abi.{RELA_SIZE};

use crate::abi::{R_ADDEND_AT, R_INFO_AT, R_OFFSET_AT, RELA_SIZE};
use crate::number::{Order, i64_at, put_i64, put_u64, u64_at};
use crate::record::Record;

/// A relocation with addend: one entry of a section of type RELA.
/// 24 bytes (gABI chapter 4, Relocation).
#[derive(Clone, Copy, Debug, PartialEq, Eq)]
pub struct Rela {
    /// Where the relocation applies: in a relocatable file the offset in the target section, in bytes.
    pub r_offset: u64,
    /// Symbol table index and relocation type.
    pub r_info: u64,
    /// Constant that is added to the value to be stored.
    pub r_addend: i64,
}

impl Rela {
    /// The symbol table index of the symbol that the relocation refers to (`ELF64_R_SYM`).
    pub fn symbol(&self) -> u32
        ensures { result ≡ self.now.r_info / 2 ^ 32 }
    {
        let info = self.r_info;
        (info / (1 << 32)) as u32
    }

    /// The relocation's type (`ELF64_R_TYPE`), whose meaning is the processor's.
    pub fn relocation_type(&self) -> u32
        ensures { result ≡ self.now.r_info % 2 ^ 32 }
    {
        let info = self.r_info;
        (info % (1 << 32)) as u32
    }
}

impl Record for Rela {
    ghost use Rattle.elf_field.specs.Abi.{RELA_SIZE};

    ghost SIZE = { RELA_SIZE };

    ghost at = { rela_at };

    ghost bytes = { rela_bytes };

    ghost IsAt = { IsRelaAt };

    ghost IsValid = { IsRela };

    ghost laws = { rela_laws };

    ghost fields_at = { rela_fields_at };

    const SIZE: usize = RELA_SIZE as usize;

    // Each arm has the order as a constant, so that it is tested once a record.
    fn get(order: Order, b: &[u8]) -> Self {
        match order {
            Order::Little => read(Order::Little, b),
            Order::Big => read(Order::Big, b),
        }
    }

    fn put(&self, order: Order, b: &mut [u8]) {
        match order {
            Order::Little => write(self, Order::Little, b),
            Order::Big => write(self, Order::Big, b),
        }
    }

    fn fits(&self) {
        prove_fields(*self);
    }
}

fn read(order: Order, b: &[u8]) -> Rela
    requires { length b.now ≡ RELA_SIZE }
    ensures { result ≡ rela_at order b.now 0 }
{
    Rela {
        r_offset: u64_at(order, b, R_OFFSET_AT),
        r_info: u64_at(order, b, R_INFO_AT),
        r_addend: i64_at(order, b, R_ADDEND_AT),
    }
}

fn write(v: &Rela, order: Order, b: &mut [u8])
    requires { length b.old ≡ RELA_SIZE }
    ensures { b.new ≡ rela_bytes order v.now }
{
    put_u64(order, b, R_OFFSET_AT, v.r_offset);
    put_u64(order, b, R_INFO_AT, v.r_info);
    put_i64(order, b, R_ADDEND_AT, v.r_addend);
}

// A value's fields are within their widths because their types are.
fn prove_fields(v: Rela)
    ensures { IsRela v }
{
    let _ = v;
}
