//! Program headers (gABI chapter 5, Program Header).
ghost use Rattle.std.specs.Prelude.{◌≡◌, length};
ghost use Rattle.elf_field.specs.Headers.{IsPhdr, IsPhdrAt, phdr_at, phdr_bytes};
ghost use Rattle.elf_field.specs.laws.Headers.{phdr_fields_at, phdr_laws};
ghost use Rattle.elf_field.specs.Abi.{PHDR_SIZE};

use crate::abi::{
    P_ALIGN_AT, P_FILESZ_AT, P_FLAGS_AT, P_MEMSZ_AT, P_OFFSET_AT, P_PADDR_AT, P_TYPE_AT,
    P_VADDR_AT, PHDR_SIZE,
};
use crate::number::{Order, put_u32, put_u64, u32_at, u64_at};
use crate::record::Record;

/// A program header: one entry of the program header table, a segment.
/// 56 bytes (gABI chapter 5, Program Header).
#[derive(Clone, Copy, Debug, PartialEq, Eq)]
pub struct Phdr {
    /// What kind of segment this is.
    pub p_type: u32,
    /// Permissions, one bit each.
    pub p_flags: u32,
    /// Offset of the segment's first byte in the file.
    pub p_offset: u64,
    /// Virtual address of the segment's first byte in memory.
    pub p_vaddr: u64,
    /// Physical address, where that is relevant.
    pub p_paddr: u64,
    /// Number of bytes of the segment in the file.
    pub p_filesz: u64,
    /// Number of bytes of the segment in memory.
    pub p_memsz: u64,
    /// Alignment in memory and in the file: 0 and 1 ask for none.
    pub p_align: u64,
}

impl Record for Phdr {
    ghost use Rattle.elf_field.specs.Abi.{PHDR_SIZE};

    ghost SIZE = { PHDR_SIZE };

    ghost at = { phdr_at };

    ghost bytes = { phdr_bytes };

    ghost IsAt = { IsPhdrAt };

    ghost IsValid = { IsPhdr };

    ghost laws = { phdr_laws };

    ghost fields_at = { phdr_fields_at };

    const SIZE: usize = PHDR_SIZE as usize;

    // Each arm has the order as a constant, so that it is tested once a record.
    fn get(order: Order, b: &[u8]) -> Self {
        match order {
            Order::Little => read(Order::Little, b),
            Order::Big => read(Order::Big, b),
        }
    }

    fn put(&self, order: Order, b: &mut [u8]) {
        match order {
            Order::Little => write(self, Order::Little, b),
            Order::Big => write(self, Order::Big, b),
        }
    }

    fn fits(&self) {
        prove_fields(*self);
    }
}

fn read(order: Order, b: &[u8]) -> Phdr
    requires { length b.now ≡ PHDR_SIZE }
    ensures { result ≡ phdr_at order b.now 0 }
{
    Phdr {
        p_type: u32_at(order, b, P_TYPE_AT),
        p_flags: u32_at(order, b, P_FLAGS_AT),
        p_offset: u64_at(order, b, P_OFFSET_AT),
        p_vaddr: u64_at(order, b, P_VADDR_AT),
        p_paddr: u64_at(order, b, P_PADDR_AT),
        p_filesz: u64_at(order, b, P_FILESZ_AT),
        p_memsz: u64_at(order, b, P_MEMSZ_AT),
        p_align: u64_at(order, b, P_ALIGN_AT),
    }
}

fn write(v: &Phdr, order: Order, b: &mut [u8])
    requires { length b.old ≡ PHDR_SIZE }
    ensures { b.new ≡ phdr_bytes order v.now }
{
    put_u32(order, b, P_TYPE_AT, v.p_type);
    put_u32(order, b, P_FLAGS_AT, v.p_flags);
    put_u64(order, b, P_OFFSET_AT, v.p_offset);
    put_u64(order, b, P_VADDR_AT, v.p_vaddr);
    put_u64(order, b, P_PADDR_AT, v.p_paddr);
    put_u64(order, b, P_FILESZ_AT, v.p_filesz);
    put_u64(order, b, P_MEMSZ_AT, v.p_memsz);
    put_u64(order, b, P_ALIGN_AT, v.p_align);
}

// A value's fields are within their widths because their types are.
fn prove_fields(v: Phdr)
    ensures { IsPhdr v }
{
    let _ = v;
}
