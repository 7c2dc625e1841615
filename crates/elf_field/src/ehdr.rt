//! The header of a file (gABI chapter 4, ELF Header).
ghost use Rattle.std.specs.Prelude.{◌≡◌, length, ◌≤◌, take};
ghost use Rattle.elf_field.specs.Bytes.{first_bytes};
ghost use Rattle.elf_field.specs.Headers.{IsEhdr, IsEhdrAt, ehdr_at, ehdr_bytes};
ghost use Rattle.elf_field.specs.laws.Headers.{ehdr_fields_at, ehdr_laws};
ghost use Rattle.elf_field.specs.Abi.{EHDR_SIZE};

use crate::abi::{
    E_EHSIZE_AT, E_ENTRY_AT, E_FLAGS_AT, E_MACHINE_AT, E_PHENTSIZE_AT, E_PHNUM_AT, E_PHOFF_AT,
    E_SHENTSIZE_AT, E_SHNUM_AT, E_SHOFF_AT, E_SHSTRNDX_AT, E_TYPE_AT, E_VERSION_AT, EHDR_SIZE,
    EI_NIDENT,
};
use crate::number::{Order, put_u16, put_u32, put_u64, u16_at, u32_at, u64_at};
use crate::record::Record;

/// The ELF header: a road map of the file, at its beginning.
/// 64 bytes (gABI chapter 4, ELF Header).
#[derive(Clone, Copy, Debug, PartialEq, Eq)]
pub struct Ehdr {
    /// Identification: magic, class, data encoding, version, OS/ABI, ABI version and padding.
    pub e_ident: [u8; EI_NIDENT],
    /// Object file type.
    pub e_type: u16,
    /// Required architecture; kept, never interpreted.
    pub e_machine: u16,
    /// Object file version.
    pub e_version: u32,
    /// Virtual address at which the system first transfers control, 0 for none.
    pub e_entry: u64,
    /// Offset of the program header table in the file, in bytes; 0 for none.
    pub e_phoff: u64,
    /// Offset of the section header table in the file, in bytes; 0 for none.
    pub e_shoff: u64,
    /// Processor-specific flags; kept, never interpreted.
    pub e_flags: u32,
    /// Size of the ELF header in bytes.
    pub e_ehsize: u16,
    /// Size of one entry of the program header table in bytes.
    pub e_phentsize: u16,
    /// Number of entries of the program header table; 0xffff says that it is in section header 0.
    pub e_phnum: u16,
    /// Size of one entry of the section header table in bytes.
    pub e_shentsize: u16,
    /// Number of entries of the section header table; 0 says that it is in section header 0.
    pub e_shnum: u16,
    /// Section header table index of the section name string table; 0xffff says that it is in section header 0.
    pub e_shstrndx: u16,
}

impl Record for Ehdr {
    ghost use Rattle.elf_field.specs.Abi.{EHDR_SIZE};

    ghost SIZE = { EHDR_SIZE };

    ghost at = { ehdr_at };

    ghost bytes = { ehdr_bytes };

    ghost IsAt = { IsEhdrAt };

    ghost IsValid = { IsEhdr };

    ghost laws = { ehdr_laws };

    ghost fields_at = { ehdr_fields_at };

    const SIZE: usize = EHDR_SIZE as usize;

    // Each arm has the order as a constant, so that it is tested once a record.
    fn get(order: Order, b: &[u8]) -> Self {
        match order {
            Order::Little => read(Order::Little, b),
            Order::Big => read(Order::Big, b),
        }
    }

    fn put(&self, order: Order, b: &mut [u8]) {
        match order {
            Order::Little => write(self, Order::Little, b),
            Order::Big => write(self, Order::Big, b),
        }
    }

    fn fits(&self) {
        prove_fields(*self);
    }
}

// The identification bytes at the beginning of the slice.
fn ident_at(b: &[u8]) -> [u8; EI_NIDENT]
    requires { EI_NIDENT ≤ length b.now }
    ensures { result ≡ first_bytes EI_NIDENT b.now }
{
    let mut e_ident = [0; EI_NIDENT];
    e_ident.copy_from_slice(&b[..EI_NIDENT]);
    e_ident
}

fn put_ident(b: &mut [u8], e_ident: [u8; EI_NIDENT])
    requires { EI_NIDENT ≤ length b.old }
    ensures { take EI_NIDENT b.new ≡ first_bytes EI_NIDENT e_ident }
{
    b[..EI_NIDENT].copy_from_slice(&e_ident);
}

fn read(order: Order, b: &[u8]) -> Ehdr
    requires { length b.now ≡ EHDR_SIZE }
    ensures { result ≡ ehdr_at order b.now 0 }
{
    Ehdr {
        e_ident: ident_at(b),
        e_type: u16_at(order, b, E_TYPE_AT),
        e_machine: u16_at(order, b, E_MACHINE_AT),
        e_version: u32_at(order, b, E_VERSION_AT),
        e_entry: u64_at(order, b, E_ENTRY_AT),
        e_phoff: u64_at(order, b, E_PHOFF_AT),
        e_shoff: u64_at(order, b, E_SHOFF_AT),
        e_flags: u32_at(order, b, E_FLAGS_AT),
        e_ehsize: u16_at(order, b, E_EHSIZE_AT),
        e_phentsize: u16_at(order, b, E_PHENTSIZE_AT),
        e_phnum: u16_at(order, b, E_PHNUM_AT),
        e_shentsize: u16_at(order, b, E_SHENTSIZE_AT),
        e_shnum: u16_at(order, b, E_SHNUM_AT),
        e_shstrndx: u16_at(order, b, E_SHSTRNDX_AT),
    }
}

fn write(v: &Ehdr, order: Order, b: &mut [u8])
    requires { length b.old ≡ EHDR_SIZE }
    ensures { b.new ≡ ehdr_bytes order v.now }
{
    put_ident(b, v.e_ident);
    put_u16(order, b, E_TYPE_AT, v.e_type);
    put_u16(order, b, E_MACHINE_AT, v.e_machine);
    put_u32(order, b, E_VERSION_AT, v.e_version);
    put_u64(order, b, E_ENTRY_AT, v.e_entry);
    put_u64(order, b, E_PHOFF_AT, v.e_phoff);
    put_u64(order, b, E_SHOFF_AT, v.e_shoff);
    put_u32(order, b, E_FLAGS_AT, v.e_flags);
    put_u16(order, b, E_EHSIZE_AT, v.e_ehsize);
    put_u16(order, b, E_PHENTSIZE_AT, v.e_phentsize);
    put_u16(order, b, E_PHNUM_AT, v.e_phnum);
    put_u16(order, b, E_SHENTSIZE_AT, v.e_shentsize);
    put_u16(order, b, E_SHNUM_AT, v.e_shnum);
    put_u16(order, b, E_SHSTRNDX_AT, v.e_shstrndx);
}

// A value's fields are within their widths because their types are.
fn prove_fields(v: Ehdr)
    ensures { IsEhdr v }
{
    let _ = v;
}
