//! Section headers (gABI chapter 4, Sections).
ghost use Rattle.std.specs.Prelude.{◌≡◌, length};
ghost use Rattle.elf_field.specs.Headers.{IsShdr, IsShdrAt, shdr_at, shdr_bytes};
ghost use Rattle.elf_field.specs.laws.Headers.{shdr_fields_at, shdr_laws};
ghost use Rattle.elf_field.specs.Abi.{SHDR_SIZE};

use crate::abi::{
    SH_ADDR_AT, SH_ADDRALIGN_AT, SH_ENTSIZE_AT, SH_FLAGS_AT, SH_INFO_AT, SH_LINK_AT, SH_NAME_AT,
    SH_OFFSET_AT, SH_SIZE_AT, SH_TYPE_AT, SHDR_SIZE,
};
use crate::number::{Order, put_u32, put_u64, u32_at, u64_at};
use crate::record::Record;

/// A section header: one entry of the section header table.
/// 64 bytes (gABI chapter 4, Sections).
#[derive(Clone, Copy, Debug, PartialEq, Eq)]
pub struct Shdr {
    /// Offset of the section's name in the section name string table.
    pub sh_name: u32,
    /// What the section's contents mean.
    pub sh_type: u32,
    /// Attributes, one bit each.
    pub sh_flags: u64,
    /// Address of the section's first byte in memory, 0 for none.
    pub sh_addr: u64,
    /// Offset of the section's first byte in the file.
    pub sh_offset: u64,
    /// Size of the section in bytes.
    pub sh_size: u64,
    /// A section header table index whose meaning depends on the type.
    pub sh_link: u32,
    /// Extra information whose meaning depends on the type.
    pub sh_info: u32,
    /// Address alignment: 0 and 1 ask for none.
    pub sh_addralign: u64,
    /// Size of one entry in bytes, for a section that is a table; else 0.
    pub sh_entsize: u64,
}

impl Record for Shdr {
    ghost use Rattle.elf_field.specs.Abi.{SHDR_SIZE};

    ghost SIZE = { SHDR_SIZE };

    ghost at = { shdr_at };

    ghost bytes = { shdr_bytes };

    ghost IsAt = { IsShdrAt };

    ghost IsValid = { IsShdr };

    ghost laws = { shdr_laws };

    ghost fields_at = { shdr_fields_at };

    const SIZE: usize = SHDR_SIZE as usize;

    // Each arm has the order as a constant, so that it is tested once a record.
    fn get(order: Order, b: &[u8]) -> Self {
        match order {
            Order::Little => read(Order::Little, b),
            Order::Big => read(Order::Big, b),
        }
    }

    fn put(&self, order: Order, b: &mut [u8]) {
        match order {
            Order::Little => write(self, Order::Little, b),
            Order::Big => write(self, Order::Big, b),
        }
    }

    fn fits(&self) {
        prove_fields(*self);
    }
}

fn read(order: Order, b: &[u8]) -> Shdr
    requires { length b.now ≡ SHDR_SIZE }
    ensures { result ≡ shdr_at order b.now 0 }
{
    Shdr {
        sh_name: u32_at(order, b, SH_NAME_AT),
        sh_type: u32_at(order, b, SH_TYPE_AT),
        sh_flags: u64_at(order, b, SH_FLAGS_AT),
        sh_addr: u64_at(order, b, SH_ADDR_AT),
        sh_offset: u64_at(order, b, SH_OFFSET_AT),
        sh_size: u64_at(order, b, SH_SIZE_AT),
        sh_link: u32_at(order, b, SH_LINK_AT),
        sh_info: u32_at(order, b, SH_INFO_AT),
        sh_addralign: u64_at(order, b, SH_ADDRALIGN_AT),
        sh_entsize: u64_at(order, b, SH_ENTSIZE_AT),
    }
}

fn write(v: &Shdr, order: Order, b: &mut [u8])
    requires { length b.old ≡ SHDR_SIZE }
    ensures { b.new ≡ shdr_bytes order v.now }
{
    put_u32(order, b, SH_NAME_AT, v.sh_name);
    put_u32(order, b, SH_TYPE_AT, v.sh_type);
    put_u64(order, b, SH_FLAGS_AT, v.sh_flags);
    put_u64(order, b, SH_ADDR_AT, v.sh_addr);
    put_u64(order, b, SH_OFFSET_AT, v.sh_offset);
    put_u64(order, b, SH_SIZE_AT, v.sh_size);
    put_u32(order, b, SH_LINK_AT, v.sh_link);
    put_u32(order, b, SH_INFO_AT, v.sh_info);
    put_u64(order, b, SH_ADDRALIGN_AT, v.sh_addralign);
    put_u64(order, b, SH_ENTSIZE_AT, v.sh_entsize);
}

// A value's fields are within their widths because their types are.
fn prove_fields(v: Shdr)
    ensures { IsShdr v }
{
    let _ = v;
}
