//! Relocations without addends (gABI chapter 4, Relocation).
ghost use Rattle.std.specs.Prelude.{◌≡◌, ◌/◌, ◌%◌, ◌^◌, length};
ghost use Rattle.elf_field.specs.Entries.{IsRel, IsRelAt, rel_at, rel_bytes};
ghost use Rattle.elf_field.specs.laws.Entries.{rel_fields_at, rel_laws};
ghost use Rattle.elf_field.specs.Abi.{REL_SIZE};

use crate::abi::{R_INFO_AT, R_OFFSET_AT, REL_SIZE};
use crate::number::{Order, put_u64, u64_at};
use crate::record::Record;

/// A relocation without addend: one entry of a section of type REL.
/// 16 bytes (gABI chapter 4, Relocation).
#[derive(Clone, Copy, Debug, PartialEq, Eq)]
pub struct Rel {
    /// Where the relocation applies: in a relocatable file the offset in the target section, in bytes.
    pub r_offset: u64,
    /// Symbol table index and relocation type.
    pub r_info: u64,
}

impl Rel {
    /// The symbol table index of the symbol that the relocation refers to (`ELF64_R_SYM`).
    pub fn symbol(&self) -> u32
        ensures { result ≡ self.now.r_info / 2 ^ 32 }
    {
        let info = self.r_info;
        (info / (1 << 32)) as u32
    }

    /// The relocation's type (`ELF64_R_TYPE`), whose meaning is the processor's.
    pub fn relocation_type(&self) -> u32
        ensures { result ≡ self.now.r_info % 2 ^ 32 }
    {
        let info = self.r_info;
        (info % (1 << 32)) as u32
    }
}

impl Record for Rel {
    ghost use Rattle.elf_field.specs.Abi.{REL_SIZE};

    ghost SIZE = { REL_SIZE };

    ghost at = { rel_at };

    ghost bytes = { rel_bytes };

    ghost IsAt = { IsRelAt };

    ghost IsValid = { IsRel };

    ghost laws = { rel_laws };

    ghost fields_at = { rel_fields_at };

    const SIZE: usize = REL_SIZE as usize;

    // Each arm has the order as a constant, so that it is tested once a record.
    fn get(order: Order, b: &[u8]) -> Self {
        match order {
            Order::Little => read(Order::Little, b),
            Order::Big => read(Order::Big, b),
        }
    }

    fn put(&self, order: Order, b: &mut [u8]) {
        match order {
            Order::Little => write(self, Order::Little, b),
            Order::Big => write(self, Order::Big, b),
        }
    }

    fn fits(&self) {
        prove_fields(*self);
    }
}

fn read(order: Order, b: &[u8]) -> Rel
    requires { length b.now ≡ REL_SIZE }
    ensures { result ≡ rel_at order b.now 0 }
{
    Rel {
        r_offset: u64_at(order, b, R_OFFSET_AT),
        r_info: u64_at(order, b, R_INFO_AT),
    }
}

fn write(v: &Rel, order: Order, b: &mut [u8])
    requires { length b.old ≡ REL_SIZE }
    ensures { b.new ≡ rel_bytes order v.now }
{
    put_u64(order, b, R_OFFSET_AT, v.r_offset);
    put_u64(order, b, R_INFO_AT, v.r_info);
}

// A value's fields are within their widths because their types are.
fn prove_fields(v: Rel)
    ensures { IsRel v }
{
    let _ = v;
}
