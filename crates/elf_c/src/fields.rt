//! The fields of records: which one a byte of a record is in (gABI chapter 4, ELF Header, Sections, Symbol Table, Relocation; chapter 5,
//! Program Header, Dynamic Section).
ghost use Rattle.std.specs.Prelude.{◌≡◌, ◌<◌, ◌^◌};
ghost use Rattle.elf_c.specs.Fields.{IsFieldAt, record_widths};
ghost use Rattle.elf_field.specs.Record.{width_of};

use elf_c_parts::Slot;

/// A kind of record.
#[derive(Clone, Copy, PartialEq, Eq)]
pub enum RecordKind {
    /// The ELF header.
    Ehdr,
    /// A section header.
    Shdr,
    /// A program header.
    Phdr,
    /// A symbol.
    Sym,
    /// A relocation with an addend.
    Rela,
    /// A relocation without one.
    Rel,
    /// An entry of a dynamic array.
    Dyn,
    /// A word of a group, an index table or a hash table.
    Word,
}

// The widths of their fields, one after the other. Each byte of `e_ident` is a field of its own.

const EHDR_WIDTHS: &[u64] = &[
    1, 1, 1, 1, 1, 1, 1, 1, 1, 1, 1, 1, 1, 1, 1, 1, 2, 2, 4, 8, 8, 8, 4, 2, 2, 2, 2, 2, 2,
];

const SHDR_WIDTHS: &[u64] = &[4, 4, 8, 8, 8, 8, 4, 4, 8, 8];

const PHDR_WIDTHS: &[u64] = &[4, 4, 8, 8, 8, 8, 8, 8];

const SYM_WIDTHS: &[u64] = &[4, 1, 1, 2, 8, 8];

const RELA_WIDTHS: &[u64] = &[8, 8, 8];

const REL_WIDTHS: &[u64] = &[8, 8];

const DYN_WIDTHS: &[u64] = &[8, 8];

const WORD_WIDTHS: &[u64] = &[4];

/// The field of a record that has its byte at this offset from its beginning, which is below its size.
pub fn field_at(kind: RecordKind, at: u64) -> Slot
    requires { at < width_of (record_widths kind) }
    ensures { IsFieldAt (record_widths kind) at result }
{
    field_in(widths_of(kind), at)
}

/// The widths of the fields of a record.
fn widths_of(kind: RecordKind) -> &'static [u64]
    ensures widths { result.now ≡ record_widths kind }
    ensures short { width_of result.now < 2 ^ 64 }
{
    match kind {
        RecordKind::Ehdr => EHDR_WIDTHS,
        RecordKind::Shdr => SHDR_WIDTHS,
        RecordKind::Phdr => PHDR_WIDTHS,
        RecordKind::Sym => SYM_WIDTHS,
        RecordKind::Rela => RELA_WIDTHS,
        RecordKind::Rel => REL_WIDTHS,
        RecordKind::Dyn => DYN_WIDTHS,
        RecordKind::Word => WORD_WIDTHS,
    }
}

/// Of fields of these widths, one after the other, the one that has the byte at this offset, which is below their sum.
pub fn field_in(widths: &[u64], at: u64) -> Slot
    requires short { width_of widths.now < 2 ^ 64 }
    requires inside { at < width_of widths.now }
    ensures { IsFieldAt widths.now at result }
{
    let mut start = 0;
    let mut k = 0;
    while start + widths[k] <= at {
        start += widths[k];
        k += 1;
    }
    Slot {
        start,
        len: widths[k],
    }
}
