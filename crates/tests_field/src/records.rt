//! The records of elf_field.
ghost use Rattle.std.specs.Prelude.{◌≤◌};

use crate::asserts::assert_same;
use elf_field::{Dyn, Ehdr, Order, Phdr, Record, Rel, Rela, Shdr, Sym, abi, get_at};
use std::fmt::Debug;
use std::process::Abort;

// The header of an empty relocatable file, little-endian, and the same in big-endian.
const LITTLE_HEADER: &[u8; 64] = b"\x7fELF\x02\x01\x01\0\0\0\0\0\0\0\0\0\
    \x01\0\x3e\0\x01\0\0\0\0\0\0\0\0\0\0\0\0\0\0\0\0\0\0\0\0\0\0\0\0\0\0\0\
    \0\0\0\0\x40\0\0\0\0\0\0\0\0\0\0\0";

const BIG_HEADER: &[u8; 64] = b"\x7fELF\x02\x02\x01\0\0\0\0\0\0\0\0\0\
    \0\x01\0\x3e\0\0\0\x01\0\0\0\0\0\0\0\0\0\0\0\0\0\0\0\0\0\0\0\0\0\0\0\0\
    \0\0\0\0\0\x40\0\0\0\0\0\0\0\0\0\0";

const LITTLE_RELA: &[u8; 24] = b"\x01\0\0\0\0\0\0\0\x02\0\0\0\x01\0\0\0\
    \xfc\xff\xff\xff\xff\xff\xff\xff";

const BIG_RELA: &[u8; 24] = b"\0\0\0\0\0\0\0\x01\0\0\0\x01\0\0\0\x02\
    \xff\xff\xff\xff\xff\xff\xff\xfc";

// Each byte reports its offset, so a number reports where it was read.
const RULER: &[u8; 64] = b"\x00\x01\x02\x03\x04\x05\x06\x07\x08\x09\x0a\x0b\x0c\x0d\x0e\x0f\
    \x10\x11\x12\x13\x14\x15\x16\x17\x18\x19\x1a\x1b\x1c\x1d\x1e\x1f\
    \x20!\"#$%&'()*+,-./0123456789:;<=>?";

// What the ruler has at an offset, by its definition: offset, offset + 1, .. in the order asked for.
fn ruled(order: Order, offset: u64, width: u64) -> u64 {
    let mut number = 0u64;
    for i in 0..width {
        let place = match order {
            Order::Little => offset.wrapping_add(width.wrapping_sub(1).wrapping_sub(i)),
            Order::Big => offset.wrapping_add(i),
        };
        number = number.wrapping_mul(256).wrapping_add(place);
    }
    number
}

// The offset of the first of these fields, each a number, an offset and a width, that isn't what the ruler has there.
fn first_wrong(order: Order, fields: &[(u64, u64, u64)]) -> Option<u64> {
    for (number, offset, width) in fields {
        if *number != ruled(order, *offset, *width) {
            return Some(*offset);
        }
    }
    None
}

// What the record is written as, and zeros.
fn written<T: Record>(order: Order, record: &T) -> [u8; 64]
    requires { T.SIZE ≤ 64 }
{
    let mut bytes = [0; 64];
    record.fits();
    record.put(order, &mut bytes[..T::SIZE]);
    bytes
}

// The record at the start of the ruler, read through the bound. `get` reads the same one, and `put` writes the same bytes.
fn through_bound<T: Record + Copy + PartialEq + Debug>(rt: &impl Abort, order: Order) -> T
    requires { T.SIZE ≤ 64 }
{
    let bytes = &RULER[..T::SIZE];
    let record: T = get_at(order, RULER, 0);
    let copy = written(order, &record);
    assert_same(
        rt,
        (T::get(order, bytes), &copy[..T::SIZE]),
        (record, bytes),
    );
    record
}

// The example of the root of elf_field.
#[test]
fn writes_and_reads_an_entry(rt: HostRuntime) {
    let entry = Dyn {
        d_tag: abi::DT_NEEDED,
        d_un: 7,
    };
    let mut bytes = [0; 16];
    entry.put(Order::Big, &mut bytes);
    assert_same(
        &rt,
        (bytes, Dyn::get(Order::Big, &bytes)),
        ([0, 0, 0, 0, 0, 0, 0, 1, 0, 0, 0, 0, 0, 0, 0, 7], entry),
    );
}

/// The header of an empty relocatable file is in these bytes, which are what it is put back as.
fn assert_header(rt: &impl Abort, order: Order, bytes: &[u8; 64]) {
    let header = Ehdr::get(order, bytes);
    let mut copy = [0; 64];
    header.put(order, &mut copy);
    let kind = (header.e_type, header.e_machine, header.e_version);
    let sizes = (header.e_shoff, header.e_ehsize, header.e_shentsize);
    assert_same(
        rt,
        (header.e_ident.as_slice(), kind, sizes, copy.as_slice()),
        (&bytes[..16], (1, 62, 1), (0, 64, 0), bytes.as_slice()),
    );
}

#[test]
fn headers_in_both_orders(rt: HostRuntime) {
    assert_header(&rt, Order::Little, LITTLE_HEADER);
    assert_header(&rt, Order::Big, BIG_HEADER);
}

/// A relocation at 1 by symbol 1, of type 2, is in these bytes, which are what it is put back as.
fn assert_relocation(rt: &impl Abort, order: Order, bytes: &[u8; 24]) {
    let rela = Rela::get(order, bytes);
    let mut copy = [0; 24];
    rela.put(order, &mut copy);
    let info = (rela.symbol(), rela.relocation_type());
    assert_same(
        rt,
        (rela.r_offset, info, rela.r_addend, copy.as_slice()),
        (1, (1, 2), -4, bytes.as_slice()),
    );
}

#[test]
fn relocations_in_both_orders(rt: HostRuntime) {
    assert_relocation(&rt, Order::Little, LITTLE_RELA);
    assert_relocation(&rt, Order::Big, BIG_RELA);
}

#[test]
fn parts_of_info(rt: HostRuntime) {
    let sym = Sym {
        st_name: 1,
        st_info: 0x12,
        st_other: 0,
        st_shndx: 1,
        st_value: 0,
        st_size: 0,
    };
    let rel = Rel {
        r_offset: 0,
        r_info: 0x0000_0007_8000_0009,
    };
    let of_symbol = (sym.binding(), sym.symbol_type());
    let of_relocation = (rel.symbol(), rel.relocation_type());
    assert_same(&rt, (of_symbol, of_relocation), ((1, 2), (7, 0x8000_0009)));
}

/// The first field of a header that isn't where the ruler says. Asserts that the header begins with its 16 bytes of `e_ident`.
fn wrong_in_header(rt: &impl Abort, order: Order) -> Option<u64> {
    let record: Ehdr = through_bound(rt, order);
    assert_same(rt, record.e_ident.as_slice(), &RULER[..16]);
    first_wrong(
        order,
        &[
            (u64::from(record.e_type), 16, 2),
            (u64::from(record.e_machine), 18, 2),
            (u64::from(record.e_version), 20, 4),
            (record.e_entry, 24, 8),
            (record.e_phoff, 32, 8),
            (record.e_shoff, 40, 8),
            (u64::from(record.e_flags), 48, 4),
            (u64::from(record.e_ehsize), 52, 2),
            (u64::from(record.e_phentsize), 54, 2),
            (u64::from(record.e_phnum), 56, 2),
            (u64::from(record.e_shentsize), 58, 2),
            (u64::from(record.e_shnum), 60, 2),
            (u64::from(record.e_shstrndx), 62, 2),
        ],
    )
}

/// The first field of a section header that isn't where the ruler says.
fn wrong_in_section(rt: &impl Abort, order: Order) -> Option<u64> {
    let record: Shdr = through_bound(rt, order);
    first_wrong(
        order,
        &[
            (u64::from(record.sh_name), 0, 4),
            (u64::from(record.sh_type), 4, 4),
            (record.sh_flags, 8, 8),
            (record.sh_addr, 16, 8),
            (record.sh_offset, 24, 8),
            (record.sh_size, 32, 8),
            (u64::from(record.sh_link), 40, 4),
            (u64::from(record.sh_info), 44, 4),
            (record.sh_addralign, 48, 8),
            (record.sh_entsize, 56, 8),
        ],
    )
}

/// The first field of a program header that isn't where the ruler says.
fn wrong_in_segment(rt: &impl Abort, order: Order) -> Option<u64> {
    let record: Phdr = through_bound(rt, order);
    first_wrong(
        order,
        &[
            (u64::from(record.p_type), 0, 4),
            (u64::from(record.p_flags), 4, 4),
            (record.p_offset, 8, 8),
            (record.p_vaddr, 16, 8),
            (record.p_paddr, 24, 8),
            (record.p_filesz, 32, 8),
            (record.p_memsz, 40, 8),
            (record.p_align, 48, 8),
        ],
    )
}

/// The first field of a symbol that isn't where the ruler says.
fn wrong_in_symbol(rt: &impl Abort, order: Order) -> Option<u64> {
    let record: Sym = through_bound(rt, order);
    first_wrong(
        order,
        &[
            (u64::from(record.st_name), 0, 4),
            (u64::from(record.st_info), 4, 1),
            (u64::from(record.st_other), 5, 1),
            (u64::from(record.st_shndx), 6, 2),
            (record.st_value, 8, 8),
            (record.st_size, 16, 8),
        ],
    )
}

/// The first field of a relocation that isn't where the ruler says.
fn wrong_in_rel(rt: &impl Abort, order: Order) -> Option<u64> {
    let record: Rel = through_bound(rt, order);
    first_wrong(order, &[(record.r_offset, 0, 8), (record.r_info, 8, 8)])
}

/// The first field of a relocation with an addend that isn't where the ruler says.
fn wrong_in_rela(rt: &impl Abort, order: Order) -> Option<u64> {
    let record: Rela = through_bound(rt, order);
    first_wrong(
        order,
        &[
            (record.r_offset, 0, 8),
            (record.r_info, 8, 8),
            (record.r_addend.cast_unsigned(), 16, 8),
        ],
    )
}

/// The first field of an entry of the dynamic array that isn't where the ruler says.
fn wrong_in_entry(rt: &impl Abort, order: Order) -> Option<u64> {
    let record: Dyn = through_bound(rt, order);
    first_wrong(
        order,
        &[(record.d_tag.cast_unsigned(), 0, 8), (record.d_un, 8, 8)],
    )
}

/// Each record has its fields where the ruler says.
fn assert_layouts(rt: &impl Abort, order: Order) {
    let wrong = [
        wrong_in_header(rt, order),
        wrong_in_section(rt, order),
        wrong_in_segment(rt, order),
        wrong_in_symbol(rt, order),
        wrong_in_rel(rt, order),
        wrong_in_rela(rt, order),
        wrong_in_entry(rt, order),
    ];
    assert_same(rt, wrong, [None; 7]);
}

#[test]
fn each_record_has_its_fields_where_the_ruler_says(rt: HostRuntime) {
    assert_layouts(&rt, Order::Little);
    assert_layouts(&rt, Order::Big);
}

#[test]
fn words(rt: HostRuntime) {
    let word: u32 = through_bound(&rt, Order::Little);
    let other = get_at::<u32>(Order::Big, RULER, 5);
    assert_same(&rt, (word, other), (0x0302_0100, 0x0506_0708));
}
