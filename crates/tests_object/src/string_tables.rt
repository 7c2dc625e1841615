//! The tables of elf_object_strings.
use crate::asserts::assert_same;
use elf_object_strings::shared_table;
use std::alloc::Global;
use std::process::Abort;

/// The table of these names has these bytes and offsets.
fn assert_table(rt: &impl Abort, alloc: Global, names: &[&[u8]], bytes: &[u8], offsets: &[u64]) {
    let expected = Ok((bytes, offsets));
    match shared_table(alloc, names) {
        Ok(shared) => assert_same(
            rt,
            Ok((shared.bytes.as_slice(), shared.offsets.as_slice())),
            expected,
        ),
        Err(fault) => assert_same(rt, Err(fault), expected),
    }
}

// The example of the root of elf_object_strings.
#[test]
fn names_share_the_longest(rt: HostRuntime) {
    let names: [&[u8]; 6] = [b"b", b"ab", b"", b"ab", b"cab", b"x"];
    let offsets = [3, 2, 0, 2, 1, 5];
    assert_table(&rt, rt.alloc(), &names, b"\0cab\0x\0", &offsets);
}

// `b` ends two names, and is read in the first of them; `a` begins one, and has bytes of its own.
#[test]
fn the_lowest_offset_counts(rt: HostRuntime) {
    let ends: [&[u8]; 3] = [b"ab", b"cb", b"b"];
    assert_table(&rt, rt.alloc(), &ends, b"\0ab\0cb\0", &[1, 4, 2]);
    let begins: [&[u8]; 2] = [b"ab", b"a"];
    assert_table(&rt, rt.alloc(), &begins, b"\0ab\0a\0", &[1, 4]);
}

// Without a name, and with empty names alone, a table is one zero.
#[test]
fn empty_names_take_one_zero(rt: HostRuntime) {
    let empty: [&[u8]; 2] = [b"", b""];
    assert_table(&rt, rt.alloc(), &[], &[0], &[]);
    assert_table(&rt, rt.alloc(), &empty, &[0], &[0, 0]);
}

// Names that differ after many equal last bytes.
#[test]
fn long_names_differ_at_their_beginnings(rt: HostRuntime) {
    let long = b"0123456789012345678901234567890123456789";
    let names: [&[u8]; 3] = [
        b"x123456789012345678901234567890123456789",
        long,
        &long[1..],
    ];
    let bytes =
        b"\0x123456789012345678901234567890123456789\00123456789012345678901234567890123456789\0";
    assert_table(&rt, rt.alloc(), &names, bytes, &[1, 42, 2]);
}

// The section names of an empty object.
#[test]
fn section_names_of_an_empty_object(rt: HostRuntime) {
    let names: [&[u8]; 3] = [b".symtab", b".strtab", b".shstrtab"];
    let bytes = b"\0.symtab\0.strtab\0.shstrtab\0";
    assert_table(&rt, rt.alloc(), &names, bytes, &[1, 9, 17]);
}
