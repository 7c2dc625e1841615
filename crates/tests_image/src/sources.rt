//! Files that are read through sources and readers over other ones.
use crate::asserts::assert_same;
use elf_field::Order;
use elf_image_outline::scan;
use elf_image_sources::{JoinFault, Joined, Patched, ShortReads};
use elf_image_stream::{Fault, read_to_end};
use std::alloc::Global;
use tests_files::{OnceFailingReader, one_section};

/// How long a file is that lies in these lists, with one byte changed; or the rule that it breaks. Five bytes of it are read a call.
fn scanned_length(
    alloc: Global,
    lists: &[&[u8]],
    at: u64,
    value: u8,
) -> Result<Result<u64, Fault>, JoinFault> {
    let joined = Joined::new(alloc, lists)?;
    let mut source = ShortReads::new(Patched::new(joined, at, value), 5);
    Ok(match scan(alloc, &mut source) {
        Ok(outline) => Ok(outline.len()),
        Err(fault) => Err(fault),
    })
}

// The class of the file is 2. No byte is at offset 456.
#[test]
fn a_file_in_pieces_is_scanned(rt: HostRuntime) {
    let alloc = rt.alloc();
    let file = one_section(Order::Little);
    let (front, rest) = file.split_at(70);
    let (middle, end) = rest.split_at(1);
    let lists = [&[], front, middle, &[], end, &[]];
    let found = [
        scanned_length(alloc, &lists, 4, 2),
        scanned_length(alloc, &lists, 4, 1),
        scanned_length(alloc, &lists, 456, 1),
        scanned_length(alloc, &[], 0, 0x7f),
    ];
    let expected = [
        Ok(Ok(456)),
        Ok(Err(Fault::Rule { rule: 4, at: 4 })),
        Ok(Ok(456)),
        Ok(Err(Fault::Rule { rule: 2, at: 0 })),
    ];
    assert_same(&rt, found, expected);
}

/// What reading comes to, a byte a call, of a reader of which this call fails; and how many bytes it gave.
fn read_failing(alloc: Global, failing: u64) -> (Result<(), Fault>, usize) {
    let inner = OnceFailingReader::new(b"abcdefgh", 4, failing);
    let mut buf = Vec::new(alloc);
    let answer = read_to_end(&mut ShortReads::new(inner, 0), &mut buf);
    (answer, buf.len())
}

// Each call is one of the other reader, and fails only if that one fails.
#[test]
fn a_short_read_fails_as_the_reader_does(rt: HostRuntime) {
    let found = [read_failing(rt.alloc(), 0), read_failing(rt.alloc(), 3)];
    let expected = [(Ok(()), 8), (Err(Fault::Io { at: 2 }), 2)];
    assert_same(&rt, found, expected);
}
