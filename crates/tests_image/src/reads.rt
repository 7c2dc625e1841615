//! Records and whole files that are read.
ghost use Rattle.std.specs.Prelude.{◌≤◌};

use crate::asserts::assert_same;
use elf_field::{Order, Rel};
use elf_image_outline::{RecordsFault, read_ends, read_record, read_records};
use elf_image_rules::TableEnds;
use elf_image_stream::{
    Bytes, Failed, Failures, Fault, Opened, ReadFault, Seeking, Source, read_exactly, read_to_end,
    resume,
};
use std::alloc::Global;
use std::io;
use std::io::{Cursor, ErrorKind, Read, Seek, SeekFrom};
use std::process::Abort;
use tests_files::{OnceFailingReader, PartialSource, one_section};

// Readers.

/// What a reading comes to: its answer, how many bytes the buffer holds, whether they are the front of the file, and the calls so far.
type Reading = (Result<(), Fault>, usize, bool, u64);

fn reading(answer: Result<(), Fault>, buf: &[u8], file: &[u8], calls: u64) -> Reading {
    let is_front = buf == &file[..buf.len().min(file.len())];
    (answer, buf.len(), is_front, calls)
}

/// The reading of a file that gives so many bytes a call, of which one alone fails; and the reading of the rest after that.
fn read_and_resumed(alloc: Global, file: &[u8], piece: usize, failing: u64) -> [Reading; 2] {
    let mut reader = OnceFailingReader::new(file, piece, failing);
    let mut buf = Vec::new(alloc);
    let answer = read_to_end(&mut reader, &mut buf);
    let first = reading(answer, &buf, file, reader.calls);
    let answer = resume(&mut reader, &mut buf);
    [first, reading(answer, &buf, file, reader.calls)]
}

/// How many bytes a call gives, and which call fails; the bytes before that call, where there is one; and the calls of the first reading,
/// and of both. The last call of a reading gives no byte.
const READINGS: &[(usize, u64, Option<usize>, [u64; 2])] = &[
    (1, 0, None, [457, 458]),
    (100, 2, Some(100), [2, 7]),
    (10, 2, Some(10), [2, 48]),
    (456, 1, Some(0), [1, 3]),
    (100, 6, Some(456), [6, 7]),
];

/// The reading that fails after so many bytes, or reads the file to its end.
fn expected(failed: Option<usize>, calls: u64) -> Reading {
    match failed {
        Some(count) => (Err(Fault::Io { at: count as u64 }), count, true, calls),
        None => (Ok(()), 456, true, calls),
    }
}

#[test]
fn a_reading_goes_on_after_a_failed_call(rt: HostRuntime) {
    let file = one_section(Order::Little);
    for &(piece, failing, failed, [first, second]) in READINGS {
        let found = read_and_resumed(rt.alloc(), &file, piece, failing);
        assert_same(
            &rt,
            found,
            [expected(failed, first), expected(None, second)],
        );
    }
}

// Records of a source.

/// How many relocations the table has, of 16 bytes each: two arrays of 4,096 bytes, and a part of one.
const COUNT: usize = 600;

/// A table after 3 other bytes: relocation `i` has offset `i`, and zeros else.
fn table() -> [u8; 3 + 16 * COUNT] {
    let mut bytes = [0; 3 + 16 * COUNT];
    for i in 0..COUNT {
        let start = 3 + 16 * i;
        bytes[start..start + 8].copy_from_slice(&(i as u64).to_le_bytes());
    }
    bytes
}

/// The record at this offset.
fn record(bytes: &[u8], at: u64) -> Result<Rel, ReadFault>
    requires { at ≤ 9600 }
{
    read_record(&mut Bytes(bytes), Order::Little, at)
}

#[test]
fn a_record_is_read(rt: HostRuntime) {
    let relocation = Rel {
        r_offset: 5,
        r_info: 0,
    };
    assert_same(&rt, record(&table(), 3 + 16 * 5), Ok(relocation));
}

/// Whether the offsets are 0, 1 and so on, of the whole table.
fn is_whole(relocations: &[Rel]) -> bool {
    for (i, relocation) in relocations.iter().enumerate() {
        if relocation.r_offset != i as u64 {
            return false;
        }
    }
    relocations.len() == COUNT
}

/// Whether the table is read whole by a source that gives so many bytes a call, and in how many calls.
fn table_read(alloc: Global, bytes: &[u8], piece: usize) -> Result<(bool, u64), RecordsFault> {
    let mut source = PartialSource::new(bytes, piece);
    let relocations = read_records(alloc, &mut source, Order::Little, 3, COUNT)?;
    Ok((is_whole(&relocations), source.calls))
}

#[test]
fn a_table_is_read_in_three_calls_or_a_byte_a_call(rt: HostRuntime) {
    let bytes = table();
    let reads = [
        table_read(rt.alloc(), &bytes, 4096),
        table_read(rt.alloc(), &bytes, 1),
    ];
    assert_same(&rt, reads, [Ok((true, 3)), Ok((true, 16 * COUNT as u64))]);
}

// Whole reads.

/// What a call that asks for three bytes at this offset comes to, and the bytes.
fn given(at: u64) -> (Result<usize, Failed>, [u8; 3]) {
    let mut buf = [0; 3];
    let answer = Bytes(b"abcde").read_at(at, &mut buf);
    (answer, buf)
}

/// What is given at 1, at 4, at 5 and at the last offset.
const GIVEN: [(Result<usize, Failed>, [u8; 3]); 4] = [
    (Ok(3), *b"bcd"),
    (Ok(1), *b"e\0\0"),
    (Ok(0), [0; 3]),
    (Ok(0), [0; 3]),
];

// Bytes in memory, and what seeks.
#[test]
fn bytes_are_read_at_any_offset(rt: HostRuntime) {
    let mut file = Seeking::new(Cursor::new(b"abcde".as_slice()));
    let mut end = [0; 2];
    let mut front = [0; 2];
    let answers = [file.read_at(3, &mut end), file.read_at(0, &mut front)];
    let given = [given(1), given(4), given(5), given(u64::MAX)];
    assert_same(
        &rt,
        (
            [Bytes(b"abcde").length(), file.length()],
            given,
            (answers, end, front),
        ),
        ([Ok(5); 2], GIVEN, ([Ok(2); 2], [b'd', b'e'], [b'a', b'b'])),
    );
}

#[test]
fn an_opened_file_is_read_at_any_offset(rt: HostRuntime) {
    let mut file = Seeking::new(Opened(Cursor::new(b"abcde".as_slice())));
    let (mut end, mut front, mut none) = ([0; 2], [0; 2], [7; 2]);
    let answers = [
        file.read_at(3, &mut end),
        file.read_at(0, &mut front),
        file.read_at(5, &mut none),
    ];
    assert_same(
        &rt,
        (file.length(), answers, (end, front, none)),
        (Ok(5), [Ok(2), Ok(2), Ok(0)], (*b"de", *b"ab", [7; 2])),
    );
}

/// A file of 2^32 + 64 bytes, each of which is how many times its offset holds 2^32.
#[derive(Drop)]
struct LongFile {
    at: u64,
}

const LONG: u64 = (1 << 32) + 64;

impl Read for LongFile {
    fn read(&mut self, buf: &mut [u8]) -> io::Result<usize> {
        if self.at < LONG && !buf.is_empty() {
            buf[0] = (self.at >> 32) as u8;
            Ok(1)
        } else {
            Ok(0)
        }
    }
}

impl Seek for LongFile {
    fn seek(&mut self, to: SeekFrom) -> io::Result<u64> {
        self.at = match to {
            SeekFrom::Start(at) => at,
            SeekFrom::End(0) => LONG,
            _ => return Err(ErrorKind::Unsupported.into()),
        };
        Ok(self.at)
    }
}

/// The byte at an offset of it.
fn long_byte(at: u64) -> (Result<usize, Failed>, u8) {
    let mut byte = [9];
    let answer = Seeking::new(Opened(LongFile { at: 0 })).read_at(at, &mut byte);
    (answer, byte[0])
}

// No number of a file is cut to 32 bits.
#[test]
fn a_file_of_more_than_four_gigabytes_is_sought(rt: HostRuntime) {
    let length = Seeking::new(Opened(LongFile { at: 0 })).length();
    let bytes = [long_byte(63), long_byte(LONG - 1), long_byte(LONG)];
    let expected = [(Ok(1), 0), (Ok(1), 1), (Ok(0), 9)];
    assert_same(&rt, (length, bytes), (Ok(LONG), expected));
}

// A byte a call, and nothing is asked for an empty buffer.
#[test]
fn a_byte_a_call_is_read_whole(rt: HostRuntime) {
    let mut source = PartialSource::new(b"abcdefgh", 1);
    let mut buf = [0; 4];
    let none = (read_exactly(&mut source, 2, &mut []), source.calls);
    let four = (read_exactly(&mut source, 2, &mut buf), source.calls);
    assert_same(&rt, (none, four, buf), ((Ok(()), 0), (Ok(()), 4), *b"cdef"));
}

/// What a read of four bytes comes to whose call of this number fails, or gives none, and how many calls there were.
fn failed(failing: u64, gives_none: bool) -> (Result<(), ReadFault>, u64) {
    let mut source = PartialSource::new(b"abcdefgh", 1);
    source.failing = failing;
    source.gives_none = gives_none;
    let answer = read_exactly(&mut source, 2, &mut [0; 4]);
    (answer, source.calls)
}

// No byte where some were to come is a fault too, and so is the end of the bytes.
#[test]
fn a_failed_call_is_not_tried_again(rt: HostRuntime) {
    let past = read_exactly(&mut Bytes(b"abcde"), 3, &mut [0; 4]);
    assert_same(
        &rt,
        (failed(3, false), failed(2, true), past),
        (
            (Err(ReadFault { at: 4 }), 3),
            (Err(ReadFault { at: 3 }), 2),
            Err(ReadFault { at: 5 }),
        ),
    );
}

/// The ends of so many bytes from this offset on, and how many calls they took.
fn ends(at: u32, len: u32) -> (Result<TableEnds, ReadFault>, u64) {
    let mut source = PartialSource::new(b"abcde", 8);
    let ends = read_ends(&mut source, u64::from(at), u64::from(len));
    (ends, source.calls)
}

/// The ends of three tables.
const ENDS: [(Result<TableEnds, ReadFault>, u64); 3] = [
    (
        Ok(TableEnds {
            len: 3,
            first: b'b',
            last: b'd',
        }),
        2,
    ),
    (
        Ok(TableEnds {
            len: 1,
            first: b'e',
            last: b'e',
        }),
        1,
    ),
    (
        Ok(TableEnds {
            len: 0,
            first: 0,
            last: 0,
        }),
        0,
    ),
];

#[test]
fn the_ends_of_a_table_are_two_bytes(rt: HostRuntime) {
    assert_same(&rt, [ends(1, 3), ends(4, 1), ends(9, 0)], ENDS);
}

// A read of no byte is a failure if the buffer is not empty. Failures are counted modulo 2^64.
#[test]
fn failures_are_counted(rt: HostRuntime) {
    let one = Failures { count: 1, last: 9 };
    let most = Failures {
        count: u64::MAX,
        last: 7,
    };
    let none = Failures::NONE;
    let counted = [
        none.and_read(9, 4, &Ok(1)),
        none.and_read(9, 0, &Ok(0)),
        none.and_read(9, 4, &Ok(0)),
        none.and_read(9, 4, &Err(Failed)),
        none.and_read(9, 0, &Err(Failed)),
        most.and_one_at(7),
    ];
    let over = Failures { count: 0, last: 7 };
    assert_same(&rt, counted, [none, none, one, one, one, over]);
}
