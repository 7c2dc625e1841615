//! Files copied whole, as read and edited.
ghost use Rattle.std.specs.Prelude.{◌≤◌, length};

use crate::asserts::assert_same;
use elf_field::{Order, Rela};
use elf_image_outline::{CopyFault, NoSection, Outline, copy_image, scan, write_records};
use elf_image_stream::output::write_zeros;
use elf_image_stream::{Bytes, Fault, WriteFault};
use std::alloc::Global;
use std::io;
use std::io::{ErrorKind, Write};
use std::process::Abort;
use tests_files::{
    Field, OnceFailingWriter, PartialSource, caller, empty_object, filled_gap, long_parts,
    one_section, set, two_of_each,
};

// A writer that knows which bytes are to come.

/// Takes bytes, at most `piece` a call, and reports whether they are those that are to come. It takes none after these, or fails.
#[derive(Drop)]
pub struct ComparingWriter<'a> {
    rest: &'a [u8],
    pub piece: usize,
    pub fails: bool,
    pub calls: u64,
    pub flushes: u64,
    /// The most bytes of a call.
    pub longest: usize,
    /// Whether the bytes that it took are those that were to come.
    pub agrees: bool,
}

impl<'a> ComparingWriter<'a> {
    pub fn new(expected: &'a [u8]) -> ComparingWriter<'a> {
        ComparingWriter {
            rest: expected,
            piece: expected.len(),
            fails: false,
            calls: 0,
            flushes: 0,
            longest: 0,
            agrees: true,
        }
    }

    /// Whether just the bytes that were to come are here.
    pub fn is_whole(&self) -> bool {
        self.agrees && self.rest.is_empty()
    }
}

impl ComparingWriter<'_> {
    /// Takes these bytes, as many as a piece and what is to come allow.
    fn take(&mut self, buf: &[u8]) -> usize
        ensures { result ≤ length buf.now }
    {
        let count = buf.len().min(self.piece).min(self.rest.len());
        let (expected, rest) = self.rest.split_at(count);
        self.agrees = self.agrees && &buf[..count] == expected;
        self.rest = rest;
        count
    }
}

impl Write for ComparingWriter<'_> {
    fn write(&mut self, buf: &[u8]) -> io::Result<usize> {
        self.calls = self.calls.saturating_add(1);
        self.longest = self.longest.max(buf.len());
        if self.fails && self.rest.is_empty() {
            return Err(ErrorKind::Interrupted.into());
        }
        Ok(self.take(buf))
    }

    fn flush(&mut self) -> io::Result<()> {
        self.flushes = self.flushes.saturating_add(1);
        Ok(())
    }
}

// Copies. Each function that owns an outline answers what it saw, or why the file was not scanned.

/// What a copy comes to, and whether just the bytes that were to come are written.
type Copied = (Result<(), CopyFault>, bool);

fn copied(outline: &Outline, source: &mut PartialSource<'_>, expected: &[u8]) -> Copied {
    let mut writer = ComparingWriter::new(expected);
    let answer = copy_image(outline, source, &mut writer);
    (answer, writer.is_whole())
}

/// A copy of a file whose gaps are zeroed.
fn zeroed_copy(alloc: Global, file: &[u8], expected: &[u8]) -> Result<Copied, Fault> {
    let mut source = PartialSource::new(file, 4096);
    let mut outline = scan(alloc, &mut source)?;
    outline.zero_gaps();
    Ok(copied(&outline, &mut source, expected))
}

#[test]
fn a_filled_gap_is_zeroed(rt: HostRuntime) {
    let copied = zeroed_copy(rt.alloc(), &filled_gap(), &empty_object());
    assert_same(&rt, copied, Ok((Ok(()), true)));
}

/// Sets the entry of a file and the flags of its section 1, and copies it: what the second edit answers, and the copy.
fn edited_copy(
    alloc: Global,
    file: &[u8],
    expected: &[u8],
) -> Result<(Result<(), NoSection>, Copied), Fault> {
    let mut outline = scan(alloc, &mut Bytes(file))?;
    outline.set_entry(0x1000);
    let edited = outline.set_flags(1, 7);
    Ok((
        edited,
        copied(&outline, &mut PartialSource::new(file, 4096), expected),
    ))
}

/// The file of one section, so edited.
fn edited_section() -> [u8; 456] {
    let mut file = one_section(Order::Little);
    set(&mut file, Order::Little, &[(24, 8, 0x1000), (208, 8, 7)]);
    file
}

#[test]
fn edits_are_copied(rt: HostRuntime) {
    let file = one_section(Order::Little);
    let copied = edited_copy(rt.alloc(), &file, &edited_section());
    assert_same(&rt, copied, Ok((Ok(()), (Ok(()), true))));
}

/// What a copy answers of a file that is scanned and not edited.
type Answer = Result<Result<(), CopyFault>, Fault>;

fn copy_scanned(
    alloc: Global,
    file: &[u8],
    source: &mut PartialSource<'_>,
    writer: &mut ComparingWriter<'_>,
) -> Answer {
    let outline = scan(alloc, &mut Bytes(file))?;
    Ok(copy_image(&outline, source, writer))
}

/// A copy a byte a call: whether the file is written, and the calls of the source, those of the writer and its flushes.
fn copied_byte_by_byte(alloc: Global, file: &[u8]) -> (Answer, bool, [u64; 3]) {
    let mut source = PartialSource::new(file, 1);
    let mut writer = ComparingWriter::new(file);
    writer.piece = 1;
    let answer = copy_scanned(alloc, file, &mut source, &mut writer);
    let calls = [source.calls, writer.calls, writer.flushes];
    (answer, writer.is_whole(), calls)
}

/// The header, the tables and both contents come as they are in the file, and so does the gap.
#[test]
fn a_file_is_copied_byte_by_byte(rt: HostRuntime) {
    let copied = copied_byte_by_byte(rt.alloc(), &two_of_each(Order::Big));
    assert_same(&rt, copied, (Ok(Ok(())), true, [4 + 4 + 8, 384, 0]));
}

/// A copy in few calls: whether the file is written, the calls of the source, and the most bytes of a call of either.
fn copied_in_blocks(alloc: Global, file: &[u8]) -> (Answer, bool, u64, [usize; 2]) {
    let mut source = PartialSource::new(file, 10_000);
    let mut writer = ComparingWriter::new(file);
    let answer = copy_scanned(alloc, file, &mut source, &mut writer);
    let longest = [source.longest, writer.longest];
    (answer, writer.is_whole(), source.calls, longest)
}

/// Two parts of 9,000 bytes.
#[test]
fn long_parts_go_through_one_array(rt: HostRuntime) {
    let copied = copied_in_blocks(rt.alloc(), &long_parts());
    assert_same(&rt, copied, (Ok(Ok(())), true, 6, [4096; 2]));
}

/// The object of a call, with other fields.
fn caller_with(fields: &[Field]) -> [u8; 616] {
    let mut file = caller();
    set(&mut file, Order::Little, fields);
    file
}

/// Another content and gap, and the same with other records.
const CONTENTS: [Field; 2] = [(64, 1, 0x90), (70, 2, 1)];

const CONTENTS_AND_RECORDS: [Field; 5] = [
    (64, 1, 0x90),
    (70, 2, 1),
    (24, 8, 1),
    (40, 8, 0),
    (300, 4, 8),
];

/// What a copy of the object of a call comes to from a source that has these bytes since the scan.
fn copied_from(alloc: Global, changed: &[u8], expected: &[u8]) -> (Answer, bool) {
    let mut source = PartialSource::new(changed, 4096);
    let mut writer = ComparingWriter::new(expected);
    let answer = copy_scanned(alloc, &caller(), &mut source, &mut writer);
    (answer, writer.is_whole())
}

/// A content that changed since the scan goes out as it is, and so does a gap; the records are those that were read.
#[test]
fn a_source_that_changed_is_copied(rt: HostRuntime) {
    let changed = caller_with(&CONTENTS_AND_RECORDS);
    let copied = copied_from(rt.alloc(), &changed, &caller_with(&CONTENTS));
    assert_same(&rt, copied, (Ok(Ok(())), true));
}

// Copies of the object of a call that end early.

/// A copy: how many bytes a call of the source gives, the call that fails, and whether it gives none in place of that; how many bytes the
/// writer takes, and whether it fails then; and what the copy answers once exactly these bytes are written.
type CopyRow = ((usize, u64, bool), (usize, bool), CopyFault);

/// The symbol table begins at 96, and is the fourth part that is read. It is not written before it is there whole.
const COPIES: &[CopyRow] = &[
    (
        (4096, 0, false),
        (100, true),
        CopyFault::Write { written: 100 },
    ),
    (
        (4096, 0, false),
        (100, false),
        CopyFault::Write { written: 100 },
    ),
    ((4096, 0, false), (0, true), CopyFault::Write { written: 0 }),
    (
        (4096, 4, false),
        (96, true),
        CopyFault::Read {
            at: 96,
            written: 96,
        },
    ),
    (
        (4096, 4, true),
        (96, true),
        CopyFault::Read {
            at: 96,
            written: 96,
        },
    ),
    (
        (10, 7, false),
        (96, true),
        CopyFault::Read {
            at: 106,
            written: 96,
        },
    ),
    (
        (4096, 1, false),
        (64, true),
        CopyFault::Read {
            at: 64,
            written: 64,
        },
    ),
];

fn copied_by(alloc: Global, row: &CopyRow) -> (Answer, bool) {
    let ((piece, failing, gives_none), (count, fails), _) = *row;
    let file = caller();
    let mut source = PartialSource::new(&file, piece);
    source.failing = failing;
    source.gives_none = gives_none;
    let mut writer = ComparingWriter::new(&file[..count.min(616)]);
    writer.fails = fails;
    let answer = copy_scanned(alloc, &file, &mut source, &mut writer);
    (answer, writer.is_whole())
}

#[test]
fn a_copy_ends_at_a_failed_call(rt: HostRuntime) {
    for row in COPIES {
        assert_same(&rt, copied_by(rt.alloc(), row), (Ok(Err(row.2)), true));
    }
}

// Zeros and records of more than one block, onto a writer of which one call alone fails: exactly what is reported is out, and no
// call comes after it.

/// Two blocks of 4,096 zeros and 100 more.
const ZEROS: usize = 8292;

/// How many of the zeros are out before each call that takes 1,000 bytes: those of a block go out in five.
const ZEROS_OUT: [usize; 11] = [
    0, 1000, 2000, 3000, 4000, 4096, 5096, 6096, 7096, 8096, 8192,
];

/// Relocations of 24 bytes, of which a block holds 170.
const RELOCATIONS: usize = 400;

/// How many bytes of the relocations are out before each such call.
const RELOCATIONS_OUT: [usize; 12] = [
    0, 1000, 2000, 3000, 4000, 4080, 5080, 6080, 7080, 8080, 8160, 9160,
];

/// A writer that takes 1,000 bytes a call, and whose call of number `failing`, from 1, alone fails.
fn once_failing(alloc: Global, failing: usize) -> OnceFailingWriter {
    OnceFailingWriter::new(alloc, 1000, failing)
}

/// What a call answered that wrote; and of its writer the bytes, how many calls and flushes there were, and whether a call offered no byte.
type Written<'a> = (Result<(), WriteFault>, &'a [u8], [usize; 2], bool);

fn written(writer: &OnceFailingWriter, answer: Result<(), WriteFault>) -> Written<'_> {
    let counts = [writer.offers.len(), writer.flushes];
    (
        answer,
        writer.bytes.as_slice(),
        counts,
        writer.offers.contains(&0),
    )
}

/// What is seen of these bytes, of which `outs[k]` were out before call `k + 1`: where that one failed, no more are out, the answer reports
/// it, and no call came after it; where none did, all are out.
fn ended<'a>(failing: usize, bytes: &'a [u8], outs: &[usize]) -> Written<'a> {
    match outs.get(failing.wrapping_sub(1)) {
        Some(out) => {
            let written = *out as u64;
            let first = &bytes[..(*out).min(bytes.len())];
            (Err(WriteFault { written }), first, [failing, 0], false)
        }
        None => (Ok(()), bytes, [outs.len(), 0], false),
    }
}

/// A call that wrote these bytes ended so.
fn assert_ends(
    rt: &impl Abort,
    writer: &OnceFailingWriter,
    answer: Result<(), WriteFault>,
    bytes: &[u8],
    outs: &[usize],
) {
    assert_same(
        rt,
        written(writer, answer),
        ended(writer.failing, bytes, outs),
    );
}

/// Relocations at 0, 1, 2, .. by symbol 1, of type 2, with the addend -1.
fn relocations() -> [Rela; RELOCATIONS] {
    let first = Rela {
        r_offset: 0,
        r_info: 0x1_0000_0002,
        r_addend: -1,
    };
    let mut records = [first; RELOCATIONS];
    for index in 0..RELOCATIONS {
        records[index].r_offset = index as u64;
    }
    records
}

/// The bytes of the first one, in big order.
const RELOCATION: [u8; 24] =
    *b"\0\0\0\0\0\0\0\0\0\0\0\x01\0\0\0\x02\xff\xff\xff\xff\xff\xff\xff\xff";

/// Their bytes in big order.
fn relocation_bytes() -> [u8; 24 * RELOCATIONS] {
    let mut bytes = [0; 24 * RELOCATIONS];
    for index in 0..RELOCATIONS {
        let record = &mut bytes[24 * index..24 * index + 24];
        record.copy_from_slice(&RELOCATION);
        record[6] = (index / 256) as u8;
        record[7] = (index % 256) as u8;
    }
    bytes
}

#[test]
fn zeros_end_at_a_failed_call(rt: HostRuntime) {
    let bytes = [0; ZEROS];
    for failing in 0..=ZEROS_OUT.len() {
        let mut writer = once_failing(rt.alloc(), failing);
        let answer = write_zeros(&mut writer, ZEROS as u64);
        assert_ends(&rt, &writer, answer, &bytes, &ZEROS_OUT);
    }
}

#[test]
fn records_end_at_a_failed_call(rt: HostRuntime) {
    let records = relocations();
    let bytes = relocation_bytes();
    for failing in 0..=RELOCATIONS_OUT.len() {
        let mut writer = once_failing(rt.alloc(), failing);
        let answer = write_records(&mut writer, Order::Big, &records);
        assert_ends(&rt, &writer, answer, &bytes, &RELOCATIONS_OUT);
    }
}
