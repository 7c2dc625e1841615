//! Files of many sections and segments.
use crate::asserts::assert_same;
use elf_field::Order;
use elf_image_stream::Fault;
use elf_image_type::{Image, parse, verdict, write};
use elf_tool_program::{Verdict, check, check_source, show};
use std::alloc::{AllocError, Global};
use std::process::Abort;
use tests_files::{Field, OnceFailingWriter, PartialSource, Sink, set, set_header};

// What is said of a file's bytes.

/// A long text has this many lines, and begins and ends so.
pub(crate) fn assert_lines(rt: &impl Abort, text: &[u8], lines: usize, front: &[u8], end: &[u8]) {
    let ends = text.iter().filter(|byte| **byte == b'\n').count();
    assert_same(
        rt,
        (ends, text.starts_with(front), text.ends_with(end)),
        (lines, true, true),
    );
}

// Objects of so many sections that their count, and then the index of their section name string table too, are in section header 0.

/// The offset of the section header table: after the symbol table's one entry, the empty string table, the name table and four bytes of
/// padding.
const TABLE: u64 = 120;

/// The header's places, and the names `.symtab`, `.strtab` and `.shstrtab`.
const FRONT: [Field; 6] = [
    (40, 8, TABLE),
    (58, 2, 64),
    (89, 8, 0x6261_746d_7973_2e00),
    (97, 8, 0x6261_7472_7473_2e00),
    (105, 8, 0x7472_7473_6873_2e00),
    (113, 3, 0x6261),
];

/// All before the section headers of an object of `count` sections: the header, the contents, and section header 0, with the numbers that
/// the header cannot hold.
fn front(count: u32) -> [u8; 184] {
    let entries = u64::from(count) + 4;
    let names = u64::from(count) + 3;
    let counts = [
        (60, 2, if entries < 0xff00 { entries } else { 0 }),
        (62, 2, if names < 0xff00 { names } else { 0xffff }),
        (152, 8, if entries < 0xff00 { 0 } else { entries }),
        (160, 4, if names < 0xff00 { 0 } else { names }),
    ];
    let mut file = [0; 184];
    set_header(&mut file, Order::Little, &FRONT);
    set(&mut file, Order::Little, &counts);
    file
}

/// The section header of an empty section.
fn empty_section() -> [u8; 64] {
    let mut header = [0; 64];
    let fields = [(4, 4, 1), (24, 8, 64), (48, 8, 1)];
    set(&mut header, Order::Little, &fields);
    header
}

/// The section headers of the symbol table, its string table and the section name string table, but for the link of the first.
const LAST: [Field; 17] = [
    (0, 4, 1),
    (4, 4, 2),
    (24, 8, 64),
    (32, 8, 24),
    (44, 4, 1),
    (48, 8, 8),
    (56, 8, 24),
    (64, 4, 9),
    (68, 4, 3),
    (88, 8, 88),
    (96, 8, 1),
    (112, 8, 1),
    (128, 4, 17),
    (132, 4, 3),
    (152, 8, 89),
    (160, 8, 27),
    (176, 8, 1),
];

/// The last section headers, where `count` sections are before them.
fn last_sections(count: u32) -> [u8; 192] {
    let mut headers = [0; 192];
    set(&mut headers, Order::Little, &LAST);
    let link = (40, 4, u64::from(count) + 2);
    set(&mut headers, Order::Little, &[link]);
    headers
}

/// A little-endian object of `count` empty sections without names, and no symbols: the sections, a symbol table, its string table and the
/// section name string table.
fn object(alloc: Global, count: u32) -> Result<Vec<u8>, AllocError> {
    let mut file = Vec::new(alloc);
    file.extend_from_slice(&front(count))?;
    let section = empty_section();
    for _ in 0..count {
        file.extend_from_slice(&section)?;
    }
    file.extend_from_slice(&last_sections(count))?;
    Ok(file)
}

/// Whether the image is written as these bytes.
fn is_written(alloc: Global, image: &Image<'_>, bytes: &[u8]) -> bool {
    let mut written = Vec::new(alloc);
    write(image, &mut written).is_ok() && written.as_slice() == bytes
}

/// How many sections the image of these bytes has, the index of its name table, and whether it is written as they are.
fn image_seen(alloc: Global, bytes: &[u8]) -> Result<(u64, u32, bool), Fault> {
    let image = parse(alloc, bytes)?;
    let count = image.section_count() as u64;
    Ok((count, image.name_table(), is_written(alloc, &image, bytes)))
}

/// The file is accepted with this line.
fn assert_accepted(rt: &impl Abort, alloc: Global, mut file: &[u8], line: &str) {
    let mut said = Vec::new(alloc);
    let checked = check(alloc, &mut file, &mut said);
    assert_same(
        rt,
        (checked, said.as_slice()),
        (Ok(Verdict::Done), line.as_bytes()),
    );
}

/// The object of `count` sections is accepted with this line, has its name table at this index, and is written back.
fn assert_object(
    rt: &impl Abort,
    alloc: Global,
    count: u32,
    len: usize,
    names: u32,
    line: &str,
) -> Result<(), AllocError> {
    let file = object(alloc, count)?;
    assert_accepted(rt, alloc, &file, line);
    let seen = (file.len(), verdict(&file), image_seen(alloc, &file));
    let image = (u64::from(count) + 4, names, true);
    assert_same(rt, seen, (len, None, Ok(image)));
    Ok(())
}

/// A count, and of the object of so many sections: the length, the index of the name table, and the line. The count, and then the index of
/// the name table too, is a reserved one.
const ROWS: &[(u32, usize, u32, &str)] = &[
    (65_275, 4_177_976, 65_278, "ok 4177976 65279 0\n"),
    (65_276, 4_178_040, 65_279, "ok 4178040 65280 0\n"),
    (65_277, 4_178_104, 65_280, "ok 4178104 65281 0\n"),
];

#[test]
fn counts_in_the_header_and_in_section_header_0(rt: HostRuntime) -> Result<(), AllocError> {
    for &(count, len, names, line) in ROWS {
        assert_object(&rt, rt.alloc(), count, len, names, line)?;
    }
    Ok(())
}

#[test]
fn is_sought_by_a_byte_a_call(rt: HostRuntime) -> Result<(), AllocError> {
    let file = object(rt.alloc(), 65_277)?;
    let mut out = Sink::new();
    let mut source = PartialSource::new(&file, 1);
    let answer = check_source(rt.alloc(), &mut source, &mut out);
    let line = b"ok 4178104 65281 0\n".as_slice();
    assert_same(&rt, (answer, out.text()), (Ok(Verdict::Done), line));
    Ok(())
}

/// The header's line, six parts, the sections, and a symbol.
const LINES: usize = 1 + 6 + 65_279 + 1;

const FRONT_LINES: &[u8] =
    b"file little 1 62 0x0 0x0\npart 0x0 0x40 header\npart 0x40 0x18 content 65276\n";

const END_LINES: &[u8] =
    b"\nsection 65278 3 0x0 0x0 0x59 0x1b 0 0 0x1 0x0 .shstrtab\nsymbol 65276 0 0 0 0 undef 0x0 0x0 -\n";

/// `show` of the file of 65,275 sections goes out in pieces of less than this.
fn assert_shown_in_pieces(rt: &impl Abort, alloc: Global, mut file: &[u8], piece: usize) {
    let mut out = OnceFailingWriter::new(alloc, usize::MAX, 0);
    let answer = show(alloc, &mut file, &mut out);
    let are_short = out.offers.iter().max() < Some(&piece);
    assert_same(rt, (answer, are_short), (Ok(Verdict::Done), true));
    assert_lines(rt, &out.bytes, LINES, FRONT_LINES, END_LINES);
}

/// The text is far longer than the pieces in which it goes out.
#[test]
fn shows_each_section(rt: HostRuntime) -> Result<(), AllocError> {
    let file = object(rt.alloc(), 65_275)?;
    assert_shown_in_pieces(&rt, rt.alloc(), &file, 66_000);
    Ok(())
}

// A file of so many segments that their count is in section header 0.

const COUNT: usize = 65_535;

/// The file's header and section header 0, at 64; the program headers, at 128, are all zero.
fn file(alloc: Global) -> Result<Vec<u8>, AllocError> {
    let fields = [
        (32, 8, 128),
        (40, 8, 64),
        (54, 2, 56),
        (56, 2, 0xffff),
        (58, 2, 64),
        (60, 2, 1),
        (108, 4, COUNT as u64),
    ];
    let mut file = Vec::new(alloc);
    file.resize(128 + 56 * COUNT, 0)?;
    set_header(&mut file, Order::Little, &fields);
    Ok(file)
}

/// `show` of it has these lines.
fn assert_shown(rt: &impl Abort, alloc: Global, mut bytes: &[u8]) {
    let mut said = Vec::new(alloc);
    let is_shown = show(alloc, &mut bytes, &mut said).is_ok();
    assert!(rt; is_shown);
    // The header's line, three parts, the section and the segments.
    let lines = 1 + 3 + 1 + COUNT;
    let front =
        b"file little 1 62 0x0 0x0\npart 0x0 0x40 header\npart 0x40 0x40 sections\npart 0x80 0x37ffc8 segments\n\
        section 0 0 0x0 0x0 0x0 0x0 0 65535 0x0 0x0 -\nsegment 0 0 0x0 0x0 0x0 0x0 0x0 0x0 0x0\n";
    let end = b"\nsegment 65534 0 0x0 0x0 0x0 0x0 0x0 0x0 0x0\n";
    assert_lines(rt, &said, lines, front, end);
}

#[test]
fn shows_each_of_many_segments(rt: HostRuntime) -> Result<(), AllocError> {
    let bytes = file(rt.alloc())?;
    assert_shown(&rt, rt.alloc(), &bytes);
    Ok(())
}
