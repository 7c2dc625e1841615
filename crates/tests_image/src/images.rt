//! Images of the hand-written files: read, edited and written.
ghost use Rattle.std.specs.Prelude.{◌<◌};

use crate::asserts::assert_same;
use elf_field::Order;
use elf_image_outline::{NoSection, Owner, Part, ReplaceFault, scan};
use elf_image_sources::ShortReads;
use elf_image_stream::{Fault, read_to_end};
use elf_image_type::{Image, parse, verdict, write};
use std::alloc::Global;
use std::io::Read;
use std::process::Abort;
use tests_files::{
    Field, PartialSource, empty_contents, empty_object, executable_of_a_call, filled_gap,
    header_alone, one_section, one_segment, set, set_header, two_of_each,
};

// Sources read as images, without their contents. Files that a scan refuses are in `cases/`, under `check --seek`.

fn part(owner: Owner, start: u64, len: u64) -> Part {
    Part { owner, start, len }
}

/// The parts of the file of one section.
fn parts_of_one_section() -> [Part; 8] {
    [
        part(Owner::Header, 0, 64),
        part(Owner::Content(1), 64, 1),
        part(Owner::Gap, 65, 7),
        part(Owner::Content(2), 72, 24),
        part(Owner::Content(3), 96, 1),
        part(Owner::Content(4), 97, 33),
        part(Owner::Gap, 130, 6),
        part(Owner::SectionTable, 136, 320),
    ]
}

/// Whether these are the parts of the file of one section.
fn are_parts(parts: &[Part]) -> bool {
    parts == parts_of_one_section().as_slice()
}

/// What a scan of a file that gives so many bytes a call comes to: whether the parts are those of the file of one section, how many
/// sections, segments and bytes the file has; and how many calls the scan made for bytes, and for the length.
fn scanned(
    alloc: Global,
    file: &[u8],
    piece: usize,
) -> Result<(bool, [usize; 2], u64, [u64; 2]), Fault> {
    let mut source = PartialSource::new(file, piece);
    let outline = scan(alloc, &mut source)?;
    let counts = [outline.sections().len(), outline.segments().len()];
    let are_known = are_parts(outline.parts());
    let calls = [source.calls, source.lengths];
    Ok((are_known, counts, outline.len(), calls))
}

// A byte a call, and all in a call: five of them, of which none is for a content. Without a section table; and with empty contents far
// past the end. The length is asked for once: the source could answer another one the second time.
#[test]
fn a_scan_reads_no_content(rt: HostRuntime) {
    let alloc = rt.alloc();
    let scans = [
        scanned(alloc, &one_section(Order::Big), 1),
        scanned(alloc, &one_section(LITTLE), 4096),
        scanned(alloc, &one_segment(LITTLE), 4096),
        scanned(alloc, &empty_contents(Order::Big), 4096),
    ];
    assert_same(
        &rt,
        scans,
        [
            Ok((true, [5, 0], 456, [64 + 64 + 5 * 64 + 2, 1])),
            Ok((true, [5, 0], 456, [5, 1])),
            Ok((false, [0, 1], 120, [2, 1])),
            Ok((false, [3, 0], 256, [3, 1])),
        ],
    );
}

const LITTLE: Order = Order::Little;

/// The image is written as these bytes.
fn assert_written(rt: &impl Abort, alloc: Global, image: &Image<'_>, bytes: &[u8]) {
    let mut out = Vec::new(alloc);
    let answer = write(image, &mut out);
    assert_same(rt, (answer, out.as_slice()), (Ok(()), bytes));
}

/// The image of this file, which is read a byte a call, is written as the file.
fn assert_kept(rt: &impl Abort, alloc: Global, file: &[u8]) -> Result<(), Fault> {
    let bytes = bytes_read(alloc, &mut ShortReads::new(file, 1))?;
    let image = parse(alloc, &bytes)?;
    assert_written(rt, alloc, &image, file);
    Ok(())
}

/// Of section `index`: the length of its content and where it is, and the size and the address in its header and where that is.
fn section_of(image: &Image<'_>, index: usize) -> Option<(usize, u64, u64, u64, u64)> {
    if index < image.section_count() {
        let section = image.section(index);
        Some((
            image.content(index).len(),
            image.content_offset(index),
            section.sh_size,
            section.sh_addr,
            image.header_offset(index),
        ))
    } else {
        None
    }
}

/// The address in program header `index`, and its sizes in the file and in memory.
fn segment_of(image: &Image<'_>, index: usize) -> Option<(u64, u64, u64)> {
    if index < image.segment_count() {
        let segment = image.segment(index);
        Some((segment.p_vaddr, segment.p_filesz, segment.p_memsz))
    } else {
        None
    }
}

/// Of a file: its order, and whether its parts are those of the file of one section; its length, how many sections and segments it has,
/// where its section header table is, and its name table; its sections 1, 4 and 5; and its segments 0 and 1.
type Seen = (
    (Order, bool),
    [u64; 5],
    [Option<(usize, u64, u64, u64, u64)>; 3],
    [Option<(u64, u64, u64)>; 2],
);

fn seen_in(image: &Image<'_>) -> Seen {
    let numbers = [
        image.len() as u64,
        image.section_count() as u64,
        image.segment_count() as u64,
        image.header().e_shoff,
        u64::from(image.name_table()),
    ];
    let sections = [
        section_of(image, 1),
        section_of(image, 4),
        section_of(image, 5),
    ];
    let segments = [segment_of(image, 0), segment_of(image, 1)];
    let order = (image.order(), are_parts(image.parts()));
    (order, numbers, sections, segments)
}

/// The numbers, records and parts of a file's image.
fn seen(alloc: Global, file: &[u8]) -> Result<Seen, Fault> {
    let image = parse(alloc, file)?;
    Ok(seen_in(&image))
}

/// The numbers, records and parts of the file of one section, and of that of two segments and sections.
const SEEN: [Result<Seen, Fault>; 2] = [
    Ok((
        (LITTLE, true),
        [456, 5, 0, 136, 4],
        [Some((1, 64, 1, 0, 200)), Some((33, 97, 33, 0, 392)), None],
        [None; 2],
    )),
    Ok((
        (Order::Big, false),
        [384, 3, 2, 192, 0],
        [Some((4, 176, 4, 0x10b0, 256)), None, None],
        [Some((0x1000, 180, 180)), Some((0x20b8, 8, 16))],
    )),
];

#[test]
fn reports_the_header_sections_and_segments_of_a_file(rt: HostRuntime) {
    let found = [
        seen(rt.alloc(), &one_section(LITTLE)),
        seen(rt.alloc(), &two_of_each(Order::Big)),
    ];
    assert_same(&rt, found, SEEN);
}

/// The name and the content of section 1.
fn name_and_content_of<'a>(image: &Image<'a>) -> Option<(&'a [u8], &'a [u8])> {
    if image.section_count() < 2 {
        return None;
    }
    Some((image.name(1), image.content(1)))
}

/// The name and the content of section 1 of a file. They outlive the image that returned them.
fn name_and_content<'a>(
    alloc: Global,
    file: &'a [u8],
) -> Result<Option<(&'a [u8], &'a [u8])>, Fault> {
    let image = parse(alloc, file)?;
    Ok(name_and_content_of(&image))
}

#[test]
fn a_name_and_a_content_outlive_the_image(rt: HostRuntime) {
    let file = one_section(LITTLE);
    let seen = name_and_content(rt.alloc(), &file);
    assert_same(
        &rt,
        seen,
        Ok(Some((b".text".as_slice(), [0xc3].as_slice()))),
    );
}

/// The bytes that a reader gives of this file.
fn bytes_read<R: Read>(alloc: Global, reader: &mut R) -> Result<Vec<u8>, Fault> {
    let mut bytes = Vec::new(alloc);
    read_to_end(reader, &mut bytes)?;
    Ok(bytes)
}

/// The image of these bytes is written as the file, once its entry is set.
fn assert_entry_set(
    rt: &impl Abort,
    alloc: Global,
    bytes: &[u8],
    file: &[u8],
) -> Result<(), Fault> {
    let mut image = parse(alloc, bytes)?;
    image.set_entry(0x1000);
    assert_written(rt, alloc, &image, file);
    Ok(())
}

// The example of the crate's root.
#[test]
fn sets_the_entry_of_what_a_reader_gives(rt: HostRuntime) -> Result<(), Fault> {
    let file = two_of_each(LITTLE);
    let bytes = bytes_read(rt.alloc(), &mut file.as_slice())?;
    let mut want = two_of_each(LITTLE);
    set(&mut want, LITTLE, &[(24, 8, 0x1000)]);
    assert_entry_set(&rt, rt.alloc(), &bytes, &want)
}

#[test]
fn writes_back_what_it_read(rt: HostRuntime) -> Result<(), Fault> {
    let files: [&[u8]; 7] = [
        &empty_object(),
        &one_section(LITTLE),
        &one_section(Order::Big),
        &empty_contents(LITTLE),
        &two_of_each(LITTLE),
        &two_of_each(Order::Big),
        &one_segment(LITTLE),
    ];
    for file in files {
        assert_kept(&rt, rt.alloc(), file)?;
    }
    Ok(())
}

/// The image is written as the file, and with its gap zeroed as the empty object.
fn assert_gap_zeroed(rt: &impl Abort, alloc: Global, image: &mut Image<'_>, file: &[u8]) {
    assert_written(rt, alloc, image, file);
    image.zero_gaps();
    assert_written(rt, alloc, image, &empty_object());
}

#[test]
fn keeps_a_filled_gap_until_it_is_zeroed(rt: HostRuntime) -> Result<(), Fault> {
    let file = filled_gap();
    let mut image = parse(rt.alloc(), &file)?;
    assert_gap_zeroed(&rt, rt.alloc(), &mut image, &file);
    Ok(())
}

/// How contents are refused that cannot be in the file with one section.
fn refusals(image: &mut Image<'_>) -> [Result<(), ReplaceFault>; 4] {
    [
        image.replace(0, &[]),
        image.replace(5, &[]),
        image.replace(1, &[0x90, 0x90]),
        image.replace(4, b"\0.text\0.symtab\0.strtab\0.shstrtab\0"),
    ]
}

const REFUSALS: [Result<(), ReplaceFault>; 4] = [
    Err(ReplaceFault::NoSection),
    Err(ReplaceFault::NoSection),
    Err(ReplaceFault::WrongLength),
    Err(ReplaceFault::NameTable),
];

/// That file with another byte in its section.
fn with_another_byte() -> [u8; 456] {
    let mut file = one_section(LITTLE);
    file[64] = 0x90;
    file
}

/// They change nothing; another byte of its section is there.
fn assert_replaces(rt: &impl Abort, alloc: Global, image: &mut Image<'_>, file: &[u8]) {
    let refused = refusals(image);
    assert_written(rt, alloc, image, file);
    let replaced = image.replace(1, &[0x90]);
    assert_written(rt, alloc, image, &with_another_byte());
    assert_same(rt, (refused, replaced), (REFUSALS, Ok(())));
}

#[test]
fn replaces_a_content(rt: HostRuntime) -> Result<(), Fault> {
    let file = one_section(LITTLE);
    let mut image = parse(rt.alloc(), &file)?;
    assert_replaces(&rt, rt.alloc(), &mut image, &file);
    Ok(())
}

/// Whether an empty content is replaced, and one that is not in the file.
fn replaces_empty_ones(alloc: Global, file: &[u8]) -> Result<[Result<(), ReplaceFault>; 2], Fault> {
    let mut image = parse(alloc, file)?;
    Ok([image.replace(1, &[]), image.replace(2, &[])])
}

#[test]
fn replaces_an_empty_content_and_none_that_is_not_in_the_file(rt: HostRuntime) {
    let answers = replaces_empty_ones(rt.alloc(), &empty_contents(LITTLE));
    assert_same(&rt, answers, Ok([Ok(()), Err(ReplaceFault::NoSection)]));
}

/// Sets the entry, and flags of sections that are not there and of one that is.
fn assert_sets(rt: &impl Abort, alloc: Global, image: &mut Image<'_>) {
    image.set_entry(0x1234);
    let answers = [
        image.set_flags(0, 7),
        image.set_flags(5, 7),
        image.set_flags(1, 7),
    ];
    assert_same(rt, answers, [Err(NoSection), Err(NoSection), Ok(())]);
    let mut want = one_section(Order::Big);
    set(&mut want, Order::Big, &[(24, 8, 0x1234), (208, 8, 7)]);
    assert_written(rt, alloc, image, &want);
}

#[test]
fn sets_the_entry_and_flags(rt: HostRuntime) -> Result<(), Fault> {
    let file = one_section(Order::Big);
    let mut image = parse(rt.alloc(), &file)?;
    assert_sets(&rt, rt.alloc(), &mut image);
    Ok(())
}

/// The rule that `parse` reports, if any.
fn rule_broken(alloc: Global, file: &[u8]) -> Result<Option<(u16, u64)>, Fault> {
    match parse(alloc, file) {
        Ok(_) => Ok(None),
        Err(Fault::Rule { rule, at }) => Ok(Some((rule, at))),
        Err(fault) => Err(fault),
    }
}

/// Fields of a header alone, and the rule and the offset that it is refused with.
const VERDICTS: &[(&[Field], Option<(u16, u64)>)] = &[
    (&[], None),
    (&[(3, 1, 0x47), (4, 1, 1)], Some((3, 3))),
    (&[(20, 4, 2), (52, 2, 63)], Some((7, 20))),
    (&[(60, 2, 1)], Some((9, 60))),
    (&[(60, 2, 1), (62, 2, 1)], Some((9, 60))),
    (&[(62, 2, 1)], Some((9, 62))),
    (&[(40, 8, u64::MAX)], Some((10, 58))),
    (&[(40, 8, u64::MAX), (58, 2, 64)], Some((12, 40))),
];

/// What is said of the header with these fields.
fn header_verdict(alloc: Global, fields: &[Field]) -> [Result<Option<(u16, u64)>, Fault>; 2] {
    let mut file = header_alone(LITTLE);
    set(&mut file, LITTLE, fields);
    [Ok(verdict(&file)), rule_broken(alloc, &file)]
}

#[test]
fn the_first_rule_and_the_lowest_offset_are_reported(rt: HostRuntime) {
    for &(fields, broken) in VERDICTS {
        assert_same(&rt, header_verdict(rt.alloc(), fields), [Ok(broken); 2]);
    }
}

/// Of the file with one section and this byte at an offset `parse` reports the verdict.
fn assert_verdict(rt: &impl Abort, alloc: Global, order: Order, at: usize, byte: u8)
    requires { at < 456 }
{
    let mut file = one_section(order);
    file[at] = byte;
    assert_same(rt, rule_broken(alloc, &file), Ok(verdict(&file)));
}

// So it does with each of four bytes at each offset, in either order.
#[test]
fn parse_returns_the_verdict(rt: HostRuntime) {
    let bytes = [0, 1, 0x5f, 0xff];
    for k in 0..4 * 456 {
        assert_verdict(&rt, rt.alloc(), LITTLE, k / 4, bytes[k % 4]);
        assert_verdict(&rt, rt.alloc(), Order::Big, k / 4, bytes[k % 4]);
    }
}

// The bytes that segments of hand-written files give their addresses.

/// The file of two segments and sections, with other fields.
fn two_of_each_with(order: Order, fields: &[Field]) -> [u8; 384] {
    let mut file = two_of_each(order);
    set(&mut file, order, fields);
    file
}

/// In big order, and its first segment is the whole file.
fn loaded_whole() -> [u8; 384] {
    two_of_each_with(Order::Big, &[(96, 8, 384), (104, 8, 384)])
}

/// What an image loads at these addresses.
fn bytes_at(image: &Image<'_>, addresses: [u64; 6]) -> [Option<u8>; 6] {
    addresses.map(|address| image.load(address))
}

/// What the image of a file does.
fn loaded(alloc: Global, file: &[u8], addresses: [u64; 6]) -> Result<[Option<u8>; 6], Fault> {
    let image = parse(alloc, file)?;
    Ok(bytes_at(&image, addresses))
}

/// What the image loads once its entry, flags, content and gaps are edited.
fn loaded_of_edited(
    alloc: Global,
    file: &[u8],
    addresses: [u64; 6],
) -> Result<[Option<u8>; 6], Fault> {
    let mut image = parse(alloc, file)?;
    image.set_entry(0x34);
    let _flagged = image.set_flags(1, 7);
    let _replaced = image.replace(1, b"TEXT");
    image.zero_gaps();
    Ok(bytes_at(&image, addresses))
}

// A byte of each part of the file: the header, both tables, a content and a gap; and one that is not in the file. The edited file has
// another entry, content, flags and gap.
#[test]
fn loads_each_part_of_a_file(rt: HostRuntime) {
    let file = loaded_whole();
    let parts = [0x1001, 0x1043, 0x10b0, 0x10b4, 0x110f, 0x20c7];
    let edits = [0x101f, 0x1043, 0x10b0, 0x10b4, 0x110f, 0x20b8];
    let seen = [
        loaded(rt.alloc(), &file, parts),
        loaded_of_edited(rt.alloc(), &file, edits),
    ];
    assert_same(
        &rt,
        seen,
        [
            Ok([
                Some(b'E'),
                Some(1),
                Some(b't'),
                Some(b'g'),
                Some(6),
                Some(0),
            ]),
            Ok([
                Some(0x34),
                Some(1),
                Some(b'T'),
                Some(0),
                Some(7),
                Some(b'd'),
            ]),
        ],
    );
}

/// Where the last page of addresses begins.
const LAST: u64 = u64::MAX - 0xfff;

/// The file of one segment, which goes on after the largest address.
fn one_segment_at_the_end() -> [u8; 120] {
    let mut file = one_segment(Order::Little);
    let fields = [(80, 8, LAST), (104, 8, u64::MAX)];
    set(&mut file, Order::Little, &fields);
    file
}

/// The header and the program headers of an executable of four bytes of data, and of eight bytes that are not in the file.
const DATA_AND_COMMONS: [Field; 18] = [
    (16, 2, 2),
    (32, 8, 64),
    (54, 2, 56),
    (56, 2, 2),
    (64, 4, 1),
    (68, 4, 6),
    (72, 8, 176),
    (80, 8, 0x2000),
    (88, 8, 0x2000),
    (96, 8, 4),
    (104, 8, 4),
    (120, 4, 1),
    (124, 4, 6),
    (136, 8, 0x3000),
    (144, 8, 0x3000),
    (160, 8, 8),
    (168, 8, 0x1000),
    (176, 1, 1),
];

fn data_and_commons() -> [u8; 180] {
    let mut file = [0; 180];
    set_header(&mut file, Order::Little, &DATA_AND_COMMONS);
    file
}

/// Fields of two segments that share addresses, and of a first one that is not loadable.
const SHARED: [Field; 3] = [(104, 8, 0x200), (136, 8, 0x10b8), (160, 8, 0x200)];

const NOT_LOADED: [Field; 1] = [(64, 4, 4)];

// The code of an executable; two segments that have an address, of which the first one has no bytes in the file for it; one of another
// type, which loads nothing; the last address of one that goes on after it; and commons, which are 0.
#[test]
fn loads_by_segments(rt: HostRuntime) {
    let alloc = rt.alloc();
    let code = [0xfff, 0x1000, 0x1001, 0x1006, 0x1007, u64::MAX];
    let shared = [0x10b3, 0x10b8, 0x11ff, 0x1200, 0x12b7, 0x12b8];
    let second = [0x1000, 0x10b0, 0x20b8, 0x20bf, 0x20c0, 0x20c8];
    let last = [0, 0xfff, LAST - 1, LAST, LAST + 0x77, u64::MAX];
    let commons = [0x1fff, 0x2000, 0x2003, 0x2004, 0x3007, 0x3008];
    let seen = [
        loaded(alloc, &executable_of_a_call(), code),
        loaded(alloc, &two_of_each_with(LITTLE, &SHARED), shared),
        loaded(alloc, &two_of_each_with(LITTLE, &NOT_LOADED), second),
        loaded(alloc, &one_segment_at_the_end(), last),
        loaded(alloc, &data_and_commons(), commons),
    ];
    assert_same(
        &rt,
        seen,
        [
            Ok([None, Some(0xe8), Some(1), Some(0xc3), None, None]),
            Ok([Some(b't'), Some(0), Some(0), Some(0), Some(0), None]),
            Ok([None, None, Some(b'd'), Some(b'a'), Some(0), None]),
            Ok([None, None, None, Some(0x7f), Some(0), Some(0)]),
            Ok([None, Some(1), Some(0), None, Some(0), None]),
        ],
    );
}
