//! The most segments and the longest file of an executable, and one more.
use crate::asserts::assert_same;
use crate::executables::{Ended, options, write_linked};
use elf_exec::ExecFault;
use elf_field::Order;
use elf_link_map::Options;
use elf_object_type::{Body, Object, ObjectFault, Section};
use std::alloc::{AllocError, Global};
use tests_files::{Counter, DIGITS, numbered, object, section};

/// A section that is a segment.
fn segment<'a>(name: &'a [u8], content: &'a [u8]) -> Section<'a> {
    section(name, 2, 1, Body::Bits(1, content))
}

/// A section of these names each, of one byte, and one of the last bytes.
fn sections<'a>(
    alloc: Global,
    names: &'a [u8],
    last: &'a [u8],
) -> Result<Vec<Section<'a>>, AllocError> {
    let mut sections = Vec::new(alloc);
    for name in names.chunks(DIGITS) {
        sections.push(segment(name, b"\x01"))?;
    }
    sections.push(segment(b"last", last))?;
    Ok(sections)
}

/// How an executable is written, how many bytes are written, and the last one.
type Written = (Ended, u64, u8);

/// That of these objects.
fn written(alloc: Global, objects: &[Object<'_>], options: &Options<'_>) -> Written {
    let mut counter = Counter { taken: 0, last: 0 };
    let ended = write_linked(alloc, objects, options, &mut counter);
    (ended, counter.taken, counter.last)
}

/// That of an object of these sections, each at a page of its own.
fn outcome_with(
    alloc: Global,
    sections: Vec<Section<'_>>,
    page: u64,
) -> Result<Written, ObjectFault> {
    let objects = [object(alloc, Order::Little, sections, Vec::new(alloc))?];
    Ok(written(alloc, &objects, &options(0, page, None)))
}

/// That of one of so many sections of one byte, and of the last one.
fn outcome(alloc: Global, count: usize, last: &[u8], page: u64) -> Result<Written, ObjectFault> {
    let Ok(names) = numbered(alloc, count) else {
        return Err(ObjectFault::OutOfMemory);
    };
    let sections = sections(alloc, names.as_bytes(), last)?;
    outcome_with(alloc, sections, page)
}

/// Of one that is too long nothing is written.
const TOO_LONG: Written = (Ok(Err(ExecFault::TooLong)), 0, 0);

// A file of 65,534 segments is 64 + 56 * 65,534 bytes of records, and a byte of each segment.
#[test]
fn the_most_segments_and_one_more(rt: HostRuntime) {
    let most = outcome(rt.alloc(), 65_533, b"\x02", 1);
    let more = outcome(rt.alloc(), 65_534, b"\x02", 1);
    assert_same(&rt, most, Ok((Ok(Ok(())), 64 + 57 * 65_534, 2)));
    assert_same(&rt, more, Ok(TOO_LONG));
}

/// What is written of 32,712 segments, each at a page of 32,768 bytes, of which the last one has so many bytes.
fn outcome_of(alloc: Global, len: usize) -> Result<Written, ObjectFault> {
    let last = vec![in alloc; 3; len]?;
    outcome(alloc, 32_711, &last, 0x8000)
}

// The records take 64 + 56 * 32,712 bytes, somewhat less than 56 pages, and the segments the other ones of 32,768.
#[test]
fn the_longest_file_and_one_byte_more(rt: HostRuntime) {
    let longest = outcome_of(rt.alloc(), 0x8000);
    let longer = outcome_of(rt.alloc(), 0x8001);
    assert_same(&rt, longest, Ok((Ok(Ok(())), 1 << 30, 3)));
    assert_same(&rt, longer, Ok(TOO_LONG));
}
