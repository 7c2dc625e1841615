//! Where the parts of an object are in its file.
use crate::asserts::assert_same;
use elf_field::Order;
use elf_object_layout::{LayoutFault, lay_out};
use elf_object_type::{Body, Object, ObjectFault, Section};
use std::alloc::{AllocError, Global};
use tests_files::{object, section};

/// Of a layout how many sections its file has, how long it is, and where its section header table is.
type Numbers = (usize, u64, u64);

/// The numbers of the layout of this object.
fn numbers_of(alloc: Global, object: &Object<'_>) -> Result<Numbers, LayoutFault> {
    let layout = lay_out(alloc, object)?;
    Ok((layout.section_count(), layout.length(), layout.table()))
}

/// The numbers of an object of these sections, without symbols.
fn numbers_with(
    alloc: Global,
    sections: Vec<Section<'_>>,
) -> Result<Result<Numbers, LayoutFault>, ObjectFault> {
    let object = object(alloc, Order::Little, sections, Vec::new(alloc))?;
    Ok(numbers_of(alloc, &object))
}

/// The numbers of an object of so many sections with these contents, all of one name, flags and alignment.
fn numbers(
    alloc: Global,
    count: usize,
    name: &[u8],
    content: &[u8],
    align: u64,
) -> Result<Result<Numbers, LayoutFault>, ObjectFault> {
    let mut sections = Vec::new(alloc);
    for _ in 0..count {
        sections.push(section(name, 6, align, Body::Bits(1, content)))?;
    }
    numbers_with(alloc, sections)
}

// Of no section and of one. Around the first reserved index a section more takes a section header more, and nothing else. An empty content
// is placed too, and may make the layout too long.
#[test]
fn sections_are_laid_out(rt: HostRuntime) {
    let found = [
        numbers(rt.alloc(), 0, b"", b"", 0),
        numbers(rt.alloc(), 1, b".text", b"\xc3", 16),
        numbers(rt.alloc(), 65_275, b"", b"", 1),
        numbers(rt.alloc(), 65_276, b"", b"", 1),
        numbers(rt.alloc(), 65_277, b"", b"", 1),
        numbers(rt.alloc(), 1, b"", b"", 1 << 30),
        numbers(rt.alloc(), 2, b"", b"\0", 1 << 63),
    ];
    let expected = [
        Ok(Ok((4, 376, 120))),
        Ok(Ok((5, 456, 136))),
        Ok(Ok((65_279, 4_177_976, 120))),
        Ok(Ok((65_280, 4_178_040, 120))),
        Ok(Ok((65_281, 4_178_104, 120))),
        Ok(Err(LayoutFault::TooLong)),
        Ok(Err(LayoutFault::TooLong)),
    ];
    assert_same(&rt, found, expected);
}

/// Sections of one byte with the alignments 2^29, 2^28 and so on, so that each ends a half of what is left of 2^30 bytes; the last of them
/// is aligned to 4,096 and has these bytes. One of them is `.text`, and one is `.rela.text`.
fn halves(alloc: Global, last: &[u8]) -> Result<Vec<Section<'_>>, AllocError> {
    let mut sections = Vec::new(alloc);
    let mut align = 1 << 29;
    for k in 0..18 {
        let name: &[u8] = match k {
            0 => b".text",
            1 => b".rela.text",
            _ => b"",
        };
        let content: &[u8] = if k == 17 { last } else { b"\xc3" };
        sections.push(section(name, 6, align, Body::Bits(1, content)))?;
        align /= 2;
    }
    Ok(sections)
}

/// The numbers of the layout of these.
fn numbers_of_halves(
    alloc: Global,
    last: &[u8],
) -> Result<Result<Numbers, LayoutFault>, ObjectFault> {
    let sections = halves(alloc, last)?;
    numbers_with(alloc, sections)
}

// At 2^30 - 4,096 the last content begins, and after it are 24 + 1 + 38 bytes and 22 section headers: 38, and not 44, since `.text` is
// within `.rela.text`.
#[test]
fn shared_names_count_once(rt: HostRuntime) {
    let content = [0; 2625];
    let longest = numbers_of_halves(rt.alloc(), &content[..2624]);
    let too_long = numbers_of_halves(rt.alloc(), &content);
    let numbers = (22, 1 << 30, (1 << 30) - 22 * 64);
    assert_same(
        &rt,
        [longest, too_long],
        [Ok(Ok(numbers)), Ok(Err(LayoutFault::TooLong))],
    );
}
