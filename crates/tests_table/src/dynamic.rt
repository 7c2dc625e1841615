//! A dynamic section, of a file that names one library.
use crate::asserts::assert_same;
use elf_field::{Dyn, Order};
use elf_image::{Fault, Image, parse};
use elf_table::{Dynamic, Strings};
use std::alloc::Global;
use tests_files::{Field, set_header};

/// A dynamic section of two entries at 64, its string table at 96, and the section headers at 104.
const DYNAMIC: [Field; 16] = [
    (40, 8, 104),
    (58, 2, 64),
    (60, 2, 3),
    (64, 8, 1),
    (72, 8, 1),
    (97, 4, 0x6362_696c),
    (172, 4, 6),
    (192, 8, 64),
    (200, 8, 32),
    (208, 4, 2),
    (216, 8, 8),
    (224, 8, 16),
    (236, 4, 3),
    (256, 8, 96),
    (264, 8, 6),
    (280, 8, 1),
];

fn dynamic() -> [u8; 296] {
    let mut file = [0; 296];
    set_header(&mut file, Order::Little, &DYNAMIC);
    file
}

/// Whether the entries are one, which names the library.
fn names_one_library(dynamic: &Dynamic<'_>) -> bool {
    let library = Dyn { d_tag: 1, d_un: 1 };
    dynamic.len() == 1 && dynamic.entry(0) == library && dynamic.iter().count() == 1
}

/// The library that the first entry names.
fn first_library<'a>(dynamic: &Dynamic<'a>, strings: &Strings<'a>) -> Option<&'a [u8]> {
    let entry = dynamic.iter().next()?;
    strings.get(entry.d_un)
}

/// Both of the image's section 1.
fn seen_in<'a>(image: &Image<'a>) -> Result<(bool, Option<&'a [u8]>), Fault> {
    if image.section_count() < 3 {
        return Ok((false, None));
    }
    let dynamic = Dynamic::new(image, 1)?;
    let strings = Strings::new(image, 2)?;
    Ok((
        names_one_library(&dynamic),
        first_library(&dynamic, &strings),
    ))
}

/// Both of section 1 of a file. The library's name outlives the image.
fn seen(alloc: Global, file: &[u8]) -> Result<(bool, Option<&[u8]>), Fault> {
    let image = parse(alloc, file)?;
    seen_in(&image)
}

#[test]
fn reports_the_entries_before_the_end(rt: HostRuntime) {
    let file = dynamic();
    let seen = seen(rt.alloc(), &file);
    assert_same(&rt, seen, Ok((true, Some(b"libc".as_slice()))));
}
