//! A section group, of a file of one group.
use crate::asserts::assert_same;
use elf_field::Order;
use elf_image::{Fault, Image, parse};
use elf_table::{Group, Symbols, Tables};
use std::alloc::Global;
use tests_files::{Field, set_header};

/// A group of one section, at 64 with room for a further member; that section at 76; two symbols at 80 and their names at 128; and
/// the section headers at 136.
const GROUP: [Field; 34] = [
    (40, 8, 136),
    (58, 2, 64),
    (60, 2, 5),
    (64, 4, 1),
    (68, 4, 2),
    (72, 4, 2),
    (76, 1, 0xc3),
    (104, 4, 1),
    (108, 1, 0x10),
    (110, 2, 2),
    (129, 1, 0x66),
    (204, 4, 17),
    (224, 8, 64),
    (232, 8, 8),
    (240, 4, 3),
    (244, 4, 1),
    (248, 8, 4),
    (256, 8, 4),
    (268, 4, 1),
    (272, 8, 0x206),
    (288, 8, 76),
    (296, 8, 1),
    (312, 8, 1),
    (332, 4, 2),
    (352, 8, 80),
    (360, 8, 48),
    (368, 4, 4),
    (372, 4, 1),
    (376, 8, 8),
    (384, 8, 24),
    (396, 4, 3),
    (416, 8, 128),
    (424, 8, 3),
    (440, 8, 1),
];

fn group() -> [u8; 456] {
    let mut file = [0; 456];
    set_header(&mut file, Order::Little, &GROUP);
    file
}

/// Whether the group has section 2 alone, and symbol 1 signs it.
fn has_one_member(group: &Group<'_>) -> bool {
    group.len() == 1
        && [group.flags(), group.signature(), group.entry(0)] == [1, 1, 2]
        && group.iter().count() == 1
}

/// The name of the group, which is that of its signature.
fn name_of<'a>(group: &Group<'a>, symbols: &Symbols<'a>) -> Option<&'a [u8]> {
    let signature = group.signature() as usize;
    if signature >= symbols.len() {
        return None;
    }
    Some(symbols.entry(signature).name)
}

/// Both of the image's section 1.
fn seen_in<'a>(alloc: Global, image: &Image<'a>) -> Result<(bool, Option<&'a [u8]>), Fault> {
    if image.section_count() < 4 {
        return Ok((false, None));
    }
    let group = Group::new(alloc, image, 1)?;
    let symbols = Symbols::new(image, 3)?;
    Ok((has_one_member(&group), name_of(&group, &symbols)))
}

/// Both of section 1 of a file. The group's name outlives the image.
fn seen(alloc: Global, file: &[u8]) -> Result<(bool, Option<&[u8]>), Fault> {
    let image = parse(alloc, file)?;
    seen_in(alloc, &image)
}

/// Whether section 1 of the image is refused when all tables are validated.
fn is_refused(alloc: Global, image: &Image<'_>) -> Result<bool, Fault> {
    if image.section_count() < 2 {
        return Ok(false);
    }
    let tables = Tables::new(alloc, image)?;
    Ok(tables.verdict(1).is_err())
}

/// Whether section 1 of the file is refused if the names of the signatures are cut.
fn is_refused_without_names(alloc: Global) -> Result<bool, Fault> {
    let mut file = group();
    file[424] = 2;
    let image = parse(alloc, &file)?;
    is_refused(alloc, &image)
}

// Where the names of the signatures are cut, the group is refused beside the other tables too.
#[test]
fn reports_a_group_its_name_and_its_members(rt: HostRuntime) {
    let file = group();
    let seen = seen(rt.alloc(), &file);
    let refused = is_refused_without_names(rt.alloc());
    assert_same(
        &rt,
        (seen, refused),
        (Ok((true, Some(b"f".as_slice()))), Ok(true)),
    );
}
