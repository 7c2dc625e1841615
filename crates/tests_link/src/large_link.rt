//! The large link: where its outputs and sections are, what its names are bound to, and its fields.
ghost use Rattle.elf_link_relocate.specs.Linked.{IsSoundMapButOptions};

use crate::asserts::assert_same;
use crate::large_files::{
    FILES, LINKS, LONG, OUTPUTS, SECTIONS, address_of, digits, files, long_name, name_of,
    short_name,
};
use crate::parts::{entry_of, mapped, rule};
use elf_field::Order;
use elf_link_field::{Form, Range, RelocRule, Width};
use elf_link_map::{Binding, LinkFault, LinkMap, Named, Output};
use elf_link_relocate::{Linked, relocate};
use elf_object_type::Object;
use std::alloc::Global;
use std::test::Fail;
use tests_files::set;

/// How many sections go to an output, and their bytes: 264 is six times 40 and 24.
fn size_of(output: u16) -> (usize, u64) {
    if output < 24 {
        (7, 7 * 16)
    } else {
        (6, 6 * 16)
    }
}

/// Whether an output has its name, its place and its members.
fn stands(output: &Output<'_>, digits: &[u8], base: u64, number: u16) -> bool {
    output.name == short_name(digits, number)
        && output.address == address_of(base, number)
        && (output.members.len(), output.length) == size_of(number)
}

/// The first output that is not as it has to be.
fn first_wrong_output(link: &LinkMap<'_>, digits: &[u8], base: u64) -> Option<u16> {
    let outputs = link.outputs();
    for number in 0..OUTPUTS {
        match outputs.get(number as usize) {
            Some(output) if stands(output, digits, base, number) => {}
            _ => return Some(number),
        }
    }
    None
}

/// The first section, by its number, that is not where it has to.
fn first_wrong_section(link: &LinkMap<'_>, base: u64) -> Option<u16> {
    for number in 0..SECTIONS {
        let address = link.address(number as usize / 4, number as usize % 4);
        if address != Some(address_of(base, number)) {
            return Some(number);
        }
    }
    None
}

/// How many names there are: 17 a file.
const NAMES: u16 = 1_122;

/// The definition of a name, at this symbol.
fn definition(file: u8, index: u8) -> Binding {
    let (file, symbol) = (file as usize, index as usize);
    if index == LONG {
        Binding::Weak { file, symbol }
    } else {
        Binding::Strong { file, symbol }
    }
}

/// The name at this position of all, with its binding: the names of each file in order, and of each those of its symbols.
fn named_at(digits: &[u8], position: u16) -> Named<'_> {
    let (file, index) = ((position / 17 % 256) as u8, (position % 17) as u8);
    Named {
        name: name_of(digits, file, index),
        binding: definition(file, index),
    }
}

/// The first name that is not bound to its definition, in the list or when it is looked up.
fn first_wrong_name(link: &LinkMap<'_>, digits: &[u8]) -> Option<u16> {
    let names = link.names();
    for position in 0..NAMES {
        let named = named_at(digits, position);
        if names.get(position as usize) != Some(&named)
            || link.binding(named.name) != Some(named.binding)
        {
            return Some(position);
        }
    }
    None
}

/// The bytes of section 1 of a file, its five fields. The first one is of symbol 5, five bytes after it, counts from itself and adds -6,
/// which is -1. The second one holds its addend alone. The third one is of symbol 16, 16 bytes after the start of section 0. The last two
/// are of the name that file 0 defines at the start of its section 0: the one counts from itself, four bytes after the start of its
/// section, and adds -4; the other one adds 1.
fn wanted(order: Order, base: u64, file: u8) -> [u8; 16] {
    let zeroth = address_of(base, 4 * file as u16);
    let own = address_of(base, 4 * file as u16 + 1);
    let first = address_of(base, 0);
    let fields = [
        (0, 1, 0xff),
        (1, 1, 100 + file as u64),
        (2, 2, zeroth.wrapping_add(16)),
        (4, 4, first.wrapping_sub(own).wrapping_sub(8)),
        (8, 8, first.wrapping_add(1)),
    ];
    let mut bytes = [0; 16];
    set(&mut bytes, order, &fields);
    bytes
}

/// The first file whose fields do not hold their numbers.
fn first_wrong_file(linked: &Linked<'_, '_>, order: Order, base: u64) -> Option<u8> {
    for file in 0..FILES {
        let bytes = wanted(order, base, file);
        if linked.bytes(file as usize, 1) != Some(bytes.as_slice()) {
            return Some(file);
        }
    }
    None
}

/// Of the map of a large link: how many outputs it has, and the first wrong one; the first section that is elsewhere; and how many names
/// it has, and the first one that is bound otherwise.
type Mapped = ((usize, Option<u16>), Option<u16>, (usize, Option<u16>));

/// What the map reports.
fn map_seen(link: &LinkMap<'_>, digits: &[u8], base: u64) -> Mapped {
    let output = first_wrong_output(link, digits, base);
    let name = first_wrong_name(link, digits);
    (
        (link.outputs().len(), output),
        first_wrong_section(link, base),
        (link.names().len(), name),
    )
}

/// The rules of the five kinds of fields.
fn rules() -> [RelocRule; 5] {
    [
        rule(1, Form::Pc, Width::W1, Range::Signed),
        rule(2, Form::Abs, Width::W1, Range::Unsigned),
        rule(3, Form::Abs, Width::W2, Range::Wrap),
        rule(4, Form::Pc, Width::W4, Range::Signed),
        rule(5, Form::Abs, Width::W8, Range::Unsigned),
    ]
}

/// The first file whose fields do not hold their numbers, in the link with this map.
fn fields_seen<'m, 'a>(
    alloc: Global,
    link: &'m LinkMap<'a>,
    objects: &'m [Object<'a>],
    order: Order,
    base: u64,
) -> Result<Option<u8>, LinkFault>
    requires { IsSoundMapButOptions objects.now link.now }
{
    let rules = rules();
    let linked = relocate(alloc, link, objects, &rules)?;
    Ok(first_wrong_file(&linked, order, base))
}

/// What the link of these objects, the files of the large link, reports: its map, and that file.
fn seen_of(
    alloc: Global,
    objects: &[Object<'_>],
    digits: &[u8],
    order: Order,
    base: u64,
) -> Result<(Mapped, Option<u8>), LinkFault> {
    let link = mapped(alloc, objects, base, None)?;
    let file = fields_seen(alloc, &link, objects, order, base)?;
    Ok((map_seen(&link, digits, base), file))
}

/// What the large link in this order, from this address on, reports.
fn seen(alloc: Global, order: Order, base: u64) -> Result<(Mapped, Option<u8>), Fail> {
    let digits = digits(alloc)?;
    let objects = files(alloc, digits.as_bytes(), order)?;
    Ok(seen_of(alloc, &objects, digits.as_bytes(), order, base)?)
}

#[test]
fn everything_stands_where_it_has_to(rt: HostRuntime) -> Result<(), Fail> {
    for (order, base) in &LINKS {
        let seen = seen(rt.alloc(), *order, *base)?;
        assert_same(&rt, seen, (((40, None), None, (1_122, None)), None));
    }
    Ok(())
}

/// Where the program begins that is linked from 2^63 on, with the long name of this file as its entry.
fn entry_at(alloc: Global, file: u8) -> Result<u64, Fail> {
    let digits = digits(alloc)?;
    let objects = files(alloc, digits.as_bytes(), Order::Big)?;
    let name = long_name(digits.as_bytes(), file);
    Ok(entry_of(alloc, &objects, 0x8000_0000_0000_0000, name)?)
}

/// Files, and where the program begins at their long names. Symbol 16 of file f has the value 16 in its section 0, which is number 4 f: in
/// output 20, 24, 28 or 0, after one or six others.
const ENTRIES: [(u8, u64); 4] = [
    (15, 0x8000_0000_0001_4020),
    (16, 0x8000_0000_0001_8020),
    (17, 0x8000_0000_0001_c020),
    (60, 0x8000_0000_0000_0070),
];

#[test]
fn begins_at_long_names_that_are_bound_weakly(rt: HostRuntime) -> Result<(), Fail> {
    for (file, want) in &ENTRIES {
        let entry = entry_at(rt.alloc(), *file)?;
        assert_same(&rt, entry, *want);
    }
    Ok(())
}
