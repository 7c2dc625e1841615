//! A function in one file that is called in another, linked by a hasher that gives 0 for every key: the map is the one that any other
//! hasher gives, which is in `cases/links.txt`, as are links of it that are refused.
use crate::asserts::assert_same;
use elf_field::Order;
use elf_link_map::{
    Binding, LinkFault, LinkMap, Member, Named, Options, map, map_indexed, name_indexes,
};
use elf_object_type::{Object, ObjectFault, Place};
use std::alloc::Global;
use std::hash::{BuildHasher, Hasher};
use std::process::Abort;
use std::test::Fail;
use tests_files::{GLOBAL, callee_object, caller_object, list, object, symbol};

/// A hasher that gives 0 for every key, so that all keys meet.
#[derive(Clone, Copy, Debug)]
struct Flat {
    state: u64,
}

impl Hasher for Flat {
    ghost write = { λ s _. s };

    ghost finish = { λ _. 0 };

    fn finish(&self) -> u64 {
        0
    }

    fn write(&mut self, _bytes: &[u8]) {}
}

impl BuildHasher for Flat {
    type Hasher = Flat;

    ghost build_hasher = { λ _. record { state = 0 } };

    fn build_hasher(&self) -> Flat {
        Flat { state: 0 }
    }
}

/// The caller and the function that it calls.
fn both(alloc: Global) -> Result<[Object<'static>; 2], ObjectFault> {
    Ok([caller_object(alloc)?, callee_object(alloc)?])
}

/// The link map of these objects, each output at its least place, which begins at `main`.
fn linked<'a>(alloc: Global, objects: &[Object<'a>]) -> Result<LinkMap<'a>, LinkFault> {
    let options = Options {
        base: 0x1000,
        page: 1,
        entry: Some(b"main"),
    };
    map(alloc, objects, &options, Flat { state: 0 })
}

/// The numbers of the first output: its address, its length and its flags, and how many members it has.
fn output_of(link: &LinkMap<'_>) -> Option<(u64, u64, u64, usize)> {
    let output = link.outputs().first()?;
    Some((
        output.address,
        output.length,
        output.flags,
        output.members.len(),
    ))
}

/// Whether the first output is `.text` of both files, with bits.
fn is_text(link: &LinkMap<'_>) -> bool {
    let members = [
        Member {
            file: 0,
            section: 0,
        },
        Member {
            file: 1,
            section: 0,
        },
    ];
    match link.outputs().first() {
        Some(output) => {
            output.name == b".text".as_slice()
                && !output.no_bits
                && output.members.as_slice() == members.as_slice()
        }
        None => false,
    }
}

/// The binding to a global definition at symbol 0 of this file.
fn strong(file: usize) -> Binding {
    Binding::Strong { file, symbol: 0 }
}

/// Where the sections are.
fn assert_places(rt: &impl Abort, link: &LinkMap<'_>) {
    let addresses = [
        link.address(0, 0),
        link.address(0, 1),
        link.address(1, 0),
        link.address(2, 0),
    ];
    assert_same(
        rt,
        (output_of(link), is_text(link), addresses),
        (
            Some((0x1000, 7, 6, 2)),
            true,
            [Some(0x1000), None, Some(0x1006), None],
        ),
    );
}

/// The numbers of the map.
fn assert_numbers(rt: &impl Abort, link: &LinkMap<'_>) {
    let numbers = [link.base(), link.page(), link.entry()];
    let counts = [link.outputs().len(), link.commons().len()];
    assert_same(rt, (numbers, counts), ([0x1000, 1, 0x1000], [1, 0]));
}

/// What the names are bound to, in order.
fn assert_names(rt: &impl Abort, link: &LinkMap<'_>) {
    let bindings = [
        link.binding(b"main"),
        link.binding(b"callee"),
        link.binding(b"other"),
    ];
    let names = [
        Named {
            name: b"main",
            binding: strong(0),
        },
        Named {
            name: b"callee",
            binding: strong(1),
        },
    ];
    assert_same(
        rt,
        (bindings, link.names()),
        ([Some(strong(0)), Some(strong(1)), None], names.as_slice()),
    );
}

// The example of the root of `elf_link_map`.
#[test]
fn maps_two_files(rt: HostRuntime) -> Result<(), Fail> {
    let objects = both(rt.alloc())?;
    let link = linked(rt.alloc(), &objects)?;
    assert_places(&rt, &link);
    assert_numbers(&rt, &link);
    assert_names(&rt, &link);
    Ok(())
}

// The index of a local symbol is 0, though a symbol that is not local has its name.

/// An object with a local symbol, and two that are not, the second one of its name.
fn named_local(alloc: Global) -> Result<Object<'static>, ObjectFault> {
    let symbols = list(
        alloc,
        [
            symbol(b"b", 0, Place::Abs, 1),
            symbol(b"a", GLOBAL, Place::Abs, 2),
            symbol(b"b", GLOBAL, Place::Abs, 3),
        ],
    )?;
    object(alloc, Order::Little, Vec::new(alloc), symbols)
}

/// The indexes of the first three symbols.
fn first_three(indexes: &[Vec<usize>]) -> Option<[usize; 3]> {
    let row = indexes.first()?;
    Some([*row.first()?, *row.get(1)?, *row.get(2)?])
}

/// The indexes that come with a map, and those that are looked up in it.
fn indexes_by(
    alloc: Global,
    objects: &[Object<'_>],
    options: &Options<'_>,
) -> Result<[Option<[usize; 3]>; 2], LinkFault> {
    let made = map_indexed(alloc, objects, options, Flat { state: 0 })?;
    let found = name_indexes(alloc, objects, &made.map)?;
    Ok([first_three(&made.indexes), first_three(&found)])
}

/// Both kinds of indexes of a link from 0x1000 on.
fn indexes_of(alloc: Global, objects: &[Object<'_>]) -> Result<[Option<[usize; 3]>; 2], LinkFault> {
    let options = Options {
        base: 0x1000,
        page: 1,
        entry: None,
    };
    indexes_by(alloc, objects, &options)
}

#[test]
fn index_of_a_named_local(rt: HostRuntime) -> Result<(), Fail> {
    let objects = [named_local(rt.alloc())?];
    let found = indexes_of(rt.alloc(), &objects)?;
    assert_same(&rt, found, [Some([0, 0, 1]); 2]);
    Ok(())
}
