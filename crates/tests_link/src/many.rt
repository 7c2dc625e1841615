//! Links of many names and many addends.
ghost use Rattle.std.specs.Prelude.{◌<◌};

use crate::asserts::assert_same;
use crate::parts::{data, mapped, relocated_bytes, rule};
use elf_field::Order;
use elf_link_field::{Form, Range, RelocRule, Width};
use elf_link_map::{Binding, LinkFault, LinkMap};
use elf_link_relocate::relocate;
use elf_object_type::{Body, Object, ObjectFault, Place, Relocation, Section, Symbol};
use std::alloc::{AllocError, Global};
use std::test::Fail;
use tests_files::{DIGITS, GLOBAL, list, numbered, object, section, set, symbol};

// Forty thousand fields of one, two, four and eight bytes, whose addends are in them.

/// How many groups of four fields there are, side by side.
const GROUPS: usize = 10_000;

/// The bytes of a group.
const SIZE: u64 = 15;

/// The value of the symbol.
const VALUE: u64 = 50;

/// The number of a group, in one, two, four and eight bytes.
fn group(order: Order, number: u64) -> [u8; 15] {
    let fields = [
        (0, 1, number),
        (1, 2, number),
        (3, 4, number),
        (7, 8, number),
    ];
    let mut bytes = [0; 15];
    set(&mut bytes, order, &fields);
    bytes
}

/// The bytes of all groups, where the addends of each are a number from 0 down to -99, and this is added to them.
fn groups(alloc: Global, order: Order, value: u64) -> Result<Vec<u8>, AllocError> {
    let mut bytes = Vec::new(alloc);
    for position in 0..GROUPS {
        let addend = 0_u64.wrapping_sub(position as u64 % 100);
        bytes.extend_from_slice(&group(order, value.wrapping_add(addend)))?;
    }
    Ok(bytes)
}

/// Adds the entries of a group.
fn push_entries(group: usize, entries: &mut Vec<Relocation>) -> Result<(), AllocError>
    requires { group < 10000 }
{
    for (kind, distance) in [(1, 0), (2, 1), (3, 3), (4, 7)] {
        entries.push(Relocation {
            offset: (SIZE * group as u64).wrapping_add(distance),
            symbol: Some(0),
            kind,
            addend: 0,
        })?;
    }
    Ok(())
}

/// The entries of all groups.
fn entries(alloc: Global) -> Result<Vec<Relocation>, AllocError> {
    let mut entries = Vec::new(alloc);
    for group in 0..GROUPS {
        push_entries(group, &mut entries)?;
    }
    Ok(entries)
}

/// A section of relocations without addends beside them.
fn rel<'a>(entries: Vec<Relocation>) -> Section<'a> {
    let body = Body::Relocs {
        rela: false,
        target: 0,
        entries: entries.into(),
    };
    Section {
        entsize: 16,
        ..section(b".rel", 0, 8, body)
    }
}

/// A section of these bytes with the relocations, and the symbol.
fn file(alloc: Global, order: Order, content: &[u8]) -> Result<Object<'_>, ObjectFault> {
    let sections = list(alloc, [data(b".data", content), rel(entries(alloc)?)])?;
    let symbols = list(alloc, [symbol(b"x", GLOBAL, Place::Abs, VALUE)])?;
    object(alloc, order, sections, symbols)
}

/// The rules of the four kinds of fields.
fn rules() -> [RelocRule; 4] {
    [
        rule(1, Form::Abs, Width::W1, Range::Signed),
        rule(2, Form::Abs, Width::W2, Range::Signed),
        rule(3, Form::Abs, Width::W4, Range::Signed),
        rule(4, Form::Abs, Width::W8, Range::Signed),
    ]
}

/// Whether the link of these objects leaves these bytes in section 0 of the first one.
fn leaves(alloc: Global, objects: &[Object<'_>], bytes: &[u8]) -> Result<bool, LinkFault> {
    let relocated = relocated_bytes(alloc, objects, &rules())?;
    Ok(relocated.as_slice() == bytes)
}

/// Whether each field holds the symbol's value and the addend that was in it.
fn holds_sums(alloc: Global, order: Order) -> Result<Result<bool, LinkFault>, ObjectFault> {
    let content = groups(alloc, order, 0)?;
    let wanted = groups(alloc, order, VALUE)?;
    let objects = [file(alloc, order, &content)?];
    Ok(leaves(alloc, &objects, &wanted))
}

#[test]
fn forty_thousand_addends_in_their_fields(rt: HostRuntime) {
    let held = [
        holds_sums(rt.alloc(), Order::Little),
        holds_sums(rt.alloc(), Order::Big),
    ];
    assert_same(&rt, held, [Ok(Ok(true)); 2]);
}

// An object of a million symbols, more than 2^20, each of a name of its own.

const COUNT: usize = 1_048_577;

/// The symbols of these names.
fn symbols(alloc: Global, names: &[u8]) -> Result<Vec<Symbol<'_>>, AllocError> {
    let mut symbols = Vec::with_capacity(alloc, COUNT)?;
    for name in names.chunks(DIGITS) {
        symbols.push(symbol(name, GLOBAL, Place::Abs, 0))?;
    }
    Ok(symbols)
}

/// The link map of an object of all symbols.
fn linked(alloc: Global, names: &[u8]) -> Result<LinkMap<'_>, Fail> {
    let symbols = symbols(alloc, names)?;
    let objects = [object(alloc, Order::Little, Vec::new(alloc), symbols)?];
    let link = mapped(alloc, &objects, 0x1000, None)?;
    // It takes an index for each symbol.
    relocate(alloc, &link, &objects, &[])?;
    Ok(link)
}

/// The first position whose name is not bound to the symbol there.
fn first_wrong(link: &LinkMap<'_>) -> Option<usize> {
    let names = link.names();
    for position in 0..names.len() {
        let definition = Binding::Strong {
            file: 0,
            symbol: position,
        };
        if names[position].binding != definition {
            return Some(position);
        }
    }
    None
}

/// How many names a link has, the first one that is bound otherwise, and the bindings of the last one and of none.
type Seen = (usize, Option<usize>, [Option<Binding>; 2]);

fn seen(link: &LinkMap<'_>) -> Seen {
    let bindings = [link.binding(b"1048576"), link.binding(b"1048577")];
    (link.names().len(), first_wrong(link), bindings)
}

/// The names and bindings of the link of all symbols.
fn seen_of_all(alloc: Global) -> Result<Seen, Fail> {
    let names = numbered(alloc, COUNT)?;
    let link = linked(alloc, names.as_bytes())?;
    Ok(seen(&link))
}

#[test]
fn a_million_names(rt: HostRuntime) -> Result<(), Fail> {
    let last = Binding::Strong {
        file: 0,
        symbol: 1_048_576,
    };
    let seen = seen_of_all(rt.alloc())?;
    assert_same(&rt, seen, (COUNT, None, [Some(last), None]));
    Ok(())
}
