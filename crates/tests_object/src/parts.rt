//! Rules 1 to 5 and 7 to 9 of objects: made from three sections and two symbols.
use crate::asserts::assert_same;
use elf_field::Order;
use elf_object_type::{Body, ObjectFault, Place, Relocation, Section, Symbol, rules};
use std::alloc::{AllocError, Global};
use tests_files::{list, object};

/// A section of this body, with entries of this size.
pub(crate) fn section(flags: u64, entsize: u64, body: Body<'static>) -> Section<'static> {
    Section {
        entsize,
        ..tests_files::section(b"s", flags, 4, body)
    }
}

/// Two bytes.
pub(crate) fn bits(flags: u64) -> Section<'static> {
    section(flags, 0, Body::Bits(1, b"\x90\xc3"))
}

/// A symbol of this binding.
pub(crate) fn symbol(binding: u8, place: Place) -> Symbol<'static> {
    Symbol {
        name: b"f",
        info: if binding == 0 { 0 } else { 0x12 },
        other: 0,
        place,
        value: 0,
        size: 2,
    }
}

fn entry(addend: i64) -> Relocation {
    Relocation {
        offset: 1,
        symbol: Some(1),
        kind: 2,
        addend,
    }
}

/// Two bytes, a section without bits, and a relocation of the first.
fn sections(alloc: Global, rela: bool, entsize: u64) -> Result<Vec<Section<'static>>, AllocError> {
    let entries = vec![in alloc; entry(0)]?;
    let relocs = Body::Relocs {
        rela,
        target: 0,
        entries: entries.into(),
    };
    Ok(vec![in alloc;
        bits(6),
        section(3, 0, Body::NoBits(8)),
        section(0, entsize, relocs),
    ]?)
}

fn symbols(alloc: Global) -> Result<Vec<Symbol<'static>>, AllocError> {
    Ok(vec![in alloc; symbol(0, Place::In(0)), symbol(1, Place::Undef)]?)
}

/// Whether these sections and symbols are an object, or their fault.
pub(crate) fn fault_of(
    alloc: Global,
    sections: Vec<Section<'static>>,
    symbols: Vec<Symbol<'static>>,
) -> Result<(), ObjectFault> {
    object(alloc, Order::Little, sections, symbols)?;
    Ok(())
}

/// That of the three sections with relocations of this kind and size, and the two symbols.
fn validated(alloc: Global, rela: bool, entsize: u64) -> Result<(), ObjectFault> {
    let sections = sections(alloc, rela, entsize)?;
    fault_of(alloc, sections, symbols(alloc)?)
}

/// That of the three sections, with this one at this position, and the two symbols.
fn validated_with(
    alloc: Global,
    position: usize,
    section: Section<'static>,
) -> Result<(), ObjectFault> {
    let mut sections = sections(alloc, true, 24)?;
    if let Some(place) = sections.get_mut(position) {
        *place = section;
    }
    fault_of(alloc, sections, symbols(alloc)?)
}

/// That of the three sections, with one in the middle whose name has a zero.
fn validated_named(alloc: Global) -> Result<(), ObjectFault> {
    let named = Section {
        name: b"a\0",
        ..bits(6)
    };
    validated_with(alloc, 1, named)
}

fn in_section(rule: u16, position: usize) -> Result<(), ObjectFault> {
    Err(ObjectFault::Section { rule, position })
}

/// The fault of the sections, with one of this alignment and address in the middle.
fn validated_at(alloc: Global, align: u64, addr: u64) -> Result<(), ObjectFault> {
    let aligned = Section {
        align,
        addr,
        ..bits(6)
    };
    validated_with(alloc, 1, aligned)
}

/// The fault of the sections, with these relocations after them.
fn validated_relocs(
    alloc: Global,
    rela: bool,
    entsize: u64,
    target: usize,
    addend: i64,
) -> Result<(), ObjectFault> {
    let relocs = Body::Relocs {
        rela,
        target,
        entries: list(alloc, [entry(addend)])?.into(),
    };
    validated_with(alloc, 2, section(0, entsize, relocs))
}

// Parts that break no rule; and each rule of sections, at the section that breaks it.
#[test]
fn each_rule_of_sections_is_answered_at_its_section(rt: HostRuntime) {
    let alloc = rt.alloc();
    let validated = [
        validated(alloc, true, 24),
        validated(alloc, false, 16),
        fault_of(alloc, Vec::new(alloc), Vec::new(alloc)),
        validated_named(alloc),
        validated_with(alloc, 0, section(6, 0, Body::Bits(11, b""))),
        validated_at(alloc, 3, 0),
        validated_at(alloc, 8, 4),
        // A section without bits has no relocations.
        validated_relocs(alloc, true, 24, 1, 0),
        // A number where the flag says section, entries of another size, and REL with an addend.
        validated_with(alloc, 0, bits(0x46)),
        validated_relocs(alloc, false, 24, 0, 0),
        validated_relocs(alloc, false, 16, 0, -4),
    ];
    let expected = [
        Ok(()),
        Ok(()),
        Ok(()),
        in_section(rules::ZERO_IN_SECTION_NAME, 1),
        in_section(rules::WRONG_BITS_TYPE, 0),
        in_section(rules::WRONG_ALIGNMENT, 1),
        in_section(rules::WRONG_ALIGNMENT, 1),
        in_section(rules::WRONG_POSITION, 2),
        in_section(rules::WRONG_FIELD, 0),
        in_section(rules::WRONG_FIELD, 2),
        in_section(rules::WRONG_FIELD, 2),
    ];
    assert_same(&rt, validated, expected);
}

/// The fault of an object of these two symbols.
fn validated_symbols(
    alloc: Global,
    first: Symbol<'static>,
    second: Symbol<'static>,
) -> Result<(), ObjectFault> {
    let sections = sections(alloc, true, 24)?;
    fault_of(alloc, sections, list(alloc, [first, second])?)
}

fn at_symbol(rule: u16, position: usize) -> Result<(), ObjectFault> {
    Err(ObjectFault::Symbol { rule, position })
}

#[test]
fn each_rule_of_symbols_is_answered_at_its_symbol(rt: HostRuntime) {
    let alloc = rt.alloc();
    let named = Symbol {
        name: b"f\0",
        ..symbol(0, Place::In(0))
    };
    let past = symbol(0, Place::In(3));
    let late = symbol(0, Place::Common);
    let validated = [
        validated_symbols(alloc, named, symbol(1, Place::Undef)),
        validated_symbols(alloc, past, symbol(1, Place::Undef)),
        validated_symbols(alloc, symbol(1, Place::Abs), late),
    ];
    let expected = [
        at_symbol(rules::ZERO_IN_SYMBOL_NAME, 0),
        at_symbol(rules::WRONG_PLACE, 0),
        at_symbol(rules::MISPLACED_LOCAL, 1),
    ];
    assert_same(&rt, validated, expected);
}

// Rule 6 of objects: groups of two sections.

/// A group of these members.
fn group(members: Vec<usize>) -> Section<'static> {
    let body = Body::Group {
        comdat: true,
        signature: 0,
        members,
    };
    section(0, 4, body)
}

/// The fault of an object of these sections, and a symbol that signs their groups.
fn validated_of_group(alloc: Global, sections: Vec<Section<'static>>) -> Result<(), ObjectFault> {
    let symbols = list(alloc, [symbol(1, Place::Undef)])?;
    fault_of(alloc, sections, symbols)
}

/// That of a group of these members, and two sections of these flags.
fn validated_group(alloc: Global, members: [usize; 2], flags: u64) -> Result<(), ObjectFault> {
    let [first, second] = members;
    let group = group(list(alloc, [first, second])?);
    validated_of_group(alloc, list(alloc, [group, bits(flags), bits(0x200)])?)
}

/// That of two groups of one member, the same section.
fn validated_twice(alloc: Global) -> Result<(), ObjectFault> {
    let first = group(list(alloc, [2])?);
    let second = group(list(alloc, [2])?);
    validated_of_group(alloc, list(alloc, [first, second, bits(0x200)])?)
}

// Two members; one at no position; one named twice, the group itself, one without the flag GROUP, and a member of an earlier group too.
#[test]
fn wrong_members_are_answered_at_the_group(rt: HostRuntime) {
    let validated_of_group = [
        validated_group(rt.alloc(), [1, 2], 0x200),
        validated_group(rt.alloc(), [1, 9], 0x200),
        validated_group(rt.alloc(), [1, 1], 0x200),
        validated_group(rt.alloc(), [0, 1], 0x200),
        validated_group(rt.alloc(), [1, 2], 2),
        validated_twice(rt.alloc()),
    ];
    let past = in_section(rules::WRONG_POSITION, 0);
    let first = in_section(rules::WRONG_MEMBERSHIP, 0);
    let second = in_section(rules::WRONG_MEMBERSHIP, 1);
    assert_same(
        &rt,
        validated_of_group,
        [Ok(()), past, first, first, first, second],
    );
}
