//! Objects read from a file of a group with one member, a section beside it, relocations and a symbol table. Each of rules 70 to 79 broken
//! in it is in `cases/hand-written.txt`, under the rule's name.
use crate::asserts::assert_same;
use elf_field::Order;
use elf_field::abi::*;
use elf_image_stream::Fault;
use elf_image_type::parse;
use elf_object_reader::{object_of, rules};
use elf_object_type::{Body, Object, Place, Relocation, Section, Symbol};
use std::alloc::Global;
use tests_files::{Field, set, set_header};

/// The group at 64 with room for a further member, its member at 76, the section beside it at 80, a relocation at 88, two symbols
/// at 112 and their names at 160, the section names at 163; and the section headers at 168.
const OBJECT: [Field; 57] = [
    (40, 8, 168),
    (58, 2, 64),
    (60, 2, 8),
    (62, 2, 7),
    (64, 4, 1),
    (68, 4, 2),
    (72, 4, 3),
    (76, 1, 0xc3),
    (96, 8, 0x1_0000_0002),
    (104, 8, 0xffff_ffff_ffff_fffc),
    (136, 4, 1),
    (140, 1, 0x12),
    (142, 2, 2),
    (152, 8, 4),
    (161, 1, 0x66),
    (164, 1, 0x74),
    (236, 4, 17),
    (256, 8, 64),
    (264, 8, 8),
    (272, 4, 5),
    (276, 4, 1),
    (280, 8, 4),
    (288, 8, 4),
    (296, 4, 1),
    (300, 4, 1),
    (304, 8, 0x206),
    (320, 8, 76),
    (328, 8, 4),
    (344, 8, 4),
    (364, 4, 1),
    (368, 8, 3),
    (384, 8, 80),
    (392, 8, 4),
    (408, 8, 1),
    (428, 4, 4),
    (448, 8, 88),
    (456, 8, 24),
    (464, 4, 5),
    (468, 4, 2),
    (472, 8, 8),
    (480, 8, 24),
    (492, 4, 2),
    (512, 8, 112),
    (520, 8, 48),
    (528, 4, 6),
    (532, 4, 1),
    (536, 8, 8),
    (544, 8, 24),
    (556, 4, 3),
    (576, 8, 160),
    (584, 8, 3),
    (600, 8, 1),
    (620, 4, 3),
    (640, 8, 163),
    (648, 8, 3),
    (664, 8, 1),
    (672, 8, 0),
];

/// The section headers of the group's member, of the section beside it, and of the relocations.
const MEMBER: u64 = 168 + 2 * SHDR_SIZE;

const BESIDE: u64 = MEMBER + SHDR_SIZE;

const RELOCS: u64 = BESIDE + SHDR_SIZE;

fn object(order: Order) -> [u8; 680] {
    let mut file = [0; 680];
    set_header(&mut file, order, &OBJECT);
    file
}

/// The object of a file. It outlives the image that it is read from.
fn object_read(alloc: Global, file: &[u8]) -> Result<Object<'_>, Fault> {
    let image = parse(alloc, file)?;
    object_of(alloc, &image)
}

fn verdict_of(alloc: Global, file: &[u8]) -> Result<(), Fault> {
    object_read(alloc, file)?;
    Ok(())
}

/// Whether it is the COMDAT group of symbol 0 whose one member is section 1.
fn is_the_group(section: &Section<'_>) -> bool {
    match &section.body {
        Body::Group {
            comdat: true,
            signature: 0,
            members,
        } => matches!(members.as_slice(), [1]),
        _ => false,
    }
}

/// Whether they are the relocations of section 1: one of kind 2, of symbol 0 less 4.
fn are_the_relocations(section: &Section<'_>) -> bool {
    let expected = Relocation {
        offset: 0,
        symbol: Some(0),
        kind: 2,
        addend: -4,
    };
    match &section.body {
        Body::Relocs {
            rela: true,
            target: 1,
            entries,
        } => entries.len() == 1 && entries.entry(0) == expected,
        _ => false,
    }
}

/// Whether they are the four sections of the file: the group, its member, the section beside it and the relocations.
fn are_the_sections(sections: &[Section<'_>]) -> bool {
    match sections {
        [group, member, _, relocations] => {
            is_the_group(group)
                && member.name == b"t".as_slice()
                && member.flags == 0x206
                && are_the_relocations(relocations)
        }
        _ => false,
    }
}

/// Whether they are the one symbol after symbol 0.
fn are_the_symbols(symbols: &[Symbol<'_>]) -> bool {
    let symbol = Symbol {
        name: b"f",
        info: 0x12,
        other: 0,
        place: Place::In(1),
        value: 0,
        size: 4,
    };
    symbols == [symbol].as_slice()
}

/// The machine of the object of this file, and whether it has these sections and symbols.
fn seen(alloc: Global, file: &[u8]) -> Result<(u16, bool, bool), Fault> {
    let object = object_read(alloc, file)?;
    Ok((
        object.machine(),
        are_the_sections(object.sections()),
        are_the_symbols(object.symbols()),
    ))
}

#[test]
fn reports_the_sections_and_the_symbols_but_symbol_0(rt: HostRuntime) {
    let seen = [
        seen(rt.alloc(), &object(Order::Little)),
        seen(rt.alloc(), &object(Order::Big)),
    ];
    assert_same(&rt, seen, [Ok((62, true, true)); 2]);
}

/// The fields that make section 3 a group too: the word at 72 is its flags, and that at 76 its member.
const SECOND_GROUP: [Field; 11] = [
    (72, 4, 1),
    (76, 4, 4),
    (BESIDE + SH_TYPE_AT, 4, SHT_GROUP as u64),
    (BESIDE + SH_FLAGS_AT, 8, SHF_GROUP),
    (BESIDE + SH_OFFSET_AT, 8, 72),
    (BESIDE + SH_SIZE_AT, 8, 8),
    (BESIDE + SH_LINK_AT, 4, 5),
    (BESIDE + SH_INFO_AT, 4, 1),
    (BESIDE + SH_ENTSIZE_AT, 8, 4),
    (RELOCS + SH_FLAGS_AT, 8, SHF_GROUP),
    (MEMBER + SH_OFFSET_AT, 8, 80),
];

// A second group breaks no rule, but for a member that is one.
#[test]
fn reads_two_groups(rt: HostRuntime) {
    let mut file = object(Order::Little);
    set(&mut file, Order::Little, &SECOND_GROUP);
    let sound = verdict_of(rt.alloc(), &file);
    set(&mut file, Order::Little, &[(68, 4, 3)]);
    let broken = Fault::Rule {
        rule: rules::WRONG_GROUP_MEMBER,
        at: 68,
    };
    let verdict = verdict_of(rt.alloc(), &file);
    assert_same(&rt, [sound, verdict], [Ok(()), Err(broken)]);
}
