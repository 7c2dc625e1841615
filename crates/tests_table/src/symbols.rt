//! Symbol tables, relocations and strings, of an object of a call, and of a file that has every part of a symbol table.
use crate::asserts::assert_same;
use elf_field::Order;
use elf_field::abi::*;
use elf_image::{Fault, Image, parse};
use elf_table::{Place, Relocation, Relocs, Strings, Symbol, Symbols, Tables, rules};
use std::alloc::Global;
use tests_files::{Field, caller, set_header};

/// The section header of its string table, section 4.
const STRINGS_HEADER: u64 = 232 + 4 * SHDR_SIZE;

/// A file without names, with a symbol table of three symbols at 64, its string table at 136, its index table at 140, one
/// more section of a word, and the section headers at 156.
const SYMBOLS: [Field; 29] = [
    (40, 8, 156),
    (58, 2, 64),
    (60, 2, 5),
    (88, 4, 1),
    (94, 2, 2),
    (112, 4, 2),
    (116, 1, 0x12),
    (118, 2, 0xfff1),
    (120, 8, 7),
    (128, 8, 9),
    (137, 1, 0x61),
    (138, 1, 0x62),
    (224, 4, 2),
    (244, 8, 64),
    (252, 8, 72),
    (260, 4, 2),
    (264, 4, 2),
    (276, 8, 24),
    (288, 4, 3),
    (308, 8, 136),
    (316, 8, 4),
    (352, 4, 18),
    (372, 8, 140),
    (380, 8, 12),
    (388, 4, 1),
    (404, 8, 4),
    (416, 4, 1),
    (436, 8, 152),
    (444, 8, 4),
];

fn symbols() -> [u8; 476] {
    let mut file = [0; 476];
    set_header(&mut file, Order::Little, &SYMBOLS);
    file
}

fn main_symbol() -> Symbol<'static> {
    Symbol {
        name: b"main",
        binding: 1,
        symbol_type: 0,
        other: 0,
        place: Place::Section(1),
        value: 0,
        size: 0,
    }
}

/// Whether they are the strings of the symbols of the call.
fn are_strings(strings: &Strings<'_>) -> bool {
    let expected: [Option<&[u8]>; 5] = [
        Some(b"main"),
        Some(b"callee"),
        Some(b"llee"),
        Some(b""),
        None,
    ];
    let seen = [
        strings.get(1),
        strings.get(6),
        strings.get(8),
        strings.get(12),
        strings.get(13),
    ];
    seen == expected
}

/// Whether they are its symbols.
fn are_symbols(symbols: &Symbols<'_>) -> bool {
    if symbols.len() != 3 {
        return false;
    }
    let callee = symbols.entry(2);
    symbols.entry(1) == main_symbol()
        && callee.name == b"callee".as_slice()
        && callee.place == Place::Undefined
        && symbols.iter().count() == 3
}

/// Whether they are its one relocation.
fn are_relocations(relocs: &Relocs<'_>) -> bool {
    let relocation = Relocation {
        offset: 1,
        symbol: 2,
        relocation_type: 2,
        addend: Some(-4),
    };
    relocs.len() == 1 && relocs.entry(0) == relocation && relocs.iter().count() == 1
}

/// Whether the tables of an image are so.
fn are_of_the_call(image: &Image<'_>) -> Result<[bool; 3], Fault> {
    if image.section_count() < 5 {
        return Ok([false; 3]);
    }
    let relocs = Relocs::new(image, 2)?;
    let symbols = Symbols::new(image, 3)?;
    let strings = Strings::new(image, 4)?;
    Ok([
        are_relocations(&relocs),
        are_symbols(&symbols),
        are_strings(&strings),
    ])
}

/// What the call reports of a file.
fn seen(alloc: Global, file: &[u8]) -> Result<[bool; 3], Fault> {
    let image = parse(alloc, file)?;
    are_of_the_call(&image)
}

/// Whether sections 0 and 3 of the image are accepted when all tables are validated; None if they are not there.
fn are_kept(alloc: Global, image: &Image<'_>) -> Result<Option<[bool; 2]>, Fault> {
    if image.section_count() < 4 {
        return Ok(None);
    }
    let tables = Tables::new(alloc, image)?;
    Ok(Some([tables.verdict(0).is_ok(), tables.verdict(3).is_ok()]))
}

/// Whether sections 0 and 3 of a file are accepted when all tables are validated; None if they are not there.
fn are_kept_with_the_other_tables(alloc: Global, file: &[u8]) -> Result<Option<[bool; 2]>, Fault> {
    let image = parse(alloc, file)?;
    are_kept(alloc, &image)
}

/// Why section 4 is no symbol table; None if it is one, or is not there.
fn other_type(image: &Image<'_>) -> Option<Fault> {
    if image.section_count() < 5 {
        return None;
    }
    Symbols::new(image, 4).err()
}

/// Why section 4 of a file is no symbol table; None if it is one, or is not there.
fn other_type_of(alloc: Global, file: &[u8]) -> Result<Option<Fault>, Fault> {
    let image = parse(alloc, file)?;
    Ok(other_type(&image))
}

/// The file's string table, section 4, is no symbol table.
const OTHER_TYPE: Fault = Fault::Rule {
    rule: rules::WRONG_TABLE_TYPE,
    at: STRINGS_HEADER + SH_TYPE_AT,
};

#[test]
fn reports_each_relocation_symbol_and_string(rt: HostRuntime) {
    let file = caller();
    let seen = seen(rt.alloc(), &file);
    let kept = are_kept_with_the_other_tables(rt.alloc(), &file);
    let fault = other_type_of(rt.alloc(), &file);
    assert_same(
        &rt,
        (seen, kept, fault),
        (Ok([true; 3]), Ok(Some([true; 2])), Ok(Some(OTHER_TYPE))),
    );
}

/// The name of symbol 2, and the string at 1. What a table reports lives as long as the file's bytes: longer than the table.
fn names_of<'a>(image: &Image<'a>) -> Result<(&'a [u8], Option<&'a [u8]>), Fault> {
    if image.section_count() < 3 {
        return Ok((&[], None));
    }
    let symbols = Symbols::new(image, 1)?;
    let strings = Strings::new(image, 2)?;
    if symbols.len() < 3 {
        return Ok((&[], None));
    }
    Ok((symbols.entry(2).name, strings.get(1)))
}

/// The name of symbol 2 of a file, and the string at 1. They live longer than the image.
fn names_of_file(alloc: Global, file: &[u8]) -> Result<(&[u8], Option<&[u8]>), Fault> {
    let image = parse(alloc, file)?;
    names_of(&image)
}

#[test]
fn names_outlive_the_image(rt: HostRuntime) {
    let file = symbols();
    let names = names_of_file(rt.alloc(), &file);
    assert_same(&rt, names, Ok((b"b".as_slice(), Some(b"ab".as_slice()))));
}
