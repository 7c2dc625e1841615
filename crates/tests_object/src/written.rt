//! Objects as they are written, byte by byte: what is in their files is given field by field. An empty object, and one of a group, are in
//! `cases/hand-written.txt`.
use crate::asserts::assert_same;
use elf_field::Order;
use elf_object_file::write_object;
use elf_object_type::{
    Body, Info, Object, ObjectFault, ObjectParts, Place, Relocation, Section, Symbol,
};
use elf_object_writer::ObjectWriteFault;
use std::alloc::{AllocError, Global};
use std::process::Abort;
use std::test::Fail;
use tests_files::{
    Counter, DIGITS, Field, OnceFailingWriter, list, numbered, object, one_section, section, set,
    set_header, symbol,
};

/// A global function of one byte.
fn function<'a>(name: &'a [u8], place: Place) -> Symbol<'a> {
    Symbol {
        size: 1,
        ..symbol(name, 0x12, place, 0)
    }
}

/// A section of one byte of code.
fn text(align: u64) -> Section<'static> {
    section(b".text", 6, align, Body::Bits(1, b"\xc3"))
}

fn text_object(alloc: Global, order: Order) -> Result<Object<'static>, ObjectFault> {
    let sections = list(alloc, [text(16)])?;
    object(alloc, order, sections, Vec::new(alloc))
}

// All fields of the header, links, places of symbols, and relocations without addends.

/// A section without bytes, and with a link to another one.
fn space() -> Section<'static> {
    Section {
        addr: 0x1000,
        link: Some(1),
        ..section(b"a", 3, 0x1000, Body::NoBits(0x123456789))
    }
}

fn bits() -> Section<'static> {
    Section {
        info: Info::Section(0),
        entsize: 8,
        ..section(b"b", 0x40, 0, Body::Bits(7, b"123"))
    }
}

fn relocs(alloc: Global) -> Result<Section<'static>, AllocError> {
    let entry = Relocation {
        offset: 0x10,
        symbol: None,
        kind: 7,
        addend: 0,
    };
    let body = Body::Relocs {
        rela: false,
        target: 1,
        entries: list(alloc, [entry])?.into(),
    };
    Ok(Section {
        entsize: 16,
        ..section(b"a", 0, 8, body)
    })
}

fn many_sections(alloc: Global) -> Result<Vec<Section<'static>>, AllocError> {
    let relocs = relocs(alloc)?;
    list(alloc, [space(), bits(), relocs])
}

/// A symbol of each place.
fn many_symbols(alloc: Global) -> Result<Vec<Symbol<'static>>, AllocError> {
    let local = Symbol {
        info: 3,
        other: 2,
        ..function(b"", Place::In(0))
    };
    let number = Symbol {
        value: 5,
        ..function(b"b", Place::Abs)
    };
    let common = Symbol {
        value: 16,
        size: 0x87654321,
        ..function(b"ab", Place::Common)
    };
    let undefined = function(b"b", Place::Undef);
    list(alloc, [local, number, common, undefined])
}

fn many_fields(alloc: Global, order: Order) -> Result<Object<'static>, ObjectFault> {
    let parts = ObjectParts {
        order,
        osabi: 3,
        abi: 4,
        machine: 0x1234,
        flags: 0x89abcdef,
        sections: many_sections(alloc)?,
        symbols: many_symbols(alloc)?,
    };
    Object::new(alloc, parts)
}

/// Of the file of `many_fields`: the header's fields, the bytes of section `b`, the relocation, and the symbol table after the symbol of
/// index 0.
const MANY_FIELDS: [Field; 30] = [
    (7, 1, 3),
    (8, 1, 4),
    (18, 2, 0x1234),
    (40, 8, 248),
    (48, 4, 0x89abcdef),
    (58, 2, 64),
    (60, 2, 7),
    (62, 2, 6),
    (64, 1, 0x31),
    (65, 1, 0x32),
    (66, 1, 0x33),
    (72, 8, 0x10),
    (80, 8, 7),
    (116, 1, 3),
    (117, 1, 2),
    (118, 2, 1),
    (128, 8, 1),
    (136, 4, 2),
    (140, 1, 0x12),
    (142, 2, 0xfff1),
    (144, 8, 5),
    (152, 8, 1),
    (160, 4, 1),
    (164, 1, 0x12),
    (166, 2, 0xfff2),
    (168, 8, 16),
    (176, 8, 0x87654321),
    (184, 4, 2),
    (188, 1, 0x12),
    (200, 8, 1),
];

/// Of that file the section header table after section header 0. Each has the name, the type, the flags, the address, the offset, the size,
/// the link, the info, the alignment and the size of entries.
const MANY_HEADERS: [[u64; 10]; 6] = [
    [1, 8, 3, 0x1000, 64, 0x123456789, 2, 0, 0x1000, 0],
    [9, 7, 0x40, 0, 64, 3, 0, 1, 0, 8],
    [1, 9, 0, 0, 72, 16, 4, 2, 8, 16],
    [3, 2, 0, 0, 88, 120, 5, 2, 8, 24],
    [11, 3, 0, 0, 208, 4, 0, 0, 1, 0],
    [19, 3, 0, 0, 212, 29, 0, 0, 1, 0],
];

/// Where these fields are in a section header, and how wide.
const PLACES: [(u64, usize); 10] = [
    (0, 4),
    (4, 4),
    (8, 8),
    (16, 8),
    (24, 8),
    (32, 8),
    (40, 4),
    (44, 4),
    (48, 8),
    (56, 8),
];

/// Writes a section header.
fn set_section(file: &mut [u8], order: Order, at: u64, fields: &[u64; 10]) {
    for k in 0..10 {
        let (distance, width) = PLACES[k];
        set(
            file,
            order,
            &[(at.wrapping_add(distance), width, fields[k])],
        );
    }
}

fn many_fields_file(order: Order) -> [u8; 696] {
    let mut file = [0; 696];
    set_header(&mut file, order, &MANY_FIELDS);
    // The symbols `b` end with `ab`, and the section `b` with `.symtab`.
    file[208..241].copy_from_slice(b"\0ab\0\0a\0.symtab\0.strtab\0.shstrtab\0");
    let mut at = 312;
    for fields in &MANY_HEADERS {
        set_section(&mut file, order, at, fields);
        at = at.wrapping_add(64);
    }
    file
}

/// Whether an object is written as this file.
fn is_written(alloc: Global, object: &Object<'_>, file: &[u8]) -> Result<bool, ObjectWriteFault> {
    let mut bytes = Vec::new(alloc);
    write_object(alloc, object, &mut bytes)?;
    Ok(bytes.as_slice() == file)
}

/// Whether the object of one section is.
fn text_is_written(
    alloc: Global,
    order: Order,
) -> Result<Result<bool, ObjectWriteFault>, ObjectFault> {
    let object = text_object(alloc, order)?;
    Ok(is_written(alloc, &object, &one_section(order)))
}

/// Whether that of many fields is written so.
fn many_fields_is_written(
    alloc: Global,
    order: Order,
) -> Result<Result<bool, ObjectWriteFault>, ObjectFault> {
    let object = many_fields(alloc, order)?;
    Ok(is_written(alloc, &object, &many_fields_file(order)))
}

#[test]
fn objects_are_written_in_both_orders(rt: HostRuntime) {
    let found = [
        text_is_written(rt.alloc(), Order::Little),
        text_is_written(rt.alloc(), Order::Big),
        many_fields_is_written(rt.alloc(), Order::Little),
        many_fields_is_written(rt.alloc(), Order::Big),
    ];
    assert_same(&rt, found, [Ok(Ok(true)); 4]);
}

// In how many calls objects go out, and objects that are not written.

/// So many sections with empty names, this alignment and these contents.
fn equal_sections(
    alloc: Global,
    count: usize,
    align: u64,
    content: &'static [u8],
) -> Result<Vec<Section<'static>>, AllocError> {
    let mut sections = Vec::new(alloc);
    for _ in 0..count {
        sections.push(section(b"", 0, align, Body::Bits(1, content)))?;
    }
    Ok(sections)
}

/// How many calls a writer gets that takes all of an object.
fn call_count(alloc: Global, object: &Object<'_>) -> Result<usize, ObjectWriteFault> {
    let mut writer = OnceFailingWriter::new(alloc, usize::MAX, 0);
    write_object(alloc, object, &mut writer)?;
    Ok(writer.offers.len())
}

/// How many it gets of one of a thousand contents of a byte.
fn call_count_of_a_thousand(alloc: Global) -> Result<usize, Fail> {
    let sections = equal_sections(alloc, 1000, 16, b"\xc3")?;
    let object = object(alloc, Order::Little, sections, Vec::new(alloc))?;
    Ok(call_count(alloc, &object)?)
}

// A thousand contents of a byte, and the three tables after them, take one call beside that of the header, that of the zeros before the
// section header table, and one for each 64 section headers.
#[test]
fn short_contents_go_out_together(rt: HostRuntime) -> Result<(), Fail> {
    let calls = call_count_of_a_thousand(rt.alloc())?;
    assert!(rt; calls <= 19);
    Ok(())
}

/// What a write of an object of this alignment comes to, and how many bytes are written.
fn outcome(alloc: Global, align: u64) -> Result<(Result<(), ObjectWriteFault>, u64), ObjectFault> {
    let sections = list(alloc, [text(align)])?;
    let object = object(alloc, Order::Little, sections, Vec::new(alloc))?;
    let mut writer = Counter { taken: 0, last: 0 };
    let answer = write_object(alloc, &object, &mut writer);
    Ok((answer, writer.taken))
}

/// Alignments, and what a write of their objects comes to.
const OUTCOMES: [(u64, (Result<(), ObjectWriteFault>, u64)); 2] = [
    (1 << 20, (Ok(()), 1_048_968)),
    (1 << 30, (Err(ObjectWriteFault::TooLong), 0)),
];

// An object that is too long is not written, nor is one for which an allocation fails.
#[test]
fn nothing_is_written_of_what_is_refused(rt: HostRuntime) -> Result<(), Fail> {
    let refused = (Err(ObjectWriteFault::OutOfMemory), 0);
    for (align, expected) in &OUTCOMES {
        let found = outcome(rt.alloc(), *align)?;
        assert!(rt; found == *expected || found == refused);
    }
    Ok(())
}

// Objects around the first reserved section index, 0xff00, as they are written.

/// The file of an object.
fn written(alloc: Global, object: &Object<'_>) -> Result<Vec<u8>, ObjectWriteFault> {
    let mut bytes = Vec::new(alloc);
    write_object(alloc, object, &mut bytes)?;
    Ok(bytes)
}

/// That of an object of so many sections with empty names and contents, and of these symbols.
fn file_of(alloc: Global, count: usize, symbols: Vec<Symbol<'static>>) -> Result<Vec<u8>, Fail> {
    let sections = equal_sections(alloc, count, 1, b"")?;
    let object = object(alloc, Order::Little, sections, symbols)?;
    Ok(written(alloc, &object)?)
}

/// The number at an offset in a file, least significant byte first.
fn number(file: &[u8], at: usize, width: u32) -> u64 {
    let mut number = 0;
    for i in 0..width {
        let byte = match file.get(at.saturating_add(i as usize)) {
            Some(byte) => *byte,
            None => 0,
        };
        number |= (byte as u64).wrapping_shl(8u32.wrapping_mul(i));
    }
    number
}

/// Whether a file is so long and has these numbers, each given by its offset, its width and its value.
fn has_fields(file: &[u8], length: usize, fields: &[(usize, u32, u64)]) -> bool {
    for (at, width, value) in fields {
        if number(file, *at, *width) != *value {
            return false;
        }
    }
    file.len() == length
}

/// Whether the file of so many sections is so long, and has these numbers for its count of section headers and the index of its name table,
/// in the header and in section header 0.
fn counts(alloc: Global, count: usize, length: usize, numbers: [u64; 4]) -> Result<bool, Fail> {
    let file = file_of(alloc, count, Vec::new(alloc))?;
    let table = number(&file, 40, 8) as usize;
    let [e_shnum, e_shstrndx, size, link] = numbers;
    let fields = [
        (60, 2, e_shnum),
        (62, 2, e_shstrndx),
        (table.saturating_add(32), 8, size),
        (table.saturating_add(40), 4, link),
    ];
    Ok(has_fields(&file, length, &fields))
}

/// How many sections there are, how long the file is, and its numbers. Section header 0 holds a count or an index that is a reserved one.
const COUNTS: [(usize, usize, [u64; 4]); 3] = [
    (65_275, 4_177_976, [0xfeff, 0xfefe, 0, 0]),
    (65_276, 4_178_040, [0, 0xfeff, 65_280, 0]),
    (65_277, 4_178_104, [0, 0xffff, 65_281, 65_280]),
];

#[test]
fn counts_that_the_header_cannot_hold(rt: HostRuntime) -> Result<(), Fail> {
    for (count, length, numbers) in &COUNTS {
        let has_numbers = counts(rt.alloc(), *count, *length, *numbers)?;
        assert_same(&rt, (*count, has_numbers), (*count, true));
    }
    Ok(())
}

/// The file of 65,280 sections and of a symbol in the section of this position.
fn file_of_symbol_in(alloc: Global, position: usize) -> Result<Vec<u8>, Fail> {
    let symbols = list(alloc, [function(b"f", Place::In(position))])?;
    file_of(alloc, 65_280, symbols)
}

// The section of index 0xfeff is named by the symbol itself.
#[test]
fn a_symbol_below_the_reserved_indexes(rt: HostRuntime) -> Result<(), Fail> {
    let file = file_of_symbol_in(rt.alloc(), 65_278)?;
    let symbols = 144 + 64 * 65_281;
    let fields = [
        (94, 2, 0xfeff),
        (symbols + 4, 4, 2),
        (symbols + 40, 4, 65_282),
        (symbols + 64 + 4, 4, 3),
    ];
    let names = b"\0f\0\0.symtab\0.strtab\0.shstrtab\0".as_slice();
    assert_same(
        &rt,
        (has_fields(&file, 4_178_320, &fields), file.get(112..142)),
        (true, Some(names)),
    );
    Ok(())
}

// That of index 0xff00 by the index table.
#[test]
fn a_symbol_among_the_reserved_indexes(rt: HostRuntime) -> Result<(), Fail> {
    let file = file_of_symbol_in(rt.alloc(), 65_279)?;
    let symbols = 168 + 64 * 65_281;
    let index_table = symbols + 64;
    let fields = [
        (94, 2, 0xffff),
        (112, 4, 0),
        (116, 4, 0xff00),
        (symbols + 4, 4, 2),
        (symbols + 40, 4, 65_283),
        (index_table + 4, 4, 18),
        (index_table + 24, 8, 112),
        (index_table + 32, 8, 8),
        (index_table + 40, 4, 65_281),
        (index_table + 48, 8, 4),
        (index_table + 56, 8, 4),
    ];
    let names = b"\0f\0\0.symtab\0.symtab_shndx\0.strtab\0.shstrtab\0".as_slice();
    assert_same(
        &rt,
        (has_fields(&file, 4_178_408, &fields), file.get(120..164)),
        (true, Some(names)),
    );
    Ok(())
}

// An object of a million symbols, each of a name of its own.

const COUNT: usize = 1_000_000;

fn symbols<'a>(alloc: Global, names: &'a [u8]) -> Result<Vec<Symbol<'a>>, AllocError> {
    let mut symbols = Vec::with_capacity(alloc, COUNT)?;
    for name in names.chunks(DIGITS) {
        symbols.push(function(name, Place::Abs))?;
    }
    Ok(symbols)
}

/// The file of an object of symbols of these names.
fn file(alloc: Global, names: &[u8]) -> Result<Vec<u8>, Fail> {
    let symbols = symbols(alloc, names)?;
    let object = object(alloc, Order::Little, Vec::new(alloc), symbols)?;
    Ok(written(alloc, &object)?)
}

/// That of all names.
fn file_of_all(alloc: Global) -> Result<Vec<u8>, Fail> {
    let names = numbered(alloc, COUNT)?;
    file(alloc, names.as_bytes())
}

#[test]
fn a_million_symbols(rt: HostRuntime) -> Result<(), Fail> {
    let file = file_of_all(rt.alloc())?;
    // The header, the symbol table, two string tables, and at a multiple of 8 four section headers.
    let length = 64 + 24 * 1_000_001 + 8_000_001 + 27 + 4 + 4 * 64;
    // The last symbol's name is at 7,999,993 in the string table, and its eight bytes are the last ones there.
    let place = [0xf9, 0x11, 0x7a, 0].as_slice();
    assert_same(
        &rt,
        (
            file.len(),
            file.get(24_000_064..24_000_068),
            file.get(32_000_081..32_000_089),
        ),
        (length, Some(place), Some(b"0999999\0".as_slice())),
    );
    Ok(())
}
