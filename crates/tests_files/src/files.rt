//! Images and objects of generated files; and objects by their parts.
use crate::{Field, set_header};
use elf_field::Order;
use elf_object_type::{
    Body, Info, Object, ObjectFault, ObjectParts, Place, Relocation, Section, Symbol,
};
use std::alloc::{AllocError, Global};
use std::fmt;
use std::fmt::Write;

// Hand-written files of images, in either byte order.

/// The header's places and the section headers of an object without sections of its own.
const EMPTY_OBJECT: [Field; 22] = [
    (40, 8, 120),
    (58, 2, 64),
    (60, 2, 4),
    (62, 2, 3),
    (184, 4, 1),
    (188, 4, 2),
    (208, 8, 64),
    (216, 8, 24),
    (224, 4, 2),
    (228, 4, 1),
    (232, 8, 8),
    (240, 8, 24),
    (248, 4, 9),
    (252, 4, 3),
    (272, 8, 88),
    (280, 8, 1),
    (296, 8, 1),
    (312, 4, 17),
    (316, 4, 3),
    (336, 8, 89),
    (344, 8, 27),
    (360, 8, 1),
];

/// The fields of an object of one section `.text`, and its byte.
const ONE_SECTION: [Field; 29] = [
    (40, 8, 136),
    (58, 2, 64),
    (60, 2, 5),
    (62, 2, 4),
    (64, 1, 0xc3),
    (200, 4, 1),
    (204, 4, 1),
    (208, 8, 6),
    (224, 8, 64),
    (232, 8, 1),
    (248, 8, 16),
    (264, 4, 7),
    (268, 4, 2),
    (288, 8, 72),
    (296, 8, 24),
    (304, 4, 3),
    (308, 4, 1),
    (312, 8, 8),
    (320, 8, 24),
    (328, 4, 15),
    (332, 4, 3),
    (352, 8, 96),
    (360, 8, 1),
    (376, 8, 1),
    (392, 4, 23),
    (396, 4, 3),
    (416, 8, 97),
    (424, 8, 33),
    (440, 8, 1),
];
/// The fields of a file with a section of size 0 and one without bytes in the file, both far past its end.
const EMPTY_CONTENTS: [Field; 10] = [
    (40, 8, 64),
    (58, 2, 64),
    (60, 2, 3),
    (132, 4, 1),
    (152, 8, 1 << 63),
    (176, 8, 1),
    (196, 4, 8),
    (216, 8, 1 << 63),
    (224, 8, 1 << 60),
    (240, 8, 1),
];

/// The fields of a file of one loadable segment, and its program header.
const ONE_SEGMENT: [Field; 11] = [
    (16, 2, 2),
    (32, 8, 64),
    (54, 2, 56),
    (56, 2, 1),
    (64, 4, 1),
    (68, 4, 5),
    (80, 8, 0x1000),
    (88, 8, 0x1000),
    (96, 8, 120),
    (104, 8, 120),
    (112, 8, 0x1000),
];

/// The fields of a file of two loadable segments and two sections, with a gap between the sections.
const TWO_OF_EACH: [Field; 33] = [
    (16, 2, 2),
    (32, 8, 64),
    (40, 8, 192),
    (54, 2, 56),
    (56, 2, 2),
    (58, 2, 64),
    (60, 2, 3),
    (64, 4, 1),
    (68, 4, 5),
    (80, 8, 0x1000),
    (88, 8, 0x1000),
    (96, 8, 180),
    (104, 8, 180),
    (112, 8, 0x1000),
    (120, 4, 1),
    (124, 4, 6),
    (128, 8, 184),
    (136, 8, 0x20b8),
    (144, 8, 0x20b8),
    (152, 8, 8),
    (160, 8, 16),
    (168, 8, 0x1000),
    (260, 4, 1),
    (264, 8, 6),
    (272, 8, 0x10b0),
    (280, 8, 176),
    (288, 8, 4),
    (304, 8, 4),
    (324, 4, 1),
    (328, 8, 3),
    (336, 8, 0x20b8),
    (344, 8, 184),
    (352, 8, 8),
];

/// The fields of a file of one section, whose content and the gap before it are longer than a block.
const LONG_PARTS: [Field; 7] = [
    (40, 8, 64),
    (58, 2, 64),
    (60, 2, 2),
    (132, 4, 1),
    (152, 8, 9192),
    (160, 8, 9000),
    (176, 8, 8),
];

/// A header alone, without tables.
pub fn header_alone(order: Order) -> [u8; 64] {
    let mut file = [0; 64];
    set_header(&mut file, order, &[]);
    file
}

/// An object without sections and symbols of its own: a symbol table, its strings, and the names.
pub fn empty_object() -> [u8; 376] {
    let mut file = [0; 376];
    set_header(&mut file, Order::Little, &EMPTY_OBJECT);
    file[89..116].copy_from_slice(b"\0.symtab\0.strtab\0.shstrtab\0");
    file
}

/// That object with its gap filled.
pub fn filled_gap() -> [u8; 376] {
    let mut file = empty_object();
    file[116] = 1;
    file[117] = 2;
    file[118] = 3;
    file[119] = 4;
    file
}

/// An object of one section `.text`, which holds one byte.
pub fn one_section(order: Order) -> [u8; 456] {
    let mut file = [0; 456];
    set_header(&mut file, order, &ONE_SECTION);
    file[97..130].copy_from_slice(b"\0.text\0.symtab\0.strtab\0.shstrtab\0");
    file
}

/// A section of size 0, and one without bytes in the file, both with an offset far past its end.
pub fn empty_contents(order: Order) -> [u8; 256] {
    let mut file = [0; 256];
    set_header(&mut file, order, &EMPTY_CONTENTS);
    file
}

/// A file of one loadable segment, which is the whole file.
pub fn one_segment(order: Order) -> [u8; 120] {
    let mut file = [0; 120];
    set_header(&mut file, order, &ONE_SEGMENT);
    file
}

/// A file of two loadable segments and two sections without names: the header, the program header
/// table, the first content, a gap of four bytes that are not zero, the second content, and the
/// section header table.
pub fn two_of_each(order: Order) -> [u8; 384] {
    let mut file = [0; 384];
    set_header(&mut file, order, &TWO_OF_EACH);
    file[176..192].copy_from_slice(b"textgap.datadata");
    file
}

/// The header, two section headers, 9000 bytes in no section, and a content of 9000 bytes.
pub fn long_parts() -> [u8; 18192] {
    let mut file = [0; 18192];
    set_header(&mut file, Order::Little, &LONG_PARTS);
    for byte in &mut file[192..] {
        *byte = 7;
    }
    file
}

// Hand-written files of two objects: a function that calls another one, and that one.

/// The header's places, the code, the relocation, the symbols and the section headers of the caller.
const CALLER: [Field; 46] = [
    (40, 8, 232),
    (58, 2, 64),
    (60, 2, 6),
    (62, 2, 5),
    (64, 1, 0xe8),
    (69, 1, 0xc3),
    (72, 8, 1),
    (80, 8, 0x2_0000_0002),
    (88, 8, u64::MAX - 3),
    (120, 4, 1),
    (124, 1, 0x10),
    (126, 2, 1),
    (144, 4, 6),
    (148, 1, 0x10),
    (296, 4, 1),
    (300, 4, 1),
    (304, 8, 6),
    (320, 8, 64),
    (328, 8, 6),
    (344, 8, 1),
    (360, 4, 7),
    (364, 4, 4),
    (384, 8, 72),
    (392, 8, 24),
    (400, 4, 3),
    (404, 4, 1),
    (408, 8, 8),
    (416, 8, 24),
    (424, 4, 18),
    (428, 4, 2),
    (448, 8, 96),
    (456, 8, 72),
    (464, 4, 4),
    (468, 4, 1),
    (472, 8, 8),
    (480, 8, 24),
    (488, 4, 26),
    (492, 4, 3),
    (512, 8, 168),
    (520, 8, 13),
    (536, 8, 1),
    (552, 4, 34),
    (556, 4, 3),
    (576, 8, 181),
    (584, 8, 44),
    (600, 8, 1),
];

/// The fields of the callee, and its byte.
const CALLEE: [Field; 32] = [
    (40, 8, 168),
    (58, 2, 64),
    (60, 2, 5),
    (62, 2, 4),
    (64, 1, 0xc3),
    (96, 4, 1),
    (100, 1, 0x10),
    (102, 2, 1),
    (232, 4, 1),
    (236, 4, 1),
    (240, 8, 6),
    (256, 8, 64),
    (264, 8, 1),
    (280, 8, 1),
    (296, 4, 7),
    (300, 4, 2),
    (320, 8, 72),
    (328, 8, 48),
    (336, 4, 3),
    (340, 4, 1),
    (344, 8, 8),
    (352, 8, 24),
    (360, 4, 15),
    (364, 4, 3),
    (384, 8, 120),
    (392, 8, 8),
    (408, 8, 1),
    (424, 4, 23),
    (428, 4, 3),
    (448, 8, 128),
    (456, 8, 33),
    (472, 8, 1),
];

/// `main`, which calls `callee`: `.text`, its relocation, two symbols and their names.
pub fn caller() -> [u8; 616] {
    let mut file = [0; 616];
    set_header(&mut file, Order::Little, &CALLER);
    file[168..225].copy_from_slice(
        b"\0main\0callee\0\0.text\0.rela.text\0.symtab\0.strtab\0.shstrtab\0",
    );
    file
}

/// `callee`: one byte of `.text`, and one symbol.
pub fn callee() -> [u8; 488] {
    let mut file = [0; 488];
    set_header(&mut file, Order::Little, &CALLEE);
    file[120..161].copy_from_slice(b"\0callee\0\0.text\0.symtab\0.strtab\0.shstrtab\0");
    file
}

/// The header, the program header and the code of the executable of both at 0x1000, without a gap between them.
const EXECUTABLE_OF_A_CALL: [Field; 17] = [
    (16, 2, 2),
    (24, 8, 0x1000),
    (32, 8, 64),
    (54, 2, 56),
    (56, 2, 1),
    (64, 4, 1),
    (68, 4, 5),
    (72, 8, 120),
    (80, 8, 0x1000),
    (88, 8, 0x1000),
    (96, 8, 7),
    (104, 8, 7),
    (112, 8, 1),
    (120, 1, 0xe8),
    (121, 4, 1),
    (125, 1, 0xc3),
    (126, 1, 0xc3),
];

/// The executable of `main` and `callee`: the header, one program header, and a segment of seven bytes, the code with its call.
pub fn executable_of_a_call() -> [u8; 127] {
    let mut file = [0; 127];
    set_header(&mut file, Order::Little, &EXECUTABLE_OF_A_CALL);
    file
}

// Objects by their parts.

/// The info of a global symbol.
pub const GLOBAL: u8 = 0x10;

/// How many digits a numbered name has.
pub const DIGITS: usize = 7;

/// The decimal digits of the positions below this count, `DIGITS` each, one after the other.
pub fn numbered(alloc: Global, count: usize) -> Result<String, fmt::Error> {
    let mut names = String::new(alloc);
    for position in 0..count {
        write!(names, "{position:07}")?;
    }
    Ok(names)
}

/// These items, in a vector.
pub fn list<T: Drop, const N: usize>(alloc: Global, items: [T; N]) -> Result<Vec<T>, AllocError> {
    Ok(Vec::from_array(alloc, items)?)
}

/// A section without an address, a link and entries of its own.
pub fn section<'a>(name: &'a [u8], flags: u64, align: u64, body: Body<'a>) -> Section<'a> {
    Section {
        name,
        flags,
        addr: 0,
        align,
        entsize: 0,
        link: None,
        info: Info::Number(0),
        body,
    }
}

/// A section of relocations, with their addends beside them.
pub fn relocs<'a>(target: usize, entries: Vec<Relocation>) -> Section<'a> {
    let body = Body::Relocs {
        rela: true,
        target,
        entries: entries.into(),
    };
    Section {
        entsize: 24,
        ..section(b".rela", 0, 8, body)
    }
}

/// A symbol without a size.
pub fn symbol<'a>(name: &'a [u8], info: u8, place: Place, value: u64) -> Symbol<'a> {
    Symbol {
        name,
        info,
        other: 0,
        place,
        value,
        size: 0,
    }
}

/// An object of these sections and symbols, for machine 62.
pub fn object<'a>(
    alloc: Global,
    order: Order,
    sections: Vec<Section<'a>>,
    symbols: Vec<Symbol<'a>>,
) -> Result<Object<'a>, ObjectFault> {
    let parts = ObjectParts {
        order,
        osabi: 0,
        abi: 0,
        machine: 62,
        flags: 0,
        sections,
        symbols,
    };
    Object::new(alloc, parts)
}

/// The code of `main`, with its call.
fn caller_sections(alloc: Global) -> Result<Vec<Section<'static>>, AllocError> {
    let call = Relocation {
        offset: 1,
        symbol: Some(1),
        kind: 2,
        addend: -4,
    };
    let relocs = relocs(0, list(alloc, [call])?);
    let text = section(b".text", 6, 1, Body::Bits(1, b"\xe8\0\0\0\0\xc3"));
    list(alloc, [text, relocs])
}

/// `main`, and the name that it calls.
fn caller_symbols(alloc: Global) -> Result<Vec<Symbol<'static>>, AllocError> {
    list(
        alloc,
        [
            symbol(b"main", GLOBAL, Place::In(0), 0),
            symbol(b"callee", GLOBAL, Place::Undef, 0),
        ],
    )
}

/// `main`, which calls `callee`, as an object.
pub fn caller_object(alloc: Global) -> Result<Object<'static>, ObjectFault> {
    let sections = caller_sections(alloc)?;
    let symbols = caller_symbols(alloc)?;
    object(alloc, Order::Little, sections, symbols)
}

/// `callee`, at the start of its section.
pub fn callee_object(alloc: Global) -> Result<Object<'static>, ObjectFault> {
    let sections = list(alloc, [section(b".text", 6, 1, Body::Bits(1, b"\xc3"))])?;
    let symbols = list(alloc, [symbol(b"callee", GLOBAL, Place::In(0), 0)])?;
    object(alloc, Order::Little, sections, symbols)
}
