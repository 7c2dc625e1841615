//! The 66 files of a large link. Each has four sections of 16 bytes, which go by turns to 40 outputs, so that there are 264 in all. It
//! defines 17 names, one of them long, and has five fields, in its section 1.
//!
//! Section `s` of file `f` is number `4 f + s`. Number `k` goes to output `k mod 40`, as its member `k / 40`: that is where it is.
use crate::parts::{WEAK, data};
use elf_field::Order;
use elf_object_type::{Object, ObjectFault, Place, Relocation, Section, Symbol};
use std::alloc::{AllocError, Global};
use std::fmt::Write;
use std::test::Fail;
use tests_files::{GLOBAL, list, object, relocs, symbol};

/// How many files there are.
pub(crate) const FILES: u8 = 66;

/// How many sections there are in memory: four a file.
pub(crate) const SECTIONS: u16 = 264;

/// How many outputs there are.
pub(crate) const OUTPUTS: u16 = 40;

/// The symbol with the long name, of each file.
pub(crate) const LONG: u8 = 16;

/// The byte order and the base of each of two links.
pub(crate) const LINKS: [(Order, u64); 2] = [
    (Order::Little, 0x1_0000),
    (Order::Big, 0x8000_0000_0000_0000),
];

/// The numbers below 1,056 with four digits each, one after the other.
pub(crate) fn digits(alloc: Global) -> Result<String, Fail> {
    let mut digits = String::new(alloc);
    for number in 0..1_056 {
        write!(digits, "{number:04}")?;
    }
    Ok(digits)
}

/// The four digits of a number.
pub(crate) fn short_name(digits: &[u8], number: u16) -> &[u8] {
    let start = 4 * number as usize;
    digits.get(start..start + 4).unwrap_or(b"")
}

/// A name of 240 letters, and of one more for each file before.
pub(crate) fn long_name(digits: &[u8], file: u8) -> &[u8] {
    digits.get(..240 + file as usize).unwrap_or(b"")
}

/// The name that a symbol of a file defines.
pub(crate) fn name_of(digits: &[u8], file: u8, index: u8) -> &[u8] {
    if index == LONG {
        return long_name(digits, file);
    }
    short_name(digits, 16 * file as u16 + index as u16)
}

/// Where a section is, by its number.
pub(crate) fn address_of(base: u64, number: u16) -> u64 {
    let distance = 0x1000 * (number % OUTPUTS) as u64 + 16 * (number / OUTPUTS) as u64;
    base.wrapping_add(distance)
}

/// A definition of a file: symbol `i` has the value `i`, in section `i mod 4`. That of the long name is weak.
fn definition(digits: &[u8], file: u8, index: u8) -> Symbol<'_> {
    let info = if index == LONG { WEAK } else { GLOBAL };
    let place = Place::In(index as usize % 4);
    symbol(name_of(digits, file, index), info, place, index as u64)
}

/// The symbols of a file, of which the last one refers to the first one of the first file.
fn symbols(alloc: Global, digits: &[u8], file: u8) -> Result<Vec<Symbol<'_>>, AllocError> {
    let mut symbols = Vec::new(alloc);
    for index in 0..17 {
        symbols.push(definition(digits, file, index))?;
    }
    symbols.push(symbol(short_name(digits, 0), GLOBAL, Place::Undef, 0))?;
    Ok(symbols)
}

/// A relocation of this kind.
fn entry(offset: u64, kind: u32, symbol: Option<usize>, addend: i64) -> Relocation {
    Relocation {
        offset,
        symbol,
        kind,
        addend,
    }
}

/// The relocations of a file, of kinds 1 to 5 in this order. The second one has no symbol.
fn entries(alloc: Global, file: u8) -> Result<Vec<Relocation>, AllocError> {
    list(
        alloc,
        [
            entry(0, 1, Some(5), -6),
            entry(1, 2, None, 100 + file as i64),
            entry(2, 3, Some(16), 0),
            entry(4, 4, Some(17), -4),
            entry(8, 5, Some(17), 1),
        ],
    )
}

/// A section of 16 bytes of a file.
fn section(digits: &[u8], file: u8, section: u8) -> Section<'_> {
    let number = 4 * file as u16 + section as u16;
    data(short_name(digits, number % OUTPUTS), b"0123456789abcdef")
}

/// The sections of a file, and after them its relocations.
fn sections(alloc: Global, digits: &[u8], file: u8) -> Result<Vec<Section<'_>>, AllocError> {
    let entries = entries(alloc, file)?;
    list(
        alloc,
        [
            section(digits, file, 0),
            section(digits, file, 1),
            section(digits, file, 2),
            section(digits, file, 3),
            relocs(1, entries),
        ],
    )
}

/// A file.
fn file(alloc: Global, digits: &[u8], order: Order, file: u8) -> Result<Object<'_>, ObjectFault> {
    let sections = sections(alloc, digits, file)?;
    let symbols = symbols(alloc, digits, file)?;
    object(alloc, order, sections, symbols)
}

/// All files.
pub(crate) fn files(alloc: Global, digits: &[u8], order: Order) -> Result<Vec<Object<'_>>, Fail> {
    let mut files = Vec::new(alloc);
    for k in 0..FILES {
        files.push(file(alloc, digits, order, k)?)?;
    }
    Ok(files)
}
