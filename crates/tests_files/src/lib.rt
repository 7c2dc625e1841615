//! Files for tests, given by their fields, in either byte order; objects by their parts; and readers, sources and writers that give or
//! take little, or fail at one call.
//!
//! ```
//! let mut file = [0; 64];
//! set_header(&mut file, Order::Big, &[]);
//! assert_eq!(rt; &file[..6], b"\x7fELF\x02\x02".as_slice());
//! ```
#![tactic(auto)]

mod files;
mod streams;

use elf_field::Order;
pub use files::{
    DIGITS, GLOBAL, callee, callee_object, caller, caller_object, empty_contents, empty_object,
    executable_of_a_call, filled_gap, header_alone, list, long_parts, numbered, object,
    one_section, one_segment, relocs, section, symbol, two_of_each,
};
pub use streams::{Counter, OnceFailingReader, OnceFailingWriter, PartialSource, Sink};

/// A field: its offset in the file, its width in bytes and its value.
pub type Field = (u64, usize, u64);

/// The header of a file without tables, but for byte 5.
const HEADER: [Field; 10] = [
    (0, 1, 0x7f),
    (1, 1, 0x45),
    (2, 1, 0x4c),
    (3, 1, 0x46),
    (4, 1, 2),
    (6, 1, 1),
    (16, 2, 1),
    (18, 2, 62),
    (20, 4, 1),
    (52, 2, 64),
];

/// Writes fields into a file.
pub fn set(file: &mut [u8], order: Order, fields: &[Field]) {
    for (offset, width, value) in fields {
        let (offset, width) = (*offset as usize, *width);
        if width <= 8 && offset <= file.len() && width <= file.len() - offset {
            let place = &mut file[offset..offset + width];
            match order {
                Order::Little => place.copy_from_slice(&value.to_le_bytes()[..width]),
                Order::Big => place.copy_from_slice(&value.to_be_bytes()[8 - width..]),
            }
        }
    }
}

/// Writes the header's bytes that all files here share, and then fields.
pub fn set_header(file: &mut [u8], order: Order, fields: &[Field]) {
    set(file, order, &HEADER);
    let data = match order {
        Order::Little => 1,
        Order::Big => 2,
    };
    set(file, order, &[(5, 1, data)]);
    set(file, order, fields);
}
