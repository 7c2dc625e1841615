//! The end of a line, put together from its last word on, so that each number is where it belongs when its digits are made: at the end of a
//! text each word would be copied by itself.
//!
//! ```
//! use elf_tool_text::line_end::LineEnd;
//!
//! let mut line = LineEnd::new();
//! line.put(b"\n");
//! line.put_decimal(24);
//! line.put_hexadecimal(64);
//! line.put(b"part");
//! assert_eq!(rt; line.as_bytes(), b"part 0x40 24\n".as_slice());
//! ```
ghost use Rattle.std.specs.Prelude.{◌≡◌, ◌∷◌, ◌≤◌, ◌+◌, ◌*◌, ◌++◌, [], length};
ghost use Rattle.std.specs.Fmt.{decimal, signed_decimal};
ghost use Rattle.hex.specs.Hex.{encode_lower};
ghost use Rattle.elf_tool_check.specs.FileLines.{blank};
ghost use Rattle.elf_tool_text.specs.Line.{hexadecimal, name_tail};

use crate::digits::{WIDE_ROOM, glyph, put_before, put_decimal, put_hexadecimal, put_wide_digits};
use crate::line::is_plain;
use std::marker::Model;

/// How many bytes it may have. The most that a line of `show` has before a name are the 205 of a section's line, and each line pays for
/// these zeros.
pub const LINE_ROOM: usize = 208;

/// The most bytes of a number in decimal and the blank before it.
pub const DECIMAL_ROOM: usize = 21;

/// The most bytes of a signed number in decimal and the blank before it.
pub const SIGNED_ROOM: usize = 22;

/// The most bytes of a number in hexadecimal with `0x` and the blank before it.
pub const HEXADECIMAL_ROOM: usize = 19;

/// Room for a number of 128 bits in hexadecimal with `0x` and the blank before it.
pub const WIDE_HEXADECIMAL_ROOM: usize = WIDE_ROOM;

/// Room for a name and a line feed.
pub const NAME_ROOM: usize = 96;

/// The last bytes of a line.
#[derive(Drop)]
pub struct LineEnd {
    bytes: [u8; LINE_ROOM],
    start: usize,
}

impl Model for LineEnd {
    ghost use Rattle.std.specs.Prelude.{ℕ, List, drop, length, ◌≤◌};

    ghost Value = { List ℕ };

    ghost view = { λ a. drop a.start a.bytes };

    ghost invariant = { λ a. a.start ≤ length a.bytes };
}

impl LineEnd {
    /// The end of a line before which all is to come.
    pub fn new() -> LineEnd
        ensures { result ≡ [] }
    {
        LineEnd {
            bytes: [0; LINE_ROOM],
            start: LINE_ROOM,
        }
    }

    /// Puts a number in decimal, and a blank before it, before all that is there.
    pub fn put_decimal(&mut self, number: u64)
        requires room { length self.old + DECIMAL_ROOM ≤ LINE_ROOM }
        ensures bytes { self.new ≡ blank ∷ decimal number ++ self.old }
        ensures room { length self.new ≤ length self.old + DECIMAL_ROOM }
    {
        if number < 10 {
            self.start = put_before(&[b' ', glyph(number)], self.start, &mut self.bytes);
            return;
        }
        let first = put_decimal(number, self.start, &mut self.bytes);
        self.start = put_before(b" ", first, &mut self.bytes);
    }

    /// Puts a signed number in decimal, and a blank before it, before all that is there.
    pub fn put_signed(&mut self, number: i64)
        requires room { length self.old + SIGNED_ROOM ≤ LINE_ROOM }
        ensures bytes { self.new ≡ blank ∷ signed_decimal number ++ self.old }
        ensures room { length self.new ≤ length self.old + SIGNED_ROOM }
    {
        if number >= 0 {
            return self.put_decimal(number.unsigned_abs());
        }
        let first = put_decimal(number.unsigned_abs(), self.start, &mut self.bytes);
        self.start = put_before(b" -", first, &mut self.bytes);
    }

    /// Puts a number in hexadecimal, in lower case after `0x`, and a blank before it, before all that is there.
    pub fn put_hexadecimal(&mut self, number: u64)
        requires room { length self.old + HEXADECIMAL_ROOM ≤ LINE_ROOM }
        ensures bytes { self.new ≡ blank ∷ hexadecimal number ++ self.old }
        ensures room { length self.new ≤ length self.old + HEXADECIMAL_ROOM }
    {
        if number < 16 {
            self.start = put_before(
                &[b' ', b'0', b'x', glyph(number)],
                self.start,
                &mut self.bytes,
            );
            return;
        }
        let first = put_hexadecimal(number, self.start, &mut self.bytes);
        self.start = put_before(b" 0x", first, &mut self.bytes);
    }

    /// Puts a number that may be above 64 bits in hexadecimal, in lower case after `0x`, and a blank before it, before all that is there.
    pub fn put_wide_hexadecimal(&mut self, number: u128)
        requires room { length self.old + WIDE_HEXADECIMAL_ROOM ≤ LINE_ROOM }
        ensures bytes { self.new ≡ blank ∷ hexadecimal number ++ self.old }
        ensures room { length self.new ≤ length self.old + WIDE_HEXADECIMAL_ROOM }
    {
        if number <= u64::MAX as u128 {
            return self.put_hexadecimal(number as u64);
        }
        let mut digits = [0; WIDE_ROOM];
        let start = put_wide_digits(number, &mut digits);
        self.put(&digits[start..]);
        self.put(b" 0x");
    }

    /// Puts a name and a line feed where nothing is, if the name is plain and both are at most [`NAME_ROOM`] bytes. Returns whether it is
    /// so; else nothing is put.
    pub fn put_name(&mut self, name: &[u8]) -> bool
        requires empty { self.old ≡ [] }
        ensures bytes { self.new ≡ name_tail result name.now }
        ensures room { length self.new ≤ NAME_ROOM }
    {
        if name.len() >= NAME_ROOM || !is_plain(name) {
            return false;
        }
        self.put(b"\n");
        self.put(name);
        true
    }

    /// Puts bytes, each as two hexadecimal digits in lower case, before all that is there.
    pub fn put_bytes(&mut self, bytes: &[u8])
        requires room { length self.old + 2 * length bytes.now ≤ LINE_ROOM }
        ensures bytes { self.new ≡ encode_lower bytes.now ++ self.old }
        ensures room { length self.new ≡ length self.old + 2 * length bytes.now }
    {
        let start = self.start - 2 * bytes.len();
        match hex::encode_to_slice(bytes, &mut self.bytes[start..self.start]) {
            Ok(()) => self.start = start,
            // Its only error is a buffer of another length, and there is a place for each digit.
            Err(_) => unreachable!(),
        }
    }

    /// Puts bytes before all that is there. It is inlined for the sake of their number.
    #[inline(always)]
    pub fn put(&mut self, bytes: &[u8])
        requires room { length self.old + length bytes.now ≤ LINE_ROOM }
        ensures bytes { self.new ≡ bytes.now ++ self.old }
        ensures room { length self.new ≡ length self.old + length bytes.now }
    {
        self.start = put_before(bytes, self.start, &mut self.bytes);
    }

    /// Its bytes.
    pub fn as_bytes(&self) -> &[u8]
        ensures { result.now ≡ self.now }
    {
        &self.bytes[self.start..]
    }
}
