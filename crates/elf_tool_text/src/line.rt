//! Lines, word by word, at the end of a text: [`begin_line`] with the first word, a call for each further one, [`end_line`].
//! Each call fails only when out of memory; some of what it was to append may be after the text then.
ghost use Rattle.std.specs.Prelude.{◌≡◌, ◌∷◌, ◌++◌, OnOk, codes};
ghost use Rattle.std.specs.Fmt.{decimal, signed_decimal};
ghost use Rattle.std.specs.List.{list_all};
ghost use Rattle.hex.specs.Hex.{encode_lower};
ghost use Rattle.elf_tool_check.specs.FileLines.{blank};
ghost use Rattle.elf_tool_text.specs.Line.{hexadecimal, is_graphic as is_graphic_byte, is_plain as is_plain_name, name_text};

use crate::digits::{
    MOST_DECIMAL, MOST_HEXADECIMAL, glyph, put_before, put_decimal, put_hexadecimal,
};
use std::alloc::{AllocError, Global};

/// Appends a line's first word. Fails only when out of memory.
pub fn begin_line(text: &mut Vec<u8>, first: &[u8]) -> Result<(), AllocError>
    ensures { OnOk result (text.new.items ≡ text.old.items ++ first.now) }
{
    text.extend_from_slice(first)
}

/// Appends a further word. Fails only when out of memory.
pub fn push_word(text: &mut Vec<u8>, word: &[u8]) -> Result<(), AllocError>
    ensures { OnOk result (text.new.items ≡ text.old.items ++ blank ∷ word.now) }
{
    text.extend_from_slice(b" ")?;
    text.extend_from_slice(word)
}

/// Appends a number in decimal. Fails only when out of memory.
pub fn push_decimal(text: &mut Vec<u8>, number: u64) -> Result<(), AllocError>
    ensures { OnOk result (text.new.items ≡ text.old.items ++ blank ∷ decimal number) }
{
    if number < 10 {
        return text.extend_from_slice(&[b' ', glyph(number)]);
    }
    let mut word = [0; 1 + MOST_DECIMAL];
    let first = put_decimal(number, 1 + MOST_DECIMAL, &mut word);
    let start = put_before(b" ", first, &mut word);
    text.extend_from_slice(&word[start..])
}

/// Appends a signed number in decimal. Fails only when out of memory.
pub fn push_signed(text: &mut Vec<u8>, number: i64) -> Result<(), AllocError>
    ensures { OnOk result (text.new.items ≡ text.old.items ++ blank ∷ signed_decimal number) }
{
    let mut word = [0; 2 + MOST_DECIMAL];
    let first = put_decimal(number.unsigned_abs(), 2 + MOST_DECIMAL, &mut word);
    let start = if number < 0 {
        put_before(b" -", first, &mut word)
    } else {
        put_before(b" ", first, &mut word)
    };
    text.extend_from_slice(&word[start..])
}

/// Appends a number in hexadecimal, in lower case after `0x`. Fails only when out of memory.
pub fn push_hexadecimal(text: &mut Vec<u8>, number: u64) -> Result<(), AllocError>
    ensures { OnOk result (text.new.items ≡ text.old.items ++ blank ∷ hexadecimal number) }
{
    if number < 16 {
        return text.extend_from_slice(&[b' ', b'0', b'x', glyph(number)]);
    }
    let mut word = [0; 3 + MOST_HEXADECIMAL];
    let first = put_hexadecimal(number, 3 + MOST_HEXADECIMAL, &mut word);
    let start = put_before(b" 0x", first, &mut word);
    text.extend_from_slice(&word[start..])
}

/// Appends bytes, each as two hexadecimal digits in lower case. Fails only when out of memory.
pub fn push_bytes(alloc: Global, text: &mut Vec<u8>, bytes: &[u8]) -> Result<(), AllocError>
    ensures { OnOk result (text.new.items ≡ text.old.items ++ blank ∷ encode_lower bytes.now) }
{
    let digits = hex::encode(alloc, bytes)?;
    push_word(text, digits.as_bytes())
}

/// Appends a name: as it is where it is plain, `-` where it is empty, and else in hexadecimal after `#`. Fails only when out of memory.
#[tactic(auto, unfolding(crate::specs::Line::name_text))]
pub fn push_name(alloc: Global, text: &mut Vec<u8>, name: &[u8]) -> Result<(), AllocError>
    ensures { OnOk result (text.new.items ≡ text.old.items ++ blank ∷ name_text name.now) }
{
    if name.is_empty() {
        return push_word(text, b"-");
    }
    if is_plain(name) {
        return push_word(text, name);
    }
    let digits = hex::encode(alloc, name)?;
    text.extend_from_slice(b" #")?;
    text.extend_from_slice(digits.as_bytes())
}

/// A name that no other is printed as: it does not begin as the hexadecimal ones do, nor is it `-`.
pub(crate) fn is_plain(name: &[u8]) -> bool
    ensures { result ≡ is_plain_name name.now }
{
    match name {
        [] => false,
        [b, ..] => *b != b'#' && name != b"-".as_slice() && is_graphic(name),
    }
}

fn is_graphic(name: &[u8]) -> bool
    ensures { result ≡ list_all is_graphic_byte name.now }
{
    // Without an early end, so that many bytes are compared at once.
    let mut all = true;
    for b in name {
        all = (b'!'..=b'~').contains(b) & all;
    }
    all
}

/// Ends a line. Fails only when out of memory.
pub fn end_line(text: &mut Vec<u8>) -> Result<(), AllocError>
    ensures { OnOk result (text.new.items ≡ text.old.items ++ codes "\n") }
{
    text.extend_from_slice(b"\n")
}
