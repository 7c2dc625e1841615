//! The digits of numbers. A line of `show` has a dozen of them, and through a format each would cost
//! several times as much.
//!
//! A file of 65,000 sections has 650,000 numbers. Digit by digit they take 0.033 s, and by `format!` 0.056 s.
ghost use Rattle.std.specs.Prelude.{◌≡◌, ◌<◌, ◌≤◌, ◌+◌, ◌++◌, false, drop, length};
ghost use Rattle.std.specs.Fmt.{decimal, digit_glyph, digits};

/// The most digits of a number of 64 bits in decimal.
pub(crate) const MOST_DECIMAL: usize = 20;

/// The most of one in hexadecimal.
pub(crate) const MOST_HEXADECIMAL: usize = 16;

/// Room for the digits of a number of 128 bits, in any base, and for what is before them.
pub(crate) const WIDE_ROOM: usize = MOST_BEFORE + 64;

/// The most bytes that are before the digits of a number: a blank and `0x`.
const MOST_BEFORE: usize = 3;

/// Puts the digits of a number before what starts at `end`, and returns where they start. It is inlined for the sake of the base, so that
/// no division is left.
#[inline(always)]
fn put_digits(number: u64, base: u64, end: usize, out: &mut [u8]) -> usize
    requires least { 2 ≤ base }
    requires most { base ≤ 16 }
    requires room { length (digits base false number) ≤ end }
    requires inside { end ≤ length out.old }
    ensures start { result + length (digits base false number) ≡ end }
    ensures digits { drop result out.new ≡ digits base false number ++ drop end out.old }
{
    let mut start = end;
    let mut rest = number;
    loop {
        start -= 1;
        out[start] = glyph(rest % base);
        rest /= base;
        if rest == 0 {
            return start;
        }
    }
}

/// Puts a number in decimal before what starts at `end`, and returns where it starts.
#[inline(always)]
pub(crate) fn put_decimal(number: u64, end: usize, out: &mut [u8]) -> usize
    requires room { MOST_DECIMAL ≤ end }
    requires inside { end ≤ length out.old }
    ensures before { result ≤ end }
    ensures start { end ≤ result + MOST_DECIMAL }
    ensures digits { drop result out.new ≡ decimal number ++ drop end out.old }
{
    put_digits(number, 10, end, out)
}

/// Puts a number in hexadecimal, in lower case, before what starts at `end`, and returns where it starts.
#[inline(always)]
pub(crate) fn put_hexadecimal(number: u64, end: usize, out: &mut [u8]) -> usize
    requires room { MOST_HEXADECIMAL ≤ end }
    requires inside { end ≤ length out.old }
    ensures before { result ≤ end }
    ensures start { end ≤ result + MOST_HEXADECIMAL }
    ensures digits { drop result out.new ≡ digits 16 false number ++ drop end out.old }
{
    put_digits(number, 16, end, out)
}

/// Puts the hexadecimal digits of a number of up to 128 bits at the end of `out`, and returns where they start.
pub(crate) fn put_wide_digits(number: u128, out: &mut [u8; WIDE_ROOM]) -> usize
    ensures room { MOST_BEFORE ≤ result }
    ensures inside { result ≤ WIDE_ROOM }
    ensures digits { drop result out.new ≡ digits 16 false number }
{
    let mut start = WIDE_ROOM;
    let mut rest = number;
    while start > MOST_BEFORE {
        start -= 1;
        out[start] = glyph((rest % 16) as u64);
        rest /= 16;
        if rest == 0 {
            break;
        }
    }
    start
}

/// Puts bytes before those that start at `end`, and returns where they start. It is inlined for the sake of their number.
#[inline(always)]
pub(crate) fn put_before(bytes: &[u8], end: usize, out: &mut [u8]) -> usize
    requires room { length bytes.now ≤ end }
    requires inside { end ≤ length out.old }
    ensures start { result + length bytes.now ≡ end }
    ensures bytes { drop result out.new ≡ bytes.now ++ drop end out.old }
{
    let start = end - bytes.len();
    out[start..end].copy_from_slice(bytes);
    start
}

/// The glyph of a digit, in lower case.
pub(crate) fn glyph(digit: u64) -> u8
    requires { digit < 16 }
    ensures { result ≡ digit_glyph false digit }
{
    if digit < 10 {
        b'0' + digit as u8
    } else {
        b'a' + (digit as u8 - 10)
    }
}
