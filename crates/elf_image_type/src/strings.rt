//! Strings in a table of strings (gABI chapter 4, String Table).
//!
//! `memchr` finds the zero that ends a string, of a section's name and of an entry in any table of strings.
ghost use Rattle.std.specs.Prelude.{◌≡◌};
ghost use Rattle.elf_field.specs.Strings.{string};

use memchr::memchr;

/// The string at an offset of a string table: its bytes up to the first zero, or to the end of the
/// table where there is none. It is empty from the end of the table on. It takes no memory.
pub fn string_at(table: &[u8], offset: usize) -> &[u8]
    ensures { result.now ≡ string table.now offset }
{
    let rest = &table[offset.min(table.len())..];
    match memchr(0, rest) {
        Some(end) => &rest[..end],
        None => rest,
    }
}
