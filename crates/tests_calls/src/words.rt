//! The arguments of a command line.
use crate::said::{Said, say};
use elf_tool_words::{WordsFault, read_words};
use std::alloc::Global;
use std::io::Write;

/// The call on them, for a command of each kind.
pub fn calls<W: Write>(alloc: Global, out: &mut W) {
    one(alloc, &["elfmap", "check", "--seek", "a.o"], out);
    one(
        alloc,
        &[
            "elfmap", "map", "--base", "0x10", "--page", "1", "--rules", "r", "a.o", "b.o",
        ],
        out,
    );
    one(alloc, &["elfmap", "map", "--base", "0x10"], out);
}

fn one<W: Write>(alloc: Global, words: &[&str], out: &mut W) {
    match read_words(alloc, words) {
        Ok(_) => say(out, "read_words", Said::Done(0)),
        Err(WordsFault::OutOfMemory) => say(out, "read_words", Said::Memory),
        Err(_) => say(out, "read_words", Said::Refused),
    }
}
