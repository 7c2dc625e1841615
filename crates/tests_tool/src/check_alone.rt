//! The program that has `check` alone: which words it takes. That it ends as the program with all commands does, `cases/` and
//! `failing-calls` show.
ghost use Rattle.std.specs.Prelude.{ℕ, List};
ghost use Rattle.std.specs.Borrow.{Bor};
ghost use Rattle.elf_tool_check.specs.Ending.{AsksFor};
ghost use Rattle.elf_tool_words.specs.Words.{IsAskedBy};
ghost use Rattle.elf_tool_words.specs.declared.words.Request.TheVariants.{Check};

use crate::program::{LimitedWriter, OneFile, Outcome, ROOM, assert_ran};
use elf_tool_check::run_check;
use std::alloc::Global;

/// The arguments with which it opens a file ask the program with all commands to check this file.
pub fn takes_the_same_file()
    ensures { (words : List (List ℕ)) (file : Bor (List ℕ)) → AsksFor words file.now → IsAskedBy words (Check file) }
{}

/// What it comes to where `a.o` is a header.
fn run_on(alloc: Global, words: &[&str]) -> Outcome {
    let mut out = LimitedWriter::new(ROOM);
    let mut err = LimitedWriter::new(ROOM);
    let status = run_check(alloc, words, &mut OneFile, &mut out, &mut err);
    Outcome { status, out, err }
}

const OTHER_WORDS: &[&[&str]] = &[
    &[],
    &["elfmap"],
    &["elfmap", "check"],
    &["elfmap", "check", "-x"],
    &["elfmap", "check", "--"],
    &["elfmap", "check", "a.o", "b.o"],
    &["elfmap", "check", "--seek", "a.o"],
    &["elfmap", "show", "a.o"],
    &["elfmap", "rewrite", "--", "a.o"],
    &["elfmap", "map", "--base", "0", "--page", "1", "a.o"],
];

#[test]
fn other_words_are_wrong_usage(rt: HostRuntime) {
    for &words in OTHER_WORDS {
        let message = "this program has the command check FILE alone\n";
        assert_ran(&rt, &run_on(rt.alloc(), words), 2, "", message);
    }
}

/// A word, the status, and what is said and complained.
const FILES: &[(&str, u8, &str, &str)] = &[
    ("a.o", 0, "ok 64 0 0\n", ""),
    ("-x", 3, "", "cannot open -x\n"),
    ("--", 3, "", "cannot open --\n"),
];

#[test]
fn after_dashes_each_word_is_a_file(rt: HostRuntime) {
    for &(file, status, said, complained) in FILES {
        let ran = run_on(rt.alloc(), &["elfmap", "check", "--", file]);
        assert_ran(&rt, &ran, status, said, complained);
    }
}
