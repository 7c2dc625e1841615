//! The files of rules of elf_tool_rule_file.
use crate::asserts::assert_same;
use elf_link_field::{Form, Range, RelocRule, Width};
use elf_tool_rule_file::{RulesFault, read_rules};
use std::alloc::{AllocError, Global};
use std::fmt::InlineText;
use std::process::Abort;

fn rule(kind: u32, form: Form, width: Width, range: Range) -> RelocRule {
    RelocRule {
        kind,
        form,
        width,
        range,
    }
}

/// The line that is bad in the file of these bytes; 0 for one that is rules.
fn bad_line(alloc: Global, bytes: &[u8]) -> Result<usize, RulesFault> {
    match read_rules(alloc, bytes) {
        Ok(_) => Ok(0),
        Err(RulesFault::BadLine { line }) => Ok(line),
        Err(fault) => Err(fault),
    }
}

/// Each of these, as a file, is a bad line.
fn assert_bad(rt: &impl Abort, alloc: Global, lines: &[&[u8]]) {
    for line in lines {
        assert_same(rt, bad_line(alloc, *line), Ok(1));
    }
}

/// The file of these bytes is these rules.
fn assert_rules(rt: &impl Abort, alloc: Global, bytes: &[u8], expected: &[RelocRule]) {
    let rules = read_rules(alloc, bytes);
    assert_same(rt, rules.as_deref(), Ok(expected));
}

// Each word of each place; and an empty file.
#[test]
fn rules_in_order(rt: HostRuntime) {
    let file =
        b"2 pc 4 signed\n1 abs 8 wrap\n10 abs 4 unsigned\n0 none 1 signed\n2 abs 2 unsigned\n";
    let expected = [
        rule(2, Form::Pc, Width::W4, Range::Signed),
        rule(1, Form::Abs, Width::W8, Range::Wrap),
        rule(10, Form::Abs, Width::W4, Range::Unsigned),
        rule(0, Form::None, Width::W1, Range::Signed),
        rule(2, Form::Abs, Width::W2, Range::Unsigned),
    ];
    assert_rules(&rt, rt.alloc(), file, &expected);
    assert_rules(&rt, rt.alloc(), b"", &[]);
}

#[test]
fn kinds_in_decimal(rt: HostRuntime) {
    let file = b"4294967295 abs 4 wrap\n000000000000000007 abs 4 wrap\n";
    let expected = [
        rule(4_294_967_295, Form::Abs, Width::W4, Range::Wrap),
        rule(7, Form::Abs, Width::W4, Range::Wrap),
    ];
    assert_rules(&rt, rt.alloc(), file, &expected);
    let lines = [
        b"4294967296 abs 4 wrap\n".as_slice(),
        b"+1 abs 4 wrap\n",
        b"-1 abs 4 wrap\n",
        b"0x1 abs 4 wrap\n",
        b"1a abs 4 wrap\n",
        b" abs 4 wrap\n",
    ];
    assert_bad(&rt, rt.alloc(), &lines);
}

#[test]
fn words_that_are_none(rt: HostRuntime) {
    let lines = [
        b"\n".as_slice(),
        b"1\n",
        b"1 abs\n",
        b"1 abs 4\n",
        b"1 Abs 4 wrap\n",
        b"1 rel 4 wrap\n",
        b"1 ab 4 wrap\n",
        b"1 abs 3 wrap\n",
        b"1 abs 04 wrap\n",
        b"1 abs 16 wrap\n",
        b"1 abs 4 sign\n",
        b"1 abs 4 wraps\n",
        b"1 abs 4 wrap signed\n",
        b"1 abs 4 WRAP\n",
    ];
    assert_bad(&rt, rt.alloc(), &lines);
}

#[test]
fn other_blanks(rt: HostRuntime) {
    let lines = [
        b"1 abs  4 wrap\n".as_slice(),
        b" 1 abs 4 wrap\n",
        b"1 abs 4 wrap \n",
        b"1\tabs 4 wrap\n",
        b"1 abs 4 wrap\r\n",
        b"1 abs 4 wrap\0\n",
    ];
    assert_bad(&rt, rt.alloc(), &lines);
}

// A last line without its end, an empty line, and the first one of two bad lines.
#[test]
fn the_first_bad_line(rt: HostRuntime) {
    let two = b"1 abs 4 wrap\n2 abs 5 wrap\n3 abs 4 wrap\nbad\n";
    let lines = [
        bad_line(rt.alloc(), b"1 abs 4 wrap"),
        bad_line(rt.alloc(), b"1 abs 4 wrap\n2 pc 4 wrap"),
        bad_line(rt.alloc(), b"1 abs 4 wrap\n\n"),
        bad_line(rt.alloc(), two),
    ];
    assert_same(&rt, lines, [Ok(1), Ok(2), Ok(2), Ok(2)]);
}

/// As many lines of one rule as asked for, and these bytes after them.
fn lines(alloc: Global, count: usize, rest: &[u8]) -> Result<Vec<u8>, AllocError> {
    let mut file = Vec::new(alloc);
    for _ in 0..count {
        file.extend_from_slice(b"1 abs 4 wrap\n")?;
    }
    file.extend_from_slice(rest)?;
    Ok(file)
}

/// How many rules such a file is.
fn rule_count(alloc: Global, count: usize) -> Result<usize, RulesFault> {
    let Ok(file) = lines(alloc, count, b"") else {
        return Err(RulesFault::OutOfMemory);
    };
    Ok(read_rules(alloc, &file)?.len())
}

/// The line that is bad in such a file.
fn bad_line_of(alloc: Global, count: usize, rest: &[u8]) -> Result<usize, RulesFault> {
    let Ok(file) = lines(alloc, count, rest) else {
        return Err(RulesFault::OutOfMemory);
    };
    bad_line(alloc, &file)
}

#[test]
fn as_many_rules_as_there_may_be(rt: HostRuntime) {
    let found = [
        rule_count(rt.alloc(), 256),
        bad_line_of(rt.alloc(), 257, b""),
        bad_line_of(rt.alloc(), 256, b"1"),
    ];
    assert_same(&rt, found, [Ok(256), Ok(257), Ok(257)]);
}

/// The fault is reported in these words.
fn assert_text(rt: &impl Abort, fault: RulesFault, words: &str) {
    let text: InlineText<80> = InlineText::of(fault);
    assert_same(rt, text.as_str(), words);
}

#[test]
fn faults_as_they_are_printed(rt: HostRuntime) {
    let bad = RulesFault::BadLine { line: 257 };
    assert_text(&rt, bad, "bad rule line 257");
    assert_text(&rt, RulesFault::OutOfMemory, "out of memory");
}
