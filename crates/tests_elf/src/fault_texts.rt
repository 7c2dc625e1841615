//! What faults say of themselves: a rule by its number and its name, and where it is broken. No clause says it.
use elf::exec::ExecFault;
use elf::extent::{OutOfMemory, PlaceFault};
use elf::image::{CopyFault, Failed, Fault, NoSection, ReplaceFault, WriteFault};
use elf::link::LinkFault;
use elf::object::{LayoutFault, ObjectFault, ObjectWriteFault, Reference, WithoutFault};
use elf::table::HashFault;
use elf::tool::{FileFault, OpenFault, Refusal, Unlinked, WordsFault};
use std::error::Error;
use std::fmt::InlineText;
use std::process::Abort;

fn assert_text<E: Error>(rt: &impl Abort, fault: E, words: &str) {
    let text: InlineText<80> = InlineText::of(fault);
    assert_eq!(rt; text.as_str(), words);
}

#[test]
fn rules_by_their_names(rt: HostRuntime) {
    let shared = Fault::Rule { rule: 33, at: 114 };
    assert_text(&rt, shared, "rule 33 (SHARED_BYTE) at offset 114");
    let group = Fault::Rule { rule: 55, at: 96 };
    assert_text(&rt, group, "rule 55 (EMPTY_GROUP) at offset 96");
    let kept = Fault::Rule { rule: 70, at: 16 };
    assert_text(&rt, kept, "rule 70 (NOT_RELOCATABLE) at offset 16");
    let section = ObjectFault::Section {
        rule: 3,
        position: 7,
    };
    assert_text(&rt, section, "rule 3 (WRONG_ALIGNMENT) at section 7");
    let symbol = ObjectFault::Symbol {
        rule: 9,
        position: 2,
    };
    assert_text(&rt, symbol, "rule 9 (MISPLACED_LOCAL) at symbol 2");
    let link = LinkFault::Rule {
        rule: 16,
        file: 1,
        index: 4,
        entry: 3,
    };
    assert_text(
        &rt,
        link,
        "rule 16 (VALUE_OUT_OF_RANGE) at entry 3 of 4 in file 1",
    );
}

#[test]
fn calls_that_failed(rt: HostRuntime) {
    assert_text(&rt, Fault::Io { at: 5 }, "read failed at 5");
    assert_text(&rt, Failed, "a call of the source failed");
    assert_text(&rt, WriteFault { written: 6 }, "write failed after 6");
    let read = CopyFault::Read { at: 9, written: 8 };
    assert_text(&rt, read, "read failed at 9 after 8 bytes written");
    let write = CopyFault::Write { written: 8 };
    assert_text(&rt, write, "write failed after 8");
    let object = ObjectWriteFault::Io { written: 7 };
    assert_text(&rt, object, "write failed after 7");
    let exec = ExecFault::Io { written: 7 };
    assert_text(&rt, exec, "write failed after 7");
    let closed = OpenFault::Refused;
    assert_text(&rt, closed, "no such file, or it may not be read");
}

#[test]
fn want_of_memory(rt: HostRuntime) {
    assert_text(&rt, OutOfMemory, "out of memory");
    assert_text(&rt, PlaceFault::OutOfMemory, "out of memory");
    assert_text(&rt, Fault::OutOfMemory, "out of memory");
    assert_text(&rt, HashFault::OutOfMemory, "out of memory");
    assert_text(&rt, ObjectFault::OutOfMemory, "out of memory");
    assert_text(&rt, LayoutFault::OutOfMemory, "out of memory");
    assert_text(&rt, ObjectWriteFault::OutOfMemory, "out of memory");
    assert_text(&rt, WithoutFault::OutOfMemory, "out of memory");
    assert_text(&rt, LinkFault::OutOfMemory, "out of memory");
    assert_text(&rt, ExecFault::OutOfMemory, "out of memory");
    assert_text(&rt, OpenFault::OutOfMemory, "out of memory");
    assert_text(&rt, WordsFault::OutOfMemory, "out of memory");
}

/// The text of a section's reference to what is left out, after the same words.
fn assert_reference(rt: &impl Abort, reference: Reference, words: &str) {
    let fault = WithoutFault::Dangling {
        section: 3,
        reference,
    };
    assert_text(rt, fault, words);
}

#[test]
fn references_to_what_is_left_out(rt: HostRuntime) {
    let link = "section 3 refers to what is left out, by its link";
    assert_reference(&rt, Reference::Link, link);
    let info = "section 3 refers to what is left out, by its info";
    assert_reference(&rt, Reference::Info, info);
    let target = "section 3 refers to what is left out, by its target";
    assert_reference(&rt, Reference::Target, target);
    let symbol = "section 3 refers to what is left out, by its symbol of relocation 7";
    assert_reference(&rt, Reference::Symbol(7), symbol);
    let signature = "section 3 refers to what is left out, by its signature";
    assert_reference(&rt, Reference::Signature, signature);
    let member = "section 3 refers to what is left out, by its member 2";
    assert_reference(&rt, Reference::Member(2), member);
}

#[test]
fn files_that_are_not_linked(rt: HostRuntime) {
    let refused = FileFault::Refused {
        file: 1,
        rule: 33,
        at: 114,
    };
    assert_text(&rt, refused, "file 1 breaks rule 33 at 114");
    let link = Refusal::Link {
        rule: 9,
        file: 0,
        index: 1,
        entry: 0,
    };
    assert_text(&rt, Unlinked::Refused(link), "refused 9 0 1 0");
    assert_text(&rt, FileFault::OutOfMemory, "out of memory");
    assert_text(&rt, Unlinked::OutOfMemory, "out of memory");
}

#[test]
fn what_is_too_much_or_not_there(rt: HostRuntime) {
    let place = PlaceFault::Overflow { index: 3 };
    assert_text(&rt, place, "part 3 ends past the last offset");
    assert_text(&rt, NoSection, "no such section");
    let nothing = ReplaceFault::NoSection;
    assert_text(&rt, nothing, "no such section, or one without content");
    let length = ReplaceFault::WrongLength;
    assert_text(
        &rt,
        length,
        "the content has another length than the section",
    );
    let names = ReplaceFault::NameTable;
    assert_text(&rt, names, "the section name string table is not replaced");
    assert_text(&rt, HashFault::NoBuckets, "a hash table without buckets");
    assert_text(&rt, HashFault::TooMany, "more than 2^24 names or buckets");
    assert_text(&rt, LayoutFault::TooLong, "longer than 2^30 bytes");
    assert_text(&rt, ObjectWriteFault::TooLong, "longer than 2^30 bytes");
    let exec = ExecFault::TooLong;
    assert_text(&rt, exec, "longer than 2^30 bytes, or too many segments");
    assert_text(&rt, WordsFault::TooManyFiles, "too many files");
    assert_text(&rt, WordsFault::BadNumber, "bad number");
}
