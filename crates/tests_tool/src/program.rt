//! The whole program over fakes: the names that it opens, an opener that wants memory, reads that fail, and a standard error that takes
//! nothing; and what the machine gives it.
use crate::asserts::assert_same;
use elf_image_sources::ShortReads;
use elf_image_stream::Bytes;
use elf_tool_program::{
    MachineFiles, OpenFault, Opener, ToolFault, Verdict, check, refuse_words, run, run_to_end,
};
use elf_tool_text::line::{begin_line, end_line, push_decimal, push_hexadecimal};
use std::alloc::Global;
use std::io;
use std::io::{ErrorKind, Write};
use std::process::Abort;
use std::test::Fail;
use tests_files::{OnceFailingReader, PartialSource, Sink};

/// A header alone, of 64 bytes, in little order.
const HEADER: &[u8; 64] = b"\x7fELF\x02\x01\x01\0\0\0\0\0\0\0\0\0\x01\0\x3e\0\x01\0\0\0\
    \0\0\0\0\0\0\0\0\0\0\0\0\0\0\0\0\0\0\0\0\0\0\0\0\0\0\0\0\x40\0\0\0\0\0\0\0\0\0\0\0";

/// More than the program ever writes here.
pub(crate) const ROOM: usize = 800;

/// Has a header as `a.o`, and gives it a few bytes a call.
#[derive(Drop)]
pub(crate) struct OneFile;

impl Opener for OneFile {
    type Input = ShortReads<&'static [u8]>;

    type Seek = Bytes<'static>;

    fn reader(&mut self, name: &str) -> Result<ShortReads<&'static [u8]>, OpenFault> {
        match name {
            "a.o" => Ok(ShortReads::new(HEADER, 7)),
            _ => Err(OpenFault::Refused),
        }
    }

    fn source(&mut self, name: &str) -> Result<Bytes<'static>, OpenFault> {
        match name {
            "a.o" => Ok(Bytes(HEADER)),
            _ => Err(OpenFault::Refused),
        }
    }
}

/// Takes a byte at a time, up to `room` of them, and then none. It needs no memory.
#[derive(Drop)]
pub(crate) struct LimitedWriter {
    bytes: [u8; ROOM],
    len: usize,
    room: usize,
}

impl LimitedWriter {
    pub(crate) fn new(room: usize) -> LimitedWriter {
        LimitedWriter {
            bytes: [0; ROOM],
            len: 0,
            room,
        }
    }

    fn text(&self) -> &[u8] {
        &self.bytes[..self.len.min(ROOM)]
    }
}

impl Write for LimitedWriter {
    fn write(&mut self, buf: &[u8]) -> io::Result<usize> {
        match buf.first() {
            Some(byte) if self.len < self.room.min(ROOM) => {
                self.bytes[self.len] = *byte;
                self.len += 1;
                Ok(1)
            }
            _ => Ok(0),
        }
    }

    fn flush(&mut self) -> io::Result<()> {
        Ok(())
    }
}

/// What a whole run came to.
#[derive(Drop)]
pub(crate) struct Outcome {
    pub status: u8,
    pub out: LimitedWriter,
    pub err: LimitedWriter,
}

/// It came to this status, and to these texts on the output and on standard error.
pub(crate) fn assert_ran(rt: &impl Abort, ran: &Outcome, status: u8, said: &str, complained: &str) {
    assert_same(
        rt,
        (ran.status, ran.out.text(), ran.err.text()),
        (status, said.as_bytes(), complained.as_bytes()),
    );
}

/// The check of a file of this name, onto a standard error that takes nothing.
fn run_unheard(alloc: Global, name: &str) -> Outcome {
    let words = ["elfmap", "check", name];
    let mut out = LimitedWriter::new(ROOM);
    let mut err = LimitedWriter::new(0);
    let status = run(alloc, &words, &mut OneFile, &mut out, &mut err);
    Outcome { status, out, err }
}

#[test]
fn a_failed_write_to_standard_error_changes_nothing(rt: HostRuntime) {
    assert_ran(&rt, &run_unheard(rt.alloc(), "a.o"), 0, "ok 64 0 0\n", "");
    assert_ran(&rt, &run_unheard(rt.alloc(), "b.o"), 3, "", "");
}

// Reads that fail.

/// Gives these bytes under every name, so many a call, and fails at one call.
#[derive(Drop)]
struct FailingFiles<'a> {
    bytes: &'a [u8],
    piece: usize,
    failing: u64,
}

impl<'a> Opener for FailingFiles<'a> {
    type Input = OnceFailingReader<'a>;

    type Seek = PartialSource<'a>;

    fn reader(&mut self, _: &str) -> Result<OnceFailingReader<'a>, OpenFault> {
        Ok(OnceFailingReader::new(self.bytes, self.piece, self.failing))
    }

    fn source(&mut self, _: &str) -> Result<PartialSource<'a>, OpenFault> {
        let mut source = PartialSource::new(self.bytes, self.piece);
        source.failing = self.failing;
        Ok(source)
    }
}

/// What the program comes to with these words and files.
fn run_failing(alloc: Global, words: &[&str], files: &mut FailingFiles<'_>) -> Outcome {
    let mut out = LimitedWriter::new(ROOM);
    let mut err = LimitedWriter::new(ROOM);
    let status = run(alloc, words, files, &mut out, &mut err);
    Outcome { status, out, err }
}

/// Words of each command that reads a file.
const READING_COMMANDS: &[&[&str]] = &[
    &["elfmap", "check", "a.o"],
    &["elfmap", "check", "--seek", "a.o"],
    &["elfmap", "show", "a.o"],
    &["elfmap", "rewrite", "a.o"],
    &["elfmap", "map", "--base", "0", "--page", "1", "a.o"],
];

/// Digits that are read in nine calls, and more than a reader is asked for at once.
const DIGITS: &[u8; 73_728] = &[b'0'; 73_728];

#[test]
fn a_failed_read_ends_each_command(rt: HostRuntime) {
    let mut header = FailingFiles {
        bytes: HEADER,
        piece: 10,
        failing: 2,
    };
    for &words in READING_COMMANDS {
        let ran = run_failing(rt.alloc(), words, &mut header);
        assert_ran(&rt, &ran, 3, "", "read failed at 10\n");
    }
    let mut rules = FailingFiles {
        bytes: DIGITS,
        piece: 8192,
        failing: 10,
    };
    let words = [
        "elfmap", "map", "--base", "0", "--page", "1", "--rules", "r", "a.o",
    ];
    let ran = run_failing(rt.alloc(), &words, &mut rules);
    assert_ran(&rt, &ran, 3, "", "read failed at 73728\n");
}

/// The check of a header by a reader of which one call for ten bytes fails; and how many bytes are written.
fn checked(alloc: Global, failing: u64) -> (Result<Verdict, ToolFault>, usize) {
    let mut reader = OnceFailingReader::new(HEADER, 10, failing);
    let mut out = Sink::new();
    let answer = check(alloc, &mut reader, &mut out);
    (answer, out.text().len())
}

#[test]
fn nothing_is_written_after_a_failed_read(rt: HostRuntime) {
    let found = [checked(rt.alloc(), 2), checked(rt.alloc(), 0)];
    let failed = Err(ToolFault::Read { at: 10 });
    assert_same(&rt, found, [(failed, 0), (Ok(Verdict::Done), 10)]);
}

/// What the program comes to with these words.
fn run_words(alloc: Global, words: &[&str]) -> Outcome {
    let mut out = LimitedWriter::new(ROOM);
    let mut err = LimitedWriter::new(ROOM);
    let status = run(alloc, words, &mut OneFile, &mut out, &mut err);
    Outcome { status, out, err }
}

// Not even the program's name: it is missing as a command is.
#[test]
fn an_empty_command_line(rt: HostRuntime) {
    let (none, name) = (
        run_words(rt.alloc(), &[]),
        run_words(rt.alloc(), &["elfmap"]),
    );
    assert_same(&rt, [none.status, name.status], [2; 2]);
    assert_same(
        &rt,
        [none.out.text(), none.err.text()],
        [b"", name.err.text()],
    );
    assert!(rt; !none.err.text().is_empty());
}

/// How the program ends if its file does not open, with room for so many bytes on standard error.
fn unopened_with_room(alloc: Global, room: usize) -> (u8, bool) {
    let mut out = LimitedWriter::new(ROOM);
    let mut err = LimitedWriter::new(room);
    let words = ["elfmap", "check", "b.o"];
    let ended = run_to_end(alloc, &words, &mut OneFile, &mut out, &mut err);
    (ended.status as u8, ended.printed)
}

// A text that standard error took is said to be printed, and one that was cut is not.
#[test]
fn a_cut_text_is_not_printed(rt: HostRuntime) {
    let found = [
        unopened_with_room(rt.alloc(), ROOM),
        unopened_with_room(rt.alloc(), 5),
    ];
    assert_same(&rt, found, [(3, true), (3, false)]);
}

/// The status and the text that the program ends with where the machine gives no words.
fn assert_refused(rt: &impl Abort, kind: ErrorKind, status: u8, message: &str) {
    let mut err = LimitedWriter::new(ROOM);
    let ended = refuse_words(&io::Error::from(kind), &mut err);
    assert_same(rt, (ended, err.text()), (status, message.as_bytes()));
}

#[test]
fn words_that_the_machine_does_not_give(rt: HostRuntime) {
    let message = "error: the arguments are not UTF-8\n";
    assert_refused(&rt, ErrorKind::InvalidData, 2, message);
    assert_refused(&rt, ErrorKind::OutOfMemory, 3, "out of memory\n");
    // The text of any other error is std's own.
    assert_refused(&rt, ErrorKind::Other, 3, "other error\n");
}

// The word for the file is the name that is opened, as it is. More names that don't open are in `cases/hand-written.txt`.

/// Has a header alone under one name, and returns a fault for every other.
#[derive(Drop)]
struct OneName<'a> {
    name: &'a str,
    fault: OpenFault,
    asked: usize,
}

impl<'a> OneName<'a> {
    fn new(name: &'a str, fault: OpenFault) -> OneName<'a> {
        OneName {
            name,
            fault,
            asked: 0,
        }
    }
}

impl<'a> Opener for OneName<'a> {
    type Input = &'static [u8];

    type Seek = Bytes<'static>;

    fn reader(&mut self, name: &str) -> Result<&'static [u8], OpenFault> {
        self.asked = self.asked.saturating_add(1);
        if name == self.name {
            Ok(HEADER)
        } else {
            Err(self.fault)
        }
    }

    fn source(&mut self, name: &str) -> Result<Bytes<'static>, OpenFault> {
        Ok(Bytes(self.reader(name)?))
    }
}

/// What the program writes for these words, and says, and its status; and for how many names it asks.
fn assert_runs(
    rt: &impl Abort,
    alloc: Global,
    words: &[&str],
    files: &mut OneName<'_>,
    status: u8,
    said: &str,
    complained: &str,
) {
    let mut out = Vec::new(alloc);
    let mut err = Vec::new(alloc);
    let ended = run(alloc, words, files, &mut out, &mut err);
    assert_same(
        rt,
        (ended, files.asked, out.as_slice(), err.as_slice()),
        (status, 1, said.as_bytes(), complained.as_bytes()),
    );
}

/// These words ask for the check of the header under this name.
fn assert_opens(rt: &impl Abort, alloc: Global, name: &str, words: &[&str]) {
    let mut files = OneName::new(name, OpenFault::Refused);
    assert_runs(rt, alloc, words, &mut files, 0, "ok 64 0 0\n", "");
}

const NAMES: &[&str] = &[
    "dir/a.o", "/a.o", "./a.o", " a.o", "a.o ", "\u{e4}.o", "-a.o", "--", "",
];

#[test]
fn opens_the_name_as_it_stands(rt: HostRuntime) {
    for &name in NAMES {
        assert_opens(&rt, rt.alloc(), name, &["elfmap", "check", "--", name]);
        assert_opens(
            &rt,
            rt.alloc(),
            name,
            &["elfmap", "check", "--seek", "--", name],
        );
    }
    let mut files = OneName::new("a.o", OpenFault::Refused);
    let words = ["elfmap", "show", "--", "\u{e4}.o"];
    let message = "cannot open \u{e4}.o\n";
    assert_runs(&rt, rt.alloc(), &words, &mut files, 3, "", message);
}

/// Words that ask for a file which is not there.
const ABSENT_FILES: &[&[&str]] = &[
    &["elfmap", "check", "b.o"],
    &["elfmap", "check", "--seek", "b.o"],
    &["elfmap", "show", "b.o"],
    &["elfmap", "rewrite", "b.o"],
    &["elfmap", "map", "--base", "0", "--page", "1", "b.o"],
    &[
        "elfmap", "map", "--base", "0", "--page", "1", "--rules", "r", "a.o",
    ],
];

#[test]
fn an_opener_that_wants_memory(rt: HostRuntime) {
    for &words in ABSENT_FILES {
        let mut files = OneName::new("a.o", OpenFault::OutOfMemory);
        assert_runs(&rt, rt.alloc(), words, &mut files, 3, "", "out of memory\n");
    }
}

/// Why the machine gives no reader of this name, and whether it gives a source.
fn machine_fault(rt: &HostRuntime, name: &str) -> (Option<OpenFault>, bool) {
    let mut files = MachineFiles { files: rt };
    (files.reader(name).err(), files.source(name).is_ok())
}

const OPENED: (Option<OpenFault>, bool) = (None, true);

const REFUSED: (Option<OpenFault>, bool) = (Some(OpenFault::Refused), false);

/// Names, and what the machine says of each.
const MACHINE_NAMES: &[(&str, (Option<OpenFault>, bool))] = &[
    ("/dev/null", OPENED),
    ("/dev/../dev/null", OPENED),
    ("/dev/null ", REFUSED),
    (" /dev/null", REFUSED),
    ("/dev/null/x", REFUSED),
    ("/dev/n\u{fc}ll", REFUSED),
    ("-/dev/null", REFUSED),
    ("no-such-file", REFUSED),
    ("", REFUSED),
];

// No contract reports what the machine's files are: the null device is one, under just this name, and it is no folder.
#[test]
fn the_files_of_the_machine(rt: HostRuntime) {
    for &(name, message) in MACHINE_NAMES {
        assert_same(&rt, (name, machine_fault(&rt, name)), (name, message));
    }
}

#[test]
fn a_folder_of_the_machine_is_no_source(rt: HostRuntime) {
    let mut files = MachineFiles { files: &rt };
    assert!(rt; matches!(files.source("/"), Err(OpenFault::Refused)));
}

// Lines that are made word by word.

// The example of the crate's root.
#[test]
fn a_line_is_its_words(rt: HostRuntime) -> Result<(), Fail> {
    let mut text = Vec::new(rt.alloc());
    begin_line(&mut text, b"part")?;
    push_hexadecimal(&mut text, 64)?;
    push_decimal(&mut text, 24)?;
    end_line(&mut text)?;
    assert_same(&rt, text.as_slice(), b"part 0x40 24\n".as_slice());
    Ok(())
}
