//! What goes out of a command is not flushed, and no write is empty.
use crate::asserts::assert_same;
use elf_field::Order;
use elf_image_stream::Bytes;
use elf_tool_program::{OpenFault, Opener, run};
use std::alloc::Global;
use tests_files::{Sink, callee, caller, empty_object, header_alone};

/// Has a header, an object without sections of its own, and two objects that are linked, each under its name; and relocation rules under
/// every other one.
#[derive(Drop)]
struct Files<'a> {
    header: &'a [u8],
    object: &'a [u8],
    caller: &'a [u8],
    callee: &'a [u8],
}

impl<'a> Files<'a> {
    fn bytes(&self, name: &str) -> &'a [u8] {
        match name {
            "header" => self.header,
            "object" => self.object,
            "caller" => self.caller,
            "callee" => self.callee,
            _ => b"2 pc 4 signed\n",
        }
    }
}

impl<'a> Opener for Files<'a> {
    type Input = &'a [u8];

    type Seek = Bytes<'a>;

    fn reader(&mut self, name: &str) -> Result<&'a [u8], OpenFault> {
        Ok(self.bytes(name))
    }

    fn source(&mut self, name: &str) -> Result<Bytes<'a>, OpenFault> {
        Ok(Bytes(self.bytes(name)))
    }
}

/// The status; and how many bytes go out, how many writes are empty, and how many flushes there are.
fn ended(alloc: Global, words: &[&str]) -> (u8, [usize; 3]) {
    let (header, object) = (header_alone(Order::Little), empty_object());
    let (caller, callee) = (caller(), callee());
    let mut files = Files {
        header: &header,
        object: &object,
        caller: &caller,
        callee: &callee,
    };
    let (mut out, mut err) = (Sink::new(), Sink::new());
    let status = run(alloc, words, &mut files, &mut out, &mut err);
    (status, [out.text().len(), out.empty_calls, out.flushes])
}

/// Words for each command, and how many bytes go out.
const COMMANDS: &[(&[&str], usize)] = &[
    (&["elfmap", "check", "header"], 10),
    (&["elfmap", "check", "--seek", "header"], 10),
    (&["elfmap", "show", "header"], 46),
    (&["elfmap", "rewrite", "object"], 376),
    (
        &[
            "elfmap", "map", "--base", "4096", "--page", "1", "--rules", "r", "caller", "callee",
        ],
        163,
    ),
    (
        &[
            "elfmap", "link", "--base", "4096", "--page", "1", "--entry", "main", "--rules", "r",
            "caller", "callee",
        ],
        127,
    ),
];

#[test]
fn no_command_flushes_or_writes_nothing(rt: HostRuntime) {
    for &(words, len) in COMMANDS {
        assert_same(&rt, ended(rt.alloc(), words), (0, [len, 0, 0]));
    }
}
