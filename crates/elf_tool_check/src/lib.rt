//! The command `check` by itself, from a command line to an exit status: its engine, [`check`], and [`run_check`], the
//! program that has this command alone; and what all commands share: files that are read whole, how an engine ends ([`Verdict`],
//! [`ToolFault`]), the lines on a file, the [`Opener`] of files, the exit [`Status`], and what a program prints on standard error.
//! `elf_tool_program`, the program with all commands, takes `check_file` from here.
//!
//! ```
//! // A header alone is a file of 64 bytes without sections and segments.
//! let mut out = Vec::new(alloc);
//! assert_eq!(rt; check(alloc, &mut header.as_slice(), &mut out), Ok(Verdict::Done));
//! assert_eq!(rt; out.as_slice(), b"ok 64 0 0\n".as_slice());
//! // A file that can't be opened ends the program with status 3, and its name is printed on standard error.
//! let ended = unopened(OpenFault::Refused, "no-such-file", &mut err);
//! assert_eq!(rt; ended.status, Status::Failed);
//! ```
#![tactic(auto)]

mod calls;
mod ending;
mod engine;
mod machine;
mod opener;
mod program;

pub use calls::{Refusal, ToolFault, Verdict, read_input};
pub use ending::{
    Ended, Status, end, end_with_refusal, end_with_refusal_in, fail, misused, refuse_words,
    unopened,
};
pub use engine::{check, ok_line, refused_line};
pub use machine::{check_on_machine, words_of};
pub use opener::{MachineFiles, OpenFault, Opener};
pub use program::{check_file, check_to_end, run_check};
