//! The program `elfmap` with all its commands, without its surroundings: one call, [`run`], over its words, an [`Opener`] of files
//! and the engines. The engine of `check --seek` is here: [`check_source`] says what [`check`] says of the whole file, of a file that is
//! sought and read, and reads no more of it than that takes.
//!
//! ```
//! // The first word is the program's name; `files` opens names, `out` and `err` take what is written.
//! let status = run(alloc, &["elfmap", "check", "header.elf"], &mut files, &mut out, &mut err);
//! assert_eq!(rt; status, Status::Done as u8);
//! let mut line = Vec::new(alloc);
//! assert_eq!(rt; check_source(alloc, &mut Bytes(&header), &mut line), Ok(Verdict::Done));
//! assert_eq!(rt; line.as_slice(), b"ok 64 0 0\n".as_slice());
//! ```
#![tactic(auto)]

mod machine;
mod opening;
mod program;
mod scan_check;

pub use elf_link_field::{Form, Range, RelocRule, Width};
pub use elf_tool_check::{
    Ended, MachineFiles, OpenFault, Opener, Refusal, Status, ToolFault, Verdict, check,
    refuse_words,
};
pub use elf_tool_link::{Options, link, map};
pub use elf_tool_rewrite::rewrite;
pub use elf_tool_rule_file::{RulesFault, read_rules};
pub use elf_tool_show::show;
pub use elf_tool_words::{Request, WordsFault, read_words};
pub use machine::run_on_machine;
pub use program::{run, run_to_end};
pub use scan_check::check_source;
