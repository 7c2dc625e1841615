//! The program `elfmap` without its surroundings: its engines over any reader or source and any writer, its command line,
//! files of relocation rules, and [`run`], the whole program over its arguments and an [`Opener`] of files. [`laws`] has what holds of the
//! texts of the commands.
//!
//! ```
//! // The first word is the program's name; `files` opens names, `out` and `err` take what is written.
//! let status = run(alloc, &["elfmap", "check", "header.elf"], &mut files, &mut out, &mut err);
//! assert_eq!(rt; status, Status::Done as u8);
//! ```
#![tactic(auto)]

pub mod laws;

pub use elf_link_field::{Form, Range, RelocRule, Width};
pub use elf_link_files::Options;
pub use elf_tool_check::{Ended, OpenFault, Opener, Refusal, Status, ToolFault, Verdict, check};
pub use elf_tool_link::{
    FileFault, Unlinked, link, link_files, map, map_files, mapped_files, objects_of,
};
pub use elf_tool_program::{check_source, run, run_to_end};
pub use elf_tool_rewrite::rewrite;
pub use elf_tool_rule_file::{RulesFault, read_rules};
pub use elf_tool_show::show;
pub use elf_tool_words::{Request, WordsFault, read_words};
