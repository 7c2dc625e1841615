//! The program `elfmap` on the machine, with its command `check` alone.
//!
//! It stands beside the program with all commands because it needs six libraries and no clap, so a fresh clone answers in 2 to 5 minutes,
//! and not in 15. It takes `check FILE` and `check -- FILE`, which name the same FILE in both programs. Anything else, also `check --seek`,
//! is wrong usage here. Both programs have the same code for their end: this one has no tables or links below it.
#![tactic(auto)]

use elf_tool_check::check_on_machine;
use std::process::ExitCode;

fn main(rt: HostRuntime) -> ExitCode {
    ExitCode::from(check_on_machine(&rt))
}
