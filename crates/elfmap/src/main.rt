//! The program `elfmap` on the machine.
#![tactic(auto)]

use elf_tool_program::run_on_machine;
use std::process::ExitCode;

fn main(rt: HostRuntime) -> ExitCode {
    ExitCode::from(run_on_machine(&rt))
}
