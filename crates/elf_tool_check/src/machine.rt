//! The program that has `check` alone on the machine, and the machine's words.
ghost use Rattle.std.specs.Prelude.{◌≡◌};
ghost use Rattle.elf_tool_check.specs.Ending.{code_of};
ghost use Rattle.elf_tool_check.specs.declared.ending.Status.{Status as Ending};

use crate::ending::refuse_words;
use crate::opener::MachineFiles;
use crate::program::run_check;
use std::{env, io};

/// Runs the program that has `check` alone over the machine's words and files, standard output and standard error. Returns the exit status,
/// as [`run_check`] does.
pub fn check_on_machine(rt: &HostRuntime) -> u8
    ensures { (status : Ending) × (result ≡ code_of status) }
{
    let mut err = rt.stderr();
    match words_of(rt) {
        Ok(words) => {
            let mut files = MachineFiles { files: rt };
            run_check(
                rt.alloc(),
                words.as_slice(),
                &mut files,
                &mut rt.stdout(),
                &mut err,
            )
        }
        Err(error) => refuse_words(&error, &mut err),
    }
}

/// The arguments of the command line, the program's name first. It fails with `InvalidData` where one is not UTF-8, with `OutOfMemory` when
/// out of memory, and else as the machine does.
pub fn words_of(rt: &HostRuntime) -> io::Result<Vec<String>> {
    Ok(env::args(rt)?.collect(rt.alloc())?)
}
