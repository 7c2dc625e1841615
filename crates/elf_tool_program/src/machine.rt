//! The program on the machine.
ghost use Rattle.std.specs.Prelude.{◌≡◌};
ghost use Rattle.elf_tool_check.specs.Ending.{code_of};
ghost use Rattle.elf_tool_check.specs.declared.ending.Status.{Status as Ending};

use crate::program::run;
use elf_tool_check::{MachineFiles, refuse_words, words_of};

/// Runs the program over the machine's words and files, standard output and standard error. Returns the exit status, as [`run`] does.
pub fn run_on_machine(rt: &HostRuntime) -> u8
    ensures { (status : Ending) × (result ≡ code_of status) }
{
    let mut err = rt.stderr();
    match words_of(rt) {
        Ok(words) => {
            let mut files = MachineFiles { files: rt };
            run(
                rt.alloc(),
                words.as_slice(),
                &mut files,
                &mut rt.stdout(),
                &mut err,
            )
        }
        Err(error) => refuse_words(&error, &mut err),
    }
}
