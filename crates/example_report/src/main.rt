//! `example_report FILE`: prints at which address an ELF-64 file begins to run, or the rule that the file breaks.
#![tactic(auto)]

ghost use Rattle.std.specs.Prelude.{◌≡◌, IfErr, IfOk};
ghost use Rattle.elf_image.specs.Image.{ImageValue, IsImage};
ghost use Rattle.elf_image.specs.Parsing.{IsParseFault};

use elf_image::{Fault, parse};
use std::alloc::Global;
use std::process::ExitCode;
use std::{env, fs, io};

fn main(rt: HostRuntime) -> io::Result<ExitCode> {
    let words: Vec<String> = env::args(&rt)?.collect(rt.alloc())?;
    let [_, name] = words.as_slice() else {
        eprintln!(rt; "usage: example_report FILE")?;
        return Ok(ExitCode::from(2));
    };
    let bytes = fs::read(&rt, name)?;
    match entry_of(rt.alloc(), &bytes) {
        Ok(entry) => println!(rt; "{name}: begins at 0x{entry:x}")?,
        Err(fault) => {
            println!(rt; "{name}: {fault}")?;
            return Ok(ExitCode::from(1));
        }
    }
    Ok(ExitCode::from(0))
}

/// The address at which a file of these bytes begins to run; 0 if it has none. Or the first rule that they break; or out of memory.
fn entry_of(alloc: Global, bytes: &[u8]) -> Result<u64, Fault>
    // It is the entry of the image that the bytes are.
    ensures entry { IfOk result (λ entry. (image : ImageValue) × IsImage image bytes.now × (entry ≡ image.header.e_entry)) }
    ensures fault { IfErr result (IsParseFault bytes.now) }
{
    let image = parse(alloc, bytes)?;
    Ok(image.header().e_entry)
}
