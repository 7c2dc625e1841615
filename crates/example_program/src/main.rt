//! `example_program A B C WORD..`: reads the three files into memory, and runs elfmap on the words over these alone. No file is opened
//! while it runs, and its contract says what it prints.
#![tactic(auto)]

ghost use Rattle.std.specs.Prelude.{◌≤◌, None, length, map as map_list};
ghost use Rattle.elf_tool.specs.Ending.{AsksInOrder, EndsWith};
ghost use Rattle.elf_tool.specs.Program.{EndsRun};
ghost use Rattle.example_program.specs.Files.{file_bytes, is_file};

mod files;

use elf_tool::{Ended, run_to_end};
use files::{Files, NamedFile};
use std::alloc::{AllocError, Global};
use std::convert::AsStr;
use std::io::Write;
use std::process::ExitCode;
use std::{env, fs, io};

fn main(rt: HostRuntime) -> io::Result<ExitCode> {
    let words: Vec<String> = env::args(&rt)?.collect(rt.alloc())?;
    if words.len() < 5 {
        eprintln!(rt; "usage: example_program A B C WORD..")?;
        return Ok(ExitCode::from(2));
    }
    let ended = run_over_three(&rt, &words)?;
    Ok(ExitCode::from(ended.status as u8))
}

/// Reads the files that the first three arguments name, and runs the program on those after them.
fn run_over_three(rt: &HostRuntime, words: &[String]) -> io::Result<Ended>
    requires { 5 ≤ length words.now }
{
    let first = fs::read(rt, words[1].as_str())?;
    let second = fs::read(rt, words[2].as_str())?;
    let third = fs::read(rt, words[3].as_str())?;
    let command = command_of(rt.alloc(), words)?;
    let mut files = Files {
        first: NamedFile {
            name: words[1].as_str(),
            bytes: &first,
        },
        second: NamedFile {
            name: words[2].as_str(),
            bytes: &second,
        },
        third: NamedFile {
            name: words[3].as_str(),
            bytes: &third,
        },
    };
    let (mut out, mut err) = (rt.stdout(), rt.stderr());
    Ok(program_in_memory(rt.alloc(), &command, &mut files, &mut out, &mut err))
}

/// The command line of the program: its name, and the words after the three files.
fn command_of(alloc: Global, words: &[String]) -> Result<Vec<&str>, AllocError> {
    let mut command = Vec::new(alloc);
    for k in 0..words.len() {
        if k == 0 || k > 3 {
            command.push(words[k].as_str())?;
        }
    }
    Ok(command)
}

/// The whole program over files in memory: these words and files determine its status, and what it writes to standard output and, unless a
/// write fails, to standard error.
fn program_in_memory<S: AsStr, W: Write, E: Write>(
    alloc: Global,
    words: &[S],
    files: &mut Files<'_>,
    out: &mut W,
    err: &mut E,
) -> Ended
    ensures { EndsRun (map_list S.text words.now) (file_bytes files.old) (is_file files.old) (AsksInOrder None None)
        (W.contents out.old) (W.contents out.new) (EndsWith (E.contents err.old) (E.contents err.new) result) }
{
    run_to_end(alloc, words, files, out, err)
}
