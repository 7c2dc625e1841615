//! The program that has the command `check` alone.
ghost use Rattle.std.specs.Prelude.{◌≡◌, ℕ, [], ◌∷◌, List, MatchOption, map as map_list};
ghost use Rattle.elf_tool_check.specs.Check.{IsChecked};
ghost use Rattle.elf_tool_check.specs.Ending.{AsksFor, AsksInOrder, EndsWith, EndsCheck, EndsFile, code_of};
ghost use Rattle.elf_tool_check.specs.declared.ending.Ended.{Ended as EndedValue};

use crate::ending::{Ended, end, misused, unopened};
use crate::engine::check;
use crate::opener::Opener;
use std::alloc::Global;
use std::convert::AsStr;
use std::io::Write;

/// Runs the program that has `check` alone: `words` is its command line, whose first argument is its own name, `files` opens the file
/// that the arguments name, `out` takes what is said of it, and `err` takes the text of what goes wrong. A failed write to `err` changes
/// nothing. After the name it takes `check FILE`, where FILE does not begin with `-`, or `check -- FILE`. The program with all commands
/// reads the same FILE from these arguments. Anything else is wrong usage.
///
/// Returns the exit status: 0 done, 1 refused, 2 wrong usage, 3 a file that cannot be opened, a failed read or write, or out of memory.
pub fn run_check<S: AsStr, O: Opener, W: Write, E: Write>(
    alloc: Global,
    words: &[S],
    files: &mut O,
    out: &mut W,
    err: &mut E,
) -> u8
    ensures { (ended : EndedValue) × (result ≡ code_of ended.status)
        × EndsCheck (map_list S.text words.now) (O.holds files.old) (O.opens files.old)
        (AsksInOrder (O.asked files.old) (O.asked files.new))
        (W.contents out.old) (W.contents out.new) (EndsWith (E.contents err.old) (E.contents err.new) ended) }
{
    check_to_end(alloc, words, files, out, err).status as u8
}

/// Runs the program as [`run_check`] does. Returns how it ended.
pub fn check_to_end<S: AsStr, O: Opener, W: Write, E: Write>(
    alloc: Global,
    words: &[S],
    files: &mut O,
    out: &mut W,
    err: &mut E,
) -> Ended
    ensures { EndsCheck (map_list S.text words.now) (O.holds files.old) (O.opens files.old)
        (AsksInOrder (O.asked files.old) (O.asked files.new))
        (W.contents out.old) (W.contents out.new) (EndsWith (E.contents err.old) (E.contents err.new) result) }
{
    match asked_file(words) {
        Some(file) => check_file(alloc, file, files, out, err),
        None => misused("this program has the command check FILE alone", err),
    }
}

// The file that these words ask for. With clap the first `./elfmap check FILE` would have more to prove and to compile.
fn asked_file<S: AsStr>(words: &[S]) -> Option<&str>
    ensures { MatchOption result
        ((file : List ℕ) → AsksFor (map_list S.text words.now) file → ⊥) (λ file. AsksFor (map_list S.text words.now) file.now) }
{
    match words {
        [_, command, file] => {
            if command.as_str() == "check" && !file.as_str().as_bytes().starts_with(b"-") {
                Some(file.as_str())
            } else {
                None
            }
        }
        [_, command, dashes, file] => {
            if command.as_str() == "check" && dashes.as_str() == "--" {
                Some(file.as_str())
            } else {
                None
            }
        }
        _ => None,
    }
}

/// Opens the file of this name and calls [`check`] on it. Returns how the program ends.
pub fn check_file<O: Opener, W: Write, E: Write>(
    alloc: Global,
    file: &str,
    files: &mut O,
    out: &mut W,
    err: &mut E,
) -> Ended
    ensures asked { AsksInOrder (O.asked files.old) (O.asked files.new) (file.now ∷ []) }
    ensures ends { EndsFile IsChecked (O.holds files.old file.now) (O.opens files.old file.now) file.now
        (W.contents out.old) (W.contents out.new) (EndsWith (E.contents err.old) (E.contents err.new) result) }
{
    match files.reader(file) {
        Ok(mut input) => end(check(alloc, &mut input, out), err),
        Err(fault) => unopened(fault, file, err),
    }
}
