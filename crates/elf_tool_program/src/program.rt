//! The whole program: from its command line to its exit status.
ghost use Rattle.std.specs.Prelude.{◌≡◌, ◌≤◌, [], ◌∷◌, length, map as map_list, option_copied};
ghost use Rattle.elf_tool_check.specs.Ending.{AsksInOrder, EndsWith, EndsFile, EndsFileBy, code_of, printed_of, printed_refusal};
ghost use Rattle.elf_tool_check.specs.Ending.{printed_refusal_in};
ghost use Rattle.elf_tool_check.specs.declared.ending.Ended.{Ended as EndedValue};
ghost use Rattle.elf_tool_program.specs.CheckSource.{IsSourceChecked};
ghost use Rattle.elf_tool_rewrite.specs.Rewrite.{IsRewritten};
ghost use Rattle.elf_tool_show.specs.Show.{IsShown};
ghost use Rattle.elf_tool_link.specs.Link.{IsLinkCall};
ghost use Rattle.elf_tool_link.specs.Map.{IsMappedExactly};
ghost use Rattle.elf_tool_program.specs.Program.{EndsFiles, EndsLink, EndsMap, EndsRun, EndsUnasked, EndsUnruled};

use crate::opening::{NoRules, open_all, rules_of};
use crate::scan_check::check_source;
use elf_link_field::RelocRule;
use elf_tool_check::{
    Ended, OpenFault, Opener, Status, ToolFault, check_file, end, end_with_refusal,
    end_with_refusal_in, fail, misused, unopened,
};
use elf_tool_link::{Options, link, map};
use elf_tool_rewrite::rewrite;
use elf_tool_show::show;
use elf_tool_words::{Request, WordsFault, read_words};
use std::alloc::Global;
use std::convert::AsStr;
use std::io::Write;

/// Runs the program: `words` is its command line, whose first argument is its own name, `files` opens
/// the files that the arguments name, `out` takes what is said of them, and `err` takes the text of
/// what goes wrong. A failed write to `err` changes nothing.
///
/// Returns the exit status: 0 done, 1 refused, 2 wrong usage, a call for help or a bad line in the rule file, 3 a file that cannot be
/// opened, a failed read or write, or out of memory. Time and memory are those of the command that the arguments name.
pub fn run<S: AsStr, O: Opener, W: Write, E: Write>(
    alloc: Global,
    words: &[S],
    files: &mut O,
    out: &mut W,
    err: &mut E,
) -> u8
    ensures { (ended : EndedValue) × (result ≡ code_of ended.status)
        × EndsRun (map_list S.text words.now) (O.holds files.old) (O.opens files.old)
        (AsksInOrder (O.asked files.old) (O.asked files.new))
        (W.contents out.old) (W.contents out.new) (EndsWith (E.contents err.old) (E.contents err.new) ended) }
{
    run_to_end(alloc, words, files, out, err).status as u8
}

/// Runs the program as [`run`] does. Returns how it ended, and whether standard error is known to have taken the text that says why.
pub fn run_to_end<S: AsStr, O: Opener, W: Write, E: Write>(
    alloc: Global,
    words: &[S],
    files: &mut O,
    out: &mut W,
    err: &mut E,
) -> Ended
    ensures { EndsRun (map_list S.text words.now) (O.holds files.old) (O.opens files.old)
        (AsksInOrder (O.asked files.old) (O.asked files.new))
        (W.contents out.old) (W.contents out.new) (EndsWith (E.contents err.old) (E.contents err.new) result) }
{
    match read_words(alloc, words) {
        Ok(Request::Check { file }) => check_file(alloc, file, files, out, err),
        Ok(Request::CheckSource { file }) => check_file_by_seeking(alloc, file, files, out, err),
        Ok(Request::Show { file }) => show_file(alloc, file, files, out, err),
        Ok(Request::Rewrite { file }) => rewrite_file(alloc, file, files, out, err),
        Ok(
            Request::Map {
                base,
                page,
                rules,
                files: names,
            },
        ) => {
            let options = Options {
                base,
                page,
                entry: None,
            };
            map_by_rules(alloc, &options, rules, &names, files, out, err)
        }
        Ok(
            Request::Link {
                base,
                page,
                entry,
                rules,
                files: names,
            },
        ) => {
            let options = Options {
                base,
                page,
                entry: Some(entry.as_bytes()),
            };
            link_by_rules(alloc, &options, rules, &names, files, out, err)
        }
        Err(fault) => no_request(&fault, err),
    }
}

// How the program ends where its words ask for nothing: as wrong usage, or when out of memory as failed.
fn no_request<E: Write>(fault: &WordsFault, err: &mut E) -> Ended
    ensures { EndsUnasked (EndsWith (E.contents err.old) (E.contents err.new) result) fault.now }
{
    match fault {
        WordsFault::Words(error) => {
            // This text ends with a line feed of its own.
            let _ = write!(err, "{error}");
            Ended {
                status: Status::Usage,
                printed: false,
            }
        }
        WordsFault::TooManyFiles => misused("too many files", err),
        WordsFault::BadNumber => misused("bad number", err),
        WordsFault::OutOfMemory => fail(&ToolFault::OutOfMemory, err),
    }
}

/// Opens the file of this name as a source and calls [`check_source`] on it. Returns how the program ends.
fn check_file_by_seeking<O: Opener, W: Write, E: Write>(
    alloc: Global,
    file: &str,
    files: &mut O,
    out: &mut W,
    err: &mut E,
) -> Ended
    ensures asked { AsksInOrder (O.asked files.old) (O.asked files.new) (file.now ∷ []) }
    ensures ends { EndsFile IsSourceChecked (O.holds files.old file.now) (O.opens files.old file.now) file.now
        (W.contents out.old) (W.contents out.new) (EndsWith (E.contents err.old) (E.contents err.new) result) }
{
    match files.source(file) {
        Ok(mut source) => end(check_source(alloc, &mut source, out), err),
        Err(fault) => unopened(fault, file, err),
    }
}

fn show_file<O: Opener, W: Write, E: Write>(
    alloc: Global,
    file: &str,
    files: &mut O,
    out: &mut W,
    err: &mut E,
) -> Ended
    ensures asked { AsksInOrder (O.asked files.old) (O.asked files.new) (file.now ∷ []) }
    ensures ends { EndsFile IsShown (O.holds files.old file.now) (O.opens files.old file.now) file.now
        (W.contents out.old) (W.contents out.new) (EndsWith (E.contents err.old) (E.contents err.new) result) }
{
    match files.reader(file) {
        Ok(mut input) => end(show(alloc, &mut input, out), err),
        Err(fault) => unopened(fault, file, err),
    }
}

fn rewrite_file<O: Opener, W: Write, E: Write>(
    alloc: Global,
    file: &str,
    files: &mut O,
    out: &mut W,
    err: &mut E,
) -> Ended
    ensures asked { AsksInOrder (O.asked files.old) (O.asked files.new) (file.now ∷ []) }
    ensures ends { EndsFileBy printed_refusal IsRewritten (O.holds files.old file.now) (O.opens files.old file.now) file.now
        (W.contents out.old) (W.contents out.new) (EndsWith (E.contents err.old) (E.contents err.new) result) }
{
    match files.reader(file) {
        Ok(mut input) => end_with_refusal(rewrite(alloc, &mut input, out), err),
        Err(fault) => unopened(fault, file, err),
    }
}

fn map_named_files<O: Opener, W: Write, E: Write>(
    alloc: Global,
    options: &Options<'_>,
    rules: Option<&[RelocRule]>,
    names: &[&str],
    files: &mut O,
    out: &mut W,
    err: &mut E,
) -> Ended
    requires { length names.now ≤ 64 }
    ensures { EndsFiles printed_of (IsMappedExactly options.now (option_copied rules.entry)) (O.holds files.old) (O.opens files.old)
        (AsksInOrder (O.asked files.old) (O.asked files.new)) (map_list (λ name. name.now) names.now)
        (W.contents out.old) (W.contents out.new) (EndsWith (E.contents err.old) (E.contents err.new) result) }
{
    match open_all(alloc, names, files) {
        Ok(mut inputs) => end(map(alloc, inputs.as_mut_slice(), options, rules, out), err),
        Err(failed) => unopened(failed.fault, names[failed.position], err),
    }
}

fn map_by_rules<O: Opener, W: Write, E: Write>(
    alloc: Global,
    options: &Options<'_>,
    file: Option<&str>,
    names: &[&str],
    files: &mut O,
    out: &mut W,
    err: &mut E,
) -> Ended
    requires { length names.now ≤ 64 }
    ensures { EndsMap options.now (O.holds files.old) (O.opens files.old) (AsksInOrder (O.asked files.old) (O.asked files.new))
        (option_copied file.entry) (map_list (λ name. name.now) names.now)
        (W.contents out.old) (W.contents out.new) (EndsWith (E.contents err.old) (E.contents err.new) result) }
{
    let Some(file) = file else {
        return map_named_files(alloc, options, None, names, files, out, err);
    };
    match rules_of(alloc, file, files) {
        Ok(rules) => map_named_files(alloc, options, Some(&rules), names, files, out, err),
        Err(fault) => no_rules(fault, file, err),
    }
}

fn link_by_rules<O: Opener, W: Write, E: Write>(
    alloc: Global,
    options: &Options<'_>,
    file: &str,
    names: &[&str],
    files: &mut O,
    out: &mut W,
    err: &mut E,
) -> Ended
    ensures { EndsLink options.now (O.holds files.old) (O.opens files.old) (AsksInOrder (O.asked files.old) (O.asked files.new)) file.now
        (map_list (λ name. name.now) names.now)
        (W.contents out.old) (W.contents out.new) (EndsWith (E.contents err.old) (E.contents err.new) result) }
{
    match rules_of(alloc, file, files) {
        Ok(rules) => link_named_files(alloc, options, &rules, names, files, out, err),
        Err(fault) => no_rules(fault, file, err),
    }
}

fn link_named_files<O: Opener, W: Write, E: Write>(
    alloc: Global,
    options: &Options<'_>,
    rules: &[RelocRule],
    names: &[&str],
    files: &mut O,
    out: &mut W,
    err: &mut E,
) -> Ended
    ensures { EndsFiles printed_refusal_in (IsLinkCall options.now rules.now) (O.holds files.old) (O.opens files.old)
        (AsksInOrder (O.asked files.old) (O.asked files.new)) (map_list (λ name. name.now) names.now)
        (W.contents out.old) (W.contents out.new) (EndsWith (E.contents err.old) (E.contents err.new) result) }
{
    match open_all(alloc, names, files) {
        Ok(mut inputs) => {
            end_with_refusal_in(link(alloc, inputs.as_mut_slice(), options, rules, out), err)
        }
        Err(failed) => unopened(failed.fault, names[failed.position], err),
    }
}

// How the program ends where the file of this name gave no relocation rules.
fn no_rules<E: Write>(fault: NoRules, file: &str, err: &mut E) -> Ended
    ensures { EndsUnruled file.now (EndsWith (E.contents err.old) (E.contents err.new) result) fault }
{
    match fault {
        NoRules::Unopened => unopened(OpenFault::Refused, file, err),
        NoRules::Unread { at } => fail(&ToolFault::Read { at }, err),
        // As `RulesFault` prints it: the text of an error by `thiserror` is in no contract.
        NoRules::BadLine { line } => {
            let written = writeln!(err, "bad rule line {line}");
            Ended {
                status: Status::Usage,
                printed: written.is_ok(),
            }
        }
        NoRules::OutOfMemory => fail(&ToolFault::OutOfMemory, err),
    }
}
