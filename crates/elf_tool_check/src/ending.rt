//! How a program ends: its exit status, and what it prints on standard error.
ghost use Rattle.std.specs.Prelude.{◌≡◌, ◌≢◌, IfSome};
ghost use Rattle.std.specs.Fmt.{with_newline};
ghost use Rattle.std.specs.IoError.{error_kind};
ghost use Rattle.std.specs.declared.io.ErrorKind.TheVariants.{InvalidData};
ghost use Rattle.elf_tool_check.specs.Ending.{IsPrinted, code_of, ending_of, printed_of, printed_refusal as refusal_of};
ghost use Rattle.elf_tool_check.specs.Ending.{printed_refusal_in as refusal_in_of, unopened_text};
ghost use Rattle.elf_tool_check.specs.declared.ending.Status.{Status as Ending};

use crate::calls::{Refusal, ToolFault, Verdict};
use crate::opener::OpenFault;
use std::fmt::Display;
use std::io;
use std::io::Write;

/// How the program ends. Its exit status is the position in this list, from 0.
#[derive(Clone, Copy, Debug, PartialEq, Eq)]
pub enum Status {
    /// All that was asked is done.
    Done,
    /// What was read is refused, and standard output says why, for `rewrite` and `link` standard error.
    Refused,
    /// The arguments are not as the command takes them, or call for help, or a line of a file of rules is bad.
    Usage,
    /// A file could not be opened or read, the output could not be written, or an allocation failed.
    Failed,
}

/// How a program ended, and what is known of standard error.
#[derive(Clone, Copy, Debug, PartialEq, Eq)]
pub struct Ended {
    /// How it ended.
    pub status: Status,
    /// Whether standard error is known to have taken all of the text that says why. The text may be empty.
    pub printed: bool,
}

/// The exit status where the machine gives no arguments: 2, wrong usage, where one is not UTF-8, and
/// else 3.
pub fn refuse_words<E: Write>(error: &io::Error, err: &mut E) -> u8
    ensures status { (status : Ending) × (result ≡ code_of status) }
    ensures usage { error_kind error.now ≡ InvalidData → result ≡ code_of Status.Usage }
    ensures failed { error_kind error.now ≢ InvalidData → result ≡ code_of Status.Failed }
{
    let status = match error.kind() {
        io::ErrorKind::InvalidData => {
            let _ = writeln!(err, "error: the arguments are not UTF-8");
            Status::Usage
        }
        io::ErrorKind::OutOfMemory => fail(&ToolFault::OutOfMemory, err).status,
        _ => fail(error, err).status,
    };
    status as u8
}

/// How the program ends if its arguments are not what it takes, with this text.
pub fn misused<T: Display + Copy, E: Write>(text: T, err: &mut E) -> Ended
    ensures status { result.status ≡ Status.Usage }
    ensures printed { IfSome (with_newline (T.output text)) (λ t. IsPrinted t (E.contents err.old) (E.contents err.new) result.printed) }
{
    let written = writeln!(err, "{text}");
    Ended {
        status: Status::Usage,
        printed: written.is_ok(),
    }
}

/// How it ends where the file of this name gave no reader.
pub fn unopened<E: Write>(fault: OpenFault, file: &str, err: &mut E) -> Ended
    ensures status { result.status ≡ Status.Failed }
    ensures printed { IsPrinted (unopened_text fault file.now) (E.contents err.old) (E.contents err.new) result.printed }
{
    match fault {
        OpenFault::Refused => {
            let written = writeln!(err, "cannot open {file}");
            Ended {
                status: Status::Failed,
                printed: written.is_ok(),
            }
        }
        OpenFault::OutOfMemory => fail(&ToolFault::OutOfMemory, err),
    }
}

/// How it ends if an engine returned this.
pub fn end<E: Write>(answer: Result<Verdict, ToolFault>, err: &mut E) -> Ended
    ensures status { result.status ≡ ending_of answer }
    ensures printed { IsPrinted (printed_of answer) (E.contents err.old) (E.contents err.new) result.printed }
{
    match answer {
        Ok(Verdict::Done) => Ended {
            status: Status::Done,
            printed: true,
        },
        Ok(Verdict::Refused(_)) => Ended {
            status: Status::Refused,
            printed: true,
        },
        Err(fault) => fail(&fault, err),
    }
}

/// How it ends if this was returned by an engine that writes no line on what it refuses: the line goes to standard error.
pub fn end_with_refusal<E: Write>(answer: Result<Verdict, ToolFault>, err: &mut E) -> Ended
    ensures status { result.status ≡ ending_of answer }
    ensures printed { IsPrinted (refusal_of answer) (E.contents err.old) (E.contents err.new) result.printed }
{
    match answer {
        Ok(Verdict::Refused(refusal)) => {
            let written = writeln!(err, "{refusal}");
            Ended {
                status: Status::Refused,
                printed: written.is_ok(),
            }
        }
        _ => end(answer, err),
    }
}

/// How it ends if this was returned by such an engine that reads several files: the line on a file that is refused says which one.
pub fn end_with_refusal_in<E: Write>(answer: Result<Verdict, ToolFault>, err: &mut E) -> Ended
    ensures status { result.status ≡ ending_of answer }
    ensures printed { IsPrinted (refusal_in_of answer) (E.contents err.old) (E.contents err.new) result.printed }
{
    match answer {
        Ok(Verdict::Refused(Refusal::File { file, rule, at })) => {
            let written = writeln!(err, "file {file} refused {rule} {at}");
            Ended {
                status: Status::Refused,
                printed: written.is_ok(),
            }
        }
        _ => end_with_refusal(answer, err),
    }
}

/// How it ends where something failed, with its text.
pub fn fail<F: Display, E: Write>(fault: &F, err: &mut E) -> Ended
    ensures status { result.status ≡ Status.Failed }
    ensures printed { IfSome (with_newline (F.output fault.now))
        (λ t. IsPrinted t (E.contents err.old) (E.contents err.new) result.printed) }
{
    let written = writeln!(err, "{fault}");
    Ended {
        status: Status::Failed,
        printed: written.is_ok(),
    }
}
