//! What an engine reads, and how it ends: with a verdict on what it read, or with a fault of its surroundings.
ghost use Rattle.std.specs.Prelude.{◌≡◌, Some, ◌+◌, ◌≤◌, ◌⊎◌, [], take, vec_len, IfErr, IfSome, OnOk};
ghost use Rattle.std.specs.Io.KnownBytes.{Consumes, IsAtEnd};
ghost use Rattle.elf_image_rules.specs.Rules.{MAX_LEN};
ghost use Rattle.elf_tool_check.specs.Engine.{IsReadFaultAfter};

use elf_image_stream::{InputFault, WriteFault, read_all};
use std::alloc::{AllocError, AllocFailed};
use std::error::Error;
use std::fmt;
use std::io::Read;

// How an engine ends.

/// What an engine found, once all that it says is written.
#[derive(Clone, Copy, Debug, PartialEq, Eq)]
pub enum Verdict {
    /// Nothing is refused.
    Done,
    /// This is refused.
    Refused(Refusal),
}

/// What an engine refuses.
#[derive(Clone, Copy, Debug, PartialEq, Eq)]
pub enum Refusal {
    /// A file breaks the refusal rule of this number, first at this offset in it. Files count from
    /// 0, in the order of the command line.
    File {
        file: usize,
        rule: u16,
        at: u64,
    },
    /// Files that do not link: the rule of this number is broken at this entry, which counts from 0 at that index of that file.
    Link {
        rule: u16,
        file: usize,
        index: usize,
        entry: usize,
    },
    /// The file to be written would be longer than 2^30 bytes, or an executable would have 0xffff segments or more.
    TooLong,
}

impl fmt::Display for Refusal {
    ghost use Rattle.elf_tool_check.specs.Engine.{refusal_text};

    ghost output = { λ refusal. Some (refusal_text refusal) };

    fn fmt<W: fmt::Write>(&self, f: &mut fmt::Formatter<W>) -> fmt::Result {
        match self {
            Refusal::File { rule, at, .. } => write!(f, "refused {rule} {at}"),
            Refusal::Link {
                rule,
                file,
                index,
                entry,
            } => write!(f, "refused {rule} {file} {index} {entry}"),
            Refusal::TooLong => write!(f, "too long"),
        }
    }
}

/// What can stop an engine.
#[derive(Clone, Copy, Debug, PartialEq, Eq)]
pub enum ToolFault {
    /// A call of a reader failed, after it had given `at` bytes.
    Read { at: u64 },
    /// A call of the writer failed or took nothing, with exactly the first `written` bytes of the
    /// text out.
    Write { written: u64 },
    /// An allocation failed.
    OutOfMemory,
}

impl fmt::Display for ToolFault {
    ghost use Rattle.elf_tool_check.specs.Engine.{fault_text};

    ghost output = { λ fault. Some (fault_text fault) };

    fn fmt<W: fmt::Write>(&self, f: &mut fmt::Formatter<W>) -> fmt::Result {
        match self {
            ToolFault::Read { at } => write!(f, "read failed at {at}"),
            ToolFault::Write { written } => write!(f, "write failed after {written}"),
            ToolFault::OutOfMemory => write!(f, "out of memory"),
        }
    }
}

impl Error for ToolFault {}

impl From<AllocError> for ToolFault {
    ghost use Rattle.elf_tool_check.specs.declared.calls.ToolFault.TheVariants.{OutOfMemory};

    ghost from_gives = { λ _ fault. fault ≡ OutOfMemory };

    fn from(_refused: AllocError) -> ToolFault {
        ToolFault::OutOfMemory
    }
}

impl<T: Drop> From<AllocFailed<T>> for ToolFault {
    ghost use Rattle.elf_tool_check.specs.declared.calls.ToolFault.TheVariants.{OutOfMemory};

    ghost from_gives = { λ _ fault. fault ≡ OutOfMemory };

    fn from(_refused: AllocFailed<T>) -> ToolFault {
        ToolFault::OutOfMemory
    }
}

impl From<WriteFault> for ToolFault {
    ghost use Rattle.elf_tool_check.specs.declared.calls.ToolFault.TheVariants.{Write};

    ghost from_gives = { λ failed fault. fault ≡ Write failed.written };

    fn from(failed: WriteFault) -> ToolFault {
        ToolFault::Write {
            written: failed.written,
        }
    }
}

// What the engines read.

/// All bytes of a file, into `buf`, which is empty at the call; of a file longer than 2^30 bytes the first 2^30 + 1. A failed read is
/// [`ToolFault::Read`] with the count of bytes read before it, an allocation that fails
/// [`ToolFault::OutOfMemory`].
pub fn read_input<R: Read>(reader: &mut R, buf: &mut Vec<u8>) -> Result<(), ToolFault>
    requires { buf.old.items ≡ [] }
    ensures taken { Consumes (R.remaining reader.old) (R.remaining reader.new) buf.new.items }
    ensures limit { vec_len buf.new ≤ MAX_LEN + 1 }
    ensures ok { OnOk result (IsAtEnd (R.remaining reader.new) ⊎ (vec_len buf.new ≡ MAX_LEN + 1)) }
    ensures fault { IfErr result (λ e. IsReadFaultAfter e (vec_len buf.new)) }
    ensures whole { OnOk result (IfSome (R.remaining reader.old)
        (λ bytes. buf.new.items ≡ take (MAX_LEN + 1) bytes)) }
{
    match read_all(reader, buf) {
        Ok(()) => Ok(()),
        Err(InputFault::Io { at }) => Err(ToolFault::Read { at }),
        Err(InputFault::OutOfMemory) => Err(ToolFault::OutOfMemory),
    }
}
