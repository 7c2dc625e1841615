//! What can stop a call that reads, validates or writes a file.
ghost use Rattle.std.specs.Prelude.{◌≡◌, ◌+◌, ◌^◌, ◌<◌};

use elf_extent::OutOfMemory;
use elf_image_rule_names::{Broken, rule_name};
use std::alloc::{AllocError, AllocFailed};
use thiserror::Error;

/// Why a call on a file's bytes failed.
#[derive(Clone, Copy, Debug, PartialEq, Eq, Error)]
pub enum Fault {
    /// An allocation failed.
    #[error("out of memory")]
    OutOfMemory,
    /// A call of the reader failed, after it had given `at` bytes.
    #[error("read failed at {at}")]
    Io { at: u64 },
    /// The bytes break the refusal rule of this number, first at this offset in the file.
    #[error("rule {rule} ({name}) at offset {at}", name = rule_name(*.rule))]
    Rule { rule: u16, at: u64 },
}

impl From<AllocError> for Fault {
    ghost use Rattle.elf_image_stream.specs.declared.fault.Fault.TheVariants.{OutOfMemory};

    ghost from_gives = { λ _ fault. fault ≡ OutOfMemory };

    fn from(_refused: AllocError) -> Fault {
        Fault::OutOfMemory
    }
}

impl<T: Drop> From<AllocFailed<T>> for Fault {
    ghost use Rattle.elf_image_stream.specs.declared.fault.Fault.TheVariants.{OutOfMemory};

    ghost from_gives = { λ _ fault. fault ≡ OutOfMemory };

    fn from(_refused: AllocFailed<T>) -> Fault {
        Fault::OutOfMemory
    }
}

impl From<Broken<u64>> for Fault {
    ghost use Rattle.elf_image_stream.specs.declared.fault.Fault.TheVariants.{Rule};

    ghost from_gives = { λ broken fault. fault ≡ Rule broken.rule broken.at };

    fn from(broken: Broken<u64>) -> Fault {
        Fault::Rule {
            rule: broken.rule,
            at: broken.at,
        }
    }
}

impl From<OutOfMemory> for Fault {
    ghost use Rattle.elf_image_stream.specs.declared.fault.Fault.TheVariants.{OutOfMemory};

    ghost from_gives = { λ _ fault. fault ≡ OutOfMemory };

    fn from(_refused: OutOfMemory) -> Fault {
        Fault::OutOfMemory
    }
}

// What can stop a call that only does a part of this: one that looks at bytes in memory, or one that only reads. A public call returns it
// as the [`Fault`] that it is.

/// Why a call on bytes in memory failed. Nothing is read there.
#[derive(Clone, Copy, Debug, PartialEq, Eq)]
pub enum BytesFault {
    /// An allocation failed.
    OutOfMemory,
    /// The bytes break the refusal rule of this number, first at this offset in the file.
    Rule { rule: u16, at: u64 },
}

impl From<AllocError> for BytesFault {
    ghost use Rattle.elf_image_stream.specs.declared.fault.BytesFault.TheVariants.{OutOfMemory};

    ghost from_gives = { λ _ fault. fault ≡ OutOfMemory };

    fn from(_refused: AllocError) -> BytesFault {
        BytesFault::OutOfMemory
    }
}

impl<T: Drop> From<AllocFailed<T>> for BytesFault {
    ghost use Rattle.elf_image_stream.specs.declared.fault.BytesFault.TheVariants.{OutOfMemory};

    ghost from_gives = { λ _ fault. fault ≡ OutOfMemory };

    fn from(_refused: AllocFailed<T>) -> BytesFault {
        BytesFault::OutOfMemory
    }
}

impl From<OutOfMemory> for BytesFault {
    ghost use Rattle.elf_image_stream.specs.declared.fault.BytesFault.TheVariants.{OutOfMemory};

    ghost from_gives = { λ _ fault. fault ≡ OutOfMemory };

    fn from(_refused: OutOfMemory) -> BytesFault {
        BytesFault::OutOfMemory
    }
}

impl From<Broken<u64>> for BytesFault {
    ghost use Rattle.elf_image_stream.specs.declared.fault.BytesFault.TheVariants.{Rule};

    ghost from_gives = { λ broken fault. fault ≡ Rule broken.rule broken.at };

    fn from(broken: Broken<u64>) -> BytesFault {
        BytesFault::Rule {
            rule: broken.rule,
            at: broken.at,
        }
    }
}

impl From<BytesFault> for Fault {
    ghost use Rattle.elf_image_stream.specs.Faults.{bytes_fault};

    ghost from_gives = { λ refused fault. fault ≡ bytes_fault refused };

    fn from(refused: BytesFault) -> Fault {
        match refused {
            BytesFault::OutOfMemory => Fault::OutOfMemory,
            BytesFault::Rule { rule, at } => Fault::Rule { rule, at },
        }
    }
}

/// Why a call that only reads failed. It tests no rule.
#[derive(Clone, Copy, Debug, PartialEq, Eq)]
pub enum InputFault {
    /// An allocation failed.
    OutOfMemory,
    /// A call of the reader failed, after it had given `at` bytes.
    Io { at: u64 },
}

impl From<InputFault> for Fault {
    ghost use Rattle.elf_image_stream.specs.Faults.{input_fault};

    ghost from_gives = { λ failed fault. fault ≡ input_fault failed };

    fn from(failed: InputFault) -> Fault {
        match failed {
            InputFault::OutOfMemory => Fault::OutOfMemory,
            InputFault::Io { at } => Fault::Io { at },
        }
    }
}

/// A call of the writer failed, or took none of the bytes that it was offered.
#[derive(Clone, Copy, Debug, PartialEq, Eq, Error)]
#[error("write failed after {written}")]
pub struct WriteFault {
    /// How many bytes are written: exactly the first ones of those that were to be written.
    pub written: u64,
}

impl WriteFault {
    /// The fault, if so many other bytes were written before.
    pub fn after(self, before: u64) -> WriteFault
        requires { before + self.written < 2 ^ 64 }
        ensures { result.written ≡ before + self.written }
    {
        WriteFault {
            written: before + self.written,
        }
    }
}
