//! Files by name, of the machine or of a test.
ghost use Rattle.std.specs.Prelude.{◌≡◌, ℕ, Bool, false, List, None, Option, Some, IfErr, IfOk, IfSome};
ghost use Rattle.elf_image_stream.specs.Source.{no_failures};
ghost use Rattle.elf_tool_check.specs.Ending.{IsOpenFault};

use elf_image_stream::{Opened, Seeking, Source};
use std::fs::{Files, OpenFile};
use std::io::Read;
use std::{fs, io};
use thiserror::Error;

/// Why a file gives no reader and no source.
#[derive(Clone, Copy, Debug, PartialEq, Eq, Error)]
pub enum OpenFault {
    /// There is no such file, or it may not be read.
    #[error("no such file, or it may not be read")]
    Refused,
    /// An allocation failed.
    #[error("out of memory")]
    OutOfMemory,
}

/// What opens files by their names.
pub trait Opener {
    ghost use Rattle.std.specs.Prelude.{[], ◌∷◌};
    ghost use Rattle.elf_tool_check.specs.Ending.{AsksInOrder};

    /// What an open file is read by.
    type Input: Read + Drop;

    /// What an open file is sought and read by.
    type Seek: Source + Drop;

    // The bytes of the file of this name, where they are known.
    ghost holds: { Self → List ℕ → Option (List ℕ) } = { λ _ _. None };

    // The names that it was asked for, in order, where it reports them.
    ghost asked: { Self → Option (List (List ℕ)) } = { λ _. None };

    // Whether a file of this name is known to open.
    ghost opens: { Self → List ℕ → Bool } = { λ _ _. false };

    /// A reader of the file's bytes from its beginning on. [`OpenFault::Refused`] comes only for a file that is not known to open,
    /// [`OpenFault::OutOfMemory`] only if an allocation fails. What is known of the files stays, so that one that is opened twice gives
    /// its bytes twice.
    fn reader(&mut self, name: &str) -> Result<Self::Input, OpenFault>
        ensures bytes { IfSome (holds self.old name.now) (λ bytes.
            IfOk result (λ input. Self.Input.remaining input ≡ Some bytes)) }
        ensures fault { IfErr result (IsOpenFault (opens self.old name.now)) }
        ensures kept { holds self.new ≡ holds self.old }
        ensures still { opens self.new ≡ opens self.old }
        ensures asked { AsksInOrder (asked self.old) (asked self.new) (name.now ∷ []) };

    /// A source of the file's bytes, no call of which has failed. It fails as [`reader`](Opener::reader) does, and what is known of the
    /// files stays.
    fn source(&mut self, name: &str) -> Result<Self::Seek, OpenFault>
        ensures bytes { IfSome (holds self.old name.now) (λ bytes.
            IfOk result (λ source. Self.Seek.content source ≡ Some bytes)) }
        ensures unfailed { IfOk result (λ source. Self.Seek.failures source ≡ no_failures) }
        ensures fault { IfErr result (IsOpenFault (opens self.old name.now)) }
        ensures kept { holds self.new ≡ holds self.old }
        ensures still { opens self.new ≡ opens self.old }
        ensures asked { AsksInOrder (asked self.old) (asked self.new) (name.now ∷ []) };
}

/// The machine's files.
#[derive(Drop)]
pub struct MachineFiles<'r, R> {
    /// What opens them.
    pub files: &'r R,
}

// Opens a file to read it.
fn open<R: Files>(files: &R, name: &str) -> Result<R::File, OpenFault> {
    match fs::open(files, name) {
        Ok(file) => Ok(file),
        Err(error) if error.kind() == io::ErrorKind::OutOfMemory => Err(OpenFault::OutOfMemory),
        Err(_) => Err(OpenFault::Refused),
    }
}

impl<'r, R: Files> Opener for MachineFiles<'r, R> {
    type Input = R::File;

    type Seek = Seeking<Opened<R::File>>;

    fn reader(&mut self, name: &str) -> Result<R::File, OpenFault> {
        open(self.files, name)
    }

    // A folder has no bytes, and yet a length on some file systems: it is no source.
    fn source(&mut self, name: &str) -> Result<Seeking<Opened<R::File>>, OpenFault> {
        let file = open(self.files, name)?;
        match file.metadata() {
            Ok(metadata) if metadata.is_dir() => Err(OpenFault::Refused),
            _ => Ok(Seeking::new(Opened(file))),
        }
    }
}
