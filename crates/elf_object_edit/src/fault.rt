//! Why sections can't be left out of an object.
ghost use Rattle.std.specs.Prelude.{◌≡◌};

use std::alloc::{AllocError, AllocFailed};
use std::fmt;
use thiserror::Error;

/// A reference of a section to another section, or to a symbol (gABI chapter 4, Sections: `sh_link`, `sh_info`; Relocation; Section
/// Groups).
#[derive(Clone, Copy, Debug, PartialEq, Eq)]
pub enum Reference {
    /// The section that its `sh_link` names.
    Link,
    /// The section that its `sh_info` names, by the flag `SHF_INFO_LINK`.
    Info,
    /// The section that its relocations apply to.
    Target,
    /// The symbol of the relocation at this index.
    Symbol(usize),
    /// The signature symbol of the group.
    Signature,
    /// The member of the group at this index.
    Member(usize),
}

impl fmt::Display for Reference {
    fn fmt<W: fmt::Write>(&self, f: &mut fmt::Formatter<W>) -> fmt::Result {
        match self {
            Reference::Link => write!(f, "link"),
            Reference::Info => write!(f, "info"),
            Reference::Target => write!(f, "target"),
            Reference::Symbol(index) => write!(f, "symbol of relocation {index}"),
            Reference::Signature => write!(f, "signature"),
            Reference::Member(index) => write!(f, "member {index}"),
        }
    }
}

/// Why sections can't be left out of an object.
#[derive(Clone, Copy, Debug, PartialEq, Eq, Error)]
pub enum WithoutFault {
    /// The section at position `section` is to stay, and refers to one that is to be left out, or to a symbol that is defined in one.
    #[error("section {section} refers to what is left out, by its {reference}")]
    Dangling {
        section: usize,
        reference: Reference,
    },
    /// An allocation failed.
    #[error("out of memory")]
    OutOfMemory,
}

impl From<AllocError> for WithoutFault {
    ghost use Rattle.elf_object_edit.specs.declared.fault.WithoutFault.TheVariants.{OutOfMemory};

    ghost from_gives = { λ _ fault. fault ≡ OutOfMemory };

    fn from(_refused: AllocError) -> WithoutFault {
        WithoutFault::OutOfMemory
    }
}

impl<T: Drop> From<AllocFailed<T>> for WithoutFault {
    ghost use Rattle.elf_object_edit.specs.declared.fault.WithoutFault.TheVariants.{OutOfMemory};

    ghost from_gives = { λ _ fault. fault ≡ OutOfMemory };

    fn from(_refused: AllocFailed<T>) -> WithoutFault {
        WithoutFault::OutOfMemory
    }
}
