//! Why objects can't be linked.
ghost use Rattle.std.specs.Prelude.{◌≡◌};

use crate::rule_names::rule_name;
use crate::site::Site;
use elf_image_rules::Broken;
use std::alloc::{AllocError, AllocFailed};
use thiserror::Error;

// What a link is asked for.

/// Where the link places sections, and which name it starts at.
#[derive(Clone, Copy, Debug, PartialEq, Eq)]
pub struct Options<'e> {
    /// The address that placement begins at: a multiple of `page`.
    pub base: u64,
    /// What each output section begins at a multiple of: a power of two.
    pub page: u64,
    /// The name of the entry symbol; None for none.
    pub entry: Option<&'e [u8]>,
}

/// The first of the link's rules ([`rules`](crate::rules)) that is broken, or out of memory.
#[derive(Clone, Copy, Debug, PartialEq, Eq, Error)]
pub enum LinkFault {
    /// The rule of this number is broken, and no lower one: at this file, this section or symbol of it, and this entry of a relocation
    /// section; no earlier ones. What the rule does not look at is 0.
    #[error("rule {rule} ({name}) at entry {entry} of {index} in file {file}", name = rule_name(*.rule))]
    Rule {
        rule: u16,
        file: usize,
        index: usize,
        entry: usize,
    },
    /// An allocation failed.
    #[error("out of memory")]
    OutOfMemory,
}

impl From<AllocError> for LinkFault {
    ghost use Rattle.elf_link_files.specs.declared.fault.LinkFault.TheVariants.{OutOfMemory};

    ghost from_gives = { λ _ fault. fault ≡ OutOfMemory };

    fn from(_refused: AllocError) -> LinkFault {
        LinkFault::OutOfMemory
    }
}

impl<T: Drop> From<AllocFailed<T>> for LinkFault {
    ghost use Rattle.elf_link_files.specs.declared.fault.LinkFault.TheVariants.{OutOfMemory};

    ghost from_gives = { λ _ fault. fault ≡ OutOfMemory };

    fn from(_refused: AllocFailed<T>) -> LinkFault {
        LinkFault::OutOfMemory
    }
}

impl From<Broken<Site>> for LinkFault {
    ghost use Rattle.elf_link_files.specs.declared.fault.LinkFault.TheVariants.{Rule};

    ghost from_gives = { λ broken fault. fault ≡ Rule broken.rule broken.at.file broken.at.index broken.at.entry };

    fn from(broken: Broken<Site>) -> LinkFault {
        LinkFault::Rule {
            rule: broken.rule,
            file: broken.at.file,
            index: broken.at.index,
            entry: broken.at.entry,
        }
    }
}
