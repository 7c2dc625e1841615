//! The link of relocatable ELF-64 objects (gABI chapter 4; placement is this project's profile).
//!
//! [`map`] returns the [`LinkMap`] of some objects: which sections are kept, what each name is bound to, and the address of each section.
//! If a rule of the link is broken, it returns the first one ([`rules`]). [`relocate`] puts the number of each relocation into its field.
//! [`Mapped`] holds objects with their map, and relocates them by any rules.
//!
//! ```
//! let options = Options {
//!     base: 0x1000,
//!     page: 0x1000,
//!     entry: Some(b"main"),
//! };
//! let link = map(alloc, &objects, &options, hasher)?;
//! // The address of section 0 of file 1, and what `main` is bound to.
//! assert_eq!(rt; link.address(1, 0), Some(0x1006));
//! assert_eq!(rt; link.binding(b"main"), Some(Binding::Strong { file: 0, symbol: 0 }));
//! let linked = relocate(alloc, &link, &objects, &rules)?;
//! let code = [0xc3];
//! assert_eq!(rt; linked.bytes(1, 0), Some(code.as_slice()));
//! ```
#![tactic(auto)]

pub mod laws;
pub mod rules;

pub use elf_link_field::{Form, Range, RelocRule, Width};
pub use elf_link_files::{LinkFault, Options};
pub use elf_link_map::{Binding, LinkMap, Named, map};
pub use elf_link_outputs::{Common, Member, Output};
pub use elf_link_relocate::{Identity, Linked, Mapped, relocate};
