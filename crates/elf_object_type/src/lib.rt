//! A relocatable ELF-64 file as a typed object (gABI chapter 4): its sections with names and bodies, and its symbols, every
//! reference between them a position in a list.
//!
//! An [`Object`] is made from its [`ObjectParts`]; it keeps the object rules ([`rules`]) from then on. `elf_object_reader` reads one
//! from a file, and `elf_object_writer` writes it. One without sections or symbols is made so:
//!
//! ```
//! let parts = ObjectParts {
//!     order: Order::Little,
//!     osabi: 0,
//!     abi: 0,
//!     machine: 62,
//!     flags: 0,
//!     sections: Vec::new(alloc),
//!     symbols: Vec::new(alloc),
//! };
//! let object = Object::new(alloc, parts)?;
//! ```
#![tactic(auto)]

mod laws;
mod object;
mod object_rules;
mod parts;
mod relocations;
mod rule_names;
pub mod rules;
mod section_rules;

pub use laws::{kept_object_rules, one_object_fault};
pub use object::{NameEnds, Object, ObjectFault, kept_object, section_ends, symbol_ends};
pub use parts::{Body, Info, ObjectParts, Place, Section, Symbol};
pub use relocations::{Relocation, RelocationIter, Relocations, relocation_size};
