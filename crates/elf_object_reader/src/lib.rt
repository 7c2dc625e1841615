//! A relocatable ELF-64 file read as an object (gABI chapter 4): [`object_of`] reads one from an [`Image`](elf_image_type::Image), or
//! returns the first rule ([`rules`]) that the file breaks.
//!
//! ```
//! let image = parse(alloc, &bytes)?;
//! let object = object_of(alloc, &image)?;
//! ```
#![tactic(auto)]

mod file_rules;
mod laws;
mod name_ends;
mod object_file;
mod read_bodies;
mod read_symbols;
mod reading;
pub mod rules;
mod string_blocks;

pub use laws::{one_file_fault, one_object};
pub use object_file::BodyKind;
pub use reading::{object_of, read_object};
