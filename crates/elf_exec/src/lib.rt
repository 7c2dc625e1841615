//! The executable of a link (gABI chapter 4, ELF Header; chapter 5, Program Header): one file whose segments of type `PT_LOAD` are the
//! memory of the link. Which segments there are, and where their bytes are, is this project's profile.
//!
//! [`write_exec`] writes it for relocated bytes, and [`exec_length`] says how long it is. A system can load it page by page, if the size of
//! its pages divides the page of the link. The executable of no files is a header alone:
//!
//! ```
//! let map = map(alloc, &objects, &options, hasher)?;
//! let linked = relocate(alloc, &map, &objects, &rules)?;
//! let mut text = Vec::new(alloc);
//! write_exec(alloc, &linked, &mut text)?;
//! assert_eq!(rt; text.len(), 64);
//! ```
#![tactic(auto)]

mod exec_writing;
mod headers;
mod laws;
mod pieces;
mod placed_exec;

pub use elf_link_relocate::Load;
pub use exec_writing::{ExecFault, exec_length, write_exec};
pub use laws::{executable, one_exec, prove_loaded, some_exec};
