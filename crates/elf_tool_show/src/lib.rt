//! The engine [`show`] of `elfmap`, over any reader and any writer: it reads a whole file, validates it, and writes what the file
//! holds, in lines. [`show_bytes`] does this for bytes, and [`show_length`] says how long that text is.
//!
//! ```
//! // A header alone is a file of 64 bytes without sections and segments.
//! let mut out = Vec::new(alloc);
//! assert_eq!(rt; show(alloc, &mut header.as_slice(), &mut out), Ok(Verdict::Done));
//! assert_eq!(rt; out.as_slice(), b"file little 1 62 0x0 0x0\npart 0x0 0x40 header\n".as_slice());
//! ```
#![tactic(auto)]

mod engine;
mod show_lines;
mod show_tables;

pub use elf_tool_check::{Refusal, ToolFault, Verdict};
pub use engine::{show, show_bytes, show_length};
