//! The engine [`rewrite`] of `elfmap`, over any reader and any writer: it reads a whole file, and writes the object that the file
//! denotes in its canonical layout, or says why it can't; [`rewrite_bytes`], which has the file's bytes; and [`rewrite_within`], which
//! writes only what has room.
//!
//! ```
//! // `bytes` are those of a file that is not relocatable, so it denotes no object: rule 70, at `e_type`.
//! let mut out = Vec::new(alloc);
//! let refused = Refusal::File { file: 0, rule: 70, at: 16 };
//! assert_eq!(rt; rewrite(alloc, &mut bytes, &mut out), Ok(Verdict::Refused(refused)));
//! ```
#![tactic(auto)]

mod engine;

pub use elf_tool_check::{Refusal, ToolFault, Verdict};
pub use engine::{rewrite, rewrite_bytes, rewrite_within};
