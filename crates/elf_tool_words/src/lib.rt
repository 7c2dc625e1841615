//! The arguments of elfmap's command line: what they ask for, as [`Request`], by [`read_words`].
//!
//! ```
//! // The first argument is the program's name.
//! let request = read_words(alloc, &["elfmap", "check", "header.elf"])?;
//! assert_eq!(rt; request, Request::Check { file: "header.elf" });
//! ```
#![tactic(auto)]

mod command;
mod words;

pub use words::{Request, WordsFault, read_words};
