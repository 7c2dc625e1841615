//! What the engines of `elfmap` write: lines that are made word by word, and texts that go out in pieces.
//!
//! A [`line`](mod@line) is its words with single blanks between them and a line feed after:
//!
//! ```
//! use elf_tool_text::line::{begin_line, end_line, push_decimal, push_hexadecimal};
//!
//! let mut text = Vec::new(alloc);
//! begin_line(&mut text, b"part")?;
//! push_hexadecimal(&mut text, 64)?;
//! push_decimal(&mut text, 24)?;
//! end_line(&mut text)?;
//! assert_eq!(rt; text.as_slice(), b"part 0x40 24\n".as_slice());
//! ```
#![tactic(auto)]

mod digits;
pub mod line;
pub mod line_end;
pub mod lines;
mod output;
pub mod passed;

pub use output::Output;
