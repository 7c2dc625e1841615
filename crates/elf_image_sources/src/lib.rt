//! Sources and readers over other ones. They know nothing of images.
//!
//! [`Joined`] is one source over several lists of bytes, as the pieces in which a file came. [`Patched`] is another source with one byte
//! changed. [`ShortReads`] is a reader or a source that gives few bytes a call: what a program is tried with, because a file or a socket
//! may give its bytes in any pieces.
//!
//! ```
//! use elf_image_stream::{Source, read_exactly};
//!
//! // Two lists, and another byte at offset 2.
//! let lists = [b"ab".as_slice(), b"cde"];
//! let mut source = Patched::new(Joined::new(alloc, &lists)?, 2, b'x');
//! let mut found = [0; 4];
//! read_exactly(&mut source, 1, &mut found)?;
//! assert_eq!(rt; &found, b"bxde");
//!
//! // A byte a call.
//! let mut source = ShortReads::new(source, 1);
//! assert_eq!(rt; source.read_at(1, &mut found), Ok(1));
//! ```
#![tactic(auto)]

mod joined;
mod patched;
mod short_reads;

pub use joined::{JoinFault, Joined};
pub use patched::Patched;
pub use short_reads::ShortReads;
