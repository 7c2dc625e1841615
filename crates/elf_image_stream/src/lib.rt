//! The bytes of a file in and out. It knows nothing of images.
//!
//! **In**: [`read_to_end`] takes all bytes of a reader, however its reads are cut, and [`resume`] goes on where it stopped. Bytes that can
//! be read at any offset, as those of a file on a disk, are a [`Source`]. A call reads at one offset, and the source remembers its
//! [`Failures`]. [`Bytes`] is one over memory, [`Seeking`] one over a [`Stream`]: a file that is [`Opened`], or a
//! cursor over known bytes. [`read_exactly`] fills a buffer from it.
//!
//! **Out**: [`write_whole`] writes bytes, and [`output`] zeros too. Each counts the bytes that are written. A text that is written chunk by
//! chunk, without memory, is *sent*: a call takes how many bytes are written, and returns how many are written after it. [`send`] sends
//! bytes, [`send_zeros`] zeros without a list of them, and [`send_all`] the texts of a [`Chunks`], which are made as they are sent.
//!
//! [`Fault`], [`ReadFault`] and [`WriteFault`] say what can stop them. [`BytesFault`] and [`InputFault`] are parts of [`Fault`]: what can
//! stop a call on bytes in memory, and one that only reads.
#![tactic(auto)]

mod chunks;
mod fault;
pub mod laws;
pub mod output;
mod reading;
mod source;

pub use chunks::{Chunks, send, send_all, send_zeros};
pub use fault::{BytesFault, Fault, InputFault, WriteFault};
pub use output::write_whole;
pub use reading::{read_all, read_to_end, resume};
pub use source::{
    Bytes, Failed, Failures, Opened, ReadFault, Seeking, Source, Stream, read_exactly,
};
