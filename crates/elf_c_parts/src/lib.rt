//! Calls that take n log n for any file and no memory of their own. The caller lends a buffer, in which the extents of the file's parts
//! are sorted. [`verdict_in`] returns the first rule of images that a file breaks, [`parts_in`] what each of its bytes belongs to.
//!
//! ```
//! let mut buffer = [Slot { start: 0, len: 0 }; 64];
//! match verdict_in(bytes, &mut buffer) {
//!     Ok(None) => println!(rt; "an image")?,
//!     Ok(Some((rule, at))) => println!(rt; "refused {rule} {at}")?,
//!     Err(ShortRoom { wanted }) => println!(rt; "a buffer of {wanted} slots is needed")?,
//! }
//! let mut buffer = [Part { start: 0, len: 0, owner: GAP }; 64];
//! match parts_in(bytes, &mut buffer) {
//!     Ok(count) => println!(rt; "{count} parts")?,
//!     Err(PartsFault::Rule { rule, at }) => println!(rt; "refused {rule} {at}")?,
//!     Err(PartsFault::ShortRoom { wanted }) => println!(rt; "a buffer of {wanted} parts is needed")?,
//! }
//! ```
#![tactic(auto)]

mod parts;
mod room;

pub use parts::{GAP, Part, PartsFault, parts_in};
pub use room::{ShortRoom, Slot, verdict_in};
