//! An object written: [`write_layout`] writes its canonical layout, the one list of bytes that stands for it (gABI chapter 4).
//!
//! ```
//! write_layout(alloc, &object, &mut writer)?;
//! ```
#![tactic(auto)]

mod contents;
mod gathering;
mod headers;
mod object_writing;
mod placed_object;

pub use object_writing::{ObjectWriteFault, write_layout};
