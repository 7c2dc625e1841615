//! The file that represents an object: [`write_object`] writes it, and its contract says that what is written is accepted and read back as
//! the object.
//!
//! The laws for this are contracts of functions that do nothing: [`one_layout`] and [`laid_objects`] speak of layouts, [`written_object`]
//! of what an object is written as and what that denotes, [`denoted_object`] and [`sound_object`] of the object that a file denotes.
#![tactic(auto)]

mod laws;
mod object_file;

pub use laws::{denoted_object, laid_objects, one_layout, sound_object, written_object};
pub use object_file::{prove_read_back, write_object};
