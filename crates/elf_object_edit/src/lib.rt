//! Edits of an object: the object without some of its sections (gABI chapter 4, Sections). Without its second section:
//!
//! ```
//! let rest = without(alloc, &object, &[false, true])?;
//! ```
//!
//! [`retain`] has a closure that says which sections stay. Without those that take no memory in a program (flag `SHF_ALLOC`, 2):
//!
//! ```
//! let rest = retain(alloc, &object, |_, section| section.flags & 2 != 0)?;
//! ```
#![tactic(auto)]

mod editing;
mod fault;
mod laws;
mod moving;
mod references;
mod retaining;
mod staying;

pub use editing::without;
pub use fault::{Reference, WithoutFault};
pub use laws::nothing_left_out;
pub use retaining::retain;
