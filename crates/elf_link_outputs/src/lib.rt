//! The output sections of a link (gABI chapter 4, Sections; placement is this project's profile): which live sections are in each, the
//! least places of all parts, and rules 10 and 11. It knows nothing of names.
//!
//! [`Outputs`] groups the live sections, [`Plan`] puts the commons after them, and [`Addressed`] reports where each is.
#![tactic(auto)]

pub mod addresses;
mod outputs;
mod placing;
mod plan;

pub use addresses::Addressed;
pub use outputs::Outputs;
pub use placing::{Common, Member, Output};
pub use plan::{Plan, memory_size};
