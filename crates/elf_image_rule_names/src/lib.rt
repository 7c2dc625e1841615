//! What can be said of a rule without testing it: its name by its number ([`rule_name`]), and where it is broken ([`Broken`]); and the
//! length of the longest file ([`MAX_LEN`]), which a reader has to know before any rule is tested.
#![tactic(auto)]

mod broken;
mod rule_names;

pub use broken::Broken;
pub use rule_names::rule_name;

/// The length of the longest file in bytes: a limit of elfmap, not of the gABI.
pub const MAX_LEN: u64 = 1 << 30;
