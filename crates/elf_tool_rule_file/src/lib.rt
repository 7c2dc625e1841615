//! A file of relocation rules: at most 256 lines `KIND abs|pc|none 1|2|4|8 signed|unsigned|wrap`, each with its line feed. `KIND` is in
//! decimal digits and below 2^32, and one blank is between each two words. An empty file is no rules.
//!
//! ```
//! let rules = read_rules(alloc, b"2 pc 4 signed\n1 abs 8 wrap\n")?;
//! assert_eq!(rt; rules[0], RelocRule { kind: 2, form: Form::Pc, width: Width::W4, range: Range::Signed });
//! ```
#![tactic(auto)]

mod file;

pub use file::{RulesFault, read_rules};
