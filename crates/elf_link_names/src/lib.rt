//! The names of a link (gABI chapter 4, Symbol Table): what is known of each, what it is bound to, which commons are placed, and
//! rules 1 to 9, which are asked before anything is placed.
//!
//! [`validate`](validate::validate) returns the [`Resolution`] of the names, or the first of those rules that is broken. Begin there: it
//! asks rules 1 to 7, makes one pass over all symbols (`known_names`), and asks rules 8 and 9 of the names (`name_rules`). The position of
//! a name among those that are known is found by a [`NameIndex`]: a table by hash, and an ordered map for the few whose places in the table
//! are taken. The index knows nothing of ELF.
//!
//! ```
//! let mut index = NameIndex::new(alloc, 2)?;
//! assert_eq!(rt; index.place(b"main", 0)?, None);
//! assert_eq!(rt; index.place(b"main", 1)?, Some(0));
//! assert_eq!(rt; index.get(b"main"), Some(0));
//! ```
#![tactic(auto)]

mod commons;
mod known_names;
mod known_table;
mod long_symbols;
mod name_index;
mod name_rules;
mod name_table;
mod resolution;
mod slots;
pub mod validate;

pub use name_index::NameIndex;
pub use name_rules::Choice;
pub use resolution::{Resolution, ResolutionParts};
