//! The symbol tables of an ELF-64 image, with the string tables and index tables that belong to them, and what all kinds of tables share
//! (gABI chapter 4): the numbers of their rules ([`rules`]), their [kinds](TableKind), and [`validate_own_rules`], which tests rules 40
//! and 42 to 44, those on the section header of a table by itself.
//!
//! A table is accepted exactly if it breaks none of its rules. Otherwise the first rule that it breaks is returned, with its lowest
//! offset. This reads the names of the symbols in section 3:
//!
//! ```
//! let image = parse(alloc, &bytes)?;
//! let symbols = Symbols::new(&image, 3)?;
//! for symbol in symbols.iter() {
//!     names.push(symbol.name)?;
//! }
//! ```
#![tactic(auto)]

mod index_tables;
pub mod rules;
mod sections_of;
mod slots;
mod strings;
mod symbol_parts;
mod symbol_rules;
mod symbols;
mod table_section;
mod verdicts;

pub use index_tables::{IndexTables, index_table};
pub use sections_of::SectionsOf;
pub use slots::{LEFT_OUT, TableFault};
pub use strings::{Strings, validate_linked_strings};
pub use symbol_rules::{entry, validate_symbol_table, word};
pub use symbols::{Place, Symbol, SymbolIter, Symbols, sound_symbols};
pub use table_section::{LinkedTable, TableKind, TableSection, validate_own_rules};
pub use verdicts::{SymbolVerdicts, Verdicts};
