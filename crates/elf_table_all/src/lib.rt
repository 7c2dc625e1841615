//! The tables that an ELF-64 image holds: from an [`Image`](elf_image_type::Image) and the index of a section, strings, symbols,
//! relocations and section groups (gABI chapter 4), notes, dynamic arrays and hash tables (chapter 5).
//!
//! A table is accepted exactly if it breaks none of its rules ([`rules`]). Otherwise the first rule that it breaks is returned, with its
//! lowest offset. [`Tables`] validates every table of an image once. The kinds of tables are in the crates below, and are named here too.
//! This reads the names of the symbols in section 3:
//!
//! ```
//! let image = parse(alloc, &bytes)?;
//! let symbols = Symbols::new(&image, 3)?;
//! for symbol in symbols.iter() {
//!     names.push(symbol.name)?;
//! }
//! ```
#![tactic(auto)]

mod laws;
mod tables;
mod verdicts;

pub use elf_table_hash::{Hash, HashFault, HashIter, build_hash, elf_hash};
pub use elf_table_lists::{
    Dynamic, DynamicIter, Group, GroupIter, Note, NoteIter, Notes, RelocIter, Relocation, Relocs,
    is_string_tag, member, member_count,
};
pub use elf_table_symbols::{Place, Strings, Symbol, SymbolIter, Symbols, TableKind, rules};
pub use laws::{contents_looked_at, entries_in_file, one_table_fault, sections_of_bytes};
pub use tables::Tables;
