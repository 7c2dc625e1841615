//! The tables that an ELF-64 image holds: from an image and the index of a section, strings, symbols, relocations and section groups
//! (gABI chapter 4), notes, dynamic arrays and hash tables (chapter 5).
//!
//! A table is accepted exactly if it breaks none of its rules ([`rules`]). Otherwise the first rule that it breaks is returned, with its
//! lowest offset in the file. This reads the names of the symbols in section 3:
//!
//! ```
//! let image = parse(alloc, &bytes)?;
//! let symbols = Symbols::new(&image, 3)?;
//! for symbol in symbols.iter() {
//!     names.push(symbol.name)?;
//! }
//! ```
//!
//! A table is validated with the tables that it links to. For many tables of one image there is [`Tables`], which validates each of them
//! once:
//!
//! ```
//! let image = parse(alloc, &bytes)?;
//! let tables = Tables::new(alloc, &image)?;
//! let mut relocations = 0;
//! for i in 0..tables.section_count() {
//!     let kind = TableKind::of(image.section(i).sh_type);
//!     if kind == Some(TableKind::RelocationTable) && tables.verdict(i).is_ok() {
//!         relocations += tables.relocs(i).len();
//!     }
//! }
//! ```
#![tactic(auto)]

pub mod laws;

pub use elf_table_all::Tables;
pub use elf_table_hash::{Hash, HashFault, HashIter, build_hash, elf_hash};
pub use elf_table_lists::{
    Dynamic, DynamicIter, Group, GroupIter, Note, NoteIter, Notes, RelocIter, Relocation, Relocs,
};
pub use elf_table_symbols::{Place, Strings, Symbol, SymbolIter, Symbols, TableKind, rules};
