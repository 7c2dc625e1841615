//! The hash tables of an ELF-64 image (gABI chapter 5, Hash Table): a [`Hash`] leads from a name to a symbol, and [`build_hash`] makes the
//! words of a table for names. The symbol `main` is found so in the table of section 4:
//!
//! ```
//! let image = parse(alloc, &bytes)?;
//! let hash = Hash::new(alloc, &image, 4)?;
//! let index = hash.find(b"main");
//! ```
#![tactic(auto)]

mod hash;
mod hash_building;
mod hash_chains;
mod hash_lanes;
mod hash_parts;
mod hash_room;
mod hash_rules;
mod hash_words;
mod name_hashes;

pub use hash::{Hash, HashIter, find_in, sound_hash};
pub use hash_building::{HashFault, build_hash, elf_hash};
pub use hash_room::validate_hash_table_in;
pub use hash_rules::validate_hash_table;
pub use name_hashes::NameHashes;
