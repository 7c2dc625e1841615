//! What holds of the tables of every image, as functions that do nothing: a proof calls one, and has its contract.

pub use elf_table_all::{contents_looked_at, entries_in_file, one_table_fault, sections_of_bytes};
