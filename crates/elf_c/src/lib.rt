//! elfmap for C: the verdict on a file, and accessors of its records and of the entries of its tables, over bytes in memory.
//! `include/elfmap.h` declares each export and says what a caller must ensure.
//!
//! Nothing here takes memory or keeps a state between two calls. What an accessor needs of a file or of a table is a struct of numbers
//! ([`File`], [`Table`]), which the caller holds: it may have any numbers, so each accessor tests what it reads against the length of the
//! bytes. Begin with `verdicts`, then `file`, which makes a [`File`] and reads by it. `bulk` reads many entries at once, by the functions
//! that read one. `owners` and `records` are about the byte at an offset.
#![tactic(auto)]

mod bulk;
mod entries;
mod fields;
mod file;
mod names;
mod note_places;
mod notes;
mod owners;
mod places;
mod records;
mod shapes;
mod tables;
mod verdicts;
mod version;
mod words;
