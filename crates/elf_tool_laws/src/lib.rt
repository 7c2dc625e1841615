//! Laws on files and the commands together. Each is the contract of a function that does nothing. [`checked_files`] says that `check` and
//! the other commands agree on a file, and [`one_verdict`] that `map` and `link` agree. [`places_found`] is on the places of refusals.
//!
//! The others say which changes of the files of a link change nothing.
//! [`rewritten_files`] says that `rewrite` changes no link, and [`alike_files`] says it of all files that denote the same objects.
//! [`other_order`] says which orders of the files bind each name alike, and [`left_out_symbols`] which symbols no executable needs.
#![tactic(auto)]

mod laws;

pub use laws::{
    alike_files, checked_files, left_out_symbols, one_verdict, other_order, places_found,
    rewritten_files,
};
