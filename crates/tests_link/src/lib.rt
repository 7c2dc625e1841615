//! Tests of the link: what its map and its relocated bytes report the code that calls them, laws put together, and links of many files,
//! sections, names and fields, where a limit would hide. Hand-written links, and one for each rule that breaks it, are in
//! `cases/links.txt`.
//!
//! `large_files` has the 66 files of one large link, which `large_link` tests. Each other module makes links of its own, from `parts` and
//! the parts of `tests_files`.
#![tactic(auto)]

#[cfg(test)]
mod asserts;
#[cfg(test)]
mod calls;
#[cfg(test)]
mod large_files;
#[cfg(test)]
mod large_link;
#[cfg(test)]
mod many;
#[cfg(test)]
mod many_commons;
#[cfg(test)]
mod many_fields;
#[cfg(test)]
mod parts;
#[cfg(test)]
mod relocations;
#[cfg(test)]
mod standing;
