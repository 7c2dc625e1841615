//! Tests of the tables that a file holds, as code asks them. Files that break the rules of tables are in `cases/tables.txt`.
#![tactic(auto)]

#[cfg(test)]
mod asserts;
#[cfg(test)]
mod dynamic;
#[cfg(test)]
mod groups;
#[cfg(test)]
mod hashes;
#[cfg(test)]
mod notes;
#[cfg(test)]
mod symbols;
