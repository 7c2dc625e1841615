//! Tests of extents: bytes that two hold, accounts of every offset, and least places.
#![tactic(auto)]

#[cfg(test)]
mod asserts;
#[cfg(test)]
mod extents;
