//! Tests of records: each field at its offset, in both byte orders.
#![tactic(auto)]

#[cfg(test)]
mod asserts;
#[cfg(test)]
mod records;
