//! Tests of objects: made from their parts, read from a file, and written; each rule of parts has a row with the rule's name. And of
//! executables: their limits, and how one goes out. Executables byte for byte are in `cases/links.txt`.
#![tactic(auto)]

#[cfg(test)]
mod asserts;
#[cfg(test)]
mod executable_limits;
#[cfg(test)]
mod executables;
#[cfg(test)]
mod files;
#[cfg(test)]
mod layouts;
#[cfg(test)]
mod parts;
#[cfg(test)]
mod string_tables;
#[cfg(test)]
mod written;
