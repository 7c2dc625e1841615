//! Tests of the program and its commands, over openers that fail and writers that count their calls, and over files of many sections and
//! segments; and of files of rules. What a command answers of a file is in `cases/`. Where one call of the machine fails,
//! `tools/test failing-calls` shows it.
#![tactic(auto)]

#[cfg(test)]
mod asserts;
#[cfg(test)]
mod check_alone;
#[cfg(test)]
mod flushes;
#[cfg(test)]
mod known_files;
#[cfg(test)]
mod many_parts;
#[cfg(test)]
mod program;
#[cfg(test)]
mod rule_files;
