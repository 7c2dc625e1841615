//! What all parts of a link speak of: the files that are linked, the sections that are discarded or live, what a symbol is to the link and
//! says of its name ([`Known`]), and how a broken rule ([`rules`]) is reported.
//!
//! `elf_link_names` binds names over it, `elf_link_outputs` places sections, and `elf_link_map` makes the link map of both. Begin with
//! [`Inputs`], which are the files, and know which of their sections the link discards.
#![tactic(auto)]

mod discarded;
mod fault;
mod file_names;
pub mod files;
mod inputs;
mod known;
mod rule_names;
pub mod rules;
mod same_names;
mod section_tests;
mod site;
mod symbol_tests;

pub use elf_image_rules::Broken;
pub use fault::{LinkFault, Options};
pub use file_names::FileNames;
pub use inputs::{InputSection, InputSymbol, Inputs, SectionId, SymbolId};
pub use known::{Block, Known};
pub use same_names::{Named, first_of_names};
pub use site::{Chosen, Site, SiteTest, is_at, site_in};
pub use symbol_tests::is_no_power;
