//! The rules that a file has to meet to be an ELF-64 image (gABI chapters 4 and 5), and the first of
//! them that it breaks.
//!
//! [`verdict`] returns the number of the first rule that a whole file breaks, and its lowest offset:
//!
//! ```
//! // Two bytes are no header: rule 2, at the file's end.
//! assert_eq!(rt; verdict(&[0x7f, 0x45]), Some((rules::TOO_SHORT, 2)));
//! ```
//!
//! [`rules`] names the numbers and says what breaks each rule. A rule is one row of a list of definitions,
//! over the file's length, its header and its entries by index. So an image that is no file yet is
//! validated by the same rules, and the same tests read a file's bytes and tables in memory ([`Records`]).
//! [`validate_records`] returns a file that breaks none of rules 1 to 32, with its header and counts.
#![tactic(auto)]

mod entry_rules;
mod file_extents;
mod header_rules;
mod image_rules;
mod laws;
mod name_rules;
mod records;
pub mod rules;
pub mod tables;
mod validated_records;

pub use elf_image_rule_names::{Broken, MAX_LEN, rule_name};
pub use entry_rules::is_wrong_alignment;
pub use file_extents::FileExtents;
pub use header_rules::{
    validate_header, validate_ident, validate_length, validate_program_table,
    validate_section_table,
};
pub use image_rules::{validate_by_sorting, validate_entries, validate_records, verdict};
pub use laws::{extents_of_image, fault_of_extents, kept_rules, one_fault};
pub use name_rules::{TableEnds, ends_of, unclosed_at};
pub use records::{FileRecords, Records, TableRecords};
pub use validated_records::ValidatedRecords;
