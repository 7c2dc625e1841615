//! What holds of every object, as functions that do nothing: a proof calls one, and has its contract.

pub use elf_object_edit::nothing_left_out;
pub use elf_object_file::{denoted_object, laid_objects, one_layout, sound_object, written_object};
pub use elf_object_reader::{one_file_fault, one_object};
pub use elf_object_strings::{holds_names, shares_tails};
pub use elf_object_type::{kept_object_rules, one_object_fault};
