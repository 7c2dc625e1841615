//! What holds of every image, as functions that do nothing: a proof calls one, and has its contract.

pub use elf_image_rules::{extents_of_image, fault_of_extents, kept_rules, one_fault};
pub use elf_image_stream::laws::one_failure;
pub use elf_image_type::laws::{
    fields, one_image, one_list, some_image, sound, written_file, written_relocatable_file,
};
