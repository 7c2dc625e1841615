//! What holds of every link, as functions that do nothing: a proof calls one, and has its contract.

pub use elf_link_field::patched_field;
pub use elf_link_map::{
    are_paged, one_link_fault, one_link_map, outputs_stand, parts_apart, prove_objects,
};
pub use elf_link_relocate::{
    any_options, field_in_content, memory_bytes, memory_in, memory_there, memory_zero, one_byte,
    one_relocation_fault, some_byte, some_linked, without_entry,
};
