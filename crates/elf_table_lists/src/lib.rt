//! The tables of an ELF-64 image that are lists of entries and no more: relocation sections and section groups (gABI chapter 4), note
//! sections and dynamic arrays (chapter 5). The symbols that the relocations of section 2 name are read so:
//!
//! ```
//! let image = parse(alloc, &bytes)?;
//! let relocs = Relocs::new(&image, 2)?;
//! for relocation in relocs.iter() {
//!     symbols.push(relocation.symbol)?;
//! }
//! ```
#![tactic(auto)]

mod dynamic;
mod group;
mod group_marks;
mod notes;
mod relocations;

pub use dynamic::{
    Dynamic, DynamicIter, dynamic_entry, dynamic_entry_count, first_null_entry, is_string_tag,
    sound_dynamic, validate_dynamic_section,
};
pub use group::{Group, GroupIter, member, member_count, sound_group, validate_group_section};
pub use notes::{Note, NoteHeader, NoteIter, Notes, note_at, sound_notes, validate_note_section};
pub use relocations::{
    RelocIter, Relocation, Relocs, relocation_at, relocation_count, section_relocs,
    validate_relocation_section,
};
