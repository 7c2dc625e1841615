//! The relocated bytes of a link of ELF-64 objects (gABI chapter 4, Relocation): the number of each applied relocation in its
//! field, by relocation rules.
//!
//! It asks one thing of a link map: that with some base, page and entry in place of its own it is the map of the objects, and none of
//! rules 1 to 11 is broken (`IsSoundMapButOptions`). What holds of every [`Linked`] is its invariant.
//!
//! [`relocate`] returns the bytes of each live section ([`Linked`]), or the first of rules 12 to 16 ([`rules`]) that is broken.
//! [`loads`] lists the stretches of memory that a link has.
//!
//! ```
//! let link = map(alloc, &objects, &options, hasher)?;
//! let linked = relocate(alloc, &link, &objects, &rules)?;
//! // A call in section 0 of file 0, whose target begins one byte after it.
//! let code = [0xe8, 1, 0, 0, 0, 0xc3];
//! assert_eq!(rt; linked.bytes(0, 0), Some(code.as_slice()));
//! ```
#![tactic(auto)]

mod collecting;
mod copies;
mod field;
mod laws;
mod linked;
mod load;
mod numbers;
mod overlaps;
mod relocating;
pub mod rules;
mod values;

pub use laws::{
    any_options, field_in_content, memory_bytes, memory_in, memory_there, memory_zero, one_byte,
    one_relocation_fault, some_byte, some_linked, without_entry,
};
pub use linked::{Identity, Linked, Mapped};
pub use load::{Load, file_size, loads};
pub use relocating::{relocate, relocate_indexed};
pub use values::binding_value;
