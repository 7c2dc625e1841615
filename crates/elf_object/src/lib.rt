//! A relocatable ELF-64 file as a typed object (gABI chapter 4): its sections with names and bodies, and its symbols, every reference
//! between them a position in a list.
//!
//! An [`Object`] is made from its [`ObjectParts`], or read from an image by [`object_of`]; it keeps the [`rules`] of objects from then on.
//! [`lay_out`] reports its canonical layout, and [`write_object`] writes it: what is written is read back as the object. [`without`] leaves
//! sections out, and [`retain`] has a closure that says which ones stay. An object without sections or symbols is written so:
//!
//! ```
//! let parts = ObjectParts {
//!     order: Order::Little,
//!     osabi: 0,
//!     abi: 0,
//!     machine: 62,
//!     flags: 0,
//!     sections: Vec::new(alloc),
//!     symbols: Vec::new(alloc),
//! };
//! let object = Object::new(alloc, parts)?;
//! write_object(alloc, &object, &mut writer)?;
//! ```
#![tactic(auto)]

pub mod laws;
pub mod rules;

pub use elf_object_edit::{Reference, WithoutFault, retain, without};
pub use elf_object_file::{prove_read_back, write_object};
pub use elf_object_layout::{Layout, LayoutFault, lay_out};
pub use elf_object_reader::object_of;
pub use elf_object_strings::{Shared, shared_table};
pub use elf_object_type::{
    Body, Info, Object, ObjectFault, ObjectParts, Place, Relocation, RelocationIter, Relocations,
    Section, Symbol,
};
pub use elf_object_writer::ObjectWriteFault;
