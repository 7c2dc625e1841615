//! The link of relocatable ELF-64 objects (gABI chapter 4; placement is this project's profile): which sections are discarded, what each
//! name is bound to, and where everything is.
//!
//! [`map`] returns the [`LinkMap`] of some objects, or the first rule ([`rules`]) of the link that is broken.
//!
//! ```
//! let options = Options {
//!     base: 0x1000,
//!     page: 0x1000,
//!     entry: Some(b"main"),
//! };
//! let link = map(alloc, &objects, &options, hasher)?;
//! // Where section 0 of file 1 is, and what `main` is bound to.
//! assert_eq!(rt; link.address(1, 0), Some(0x1006));
//! assert_eq!(rt; link.binding(b"main"), Some(Binding::Strong { file: 0, symbol: 0 }));
//! ```
#![tactic(auto)]

mod bindings;
mod laws;
mod link;
mod link_map;

pub use bindings::{Binding, IndexedMap, Named, name_indexes};
pub use elf_link_files::{Broken, LinkFault, Options, Site, files, rules};
pub use elf_link_outputs::{Common, Member, Output, memory_size};
pub use laws::{
    are_paged, one_link_fault, one_link_map, outputs_stand, parts_apart, prove_objects,
};
pub use link::{map, map_indexed};
pub use link_map::LinkMap;
