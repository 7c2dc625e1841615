//! The records of an ELF-64 file (gABI chapters 4 and 5), read and written in both byte orders, and
//! the gABI's numbers by their names ([`abi`]).
//!
//! Each record is written out, in a file of its own: a field's offset is beside its name, as in the standard. A macro would hide it.
//!
//! ```
//! // A dynamic entry that says that a library is needed, its name at 7, most significant byte first.
//! let entry = Dyn { d_tag: abi::DT_NEEDED, d_un: 7 };
//! let mut bytes = [0; 16];
//! entry.put(Order::Big, &mut bytes);
//! assert_eq!(rt; bytes, [0, 0, 0, 0, 0, 0, 0, 1, 0, 0, 0, 0, 0, 0, 0, 7]);
//! assert_eq!(rt; Dyn::get(Order::Big, &bytes), entry);
//! ```
#![tactic(auto)]

pub mod abi;
mod dynamic;
mod ehdr;
mod number;
mod phdr;
mod record;
mod rel;
mod rela;
mod shdr;
mod sym;
mod word;

pub use dynamic::Dyn;
pub use ehdr::Ehdr;
pub use number::Order;
pub use phdr::Phdr;
pub use record::{Record, get_at};
pub use rel::Rel;
pub use rela::Rela;
pub use shdr::Shdr;
pub use sym::Sym;
