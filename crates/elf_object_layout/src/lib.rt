//! The canonical layout of an object (gABI chapter 4): its two string tables, and where each of its parts begins. [`LeftOut`] names the
//! sections of a file that a layout makes again, so that an object does not keep them. Of the object without sections and symbols:
//!
//! ```
//! let layout = lay_out(alloc, &object)?;
//! assert_eq!(rt; layout.length(), 376);
//! ```
#![tactic(auto)]

mod layout;
mod left_out;
mod name_tables;

pub use layout::{Layout, LayoutFault, RECORD_ALIGNMENT, content_part, lay_out, lay_out_with};
pub use left_out::{LeftOut, symbol_table};
pub use name_tables::NameTables;
