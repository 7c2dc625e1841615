//! String tables as they are written (gABI chapter 4, String Table): each name once, but for those that another one ends with, in the
//! order in which the names first occur, and where each of them begins.
//!
//! ```
//! // A zero, and `cab` and `x` with the zeros that end them; `ab` and `b` begin within `cab`, the empty name is the first zero.
//! let shared = shared_table(alloc, &[b"b", b"ab", b"", b"ab", b"cab", b"x"])?;
//! assert_eq!(rt; shared.bytes.as_slice(), b"\0cab\0x\0".as_slice());
//! assert_eq!(rt; shared.offsets.as_slice(), [3, 2, 0, 2, 1, 5].as_slice());
//! ```
#![tactic(auto)]

mod bounds;
mod equals;
mod laws;
mod leaders;
mod name_list;
mod sorting;
mod table;

pub use equals::first_equals;
pub use laws::{holds_names, shares_tails};
pub use name_list::SHORT_NAME;
pub use table::{Shared, shared_table, shared_table_at};
