//! Extents of a file: the lowest byte that two of them hold, found in one sweep over them, an account
//! of every offset, and the least places for parts that are laid one after the other. Nothing here is
//! of ELF.
//!
//! ```
//! // The bytes 2 and 3 lie in both extents.
//! let extents = [Extent { start: 0, len: 4 }, Extent { start: 2, len: 4 }];
//! assert_eq!(rt; first_double(alloc, &extents)?, Some(2));
//!
//! // A byte, then eight at a multiple of eight.
//! let places = place(alloc, &[(1, 1), (8, 8)], 64)?;
//! assert_eq!(rt; places.as_slice(), [64, 72].as_slice());
//! ```
#![tactic(auto)]

pub use accounting::account;
pub use extent::{Counted, Extent, OutOfMemory, Piece, Row, first_double, sweep};
pub use laws::{
    above_earlier, above_from, disjoint, fits_length, in_piece, one_account, piece_for, same_least,
    some_account,
};
pub use placement::{PlaceFault, next_place, place};
pub use sorted::SortedExtents;

mod accounting;
mod extent;
mod laws;
mod placement;
mod sorted;
