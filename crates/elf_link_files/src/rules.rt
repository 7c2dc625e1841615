//! The number of each rule of the link, 1 to 11, in the order in which they are tested.

/// The page is no power of two, or the base is no multiple of it.
pub const BAD_OPTIONS: u16 = 1;
/// The order, machine or flags of a file are not those of file 0.
pub const MISMATCH: u16 = 2;
/// A live section has the flag `SHF_TLS`.
pub const TLS: u16 = 3;
/// A live section has the flag `SHF_LINK_ORDER`.
pub const LINK_ORDER: u16 = 4;
/// A COMDAT group has an empty signature.
pub const EMPTY_SIGNATURE: u16 = 5;
/// A symbol's binding is above `STB_WEAK`, its type is `STT_TLS`, or it is not local and has no name.
pub const BAD_SYMBOL: u16 = 6;
/// A common symbol is not global, or its value, the alignment, is no power of two.
pub const BAD_COMMON: u16 = 7;
/// A global definition is after another of its name.
pub const TWO_DEFINITIONS: u16 = 8;
/// A global symbol counts as undefined, and its name has no binding.
pub const UNDEFINED_NAME: u16 = 9;
/// The entry symbol is not bound, zero, in a section that is not live, or at 2^64 or later.
pub const NO_ENTRY: u16 = 10;
/// A section or common ends at 2^64 or later, counted after its last byte.
pub const ADDRESS_OVERFLOW: u16 = 11;
