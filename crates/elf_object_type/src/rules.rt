//! The number of each rule of the parts of an object, which are broken at a position. docs/RULES.md has the order in which they
//! are tested.

/// A section's name has a zero byte.
pub const ZERO_IN_SECTION_NAME: u16 = 1;
/// A section of bits is of a type whose body is another, or that an object can't have.
pub const WRONG_BITS_TYPE: u16 = 2;
/// A section's alignment is neither 0 nor a power of two, or its address is no multiple of it.
pub const WRONG_ALIGNMENT: u16 = 3;
/// A section names a section or symbol that is not there, or relocates one that has no bits.
pub const WRONG_POSITION: u16 = 4;
/// A section's `info`, `link`, entry size or addends are not those of its flags and body.
pub const WRONG_FIELD: u16 = 5;
/// A group has a member that is not after it, was named before, is a group, or lacks the flag `SHF_GROUP`.
pub const WRONG_MEMBERSHIP: u16 = 6;
/// A symbol's name has a zero byte.
pub const ZERO_IN_SYMBOL_NAME: u16 = 7;
/// A symbol is defined in a section that is not there.
pub const WRONG_PLACE: u16 = 8;
/// A local symbol is after one that is not local.
pub const MISPLACED_LOCAL: u16 = 9;
