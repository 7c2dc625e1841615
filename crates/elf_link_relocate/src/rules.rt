//! The number of each rule of the link on applied entries, 12 to 16, after those of the link map and in the order in which they are tested.

/// An applied entry is of a kind that has no relocation rule.
pub const NO_RULE: u16 = 12;
/// The symbol of a field is local, and undefined or in a section that is not live; or it is not local, and the definition that its name
/// is bound to is in such a section.
pub const UNPLACED: u16 = 13;
/// A field passes the end of its target.
pub const FIELD_OUT_OF_RANGE: u16 = 14;
/// A field shares a byte with one before it.
pub const FIELDS_OVERLAP: u16 = 15;
/// The number of a field is one that it does not admit.
pub const VALUE_OUT_OF_RANGE: u16 = 16;
