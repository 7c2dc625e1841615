//! The numbers of the rules of a file that is read as an object, each broken at an offset. docs/RULES.md has the order in which they are
//! tested.

/// The file is not a relocatable one.
pub const NOT_RELOCATABLE: u16 = 70;
/// It has an entry point, or segments.
pub const LOADABLE: u16 = 71;
/// A section is of a type that no object has.
pub const FOREIGN_SECTION: u16 = 72;
/// A symbol table is after another.
pub const SECOND_SYMBOL_TABLE: u16 = 73;
/// An index table is not that of the symbol table.
pub const STRAY_INDEX_TABLE: u16 = 74;
/// A symbol is defined in a section that is left out, or at a reserved index that has no meaning here.
pub const SYMBOL_OUTSIDE: u16 = 75;
/// Relocations apply to a section that is left out, or has no bits.
pub const WRONG_RELOCATION_TARGET: u16 = 76;
/// A member of a group is left out, or a group itself, or a member of a group before.
pub const WRONG_GROUP_MEMBER: u16 = 77;
/// A plain section that is kept links to one that is left out, or is not there.
pub const WRONG_KEPT_LINK: u16 = 78;
/// The info of a plain section that is kept is the index of one that is left out, or is not there.
pub const WRONG_KEPT_INFO: u16 = 79;
