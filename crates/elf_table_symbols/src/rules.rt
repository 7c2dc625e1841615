//! The number of each rule of tables. A table's own rules, 40 to 44, come first, then those of the table that it links to,
//! and then the rest: docs/RULES.md has the order of each table.

/// The section is not of a type that holds such a table.
pub const WRONG_TABLE_TYPE: u16 = 40;
/// A string table that is not empty begins or ends with a byte that isn't 0.
pub const UNCLOSED_STRING_TABLE: u16 = 41;
/// The entries do not have their size.
pub const WRONG_ENTRY_SIZE: u16 = 42;
/// The last entry is cut short.
pub const PARTIAL_ENTRY: u16 = 43;
/// The section that the table links to is not there, or of another type.
pub const WRONG_LINK: u16 = 44;
/// A symbol table has no symbol 0, or a byte of it isn't 0.
pub const SYMBOL_0_NOT_NULL: u16 = 45;
/// The index of the first symbol that is not local is 0 or above the number of symbols.
pub const WRONG_LOCAL_COUNT: u16 = 46;
/// A symbol below that index is not local, or one from it on is.
pub const MISPLACED_BINDING: u16 = 47;
/// A symbol's name begins after the string table.
pub const SYMBOL_NAME_PAST_END: u16 = 48;
/// A symbol table has a second index table.
pub const SECOND_INDEX_TABLE: u16 = 49;
/// An index table has not one word of four bytes for each symbol, or its `sh_entsize` isn't 4.
pub const WRONG_INDEX_TABLE_SIZE: u16 = 50;
/// A symbol's section is in an index table that is not there, or there is no such section.
pub const WRONG_SYMBOL_SECTION: u16 = 51;
/// A word of an index table isn't 0 though the symbol needs none, or it is none of a section that needs one.
pub const WRONG_INDEX_WORD: u16 = 52;
/// There is no section that the relocations apply to.
pub const WRONG_TARGET: u16 = 53;
/// A relocation's symbol is none of those in the symbol table.
pub const WRONG_RELOCATION_SYMBOL: u16 = 54;
/// A section group has no word of flags.
pub const EMPTY_GROUP: u16 = 55;
/// A group's flags are others than none and `GRP_COMDAT`.
pub const WRONG_GROUP_FLAGS: u16 = 56;
/// A group's signature is symbol 0, or none of those in the symbol table.
pub const WRONG_SIGNATURE: u16 = 57;
/// A member of a group is not after it, is not there, is named before in the group, or lacks the flag of members.
pub const WRONG_MEMBER: u16 = 58;
/// A note's header is cut short.
pub const PARTIAL_NOTE: u16 = 59;
/// A note's padded name passes the end.
pub const NOTE_NAME_PAST_END: u16 = 60;
/// A note's padded descriptor passes the end.
pub const NOTE_DESC_PAST_END: u16 = 61;
/// The last byte of a note's name isn't 0.
pub const UNCLOSED_NOTE_NAME: u16 = 62;
/// No entry of a dynamic section has the tag `DT_NULL`, which ends the dynamic array.
pub const NO_NULL_ENTRY: u16 = 63;
/// A string that the dynamic array names begins after the string table.
pub const DYNAMIC_STRING_PAST_END: u16 = 64;
/// A hash table is not as long as its buckets and chains are.
pub const WRONG_HASH_SIZE: u16 = 65;
/// A hash table has no bucket, or not one chain word for each symbol.
pub const WRONG_HASH_COUNT: u16 = 66;
/// A bucket or a chain word of a hash table is none of a symbol.
pub const HASH_WORD_PAST_END: u16 = 67;
/// The chain of a bucket does not end.
pub const ENDLESS_CHAIN: u16 = 68;
/// A symbol is not on the chain of its name's bucket.
pub const SYMBOL_OFF_CHAIN: u16 = 69;
