//! The number of each rule, in the order in which they are tested.

/// The file is longer than 2^30 bytes.
pub const TOO_LONG: u16 = 1;
/// The file is shorter than a header.
pub const TOO_SHORT: u16 = 2;
/// A byte of the magic number is wrong.
pub const WRONG_MAGIC: u16 = 3;
/// The class isn't 64-bit.
pub const WRONG_CLASS: u16 = 4;
/// The data encoding is neither of the two.
pub const WRONG_DATA: u16 = 5;
/// The identification's version isn't the current one.
pub const WRONG_IDENT_VERSION: u16 = 6;
/// The file's version isn't the current one.
pub const WRONG_VERSION: u16 = 7;
/// The header's size isn't that of the class.
pub const WRONG_HEADER_SIZE: u16 = 8;
/// There is no section table, but a count of sections or the index of a name table.
pub const COUNT_WITHOUT_SECTION_TABLE: u16 = 9;
/// The section table's entries don't have the size of a section header.
pub const WRONG_SECTION_HEADER_SIZE: u16 = 10;
/// The count of section headers is a reserved index.
pub const RESERVED_SECTION_COUNT: u16 = 11;
/// There is a section table, and section header 0 passes the end of the file.
pub const FIRST_SECTION_HEADER_PAST_END: u16 = 12;
/// A field of section header 0 that has no meaning there isn't 0.
pub const FIRST_SECTION_HEADER_NOT_NULL: u16 = 13;
/// Section header 0 has a count beside `e_shnum`, or one that `e_shnum` could hold.
pub const WRONG_EXTENDED_SECTION_COUNT: u16 = 14;
/// The section table passes the end of the file.
pub const SECTION_TABLE_PAST_END: u16 = 15;
/// The name table's index is reserved, or there is no such section.
pub const WRONG_NAME_TABLE_INDEX: u16 = 16;
/// Section header 0 has a name table's index that `e_shstrndx` could hold, that no section has, or that is beside `e_shstrndx`.
pub const WRONG_EXTENDED_NAME_TABLE_INDEX: u16 = 17;
/// A program table without a count, a count without a table, or a count in a section header 0 that
/// is not there.
pub const WRONG_SEGMENT_COUNT: u16 = 18;
/// The program table's entries don't have the size of a program header.
pub const WRONG_PROGRAM_HEADER_SIZE: u16 = 19;
/// Section header 0 has a count of segments that `e_phnum` could hold, or one beside `e_phnum`.
pub const WRONG_EXTENDED_SEGMENT_COUNT: u16 = 20;
/// The program table passes the end of the file.
pub const PROGRAM_TABLE_PAST_END: u16 = 21;
/// A section's alignment is neither 0 nor a power of two.
pub const WRONG_SECTION_ALIGNMENT: u16 = 22;
/// A section's address is no multiple of its alignment.
pub const MISALIGNED_SECTION: u16 = 23;
/// A section's content passes the end of the file.
pub const CONTENT_PAST_END: u16 = 24;
/// A segment's bytes pass the end of the file.
pub const SEGMENT_PAST_END: u16 = 25;
/// A loadable segment has more bytes in the file than in memory.
pub const FILE_SIZE_ABOVE_MEMORY_SIZE: u16 = 26;
/// A loadable segment's alignment is neither 0 nor a power of two.
pub const WRONG_SEGMENT_ALIGNMENT: u16 = 27;
/// A loadable segment's address and offset are not congruent modulo its alignment.
pub const INCONGRUENT_SEGMENT: u16 = 28;
/// A loadable segment's address is below that of the one before it.
pub const LOAD_OUT_OF_ORDER: u16 = 29;
/// The section name string table isn't a string table.
pub const WRONG_NAME_TABLE_TYPE: u16 = 30;
/// The section name string table's first or last byte isn't 0.
pub const UNCLOSED_NAME_TABLE: u16 = 31;
/// A section's name begins after the section name string table.
pub const NAME_PAST_END: u16 = 32;
/// Two parts of the file share a byte.
pub const SHARED_BYTE: u16 = 33;
