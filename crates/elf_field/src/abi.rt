//! Numbers of the gABI by their names there, chapters 4 (Object Files) and 5 (Program Loading and
//! Dynamic Linking). Where the gABI has no name of its own, a size is `.._SIZE` and the offset of a field in
//! its record `.._AT`, in bytes.

// ---- e_ident: the identification (chapter 4, ELF Identification)

/// How many identification bytes there are.
pub const EI_NIDENT: usize = 16;
/// The first four identification bytes: `ELFMAG0` to `ELFMAG3`.
pub const MAGIC: [u8; 4] = [0x7f, b'E', b'L', b'F'];
/// Identification byte of the class.
pub const EI_CLASS: usize = 4;
/// Identification byte of the data encoding.
pub const EI_DATA: usize = 5;
/// Identification byte of the version.
pub const EI_VERSION: usize = 6;
/// Identification byte of the operating system's extensions.
pub const EI_OSABI: usize = 7;
/// Identification byte of these extensions' version.
pub const EI_ABIVERSION: usize = 8;
/// Where the identification's padding begins.
pub const EI_PAD: usize = 9;
/// 64-bit objects.
pub const ELFCLASS64: u8 = 2;
/// Least significant byte first.
pub const ELFDATA2LSB: u8 = 1;
/// Most significant byte first.
pub const ELFDATA2MSB: u8 = 2;
/// The current version of the format.
pub const EV_CURRENT: u8 = 1;

// ---- Ehdr: the ELF header (chapter 4, ELF Header)

/// Size of an ELF header.
pub const EHDR_SIZE: u64 = 64;
/// Offset of `e_type`.
pub const E_TYPE_AT: u64 = 16;
/// Offset of `e_machine`.
pub const E_MACHINE_AT: u64 = 18;
/// Offset of `e_version`.
pub const E_VERSION_AT: u64 = 20;
/// Offset of `e_entry`.
pub const E_ENTRY_AT: u64 = 24;
/// Offset of `e_phoff`.
pub const E_PHOFF_AT: u64 = 32;
/// Offset of `e_shoff`.
pub const E_SHOFF_AT: u64 = 40;
/// Offset of `e_flags`.
pub const E_FLAGS_AT: u64 = 48;
/// Offset of `e_ehsize`.
pub const E_EHSIZE_AT: u64 = 52;
/// Offset of `e_phentsize`.
pub const E_PHENTSIZE_AT: u64 = 54;
/// Offset of `e_phnum`.
pub const E_PHNUM_AT: u64 = 56;
/// Offset of `e_shentsize`.
pub const E_SHENTSIZE_AT: u64 = 58;
/// Offset of `e_shnum`.
pub const E_SHNUM_AT: u64 = 60;
/// Offset of `e_shstrndx`.
pub const E_SHSTRNDX_AT: u64 = 62;
/// No file type.
pub const ET_NONE: u16 = 0;
/// A relocatable file.
pub const ET_REL: u16 = 1;
/// An executable file.
pub const ET_EXEC: u16 = 2;
/// A shared object file.
pub const ET_DYN: u16 = 3;
/// A core file.
pub const ET_CORE: u16 = 4;
/// In `e_phnum`: the count is in section header 0's `sh_info`.
pub const PN_XNUM: u16 = 0xffff;

// ---- Special section indexes (chapter 4, Sections)

/// No section.
pub const SHN_UNDEF: u16 = 0;
/// The lowest reserved section index.
pub const SHN_LORESERVE: u16 = 0xff00;
/// The symbol's value is absolute: no relocation changes it.
pub const SHN_ABS: u16 = 0xfff1;
/// The symbol is a common block that has no place yet.
pub const SHN_COMMON: u16 = 0xfff2;
/// The index is elsewhere: for `e_shstrndx` in section header 0's `sh_link`, for `st_shndx` in the symbol table's section of type
/// `SHT_SYMTAB_SHNDX`.
pub const SHN_XINDEX: u16 = 0xffff;

// ---- Shdr: a section header (chapter 4, Sections)

/// Size of a section header.
pub const SHDR_SIZE: u64 = 64;
/// Offset of `sh_name`.
pub const SH_NAME_AT: u64 = 0;
/// Offset of `sh_type`.
pub const SH_TYPE_AT: u64 = 4;
/// Offset of `sh_flags`.
pub const SH_FLAGS_AT: u64 = 8;
/// Offset of `sh_addr`.
pub const SH_ADDR_AT: u64 = 16;
/// Offset of `sh_offset`.
pub const SH_OFFSET_AT: u64 = 24;
/// Offset of `sh_size`.
pub const SH_SIZE_AT: u64 = 32;
/// Offset of `sh_link`.
pub const SH_LINK_AT: u64 = 40;
/// Offset of `sh_info`.
pub const SH_INFO_AT: u64 = 44;
/// Offset of `sh_addralign`.
pub const SH_ADDRALIGN_AT: u64 = 48;
/// Offset of `sh_entsize`.
pub const SH_ENTSIZE_AT: u64 = 56;

/// A section header without a section.
pub const SHT_NULL: u32 = 0;
/// What the program defines: its code and data.
pub const SHT_PROGBITS: u32 = 1;
/// A symbol table.
pub const SHT_SYMTAB: u32 = 2;
/// A string table.
pub const SHT_STRTAB: u32 = 3;
/// Relocations with addends.
pub const SHT_RELA: u32 = 4;
/// A symbol hash table.
pub const SHT_HASH: u32 = 5;
/// What dynamic linking needs.
pub const SHT_DYNAMIC: u32 = 6;
/// Notes.
pub const SHT_NOTE: u32 = 7;
/// A section that has no bytes in the file.
pub const SHT_NOBITS: u32 = 8;
/// Relocations without addends.
pub const SHT_REL: u32 = 9;
/// Reserved, with no meaning.
pub const SHT_SHLIB: u32 = 10;
/// The symbol table of dynamic linking.
pub const SHT_DYNSYM: u32 = 11;
/// Pointers to initialization functions.
pub const SHT_INIT_ARRAY: u32 = 14;
/// Pointers to termination functions.
pub const SHT_FINI_ARRAY: u32 = 15;
/// Pointers to functions that are called before all other initialization functions.
pub const SHT_PREINIT_ARRAY: u32 = 16;
/// A section group.
pub const SHT_GROUP: u32 = 17;
/// The section indexes that a symbol table's `st_shndx` cannot hold.
pub const SHT_SYMTAB_SHNDX: u32 = 18;

/// Can be written while the program runs.
pub const SHF_WRITE: u64 = 0x1;
/// Takes memory while the program runs.
pub const SHF_ALLOC: u64 = 0x2;
/// Machine instructions.
pub const SHF_EXECINSTR: u64 = 0x4;
/// Equal entries may be merged.
pub const SHF_MERGE: u64 = 0x10;
/// The entries are strings that end in a zero.
pub const SHF_STRINGS: u64 = 0x20;
/// `sh_info` is a section header table index.
pub const SHF_INFO_LINK: u64 = 0x40;
/// Ordered as the section that `sh_link` names.
pub const SHF_LINK_ORDER: u64 = 0x80;
/// A member of a section group.
pub const SHF_GROUP: u64 = 0x200;
/// Thread-local storage.
pub const SHF_TLS: u64 = 0x400;

/// Size of a word of a section group, a hash table, or a table of section indexes.
pub const WORD_SIZE: u64 = 4;
/// A group's flag: only one of the groups of this signature is kept.
pub const GRP_COMDAT: u32 = 0x1;

// ---- Sym: a symbol (chapter 4, Symbol Table)

/// Size of a symbol.
pub const SYM_SIZE: u64 = 24;
/// Offset of `st_name`.
pub const ST_NAME_AT: u64 = 0;
/// Offset of `st_info`.
pub const ST_INFO_AT: u64 = 4;
/// Offset of `st_other`.
pub const ST_OTHER_AT: u64 = 5;
/// Offset of `st_shndx`.
pub const ST_SHNDX_AT: u64 = 6;
/// Offset of `st_value`.
pub const ST_VALUE_AT: u64 = 8;
/// Offset of `st_size`.
pub const ST_SIZE_AT: u64 = 16;

/// Not seen outside its object file.
pub const STB_LOCAL: u8 = 0;
/// Seen by all object files that are linked.
pub const STB_GLOBAL: u8 = 1;
/// As a global symbol, but of lower precedence.
pub const STB_WEAK: u8 = 2;

/// No type.
pub const STT_NOTYPE: u8 = 0;
/// A data object.
pub const STT_OBJECT: u8 = 1;
/// A function.
pub const STT_FUNC: u8 = 2;
/// A section.
pub const STT_SECTION: u8 = 3;
/// The source file's name.
pub const STT_FILE: u8 = 4;
/// A common block that has no place yet.
pub const STT_COMMON: u8 = 5;
/// Thread-local storage.
pub const STT_TLS: u8 = 6;

// ---- Rel and Rela: relocations (chapter 4, Relocation)

/// Size of a relocation without an addend.
pub const REL_SIZE: u64 = 16;
/// Size of a relocation with an addend.
pub const RELA_SIZE: u64 = 24;
/// Offset of `r_offset`, in either.
pub const R_OFFSET_AT: u64 = 0;
/// Offset of `r_info`, in either.
pub const R_INFO_AT: u64 = 8;
/// Offset of `r_addend`.
pub const R_ADDEND_AT: u64 = 16;

// ---- Phdr: a program header (chapter 5, Program Header)

/// Size of a program header.
pub const PHDR_SIZE: u64 = 56;
/// Offset of `p_type`.
pub const P_TYPE_AT: u64 = 0;
/// Offset of `p_flags`.
pub const P_FLAGS_AT: u64 = 4;
/// Offset of `p_offset`.
pub const P_OFFSET_AT: u64 = 8;
/// Offset of `p_vaddr`.
pub const P_VADDR_AT: u64 = 16;
/// Offset of `p_paddr`.
pub const P_PADDR_AT: u64 = 24;
/// Offset of `p_filesz`.
pub const P_FILESZ_AT: u64 = 32;
/// Offset of `p_memsz`.
pub const P_MEMSZ_AT: u64 = 40;
/// Offset of `p_align`.
pub const P_ALIGN_AT: u64 = 48;

/// A program header without a segment.
pub const PT_NULL: u32 = 0;
/// A loadable segment.
pub const PT_LOAD: u32 = 1;
/// What dynamic linking needs.
pub const PT_DYNAMIC: u32 = 2;
/// The name of an interpreter.
pub const PT_INTERP: u32 = 3;
/// Notes.
pub const PT_NOTE: u32 = 4;
/// Reserved, with no meaning.
pub const PT_SHLIB: u32 = 5;
/// The program table itself.
pub const PT_PHDR: u32 = 6;
/// The template of thread-local storage.
pub const PT_TLS: u32 = 7;

/// May be executed.
pub const PF_X: u32 = 0x1;
/// May be written.
pub const PF_W: u32 = 0x2;
/// May be read.
pub const PF_R: u32 = 0x4;

// ---- Dyn: an entry of the dynamic section (chapter 5, Dynamic Section)

/// Size of an entry.
pub const DYN_SIZE: u64 = 16;
/// Offset of `d_tag`.
pub const D_TAG_AT: u64 = 0;
/// Offset of `d_un`.
pub const D_UN_AT: u64 = 8;

/// The end of the entries.
pub const DT_NULL: i64 = 0;
/// The name of a library that is needed.
pub const DT_NEEDED: i64 = 1;
/// The address of the symbol hash table.
pub const DT_HASH: i64 = 4;
/// The address of the string table.
pub const DT_STRTAB: i64 = 5;
/// The address of the symbol table.
pub const DT_SYMTAB: i64 = 6;
/// The string table's size in bytes.
pub const DT_STRSZ: i64 = 10;
/// The size of one symbol in bytes.
pub const DT_SYMENT: i64 = 11;
/// The name of this shared object.
pub const DT_SONAME: i64 = 14;
/// A list of directories to search for libraries, before others.
pub const DT_RPATH: i64 = 15;
/// A list of directories to search for libraries.
pub const DT_RUNPATH: i64 = 29;

// ---- Note: a note (chapter 5, Note Section)

/// Size of what is before a note's name: three words.
pub const NHDR_SIZE: u64 = 12;
/// Offset of `namesz`, the name's size.
pub const N_NAMESZ_AT: u64 = 0;
/// Offset of `descsz`, the descriptor's size.
pub const N_DESCSZ_AT: u64 = 4;
/// Offset of `type`.
pub const N_TYPE_AT: u64 = 8;
/// What a note's name and its descriptor are padded to a multiple of, in bytes.
pub const NOTE_ALIGN: u64 = 4;
