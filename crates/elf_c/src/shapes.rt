//! The structs that C shares, by the names that the gABI gives their fields.
ghost use Rattle.std.specs.Prelude.{◌≡◌, ◌↔◌, IfSome, IsSome, IsTrue};
ghost use Rattle.std.specs.Bool.{OnFalse};
ghost use Rattle.elf_c.specs.Tables.{dynamic_shape, relocation_shape};
ghost use Rattle.elf_c.specs.Files.{header_shape, section_shape, segment_shape};

use elf_c_parts::Slot;
use elf_field::abi::EI_NIDENT;
use elf_field::{Dyn, Ehdr, Phdr, Shdr};
use elf_table_lists as lists;

/// `struct elfmap_fault`: the first rule that a file breaks, and where.
#[repr(C)]
#[derive(Clone, Copy)]
pub struct Fault {
    /// The lowest offset at which the rule is broken, in bytes.
    pub at: u64,
    /// The number of the rule.
    pub rule: u16,
}

/// `struct elfmap_place`: where an offset is in an owner.
#[repr(C)]
#[derive(Clone, Copy)]
pub struct Place {
    /// Which of the owner's records, from 0.
    pub entry: u64,
    /// Where the record is in the file.
    pub record: Slot,
    /// Where the field begins in the record, and its width.
    pub field: Slot,
}

/// `struct elfmap_file`: what the accessors need of a file.
#[repr(C)]
#[derive(Clone, Copy)]
pub struct File {
    /// The offset of the program header table in the file, in bytes; 0 for none.
    pub e_phoff: u64,
    /// The offset of the section header table in the file, in bytes; 0 for none.
    pub e_shoff: u64,
    /// How many section headers there are.
    pub sections: u64,
    /// How many program headers there are.
    pub segments: u64,
    /// The index of the section name string table, 0 for none.
    pub name_table: u64,
    /// The data encoding: identification byte `EI_DATA`, which is `ELFDATA2LSB` or `ELFDATA2MSB`.
    pub ei_data: u8,
}

/// `struct elfmap_header`: the ELF header.
#[repr(C)]
#[derive(Clone, Copy)]
pub struct Header {
    pub e_ident: [u8; EI_NIDENT],
    pub e_type: u16,
    pub e_machine: u16,
    pub e_version: u32,
    pub e_entry: u64,
    pub e_phoff: u64,
    pub e_shoff: u64,
    pub e_flags: u32,
    pub e_ehsize: u16,
    pub e_phentsize: u16,
    pub e_phnum: u16,
    pub e_shentsize: u16,
    pub e_shnum: u16,
    pub e_shstrndx: u16,
}

impl Header {
    /// The header in the shape that C has.
    pub(crate) fn new(header: &Ehdr) -> Header
        ensures { result ≡ header_shape header.now }
    {
        Header {
            e_ident: header.e_ident,
            e_type: header.e_type,
            e_machine: header.e_machine,
            e_version: header.e_version,
            e_entry: header.e_entry,
            e_phoff: header.e_phoff,
            e_shoff: header.e_shoff,
            e_flags: header.e_flags,
            e_ehsize: header.e_ehsize,
            e_phentsize: header.e_phentsize,
            e_phnum: header.e_phnum,
            e_shentsize: header.e_shentsize,
            e_shnum: header.e_shnum,
            e_shstrndx: header.e_shstrndx,
        }
    }
}

/// `struct elfmap_section`: a section header.
#[repr(C)]
#[derive(Clone, Copy)]
pub struct Section {
    pub sh_name: u32,
    pub sh_type: u32,
    pub sh_flags: u64,
    pub sh_addr: u64,
    pub sh_offset: u64,
    pub sh_size: u64,
    pub sh_link: u32,
    pub sh_info: u32,
    pub sh_addralign: u64,
    pub sh_entsize: u64,
}

impl Section {
    /// The section header in the shape that C has.
    pub(crate) fn new(entry: &Shdr) -> Section
        ensures { result ≡ section_shape entry.now }
    {
        Section {
            sh_name: entry.sh_name,
            sh_type: entry.sh_type,
            sh_flags: entry.sh_flags,
            sh_addr: entry.sh_addr,
            sh_offset: entry.sh_offset,
            sh_size: entry.sh_size,
            sh_link: entry.sh_link,
            sh_info: entry.sh_info,
            sh_addralign: entry.sh_addralign,
            sh_entsize: entry.sh_entsize,
        }
    }
}

/// `struct elfmap_segment`: a program header.
#[repr(C)]
#[derive(Clone, Copy)]
pub struct Segment {
    pub p_type: u32,
    pub p_flags: u32,
    pub p_offset: u64,
    pub p_vaddr: u64,
    pub p_paddr: u64,
    pub p_filesz: u64,
    pub p_memsz: u64,
    pub p_align: u64,
}

impl Segment {
    /// The program header in the shape that C has.
    pub(crate) fn new(entry: &Phdr) -> Segment
        ensures { result ≡ segment_shape entry.now }
    {
        Segment {
            p_type: entry.p_type,
            p_flags: entry.p_flags,
            p_offset: entry.p_offset,
            p_vaddr: entry.p_vaddr,
            p_paddr: entry.p_paddr,
            p_filesz: entry.p_filesz,
            p_memsz: entry.p_memsz,
            p_align: entry.p_align,
        }
    }
}

/// `struct elfmap_table`: what the accessors of a table's entries need.
#[repr(C)]
#[derive(Clone, Copy)]
pub struct Table {
    /// The content of the section.
    pub content: Slot,
    /// Of a symbol table the content of its index table (`SHT_SYMTAB_SHNDX`), of a hash table that of its symbol table; else of no bytes.
    pub linked: Slot,
    /// The content of the string table: for a symbol table and a hash table that of the names of symbols, for a dynamic array that of the
    /// strings of its entries; else of no bytes.
    pub strings: Slot,
    /// How many entries there are: of a dynamic array those before the first of tag `DT_NULL`, of a hash table its words.
    pub entries: u64,
    /// The type of the section.
    pub sh_type: u32,
    /// The data encoding: identification byte `EI_DATA`.
    pub ei_data: u8,
}

/// `struct elfmap_symbol`: an entry of a symbol table, with its name and its section.
#[repr(C)]
#[derive(Clone, Copy)]
pub struct Symbol {
    /// Where its name is in the file, without its closing zero.
    pub name: Slot,
    pub st_value: u64,
    pub st_size: u64,
    pub st_name: u32,
    /// `st_shndx`, or the word of the index table where that is `SHN_XINDEX`: the index of the section where it is defined, but no
    /// section's where `st_shndx` is 0 (undefined) or from 0xff00 to 0xfffe (as `SHN_ABS` and `SHN_COMMON`).
    pub section: u32,
    pub st_shndx: u16,
    pub st_info: u8,
    pub st_other: u8,
}

/// `struct elfmap_relocation`: an entry of a relocation section.
#[repr(C)]
#[derive(Clone, Copy)]
pub struct Relocation {
    pub r_offset: u64,
    /// 0 in a section of type `SHT_REL`, where the addend is in the bytes that are relocated.
    pub r_addend: i64,
    /// The index of the symbol, from the upper half of `r_info`.
    pub symbol: u32,
    /// The type of the relocation, from the lower half of `r_info`.
    pub relocation_type: u32,
}

impl Relocation {
    /// The relocation in the shape that C has.
    pub(crate) fn new(entry: &lists::Relocation) -> Relocation
        ensures { result ≡ relocation_shape entry.now }
    {
        Relocation {
            r_offset: entry.offset,
            r_addend: entry.addend.unwrap_or(0),
            symbol: entry.symbol,
            relocation_type: entry.relocation_type,
        }
    }
}

/// `struct elfmap_dynamic`: an entry of a dynamic array.
#[repr(C)]
#[derive(Clone, Copy)]
pub struct DynamicEntry {
    pub d_tag: i64,
    /// `d_val` or `d_ptr`, as the tag says.
    pub d_un: u64,
}

impl DynamicEntry {
    /// The entry in the shape that C has.
    pub(crate) fn new(entry: &Dyn) -> DynamicEntry
        ensures { result ≡ dynamic_shape entry.now }
    {
        DynamicEntry {
            d_tag: entry.d_tag,
            d_un: entry.d_un,
        }
    }
}

/// `struct elfmap_note`: a note of a note section.
#[repr(C)]
#[derive(Clone, Copy)]
pub struct Note {
    /// Where its name is in the file, without its closing zero and its padding.
    pub name: Slot,
    /// Where its descriptor is in the file, without its padding.
    pub desc: Slot,
    /// Where the next note begins, in bytes from the beginning of the section.
    pub next: u64,
    pub n_type: u32,
}

/// Puts what was found into the struct that a caller has given; false if nothing was found, and the struct stays as it was.
pub(crate) fn put<T: Copy>(found: Option<T>, given: &mut T) -> bool
    ensures there { IsTrue result ↔ IsSome found }
    ensures value { IfSome found (λ x. given.new ≡ x) }
    ensures unchanged { OnFalse result (given.new ≡ given.old) }
{
    match found {
        Some(x) => {
            *given = x;
            true
        }
        None => false,
    }
}
