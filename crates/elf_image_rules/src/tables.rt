//! A file's header, section headers and program headers, and what they say of the file
//! (gABI chapter 4, ELF Header and Sections; chapter 5, Program Header).
ghost use Rattle.std.specs.Prelude.{◌≡◌, ◌≢◌, ◌≤◌, ◌<◌, ◌+◌, ◌^◌, length};
ghost use Rattle.elf_image_rules.specs.Tables.{counts_in, order_of, shdr_offset, phdr_offset, header, sections, segments};
ghost use Rattle.elf_image_rules.specs.Tables.{section_header_count, program_header_count, name_table, bytes_in, content_extent};

use elf_extent::Extent;
use elf_field::abi::*;
use elf_field::{Ehdr, Order, Phdr, Shdr, get_at};

/// The byte order that an identification names: any byte 5 but `ELFDATA2MSB` is taken for the
/// least significant byte first.
#[tactic(auto, unfolding(crate::specs::Tables::order_of))]
pub fn order_in(ident: &[u8]) -> Order
    requires { EI_DATA < length ident.now }
    ensures { result ≡ order_of ident.now }
{
    if ident[EI_DATA] == ELFDATA2MSB {
        Order::Big
    } else {
        Order::Little
    }
}

/// The header of a file that is long enough to have one.
pub fn header_of(bytes: &[u8]) -> Ehdr
    requires { EHDR_SIZE ≤ length bytes.now }
    ensures { result ≡ header bytes.now }
{
    get_at(order_in(&bytes[..EI_NIDENT]), bytes, 0)
}

/// What is used for a section header that is not there.
pub const NO_SECTION: Shdr = Shdr {
    sh_name: 0,
    sh_type: 0,
    sh_flags: 0,
    sh_addr: 0,
    sh_offset: 0,
    sh_size: 0,
    sh_link: 0,
    sh_info: 0,
    sh_addralign: 0,
    sh_entsize: 0,
};

/// What is used for a program header that is not there.
pub(crate) const NO_SEGMENT: Phdr = Phdr {
    p_type: 0,
    p_flags: 0,
    p_offset: 0,
    p_vaddr: 0,
    p_paddr: 0,
    p_filesz: 0,
    p_memsz: 0,
    p_align: 0,
};

/// Section header `index` of a file with this header, where it lies in the file; all zeros without a
/// section table.
#[tactic(auto, unfolding(crate::specs::Tables::sections))]
pub(crate) fn section_at(bytes: &[u8], header: &Ehdr, index: u64) -> Shdr
    requires { header.now.e_shoff ≢ 0 → shdr_offset header.now index + SHDR_SIZE ≤ length bytes.now }
    ensures { result ≡ sections bytes.now header.now index }
{
    match header.e_shoff {
        0 => NO_SECTION,
        table => {
            let offset = table + SHDR_SIZE * index;
            get_at(order_in(&header.e_ident), bytes, offset as usize)
        }
    }
}

/// Program header `index` of a file with this header, where it lies in the file.
#[tactic(auto, unfolding(crate::specs::Tables::segments))]
pub(crate) fn segment_at(bytes: &[u8], header: &Ehdr, index: u64) -> Phdr
    requires { phdr_offset header.now index + PHDR_SIZE ≤ length bytes.now }
    ensures { result ≡ segments bytes.now header.now index }
{
    let offset = header.e_phoff + PHDR_SIZE * index;
    get_at(order_in(&header.e_ident), bytes, offset as usize)
}

/// How many section headers and program headers a file has, and the index of its section name string
/// table, 0 for none.
#[derive(Clone, Copy)]
pub struct Counts {
    /// How many section headers there are.
    pub sections: u64,
    /// How many program headers there are.
    pub segments: u64,
    /// The index of the section name string table, 0 for none.
    pub name_table: u64,
}

/// The counts that the header and section header 0 give.
pub fn counts_of(header: &Ehdr, first: &Shdr) -> Counts
    ensures value { result ≡ counts_in header.now first.now }
    ensures small { result.name_table < 2 ^ 32 }
{
    Counts {
        sections: section_count_of(header, first),
        segments: segment_count_of(header, first),
        name_table: name_table_of(header, first),
    }
}

/// How many section headers there are: none without a section table; where `e_shnum` is 0, as many
/// as section header 0 says in `sh_size`.
pub(crate) fn section_count_of(header: &Ehdr, first: &Shdr) -> u64
    ensures { result ≡ section_header_count header.now first.now }
{
    if header.e_shoff == 0 {
        0
    } else if header.e_shnum == 0 {
        first.sh_size
    } else {
        header.e_shnum as u64
    }
}

/// How many program headers there are; where `e_phnum` is `PN_XNUM`, as many as section header 0
/// says in `sh_info`.
pub(crate) fn segment_count_of(header: &Ehdr, first: &Shdr) -> u64
    ensures { result ≡ program_header_count header.now first.now }
{
    if header.e_phnum == PN_XNUM {
        first.sh_info as u64
    } else {
        header.e_phnum as u64
    }
}

/// The index of the section name string table, 0 for none; where `e_shstrndx` is `SHN_XINDEX`, the
/// one that section header 0 says in `sh_link`.
pub(crate) fn name_table_of(header: &Ehdr, first: &Shdr) -> u64
    ensures value { result ≡ name_table header.now first.now }
    ensures small { result < 2 ^ 32 }
{
    if header.e_shstrndx == SHN_XINDEX {
        first.sh_link as u64
    } else {
        header.e_shstrndx as u64
    }
}

// The bytes that a section holds in the file (gABI chapter 4, Sections).

/// The offsets that a section's content has in the file: none of type NULL or NOBITS.
pub fn extent_of_content(entry: &Shdr) -> Extent
    ensures { result ≡ content_extent entry.now }
{
    let len = if entry.sh_type == SHT_NULL || entry.sh_type == SHT_NOBITS {
        0
    } else {
        entry.sh_size
    };
    Extent {
        start: entry.sh_offset,
        len,
    }
}

/// A section's content: as much of it as lies in the file.
pub fn content_of<'a>(bytes: &'a [u8], entry: &Shdr) -> &'a [u8]
    ensures content { result.now ≡ bytes_in bytes.now (content_extent entry.now) }
    ensures inside { 0 < length result.now → entry.now.sh_offset + length result.now ≤ length bytes.now }
{
    let extent = extent_of_content(entry);
    if extent.start >= bytes.len() as u64 {
        return &[];
    }
    let rest = &bytes[extent.start as usize..];
    if extent.len >= rest.len() as u64 {
        return rest;
    }
    &rest[..extent.len as usize]
}
