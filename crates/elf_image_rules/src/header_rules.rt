//! Rules 1 to 12: the file's length and its header (gABI chapter 4, ELF Header).
ghost use Rattle.std.specs.Prelude.{◌≡◌, ◌+◌, ◌≤◌, IfNone, OnOk, ◌≢◌, ◌<◌, ◌^◌, ◌↔◌, IsTrue};
ghost use Rattle.elf_extent.specs.Extent.{IsLowest};
ghost use Rattle.elf_image_rules.specs.Rows.{fault_of, FirstIn};
ghost use Rattle.elf_image_rules.specs.Rules.{count_without_section_table, length_rules, ident_rules, header_rules};
ghost use Rattle.elf_image_rules.specs.Rules.{HasWrongExtendedNameTableIndex, HasWrongExtendedSectionCount, HasWrongNameTableIndex};
ghost use Rattle.elf_image_rules.specs.Rules.{first_section_header_not_null, section_table_rules, HasWrongExtendedSegmentCount};
ghost use Rattle.elf_image_rules.specs.Rules.{HasWrongSegmentCount, program_table_rules};
ghost use Rattle.elf_image_rules.specs.Tables.{name_table, section_header_count, shdr_offset, phdr_offset, program_header_count};

use crate::rules::*;
use crate::tables::{section_count_of, segment_count_of};
use elf_field::abi::*;
use elf_field::{Ehdr, Shdr};
use elf_image_rule_names::{Broken, MAX_LEN};

/// Rules 1 and 2, of a file of `len` bytes.
#[tactic(auto, unfolding(crate::specs::Rules::length_rules))]
pub fn validate_length(len: u64) -> Result<(), Broken<u64>>
    ensures fault { FirstIn (length_rules len) (fault_of result) }
    ensures long { OnOk result (EHDR_SIZE ≤ len) }
    ensures short { OnOk result (len ≤ MAX_LEN) }
{
    if len > MAX_LEN {
        return Err(Broken::new(TOO_LONG, MAX_LEN));
    }
    if len < EHDR_SIZE {
        return Err(Broken::new(TOO_SHORT, len));
    }
    Ok(())
}

/// Rules 3 to 6, of the identification.
#[tactic(auto, unfolding(crate::specs::Rules::ident_rules))]
pub fn validate_ident(ident: &[u8; EI_NIDENT]) -> Result<(), Broken<u64>>
    ensures { FirstIn (ident_rules ident.now) (fault_of result) }
{
    for i in 0..MAGIC.len() {
        if ident[i] != MAGIC[i] {
            return Err(Broken::new(WRONG_MAGIC, i as u64));
        }
    }
    if ident[EI_CLASS] != ELFCLASS64 {
        return Err(Broken::new(WRONG_CLASS, EI_CLASS as u64));
    }
    if ident[EI_DATA] != ELFDATA2LSB && ident[EI_DATA] != ELFDATA2MSB {
        return Err(Broken::new(WRONG_DATA, EI_DATA as u64));
    }
    if ident[EI_VERSION] != EV_CURRENT {
        return Err(Broken::new(WRONG_IDENT_VERSION, EI_VERSION as u64));
    }
    Ok(())
}

/// Rules 7 to 12, of the header of a file of `len` bytes.
#[tactic(auto, unfolding(crate::specs::Rules::header_rules))]
pub fn validate_header(header: &Ehdr, len: u64) -> Result<(), Broken<u64>>
    ensures fault { FirstIn (header_rules len header.now) (fault_of result) }
    ensures first { OnOk result (EHDR_SIZE ≤ len → header.now.e_shoff + SHDR_SIZE ≤ len) }
    ensures nameless { OnOk result (header.now.e_shoff ≡ 0 → header.now.e_shstrndx ≡ 0) }
{
    if header.e_version != EV_CURRENT as u32 {
        return Err(Broken::new(WRONG_VERSION, E_VERSION_AT));
    }
    if header.e_ehsize as u64 != EHDR_SIZE {
        return Err(Broken::new(WRONG_HEADER_SIZE, E_EHSIZE_AT));
    }
    if let Some(at) = count_without_table(header) {
        return Err(Broken::new(COUNT_WITHOUT_SECTION_TABLE, at));
    }
    if header.e_shoff != 0 && header.e_shentsize as u64 != SHDR_SIZE {
        return Err(Broken::new(WRONG_SECTION_HEADER_SIZE, E_SHENTSIZE_AT));
    }
    if header.e_shnum >= SHN_LORESERVE {
        return Err(Broken::new(RESERVED_SECTION_COUNT, E_SHNUM_AT));
    }
    // The sum would not fit: section header 0 passes the end just where less than it is left.
    if header.e_shoff != 0 && (len < SHDR_SIZE || header.e_shoff > len - SHDR_SIZE) {
        return Err(Broken::new(FIRST_SECTION_HEADER_PAST_END, E_SHOFF_AT));
    }
    Ok(())
}

/// The offset in the file of the first of `e_shnum` and `e_shstrndx` that isn't 0 though there is
/// no section table.
fn count_without_table(header: &Ehdr) -> Option<u64>
    ensures lowest { IsLowest (count_without_section_table header.now) result }
    ensures nameless { IfNone result (header.now.e_shoff ≡ 0 → header.now.e_shstrndx ≡ 0) }
{
    if header.e_shoff != 0 {
        None
    } else if header.e_shnum != 0 {
        Some(E_SHNUM_AT)
    } else if header.e_shstrndx != 0 {
        Some(E_SHSTRNDX_AT)
    } else {
        None
    }
}

// Rules 13 to 17: section header 0 and the counts of the section table, where there is one
// (gABI chapter 4, ELF Header and Sections: extended numbering).

/// Rules 13 to 17, of the header and section header 0 of a file of `len` bytes.
#[tactic(auto, unfolding(crate::specs::Rules::section_table_rules))]
pub fn validate_section_table(header: &Ehdr, first: &Shdr, len: u64) -> Result<(), Broken<u64>>
    requires { header.now.e_shoff + SHDR_SIZE ≤ len }
    ensures fault { FirstIn (section_table_rules len header.now first.now) (fault_of result) }
    ensures inside { OnOk result (shdr_offset header.now (section_header_count header.now first.now) ≤ len) }
    ensures named { OnOk result
        (header.now.e_shoff ≢ 0 → name_table header.now first.now < section_header_count header.now first.now) }
{
    if header.e_shoff == 0 {
        return Ok(());
    }
    if let Some(at) = nonzero_field(header, first) {
        return Err(Broken::new(FIRST_SECTION_HEADER_NOT_NULL, at));
    }
    if !is_section_count_right(header, first) {
        return Err(Broken::new(WRONG_EXTENDED_SECTION_COUNT, header.e_shoff + SH_SIZE_AT));
    }
    let count = section_count_of(header, first);
    // Counted in entries, so that no product can pass the integers.
    if count > (len - header.e_shoff) / SHDR_SIZE {
        return Err(Broken::new(SECTION_TABLE_PAST_END, E_SHOFF_AT));
    }
    if !is_name_index_right(header, count) {
        return Err(Broken::new(WRONG_NAME_TABLE_INDEX, E_SHSTRNDX_AT));
    }
    if !is_extended_name_index_right(header, first, count) {
        return Err(Broken::new(WRONG_EXTENDED_NAME_TABLE_INDEX, header.e_shoff + SH_LINK_AT));
    }
    Ok(())
}

/// The offset in the file of the first field of section header 0 that has no meaning there and
/// isn't 0.
fn nonzero_field(header: &Ehdr, first: &Shdr) -> Option<u64>
    requires table { header.now.e_shoff ≢ 0 }
    requires inside { header.now.e_shoff + SHDR_SIZE < 2 ^ 64 }
    ensures { IsLowest (first_section_header_not_null header.now first.now) result }
{
    let field = if first.sh_name != 0 {
        SH_NAME_AT
    } else if first.sh_type != SHT_NULL {
        SH_TYPE_AT
    } else if first.sh_flags != 0 {
        SH_FLAGS_AT
    } else if first.sh_addr != 0 {
        SH_ADDR_AT
    } else if first.sh_offset != 0 {
        SH_OFFSET_AT
    } else if first.sh_addralign != 0 {
        SH_ADDRALIGN_AT
    } else if first.sh_entsize != 0 {
        SH_ENTSIZE_AT
    } else {
        return None;
    };
    Some(header.e_shoff + field)
}

/// Whether section header 0 has a count of sections just where `e_shnum` cannot hold it.
fn is_section_count_right(header: &Ehdr, first: &Shdr) -> bool
    ensures { IsTrue result ↔ ¬ HasWrongExtendedSectionCount header.now first.now }
{
    if header.e_shnum == 0 {
        first.sh_size >= SHN_LORESERVE as u64
    } else {
        first.sh_size == 0
    }
}

/// Whether `e_shstrndx` is the index of a section, or says that section header 0 has it.
fn is_name_index_right(header: &Ehdr, count: u64) -> bool
    ensures { IsTrue result ↔ ¬ HasWrongNameTableIndex header.now count }
{
    header.e_shstrndx == SHN_XINDEX
        || header.e_shstrndx < SHN_LORESERVE && (header.e_shstrndx as u64) < count
}

/// Whether section header 0 has the name table's index just where `e_shstrndx` cannot hold it.
fn is_extended_name_index_right(header: &Ehdr, first: &Shdr, count: u64) -> bool
    ensures { IsTrue result ↔ ¬ HasWrongExtendedNameTableIndex header.now first.now count }
{
    if header.e_shstrndx == SHN_XINDEX {
        first.sh_link >= SHN_LORESERVE as u32 && (first.sh_link as u64) < count
    } else {
        first.sh_link == 0
    }
}

// Rules 18 to 21: the program table's offset and count (gABI chapter 4, ELF Header; chapter 5,
// Program Header).

/// Rules 18 to 21, of the header and section header 0 of a file of `len` bytes.
#[tactic(auto, unfolding(crate::specs::Rules::program_table_rules))]
pub fn validate_program_table(header: &Ehdr, first: &Shdr, len: u64) -> Result<(), Broken<u64>>
    requires { header.now.e_shoff + SHDR_SIZE ≤ len }
    ensures fault { FirstIn (program_table_rules len header.now first.now) (fault_of result) }
    ensures inside { OnOk result
        (let m = program_header_count header.now first.now in 0 < m → phdr_offset header.now m ≤ len) }
{
    if !is_segment_count_right(header) {
        return Err(Broken::new(WRONG_SEGMENT_COUNT, E_PHNUM_AT));
    }
    if header.e_phnum != 0 && header.e_phentsize as u64 != PHDR_SIZE {
        return Err(Broken::new(WRONG_PROGRAM_HEADER_SIZE, E_PHENTSIZE_AT));
    }
    if header.e_shoff != 0 && !is_extended_segment_count_right(header, first) {
        return Err(Broken::new(WRONG_EXTENDED_SEGMENT_COUNT, header.e_shoff + SH_INFO_AT));
    }
    let count = segment_count_of(header, first);
    // Counted in entries, so that no product can pass the integers.
    if count > 0 && (header.e_phoff > len || count > (len - header.e_phoff) / PHDR_SIZE) {
        return Err(Broken::new(PROGRAM_TABLE_PAST_END, E_PHOFF_AT));
    }
    Ok(())
}

/// Whether there is a count just where there is a program table, and a section header 0 if that
/// has the count.
fn is_segment_count_right(header: &Ehdr) -> bool
    ensures { IsTrue result ↔ ¬ HasWrongSegmentCount header.now }
{
    (header.e_phoff == 0) == (header.e_phnum == 0)
        && (header.e_phnum != PN_XNUM || header.e_shoff != 0)
}

/// Whether section header 0 has a count of segments just where `e_phnum` cannot hold it.
fn is_extended_segment_count_right(header: &Ehdr, first: &Shdr) -> bool
    ensures { IsTrue result ↔ ¬ HasWrongExtendedSegmentCount header.now first.now }
{
    if header.e_phnum == PN_XNUM {
        first.sh_info >= PN_XNUM as u32
    } else {
        first.sh_info == 0
    }
}
