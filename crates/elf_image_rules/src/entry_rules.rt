//! Rules of one section header or one program header (gABI chapter 4, Sections; chapter 5, Program Header).
ghost use Rattle.std.specs.Prelude.{◌↔◌, IsTrue, ◌+◌, ◌<◌, ◌≡◌, ◌^◌, ℕ, ◌≢◌, ◌%◌};
ghost use Rattle.elf_image_rules.specs.Rules.{IsWrongAlignment, BreaksSectionHeader, IsMisalignedSection, IsContentPastEnd};
ghost use Rattle.elf_image_rules.specs.Rules.{SomeSectionHeader, section_field, section_header_rules, BreaksSegment, SomeSegment};
ghost use Rattle.elf_image_rules.specs.Rules.{load_out_of_order, segment_field, segment_rules};
ghost use Rattle.elf_extent.specs.Extent.{IsLowest};
ghost use Rattle.elf_image_rules.specs.Rows.{fault_of, FirstIn};
ghost use Rattle.elf_image_rules.specs.Tables.{shdr_offset, phdr_offset};

use crate::records::Records;
use crate::rules::*;
use elf_field::abi::*;
use elf_field::{Ehdr, Phdr, Shdr};
use elf_image_rule_names::Broken;

/// Whether an alignment is neither 0, for none, nor a power of two.
pub fn is_wrong_alignment(align: u64) -> bool
    ensures { IsTrue result ↔ IsWrongAlignment align }
{
    align != 0 && !align.is_power_of_two()
}

// Sums of offsets and sizes, as whole numbers.

/// Whether what begins at `start` and is `size` bytes long ends after `len`. A sum that is no u64 is above every length.
pub fn ends_past(start: u64, size: u64, len: u64) -> bool
    ensures { IsTrue result ↔ (len < start + size) }
{
    match start.checked_add(size) {
        Some(end) => end > len,
        None => true,
    }
}

// Rules on each section by itself: 22 to 24, and 32 on its name (gABI chapter 4, Sections).

/// A rule on one section header, whatever the others are; it is not tested at type NULL.
#[derive(Clone, Copy)]
pub enum SectionRule {
    /// Rule 22, [`WRONG_SECTION_ALIGNMENT`].
    WrongSectionAlignment,
    /// Rule 23, [`MISALIGNED_SECTION`].
    MisalignedSection,
    /// Rule 24, [`CONTENT_PAST_END`], in a file of so many bytes.
    ContentPastEnd(u64),
    /// Rule 32, [`NAME_PAST_END`], with a section name string table of so many bytes.
    NamePastEnd(u64),
}

impl SectionRule {
    /// Whether the section header breaks the rule.
    pub fn is_broken_by(self, entry: &Shdr) -> bool
        ensures { IsTrue result ↔ BreaksSectionHeader self entry.now }
    {
        match self {
            SectionRule::WrongSectionAlignment => is_wrong_alignment(entry.sh_addralign),
            SectionRule::MisalignedSection => is_misaligned_section(entry),
            SectionRule::ContentPastEnd(len) => is_content_past_end(entry, len),
            SectionRule::NamePastEnd(size) => entry.sh_name != 0 && entry.sh_name as u64 >= size,
        }
    }

    /// The offset in the section header of the field at which the rule is broken.
    pub fn field(self) -> u64
        ensures value { result ≡ section_field self }
        ensures inside { result < SHDR_SIZE }
    {
        match self {
            SectionRule::WrongSectionAlignment => SH_ADDRALIGN_AT,
            SectionRule::MisalignedSection => SH_ADDR_AT,
            SectionRule::ContentPastEnd(_) => SH_OFFSET_AT,
            SectionRule::NamePastEnd(_) => SH_NAME_AT,
        }
    }
}

/// Whether the address is no multiple of the alignment.
fn is_misaligned_section(entry: &Shdr) -> bool
    ensures { IsTrue result ↔ IsMisalignedSection entry.now }
{
    entry.sh_addralign > 1 && entry.sh_addr % entry.sh_addralign != 0
}

/// Whether the content passes the end of a file of `len` bytes.
fn is_content_past_end(entry: &Shdr, len: u64) -> bool
    ensures { IsTrue result ↔ IsContentPastEnd len entry.now }
{
    entry.sh_type != SHT_NOBITS
        && entry.sh_size > 0
        && ends_past(entry.sh_offset, entry.sh_size, len)
}

/// The lowest offset in the file at which one of `count` sections breaks the rule.
pub(crate) fn lowest_section<T: Records>(
    records: &T,
    header: &Ehdr,
    count: u64,
    rule: SectionRule,
) -> Option<u64>
    requires there { (i : ℕ) → i < count → T.HasSection records.now i }
    requires fits { shdr_offset header.now count < 2 ^ 64 }
    ensures { let s = T.sections records.now in
        IsLowest (SomeSectionHeader header.now count s (BreaksSectionHeader rule) (section_field rule)) result }
{
    for i in 1..count {
        let entry = records.section(i);
        if entry.sh_type != SHT_NULL && rule.is_broken_by(&entry) {
            return Some(header.e_shoff + SHDR_SIZE * i + rule.field());
        }
    }
    None
}

/// Rules 22 to 24, of `count` sections of a file of `len` bytes.
#[tactic(auto, unfolding(crate::specs::Rules::section_header_rules))]
pub(crate) fn validate_sections<T: Records>(
    records: &T,
    header: &Ehdr,
    count: u64,
    len: u64,
) -> Result<(), Broken<u64>>
    requires there { (i : ℕ) → i < count → T.HasSection records.now i }
    requires fits { shdr_offset header.now count < 2 ^ 64 }
    ensures { FirstIn (section_header_rules len header.now count (T.sections records.now)) (fault_of result) }
{
    if let Some(at) = lowest_section(records, header, count, SectionRule::WrongSectionAlignment) {
        return Err(Broken::new(WRONG_SECTION_ALIGNMENT, at));
    }
    if let Some(at) = lowest_section(records, header, count, SectionRule::MisalignedSection) {
        return Err(Broken::new(MISALIGNED_SECTION, at));
    }
    if let Some(at) = lowest_section(records, header, count, SectionRule::ContentPastEnd(len)) {
        return Err(Broken::new(CONTENT_PAST_END, at));
    }
    Ok(())
}

// Rules 25 to 29, on the segments (gABI chapter 5, Program Header).

/// A rule on one segment, whatever the others are.
#[derive(Clone, Copy)]
pub enum SegmentRule {
    /// Rule 25, [`SEGMENT_PAST_END`], in a file of so many bytes; not tested at type NULL.
    SegmentPastEnd(u64),
    /// Rule 26, [`FILE_SIZE_ABOVE_MEMORY_SIZE`].
    FileSizeAboveMemorySize,
    /// Rule 27, [`WRONG_SEGMENT_ALIGNMENT`].
    WrongSegmentAlignment,
    /// Rule 28, [`INCONGRUENT_SEGMENT`].
    IncongruentSegment,
}

impl SegmentRule {
    /// Whether the program header breaks the rule.
    pub fn is_broken_by(self, segment: &Phdr) -> bool
        ensures { IsTrue result ↔ BreaksSegment self segment.now }
    {
        let is_load = segment.p_type == PT_LOAD;
        match self {
            SegmentRule::SegmentPastEnd(len) => {
                segment.p_type != PT_NULL
                    && segment.p_filesz > 0
                    && ends_past(segment.p_offset, segment.p_filesz, len)
            }
            SegmentRule::FileSizeAboveMemorySize => is_load && segment.p_filesz > segment.p_memsz,
            SegmentRule::WrongSegmentAlignment => is_load && is_wrong_alignment(segment.p_align),
            SegmentRule::IncongruentSegment => is_load && is_incongruent_segment(segment),
        }
    }

    /// The offset in the program header of the field at which the rule is broken.
    pub fn field(self) -> u64
        ensures value { result ≡ segment_field self }
        ensures inside { result < PHDR_SIZE }
    {
        match self {
            SegmentRule::SegmentPastEnd(_) | SegmentRule::IncongruentSegment => P_OFFSET_AT,
            SegmentRule::FileSizeAboveMemorySize => P_FILESZ_AT,
            SegmentRule::WrongSegmentAlignment => P_ALIGN_AT,
        }
    }
}

/// Whether the address and the offset differ modulo the alignment.
fn is_incongruent_segment(segment: &Phdr) -> bool
    ensures { let p = segment.now in
        IsTrue result ↔ ((1 < p.p_align) × (p.p_vaddr % p.p_align ≢ p.p_offset % p.p_align)) }
{
    segment.p_align > 1 && segment.p_vaddr % segment.p_align != segment.p_offset % segment.p_align
}

/// The lowest offset in the file at which one of `count` segments breaks the rule.
pub(crate) fn lowest_segment<T: Records>(
    records: &T,
    header: &Ehdr,
    count: u64,
    rule: SegmentRule,
) -> Option<u64>
    requires there { (j : ℕ) → j < count → T.HasSegment records.now j }
    requires fits { 0 < count → phdr_offset header.now count < 2 ^ 64 }
    ensures { let g = T.segments records.now in
        IsLowest (SomeSegment header.now count g (BreaksSegment rule) (segment_field rule)) result }
{
    for i in 0..count {
        if rule.is_broken_by(&records.segment(i)) {
            return Some(header.e_phoff + PHDR_SIZE * i + rule.field());
        }
    }
    None
}

/// The lowest offset in the file of an address, of one of `count` segments, that is below that of
/// the loadable segment before it.
fn lowest_load_out_of_order<T: Records>(records: &T, header: &Ehdr, count: u64) -> Option<u64>
    requires there { (j : ℕ) → j < count → T.HasSegment records.now j }
    requires fits { 0 < count → phdr_offset header.now count < 2 ^ 64 }
    ensures { IsLowest (load_out_of_order header.now count (T.segments records.now)) result }
{
    // The address of the loadable segment before, 0 while there is none.
    let mut floor = 0;
    for i in 0..count {
        let segment = records.segment(i);
        if segment.p_type == PT_LOAD {
            if segment.p_vaddr < floor {
                return Some(header.e_phoff + PHDR_SIZE * i + P_VADDR_AT);
            }
            floor = segment.p_vaddr;
        }
    }
    None
}

/// Rules 25 to 29, of `count` segments of a file of `len` bytes.
#[tactic(auto, unfolding(crate::specs::Rules::segment_rules))]
pub(crate) fn validate_segments<T: Records>(
    records: &T,
    header: &Ehdr,
    count: u64,
    len: u64,
) -> Result<(), Broken<u64>>
    requires there { (j : ℕ) → j < count → T.HasSegment records.now j }
    requires fits { 0 < count → phdr_offset header.now count < 2 ^ 64 }
    ensures { FirstIn (segment_rules len header.now count (T.segments records.now)) (fault_of result) }
{
    if let Some(at) = lowest_segment(records, header, count, SegmentRule::SegmentPastEnd(len)) {
        return Err(Broken::new(SEGMENT_PAST_END, at));
    }
    if let Some(at) = lowest_segment(records, header, count, SegmentRule::FileSizeAboveMemorySize) {
        return Err(Broken::new(FILE_SIZE_ABOVE_MEMORY_SIZE, at));
    }
    if let Some(at) = lowest_segment(records, header, count, SegmentRule::WrongSegmentAlignment) {
        return Err(Broken::new(WRONG_SEGMENT_ALIGNMENT, at));
    }
    if let Some(at) = lowest_segment(records, header, count, SegmentRule::IncongruentSegment) {
        return Err(Broken::new(INCONGRUENT_SEGMENT, at));
    }
    if let Some(at) = lowest_load_out_of_order(records, header, count) {
        return Err(Broken::new(LOAD_OUT_OF_ORDER, at));
    }
    Ok(())
}
