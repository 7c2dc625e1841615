//! Rules 1 to 5: what each section says by itself, and whether what it names is there
//! (gABI chapter 4, Sections, Relocation).
ghost use Rattle.std.specs.Prelude.{◌≡◌, ◌↔◌, ◌<◌, ◌≤◌, Any, IsTrue, length, ◌≢◌, Contains, IfErr, pos};
ghost use Rattle.elf_object_type.specs.Object.{section_at as section_of, symbol_at as symbol_of, HasZero, IsPast};
ghost use Rattle.elf_object_type.specs.Object.{info_position as info_position_of, is_bits as is_bits_of, is_group as is_group_of};
ghost use Rattle.elf_object_type.specs.ObjectView.{body_value, section_value, symbol_value, value_of};
ghost use Rattle.elf_extent.specs.Extent.{IsLowest};
ghost use Rattle.elf_image_rules.specs.Rows.{fault_of, FirstIn};
ghost use Rattle.elf_object_type.specs.ObjectRules.{BreaksSection, HasLinkOrInfo, HasWrongAlignment, HasWrongField, HasWrongPosition};
ghost use Rattle.elf_object_type.specs.ObjectRules.{HasWrongReference, IsAgainstFlag, IsNoTarget, IsWrongBitsType, SomeSection};
ghost use Rattle.elf_object_type.specs.ObjectRules.{object_section_rules, types_without_bits};

use crate::parts::{Body, Info, ObjectParts, Section, Symbol};
use crate::relocations::Relocations;
use crate::rules::*;
use elf_field::abi::*;
use elf_image_rules::{Broken, is_wrong_alignment};

// References from one section or symbol of an object to another, and the elements that they name.

/// The section at position `i`.
pub(crate) fn section_at<'p, 'a>(parts: &'p ObjectParts<'a>, i: usize) -> &'p Section<'a>
    requires { i < length parts.now.sections.items }
    ensures { section_value result.now ≡ section_of (value_of parts.now) i }
{
    &parts.sections[i]
}

/// The symbol at position `i`.
pub(crate) fn symbol_at<'a>(parts: &ObjectParts<'a>, i: usize) -> Symbol<'a>
    requires { i < length parts.now.symbols.items }
    ensures { symbol_value result ≡ symbol_of (value_of parts.now) i }
{
    parts.symbols[i]
}

/// Whether a position that may be missing is not below the count.
pub(crate) fn is_past(count: usize, position: Option<usize>) -> bool
    ensures { IsTrue result ↔ IsPast count position }
{
    match position {
        Some(position) => position >= count,
        None => false,
    }
}

/// The position in `info`, where it is one.
pub(crate) fn info_position(info: Info) -> Option<usize>
    ensures { result ≡ info_position_of info }
{
    match info {
        Info::Number(_) => None,
        Info::Section(position) => Some(position),
    }
}

/// Whether a body is a section group.
pub(crate) fn is_group(body: &Body<'_>) -> bool
    ensures { result ≡ is_group_of (body_value body.now) }
{
    matches!(body, Body::Group { .. })
}

/// Whether a body is bits.
pub(crate) fn is_bits(body: &Body<'_>) -> bool
    ensures { result ≡ is_bits_of (body_value body.now) }
{
    matches!(body, Body::Bits(..))
}

/// Whether a name has a zero byte.
pub(crate) fn has_zero(name: &[u8]) -> bool
    ensures { IsTrue result ↔ HasZero name.now }
{
    name.contains(&0)
}

/// Whether a position is not below the count.
pub(crate) fn has_past(count: usize, positions: &[usize]) -> bool
    ensures { IsTrue result ↔ Any (λ position. count ≤ position) positions.now }
{
    positions.iter().any(|position| *position >= count)
}

/// The section types whose body is another, or that an object can't have.
const TYPES_WITHOUT_BITS: [u32; 11] = [
    SHT_NULL,
    SHT_SYMTAB,
    SHT_RELA,
    SHT_HASH,
    SHT_DYNAMIC,
    SHT_NOBITS,
    SHT_REL,
    SHT_SHLIB,
    SHT_DYNSYM,
    SHT_GROUP,
    SHT_SYMTAB_SHNDX,
];

/// A rule on one section.
#[derive(Clone, Copy)]
pub(crate) enum SectionRule {
    /// Rule 1, [`ZERO_IN_SECTION_NAME`].
    ZeroInSectionName,
    /// Rule 2, [`WRONG_BITS_TYPE`].
    WrongBitsType,
    /// Rule 3, [`WRONG_ALIGNMENT`].
    WrongAlignment,
    /// Rule 4, [`WRONG_POSITION`].
    WrongPosition,
    /// Rule 5, [`WRONG_FIELD`].
    WrongField,
}

impl SectionRule {
    /// Whether a section of these parts breaks the rule.
    fn is_broken_by(self, parts: &ObjectParts<'_>, section: &Section<'_>) -> bool
        ensures { IsTrue result ↔ BreaksSection self (value_of parts.now) (section_value section.now) }
    {
        match self {
            SectionRule::ZeroInSectionName => has_zero(section.name),
            SectionRule::WrongBitsType => is_wrong_bits_type(&section.body),
            SectionRule::WrongAlignment => has_wrong_alignment(section),
            SectionRule::WrongPosition => has_wrong_position(parts, section),
            SectionRule::WrongField => has_wrong_field(section),
        }
    }
}

/// Whether bits have a type that doesn't go with them.
fn is_wrong_bits_type(body: &Body<'_>) -> bool
    ensures { IsTrue result ↔ IsWrongBitsType (body_value body.now) }
{
    match body {
        Body::Bits(section_type, _) => is_type_without_bits(*section_type),
        _ => false,
    }
}

/// Whether a section of this type has another body than bits, or can't be in an object.
fn is_type_without_bits(section_type: u32) -> bool
    ensures { IsTrue result ↔ Contains types_without_bits section_type }
{
    TYPES_WITHOUT_BITS.contains(&section_type)
}

/// Whether the alignment is neither 0 nor a power of two, or the address is no multiple of it.
fn has_wrong_alignment(section: &Section<'_>) -> bool
    ensures { IsTrue result ↔ HasWrongAlignment (section_value section.now) }
{
    is_wrong_alignment(section.align) || section.align > 1 && section.addr % section.align != 0
}

/// Whether a section or symbol that the section names is not there, or the target has no bits.
fn has_wrong_position(parts: &ObjectParts<'_>, section: &Section<'_>) -> bool
    ensures { IsTrue result ↔ HasWrongPosition (value_of parts.now) (section_value section.now) }
{
    let count = parts.sections.len();
    is_past(count, section.link)
        || is_past(count, info_position(section.info))
        || has_wrong_reference(parts, &section.body)
}

fn has_wrong_reference(parts: &ObjectParts<'_>, body: &Body<'_>) -> bool
    ensures { IsTrue result ↔ HasWrongReference (value_of parts.now) (body_value body.now) }
{
    let symbols = parts.symbols.len();
    match body {
        Body::Bits(..) | Body::NoBits(_) => false,
        Body::Relocs {
            target,
            entries,
            ..
        } => is_no_target(parts, *target) || has_symbol_past(symbols, entries),
        Body::Group {
            signature,
            members,
            ..
        } => *signature >= symbols || has_past(parts.sections.len(), members),
    }
}

/// Whether relocations can't apply to the section at this position: it is not there, or has no bits.
fn is_no_target(parts: &ObjectParts<'_>, target: usize) -> bool
    ensures { IsTrue result ↔ IsNoTarget (value_of parts.now) target }
{
    target >= parts.sections.len() || !is_bits(&section_at(parts, target).body)
}

/// Whether the symbol of an entry is not there.
fn has_symbol_past(symbols: usize, entries: &Relocations<'_>) -> bool
    ensures { IsTrue result ↔ Any (λ entry. IsPast symbols entry.symbol) entries.now }
{
    entries.iter().any(|entry| is_past(symbols, entry.symbol))
}

/// Whether info, link, entry size or addends are not those of the flags and the body.
fn has_wrong_field(section: &Section<'_>) -> bool
    ensures { let s = section_value section.now in IsTrue result ↔ HasWrongField s s.body }
{
    match &section.body {
        Body::Bits(..) | Body::NoBits(_) => is_against_flag(section.flags, section.info),
        Body::Relocs { rela: true, .. } => has_link_or_info(section)
            || section.entsize != RELA_SIZE,
        Body::Relocs { entries, .. } => {
            has_link_or_info(section) || section.entsize != REL_SIZE || has_addend(entries)
        }
        Body::Group { .. } => has_link_or_info(section) || section.entsize != WORD_SIZE,
    }
}

/// Whether info is no section's position though the flag `SHF_INFO_LINK` says so, or the other way round.
fn is_against_flag(flags: u64, info: Info) -> bool
    ensures { IsTrue result ↔ IsAgainstFlag flags info }
{
    match info {
        Info::Number(_) => flags & SHF_INFO_LINK != 0,
        Info::Section(_) => flags & SHF_INFO_LINK == 0,
    }
}

/// Whether a section whose body gives link and info a meaning has others besides.
fn has_link_or_info(section: &Section<'_>) -> bool
    ensures { IsTrue result ↔ HasLinkOrInfo (section_value section.now) }
{
    section.link.is_some() || section.info != Info::Number(0)
}

/// Whether an entry has an addend.
fn has_addend(entries: &Relocations<'_>) -> bool
    ensures { IsTrue result ↔ Any (λ entry. entry.addend ≢ pos 0) entries.now }
{
    entries.iter().any(|entry| entry.addend != 0)
}

/// The least position of a section that breaks the rule.
fn lowest_section(parts: &ObjectParts<'_>, rule: SectionRule) -> Option<u64>
    ensures { IsLowest (SomeSection rule (value_of parts.now)) result }
{
    for i in 0..parts.sections.len() {
        if rule.is_broken_by(parts, section_at(parts, i)) {
            return Some(i as u64);
        }
    }
    None
}

/// Rules 1 to 5; what is broken is broken at a position.
#[tactic(auto, unfolding(crate::specs::ObjectRules::object_section_rules))]
pub(crate) fn validate_sections(parts: &ObjectParts<'_>) -> Result<(), Broken<u64>>
    ensures fault { FirstIn (object_section_rules (value_of parts.now)) (fault_of result) }
    ensures number { IfErr result (λ broken. broken.rule ≤ 5) }
{
    if let Some(position) = lowest_section(parts, SectionRule::ZeroInSectionName) {
        return Err(Broken::new(ZERO_IN_SECTION_NAME, position));
    }
    if let Some(position) = lowest_section(parts, SectionRule::WrongBitsType) {
        return Err(Broken::new(WRONG_BITS_TYPE, position));
    }
    if let Some(position) = lowest_section(parts, SectionRule::WrongAlignment) {
        return Err(Broken::new(WRONG_ALIGNMENT, position));
    }
    if let Some(position) = lowest_section(parts, SectionRule::WrongPosition) {
        return Err(Broken::new(WRONG_POSITION, position));
    }
    if let Some(position) = lowest_section(parts, SectionRule::WrongField) {
        return Err(Broken::new(WRONG_FIELD, position));
    }
    Ok(())
}
