//! The rules of a file that is read as an object: 70 to 74, then those of its tables with 75 to 79, in their order.
//!
//! Rule 77 marks the members of earlier groups in one pass, which is linear in all groups.
ghost use Rattle.std.specs.Prelude.{◌≡◌, ◌↔◌, IsTrue, ◌<◌, ◌+◌, IfOk, ◌≤◌, ◌*◌, [], length};
ghost use Rattle.elf_extent.specs.Extent.{IsLowest, lower_of};
ghost use Rattle.elf_object_reader.specs.FileRules.{IsForeignType, foreign_section, front_rules, second_symbol_table, stray_index_table};
ghost use Rattle.elf_object_reader.specs.FileRules.{BreaksReference, HasWrongKeptInfo, HasWrongKeptLink, HasWrongRelocationTarget, IsPlain};
ghost use Rattle.elf_object_reader.specs.FileRules.{SomeReference, reference_field, sections_of_file, IsMemberBefore, IsWrongGroupMember};
ghost use Rattle.elf_object_reader.specs.FileRules.{wrong_group_member, wrong_group_member_of, AreMarks, IsSymbolOutside, reference_rules};
ghost use Rattle.elf_object_reader.specs.FileRules.{rules_after_front, rules_of_bodies, rules_of_body, symbol_outside, symbol_rules_in};
ghost use Rattle.elf_object_layout.specs.SectionsLeftOut.{symbol_table as symbol_table_of};
ghost use Rattle.elf_object_reader.specs.Denotes.{body_kind, kept};
ghost use Rattle.elf_image_rules.specs.Rows.{fault_of, FirstIn};
ghost use Rattle.elf_table_symbols.specs.Sections.{sections_of, count, content, section};
ghost use Rattle.elf_table_symbols.specs.Verdicts.{IsTestedAfter};

use crate::object_file::{BodyKind, FileSection, FileSymbols, ObjectFile};
use crate::rules::*;
use elf_field::abi::*;
use elf_image_rules::Broken;
use elf_image_stream::BytesFault;
use elf_image_type::Image;
use elf_table_all::{Place, member, member_count};
use std::alloc::{AllocError, Global};

// Rules 70 to 74: the header of a file that is an object, and which sections it has (gABI chapter 4, ELF Header, Sections).

/// Whether no object has a section of this type.
fn is_foreign_type(section_type: u32) -> bool
    ensures { IsTrue result ↔ IsForeignType section_type }
{
    section_type == SHT_HASH
        || section_type == SHT_DYNAMIC
        || section_type == SHT_SHLIB
        || section_type == SHT_DYNSYM
}

/// The lowest offset of a type that no object has.
fn lowest_foreign_section(image: &Image<'_>) -> Option<u64>
    ensures { IsLowest (foreign_section (sections_of image.now)) result }
{
    for i in 0..image.section_count() {
        if is_foreign_type(image.section(i).sh_type) {
            return Some(image.header_offset(i) + SH_TYPE_AT);
        }
    }
    None
}

/// The lowest offset of the type of a symbol table after another.
fn lowest_second_symbol_table(image: &Image<'_>) -> Option<u64>
    ensures { IsLowest (second_symbol_table (sections_of image.now)) result }
{
    let mut found = false;
    for i in 0..image.section_count() {
        let here = image.section(i).sh_type == SHT_SYMTAB;
        if here && found {
            return Some(image.header_offset(i) + SH_TYPE_AT);
        }
        found = found || here;
    }
    None
}

/// The lowest offset of the link of an index table that is not linked to the symbol table.
fn lowest_stray_index_table(image: &Image<'_>, symbol_table: Option<usize>) -> Option<u64>
    requires { symbol_table ≡ symbol_table_of (sections_of image.now) }
    ensures { IsLowest (stray_index_table (sections_of image.now)) result }
{
    for i in 0..image.section_count() {
        let section = image.section(i);
        if section.sh_type == SHT_SYMTAB_SHNDX && symbol_table != Some(section.sh_link as usize) {
            return Some(image.header_offset(i) + SH_LINK_AT);
        }
    }
    None
}

/// Rules 70 to 74 of an image with this symbol table.
#[tactic(auto, unfolding(crate::specs::FileRules::front_rules))]
pub(crate) fn validate_front(
    image: &Image<'_>,
    symbol_table: Option<usize>,
) -> Result<(), Broken<u64>>
    requires { symbol_table ≡ symbol_table_of (sections_of image.now) }
    ensures { FirstIn (front_rules (sections_of image.now)) (fault_of result) }
{
    let header = image.header();
    if header.e_type != ET_REL {
        return Err(Broken::new(NOT_RELOCATABLE, E_TYPE_AT));
    }
    if header.e_entry != 0 {
        return Err(Broken::new(LOADABLE, E_ENTRY_AT));
    }
    if header.e_phnum != 0 {
        return Err(Broken::new(LOADABLE, E_PHNUM_AT));
    }
    if let Some(at) = lowest_foreign_section(image) {
        return Err(Broken::new(FOREIGN_SECTION, at));
    }
    if let Some(at) = lowest_second_symbol_table(image) {
        return Err(Broken::new(SECOND_SYMBOL_TABLE, at));
    }
    if let Some(at) = lowest_stray_index_table(image, symbol_table) {
        return Err(Broken::new(STRAY_INDEX_TABLE, at));
    }
    Ok(())
}

// Rules 76, 78 and 79: the references from one section of a file to another (gABI chapter 4, Sections: sh_link, sh_info).

/// A rule on the references of one section.
#[derive(Clone, Copy)]
pub(crate) enum ReferenceRule {
    /// Rule 76, [`WRONG_RELOCATION_TARGET`](crate::rules::WRONG_RELOCATION_TARGET).
    WrongRelocationTarget,
    /// Rule 78, [`WRONG_KEPT_LINK`](crate::rules::WRONG_KEPT_LINK).
    WrongKeptLink,
    /// Rule 79, [`WRONG_KEPT_INFO`](crate::rules::WRONG_KEPT_INFO).
    WrongKeptInfo,
}

impl ReferenceRule {
    /// Whether the section breaks the rule.
    fn is_broken_by(self, section: &FileSection<'_, '_, '_>) -> bool
        ensures { let file = section.now.file.now in
            IsTrue result ↔ BreaksReference self file.left (sections_of_file file) section.now.index }
    {
        match self {
            ReferenceRule::WrongRelocationTarget => section.has_wrong_relocation_target(),
            ReferenceRule::WrongKeptLink => section.has_wrong_kept_link(),
            ReferenceRule::WrongKeptInfo => section.has_wrong_kept_info(),
        }
    }

    /// The offset in the section header of the field at which the rule is broken.
    fn field(self) -> u64
        ensures value { result ≡ reference_field self }
        ensures inside { result < SHDR_SIZE }
    {
        match self {
            ReferenceRule::WrongRelocationTarget | ReferenceRule::WrongKeptInfo => SH_INFO_AT,
            ReferenceRule::WrongKeptLink => SH_LINK_AT,
        }
    }
}

impl<'f, 'i, 'a> FileSection<'f, 'i, 'a> {
    /// Whether it has relocations that apply to no section with bits.
    fn has_wrong_relocation_target(&self) -> bool
        ensures { let file = self.now.file.now in
            IsTrue result ↔ HasWrongRelocationTarget file.left (sections_of_file file) self.now.index }
    {
        let target = self.header.sh_info as usize;
        BodyKind::of(self.header.sh_type) == BodyKind::Relocs
            && !(self.file.is_kept(target)
                && BodyKind::of(self.file.image.section(target).sh_type) == BodyKind::Bits)
    }

    /// Whether it is kept, and has neither relocations nor members.
    fn is_plain(&self) -> bool
        ensures { let file = self.now.file.now in IsTrue result ↔ IsPlain file.left (sections_of_file file) self.now.index }
    {
        let kind = BodyKind::of(self.header.sh_type);
        self.file.is_kept(self.index) && (kind == BodyKind::Bits || kind == BodyKind::NoBits)
    }

    /// Whether it is plain and links to one that is left out, or is not there.
    fn has_wrong_kept_link(&self) -> bool
        ensures { let file = self.now.file.now in IsTrue result ↔ HasWrongKeptLink file.left (sections_of_file file) self.now.index }
    {
        let link = self.header.sh_link as usize;
        self.is_plain() && (link != 0 && !self.file.is_kept(link))
    }

    /// Whether it is plain and has the flag `SHF_INFO_LINK`, and its info is the index of one that is left out, or is not there.
    fn has_wrong_kept_info(&self) -> bool
        ensures { let file = self.now.file.now in IsTrue result ↔ HasWrongKeptInfo file.left (sections_of_file file) self.now.index }
    {
        let info = self.header.sh_info as usize;
        self.is_plain() && (self.header.sh_flags & SHF_INFO_LINK != 0 && !self.file.is_kept(info))
    }
}

impl<'i, 'a> ObjectFile<'i, 'a> {
    /// The lowest offset in the file at which a section breaks the rule.
    pub(crate) fn lowest_reference(&self, rule: ReferenceRule) -> Option<u64>
        ensures { IsLowest (SomeReference rule self.now.left (sections_of_file self.now)) result }
    {
        for i in 0..self.image.section_count() {
            if rule.is_broken_by(&self.section(i)) {
                return Some(self.image.header_offset(i) + rule.field());
            }
        }
        None
    }
}

// Rule 77: the members of the section groups of a file (gABI chapter 4, Section Groups).

impl<'i, 'a> ObjectFile<'i, 'a> {
    /// The lowest offset of a member that is left out, or a group itself, or a member of a group before. It takes a mark for each
    /// section, and the time of one pass over all members.
    pub(crate) fn lowest_wrong_group_member(&self, alloc: Global) -> Result<Option<u64>, AllocError>
        ensures { IfOk result (IsLowest (wrong_group_member self.now.left (sections_of_file self.now))) }
    {
        let mut marks = vec![in alloc; false; self.image.section_count()]?;
        let mut lowest = None;
        for i in 0..self.image.section_count() {
            let section = self.section(i);
            if section.header.sh_type == SHT_GROUP {
                lowest = lower(lowest, section.lowest_wrong_member(&marks));
                section.mark_members(&mut marks);
            }
        }
        Ok(lowest)
    }
}

impl<'f, 'i, 'a> FileSection<'f, 'i, 'a> {
    /// The lowest offset of such a member of the group that it holds; those of the groups before are marked.
    fn lowest_wrong_member(&self, marks: &Vec<bool>) -> Option<u64>
        requires typed { self.now.header.sh_type ≡ SHT_GROUP }
        requires marked { let f = sections_of_file self.now.file.now in
            AreMarks (count f) (IsMemberBefore f self.now.index) marks.now.items }
        ensures { let file = self.now.file.now in IsLowest (wrong_group_member_of file.left (sections_of_file file) self.now.index) result }
    {
        let image = self.file.image;
        let words = image.content(self.index);
        for j in 0..member_count(words) {
            let m = member(image.order(), words, j) as usize;
            if self.is_wrong_member(m, marks) {
                return Some(image.content_offset(self.index) + WORD_SIZE * (j as u64 + 1));
            }
        }
        None
    }

    /// Whether section `m` can't be a member of the group that it holds; the members of the groups before are marked.
    fn is_wrong_member(&self, m: usize, marks: &Vec<bool>) -> bool
        requires { let f = sections_of_file self.now.file.now in AreMarks (count f) (IsMemberBefore f self.now.index) marks.now.items }
        ensures { let file = self.now.file.now in IsTrue result ↔ IsWrongGroupMember file.left (sections_of_file file) self.now.index m }
    {
        let file = self.file;
        if !file.is_kept(m) {
            return true;
        }
        file.image.section(m).sh_type == SHT_GROUP || marks[m]
    }

    /// Marks the members of the group that it holds, beside those of the groups before.
    fn mark_members(&self, marks: &mut Vec<bool>)
        requires typed { self.now.header.sh_type ≡ SHT_GROUP }
        requires marked { let f = sections_of_file self.now.file.now in
            AreMarks (count f) (IsMemberBefore f self.now.index) marks.old.items }
        ensures { let f = sections_of_file self.now.file.now in AreMarks (count f) (IsMemberBefore f (self.now.index + 1)) marks.new.items }
    {
        let image = self.file.image;
        let words = image.content(self.index);
        for j in 0..member_count(words) {
            let m = member(image.order(), words, j) as usize;
            if m < marks.len() {
                marks[m] = true;
            }
        }
    }
}

/// The lower one of two offsets.
fn lower(a: Option<u64>, b: Option<u64>) -> Option<u64>
    ensures { result ≡ lower_of a b }
{
    match (a, b) {
        (Some(x), Some(y)) => Some(x.min(y)),
        (Some(x), None) => Some(x),
        (None, other) => other,
    }
}

// The rules of a file that is read as an object after 70 to 74, in their order: those of the symbol table and 75, those of each relocation
// section and group that is kept, and 76 to 79.

impl<'i, 'a> ObjectFile<'i, 'a> {
    /// All rules of the image as an object but 70 to 74, by the verdicts on its tables.
    pub(crate) fn validate(&self, alloc: Global) -> Result<(), BytesFault>
        ensures { let left = self.now.left in
            IsTestedAfter [] (rules_after_front left (sections_of_file self.now) left.symbol_table) (λ _. Unit {0}) result }
    {
        self.validate_symbols()?;
        self.validate_bodies()?;
        self.validate_references(alloc)
    }

    /// The rules of the symbol table, where there is one, and rule 75.
    fn validate_symbols(&self) -> Result<(), Broken<u64>>
        ensures { FirstIn (symbol_rules_in self.now.left (sections_of_file self.now) self.now.left.symbol_table) (fault_of result) }
    {
        let Some(t) = self.left.symbol_table else {
            return Ok(());
        };
        self.tables.verdict(t)?;
        let symbols = FileSymbols {
            file: self,
            index: t,
            entries: self.tables.symbols(t),
        };
        match symbols.lowest_outside() {
            Some(at) => Err(Broken::new(SYMBOL_OUTSIDE, at)),
            None => Ok(()),
        }
    }

    /// Whether no symbol of an object can be defined at this place: in a section that is left out, or at a reserved index that has
    /// no meaning here.
    fn is_symbol_outside(&self, place: Place) -> bool
        ensures { IsTrue result ↔ IsSymbolOutside self.now.left (sections_of_file self.now) place }
    {
        match place {
            Place::Undefined | Place::Absolute | Place::Common => false,
            Place::Reserved(_) => true,
            Place::Section(k) => !self.is_kept(k as usize),
        }
    }

    /// The rules of each relocation section and each group that is kept, in the order of their indexes.
    fn validate_bodies(&self) -> Result<(), Broken<u64>>
        ensures { let f = sections_of_file self.now in FirstIn (rules_of_bodies f (kept self.now.left f)) (fault_of result) }
    {
        for i in 0..self.image.section_count() {
            if self.is_kept(i) {
                self.section(i).validate_body()?;
            }
        }
        Ok(())
    }

    /// Rules 76 to 79.
    #[tactic(auto, unfolding(crate::specs::FileRules::reference_rules))]
    fn validate_references(&self, alloc: Global) -> Result<(), BytesFault>
        ensures { IsTestedAfter [] (reference_rules self.now.left (sections_of_file self.now)) (λ _. Unit {0}) result }
    {
        if let Some(at) = self.lowest_reference(ReferenceRule::WrongRelocationTarget) {
            return Err(BytesFault::from(Broken::new(WRONG_RELOCATION_TARGET, at)));
        }
        if let Some(at) = self.lowest_wrong_group_member(alloc)? {
            return Err(BytesFault::from(Broken::new(WRONG_GROUP_MEMBER, at)));
        }
        if let Some(at) = self.lowest_reference(ReferenceRule::WrongKeptLink) {
            return Err(BytesFault::from(Broken::new(WRONG_KEPT_LINK, at)));
        }
        if let Some(at) = self.lowest_reference(ReferenceRule::WrongKeptInfo) {
            return Err(BytesFault::from(Broken::new(WRONG_KEPT_INFO, at)));
        }
        Ok(())
    }
}

impl<'f, 'i, 'a> FileSection<'f, 'i, 'a> {
    /// The rules of its relocations or its group; none if it has neither.
    fn validate_body(&self) -> Result<(), Broken<u64>>
        ensures { let f = sections_of_file self.now.file.now in let i = self.now.index in
            FirstIn (rules_of_body (body_kind (section f i).sh_type) f i) (fault_of result) }
    {
        match BodyKind::of(self.header.sh_type) {
            BodyKind::Relocs | BodyKind::Group => self.file.tables.verdict(self.index),
            BodyKind::Bits | BodyKind::NoBits => Ok(()),
        }
    }
}

impl<'f, 'i, 'a> FileSymbols<'f, 'i, 'a> {
    /// The lowest offset of the section index of a symbol that an object can't have.
    fn lowest_outside(&self) -> Option<u64>
        ensures { let file = self.now.file.now in IsLowest (symbol_outside file.left (sections_of_file file) self.now.index) result }
    {
        for j in 0..self.entries.len() {
            if self.file.is_symbol_outside(self.entries.place(j)) {
                return Some(self.section_index_offset(j));
            }
        }
        None
    }

    /// The offset in the file of the section index of symbol `j`.
    fn section_index_offset(&self, j: usize) -> u64
        requires { SYM_SIZE * j + SYM_SIZE ≤ length (content (sections_of_file self.now.file.now) self.now.index) }
        ensures { result ≡ (section (sections_of_file self.now.file.now) self.now.index).sh_offset + SYM_SIZE * j + ST_SHNDX_AT }
    {
        let file = self.file;
        file.image.prove_content_inside(self.index);
        file.image.content_offset(self.index) + SYM_SIZE * j as u64 + ST_SHNDX_AT
    }
}
