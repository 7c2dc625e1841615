//! Section groups (gABI chapter 4, Section Groups).
ghost use Rattle.std.specs.Prelude.{◌≡◌, ◌<◌, IfErr, None, length, slice_index, ◌↔◌, ◌+◌, ◌*◌, ◌%◌, IfOk, IsTrue, OnErr};
ghost use Rattle.elf_image_stream.specs.declared.fault.BytesFault.TheVariants.{OutOfMemory as NoRoom};
ghost use Rattle.elf_image_stream.specs.declared.fault.Fault.TheVariants.{OutOfMemory};
ghost use Rattle.elf_image_rules.specs.Rows.{FirstIn, fault_of};
ghost use Rattle.elf_table_symbols.specs.Verdicts.{IsTestedAfter, IsValidatedAfter, IsOnlyValidatedAfter, OfItsFile};
ghost use Rattle.elf_table_symbols.specs.Sections.{content, order, sections_of, sections_seen, Below, section};
ghost use Rattle.elf_table_lists.specs.Groups.{group_section_front, group_section_rules, MembersAscend, group_of, IsUnfit, IsWrongMember};
ghost use Rattle.elf_table_lists.specs.Groups.{group_front_rules, group_rules, member as member_of, member_count as member_count_of};
ghost use Rattle.elf_table_lists.specs.Left.{members_left};
ghost use Rattle.elf_extent.specs.Extent.{IsLowest};
ghost use Rattle.elf_table_symbols.specs.Symbols.{AreKnown};

use elf_field::Order;
use elf_field::abi::*;
use elf_image_rules::Broken;
use elf_image_stream::{BytesFault, Fault};
use elf_image_type::Image;
use elf_table_symbols::rules::*;
use elf_table_symbols::{
    LinkedTable, SectionsOf, SymbolVerdicts, TableKind, TableSection, validate_own_rules, word,
};
use std::alloc::{AllocError, Global};
use std::collections::BTreeSet;
use std::marker::Model;

/// A section group: its flags, its signature, and the list of its members. It borrows from the bytes of the file.
#[derive(Drop)]
pub struct Group<'a> {
    order: Order,
    signature: u32,
    words: &'a [u8],
}

impl<'a> Model for Group<'a> {
    ghost use Rattle.std.specs.Prelude.{◌≤◌, length};
    ghost use Rattle.elf_field.specs.Abi.{WORD_SIZE};
    ghost use Rattle.elf_table_lists.specs.Groups.{GroupValue, group_in};

    ghost Value = { GroupValue };

    ghost view = { λ a. group_in a.order a.signature a.words.now };

    ghost invariant = { λ a. WORD_SIZE ≤ length a.words.now };
}

impl<'a> Group<'a> {
    /// The group that section `i` holds, where `i` is below the image's count of section headers. It takes memory, for each of
    /// the members, only if they do not ascend.
    ///
    /// [`Fault::Rule`] is the first rule that is broken, at its lowest offset: 40, 42, 43, 44, then all rules of the symbol table that the
    /// section links to, then 55 to 58. [`Fault::OutOfMemory`] comes only if an allocation failed, and none of them but 58 is broken. No
    /// other fault comes.
    ///
    /// Linear in the section headers, the symbols and the members; members that don't ascend take log n comparisons each. The whole symbol
    /// table is validated too, again for each group that links to it. `Tables` of `elf_table` validates each symbol table of an image
    /// once.
    pub fn new(alloc: Global, image: &Image<'a>, i: usize) -> Result<Group<'a>, Fault>
        requires { i < length image.now.sections }
        ensures validated { let f = sections_of image.now in
            IsValidatedAfter (group_section_front f i) (group_section_rules f i) (λ group. group ≡ group_of f i) result }
        ensures file { OfItsFile image.now
            (λ f. IsOnlyValidatedAfter (group_section_front f i) (group_section_rules f i) (λ group. group ≡ group_of f i) result) }
        ensures memory { let f = sections_of image.now in
            IfErr result (λ fault. fault ≡ OutOfMemory → ¬ MembersAscend (order f) (content f i)) }
    {
        image.prove_stands();
        let section = TableSection {
            sections: SectionsOf::Image(image),
            index: i,
        };
        validate_group_section(alloc, section, SymbolVerdicts::Unknown)?;
        Ok(sound_group(image, i))
    }

    /// The group's flags: `GRP_COMDAT`, or 0 for none.
    pub fn flags(&self) -> u32
        ensures { result ≡ self.now.flags }
    {
        word(self.order, self.words, 0)
    }

    /// The index of the symbol whose name is the group's signature, in the symbol table that the section links to.
    pub fn signature(&self) -> u32
        ensures { result ≡ self.now.signature }
    {
        self.signature
    }

    /// How many members there are.
    pub fn len(&self) -> usize
        ensures { result ≡ length self.now.members }
    {
        member_count(self.words)
    }

    /// Member `j`, which is below [`len`](Group::len): the index of a section.
    pub fn entry(&self, j: usize) -> u32
        requires { j < length self.now.members }
        ensures { result ≡ slice_index self.now.members j }
    {
        member(self.order, self.words, j)
    }

    /// The members in order: indexes of sections.
    pub fn iter(&self) -> GroupIter<'_, 'a>
        ensures { members_left result ≡ self.now.members }
    {
        GroupIter {
            group: self,
            next: 0,
        }
    }
}

/// The group in section `i`, which breaks no rule.
pub fn sound_group<'a>(image: &Image<'a>, i: usize) -> Group<'a>
    requires there { i < length image.now.sections }
    requires sound { FirstIn (group_section_rules (sections_of image.now) i) None }
    ensures { result ≡ group_of (sections_of image.now) i }
{
    let section = TableSection {
        sections: SectionsOf::Image(image),
        index: i,
    };
    Group {
        order: section.order(),
        signature: section.header().sh_info,
        words: section.content(),
    }
}

impl<'s, 'a> IntoIterator for &'s Group<'a> {
    type Item = u32;

    type IntoIter = GroupIter<'s, 'a>;

    ghost into_iter_gives = { λ table r. members_left r ≡ table.now.members };

    fn into_iter(self) -> GroupIter<'s, 'a> {
        self.iter()
    }
}

/// The members of a group, in order.
#[derive(Drop)]
pub struct GroupIter<'s, 'a> {
    group: &'s Group<'a>,
    next: usize,
}

impl<'s, 'a> Iterator for GroupIter<'s, 'a> {
    ghost use Rattle.std.specs.Iterator.{YieldsFirst, item_count};
    ghost use Rattle.elf_table_lists.specs.Left.{members_left};

    type Item = u32;

    ghost next_gives = { YieldsFirst members_left };

    ghost remaining = { item_count members_left };

    fn next(&mut self) -> Option<u32> {
        if self.next >= self.group.len() {
            return None;
        }
        let member = self.group.entry(self.next);
        self.next += 1;
        Some(member)
    }
}

// Rules 55 to 58: the flags, the signature and the members of a section group (gABI chapter 4, Section Groups; Sections:
// sh_info, SHF_GROUP).

/// All rules of a section group, by these verdicts on the symbol tables.
///
/// [`BytesFault::Rule`] is the first that is broken, at its lowest offset: 40, 42, 43, 44, then all rules of the symbol table that the
/// section links to, then 55 to 58. [`BytesFault::OutOfMemory`] comes only if an allocation fails; memory is taken only if the members
/// don't ascend and none but 58 is broken.
#[tactic(auto, unfolding(crate::specs::Groups::group_section_rules))]
pub fn validate_group_section(
    alloc: Global,
    table: TableSection<'_, '_>,
    symbols: SymbolVerdicts<'_>,
) -> Result<(), BytesFault>
    requires { AreKnown (sections_seen table.sections) symbols }
    ensures validated { let f = sections_seen table.entry.sections in
        IsTestedAfter (group_section_front f table.entry.index) (group_section_rules f table.entry.index) (λ _. Unit {0}) result }
    ensures memory { let f = sections_seen table.entry.sections in
        IfErr result (λ fault. fault ≡ NoRoom → ¬ MembersAscend (order f) (content f table.entry.index)) }
{
    validate_own_rules(table, TableKind::SectionGroup)?;
    let linked = LinkedTable { table };
    symbols.of(linked)?;
    validate_group(alloc, linked)
}

/// Rules 55 to 58 of a group whose own rules are kept.
fn validate_group(alloc: Global, linked: LinkedTable<'_, '_>) -> Result<(), BytesFault>
    requires typed { (section (sections_seen linked.table.sections) linked.table.index).sh_type ≡ SHT_GROUP }
    requires sized { (section (sections_seen linked.table.sections) linked.table.index).sh_size % WORD_SIZE ≡ 0 }
    ensures validated { let f = sections_seen linked.entry.table.sections in
        IsTestedAfter (group_front_rules f linked.entry.table.index) (group_rules f linked.entry.table.index) (λ _. Unit {0}) result }
    ensures memory { let f = sections_seen linked.entry.table.sections in
        IfErr result (λ fault. fault ≡ NoRoom → ¬ MembersAscend (order f) (content f linked.entry.table.index)) }
{
    validate_group_front(linked)?;
    let wrong = lowest_wrong_member(alloc, linked.table)?;
    match wrong {
        Some(j) => Err(BytesFault::from(Broken::new(WRONG_MEMBER, member_offset(linked.table, j)))),
        None => Ok(()),
    }
}

/// The offset in the file of member `j` of a group.
pub(crate) fn member_offset(table: TableSection<'_, '_>, j: usize) -> u64
    requires { j < member_count_of (content (sections_seen table.sections) table.index) }
    ensures { result ≡ (section (sections_seen table.entry.sections) table.entry.index).sh_offset + WORD_SIZE * (j + 1) }
{
    table.sections.prove_content_inside(table.index);
    table.header().sh_offset + WORD_SIZE * (j as u64 + 1)
}

/// Rules 55 to 57 of a group.
#[tactic(auto, unfolding(crate::specs::Groups::group_front_rules))]
pub(crate) fn validate_group_front(linked: LinkedTable<'_, '_>) -> Result<(), Broken<u64>>
    requires typed { (section (sections_seen linked.table.sections) linked.table.index).sh_type ≡ SHT_GROUP }
    requires sized { (section (sections_seen linked.table.sections) linked.table.index).sh_size % WORD_SIZE ≡ 0 }
    ensures { FirstIn (group_front_rules (sections_seen linked.entry.table.sections) linked.entry.table.index) (fault_of result) }
{
    let table = linked.table;
    let section = table.header();
    let words = table.content();
    let at = table.header_offset();
    if section.sh_size == 0 {
        return Err(Broken::new(EMPTY_GROUP, at + SH_SIZE_AT));
    }
    let flags = word(table.order(), words, 0);
    if flags != 0 && flags != GRP_COMDAT {
        return Err(Broken::new(WRONG_GROUP_FLAGS, section.sh_offset));
    }
    let symbols = linked.linked_content().len() / SYM_SIZE as usize;
    if section.sh_info == 0 || section.sh_info as usize >= symbols {
        return Err(Broken::new(WRONG_SIGNATURE, at + SH_INFO_AT));
    }
    Ok(())
}

/// Rule 58: the lowest member of a group that can't be in it, or is in it twice. A group whose members ascend
/// names none twice; for another one memory is taken for each member, and no more, so that many groups do not take the time of
/// many groups of all sections.
fn lowest_wrong_member(
    alloc: Global,
    table: TableSection<'_, '_>,
) -> Result<Option<usize>, AllocError>
    ensures found { let f = sections_seen table.entry.sections in
        IfOk result (λ found. IsLowest (Below (member_count_of (content f table.entry.index)) (IsWrongMember f table.entry.index)) found) }
    ensures memory { let f = sections_seen table.entry.sections in OnErr result (¬ MembersAscend (order f) (content f table.entry.index)) }
{
    let words = table.content();
    if is_ascending(table.order(), words) {
        return Ok(lowest_unfit(table));
    }
    lowest_unfit_or_repeated(alloc, table)
}

/// The lowest member of a group that can't be in it.
fn lowest_unfit(table: TableSection<'_, '_>) -> Option<usize>
    ensures { let f = sections_seen table.entry.sections in let words = content f table.entry.index in
        IsLowest (Below (member_count_of words) (λ j. IsUnfit f table.entry.index (member_of (order f) words j))) result }
{
    let order = table.order();
    let words = table.content();
    for j in 0..member_count(words) {
        if is_unfit(table, member(order, words, j)) {
            return Some(j);
        }
    }
    None
}

/// The lowest member of a group that can't be in it, or is in it twice.
fn lowest_unfit_or_repeated(
    alloc: Global,
    table: TableSection<'_, '_>,
) -> Result<Option<usize>, AllocError>
    ensures { let f = sections_seen table.entry.sections in
        IfOk result (λ found. IsLowest (Below (member_count_of (content f table.entry.index)) (IsWrongMember f table.entry.index)) found) }
{
    let order = table.order();
    let words = table.content();
    let mut seen = BTreeSet::new(alloc);
    for j in 0..member_count(words) {
        let member = member(order, words, j);
        if is_unfit(table, member) || !seen.insert(member)? {
            return Ok(Some(j));
        }
    }
    Ok(None)
}

/// Whether section `member` can't be in this group.
pub(crate) fn is_unfit(table: TableSection<'_, '_>, member: u32) -> bool
    ensures { IsTrue result ↔ IsUnfit (sections_seen table.entry.sections) table.entry.index member }
{
    let sections = table.sections;
    let m = member as usize;
    m <= table.index
        || m >= sections.section_count()
        || sections.section(m).sh_flags & SHF_GROUP == 0
}

/// Whether each member of a group of this content is above the one before it.
fn is_ascending(order: Order, words: &[u8]) -> bool
    ensures { IsTrue result ↔ MembersAscend order words.now }
{
    for j in 1..member_count(words) {
        if member(order, words, j) <= member(order, words, j - 1) {
            return false;
        }
    }
    true
}

/// How many members a group of this content has: a word for each, after the word of flags.
pub fn member_count(words: &[u8]) -> usize
    ensures { result ≡ member_count_of words.now }
{
    (words.len() / WORD_SIZE as usize).saturating_sub(1)
}

/// Member `j` of a group of this content, which is below [`member_count`]: the index of a section.
pub fn member(order: Order, words: &[u8], j: usize) -> u32
    requires { j < member_count_of words.now }
    ensures { result ≡ member_of order words.now j }
{
    word(order, words, j + 1)
}
