//! Section groups without memory: each member is marked in a word that the caller lends (gABI chapter 4, Section Groups).
ghost use Rattle.std.specs.Prelude.{◌≡◌, ◌≤◌, ◌+◌, ◌%◌, length};
ghost use Rattle.elf_extent.specs.Extent.{IsLowest};
ghost use Rattle.elf_image_rules.specs.Rows.{fault_of, FirstIn};
ghost use Rattle.elf_table_symbols.specs.Sections.{content, count, section, sections_seen, Below};
ghost use Rattle.elf_table_symbols.specs.Symbols.{AreKnown};
ghost use Rattle.elf_table_lists.specs.Groups.{AreMarksUpTo, IsWrongMember, group_rules, group_section_rules};
ghost use Rattle.elf_table_lists.specs.Groups.{member_count as member_count_of};

use crate::group::{is_unfit, member, member_count, member_offset, validate_group_front};
use elf_field::abi::*;
use elf_image_rules::Broken;
use elf_table_symbols::rules::*;
use elf_table_symbols::{LinkedTable, SymbolVerdicts, TableKind, TableSection, validate_own_rules};

/// All rules of a section group, by these verdicts on the symbol tables: 40, 42, 43, 44, then all rules of the symbol table that the
/// section links to, then 55 to 58. [`Broken`] is the first that is broken, at its lowest offset.
///
/// It takes a word for each section, none of which is above the group's index. Afterwards none is above the next index: so the groups of
/// a file are tested in the order of their sections with the same words, which begin as zeros.
#[tactic(auto, unfolding(crate::specs::Groups::group_section_rules))]
pub fn validate_group_section_in(
    table: TableSection<'_, '_>,
    symbols: SymbolVerdicts<'_>,
    marks: &mut [u32],
) -> Result<(), Broken<u64>>
    requires known { AreKnown (sections_seen table.sections) symbols }
    requires long { count (sections_seen table.sections) ≤ length marks.old }
    requires marks { AreMarksUpTo table.index marks.old }
    ensures fault { FirstIn (group_section_rules (sections_seen table.entry.sections) table.entry.index) (fault_of result) }
    ensures long { length marks.new ≡ length marks.old }
    ensures marks { AreMarksUpTo (table.entry.index + 1) marks.new }
{
    validate_own_rules(table, TableKind::SectionGroup)?;
    let linked = LinkedTable { table };
    symbols.of(linked)?;
    validate_group_in(linked, marks)
}

// Rules 55 to 58 of a group whose own rules are kept.
#[tactic(auto, unfolding(crate::specs::Groups::group_rules))]
fn validate_group_in(linked: LinkedTable<'_, '_>, marks: &mut [u32]) -> Result<(), Broken<u64>>
    requires typed { (section (sections_seen linked.table.sections) linked.table.index).sh_type ≡ SHT_GROUP }
    requires sized { (section (sections_seen linked.table.sections) linked.table.index).sh_size % WORD_SIZE ≡ 0 }
    requires long { count (sections_seen linked.table.sections) ≤ length marks.old }
    requires marks { AreMarksUpTo linked.table.index marks.old }
    ensures fault { FirstIn (group_rules (sections_seen linked.entry.table.sections) linked.entry.table.index) (fault_of result) }
    ensures long { length marks.new ≡ length marks.old }
    ensures marks { AreMarksUpTo (linked.entry.table.index + 1) marks.new }
{
    validate_group_front(linked)?;
    match lowest_unfit_or_marked(linked.table, marks) {
        Some(j) => Err(Broken::new(WRONG_MEMBER, member_offset(linked.table, j))),
        None => Ok(()),
    }
}

// Rule 58: the lowest member of a group that can't be in it, or is in it twice. A member's mark is the index after the group's.
fn lowest_unfit_or_marked(table: TableSection<'_, '_>, marks: &mut [u32]) -> Option<usize>
    requires long { count (sections_seen table.sections) ≤ length marks.old }
    requires marks { AreMarksUpTo table.index marks.old }
    ensures found { let f = sections_seen table.entry.sections in
        IsLowest (Below (member_count_of (content f table.entry.index)) (IsWrongMember f table.entry.index)) result }
    ensures long { length marks.new ≡ length marks.old }
    ensures marks { AreMarksUpTo (table.entry.index + 1) marks.new }
{
    let order = table.order();
    let words = table.content();
    let mark = mark_of(table);
    for j in 0..member_count(words) {
        let member = member(order, words, j);
        if is_unfit(table, member) || marks[member as usize] == mark {
            return Some(j);
        }
        marks[member as usize] = mark;
    }
    None
}

// The mark of a group's members.
fn mark_of(table: TableSection<'_, '_>) -> u32
    ensures { result ≡ table.entry.index + 1 }
{
    // Its section header lies in a file of at most 2^30 bytes.
    let _ = table.header_offset();
    table.index as u32 + 1
}
