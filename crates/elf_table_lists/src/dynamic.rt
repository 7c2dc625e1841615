//! Dynamic sections (gABI chapter 5, Dynamic Section).
ghost use Rattle.std.specs.Prelude.{◌≡◌, ◌<◌, ◌≤◌, ℕ, ◌+◌, ◌*◌, length, None, get_or};
ghost use Rattle.elf_table_lists.specs.Dynamic.{IsNullEntry, dynamic_entry as dynamic_entry_of};
ghost use Rattle.elf_table_lists.specs.Dynamic.{dynamic_entry_count as dynamic_entry_count_of, is_string_tag as is_string_tag_of};
ghost use Rattle.elf_table_lists.specs.Dynamic.{IsDynamicStringPastEnd, dynamic_rules, dynamic_section_rules, dynamic_array_of};
ghost use Rattle.elf_table_lists.specs.Dynamic.{no_dynamic_entry};
ghost use Rattle.elf_extent.specs.Extent.{IsLowest};
ghost use Rattle.elf_image_rules.specs.Rows.{fault_of, AtEntry, FirstIn};
ghost use Rattle.elf_image_rules.specs.Rules.{MAX_LEN};
ghost use Rattle.elf_table_symbols.specs.Sections.{sections_of, sections_seen};
ghost use Rattle.elf_table_symbols.specs.Verdicts.{IsValidated, IsOnlyValidated, OfItsFile};
ghost use Rattle.elf_table_lists.specs.Left.{dynamic_left};

use elf_field::abi::*;
use elf_field::{Dyn, Order, get_at};
use elf_image_rules::Broken;
use elf_image_stream::Fault;
use elf_image_type::Image;
use elf_table_symbols::rules::*;
use elf_table_symbols::{
    LinkedTable, SectionsOf, TableKind, TableSection, validate_linked_strings, validate_own_rules,
};
use std::marker::Model;

// The entries of a dynamic section (gABI chapter 5, Dynamic Section).

/// How many entries a content has.
pub fn dynamic_entry_count(table: &[u8]) -> usize
    ensures { result ≡ dynamic_entry_count_of table.now }
{
    table.len() / DYN_SIZE as usize
}

/// Entry `j` of a content.
#[tactic(auto, unfolding(crate::specs::Dynamic::dynamic_entry))]
pub fn dynamic_entry(order: Order, table: &[u8], j: usize) -> Dyn
    requires { j < dynamic_entry_count_of table.now }
    ensures { result ≡ dynamic_entry_of order table.now j }
{
    get_at(order, table, DYN_SIZE as usize * j)
}

/// The index of the first entry of tag DT_NULL; the number of entries where there is none.
pub fn first_null_entry(order: Order, table: &[u8]) -> usize
    ensures within { result ≤ dynamic_entry_count_of table.now }
    ensures before { (k : ℕ) → k < result → IsNullEntry (dynamic_entry_of order table.now k) → ⊥ }
    ensures found { result < dynamic_entry_count_of table.now → IsNullEntry (dynamic_entry_of order table.now result) }
{
    for j in 0..dynamic_entry_count(table) {
        if dynamic_entry(order, table, j).d_tag == DT_NULL {
            return j;
        }
    }
    dynamic_entry_count(table)
}

/// Whether the value of an entry with this tag is the offset of a string: NEEDED, SONAME, RPATH and RUNPATH.
pub fn is_string_tag(tag: i64) -> bool
    ensures { result ≡ is_string_tag_of tag }
{
    tag == DT_NEEDED || tag == DT_SONAME || tag == DT_RPATH || tag == DT_RUNPATH
}

// Rules 63 and 64: the end and the strings of a dynamic array (gABI chapter 5, Dynamic Section).

/// All rules of a dynamic section. [`Broken`] is the first that is broken, at its lowest offset: 40, 42, 43, 44, then 41 of the
/// string table that the section links to, then 63 and 64.
#[tactic(auto, unfolding(crate::specs::Dynamic::dynamic_section_rules))]
pub fn validate_dynamic_section(table: TableSection<'_, '_>) -> Result<(), Broken<u64>>
    ensures { FirstIn (dynamic_section_rules (sections_seen table.entry.sections) table.entry.index) (fault_of result) }
{
    validate_own_rules(table, TableKind::DynamicArray)?;
    let linked = LinkedTable { table };
    validate_linked_strings(linked.linked_content(), linked.linked_header().sh_offset)?;
    validate_dynamic_array(linked)
}

/// Rules 63 and 64 of a dynamic section.
#[tactic(auto, unfolding(crate::specs::Dynamic::dynamic_rules))]
fn validate_dynamic_array(linked: LinkedTable<'_, '_>) -> Result<(), Broken<u64>>
    ensures { FirstIn (dynamic_rules (sections_seen linked.entry.table.sections) linked.entry.table.index) (fault_of result) }
{
    let order = linked.table.order();
    let content = linked.table.content();
    let end = first_null_entry(order, content);
    if end == dynamic_entry_count(content) {
        let at = linked.table.header_offset() + SH_SIZE_AT;
        return Err(Broken::new(NO_NULL_ENTRY, at));
    }
    let start = linked.table.header().sh_offset;
    let size = linked.linked_content().len();
    match lowest_dynamic_string_past_end(order, content, start, end, size) {
        Some(at) => Err(Broken::new(DYNAMIC_STRING_PAST_END, at)),
        None => Ok(()),
    }
}

/// The lowest offset in the file at which one of the first `end` entries, of a content at `start`, names a string that begins after a
/// string table of this size.
fn lowest_dynamic_string_past_end(
    order: Order,
    table: &[u8],
    start: u64,
    end: usize,
    size: usize,
) -> Option<u64>
    requires inside { 0 < length table.now → start + length table.now ≤ MAX_LEN }
    requires within { end ≤ dynamic_entry_count_of table.now }
    ensures { IsLowest (AtEntry end (λ j. IsDynamicStringPastEnd size (dynamic_entry_of order table.now j))
        (λ j. start + DYN_SIZE * j + D_UN_AT)) result }
{
    for j in 0..end {
        let entry = dynamic_entry(order, table, j);
        if is_string_tag(entry.d_tag) && entry.d_un >= size as u64 {
            return Some(start + DYN_SIZE * j as u64 + D_UN_AT);
        }
    }
    None
}

/// The dynamic array of a dynamic section: the list of its entries, which end before the first of tag `DT_NULL`. It borrows
/// from the bytes of the file.
#[derive(Drop)]
pub struct Dynamic<'a> {
    order: Order,
    table: &'a [u8],
    // The index of the first entry of tag DT_NULL.
    end: usize,
}

impl<'a> Model for Dynamic<'a> {
    ghost use Rattle.std.specs.Prelude.{◌≤◌, List};
    ghost use Rattle.elf_field.specs.declared.dynamic.Dyn.{Dyn};
    ghost use Rattle.elf_table_lists.specs.Dynamic.{dynamic_entries, dynamic_entry_count};

    ghost Value = { List Dyn };

    ghost view = { λ a. dynamic_entries a.order a.table.now a.end };

    ghost invariant = { λ a. a.end ≤ dynamic_entry_count a.table.now };
}

impl<'a> Dynamic<'a> {
    /// The dynamic array that section `i` holds, where `i` is below the image's count of section headers. It takes no memory.
    ///
    /// [`Fault::Rule`] is the first rule that is broken, at its lowest offset: 40, 42, 43, 44, then 41 of the string table that
    /// the section links to, then 63 and 64. No other fault comes. Linear in the entries; of the strings only the first and the last byte
    /// are looked at.
    pub fn new(image: &Image<'a>, i: usize) -> Result<Dynamic<'a>, Fault>
        requires { i < length image.now.sections }
        ensures validated { IsValidated (dynamic_section_rules (sections_of image.now) i)
            (λ dynamic. dynamic ≡ dynamic_array_of (sections_of image.now) i) result }
        ensures file { OfItsFile image.now
            (λ f. IsOnlyValidated (dynamic_section_rules f i) (λ dynamic. dynamic ≡ dynamic_array_of f i) result) }
    {
        image.prove_stands();
        validate_dynamic_section(TableSection {
            sections: SectionsOf::Image(image),
            index: i,
        })?;
        Ok(sound_dynamic(image, i))
    }

    /// How many entries there are before the first of tag `DT_NULL`.
    pub fn len(&self) -> usize
        ensures { result ≡ length self.now }
    {
        self.end
    }

    /// Entry `j`, which is below [`len`](Dynamic::len).
    pub fn entry(&self, j: usize) -> Dyn
        requires { j < length self.now }
        ensures { result ≡ get_or self.now j no_dynamic_entry }
    {
        dynamic_entry(self.order, self.table, j)
    }

    /// The entries in order.
    pub fn iter(&self) -> DynamicIter<'_, 'a>
        ensures { dynamic_left result ≡ self.now }
    {
        DynamicIter {
            dynamic: self,
            next: 0,
        }
    }
}

/// The dynamic array in section `i`, which breaks no rule. Linear in the entries; it takes no memory.
pub fn sound_dynamic<'a>(image: &Image<'a>, i: usize) -> Dynamic<'a>
    requires there { i < length image.now.sections }
    requires sound { FirstIn (dynamic_section_rules (sections_of image.now) i) None }
    ensures { result ≡ dynamic_array_of (sections_of image.now) i }
{
    let section = TableSection {
        sections: SectionsOf::Image(image),
        index: i,
    };
    let order = section.order();
    let table = section.content();
    let end = first_null_entry(order, table);
    Dynamic { order, table, end }
}

impl<'s, 'a> IntoIterator for &'s Dynamic<'a> {
    type Item = Dyn;

    type IntoIter = DynamicIter<'s, 'a>;

    ghost into_iter_gives = { λ table r. dynamic_left r ≡ table.now };

    fn into_iter(self) -> DynamicIter<'s, 'a> {
        self.iter()
    }
}

/// The entries of a dynamic array, in order.
#[derive(Drop)]
pub struct DynamicIter<'s, 'a> {
    dynamic: &'s Dynamic<'a>,
    next: usize,
}

impl<'s, 'a> Iterator for DynamicIter<'s, 'a> {
    ghost use Rattle.std.specs.Iterator.{YieldsFirst, item_count};
    ghost use Rattle.elf_table_lists.specs.Left.{dynamic_left};

    type Item = Dyn;

    ghost next_gives = { YieldsFirst dynamic_left };

    ghost remaining = { item_count dynamic_left };

    fn next(&mut self) -> Option<Dyn> {
        if self.next >= self.dynamic.len() {
            return None;
        }
        let entry = self.dynamic.entry(self.next);
        self.next += 1;
        Some(entry)
    }
}
