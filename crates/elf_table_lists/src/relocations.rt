//! Relocation sections: their entries, and rules 41 to 45. (gABI chapter 4, Relocation.)
ghost use Rattle.std.specs.Prelude.{◌≡◌, ◌<◌, ◌≤◌, ◌+◌, ◌*◌, length, ◌==◌, get_or};
ghost use Rattle.elf_field.specs.Abi.{relocation_size};
ghost use Rattle.elf_image_rules.specs.Rules.{MAX_LEN};
ghost use Rattle.elf_table_lists.specs.Relocations.{relocation_count as relocation_count_of, relocation_in, relocation_entry_rules};
ghost use Rattle.elf_table_lists.specs.Relocations.{relocation_section_rules, no_relocation_entry, relocations_of};
ghost use Rattle.elf_extent.specs.Extent.{IsLowest};
ghost use Rattle.elf_image_rules.specs.Rows.{fault_of, AtEntry, FirstIn};
ghost use Rattle.elf_table_symbols.specs.Symbols.{AreKnown};
ghost use Rattle.elf_table_symbols.specs.Sections.{sections_of, sections_seen};
ghost use Rattle.elf_table_symbols.specs.Verdicts.{IsValidated, IsOnlyValidated, OfItsFile};
ghost use Rattle.elf_table_lists.specs.Left.{relocs_left};

use elf_field::abi::*;
use elf_field::{Order, Rel, Rela, get_at};
use elf_image_rules::Broken;
use elf_image_stream::Fault;
use elf_image_type::Image;
use elf_table_symbols::rules::*;
use elf_table_symbols::{
    LinkedTable, SectionsOf, SymbolVerdicts, TableKind, TableSection, validate_own_rules,
};
use std::marker::Model;

// A relocation (gABI chapter 4, Relocation).

/// A relocation of a relocation section.
#[derive(Clone, Copy, Debug, PartialEq, Eq)]
pub struct Relocation {
    /// Where it applies: in a relocatable file the offset in the target section, in bytes.
    pub offset: u64,
    /// The index of the symbol in the symbol table that the section links to.
    pub symbol: u32,
    /// The type, whose meaning is the processor's.
    pub relocation_type: u32,
    /// The constant that is added; None in a section of type REL, where it is in the bytes that are relocated.
    pub addend: Option<i64>,
}

/// How many relocations a content has.
pub fn relocation_count(addends: bool, table: &[u8]) -> usize
    ensures { result ≡ relocation_count_of addends table.now }
{
    if addends {
        table.len() / RELA_SIZE as usize
    } else {
        table.len() / REL_SIZE as usize
    }
}

/// Relocation `j` of a content.
#[tactic(auto, unfolding(crate::specs::Relocations::relocation_in))]
pub fn relocation_at(order: Order, addends: bool, table: &[u8], j: usize) -> Relocation
    requires { j < relocation_count_of addends table.now }
    ensures { result ≡ relocation_in addends order table.now j }
{
    if addends {
        let entry: Rela = get_at(order, table, RELA_SIZE as usize * j);
        Relocation {
            offset: entry.r_offset,
            symbol: entry.symbol(),
            relocation_type: entry.relocation_type(),
            addend: Some(entry.r_addend),
        }
    } else {
        let entry: Rel = get_at(order, table, REL_SIZE as usize * j);
        Relocation {
            offset: entry.r_offset,
            symbol: entry.symbol(),
            relocation_type: entry.relocation_type(),
            addend: None,
        }
    }
}

/// The offset in the file of relocation `j` of a content at `start`.
pub(crate) fn relocation_offset(addends: bool, start: u64, j: usize) -> u64
    requires { start + relocation_size addends * j ≤ MAX_LEN }
    ensures { result ≡ start + relocation_size addends * j }
{
    if addends {
        start + RELA_SIZE * j as u64
    } else {
        start + REL_SIZE * j as u64
    }
}

// Rules 53 and 54: the target and the symbols of a relocation section (gABI chapter 4, Relocation; Sections: sh_info).

/// All rules of a relocation section, by these verdicts on the symbol tables. [`Broken`] is the first that is broken, at its lowest
/// offset: 40, 42, 43, 44, then all rules of the symbol table that the section links to, then 53 and 54.
#[tactic(auto, unfolding(crate::specs::Relocations::relocation_section_rules))]
pub fn validate_relocation_section(
    table: TableSection<'_, '_>,
    symbols: SymbolVerdicts<'_>,
) -> Result<(), Broken<u64>>
    requires { AreKnown (sections_seen table.sections) symbols }
    ensures { FirstIn (relocation_section_rules (sections_seen table.entry.sections) table.entry.index) (fault_of result) }
{
    validate_own_rules(table, TableKind::RelocationTable)?;
    let linked = LinkedTable { table };
    symbols.of(linked)?;
    validate_relocations(linked)
}

/// Rules 53 and 54 of a relocation section.
#[tactic(auto, unfolding(crate::specs::Relocations::relocation_entry_rules))]
fn validate_relocations(linked: LinkedTable<'_, '_>) -> Result<(), Broken<u64>>
    ensures { FirstIn (relocation_entry_rules (sections_seen linked.entry.table.sections) linked.entry.table.index) (fault_of result) }
{
    let table = linked.table;
    let section = table.header();
    if section.sh_info as usize >= table.sections.section_count() {
        let at = table.header_offset() + SH_INFO_AT;
        return Err(Broken::new(WRONG_TARGET, at));
    }
    let symbols = linked.linked_content().len() / SYM_SIZE as usize;
    let addends = section.sh_type == SHT_RELA;
    let content = table.content();
    match lowest_wrong_relocation_symbol(
        table.order(),
        addends,
        content,
        section.sh_offset,
        symbols,
    ) {
        Some(at) => Err(Broken::new(WRONG_RELOCATION_SYMBOL, at)),
        None => Ok(()),
    }
}

/// The lowest offset in the file of a relocation, of a content at `start`, whose symbol is not below this number.
fn lowest_wrong_relocation_symbol(
    order: Order,
    addends: bool,
    table: &[u8],
    start: u64,
    symbols: usize,
) -> Option<u64>
    requires { 0 < length table.now → start + length table.now ≤ MAX_LEN }
    ensures { IsLowest (AtEntry (relocation_count_of addends table.now)
        (λ j. symbols ≤ (relocation_in addends order table.now j).symbol)
        (λ j. start + relocation_size addends * j + R_INFO_AT)) result }
{
    for j in 0..relocation_count(addends, table) {
        if relocation_at(order, addends, table, j).symbol as usize >= symbols {
            return Some(relocation_offset(addends, start, j) + R_INFO_AT);
        }
    }
    None
}

// Relocation sections (gABI chapter 4, Relocation).

/// A relocation section: the list of its relocations. It borrows from the bytes of the file.
#[derive(Drop)]
pub struct Relocs<'a> {
    order: Order,
    addends: bool,
    table: &'a [u8],
}

impl<'a> Model for Relocs<'a> {
    ghost use Rattle.std.specs.Prelude.{List};
    ghost use Rattle.elf_table_lists.specs.declared.relocations.Relocation.{Relocation};
    ghost use Rattle.elf_table_lists.specs.Relocations.{relocations_in};

    ghost Value = { List Relocation };

    ghost view = { λ a. relocations_in a.addends a.order a.table.now };
}

impl<'a> Relocs<'a> {
    /// The relocations that section `i` holds, of type REL or RELA, where `i` is below the image's count of section headers. It
    /// takes no memory.
    ///
    /// [`Fault::Rule`] is the first rule that is broken, at its lowest offset: 40, 42, 43, 44, then all rules of the symbol table
    /// that the section links to, then 53 and 54. No other fault comes.
    ///
    /// Linear in the section headers, the symbols and the relocations: the whole symbol table is validated too, again for each relocation
    /// section that links to it. `Tables` of `elf_table` validates each symbol table of an image once.
    pub fn new(image: &Image<'a>, i: usize) -> Result<Relocs<'a>, Fault>
        requires { i < length image.now.sections }
        ensures validated { IsValidated (relocation_section_rules (sections_of image.now) i)
            (λ relocs. relocs ≡ relocations_of (sections_of image.now) i) result }
        ensures file { OfItsFile image.now
            (λ f. IsOnlyValidated (relocation_section_rules f i) (λ relocs. relocs ≡ relocations_of f i) result) }
    {
        image.prove_stands();
        validate_relocation_section(
            TableSection {
                sections: SectionsOf::Image(image),
                index: i,
            },
            SymbolVerdicts::Unknown,
        )?;
        Ok(section_relocs(image, i))
    }

    /// How many relocations there are.
    pub fn len(&self) -> usize
        ensures { result ≡ length self.now }
    {
        relocation_count(self.addends, self.table)
    }

    /// Relocation `j`, which is below [`len`](Relocs::len).
    pub fn entry(&self, j: usize) -> Relocation
        requires { j < length self.now }
        ensures { result ≡ get_or self.now j no_relocation_entry }
    {
        relocation_at(self.order, self.addends, self.table, j)
    }

    /// The relocations in order.
    pub fn iter(&self) -> RelocIter<'_, 'a>
        ensures { relocs_left result ≡ self.now }
    {
        RelocIter {
            relocs: self,
            next: 0,
        }
    }
}

/// The relocations that section `i` holds.
pub fn section_relocs<'a>(image: &Image<'a>, i: usize) -> Relocs<'a>
    requires { i < length image.now.sections }
    ensures { result ≡ relocations_of (sections_of image.now) i }
{
    let section = TableSection {
        sections: SectionsOf::Image(image),
        index: i,
    };
    Relocs {
        order: section.order(),
        addends: section.header().sh_type == SHT_RELA,
        table: section.content(),
    }
}

impl<'s, 'a> IntoIterator for &'s Relocs<'a> {
    type Item = Relocation;

    type IntoIter = RelocIter<'s, 'a>;

    ghost into_iter_gives = { λ table r. relocs_left r ≡ table.now };

    fn into_iter(self) -> RelocIter<'s, 'a> {
        self.iter()
    }
}

/// The relocations of a section, in order.
#[derive(Drop)]
pub struct RelocIter<'s, 'a> {
    relocs: &'s Relocs<'a>,
    next: usize,
}

impl<'s, 'a> Iterator for RelocIter<'s, 'a> {
    ghost use Rattle.std.specs.Iterator.{YieldsFirst, item_count};
    ghost use Rattle.elf_table_lists.specs.Left.{relocs_left};

    type Item = Relocation;

    ghost next_gives = { YieldsFirst relocs_left };

    ghost remaining = { item_count relocs_left };

    fn next(&mut self) -> Option<Relocation> {
        if self.next >= self.relocs.len() {
            return None;
        }
        let relocation = self.relocs.entry(self.next);
        self.next += 1;
        Some(relocation)
    }
}
