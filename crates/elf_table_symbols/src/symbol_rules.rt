//! Rules 45 to 52: the symbols of a symbol table, and its index table (gABI chapter 4, Symbol Table; Sections: sh_info,
//! SHT_SYMTAB_SHNDX).
ghost use Rattle.std.specs.Prelude.{◌≡◌, ℕ, Some, ◌*◌, ◌+◌, ◌<◌, ◌≤◌, length, ◌↔◌, ◌≢◌, IsTrue, MatchOption, OnOk};
ghost use Rattle.elf_image_rules.specs.Rules.{MAX_LEN};
ghost use Rattle.elf_table_symbols.specs.Symbols.{index_words, index_words_start, entry as entry_of, entry_count, word as word_of};
ghost use Rattle.elf_table_symbols.specs.Symbols.{AreIndexTables, parts_value, symbol_parts, BreaksSymbolEntry, symbol_entry_rules};
ghost use Rattle.elf_table_symbols.specs.Symbols.{index_table_rules, place_rules, rest_rules, symbol_0_not_null, symbol_field};
ghost use Rattle.elf_table_symbols.specs.Symbols.{symbol_table_rules, IsWrongIndexWord, wrong_index_word};
ghost use Rattle.elf_table_symbols.specs.Sections.{count, section, sections_seen, content};
ghost use Rattle.elf_extent.specs.Extent.{IsLowest};
ghost use Rattle.elf_image_rules.specs.Rows.{fault_of, AtEntry, FirstIn};

use crate::index_tables::IndexTables;
use crate::rules::*;
use crate::sections_of::SectionsOf;
use crate::strings::validate_linked_strings;
use crate::symbol_parts::SymbolParts;
use crate::table_section::{LinkedTable, TableKind, TableSection, validate_own_rules};
use elf_field::abi::*;
use elf_field::{Order, Sym, get_at};
use elf_image_rules::Broken;

// The entries of a symbol table's content, and the words of its index table (gABI chapter 4, Symbol Table).

/// The content of an index table, and its offset.
pub(crate) fn index_words_in<'a>(
    sections: SectionsOf<'_, 'a>,
    table: Option<usize>,
) -> (&'a [u8], u64)
    requires there { (j : ℕ) → table ≡ Some j → j < count (sections_seen sections) }
    requires typed { (j : ℕ) → table ≡ Some j → (section (sections_seen sections) j).sh_type ≡ SHT_SYMTAB_SHNDX }
    ensures words { result.0.now ≡ index_words (sections_seen sections.entry) table }
    ensures start { result.1 ≡ index_words_start (sections_seen sections.entry) table }
    ensures sized { (j : ℕ) → table ≡ Some j → length result.0.now ≡ (section (sections_seen sections.entry) j).sh_size }
    ensures inside { 0 < length result.0.now → result.1 + length result.0.now ≤ MAX_LEN }
{
    match table {
        Some(j) => (sections.content(j), sections.section(j).sh_offset),
        None => (&[], 0),
    }
}

/// Entry `j` of a symbol table's content.
#[tactic(auto, unfolding(crate::specs::Symbols::entry))]
pub fn entry(order: Order, table: &[u8], j: usize) -> Sym
    requires { j < entry_count table.now }
    ensures { result ≡ entry_of order table.now j }
{
    get_at(order, table, SYM_SIZE as usize * j)
}

/// Word `j` of the content of an index table, or of another list of words.
#[tactic(auto, unfolding(crate::specs::Symbols::word))]
pub fn word(order: Order, words: &[u8], j: usize) -> u32
    requires { WORD_SIZE * j + WORD_SIZE ≤ length words.now }
    ensures { result ≡ word_of order words.now j }
{
    get_at(order, words, WORD_SIZE as usize * j)
}

/// A rule on one symbol by itself.
#[derive(Clone, Copy)]
pub(crate) enum SymbolRule {
    /// Rule 47, [`MISPLACED_BINDING`].
    MisplacedBinding,
    /// Rule 48, [`SYMBOL_NAME_PAST_END`].
    SymbolNamePastEnd,
    /// Rule 51, [`WRONG_SYMBOL_SECTION`].
    WrongSymbolSection,
}

impl SymbolRule {
    /// Whether symbol `j` of the table breaks the rule.
    fn is_broken_by(self, parts: &SymbolParts<'_>, symbol: &Sym, j: usize) -> bool
        ensures { IsTrue result ↔ BreaksSymbolEntry self (parts_value parts.now) symbol.now j }
    {
        match self {
            SymbolRule::MisplacedBinding => {
                (j < parts.info as usize) == (symbol.binding() != STB_LOCAL)
            }
            SymbolRule::SymbolNamePastEnd => {
                symbol.st_name != 0 && symbol.st_name as usize >= parts.names.len()
            }
            SymbolRule::WrongSymbolSection => {
                if symbol.st_shndx == SHN_XINDEX {
                    parts.index_table.is_none()
                } else {
                    symbol.st_shndx < SHN_LORESERVE && symbol.st_shndx as usize >= parts.sections
                }
            }
        }
    }

    /// The offset in the symbol of the field at which the rule is broken.
    fn field(self) -> u64
        ensures value { result ≡ symbol_field self }
        ensures inside { result < SYM_SIZE }
    {
        match self {
            SymbolRule::MisplacedBinding => ST_INFO_AT,
            SymbolRule::SymbolNamePastEnd => ST_NAME_AT,
            SymbolRule::WrongSymbolSection => ST_SHNDX_AT,
        }
    }
}

/// The lowest offset in the file at which a symbol breaks the rule.
fn lowest_symbol(parts: &SymbolParts<'_>, rule: SymbolRule) -> Option<u64>
    ensures { let p = parts_value parts.now in
        IsLowest (AtEntry (entry_count p.table) (λ j. BreaksSymbolEntry rule p (entry_of p.order p.table j) j)
        (λ j. p.start + SYM_SIZE * j + symbol_field rule)) result }
{
    for j in 0..parts.len() {
        let symbol = entry(parts.order, parts.table, j);
        if rule.is_broken_by(parts, &symbol, j) {
            return Some(parts.start + SYM_SIZE * j as u64 + rule.field());
        }
    }
    None
}

/// Rule 45: where there is no symbol 0, or the first byte of it that isn't 0.
fn lowest_symbol_0_not_null(parts: &SymbolParts<'_>) -> Option<u64>
    ensures { IsLowest (symbol_0_not_null (parts_value parts.now)) result }
{
    if parts.len() == 0 {
        return Some(parts.header + SH_SIZE_AT);
    }
    for k in 0..SYM_SIZE as usize {
        if parts.table[k] != 0 {
            return Some(parts.start + k as u64);
        }
    }
    None
}

/// Rules 45 to 48.
#[tactic(auto, unfolding(crate::specs::Symbols::symbol_entry_rules))]
fn validate_entries(parts: &SymbolParts<'_>) -> Result<(), Broken<u64>>
    ensures { FirstIn (symbol_entry_rules (parts_value parts.now)) (fault_of result) }
{
    if let Some(at) = lowest_symbol_0_not_null(parts) {
        return Err(Broken::new(SYMBOL_0_NOT_NULL, at));
    }
    if parts.info == 0 || parts.info as usize > parts.len() {
        return Err(Broken::new(WRONG_LOCAL_COUNT, parts.header + SH_INFO_AT));
    }
    if let Some(at) = lowest_symbol(parts, SymbolRule::MisplacedBinding) {
        return Err(Broken::new(MISPLACED_BINDING, at));
    }
    if let Some(at) = lowest_symbol(parts, SymbolRule::SymbolNamePastEnd) {
        return Err(Broken::new(SYMBOL_NAME_PAST_END, at));
    }
    Ok(())
}

/// Rules 49 and 50, of the index tables of a table of so many symbols.
#[tactic(auto, unfolding(crate::specs::Symbols::index_table_rules))]
fn validate_index_table(
    table: TableSection<'_, '_>,
    tables: IndexTables,
    symbols: usize,
) -> Result<(), Broken<u64>>
    requires tables { AreIndexTables (sections_seen table.sections) table.index (count (sections_seen table.sections)) tables }
    requires few { symbols ≤ MAX_LEN }
    ensures fault { FirstIn (index_table_rules (sections_seen table.entry.sections) table.entry.index tables.first symbols)
        (fault_of result) }
    ensures sized { OnOk result
        ((j : ℕ) → tables.first ≡ Some j → length (content (sections_seen table.entry.sections) j) ≡ WORD_SIZE * symbols) }
{
    let sections = table.sections;
    if let Some(j) = tables.second {
        return Err(Broken::new(SECOND_INDEX_TABLE, sections.header_offset(j) + SH_LINK_AT));
    }
    let Some(j) = tables.first else {
        return Ok(());
    };
    let section = sections.section(j);
    let at = sections.header_offset(j);
    if section.sh_size != WORD_SIZE * symbols as u64 {
        return Err(Broken::new(WRONG_INDEX_TABLE_SIZE, at + SH_SIZE_AT));
    }
    if section.sh_entsize != WORD_SIZE {
        return Err(Broken::new(WRONG_INDEX_TABLE_SIZE, at + SH_ENTSIZE_AT));
    }
    sections.prove_content_inside(j);
    Ok(())
}

/// The lowest offset in the file of a wrong word of the index table, which has one for each symbol.
fn lowest_wrong_index_word(parts: &SymbolParts<'_>) -> Option<u64>
    requires { (j : ℕ) → parts.now.index_table ≡ Some j → length parts.now.words.now ≡ WORD_SIZE * entry_count parts.now.table.now }
    ensures { IsLowest (wrong_index_word (parts_value parts.now)) result }
{
    if parts.index_table.is_none() {
        return None;
    }
    for j in 0..parts.len() {
        let symbol = entry(parts.order, parts.table, j);
        let index = word(parts.order, parts.words, j);
        if is_wrong_index_word(&symbol, index, parts.sections) {
            return Some(parts.words_start + WORD_SIZE * j as u64);
        }
    }
    None
}

fn is_wrong_index_word(symbol: &Sym, index: u32, sections: usize) -> bool
    ensures { IsTrue result ↔ IsWrongIndexWord sections symbol.now index }
{
    if symbol.st_shndx == SHN_XINDEX {
        index < SHN_LORESERVE as u32 || index as usize >= sections
    } else {
        index != 0
    }
}

/// Rules 51 and 52.
#[tactic(auto, unfolding(crate::specs::Symbols::place_rules))]
fn validate_places(parts: &SymbolParts<'_>) -> Result<(), Broken<u64>>
    requires { (j : ℕ) → parts.now.index_table ≡ Some j → length parts.now.words.now ≡ WORD_SIZE * entry_count parts.now.table.now }
    ensures { FirstIn (place_rules (parts_value parts.now)) (fault_of result) }
{
    if let Some(at) = lowest_symbol(parts, SymbolRule::WrongSymbolSection) {
        return Err(Broken::new(WRONG_SYMBOL_SECTION, at));
    }
    if let Some(at) = lowest_wrong_index_word(parts) {
        return Err(Broken::new(WRONG_INDEX_WORD, at));
    }
    Ok(())
}

/// All rules of a symbol table after its own, of the table with these parts.
#[tactic(auto, unfolding(crate::specs::Symbols::rest_rules))]
fn validate_rest(
    table: TableSection<'_, '_>,
    tables: IndexTables,
    parts: &SymbolParts<'_>,
) -> Result<(), Broken<u64>>
    requires tables { AreIndexTables (sections_seen table.sections) table.index (count (sections_seen table.sections)) tables }
    requires parts { parts_value parts.now ≡ symbol_parts (sections_seen table.sections) table.index }
    ensures { FirstIn (rest_rules (sections_seen table.entry.sections) table.entry.index (parts_value parts.now)) (fault_of result) }
{
    validate_linked_strings(parts.names, parts.names_start)?;
    validate_entries(parts)?;
    validate_index_table(table, tables, parts.len())?;
    validate_places(parts)
}

/// All rules of a symbol table, which has these index tables. [`Broken`] is the first that is broken, at its lowest
/// offset: 40, 42, 43, 44, then 41 of the string table that the section links to, then 45 to 52.
#[tactic(auto, unfolding(crate::specs::Symbols::symbol_table_rules))]
pub fn validate_symbol_table(
    table: TableSection<'_, '_>,
    tables: IndexTables,
) -> Result<(), Broken<u64>>
    requires { AreIndexTables (sections_seen table.sections) table.index (count (sections_seen table.sections)) tables }
    ensures { FirstIn (symbol_table_rules (sections_seen table.entry.sections) table.entry.index) (fault_of result) }
{
    validate_own_rules(table, TableKind::SymbolTable)?;
    let parts = SymbolParts::new(LinkedTable { table }, tables);
    validate_rest(table, tables, &parts)
}
