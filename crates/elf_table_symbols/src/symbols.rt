//! Symbol tables (gABI chapter 4, Symbol Table).
ghost use Rattle.std.specs.Prelude.{◌≡◌, ◌*◌, ◌+◌, ◌≤◌, length, ◌<◌, None, OnOk, get_or};
ghost use Rattle.elf_table_symbols.specs.Symbols.{word as word_of, place_of, AreIndexTables, symbol_table_rules, symbols_of};
ghost use Rattle.elf_image_rules.specs.Rows.{fault_of, FirstIn};
ghost use Rattle.elf_table_symbols.specs.Verdicts.{IsValidated, IsOnlyValidated, OfItsFile};
ghost use Rattle.elf_table_symbols.specs.Sections.{sections_of};
ghost use Rattle.elf_table_symbols.specs.SymbolView.{no_symbol_entry, symbol_entry_value, symbols_left};

use crate::index_tables::{IndexTables, index_tables_of};
use crate::sections_of::SectionsOf;
use crate::symbol_parts::SymbolParts;
use crate::symbol_rules::{entry, validate_symbol_table, word};
use crate::table_section::{LinkedTable, TableSection};
use elf_field::Order;
use elf_field::abi::*;
use elf_image_stream::Fault;
use elf_image_type::Image;
use elf_image_type::strings::string_at;
use std::marker::Model;

// A symbol (gABI chapter 4, Symbol Table).

/// Where a symbol is defined.
#[derive(Clone, Copy, Debug, PartialEq, Eq)]
pub enum Place {
    /// Nowhere in this file (`SHN_UNDEF`).
    Undefined,
    /// Nowhere: its value is absolute (`SHN_ABS`).
    Absolute,
    /// In a common block that has no place yet (`SHN_COMMON`).
    Common,
    /// Another reserved index.
    Reserved(u16),
    /// The section of this index, whether the symbol holds it or the index table does.
    Section(u32),
}

/// A symbol of a symbol table. Its name borrows from the bytes of the file.
#[derive(Clone, Copy, Debug, PartialEq, Eq)]
pub struct Symbol<'a> {
    /// The name, without its closing zero.
    pub name: &'a [u8],
    /// `STB_LOCAL`, `STB_GLOBAL`, `STB_WEAK`, or another number below 16.
    pub binding: u8,
    /// `STT_NOTYPE` to `STT_TLS`, or another number below 16.
    pub symbol_type: u8,
    /// `st_other`: visibility; kept, never interpreted.
    pub other: u8,
    /// Where it is defined.
    pub place: Place,
    /// An address, an offset in a section, or the alignment of a common symbol.
    pub value: u64,
    /// Size in bytes, 0 if it is unknown or there is none.
    pub size: u64,
}

/// The place that this `st_shndx` reports, of symbol `j` of a table with this content of its index table.
pub(crate) fn place_at(order: Order, words: &[u8], index: u16, j: usize) -> Place
    requires { index ≡ SHN_XINDEX → WORD_SIZE * j + WORD_SIZE ≤ length words.now }
    ensures { result ≡ place_of index (word_of order words.now j) }
{
    match index {
        SHN_UNDEF => Place::Undefined,
        SHN_ABS => Place::Absolute,
        SHN_COMMON => Place::Common,
        SHN_XINDEX => Place::Section(word(order, words, j)),
        _ if index < SHN_LORESERVE => Place::Section(index as u32),
        _ => Place::Reserved(index),
    }
}

/// A symbol table: the list of its symbols, symbol 0 among them. It borrows from the bytes of the file, as the names of its
/// symbols do.
#[derive(Drop)]
pub struct Symbols<'a> {
    order: Order,
    table: &'a [u8],
    names: &'a [u8],
    // The index table's content, empty where there is none.
    words: &'a [u8],
}

impl<'a> Model for Symbols<'a> {
    ghost use Rattle.std.specs.Prelude.{List};
    ghost use Rattle.elf_table_symbols.specs.Symbols.{IsReadable, SymbolEntryValue, symbols_in};

    ghost Value = { List SymbolEntryValue };

    ghost view = { λ a. symbols_in a.order a.table.now a.names.now a.words.now };

    ghost invariant = { λ a. IsReadable a.order a.table.now a.words.now };
}

impl<'a> Symbols<'a> {
    /// The symbol table that section `i` holds, where `i` is below the image's count of section headers. It takes no memory.
    ///
    /// [`Fault::Rule`] is the first of its rules that is broken, at its lowest offset: 40, 42, 43, 44, then 41 of the string
    /// table that it links to, then 45 to 52. No other fault comes.
    ///
    /// Linear in the section headers, all of which are searched for an index table, and in the symbols; no name is read. `Tables` of
    /// `elf_table` looks through the section headers once for all symbol tables of an image.
    pub fn new(image: &Image<'a>, i: usize) -> Result<Symbols<'a>, Fault>
        requires { i < length image.now.sections }
        ensures validated { IsValidated (symbol_table_rules (sections_of image.now) i)
            (λ symbols. symbols ≡ symbols_of (sections_of image.now) i) result }
        ensures file { OfItsFile image.now
            (λ f. IsOnlyValidated (symbol_table_rules f i) (λ symbols. symbols ≡ symbols_of f i) result) }
    {
        image.prove_stands();
        let sections = SectionsOf::Image(image);
        let table = TableSection { sections, index: i };
        let tables = index_tables_of(sections, i);
        validate_symbol_table(table, tables)?;
        Ok(sound_symbols(image, i, tables))
    }

    /// How many symbols there are.
    pub fn len(&self) -> usize
        ensures { result ≡ length self.now }
    {
        self.table.len() / SYM_SIZE as usize
    }

    /// Symbol `j`, which is below [`len`](Symbols::len). Linear in its name, whose end is looked for.
    pub fn entry(&self, j: usize) -> Symbol<'a>
        requires { j < length self.now }
        ensures { symbol_entry_value result ≡ get_or self.now j no_symbol_entry }
    {
        let symbol = entry(self.order, self.table, j);
        Symbol {
            name: string_at(self.names, symbol.st_name as usize),
            binding: symbol.binding(),
            symbol_type: symbol.symbol_type(),
            other: symbol.st_other,
            place: place_at(self.order, self.words, symbol.st_shndx, j),
            value: symbol.st_value,
            size: symbol.st_size,
        }
    }

    /// Where symbol `j`, which is below [`len`](Symbols::len), is defined. Its name is not looked at.
    pub fn place(&self, j: usize) -> Place
        requires { j < length self.now }
        ensures { result ≡ (get_or self.now j no_symbol_entry).place }
    {
        let symbol = entry(self.order, self.table, j);
        place_at(self.order, self.words, symbol.st_shndx, j)
    }

    /// The symbols in order.
    pub fn iter(&self) -> SymbolIter<'_, 'a>
        ensures { symbols_left result ≡ self.now }
    {
        SymbolIter {
            symbols: self,
            next: 0,
        }
    }
}

/// The symbol table in section `i`, which breaks no rule and has these index tables.
pub fn sound_symbols<'a>(image: &Image<'a>, i: usize, tables: IndexTables) -> Symbols<'a>
    requires there { i < length image.now.sections }
    requires tables { AreIndexTables (sections_of image.now) i (length image.now.sections) tables }
    requires sound { FirstIn (symbol_table_rules (sections_of image.now) i) None }
    ensures { result ≡ symbols_of (sections_of image.now) i }
{
    let sections = SectionsOf::Image(image);
    let table = TableSection { sections, index: i };
    let parts = SymbolParts::new(LinkedTable { table }, tables);
    Symbols {
        order: parts.order,
        table: parts.table,
        names: parts.names,
        words: parts.words,
    }
}

impl<'s, 'a> IntoIterator for &'s Symbols<'a> {
    type Item = Symbol<'a>;

    type IntoIter = SymbolIter<'s, 'a>;

    ghost into_iter_gives = { λ table r. symbols_left r ≡ table.now };

    fn into_iter(self) -> SymbolIter<'s, 'a> {
        self.iter()
    }
}

/// The symbols of a table, in order.
#[derive(Drop)]
pub struct SymbolIter<'s, 'a> {
    symbols: &'s Symbols<'a>,
    next: usize,
}

impl<'s, 'a> Iterator for SymbolIter<'s, 'a> {
    ghost use Rattle.std.specs.Iterator.{YieldsFirstBy, item_count};
    ghost use Rattle.elf_table_symbols.specs.SymbolView.{symbol_entry_value};
    ghost use Rattle.elf_table_symbols.specs.SymbolView.{symbols_left};

    type Item = Symbol<'a>;

    ghost next_gives = { YieldsFirstBy symbol_entry_value symbols_left };

    ghost remaining = { item_count symbols_left };

    fn next(&mut self) -> Option<Symbol<'a>> {
        if self.next >= self.symbols.len() {
            return None;
        }
        let symbol = self.symbols.entry(self.next);
        self.next += 1;
        Some(symbol)
    }
}
