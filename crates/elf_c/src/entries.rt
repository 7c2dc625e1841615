//! The entries of symbol tables, relocation sections and dynamic arrays, and their strings (gABI chapter 4, Symbol Table, Relocation,
//! String Table; chapter 5, Dynamic Section).
ghost use Rattle.std.specs.Prelude.{◌≡◌, ◌≢◌, ℕ, ◌*◌, ◌+◌, ◌^◌, ◌<◌, ◌≤◌, ◌↔◌, IfSome, IsSome, IsTrue, Some, SomeIff, get_or, length, None};
ghost use Rattle.std.specs.Bool.{OnFalse, OnTrue};
ghost use Rattle.elf_field.specs.Abi.{SHN_XINDEX as shn_xindex, WORD_SIZE as word_size};
ghost use Rattle.elf_field.specs.Strings.{string};
ghost use Rattle.elf_table_all.specs.Tables.{dynamic_strings};
ghost use Rattle.elf_table_symbols.specs.Sections.{content, order, sections_in};
ghost use Rattle.elf_table_symbols.specs.declared.table_section.TableKind.TheVariants.{DynamicArray, RelocationTable, SymbolTable};
ghost use Rattle.elf_table_symbols.specs.declared.table_section.TableKind.TheVariants.{HashTable};
ghost use Rattle.elf_table_lists.specs.Dynamic.{dynamic_array_of, no_dynamic_entry};
ghost use Rattle.elf_table_lists.specs.Relocations.{no_relocation_entry, relocations_of};
ghost use Rattle.elf_table_symbols.specs.Symbols.{entry as entry_of, symbol_entry_in, symbols_of};
ghost use Rattle.elf_table_symbols.specs.SymbolView.{no_symbol_entry};
ghost use Rattle.elf_c_parts.specs.Slots.{extent_in};
ghost use Rattle.elf_c.specs.Tables.{HasDynamic, HasRelocation, HasSymbol, ReadsDynamic, ReadsRelocation, ReadsSymbol, dynamic_read};
ghost use Rattle.elf_c.specs.Tables.{dynamic_shape, relocation_read, relocation_shape, symbol_shape, section_index, symbol_record};
ghost use Rattle.elf_c.specs.Tables.{reported_symbol, string_place, IsTableOfKind, IsTableOf, slot_bytes};
ghost use Rattle.elf_c.specs.Files.{order_named};
ghost use Rattle.elf_table_hash.specs.HashView.{hash_of_section};
ghost use Rattle.elf_table_hash.specs.HashTable.{HasSymbolNamed, IsProbed};

use crate::file::place_of_string;
use crate::places::{bytes_of, order_of};
use crate::shapes::{DynamicEntry, Relocation, Symbol, Table, put};
use crate::tables::is_of_kind;
use elf_c_parts::Slot;
use elf_field::Order;
use elf_field::abi::{SHN_XINDEX, SHT_RELA, SYM_SIZE, WORD_SIZE};
use elf_table_hash::find_in;
use elf_table_lists::{dynamic_entry, dynamic_entry_count, relocation_at, relocation_count};
use elf_table_symbols::{TableKind, entry, word};

/// Symbol `index` of a symbol table; false if there is none of this index, or its `st_shndx` is `SHN_XINDEX` and the index table has no
/// word for it, and for a table of another kind. A name of no bytes is said to be at offset 0.
#[unsafe(no_mangle)]
pub extern "C" fn elfmap_symbol(
    table: &Table,
    bytes: &[u8],
    index: u64,
    symbol: &mut Symbol,
) -> bool
    ensures there { (i : ℕ) → IsTableOf SymbolTable table.now bytes.now i →
        IsTrue result ↔ (index < length (symbols_of (sections_in bytes.now) i)) }
    ensures value { (i : ℕ) → IsTableOf SymbolTable table.now bytes.now i →
        OnTrue result (reported_symbol bytes.now symbol.new ≡ get_or (symbols_of (sections_in bytes.now) i) index no_symbol_entry) }
    ensures record { (i : ℕ) → IsTableOf SymbolTable table.now bytes.now i → let f = sections_in bytes.now in
        OnTrue result (symbol_record symbol.new ≡ entry_of (order f) (content f i) index) }
    ensures typed { OnTrue result (IsTableOfKind SymbolTable table.now) }
    ensures section { OnTrue result (symbol.new.st_shndx ≢ shn_xindex → symbol.new.section ≡ symbol.new.st_shndx) }
    ensures named { OnTrue result (symbol.new.name ≡ string_place bytes.now (extent_in table.now.strings) symbol.new.st_name) }
    ensures inside { OnTrue result (symbol.new.name.start + symbol.new.name.len ≤ length bytes.now) }
    ensures lies { IsTrue result ↔ HasSymbol table.now bytes.now index }
    ensures read { OnTrue result (symbol.new ≡ symbol_shape table.now bytes.now index) }
    ensures unchanged { OnFalse result (symbol.new ≡ symbol.old) }
{
    put(symbol_of(table, bytes, index), symbol)
}

/// Symbol `index` of a symbol table; None if it is no symbol table, or has no such entry, or the index table no word for an entry that
/// needs one.
#[tactic(auto, unfolding(elf_table_symbols::specs::Symbols::symbol_entry_in))]
pub fn symbol_of(table: &Table, bytes: &[u8], index: u64) -> Option<Symbol>
    ensures read { ReadsSymbol table.now bytes.now index result }
    ensures value { let t = table.now in let b = bytes.now in IfSome result (λ s. reported_symbol b s ≡
        symbol_entry_in (order_named t.ei_data) (slot_bytes b t.content) (slot_bytes b t.strings) (slot_bytes b t.linked) index) }
    ensures inside { IfSome result (λ s. s.name.start + s.name.len ≤ length bytes.now) }
{
    let order = order_of(table.ei_data);
    let content = bytes_of(bytes, table.content);
    if !is_of_kind(table, TableKind::SymbolTable)
        || index >= (content.len() / SYM_SIZE as usize) as u64
    {
        return None;
    }
    let symbol = entry(order, content, index as usize);
    let words = bytes_of(bytes, table.linked);
    let section = section_index_of(order, words, symbol.st_shndx, index)?;
    Some(Symbol {
        name: place_of_string(bytes, table.strings, symbol.st_name as u64),
        st_value: symbol.st_value,
        st_size: symbol.st_size,
        st_name: symbol.st_name,
        section,
        st_shndx: symbol.st_shndx,
        st_info: symbol.st_info,
        st_other: symbol.st_other,
    })
}

/// The index of the section of symbol `j`, of this `st_shndx`, in a table with these words of its index table; None if it is in a word
/// that is not there.
fn section_index_of(order: Order, words: &[u8], st_shndx: u16, j: u64) -> Option<u32>
    requires { j < 2 ^ 60 }
    ensures { SomeIff result (st_shndx ≡ shn_xindex → word_size * j + word_size ≤ length words.now)
        (section_index order words.now st_shndx j) }
{
    if st_shndx != SHN_XINDEX {
        return Some(st_shndx as u32);
    }
    if WORD_SIZE * j + WORD_SIZE <= words.len() as u64 {
        Some(word(order, words, j as usize))
    } else {
        None
    }
}

/// Relocation `index` of a relocation section; false if there is none of this index, and for a table of another kind.
#[unsafe(no_mangle)]
pub extern "C" fn elfmap_relocation(
    table: &Table,
    bytes: &[u8],
    index: u64,
    relocation: &mut Relocation,
) -> bool
    ensures there { (i : ℕ) → IsTableOf RelocationTable table.now bytes.now i →
        IsTrue result ↔ (index < length (relocations_of (sections_in bytes.now) i)) }
    ensures value { (i : ℕ) → IsTableOf RelocationTable table.now bytes.now i →
        OnTrue result (relocation.new ≡ relocation_shape (get_or (relocations_of (sections_in bytes.now) i) index no_relocation_entry)) }
    ensures typed { OnTrue result (IsTableOfKind RelocationTable table.now) }
    ensures lies { IsTrue result ↔ HasRelocation table.now bytes.now index }
    ensures read { OnTrue result (relocation.new ≡ relocation_read table.now bytes.now index) }
    ensures unchanged { OnFalse result (relocation.new ≡ relocation.old) }
{
    put(relocation_of(table, bytes, index), relocation)
}

/// Relocation `index` of a relocation section; None if there is none of this index, and for a table of another kind.
pub fn relocation_of(table: &Table, bytes: &[u8], index: u64) -> Option<Relocation>
    ensures { ReadsRelocation table.now bytes.now index result }
{
    let addends = table.sh_type == SHT_RELA;
    let content = bytes_of(bytes, table.content);
    if !is_of_kind(table, TableKind::RelocationTable)
        || index >= relocation_count(addends, content) as u64
    {
        return None;
    }
    let order = order_of(table.ei_data);
    let relocation = relocation_at(order, addends, content, index as usize);
    Some(Relocation::new(&relocation))
}

/// Entry `index` of a dynamic array; false if there is none of this index before the first entry of tag `DT_NULL`, and for a table of
/// another kind.
#[unsafe(no_mangle)]
pub extern "C" fn elfmap_dynamic(
    table: &Table,
    bytes: &[u8],
    index: u64,
    entry: &mut DynamicEntry,
) -> bool
    ensures there { (i : ℕ) → IsTableOf DynamicArray table.now bytes.now i →
        IsTrue result ↔ (index < length (dynamic_array_of (sections_in bytes.now) i)) }
    ensures value { (i : ℕ) → IsTableOf DynamicArray table.now bytes.now i →
        OnTrue result (entry.new ≡ dynamic_shape (get_or (dynamic_array_of (sections_in bytes.now) i) index no_dynamic_entry)) }
    ensures typed { OnTrue result (IsTableOfKind DynamicArray table.now) }
    ensures lies { IsTrue result ↔ HasDynamic table.now bytes.now index }
    ensures read { OnTrue result (entry.new ≡ dynamic_read table.now bytes.now index) }
    ensures unchanged { OnFalse result (entry.new ≡ entry.old) }
{
    put(dynamic_of(table, bytes, index), entry)
}

/// Entry `index` of a dynamic array; None if there is none of this index before the first entry of tag `DT_NULL`, and for a table of
/// another kind.
pub fn dynamic_of(table: &Table, bytes: &[u8], index: u64) -> Option<DynamicEntry>
    ensures { ReadsDynamic table.now bytes.now index result }
{
    let content = bytes_of(bytes, table.content);
    let count = dynamic_entry_count(content) as u64;
    if !is_of_kind(table, TableKind::DynamicArray) || index >= count.min(table.entries) {
        return None;
    }
    let order = order_of(table.ei_data);
    Some(DynamicEntry::new(&dynamic_entry(order, content, index as usize)))
}

/// Where the string at an offset of the table's strings is in the file, without its closing zero; false if the offset is not below their
/// length, whatever the kind of the table. A string of no bytes is said to be at offset 0.
#[unsafe(no_mangle)]
pub extern "C" fn elfmap_string(table: &Table, bytes: &[u8], offset: u64, place: &mut Slot) -> bool
    ensures there { IsTrue result ↔ (offset < length (slot_bytes bytes.now table.now.strings)) }
    ensures value { OnTrue result (slot_bytes bytes.now place.new ≡ string (slot_bytes bytes.now table.now.strings) offset) }
    ensures stands { OnTrue result (place.new ≡ string_place bytes.now (extent_in table.now.strings) offset) }
    ensures dynamic { (i : ℕ) → IsTableOf DynamicArray table.now bytes.now i →
        slot_bytes bytes.now table.now.strings ≡ dynamic_strings (sections_in bytes.now) i }
    ensures inside { OnTrue result (place.new.start + place.new.len ≤ length bytes.now) }
    ensures unchanged { OnFalse result (place.new ≡ place.old) }
{
    if offset >= bytes_of(bytes, table.strings).len() as u64 {
        return false;
    }
    *place = place_of_string(bytes, table.strings, offset);
    true
}

// Finding a symbol by its name (gABI chapter 5, Hash Table).

/// The index of the first symbol of this name on the chain of the name's bucket of a hash table that breaks no rule; false if no symbol
/// from 1 on has the name, and for a table of another kind.
#[unsafe(no_mangle)]
pub extern "C" fn elfmap_find(table: &Table, bytes: &[u8], name: &[u8], symbol: &mut u32) -> bool
    ensures there { (i : ℕ) → IsTableOf HashTable table.now bytes.now i →
        IsTrue result ↔ HasSymbolNamed (hash_of_section (sections_in bytes.now) i) name.now }
    ensures value { (i : ℕ) → IsTableOf HashTable table.now bytes.now i →
        OnTrue result ((steps : ℕ) × IsProbed (hash_of_section (sections_in bytes.now) i) name.now (Some symbol.new) steps) }
    ensures typed { OnTrue result (IsTableOfKind HashTable table.now) }
    ensures unchanged { OnFalse result (symbol.new ≡ symbol.old) }
{
    match found_in(table, bytes, name) {
        Some(found) => {
            *symbol = found;
            true
        }
        None => false,
    }
}

/// The index of the first symbol of this name on the chain of the name's bucket; None if there is none, or it is no hash table.
fn found_in(table: &Table, bytes: &[u8], name: &[u8]) -> Option<u32>
    ensures there { (i : ℕ) → IsTableOf HashTable table.now bytes.now i →
        IsSome result ↔ HasSymbolNamed (hash_of_section (sections_in bytes.now) i) name.now }
    ensures value { (i : ℕ) → IsTableOf HashTable table.now bytes.now i →
        (steps : ℕ) × IsProbed (hash_of_section (sections_in bytes.now) i) name.now result steps }
    ensures typed { IfSome result (λ found. IsTableOfKind HashTable table.now) }
{
    if !is_of_kind(table, TableKind::HashTable) {
        return None;
    }
    find_in(
        order_of(table.ei_data),
        bytes_of(bytes, table.content),
        bytes_of(bytes, table.linked),
        bytes_of(bytes, table.strings),
        name,
    )
}
