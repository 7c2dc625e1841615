//! What is known of each name, from one pass over all symbols: its first definitions, its commons, and what else needs it
//! (gABI chapter 4, Symbol Table).
ghost use Rattle.std.specs.Prelude.{◌≡◌, ◌↔◌, ◌+◌, ◌<◌, ◌≤◌, None, Some, IfOk, IsTrue, OnOk, length, map};
ghost use Rattle.elf_object_type.specs.ObjectView.{symbol_value};
ghost use Rattle.elf_link_files.specs.Files.{object_at, symbol_with, IsCommon, IsNotWeak, IsStrong};
ghost use Rattle.elf_link_files.specs.KnownBefore.{IsKnownBefore};
ghost use Rattle.elf_link_names.specs.KnownNames.{AreAllKnown, AreKnownBefore, IsNotedAt, known_at, AreIndexRows, AreNameIndexes};
ghost use Rattle.elf_link_names.specs.KnownNames.{IsNameIndex, IsIndexRow, KeepsPositions};
ghost use Rattle.elf_link_names.specs.Tables.{IsSymbolLookup, name_position};
ghost use Rattle.elf_field.specs.Abi.{STB_LOCAL};
ghost use Rattle.elf_object_type.specs.Object.{binding as binding_of};

use crate::known_table::KnownTable;
use crate::long_symbols::{LONG_NAME, LongSymbols};
use crate::name_index::{BLOCK, Lookup, NameIndex, block_lookups};
use elf_field::abi::*;
use elf_link_files::files::symbol_count;
use elf_link_files::{InputSymbol, Inputs, Known, SymbolId};
use elf_object_type::Symbol;
use std::alloc::{AllocError, Global};

/// What is known of each name, in the order of the first entries, and the position of each there: one item for each name that is not local.
#[derive(Drop)]
pub struct KnownNames<'a> {
    /// The position of each name in `known`.
    pub positions: NameIndex<'a>,
    /// What is known of each.
    pub known: KnownTable,
}

/// Whether a symbol is an entry that is not weak, and neither a common nor a definition. It changes one mark of what is known of its name.
fn is_reference(symbol: &InputSymbol<'_, '_, '_>) -> bool
    ensures common { IsTrue result →
        IsCommon symbol.now.inputs.now (symbol_with symbol.now.inputs.now symbol.now.id).name symbol.now.id.file symbol.now.id.index → ⊥ }
    ensures strong { IsTrue result →
        IsStrong symbol.now.inputs.now (symbol_with symbol.now.inputs.now symbol.now.id).name symbol.now.id.file symbol.now.id.index → ⊥ }
    ensures not_weak { IsTrue result →
        IsNotWeak symbol.now.inputs.now (symbol_with symbol.now.inputs.now symbol.now.id).name symbol.now.id.file symbol.now.id.index }
{
    symbol.is_not_weak() && !symbol.is_common() && !symbol.is_definition(STB_GLOBAL)
}

/// Adds a symbol to what is known of its name, which is the one at a position.
fn note_again(
    symbol: &InputSymbol<'_, '_, '_>,
    names: &mut KnownTable,
    k: usize,
) -> Result<(), AllocError>
    requires within { k < length names.old }
    requires before { IsKnownBefore symbol.now.inputs.now
        (symbol_with symbol.now.inputs.now symbol.now.id).name symbol.now.id.file symbol.now.id.index (known_at names.old k) }
    ensures { OnOk result
        (IsNotedAt symbol.now.inputs.now (symbol_with symbol.now.inputs.now symbol.now.id).name symbol.now.id.file
        (symbol.now.id.index + 1) k names.old names.new) }
{
    if is_reference(symbol) {
        names.mark(k);
        return Ok(());
    }
    let mut known = names.item(k);
    known.note(symbol);
    names.set(k, known)
}

/// Whether a symbol is local.
pub(crate) fn is_local(symbol: &Symbol<'_>) -> bool
    ensures { IsTrue result ↔ (binding_of (symbol_value symbol.now) ≡ STB_LOCAL) }
{
    symbol.binding() == STB_LOCAL
}

/// Goes past a symbol whose name was looked up, and returns the index of its name; 0 for a local one.
fn pass_symbol<'a>(
    symbol: &InputSymbol<'_, '_, 'a>,
    lookup: Lookup,
    names: &mut KnownNames<'a>,
) -> Result<usize, AllocError>
    requires before { AreKnownBefore symbol.now.inputs.now symbol.now.id.file symbol.now.id.index
        (name_position names.old.positions) names.old.known }
    requires lookup { IsSymbolLookup symbol.now.inputs.now
        (name_position names.old.positions) symbol.now.id.file symbol.now.id.index lookup }
    ensures names { OnOk result
        (AreKnownBefore symbol.now.inputs.now symbol.now.id.file (symbol.now.id.index + 1)
        (name_position names.new.positions) names.new.known) }
    ensures index { IfOk result
        (IsNameIndex symbol.now.inputs.now (name_position names.new.positions) symbol.now.id.file symbol.now.id.index) }
    ensures kept { OnOk result (KeepsPositions (name_position names.old.positions) (name_position names.new.positions)) }
{
    let own = symbol.symbol();
    let name = own.name;
    if is_local(&own) {
        return Ok(0);
    }
    let next = names.known.len();
    let place = names.positions.place_looked_up(lookup, name, next)?;
    match place {
        Some(k) => {
            note_again(symbol, &mut names.known, k)?;
            Ok(k)
        }
        None => {
            let mut known = Known::new(symbol.id);
            known.note(symbol);
            names.known.push(known)?;
            Ok(next)
        }
    }
}

/// The lookup of a symbol's name, which has the position if this lookup has it, or if an earlier symbol has the name and it is long: by the
/// indexes of the files before, and of the symbols before.
fn lookup_by_earlier(
    symbol: &InputSymbol<'_, '_, '_>,
    lookup: Lookup,
    positions: &NameIndex<'_>,
    long: &LongSymbols<'_, '_, '_>,
    rows: &[Vec<usize>],
    row: &[usize],
) -> Lookup
    requires inputs { long.now.inputs.now ≡ symbol.now.inputs.now }
    requires rows { AreIndexRows symbol.now.inputs.now (name_position positions.now) symbol.now.id.file (map (λ row. row.items) rows.now) }
    requires row { IsIndexRow symbol.now.inputs.now (name_position positions.now) symbol.now.id.file (length row.now) row.now }
    requires lookup { IsSymbolLookup symbol.now.inputs.now (name_position positions.now) symbol.now.id.file symbol.now.id.index lookup }
    ensures { IsSymbolLookup symbol.now.inputs.now (name_position positions.now) symbol.now.id.file symbol.now.id.index result }
{
    // Few links have a long name: then no symbol is looked at here.
    if long.is_empty() || lookup.position.is_some() || symbol.symbol().name.len() <= LONG_NAME {
        return lookup;
    }
    match long.index_of(positions, rows, row, symbol.id) {
        Some(position) => Lookup {
            hash: lookup.hash,
            position: Some(position),
        },
        None => lookup,
    }
}

/// Goes past the next block of symbols of a file, and adds the index of each one's name to the row, which has those of the symbols before.
fn pass_block<'a>(
    inputs: &Inputs<'_, 'a>,
    long: &LongSymbols<'_, '_, '_>,
    file: usize,
    names: &mut KnownNames<'a>,
    rows: &[Vec<usize>],
    row: &mut Vec<usize>,
) -> Result<(), AllocError>
    requires long { long.now.inputs.now ≡ inputs.now }
    requires rows { AreIndexRows inputs.now (name_position names.old.positions) file (map (λ row. row.items) rows.now) }
    requires file { file < length inputs.now }
    requires left { length row.old.items < length (object_at inputs.now file).symbols }
    requires before { AreKnownBefore inputs.now file (length row.old.items) (name_position names.old.positions) names.old.known }
    requires indexes { IsIndexRow inputs.now (name_position names.old.positions) file (length row.old.items) row.old.items }
    ensures more { OnOk result (length row.old.items < length row.new.items) }
    ensures within { OnOk result (length row.new.items ≤ length (object_at inputs.now file).symbols) }
    ensures names { OnOk result
        (AreKnownBefore inputs.now file (length row.new.items) (name_position names.new.positions) names.new.known) }
    ensures indexes { OnOk result (IsIndexRow inputs.now (name_position names.new.positions) file (length row.new.items) row.new.items) }
    ensures kept { OnOk result (KeepsPositions (name_position names.old.positions) (name_position names.new.positions)) }
{
    let start = row.len();
    let end = start + (symbol_count(inputs.object(file)) - start).min(BLOCK);
    let lookups = block_lookups(inputs, &names.positions, file, start, end);
    for index in start..end {
        let id = SymbolId { file, index };
        let symbol = InputSymbol { inputs, id };
        let found = lookups[index - start];
        let lookup = lookup_by_earlier(&symbol, found, &names.positions, long, rows, row);
        row.push(pass_symbol(&symbol, lookup, names)?)?;
    }
    Ok(())
}

/// Goes past the symbols of a file, and returns the index of each one's name.
fn pass_file<'a>(
    alloc: Global,
    inputs: &Inputs<'_, 'a>,
    long: &LongSymbols<'_, '_, '_>,
    file: usize,
    names: &mut KnownNames<'a>,
    rows: &[Vec<usize>],
) -> Result<Vec<usize>, AllocError>
    requires long { long.now.inputs.now ≡ inputs.now }
    requires rows { AreIndexRows inputs.now (name_position names.old.positions) file (map (λ row. row.items) rows.now) }
    requires file { file < length inputs.now }
    requires before { AreKnownBefore inputs.now file 0 (name_position names.old.positions) names.old.known }
    ensures names { OnOk result
        (AreKnownBefore inputs.now file (length (object_at inputs.now file).symbols) (name_position names.new.positions) names.new.known) }
    ensures indexes { IfOk result
        (λ row. IsIndexRow inputs.now (name_position names.new.positions) file (length (object_at inputs.now file).symbols) row.items) }
    ensures kept { OnOk result (KeepsPositions (name_position names.old.positions) (name_position names.new.positions)) }
{
    let count = symbol_count(inputs.object(file));
    let mut row = Vec::with_capacity(alloc, count)?;
    while row.len() < count {
        pass_block(inputs, long, file, names, rows, &mut row)?;
    }
    Ok(row)
}

/// How many symbols the files have, as a capacity: no more names are known. It stops at the largest number.
fn all_symbol_count(inputs: &Inputs<'_, '_>) -> usize {
    let mut count: usize = 0;
    for file in 0..inputs.file_count() {
        count = count.saturating_add(symbol_count(inputs.object(file)));
    }
    count
}

/// What is known of all names, and the index of each symbol's name by file and position. It takes one search a symbol, or n log n
/// comparisons of numbers for n symbols with long names.
#[tactic(auto, unfolding(crate::specs::KnownNames::AreNameIndexes))]
pub(crate) fn known_names<'a>(
    alloc: Global,
    inputs: &Inputs<'_, 'a>,
) -> Result<(KnownNames<'a>, Vec<Vec<usize>>), AllocError>
    ensures names { IfOk result (λ both. AreAllKnown inputs.now (name_position both.0.positions) both.0.known) }
    ensures indexes { IfOk result
        (λ both. AreNameIndexes inputs.now (name_position both.0.positions) (map (λ row. row.items) both.1.items)) }
{
    let long = LongSymbols::new(alloc, inputs)?;
    let positions = NameIndex::new(alloc, all_symbol_count(inputs))?;
    let known = KnownTable::new(alloc);
    let mut names = KnownNames { positions, known };
    let mut indexes = Vec::with_capacity(alloc, inputs.file_count())?;
    for file in 0..inputs.file_count() {
        let row = pass_file(alloc, inputs, &long, file, &mut names, &indexes)?;
        indexes.push(row)?;
    }
    Ok((names, indexes))
}
