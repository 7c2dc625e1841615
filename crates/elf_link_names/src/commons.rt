//! The commons that are placed: of each name without a global definition one, of the largest size and the largest alignment
//! (gABI chapter 4, Symbol Table: `SHN_COMMON`).
ghost use Rattle.std.specs.Prelude.{◌≡◌, ◌↔◌, ◌+◌, ◌<◌, IfOk, IsTrue, MatchOption, OnOk, length};
ghost use Rattle.elf_link_files.specs.Rows.{UpTo};
ghost use Rattle.elf_link_names.specs.Resolution.{AreChosen, AreChosenIn, IsBlockOf, IsChosenOf, IsPlacedFor, AreAllRanks};
ghost use Rattle.elf_link_names.specs.Binds.{IsChosen, chosen_commons as chosen_row};

use crate::name_table::{NameTable, NamedSymbol};
use elf_link_files::{Block, Chosen, Known, SymbolId, site_in};
use std::alloc::{AllocError, Global};

/// Whether two symbols are one.
fn is_same(one: SymbolId, other: SymbolId) -> bool
    ensures { IsTrue result ↔ ((one.file ≡ other.file) × (one.index ≡ other.index)) }
{
    one.file == other.file && one.index == other.index
}

/// The common of the first symbol of a block, where this is it.
fn chosen_in(block: Block, id: SymbolId) -> Option<Chosen>
    ensures { IsBlockOf block id result }
{
    if !is_same(block.first, id) {
        return None;
    }
    Some(Chosen {
        site: site_in(id.file, id.index),
        size: block.size,
        align: block.align,
    })
}

/// The common that is placed for a symbol, by what is known of its name; None if the symbol is not the first common of the name, or
/// the name has a global definition.
fn chosen_of(known: Known, id: SymbolId) -> Option<Chosen>
    ensures { IsChosenOf known id result }
{
    if let Some(_) = known.strong {
        return None;
    }
    match known.common {
        Some(block) => chosen_in(block, id),
        None => None,
    }
}

impl<'t, 'l, 'a> NamedSymbol<'t, 'l, 'a> {
    /// The common that is placed for it; None if there is none.
    fn chosen(&self) -> Option<Chosen>
        ensures { MatchOption result (IsChosen self.now.table.now self.now.id.file self.now.id.index → ⊥)
            (IsPlacedFor self.now.table.now self.now.id) }
    {
        if !self.input().is_common() {
            return None;
        }
        chosen_of(self.table.known_of(self.id), self.id)
    }

    /// Adds the common that is placed for it to those for the symbols before it.
    fn push_chosen(&self, commons: &mut Vec<Chosen>) -> Result<(), AllocError>
        requires { AreChosenIn
            (UpTo (chosen_row self.now.table.now) self.now.id.file self.now.id.index) self.now.table.now commons.old.items }
        ensures { OnOk result
            (AreChosenIn
            (UpTo (chosen_row self.now.table.now) self.now.id.file (self.now.id.index + 1)) self.now.table.now commons.new.items) }
    {
        let Some(chosen) = self.chosen() else {
            return Ok(());
        };
        commons.push(chosen)?;
        Ok(())
    }
}

impl<'l, 'a> NameTable<'l, 'a> {
    /// Adds the commons that are placed for the symbols of a file to those of the files before it.
    fn push_chosen_of(&self, file: usize, commons: &mut Vec<Chosen>) -> Result<(), AllocError>
        requires file { file < length self.now }
        requires before { AreChosenIn (UpTo (chosen_row self.now) file 0) self.now commons.old.items }
        ensures { OnOk result (AreChosenIn (UpTo (chosen_row self.now) (file + 1) 0) self.now commons.new.items) }
    {
        for index in 0..self.symbol_count(file) {
            let id = SymbolId { file, index };
            let symbol = NamedSymbol { table: self, id };
            symbol.push_chosen(commons)?;
        }
        Ok(())
    }

    /// All commons that are placed, in the order of the first one of each name. Fails only when out of memory.
    pub(crate) fn chosen_commons(&self, alloc: Global) -> Result<Vec<Chosen>, AllocError>
        ensures { IfOk result (λ commons. AreChosen self.now commons.items) }
    {
        let mut commons = Vec::new(alloc);
        for file in 0..self.file_count() {
            self.push_chosen_of(file, &mut commons)?;
        }
        Ok(commons)
    }
}

// The position of each name's common among those that are placed, by the index of the name.

/// The commons that are placed, and their positions.
#[derive(Drop)]
pub(crate) struct PlacedCommons {
    /// All of them, in the order of the first one of each name.
    pub(crate) list: Vec<Chosen>,
    /// For each name the position of its common, where it has one.
    pub(crate) ranks: Vec<usize>,
}

impl<'l, 'a> NameTable<'l, 'a> {
    /// For each name the position of its common, where it has one. Fails only when out of memory.
    pub(crate) fn ranks(&self, alloc: Global, commons: &[Chosen]) -> Result<Vec<usize>, AllocError>
        requires { AreChosen self.now commons.now }
        ensures { IfOk result (λ ranks. AreAllRanks self.now commons.now ranks.items) }
    {
        let count = self.name_count();
        let mut ranks = vec![in alloc; 0; count]?;
        for k in 0..commons.len() {
            let site = commons[k].site;
            let index = self.index_of(SymbolId {
                file: site.file,
                index: site.index,
            });
            ranks[index] = k;
        }
        Ok(ranks)
    }

    /// All commons that are placed, with their positions by the indexes of the names. Fails only when out of memory.
    pub(crate) fn placed_commons(&self, alloc: Global) -> Result<PlacedCommons, AllocError>
        ensures chosen { IfOk result (λ placed. AreChosen self.now placed.list.items) }
        ensures ranks { IfOk result (λ placed. AreAllRanks self.now placed.list.items placed.ranks.items) }
    {
        let list = self.chosen_commons(alloc)?;
        let ranks = self.ranks(alloc, &list)?;
        Ok(PlacedCommons { list, ranks })
    }
}
