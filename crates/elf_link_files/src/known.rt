//! What is known of a name, which one pass over all symbols finds out: its first definitions, its commons, and what else needs it (gABI
//! chapter 4, Symbol Table).
ghost use Rattle.std.specs.Prelude.{◌≡◌, ◌↔◌, ◌+◌, None, false, IsTrue};
ghost use Rattle.elf_link_files.specs.Files.{symbol_with, IsCommon};
ghost use Rattle.elf_link_files.specs.KnownBefore.{IsBlock, IsCommonBest, IsKnownBefore, IsLargerOf, SomeBefore, first_or};
ghost use Rattle.elf_link_files.specs.Rows.{not_weak as not_weak_row};

use crate::inputs::{InputSymbol, SymbolId};
use elf_field::abi::*;

/// The commons of a name: the first one, and the largest size and alignment of all.
#[derive(Clone, Copy)]
pub struct Block {
    /// The first one.
    pub first: SymbolId,
    /// The largest size.
    pub size: u64,
    /// The largest alignment.
    pub align: u64,
}

/// What is known of a name.
#[derive(Clone, Copy)]
pub struct Known {
    /// The name's first entry.
    pub first: SymbolId,
    /// Whether it has an entry that is not weak.
    pub not_weak: bool,
    /// The first global definition.
    pub strong: Option<SymbolId>,
    /// The first weak definition.
    pub weak: Option<SymbolId>,
    /// The commons of the name.
    pub common: Option<Block>,
}

/// Notes a symbol as the first one, where it passes and none has been noted.
fn note_first(best: &mut Option<SymbolId>, passes: bool, id: SymbolId)
    ensures { best.new ≡ first_or best.old passes id }
{
    if passes && best.is_none() {
        *best = Some(id);
    }
}

/// The larger one of two numbers.
fn larger(most: u64, other: u64) -> u64
    ensures { IsLargerOf most other result }
{
    if most < other { other } else { most }
}

/// The commons of a name, where this symbol is one more.
fn joined(symbol: &InputSymbol<'_, '_, '_>, block: Option<Block>) -> Block
    requires common { IsCommon symbol.now.inputs.now
        (symbol_with symbol.now.inputs.now symbol.now.id).name symbol.now.id.file symbol.now.id.index }
    requires before { IsCommonBest symbol.now.inputs.now
        (symbol_with symbol.now.inputs.now symbol.now.id).name symbol.now.id.file symbol.now.id.index block }
    ensures { IsBlock symbol.now.inputs.now (symbol_with symbol.now.inputs.now symbol.now.id).name symbol.now.id.file
        (symbol.now.id.index + 1) result }
{
    let own = symbol.symbol();
    match block {
        Some(block) => Block {
            first: block.first,
            size: larger(block.size, own.size),
            align: larger(block.align, own.value),
        },
        None => Block {
            first: symbol.id,
            size: own.size,
            align: own.value,
        },
    }
}

/// Adds a symbol to the commons of its name, where it is one.
fn note_common(symbol: &InputSymbol<'_, '_, '_>, block: &mut Option<Block>)
    requires { IsCommonBest symbol.now.inputs.now
        (symbol_with symbol.now.inputs.now symbol.now.id).name symbol.now.id.file symbol.now.id.index block.old }
    ensures { IsCommonBest symbol.now.inputs.now (symbol_with symbol.now.inputs.now symbol.now.id).name symbol.now.id.file
        (symbol.now.id.index + 1) block.new }
{
    if symbol.is_common() {
        *block = Some(joined(symbol, *block));
    }
}

/// Notes that a symbol's name has an entry that is not weak, where the symbol is one.
fn note_not_weak(symbol: &InputSymbol<'_, '_, '_>, found: &mut bool)
    requires { IsTrue found.old ↔
        SomeBefore (not_weak_row symbol.now.inputs.now (symbol_with symbol.now.inputs.now symbol.now.id).name) symbol.now.id.file
        symbol.now.id.index }
    ensures { IsTrue found.new ↔
        SomeBefore (not_weak_row symbol.now.inputs.now (symbol_with symbol.now.inputs.now symbol.now.id).name) symbol.now.id.file
        (symbol.now.id.index + 1) }
{
    if symbol.is_not_weak() {
        *found = true;
    }
}

impl Known {
    /// What is known of a name before its first entry is looked at, which is this symbol.
    pub fn new(first: SymbolId) -> Known
        ensures { result ≡ record { first = first; strong = None; weak = None; common = None; not_weak = false } }
    {
        Known {
            first,
            not_weak: false,
            strong: None,
            weak: None,
            common: None,
        }
    }

    /// Adds a symbol of the name, of which this is known from the symbols before it.
    pub fn note(&mut self, symbol: &InputSymbol<'_, '_, '_>)
        requires { IsKnownBefore symbol.now.inputs.now
            (symbol_with symbol.now.inputs.now symbol.now.id).name symbol.now.id.file symbol.now.id.index self.old }
        ensures known { IsKnownBefore symbol.now.inputs.now (symbol_with symbol.now.inputs.now symbol.now.id).name symbol.now.id.file
            (symbol.now.id.index + 1) self.new }
        ensures first { self.new.first ≡ self.old.first }
    {
        let strong = symbol.is_definition(STB_GLOBAL);
        let weak = symbol.is_definition(STB_WEAK);
        note_first(&mut self.strong, strong, symbol.id);
        note_first(&mut self.weak, weak, symbol.id);
        note_common(symbol, &mut self.common);
        note_not_weak(symbol, &mut self.not_weak);
    }
}
