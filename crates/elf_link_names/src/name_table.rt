//! The names of the files of a link, before rules 8 and 9 are asked.
ghost use Rattle.std.specs.Prelude.{◌≡◌, ◌<◌, IfOk, length};
ghost use Rattle.elf_link_files.specs.Files.{object_at, IsSymbolIn, symbol_with};
ghost use Rattle.elf_link_names.specs.KnownNames.{IsEntryIn, IsKnownWhole};
ghost use Rattle.elf_link_names.specs.Resolution.{IsNameCount, IsIndexOf};

use crate::known_names::{KnownNames, known_names};
use elf_link_files::files::symbol_count;
use elf_link_files::{InputSymbol, Inputs, Known, SymbolId};
use std::alloc::{AllocError, Global};
use std::marker::Model;

/// The files of a link with what is known of each of their names. To a contract it is the files.
#[derive(Drop)]
pub(crate) struct NameTable<'l, 'a> {
    pub(crate) inputs: Inputs<'l, 'a>,
    pub(crate) names: KnownNames<'a>,
    pub(crate) indexes: Vec<Vec<usize>>,
}

impl<'l, 'a> Model for NameTable<'l, 'a> {
    ghost use Rattle.std.specs.Prelude.{List};
    ghost use Rattle.elf_object_type.specs.Object.{ObjectValue};

    ghost Value = { List ObjectValue };

    ghost use Rattle.elf_link_names.specs.KnownNames.{IsTableOfNames, objects_of_table};

    ghost view = { objects_of_table };

    ghost invariant = { IsTableOfNames };
}

impl<'l, 'a> NameTable<'l, 'a> {
    /// The names of these files, from one pass over all symbols.
    pub(crate) fn new(
        alloc: Global,
        inputs: Inputs<'l, 'a>,
    ) -> Result<NameTable<'l, 'a>, AllocError>
        ensures { IfOk result (λ table. table ≡ inputs.entry) }
    {
        let (names, indexes) = known_names(alloc, &inputs)?;
        Ok(NameTable {
            inputs,
            names,
            indexes,
        })
    }

    /// How many files there are.
    pub(crate) fn file_count(&self) -> usize
        ensures { result ≡ length self.now }
    {
        self.inputs.file_count()
    }

    /// How many symbols a file has.
    pub(crate) fn symbol_count(&self, file: usize) -> usize
        requires { file < length self.now }
        ensures { result ≡ length (object_at self.now file).symbols }
    {
        symbol_count(self.inputs.object(file))
    }

    /// How many names there are.
    pub(crate) fn name_count(&self) -> usize
        ensures { IsNameCount self.now result }
    {
        self.names.known.len()
    }

    /// The index of the name of a symbol, which is not local.
    #[tactic(auto, unfolding(crate::specs::KnownNames::AreNameIndexes))]
    pub(crate) fn index_of(&self, id: SymbolId) -> usize
        requires { IsEntryIn self.now id }
        ensures { IsIndexOf self.now (symbol_with self.now id).name result }
    {
        self.indexes[id.file][id.index]
    }

    /// What is known of the name of a symbol, which is not local.
    pub(crate) fn known_of(&self, id: SymbolId) -> Known
        requires { IsEntryIn self.now id }
        ensures { IsKnownWhole self.now (symbol_with self.now id).name result }
    {
        self.names.known.item(self.index_of(id))
    }

    /// A symbol of a file.
    pub(crate) fn symbol(&self, id: SymbolId) -> NamedSymbol<'_, 'l, 'a>
        requires { IsSymbolIn self.now id }
        ensures table { result.table.now ≡ self.now }
        ensures id { result.id ≡ id }
    {
        NamedSymbol { table: self, id }
    }

    /// A symbol of a file, by itself.
    pub(crate) fn input(&self, id: SymbolId) -> InputSymbol<'_, 'l, 'a>
        requires { IsSymbolIn self.now id }
        ensures inputs { result.inputs.now ≡ self.now }
        ensures id { result.id ≡ id }
    {
        self.inputs.symbol(id)
    }
}

// A symbol of the files of a link, with what is known of their names.

/// A symbol of the files of a link, which is there, with what is known of their names: [`NameTable::symbol`] makes it.
#[derive(Drop)]
pub(crate) struct NamedSymbol<'t, 'l, 'a> {
    /// The names.
    pub(crate) table: &'t NameTable<'l, 'a>,
    /// Where it is in the files.
    pub(crate) id: SymbolId,
    ghost there: { IsSymbolIn table.now id },
}

impl<'t, 'l, 'a> NamedSymbol<'t, 'l, 'a> {
    /// It by itself.
    pub(crate) fn input(&self) -> InputSymbol<'t, 'l, 'a>
        ensures inputs { result.inputs.now ≡ self.now.table.now }
        ensures id { result.id ≡ self.now.id }
    {
        self.table.input(self.id)
    }
}
