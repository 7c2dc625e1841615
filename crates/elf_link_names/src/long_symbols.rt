//! Symbols with long names, and for each the first one of the same name (gABI chapter 4, String Table).
//!
//! Names of over 1,024 bytes may share bytes. They get numbers first, by where they end in the string tables, and each has the number of
//! the first one that is equal. So only the first symbol of such a name is compared, and a hash reads its first and its last 512 bytes.
ghost use Rattle.std.specs.Prelude.{◌≡◌, ◌≢◌, ◌<◌, IfOk, IfSome, OnOk, Some, length, map};
ghost use Rattle.std.specs.Bool.{OnTrue};
ghost use Rattle.std.specs.List.{All};
ghost use Rattle.elf_field.specs.Abi.{STB_LOCAL};
ghost use Rattle.elf_link_files.specs.Files.{IsSymbolIn, symbol_with};
ghost use Rattle.elf_link_names.specs.KnownNames.{AreIndexRows, IsIndexRow};
ghost use Rattle.elf_link_names.specs.LongSymbols.{AreLongSymbols, HasSameName, IsSiteOfEntry};
ghost use Rattle.elf_link_names.specs.Tables.{name_position};
ghost use Rattle.elf_object_type.specs.Object.{binding as binding_of};
ghost use Rattle.elf_object_type.specs.ObjectView.{symbol_value};

use crate::known_names::is_local;
use crate::name_index::NameIndex;
use elf_link_files::files::symbol_count;
use elf_link_files::{Inputs, Named, Site, SymbolId, first_of_names, site_in};
use elf_object_type::{Symbol, symbol_ends};
use std::alloc::{AllocError, Global};

/// A name of more bytes is long. To hash a name of up to so many, and to compare it, takes bounded time.
pub(crate) const LONG_NAME: usize = 1024;

/// Symbols of the files of a link that are not local and have long names, in order; and for each the number of the first one of them that
/// has the same name. They are those where it is known where the name ends in the string table of its file.
#[derive(Drop)]
pub(crate) struct LongSymbols<'i, 'l, 'a> {
    inputs: &'i Inputs<'l, 'a>,
    sites: Vec<Site>,
    firsts: Vec<usize>,
    ghost same: { AreLongSymbols inputs.now sites.items firsts.items },
}

/// Whether a symbol is one of them, if it is known where its name ends.
fn is_long(symbol: &Symbol<'_>) -> bool
    ensures { OnTrue result (binding_of (symbol_value symbol.now) ≢ STB_LOCAL) }
{
    symbol.name.len() > LONG_NAME && !is_local(symbol)
}

/// Adds a symbol, if it is one of them.
fn push_symbol(
    inputs: &Inputs<'_, '_>,
    id: SymbolId,
    sites: &mut Vec<Site>,
) -> Result<(), AllocError>
    requires symbol { IsSymbolIn inputs.now id }
    requires sites { All (IsSiteOfEntry inputs.now) sites.old.items }
    ensures { OnOk result (All (IsSiteOfEntry inputs.now) sites.new.items) }
{
    if is_long(&inputs.symbol(id).symbol()) {
        sites.push(site_in(id.file, id.index))?;
    }
    Ok(())
}

/// Adds those of a file.
fn push_long(inputs: &Inputs<'_, '_>, file: usize, sites: &mut Vec<Site>) -> Result<(), AllocError>
    requires file { file < length inputs.now }
    requires sites { All (IsSiteOfEntry inputs.now) sites.old.items }
    ensures { OnOk result (All (IsSiteOfEntry inputs.now) sites.new.items) }
{
    let object = inputs.object(file);
    let ends = symbol_ends(object);
    for index in 0..ends.len().min(symbol_count(object)) {
        if ends[index] > 0 {
            push_symbol(inputs, SymbolId { file, index }, sites)?;
        }
    }
    Ok(())
}

/// Whether a site is that of an earlier symbol than this one.
fn is_before(site: Site, id: SymbolId) -> bool {
    (site.file, site.index) < (id.file, id.index)
}

impl<'i, 'l, 'a> LongSymbols<'i, 'l, 'a> {
    /// Those of these files. Takes n log n comparisons of numbers for n of them. Fails only when out of memory.
    pub(crate) fn new(
        alloc: Global,
        inputs: &'i Inputs<'l, 'a>,
    ) -> Result<LongSymbols<'i, 'l, 'a>, AllocError>
        ensures { IfOk result (λ long. long.inputs.now ≡ inputs.entry.now) }
    {
        let mut sites = Vec::new(alloc);
        for file in 0..inputs.file_count() {
            push_long(inputs, file, &mut sites)?;
        }
        let firsts = first_of_names(alloc, inputs.objects(), Named::Symbol, &sites)?;
        Ok(LongSymbols {
            inputs,
            sites,
            firsts,
        })
    }

    /// Whether there are none.
    pub(crate) fn is_empty(&self) -> bool {
        self.sites.is_empty()
    }

    /// The first symbol of the same name as this one, if this is one of them.
    fn first_of(&self, id: SymbolId) -> Option<SymbolId>
        ensures { IfSome result (HasSameName self.now.inputs.now id) }
    {
        let number = self.sites.partition_point(|it| is_before(*it, id));
        if number >= self.sites.len() {
            return None;
        }
        let own = self.sites[number];
        if own.file != id.file || own.index != id.index {
            return None;
        }
        let first = self.sites[self.firsts[number]];
        Some(SymbolId {
            file: first.file,
            index: first.index,
        })
    }

    /// The index of the name of a symbol, if it is one of them and an earlier symbol has the name: by the indexes of the files before, and
    /// of the symbols before.
    pub(crate) fn index_of(
        &self,
        positions: &NameIndex<'_>,
        rows: &[Vec<usize>],
        row: &[usize],
        id: SymbolId,
    ) -> Option<usize>
        requires rows { AreIndexRows self.now.inputs.now (name_position positions.now) id.file (map (λ row. row.items) rows.now) }
        requires row { IsIndexRow self.now.inputs.now (name_position positions.now) id.file (length row.now) row.now }
        ensures { IfSome result (λ k. name_position positions.now (symbol_with self.now.inputs.now id).name ≡ Some k) }
    {
        let first = self.first_of(id)?;
        if first.file < id.file {
            return Some(rows[first.file][first.index]);
        }
        if first.file == id.file && first.index < row.len() {
            return Some(row[first.index]);
        }
        None
    }
}
