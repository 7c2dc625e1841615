//! The names of a link in which each is bound: what every name is bound to, and which commons are placed (gABI chapter 4, Symbol
//! Table).
ghost use Rattle.std.specs.Prelude.{◌+◌, ◌<◌, IfOk, OnOk, length, ◌≡◌, ℕ, MatchOption, map};
ghost use Rattle.elf_link_files.specs.Rows.{Lists, UpTo, AreSymbols, entries};
ghost use Rattle.elf_link_names.specs.Binds.{live_sections as live_row, AllBound, Binds, first_entries};
ghost use Rattle.elf_extent.specs.Extent.{Never};
ghost use Rattle.elf_link_files.specs.Files.{AreDiscardMarks, IsSymbolIn, symbol_with};
ghost use Rattle.elf_object_type.specs.ObjectView.{symbol_value};
ghost use Rattle.elf_link_names.specs.Tables.{name_position};
ghost use Rattle.elf_link_names.specs.declared.name_rules.Choice.TheVariants.{Common};
ghost use Rattle.elf_link_names.specs.Resolution.{AreAllRanks, AreChosen, IsCommonOf, IsIndexIn, name_in};
ghost use Rattle.elf_link_names.specs.KnownNames.{AreNameIndexes, ArePositionsOf};

use crate::commons::PlacedCommons;
use crate::known_names::KnownNames;
use crate::name_index::NameIndex;
use crate::name_rules::{Choice, choice_of};
use crate::name_table::NameTable;
use elf_link_files::files::section_count;
use elf_link_files::{Chosen, InputSection, Inputs, SectionId, Site, SymbolId, site_in};
use elf_object_type::{Object, Symbol};
use std::alloc::{AllocError, Global};
use std::marker::Model;

// The live sections of the files, in order.

/// Adds a section to the live ones before it, where it is live.
fn push_live(section: &InputSection<'_, '_, '_>, sites: &mut Vec<Site>) -> Result<(), AllocError>
    requires { Lists (UpTo (live_row section.now.inputs.now) section.now.id.file section.now.id.index) sites.old.items }
    ensures { OnOk result (Lists (UpTo (live_row section.now.inputs.now) section.now.id.file (section.now.id.index + 1)) sites.new.items) }
{
    if !section.is_live() {
        return Ok(());
    }
    sites.push(site_in(section.id.file, section.id.index))?;
    Ok(())
}

/// Adds the live sections of a file to those of the files before it.
fn push_live_of(
    inputs: &Inputs<'_, '_>,
    file: usize,
    sites: &mut Vec<Site>,
) -> Result<(), AllocError>
    requires file { file < length inputs.now }
    requires before { Lists (UpTo (live_row inputs.now) file 0) sites.old.items }
    ensures { OnOk result (Lists (UpTo (live_row inputs.now) (file + 1) 0) sites.new.items) }
{
    for index in 0..section_count(inputs.object(file)) {
        push_live(&inputs.section(SectionId { file, index }), sites)?;
    }
    Ok(())
}

/// All live sections, by file and position. Fails only when out of memory.
pub(crate) fn live_sections(alloc: Global, inputs: &Inputs<'_, '_>) -> Result<Vec<Site>, AllocError>
    ensures { IfOk result (λ sites. Lists (live_row inputs.now) sites.items) }
{
    let mut sites = Vec::new(alloc);
    for file in 0..inputs.file_count() {
        push_live_of(inputs, file, &mut sites)?;
    }
    Ok(sites)
}

/// The files of a link in which each name is bound, with the commons that are placed. A name is reported by its index: its position among
/// all names that are not local, in the order of the first entry of each. To a contract it is the files, these first entries and these
/// commons.
#[derive(Drop)]
pub struct Resolution<'l, 'a> {
    inputs: Inputs<'l, 'a>,
    names: KnownNames<'a>,
    indexes: Vec<Vec<usize>>,
    commons: Vec<Chosen>,
    ranks: Vec<usize>,
}

impl<'l, 'a> Model for Resolution<'l, 'a> {
    ghost use Rattle.elf_link_names.specs.Resolution.{ResolutionValue};

    ghost Value = { ResolutionValue };

    ghost use Rattle.elf_link_names.specs.Resolution.{IsResolution, resolution_value};

    ghost view = { resolution_value };

    ghost invariant = { IsResolution };
}

/// What outlives a resolution.
#[derive(Drop)]
pub struct ResolutionParts<'a> {
    /// A mark for each section of each file, whether it is discarded.
    pub marks: Vec<Vec<bool>>,
    /// The index of each name.
    pub positions: NameIndex<'a>,
    /// For each symbol of each file that is not local the index of its name.
    pub indexes: Vec<Vec<usize>>,
}

impl<'l, 'a> Resolution<'l, 'a> {
    /// These names, each of which is bound, with their commons that are placed.
    pub(crate) fn new(table: NameTable<'l, 'a>, placed: PlacedCommons) -> Resolution<'l, 'a>
        requires bound { AllBound table }
        requires chosen { AreChosen table placed.list.items }
        requires ranks { AreAllRanks table placed.list.items placed.ranks.items }
        ensures { result.objects ≡ table.entry }
    {
        Resolution {
            inputs: table.inputs,
            names: table.names,
            indexes: table.indexes,
            commons: placed.list,
            ranks: placed.ranks,
        }
    }

    /// A symbol of a file.
    pub fn symbol(&self, id: SymbolId) -> Symbol<'a>
        requires { IsSymbolIn self.now.objects id }
        ensures { symbol_value result ≡ symbol_with self.now.objects id }
    {
        self.inputs.symbol(id).symbol()
    }

    /// The files.
    pub fn objects(&self) -> &'l [Object<'a>]
        ensures { result.now ≡ self.now.objects }
    {
        self.inputs.objects()
    }

    /// The commons that are placed, in the order of the first one of each name.
    pub fn commons(&self) -> &[Chosen]
        ensures commons { result.now ≡ self.now.commons }
        ensures chosen { AreChosen self.now.objects result.now }
        ensures symbols { AreSymbols self.now.objects result.now }
    {
        &self.commons
    }

    /// All live sections, by file and position. Fails only when out of memory.
    pub fn live_sections(&self, alloc: Global) -> Result<Vec<Site>, AllocError>
        ensures { IfOk result (λ sites. Lists (live_row self.now.objects) sites.items) }
    {
        live_sections(alloc, &self.inputs)
    }

    /// How many names there are.
    pub fn name_count(&self) -> usize
        ensures { result ≡ length self.now.firsts }
    {
        self.names.known.len()
    }

    /// The index of a name; None if no symbol that is not local has it.
    pub fn index(&self, name: &[u8]) -> Option<usize>
        ensures { MatchOption result (Never (entries self.now.objects name.now)) (IsIndexIn self.now name.now) }
    {
        match self.names.positions.get_at_once(name) {
            Some(index) => index,
            None => self.search(name),
        }
    }

    /// The index of a name, found by going through all names.
    fn search(&self, name: &[u8]) -> Option<usize>
        ensures { MatchOption result (Never (entries self.now.objects name.now)) (IsIndexIn self.now name.now) }
    {
        for k in 0..self.names.known.len() {
            if self.name(k) == name {
                return Some(k);
            }
        }
        None
    }

    /// The name of index `k`.
    pub fn name(&self, k: usize) -> &'a [u8]
        requires { k < length self.now.firsts }
        ensures { result.now ≡ name_in self.now k }
    {
        self.inputs
            .symbol(self.names.known.item(k).first)
            .symbol()
            .name
    }

    /// What the name of index `k` is bound to.
    pub fn choice(&self, k: usize) -> Choice
        requires { k < length self.now.firsts }
        ensures { Binds self.now.objects (name_in self.now k) result }
    {
        choice_of(self.names.known.item(k))
    }

    /// The position of the common of name `k` among those that are placed.
    pub fn common_position(&self, k: usize) -> usize
        requires name { k < length self.now.firsts }
        requires common { (size : ℕ) × (align : ℕ) × Binds self.now.objects (name_in self.now k) (Common size align) }
        ensures { IsCommonOf self.now.objects self.now.commons (name_in self.now k) result }
    {
        self.ranks[k]
    }

    /// The resolution's parts, for what outlives it.
    pub fn into_parts(self) -> ResolutionParts<'a>
        ensures marks { AreDiscardMarks self.entry.objects (map (λ row. row.items) result.marks.items) }
        ensures firsts { Lists (first_entries self.entry.objects) self.entry.firsts }
        ensures positions { ArePositionsOf self.entry.objects self.entry.firsts (length self.entry.firsts)
            (name_position result.positions) }
        ensures indexes { AreNameIndexes self.entry.objects (name_position result.positions) (map (λ row. row.items) result.indexes.items) }
    {
        let names = self.names;
        ResolutionParts {
            marks: self.inputs.into_marks(),
            positions: names.positions,
            indexes: self.indexes,
        }
    }
}
