//! What every name is bound to, with addresses (gABI chapter 4, Symbol Table: symbol binding).
ghost use Rattle.std.specs.Prelude.{◌<◌, IfOk, length, map, ◌≡◌, MatchOption, None, map as map_list};
ghost use Rattle.elf_link_files.specs.Files.{AreDiscardMarks, object_at, IsSymbolIn};
ghost use Rattle.elf_link_names.specs.Resolution.{name_in};
ghost use Rattle.elf_link_outputs.specs.Placed.{common_value};
ghost use Rattle.elf_link_map.specs.Naming.{AreIndexesIn, AreCommonNames, AreNamedAt, AreBindingPositions, IsBindingAt, AreBindingIndexes};
ghost use Rattle.elf_link_map.specs.Naming.{IsBindingIndex, IsBindingRow};
ghost use Rattle.elf_link_map.specs.LinkMap.{AreBindings, AreNames, IsBinding, named_value, bound_in, IsSomeLinkMap};
ghost use Rattle.elf_link_names.specs.Tables.{name_position};

use crate::link_map::LinkMap;
use elf_field::abi::*;
use elf_link_files::SymbolId;
use elf_link_files::files::{symbol_count, symbol_of};
use elf_link_names::{Choice, NameIndex, Resolution};
use elf_link_outputs::Common;
use elf_object_type::Object;
use std::alloc::{AllocError, Global};
use std::marker::Model;

/// What a name is bound to.
#[derive(Clone, Copy, Debug, PartialEq, Eq)]
pub enum Binding {
    /// The one global definition: this symbol of this file.
    Strong { file: usize, symbol: usize },
    /// A common of the largest size and the largest alignment.
    Common { address: u64, size: u64, align: u64 },
    /// The first weak definition: this symbol of this file.
    Weak { file: usize, symbol: usize },
    /// Zero: only weak entries, and no definition.
    Zero,
}

/// What a link map keeps of a resolution: the indexes are positions among these names.
#[derive(Drop)]
pub(crate) struct BoundNames<'a> {
    /// A mark for each section of each file, whether it is discarded.
    pub(crate) marks: Vec<Vec<bool>>,
    /// All names with their bindings, in the order of their first entries.
    pub(crate) names: Names<'a>,
    /// For each symbol of each file that is not local where its name is among them.
    pub(crate) indexes: Vec<Vec<usize>>,
}

/// What the name of index `k` is bound to.
fn binding_at(resolution: &Resolution<'_, '_>, commons: &[Common<'_>], k: usize) -> Binding
    requires index { k < length resolution.now.firsts }
    requires commons { AreCommonNames resolution.now.objects resolution.now.commons (map common_value commons.now) }
    ensures { IsBinding resolution.now.objects (map common_value commons.now) (name_in resolution.now k) result }
{
    match resolution.choice(k) {
        Choice::Strong { file, symbol } => Binding::Strong { file, symbol },
        Choice::Common { size, align } => Binding::Common {
            address: commons[resolution.common_position(k)].address,
            size,
            align,
        },
        Choice::Weak { file, symbol } => Binding::Weak { file, symbol },
        Choice::Zero => Binding::Zero,
    }
}

/// All names, and what each is bound to.
fn names_of<'a>(
    alloc: Global,
    resolution: &Resolution<'_, 'a>,
    commons: &[Common<'_>],
) -> Result<Vec<Named<'a>>, AllocError>
    requires { AreCommonNames resolution.now.objects resolution.now.commons (map common_value commons.now) }
    ensures { IfOk result
        (λ names. AreNamedAt resolution.now.objects (map common_value commons.now) resolution.now.firsts (length resolution.now.firsts)
        (map named_value names.items)) }
{
    let count = resolution.name_count();
    let mut names = Vec::with_capacity(alloc, count)?;
    for k in 0..count {
        names.push(Named {
            name: resolution.name(k),
            binding: binding_at(resolution, commons, k),
        })?;
    }
    Ok(names)
}

/// All names with their bindings, in the order of their first entries, and what else a link map keeps. The commons are those of the
/// resolution, with addresses.
pub(crate) fn all_bindings<'a>(
    alloc: Global,
    resolution: Resolution<'_, 'a>,
    commons: &[Common<'_>],
) -> Result<BoundNames<'a>, AllocError>
    requires { AreCommonNames resolution.objects resolution.commons (map common_value commons.now) }
    ensures marks { IfOk result (λ bound. AreDiscardMarks resolution.entry.objects (map (λ row. row.items) bound.marks.items)) }
    ensures bindings { IfOk result (λ bound. AreBindings resolution.entry.objects (map common_value commons.now) bound.names) }
    ensures names { IfOk result (λ bound. AreNames resolution.entry.objects bound.names) }
    ensures indexes { IfOk result
        (λ bound. AreIndexesIn resolution.entry.objects bound.names (map (λ row. row.items) bound.indexes.items)) }
{
    let list = names_of(alloc, &resolution, commons)?;
    let parts = resolution.into_parts();
    Ok(BoundNames {
        marks: parts.marks,
        names: Names::new(list, parts.positions),
        indexes: parts.indexes,
    })
}

// The names of a link map, with what each is bound to (gABI chapter 4, Symbol Table).

/// A name that is not local, and what it is bound to.
#[derive(Clone, Copy, Debug, PartialEq, Eq)]
pub struct Named<'a> {
    /// The name.
    pub name: &'a [u8],
    /// What it is bound to.
    pub binding: Binding,
}

/// Names with their bindings in order, and the position of each.
#[derive(Debug, Drop)]
pub(crate) struct Names<'a> {
    list: Vec<Named<'a>>,
    positions: NameIndex<'a>,
}

impl<'a> Model for Names<'a> {
    ghost use Rattle.std.specs.Prelude.{ℕ, List, map};
    ghost use Rattle.elf_link_map.specs.declared.bindings.Binding.{Binding};

    ghost Value = { List (List ℕ × Binding) };

    ghost use Rattle.elf_link_names.specs.Tables.{name_position};
    ghost use Rattle.elf_link_map.specs.LinkMap.{named_value};
    ghost use Rattle.elf_link_map.specs.Naming.{AreBindingPositions};

    ghost view = { λ a. map named_value a.list.items };

    ghost invariant = { λ a. AreBindingPositions (map named_value a.list.items) (name_position a.positions) };
}

impl<'a> Names<'a> {
    /// These names, whose positions are known.
    pub(crate) fn new(list: Vec<Named<'a>>, positions: NameIndex<'a>) -> Names<'a>
        requires { AreBindingPositions (map named_value list.items) (name_position positions) }
        ensures { result ≡ map named_value list.entry.items }
    {
        Names { list, positions }
    }

    /// All of them, in order.
    pub(crate) fn list(&self) -> &[Named<'a>]
        ensures { map named_value result.now ≡ self.now }
    {
        &self.list
    }

    /// The position of a name that lives as long as theirs; None if it is not there.
    pub(crate) fn position(&self, name: &'a [u8]) -> Option<usize>
        ensures { MatchOption result (bound_in self.now name.now ≡ None) (IsBindingAt self.now name.now) }
    {
        self.positions.get(name)
    }

    /// What any name is bound to; None if it is not there.
    pub(crate) fn binding(&self, name: &[u8]) -> Option<Binding>
        ensures { result ≡ bound_in self.now name.now }
    {
        match self.any_position(name) {
            Some(k) => Some(self.list[k].binding),
            None => None,
        }
    }

    /// The position of any name; None if it is not there.
    fn any_position(&self, name: &[u8]) -> Option<usize>
        ensures { MatchOption result (bound_in self.now name.now ≡ None) (IsBindingAt self.now name.now) }
    {
        match self.positions.get_at_once(name) {
            Some(position) => position,
            None => self.search(name),
        }
    }

    /// The position of a name, found by going through all bindings.
    fn search(&self, name: &[u8]) -> Option<usize>
        ensures { MatchOption result (bound_in self.now name.now ≡ None) (IsBindingAt self.now name.now) }
    {
        for k in 0..self.list.len() {
            if self.list[k].name == name {
                return Some(k);
            }
        }
        None
    }
}

// The index of each symbol's name: the position of its binding in a link map (gABI chapter 4, Symbol Table).

/// A link map, and the index of the name of each symbol.
#[derive(Drop)]
pub struct IndexedMap<'a> {
    /// The link map.
    pub map: LinkMap<'a>,
    /// For each symbol of each file that is not local where its name is among [`LinkMap::names`]; 0 for a local one.
    pub indexes: Vec<Vec<usize>>,
}

/// Where the name of a symbol is; 0 for a local symbol.
fn name_index<'a>(objects: &[Object<'a>], map: &LinkMap<'a>, id: SymbolId) -> usize
    requires map { IsSomeLinkMap objects.now map.now }
    requires symbol { IsSymbolIn objects.now id }
    ensures { IsBindingIndex objects.now map.now id.file id.index result }
{
    let symbol = symbol_of(objects, id);
    if symbol.binding() == STB_LOCAL {
        return 0;
    }
    // Each name of a symbol that is not local is there.
    map.position(symbol.name).unwrap_or(0)
}

/// The indexes of the names of a file's symbols.
fn file_indexes<'a>(
    alloc: Global,
    objects: &[Object<'a>],
    map: &LinkMap<'a>,
    file: usize,
) -> Result<Vec<usize>, AllocError>
    requires map { IsSomeLinkMap objects.now map.now }
    requires file { file < length objects.now }
    ensures { IfOk result (λ row. IsBindingRow objects.now map.now file (length (object_at objects.now file).symbols) row.items) }
{
    let count = symbol_count(&objects[file]);
    let mut row = Vec::with_capacity(alloc, count)?;
    for index in 0..count {
        row.push(name_index(objects, map, SymbolId { file, index }))?;
    }
    Ok(row)
}

/// For each symbol of each file the position of its name among [`LinkMap::names`]; 0 for a local symbol. The map is one of these objects,
/// whatever its base, page and entry are. It takes log n comparisons of names for each symbol; [`map_indexed`](crate::map_indexed)
/// returns the indexes without them. The error comes if an allocation fails. The map is never changed.
#[tactic(auto, unfolding(crate::specs::Naming::AreBindingIndexes))]
pub fn name_indexes<'a>(
    alloc: Global,
    objects: &[Object<'a>],
    map: &LinkMap<'a>,
) -> Result<Vec<Vec<usize>>, AllocError>
    requires { IsSomeLinkMap objects.now map.now }
    ensures { IfOk result (λ rows. AreBindingIndexes objects.now map.now (map_list (λ row. row.items) rows.items)) }
{
    let mut rows = Vec::with_capacity(alloc, objects.len())?;
    for file in 0..objects.len() {
        rows.push(file_indexes(alloc, objects, map, file)?)?;
    }
    Ok(rows)
}
