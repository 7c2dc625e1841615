//! The values of symbols at the addresses of a link map (gABI chapter 4, Symbol Table: `st_value`).
//!
//! The value of a name is computed for each relocation that asks. It is two look-ups; a list of values would take 32 bytes a name.
ghost use Rattle.std.specs.Prelude.{◌≡◌, ◌≢◌, ◌+◌, ◌<◌, IfSome, length, map as map_list};
ghost use Rattle.elf_field.specs.Abi.{STB_LOCAL};
ghost use Rattle.elf_link_files.specs.Files.{object_at, symbol_in};
ghost use Rattle.elf_link_map.specs.Naming.{AreBindingIndexes, IsBindingAt};
ghost use Rattle.elf_object_type.specs.Object.{binding as binding_of};
ghost use Rattle.elf_object_type.specs.declared.parts.Place.TheVariants.{In as InSection};
ghost use Rattle.elf_link_relocate.specs.Fields.{IsSmall, binding_value as binding_value_of, definition_value as definition_value_of};
ghost use Rattle.elf_link_relocate.specs.Fields.{name_value as name_value_of, place_value as place_value_of, reference_value};
ghost use Rattle.elf_link_relocate.specs.Fields.{resolved_value as resolved_value_of};
ghost use Rattle.elf_link_relocate.specs.Views.{IsFileSymbol};

use elf_field::abi::*;
use elf_link_field::RelocRule;
use elf_link_files::SymbolId;
use elf_link_map::files::symbol_of;
use elf_link_map::{Binding, LinkMap};
use elf_object_type::{Object, Place};
use std::marker::Model;

// What the passes over the entries and the fields look at.

/// The objects of a link, their map, and the relocation rules. The map says which sections are discarded, and its sections share no byte.
#[derive(Drop)]
pub(crate) struct Linking<'l, 'a> {
    pub(crate) objects: &'l [Object<'a>],
    pub(crate) map: &'l LinkMap<'a>,
    pub(crate) rules: &'l [RelocRule],
}

impl<'l, 'a> Model for Linking<'l, 'a> {
    ghost use Rattle.elf_link_relocate.specs.Passes.{LinkingValue};

    ghost Value = { LinkingValue };

    ghost use Rattle.elf_link_relocate.specs.Views.{IsReady, linking_value};

    ghost view = { linking_value };

    ghost invariant = { IsReady };
}

/// The value so far after the start of a section of a file.
fn section_value(map: &LinkMap<'_>, file: usize, section: usize, value: u64) -> Option<u128>
    ensures value { result ≡ place_value_of map.now file (InSection section) value }
    ensures small { IsSmall result }
{
    match map.address(file, section) {
        Some(address) => Some(address as u128 + value as u128),
        None => None,
    }
}

/// The value of a symbol of a file by its place.
fn place_value(map: &LinkMap<'_>, file: usize, place: Place, value: u64) -> Option<u128>
    ensures value { result ≡ place_value_of map.now file place value }
    ensures small { IsSmall result }
{
    match place {
        Place::Undef | Place::Common => None,
        Place::Abs => Some(value as u128),
        Place::In(section) => section_value(map, file, section, value),
    }
}

/// The value that a symbol has itself; None if no symbol is at that position.
fn definition_value(
    objects: &[Object<'_>],
    map: &LinkMap<'_>,
    file: usize,
    symbol: usize,
) -> Option<u128>
    ensures value { result ≡ definition_value_of objects.now map.now file symbol }
    ensures small { IsSmall result }
{
    if file >= objects.len() {
        return None;
    }
    let symbols = objects[file].symbols();
    if symbol >= symbols.len() {
        return None;
    }
    let symbol = symbols[symbol];
    place_value(map, file, symbol.place, symbol.value)
}

/// The value of a binding: that of its definition, a common's address, or zero; None if the definition lies in a section that
/// has no address. It is a whole number: the sum of an address and a `st_value` can have 65 bits.
pub fn binding_value(objects: &[Object<'_>], map: &LinkMap<'_>, binding: Binding) -> Option<u128>
    ensures value { result ≡ binding_value_of objects.now map.now binding }
    ensures small { IsSmall result }
{
    match binding {
        Binding::Strong { file, symbol } => definition_value(objects, map, file, symbol),
        Binding::Common { address, .. } => Some(address as u128),
        Binding::Weak { file, symbol } => definition_value(objects, map, file, symbol),
        Binding::Zero => Some(0),
    }
}

/// A link with the index of each symbol's name by file and position. The value of a name is worked out where it is asked for.
#[derive(Drop)]
pub(crate) struct Values<'v, 'l, 'a> {
    pub(crate) linking: &'v Linking<'l, 'a>,
    pub(crate) indexes: &'v [Vec<usize>],
}

impl<'v, 'l, 'a> Model for Values<'v, 'l, 'a> {
    ghost use Rattle.elf_link_relocate.specs.Passes.{LinkingValue};

    ghost Value = { LinkingValue };

    ghost use Rattle.elf_link_relocate.specs.Views.{HasValues, values_value};

    ghost view = { values_value };

    ghost invariant = { HasValues };
}

impl<'v, 'l, 'a> Values<'v, 'l, 'a> {
    /// A link whose names have these indexes.
    pub(crate) fn new(linking: &'v Linking<'l, 'a>, indexes: &'v [Vec<usize>]) -> Values<'v, 'l, 'a>
        requires { AreBindingIndexes linking.now.objects linking.now.map (map_list (λ row. row.items) indexes.now) }
        ensures { result ≡ linking.entry.now }
    {
        Values { linking, indexes }
    }

    /// The link.
    pub(crate) fn linking(&self) -> &'v Linking<'l, 'a>
        ensures { result.now ≡ self.now }
    {
        self.linking
    }

    /// Where the name of the symbol at `index` of a file, which is not local, is among the names of the map.
    #[tactic(auto, unfolding(elf_link_map::specs::Naming::AreBindingIndexes))]
    fn name_index(&self, file: usize, index: usize) -> usize
        requires symbol { IsFileSymbol self.now.objects file index }
        requires entry { binding_of (symbol_in self.now.objects file index) ≢ STB_LOCAL }
        ensures { IsBindingAt self.now.map.bindings (symbol_in self.now.objects file index).name result }
    {
        let indexes = self.indexes;
        indexes[file][index]
    }

    /// The value of the name of the symbol at `index` of a file, which is not local.
    fn name_value(&self, file: usize, index: usize) -> Option<u128>
        requires symbol { IsFileSymbol self.now.objects file index }
        requires entry { binding_of (symbol_in self.now.objects file index) ≢ STB_LOCAL }
        ensures value { result ≡ name_value_of self.now.objects self.now.map (symbol_in self.now.objects file index).name }
        ensures small { IsSmall result }
    {
        let linking = self.linking();
        let names = linking.map.names();
        let k = self.name_index(file, index);
        binding_value(linking.objects, linking.map, names[k].binding)
    }

    /// The value of a symbol: its own where it is local, and else that of its name.
    fn resolved_value(&self, file: usize, index: usize) -> Option<u128>
        requires symbol { IsFileSymbol self.now.objects file index }
        ensures value { result ≡ resolved_value_of self.now.objects self.now.map file index }
        ensures small { IsSmall result }
    {
        let linking = self.linking();
        let symbol = symbol_of(linking.objects, SymbolId { file, index });
        if symbol.binding() == STB_LOCAL {
            definition_value(linking.objects, linking.map, file, index)
        } else {
            self.name_value(file, index)
        }
    }

    /// The value of a reference from a file to one of its symbols: 0 if it names none.
    pub(crate) fn reference(&self, file: usize, symbol: Option<usize>) -> Option<u128>
        requires { IfSome symbol (IsFileSymbol self.now.objects file) }
        ensures value { result ≡ reference_value self.now.objects self.now.map file symbol }
        ensures small { IsSmall result }
    {
        match symbol {
            Some(index) => self.resolved_value(file, index),
            None => Some(0),
        }
    }
}
