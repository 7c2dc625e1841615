//! The first definition of a name, where rule 8 of the link is broken by a later one.
ghost use Rattle.std.specs.Prelude.{◌≡◌, ◌<◌, ◌↔◌, ◌⊎◌, IfOk, IsTrue, MatchOption, None, length, map};
ghost use Rattle.elf_extent.specs.Extent.{Never};
ghost use Rattle.elf_link_files.specs.Files.{IsStrong, IsSymbolIn};
ghost use Rattle.elf_link_files.specs.KnownBefore.{id_site};
ghost use Rattle.elf_link_files.specs.Rows.{IsFirstAt, strong};
ghost use Rattle.elf_tool_link.specs.Definitions.{HasNoStrong, IsFirstDefinition, IsFirstOfSymbol, IsFirstStrong};

use crate::mapped::{FileFault, objects_of};
use elf_field::abi::*;
use elf_link_files::{InputSymbol, Inputs, SymbolId};
use elf_object_type::Object;
use std::alloc::{AllocError, Global};

/// The first global definition of the name that a symbol of files of these bytes has, by file and position. [`None`] if it has none, if
/// there is no such symbol, or if a file is no object.
///
/// Fails only when out of memory.
pub fn first_definition(
    alloc: Global,
    files: &[&[u8]],
    symbol: SymbolId,
) -> Result<Option<SymbolId>, AllocError>
    ensures { IfOk result (IsFirstDefinition (map (λ f. f.now) files.now) symbol) }
{
    match objects_of(alloc, files) {
        Ok(objects) => first_of_symbol(alloc, &objects, symbol),
        Err(FileFault::Refused { .. }) => Ok(None),
        Err(FileFault::OutOfMemory) => Err(AllocError),
    }
}

/// The same of objects.
fn first_of_symbol(
    alloc: Global,
    objects: &[Object<'_>],
    symbol: SymbolId,
) -> Result<Option<SymbolId>, AllocError>
    ensures { let fs = objects.now in
        IfOk result (λ found. (IsSymbolIn fs symbol × IsFirstOfSymbol fs symbol found) ⊎ ((¬ IsSymbolIn fs symbol) × (found ≡ None))) }
{
    let inputs = Inputs::new(alloc, objects)?;
    if !has_symbol(objects, symbol) {
        return Ok(None);
    }
    Ok(first_of_named(&inputs, symbol))
}

/// Whether there is such a symbol.
fn has_symbol(objects: &[Object<'_>], symbol: SymbolId) -> bool
    ensures { IsTrue result ↔ IsSymbolIn objects.now symbol }
{
    symbol.file < objects.len() && symbol.index < objects[symbol.file].symbols().len()
}

/// The first global definition of the name of a symbol that is there.
fn first_of_named(inputs: &Inputs<'_, '_>, symbol: SymbolId) -> Option<SymbolId>
    requires { IsSymbolIn inputs.now symbol }
    ensures { IsFirstOfSymbol inputs.now symbol result }
{
    let named = inputs.symbol(symbol).symbol();
    first_strong(inputs, named.name)
}

/// Whether a symbol is a global definition of a name.
fn is_strong(symbol: &InputSymbol<'_, '_, '_>, name: &[u8]) -> bool
    ensures { IsTrue result ↔ IsStrong symbol.now.inputs.now name.now symbol.now.id.file symbol.now.id.index }
{
    // The name last: it may be long, and many symbols may share it.
    symbol.is_definition(STB_GLOBAL) && symbol.symbol().name == name
}

/// The first global definition of a name in a file.
fn first_strong_in(inputs: &Inputs<'_, '_>, name: &[u8], file: usize) -> Option<usize>
    requires { file < length inputs.now }
    ensures { MatchOption result (HasNoStrong inputs.now name.now file) (IsFirstStrong inputs.now name.now file) }
{
    for index in 0..inputs.object(file).symbols().len() {
        if is_strong(&inputs.symbol(SymbolId { file, index }), name) {
            return Some(index);
        }
    }
    None
}

/// The first global definition of a name, by file and position.
fn first_strong(inputs: &Inputs<'_, '_>, name: &[u8]) -> Option<SymbolId>
    ensures { MatchOption result (Never (strong inputs.now name.now)) (λ id. IsFirstAt (strong inputs.now name.now) (id_site id)) }
{
    for file in 0..inputs.file_count() {
        if let Some(index) = first_strong_in(inputs, name, file) {
            return Some(SymbolId { file, index });
        }
    }
    None
}
