//! The names of an object's symbols and sections, as string tables (gABI chapter 4, String Table).
ghost use Rattle.std.specs.Prelude.{◌≡◌, ◌++◌, IfErr, IfOk, map};
ghost use Rattle.std.specs.List.{list_any};
ghost use Rattle.elf_object_layout.specs.Laid.{has_index_table, is_far, section_names};
ghost use Rattle.elf_object_layout.specs.StringTables.{AreNameTables, last_names};
ghost use Rattle.elf_object_layout.specs.declared.layout.LayoutFault.TheVariants.{OutOfMemory};

use crate::layout::LayoutFault;
use elf_field::abi::*;
use elf_object_strings::{Shared, shared_table_at};
use elf_object_type::{Object, Place, Section, Symbol, section_ends, symbol_ends};
use std::alloc::{AllocError, Global};

/// The string table of the symbols, and the section name string table.
#[derive(Drop)]
pub struct NameTables {
    /// `.strtab`, and where the name of each symbol begins in it.
    pub strings: Shared,
    /// `.shstrtab`, and where the name of each section begins in it, from section index 1 on.
    pub names: Shared,
}

impl NameTables {
    /// The tables of an object. [`LayoutFault::OutOfMemory`] comes only if an allocation fails.
    pub fn new(alloc: Global, object: &Object<'_>) -> Result<NameTables, LayoutFault>
        ensures ok { IfOk result (AreNameTables object.now) }
        ensures err { IfErr result (λ fault. fault ≡ OutOfMemory) }
    {
        let symbol_names = symbol_names(alloc, object.symbols())?;
        let strings = shared_table_at(alloc, &symbol_names, symbol_ends(object))?;
        let section_names = section_names(alloc, object)?;
        let names = shared_table_at(alloc, &section_names, section_ends(object))?;
        Ok(NameTables { strings, names })
    }
}

/// The names of the symbols.
fn symbol_names<'a>(alloc: Global, symbols: &[Symbol<'a>]) -> Result<Vec<&'a [u8]>, AllocError>
    ensures { IfOk result (λ names. names.items ≡ map (λ symbol. symbol.name) symbols.now) }
{
    symbols.iter().map(|symbol| symbol.name).collect(alloc)
}

/// The names of the object's own sections.
fn own_names<'a>(alloc: Global, sections: &[Section<'a>]) -> Result<Vec<&'a [u8]>, AllocError>
    ensures { IfOk result (λ names. names.items ≡ map (λ section. section.name) sections.now) }
{
    sections.iter().map(|section| section.name).collect(alloc)
}

/// The names of the sections from section index 1 on, those of the last four after the object's own.
fn section_names<'a>(alloc: Global, object: &Object<'a>) -> Result<Vec<&'a [u8]>, AllocError>
    ensures { IfOk result (λ names. map (λ name. name.now) names.items ≡ section_names object.now) }
{
    let mut names = own_names(alloc, object.sections())?;
    push_last_names(&mut names, has_index_table(object))?;
    Ok(names)
}

/// Adds the names of the sections after the object's own, that of the index table only where there is one.
fn push_last_names(names: &mut Vec<&[u8]>, has_index_table: bool) -> Result<(), AllocError>
    ensures { IfOk result (λ done. map (λ name. name.now) names.new.items ≡
        map (λ name. name.now) names.old.items ++ last_names has_index_table) }
{
    names.push(b".symtab")?;
    if has_index_table {
        names.push(b".symtab_shndx")?;
    }
    names.push(b".strtab")?;
    names.push(b".shstrtab")?;
    Ok(())
}

/// Whether a symbol lies in a section whose index its `st_shndx` can't hold.
pub(crate) fn has_index_table(object: &Object<'_>) -> bool
    ensures { result ≡ has_index_table object.now }
{
    object.prove_rules();
    // A symbol lies in one of the sections, so that none is far where these are few.
    object.sections().len() >= SHN_LORESERVE as usize && has_far_symbol(object.symbols())
}

fn has_far_symbol(symbols: &[Symbol<'_>]) -> bool
    ensures { result ≡ list_any (λ symbol. is_far symbol.place) symbols.now }
{
    symbols.iter().any(|symbol| is_far(symbol.place))
}

fn is_far(place: Place) -> bool
    ensures { result ≡ is_far place }
{
    match place {
        Place::In(position) => position >= SHN_LORESERVE as usize - 1,
        _ => false,
    }
}
