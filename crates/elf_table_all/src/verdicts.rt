//! The verdicts on the tables of an image: each symbol table is validated once, and its verdict serves every table that links to it.
ghost use Rattle.std.specs.Prelude.{◌≡◌, ◌≢◌, ℕ, IfOk, OnOk, length, ◌<◌, Some};
ghost use Rattle.elf_table_symbols.specs.Symbols.{noted, symbol_table_rules, AreSymbolVerdicts};
ghost use Rattle.elf_table_symbols.specs.Sections.{count, sections_of, sections_seen, section, kind_of};
ghost use Rattle.elf_table_all.specs.Tables.{AreAllIndexTables, index_tables_at, table_rules, AreVerdicts, IsVerdictOf};
ghost use Rattle.elf_image_rules.specs.Rows.{fault_of, FirstIn};
ghost use Rattle.elf_table_symbols.specs.declared.table_section.TableKind.TheVariants as kind;

use elf_field::abi::*;
use elf_image_rules::Broken;
use elf_image_stream::BytesFault;
use elf_image_type::Image;
use elf_table_hash::{NameHashes, validate_hash_table};
use elf_table_lists::{
    validate_dynamic_section, validate_group_section, validate_note_section,
    validate_relocation_section,
};
use elf_table_symbols::{
    IndexTables, SectionsOf, SymbolVerdicts, TableKind, TableSection, Verdicts,
    validate_symbol_table,
};
use std::alloc::{AllocError, Global};
use std::collections::BTreeMap;

// The index tables of an image, found in one pass over its section headers (gABI chapter 4, Sections: SHT_SYMTAB_SHNDX).

/// The first two index tables of each symbol table. Only symbol tables that have one take memory.
#[derive(Drop)]
pub(crate) struct AllIndexTables {
    // By the index of the symbol table.
    noted: BTreeMap<usize, IndexTables>,
}

impl AllIndexTables {
    /// Those of this image.
    pub(crate) fn new(alloc: Global, image: &Image<'_>) -> Result<AllIndexTables, AllocError>
        ensures { IfOk result (AreAllIndexTables (sections_of image.now) (length image.now.sections)) }
    {
        let mut all = AllIndexTables {
            noted: BTreeMap::new(alloc),
        };
        for j in 0..image.section_count() {
            let section = image.section(j);
            if section.sh_type == SHT_SYMTAB_SHNDX {
                all.note(section.sh_link as usize, j)?;
            }
        }
        Ok(all)
    }

    /// Those of the symbol table in section `i`. Logarithmic in the number of symbol tables that have one.
    pub(crate) fn of(&self, i: usize) -> IndexTables
        ensures { result ≡ index_tables_at self.now i }
    {
        self.noted.get(&i).copied().unwrap_or(IndexTables::NONE)
    }

    // Adds section `j` to those of the symbol table in section `i`. Its index is above theirs.
    fn note(&mut self, i: usize, j: usize) -> Result<(), AllocError>
        ensures here { OnOk result (index_tables_at self.new i ≡ noted (index_tables_at self.old i) j) }
        ensures others { OnOk result ((k : ℕ) → k ≢ i → index_tables_at self.new k ≡ index_tables_at self.old k) }
    {
        // Most often it is the first one, and the map is searched once.
        if let Some(tables) = self.noted.insert(i, IndexTables::NONE.with(j))? {
            self.noted.insert(i, tables.with(j))?;
        }
        Ok(())
    }
}

/// The verdict on the table in each section; `Ok` where there is none.
pub(crate) fn all_verdicts(
    alloc: Global,
    image: &Image<'_>,
    index_tables: &AllIndexTables,
) -> Result<Verdicts, AllocError>
    requires { AreAllIndexTables (sections_of image.now) (length image.now.sections) index_tables.now }
    ensures { IfOk result (λ verdicts.
        AreVerdicts (sections_of image.now) (length image.now.sections) verdicts) }
{
    let symbols = symbol_verdicts(alloc, image, index_tables)?;
    // Hash tables share names.
    let mut hashes = NameHashes::new(alloc, image);
    let mut verdicts = Verdicts::new(alloc);
    for i in 0..image.section_count() {
        let table = TableSection {
            sections: SectionsOf::Image(image),
            index: i,
        };
        verdicts.push(table_verdict(alloc, table, &symbols, &mut hashes)?)?;
    }
    Ok(verdicts)
}

// The verdict on the symbol table in each section; `Ok` where there is none.
fn symbol_verdicts(
    alloc: Global,
    image: &Image<'_>,
    index_tables: &AllIndexTables,
) -> Result<Verdicts, AllocError>
    requires { AreAllIndexTables (sections_of image.now) (length image.now.sections) index_tables.now }
    ensures { IfOk result (λ verdicts.
        AreSymbolVerdicts (sections_of image.now) (length image.now.sections) verdicts) }
{
    let mut verdicts = Verdicts::new(alloc);
    for i in 0..image.section_count() {
        verdicts.push(symbol_verdict(
            TableSection {
                sections: SectionsOf::Image(image),
                index: i,
            },
            index_tables,
        ))?;
    }
    Ok(verdicts)
}

// The verdict on the symbol table in this section; `Ok` where it holds none.
fn symbol_verdict(
    table: TableSection<'_, '_>,
    index_tables: &AllIndexTables,
) -> Result<(), Broken<u64>>
    requires { AreAllIndexTables (sections_seen table.sections) (count (sections_seen table.sections)) index_tables.now }
    ensures { let f = sections_seen table.entry.sections in
        kind_of (section f table.entry.index).sh_type ≡ Some kind.SymbolTable →
        FirstIn (symbol_table_rules f table.entry.index) (fault_of result) }
{
    match TableKind::of(table.header().sh_type) {
        Some(TableKind::SymbolTable) => validate_symbol_table(table, index_tables.of(table.index)),
        _ => Ok(()),
    }
}

// The verdict on the table in this section, by those on the symbol tables and the hashes of names; `Ok` where it holds none.
#[tactic(auto, unfolding(crate::specs::Tables::table_rules))]
fn table_verdict(
    alloc: Global,
    table: TableSection<'_, '_>,
    symbols: &Verdicts,
    hashes: &mut NameHashes<'_, '_>,
) -> Result<Result<(), Broken<u64>>, AllocError>
    requires symbols { AreSymbolVerdicts (sections_seen table.sections) (count (sections_seen table.sections)) symbols.now }
    requires hashes { hashes.old ≡ sections_seen table.sections }
    ensures verdict { IfOk result
        (λ verdict. FirstIn (table_rules (sections_seen table.entry.sections) table.entry.index) (fault_of verdict)) }
    ensures hashes { hashes.new ≡ hashes.old }
{
    let known = SymbolVerdicts::All(symbols);
    match TableKind::of(table.header().sh_type) {
        Some(TableKind::SymbolTable) => Ok(symbols.get(table.index)),
        Some(TableKind::RelocationTable) => Ok(validate_relocation_section(table, known)),
        Some(TableKind::SectionGroup) => verdict_of(validate_group_section(alloc, table, known)),
        Some(TableKind::NoteSection) => Ok(validate_note_section(table)),
        Some(TableKind::DynamicArray) => Ok(validate_dynamic_section(table)),
        Some(TableKind::HashTable) => {
            verdict_of(validate_hash_table(alloc, table, known, hashes))
        }
        None => Ok(Ok(())),
    }
}

// What a test of a table returned, as a verdict; out of memory aside.
fn verdict_of(validated: Result<(), BytesFault>) -> Result<Result<(), Broken<u64>>, AllocError>
    ensures { IfOk result (IsVerdictOf validated) }
{
    match validated {
        Ok(()) => Ok(Ok(())),
        Err(BytesFault::Rule { rule, at }) => Ok(Err(Broken::new(rule, at))),
        Err(BytesFault::OutOfMemory) => Err(AllocError),
    }
}
