//! The verdicts on the tables in the sections of an image.
ghost use Rattle.std.specs.Prelude.{◌≡◌, ◌+◌, ◌<◌, ◌++◌, ◌^◌, [], ◌∷◌, None, OnErr, OnOk, get_or, length};
ghost use Rattle.elf_image_rules.specs.Rows.{fault_of, FirstIn};
ghost use Rattle.elf_table_symbols.specs.Symbols.{AreKnown, symbol_table_rules};
ghost use Rattle.elf_table_symbols.specs.Sections.{count, section, sections_seen, IsSymbolType};

use crate::index_tables::index_tables_of;
use crate::sections_of::SectionsOf;
use crate::slots::{TableFault, kept_verdict};
use crate::symbol_rules::validate_symbol_table;
use crate::table_section::{LinkedTable, TableSection};
use elf_image_rules::Broken;
use std::alloc::{AllocError, Global};
use std::collections::BTreeMap;
use std::marker::Model;

/// The verdicts on the tables of the first sections of an image, one for each section. Only broken rules take memory.
#[derive(Drop)]
pub struct Verdicts {
    count: usize,
    // By the index of the section.
    broken: BTreeMap<usize, Broken<u64>>,
}

impl Model for Verdicts {
    ghost use Rattle.std.specs.Prelude.{ℕ, List, Option};
    ghost use Rattle.elf_table_symbols.specs.Verdicts.{AreOfFirst, verdicts_view};

    ghost Value = { List (Option (ℕ × ℕ)) };

    ghost view = { verdicts_view };

    ghost invariant = { AreOfFirst };
}

impl Verdicts {
    /// No verdicts.
    pub fn new(alloc: Global) -> Verdicts
        ensures { result ≡ [] }
    {
        Verdicts {
            count: 0,
            broken: BTreeMap::new(alloc),
        }
    }

    /// Adds the verdict on the next section. If an allocation fails, nothing is added. It is inlined, so that a verdict without a broken
    /// rule costs one addition.
    #[inline(always)]
    pub fn push(&mut self, verdict: Result<(), Broken<u64>>) -> Result<(), AllocError>
        requires { length self.old + 1 < 2 ^ 64 }
        ensures ok { OnOk result (self.new ≡ self.old ++ fault_of verdict ∷ []) }
        ensures err { OnErr result (self.new ≡ self.old) }
    {
        if let Err(broken) = verdict {
            self.broken.insert(self.count, broken)?;
        }
        self.count += 1;
        Ok(())
    }

    /// The verdict on section `i`, which is below their number. Logarithmic in the number of broken rules.
    pub fn get(&self, i: usize) -> Result<(), Broken<u64>>
        requires { i < length self.now }
        ensures { fault_of result ≡ get_or self.now i None }
    {
        match self.broken.get(&i) {
            Some(broken) => Err(*broken),
            None => Ok(()),
        }
    }
}

// The verdict on the symbol table that a table links to.

/// Which verdicts on symbol tables are known.
#[derive(Clone, Copy, Drop)]
pub enum SymbolVerdicts<'a> {
    /// The verdicts on the symbol table in each section.
    All(&'a Verdicts),
    /// Those that are in slots, of the sections from the first one on that is named. What they lack is validated when it is asked for.
    Slots(usize, &'a [TableFault]),
    /// None: a symbol table is validated when its verdict is asked for.
    Unknown,
}

impl SymbolVerdicts<'_> {
    /// The verdict on the symbol table that this table links to.
    pub fn of(self, linked: LinkedTable<'_, '_>) -> Result<(), Broken<u64>>
        requires typed { let f = sections_seen linked.table.sections in
            IsSymbolType (section f (section f linked.table.index).sh_link).sh_type }
        requires known { AreKnown (sections_seen linked.table.sections) self }
        ensures { let f = sections_seen linked.entry.table.sections in
            FirstIn (symbol_table_rules f (section f linked.entry.table.index).sh_link) (fault_of result) }
    {
        let index = linked.link();
        match self {
            SymbolVerdicts::All(symbols) => symbols.get(index),
            SymbolVerdicts::Slots(first, slots) => match kept_verdict(first, slots, index) {
                Some(verdict) => verdict,
                None => validate_alone(linked.table.sections, index),
            },
            SymbolVerdicts::Unknown => validate_alone(linked.table.sections, index),
        }
    }
}

// The verdict on the symbol table in section `index`, whose index tables are searched for.
fn validate_alone(sections: SectionsOf<'_, '_>, index: usize) -> Result<(), Broken<u64>>
    requires { index < count (sections_seen sections) }
    ensures { FirstIn (symbol_table_rules (sections_seen sections.entry) index) (fault_of result) }
{
    let table = TableSection { sections, index };
    validate_symbol_table(table, index_tables_of(sections, index))
}
