//! What is known of each name, in rows of 32 bytes: how long a link of many names takes depends on how much memory it goes through.
//!
//! So a link has two forms of a name's binding: before there are addresses (`Choice`), and after (`Binding`). What rows have no place for
//! is rare, and goes into a list beside them.
ghost use Rattle.std.specs.Prelude.{◌≡◌, ◌<◌, ◌++◌, ◌∷◌, [], None, Some, IfOk, IfSome, OnOk, if◌then◌else◌, length, set, slice_get};
ghost use Rattle.elf_link_files.specs.KnownBefore.{marked_known};
ghost use Rattle.elf_link_names.specs.KnownNames.{known_at};
ghost use Rattle.elf_link_names.specs.Tables.{KeepsOthers, id_of, is_of, known_in, small_known};

use elf_link_files::{Known, SymbolId};
use std::alloc::{AllocError, Global};
use std::marker::Model;

/// A symbol whose file and position fit in 32 bits.
#[derive(Clone, Copy)]
struct SmallId {
    file: u32,
    index: u32,
}

/// What is known of a name, in 32 bytes: it has no common, and no definition or a first one, which is global or weak.
#[derive(Clone, Copy)]
struct Row {
    first: SmallId,
    definition: SmallId,
    large: usize,
    strong: bool,
    weak: bool,
    not_weak: bool,
}

/// What is known of a name that does not fit in its row, with the index of the name.
#[derive(Clone, Copy)]
struct Large {
    name: usize,
    known: Known,
}

/// What is known of each name. To a contract it is the list of that. Where it does not fit in the row of a name, it is in `large`, at the
/// position that the row has. A position past the end, or of an item of another name, means that the row itself holds what is known.
#[derive(Drop)]
pub struct KnownTable {
    rows: Vec<Row>,
    large: Vec<Large>,
}

impl Model for KnownTable {
    ghost use Rattle.std.specs.Prelude.{List};
    ghost use Rattle.elf_link_files.specs.declared.known.Known.{Known};

    ghost Value = { List Known };

    ghost use Rattle.elf_link_names.specs.Tables.{table_value};

    ghost view = { table_value };
}

/// A symbol in 32 bits each; None if it does not fit.
fn small_id(id: SymbolId) -> Option<SmallId>
    ensures { IfSome result (λ small. id_of small ≡ id) }
{
    if id.file > u32::MAX as usize || id.index > u32::MAX as usize {
        return None;
    }
    Some(SmallId {
        file: id.file as u32,
        index: id.index as u32,
    })
}

/// The symbol.
fn large_id(small: SmallId) -> SymbolId
    ensures { result ≡ id_of small }
{
    SymbolId {
        file: small.file as usize,
        index: small.index as usize,
    }
}

/// A symbol, where it is marked as one.
fn marked(small: SmallId, mark: bool) -> Option<SymbolId>
    ensures { result ≡ (if mark then Some (id_of small) else None) }
{
    if mark { Some(large_id(small)) } else { None }
}

/// What a row holds by itself.
fn small_item(row: Row) -> Known
    ensures { result ≡ small_known row }
{
    Known {
        first: large_id(row.first),
        not_weak: row.not_weak,
        strong: marked(row.definition, row.strong),
        weak: marked(row.definition, row.weak),
        common: None,
    }
}

/// The row that holds what is known of a name; None if it does not fit.
fn small_row(known: Known) -> Option<Row>
    ensures { IfSome result (λ row. (small_known row ≡ known) × (row.large ≡ 18446744073709551615)) }
{
    if known.common.is_some() || (known.strong.is_some() && known.weak.is_some()) {
        return None;
    }
    let definition = known.strong.or(known.weak).unwrap_or(known.first);
    Some(Row {
        first: small_id(known.first)?,
        definition: small_id(definition)?,
        large: usize::MAX,
        strong: known.strong.is_some(),
        weak: known.weak.is_some(),
        not_weak: known.not_weak,
    })
}

/// Whether what is known of a name is at a position among the large.
fn is_own(large: &[Large], i: usize, name: usize) -> bool
    ensures { result ≡ is_of name (slice_get large.now i) }
{
    i < large.len() && large[i].name == name
}

/// The row of a name of which this is known. What does not fit joins the large.
fn row_of(large: &mut Vec<Large>, name: usize, known: Known) -> Result<Row, AllocError>
    ensures row { IfOk result (λ row. known_in large.new.items name row ≡ known) }
    ensures others { OnOk result (KeepsOthers name large.old.items large.new.items) }
{
    if let Some(row) = small_row(known) {
        return Ok(row);
    }
    let own = large.len();
    large.push(Large { name, known })?;
    let none = SmallId { file: 0, index: 0 };
    Ok(Row {
        first: none,
        definition: none,
        large: own,
        strong: false,
        weak: false,
        not_weak: false,
    })
}

impl KnownTable {
    /// No names.
    pub(crate) fn new(alloc: Global) -> KnownTable
        ensures { result ≡ [] }
    {
        KnownTable {
            rows: Vec::new(alloc),
            large: Vec::new(alloc),
        }
    }

    /// How many names there are.
    pub(crate) fn len(&self) -> usize
        ensures { result ≡ length self.now }
    {
        self.rows.len()
    }

    /// What is known of the name at a position.
    pub(crate) fn item(&self, k: usize) -> Known
        requires { k < length self.now }
        ensures { result ≡ known_at self.now k }
    {
        let row = self.rows[k];
        if is_own(&self.large, row.large, k) {
            return self.large[row.large].known;
        }
        small_item(row)
    }

    /// Adds a name, of which this is known. Fails only when out of memory.
    pub(crate) fn push(&mut self, known: Known) -> Result<(), AllocError>
        ensures { OnOk result (self.new ≡ self.old ++ known ∷ []) }
    {
        let row = row_of(&mut self.large, self.rows.len(), known)?;
        self.rows.push(row)?;
        Ok(())
    }

    /// Notes what is known of the name at a position. Fails only when out of memory.
    pub(crate) fn set(&mut self, k: usize, known: Known) -> Result<(), AllocError>
        requires { k < length self.old }
        ensures { OnOk result (self.new ≡ set self.old k known) }
    {
        let own = self.rows[k].large;
        if is_own(&self.large, own, k) {
            self.large[own] = Large { name: k, known };
            return Ok(());
        }
        self.rows[k] = row_of(&mut self.large, k, known)?;
        Ok(())
    }
    /// Notes that the name at a position has an entry that is not weak. It reads one number of the row and writes one mark, so that the
    /// waits for memory of many symbols overlap.
    pub(crate) fn mark(&mut self, k: usize)
        requires { k < length self.old }
        ensures { self.new ≡ set self.old k (marked_known (known_at self.old k)) }
    {
        let own = self.rows[k].large;
        if is_own(&self.large, own, k) {
            self.large[own].known.not_weak = true;
            return;
        }
        self.rows[k].not_weak = true;
    }
}
