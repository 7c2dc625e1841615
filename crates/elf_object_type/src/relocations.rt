//! The relocations of a section (gABI chapter 4, Relocation).
//!
//! Relocations that were read stay bytes, so they take no memory, and a writer may send them as they are. To contracts they are a list.
ghost use Rattle.std.specs.Prelude.{◌≡◌, ◌<◌, IsTrue, ◌↔◌, IfSome, get_or, length};
ghost use Rattle.std.specs.List.{AllByRecursion};
ghost use Rattle.elf_field.specs.Abi.{relocation_size as relocation_size_of};
ghost use Rattle.elf_object_type.specs.Object.{IsRelocationTable, listed_in, symbol_reference as symbol_reference_of, table_count};
ghost use Rattle.elf_object_type.specs.Object.{table_relocation, RelocationFits, no_relocation, table_relocations};
ghost use Rattle.elf_object_type.specs.Left.{relocations_left};

use crate::parts::prove_bytes;
use elf_field::abi::*;
use elf_field::{Order, Rel, Rela, get_at};
use std::alloc::AllocError;
use std::marker::Model;

// A relocation of an object (gABI chapter 4, Relocation).

/// A relocation, in the body of the section that lists it.
#[derive(Clone, Copy, Debug, PartialEq, Eq)]
pub struct Relocation {
    /// Where it applies: the offset in the target section, in bytes.
    pub offset: u64,
    /// The position of its symbol in the object; None for none.
    pub symbol: Option<usize>,
    /// The type, whose meaning is the processor's.
    pub kind: u32,
    /// The constant that is added; 0 in a section of type REL, where it is in the bytes that are relocated.
    pub addend: i64,
}

// The bytes of a table of relocations, and the relocations that they represent (gABI chapter 4, Relocation).

/// A table of relocations, as a file has it.
#[derive(Clone, Copy, Debug)]
pub(crate) struct RelocationTable<'a> {
    /// The byte order of the file.
    pub(crate) order: Order,
    /// Whether the relocations have addends.
    pub(crate) rela: bool,
    /// The bytes.
    pub(crate) bytes: &'a [u8],
}

/// The size of a relocation in a table, with an addend or without, in bytes.
pub fn relocation_size(rela: bool) -> usize
    ensures { result ≡ relocation_size_of rela }
{
    if rela {
        RELA_SIZE as usize
    } else {
        REL_SIZE as usize
    }
}

/// The position of the symbol of this index, of which 0 is none.
fn symbol_reference(index: u32) -> Option<usize>
    ensures { result ≡ symbol_reference_of index }
{
    if index == 0 {
        None
    } else {
        Some(index as usize - 1)
    }
}

impl<'a> RelocationTable<'a> {
    /// How many relocations it has.
    pub(crate) fn count(&self) -> usize
        ensures { result ≡ table_count self.now.rela self.now.bytes.now }
    {
        self.bytes.len() / relocation_size(self.rela)
    }

    /// Whether it is a table in this byte order, with addends or without, and ends after its last relocation.
    pub(crate) fn is_of(&self, order: Order, rela: bool) -> bool
        ensures { IsTrue result → IsRelocationTable rela order self.now.bytes.now (listed_in self.now) }
    {
        prove_bytes(self.bytes);
        self.order == order && self.rela == rela && self.bytes.len() % relocation_size(rela) == 0
    }

    /// Relocation `j`.
    #[tactic(auto, unfolding(crate::specs::Object::table_relocation))]
    pub(crate) fn entry(&self, j: usize) -> Relocation
        requires { j < table_count self.now.rela self.now.bytes.now }
        ensures { result ≡ table_relocation self.now.rela self.now.order self.now.bytes.now j }
    {
        if self.rela {
            let entry: Rela = get_at(self.order, self.bytes, RELA_SIZE as usize * j);
            Relocation {
                offset: entry.r_offset,
                symbol: symbol_reference(entry.symbol()),
                kind: entry.relocation_type(),
                addend: entry.r_addend,
            }
        } else {
            let entry: Rel = get_at(self.order, self.bytes, REL_SIZE as usize * j);
            Relocation {
                offset: entry.r_offset,
                symbol: symbol_reference(entry.symbol()),
                kind: entry.relocation_type(),
                addend: 0,
            }
        }
    }

    /// Proves that each number of each relocation fits its field. It does nothing.
    pub(crate) fn prove_fits(&self)
        ensures { AllByRecursion RelocationFits (listed_in self.now) }
    {
        prove_bytes(self.bytes);
    }
}

/// Relocations as they are kept.
#[derive(Debug, Drop)]
pub(crate) enum Listed<'a> {
    /// As a list.
    List(Vec<Relocation>),
    /// As a table of a file.
    Table(RelocationTable<'a>),
}

/// The relocations of a section, in order. Those that were read from a file stay as its bytes, and each is read where it is asked for, so
/// that they take no memory and are written as they are; others are made from a list: `Relocations::from(list)`.
#[derive(Debug, Drop)]
pub struct Relocations<'a> {
    pub(crate) listed: Listed<'a>,
}

impl<'a> Model for Relocations<'a> {
    ghost use Rattle.std.specs.Prelude.{List};
    ghost use Rattle.elf_object_type.specs.declared.relocations.Relocation.{Relocation};
    ghost use Rattle.elf_object_type.specs.Object.{kept_relocations};

    ghost Value = { List Relocation };

    ghost view = { λ a. kept_relocations a.listed };
}

impl<'a> From<Vec<Relocation>> for Relocations<'a> {
    ghost from_gives = { λ list relocations. relocations ≡ list.items };

    fn from(list: Vec<Relocation>) -> Relocations<'a> {
        Relocations {
            listed: Listed::List(list),
        }
    }
}

impl Clone for Relocations<'_> {
    ghost is_clone = { λ relocations copy. copy ≡ relocations };

    /// The same relocations. A list takes memory, which [`AllocError`] refuses; a table of a file takes none.
    fn clone(&self) -> Result<Self, AllocError> {
        let listed = match &self.listed {
            Listed::List(list) => Listed::List(list.clone()?),
            Listed::Table(table) => Listed::Table(*table),
        };
        Ok(Relocations { listed })
    }
}

impl<'a> Relocations<'a> {
    /// The relocations of a table of a file in this byte order, with addends or without (`SHT_RELA`, `SHT_REL`), by its bytes. Bytes after
    /// the last whole relocation count for nothing. It takes no memory.
    pub fn of_table(order: Order, rela: bool, bytes: &'a [u8]) -> Relocations<'a>
        ensures { result ≡ table_relocations rela order bytes.now }
    {
        Relocations {
            listed: Listed::Table(RelocationTable { order, rela, bytes }),
        }
    }

    /// How many there are.
    pub fn len(&self) -> usize
        ensures { result ≡ length self.now }
    {
        match &self.listed {
            Listed::List(list) => list.len(),
            Listed::Table(table) => table.count(),
        }
    }

    /// Relocation `j`, which is below [`len`](Relocations::len).
    pub fn entry(&self, j: usize) -> Relocation
        requires { j < length self.now }
        ensures { result ≡ get_or self.now j no_relocation }
    {
        match &self.listed {
            Listed::List(list) => list[j],
            Listed::Table(table) => table.entry(j),
        }
    }

    /// The relocations in order.
    pub fn iter(&self) -> RelocationIter<'_, 'a>
        ensures { relocations_left result ≡ self.now }
    {
        RelocationIter {
            relocations: self,
            next: 0,
        }
    }

    /// The bytes of a table of them in this byte order, with addends or without, where they are kept as one.
    pub fn table(&self, order: Order, rela: bool) -> Option<&'a [u8]>
        ensures { IfSome result (λ bytes. IsRelocationTable rela order bytes.now self.now) }
    {
        match &self.listed {
            Listed::Table(table) if table.is_of(order, rela) => Some(table.bytes),
            _ => None,
        }
    }

    /// Whether these are the others.
    fn is_same(&self, others: &Relocations<'_>) -> bool
        ensures { IsTrue result ↔ (self.now ≡ others.now) }
    {
        if self.len() != others.len() {
            return false;
        }
        for j in 0..self.len() {
            if self.entry(j) != others.entry(j) {
                return false;
            }
        }
        true
    }

    /// Proves that each number of each fits its field in a file. It does nothing.
    pub(crate) fn prove_fits(&self)
        ensures { AllByRecursion RelocationFits self.now }
    {
        match &self.listed {
            Listed::List(list) => prove_list(list),
            Listed::Table(table) => table.prove_fits(),
        }
    }
}

impl<'s, 'a> IntoIterator for &'s Relocations<'a> {
    type Item = Relocation;

    type IntoIter = RelocationIter<'s, 'a>;

    ghost into_iter_gives = { λ relocations it. relocations_left it ≡ relocations.now };

    fn into_iter(self) -> RelocationIter<'s, 'a> {
        self.iter()
    }
}

/// The relocations of a section, in order.
#[derive(Drop)]
pub struct RelocationIter<'s, 'a> {
    relocations: &'s Relocations<'a>,
    next: usize,
}

impl<'s, 'a> Iterator for RelocationIter<'s, 'a> {
    ghost use Rattle.std.specs.Iterator.{YieldsFirst, item_count};
    ghost use Rattle.elf_object_type.specs.Left.{relocations_left};

    type Item = Relocation;

    ghost next_gives = { YieldsFirst relocations_left };

    ghost remaining = { item_count relocations_left };

    fn next(&mut self) -> Option<Relocation> {
        if self.next >= self.relocations.len() {
            return None;
        }
        let relocation = self.relocations.entry(self.next);
        self.next += 1;
        Some(relocation)
    }
}

fn prove_list(list: &[Relocation])
    ensures { AllByRecursion RelocationFits list.now }
{
    for relocation in list {
        prove_relocation(*relocation);
    }
}

fn prove_relocation(relocation: Relocation)
    ensures { RelocationFits relocation }
{
    let _numbers = (relocation.offset, relocation.kind, relocation.addend);
}

impl PartialEq for Relocations<'_> {
    ghost use Rattle.elf_object_type.specs.Equality.{are_same_relocations};
    ghost use Rattle.elf_object_type.specs.laws.Equality.{relocations_partial_equivalence};

    ghost eq = { are_same_relocations };

    ghost laws = { relocations_partial_equivalence };

    /// Whether they are the same relocations in the same order, however they are kept.
    fn eq(&self, other: &Self) -> bool
        ensures { result ≡ are_same_relocations self.now other.now }
    {
        self.is_same(other)
    }
}

impl Eq for Relocations<'_> {
    ghost use Rattle.elf_object_type.specs.laws.Equality.{relocations_equivalence};

    ghost laws = { relocations_equivalence };
}
