//! The object: parts that break no rule.
//!
//! Widths are in the invariant of the type, and not in the definition of an object: what a file denotes fits by itself.
ghost use Rattle.std.specs.Prelude.{◌≡◌, ◌≤◌, ◌↔◌, IfErr, IfOk, IsTrue, OnOk, length, map};
ghost use Rattle.elf_object_strings.specs.StringTable.{AreTails};
ghost use Rattle.elf_object_type.specs.ObjectRules.{IsObject, IsObjectFault};
ghost use Rattle.elf_object_type.specs.ObjectView.{HasNameEnds, section_value, symbol_value, value_of};
ghost use Rattle.elf_object_type.specs.Object.{ObjectFits};

use crate::object_rules::validate;
use crate::parts::{ObjectParts, Section, Symbol, prove_parts};
use crate::rule_names::rule_name;
use elf_field::Order;
use std::alloc::{AllocError, AllocFailed, Global};
use std::marker::Model;
use thiserror::Error;

// Why parts are no object.

/// The first of the object rules ([`rules`](crate::rules)) that parts break, at its least position.
#[derive(Clone, Copy, Debug, PartialEq, Eq, Error)]
pub enum ObjectFault {
    /// The section at this position breaks the rule of this number, 1 to 6.
    #[error("rule {rule} ({name}) at section {position}", name = rule_name(*.rule))]
    Section { rule: u16, position: usize },
    /// The symbol at this position breaks the rule of this number, 7 to 9.
    #[error("rule {rule} ({name}) at symbol {position}", name = rule_name(*.rule))]
    Symbol { rule: u16, position: usize },
    /// An allocation failed while groups were tested.
    #[error("out of memory")]
    OutOfMemory,
}

impl From<AllocError> for ObjectFault {
    ghost use Rattle.elf_object_type.specs.declared.object.ObjectFault.TheVariants.{OutOfMemory};

    ghost from_gives = { λ _ fault. fault ≡ OutOfMemory };

    fn from(_refused: AllocError) -> ObjectFault {
        ObjectFault::OutOfMemory
    }
}

impl<T: Drop> From<AllocFailed<T>> for ObjectFault {
    ghost use Rattle.elf_object_type.specs.declared.object.ObjectFault.TheVariants.{OutOfMemory};

    ghost from_gives = { λ _ fault. fault ≡ OutOfMemory };

    fn from(_refused: AllocFailed<T>) -> ObjectFault {
        ObjectFault::OutOfMemory
    }
}

/// Where the names of symbols and of sections end in the string tables that they were read from: for each symbol, or section, the offset
/// after its name, plus 1; 0, or none, if that is not known.
#[derive(Debug, Drop)]
pub struct NameEnds {
    /// The ends for the symbols, in their order.
    pub symbols: Vec<u32>,
    /// The ends for the sections, in their order, as many as there are sections at most.
    pub sections: Vec<u32>,
}

/// A relocatable object: parts that break none of the nine object rules ([`rules`](crate::rules)), of which it makes sure.
/// Names and bytes borrow from where they were read. No accessor takes memory.
#[derive(Debug, Drop)]
pub struct Object<'a> {
    parts: ObjectParts<'a>,
    ends: NameEnds,
}

impl<'a> Model for Object<'a> {
    ghost use Rattle.elf_object_type.specs.Object.{ObjectValue};

    ghost Value = { ObjectValue };

    ghost use Rattle.elf_object_type.specs.ObjectRules.{IsObject};
    ghost use Rattle.elf_object_type.specs.ObjectView.{HasNameEnds, value_of};
    ghost use Rattle.elf_object_type.specs.Object.{ObjectFits};

    ghost view = { λ a. value_of a.parts };

    ghost invariant = { λ a. IsObject (value_of a.parts) × ObjectFits (value_of a.parts) × HasNameEnds (value_of a.parts) a.ends };
}

impl PartialEq for Object<'_> {
    ghost use Rattle.elf_object_type.specs.Equality.{is_same_object};
    ghost use Rattle.elf_object_type.specs.laws.Equality.{object_partial_equivalence};

    ghost eq = { is_same_object };

    ghost laws = { object_partial_equivalence };

    /// Whether they are the same object, in all parts.
    fn eq(&self, other: &Self) -> bool
        ensures parts { result ≡ is_same_object self.now other.now }
        ensures same { IsTrue result ↔ (self.now ≡ other.now) }
    {
        self.parts == other.parts
    }
}

impl Eq for Object<'_> {
    ghost use Rattle.elf_object_type.specs.laws.Equality.{object_equivalence};

    ghost laws = { object_equivalence };
}

impl<'a> Object<'a> {
    /// The object of these parts, which are dropped where they break a rule.
    ///
    /// [`ObjectFault::Section`] and [`ObjectFault::Symbol`] are the first rule that is broken, at its least position.
    /// [`ObjectFault::OutOfMemory`] comes only if an allocation fails; memory is taken only if none of rules 1 to 5 is broken: a
    /// mark for each section. Linear in the sections, the entries and members in them, the symbols, and the bytes of the names.
    pub fn new(alloc: Global, parts: ObjectParts<'a>) -> Result<Object<'a>, ObjectFault>
        ensures ok { IfOk result (λ o. o ≡ value_of parts.entry) }
        ensures kept { OnOk result (IsObject (value_of parts.entry)) }
        ensures err { IfErr result (IsObjectFault (value_of parts.entry)) }
    {
        validate(alloc, &parts)?;
        prove_parts(&parts);
        let ends = NameEnds {
            symbols: Vec::new(alloc),
            sections: Vec::new(alloc),
        };
        Ok(Object { parts, ends })
    }

    /// The parts of the object, for an edit: [`Object::new`] makes an object of them again. They break no rule. It takes no memory.
    pub fn into_parts(self) -> ObjectParts<'a>
        ensures parts { value_of result ≡ self.entry }
        ensures kept { IsObject (value_of result) }
        ensures fits { ObjectFits (value_of result) }
    {
        self.parts
    }

    /// Proves that no object rule is broken, that each number fits its field in a file, and that names and bits are bytes. A contract does
    /// not see the invariant of an object in a list: this call shows it. It does nothing.
    pub fn prove_rules(&self)
        ensures kept { IsObject self.now }
        ensures fits { ObjectFits self.now }
    {
        let _ = &self.parts;
    }

    /// The byte order of the file (gABI chapter 4, Data Encoding).
    pub fn order(&self) -> Order
        ensures { result ≡ self.now.order }
    {
        self.parts.order
    }

    /// `EI_OSABI`: the extensions that the file uses.
    pub fn osabi(&self) -> u8
        ensures { result ≡ self.now.osabi }
    {
        self.parts.osabi
    }

    /// `EI_ABIVERSION`: their version.
    pub fn abi(&self) -> u8
        ensures { result ≡ self.now.abi }
    {
        self.parts.abi
    }

    /// `e_machine`: the processor.
    pub fn machine(&self) -> u16
        ensures { result ≡ self.now.machine }
    {
        self.parts.machine
    }

    /// `e_flags`: flags of the processor.
    pub fn flags(&self) -> u32
        ensures { result ≡ self.now.flags }
    {
        self.parts.flags
    }

    /// The sections; a section's position is its index here, from 0.
    pub fn sections(&self) -> &[Section<'a>]
        ensures { map section_value result.now ≡ self.now.sections }
    {
        &self.parts.sections
    }

    /// The symbols; a symbol's position is its index here, from 0.
    pub fn symbols(&self) -> &[Symbol<'a>]
        ensures { map symbol_value result.now ≡ self.now.symbols }
    {
        &self.parts.symbols
    }
}

/// The object of these parts, of which the caller knows that they break no rule, and that of two names with one end the longer one ends
/// with the other.
pub fn kept_object<'a>(parts: ObjectParts<'a>, ends: NameEnds) -> Object<'a>
    requires rules { IsObject (value_of parts) }
    requires ends { HasNameEnds (value_of parts) ends }
    ensures { result ≡ value_of parts.entry }
{
    prove_parts(&parts);
    Object { parts, ends }
}

/// Where the names of an object's symbols end in the string table that they were read from, as far as that is known.
pub fn symbol_ends<'o>(object: &'o Object<'_>) -> &'o [u32]
    ensures { AreTails (map (λ symbol. symbol.name) object.now.symbols) result.now }
{
    &object.ends.symbols
}

/// Where the names of an object's sections end in the string table that they were read from, as far as that is known.
pub fn section_ends<'o>(object: &'o Object<'_>) -> &'o [u32]
    ensures tails { AreTails (map (λ section. section.name) object.now.sections) result.now }
    ensures fits { length result.now ≤ length object.now.sections }
{
    &object.ends.sections
}
