//! Fields: the bytes that applied entries change.
ghost use Rattle.std.specs.Prelude.{◌≡◌};
ghost use Rattle.elf_link_relocate.specs.Passes.{test_number};

use crate::copies::Copies;
use crate::rules::{FIELD_OUT_OF_RANGE, UNPLACED, VALUE_OUT_OF_RANGE};
use crate::values::Values;
use elf_link_field::RelocRule;
use elf_link_map::Site;
use elf_object_type::Relocation;
use std::marker::Model;

/// An entry, which is read once.
#[derive(Clone, Copy)]
pub(crate) struct Entry {
    /// Where it is.
    pub site: Site,
    /// Whether it has its addend beside it.
    pub rela: bool,
    /// The section that it relocates.
    pub target: usize,
    /// What is there.
    pub relocation: Relocation,
}

/// An entry that has a field, the relocation rule of its kind, and what the link needs of it, so that no later pass looks it up again.
#[derive(Clone, Copy)]
pub(crate) struct Field {
    /// Where the entry is.
    pub site: Site,
    /// The first relocation rule of its kind.
    pub rule: RelocRule,
    /// The section that the field is in.
    pub target: usize,
    /// Where it starts there, in bytes.
    pub offset: usize,
    /// The field's number; 0 if its symbol has no value, or if it passes the end of its target.
    pub number: i128,
}

/// A field, and whether it breaks each rule that looks at one field by itself.
#[derive(Clone, Copy)]
pub(crate) struct Validated {
    /// The field.
    pub field: Field,
    /// Rule 13: whether its symbol has no value.
    pub unplaced: bool,
    /// Rule 14: whether it passes the end of its target.
    pub out_of_range: bool,
    /// Rule 16: whether it does not admit its number.
    pub refused: bool,
}

/// What a pass over the entries has seen of their fields.
#[derive(Clone, Copy)]
pub(crate) struct Seen {
    /// The entry of the first field that breaks rule 13.
    pub unplaced: Option<Site>,
    /// The entry of the first one that breaks rule 14.
    pub out_of_range: Option<Site>,
    /// The entry of the first one that breaks rule 16.
    pub refused: Option<Site>,
    /// The last field.
    pub last: Option<Field>,
    /// Whether each field is after the one before it. Then no two share a byte.
    pub ascending: bool,
}

/// What a pass over the entries has found, and the bytes that it relocates.
#[derive(Drop)]
pub(crate) struct Found {
    /// What it has seen of the fields.
    pub seen: Seen,
    /// The fields by file, section and entry, if they are asked for.
    pub list: Vec<Field>,
    /// A copy of each live section with bits. A field that has a number and ends within its target holds it.
    pub copies: Copies,
}

// The fields of a link, once each is known to end within its target.

/// All fields of a link, by file, section and entry. Each ends within its target.
#[derive(Drop)]
pub(crate) struct FieldList<'f, 'v, 'l, 'a> {
    pub(crate) values: &'f Values<'v, 'l, 'a>,
    pub(crate) fields: &'f [Field],
}

impl<'f, 'v, 'l, 'a> Model for FieldList<'f, 'v, 'l, 'a> {
    ghost use Rattle.elf_link_relocate.specs.Passes.{FieldListValue};

    ghost Value = { FieldListValue };

    ghost use Rattle.elf_link_relocate.specs.Views.{HasFields, field_list_value};

    ghost view = { field_list_value };

    ghost invariant = { HasFields };
}

// The rules that look at one field by itself.

/// A rule of the link that looks at one field by itself.
#[derive(Clone, Copy)]
pub(crate) enum FieldTest {
    /// Rule 13: its symbol has no value.
    Unplaced,
    /// Rule 14: it passes the end of its target.
    FieldOutOfRange,
    /// Rule 16: it does not admit its number.
    ValueOutOfRange,
}

impl FieldTest {
    /// The number of the rule.
    pub(crate) fn rule(self) -> u16
        ensures { result ≡ test_number self }
    {
        match self {
            FieldTest::Unplaced => UNPLACED,
            FieldTest::FieldOutOfRange => FIELD_OUT_OF_RANGE,
            FieldTest::ValueOutOfRange => VALUE_OUT_OF_RANGE,
        }
    }
}
