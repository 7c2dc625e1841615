//! The numbers of fields (gABI chapter 4, Relocation).
ghost use Rattle.std.specs.Prelude.{◌≡◌, ◌↔◌, ◌^◌, ◌<◌, IsTrue, Some, pos, neg_ℤ, ◌<ℤ◌, ◌≤ℤ◌};
ghost use Rattle.elf_link_relocate.specs.Fields.{HasField, IsWithin, content_at, addend_of as addend_at, field_address as field_address_of};
ghost use Rattle.elf_link_relocate.specs.Fields.{number_at, IsFieldOutOfRange, IsSmall, value_at};
ghost use Rattle.elf_link_relocate.specs.Passes.{IsValidatedField, IsInTarget};

use crate::collecting::content;
use crate::field::{Entry, Field, Validated};
use crate::values::{Linking, Values};
use elf_link_field::addend_in;
use elf_link_map::files::prove_rules;
use std::marker::Model;

/// The address of a field that ends within its target.
pub(crate) fn field_address(linking: &Linking<'_, '_>, field: Field) -> u64
    requires field { HasField linking.now.objects linking.now.rules field.site field.rule }
    requires place { IsInTarget linking.now.objects field }
    requires within { IsWithin linking.now.objects field.site field.rule }
    ensures { result ≡ field_address_of linking.now.objects linking.now.map field.site }
{
    let start = linking
        .map
        .address(field.site.file, field.target)
        .unwrap_or(0);
    start + field.offset as u64
}

/// A field with its entry, while its number is worked out: to a contract it is the link, and the field.
#[derive(Drop)]
pub(crate) struct FieldOf<'f, 'v, 'l, 'a> {
    pub(crate) values: &'f Values<'v, 'l, 'a>,
    pub(crate) entry: Entry,
    pub(crate) field: Field,
}

impl<'f, 'v, 'l, 'a> Model for FieldOf<'f, 'v, 'l, 'a> {
    ghost use Rattle.elf_link_relocate.specs.Passes.{FieldOfValue};

    ghost Value = { FieldOfValue };

    ghost use Rattle.elf_link_relocate.specs.Views.{HasItsEntry, field_of_value};

    ghost view = { field_of_value };

    ghost invariant = { HasItsEntry };
}

impl<'f, 'v, 'l, 'a> FieldOf<'f, 'v, 'l, 'a> {
    /// The value of its symbol.
    fn value(&self) -> Option<u128>
        ensures value { result ≡ value_at self.now.objects self.now.map self.now.field.site }
        ensures small { IsSmall result }
    {
        let linking = self.values.linking();
        prove_rules(linking.objects, self.field.site.file);
        self.values
            .reference(self.field.site.file, self.entry.relocation.symbol)
    }

    /// The bytes of the section that it is in.
    fn content(&self) -> &'a [u8]
        ensures { result.now ≡ content_at self.now.objects self.now.field.site }
    {
        let linking = self.values.linking();
        content(linking.objects, self.field.site.file, self.field.target)
    }

    /// Rule 14: whether it passes the end of its target.
    fn is_out_of_range(&self) -> bool
        ensures { IsTrue result ↔ IsFieldOutOfRange self.now.objects self.now.field.site self.now.field.rule }
    {
        match self
            .content()
            .len()
            .checked_sub(self.field.rule.width.size())
        {
            Some(last) => self.field.offset > last,
            None => true,
        }
    }

    /// The field's addend, where it ends within its target: that of its entry, or the number that is in it.
    fn addend(&self) -> i128
        requires { IsWithin self.now.objects self.now.field.site self.now.field.rule }
        ensures value { result ≡ addend_at self.now.objects self.now.field.site self.now.field.rule }
        ensures low { neg_ℤ (pos (2 ^ 63)) ≤ℤ result }
        ensures high { result <ℤ pos (2 ^ 64) }
    {
        if self.entry.rela {
            return self.entry.relocation.addend as i128;
        }
        let linking = self.values.linking();
        let objects = linking.objects;
        addend_in(
            objects[self.field.site.file].order(),
            self.field.rule.range,
            self.field.rule.width,
            self.content(),
            self.field.offset,
        )
    }

    /// The field's number, where it ends within its target, by the value of its symbol.
    fn number(&self, value: u128) -> i128
        requires within { IsWithin self.now.objects self.now.field.site self.now.field.rule }
        requires value { value_at self.now.objects self.now.map self.now.field.site ≡ Some value }
        requires small { value < 2 ^ 65 }
        ensures { number_at self.now.objects self.now.map self.now.field.site self.now.field.rule ≡ Some result }
    {
        self.field.rule.form.number(
            value,
            self.addend(),
            field_address(self.values.linking(), self.field),
        )
    }

    /// It with its number, and which rules it breaks. Here alone its number is worked out.
    pub(crate) fn validated(&self) -> Validated
        ensures { IsValidatedField self.now.objects self.now.map self.now.rules self.now.field.site result }
    {
        let field = self.field;
        let out_of_range = self.is_out_of_range();
        let Some(value) = self.value() else {
            return Validated {
                field,
                unplaced: true,
                out_of_range,
                refused: false,
            };
        };
        if out_of_range {
            return Validated {
                field,
                unplaced: false,
                out_of_range,
                refused: false,
            };
        }
        let number = self.number(value);
        Validated {
            field: Field { number, ..field },
            unplaced: false,
            out_of_range,
            refused: !field.rule.range.admits(field.rule.width, number),
        }
    }
}
