//! References from sections that stay to what does not.
ghost use Rattle.std.specs.Prelude.{◌≡◌, ◌<◌, MatchOption, get_or, length};
ghost use Rattle.std.specs.List.{slice_get};
ghost use Rattle.elf_object_edit.specs.Without.{IsFirstDangling, IsFirstReference, IsLeftOut, IsLowestIndex, NoneDangles};
ghost use Rattle.elf_object_type.specs.Object.{info_position as info_position_of, no_relocation, section_at as section_of};
ghost use Rattle.elf_object_type.specs.Object.{symbol_at as symbol_of};
ghost use Rattle.elf_object_type.specs.ObjectView.{section_value, symbol_value};

use crate::fault::Reference;
use crate::staying::Staying;
use elf_object_type::{Body, Info, Object, Relocations, Section, Symbol};

/// An object, with what stays of it.
#[derive(Drop)]
pub(crate) struct Edit<'o, 'a> {
    /// The object.
    pub(crate) object: &'o Object<'a>,
    /// The sections that stay.
    pub(crate) sections: Staying,
    /// The symbols that stay.
    pub(crate) symbols: Staying,
    ghost each_section: { length sections.marks.items ≡ length object.now.sections },
    ghost each_symbol: { length symbols.marks.items ≡ length object.now.symbols },
}

/// The section at position `i`.
pub(crate) fn section_at<'o, 'a>(object: &'o Object<'a>, i: usize) -> &'o Section<'a>
    requires { i < length object.now.sections }
    ensures { section_value result.now ≡ section_of object.now i }
{
    &object.sections()[i]
}

/// The symbol at position `k`.
pub(crate) fn symbol_at<'o, 'a>(object: &'o Object<'a>, k: usize) -> &'o Symbol<'a>
    requires { k < length object.now.symbols }
    ensures { symbol_value result.now ≡ symbol_of object.now k }
{
    &object.symbols()[k]
}

/// The position in `info`, where it is one.
fn info_position(info: Info) -> Option<usize>
    ensures { result ≡ info_position_of info }
{
    match info {
        Info::Number(_) => None,
        Info::Section(position) => Some(position),
    }
}

impl<'o, 'a> Edit<'o, 'a> {
    /// The first relocation of a symbol that does not stay.
    fn first_symbol(&self, entries: &Relocations<'_>) -> Option<usize>
        ensures { IsLowestIndex (λ j. IsLeftOut self.now.symbols.marks.items (get_or entries.now j no_relocation).symbol) result }
    {
        for j in 0..entries.len() {
            if self.symbols.is_left_out(entries.entry(j).symbol) {
                return Some(j);
            }
        }
        None
    }

    /// The first member that does not stay.
    fn first_member(&self, members: &[usize]) -> Option<usize>
        ensures { IsLowestIndex (λ j. IsLeftOut self.now.sections.marks.items (slice_get members.now j)) result }
    {
        for j in 0..members.len() {
            if !self.sections.stays(members[j]) {
                return Some(j);
            }
        }
        None
    }

    /// The first reference of a section that names what does not stay, where neither its link nor its info does.
    fn first_in_body(&self, section: &Section<'_>) -> Option<Reference>
        requires link { IsLeftOut self.now.sections.marks.items section.now.link → ⊥ }
        requires info { IsLeftOut self.now.sections.marks.items (info_position_of section.now.info) → ⊥ }
        ensures { IsFirstReference self.now.sections.marks.items self.now.symbols.marks.items (section_value section.now) result }
    {
        match &section.body {
            Body::Bits(..) | Body::NoBits(_) => None,
            Body::Relocs {
                target,
                entries,
                ..
            } => {
                if !self.sections.stays(*target) {
                    return Some(Reference::Target);
                }
                self.first_symbol(entries).map(Reference::Symbol)
            }
            Body::Group {
                signature,
                members,
                ..
            } => {
                if !self.symbols.stays(*signature) {
                    return Some(Reference::Signature);
                }
                self.first_member(members).map(Reference::Member)
            }
        }
    }

    /// The first reference of a section that names what does not stay.
    fn first_in(&self, section: &Section<'_>) -> Option<Reference>
        ensures { IsFirstReference self.now.sections.marks.items self.now.symbols.marks.items (section_value section.now) result }
    {
        if self.sections.is_left_out(section.link) {
            return Some(Reference::Link);
        }
        if self.sections.is_left_out(info_position(section.info)) {
            return Some(Reference::Info);
        }
        self.first_in_body(section)
    }

    /// The first reference from a section that stays to what does not: the position of the section, and the reference.
    pub(crate) fn first_dangling(&self) -> Option<(usize, Reference)>
        ensures { let o = self.now.object.now in
            let sections = self.now.sections.marks.items in
            let symbols = self.now.symbols.marks.items in
            MatchOption result (NoneDangles o sections symbols) (λ (i, r). IsFirstDangling o sections symbols i r) }
    {
        for i in 0..self.object.sections().len() {
            if self.sections.stays(i) {
                if let Some(reference) = self.first_in(section_at(self.object, i)) {
                    return Some((i, reference));
                }
            }
        }
        None
    }
}
