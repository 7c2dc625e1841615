//! An object without some of its sections.
ghost use Rattle.std.specs.Prelude.{◌≡◌, IfErr, IfOk, OnOk};
ghost use Rattle.elf_object_edit.specs.Without.{AreUnneeded, IsWithoutFault, has_staying_place, object_without};
ghost use Rattle.elf_object_edit.specs.Without.{staying_sections as staying_sections_of, staying_symbols as staying_symbols_of};

use crate::fault::WithoutFault;
use crate::references::{Edit, symbol_at};
use crate::staying::{Staying, stays};
use elf_object_type::{NameEnds, Object, Place, kept_object, section_ends, symbol_ends};
use std::alloc::{AllocError, Global};

/// A mark for each section: whether it stays.
fn staying_sections(
    alloc: Global,
    object: &Object<'_>,
    left_out: &[bool],
) -> Result<Vec<bool>, AllocError>
    ensures { IfOk result (λ marks. marks.items ≡ staying_sections_of object.now left_out.now) }
{
    let count = object.sections().len();
    let mut marks = Vec::with_capacity(alloc, count)?;
    for p in 0..count {
        marks.push(!stays(left_out, p))?;
    }
    Ok(marks)
}

/// Whether a symbol of this place stays, where these sections do.
fn has_staying_place(sections: &[bool], place: Place) -> bool
    ensures { result ≡ has_staying_place sections.now place }
{
    match place {
        Place::Undef | Place::Abs | Place::Common => true,
        Place::In(p) => stays(sections, p),
    }
}

/// A mark for each symbol: whether it stays, where these sections do.
fn staying_symbols(
    alloc: Global,
    object: &Object<'_>,
    sections: &[bool],
) -> Result<Vec<bool>, AllocError>
    ensures { IfOk result (λ marks. marks.items ≡ staying_symbols_of object.now sections.now) }
{
    let count = object.symbols().len();
    let mut marks = Vec::with_capacity(alloc, count)?;
    for k in 0..count {
        marks.push(has_staying_place(sections, symbol_at(object, k).place))?;
    }
    Ok(marks)
}

/// The object without some of its sections (gABI chapter 4, Sections): without those at positions where `left_out` is true, and without the
/// symbols that are defined in them. A section past the end of `left_out` stays. What stays keeps its order, names and bytes; links, infos,
/// relocations, groups and symbols name the new positions.
///
/// [`WithoutFault::Dangling`] comes exactly if a section that stays refers to one that is left out, or to a symbol that is defined in one.
/// It has the first such section and its first such reference, in the order of [`Reference`](crate::Reference). A relocation section is
/// not left out with its target, nor a group with its members: they are sections too. A group may be left out while its members stay.
///
/// [`WithoutFault::OutOfMemory`] comes only if an allocation fails. Memory is taken for each section, symbol, relocation and member, and
/// the time is linear in them.
pub fn without<'a>(
    alloc: Global,
    object: &Object<'a>,
    left_out: &[bool],
) -> Result<Object<'a>, WithoutFault>
    ensures object { IfOk result (λ o. o ≡ object_without object.now left_out.now) }
    ensures unneeded { OnOk result (AreUnneeded object.now left_out.now) }
    ensures fault { IfErr result (IsWithoutFault object.now left_out.now) }
{
    let sections = staying_sections(alloc, object, left_out)?;
    let symbols = staying_symbols(alloc, object, &sections)?;
    let edit = Edit {
        object,
        sections: Staying::new(alloc, sections)?,
        symbols: Staying::new(alloc, symbols)?,
    };
    if let Some((section, reference)) = edit.first_dangling() {
        return Err(WithoutFault::Dangling { section, reference });
    }
    let parts = edit.parts(alloc)?;
    // A writer compares long names by their ends.
    let ends = NameEnds {
        symbols: edit.symbols.ends(alloc, symbol_ends(object))?,
        sections: edit.sections.ends(alloc, section_ends(object))?,
    };
    object.prove_rules();
    Ok(kept_object(parts, ends))
}
