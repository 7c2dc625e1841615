//! An object with the sections that a closure keeps.
ghost use Rattle.std.specs.Prelude.{◌≡◌, ◌<◌, ℕ, Bool, IfErr, IfOk, MatchResult, OnOk, length};
ghost use Rattle.elf_object_edit.specs.Retain.{AreRejected, ComputesTest, IsRetainFault, IsRetained, failing_sections, object_retained};
ghost use Rattle.elf_object_edit.specs.Without.{AreUnneeded, IsWithoutFault};
ghost use Rattle.elf_object_type.specs.Object.{SectionValue};

use crate::editing::without;
use crate::fault::WithoutFault;
use crate::references::section_at;
use elf_object_type::{Object, Section};
use std::alloc::{AllocError, Global};

/// A mark for each section: whether `keep` returns false for it.
fn rejected_sections<'a, F: Fn(usize, &Section<'a>) -> bool>(
    alloc: Global,
    object: &Object<'a>,
    keep: F,
) -> Result<Vec<bool>, AllocError>
    requires { F.IsAlwaysCallable keep }
    ensures { IfOk result (λ marks. AreRejected F.Fn keep object.now marks.items) }
{
    let count = object.sections().len();
    let mut marks = Vec::with_capacity(alloc, count)?;
    for p in 0..count {
        marks.push(!keep(p, section_at(object, p)))?;
    }
    Ok(marks)
}

/// The object with just the sections for which `keep` returns true: [`without`] of the others. `keep` has the position of a section and
/// the section; it is called once for each, in order.
///
/// [`WithoutFault::Dangling`] comes exactly if a section that stays refers to one that does not, or to a symbol that is defined in one.
/// [`WithoutFault::OutOfMemory`] comes only if an allocation fails. Memory and time are those of [`without`].
pub fn retain<'a, F: Fn(usize, &Section<'a>) -> bool>(
    alloc: Global,
    object: &Object<'a>,
    keep: F,
) -> Result<Object<'a>, WithoutFault>
    requires { F.IsAlwaysCallable keep }
    ensures object { (test : ℕ → SectionValue → Bool) → ComputesTest F.Fn keep test →
        IfOk result (λ o. o ≡ object_retained object.now test) }
    ensures unneeded { (test : ℕ → SectionValue → Bool) → ComputesTest F.Fn keep test →
        OnOk result (AreUnneeded object.now (failing_sections object.now test)) }
    ensures fault { (test : ℕ → SectionValue → Bool) → ComputesTest F.Fn keep test →
        IfErr result (IsWithoutFault object.now (failing_sections object.now test)) }
    ensures results { MatchResult result (IsRetained F.Fn keep object.now) (IsRetainFault F.Fn keep object.now) }
{
    let left_out = rejected_sections(alloc, object, keep)?;
    without(alloc, object, &left_out)
}
