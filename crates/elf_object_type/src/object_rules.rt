//! The nine rules of objects, in order.
ghost use Rattle.std.specs.Prelude.{◌≡◌, ◌↔◌, ◌+◌, ◌<◌, ◌≤◌, ◌⊎◌, IfOk, IsTrue, [], length, IfErr, OnOk};
ghost use Rattle.std.specs.Bool.{OnFalse};
ghost use Rattle.elf_extent.specs.Extent.{IsLowest};
ghost use Rattle.elf_object_type.specs.ObjectRules.{AreMembershipMarks, CannotJoin, HasWrongMembership, wrong_membership, BreaksSymbol};
ghost use Rattle.elf_object_type.specs.ObjectRules.{IsLocal, SomeSymbol, misplaced_local, object_symbol_rules};
ghost use Rattle.elf_object_type.specs.ObjectRules.{place_position as place_position_of, IsObject, IsObjectFault};
ghost use Rattle.elf_object_type.specs.ObjectView.{value_of, symbol_value};
ghost use Rattle.elf_image_rules.specs.Rows.{fault_of, FirstIn};

use crate::object::ObjectFault;
use crate::parts::{Body, ObjectParts, Place, Symbol};
use crate::rules::*;
use crate::section_rules::{has_zero, is_group, is_past, section_at, symbol_at, validate_sections};
use elf_field::abi::*;
use elf_image_rules::Broken;
use std::alloc::{AllocError, Global};

// Rule 6: the members of section groups (gABI chapter 4, Section Groups).

/// The least position of a group with a wrong member. It takes a mark for each section, and the time of one pass over all
/// members.
pub(crate) fn lowest_wrong_membership(
    alloc: Global,
    parts: &ObjectParts<'_>,
) -> Result<Option<usize>, AllocError>
    ensures { IfOk result (IsLowest (wrong_membership (value_of parts.now))) }
{
    let mut marks = vec![in alloc; false; parts.sections.len()]?;
    for i in 0..parts.sections.len() {
        if has_wrong_membership(parts, i, &mut marks) {
            return Ok(Some(i));
        }
    }
    Ok(None)
}

/// Whether the section at position `i` is a group with a wrong member. The sections with a mark are the members of the groups
/// before it; where none of its members is wrong, they are marked too.
fn has_wrong_membership(parts: &ObjectParts<'_>, i: usize, marks: &mut Vec<bool>) -> bool
    requires there { i < length parts.now.sections.items }
    requires marked { AreMembershipMarks (value_of parts.now) i [] 0 marks.old.items }
    ensures wrong { IsTrue result ↔ HasWrongMembership (value_of parts.now) i }
    ensures marked { OnFalse result (AreMembershipMarks (value_of parts.now) (i + 1) [] 0 marks.new.items) }
{
    let Body::Group { members, .. } = &section_at(parts, i).body else {
        return false;
    };
    for member in members {
        if is_wrong_membership(parts, i, *member, marks) {
            return true;
        }
        marks[*member] = true;
    }
    false
}

/// Whether the section at position `member` can't be one of the group at position `i`, where sections with a mark are members
/// already.
fn is_wrong_membership(parts: &ObjectParts<'_>, i: usize, member: usize, marks: &Vec<bool>) -> bool
    requires { length marks.now.items ≡ length parts.now.sections.items }
    ensures wrong { IsTrue result ↔ CannotJoin (value_of parts.now) i marks.now.items member }
    ensures there { OnFalse result (member < length marks.now.items) }
{
    if member <= i || member >= parts.sections.len() {
        return true;
    }
    let section = section_at(parts, member);
    marks[member] || is_group(&section.body) || section.flags & SHF_GROUP == 0
}

// Rules 7 to 9: the symbols (gABI chapter 4, Symbol Table).

/// A rule on one symbol.
#[derive(Clone, Copy)]
pub(crate) enum SymbolRule {
    /// Rule 7, [`ZERO_IN_SYMBOL_NAME`].
    ZeroInSymbolName,
    /// Rule 8, [`WRONG_PLACE`].
    WrongPlace,
}

impl SymbolRule {
    /// Whether a symbol of these parts breaks the rule.
    fn is_broken_by(self, parts: &ObjectParts<'_>, symbol: &Symbol<'_>) -> bool
        ensures { IsTrue result ↔ BreaksSymbol self (value_of parts.now) (symbol_value symbol.now) }
    {
        match self {
            SymbolRule::ZeroInSymbolName => has_zero(symbol.name),
            SymbolRule::WrongPlace => is_past(parts.sections.len(), place_position(symbol.place)),
        }
    }
}

/// The position of the section that a symbol is defined in, where it is in one.
fn place_position(place: Place) -> Option<usize>
    ensures { result ≡ place_position_of place }
{
    match place {
        Place::Undef | Place::Abs | Place::Common => None,
        Place::In(position) => Some(position),
    }
}

/// Whether the symbol's binding is local.
fn is_local(symbol: &Symbol<'_>) -> bool
    ensures { IsTrue result ↔ IsLocal (symbol_value symbol.now) }
{
    symbol.binding() == STB_LOCAL
}

/// The least position of a symbol that breaks the rule.
fn lowest_symbol(parts: &ObjectParts<'_>, rule: SymbolRule) -> Option<u64>
    ensures { IsLowest (SomeSymbol rule (value_of parts.now)) result }
{
    for i in 0..parts.symbols.len() {
        if rule.is_broken_by(parts, &symbol_at(parts, i)) {
            return Some(i as u64);
        }
    }
    None
}

/// The least position of a local symbol after one that is not.
fn lowest_misplaced_local(parts: &ObjectParts<'_>) -> Option<u64>
    ensures { IsLowest (misplaced_local (value_of parts.now)) result }
{
    let mut all_local = true;
    for i in 0..parts.symbols.len() {
        let local = is_local(&symbol_at(parts, i));
        if local && !all_local {
            return Some(i as u64);
        }
        all_local = local;
    }
    None
}

/// Rules 7 to 9; what is broken is broken at a position.
#[tactic(auto, unfolding(crate::specs::ObjectRules::object_symbol_rules))]
pub(crate) fn validate_symbols(parts: &ObjectParts<'_>) -> Result<(), Broken<u64>>
    ensures fault { FirstIn (object_symbol_rules (value_of parts.now)) (fault_of result) }
    ensures number { IfErr result (λ broken. 6 < broken.rule) }
{
    if let Some(position) = lowest_symbol(parts, SymbolRule::ZeroInSymbolName) {
        return Err(Broken::new(ZERO_IN_SYMBOL_NAME, position));
    }
    if let Some(position) = lowest_symbol(parts, SymbolRule::WrongPlace) {
        return Err(Broken::new(WRONG_PLACE, position));
    }
    if let Some(position) = lowest_misplaced_local(parts) {
        return Err(Broken::new(MISPLACED_LOCAL, position));
    }
    Ok(())
}

/// All rules of these parts.
pub(crate) fn validate(alloc: Global, parts: &ObjectParts<'_>) -> Result<(), ObjectFault>
    ensures ok { OnOk result (IsObject (value_of parts.now)) }
    ensures err { IfErr result (IsObjectFault (value_of parts.now)) }
{
    if let Err(broken) = validate_sections(parts) {
        return Err(ObjectFault::Section {
            rule: broken.rule,
            position: broken.at as usize,
        });
    }
    if let Some(position) = lowest_wrong_membership(alloc, parts)? {
        return Err(ObjectFault::Section {
            rule: WRONG_MEMBERSHIP,
            position,
        });
    }
    if let Err(broken) = validate_symbols(parts) {
        return Err(ObjectFault::Symbol {
            rule: broken.rule,
            position: broken.at as usize,
        });
    }
    Ok(())
}
