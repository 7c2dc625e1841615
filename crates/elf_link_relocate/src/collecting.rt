//! A pass over all entries of a link, in order.
//!
//! One pass relocates, and keeps no list of fields. It puts each number into its field, and keeps the first entry that breaks each of rules
//! 13, 14 and 16, and whether the fields ascend, as compilers write them. Fields that ascend share no byte. If they do not, a second pass
//! lists them too. They are sorted by section, and `first_double` searches the fields of each. If it finds a byte that two have, the entry
//! of rule 15 is the last one of the shortest beginning of the list in which `first_double` finds one: the list is halved again and again.
//! So memory follows the fields, and not the bytes of the sections.
ghost use Rattle.std.specs.Prelude.{◌≡◌, ◌↔◌, IsTrue, ◌+◌, ◌^◌, ◌<◌, IfErr, IfOk, OnOk, length};
ghost use Rattle.elf_link_files.specs.Files.{Live, Discarded};
ghost use Rattle.elf_link_relocate.specs.Fields.{content_in, content_of as content_of_body};
ghost use Rattle.elf_link_relocate.specs.Linked.{IsSectionOf};
ghost use Rattle.elf_object_type.specs.ObjectView.{body_value};
ghost use Rattle.elf_link_relocate.specs.Passes.{AreAllFound, AreFoundBefore, entry_site, first_of as first_site, IsListed, IsRuleFault};
ghost use Rattle.elf_link_relocate.specs.Passes.{IsSeenNext, none_seen, NoneUnruled};
ghost use Rattle.elf_link_relocate.specs.Views.{IsAppliedEntry};

use crate::copies::{all_copies, patch_field};
use crate::field::{Entry, Field, Found, Seen, Validated};
use crate::numbers::FieldOf;
use crate::overlaps::is_after;
use crate::rules::NO_RULE;
use crate::values::{Linking, Values};
use elf_link_field::{Form, rule_of};
use elf_link_map::files::{prove_rules, section_count, section_of};
use elf_link_map::{Broken, LinkFault, Site};
use elf_object_type::{Body, Object};
use std::alloc::{AllocError, Global};

// The sections that relocation entries speak of (gABI chapter 4, Relocation).

/// The bytes of a body; none if it has no bits.
fn content_of<'a>(body: &Body<'a>) -> &'a [u8]
    ensures { result.now ≡ content_of_body (body_value body.now) }
{
    match body {
        Body::Bits(_, content) => content,
        _ => &[],
    }
}

/// The bytes of a section of a file.
pub(crate) fn content<'a>(objects: &[Object<'a>], file: usize, section: usize) -> &'a [u8]
    requires { IsSectionOf objects.now file section }
    ensures { result.now ≡ content_in objects.now file section }
{
    content_of(&section_of(objects, file, section).body)
}

/// Whether a section is live.
pub(crate) fn is_live(linking: &Linking<'_, '_>, file: usize, section: usize) -> bool
    requires { IsSectionOf linking.now.objects file section }
    ensures { IsTrue result ↔ Live linking.now.objects file section }
{
    linking.map.address(file, section).is_some()
}

/// Whether entries of a section for this target are applied: the section is not discarded, and the target is live.
pub(crate) fn are_applied(
    linking: &Linking<'_, '_>,
    file: usize,
    section: usize,
    target: usize,
) -> bool
    requires section { IsSectionOf linking.now.objects file section }
    requires target { IsSectionOf linking.now.objects file target }
    ensures { IsTrue result ↔ ((¬ Discarded linking.now.objects file section) × Live linking.now.objects file target) }
{
    !linking.map.discarded(file, section) && is_live(linking, file, target)
}

// What a pass over the entries does with each.

/// The first site that something holds at, of those before, and then of this one.
fn first_of(before: Option<Site>, holds: bool, site: Site) -> Option<Site>
    ensures { result ≡ first_site before holds site }
{
    match before {
        Some(first) => Some(first),
        None => { if holds { Some(site) } else { None } }
    }
}

impl Seen {
    /// Nothing seen.
    fn none() -> Seen
        ensures { result ≡ none_seen }
    {
        Seen {
            unplaced: None,
            out_of_range: None,
            refused: None,
            last: None,
            ascending: true,
        }
    }

    /// With one more field.
    fn with(self, validated: Validated) -> Seen
        ensures { IsSeenNext self validated result }
    {
        let field = validated.field;
        let follows = match self.last {
            Some(last) => is_after(last, field),
            None => true,
        };
        Seen {
            unplaced: first_of(self.unplaced, validated.unplaced, field.site),
            out_of_range: first_of(self.out_of_range, validated.out_of_range, field.site),
            refused: first_of(self.refused, validated.refused, field.site),
            last: Some(field),
            ascending: self.ascending && follows,
        }
    }
}

/// Adds a field to the list, if it is asked for.
fn list_field(list: &mut Vec<Field>, listing: bool, field: Field) -> Result<(), AllocError>
    ensures { OnOk result (IsListed listing list.old.items field list.new.items) }
{
    if listing {
        list.push(field)?;
    }
    Ok(())
}

impl<'f, 'v, 'l, 'a> FieldOf<'f, 'v, 'l, 'a> {
    /// Adds it to what was found before it, and puts its number into its place.
    fn push(&self, listing: bool, found: &mut Found) -> Result<(), LinkFault>
        requires { AreFoundBefore self.now.objects self.now.map self.now.rules listing self.now.field.site found.old }
        ensures ok { OnOk result
            (AreFoundBefore self.now.objects self.now.map self.now.rules listing
            (entry_site self.now.field.site.file self.now.field.site.index (self.now.field.site.entry + 1)) found.new) }
        ensures err { IfErr result (IsRuleFault self.now.objects self.now.rules) }
    {
        let validated = self.validated();
        found.seen = found.seen.with(validated);
        patch_field(self.values.linking(), validated, &mut found.copies);
        list_field(&mut found.list, listing, validated.field)?;
        Ok(())
    }
}

/// Adds the field of an entry to those before it, where it has one.
fn push_entry(
    values: &Values<'_, '_, '_>,
    entry: Entry,
    listing: bool,
    found: &mut Found,
) -> Result<(), LinkFault>
    requires entry { IsAppliedEntry values.now.objects entry }
    requires before { AreFoundBefore values.now.objects values.now.map values.now.rules listing entry.site found.old }
    requires fits { entry.site.entry + 1 < 2 ^ 64 }
    ensures ok { OnOk result
        (AreFoundBefore values.now.objects values.now.map values.now.rules listing
        (entry_site entry.site.file entry.site.index (entry.site.entry + 1)) found.new) }
    ensures err { IfErr result (IsRuleFault values.now.objects values.now.rules) }
{
    let linking = values.linking();
    let Some(rule) = rule_of(linking.rules, entry.relocation.kind) else {
        return Err(Broken::new(NO_RULE, entry.site).into());
    };
    if rule.form == Form::None {
        return Ok(());
    }
    let field = Field {
        site: entry.site,
        rule,
        target: entry.target,
        offset: entry.relocation.offset as usize,
        number: 0,
    };
    let field_of = FieldOf {
        values,
        entry,
        field,
    };
    field_of.push(listing, found)
}

/// Adds the fields of a section's entries.
fn push_section(
    values: &Values<'_, '_, '_>,
    file: usize,
    index: usize,
    listing: bool,
    found: &mut Found,
) -> Result<(), LinkFault>
    requires section { IsSectionOf values.now.objects file index }
    requires before { AreFoundBefore values.now.objects values.now.map values.now.rules listing (entry_site file index 0) found.old }
    ensures ok { OnOk result
        (AreFoundBefore values.now.objects values.now.map values.now.rules listing (entry_site file (index + 1) 0) found.new) }
    ensures err { IfErr result (IsRuleFault values.now.objects values.now.rules) }
{
    let linking = values.linking();
    prove_rules(linking.objects, file);
    let Body::Relocs {
        rela,
        target,
        entries,
    } = &section_of(linking.objects, file, index).body
    else {
        return Ok(());
    };
    if !are_applied(linking, file, index, *target) {
        return Ok(());
    }
    for entry in 0..entries.len() {
        let read = Entry {
            site: Site { file, index, entry },
            rela: *rela,
            target: *target,
            relocation: entries.entry(entry),
        };
        push_entry(values, read, listing, found)?;
    }
    Ok(())
}

/// Adds the fields of a file's entries.
fn push_file(
    values: &Values<'_, '_, '_>,
    file: usize,
    listing: bool,
    found: &mut Found,
) -> Result<(), LinkFault>
    requires file { file < length values.now.objects }
    requires before { AreFoundBefore values.now.objects values.now.map values.now.rules listing (entry_site file 0 0) found.old }
    ensures ok { OnOk result
        (AreFoundBefore values.now.objects values.now.map values.now.rules listing (entry_site (file + 1) 0 0) found.new) }
    ensures err { IfErr result (IsRuleFault values.now.objects values.now.rules) }
{
    let linking = values.linking();
    let objects = linking.objects;
    for index in 0..section_count(&objects[file]) {
        push_section(values, file, index, listing, found)?;
    }
    Ok(())
}

/// What one pass over all entries finds, with the list of the fields if it is asked for. Returns rule 12, at the first applied entry whose
/// kind has no relocation rule.
pub(crate) fn pass_over_entries(
    alloc: Global,
    values: &Values<'_, '_, '_>,
    listing: bool,
) -> Result<Found, LinkFault>
    ensures found { IfOk result (AreAllFound values.now.objects values.now.map values.now.rules listing) }
    ensures ruled { OnOk result (NoneUnruled values.now.objects values.now.rules) }
    ensures err { IfErr result (IsRuleFault values.now.objects values.now.rules) }
{
    let linking = values.linking();
    let mut found = Found {
        seen: Seen::none(),
        list: Vec::new(alloc),
        copies: all_copies(alloc, linking)?,
    };
    let objects = linking.objects;
    for file in 0..objects.len() {
        push_file(values, file, listing, &mut found)?;
    }
    Ok(found)
}
