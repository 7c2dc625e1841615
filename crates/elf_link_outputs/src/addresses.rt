//! Addresses of the parts of a link, and rules 10 and 11.
ghost use Rattle.std.specs.Prelude.{◌≡◌, ◌<◌, ◌≤◌, [], IfOk, get_or, length, map, None, Some, IfErr, MatchOption, OnOk, ◌+◌};
ghost use Rattle.elf_link_outputs.specs.Placed.{AreAddresses, AreEmptyRows, AreFilled, AreLive, with_cell, ArePlacedCommons};
ghost use Rattle.elf_link_outputs.specs.Placed.{ArePlacedOutputs, common_value, output_value};
ghost use Rattle.elf_extent.specs.Place.{EndsFit, Least};
ghost use Rattle.elf_link_files.specs.Rows.{FirstAt};
ghost use Rattle.elf_link_outputs.specs.Addresses.{HasNoValue, HasValue, IsTarget, StartsAt, StartsPast, address_rules, IsAddressFault};
ghost use Rattle.elf_link_outputs.specs.Addresses.{IsTargetBelow, IsAddressedFrom};
ghost use Rattle.elf_link_outputs.specs.Outputs.{placed, plan_parts};

use crate::placing::{Common, Output, placed_commons, placed_outputs};
use crate::plan::Plan;
use elf_extent::{PlaceFault, next_place, place};
use elf_link_files::files::section_count;
use elf_link_files::rules::*;
use elf_link_files::{Broken, LinkFault, Site, site_in};
use elf_object_type::Object;
use std::alloc::{AllocError, Global};
use std::marker::Model;

// The addresses of sections, by file and section.

/// For each section of each file no address.
fn no_addresses(alloc: Global, objects: &[Object<'_>]) -> Result<Vec<Vec<Option<u64>>>, AllocError>
    ensures { IfOk result (λ rows. AreEmptyRows objects.now (length objects.now) (map (λ row. row.items) rows.items)) }
{
    let mut rows = Vec::new(alloc);
    for file in 0..objects.len() {
        rows.push(vec![in alloc; None; section_count(&objects[file])]?)?;
    }
    Ok(rows)
}

/// Sets the address of a section.
fn set_address(rows: &mut Vec<Vec<Option<u64>>>, site: Site, address: u64)
    requires file { site.file < length rows.old.items }
    requires index { site.index < length (get_or (map (λ row. row.items) rows.old.items) site.file []) }
    ensures { map (λ row. row.items) rows.new.items ≡ with_cell (map (λ row. row.items) rows.old.items) site.file site.index address }
{
    rows[site.file][site.index] = Some(address);
}

/// Sets the address of each of these sections.
fn fill(rows: &mut Vec<Vec<Option<u64>>>, objects: &[Object<'_>], sites: &[Site], places: &[u64])
    requires live { AreLive objects.now sites.now }
    requires long { length sites.now ≤ length places.now }
    requires before { AreFilled objects.now sites.now places.now 0 (map (λ row. row.items) rows.old.items) }
    ensures { AreFilled objects.now sites.now places.now (length sites.now) (map (λ row. row.items) rows.new.items) }
{
    for k in 0..sites.len() {
        set_address(rows, sites[k], places[k]);
    }
}

/// The address of each live section, and of no other. Fails only when out of memory.
pub(crate) fn section_addresses(
    alloc: Global,
    objects: &[Object<'_>],
    sites: &[Site],
    places: &[u64],
) -> Result<Vec<Vec<Option<u64>>>, AllocError>
    requires live { AreLive objects.now sites.now }
    requires long { length sites.now ≤ length places.now }
    ensures { IfOk result (λ rows. AreAddresses objects.now sites.now places.now (map (λ row. row.items) rows.items)) }
{
    let mut rows = no_addresses(alloc, objects)?;
    fill(&mut rows, objects, sites, places);
    Ok(rows)
}

/// What the entry symbol's value is made of.
#[derive(Clone, Copy)]
pub enum Target {
    /// It has none: not bound, zero, or in a section that is not live.
    Lost,
    /// A value of its own.
    Fixed(u64),
    /// An offset in the part at this position.
    Part(usize, u64),
}

/// Where part `t` starts, when the parts (size, alignment) are placed from `from`; None if it starts at 2^64 or later.
/// It takes no memory.
fn start_of(parts: &[(u64, u64)], from: u64, t: usize) -> Option<u64>
    requires { t < length parts.now }
    ensures { MatchOption result (StartsPast parts.now from t) (StartsAt parts.now from t) }
{
    let mut cursor = from;
    for i in 0..t {
        let (size, align) = parts[i];
        let Some(start) = next_place(cursor, align) else {
            return None;
        };
        let Some(end) = start.checked_add(size) else {
            return None;
        };
        cursor = end;
    }
    next_place(cursor, parts[t].1)
}

/// The entry symbol's value; None if it has none, or one of 2^64 or more.
fn entry_value(parts: &[(u64, u64)], base: u64, target: Target) -> Option<u64>
    requires { IsTarget parts.now target }
    ensures { MatchOption result (HasNoValue parts.now base target) (HasValue parts.now base target) }
{
    match target {
        Target::Lost => None,
        Target::Fixed(value) => Some(value),
        Target::Part(t, offset) => start_of(parts, base, t)?.checked_add(offset),
    }
}

/// Where everything is.
#[derive(Drop)]
pub(crate) struct Places {
    /// The address of each part.
    pub places: Vec<u64>,
    /// The entry symbol's value.
    pub entry: u64,
}

/// The least addresses of the parts (size, alignment) from `base`, and the entry symbol's value.
///
/// Returns rule 10 if the entry symbol has no value below 2^64, else rule 11 where a part ends at 2^64 or later, and
/// [`LinkFault::OutOfMemory`] only if an allocation fails and none of them is broken.
pub(crate) fn addresses(
    alloc: Global,
    parts: &[(u64, u64)],
    base: u64,
    target: Target,
) -> Result<Places, LinkFault>
    requires { IsTarget parts.now target }
    ensures sound { OnOk result (FirstAt (address_rules parts.now base target) None) }
    ensures least { IfOk result (λ placed. Least parts.now base placed.places.items) }
    ensures fits { IfOk result (λ placed. EndsFit parts.now placed.places.items (length parts.now)) }
    ensures entry { IfOk result (λ placed. HasValue parts.now base target placed.entry) }
    ensures err { IfErr result (IsAddressFault parts.now base target) }
{
    let Some(entry) = entry_value(parts, base, target) else {
        return Err(LinkFault::from(Broken::new(NO_ENTRY, site_in(0, 0))));
    };
    match place(alloc, parts, base) {
        Ok(places) => Ok(Places { places, entry }),
        Err(PlaceFault::Overflow { .. }) => Err(LinkFault::from(Broken::new(
            ADDRESS_OVERFLOW,
            site_in(0, 0),
        ))),
        Err(PlaceFault::OutOfMemory) => Err(LinkFault::OutOfMemory),
    }
}

// A plan at its addresses.

/// A plan at its addresses, and the entry symbol's value: its parts have their least places, and end there below 2^64.
#[derive(Drop)]
pub struct Addressed<'l, 'a> {
    plan: Plan<'l, 'a>,
    places: Vec<u64>,
    entry: u64,
}

impl<'l, 'a> Model for Addressed<'l, 'a> {
    ghost use Rattle.elf_link_outputs.specs.Outputs.{AddressedValue};

    ghost Value = { AddressedValue };

    ghost use Rattle.elf_link_outputs.specs.Views.{IsAddressed, addressed_value};

    ghost view = { addressed_value };

    ghost invariant = { IsAddressed };
}

impl<'l, 'a> Addressed<'l, 'a> {
    /// A plan at the least addresses of its parts from `base`, and the entry symbol's value.
    ///
    /// Returns rule 10 if the entry symbol has no value below 2^64, else rule 11 where a part ends at 2^64 or later, and
    /// [`LinkFault::OutOfMemory`] only if an allocation fails and none of them is broken.
    pub fn new(
        alloc: Global,
        plan: Plan<'l, 'a>,
        base: u64,
        target: Target,
    ) -> Result<Addressed<'l, 'a>, LinkFault>
        requires { IsTargetBelow (length (placed plan.plan) + length plan.plan.commons) target }
        ensures ok { IfOk result (IsAddressedFrom plan.entry base target) }
        ensures err { IfErr result (IsAddressFault (plan_parts plan.entry) base target) }
    {
        let found = addresses(alloc, &plan.parts, base, target)?;
        Ok(Addressed {
            plan,
            places: found.places,
            entry: found.entry,
        })
    }

    /// The entry symbol's value.
    pub fn entry(&self) -> u64
        ensures { result ≡ self.now.entry }
    {
        self.entry
    }

    /// The address of each live section, and of no other. Fails only when out of memory.
    pub fn section_addresses(&self, alloc: Global) -> Result<Vec<Vec<Option<u64>>>, AllocError>
        ensures { IfOk result
            (λ rows. AreAddresses self.now.plan.objects (placed self.now.plan.plan) self.now.places (map (λ row. row.items) rows.items)) }
    {
        let plan = &self.plan;
        let outputs = &plan.outputs;
        section_addresses(alloc, outputs.objects, &plan.sites, &self.places)
    }

    /// All outputs at their places. Fails only when out of memory.
    pub fn outputs(&self, alloc: Global) -> Result<Vec<Output<'a>>, AllocError>
        ensures { IfOk result
            (λ placed. ArePlacedOutputs self.now.plan.objects self.now.plan.plan.outputs (plan_parts self.now.plan) self.now.places
            (length self.now.plan.plan.outputs) (map output_value placed.items)) }
    {
        let plan = &self.plan;
        let outputs = &plan.outputs;
        placed_outputs(
            alloc,
            outputs.objects,
            &outputs.groups,
            &plan.parts,
            &self.places,
        )
    }

    /// All commons at their places, which are those after all sections. Fails only when out of memory.
    pub fn commons(&self, alloc: Global) -> Result<Vec<Common<'a>>, AllocError>
        ensures { IfOk result
            (λ commons. ArePlacedCommons self.now.plan.objects self.now.plan.plan.commons self.now.places
            (length (placed self.now.plan.plan)) (length self.now.plan.plan.commons) (map common_value commons.items)) }
    {
        let plan = &self.plan;
        let outputs = &plan.outputs;
        placed_commons(
            alloc,
            outputs.objects,
            plan.commons,
            &self.places,
            plan.sites.len(),
        )
    }
}
