//! The link map of objects.
ghost use Rattle.std.specs.Prelude.{ℕ, ◌+◌, ◌^◌, ◌<◌, MatchOption, length, ◌≡◌, IfErr, IfOk, None, OnOk, map as map_list};
ghost use Rattle.elf_link_files.specs.Files.{IsSymbolIn};
ghost use Rattle.elf_link_names.specs.Resolution.{name_in};
ghost use Rattle.elf_link_outputs.specs.Addresses.{IsTargetBelow};
ghost use Rattle.elf_link_outputs.specs.Outputs.{placed as placed_sites, plan_parts};
ghost use Rattle.elf_link_outputs.specs.Placed.{AreAddresses, ArePlacedCommons, ArePlacedOutputs, common_value, output_value};
ghost use Rattle.elf_link_map.specs.Entry.{HasSite, IsBoundTarget, IsEntrySymbolTarget, IsNameTarget, IsSectionTarget, IsSymbolTarget};
ghost use Rattle.elf_link_map.specs.LinkMap.{FirstOfLink, IsAddressedFor, IsAddressingFault, IsLinkFault, IsLinkMap, IsOnlyFault};
ghost use Rattle.elf_link_map.specs.LinkMap.{IsOnlyFirst, IsOnlyLinkMap};
ghost use Rattle.elf_link_map.specs.Naming.{AreBindingIndexes};
ghost use Rattle.elf_link_map.specs.Standing.{ArePlacedApart, ArePaged, OutputsStand};

use crate::bindings::{IndexedMap, all_bindings};
use crate::laws::prove_objects;
use crate::link_map::LinkMap;
use elf_link_files::{LinkFault, Options, Site, SymbolId, is_at};
use elf_link_names::validate::validate;
use elf_link_names::{Choice, Resolution};
use elf_link_outputs::addresses::Target;
use elf_link_outputs::{Addressed, Common, Output, Outputs, Plan};
use elf_object_type::{Object, Place};
use std::alloc::{AllocError, Global};
use std::hash::BuildHasher;

// What the entry symbol's value is made of (gABI chapter 4, ELF Header: `e_entry`; Symbol Table: `st_value`).

/// The position of a section among those that are placed.
fn position_of(sites: &[Site], file: usize, section: usize) -> Option<usize>
    ensures { MatchOption result ((k : ℕ) → HasSite sites.now file section k → ⊥) (HasSite sites.now file section) }
{
    for k in 0..sites.len() {
        if is_at(sites[k], file, section) {
            return Some(k);
        }
    }
    None
}

/// An offset in a section.
fn section_target(sites: &[Site], file: usize, section: usize, offset: u64) -> Target
    ensures target { IsSectionTarget sites.now file section offset result }
    ensures below { IsTargetBelow (length sites.now) result }
{
    match position_of(sites, file, section) {
        Some(k) => Target::Part(k, offset),
        None => Target::Lost,
    }
}

/// The value of a symbol.
fn symbol_target(resolution: &Resolution<'_, '_>, sites: &[Site], id: SymbolId) -> Target
    requires { IsSymbolIn resolution.now.objects id }
    ensures target { IsSymbolTarget resolution.now.objects sites.now id.file id.index result }
    ensures below { IsTargetBelow (length sites.now) result }
{
    let symbol = resolution.symbol(id);
    match symbol.place {
        Place::Undef | Place::Common => Target::Lost,
        Place::Abs => Target::Fixed(symbol.value),
        Place::In(section) => section_target(sites, id.file, section, symbol.value),
    }
}

/// The value of the name of index `k` by its binding. A common is after all sections.
fn bound_target(resolution: &Resolution<'_, '_>, sites: &[Site], k: usize) -> Target
    requires index { k < length resolution.now.firsts }
    requires fits { length sites.now + length resolution.now.commons < 2 ^ 64 }
    ensures target { IsBoundTarget resolution.now.objects sites.now resolution.now.commons (name_in resolution.now k) result }
    ensures below { IsTargetBelow (length sites.now + length resolution.now.commons) result }
{
    match resolution.choice(k) {
        Choice::Strong { file, symbol } | Choice::Weak { file, symbol } => symbol_target(
            resolution,
            sites,
            SymbolId {
                file,
                index: symbol,
            },
        ),
        Choice::Common { .. } => Target::Part(sites.len() + resolution.common_position(k), 0),
        Choice::Zero => Target::Lost,
    }
}

/// The value of a name; lost where no symbol has it that is not local.
fn name_target(resolution: &Resolution<'_, '_>, sites: &[Site], name: &[u8]) -> Target
    requires { length sites.now + length resolution.now.commons < 2 ^ 64 }
    ensures target { IsNameTarget resolution.now.objects sites.now resolution.now.commons name.now result }
    ensures below { IsTargetBelow (length sites.now + length resolution.now.commons) result }
{
    match resolution.index(name) {
        Some(k) => bound_target(resolution, sites, k),
        None => Target::Lost,
    }
}

/// The value of the entry symbol, 0 if none is named.
pub(crate) fn entry_target(
    resolution: &Resolution<'_, '_>,
    sites: &[Site],
    name: Option<&[u8]>,
) -> Target
    requires { length sites.now + length resolution.now.commons < 2 ^ 64 }
    ensures target { IsEntrySymbolTarget resolution.now.objects sites.now resolution.now.commons name.entry result }
    ensures below { IsTargetBelow (length sites.now + length resolution.now.commons) result }
{
    match name {
        Some(name) => name_target(resolution, sites, name),
        None => Target::Fixed(0),
    }
}

/// Where everything of a link is.
///
/// Returns the first of rules 10 and 11 that is broken, and [`LinkFault::OutOfMemory`] only if an allocation fails.
fn placed<'l, 'a, S: BuildHasher + Drop>(
    alloc: Global,
    resolution: &'l Resolution<'_, 'a>,
    options: &Options<'_>,
    hasher: S,
) -> Result<Addressed<'l, 'a>, LinkFault>
    ensures ok { IfOk result (IsAddressedFor options.now resolution.now.objects) }
    ensures commons { IfOk result (λ placed. placed.plan.plan.commons ≡ resolution.now.commons) }
    ensures err { IfErr result (IsAddressingFault options.now resolution.now.objects) }
{
    let live = resolution.live_sections(alloc)?;
    let outputs = Outputs::new(alloc, resolution.objects(), &live, hasher)?;
    let plan = Plan::new(alloc, options.page, outputs, resolution.commons())?;
    let target = entry_target(resolution, plan.sites(), options.entry);
    Addressed::new(alloc, plan, options.base, target)
}

/// What a link map keeps of where everything is.
#[derive(Drop)]
struct PlacedParts<'a> {
    addresses: Vec<Vec<Option<u64>>>,
    outputs: Vec<Output<'a>>,
    commons: Vec<Common<'a>>,
    entry: u64,
}

/// Collects those parts, once everything has its address. Fails only when out of memory.
fn placed_parts<'a>(
    alloc: Global,
    placed: &Addressed<'_, 'a>,
) -> Result<PlacedParts<'a>, AllocError>
    ensures addresses { IfOk result
        (λ parts. AreAddresses placed.now.plan.objects (placed_sites placed.now.plan.plan) placed.now.places
        (map_list (λ row. row.items) parts.addresses.items)) }
    ensures outputs { IfOk result
        (λ parts. ArePlacedOutputs placed.now.plan.objects placed.now.plan.plan.outputs (plan_parts placed.now.plan) placed.now.places
        (length placed.now.plan.plan.outputs) (map_list output_value parts.outputs.items)) }
    ensures commons { IfOk result
        (λ parts. ArePlacedCommons placed.now.plan.objects placed.now.plan.plan.commons placed.now.places
        (length (placed_sites placed.now.plan.plan)) (length placed.now.plan.plan.commons) (map_list common_value parts.commons.items)) }
    ensures entry { IfOk result (λ parts. parts.entry ≡ placed.now.entry) }
{
    let addresses = placed.section_addresses(alloc)?;
    let outputs = placed.outputs(alloc)?;
    let commons = placed.commons(alloc)?;
    Ok(PlacedParts {
        addresses,
        outputs,
        commons,
        entry: placed.entry(),
    })
}

/// The link map of these objects, as [`map`] returns it, with the index of the name of each symbol, which its making takes anyway.
///
/// Returns what `map` does where one of the link's rules is broken, or an allocation fails.
pub fn map_indexed<'a, S: BuildHasher + Drop>(
    alloc: Global,
    objects: &[Object<'a>],
    options: &Options<'_>,
    hasher: S,
) -> Result<IndexedMap<'a>, LinkFault>
    ensures sound { OnOk result (FirstOfLink options.now objects.now None) }
    ensures map { IfOk result (λ indexed. IsLinkMap options.now objects.now indexed.map) }
    ensures indexes { IfOk result
        (λ indexed. AreBindingIndexes objects.now indexed.map (map_list (λ row. row.items) indexed.indexes.items)) }
    ensures err { IfErr result (IsLinkFault options.now objects.now) }
{
    let resolution = validate(alloc, objects, options)?;
    let placed = placed(alloc, &resolution, options, hasher)?;
    let parts = placed_parts(alloc, &placed)?;
    drop(placed);
    let bound = all_bindings(alloc, resolution, &parts.commons)?;
    let map = LinkMap {
        addresses: parts.addresses,
        discarded: bound.marks,
        names: bound.names,
        outputs: parts.outputs,
        commons: parts.commons,
        base: options.base,
        page: options.page,
        entry: parts.entry,
    };
    Ok(IndexedMap {
        map,
        indexes: bound.indexes,
    })
}

/// The link map of these objects: where each live section and each common is, and what each name is bound to.
///
/// No address lies in two sections, in a section and a common, or in two commons; the outputs are disjoint and in order, each begins at a
/// multiple of the page, and each live section is a member of just one, once.
///
/// The hasher is for speed alone: output sections are found by numbers, which it hashes. The map is the same for every hasher.
///
/// [`LinkFault::Rule`] is the first of the link's rules ([`rules`](crate::rules)) that is broken, at its first site;
/// [`LinkFault::OutOfMemory`] comes only if an allocation fails; memory is taken only if rules 1 and 2 are not broken: for each
/// section, symbol and name. Takes log n comparisons of names at most for each symbol, each group and each live section.
pub fn map<'a, S: BuildHasher + Drop>(
    alloc: Global,
    objects: &[Object<'a>],
    options: &Options<'_>,
    hasher: S,
) -> Result<LinkMap<'a>, LinkFault>
    ensures sound { OnOk result (FirstOfLink options.now objects.now None) }
    ensures map { IfOk result (λ m. IsLinkMap options.now objects.now m) }
    ensures apart { IfOk result (ArePlacedApart objects.now) }
    ensures outputs { IfOk result (OutputsStand objects.now) }
    ensures paged { IfOk result ArePaged }
    ensures err { IfErr result (IsLinkFault options.now objects.now) }
    ensures only_sound { OnOk result (IsOnlyFirst (FirstOfLink options.now objects.now) None) }
    ensures only_map { IfOk result (IsOnlyLinkMap options.now objects.now) }
    ensures only_err { IfErr result (IsOnlyFault (FirstOfLink options.now objects.now)) }
{
    prove_objects(objects);
    Ok(map_indexed(alloc, objects, options, hasher)?.map)
}
