//! Output sections: the live sections of each, in order.
ghost use Rattle.std.specs.Prelude.{◌≡◌, [], IfOk, ◌↔◌, ◌+◌, ◌<◌, IsTrue, OnOk, length, map};
ghost use Rattle.std.specs.List.{flat_map};
ghost use Rattle.indexmap.specs.IndexMap.{keys, values};
ghost use Rattle.elf_link_outputs.specs.Outputs.{AreKeysAscending, AreGrouped, AreGroups, AreKeyed, AreLiveGroups, AreKeyNumbers, IsKeyOf};
ghost use Rattle.elf_link_outputs.specs.Outputs.{IsMemberAdded, is_no_bits as is_no_bits_of, live as live_row};
ghost use Rattle.elf_link_outputs.specs.Outputs.{output_flags as output_flags_of, AreOutputs, flat, output_parts};
ghost use Rattle.elf_link_files.specs.Files.{object_at};
ghost use Rattle.elf_link_files.specs.Rows.{Lists};
ghost use Rattle.elf_link_files.specs.SameNames.{site_names};
ghost use Rattle.elf_link_files.specs.declared.same_names.Named.TheVariants.{Section};
ghost use Rattle.elf_object_strings.specs.StringTable.{AreEqualTo};
ghost use Rattle.elf_object_type.specs.ObjectView.{body_value};

use crate::plan::push_parts;
use elf_field::abi::*;
use elf_link_files::files::section_of;
use elf_link_files::{Named, Site, first_of_names};
use elf_object_type::{Body, Object};
use indexmap::IndexMap;
use std::alloc::{AllocError, Global};
use std::hash::BuildHasher;
use std::marker::Model;

// The keys of sections.

/// What the sections of one output section have in common.
#[derive(Clone, Copy, PartialEq, Eq, PartialOrd, Ord)]
pub(crate) struct OutputKey {
    /// The position of the first section of the same name, which stands for the name.
    pub(crate) first: usize,
    /// All flags but `SHF_GROUP`.
    pub(crate) flags: u64,
    /// Whether they take memory without bits.
    pub(crate) no_bits: bool,
}

/// The key of the section at a position.
#[derive(Clone, Copy)]
pub(crate) struct Keyed {
    pub(crate) key: OutputKey,
    pub(crate) position: usize,
}

/// All flags of a section but `SHF_GROUP`.
pub(crate) fn output_flags(flags: u64) -> u64
    ensures { result ≡ output_flags_of flags }
{
    flags & !SHF_GROUP
}

/// Whether a body takes memory without bits.
pub(crate) fn is_no_bits(body: &Body<'_>) -> bool
    ensures { result ≡ is_no_bits_of (body_value body.now) }
{
    matches!(body, Body::NoBits(_))
}

/// The key of the output that a section goes to, by the position of the first section of its name.
fn key_of(objects: &[Object<'_>], site: Site, first: usize) -> OutputKey
    requires file { site.file < length objects.now }
    requires index { site.index < length (object_at objects.now site.file).sections }
    ensures { IsKeyOf objects.now site first result }
{
    let section = section_of(objects, site.file, site.index);
    OutputKey {
        first,
        flags: output_flags(section.flags),
        no_bits: is_no_bits(&section.body),
    }
}

// The sections of each key.

/// Adds a site to the group of this number, or opens a group with it where there is none.
fn add_member<S: BuildHasher + Drop>(
    alloc: Global,
    groups: &mut IndexMap<usize, Vec<Site>, S>,
    number: usize,
    site: Site,
) -> Result<(), AllocError>
    ensures { OnOk result
        (IsMemberAdded (keys groups.old) (map (λ ms. ms.items) (values groups.old)) number site (keys groups.new)
        (map (λ ms. ms.items) (values groups.new))) }
{
    if let Some(group) = groups.get_index_of(&number) {
        groups[group].push(site)?;
        return Ok(());
    }
    groups.insert(number, vec![in alloc; site]?)?;
    Ok(())
}

/// Sections of some files, in order.
#[derive(Drop)]
pub(crate) struct Sections<'l, 'a> {
    objects: &'l [Object<'a>],
    sites: &'l [Site],
}

impl<'l, 'a> Model for Sections<'l, 'a> {
    ghost use Rattle.elf_link_outputs.specs.Outputs.{SectionsValue};

    ghost Value = { SectionsValue };

    ghost use Rattle.elf_link_outputs.specs.Views.{AreSections, sections_value};

    ghost view = { sections_value };

    ghost invariant = { AreSections };
}

impl<'l, 'a> Sections<'l, 'a> {
    /// The position of the first section of each one's name.
    fn firsts(&self, alloc: Global) -> Result<Vec<usize>, AllocError>
        ensures { IfOk result (λ firsts. AreEqualTo (site_names self.now.objects Section self.now.sites) firsts.items) }
    {
        first_of_names(alloc, self.objects, Named::Section, self.sites)
    }

    /// The key of each, in the order of the sections.
    fn keys(&self, alloc: Global, firsts: &[usize]) -> Result<Vec<Keyed>, AllocError>
        requires { length firsts.now ≡ length self.now.sites }
        ensures { IfOk result (λ keyed. AreKeyed self.now.objects self.now.sites firsts.now (length self.now.sites) keyed.items) }
    {
        let sites = self.sites;
        let mut keyed = Vec::with_capacity(alloc, sites.len())?;
        for position in 0..sites.len() {
            let key = key_of(self.objects, sites[position], firsts[position]);
            keyed.push(Keyed { key, position })?;
        }
        Ok(keyed)
    }

    /// The key of each, in ascending order of the keys.
    fn sorted_keys(&self, alloc: Global, firsts: &[usize]) -> Result<Vec<Keyed>, AllocError>
        requires { length firsts.now ≡ length self.now.sites }
        ensures keyed { IfOk result (λ keyed. AreKeyed self.now.objects self.now.sites firsts.now (length self.now.sites) keyed.items) }
        ensures ascending { IfOk result (λ keyed. AreKeysAscending keyed.items) }
    {
        let mut keyed = self.keys(alloc, firsts)?;
        keyed.sort_unstable_by_key(|keyed| keyed.key);
        Ok(keyed)
    }

    /// A number for each: two have the same one exactly if they go to one output.
    ///
    /// The numbers count the keys in ascending order, so whatever the names are, they are those from 0 on.
    fn numbers(&self, alloc: Global) -> Result<Vec<usize>, AllocError>
        ensures { IfOk result (λ numbers. AreKeyNumbers self.now.objects self.now.sites numbers.items) }
    {
        let firsts = self.firsts(alloc)?;
        let keyed = self.sorted_keys(alloc, &firsts)?;
        let mut numbers = vec![in alloc; 0; self.sites.len()]?;
        let mut number = 0;
        for i in 1..keyed.len() {
            let Keyed { key, position } = keyed[i];
            if key != keyed[i - 1].key {
                number += 1;
            }
            numbers[position] = number;
        }
        Ok(numbers)
    }

    /// Their groups by number, in the order of the first section of each.
    fn groups<S: BuildHasher + Drop>(
        &self,
        alloc: Global,
        hasher: S,
    ) -> Result<IndexMap<usize, Vec<Site>, S>, AllocError>
        ensures { IfOk result (λ groups. AreGroups self.now.objects self.now.sites (map (λ ms. ms.items) (values groups))) }
    {
        let sites = self.sites;
        let numbers = self.numbers(alloc)?;
        let mut groups = IndexMap::with_hasher(alloc, hasher);
        for k in 0..sites.len() {
            add_member(alloc, &mut groups, numbers[k], sites[k])?;
        }
        Ok(groups)
    }
}

/// The groups whose sections have bits, and after them the others.
fn bits_first<S: BuildHasher + Drop>(
    alloc: Global,
    objects: &[Object<'_>],
    groups: IndexMap<usize, Vec<Site>, S>,
) -> Result<Vec<Vec<Site>>, AllocError>
    requires { AreLiveGroups objects.now (map (λ ms. ms.items) (values groups)) }
    ensures { IfOk result (λ outputs. AreOutputs objects.now (map (λ ms. ms.items) outputs.items)) }
{
    let mut outputs = Vec::new(alloc);
    let mut later = Vec::new(alloc);
    for members in groups.into_values() {
        let opener = members[0];
        if is_no_bits(&section_of(objects, opener.file, opener.index).body) {
            later.push(members)?;
        } else {
            outputs.push(members)?;
        }
    }
    outputs.append(&mut later)?;
    Ok(outputs)
}

/// The output sections of some files: the members of each, in order of placement. Each live section is a member once.
#[derive(Drop)]
pub struct Outputs<'l, 'a> {
    pub(crate) objects: &'l [Object<'a>],
    pub(crate) groups: Vec<Vec<Site>>,
}

impl<'l, 'a> Model for Outputs<'l, 'a> {
    ghost use Rattle.elf_link_outputs.specs.Outputs.{OutputsValue};

    ghost Value = { OutputsValue };

    ghost use Rattle.elf_link_outputs.specs.Views.{AreOutputSections, outputs_value};

    ghost view = { outputs_value };

    ghost invariant = { AreOutputSections };
}

impl<'l, 'a> Outputs<'l, 'a> {
    /// The output sections of these files, by the list of their live sections: those with bits, and after them those without. Fails only
    /// when out of memory.
    pub fn new<S: BuildHasher + Drop>(
        alloc: Global,
        objects: &'l [Object<'a>],
        live: &[Site],
        hasher: S,
    ) -> Result<Outputs<'l, 'a>, AllocError>
        requires { Lists (live_row objects.now) live.now }
        ensures objects { IfOk result (λ outputs. outputs.objects ≡ objects.entry.now) }
        ensures groups { IfOk result (λ outputs. AreOutputs objects.entry.now outputs.groups) }
    {
        let sections = Sections {
            objects,
            sites: live,
        };
        let groups = sections.groups(alloc, hasher)?;
        let groups = bits_first(alloc, objects, groups)?;
        Ok(Outputs { objects, groups })
    }

    /// The members of all outputs, in order. Fails only when out of memory.
    pub(crate) fn sites(&self, alloc: Global) -> Result<Vec<Site>, AllocError>
        ensures { IfOk result (λ sites. sites.items ≡ flat self.now.groups) }
    {
        let mut sites = Vec::new(alloc);
        for members in &self.groups {
            sites.extend_from_slice(members)?;
        }
        Ok(sites)
    }

    /// The parts of all outputs for a page, in order: those of each output, the first of them raised. Fails only when out of memory.
    pub(crate) fn parts(&self, alloc: Global, page: u64) -> Result<Vec<(u64, u64)>, AllocError>
        ensures { IfOk result (λ parts. parts.items ≡ flat_map (output_parts self.now.objects page) self.now.groups) }
    {
        let objects = self.objects;
        let mut parts = Vec::new(alloc);
        for members in &self.groups {
            push_parts(alloc, page, objects, members, &mut parts)?;
        }
        Ok(parts)
    }
}
