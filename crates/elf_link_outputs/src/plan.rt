//! The plan of a link: what is placed, in order.
ghost use Rattle.std.specs.Prelude.{◌≡◌, ◌<◌, ◌++◌, IfOk, OnOk, fold, length, map, max};
ghost use Rattle.elf_link_files.specs.Files.{object_at};
ghost use Rattle.elf_link_files.specs.Rows.{AreIn, AreSymbols};
ghost use Rattle.elf_link_outputs.specs.Outputs.{memory_size as memory_size_of, part_of as part_of_site, raised, output_parts};
ghost use Rattle.elf_link_outputs.specs.Outputs.{common_part as common_part_of, placed};
ghost use Rattle.elf_object_type.specs.ObjectView.{body_value};

use crate::outputs::Outputs;
use elf_link_files::files::section_of;
use elf_link_files::{Chosen, Site};
use elf_object_type::{Body, Object};
use std::alloc::{AllocError, Global};
use std::marker::Model;

// The parts (size, alignment) of output sections, as they are placed (gABI chapter 4, Sections: sh_addralign).

/// The size of a section in memory, in bytes; 0 of one that takes none there.
pub fn memory_size(body: &Body<'_>) -> u64
    ensures { result ≡ memory_size_of (body_value body.now) }
{
    match body {
        Body::Bits(_, content) => content.len() as u64,
        Body::NoBits(size) => *size,
        _ => 0,
    }
}

/// The part of a section.
fn part_of(objects: &[Object<'_>], site: Site) -> (u64, u64)
    requires file { site.file < length objects.now }
    requires index { site.index < length (object_at objects.now site.file).sections }
    ensures { result ≡ part_of_site objects.now site }
{
    let section = section_of(objects, site.file, site.index);
    (memory_size(&section.body), section.align)
}

/// The largest of the page and the alignments of the parts.
fn largest_alignment(page: u64, parts: &[(u64, u64)]) -> u64
    ensures { result ≡ fold (λ a q. max a q.1) page parts.now }
{
    let mut largest = page;
    for part in parts {
        largest = largest.max(part.1);
    }
    largest
}

/// Raises the alignment of the first part to the page and the largest alignment of all.
pub(crate) fn raise(page: u64, parts: &mut Vec<(u64, u64)>)
    ensures { parts.new.items ≡ raised page parts.old.items }
{
    if parts.is_empty() {
        return;
    }
    let largest = largest_alignment(page, parts);
    parts[0].1 = largest;
}

/// The parts of these sections, in order.
fn parts_of(
    alloc: Global,
    objects: &[Object<'_>],
    sites: &[Site],
) -> Result<Vec<(u64, u64)>, AllocError>
    requires { AreIn objects.now sites.now }
    ensures { IfOk result (λ parts. parts.items ≡ map (part_of_site objects.now) sites.now) }
{
    let mut parts = Vec::new(alloc);
    for k in 0..sites.len() {
        parts.push(part_of(objects, sites[k]))?;
    }
    Ok(parts)
}

/// Adds the parts of an output, the first of them raised.
pub(crate) fn push_parts(
    alloc: Global,
    page: u64,
    objects: &[Object<'_>],
    members: &[Site],
    parts: &mut Vec<(u64, u64)>,
) -> Result<(), AllocError>
    requires { AreIn objects.now members.now }
    ensures { OnOk result (parts.new.items ≡ parts.old.items ++ output_parts objects.now page members.now) }
{
    let mut own = parts_of(alloc, objects, members)?;
    raise(page, &mut own);
    parts.extend_from_slice(&own)?;
    Ok(())
}

/// What a link places: its output sections, and after them its commons. The sites are those of all members, in order, and the parts are
/// those of all members and commons for the page.
#[derive(Drop)]
pub struct Plan<'l, 'a> {
    pub(crate) outputs: Outputs<'l, 'a>,
    pub(crate) commons: &'l [Chosen],
    pub(crate) page: u64,
    pub(crate) sites: Vec<Site>,
    pub(crate) parts: Vec<(u64, u64)>,
}

impl<'l, 'a> Model for Plan<'l, 'a> {
    ghost use Rattle.elf_link_outputs.specs.Outputs.{PlanValue};

    ghost Value = { PlanValue };

    ghost use Rattle.elf_link_outputs.specs.Views.{IsPlanned, plan_value};

    ghost view = { plan_value };

    ghost invariant = { IsPlanned };
}

/// The part of a common.
fn common_part(common: &Chosen) -> (u64, u64)
    ensures { result ≡ common_part_of common.now }
{
    (common.size, common.align)
}

/// The parts of the commons, the first of them raised.
fn common_parts(alloc: Global, page: u64, commons: &[Chosen]) -> Result<Vec<(u64, u64)>, AllocError>
    ensures { IfOk result (λ parts. parts.items ≡ raised page (map common_part_of commons.now)) }
{
    let mut parts = Vec::new(alloc);
    for common in commons {
        parts.push(common_part(common))?;
    }
    raise(page, &mut parts);
    Ok(parts)
}

impl<'l, 'a> Plan<'l, 'a> {
    /// The plan of these outputs, and after them these commons, each output and the first common at a page. Fails only when out of memory.
    pub fn new(
        alloc: Global,
        page: u64,
        outputs: Outputs<'l, 'a>,
        commons: &'l [Chosen],
    ) -> Result<Plan<'l, 'a>, AllocError>
        requires { AreSymbols outputs.objects commons.now }
        ensures { IfOk result
            (λ plan. plan ≡
            record {
              objects = outputs.entry.objects;
              page = page;
              plan =
                  record { outputs = outputs.entry.groups; commons = commons.entry.now };
            }) }
    {
        let sites = outputs.sites(alloc)?;
        let mut parts = outputs.parts(alloc, page)?;
        let own = common_parts(alloc, page, commons)?;
        parts.extend_from_slice(&own)?;
        Ok(Plan {
            outputs,
            commons,
            page,
            sites,
            parts,
        })
    }

    /// The sections that are placed, in order.
    pub fn sites(&self) -> &[Site]
        ensures { result.now ≡ placed self.now.plan }
    {
        &self.sites
    }
}
