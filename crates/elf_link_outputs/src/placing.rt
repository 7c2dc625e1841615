//! Output sections and commons at their places.
ghost use Rattle.std.specs.Prelude.{◌≡◌, ◌+◌, ◌<◌, ◌≤◌, IfOk, length, map, slice_index};
ghost use Rattle.elf_extent.specs.Place.{end_of};
ghost use Rattle.elf_link_files.specs.Rows.{AreIn, name_at, AreSymbols};
ghost use Rattle.elf_link_files.specs.Files.{object_at};
ghost use Rattle.elf_link_outputs.specs.Placed.{ArePlacedCommons, ArePlacedOutputs, IsOutput, member_of as member_of_site, common_value};
ghost use Rattle.elf_link_outputs.specs.Placed.{output_value, AreAllIn, ArePlaced, AreSome};
ghost use Rattle.elf_link_outputs.specs.Outputs.{flat};

use crate::outputs::{is_no_bits, output_flags};
use elf_link_files::files::{section_of, symbol_of};
use elf_link_files::{Chosen, Site, SymbolId};
use elf_object_type::Object;
use std::alloc::{AllocError, Global};

// Commons at their places (gABI chapter 4, Symbol Table: `SHN_COMMON`).

/// A common that has an address.
#[derive(Clone, Copy, Debug, PartialEq, Eq)]
pub struct Common<'a> {
    /// The name.
    pub name: &'a [u8],
    /// Where it begins.
    pub address: u64,
    /// The largest size of its name.
    pub size: u64,
    /// The largest alignment of its name.
    pub align: u64,
}

// Output sections at their places (gABI chapter 4, Sections).

/// A section of an input file.
#[derive(Clone, Copy, Debug, PartialEq, Eq)]
pub struct Member {
    /// The position of the file among the objects, from 0.
    pub file: usize,
    /// The position of the section in it.
    pub section: usize,
}

/// An output section.
#[derive(Debug, Drop)]
pub struct Output<'a> {
    /// The name of its members.
    pub name: &'a [u8],
    /// Their flags without `SHF_GROUP`.
    pub flags: u64,
    /// Whether they take memory without bits.
    pub no_bits: bool,
    /// Where the first member begins.
    pub address: u64,
    /// The bytes from there to the end of the last one.
    pub length: u64,
    /// The members, in order of placement.
    pub members: Vec<Member>,
}

/// A site as a member of an output.
fn member_of(site: Site) -> Member
    ensures { result ≡ member_of_site site }
{
    Member {
        file: site.file,
        section: site.index,
    }
}

/// These sites as members of an output.
fn members_of(alloc: Global, sites: &[Site]) -> Result<Vec<Member>, AllocError>
    ensures { IfOk result (λ members. members.items ≡ map member_of_site sites.now) }
{
    let mut members = Vec::new(alloc);
    for k in 0..sites.len() {
        members.push(member_of(sites[k]))?;
    }
    Ok(members)
}

/// The bytes from the start of part `first` to the end of part `last`.
fn length_of(parts: &[(u64, u64)], places: &[u64], first: usize, last: usize) -> u64
    requires placed { ArePlaced parts.now places.now }
    requires order { first ≤ last }
    requires last { last < length parts.now }
    ensures { slice_index places.now first + result ≡ end_of parts.now places.now last }
{
    places[last] - places[first] + parts[last].0
}

/// The output of these sections, whose parts are those from position `start` on.
fn placed_output<'a>(
    alloc: Global,
    objects: &[Object<'a>],
    sites: &[Site],
    parts: &[(u64, u64)],
    places: &[u64],
    start: usize,
) -> Result<Output<'a>, AllocError>
    requires some { 0 < length sites.now }
    requires within { AreIn objects.now sites.now }
    requires placed { ArePlaced parts.now places.now }
    requires parts { start + length sites.now ≤ length parts.now }
    ensures { IfOk result (λ output. IsOutput objects.now sites.now parts.now places.now start (output_value output)) }
{
    let section = section_of(objects, sites[0].file, sites[0].index);
    Ok(Output {
        name: section.name,
        flags: output_flags(section.flags),
        no_bits: is_no_bits(&section.body),
        address: places[start],
        length: length_of(parts, places, start, start + sites.len() - 1),
        members: members_of(alloc, sites)?,
    })
}

/// All outputs at their places. Fails only when out of memory.
pub(crate) fn placed_outputs<'a>(
    alloc: Global,
    objects: &[Object<'a>],
    outputs: &[Vec<Site>],
    parts: &[(u64, u64)],
    places: &[u64],
) -> Result<Vec<Output<'a>>, AllocError>
    requires some { AreSome (map (λ ms. ms.items) outputs.now) }
    requires within { AreAllIn objects.now (map (λ ms. ms.items) outputs.now) }
    requires placed { ArePlaced parts.now places.now }
    requires parts { length (flat (map (λ ms. ms.items) outputs.now)) ≤ length parts.now }
    ensures { IfOk result
        (λ placed. ArePlacedOutputs objects.now (map (λ ms. ms.items) outputs.now) parts.now places.now (length outputs.now)
        (map output_value placed.items)) }
{
    let mut placed = Vec::new(alloc);
    let mut start = 0;
    for members in outputs {
        placed.push(placed_output(alloc, objects, members, parts, places, start)?)?;
        start += members.len();
    }
    Ok(placed)
}

/// A common at its place.
fn placed_common<'a>(objects: &[Object<'a>], common: Chosen, address: u64) -> Common<'a>
    requires file { common.site.file < length objects.now }
    requires index { common.site.index < length (object_at objects.now common.site.file).symbols }
    ensures { common_value result ≡
        record { name = name_at objects.now common.site; address = address; size = common.size; align = common.align } }
{
    let id = SymbolId {
        file: common.site.file,
        index: common.site.index,
    };
    Common {
        name: symbol_of(objects, id).name,
        address,
        size: common.size,
        align: common.align,
    }
}

/// All commons at their places, which are those from position `first` on. Fails only when out of memory.
pub(crate) fn placed_commons<'a>(
    alloc: Global,
    objects: &[Object<'a>],
    commons: &[Chosen],
    places: &[u64],
    first: usize,
) -> Result<Vec<Common<'a>>, AllocError>
    requires symbols { AreSymbols objects.now commons.now }
    requires places { first + length commons.now ≤ length places.now }
    ensures { IfOk result
        (λ placed. ArePlacedCommons objects.now commons.now places.now first (length commons.now) (map common_value placed.items)) }
{
    let mut placed = Vec::new(alloc);
    for k in 0..commons.len() {
        placed.push(placed_common(objects, commons[k], places[first + k]))?;
    }
    Ok(placed)
}
