//! Relocated bytes with all that their executable takes memory for (gABI chapter 5, Program Header).
ghost use Rattle.std.specs.Prelude.{◌≡◌, ◌+◌, ◌*◌, ◌<◌, ◌≤◌, IfErr, IfOk, length, map as map_list, slice_index};
ghost use Rattle.elf_extent.specs.Place.{EndsFit, Least};
ghost use Rattle.elf_field.specs.Abi.{EHDR_SIZE, PHDR_SIZE, PN_XNUM};
ghost use Rattle.elf_image_rules.specs.Rules.{MAX_LEN};
ghost use Rattle.elf_link_relocate.specs.Loads.{loads as all_loads, load_in, loads};
ghost use Rattle.elf_exec.specs.Executable.{bytes_from, load_part, load_parts};
ghost use Rattle.elf_link_relocate.specs.Linked.{IsSoundLinked};
ghost use Rattle.elf_exec.specs.ExecWriting.{IsPartsFault, IsPlacingFault, exec_end, file_end, IsPlacedExec};

use elf_extent::{PlaceFault, place};
use elf_field::abi::*;
use elf_image_rules::MAX_LEN;
use elf_link_relocate::{Linked, Load, file_size, loads};
use std::alloc::{AllocError, Global};
use std::marker::Model;

/// Why the segments of an executable have no places.
#[derive(Clone, Copy, Debug, PartialEq, Eq)]
pub(crate) enum PlacingFault {
    /// There are 0xffff of them or more, or the file would be longer than the longest file.
    TooLong,
    /// An allocation failed.
    OutOfMemory,
}

impl From<AllocError> for PlacingFault {
    ghost use Rattle.elf_exec.specs.declared.placed_exec.PlacingFault.TheVariants.{OutOfMemory};

    ghost from_gives = { λ _ fault. fault ≡ OutOfMemory };

    fn from(_refused: AllocError) -> PlacingFault {
        PlacingFault::OutOfMemory
    }
}

// Where the bytes of the segments are in an executable: each at the least place that its alignment allows.

/// The least places of the bytes of these segments, where the file that they make is not too long.
pub(crate) fn place_loads(
    alloc: Global,
    linked: &Linked<'_, '_>,
    loads: &[Load],
) -> Result<Vec<u64>, PlacingFault>
    requires ready { IsSoundLinked linked.now }
    requires are { loads.now ≡ all_loads linked.now.map }
    requires few { length loads.now < PN_XNUM }
    ensures least { IfOk result (λ places. Least (load_parts linked.now.map) (bytes_from linked.now.map) places.items) }
    ensures short { IfOk result (λ places. exec_end linked.now.map places.items ≤ MAX_LEN) }
    ensures err { IfErr result (IsPlacingFault linked.now) }
{
    let parts = load_parts(alloc, linked.map().page(), loads)?;
    let from = table_end(loads.len());
    place_parts(alloc, &parts, from)
}

/// Where the program header table of so many segments ends.
pub(crate) fn table_end(count: usize) -> u64
    requires { count < PN_XNUM }
    ensures { result ≡ EHDR_SIZE + PHDR_SIZE * count }
{
    EHDR_SIZE + PHDR_SIZE * count as u64
}

/// The bytes of each segment in the file, as parts (size, alignment).
fn load_parts(alloc: Global, page: u64, loads: &[Load]) -> Result<Vec<(u64, u64)>, AllocError>
    ensures { IfOk result (λ parts. parts.items ≡ map_list (load_part page) loads.now) }
{
    let mut parts = Vec::new(alloc);
    for load in loads {
        parts.push(load_part(page, *load))?;
    }
    Ok(parts)
}

fn load_part(page: u64, load: Load) -> (u64, u64)
    ensures { result ≡ load_part page load }
{
    (file_size(load), if load.no_bits { 1 } else { page })
}

/// The least places of parts after `from` bytes, where they end in time.
fn place_parts(alloc: Global, parts: &[(u64, u64)], from: u64) -> Result<Vec<u64>, PlacingFault>
    requires { from ≤ MAX_LEN }
    ensures least { IfOk result (λ places. Least parts.now from places.items) }
    ensures short { IfOk result (λ places. file_end parts.now from places.items ≤ MAX_LEN) }
    ensures err { IfErr result (IsPartsFault parts.now from) }
{
    match place(alloc, parts, from) {
        Ok(places) => if_short(parts, from, places),
        Err(PlaceFault::Overflow { .. }) => Err(PlacingFault::TooLong),
        Err(PlaceFault::OutOfMemory) => Err(PlacingFault::OutOfMemory),
    }
}

/// These places, where the parts end in time.
fn if_short(parts: &[(u64, u64)], from: u64, places: Vec<u64>) -> Result<Vec<u64>, PlacingFault>
    requires from { from ≤ MAX_LEN }
    requires least { Least parts.now from places.items }
    requires fit { EndsFit parts.now places.items (length parts.now) }
    ensures least { IfOk result (λ places. Least parts.now from places.items) }
    ensures short { IfOk result (λ places. file_end parts.now from places.items ≤ MAX_LEN) }
    ensures err { IfErr result (IsPartsFault parts.now from) }
{
    if file_end(parts, from, &places) > MAX_LEN {
        return Err(PlacingFault::TooLong);
    }
    Ok(places)
}

/// Where the last of the parts ends; without parts, where the first might begin.
fn file_end(parts: &[(u64, u64)], from: u64, places: &[u64]) -> u64
    requires many { length places.now ≡ length parts.now }
    requires fit { EndsFit parts.now places.now (length parts.now) }
    ensures { result ≡ file_end parts.now from places.now }
{
    let count = parts.len();
    if count == 0 {
        return from;
    }
    places[count - 1] + parts[count - 1].0
}

/// Relocated bytes with the segments of their executable, and where the bytes of each segment begin in the file.
#[derive(Drop)]
pub(crate) struct PlacedExec<'l, 'm, 'a> {
    linked: &'l Linked<'m, 'a>,
    loads: Vec<Load>,
    places: Vec<u64>,
}

impl<'l, 'm, 'a> Model for PlacedExec<'l, 'm, 'a> {
    ghost use Rattle.elf_exec.specs.ExecWriting.{HasLoads, PlacedExecValue};

    ghost Value = { PlacedExecValue };

    ghost view = { λ a. record { linked = a.linked.now; places = a.places.items } };

    ghost invariant = { λ a. HasLoads a.loads.items (record { linked = a.linked.now; places = a.places.items }) };
}

impl<'l, 'm, 'a> PlacedExec<'l, 'm, 'a> {
    /// The segments at their places. All the memory that is needed is taken here.
    pub(crate) fn new(
        alloc: Global,
        linked: &'l Linked<'m, 'a>,
    ) -> Result<PlacedExec<'l, 'm, 'a>, PlacingFault>
        requires { IsSoundLinked linked.now }
        ensures ok { IfOk result (λ placed. placed.linked ≡ linked.now) }
        ensures placed { IfOk result IsPlacedExec }
        ensures err { IfErr result (IsPlacingFault linked.now) }
    {
        let loads = loads(alloc, linked.map())?;
        if loads.len() >= PN_XNUM as usize {
            return Err(PlacingFault::TooLong);
        }
        let places = place_loads(alloc, linked, &loads)?;
        Ok(PlacedExec {
            linked,
            loads,
            places,
        })
    }

    pub(crate) fn linked(&self) -> &'l Linked<'m, 'a>
        ensures value { result.now ≡ self.now.linked }
        ensures placed { IsPlacedExec self.now }
    {
        self.linked
    }

    /// How many segments there are.
    pub(crate) fn count(&self) -> usize
        ensures value { result ≡ length (loads self.now.linked.map) }
        ensures few { result < PN_XNUM }
        ensures placed { IsPlacedExec self.now }
    {
        self.loads.len()
    }

    pub(crate) fn load(&self, k: usize) -> Load
        requires { k < length (loads self.now.linked.map) }
        ensures { result ≡ load_in self.now.linked.map k }
    {
        self.loads[k]
    }

    /// Where the bytes of a segment begin in the file.
    pub(crate) fn place(&self, k: usize) -> u64
        requires { k < length (loads self.now.linked.map) }
        ensures { result ≡ slice_index self.now.places k }
    {
        self.places[k]
    }
}

/// How long the file is: it ends with the bytes of its last segment.
pub(crate) fn file_len(placed: &PlacedExec<'_, '_, '_>) -> u64
    ensures { result ≡ exec_end placed.now.linked.map placed.now.places }
{
    let count = placed.count();
    if count == 0 {
        return table_end(count);
    }
    let last = count - 1;
    placed.place(last) + file_size(placed.load(last))
}
