//! The stretches of memory that a link has, each of which is a segment of its executable (gABI chapter 5, Program Header).
ghost use Rattle.std.specs.Prelude.{◌≡◌, IfOk, map as map_list};
ghost use Rattle.elf_link_outputs.specs.Placed.{common_value, output_value};
ghost use Rattle.elf_link_relocate.specs.Loads.{file_size, EndInTime, commons_load, load_at, loads, output_load, segment_flags, zeros_load};

use elf_field::abi::*;
use elf_link_map::{Common, LinkMap, Output};
use std::alloc::{AllocError, Global};

/// A stretch of memory that is a segment of type `PT_LOAD`: an output section, or the commons.
#[derive(Clone, Copy, Debug, PartialEq, Eq)]
pub struct Load {
    /// The position of the output section; of the commons, which are after them, the number of output sections.
    pub position: usize,
    /// Where it begins (`p_vaddr`).
    pub address: u64,
    /// How many bytes of memory it takes (`p_memsz`).
    pub size: u64,
    /// The permissions (`p_flags`).
    pub flags: u32,
    /// Whether all these bytes are 0, and none is in the file.
    pub no_bits: bool,
}

/// The segments of all outputs that take memory, and of the commons if they do, in order of address.
pub fn loads(alloc: Global, map: &LinkMap<'_>) -> Result<Vec<Load>, AllocError>
    requires { EndInTime map.now.commons }
    ensures { IfOk result (λ all. all.items ≡ loads map.now) }
{
    let mut all = Vec::new(alloc);
    for position in 0..map.outputs().len() + 1 {
        let load = load_at(map, position);
        if load.size > 0 {
            all.push(load)?;
        }
    }
    Ok(all)
}

fn load_at(map: &LinkMap<'_>, position: usize) -> Load
    requires { EndInTime map.now.commons }
    ensures { result ≡ load_at map.now position }
{
    match map.outputs().get(position) {
        Some(output) => output_load(position, output),
        None => commons_load(position, map.commons()),
    }
}

fn output_load(position: usize, output: &Output<'_>) -> Load
    ensures { result ≡ output_load position (output_value output.now) }
{
    Load {
        position,
        address: output.address,
        size: output.length,
        flags: segment_flags(output.flags),
        no_bits: output.no_bits,
    }
}

fn segment_flags(flags: u64) -> u32
    ensures { result ≡ segment_flags flags }
{
    let write = if flags & SHF_WRITE == 0 { 0 } else { PF_W };
    let execute = if flags & SHF_EXECINSTR == 0 { 0 } else { PF_X };
    PF_R + write + execute
}

/// The segment from where the first common begins to the end of the last one.
fn commons_load(position: usize, commons: &[Common<'_>]) -> Load
    requires { EndInTime (map_list common_value commons.now) }
    ensures { result ≡ commons_load position (map_list common_value commons.now) }
{
    match (commons.first(), commons.last()) {
        (Some(first), Some(last)) => {
            let size = (last.address + last.size).saturating_sub(first.address);
            zeros_load(position, first.address, size)
        }
        _ => zeros_load(position, 0, 0),
    }
}

/// The segment of so many zeros at an address.
fn zeros_load(position: usize, address: u64, size: u64) -> Load
    ensures { result ≡ zeros_load position address size }
{
    Load {
        position,
        address,
        size,
        flags: PF_R + PF_W,
        no_bits: true,
    }
}

/// How many bytes of a segment are in the file (`p_filesz`).
pub fn file_size(load: Load) -> u64
    ensures { result ≡ file_size load }
{
    if load.no_bits { 0 } else { load.size }
}
