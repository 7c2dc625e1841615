//! The call of the library for C that finds what a broken rule of the link is about.
ghost use Rattle.std.specs.Prelude.{◌≡◌, IfOk, map};
ghost use Rattle.elf_c_engines.specs.Places.{IsFirstOfRule, IsLinkPlace, IsLinkPlaceCall, extent_slot, place_numbers};

use crate::calls::{DONE, NO_MEMORY};
use elf_c_parts::Slot;
use elf_extent::Extent;
use elf_link_files::rules::TWO_DEFINITIONS;
use elf_link_files::{Site, SymbolId};
use elf_tool_link::{RecordPlace, first_definition, record_of};
use std::alloc::{AllocError, Global};

/// `struct elfmap_link_place`: what a broken rule of the link is about. A number that says nothing is 0.
#[repr(C)]
#[derive(Clone, Copy)]
pub struct LinkPlace {
    /// The index of the section that the rule is about, or of the section that holds the symbol or the relocation.
    pub section: u64,
    /// The index of the symbol or the relocation in that section; of a section 0.
    pub entry: u64,
    /// Where the section header, the symbol or the relocation is in the file; no bytes if there is none.
    pub record: Slot,
    /// Where the name of the symbol is in the file, or of the symbol that the relocation refers to.
    pub name: Slot,
    /// Of rule 8 the file of the first definition of the name.
    pub first_file: u64,
    /// Its position in that file.
    pub first_index: u64,
}

/// What a rule of the link is about that is broken at a site of these files.
#[unsafe(no_mangle)]
pub extern "C" fn elfmap_link_place(
    alloc: Global,
    files: &[&[u8]],
    rule: u16,
    file: u64,
    index: u64,
    entry: u64,
    place: &mut LinkPlace,
) -> u32
    ensures { IsLinkPlaceCall (map (λ f. f.now) files.now) rule (record { file = file; index = index; entry = entry })
        place.old place.new result }
{
    let site = Site {
        file: file as usize,
        index: index as usize,
        entry: entry as usize,
    };
    match place_of(alloc, files, rule, site) {
        Ok(found) => {
            *place = found;
            DONE
        }
        Err(_) => NO_MEMORY,
    }
}

fn place_of(alloc: Global, files: &[&[u8]], rule: u16, site: Site) -> Result<LinkPlace, AllocError>
    ensures { IfOk result (IsLinkPlace (map (λ f. f.now) files.now) rule site) }
{
    let found = record_of(alloc, files, rule, site)?;
    let first = first_of_rule(alloc, files, rule, site)?;
    Ok(numbers_of(found, first))
}

/// Of rule 8 the first definition of the name that the symbol at a site has.
fn first_of_rule(
    alloc: Global,
    files: &[&[u8]],
    rule: u16,
    site: Site,
) -> Result<Option<SymbolId>, AllocError>
    ensures { IfOk result (IsFirstOfRule (map (λ f. f.now) files.now) rule site) }
{
    if rule != TWO_DEFINITIONS {
        return Ok(None);
    }
    let symbol = SymbolId {
        file: site.file,
        index: site.index,
    };
    first_definition(alloc, files, symbol)
}

fn numbers_of(found: Option<RecordPlace>, first: Option<SymbolId>) -> LinkPlace
    ensures { result ≡ place_numbers found first }
{
    let mut place = LinkPlace {
        section: 0,
        entry: 0,
        record: Slot { start: 0, len: 0 },
        name: Slot { start: 0, len: 0 },
        first_file: 0,
        first_index: 0,
    };
    if let Some(found) = found {
        place.section = found.section as u64;
        place.entry = found.entry as u64;
        place.record = slot_of(found.bytes);
        place.name = slot_of(found.name);
    }
    if let Some(first) = first {
        place.first_file = first.file as u64;
        place.first_index = first.index as u64;
    }
    place
}

fn slot_of(extent: Extent) -> Slot
    ensures { result ≡ extent_slot extent }
{
    Slot {
        start: extent.start,
        len: extent.len,
    }
}
