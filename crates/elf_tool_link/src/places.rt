//! Where in a file a rule of the link is broken (gABI chapter 4: Sections, Symbol Table, Relocation).
ghost use Rattle.std.specs.Prelude.{◌≡◌, ◌<◌, ◌+◌, IfOk, MatchOption, length, map};
ghost use Rattle.elf_field.specs.Abi.{relocation_size};
ghost use Rattle.elf_table_symbols.specs.Sections.{sections_of};
ghost use Rattle.elf_tool_link.specs.Places.{HasEntryOf, HasSymbolAt, IsNoRecordIn, IsRecordAt, IsRecordIn, IsRecordOf, IsKeptAt};
ghost use Rattle.elf_tool_link.specs.Places.{NoneKeptAt, entry_place_of, name_of_symbol, section_place_of, string_extent_of};
ghost use Rattle.elf_tool_link.specs.Places.{subject_of as subject_of_rule, symbol_place_of};

use elf_extent::Extent;
use elf_field::abi::*;
use elf_image_stream::BytesFault;
use elf_image_type::strings::string_at;
use elf_image_type::{Image, parse_bytes};
use elf_link_files::Site;
use elf_object_layout::{LeftOut, symbol_table};
use elf_table_lists::{relocation_at, relocation_count};
use elf_table_symbols::entry;
use std::alloc::{AllocError, Global};

/// What a rule of the link is about.
#[derive(Clone, Copy)]
pub(crate) enum Subject {
    /// A section of the object.
    Section,
    /// A symbol of the object.
    Symbol,
    /// An entry of a section of relocations.
    Entry,
}

/// The record of a file that a rule of the link is about.
#[derive(Clone, Copy)]
pub struct RecordPlace {
    /// The index of the section that the rule is about, or of the section that holds the symbol or the relocation.
    pub section: usize,
    /// The index of the symbol or the relocation in that section; of a section 0.
    pub entry: usize,
    /// Where the section header, the symbol or the relocation is.
    pub bytes: Extent,
    /// Where the name of the symbol is, or of the symbol that the relocation refers to. Without a name both numbers are 0.
    pub name: Extent,
}

/// A place of no bytes.
const NOWHERE: Extent = Extent { start: 0, len: 0 };

/// What a rule of this number is about; None if it is about no record, or there is no such rule.
fn subject_of(rule: u16) -> Option<Subject>
    ensures { result ≡ subject_of_rule rule }
{
    if rule < 3 || (rule >= 10 && rule < 12) || rule >= 17 {
        return None;
    }
    if rule < 6 {
        return Some(Subject::Section);
    }
    if rule < 10 {
        return Some(Subject::Symbol);
    }
    Some(Subject::Entry)
}

/// The section at this position of the object.
fn section_at(image: &Image<'_>, position: usize) -> Option<usize>
    ensures { MatchOption result (NoneKeptAt (sections_of image.now) position) (IsKeptAt (sections_of image.now) position) }
{
    let left = LeftOut::of(image);
    let mut kept = 0;
    for i in 0..image.section_count() {
        if left.is_kept(image, i) {
            if kept == position {
                return Some(i);
            }
            kept += 1;
        }
    }
    None
}

/// Where the string at an offset of the string table in section `i` is; nowhere if there is no such section.
fn string_extent(image: &Image<'_>, i: usize, offset: u32) -> Extent
    ensures { result ≡ string_extent_of (sections_of image.now) i offset }
{
    if i >= image.section_count() {
        return NOWHERE;
    }
    let name = string_at(image.content(i), offset as usize);
    if name.is_empty() {
        return NOWHERE;
    }
    Extent {
        start: image.content_offset(i) + offset as u64,
        len: name.len() as u64,
    }
}

/// Where the name of symbol `j` of the symbol table in section `t` is; nowhere if there is no such symbol.
fn name_extent(image: &Image<'_>, t: usize, j: usize) -> Extent
    ensures { result ≡ name_of_symbol (sections_of image.now) t j }
{
    if t >= image.section_count() {
        return NOWHERE;
    }
    let table = image.content(t);
    if j >= table.len() / SYM_SIZE as usize {
        return NOWHERE;
    }
    let symbol = entry(image.order(), table, j);
    string_extent(image, image.section(t).sh_link as usize, symbol.st_name)
}

/// The symbol at this position of the symbol table in section `t`: symbol 0 is none.
fn symbol_place(image: &Image<'_>, t: usize, position: usize) -> Option<RecordPlace>
    requires { t < length image.now.sections }
    ensures { let f = sections_of image.now in
        MatchOption result (¬ HasSymbolAt f t position) (λ place. HasSymbolAt f t position × (place ≡ symbol_place_of f t (position + 1))) }
{
    let count = image.content(t).len() / SYM_SIZE as usize;
    if count == 0 || position >= count - 1 {
        return None;
    }
    let j = position + 1;
    let start = image.content_offset(t) + SYM_SIZE * j as u64;
    Some(RecordPlace {
        section: t,
        entry: j,
        bytes: Extent {
            start,
            len: SYM_SIZE,
        },
        name: name_extent(image, t, j),
    })
}

/// Entry `j` of the section of relocations `i`.
fn entry_place(image: &Image<'_>, i: usize, j: usize) -> Option<RecordPlace>
    requires { i < length image.now.sections }
    ensures { let f = sections_of image.now in
        MatchOption result (¬ HasEntryOf f i j) (λ place. HasEntryOf f i j × (place ≡ entry_place_of f i j)) }
{
    let section = image.section(i);
    let addends = section.sh_type == SHT_RELA;
    let table = image.content(i);
    if j >= relocation_count(addends, table) {
        return None;
    }
    let relocation = relocation_at(image.order(), addends, table, j);
    let len = size_of_entry(addends);
    let start = image.content_offset(i) + len * j as u64;
    Some(RecordPlace {
        section: i,
        entry: j,
        bytes: Extent { start, len },
        name: name_extent(image, section.sh_link as usize, relocation.symbol as usize),
    })
}

/// How long a relocation is.
fn size_of_entry(addends: bool) -> u64
    ensures { result ≡ relocation_size addends }
{
    if addends { RELA_SIZE } else { REL_SIZE }
}

/// The section header of section `i`.
fn section_place(image: &Image<'_>, i: usize) -> RecordPlace
    requires { i < length image.now.sections }
    ensures { result ≡ section_place_of (sections_of image.now) i }
{
    RecordPlace {
        section: i,
        entry: 0,
        bytes: Extent {
            start: image.header_offset(i),
            len: SHDR_SIZE,
        },
        name: NOWHERE,
    }
}

/// The record that a rule of the link is about, by the positions that the rule has; None if it is not there.
fn place_in(
    image: &Image<'_>,
    subject: Subject,
    position: usize,
    entry: usize,
) -> Option<RecordPlace>
    ensures { MatchOption result (IsNoRecordIn (sections_of image.now) subject position entry)
        (IsRecordIn (sections_of image.now) subject position entry) }
{
    match subject {
        Subject::Section => {
            let i = section_at(image, position)?;
            Some(section_place(image, i))
        }
        Subject::Symbol => {
            let t = symbol_table(image)?;
            symbol_place(image, t, position)
        }
        Subject::Entry => {
            let i = section_at(image, position)?;
            entry_place(image, i, entry)
        }
    }
}

/// The record that a rule of the link is about, of files of these bytes and the site where the rule is broken: a section, a symbol, or an
/// entry of a section of relocations. [`None`] if the rule is about no record, if there is none at the site, or if the file is refused.
///
/// Fails only when out of memory.
pub fn record_of(
    alloc: Global,
    files: &[&[u8]],
    rule: u16,
    site: Site,
) -> Result<Option<RecordPlace>, AllocError>
    ensures { IfOk result (IsRecordAt (map (λ f. f.now) files.now) (subject_of_rule rule) site) }
{
    let Some(subject) = subject_of(rule) else {
        return Ok(None);
    };
    if site.file >= files.len() {
        return Ok(None);
    }
    record_in(alloc, files[site.file], subject, site.index, site.entry)
}

/// The same of the file of these bytes.
fn record_in(
    alloc: Global,
    bytes: &[u8],
    subject: Subject,
    position: usize,
    entry: usize,
) -> Result<Option<RecordPlace>, AllocError>
    ensures { IfOk result (IsRecordOf bytes.now subject position entry) }
{
    match parse_bytes(alloc, bytes) {
        Ok(image) => Ok(place_in(&image, subject, position, entry)),
        Err(BytesFault::Rule { .. }) => Ok(None),
        Err(BytesFault::OutOfMemory) => Err(AllocError),
    }
}
