//! A source as an image, without its contents.
ghost use Rattle.std.specs.Prelude.{◌≡◌, ◌≤◌, ◌+◌, ℕ, List, Some, IfOk, length, ◌<◌, ◌*◌, ◌^◌, ◌-◌, min};
ghost use Rattle.std.specs.List.{AllByRecursion};
ghost use Rattle.elf_field.specs.Abi.{SHDR_SIZE};
ghost use Rattle.elf_field.specs.Headers.{IsEhdr, IsShdr, shdr_at};
ghost use Rattle.elf_image_outline.specs.Scanning.{KeepsHeadRules, Scans, scan_failure, HasTables, KeepsTableRules, names_extent};
ghost use Rattle.elf_image_rules.specs.Rules.{MAX_LEN, AreEnds};
ghost use Rattle.elf_image_rules.specs.Tables.{header as header_in, file_counts, no_section_header, order_of, section_header_of};
ghost use Rattle.elf_image_rules.specs.Tables.{sections as sections_in, names as names_in};
ghost use Rattle.elf_image_stream.specs.Source.{Remembers, Reaches, ReportsBytes};
ghost use Rattle.elf_image_outline.specs.Records.{table_at};
ghost use Rattle.elf_image_outline.specs.Image.{AreRecordsIn, IsImage};
ghost use Rattle.elf_image_outline.specs.Outline.{IsOutlineOf, image_in};

use crate::outline::Outline;
use crate::records::{read_ends, read_record, read_records};
use crate::validated::validated_parts;
use elf_extent::Extent;
use elf_field::abi::{EHDR_SIZE, EI_NIDENT};
use elf_field::{Ehdr, Phdr, Record, Shdr};
use elf_image_rules::tables::{
    Counts, NO_SECTION, counts_of, extent_of_content, header_of, order_in,
};
use elf_image_rules::{
    TableEnds, validate_header, validate_ident, validate_length, validate_program_table,
    validate_section_table,
};
use elf_image_stream::{Fault, Source, read_exactly};
use std::alloc::Global;

// The length and the header of a source, by rules 1 to 12 (gABI chapter 4, ELF Header).

/// The length of a source in bytes, and its header.
#[derive(Clone, Copy)]
pub(crate) struct Head {
    pub len: u64,
    pub header: Ehdr,
}

/// The length and the header of a source that keeps rules 1 to 12; otherwise the first of them that it breaks.
pub(crate) fn scan_head<S: Source>(source: &mut S) -> Result<Head, Fault>
    ensures kept { S.content source.new ≡ S.content source.old }
    ensures failures { Remembers (scan_failure result) (S.failures source.old) (S.failures source.new) }
    ensures validated { IfOk result (λ head. KeepsHeadRules head.len head.header) }
    ensures room { IfOk result (λ head. head.header.e_shoff + SHDR_SIZE ≤ head.len) }
    ensures short { IfOk result (λ head. head.len ≤ MAX_LEN) }
    ensures valid { IfOk result (λ head. IsEhdr head.header) }
    ensures bytes { ReportsBytes (S.content source.old) }
    ensures known { (b : List ℕ) → S.content source.old ≡ Some b →
        Scans b (λ head. (head.len ≡ length b) × (head.header ≡ header_in b)) result }
{
    let Ok(len) = source.length() else {
        return Err(Fault::Io { at: 0 });
    };
    validate_length(len)?;
    let mut block = [0; EHDR_SIZE as usize];
    read_exactly(source, 0, &mut block)?;
    let header = header_of(&block);
    header.fits();
    validate_ident(&header.e_ident)?;
    validate_header(&header, len)?;
    Ok(Head { len, header })
}

// The two tables of a source with this header, by rules 13 to 21 (gABI chapter 4, Sections; chapter 5, Program Header).

/// The header of a source, its counts and its two tables.
#[derive(Drop)]
pub(crate) struct Tables {
    pub header: Ehdr,
    pub counts: Counts,
    pub sections: Vec<Shdr>,
    pub segments: Vec<Phdr>,
}

/// Section header 0 of a source with this header; all zeros without a section table.
#[tactic(auto, unfolding(elf_image_rules::specs::Tables::sections))]
fn read_first<S: Source>(source: &mut S, header: &Ehdr) -> Result<Shdr, Fault>
    requires valid { IsEhdr header.now }
    requires room { header.now.e_shoff + SHDR_SIZE ≤ MAX_LEN }
    requires there { Reaches (S.content source.old) (header.now.e_shoff + SHDR_SIZE) }
    ensures kept { S.content source.new ≡ S.content source.old }
    ensures failures { Remembers (scan_failure result) (S.failures source.old) (S.failures source.new) }
    ensures valid { IfOk result IsShdr }
    ensures none { IfOk result (λ first. header.now.e_shoff ≡ 0 → first ≡ no_section_header) }
    ensures known { (b : List ℕ) → S.content source.old ≡ Some b → header.now ≡ header_in b →
        Scans b (λ first. first ≡ sections_in b header.now 0) result }
{
    match header.e_shoff {
        0 => Ok(NO_SECTION),
        table => Ok(read_record(source, order_in(&header.e_ident), table)?),
    }
}

/// So many section headers of a source. Section header 0 was read before, and rules 13 to 21 were tested on it, so it is not read again:
/// the source could give other bytes the second time.
fn read_sections<S: Source>(
    alloc: Global,
    source: &mut S,
    header: &Ehdr,
    count: u64,
    first: Shdr,
) -> Result<Vec<Shdr>, Fault>
    requires valid { IsEhdr header.now }
    requires room { header.now.e_shoff + SHDR_SIZE * count ≤ MAX_LEN }
    requires there { Reaches (S.content source.old) (header.now.e_shoff + SHDR_SIZE * count) }
    requires first { IsShdr first }
    requires none { count ≡ 0 → first ≡ no_section_header }
    ensures kept { S.content source.new ≡ S.content source.old }
    ensures failures { Remembers (scan_failure result) (S.failures source.old) (S.failures source.new) }
    ensures many { IfOk result (λ v. length v.items ≡ count) }
    ensures valid { IfOk result (λ v. AllByRecursion IsShdr v.items) }
    ensures first { IfOk result (λ v. section_header_of v.items 0 ≡ first) }
    ensures known { (b : List ℕ) → S.content source.old ≡ Some b →
        KeepsTableRules b → header.now ≡ header_in b → count ≡ (file_counts b).sections →
        (0 < count → first ≡ shdr_at (order_of header.now.e_ident) b header.now.e_shoff) →
        Scans b (λ v. v.items ≡ table_at (shdr_at (order_of header.now.e_ident)) SHDR_SIZE b header.now.e_shoff count) result }
{
    let order = order_in(&header.e_ident);
    let mut sections = read_records(alloc, source, order, header.e_shoff, count as usize)?;
    if count > 0 {
        sections[0] = first;
    }
    Ok(sections)
}

/// The header and the two tables of a source that keeps rules 13 to 21; otherwise the first of them that it breaks.
pub(crate) fn scan_tables<S: Source>(
    alloc: Global,
    source: &mut S,
    head: &Head,
) -> Result<Tables, Fault>
    requires kept { KeepsHeadRules head.now.len head.now.header }
    requires room { head.now.header.e_shoff + SHDR_SIZE ≤ head.now.len }
    requires short { head.now.len ≤ MAX_LEN }
    requires there { Reaches (S.content source.old) head.now.len }
    requires valid { IsEhdr head.now.header }
    ensures kept { S.content source.new ≡ S.content source.old }
    ensures failures { Remembers (scan_failure result) (S.failures source.old) (S.failures source.new) }
    ensures header { IfOk result (λ t. t.header ≡ head.now.header) }
    ensures tables { IfOk result (λ t. HasTables head.now.len t.header t.counts t.sections.items t.segments.items) }
    ensures known { (b : List ℕ) → S.content source.old ≡ Some b → head.now.len ≡ length b → head.now.header ≡ header_in b →
        Scans b (λ t. AreRecordsIn b t.header t.sections.items t.segments.items) result }
{
    let Head { len, header } = *head;
    let first = read_first(source, &header)?;
    validate_section_table(&header, &first, len)?;
    validate_program_table(&header, &first, len)?;
    let counts = counts_of(&header, &first);
    let sections = read_sections(alloc, source, &header, counts.sections, first)?;
    let order = order_in(&header.e_ident);
    let segments = read_records(
        alloc,
        source,
        order,
        header.e_phoff,
        counts.segments as usize,
    )?;
    Ok(Tables {
        header,
        counts,
        sections,
        segments,
    })
}

// The ends of a source's section name string table (gABI chapter 4, String Table).

/// Where the section name string table is: nowhere without one.
fn extent_of_names(tables: &Tables) -> Extent
    ensures { result ≡ names_extent tables.now.sections.items tables.now.counts.name_table }
{
    match tables.sections.get(tables.counts.name_table as usize) {
        Some(entry) if tables.counts.name_table > 0 => extent_of_content(entry),
        _ => Extent { start: 0, len: 0 },
    }
}

/// The length and the ends of the section name string table of a source of `len` bytes, of as much of the table as lies there: no rule has
/// tested yet that all of it does.
pub(crate) fn scan_names<S: Source>(
    source: &mut S,
    len: u64,
    tables: &Tables,
) -> Result<TableEnds, Fault>
    requires there { Reaches (S.content source.old) len }
    ensures kept { S.content source.new ≡ S.content source.old }
    ensures failures { Remembers (scan_failure result) (S.failures source.old) (S.failures source.new) }
    ensures some { IfOk result (λ ends. (names : List ℕ) × AreEnds ends names) }
    ensures place { IfOk result (λ ends. 0 < ends.len →
        (section_header_of tables.now.sections.items tables.now.counts.name_table).sh_offset + ends.len ≤ len) }
    ensures clipped { let names = names_extent tables.now.sections.items tables.now.counts.name_table in
        IfOk result (λ ends. ends.len ≡ min (len - names.start) names.len) }
    ensures known { (b : List ℕ) → S.content source.old ≡ Some b → len ≡ length b →
        HasTables len tables.now.header tables.now.counts tables.now.sections.items tables.now.segments.items →
        AreRecordsIn b tables.now.header tables.now.sections.items tables.now.segments.items →
        Scans b (λ ends. AreEnds ends (names_in b tables.now.header)) result }
{
    let extent = extent_of_names(tables);
    let there = len.saturating_sub(extent.start).min(extent.len);
    Ok(read_ends(source, extent.start, there)?)
}

/// The records and the parts of an ELF-64 file that breaks no rule, read of a source: the header, the two tables and the ends of the
/// section name string table are read, and no other byte.
///
/// [`Fault::Rule`] is the first of rules 1 to 33 that the bytes break, with the lowest offset where they break it. [`Fault::Io`] has the
/// offset of a call that failed (0 for a failed `length`), or that gave no byte though the length says that there is one. After such a call
/// nothing else is returned. [`Fault::OutOfMemory`] comes only if an allocation fails. Memory is taken from rule 22 on, for the two tables,
/// two lists of the extents of the file, and its parts. Sorting takes n log n comparisons; all else is linear in the records.
pub fn scan<S: Source>(alloc: Global, source: &mut S) -> Result<Outline, Fault>
    ensures kept { S.content source.new ≡ S.content source.old }
    ensures failures { Remembers (scan_failure result) (S.failures source.old) (S.failures source.new) }
    ensures known { (b : List ℕ) → S.content source.old ≡ Some b →
        Scans b (λ outline. IsImage (image_in outline b) b) result }
    ensures of { (b : List ℕ) → S.content source.old ≡ Some b → IfOk result (λ outline. IsOutlineOf outline b) }
{
    let head = scan_head(source)?;
    let tables = scan_tables(alloc, source, &head)?;
    let ends = scan_names(source, head.len, &tables)?;
    let parts = validated_parts(alloc, head.len, &tables, ends)?;
    Ok(Outline::new(
        head.len,
        tables.header,
        tables.sections,
        tables.segments,
        parts,
    ))
}
