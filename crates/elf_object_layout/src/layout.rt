//! Where the parts of an object are in its canonical layout (gABI chapter 4, ELF Header, Sections).
//!
//! Sizes are counted in 64 bits that saturate. A saturated size has no place, so the layout is refused as too long.
ghost use Rattle.std.specs.Prelude.{◌≡◌, ◌<◌, ℕ, ◌+◌, ◌*◌, ◌^◌, IfOk, map, min, ◌-◌, ◌∷◌, IfErr, length, slice_index};
ghost use Rattle.elf_object_layout.specs.Laid.{content_part, layout_parts, LARGEST, saturated, own_section, plain_sections, ArePartsFault};
ghost use Rattle.elf_object_layout.specs.Laid.{ArePlacedParts, IsLayoutFault, IsLayoutOf};
ghost use Rattle.elf_object_layout.specs.StringTables.{AreNameTables, HasSharedNames};
ghost use Rattle.elf_object_type.specs.Object.{ObjectValue};
ghost use Rattle.elf_object_type.specs.ObjectView.{body_value, section_value};
ghost use Rattle.elf_object_type.specs.ObjectRules.{IsWrongBitsType};
ghost use Rattle.elf_extent.specs.Place.{EndsFit, Least};

use crate::name_tables::{NameTables, has_index_table};
use elf_extent::{OutOfMemory, PlaceFault, place};
use elf_field::abi::*;
use elf_image_rules::MAX_LEN;
use elf_object_type::{Body, Object, Section, relocation_size};
use std::alloc::{AllocError, AllocFailed, Global};
use std::marker::Model;
use thiserror::Error;

// The parts of an object after its header, as they are placed (gABI chapter 4, Sections): each content and the section header table, by
// size and alignment.

/// Alignment of the symbol table and of the section header table, whose records have fields of eight bytes.
pub const RECORD_ALIGNMENT: u64 = 8;

/// The parts after the header. A size that passes 64 bits is the largest that doesn't, so it has no place.
fn layout_parts(
    alloc: Global,
    object: &Object<'_>,
    tables: &NameTables,
) -> Result<Vec<(u64, u64)>, AllocError>
    requires { AreNameTables object.now tables.now }
    ensures { IfOk result (λ parts. parts.items ≡ map saturated (layout_parts (plain_sections object.now))) }
{
    let mut parts = own_parts(alloc, object)?;
    let symbols = object.symbols().len();
    parts.push((table_size(symbols, SYM_SIZE), RECORD_ALIGNMENT))?;
    if has_index_table(object) {
        parts.push((table_size(symbols, WORD_SIZE), WORD_SIZE))?;
    }
    parts.push((tables.strings.bytes.len() as u64, 1))?;
    parts.push((tables.names.bytes.len() as u64, 1))?;
    let sections = parts.len();
    parts.push((table_size(sections, SHDR_SIZE), RECORD_ALIGNMENT))?;
    Ok(parts)
}

/// The contents of the object's own sections.
fn own_parts(alloc: Global, object: &Object<'_>) -> Result<Vec<(u64, u64)>, AllocError>
    ensures { IfOk result (λ parts. parts.items ≡
        map saturated (map content_part (map (own_section object.now) object.now.sections))) }
{
    object.prove_rules();
    let mut parts = Vec::new(alloc);
    for section in object.sections() {
        parts.push(content_part(section))?;
    }
    Ok(parts)
}

/// The content of a section, by size in bytes and alignment, which counts only if the section has bytes in the file.
pub fn content_part(section: &Section<'_>) -> (u64, u64)
    requires { ¬ IsWrongBitsType (body_value section.now.body) }
    ensures { (o : ObjectValue) → result ≡ saturated (content_part (own_section o (section_value section.now))) }
{
    match &section.body {
        Body::Bits(_, content) => (content.len() as u64, section.align),
        Body::NoBits(_) => (0, 1),
        Body::Relocs { rela, entries, .. } => {
            (
                entries_size(entries.len(), relocation_size(*rela) as u64),
                section.align,
            )
        }
        Body::Group { members, .. } => (table_size(members.len(), WORD_SIZE), section.align),
    }
}

/// The size of so many entries, in bytes.
fn entries_size(count: usize, entry: u64) -> u64
    ensures { result ≡ min (entry * count) LARGEST }
{
    (count as u64).saturating_mul(entry)
}

/// The size of a table with an entry more, the first one.
fn table_size(count: usize, entry: u64) -> u64
    requires { count < 2 ^ 63 }
    ensures { result ≡ min (entry * (count + 1)) LARGEST }
{
    (count as u64 + 1).saturating_mul(entry)
}

/// Why an object has no layout.
#[derive(Clone, Copy, Debug, PartialEq, Eq, Error)]
pub enum LayoutFault {
    /// The object's canonical layout is longer than the longest file, 2^30 bytes.
    #[error("longer than 2^30 bytes")]
    TooLong,
    /// An allocation failed.
    #[error("out of memory")]
    OutOfMemory,
}

impl From<AllocError> for LayoutFault {
    ghost use Rattle.std.specs.Prelude.{◌≡◌};
    ghost use Rattle.elf_object_layout.specs.declared.layout.LayoutFault.TheVariants.{OutOfMemory};

    ghost from_gives = { λ _ fault. fault ≡ OutOfMemory };

    fn from(_refused: AllocError) -> LayoutFault {
        LayoutFault::OutOfMemory
    }
}

impl<T: Drop> From<AllocFailed<T>> for LayoutFault {
    ghost use Rattle.std.specs.Prelude.{◌≡◌};
    ghost use Rattle.elf_object_layout.specs.declared.layout.LayoutFault.TheVariants.{OutOfMemory};

    ghost from_gives = { λ _ fault. fault ≡ OutOfMemory };

    fn from(_refused: AllocFailed<T>) -> LayoutFault {
        LayoutFault::OutOfMemory
    }
}

impl From<OutOfMemory> for LayoutFault {
    ghost use Rattle.std.specs.Prelude.{◌≡◌};
    ghost use Rattle.elf_object_layout.specs.declared.layout.LayoutFault.TheVariants.{OutOfMemory};

    ghost from_gives = { λ _ fault. fault ≡ OutOfMemory };

    fn from(_refused: OutOfMemory) -> LayoutFault {
        LayoutFault::OutOfMemory
    }
}

/// The canonical layout of an object: where the content of each section begins, and the section header
/// table, all in bytes from the file's beginning. It takes no memory of its own but the places.
#[derive(Debug, Drop)]
pub struct Layout {
    places: Vec<u64>,
    file_len: u64,
}

impl Model for Layout {
    ghost use Rattle.std.specs.Prelude.{◌<◌, length};
    ghost use Rattle.elf_object_layout.specs.Laid.{LayoutValue};

    ghost Value = { LayoutValue };

    ghost view = { λ a. record { places = a.places.items; file_len = a.file_len } };

    ghost invariant = { λ a. 0 < length a.places.items };
}

impl Layout {
    /// `sh_offset` of the section with this section index, which is below [`section_count`](Self::section_count); 0 for section header 0.
    pub fn offset(&self, index: usize) -> u64
        requires { index < length self.now.places }
        ensures { result ≡ slice_index (0 ∷ self.now.places) index }
    {
        if index == 0 {
            0
        } else {
            self.places[index - 1]
        }
    }

    /// `e_shoff`: where the section header table begins.
    pub fn table(&self) -> u64
        ensures { result ≡ slice_index self.now.places (length self.now.places - 1) }
    {
        self.places[self.places.len() - 1]
    }

    /// The length of the file.
    pub fn length(&self) -> u64
        ensures { result ≡ self.now.file_len }
    {
        self.file_len
    }

    /// How many section headers there are, with section header 0.
    pub fn section_count(&self) -> usize
        ensures { result ≡ length self.now.places }
    {
        self.places.len()
    }
}

/// The canonical layout of an object. Its two string tables share tails: each name begins at the lowest offset at which it is, and no table
/// that holds the names is shorter.
///
/// [`LayoutFault::TooLong`] comes exactly if it is longer than the longest file, 2^30 bytes, and
/// [`LayoutFault::OutOfMemory`] only if an allocation fails. It takes the time and the memory of the two string tables, as
/// `shared_table` of `elf_object_strings` makes them; all else is linear in the sections and the symbols.
pub fn lay_out(alloc: Global, object: &Object<'_>) -> Result<Layout, LayoutFault>
    ensures ok { IfOk result (IsLayoutOf object.now) }
    ensures names { HasSharedNames object.now }
    ensures err { IfErr result (IsLayoutFault object.now) }
{
    object.prove_rules();
    let tables = NameTables::new(alloc, object)?;
    lay_out_with(alloc, object, &tables)
}

/// The canonical layout of an object whose string tables are made already. [`LayoutFault::TooLong`] comes exactly if it is longer than
/// 2^30 bytes, and [`LayoutFault::OutOfMemory`] only if an allocation fails.
pub fn lay_out_with(
    alloc: Global,
    object: &Object<'_>,
    tables: &NameTables,
) -> Result<Layout, LayoutFault>
    requires { AreNameTables object.now tables.now }
    ensures ok { IfOk result (IsLayoutOf object.now) }
    ensures err { IfErr result (IsLayoutFault object.now) }
{
    let parts = layout_parts(alloc, object, tables)?;
    place_parts(alloc, &parts)
}

// The parts (size, alignment) after the header, of which there is one at least, at their least places.
fn place_parts(alloc: Global, parts: &[(u64, u64)]) -> Result<Layout, LayoutFault>
    requires { 0 < length parts.now }
    ensures ok { IfOk result (ArePlacedParts parts.now) }
    ensures err { IfErr result (ArePartsFault parts.now) }
{
    match place(alloc, parts, EHDR_SIZE) {
        Ok(places) => layout_of(parts, places),
        Err(PlaceFault::Overflow { .. }) => Err(LayoutFault::TooLong),
        Err(PlaceFault::OutOfMemory) => Err(LayoutFault::OutOfMemory),
    }
}

// The layout of parts at their least places.
fn layout_of(parts: &[(u64, u64)], places: Vec<u64>) -> Result<Layout, LayoutFault>
    requires some { 0 < length parts.now }
    requires least { Least parts.now EHDR_SIZE places.items }
    requires fit { EndsFit parts.now places.items (length parts.now) }
    ensures ok { IfOk result (ArePlacedParts parts.now) }
    ensures err { IfErr result (ArePartsFault parts.now) }
{
    let last = parts.len() - 1;
    let file_len = places[last] + parts[last].0;
    if file_len > MAX_LEN {
        return Err(LayoutFault::TooLong);
    }
    Ok(Layout { places, file_len })
}
