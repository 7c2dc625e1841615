//! A relocatable file read as an object (gABI chapter 4).
//!
//! An object that is read is not tested again by rules 1 to 9 of objects: a proof derives these rules from those of images and tables, and
//! from 70 to 79.
ghost use Rattle.std.specs.Prelude.{◌≡◌, None, ◌<◌, true, length, ◌+◌, IfOk, IfErr};
ghost use Rattle.elf_image_rules.specs.KeepsRules.{unbroken_prop};
ghost use Rattle.elf_image_rules.specs.Rows.{FirstIn};
ghost use Rattle.elf_object_layout.specs.SectionsLeftOut.{is_kept};
ghost use Rattle.elf_object_reader.specs.Denotes.{section_name_table, section_reference, position_of, Denotes, DenotesOnly};
ghost use Rattle.elf_object_reader.specs.FileRules.{file_rules, AreSectionPositions, sections_of_file, front_rules};
ghost use Rattle.elf_table_symbols.specs.Sections.{sections_of, section};
ghost use Rattle.elf_image_stream.specs.declared.fault.BytesFault.TheVariants.{OutOfMemory};
ghost use Rattle.elf_object_type.specs.ObjectView.{HasNameEnds, value_of};
ghost use Rattle.elf_table_symbols.specs.Verdicts.{IsOnlyValidatedAfter, IsTestedAfter, IsValidatedAfter, OfItsFile};

use crate::file_rules::validate_front;
use crate::name_ends::{useful_section_ends, useful_symbol_ends};
use crate::object_file::ObjectFile;
use crate::string_blocks::StringBlocks;
use elf_field::Shdr;
use elf_field::abi::*;
use elf_image_stream::{BytesFault, Fault};
use elf_image_type::Image;
use elf_object_layout::LeftOut;
use elf_object_type::{NameEnds, Object, ObjectParts, kept_object};
use elf_table_all::Tables;
use std::alloc::{AllocError, Global};

// A file that breaks no rule of objects, as its parts are read.

/// An object file that breaks no rule, with the position of each section in the object.
#[derive(Drop)]
pub(crate) struct ObjectReader<'i, 'a> {
    /// The file.
    pub(crate) file: ObjectFile<'i, 'a>,
    /// For each section its position, and a last one for any section that is not there.
    pub(crate) positions: Vec<usize>,
    /// The section name string table.
    pub(crate) names: StringBlocks<'a>,
    ghost own_names: { names.table.now ≡ section_name_table (sections_of file.image.now) },
    ghost sound: { FirstIn (file_rules (sections_of file.image.now)) None } by { unbroken_prop _ },
    ghost own_positions: { AreSectionPositions file.left (sections_of file.image.now) positions.items },
}

impl<'i, 'a> ObjectReader<'i, 'a> {
    ghost use Rattle.elf_object_reader.specs.FileRules.{sections_of_file};

    /// The position of section `k`.
    pub(crate) fn position_at(&self, k: usize) -> usize
        ensures { result ≡ position_of self.now.file.left (sections_of_file self.now.file) k }
    {
        self.positions[k.min(self.file.image.section_count())]
    }

    /// Section `k` as a position; 0 is none.
    pub(crate) fn reference_at(&self, k: usize) -> Option<usize>
        ensures { result ≡ section_reference self.now.file.left (sections_of_file self.now.file) k }
    {
        if k == 0 {
            None
        } else {
            Some(self.position_at(k))
        }
    }
}

// A section of a file that the object keeps.

/// A section of an object file that the object keeps, with its header.
#[derive(Clone, Copy, Drop)]
pub(crate) struct KeptSection<'r, 'i, 'a> {
    /// The file.
    pub(crate) reader: &'r ObjectReader<'i, 'a>,
    /// The section's index.
    pub(crate) index: usize,
    /// Its header.
    pub(crate) header: Shdr,
    ghost there: { index < length reader.now.file.image.now.sections },
    ghost own_header: { header ≡ section (sections_of reader.now.file.image.now) index },
    ghost kept: { is_kept reader.now.file.left (sections_of reader.now.file.image.now) index ≡ true },
}

// The positions of the sections of a file in the object that it is read as.

impl<'i, 'a> ObjectFile<'i, 'a> {
    /// For each section its position, and a last one for any section that is not there.
    pub(crate) fn positions(&self, alloc: Global) -> Result<Vec<usize>, AllocError>
        ensures { IfOk result (λ positions. AreSectionPositions self.now.left (sections_of_file self.now) positions.items) }
    {
        let mut positions = Vec::new(alloc);
        let mut kept = 0;
        for i in 0..self.image.section_count() {
            positions.push(kept)?;
            if self.is_kept(i) {
                kept += 1;
            }
        }
        positions.push(kept)?;
        Ok(positions)
    }
}

/// The object that the image denotes: the header's fields; the sections but those of type NULL, the symbol table with its string
/// table and its index table, and the section name string table; and the symbols but symbol 0. Indexes have become positions.
/// Names and bytes borrow from the file. A file without sections is the empty object.
///
/// [`Fault::Rule`] is the first rule that is broken, at its lowest offset: 70 to 74 ([`rules`](crate::rules)); then those of the symbol
/// table, where there is one, and 75; then those of each relocation section and each group that is kept, in the order of their indexes;
/// then 76 to 79. [`Fault::OutOfMemory`] comes only if an allocation failed, and none of 70 to 74 is broken. No other fault comes. It
/// takes memory for each section header, symbol, relocation and member. Its tables take log n steps at most for each entry, and no name is
/// read further than to the end of a block of 4,096 bytes.
pub fn object_of<'a>(alloc: Global, image: &Image<'a>) -> Result<Object<'a>, Fault>
    ensures validated { let f = sections_of image.now in
        IsValidatedAfter (front_rules f) (file_rules f) (λ o. Denotes f o) result }
    ensures file { OfItsFile image.now (λ f. IsOnlyValidatedAfter (front_rules f) (file_rules f) (DenotesOnly f) result) }
{
    image.prove_stands();
    Ok(read_object(alloc, image)?)
}

/// The object that the image denotes, as [`object_of`] makes it, whose fault is the public form of this one.
pub fn read_object<'a>(alloc: Global, image: &Image<'a>) -> Result<Object<'a>, BytesFault>
    ensures { let f = sections_of image.now in
        IsTestedAfter (front_rules f) (file_rules f) (λ o. Denotes f o) result }
{
    image.prove_stands();
    let (parts, ends) = parts_of(alloc, image)?;
    Ok(kept_object(parts, ends))
}

/// The parts of the object that the image denotes, and where their names end.
fn parts_of<'a>(alloc: Global, image: &Image<'a>) -> Result<(ObjectParts<'a>, NameEnds), BytesFault>
    ensures { let f = sections_of image.now in
        IsTestedAfter (front_rules f) (file_rules f)
        (λ (parts, ends). Denotes f (value_of parts) × HasNameEnds (value_of parts) ends) result }
{
    let left = LeftOut::of(image);
    validate_front(image, left.symbol_table)?;
    let tables = Tables::new(alloc, image)?;
    let file = ObjectFile {
        image,
        left,
        tables,
    };
    file.validate(alloc)?;
    read_parts(alloc, file)
}

/// The parts of the object that a file denotes which breaks no rule, and where their names end. [`BytesFault::OutOfMemory`] is the only
/// error.
fn read_parts<'a>(
    alloc: Global,
    file: ObjectFile<'_, 'a>,
) -> Result<(ObjectParts<'a>, NameEnds), BytesFault>
    requires { FirstIn (file_rules (sections_of_file file)) None }
    ensures ok { IfOk result (λ (parts, ends). Denotes (sections_of_file file.entry) (value_of parts) × HasNameEnds (value_of parts) ends) }
    ensures err { IfErr result (λ fault. fault ≡ OutOfMemory) }
{
    let positions = file.positions(alloc)?;
    let names = StringBlocks::new(alloc, section_name_table(file.image))?;
    let reader = ObjectReader {
        file,
        positions,
        names,
    };
    let sections = reader.read_sections(alloc)?;
    let symbols = reader.read_symbols(alloc)?;
    let image = reader.file.image;
    let ends = NameEnds {
        symbols: useful_symbol_ends(alloc, image, &symbols)?,
        sections: useful_section_ends(alloc, &reader, &sections)?,
    };
    let header = image.header();
    let parts = ObjectParts {
        order: image.order(),
        osabi: header.e_ident[EI_OSABI],
        abi: header.e_ident[EI_ABIVERSION],
        machine: header.e_machine,
        flags: header.e_flags,
        sections,
        symbols,
    };
    Ok((parts, ends))
}

/// The section name string table of an image; without one the empty list.
fn section_name_table<'a>(image: &Image<'a>) -> &'a [u8]
    ensures { result.now ≡ section_name_table (sections_of image.now) }
{
    image.prove_stands();
    let index = image.name_table() as usize;
    if index == 0 {
        return &[];
    }
    image.content(index)
}
