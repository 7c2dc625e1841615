//! An image that is read as an object, with what is looked up once for all its sections.
//!
//! The image's tables are validated once, after rules 70 to 74. So reading takes n log n, also if many relocation sections share a symbol
//! table.
ghost use Rattle.std.specs.Prelude.{◌≡◌, ◌<◌, length};
ghost use Rattle.std.specs.Bool.{OnTrue};
ghost use Rattle.elf_object_layout.specs.SectionsLeftOut.{is_kept as is_kept_of, left_out};
ghost use Rattle.elf_object_reader.specs.Denotes.{body_kind};
ghost use Rattle.elf_table_symbols.specs.Symbols.{symbols_of};
ghost use Rattle.elf_table_symbols.specs.Sections.{sections_of, section};
ghost use Rattle.elf_table_all.specs.Tables.{AreVerdicts};

use elf_field::Shdr;
use elf_field::abi::*;
use elf_image_type::Image;
use elf_object_layout::LeftOut;
use elf_table_all::{Symbols, Tables};

// What a section of a type holds in an object (gABI chapter 4, Sections: sh_type).

/// The kind of a section's [`Body`](elf_object_type::Body).
#[derive(Clone, Copy, PartialEq, Eq)]
pub enum BodyKind {
    /// Bytes that mean nothing to the object.
    Bits,
    /// No bytes in the file (`SHT_NOBITS`).
    NoBits,
    /// Relocations (`SHT_RELA`, `SHT_REL`).
    Relocs,
    /// A section group (`SHT_GROUP`).
    Group,
}

impl BodyKind {
    /// The kind of the body of a section of this type.
    pub(crate) fn of(section_type: u32) -> BodyKind
        ensures { result ≡ body_kind section_type }
    {
        match section_type {
            SHT_NOBITS => BodyKind::NoBits,
            SHT_RELA | SHT_REL => BodyKind::Relocs,
            SHT_GROUP => BodyKind::Group,
            _ => BodyKind::Bits,
        }
    }
}

/// The image of an object file, with the sections that the object leaves out, and its tables, each of which is validated.
#[derive(Drop)]
pub(crate) struct ObjectFile<'i, 'a> {
    /// The image.
    pub(crate) image: &'i Image<'a>,
    /// The sections that the object leaves out.
    pub(crate) left: LeftOut,
    /// The tables of the image.
    pub(crate) tables: Tables<'i, 'a>,
    ghost own_left: { left ≡ left_out (sections_of image.now) },
    ghost own_tables: { tables.image ≡ image.now },
    // A broken rule may be shown in more than one way, and a fact of a type in one alone: hence the bars.
    ghost validated: { ∥ AreVerdicts (sections_of image.now) (length image.now.sections) tables.verdicts ∥₁ },
}

impl<'i, 'a> ObjectFile<'i, 'a> {
    ghost use Rattle.elf_object_reader.specs.FileRules.{sections_of_file};

    /// Whether the object keeps section `i`; it keeps none that is not there.
    pub(crate) fn is_kept(&self, i: usize) -> bool
        ensures value { result ≡ is_kept_of self.now.left (sections_of_file self.now) i }
        ensures there { OnTrue result (i < length self.now.image.now.sections) }
    {
        self.left.is_kept(self.image, i)
    }

    /// Section `i`.
    pub(crate) fn section<'f>(&'f self, i: usize) -> FileSection<'f, 'i, 'a>
        requires { i < length self.now.image.now.sections }
        ensures file { result.file.now ≡ self.now }
        ensures index { result.index ≡ i }
    {
        FileSection {
            file: self,
            index: i,
            header: self.image.section(i),
        }
    }
}

// A section of a file that is read as an object.

/// A section of an object file, with its header.
#[derive(Clone, Copy, Drop)]
pub(crate) struct FileSection<'f, 'i, 'a> {
    /// The file.
    pub(crate) file: &'f ObjectFile<'i, 'a>,
    /// The section's index.
    pub(crate) index: usize,
    /// The section's header.
    pub(crate) header: Shdr,
    ghost there: { index < length file.now.image.now.sections },
    ghost own_header: { header ≡ section (sections_of file.now.image.now) index },
}

// The symbol table of a file that is read as an object.

/// The symbol table of an object file, which breaks none of its own rules.
#[derive(Drop)]
pub(crate) struct FileSymbols<'f, 'i, 'a> {
    /// The file.
    pub(crate) file: &'f ObjectFile<'i, 'a>,
    /// The index of the table's section.
    pub(crate) index: usize,
    /// The symbols.
    pub(crate) entries: Symbols<'a>,
    ghost there: { index < length file.now.image.now.sections },
    ghost own_entries: { entries ≡ symbols_of (sections_of file.now.image.now) index },
}
