//! The records and the parts of a file, without its contents.
ghost use Rattle.std.specs.Prelude.{◌≡◌, ◌<◌, ◌≤◌, ℕ, List, true, OnErr, OnOk, length, set, vec_capacity};
ghost use Rattle.elf_image_rules.specs.Rules.{MAX_LEN};
ghost use Rattle.elf_image_rules.specs.Tables.{name_table, order_of};
ghost use Rattle.elf_image_outline.specs.Image.{flagged, program_header_of, section_header_of, AreParts};
ghost use Rattle.elf_image_outline.specs.Outline.{IsOutlineOf, IsSoundOutline, blank_image, outline_value};

use elf_field::abi::SHN_XINDEX;
use elf_field::{Ehdr, Order, Phdr, Shdr};
use elf_image_rules::tables::order_in;
use std::marker::Model;
use thiserror::Error;

// The parts of a file: what each of its bytes belongs to.

/// What a part of a file is: each byte of an image lies in just one part.
#[derive(Clone, Copy, Debug, PartialEq, Eq)]
pub enum Owner {
    /// The ELF header.
    Header,
    /// The program header table.
    ProgramTable,
    /// The section header table.
    SectionTable,
    /// The content of the section of this index.
    Content(usize),
    /// Bytes that lie in none of these.
    Gap,
}

/// A part of a file, by its offset and length in bytes; the length is above 0.
#[derive(Clone, Copy, Debug, PartialEq, Eq)]
pub struct Part {
    /// What the bytes belong to.
    pub owner: Owner,
    /// The offset in the file at which it begins.
    pub start: u64,
    /// How many bytes it has.
    pub len: u64,
}

// What can stop an edit of an image.

/// No section has the index: it is 0, or not below the number of section headers.
#[derive(Clone, Copy, Debug, PartialEq, Eq, Error)]
#[error("no such section")]
pub struct NoSection;

/// Why a section's content can't be replaced; where several hold, the first of them.
#[derive(Clone, Copy, Debug, PartialEq, Eq, Error)]
pub enum ReplaceFault {
    /// The index is 0 or not below the number of section headers, or the section is of type `SHT_NULL`
    /// or `SHT_NOBITS` and has no content.
    #[error("no such section, or one without content")]
    NoSection,
    /// The new content is not `sh_size` bytes long.
    #[error("the content has another length than the section")]
    WrongLength,
    /// The section is the section name string table, which every section's name depends on.
    #[error("the section name string table is not replaced")]
    NameTable,
}

/// An ELF-64 file that breaks no rule, without its contents and gaps: its header, its section headers and program headers, and what each of
/// its bytes belongs to. It is what [`scan`](crate::scan) reads of a source.
///
/// No accessor and no edit takes memory. Offsets and lengths are in bytes.
#[derive(Debug, Drop)]
pub struct Outline {
    len: u64,
    header: Ehdr,
    sections: Vec<Shdr>,
    segments: Vec<Phdr>,
    parts: Vec<Part>,
    zeroed: bool,
}

impl Model for Outline {
    ghost use Rattle.elf_image_outline.specs.Outline.{IsSoundOutline, OutlineValue};

    ghost Value = { OutlineValue };

    ghost use Rattle.elf_image_outline.specs.Outline.{outline_view};

    ghost view = { outline_view };

    ghost invariant = { λ a. IsSoundOutline (outline_view a) };
}

/// Sets `sh_flags` of a section header.
fn flag(sections: &mut Vec<Shdr>, i: usize, flags: u64)
    requires { i < length sections.old.items }
    ensures flags { sections.new.items ≡ flagged sections.old.items i flags }
    ensures room { vec_capacity sections.new ≡ vec_capacity sections.old }
{
    sections[i].sh_flags = flags;
}

impl Outline {
    /// An outline as read, of a file of `len` bytes.
    pub(crate) fn new(
        len: u64,
        header: Ehdr,
        sections: Vec<Shdr>,
        segments: Vec<Phdr>,
        parts: Vec<Part>,
    ) -> Outline
        requires { IsSoundOutline (outline_value len header sections.items segments.items parts.items) }
        ensures { result ≡ outline_value len header sections.items segments.items parts.items }
    {
        Outline {
            len,
            header,
            sections,
            segments,
            parts,
            zeroed: false,
        }
    }

    /// Proves that the outline is of an image by itself, with zeros for contents and gaps. Code of another type
    /// does not see the invariant: this call shows it. It does nothing.
    pub fn prove_stands(&self)
        ensures { IsSoundOutline self.now }
    {
        let _ = &self.parts;
    }

    /// The length of the file, in bytes; no edit changes it.
    pub fn len(&self) -> u64
        ensures value { result ≡ self.now.len }
        ensures short { result ≤ MAX_LEN }
    {
        self.len
    }

    /// The byte order, as identification byte 5 says it (gABI chapter 4, Data Encoding).
    pub fn order(&self) -> Order
        ensures { result ≡ order_of self.now.header.e_ident }
    {
        order_in(&self.header.e_ident)
    }

    /// The ELF header (gABI chapter 4, ELF Header).
    pub fn header(&self) -> Ehdr
        ensures { result ≡ self.now.header }
    {
        self.header
    }

    /// How many section headers there are, number 0 among them; 0 without a section header table.
    pub fn section_count(&self) -> usize
        ensures { result ≡ length self.now.sections }
    {
        self.sections.len()
    }

    /// How many program headers there are.
    pub fn segment_count(&self) -> usize
        ensures { result ≡ length self.now.segments }
    {
        self.segments.len()
    }

    /// The section headers, number 0 as it is in the file (gABI chapter 4, Sections).
    pub fn sections(&self) -> &[Shdr]
        ensures { result.now ≡ self.now.sections }
    {
        &self.sections
    }

    /// The program headers (gABI chapter 5, Program Header).
    pub fn segments(&self) -> &[Phdr]
        ensures { result.now ≡ self.now.segments }
    {
        &self.segments
    }

    /// What each byte of the file belongs to: the parts in ascending order, none of them empty, each
    /// byte in just one.
    pub fn parts(&self) -> &[Part]
        ensures value { result.now ≡ self.now.parts }
        ensures parts { AreParts (blank_image self.now) result.now }
    {
        &self.parts
    }

    /// Whether the gaps count as zeros, whatever the file has there.
    pub fn is_zeroed(&self) -> bool
        ensures { result ≡ self.now.zeroed }
    {
        self.zeroed
    }

    /// Section header `i`, which is below [`section_count`](Outline::section_count).
    pub fn section(&self, i: usize) -> Shdr
        requires { i < length self.now.sections }
        ensures { result ≡ section_header_of self.now.sections i }
    {
        self.sections[i]
    }

    /// Program header `j`, which is below [`segment_count`](Outline::segment_count).
    pub fn segment(&self, j: usize) -> Phdr
        requires { j < length self.now.segments }
        ensures { result ≡ program_header_of self.now.segments j }
    {
        self.segments[j]
    }

    /// The index of the section name string table, 0 for none (gABI chapter 4, ELF Header: `e_shstrndx`). If that is `SHN_XINDEX`,
    /// the index is `sh_link` of section header 0.
    pub fn name_table(&self) -> u32
        ensures { result ≡ name_table self.now.header (section_header_of self.now.sections 0) }
    {
        if self.header.e_shstrndx != SHN_XINDEX {
            return self.header.e_shstrndx as u32;
        }
        match self.sections.first() {
            Some(first) => first.sh_link,
            None => 0,
        }
    }

    /// Sets `e_entry`.
    pub fn set_entry(&mut self, entry: u64)
        ensures value { let h = self.old.header in self.new ≡ record self.old { header = record h { e_entry = entry } } }
        ensures still { (b : List ℕ) → IsOutlineOf self.old b → IsOutlineOf self.new b }
    {
        self.header.e_entry = entry;
    }

    /// Sets `sh_flags` of section `i`. Returns [`NoSection`], and changes nothing, where `i` is 0 or not below
    /// [`section_count`](Outline::section_count).
    pub fn set_flags(&mut self, i: usize, flags: u64) -> Result<(), NoSection>
        ensures ok { OnOk result ((0 < i) × (i < length self.old.sections) ×
            (self.new ≡ record self.old { sections = flagged self.old.sections i flags })) }
        ensures err { OnErr result ((¬ ((0 < i) × (i < length self.old.sections))) × (self.new ≡ self.old)) }
        ensures still { (b : List ℕ) → IsOutlineOf self.old b → IsOutlineOf self.new b }
    {
        if i == 0 || i >= self.sections.len() {
            return Err(NoSection);
        }
        flag(&mut self.sections, i, flags);
        Ok(())
    }

    /// Sets every byte of every gap to 0: they count as zeros, whatever the file has there.
    pub fn zero_gaps(&mut self)
        ensures value { self.new ≡ record self.old { zeroed = true } }
        ensures still { (b : List ℕ) → IsOutlineOf self.old b → IsOutlineOf self.new b }
    {
        self.zeroed = true;
    }
}
