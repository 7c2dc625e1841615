//! The headers of a written object.
ghost use Rattle.std.specs.Prelude.{◌≡◌, ◌+◌, length, slice_index, ◌<◌, ◌≤◌, ℕ, ◌^◌, List, filter, get_or};
ghost use Rattle.elf_object_layout.specs.Laid.{file_header, plain_sections, section_header, section_headers, PlainSection, body_type};
ghost use Rattle.elf_object_layout.specs.Laid.{index_of, is_local, name_table_at, own_info, own_section, section_names};
ghost use Rattle.elf_image_type.specs.WrittenFile.{all_headers, first_header};
ghost use Rattle.elf_object_strings.specs.StringTable.{name_offset};
ghost use Rattle.elf_object_type.specs.Object.{section_at, info_position};
ghost use Rattle.elf_object_type.specs.ObjectView.{body_value, symbol_value};
ghost use Rattle.elf_object_writer.specs.PlacedObject.{plain_section};
ghost use Rattle.elf_image_rules.specs.Tables.{no_section_header};

use crate::contents::{
    index_of, long_number, object_section, prove_few_symbols, short_count, short_index,
};
use crate::placed_object::{LaidSection, PlacedObject, PlacedSection};
use elf_field::abi::*;
use elf_field::{Ehdr, Shdr};
use elf_image_outline::Entries;
use elf_image_type::identification;
use elf_object_layout::RECORD_ALIGNMENT;
use elf_object_type::{Body, Info, Object, Symbol};

// The header of an object's file (gABI chapter 4, ELF Header).

/// The header of the file that the object is written as.
pub(crate) fn file_header(placed: &PlacedObject<'_, '_>) -> Ehdr
    ensures { let o = placed.now.object in let count = length (plain_sections o) in
        result ≡ file_header o (count + 1) (slice_index placed.now.layout.places count) }
{
    let object = placed.object();
    Ehdr {
        e_ident: identification(object.order(), object.osabi(), object.abi()),
        e_type: ET_REL,
        e_machine: object.machine(),
        e_version: EV_CURRENT as u32,
        e_entry: 0,
        e_phoff: 0,
        e_shoff: placed.table(),
        e_flags: object.flags(),
        e_ehsize: EHDR_SIZE as u16,
        e_phentsize: 0,
        e_phnum: 0,
        e_shentsize: SHDR_SIZE as u16,
        e_shnum: short_count(placed.header_count()),
        e_shstrndx: short_index(placed.names_index()),
    }
}

// The section header table of an object's canonical layout, entry by entry (gABI chapter 4, Sections).

/// A section header all of whose fields are 0.
const NO_HEADER: Shdr = Shdr {
    sh_name: 0,
    sh_type: SHT_NULL,
    sh_flags: 0,
    sh_addr: 0,
    sh_offset: 0,
    sh_size: 0,
    sh_link: 0,
    sh_info: 0,
    sh_addralign: 0,
    sh_entsize: 0,
};

/// The section headers, that of index 0 first.
#[derive(Drop)]
pub(crate) struct SectionHeaders<'p, 'o, 'a> {
    pub(crate) placed: &'p PlacedObject<'o, 'a>,
}

impl<'p, 'o, 'a> Entries for SectionHeaders<'p, 'o, 'a> {
    type Entry = Shdr;

    ghost entries = { λ s. let o = s.placed.now.object in
        all_headers (section_headers (name_offset (section_names o)) (plain_sections o) s.placed.now.layout.places) (name_table_at o) };

    ghost fit = { λ _. Unit {0} };

    fn count(&self) -> usize {
        self.placed.prove_placed();
        self.placed.header_count()
    }

    fn entry(&self, index: usize) -> Shdr {
        self.placed.prove_placed();
        if index == 0 {
            first_header(self.placed)
        } else {
            header_at(self.placed, index - 1)
        }
    }
}

/// Section header 0, which holds the numbers that the header of the file can't.
fn first_header(placed: &PlacedObject<'_, '_>) -> Shdr
    ensures { let o = placed.now.object in result ≡ first_header (length (plain_sections o) + 1) (name_table_at o) }
{
    Shdr {
        sh_size: long_number(placed.header_count()) as u64,
        sh_link: long_number(placed.names_index()),
        ..NO_HEADER
    }
}

/// The header of the section of this position in the layout.
fn header_at(placed: &PlacedObject<'_, '_>, position: usize) -> Shdr
    requires { position < length (plain_sections placed.now.object) }
    ensures { let o = placed.now.object in (d : PlainSection) → result ≡ section_header (name_offset (section_names o))
        (get_or (plain_sections o) position d) (slice_index placed.now.layout.places position) }
{
    let section = placed.section(position);
    let laid = LaidSection { placed, section };
    laid.header(placed.section_name(position), placed.place(position))
}

impl<'p, 'o, 'a> LaidSection<'p, 'o, 'a> {
    /// The section's header, with this name, where its content begins at this offset.
    fn header(&self, sh_name: u32, sh_offset: u64) -> Shdr
        ensures { let s = plain_section self.now.placed.now.object self.now.section in
            (name_at : List ℕ → ℕ) → sh_name ≡ name_at s.name → result ≡ section_header name_at s sh_offset }
    {
        let placed = self.placed;
        let header = Shdr {
            sh_name,
            sh_offset,
            sh_size: self.content_size(),
            ..NO_HEADER
        };
        match self.section {
            PlacedSection::Own(position) => own_header(placed, position, header),
            PlacedSection::SymbolTable => Shdr {
                sh_type: SHT_SYMTAB,
                sh_link: placed.strings_index() as u32,
                sh_info: local_info(placed),
                sh_addralign: RECORD_ALIGNMENT,
                sh_entsize: SYM_SIZE,
                ..header
            },
            PlacedSection::IndexTable => Shdr {
                sh_type: SHT_SYMTAB_SHNDX,
                sh_link: placed.symbol_table_index() as u32,
                sh_addralign: WORD_SIZE,
                sh_entsize: WORD_SIZE,
                ..header
            },
            PlacedSection::Strings | PlacedSection::Names => Shdr {
                sh_type: SHT_STRTAB,
                sh_addralign: 1,
                ..header
            },
        }
    }
}

/// `sh_info` of `.symtab`: the index of the first symbol that is not local.
fn local_info(placed: &PlacedObject<'_, '_>) -> u32
    ensures { result ≡ 1 + length (filter is_local placed.now.object.symbols) }
{
    prove_few_symbols(placed);
    1 + local_count(placed.object().symbols()) as u32
}

/// How many of the symbols are local.
fn local_count(symbols: &[Symbol<'_>]) -> usize
    ensures value { result ≡ length (filter (λ symbol. is_local (symbol_value symbol)) symbols.now) }
    ensures few { result ≤ length symbols.now }
{
    symbols
        .iter()
        .filter(|symbol| symbol.binding() == STB_LOCAL)
        .count()
}

/// The header of one of the object's own sections; `header` has its name, its offset and the size of its content.
fn own_header(placed: &PlacedObject<'_, '_>, position: usize, header: Shdr) -> Shdr
    requires { position < length placed.now.object.sections }
    ensures { let o = placed.now.object in let s = own_section o (section_at o position) in
        (name_at : List ℕ → ℕ) →
        header ≡ record no_section_header { sh_name = name_at s.name; sh_offset = header.sh_offset; sh_size = length s.content } →
        result ≡ section_header name_at s header.sh_offset }
{
    let section = object_section(placed, position);
    let symbol_table = placed.symbol_table_index() as u32;
    let header = Shdr {
        sh_type: section_type(&section.body),
        sh_flags: section.flags,
        sh_addr: section.addr,
        sh_addralign: section.align,
        sh_entsize: section.entsize,
        ..header
    };
    match &section.body {
        Body::Bits(..) => Shdr {
            sh_link: index_of(section.link),
            sh_info: own_info(section.info),
            ..header
        },
        Body::NoBits(size) => Shdr {
            sh_size: *size,
            sh_link: index_of(section.link),
            sh_info: own_info(section.info),
            ..header
        },
        Body::Relocs { target, .. } => Shdr {
            sh_link: symbol_table,
            sh_info: (*target + 1) as u32,
            ..header
        },
        Body::Group { signature, .. } => Shdr {
            sh_link: symbol_table,
            sh_info: (*signature + 1) as u32,
            ..header
        },
    }
}

/// `sh_type` of a body.
fn section_type(body: &Body<'_>) -> u32
    ensures { result ≡ body_type (body_value body.now) }
{
    match body {
        Body::Bits(section_type, _) => *section_type,
        Body::NoBits(_) => SHT_NOBITS,
        Body::Relocs { rela: true, .. } => SHT_RELA,
        Body::Relocs { rela: false, .. } => SHT_REL,
        Body::Group { .. } => SHT_GROUP,
    }
}

/// `sh_info` of a section whose body gives it no meaning.
fn own_info(info: Info) -> u32
    requires { index_of (info_position info) < 2 ^ 32 }
    ensures { result ≡ own_info info }
{
    match info {
        Info::Number(number) => number,
        Info::Section(position) => (position + 1) as u32,
    }
}
