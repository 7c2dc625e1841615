//! The content of each section of an object's canonical layout, onto a writer (gABI chapter 4, Sections).
ghost use Rattle.std.specs.Prelude.{◌≡◌, ◌<◌, ℕ, ◌^◌, ◌+◌, All, if◌then◌else◌, length, map, ◌≤◌, ◌*◌, ◌∷◌};
ghost use Rattle.elf_image_type.specs.WrittenFile.{long_number, short_count, short_index};
ghost use Rattle.elf_object_layout.specs.Laid.{index_of, index_word, shndx, group_words, rel_entry, rela_entry, relocation_info};
ghost use Rattle.elf_object_layout.specs.Laid.{null_symbol, symbol_entry, body_bytes, index_table_section, own_section, relocation_bytes};
ghost use Rattle.elf_object_layout.specs.Laid.{symbol_table_section};
ghost use Rattle.elf_object_type.specs.ObjectRules.{place_position};
ghost use Rattle.elf_field.specs.Abi.{GRP_COMDAT, SYM_SIZE};
ghost use Rattle.elf_object_type.specs.Object.{symbol_at, section_at};
ghost use Rattle.elf_object_type.specs.ObjectView.{symbol_value, body_value, section_value};
ghost use Rattle.elf_image_rules.specs.Rules.{MAX_LEN};
ghost use Rattle.elf_image_stream.specs.Output.{Writes};
ghost use Rattle.elf_object_writer.specs.PlacedObject.{HasShortIndexes, HasShortNumbers, plain_section};

use crate::placed_object::{LaidSection, PlacedObject, PlacedSection};
use elf_field::abi::*;
use elf_field::{Order, Rel, Rela, Sym};
use elf_image_outline::{Entries, write_entries};
use elf_image_stream::{WriteFault, write_whole};
use elf_object_layout::content_part;
use elf_object_type::{Body, Place, Relocation, Relocations, Section, Symbol};
use std::io::Write;

// Positions as the indexes that a file has for them (gABI chapter 4, Special Section Indexes, Symbol Table).

/// The index of a position that may be missing.
pub(crate) fn index_of(position: Option<usize>) -> u32
    requires { index_of position < 2 ^ 32 }
    ensures { result ≡ index_of position }
{
    match position {
        Some(position) => (position + 1) as u32,
        None => 0,
    }
}

/// A number that a field of 16 bits holds only if it is no reserved index; there it is 0.
pub(crate) fn short_count(count: usize) -> u16
    ensures { result ≡ short_count count }
{
    if count < SHN_LORESERVE as usize {
        count as u16
    } else {
        0
    }
}

/// An index that a field of 16 bits holds only if it is no reserved one.
pub(crate) fn short_index(index: usize) -> u16
    ensures { result ≡ short_index index }
{
    if index < SHN_LORESERVE as usize {
        index as u16
    } else {
        SHN_XINDEX
    }
}

/// What another field holds of such a number: only one that the field of 16 bits doesn't.
pub(crate) fn long_number(number: usize) -> u32
    requires { number < 2 ^ 32 }
    ensures { result ≡ long_number number }
{
    if number < SHN_LORESERVE as usize {
        0
    } else {
        number as u32
    }
}

/// `st_shndx` of a symbol.
pub(crate) fn shndx(place: Place) -> u16
    requires { index_of (place_position place) < 2 ^ 32 }
    ensures { result ≡ shndx place }
{
    match place {
        Place::Undef => SHN_UNDEF,
        Place::Abs => SHN_ABS,
        Place::Common => SHN_COMMON,
        Place::In(position) => short_index(position + 1),
    }
}

/// The word of the index table for a symbol.
pub(crate) fn index_word(place: Place) -> u32
    requires { index_of (place_position place) < 2 ^ 32 }
    ensures { result ≡ index_word place }
{
    match place {
        Place::In(position) => long_number(position + 1),
        _ => 0,
    }
}

// The entries of relocation sections and of section groups (gABI chapter 4, Relocation, Section Groups).

/// The entries of a section of type `SHT_RELA`.
#[derive(Drop)]
pub(crate) struct RelaEntries<'s> {
    pub(crate) entries: &'s Relocations<'s>,
}

/// The entries of a section of type `SHT_REL`.
#[derive(Drop)]
pub(crate) struct RelEntries<'s> {
    pub(crate) entries: &'s Relocations<'s>,
}

/// The words of a section group: its flags, and the section indexes of its members.
#[derive(Drop)]
pub(crate) struct GroupWords<'s> {
    pub(crate) comdat: bool,
    pub(crate) members: &'s [usize],
}

impl<'s> Entries for RelaEntries<'s> {
    type Entry = Rela;

    ghost entries = { λ s. map rela_entry s.entries.now };

    ghost fit = { λ s. All (λ entry. index_of entry.symbol < 2 ^ 32) s.entries.now };

    fn count(&self) -> usize {
        self.entries.len()
    }

    fn entry(&self, index: usize) -> Rela {
        rela_entry(self.entries.entry(index))
    }
}

impl<'s> Entries for RelEntries<'s> {
    type Entry = Rel;

    ghost entries = { λ s. map rel_entry s.entries.now };

    ghost fit = { λ s. All (λ entry. index_of entry.symbol < 2 ^ 32) s.entries.now };

    fn count(&self) -> usize {
        self.entries.len()
    }

    fn entry(&self, index: usize) -> Rel {
        rel_entry(self.entries.entry(index))
    }
}

impl<'s> Entries for GroupWords<'s> {
    type Entry = u32;

    ghost entries = { λ s. group_words s.comdat s.members.now };

    ghost fit = { λ s. All (λ member. member + 1 < 2 ^ 32) s.members.now };

    fn count(&self) -> usize {
        self.members.len() + 1
    }

    fn entry(&self, index: usize) -> u32 {
        if index == 0 {
            group_flags(self.comdat)
        } else {
            (self.members[index - 1] + 1) as u32
        }
    }
}

/// The flags word of a group.
fn group_flags(comdat: bool) -> u32
    ensures { result ≡ (if comdat then GRP_COMDAT else 0) }
{
    if comdat { GRP_COMDAT } else { 0 }
}

/// `r_info`: the symbol's index above the type.
fn relocation_info(relocation: Relocation) -> u64
    requires { index_of relocation.symbol < 2 ^ 32 }
    ensures { result ≡ relocation_info relocation }
{
    index_of(relocation.symbol) as u64 * (1 << 32) + relocation.kind as u64
}

fn rela_entry(relocation: Relocation) -> Rela
    requires { index_of relocation.symbol < 2 ^ 32 }
    ensures { result ≡ rela_entry relocation }
{
    Rela {
        r_offset: relocation.offset,
        r_info: relocation_info(relocation),
        r_addend: relocation.addend,
    }
}

fn rel_entry(relocation: Relocation) -> Rel
    requires { index_of relocation.symbol < 2 ^ 32 }
    ensures { result ≡ rel_entry relocation }
{
    Rel {
        r_offset: relocation.offset,
        r_info: relocation_info(relocation),
    }
}

// The symbol table of an object, and its index table, entry by entry (gABI chapter 4, Symbol Table).

/// The entries of `.symtab`.
#[derive(Drop)]
pub(crate) struct SymbolEntries<'p, 'o, 'a> {
    pub(crate) placed: &'p PlacedObject<'o, 'a>,
}

/// The words of `.symtab_shndx`.
#[derive(Drop)]
pub(crate) struct IndexWords<'p, 'o, 'a> {
    pub(crate) placed: &'p PlacedObject<'o, 'a>,
}

impl<'p, 'o, 'a> Entries for SymbolEntries<'p, 'o, 'a> {
    type Entry = Sym;

    ghost entries = { λ s. null_symbol ∷ map (symbol_entry s.placed.now.object) s.placed.now.object.symbols };

    ghost fit = { λ _. Unit {0} };

    fn count(&self) -> usize {
        symbol_count(self.placed) + 1
    }

    fn entry(&self, index: usize) -> Sym {
        if index == 0 {
            null_symbol()
        } else {
            symbol_entry(self.placed, index - 1)
        }
    }
}

impl<'p, 'o, 'a> Entries for IndexWords<'p, 'o, 'a> {
    type Entry = u32;

    ghost entries = { λ s. 0 ∷ map (λ symbol. index_word symbol.place) s.placed.now.object.symbols };

    ghost fit = { λ _. Unit {0} };

    fn count(&self) -> usize {
        symbol_count(self.placed) + 1
    }

    fn entry(&self, index: usize) -> u32 {
        if index == 0 {
            0
        } else {
            symbol_index_word(self.placed, index - 1)
        }
    }
}

/// How many symbols there are.
#[tactic(auto, using(crate::proofs::HeaderTables::counted_symbols))]
pub(crate) fn symbol_count(placed: &PlacedObject<'_, '_>) -> usize
    ensures value { result ≡ length placed.now.object.symbols }
    ensures few { SYM_SIZE * (result + 1) ≤ MAX_LEN }
{
    placed.prove_placed();
    placed.object().symbols().len()
}

/// Proves that the symbol table fits a file, so that the number of its symbols fits each field.
pub(crate) fn prove_few_symbols(placed: &PlacedObject<'_, '_>)
    ensures { SYM_SIZE * (length placed.now.object.symbols + 1) ≤ MAX_LEN }
{
    let _ = symbol_count(placed);
}

/// The symbol at this position, which is in a section that is there where it is in one.
#[tactic(auto, using(crate::proofs::HeaderTables::near_place))]
fn symbol<'a>(placed: &PlacedObject<'_, 'a>, position: usize) -> Symbol<'a>
    requires { position < length placed.now.object.symbols }
    ensures value { symbol_value result ≡ symbol_at placed.now.object position }
    ensures place { index_of (place_position result.place) < 2 ^ 32 }
{
    placed.prove_placed();
    placed.object().symbols()[position]
}

fn null_symbol() -> Sym
    ensures { result ≡ null_symbol }
{
    Sym {
        st_name: 0,
        st_info: 0,
        st_other: 0,
        st_shndx: SHN_UNDEF,
        st_value: 0,
        st_size: 0,
    }
}

fn symbol_entry(placed: &PlacedObject<'_, '_>, position: usize) -> Sym
    requires { position < length placed.now.object.symbols }
    ensures { result ≡ symbol_entry placed.now.object (symbol_at placed.now.object position) }
{
    let symbol = symbol(placed, position);
    Sym {
        st_name: placed.symbol_name(position),
        st_info: symbol.info,
        st_other: symbol.other,
        st_shndx: shndx(symbol.place),
        st_value: symbol.value,
        st_size: symbol.size,
    }
}

fn symbol_index_word(placed: &PlacedObject<'_, '_>, position: usize) -> u32
    requires { position < length placed.now.object.symbols }
    ensures { result ≡ index_word (symbol_at placed.now.object position).place }
{
    index_word(symbol(placed, position).place)
}

impl<'p, 'o, 'a> LaidSection<'p, 'o, 'a> {
    /// Writes its content, or exactly the first `written` bytes of it, fewer than all, and a fault.
    pub(crate) fn write_content<W: Write>(&self, writer: &mut W) -> Result<(), WriteFault>
        ensures { Writes (W.contents writer.old) (W.contents writer.new)
            (plain_section self.now.placed.now.object self.now.section).content result }
    {
        let placed = self.placed;
        match self.section {
            PlacedSection::Own(position) => {
                let section = object_section(placed, position);
                write_body(placed.object().order(), &section.body, writer)
            }
            PlacedSection::SymbolTable => write_symbols(placed, writer),
            PlacedSection::IndexTable => write_index_table(placed, writer),
            PlacedSection::Strings => write_whole(writer, placed.strings()),
            PlacedSection::Names => write_whole(writer, placed.names()),
        }
    }

    /// The size of its content in the file.
    pub(crate) fn content_size(&self) -> u64
        ensures { result ≡ length (plain_section self.now.placed.now.object self.now.section).content }
    {
        let placed = self.placed;
        match self.section {
            PlacedSection::Own(position) => content_part(object_section(placed, position)).0,
            PlacedSection::SymbolTable => SYM_SIZE * (symbol_count(placed) as u64 + 1),
            PlacedSection::IndexTable => WORD_SIZE * (symbol_count(placed) as u64 + 1),
            PlacedSection::Strings => placed.strings().len() as u64,
            PlacedSection::Names => placed.names().len() as u64,
        }
    }
}

fn write_symbols<W: Write>(placed: &PlacedObject<'_, '_>, writer: &mut W) -> Result<(), WriteFault>
    ensures { Writes (W.contents writer.old) (W.contents writer.new) (symbol_table_section placed.now.object).content result }
{
    prove_few_symbols(placed);
    write_entries(writer, placed.object().order(), &SymbolEntries { placed })
}

fn write_index_table<W: Write>(
    placed: &PlacedObject<'_, '_>,
    writer: &mut W,
) -> Result<(), WriteFault>
    ensures { Writes (W.contents writer.old) (W.contents writer.new) (index_table_section placed.now.object).content result }
{
    prove_few_symbols(placed);
    write_entries(writer, placed.object().order(), &IndexWords { placed })
}

/// One of the object's own sections, whose numbers fit the fields that hold them.
pub(crate) fn object_section<'o, 'a>(
    placed: &PlacedObject<'o, 'a>,
    position: usize,
) -> &'o Section<'a>
    requires { position < length placed.now.object.sections }
    ensures value { section_value result.now ≡ section_at placed.now.object position }
    ensures fits { HasShortNumbers placed.now.object (section_value result.now) }
{
    placed.prove_placed();
    &placed.object().sections()[position]
}

fn write_body<W: Write>(order: Order, body: &Body<'_>, writer: &mut W) -> Result<(), WriteFault>
    requires indexes { HasShortIndexes (body_value body.now) }
    requires short { length (body_bytes order (body_value body.now)) ≤ MAX_LEN }
    ensures { Writes (W.contents writer.old) (W.contents writer.new) (body_bytes order (body_value body.now)) result }
{
    match body {
        Body::Bits(_, content) => write_whole(writer, content),
        Body::NoBits(_) => Ok(()),
        Body::Relocs { rela, entries, .. } => write_relocations(order, *rela, entries, writer),
        Body::Group {
            comdat,
            members,
            ..
        } => {
            let words = GroupWords {
                comdat: *comdat,
                members,
            };
            write_entries(writer, order, &words)
        }
    }
}

/// Writes relocations: as they were read, where they stay a table in the byte order and of the type of the section.
#[tactic(auto, using(crate::proofs::Going::relocations_back))]
fn write_relocations<W: Write>(
    order: Order,
    rela: bool,
    entries: &Relocations<'_>,
    writer: &mut W,
) -> Result<(), WriteFault>
    requires indexes { All (λ entry. index_of entry.symbol < 2 ^ 32) entries.now }
    requires short { length (relocation_bytes order rela entries.now) ≤ MAX_LEN }
    ensures { Writes (W.contents writer.old) (W.contents writer.new) (relocation_bytes order rela entries.now) result }
{
    match entries.table(order, rela) {
        Some(table) => write_whole(writer, table),
        None => write_each_relocation(order, rela, entries, writer),
    }
}

/// Writes relocations one after the other.
fn write_each_relocation<W: Write>(
    order: Order,
    rela: bool,
    entries: &Relocations<'_>,
    writer: &mut W,
) -> Result<(), WriteFault>
    requires indexes { All (λ entry. index_of entry.symbol < 2 ^ 32) entries.now }
    requires short { length (relocation_bytes order rela entries.now) ≤ MAX_LEN }
    ensures { Writes (W.contents writer.old) (W.contents writer.new) (relocation_bytes order rela entries.now) result }
{
    if rela {
        write_entries(writer, order, &RelaEntries { entries })
    } else {
        write_entries(writer, order, &RelEntries { entries })
    }
}
