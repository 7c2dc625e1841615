//! An object with all that its canonical layout takes memory for (gABI chapter 4, ELF Header, Sections, String Table).
ghost use Rattle.std.specs.Prelude.{◌≡◌, ◌<◌, ℕ, ◌+◌, ◌^◌, [], get_or, length, slice_index, IfErr, IfOk};
ghost use Rattle.elf_object_layout.specs.Laid.{IsLayoutFault, name_table_at, plain_sections, section_names, strings_at, symbol_names};
ghost use Rattle.elf_object_layout.specs.Laid.{symbol_table_at};
ghost use Rattle.elf_object_writer.specs.PlacedObject.{IsPlacedObject, IsSectionAt, IsThere, is_there_prop};
ghost use Rattle.elf_object_strings.specs.StringTable.{name_offset, string_table};

use elf_object_layout::{Layout, LayoutFault, NameTables, lay_out_with};
use elf_object_type::Object;
use std::alloc::Global;
use std::marker::Model;

// The sections of an object's canonical layout (gABI chapter 4, Sections).

/// A section, by what it is.
#[derive(Clone, Copy)]
pub(crate) enum PlacedSection {
    /// The object's own section of this position.
    Own(usize),
    /// `.symtab`.
    SymbolTable,
    /// `.symtab_shndx`, the index table of the symbols.
    IndexTable,
    /// `.strtab`, the names of the symbols.
    Strings,
    /// `.shstrtab`, the names of the sections.
    Names,
}

/// An object, its string tables and its layout.
#[derive(Drop)]
pub(crate) struct PlacedObject<'o, 'a> {
    object: &'o Object<'a>,
    tables: NameTables,
    layout: Layout,
}

impl<'o, 'a> Model for PlacedObject<'o, 'a> {
    ghost use Rattle.elf_object_writer.specs.PlacedObject.{IsPlacedWith, PlacedValue};

    ghost Value = { PlacedValue };

    ghost view = { λ a. record { object = a.object.now; layout = a.layout } };

    ghost invariant = { λ a. IsPlacedWith a.tables (record { object = a.object.now; layout = a.layout }) };
}

impl<'o, 'a> PlacedObject<'o, 'a> {
    /// The object in its layout. All the memory that is needed is taken here.
    pub(crate) fn new(
        alloc: Global,
        object: &'o Object<'a>,
    ) -> Result<PlacedObject<'o, 'a>, LayoutFault>
        ensures ok { IfOk result (λ placed. placed.object ≡ object.now) }
        ensures err { IfErr result (IsLayoutFault object.now) }
    {
        object.prove_rules();
        let tables = NameTables::new(alloc, object)?;
        match lay_out_with(alloc, object, &tables) {
            Ok(layout) => Ok(PlacedObject {
                object,
                tables,
                layout,
            }),
            Err(fault) => Err(fault),
        }
    }

    /// Proves that the layout is the object's: a method of another type does not see the invariant of a field.
    pub(crate) fn prove_placed(&self)
        ensures { IsPlacedObject self.now }
    {
        let _ = &self.layout;
    }

    pub(crate) fn object(&self) -> &'o Object<'a>
        ensures { result.now ≡ self.now.object }
    {
        self.object
    }

    /// The bytes of `.strtab`.
    pub(crate) fn strings(&self) -> &[u8]
        ensures { result.now ≡ string_table (symbol_names self.now.object) }
    {
        &self.tables.strings.bytes
    }

    /// The bytes of `.shstrtab`.
    pub(crate) fn names(&self) -> &[u8]
        ensures { result.now ≡ string_table (section_names self.now.object) }
    {
        &self.tables.names.bytes
    }

    /// `st_name` of the symbol of this position.
    pub(crate) fn symbol_name(&self, position: usize) -> u32
        requires { position < length self.now.object.symbols }
        ensures { let names = symbol_names self.now.object in result ≡ name_offset names (get_or names position []) }
    {
        self.tables.strings.offsets[position] as u32
    }

    /// `sh_name` of the section of this position in the layout.
    pub(crate) fn section_name(&self, position: usize) -> u32
        requires { position < length (plain_sections self.now.object) }
        ensures { let names = section_names self.now.object in result ≡ name_offset names (get_or names position []) }
    {
        self.tables.names.offsets[position] as u32
    }

    /// How many of the sections are the object's own, which come first.
    pub(crate) fn own_count(&self) -> usize
        ensures { result ≡ length self.now.object.sections }
    {
        self.object.sections().len()
    }

    /// How many sections there are, from section index 1 on.
    #[tactic(auto, using(elf_object_layout::proofs::Public::few_sections))]
    pub(crate) fn section_count(&self) -> usize
        ensures value { result ≡ length (plain_sections self.now.object) }
        ensures few { result < 2 ^ 24 }
    {
        self.prove_placed();
        self.layout.section_count() - 1
    }

    /// Proves that the section indexes fit 31 bits.
    fn prove_few_sections(&self)
        ensures { length (plain_sections self.now.object) < 2 ^ 24 }
    {
        let _ = self.section_count();
    }

    /// How many section headers there are.
    pub(crate) fn header_count(&self) -> usize
        ensures value { result ≡ length (plain_sections self.now.object) + 1 }
        ensures few { result < 2 ^ 31 }
    {
        self.section_count() + 1
    }

    /// The section index of `.symtab`.
    #[tactic(auto, using(elf_object_layout::proofs::Public::own_below))]
    pub(crate) fn symbol_table_index(&self) -> usize
        ensures value { result ≡ symbol_table_at self.now.object }
        ensures few { result < 2 ^ 31 }
    {
        self.prove_few_sections();
        self.own_count() + 1
    }

    /// The section index of `.strtab`.
    pub(crate) fn strings_index(&self) -> usize
        ensures value { result ≡ strings_at self.now.object }
        ensures few { result < 2 ^ 31 }
    {
        self.names_index() - 1
    }

    /// The section index of `.shstrtab`, which is the last one.
    #[tactic(auto, using(elf_object_layout::proofs::Public::names_at_is))]
    pub(crate) fn names_index(&self) -> usize
        ensures value { result ≡ name_table_at self.now.object }
        ensures few { result < 2 ^ 31 }
    {
        self.section_count()
    }

    /// Where the content of the section of this position in the layout begins.
    pub(crate) fn place(&self, position: usize) -> u64
        requires { position < length (plain_sections self.now.object) }
        ensures { result ≡ slice_index self.now.layout.places position }
    {
        self.prove_few_sections();
        self.layout.offset(position + 1)
    }

    /// Where the section header table begins.
    pub(crate) fn table(&self) -> u64
        ensures { result ≡ slice_index self.now.layout.places (length (plain_sections self.now.object)) }
    {
        self.layout.table()
    }

    /// The section of this position in the layout.
    pub(crate) fn section(&self, position: usize) -> PlacedSection
        requires { position < length (plain_sections self.now.object) }
        ensures { IsSectionAt self.now.object position result }
    {
        let own = self.own_count();
        let count = self.section_count();
        if position < own {
            PlacedSection::Own(position)
        } else if position == own {
            PlacedSection::SymbolTable
        } else if position + 1 == count {
            PlacedSection::Names
        } else if position + 2 == count {
            PlacedSection::Strings
        } else {
            PlacedSection::IndexTable
        }
    }
}

// A section of an object's canonical layout, with the object.

/// A section of an object in its layout, which is there.
#[derive(Drop)]
pub(crate) struct LaidSection<'p, 'o, 'a> {
    pub placed: &'p PlacedObject<'o, 'a>,
    pub section: PlacedSection,
    ghost there: { IsThere placed.now.object section } by { is_there_prop placed.now.object _ },
}
