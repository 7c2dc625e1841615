//! The parts that an object is made from.
ghost use Rattle.std.specs.Prelude.{◌≡◌, map};
ghost use Rattle.std.specs.List.{AllByRecursion};
ghost use Rattle.elf_object_type.specs.Object.{binding as binding_of, symbol_type as symbol_type_of, BodyFits, InfoFits, ObjectFits};
ghost use Rattle.elf_object_type.specs.Object.{SectionFits, SymbolFits};
ghost use Rattle.elf_object_type.specs.ObjectView.{symbol_value, body_value, section_value, value_of};
ghost use Rattle.elf_field.specs.Bytes.{IsBytes};

use crate::relocations::Relocations;
use elf_field::Order;
use std::alloc::AllocError;

// A symbol of an object (gABI chapter 4, Symbol Table).

/// Where a symbol is defined.
#[derive(Clone, Copy, Debug, PartialEq, Eq)]
pub enum Place {
    /// Nowhere in this object (`SHN_UNDEF`).
    Undef,
    /// Nowhere: its value is absolute (`SHN_ABS`).
    Abs,
    /// In a common block that has no place yet (`SHN_COMMON`).
    Common,
    /// In the section of this position.
    In(usize),
}

/// A symbol. Its name borrows from the bytes that it was read from.
#[derive(Clone, Copy, Debug, PartialEq, Eq)]
pub struct Symbol<'a> {
    /// The name, without a closing zero.
    pub name: &'a [u8],
    /// `st_info`: the binding in the upper four bits, the type in the lower four.
    pub info: u8,
    /// `st_other`: visibility; kept, never interpreted.
    pub other: u8,
    /// Where it is defined.
    pub place: Place,
    /// An offset in its section, an absolute value, or the alignment of a common symbol.
    pub value: u64,
    /// Size in bytes, 0 if it is unknown or there is none.
    pub size: u64,
}

impl Symbol<'_> {
    /// The symbol's binding (`ELF64_ST_BIND`): 0 local, 1 global, 2 weak.
    pub fn binding(&self) -> u8
        ensures { result ≡ binding_of (symbol_value self.now) }
    {
        self.info / 16
    }

    /// The symbol's type (`ELF64_ST_TYPE`).
    pub fn symbol_type(&self) -> u8
        ensures { result ≡ symbol_type_of (symbol_value self.now) }
    {
        self.info % 16
    }
}

// A section of an object (gABI chapter 4, Sections).

/// What `sh_info` says of a section whose body gives it no meaning.
#[derive(Clone, Copy, Debug, PartialEq, Eq)]
pub enum Info {
    /// A number.
    Number(u32),
    /// The position of a section, where the section has the flag `SHF_INFO_LINK`.
    Section(usize),
}

/// What a section holds.
#[derive(Debug, PartialEq, Eq, Drop)]
pub enum Body<'a> {
    /// A section type and bytes that mean nothing here.
    Bits(u32, &'a [u8]),
    /// No bytes in the file, and so many in memory (`SHT_NOBITS`).
    NoBits(u64),
    /// Relocations of the section at position `target`: with addends (`SHT_RELA`) or without (`SHT_REL`).
    Relocs {
        /// Whether the entries have addends.
        rela: bool,
        /// The position of the section that they apply to.
        target: usize,
        /// The relocations, in order.
        entries: Relocations<'a>,
    },
    /// A section group (`SHT_GROUP`), by the positions of its signature symbol and of its member sections.
    Group {
        /// Whether it is a COMDAT group (`GRP_COMDAT`).
        comdat: bool,
        /// The position of the symbol whose name reports the group.
        signature: usize,
        /// The positions of its sections.
        members: Vec<usize>,
    },
}

impl Clone for Body<'_> {
    ghost is_clone = { λ body copy. body_value copy ≡ body_value body };

    /// The same body. A list of relocations and the members of a group take memory, which [`AllocError`] refuses.
    fn clone(&self) -> Result<Self, AllocError> {
        match self {
            Body::Bits(section_type, content) => Ok(Body::Bits(*section_type, content)),
            Body::NoBits(size) => Ok(Body::NoBits(*size)),
            Body::Relocs {
                rela,
                target,
                entries,
            } => Ok(Body::Relocs {
                rela: *rela,
                target: *target,
                entries: entries.clone()?,
            }),
            Body::Group {
                comdat,
                signature,
                members,
            } => Ok(Body::Group {
                comdat: *comdat,
                signature: *signature,
                members: members.clone()?,
            }),
        }
    }
}

/// A section. Its name and bytes borrow from where they were read.
#[derive(Debug, PartialEq, Eq, Drop)]
pub struct Section<'a> {
    /// The name, without a closing zero.
    pub name: &'a [u8],
    /// `sh_flags`, `SHF_WRITE` and the like.
    pub flags: u64,
    /// The address, 0 if it has none yet.
    pub addr: u64,
    /// The alignment: 0 for none, or a power of two.
    pub align: u64,
    /// The size of the entries of a table, 0 if the section holds none.
    pub entsize: u64,
    /// The position of the section that `sh_link` names, where the body gives it no other meaning.
    pub link: Option<usize>,
    /// What `sh_info` says, where the body gives it no other meaning.
    pub info: Info,
    /// What the section holds.
    pub body: Body<'a>,
}

impl Clone for Section<'_> {
    ghost is_clone = { λ section copy. section_value copy ≡ section_value section };

    /// The same section. Its body takes memory where [`Body`]'s clone does, which [`AllocError`] refuses.
    fn clone(&self) -> Result<Self, AllocError> {
        let body = self.body.clone()?;
        Ok(Section {
            name: self.name,
            flags: self.flags,
            addr: self.addr,
            align: self.align,
            entsize: self.entsize,
            link: self.link,
            info: self.info,
            body,
        })
    }
}

/// All that an object holds, not yet validated: [`Object::new`](crate::Object::new) makes an object of it.
#[derive(Debug, PartialEq, Eq, Drop)]
pub struct ObjectParts<'a> {
    /// The byte order of the file.
    pub order: Order,
    /// `EI_OSABI`: the extensions that the file uses.
    pub osabi: u8,
    /// `EI_ABIVERSION`: their version.
    pub abi: u8,
    /// `e_machine`: the processor.
    pub machine: u16,
    /// `e_flags`: flags of the processor.
    pub flags: u32,
    /// The sections; a section's position is its index here, from 0.
    pub sections: Vec<Section<'a>>,
    /// The symbols; a symbol's position is its index here, from 0.
    pub symbols: Vec<Symbol<'a>>,
}

// The numbers of an object fit the fields of a file that hold them, since their types do (gABI chapter 4, Data Representation).
// These functions prove that for [`Object`](crate::Object)'s invariant: a proof has the range of a number once the code reads it.

pub(crate) fn prove_parts(parts: &ObjectParts<'_>)
    ensures { ObjectFits (value_of parts.now) }
{
    let _osabi = parts.osabi;
    let _abi = parts.abi;
    let _machine = parts.machine;
    let _flags = parts.flags;
    prove_sections(&parts.sections);
    prove_symbols(&parts.symbols);
}

fn prove_sections(sections: &[Section<'_>])
    ensures { AllByRecursion SectionFits (map section_value sections.now) }
{
    for section in sections {
        prove_section(section);
    }
}

fn prove_section(section: &Section<'_>)
    ensures { SectionFits (section_value section.now) }
{
    let _flags = section.flags;
    let _addr = section.addr;
    let _align = section.align;
    let _entsize = section.entsize;
    prove_bytes(section.name);
    prove_info(section.info);
    prove_body(&section.body);
}

fn prove_info(info: Info)
    ensures { InfoFits info }
{
    match info {
        Info::Number(_number) => {}
        Info::Section(_) => {}
    }
}

fn prove_body(body: &Body<'_>)
    ensures { BodyFits (body_value body.now) }
{
    match body {
        Body::Bits(section_type, content) => {
            let _number = *section_type;
            prove_bytes(content);
        }
        Body::NoBits(size) => {
            let _number = *size;
        }
        Body::Relocs { entries, .. } => entries.prove_fits(),
        Body::Group { .. } => {}
    }
}

fn prove_symbols(symbols: &[Symbol<'_>])
    ensures { AllByRecursion SymbolFits (map symbol_value symbols.now) }
{
    for symbol in symbols {
        prove_symbol(symbol);
    }
}

fn prove_symbol(symbol: &Symbol<'_>)
    ensures { SymbolFits (symbol_value symbol.now) }
{
    let _info = symbol.info;
    let _other = symbol.other;
    let _value = symbol.value;
    let _size = symbol.size;
    prove_bytes(symbol.name);
}

pub(crate) fn prove_bytes(bytes: &[u8])
    ensures { IsBytes bytes.now }
{
    let _ = bytes;
}
