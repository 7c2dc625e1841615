//! Sections and symbols with their new positions.
ghost use Rattle.std.specs.Prelude.{◌≡◌, IfOk, map};
ghost use Rattle.elf_object_edit.specs.Without.{moved_body, moved_info, moved_place, moved_relocation, moved_section, moved_symbol};
ghost use Rattle.elf_object_edit.specs.Without.{new_position, staying, with_staying};
ghost use Rattle.elf_object_type.specs.Object.{section_at as section_of, symbol_at as symbol_of};
ghost use Rattle.elf_object_type.specs.ObjectView.{body_value, section_value, symbol_value, value_of};

use crate::references::{Edit, section_at, symbol_at};
use elf_object_type::{Body, Info, ObjectParts, Place, Relocation, Relocations, Section, Symbol};
use std::alloc::{AllocError, Global};

impl<'o, 'a> Edit<'o, 'a> {
    fn moved_info(&self, info: Info) -> Info
        ensures { result ≡ moved_info self.now.sections.marks.items info }
    {
        match info {
            Info::Number(number) => Info::Number(number),
            Info::Section(p) => Info::Section(self.sections.position(p)),
        }
    }

    fn moved_place(&self, place: Place) -> Place
        ensures { result ≡ moved_place self.now.sections.marks.items place }
    {
        match place {
            Place::Undef => Place::Undef,
            Place::Abs => Place::Abs,
            Place::Common => Place::Common,
            Place::In(p) => Place::In(self.sections.position(p)),
        }
    }

    fn moved_relocation(&self, relocation: Relocation) -> Relocation
        ensures { result ≡ moved_relocation self.now.symbols.marks.items relocation }
    {
        Relocation {
            offset: relocation.offset,
            symbol: self.symbols.reference(relocation.symbol),
            kind: relocation.kind,
            addend: relocation.addend,
        }
    }

    fn moved_relocations(
        &self,
        alloc: Global,
        entries: &Relocations<'_>,
    ) -> Result<Relocations<'a>, AllocError>
        ensures { IfOk result (λ moved. moved ≡ map (moved_relocation self.now.symbols.marks.items) entries.now) }
    {
        let moved: Vec<Relocation> = entries
            .iter()
            .map(|relocation| self.moved_relocation(relocation))
            .collect(alloc)?;
        Ok(Relocations::from(moved))
    }

    fn moved_members(&self, alloc: Global, members: &[usize]) -> Result<Vec<usize>, AllocError>
        ensures { IfOk result (λ moved. moved.items ≡ map (new_position self.now.sections.marks.items) members.now) }
    {
        members
            .iter()
            .map(|member| self.sections.position(*member))
            .collect(alloc)
    }

    fn moved_body(&self, alloc: Global, body: &Body<'a>) -> Result<Body<'a>, AllocError>
        ensures { IfOk result (λ moved.
            body_value moved ≡ moved_body self.now.sections.marks.items self.now.symbols.marks.items (body_value body.now)) }
    {
        match body {
            Body::Bits(section_type, content) => Ok(Body::Bits(*section_type, content)),
            Body::NoBits(size) => Ok(Body::NoBits(*size)),
            Body::Relocs {
                rela,
                target,
                entries,
            } => Ok(Body::Relocs {
                rela: *rela,
                target: self.sections.position(*target),
                entries: self.moved_relocations(alloc, entries)?,
            }),
            Body::Group {
                comdat,
                signature,
                members,
            } => Ok(Body::Group {
                comdat: *comdat,
                signature: self.symbols.position(*signature),
                members: self.moved_members(alloc, members)?,
            }),
        }
    }

    fn moved_section(&self, alloc: Global, section: &Section<'a>) -> Result<Section<'a>, AllocError>
        ensures { IfOk result (λ moved.
            section_value moved ≡ moved_section self.now.sections.marks.items self.now.symbols.marks.items (section_value section.now)) }
    {
        let body = self.moved_body(alloc, &section.body)?;
        Ok(Section {
            name: section.name,
            flags: section.flags,
            addr: section.addr,
            align: section.align,
            entsize: section.entsize,
            link: self.sections.reference(section.link),
            info: self.moved_info(section.info),
            body,
        })
    }

    fn moved_symbol(&self, symbol: &Symbol<'a>) -> Symbol<'a>
        ensures { symbol_value result ≡ moved_symbol self.now.sections.marks.items (symbol_value symbol.now) }
    {
        Symbol {
            name: symbol.name,
            info: symbol.info,
            other: symbol.other,
            place: self.moved_place(symbol.place),
            value: symbol.value,
            size: symbol.size,
        }
    }

    /// The sections that stay.
    fn kept_sections(&self, alloc: Global) -> Result<Vec<Section<'a>>, AllocError>
        ensures { let sections = self.now.sections.marks.items in
            let symbols = self.now.symbols.marks.items in
            IfOk result (λ read. map section_value read.items ≡
            map (λ p. moved_section sections symbols (section_of self.now.object.now p)) (staying sections)) }
    {
        let mut read = Vec::new(alloc);
        for i in 0..self.object.sections().len() {
            if self.sections.stays(i) {
                let section = self.moved_section(alloc, section_at(self.object, i))?;
                read.push(section)?;
            }
        }
        Ok(read)
    }

    /// The symbols that stay.
    fn kept_symbols(&self, alloc: Global) -> Result<Vec<Symbol<'a>>, AllocError>
        ensures { let sections = self.now.sections.marks.items in
            let symbols = self.now.symbols.marks.items in
            IfOk result (λ read. map symbol_value read.items ≡
            map (λ k. moved_symbol sections (symbol_of self.now.object.now k)) (staying symbols)) }
    {
        let mut read = Vec::new(alloc);
        for i in 0..self.object.symbols().len() {
            if self.symbols.stays(i) {
                read.push(self.moved_symbol(symbol_at(self.object, i)))?;
            }
        }
        Ok(read)
    }

    /// The parts of the object that stay, with their new positions.
    pub(crate) fn parts(&self, alloc: Global) -> Result<ObjectParts<'a>, AllocError>
        ensures { IfOk result (λ parts. value_of parts ≡
            with_staying self.now.object.now self.now.sections.marks.items self.now.symbols.marks.items) }
    {
        let sections = self.kept_sections(alloc)?;
        let symbols = self.kept_symbols(alloc)?;
        Ok(ObjectParts {
            order: self.object.order(),
            osabi: self.object.osabi(),
            abi: self.object.abi(),
            machine: self.object.machine(),
            flags: self.object.flags(),
            sections,
            symbols,
        })
    }
}
