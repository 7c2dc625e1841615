//! The sections of a file as those of an object (gABI chapter 4, Sections, Relocation, Section Groups).
ghost use Rattle.std.specs.Prelude.{◌≡◌, ◌<◌, IfOk, length, map, true};
ghost use Rattle.elf_object_layout.specs.SectionsLeftOut.{is_kept};
ghost use Rattle.elf_object_reader.specs.Denotes.{body_denoted, info_denoted, link_denoted, plain_info as plain_info_of};
ghost use Rattle.elf_object_reader.specs.Denotes.{relocation_denoted, section_denoted, section_name_of, body_kind, kept, position_of};
ghost use Rattle.elf_object_reader.specs.FileRules.{sections_of_file};
ghost use Rattle.elf_object_type.specs.ObjectView.{body_value, section_value};
ghost use Rattle.elf_table_lists.specs.Groups.{group_of};
ghost use Rattle.elf_table_lists.specs.Relocations.{relocations_of};
ghost use Rattle.elf_object_reader.specs.declared.object_file.BodyKind.TheVariants as kind;

use crate::object_file::BodyKind;
use crate::reading::{KeptSection, ObjectReader};
use elf_field::abi::*;
use elf_object_type::{Body, Info, Relocations, Section};
use elf_table_all::Group;
use std::alloc::{AllocError, Global};

impl<'r, 'i, 'a> KeptSection<'r, 'i, 'a> {
    /// The section's name.
    fn name(&self) -> &'a [u8]
        ensures { result.now ≡ section_name_of (sections_of_file self.now.reader.now.file) self.now.index }
    {
        self.reader.names.string(self.header.sh_name)
    }

    /// What it links to.
    fn link(&self, kind: BodyKind) -> Option<usize>
        ensures { let file = self.now.reader.now.file in result ≡ link_denoted file.left (sections_of_file file) self.now.header kind }
    {
        match kind {
            BodyKind::Bits | BodyKind::NoBits => {
                self.reader.reference_at(self.header.sh_link as usize)
            }
            BodyKind::Relocs | BodyKind::Group => None,
        }
    }

    /// The section's info, where it has neither relocations nor members.
    fn plain_info(&self) -> Info
        ensures { let file = self.now.reader.now.file in result ≡ plain_info_of file.left (sections_of_file file) self.now.header }
    {
        if self.header.sh_flags & SHF_INFO_LINK == 0 {
            Info::Number(self.header.sh_info)
        } else {
            Info::Section(self.reader.position_at(self.header.sh_info as usize))
        }
    }

    /// The section's info.
    fn info(&self, kind: BodyKind) -> Info
        ensures { let file = self.now.reader.now.file in result ≡ info_denoted file.left (sections_of_file file) self.now.header kind }
    {
        match kind {
            BodyKind::Bits | BodyKind::NoBits => self.plain_info(),
            BodyKind::Relocs | BodyKind::Group => Info::Number(0),
        }
    }

    /// The section's relocations, which stay the bytes that they are in the file.
    fn relocations(&self) -> Relocations<'a>
        ensures { result ≡ map relocation_denoted (relocations_of (sections_of_file self.now.reader.now.file) self.now.index) }
    {
        let reader = self.reader;
        let image = reader.file.image;
        Relocations::of_table(
            image.order(),
            self.header.sh_type == SHT_RELA,
            image.content(self.index),
        )
    }

    /// The group that it holds.
    fn group(&self) -> Group<'a>
        requires { body_kind self.now.header.sh_type ≡ kind.Group }
        ensures { result ≡ group_of (sections_of_file self.now.reader.now.file) self.now.index }
    {
        self.reader.file.tables.group(self.index)
    }

    /// What it holds.
    fn read_body(&self, alloc: Global) -> Result<Body<'a>, AllocError>
        ensures { let file = self.now.reader.now.file in
            let kind = body_kind self.now.header.sh_type in
            IfOk result (λ body. body_value body ≡ body_denoted file.left (sections_of_file file) self.now.index kind) }
    {
        match BodyKind::of(self.header.sh_type) {
            BodyKind::Bits => {
                let reader = self.reader;
                Ok(Body::Bits(self.header.sh_type, reader.file.image.content(self.index)))
            }
            BodyKind::NoBits => Ok(Body::NoBits(self.header.sh_size)),
            BodyKind::Relocs => Ok(Body::Relocs {
                rela: self.header.sh_type == SHT_RELA,
                target: self.reader.position_at(self.header.sh_info as usize),
                entries: self.relocations(),
            }),
            BodyKind::Group => {
                let group = self.group();
                Ok(Body::Group {
                    comdat: group.flags() == GRP_COMDAT,
                    signature: group.signature().saturating_sub(1) as usize,
                    members: self.reader.read_members(alloc, &group)?,
                })
            }
        }
    }

    /// The section of the object.
    #[tactic(auto, unfolding(crate::specs::Denotes::section_denoted))]
    fn read(&self, alloc: Global) -> Result<Section<'a>, AllocError>
        ensures { let file = self.now.reader.now.file in
            IfOk result (λ s. section_value s ≡ section_denoted file.left (sections_of_file file) self.now.index) }
    {
        let header = self.header;
        let kind = BodyKind::of(header.sh_type);
        let body = self.read_body(alloc)?;
        Ok(Section {
            name: self.name(),
            flags: header.sh_flags,
            addr: header.sh_addr,
            align: header.sh_addralign,
            entsize: header.sh_entsize,
            link: self.link(kind),
            info: self.info(kind),
            body,
        })
    }
}

impl<'i, 'a> ObjectReader<'i, 'a> {
    /// The positions of the members of a group.
    fn read_members(&self, alloc: Global, group: &Group<'_>) -> Result<Vec<usize>, AllocError>
        ensures { let file = self.now.file in
            IfOk result (λ members. members.items ≡ map (position_of file.left (sections_of_file file)) group.now.members) }
    {
        let mut members = Vec::with_capacity(alloc, group.len())?;
        for j in 0..group.len() {
            members.push(self.position_at(group.entry(j) as usize))?;
        }
        Ok(members)
    }

    /// Section `i`, which is kept.
    fn read_section(&self, alloc: Global, i: usize) -> Result<Section<'a>, AllocError>
        requires there { i < length self.now.file.image.now.sections }
        requires kept { is_kept self.now.file.left (sections_of_file self.now.file) i ≡ true }
        ensures { IfOk result (λ s. section_value s ≡ section_denoted self.now.file.left (sections_of_file self.now.file) i) }
    {
        let section = KeptSection {
            reader: self,
            index: i,
            header: self.file.image.section(i),
        };
        section.read(alloc)
    }

    /// The sections that are kept.
    pub(crate) fn read_sections(&self, alloc: Global) -> Result<Vec<Section<'a>>, AllocError>
        ensures { let f = sections_of_file self.now.file in let left = self.now.file.left in
            IfOk result (λ sections. map section_value sections.items ≡ map (section_denoted left f) (kept left f)) }
    {
        let mut sections = Vec::new(alloc);
        for i in 0..self.file.image.section_count() {
            if self.file.is_kept(i) {
                let section = self.read_section(alloc, i)?;
                sections.push(section)?;
            }
        }
        Ok(sections)
    }
}
