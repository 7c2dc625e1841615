//! The relocated bytes of a link.
ghost use Rattle.std.specs.Prelude.{◌≡◌, ◌<◌, ◌^◌, option_map, IfErr, IfOk, None, OnOk};
ghost use Rattle.elf_link_map.specs.Standing.{AreObjects, ObjectsFit};
ghost use Rattle.elf_link_relocate.specs.Linked.{bytes_at, identity_of, IsLinked, IsSoundLinked, IsSoundMap};
ghost use Rattle.elf_link_map.specs.LinkMap.{FirstOfLink, IsLinkFault, IsLinkMap};
ghost use Rattle.elf_link_relocate.specs.Fields.{IsRelocationFault};

use crate::copies::Copies;
use crate::relocating::relocate_indexed;
use elf_field::Order;
use elf_link_field::RelocRule;
use elf_link_map::{IndexedMap, LinkFault, LinkMap, Options, map_indexed};
use elf_object_type::Object;
use std::alloc::Global;
use std::hash::BuildHasher;
use std::marker::Model;

/// What a file says of itself in its header (gABI chapter 4, ELF Header).
#[derive(Clone, Copy, Debug, PartialEq, Eq)]
pub struct Identity {
    /// The byte order (`EI_DATA`).
    pub order: Order,
    /// The extensions that the file uses (`EI_OSABI`).
    pub osabi: u8,
    /// Their version (`EI_ABIVERSION`).
    pub abi: u8,
    /// The processor (`e_machine`).
    pub machine: u16,
    /// Flags of the processor (`e_flags`).
    pub flags: u32,
}

/// The relocated bytes of each live section with bits. No accessor takes memory.
#[derive(Debug, Drop)]
pub struct Linked<'m, 'a> {
    pub(crate) map: &'m LinkMap<'a>,
    pub(crate) objects: &'m [Object<'a>],
    pub(crate) rules: &'m [RelocRule],
    pub(crate) copies: Copies,
}

impl<'m, 'a> Model for Linked<'m, 'a> {
    ghost use Rattle.elf_link_relocate.specs.Linked.{LinkedValue};

    ghost Value = { LinkedValue };

    ghost use Rattle.elf_link_relocate.specs.Views.{HasSoundObjects, linked_value};

    ghost view = { linked_value };

    ghost invariant = { HasSoundObjects };
}

impl<'m, 'a> Linked<'m, 'a> {
    /// The bytes of a section as the link leaves them, every field of an applied relocation with its number; None if the section
    /// is not live or has no bits, or where there is none at that position.
    pub fn bytes(&self, file: usize, section: usize) -> Option<&[u8]>
        ensures { option_map (λ bytes. bytes.now) result ≡ bytes_at self.now file section }
    {
        match self.copies.get(file)?.get(section)? {
            Some(copy) => Some(copy),
            None => None,
        }
    }

    /// Proves that each object breaks none of the object rules and fits the fields of a file, and that the page is a number of 64 bits.
    /// A contract of another crate does not see what always holds of relocated bytes: this call shows it. It does nothing.
    pub fn prove_objects(&self)
        ensures kept { AreObjects self.now.objects }
        ensures fit { ObjectsFit self.now.objects }
        ensures page { self.now.map.page < 2 ^ 64 }
    {
        let _ = self.map.page();
    }

    /// The map that the sections are placed by.
    pub fn map(&self) -> &'m LinkMap<'a>
        ensures { result.now ≡ self.now.map }
    {
        self.map
    }

    /// The objects that are linked.
    pub fn objects(&self) -> &'m [Object<'a>]
        ensures { result.now ≡ self.now.objects }
    {
        self.objects
    }

    /// The relocation rules that the numbers of the fields are by.
    pub fn rules(&self) -> &'m [RelocRule]
        ensures { result.now ≡ self.now.rules }
    {
        self.rules
    }

    /// What file 0 says of itself, which all files of a link agree on but for the extensions; without files least significant
    /// bytes first, and zeros.
    pub fn identity(&self) -> Identity
        ensures { result ≡ identity_of self.now.objects }
    {
        match self.objects.first() {
            Some(object) => Identity {
                order: object.order(),
                osabi: object.osabi(),
                abi: object.abi(),
                machine: object.machine(),
                flags: object.flags(),
            },
            None => Identity {
                order: Order::Little,
                osabi: 0,
                abi: 0,
                machine: 0,
                flags: 0,
            },
        }
    }
}

// Objects that are linked, with their map.

/// Objects that are linked, with their link map. It holds both, where [`Linked`] borrows them. To relocate by several lists of relocation
/// rules, the names are looked up once.
#[derive(Drop)]
pub struct Mapped<'a> {
    objects: Vec<Object<'a>>,
    link: IndexedMap<'a>,
}

impl<'a> Model for Mapped<'a> {
    ghost use Rattle.elf_link_relocate.specs.Linked.{MappedValue};

    ghost Value = { MappedValue };

    ghost use Rattle.elf_link_relocate.specs.Views.{HasItsMap, mapped_value};

    ghost view = { mapped_value };

    ghost invariant = { HasItsMap };
}

impl<'a> Mapped<'a> {
    /// These objects with their link map, as `map` returns it.
    ///
    /// [`LinkFault::Rule`] comes with the first of rules 1 to 11 of the link that is broken, [`LinkFault::OutOfMemory`] if an allocation
    /// fails.
    pub fn new<S: BuildHasher + Drop>(
        alloc: Global,
        objects: Vec<Object<'a>>,
        options: &Options<'_>,
        hasher: S,
    ) -> Result<Mapped<'a>, LinkFault>
        ensures objects { IfOk result (λ mapped. mapped.objects ≡ objects.entry.items) }
        ensures map { IfOk result (λ mapped. IsLinkMap options.now mapped.objects mapped.map) }
        ensures sound { OnOk result (FirstOfLink options.now objects.entry.items None) }
        ensures err { IfErr result (IsLinkFault options.now objects.entry.items) }
    {
        let link = map_indexed(alloc, &objects, options, hasher)?;
        Ok(Mapped { objects, link })
    }

    /// The objects, by the position of their file.
    pub fn objects(&self) -> &[Object<'a>]
        ensures { result.now ≡ self.now.objects }
    {
        &self.objects
    }

    /// Their link map.
    pub fn map(&self) -> &LinkMap<'a>
        ensures { result.now ≡ self.now.map }
    {
        &self.link.map
    }

    /// The relocated bytes of the objects by these relocation rules, as [`relocate`](crate::relocate) returns them. `write_exec` of
    /// `elf_exec` can write them.
    ///
    /// [`LinkFault::Rule`] comes with the first of rules 12 to 16 of the link that is broken, at its first entry,
    /// [`LinkFault::OutOfMemory`] if an allocation fails.
    pub fn relocated<'m>(
        &'m self,
        alloc: Global,
        rules: &'m [RelocRule],
    ) -> Result<Linked<'m, 'a>, LinkFault>
        ensures map { IsSoundMap self.entry.now.objects self.entry.now.map }
        ensures linked { IfOk result (λ linked. IsLinked self.entry.now.objects self.entry.now.map rules.entry.now linked) }
        ensures ready { IfOk result IsSoundLinked }
        ensures err { IfErr result (IsRelocationFault self.entry.now.objects self.entry.now.map rules.entry.now) }
    {
        relocate_indexed(
            alloc,
            &self.link.map,
            &self.objects,
            rules,
            &self.link.indexes,
        )
    }
}
