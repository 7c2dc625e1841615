//! Parts of objects, link maps and relocation rules.
ghost use Rattle.std.specs.Prelude.{IfOk, None, OnOk};
ghost use Rattle.elf_link_map.specs.LinkMap.{FirstOfLink, IsLinkMap};
ghost use Rattle.elf_link_relocate.specs.Linked.{IsSoundMapButOptions, IsSoundMap};

use elf_link_field::{Form, Range, RelocRule, Width};
use elf_link_map::{LinkFault, LinkMap, Options, map};
use elf_link_relocate::relocate;
use elf_object_type::{Body, Object, Section};
use std::alloc::Global;
use std::hash::{BuildHasherDefault, DefaultHasher};
use tests_files::section;

/// The info of a weak symbol.
pub(crate) const WEAK: u8 = 0x20;

/// A section of data in memory, with these bytes.
pub(crate) fn data<'a>(name: &'a [u8], content: &'a [u8]) -> Section<'a> {
    section(name, 3, 1, Body::Bits(1, content))
}

/// The rule of a kind.
pub(crate) fn rule(kind: u32, form: Form, width: Width, range: Range) -> RelocRule {
    RelocRule {
        kind,
        form,
        width,
        range,
    }
}

/// The link map of these objects.
pub(crate) fn mapped_by<'a>(
    alloc: Global,
    objects: &[Object<'a>],
    options: &Options<'_>,
) -> Result<LinkMap<'a>, LinkFault>
    ensures sound { OnOk result (FirstOfLink options.now objects.now None) }
    ensures map { IfOk result (λ m. IsLinkMap options.now objects.now m) }
    ensures some { IfOk result (λ m. IsSoundMap objects.now m) }
{
    map(
        alloc,
        objects,
        options,
        BuildHasherDefault::<DefaultHasher>::new(),
    )
}

/// That from this address on, each output at a multiple of 0x1000.
pub(crate) fn mapped<'a>(
    alloc: Global,
    objects: &[Object<'a>],
    base: u64,
    entry: Option<&[u8]>,
) -> Result<LinkMap<'a>, LinkFault>
    ensures { IfOk result (λ m. IsSoundMap objects.now m) }
{
    let options = Options {
        base,
        page: 0x1000,
        entry,
    };
    mapped_by(alloc, objects, &options)
}

/// The bytes of section 0 of the first file in the link of these objects; none if they have no such section.
pub(crate) fn relocated_bytes(
    alloc: Global,
    objects: &[Object<'_>],
    rules: &[RelocRule],
) -> Result<Vec<u8>, LinkFault> {
    let map = mapped(alloc, objects, 0x1000, None)?;
    relocated_by(alloc, &map, objects, rules)
}

/// The bytes of section 0 of the first file by the link map of the objects; none if they have no such section.
fn relocated_by<'m, 'a>(
    alloc: Global,
    map: &'m LinkMap<'a>,
    objects: &'m [Object<'a>],
    rules: &'m [RelocRule],
) -> Result<Vec<u8>, LinkFault>
    requires { IsSoundMapButOptions objects.now map.now }
{
    let linked = relocate(alloc, map, objects, rules)?;
    Ok(Vec::from_slice(alloc, linked.bytes(0, 0).unwrap_or(b""))?)
}

/// Where the program of these objects begins that is linked from this address on, with this name as its entry.
pub(crate) fn entry_of(
    alloc: Global,
    objects: &[Object<'_>],
    base: u64,
    name: &[u8],
) -> Result<u64, LinkFault> {
    Ok(mapped(alloc, objects, base, Some(name))?.entry())
}
