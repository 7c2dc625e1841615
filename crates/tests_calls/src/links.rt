//! The link of files, their relocated bytes, and their executable.
ghost use Rattle.std.specs.Prelude.{IfOk};
ghost use Rattle.elf_link_relocate.specs.Linked.{IsSoundMapButOptions, IsSoundMap, IsSoundLinked};

use crate::said::{Said, of_fault, say};
use elf_exec::{ExecFault, write_exec};
use elf_image_stream::Fault;
use elf_image_type::parse;
use elf_link_field::RelocRule;
use elf_link_map::{LinkFault, LinkMap, Options, map};
use elf_link_relocate::{Linked, relocate};
use elf_object_reader::object_of;
use elf_object_type::Object;
use elf_tool_rule_file::{RulesFault, read_rules};
use std::alloc::{AllocError, Global};
use std::hash::{BuildHasherDefault, DefaultHasher};
use std::io::Write;

/// The calls on these files, where they are objects, by the relocation rules of a file.
pub fn calls<W: Write>(alloc: Global, files: &[Vec<u8>], rules: &[u8], out: &mut W) {
    match read_rules(alloc, rules) {
        Ok(rules) => by_rules(alloc, files, &rules, out),
        Err(RulesFault::OutOfMemory) => say(out, "read_rules", Said::Memory),
        Err(RulesFault::BadLine { .. }) => say(out, "read_rules", Said::Refused),
    }
}

fn by_rules<W: Write>(alloc: Global, files: &[Vec<u8>], rules: &[RelocRule], out: &mut W) {
    say(out, "read_rules", Said::Done(rules.len() as u64));
    match objects_of(alloc, files) {
        Ok(objects) => on_objects(alloc, &objects, rules, out),
        Err(fault) => say(out, "objects", of_fault(fault)),
    }
}

fn objects_of<'a>(alloc: Global, files: &'a [Vec<u8>]) -> Result<Vec<Object<'a>>, Fault> {
    let mut objects = Vec::new(alloc);
    for file in files {
        objects.push(object_in(alloc, file.as_slice())?)?;
    }
    Ok(objects)
}

/// The object of a file.
pub fn object_in(alloc: Global, bytes: &[u8]) -> Result<Object<'_>, Fault> {
    let image = parse(alloc, bytes)?;
    object_of(alloc, &image)
}

/// The link map of these objects, each output at a multiple of a page.
pub fn mapped<'a>(alloc: Global, objects: &[Object<'a>]) -> Result<LinkMap<'a>, LinkFault>
    ensures { IfOk result (λ m. IsSoundMap objects.now m) }
{
    let options = Options {
        base: 0x40_0000,
        page: 0x1000,
        entry: None,
    };
    map(
        alloc,
        objects,
        &options,
        BuildHasherDefault::<DefaultHasher>::new(),
    )
}

fn on_objects<W: Write>(alloc: Global, objects: &[Object<'_>], rules: &[RelocRule], out: &mut W) {
    say(out, "objects", Said::Done(objects.len() as u64));
    match mapped(alloc, objects) {
        Ok(map) => on_map(alloc, &map, objects, rules, out),
        Err(LinkFault::OutOfMemory) => say(out, "map", Said::Memory),
        Err(_) => say(out, "map", Said::Refused),
    }
}

fn on_map<'m, 'a, W: Write>(
    alloc: Global,
    map: &'m LinkMap<'a>,
    objects: &'m [Object<'a>],
    rules: &'m [RelocRule],
    out: &mut W,
)
    requires map { IsSoundMapButOptions objects.now map.now }
    requires some { IsSoundMap objects.now map.now }
{
    say(out, "map", Said::Done(map.outputs().len() as u64));
    match relocate(alloc, map, objects, rules) {
        Ok(linked) => on_linked(alloc, &linked, out),
        Err(LinkFault::OutOfMemory) => say(out, "relocate", Said::Memory),
        Err(_) => say(out, "relocate", Said::Refused),
    }
    say(
        out,
        "LinkMap::commons",
        Said::Done(map.commons().len() as u64),
    );
}

fn on_linked<W: Write>(alloc: Global, linked: &Linked<'_, '_>, out: &mut W)
    requires { IsSoundLinked linked.now }
{
    say(out, "relocate", Said::Done(linked.rules().len() as u64));
    match write_exec(alloc, linked, &mut std::io::sink()) {
        Ok(()) => say(out, "write_exec", Said::Done(0)),
        Err(ExecFault::OutOfMemory) => say(out, "write_exec", Said::Memory),
        Err(_) => say(out, "write_exec", Said::Refused),
    }
}
