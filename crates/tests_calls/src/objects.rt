//! A string table, and an object made from its parts: a group of one section, and the symbol that signs it.
use crate::said::{Said, say};
use elf_extent::OutOfMemory;
use elf_field::Order;
use elf_object_strings::shared_table;
use elf_object_type::{Body, Info, Object, ObjectFault, ObjectParts, Place, Section, Symbol};
use std::alloc::{AllocError, Global};
use std::io::Write;

/// The calls on names and on these parts.
pub fn calls<W: Write>(alloc: Global, out: &mut W) {
    say(out, "shared_table", shared(alloc));
    let Ok(parts) = parts(alloc) else {
        return say(out, "ObjectParts", Said::Memory);
    };
    say(out, "ObjectParts", Said::Done(0));
    say(out, "Section::clone", copied(alloc, &parts.sections));
    say(out, "Object::new", made(alloc, parts));
}

fn shared(alloc: Global) -> Said {
    match shared_table(alloc, &[b"ab", b"b", b"c"]) {
        Ok(shared) => Said::Done(shared.bytes.len() as u64),
        Err(OutOfMemory) => Said::Memory,
    }
}

/// How many sections there are in a copy of these.
fn copied(alloc: Global, sections: &[Section<'_>]) -> Said {
    let copies: Result<Vec<Section<'_>>, AllocError> = sections
        .iter()
        .map(|section| section.clone())
        .try_collect(alloc);
    match copies {
        Ok(copies) => Said::Done(copies.len() as u64),
        Err(_) => Said::Memory,
    }
}

fn made(alloc: Global, parts: ObjectParts<'static>) -> Said {
    match Object::new(alloc, parts) {
        Ok(object) => Said::Done(object.into_parts().sections.len() as u64),
        Err(ObjectFault::OutOfMemory) => Said::Memory,
        Err(_) => Said::Refused,
    }
}

fn section(flags: u64, entsize: u64, body: Body<'static>) -> Section<'static> {
    Section {
        name: b".text",
        flags,
        addr: 0,
        align: 4,
        entsize,
        link: None,
        info: Info::Number(0),
        body,
    }
}

fn group(alloc: Global) -> Result<Section<'static>, AllocError> {
    let mut members = Vec::new(alloc);
    members.push(1)?;
    let body = Body::Group {
        comdat: true,
        signature: 0,
        members,
    };
    Ok(section(0, 4, body))
}

fn sections(alloc: Global) -> Result<Vec<Section<'static>>, AllocError> {
    let group = group(alloc)?;
    let mut sections = Vec::new(alloc);
    sections.push(group)?;
    sections.push(section(0x206, 0, Body::Bits(1, b"\xc3")))?;
    Ok(sections)
}

fn symbols(alloc: Global) -> Result<Vec<Symbol<'static>>, AllocError> {
    let mut symbols = Vec::new(alloc);
    symbols.push(Symbol {
        name: b"f",
        info: 0x10,
        other: 0,
        place: Place::In(1),
        value: 0,
        size: 0,
    })?;
    Ok(symbols)
}

fn parts(alloc: Global) -> Result<ObjectParts<'static>, AllocError> {
    let sections = sections(alloc)?;
    Ok(ObjectParts {
        order: Order::Little,
        osabi: 0,
        abi: 0,
        machine: 62,
        flags: 0,
        sections,
        symbols: symbols(alloc)?,
    })
}
