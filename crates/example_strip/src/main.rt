//! `example_strip`: reads an object from standard input, and writes it without its debug data to standard output: without the sections
//! whose names begin with `.debug`, their relocations, and groups of nothing else.
#![tactic(auto)]

ghost use Rattle.std.specs.Prelude.{◌≡◌, ℕ, IfOk, List, OnOk};
ghost use Rattle.std.specs.Io.KnownBytes.{Appends, Consumes};
ghost use Rattle.std.specs.List.{list_all};
ghost use Rattle.elf_object.specs.Denotes.{Denotes};
ghost use Rattle.elf_object.specs.Object.{section_at};
ghost use Rattle.elf_object.specs.ObjectFile.{IsWrittenFile};
ghost use Rattle.elf_object.specs.ObjectView.{section_value};
ghost use Rattle.elf_table.specs.Sections.{sections_of};
ghost use Rattle.example_strip.specs.Debug.{IsObjectIn, IsStripped, has_debug_name as has_debug_name_of, is_debug as is_debug_of};
ghost use Rattle.example_strip.specs.Debug.{is_debug_data as is_debug_data_of, without_debug};

use elf_image::{Image, parse, read_to_end};
use elf_object::{Body, Object, Section, WithoutFault, object_of, retain, write_object};
use std::alloc::Global;
use std::io::{self, Read, Write};
use std::process::ExitCode;

fn main(rt: HostRuntime) -> io::Result<ExitCode> {
    let stripped = strip(rt.alloc(), &mut rt.stdin(), &mut rt.stdout());
    if let Err(why) = stripped {
        eprintln!(rt; "example_strip: {why}")?;
    }
    Ok(ExitCode::from(stripped.is_err() as u8))
}

/// Reads an object, and writes it without its debug data; or returns why it did not.
fn strip<R: Read, W: Write>(
    alloc: Global,
    reader: &mut R,
    writer: &mut W,
) -> Result<(), &'static str>
    // What was read is an object, and what was written is the file of this object without just its debug data.
    ensures { OnOk result ((b : List ℕ) × Consumes (R.remaining reader.old) (R.remaining reader.new) b × ((c : List ℕ) ×
        IsStripped b c × Appends (W.contents writer.old) (W.contents writer.new) c)) }
{
    let mut bytes = Vec::new(alloc);
    if read_to_end(reader, &mut bytes).is_err() {
        return Err("the input can't be read");
    }
    strip_file(alloc, &bytes, writer)
}

/// Writes the object that these bytes denote, without its debug data.
fn strip_file<W: Write>(alloc: Global, bytes: &[u8], writer: &mut W) -> Result<(), &'static str>
    ensures { OnOk result ((c : List ℕ) × IsStripped bytes.now c × Appends (W.contents writer.old) (W.contents writer.new) c) }
{
    let object = object_in(alloc, bytes)?;
    write_stripped(alloc, &object, writer)?;
    Ok(())
}

/// The object that these bytes denote.
fn object_in<'a>(alloc: Global, bytes: &'a [u8]) -> Result<Object<'a>, &'static str>
    ensures { IfOk result (IsObjectIn bytes.entry.now) }
{
    match parse(alloc, bytes) {
        Ok(image) => denoted(alloc, &image),
        Err(_) => Err("the input is no ELF-64 file"),
    }
}

/// The object that an image denotes.
fn denoted<'a>(alloc: Global, image: &Image<'a>) -> Result<Object<'a>, &'static str>
    ensures { IfOk result (λ o. Denotes (sections_of image.now) o) }
{
    match object_of(alloc, image) {
        Ok(object) => Ok(object),
        Err(_) => Err("the input is no object"),
    }
}

/// Writes an object without its debug data.
#[tactic(auto, unfolding(crate::specs::Debug::without_debug))]
fn write_stripped<W: Write>(
    alloc: Global,
    object: &Object<'_>,
    writer: &mut W,
) -> Result<(), &'static str>
    ensures { OnOk result ((c : List ℕ) × IsWrittenFile (without_debug object.now) c ×
        Appends (W.contents writer.old) (W.contents writer.new) c) }
{
    let rest = match retain(alloc, object, |_, section| !is_debug(object, section)) {
        Ok(rest) => rest,
        Err(WithoutFault::Dangling { .. }) => return Err("another section refers to debug data"),
        Err(WithoutFault::OutOfMemory) => return Err("there is too little memory"),
    };
    match write_object(alloc, &rest, writer) {
        Ok(()) => Ok(()),
        Err(_) => Err("the object can't be written"),
    }
}

/// Whether a section is debug data, or a group of nothing else.
fn is_debug(object: &Object<'_>, section: &Section<'_>) -> bool
    ensures { result ≡ is_debug_of object.now (section_value section.now) }
{
    is_debug_data(object, section)
        || match &section.body {
            Body::Group { members, .. } => are_debug_data(object, members),
            _ => false,
        }
}

/// Whether a section has the name of debug data, or relocates a section that has.
fn is_debug_data(object: &Object<'_>, section: &Section<'_>) -> bool
    ensures { result ≡ is_debug_data_of object.now (section_value section.now) }
{
    has_debug_name(section)
        || match &section.body {
            Body::Relocs { target, .. } => has_debug_name_at(object, *target),
            _ => false,
        }
}

fn has_debug_name(section: &Section<'_>) -> bool
    ensures { result ≡ has_debug_name_of (section_value section.now) }
{
    section.name.starts_with(b".debug")
}

fn has_debug_name_at(object: &Object<'_>, position: usize) -> bool
    ensures { result ≡ has_debug_name_of (section_at object.now position) }
{
    object
        .sections()
        .get(position)
        .is_some_and(|section| has_debug_name(section))
}

/// Whether each of these sections is debug data.
fn are_debug_data(object: &Object<'_>, members: &[usize]) -> bool
    ensures { result ≡ list_all (λ member. is_debug_data_of object.now (section_at object.now member)) members.now }
{
    members
        .iter()
        .all(|member| is_debug_data_at(object, *member))
}

fn is_debug_data_at(object: &Object<'_>, position: usize) -> bool
    ensures { result ≡ is_debug_data_of object.now (section_at object.now position) }
{
    match object.sections().get(position) {
        Some(section) => is_debug_data(object, section),
        None => false,
    }
}
