//! Images, their tables, and the objects that they denote.
ghost use Rattle.std.specs.Prelude.{◌<◌, length, ◌≡◌, ℕ, List, Some};

use crate::said::{Said, of_fault, say};
use elf_image_outline::{CopyFault, copy_image, scan};
use elf_image_sources::{JoinFault, Joined};
use elf_image_stream::{Bytes, Fault, Source, WriteFault};
use elf_image_type::{Image, parse, verdict, write};
use elf_object_edit::{WithoutFault, retain, without};
use elf_object_file::write_object;
use elf_object_layout::{LayoutFault, lay_out};
use elf_object_reader::object_of;
use elf_object_type::Object;
use elf_object_writer::ObjectWriteFault;
use elf_table_all::Tables;
use elf_table_hash::Hash;
use elf_table_lists::Group;
use elf_tool_check::check;
use elf_tool_rewrite::{Verdict, rewrite};
use std::alloc::{AllocError, Global};
use std::io::Write;

/// The calls on a file of these bytes.
pub fn calls<W: Write>(alloc: Global, bytes: &[u8], out: &mut W) {
    say(out, "Joined::new", joined(alloc, bytes));
    say(out, "scan", scanned(alloc, bytes));
    match parse(alloc, bytes) {
        Ok(image) => on_image(alloc, &image, out),
        Err(fault) => say(out, "parse", of_fault(fault)),
    }
}

fn joined(alloc: Global, bytes: &[u8]) -> Said {
    match Joined::new(alloc, &[bytes, bytes]) {
        Ok(_) => Said::Done(0),
        Err(JoinFault::OutOfMemory) => Said::Memory,
        Err(JoinFault::TooLong) => Said::Refused,
    }
}

fn scanned(alloc: Global, bytes: &[u8]) -> Said {
    match scan(alloc, &mut Bytes(bytes)) {
        Ok(outline) => Said::Done(outline.parts().len() as u64),
        Err(fault) => of_fault(fault),
    }
}

fn on_image<W: Write>(alloc: Global, image: &Image<'_>, out: &mut W) {
    say(out, "parse", Said::Done(image.parts().len() as u64));
    for i in 0..image.section_count() {
        on_section(alloc, image, i, out);
    }
    say(out, "Tables::new", with_tables(alloc, image));
    match object_of(alloc, image) {
        Ok(object) => on_object(alloc, &object, out),
        Err(fault) => say(out, "object_of", of_fault(fault)),
    }
    say(out, "Image::len", Said::Done(image.len()));
}

fn with_tables(alloc: Global, image: &Image<'_>) -> Said {
    match Tables::new(alloc, image) {
        Ok(_) => Said::Done(0),
        Err(AllocError) => Said::Memory,
    }
}

fn on_section<W: Write>(alloc: Global, image: &Image<'_>, i: usize, out: &mut W)
    requires { i < length image.now.sections }
{
    on_hash(alloc, image, i, out);
    on_group(alloc, image, i, out);
}

/// A section that is no hash table is refused, which is no line.
fn on_hash<W: Write>(alloc: Global, image: &Image<'_>, i: usize, out: &mut W)
    requires { i < length image.now.sections }
{
    match Hash::new(alloc, image, i) {
        Ok(hash) => say(out, "Hash::new", Said::Done(hash.nbucket() as u64)),
        Err(Fault::OutOfMemory) => say(out, "Hash::new", Said::Memory),
        Err(_) => {}
    }
}

/// Nor is one on a section that is no group.
fn on_group<W: Write>(alloc: Global, image: &Image<'_>, i: usize, out: &mut W)
    requires { i < length image.now.sections }
{
    match Group::new(alloc, image, i) {
        Ok(group) => say(out, "Group::new", Said::Done(group.flags() as u64)),
        Err(Fault::OutOfMemory) => say(out, "Group::new", Said::Memory),
        Err(_) => {}
    }
}

fn on_object<W: Write>(alloc: Global, object: &Object<'_>, out: &mut W) {
    say(out, "object_of", Said::Done(object.sections().len() as u64));
    say(out, "without", rest(alloc, object));
    say(out, "retain", retained(alloc, object));
    say(out, "lay_out", laid_out(alloc, object));
    say(out, "write_object", written(alloc, object));
}

/// The object with all of its sections, made anew.
fn rest(alloc: Global, object: &Object<'_>) -> Said {
    match without(alloc, object, &[]) {
        Ok(rest) => Said::Done(rest.sections().len() as u64),
        Err(WithoutFault::OutOfMemory) => Said::Memory,
        Err(_) => Said::Refused,
    }
}

/// The object with its sections at address 0.
fn retained(alloc: Global, object: &Object<'_>) -> Said {
    match retain(alloc, object, |_, section| section.addr == 0) {
        Ok(rest) => Said::Done(rest.sections().len() as u64),
        Err(WithoutFault::OutOfMemory) => Said::Memory,
        Err(_) => Said::Refused,
    }
}

fn laid_out(alloc: Global, object: &Object<'_>) -> Said {
    match lay_out(alloc, object) {
        Ok(layout) => Said::Done(layout.length()),
        Err(LayoutFault::OutOfMemory) => Said::Memory,
        Err(LayoutFault::TooLong) => Said::Refused,
    }
}

fn written(alloc: Global, object: &Object<'_>) -> Said {
    match write_object(alloc, object, &mut std::io::sink()) {
        Ok(()) => Said::Done(0),
        Err(ObjectWriteFault::OutOfMemory) => Said::Memory,
        Err(_) => Said::Refused,
    }
}

// What the calls say of the beginnings of a file, and of the files that differ from it in one byte.

/// Reports of each beginning of the file, the shorter ones first, and then for each of its bytes of the files in which it is another one,
/// in the order of these. Returns the exit status, 0 if all was reported.
pub fn report<W: Write>(alloc: Global, bytes: &mut [u8], out: &mut W) -> u8 {
    for length in 0..bytes.len() {
        if !one(alloc, &bytes[..length], out) {
            return 3;
        }
    }
    for at in 0..bytes.len() {
        if !changed(alloc, bytes, at, out) {
            return 3;
        }
    }
    0
}

/// Of the files in which this byte is another one.
fn changed<W: Write>(alloc: Global, bytes: &mut [u8], at: usize, out: &mut W) -> bool
    requires { at < length bytes.old }
{
    let own = bytes[at];
    for value in 0..=255u8 {
        bytes[at] = value;
        if value != own && !one(alloc, bytes, out) {
            return false;
        }
    }
    bytes[at] = own;
    true
}

/// Of a file: the line of `check`; that of `verdict`; and where it is an image whether it is written back unchanged, what it is as an
/// object, and what `rewrite` writes, its length first.
fn one<W: Write>(alloc: Global, bytes: &[u8], out: &mut W) -> bool {
    let mut file = bytes;
    check(alloc, &mut file, out).is_ok()
        && report_verdict(bytes, out)
        && match parse(alloc, bytes) {
            Ok(image) => {
                report_object(alloc, bytes, &image, out) && report_rewritten(alloc, bytes, out)
            }
            Err(_) => true,
        }
}

fn report_verdict<W: Write>(bytes: &[u8], out: &mut W) -> bool {
    let seen = match verdict(bytes) {
        None => writeln!(out, "none"),
        Some((rule, at)) => writeln!(out, "{rule} {at}"),
    };
    seen.is_ok()
}

/// Whether the image of these bytes is written as they are.
fn is_same(alloc: Global, bytes: &[u8], image: &Image<'_>) -> bool {
    let mut written = Vec::new(alloc);
    write(image, &mut written).is_ok() && written.as_slice() == bytes
}

fn report_object<W: Write>(alloc: Global, bytes: &[u8], image: &Image<'_>, out: &mut W) -> bool {
    let is_same = is_same(alloc, bytes, image);
    let seen = match object_of(alloc, image) {
        Ok(_) => writeln!(out, "{is_same} object"),
        Err(Fault::Rule { rule, at }) => writeln!(out, "{is_same} {rule} {at}"),
        Err(_) => return false,
    };
    seen.is_ok()
}

fn report_rewritten<W: Write>(alloc: Global, bytes: &[u8], out: &mut W) -> bool {
    let mut canonical = Vec::new(alloc);
    let mut file = bytes;
    let Ok(ended) = rewrite(alloc, &mut file, &mut canonical) else {
        return false;
    };
    let is_done = ended == Verdict::Done;
    writeln!(out, "{is_done} {}", canonical.len()).is_ok() && out.write_all(&canonical).is_ok()
}

// A file written again.

/// Why nothing, or not all, was written.
pub enum Stopped {
    /// By a rule.
    Rule,
    /// An allocation failed.
    OutOfMemory,
    /// The layout is longer than 2^30 bytes.
    TooLong,
    /// The read at this offset failed.
    Read { at: u64 },
    /// The write after so many bytes failed.
    Write { written: u64 },
}

impl From<Fault> for Stopped {
    fn from(fault: Fault) -> Stopped {
        match fault {
            Fault::Rule { .. } => Stopped::Rule,
            Fault::OutOfMemory => Stopped::OutOfMemory,
            Fault::Io { at } => Stopped::Read { at },
        }
    }
}

impl From<WriteFault> for Stopped {
    fn from(fault: WriteFault) -> Stopped {
        Stopped::Write {
            written: fault.written,
        }
    }
}

impl From<ObjectWriteFault> for Stopped {
    fn from(fault: ObjectWriteFault) -> Stopped {
        match fault {
            ObjectWriteFault::Io { written } => Stopped::Write { written },
            ObjectWriteFault::OutOfMemory => Stopped::OutOfMemory,
            ObjectWriteFault::TooLong => Stopped::TooLong,
        }
    }
}

impl From<CopyFault> for Stopped {
    fn from(fault: CopyFault) -> Stopped {
        match fault {
            CopyFault::Read { at, .. } => Stopped::Read { at },
            CopyFault::Write { written } => Stopped::Write { written },
        }
    }
}

/// Writes the image of these bytes.
pub fn image<W: Write>(alloc: Global, bytes: &[u8], out: &mut W) -> Result<(), Stopped> {
    let image = parse(alloc, bytes)?;
    write(&image, out)?;
    Ok(())
}

/// Writes the object that these bytes denote.
pub fn object<W: Write>(alloc: Global, bytes: &[u8], out: &mut W) -> Result<(), Stopped> {
    let image = parse(alloc, bytes)?;
    let object = object_of(alloc, &image)?;
    write_object(alloc, &object, out)?;
    Ok(())
}

/// Copies the image of a source.
pub fn copy<S: Source, W: Write>(
    alloc: Global,
    source: &mut S,
    out: &mut W,
) -> Result<(), Stopped> {
    let outline = scan(alloc, source)?;
    copy_image(&outline, source, out)?;
    Ok(())
}

/// The exit status; what failed is reported on standard error, as the program reports it.
pub fn status<W: Write>(ended: Result<(), Stopped>, err: &mut W) -> u8 {
    let _ = match ended {
        Ok(()) => return 0,
        Err(Stopped::Rule) => return 1,
        Err(Stopped::OutOfMemory) => writeln!(err, "out of memory"),
        Err(Stopped::TooLong) => writeln!(err, "too long"),
        Err(Stopped::Read { at }) => writeln!(err, "read failed at {at}"),
        Err(Stopped::Write { written }) => writeln!(err, "write failed after {written}"),
    };
    3
}
