//! Images from bytes, and bytes from images.
ghost use Rattle.std.specs.Prelude.{◌≡◌, IfErr, IfOk, map, ◌<◌, ℕ, List, length};
ghost use Rattle.elf_image_rules.specs.Rows.{HaveOneFault};
ghost use Rattle.elf_image_rules.specs.Rules.{rules_in};
ghost use Rattle.elf_image_rules.specs.Tables.{bytes_in, content_extent};
ghost use Rattle.elf_image_outline.specs.Image.{ImageValue, IsImage, IsSoundImage, OfItsBytes, joined, part_bytes};
ghost use Rattle.elf_image_outline.specs.Outline.{image_of, placed_part};
ghost use Rattle.elf_image_outline.specs.Scanning.{StopsInMemory};
ghost use Rattle.elf_image_stream.specs.Output.{Writes};
ghost use Rattle.elf_image_type.specs.Parsing.{IsParseFault};
ghost use Rattle.elf_image_type.specs.WrittenFile.{encoding as encoding_of, identification as identification_of};

use crate::image::Image;
use elf_field::abi::*;
use elf_field::{Order, Shdr};
use elf_image_outline::{Outline, Owner, Part, outline_of, scan, write_records};
use elf_image_rules::tables::content_of;
use elf_image_rules::validate_records;
use elf_image_stream::output::write_zeros;
use elf_image_stream::{Bytes, BytesFault, Fault, WriteFault, write_whole};
use std::alloc::{AllocError, Global};
use std::io::Write;

// From a file's bytes to its image.

/// The image that these bytes are: an ELF-64 file that breaks no rule, its tables copied once and
/// its names and contents borrowed for as long as the bytes live.
///
/// [`Fault::Rule`] is the first of rules 1 to 33 that the bytes break, at the lowest offset where
/// they break it. [`Fault::OutOfMemory`] comes only if they keep rules 1 to 32: the tables are
/// copied, and the extents sorted for rule 33. [`Fault::Io`] never comes. Sorting takes n log n
/// comparisons; all else is linear in the records.
#[tactic(auto, using(elf_image_rules::proofs::Public::one_fault))]
pub fn parse<'a>(alloc: Global, bytes: &'a [u8]) -> Result<Image<'a>, Fault>
    ensures ok { IfOk result (λ image. IsImage image bytes.entry.now) }
    ensures err { IfErr result (λ fault. IsParseFault bytes.entry.now fault) }
    ensures one_image { IfOk result (λ image. (other : ImageValue) → IsImage other bytes.entry.now → other ≡ image) }
    ensures one_fault { HaveOneFault (rules_in bytes.entry.now) }
{
    // These rules take no memory, so that running out of it never hides one that is broken.
    validate_records(bytes)?;
    let outline = scan(alloc, &mut Bytes(bytes))?;
    let contents = contents_of(alloc, bytes, outline.sections())?;
    Ok(Image::new(outline, bytes, contents))
}

/// The image that these bytes are, as [`parse`] makes it, for callers whose own faults know no failed read. Each rule is tested once, where
/// the records are: [`parse`] goes the way of every source, by [`scan`].
pub fn parse_bytes<'a>(alloc: Global, bytes: &'a [u8]) -> Result<Image<'a>, BytesFault>
    ensures ok { IfOk result (λ image. IsImage image bytes.entry.now) }
    ensures err { IfErr result (StopsInMemory bytes.entry.now) }
{
    let outline = outline_of(alloc, bytes)?;
    let contents = contents_of(alloc, bytes, outline.sections())?;
    Ok(Image::new(outline, bytes, contents))
}

/// The content of each section, borrowed from the file.
fn contents_of<'a>(
    alloc: Global,
    bytes: &'a [u8],
    entries: &[Shdr],
) -> Result<Vec<&'a [u8]>, AllocError>
    ensures { IfOk result (λ v. map (λ c. c.now) v.items ≡ map (λ s. bytes_in bytes.entry.now (content_extent s)) entries.now) }
{
    let mut contents = Vec::new(alloc);
    for entry in entries {
        contents.push(content_of(bytes, entry))?;
    }
    Ok(contents)
}

// An image onto a writer.

/// Writes the bytes that represent the image: exactly these, or exactly their first `written` and a
/// [`WriteFault`].
///
/// Any error of the writer, an interruption too, is the fault, and so is a write that takes 0 bytes of
/// a rest that is not empty. Contents and gaps are offered whole. Nothing is flushed, and no memory is
/// taken. Linear in the length of the file.
pub fn write<W: Write>(image: &Image<'_>, writer: &mut W) -> Result<(), WriteFault>
    ensures { OfItsBytes image.now (λ b. Writes (W.contents writer.old) (W.contents writer.new) b result) }
{
    write_parts(&image.outline, &image.contents, image.file, writer)
}

fn write_parts<W: Write>(
    outline: &Outline,
    contents: &[&[u8]],
    file: &[u8],
    writer: &mut W,
) -> Result<(), WriteFault>
    requires { IsSoundImage (image_of outline.now (map (λ content. content.now) contents.now) file.now) }
    ensures { Writes (W.contents writer.old) (W.contents writer.new)
        (joined (image_of outline.now (map (λ content. content.now) contents.now) file.now)) result }
{
    for part in outline.parts() {
        match write_part(outline, contents, file, *part, writer) {
            Ok(()) => {}
            Err(fault) => return Err(fault.after(part.start)),
        }
    }
    Ok(())
}

// One part, which has as many bytes as its length says.
fn write_part<W: Write>(
    outline: &Outline,
    contents: &[&[u8]],
    file: &[u8],
    part: Part,
    writer: &mut W,
) -> Result<(), WriteFault>
    requires some { 0 < part.len }
    requires whole { let v = image_of outline.now (map (λ content. content.now) contents.now) file.now in
        length (part_bytes v (placed_part outline.now.zeroed file.now part)) ≡ part.len }
    ensures { let v = image_of outline.now (map (λ content. content.now) contents.now) file.now in
        Writes (W.contents writer.old) (W.contents writer.new)
        (part_bytes v (placed_part outline.now.zeroed file.now part)) result }
{
    let start = part.start as usize;
    match part.owner {
        Owner::Header => write_records(writer, outline.order(), &[outline.header()]),
        Owner::SectionTable => write_records(writer, outline.order(), outline.sections()),
        Owner::ProgramTable => write_records(writer, outline.order(), outline.segments()),
        Owner::Content(i) => write_whole(writer, contents[i]),
        Owner::Gap if outline.is_zeroed() => write_zeros(writer, part.len),
        Owner::Gap => write_whole(writer, &file[start..start + part.len as usize]),
    }
}

// The identification of a file that is written (gABI chapter 4, ELF Identification).

/// `e_ident` of a file in this byte order, with these bytes `EI_OSABI` and `EI_ABIVERSION`.
pub fn identification(order: Order, osabi: u8, abi: u8) -> [u8; EI_NIDENT]
    ensures { result ≡ identification_of order osabi abi }
{
    let [m0, m1, m2, m3] = MAGIC;
    let encoding = encoding(order);
    [
        m0, m1, m2, m3, ELFCLASS64, encoding, EV_CURRENT, osabi, abi, 0, 0, 0, 0, 0, 0, 0,
    ]
}

/// The identification byte of an order.
fn encoding(order: Order) -> u8
    ensures { result ≡ encoding_of order }
{
    match order {
        Order::Little => ELFDATA2LSB,
        Order::Big => ELFDATA2MSB,
    }
}
