//! `example_edit FILE`: reads an ELF-64 file, makes its image, and writes the image to standard output: the bytes of the file again.
//!
//! `example_edit FILE SECTION FLAGS`: writes it with zeros in its gaps and with other flags (`sh_flags`) of a section, whose index and
//! flags are decimal numbers.
//!
//! `example_edit --seek FILE SECTION FLAGS`: copies it with other flags of a section, and keeps its gaps. It reads the file where it has
//! to, and never holds its contents; how many reads that took it says on standard error.
#![tactic(auto)]

mod copying;
mod counting;

ghost use Rattle.std.specs.Prelude.{◌≢◌, ℕ, List, IfOk, OnOk};
ghost use Rattle.std.specs.Io.KnownBytes.{Appends};
ghost use Rattle.elf_image.specs.Image.{with_flags, with_zero_gaps};
ghost use Rattle.elf_image.specs.Image.{ImageValue, IsImage};

use copying::copy;
use elf_image::{Fault, Image, parse, write};
use std::alloc::Global;
use std::io::Write;
use std::process::ExitCode;
use std::{env, fs, io};

/// The exit status of what failed, and why it did.
type Failed = (u8, &'static str);

const USAGE: Failed = (
    2,
    "usage: example_edit FILE [SECTION FLAGS], or example_edit --seek FILE SECTION FLAGS",
);

const NO_SECTION: Failed = (2, "the file has no section of this index");

const UNREAD: Failed = (3, "the file can't be read");

const UNWRITTEN: Failed = (3, "the image can't be written");

fn main(rt: HostRuntime) -> io::Result<ExitCode> {
    let words: Vec<String> = env::args(&rt)?.collect(rt.alloc())?;
    match run(&rt, words.as_slice()) {
        Ok(status) => Ok(ExitCode::from(status)),
        Err((status, why)) => {
            eprintln!(rt; "example_edit: {why}")?;
            Ok(ExitCode::from(status))
        }
    }
}

/// Does what these arguments ask for. Returns the exit status; or that of what failed, and why it did.
fn run(rt: &HostRuntime, words: &[String]) -> Result<u8, Failed> {
    match words {
        [_, way, words @ ..] if way.as_str() == "--seek" => {
            let [name, section, flags] = words else {
                return Err(USAGE);
            };
            let (section, flags) = numbers(section, flags)?;
            return copy(rt, name, section, flags);
        }
        [_, name] => write_back(rt.alloc(), &read(rt, name)?, &mut rt.stdout())?,
        [_, name, section, flags] => {
            let (section, flags) = numbers(section, flags)?;
            let bytes = read(rt, name)?;
            edit(rt.alloc(), &bytes, section, flags, &mut rt.stdout())?;
        }
        _ => return Err(USAGE),
    }
    Ok(0)
}

/// The index of a section and its flags, which these arguments are.
fn numbers(section: &str, flags: &str) -> Result<(usize, u64), Failed> {
    match (section.parse(), flags.parse()) {
        (Ok(section), Ok(flags)) => Ok((section, flags)),
        _ => Err((2, "SECTION and FLAGS are decimal numbers")),
    }
}

/// The bytes of the file of this name.
fn read(rt: &HostRuntime, name: &str) -> Result<Vec<u8>, Failed> {
    fs::read(rt, name).map_err(|_| UNREAD)
}

/// Writes the image of these bytes; or returns the exit status, and why.
fn write_back<W: Write>(alloc: Global, bytes: &[u8], out: &mut W) -> Result<(), Failed>
    // What was written is what was read.
    ensures { OnOk result (Appends (W.contents out.old) (W.contents out.new) bytes.now) }
{
    let image = image_of(alloc, bytes)?;
    match write(&image, out) {
        Ok(()) => Ok(()),
        Err(_) => Err(UNWRITTEN),
    }
}

/// Writes the image of these bytes with zeros in its gaps and these flags of a section; or returns the exit status, and why.
fn edit<W: Write>(
    alloc: Global,
    bytes: &[u8],
    section: usize,
    flags: u64,
    out: &mut W,
) -> Result<(), Failed>
    // What was written is the image that was read, but for these two edits.
    ensures { OnOk result ((image : ImageValue) × IsImage image bytes.now × ((edited : List ℕ) ×
        IsImage (with_flags (with_zero_gaps image) section flags) edited × Appends (W.contents out.old) (W.contents out.new) edited)) }
{
    let mut image = image_of(alloc, bytes)?;
    image.zero_gaps();
    if image.set_flags(section, flags).is_err() {
        return Err(NO_SECTION);
    }
    if write(&image, out).is_err() {
        return Err(UNWRITTEN);
    }
    Ok(())
}

/// The image that these bytes are; or the exit status, and why there is none.
fn image_of<'a>(alloc: Global, bytes: &'a [u8]) -> Result<Image<'a>, Failed>
    ensures { IfOk result (λ image. IsImage image bytes.entry.now) }
{
    match parse(alloc, bytes) {
        Ok(image) => Ok(image),
        Err(fault) => Err(failed(fault)),
    }
}

/// The exit status of a file that can't be read as an image, and why it can't.
fn failed(fault: Fault) -> Failed
    // It is not the status of success.
    ensures { result.0 ≢ 0 }
{
    match fault {
        Fault::Rule { .. } => (1, "the file is no ELF-64 file"),
        Fault::OutOfMemory => (3, "there is too little memory"),
        Fault::Io { .. } => UNREAD,
    }
}
