//! The way of `--seek`: a copy with an edit, without the contents of the file in memory.

ghost use Rattle.std.specs.Prelude.{◌≡◌, ℕ, List, Some};
ghost use Rattle.std.specs.Io.KnownBytes.{Appends};
ghost use Rattle.elf_image.specs.Image.{flagged};
ghost use Rattle.elf_image.specs.Image.{IsImage};
ghost use Rattle.elf_image.specs.Outline.{OutlineValue, image_in};

use crate::counting::Counting;
use crate::{Failed, NO_SECTION, UNREAD, UNWRITTEN, failed};
use elf_image::{Opened, Seeking, Source, copy_image, scan};
use std::alloc::Global;
use std::fs;
use std::io::Write;

const UNTOLD: Failed = (3, "the number of reads can't be written");

/// Copies a file to standard output with these flags of a section, and says how many reads that took. Returns the exit status.
pub fn copy(rt: &HostRuntime, name: &str, section: usize, flags: u64) -> Result<u8, Failed> {
    let file = fs::open(rt, name).map_err(|_| UNREAD)?;
    let mut source = Counting::new(Seeking::new(Opened(file)));
    let status = copy_with_flags(rt.alloc(), &mut source, section, flags, &mut rt.stdout());
    eprintln!(rt; "{} reads", source.reads()).map_err(|_| UNTOLD)?;
    Ok(status)
}

/// Copies the image of a source with other flags of a section. Returns the exit status: 0 if it is written, 1 if the source is no image,
/// 2 where it has no such section, 3 where memory, the source or the writer failed.
fn copy_with_flags<S: Source, W: Write>(
    alloc: Global,
    source: &mut S,
    section: usize,
    flags: u64,
    out: &mut W,
) -> u8
    // What was written is the image of the source's bytes, with these flags of the section.
    ensures { result ≡ 0 → (b : List ℕ) → S.content source.old ≡ Some b → (o : OutlineValue) × IsImage (image_in o b) b ×
        ((copy : List ℕ) × IsImage (image_in (record o { sections = flagged o.sections section flags }) b) copy ×
        Appends (W.contents out.old) (W.contents out.new) copy) }
{
    let mut outline = match scan(alloc, source) {
        Ok(outline) => outline,
        Err(fault) => return failed(fault).0,
    };
    if outline.set_flags(section, flags).is_err() {
        return NO_SECTION.0;
    }
    match copy_image(&outline, source, out) {
        Ok(()) => 0,
        Err(_) => UNWRITTEN.0,
    }
}
