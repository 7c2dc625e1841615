//! The link map of files.
ghost use Rattle.std.specs.Prelude.{◌≡◌, IfOk, MatchResult, map};
ghost use Rattle.elf_tool_link.specs.ObjectFiles.{AreObjectFiles, IsFileFault, IsObjectFile, IsObjectFileFault, IsSoundFileMap, IsUnlinked};

use elf_image_stream::BytesFault;
use elf_image_type::parse_bytes;
use elf_link_map::{LinkFault, Options};
use elf_link_relocate::Mapped;
use elf_object_reader::read_object;
use elf_object_type::Object;
use elf_tool_check::Refusal;
use std::alloc::{AllocError, Global};
use std::hash::{BuildHasherDefault, FoldHasher};
use thiserror::Error;

// The objects that files are.

/// Why files are not all objects.
#[derive(Clone, Copy, Debug, PartialEq, Eq, Error)]
pub enum FileFault {
    /// This file breaks the refusal rule of this number, first at this offset in it, in bytes, and all before it are objects.
    #[error("file {file} breaks rule {rule} at {at}")]
    Refused { file: usize, rule: u16, at: u64 },
    /// An allocation failed.
    #[error("out of memory")]
    OutOfMemory,
}

/// The bytes of each file that is held, in order, as [`objects_of`] takes them. Fails only when out of memory.
pub fn slices_of(alloc: Global, files: &[Vec<u8>]) -> Result<Vec<&[u8]>, AllocError>
    ensures { IfOk result (λ slices. map (λ s. s.now) slices.items ≡ map (λ f. f.items) files.entry.now) }
{
    let mut slices = Vec::new(alloc);
    for file in files {
        slices.push(file.as_slice())?;
    }
    Ok(slices)
}

/// The object that each file of these bytes denotes, in order.
///
/// [`FileFault::Refused`] comes with the first file that is no image or whose image denotes no object: the first rule that it breaks, as an
/// image or, with a number from 40 on, as an object, and its lowest offset. Nothing else is refused, out of memory aside.
pub fn objects_of<'a>(alloc: Global, files: &[&'a [u8]]) -> Result<Vec<Object<'a>>, FileFault>
    ensures { MatchResult result (λ objects. AreObjectFiles (map (λ f. f.now) files.now) objects.items)
        (IsFileFault (map (λ f. f.now) files.now)) }
{
    let mut objects = Vec::new(alloc);
    for file in 0..files.len() {
        let object = match object_in(alloc, files[file]) {
            Ok(object) => object,
            Err(BytesFault::Rule { rule, at }) => {
                return Err(FileFault::Refused { file, rule, at });
            }
            Err(BytesFault::OutOfMemory) => return Err(FileFault::OutOfMemory),
        };
        let Ok(()) = objects.push(object) else {
            return Err(FileFault::OutOfMemory);
        };
    }
    Ok(objects)
}

// The object of one file.
fn object_in<'a>(alloc: Global, bytes: &'a [u8]) -> Result<Object<'a>, BytesFault>
    ensures { MatchResult result (IsObjectFile bytes.entry.now) (IsObjectFileFault bytes.entry.now) }
{
    let image = parse_bytes(alloc, bytes)?;
    read_object(alloc, &image)
}

/// Why files are not linked.
#[derive(Clone, Copy, Debug, PartialEq, Eq, Error)]
pub enum Unlinked {
    /// A file is refused, or a rule of the link is broken.
    #[error("{0}")]
    Refused(Refusal),
    /// An allocation failed.
    #[error("out of memory")]
    OutOfMemory,
}

impl From<FileFault> for Unlinked {
    ghost use Rattle.elf_tool_link.specs.ObjectFiles.{file_unlinked};

    ghost from_gives = { λ fault unlinked. unlinked ≡ file_unlinked fault };

    fn from(fault: FileFault) -> Unlinked {
        match fault {
            FileFault::Refused { file, rule, at } => {
                Unlinked::Refused(Refusal::File { file, rule, at })
            }
            FileFault::OutOfMemory => Unlinked::OutOfMemory,
        }
    }
}

impl From<LinkFault> for Unlinked {
    ghost use Rattle.elf_tool_link.specs.ObjectFiles.{link_unlinked};

    ghost from_gives = { λ fault unlinked. unlinked ≡ link_unlinked fault };

    fn from(fault: LinkFault) -> Unlinked {
        match fault {
            LinkFault::Rule {
                rule,
                file,
                index,
                entry,
            } => Unlinked::Refused(Refusal::Link {
                rule,
                file,
                index,
                entry,
            }),
            LinkFault::OutOfMemory => Unlinked::OutOfMemory,
        }
    }
}

/// The objects that files of these bytes denote, in order, with their link map.
///
/// [`Unlinked::Refused`] comes with the first file that is refused, as [`objects_of`] returns it; or else with the first of rules 1 to 11
/// of the link that is broken. Nothing else is refused, out of memory aside.
pub fn mapped_files<'a>(
    alloc: Global,
    files: &[&'a [u8]],
    options: &Options<'_>,
) -> Result<Mapped<'a>, Unlinked>
    ensures { MatchResult result (IsSoundFileMap options.now (map (λ f. f.now) files.now))
        (IsUnlinked options.now (map (λ f. f.now) files.now)) }
{
    let objects = objects_of(alloc, files)?;
    let hasher: BuildHasherDefault<FoldHasher> = BuildHasherDefault::new();
    Ok(Mapped::new(alloc, objects, options, hasher)?)
}
