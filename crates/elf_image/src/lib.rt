//! An ELF-64 file as a value (System V ABI, generic part, chapters 4 and 5): from the bytes of any reader to the bytes on any writer.
//!
//! [`read_to_end`] reads the bytes, and [`resume`] goes on after an allocation that failed. [`verdict`] returns the first rule ([`rules`])
//! that they break, with its lowest offset in the file. [`parse`] makes an [`Image`] of bytes that break no rule. Its accessors return the
//! records, names, contents and parts, and its edits keep it an image. [`write`] writes it.
//!
//! [`scan`] reads a [`Source`], which can be read at any offset, and makes an [`Outline`]: the records and parts without the contents.
//! [`copy_image`] writes the file with the edits of the outline. A source of your own keeps its [`Failures`]. [`Joined`] is one over
//! several lists of bytes, and [`Patched`] another source with one byte changed. With [`ShortReads`] a reader or a source gives few bytes
//! a call. This sets the entry of a file that a reader gives:
//!
//! ```
//! let mut bytes = Vec::new(alloc);
//! read_to_end(&mut reader, &mut bytes)?;
//! let mut image = parse(alloc, &bytes)?;
//! image.set_entry(0x1000);
//! write(&image, &mut writer)?;
//! ```
#![tactic(auto)]

pub mod laws;

pub use elf_image_outline::{
    CopyFault, NoSection, Outline, Owner, Part, ReplaceFault, copy_image, scan,
};
pub use elf_image_rules::{rules, verdict};
pub use elf_image_sources::{JoinFault, Joined, Patched, ShortReads};
pub use elf_image_stream::{
    Bytes, Failed, Failures, Fault, Opened, Seeking, Source, Stream, WriteFault, read_to_end,
    resume,
};
pub use elf_image_type::{Image, parse, write};
