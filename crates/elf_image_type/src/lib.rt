//! An ELF-64 file as a value (System V ABI, generic part, chapters 4 and 5): from its bytes to the bytes on any writer.
//!
//! [`parse`] validates a file's bytes and makes an [`Image`]. Its accessors return the file's records, names, contents and parts, and its
//! edits keep it an image. [`write`] writes it. This sets the entry of a file that a reader gives, with `read_to_end` of
//! `elf_image_stream`:
//!
//! ```
//! let mut bytes = Vec::new(alloc);
//! read_to_end(&mut reader, &mut bytes)?;
//! let mut image = parse(alloc, &bytes)?;
//! image.set_entry(0x1000);
//! write(&image, &mut writer)?;
//! ```
#![tactic(auto)]

mod files;
mod image;
pub mod laws;
mod loading;
pub mod strings;

pub use elf_image_rules::verdict;
pub use files::{identification, parse, parse_bytes, write};
pub use image::Image;
