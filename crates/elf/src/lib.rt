//! elfmap as a library: ELF-64 files and what they hold (System V ABI, generic part, chapters 4 and 5), each layer a module.
//!
//! | module | what it is for |
//! |---|---|
//! | [`field`] | the records of the format, in both byte orders |
//! | [`extent`] | extents of a file: bytes that two of them share, an account of every byte, least places |
//! | [`image`] | any ELF-64 file: read, validated, edited, written |
//! | [`table`] | the tables in it: strings, symbols, relocations, groups, notes, dynamic arrays, hash tables |
//! | [`object`] | a relocatable file as a typed object, and its canonical layout |
//! | [`link`] | the link of objects: the link map, and relocated bytes |
//! | [`exec`] | the executable of a link |
//! | [`tool`] | the program `elfmap`, over any readers and writers |
//!
//! Seven programs show what people do with it, in 40 to 150 lines, each in a crate of its name:
//!
//! | program | what it shows |
//! |---|---|
//! | `example_report FILE` | reading a file, and asking its image for the entry, with a contract on that; the template of an application |
//! | `example_symbols FILE` | reading a file, validating it, and listing the symbols of its tables |
//! | `example_make` | making an object from nothing, reading it back from its file, and writing its canonical layout |
//! | `example_edit FILE` | writing a file's image, also with edits; with `--seek` by a source of its own, without its contents in memory |
//! | `example_strip` | leaving the debug sections of an object out, with a contract on what it writes |
//! | `example_link A B` | linking two objects, relocating their bytes, writing the executable, and asking it for a byte of memory |
//! | `example_program A B C WORD..` | running the whole program over files in memory, with a contract on what it prints |
//!
//! ```
//! use elf::image::{parse, verdict};
//!
//! assert_eq!(rt; verdict(&bytes), None);
//! let image = parse(alloc, &bytes)?;
//! ```
//!
//! A clause of a crate that stands on this one names the definitions of each module below `Rattle.elf.specs`, as
//! `Rattle.elf.specs.image.Rules.{IsFault}`, and its structs and enums in `Types` there.
//!
//! A source, a row of extents and what opens files can be of one's own: the ghost members of the trait say what the value represents, and
//! the check asks of the methods what the trait promises of it. A source that counts the reads of another one, as the crate `example_edit`
//! has it; a row of two extents; and a shelf with one file:
//!
//! ```
//! use elf::extent::{Extent, Row};
//! use elf::image::{Bytes, Failed, Source};
//! use elf::tool::{OpenFault, Opener};
//!
//! struct Counting<S> {
//!     inner: S,
//!     reads: u64,
//! }
//!
//! impl<S: Source> Source for Counting<S> {
//!     ghost content = { λ s. S.content s.inner };
//!     ghost failures = { λ s. S.failures s.inner };
//!
//!     fn length(&mut self) -> Result<u64, Failed> {
//!         self.inner.length()
//!     }
//!
//!     fn read_at(&mut self, at: u64, buf: &mut [u8]) -> Result<usize, Failed> {
//!         self.reads = self.reads.saturating_add(1);
//!         self.inner.read_at(at, buf)
//!     }
//! }
//!
//! struct Two {
//!     extents: [Extent; 2],
//!     looks: u64,
//! }
//!
//! impl Row for Two {
//!     ghost extents = { λ row. row.extents };
//!     ghost looks = { λ row. row.looks };
//!
//!     fn len(&self) -> usize {
//!         2
//!     }
//!
//!     fn at(&mut self, k: usize) -> Extent {
//!         self.looks += 1;
//!         self.extents[k]
//!     }
//! }
//!
//! struct Shelf<'a> {
//!     name: &'a str,
//!     bytes: &'a [u8],
//! }
//!
//! impl<'a> Opener for Shelf<'a> {
//!     type Input = &'a [u8];
//!     type Seek = Bytes<'a>;
//!
//!     fn reader(&mut self, name: &str) -> Result<&'a [u8], OpenFault> {
//!         if name == self.name { Ok(self.bytes) } else { Err(OpenFault::Refused) }
//!     }
//!
//!     fn source(&mut self, name: &str) -> Result<Bytes<'a>, OpenFault> {
//!         Ok(Bytes(self.reader(name)?))
//!     }
//! }
//! ```
#![tactic(auto)]

pub use elf_exec as exec;
pub use elf_extent as extent;
pub use elf_field as field;
pub use elf_image as image;
pub use elf_link as link;
pub use elf_object as object;
pub use elf_table as table;
pub use elf_tool as tool;
