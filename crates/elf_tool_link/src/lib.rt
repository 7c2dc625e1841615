//! The engines of `elfmap map` and `elfmap link`, over any readers and any writer. [`map`] reads each file whole, links them without
//! writing a linked file, and writes where each part would be, and with relocation rules the bytes of each; [`map_files`] has the files'
//! bytes. [`link`] reads each file whole, links them, and writes the executable; [`link_files`] has the files' bytes; [`link_verdict`] says
//! of these whether they link. [`map_length`] and [`link_length`] say how long what is written of them is. [`record_of`] finds the record
//! that a broken rule of the link is about, and [`first_definition`] the definition before one that is the second.
//!
//! `map` and `link` begin with [`mapped_files`]. It returns the objects ([`objects_of`]) with their link map, or what is refused, in an
//! [`Unlinked`].
//!
//! ```
//! // `bytes` are those of an object file. A base that is no multiple of the page is the first of the link's rules.
//! let options = Options { base: 0x1001, page: 0x1000, entry: Some(b"main") };
//! let verdict = map(alloc, &mut [bytes], &options, None, &mut out);
//! assert_eq!(rt; out.as_slice(), b"refused 1 0 0 0\n".as_slice());
//! let verdict = link(alloc, &mut [bytes], &options, &[], &mut out)?;
//! assert_eq!(rt; verdict, Verdict::Refused(Refusal::Link { rule: 1, file: 0, index: 0, entry: 0 }));
//! ```
#![tactic(auto)]

mod definitions;
mod inputs;
pub mod laws;
mod lengths;
mod linking;
mod map_lines;
mod map_text;
mod mapped;
mod mapping;
mod places;
mod verdicts;

pub use definitions::first_definition;
pub use elf_link_map::Options;
pub use elf_tool_check::{Refusal, ToolFault, Verdict};
pub use lengths::{link_length, map_length};
pub use linking::{link, link_files};
pub use mapped::{FileFault, Unlinked, mapped_files, objects_of};
pub use mapping::{map, map_files};
pub use places::{RecordPlace, record_of};
pub use verdicts::link_verdict;
