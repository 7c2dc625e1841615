//! A file's records and what each of its bytes belongs to, without its contents (gABI chapters 4 and 5), and what an image is as a value.
//!
//! [`scan`] reads an [`Outline`] of any source: the header, the section headers and program headers, and the [`Part`]s of a file that
//! breaks no rule. Its edits change its own fields alone. `scanning` is the recipe of a scan: its head, its tables, its names, and the
//! verdict of `validated`. [`outline_of`] makes the outline of a file in memory.
//! [`copy_image`] writes the image of an outline, edited or as read, from the source that it was read of onto any writer, so that a file
//! is edited on a disk without its contents in memory. [`read_record`], [`read_records`] and [`read_ends`] read records and string tables
//! of a source, and [`write_entries`] writes a table whose entries are made as they are written.
//!
//! ```
//! let mut source = Seeking::new(Opened(file));
//! let mut outline = scan(alloc, &mut source)?;
//! outline.set_entry(0x1000);
//! copy_image(&outline, &mut source, &mut writer)?;
//! ```
#![tactic(auto)]

mod copying;
mod entries;
mod extents;
mod in_memory;
mod outline;
mod records;
mod scanning;
mod validated;

pub use copying::{CopyFault, copy_image};
pub use entries::{Entries, write_entries, write_records};
pub use in_memory::outline_of;
pub use outline::{NoSection, Outline, Owner, Part, ReplaceFault};
pub use records::{RecordsFault, read_ends, read_record, read_records};
pub use scanning::scan;
