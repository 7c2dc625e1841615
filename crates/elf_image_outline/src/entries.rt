//! Tables of records onto a writer, their entries made as they are written (gABI chapter 4: Symbol Table, Relocation, Section
//! Groups, Sections). They fail as [`write_whole`] does.
ghost use Rattle.std.specs.Prelude.{◌≡◌, ◌<◌, ◌≤◌, ◌+◌, ◌*◌, ◌^◌, drop, get_or, length, take};
ghost use Rattle.std.specs.List.{flat_map};
ghost use Rattle.elf_image_stream.specs.Output.{Writes};

use elf_field::{Order, Record};
use elf_image_stream::output::BLOCK;
use elf_image_stream::{WriteFault, write_whole};
use std::io::Write;

/// The entries of a table, each made when it is asked for.
pub trait Entries {
    ghost use Rattle.std.specs.Prelude.{List};

    /// The kind of record that the table holds.
    type Entry: Record + Copy;

    // all of them
    ghost entries: { Self → List Self.Entry };

    // the numbers that they are made of fit their fields
    ghost fit: { Self → Type 0 };

    /// How many there are.
    fn count(&self) -> usize
        requires { fit self.now }
        ensures { result ≡ length (entries self.now) };

    /// The entry at this index.
    fn entry(&self, index: usize) -> Self::Entry
        requires fit { fit self.now }
        requires within { index < length (entries self.now) }
        ensures { result ≡ get_or (entries self.now) index result };
}

/// Writes the bytes of the entries one after the other, or exactly the first `written` of them, fewer
/// than all, and a fault. As many entries go out at a time as a block holds; no memory is taken.
pub fn write_entries<E: Entries, W: Write>(
    writer: &mut W,
    order: Order,
    entries: &E,
) -> Result<(), WriteFault>
    requires fit { E.fit entries.now }
    requires some { 0 < E.Entry.SIZE }
    requires small { E.Entry.SIZE ≤ BLOCK }
    requires short { E.Entry.SIZE * length (E.entries entries.now) < 2 ^ 64 }
    ensures { Writes (W.contents writer.old) (W.contents writer.new)
        (flat_map (E.Entry.bytes order) (E.entries entries.now)) result }
{
    let all = entries.count();
    let mut block = [0; BLOCK];
    let mut next = 0;
    while next < all {
        let several = (all - next).min(BLOCK / E::Entry::SIZE);
        let bytes = &mut block[..E::Entry::SIZE * several];
        put_entries(order, entries, next, several, bytes);
        match write_whole(writer, bytes) {
            Ok(()) => {}
            Err(fault) => return Err(fault.after((E::Entry::SIZE * next) as u64)),
        }
        next += several;
    }
    Ok(())
}

/// Puts the bytes of several entries from this index on into a slice, which is just as long.
fn put_entries<E: Entries>(order: Order, entries: &E, from: usize, several: usize, bytes: &mut [u8])
    requires fit { E.fit entries.now }
    requires within { from + several ≤ length (E.entries entries.now) }
    requires counted { from + several < 2 ^ 64 }
    requires long { length bytes.old ≡ E.Entry.SIZE * several }
    ensures { bytes.new ≡ flat_map (E.Entry.bytes order) (take several (drop from (E.entries entries.now))) }
{
    for i in 0..several {
        let start = E::Entry::SIZE * i;
        entries
            .entry(from + i)
            .put(order, &mut bytes[start..start + E::Entry::SIZE]);
    }
}

/// Records at hand are the entries of their table.
#[derive(Drop)]
struct RecordEntries<'r, T: Record + Copy> {
    records: &'r [T],
}

impl<'r, T: Record + Copy> Entries for RecordEntries<'r, T> {
    type Entry = T;

    ghost entries = { λ s. s.records.now };

    ghost fit = { λ _. Unit {0} };

    fn count(&self) -> usize {
        self.records.len()
    }

    fn entry(&self, index: usize) -> T {
        self.records[index]
    }
}

/// Writes the bytes of these records one after the other, or exactly the first `written` of them, fewer
/// than all, and a fault. As many records go out at a time as a block holds.
pub fn write_records<T: Record + Copy, W: Write>(
    writer: &mut W,
    order: Order,
    records: &[T],
) -> Result<(), WriteFault>
    requires some { 0 < T.SIZE }
    requires small { T.SIZE ≤ BLOCK }
    requires fits { T.SIZE * length records.now < 2 ^ 64 }
    ensures { Writes (W.contents writer.old) (W.contents writer.new) (flat_map (T.bytes order) records.now) result }
{
    write_entries(writer, order, &RecordEntries { records })
}
