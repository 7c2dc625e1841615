//! Records of a source: one, or a table of them (gABI chapter 4, Data Representation).
ghost use Rattle.std.specs.Prelude.{◌≡◌, ◌<◌, ◌+◌, ◌^◌, ◌≤◌, ◌*◌, ℕ, List, Some, length, IfErr, IfOk, OnOk};
ghost use Rattle.std.specs.List.{AllByRecursion};
ghost use Rattle.elf_image_outline.specs.Records.{ReadsByte, ReadsEnds, Extends, HasTable, IsRecordsFault, ReadsRecord, table_at};

use elf_field::{Order, Record, get_at};
use elf_image_rules::TableEnds;
use elf_image_stream::{Fault, ReadFault, Source, read_exactly};
use std::alloc::{AllocError, AllocFailed, Global};

// The first and the last byte of a string table of a source (gABI chapter 4, String Table).

/// The byte at an offset.
fn read_byte<S: Source>(source: &mut S, at: u64) -> Result<u8, ReadFault>
    requires { at + 1 < 2 ^ 64 }
    ensures kept { S.content source.new ≡ S.content source.old }
    ensures reads { ReadsByte (S.content source.old) (S.failures source.old) (S.failures source.new) at result }
{
    let mut byte = [0; 1];
    read_exactly(source, at, &mut byte)?;
    Ok(byte[0])
}

/// The length and the ends of a table of `len` bytes from an offset on.
///
/// It reads two bytes, but one where the table has one: so some table has these ends, even if the source gives other bytes each time.
/// The fault is that of [`read_exactly`], of the one or the other byte.
pub fn read_ends<S: Source>(source: &mut S, start: u64, len: u64) -> Result<TableEnds, ReadFault>
    requires { start + len < 2 ^ 64 }
    ensures kept { S.content source.new ≡ S.content source.old }
    ensures reads { ReadsEnds (S.content source.old) (S.failures source.old) (S.failures source.new) start len result }
{
    if len == 0 {
        return Ok(TableEnds {
            len,
            first: 0,
            last: 0,
        });
    }
    let first = read_byte(source, start)?;
    if len == 1 {
        return Ok(TableEnds {
            len,
            first,
            last: first,
        });
    }
    let last = read_byte(source, start + len - 1)?;
    Ok(TableEnds { len, first, last })
}

/// No record of the format is longer, in bytes.
pub const LONGEST_RECORD: usize = 64;

/// The size in bytes of the array that a table is read through.
pub const BLOCK: usize = 4096;

/// Why there is no table of records.
#[derive(Clone, Copy, Debug, PartialEq, Eq)]
pub enum RecordsFault {
    /// An allocation failed.
    OutOfMemory,
    /// A call of the source failed, or gave no byte where more were to come, at this offset in bytes.
    Io { at: u64 },
}

impl From<ReadFault> for RecordsFault {
    ghost use Rattle.elf_image_outline.specs.declared.records.RecordsFault.TheVariants.{Io};

    ghost from_gives = { λ failed fault. fault ≡ Io failed.at };

    fn from(failed: ReadFault) -> RecordsFault {
        RecordsFault::Io { at: failed.at }
    }
}

impl From<AllocError> for RecordsFault {
    ghost use Rattle.elf_image_outline.specs.declared.records.RecordsFault.TheVariants.{OutOfMemory};

    ghost from_gives = { λ _ fault. fault ≡ OutOfMemory };

    fn from(_refused: AllocError) -> RecordsFault {
        RecordsFault::OutOfMemory
    }
}

impl<T: Drop> From<AllocFailed<T>> for RecordsFault {
    ghost use Rattle.elf_image_outline.specs.declared.records.RecordsFault.TheVariants.{OutOfMemory};

    ghost from_gives = { λ _ fault. fault ≡ OutOfMemory };

    fn from(_refused: AllocFailed<T>) -> RecordsFault {
        RecordsFault::OutOfMemory
    }
}

impl From<RecordsFault> for Fault {
    ghost use Rattle.elf_image_outline.specs.Records.{records_fault};

    ghost from_gives = { λ refused fault. fault ≡ records_fault refused };

    fn from(refused: RecordsFault) -> Fault {
        match refused {
            RecordsFault::OutOfMemory => Fault::OutOfMemory,
            RecordsFault::Io { at } => Fault::Io { at },
        }
    }
}

/// The record at an offset, read as [`read_exactly`] reads its bytes, whose fault it returns. Takes no memory.
pub fn read_record<T: Record, S: Source>(
    source: &mut S,
    order: Order,
    at: u64,
) -> Result<T, ReadFault>
    requires small { T.SIZE ≤ LONGEST_RECORD }
    requires fits { at + T.SIZE < 2 ^ 64 }
    ensures kept { S.content source.new ≡ S.content source.old }
    ensures reads { ReadsRecord (T.at order) T.IsValid T.SIZE (S.content source.old) (S.failures source.old) (S.failures source.new) at
        result }
{
    let mut block = [0; LONGEST_RECORD];
    let bytes = &mut block[..T::SIZE];
    read_exactly(source, at, bytes)?;
    let record = T::get(order, bytes);
    record.fits();
    Ok(record)
}

/// Puts the records that these bytes are after the others.
fn push_records<T: Record + Drop>(
    order: Order,
    bytes: &[u8],
    several: usize,
    records: &mut Vec<T>,
) -> Result<(), AllocError>
    requires { length bytes.now ≡ T.SIZE * several }
    ensures many { OnOk result (length records.new.items ≡ length records.old.items + several) }
    ensures valid { OnOk result (AllByRecursion T.IsValid records.old.items → AllByRecursion T.IsValid records.new.items) }
    ensures known { OnOk result (Extends (λ i. T.at order bytes.now (T.SIZE * i)) several records.old.items records.new.items) }
{
    for i in 0..several {
        let record: T = get_at(order, bytes, T::SIZE * i);
        record.fits();
        records.push(record)?;
    }
    Ok(())
}

/// Reads so many records more, which one array holds, of a table at an offset.
fn read_several<T: Record + Drop, S: Source>(
    source: &mut S,
    order: Order,
    at: u64,
    several: usize,
    records: &mut Vec<T>,
) -> Result<(), RecordsFault>
    requires small { T.SIZE * several ≤ BLOCK }
    requires fits { at + T.SIZE * several < 2 ^ 64 }
    ensures kept { S.content source.new ≡ S.content source.old }
    ensures failures { OnOk result (S.failures source.new ≡ S.failures source.old) }
    ensures many { OnOk result (length records.new.items ≡ length records.old.items + several) }
    ensures valid { OnOk result (AllByRecursion T.IsValid records.old.items → AllByRecursion T.IsValid records.new.items) }
    ensures known { OnOk result ((b : List ℕ) (table from : ℕ) → S.content source.old ≡ Some b → at ≡ table + T.SIZE * from →
        records.old.items ≡ table_at (T.at order) T.SIZE b table from →
        records.new.items ≡ table_at (T.at order) T.SIZE b table (from + several)) }
    ensures err { IfErr result
        (IsRecordsFault (S.content source.old) (S.failures source.old) (S.failures source.new) at (T.SIZE * several)) }
{
    let mut block = [0; BLOCK];
    let bytes = &mut block[..T::SIZE * several];
    read_exactly(source, at, bytes)?;
    push_records(order, bytes, several, records)?;
    Ok(())
}

/// The table of so many records at an offset, read through one array of [`BLOCK`] bytes.
///
/// [`RecordsFault::OutOfMemory`] comes if memory for the table is refused, before anything is read, and [`RecordsFault::Io`] as
/// [`read_exactly`] returns it of the block at which a read failed. Linear in the table's length.
pub fn read_records<T: Record + Drop, S: Source>(
    alloc: Global,
    source: &mut S,
    order: Order,
    at: u64,
    count: usize,
) -> Result<Vec<T>, RecordsFault>
    requires some { 0 < T.SIZE }
    requires small { T.SIZE ≤ BLOCK }
    requires fits { 0 < count → at + T.SIZE * count < 2 ^ 64 }
    ensures kept { S.content source.new ≡ S.content source.old }
    ensures ok { IfOk result
        (λ v. HasTable (T.at order) T.IsValid T.SIZE (S.content source.old) (S.failures source.old) (S.failures source.new) at
        count v.items) }
    ensures err { IfErr result (IsRecordsFault (S.content source.old) (S.failures source.old) (S.failures source.new) at (T.SIZE * count)) }
{
    let mut records = Vec::with_capacity(alloc, count)?;
    let mut next = 0;
    while next < count {
        let several = (count - next).min(BLOCK / T::SIZE);
        let from = at + (T::SIZE * next) as u64;
        match read_several(source, order, from, several, &mut records) {
            Ok(()) => next += several,
            Err(fault) => return Err(fault),
        }
    }
    Ok(records)
}
