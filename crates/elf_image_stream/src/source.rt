//! Bytes that are read at any place, as those of a file on a disk.
ghost use Rattle.std.specs.Prelude.{◌≡◌, ◌≤◌, length, IfOk, None, ◌-◌, ◌++◌, Ok, drop, min, take, ◌<◌, ◌+◌, ◌^◌};
ghost use Rattle.elf_field.specs.Bytes.{IsBytes};
ghost use Rattle.elf_image_stream.specs.Source.{GivesFrom, RemembersCall, RemembersRead, ReportsBytes, SaysLength};
ghost use Rattle.elf_image_stream.specs.Source.{Fails, Reads, no_failures};

use crate::fault::Fault;
use std::io::{Cursor, Read, Seek, SeekFrom};
use thiserror::Error;

/// A call of a source failed.
#[derive(Clone, Copy, Debug, PartialEq, Eq, Error)]
#[error("a call of the source failed")]
pub struct Failed;

/// Bytes that are read at any place.
///
/// A source remembers its calls that failed, and reports its bytes or doesn't. Of one that reports them no call changes them. A file's
/// source does not report: a file may change while it is read. One that does not report keeps [`Failures`](crate::Failures):
/// `and_one_at(0)` after a length that failed, and `and_read` after each read.
pub trait Source {
    ghost use Rattle.std.specs.Prelude.{ℕ, List, None, Option};
    ghost use Rattle.elf_image_stream.specs.declared.source.Failures.{Failures};

    // The bytes, where the source reports them.
    ghost content: { Self → Option (List ℕ) } = { λ _. None };

    // The calls that failed.
    ghost failures: { Self → Failures };

    /// How many bytes there are. [`Failed`] if the call fails, which was asked for offset 0 then.
    fn length(&mut self) -> Result<u64, Failed>
        ensures kept { content self.new ≡ content self.old }
        ensures failures { RemembersCall 0 (failures self.old) (failures self.new) result }
        ensures bytes { ReportsBytes (content self.old) }
        ensures length { SaysLength (content self.old) result };

    /// Reads bytes from offset `at` on to the front of `buf`, and returns how many. They may be fewer than `buf` can hold, but 0 only if no
    /// byte is at the offset, or `buf` is empty. [`Failed`] if the call fails; `buf` may have changed then. A call that returns 0 counts as
    /// failed too, if `buf` is not empty and the source does not report its bytes.
    fn read_at(&mut self, at: u64, buf: &mut [u8]) -> Result<usize, Failed>
        ensures kept { content self.new ≡ content self.old }
        ensures failures { RemembersRead (content self.old) at (length buf.old) (failures self.old) (failures self.new) result }
        ensures bound { IfOk result (λ k. k ≤ length buf.new) }
        ensures same { length buf.new ≡ length buf.old }
        ensures bytes { GivesFrom (content self.old) at result buf.new };
}

// What a source remembers of its calls that failed.

/// The calls of a source that failed: how many, modulo 2^64, and the offset that the last of them was asked for.
#[derive(Clone, Copy, Debug, PartialEq, Eq)]
pub struct Failures {
    /// How many calls failed, modulo 2^64.
    pub count: u64,
    /// The offset in bytes that the last of them was asked for: 0 for a length.
    pub last: u64,
}

impl Failures {
    /// No call failed.
    pub const NONE: Failures = Failures { count: 0, last: 0 };

    /// These, and a call more that failed, which was asked for this offset.
    pub fn and_one_at(self, at: u64) -> Failures
        ensures { Fails self result at }
    {
        Failures {
            count: self.count.wrapping_add(1),
            last: at,
        }
    }

    /// These, and a read from this offset into `room` bytes, of a source that does not report its bytes. The read failed if it returned an
    /// error, or no byte though `room` is not 0.
    pub fn and_read(self, at: u64, room: usize, read: &Result<usize, Failed>) -> Failures
        ensures { RemembersRead None at room self result read.now }
    {
        match *read {
            Ok(count) if count > 0 || room == 0 => self,
            _ => self.and_one_at(at),
        }
    }
}

// Bytes in memory as a source.

/// Bytes in memory. It reports them, gives all of them that a read asks for and that are there, and never fails.
#[derive(Clone, Copy, Debug)]
pub struct Bytes<'a>(pub &'a [u8]);

impl<'a> Source for Bytes<'a> {
    ghost use Rattle.std.specs.Prelude.{Some};
    ghost use Rattle.elf_image_stream.specs.Source.{GivesFrom, RemembersRead, no_failures};

    ghost content = { λ s. Some s.0.now };

    ghost failures = { λ _. no_failures };

    fn length(&mut self) -> Result<u64, Failed> {
        prove_bytes(self.0);
        Ok(self.0.len() as u64)
    }

    fn read_at(&mut self, at: u64, buf: &mut [u8]) -> Result<usize, Failed>
        ensures kept { Some self.new.0.now ≡ Some self.old.0.now }
        ensures failures { RemembersRead (Some self.old.0.now) at (length buf.old) no_failures no_failures result }
        ensures bound { IfOk result (λ k. k ≤ length buf.new) }
        ensures same { length buf.new ≡ length buf.old }
        ensures bytes { GivesFrom (Some self.old.0.now) at result buf.new }
        ensures all { result ≡ Ok (min (length self.old.0.now - at) (length buf.old)) }
    {
        Ok(self.copy_at(at, buf))
    }
}

/// Proves that each byte of a slice is below 2^8: the type of a slice that is part of a value does not say it. It does nothing.
fn prove_bytes(_bytes: &[u8])
    ensures { IsBytes _bytes.now }
{}

impl Bytes<'_> {
    /// Copies the bytes from offset `at` on to the front of `buf`, as many as are there and as `buf` can hold, and returns how many.
    pub fn copy_at(&self, at: u64, buf: &mut [u8]) -> usize
        ensures all { result ≡ min (length self.now.0.now - at) (length buf.old) }
        ensures bytes { buf.new ≡ take result (drop at self.now.0.now) ++ drop result buf.old }
    {
        if at >= self.0.len() as u64 {
            return 0;
        }
        let rest = &self.0[at as usize..];
        let count = rest.len().min(buf.len());
        buf[..count].copy_from_slice(&rest[..count]);
        count
    }
}

// What seeks and reads, as an open file, as a source.

/// Bytes with a position in them, as those of an open file.
pub trait Stream {
    ghost use Rattle.std.specs.Prelude.{◌≡◌, ◌≢◌, ◌≤◌, true, false, ℕ, List, None, Option, Some, IfOk, IfSome, OnOk, drop, length};
    ghost use Rattle.elf_image_stream.specs.Source.{GivesAt, ReportsBytes, SaysLength};

    // All bytes from offset 0 on, where they are known.
    ghost bytes: { Self → Option (List ℕ) } = { λ _. None };

    // Those from the position on.
    ghost rest: { Self → Option (List ℕ) } = { λ _. None };

    /// Whether the bytes are known.
    fn is_known(&self) -> bool
        ensures known { result ≡ true → bytes self.now ≢ None }
        ensures unknown { result ≡ false → bytes self.now ≡ None };

    /// Moves the position to this offset.
    fn go_to(&mut self, at: u64) -> Result<(), Failed>
        ensures kept { bytes self.new ≡ bytes self.old }
        ensures moved { OnOk result (IfSome (bytes self.old) (λ b. rest self.new ≡ Some (drop at b))) };

    /// Moves the position to the end, and returns it.
    fn end(&mut self) -> Result<u64, Failed>
        ensures kept { bytes self.new ≡ bytes self.old }
        ensures bytes { ReportsBytes (bytes self.old) }
        ensures length { SaysLength (bytes self.old) result };

    /// Reads bytes at the position to the front of `buf`, and returns how many. They may be fewer than `buf` can hold.
    fn read_on(&mut self, buf: &mut [u8]) -> Result<usize, Failed>
        ensures kept { bytes self.new ≡ bytes self.old }
        ensures bound { IfOk result (λ k. k ≤ length buf.new) }
        ensures same { length buf.new ≡ length buf.old }
        ensures gives { IfOk result (λ k. IfSome (rest self.old) (λ r. GivesAt r 0 k buf.new)) };
}

/// What the machine seeks and reads. Its bytes are not known: a file may change while it is read.
#[derive(Debug, Drop)]
pub struct Opened<F>(pub F);

impl<F: Read + Seek> Stream for Opened<F> {
    fn is_known(&self) -> bool {
        false
    }

    fn go_to(&mut self, at: u64) -> Result<(), Failed> {
        match self.0.seek(SeekFrom::Start(at)) {
            Ok(_) => Ok(()),
            Err(_) => Err(Failed),
        }
    }

    fn end(&mut self) -> Result<u64, Failed> {
        match self.0.seek(SeekFrom::End(0)) {
            Ok(length) => Ok(length),
            Err(_) => Err(Failed),
        }
    }

    fn read_on(&mut self, buf: &mut [u8]) -> Result<usize, Failed> {
        match self.0.read(buf) {
            Ok(count) => Ok(count),
            Err(_) => Err(Failed),
        }
    }
}

/// Bytes in memory with a position. They are known.
impl<'a> Stream for Cursor<&'a [u8]> {
    ghost use Rattle.std.specs.Prelude.{Some, drop};
    ghost use Rattle.std.specs.Io.Cursor.{cursor_inner, cursor_position};

    ghost bytes = { λ c. Some (cursor_inner c).now };

    ghost rest = { λ c. Some (drop (cursor_position c) (cursor_inner c).now) };

    fn is_known(&self) -> bool {
        true
    }

    fn go_to(&mut self, at: u64) -> Result<(), Failed> {
        match self.seek(SeekFrom::Start(at)) {
            Ok(_) => Ok(()),
            Err(_) => Err(Failed),
        }
    }

    fn end(&mut self) -> Result<u64, Failed> {
        prove_bytes(self.get_ref());
        match self.seek(SeekFrom::End(0)) {
            Ok(length) => Ok(length),
            Err(_) => Err(Failed),
        }
    }

    fn read_on(&mut self, buf: &mut [u8]) -> Result<usize, Failed> {
        match self.read(buf) {
            Ok(count) => Ok(count),
            Err(_) => Err(Failed),
        }
    }
}

/// Goes to each offset and reads there. It reports the bytes of its stream, where they are known. A call of the stream that fails counts as
/// a failed call: an interruption too, and of [`Opened`] a read that returns no byte though the buffer is not empty.
#[derive(Debug, Drop)]
pub struct Seeking<F> {
    inner: F,
    failures: Failures,
}

impl<F> Seeking<F> {
    /// A source over this stream, no call of which has failed.
    pub fn new(inner: F) -> Seeking<F>
        ensures inner { result.inner ≡ inner }
        ensures failures { result.failures ≡ no_failures }
    {
        Seeking {
            inner,
            failures: Failures::NONE,
        }
    }
}

/// One move to the offset, and one read there.
fn read_there<F: Stream>(stream: &mut F, at: u64, buf: &mut [u8]) -> Result<usize, Failed>
    ensures kept { F.bytes stream.new ≡ F.bytes stream.old }
    ensures bound { IfOk result (λ k. k ≤ length buf.new) }
    ensures same { length buf.new ≡ length buf.old }
    ensures gives { GivesFrom (F.bytes stream.old) at result buf.new }
{
    stream.go_to(at)?;
    stream.read_on(buf)
}

impl<F: Stream> Source for Seeking<F> {
    ghost content = { λ s. F.bytes s.inner };

    ghost failures = { λ s. s.failures };

    fn length(&mut self) -> Result<u64, Failed> {
        match self.inner.end() {
            Ok(length) => Ok(length),
            Err(_) => {
                self.failures = self.failures.and_one_at(0);
                Err(Failed)
            }
        }
    }

    fn read_at(&mut self, at: u64, buf: &mut [u8]) -> Result<usize, Failed> {
        let room = buf.len();
        let read = read_there(&mut self.inner, at, buf);
        if read.is_err() || !self.inner.is_known() {
            self.failures = self.failures.and_read(at, room, &read);
        }
        read
    }
}

// Whole reads: as many bytes as are asked for, however the source's reads are cut.

/// A call of a source failed, or gave no byte where more were to come.
#[derive(Clone, Copy, Debug, PartialEq, Eq)]
pub struct ReadFault {
    /// The offset, in bytes, that the call was asked for.
    pub at: u64,
}

impl From<ReadFault> for Fault {
    ghost use Rattle.elf_image_stream.specs.declared.fault.Fault.TheVariants.{Io};

    ghost from_gives = { λ failed fault. fault ≡ Io failed.at };

    fn from(failed: ReadFault) -> Fault {
        Fault::Io { at: failed.at }
    }
}

/// One read at an offset into `buf` after its first `filled` bytes, which stay.
fn read_more<S: Source>(
    source: &mut S,
    at: u64,
    buf: &mut [u8],
    filled: usize,
) -> Result<usize, Failed>
    requires { filled < length buf.old }
    ensures kept { S.content source.new ≡ S.content source.old }
    ensures failures { RemembersRead (S.content source.old) at
        (length buf.old - filled) (S.failures source.old) (S.failures source.new) result }
    ensures bound { IfOk result (λ k. filled + k ≤ length buf.new) }
    ensures same { length buf.new ≡ length buf.old }
    ensures front { take filled buf.new ≡ take filled buf.old }
    ensures bytes { GivesFrom (S.content source.old) at result (drop filled buf.new) }
{
    source.read_at(at, &mut buf[filled..])
}

/// Reads all of `buf` from offset `at` on.
///
/// [`ReadFault`] if a call of the source fails, or returns no byte though the buffer is not full. It has the offset that this call was
/// asked for. Nothing is tried again.
pub fn read_exactly<S: Source>(source: &mut S, at: u64, buf: &mut [u8]) -> Result<(), ReadFault>
    requires { at + length buf.old < 2 ^ 64 }
    ensures kept { S.content source.new ≡ S.content source.old }
    ensures same { length buf.new ≡ length buf.old }
    ensures reads { Reads (S.content source.old) (S.failures source.old) (S.failures source.new) at buf.new result }
{
    let mut filled = 0;
    while filled < buf.len() {
        let from = at + filled as u64;
        match read_more(source, from, buf, filled) {
            Ok(count) if count > 0 => filled += count,
            _ => return Err(ReadFault { at: from }),
        }
    }
    Ok(())
}
