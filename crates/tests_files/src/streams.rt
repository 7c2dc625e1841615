//! Readers, sources and writers that give or take a little, or fail at one call.
ghost use Rattle.std.specs.Prelude.{◌≡◌, IfOk, ◌≤◌, length};
ghost use Rattle.elf_image_stream.specs.Source.{no_failures};

use elf_image_sources::ShortReads;
use elf_image_stream::{Bytes, Failed, Failures, Source};
use std::alloc::Global;
use std::io;
use std::io::{ErrorKind, Read, Write};

/// Gives its bytes at most `piece` at a time. The call of number `failing`, counted from 1, fails and gives none, and no other.
#[derive(Drop)]
pub struct OnceFailingReader<'a> {
    pub rest: ShortReads<&'a [u8]>,
    pub failing: u64,
    /// How many calls there were.
    pub calls: u64,
}

impl<'a> OnceFailingReader<'a> {
    pub fn new(bytes: &'a [u8], piece: usize, failing: u64) -> OnceFailingReader<'a> {
        OnceFailingReader {
            rest: ShortReads::new(bytes, piece),
            failing,
            calls: 0,
        }
    }
}

impl Read for OnceFailingReader<'_> {
    fn read(&mut self, buf: &mut [u8]) -> io::Result<usize> {
        self.calls = self.calls.saturating_add(1);
        if self.calls == self.failing {
            return Err(ErrorKind::Interrupted.into());
        }
        self.rest.read(buf)
    }
}

/// A source over bytes that gives at most `piece` of them a call. The call of `read_at` of number `failing`, counted from 1, fails, or
/// gives no byte where `gives_none`. Every other call succeeds.
#[derive(Drop)]
pub struct PartialSource<'a> {
    pub bytes: &'a [u8],
    pub piece: usize,
    pub failing: u64,
    pub gives_none: bool,
    /// How many calls of `read_at` there were, and of `length`.
    pub calls: u64,
    pub lengths: u64,
    /// The most bytes that a call was asked for.
    pub longest: usize,
    pub failures: Failures,
}

impl<'a> PartialSource<'a> {
    pub fn new(bytes: &'a [u8], piece: usize) -> PartialSource<'a>
        ensures { result.failures ≡ no_failures }
    {
        PartialSource {
            bytes,
            piece,
            failing: 0,
            gives_none: false,
            calls: 0,
            lengths: 0,
            longest: 0,
            failures: Failures::NONE,
        }
    }
}

impl PartialSource<'_> {
    /// What the next call of `read_at` answers.
    fn answer(&mut self, at: u64, buf: &mut [u8]) -> Result<usize, Failed>
        ensures bound { IfOk result (λ k. k ≤ length buf.new) }
        ensures same { length buf.new ≡ length buf.old }
        ensures kept { self.new.failures ≡ self.old.failures }
    {
        self.calls = self.calls.saturating_add(1);
        self.longest = self.longest.max(buf.len());
        if self.calls == self.failing && self.gives_none {
            return Ok(0);
        }
        if self.calls == self.failing {
            return Err(Failed);
        }
        let room = self.piece.min(buf.len());
        Ok(Bytes(self.bytes).copy_at(at, &mut buf[..room]))
    }
}

impl Source for PartialSource<'_> {
    ghost failures = { λ s. s.failures };

    fn length(&mut self) -> Result<u64, Failed> {
        self.lengths = self.lengths.saturating_add(1);
        Ok(self.bytes.len() as u64)
    }

    fn read_at(&mut self, at: u64, buf: &mut [u8]) -> Result<usize, Failed> {
        let room = buf.len();
        let read = self.answer(at, buf);
        self.failures = self.failures.and_read(at, room, &read);
        read
    }
}

/// How many bytes a call of a `Sink` takes, and how many it takes in all.
const PIECE: usize = 8;

const CAPACITY: usize = 512;

/// Takes a piece a call. It needs no memory.
#[derive(Drop)]
pub struct Sink {
    bytes: [u8; CAPACITY],
    len: usize,
    /// How many calls had no bytes, and how many flushes there were.
    pub empty_calls: usize,
    pub flushes: usize,
}

impl Sink {
    /// One that has taken nothing yet.
    pub fn new() -> Sink {
        Sink {
            bytes: [0; CAPACITY],
            len: 0,
            empty_calls: 0,
            flushes: 0,
        }
    }

    /// What it took.
    pub fn text(&self) -> &[u8] {
        &self.bytes[..self.len.min(CAPACITY)]
    }
}

impl Write for Sink {
    fn write(&mut self, buf: &[u8]) -> io::Result<usize> {
        if buf.is_empty() {
            self.empty_calls = self.empty_calls.saturating_add(1);
        }
        let start = self.len.min(CAPACITY);
        let count = buf.len().min(PIECE).min(CAPACITY - start);
        self.bytes[start..start + count].copy_from_slice(&buf[..count]);
        self.len = start + count;
        Ok(count)
    }

    fn flush(&mut self) -> io::Result<()> {
        self.flushes = self.flushes.saturating_add(1);
        Ok(())
    }
}

/// Takes at most `piece` bytes at a time, and notes how many it is offered. The call of number `failing`, counted from 1, fails, and no
/// other.
#[derive(Drop)]
pub struct OnceFailingWriter {
    pub bytes: Vec<u8>,
    pub piece: usize,
    pub failing: usize,
    pub offers: Vec<usize>,
    pub flushes: usize,
}

impl OnceFailingWriter {
    /// One that has taken nothing yet.
    pub fn new(alloc: Global, piece: usize, failing: usize) -> OnceFailingWriter {
        OnceFailingWriter {
            bytes: Vec::new(alloc),
            piece,
            failing,
            offers: Vec::new(alloc),
            flushes: 0,
        }
    }
}

impl Write for OnceFailingWriter {
    fn write(&mut self, buf: &[u8]) -> io::Result<usize> {
        self.offers.push(buf.len())?;
        if self.offers.len() == self.failing {
            return Err(ErrorKind::Interrupted.into());
        }
        let count = self.piece.min(buf.len());
        self.bytes.extend_from_slice(&buf[..count])?;
        Ok(count)
    }

    fn flush(&mut self) -> io::Result<()> {
        self.flushes = self.flushes.saturating_add(1);
        Ok(())
    }
}

/// Takes all that it is given, and keeps its length and the last byte.
#[derive(Drop)]
pub struct Counter {
    pub taken: u64,
    pub last: u8,
}

impl Write for Counter {
    fn write(&mut self, buf: &[u8]) -> io::Result<usize> {
        self.taken = self.taken.saturating_add(buf.len() as u64);
        if let Some(byte) = buf.last() {
            self.last = *byte;
        }
        Ok(buf.len())
    }

    // The library flushes no writer.
    fn flush(&mut self) -> io::Result<()> {
        Err(ErrorKind::Other.into())
    }
}
