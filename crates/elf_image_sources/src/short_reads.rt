//! Reads that give few bytes.
ghost use Rattle.std.specs.Prelude.{◌≡◌, ◌≤◌, IfOk, length, max, min};
ghost use Rattle.std.specs.Io.{ReadsAtMost};
ghost use Rattle.std.specs.Io.KnownBytes.{ReadConsumes};
ghost use Rattle.elf_image_stream.specs.Source.{GivesFrom, RemembersRead};

use elf_image_stream::{Failed, Source};
use std::io;
use std::io::Read;

/// Another reader or source, of which a call gives at most so many bytes. It has the bytes and the failures of the other one.
#[derive(Debug, Drop)]
pub struct ShortReads<T> {
    inner: T,
    most: usize,
}

impl<T> ShortReads<T> {
    /// The reader or source `inner`, with at most `most` bytes a call. 0 counts as 1: a call that gives no byte would mean the end.
    pub fn new(inner: T, most: usize) -> ShortReads<T>
        ensures inner { result.inner ≡ inner }
        ensures most { result.most ≡ most }
    {
        ShortReads { inner, most }
    }

    /// How many bytes a call asks for that may ask for `len`.
    fn room(&self, len: usize) -> usize
        ensures { result ≡ min len (max self.now.most 1) }
    {
        len.min(self.most.max(1))
    }
}

impl<R: Read> Read for ShortReads<R> {
    ghost remaining = { λ reader. R.remaining reader.inner };

    /// At most `most` bytes, by one call of the other reader.
    fn read(&mut self, buf: &mut [u8]) -> io::Result<usize>
        ensures bound { ReadsAtMost result buf.new }
        ensures bytes { ReadConsumes (R.remaining self.old.inner) (R.remaining self.new.inner) result buf.new }
        ensures short { IfOk result (λ count. count ≤ max self.old.most 1) }
        ensures most { self.new.most ≡ self.old.most }
    {
        let room = self.room(buf.len());
        self.inner.read(&mut buf[..room])
    }
}

impl<S: Source> Source for ShortReads<S> {
    ghost content = { λ s. S.content s.inner };

    ghost failures = { λ s. S.failures s.inner };

    fn length(&mut self) -> Result<u64, Failed> {
        self.inner.length()
    }

    /// At most `most` bytes, by one call of the other source.
    fn read_at(&mut self, at: u64, buf: &mut [u8]) -> Result<usize, Failed>
        ensures kept { S.content self.new.inner ≡ S.content self.old.inner }
        ensures failures { RemembersRead (S.content self.old.inner) at (length buf.old)
            (S.failures self.old.inner) (S.failures self.new.inner) result }
        ensures bound { IfOk result (λ count. count ≤ length buf.new) }
        ensures same { length buf.new ≡ length buf.old }
        ensures bytes { GivesFrom (S.content self.old.inner) at result buf.new }
        ensures short { IfOk result (λ count. count ≤ max self.old.most 1) }
        ensures most { self.new.most ≡ self.old.most }
    {
        let room = self.room(buf.len());
        self.inner.read_at(at, &mut buf[..room])
    }
}
