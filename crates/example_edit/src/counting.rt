//! A source of one's own: what it has to promise is said by the trait, and is found to hold.

use elf_image::{Failed, Source};

/// Another source, of which it counts the reads.
#[derive(Debug, Drop)]
pub struct Counting<S> {
    inner: S,
    reads: u64,
}

impl<S> Counting<S> {
    /// This source, before its first read.
    pub fn new(inner: S) -> Counting<S> {
        Counting { inner, reads: 0 }
    }

    /// How many reads it was asked for.
    pub fn reads(&self) -> u64 {
        self.reads
    }
}

impl<S: Source> Source for Counting<S> {
    // It reports the bytes that the other one reports, and each call that fails is a failed call of that.
    ghost content = { λ s. S.content s.inner };

    ghost failures = { λ s. S.failures s.inner };

    fn length(&mut self) -> Result<u64, Failed> {
        self.inner.length()
    }

    fn read_at(&mut self, at: u64, buf: &mut [u8]) -> Result<usize, Failed> {
        self.reads = self.reads.saturating_add(1);
        self.inner.read_at(at, buf)
    }
}
