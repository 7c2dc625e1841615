//! A source, a row of extents and an opener of one's own, as the library's page has them.

use elf::extent::{Extent, Row};
use elf::image::{Bytes, Failed, Source};
use elf::tool::{OpenFault, Opener};

/// Another source, of which it counts the reads.
#[derive(Debug, Drop)]
pub struct Counting<S> {
    inner: S,
    reads: u64,
}

impl<S: Source> Source for Counting<S> {
    ghost content = { λ s. S.content s.inner };

    ghost failures = { λ s. S.failures s.inner };

    fn length(&mut self) -> Result<u64, Failed> {
        self.inner.length()
    }

    fn read_at(&mut self, at: u64, buf: &mut [u8]) -> Result<usize, Failed> {
        self.reads = self.reads.saturating_add(1);
        self.inner.read_at(at, buf)
    }
}

/// A row of two extents.
#[derive(Debug, Drop)]
pub struct Two {
    extents: [Extent; 2],
    looks: u64,
}

impl Row for Two {
    ghost extents = { λ row. row.extents };

    ghost looks = { λ row. row.looks };

    fn len(&self) -> usize {
        2
    }

    fn at(&mut self, k: usize) -> Extent {
        self.looks += 1;
        self.extents[k]
    }
}

/// One file, under its name.
#[derive(Debug, Drop)]
pub struct OneFile<'a> {
    name: &'a str,
    bytes: &'a [u8],
}

impl<'a> Opener for OneFile<'a> {
    type Input = &'a [u8];

    type Seek = Bytes<'a>;

    fn reader(&mut self, name: &str) -> Result<&'a [u8], OpenFault> {
        if name == self.name {
            Ok(self.bytes)
        } else {
            Err(OpenFault::Refused)
        }
    }

    fn source(&mut self, name: &str) -> Result<Bytes<'a>, OpenFault> {
        Ok(Bytes(self.reader(name)?))
    }
}
