//! A source with one byte changed.
ghost use Rattle.std.specs.Prelude.{◌≡◌};

use elf_image_stream::{Failed, Source};

/// Another source with another byte at one offset. Its failures are those of the other one. If no byte is at the offset, nothing is
/// changed.
#[derive(Debug, Drop)]
pub struct Patched<S> {
    inner: S,
    at: u64,
    value: u8,
}

impl<S> Patched<S> {
    /// The source `inner`, with the byte `value` at offset `at`.
    pub fn new(inner: S, at: u64, value: u8) -> Patched<S>
        ensures inner { result.inner ≡ inner }
        ensures at { result.at ≡ at }
        ensures value { result.value ≡ value }
    {
        Patched { inner, at, value }
    }
}

impl<S: Source> Source for Patched<S> {
    ghost use Rattle.elf_image_sources.specs.Patched.{with_byte};

    ghost content = { λ s. with_byte s.at s.value (S.content s.inner) };

    ghost failures = { λ s. S.failures s.inner };

    fn length(&mut self) -> Result<u64, Failed> {
        // Where it is read, the proof sees that it is a byte.
        let _value = self.value;
        self.inner.length()
    }

    fn read_at(&mut self, at: u64, buf: &mut [u8]) -> Result<usize, Failed> {
        let count = self.inner.read_at(at, buf)?;
        if self.at >= at && self.at - at < count as u64 {
            buf[(self.at - at) as usize] = self.value;
        }
        Ok(count)
    }
}
