//! A text that is written in large pieces.
ghost use Rattle.std.specs.Prelude.{◌≡◌, [], ◌++◌, ◌^◌, IfOk, MatchBool, OnOk, ◌<◌, length};
ghost use Rattle.elf_tool_text.specs.Buffered.{IsBuffered, IsPassed};

use elf_image_stream::{WriteFault, send};
use elf_tool_check::ToolFault;
use std::alloc::{AllocError, Global};
use std::io::Write;

/// A text that is made in memory is written when this many bytes are pending. With room for so many, what has no room is written.
const PIECE: usize = 65536;

/// The end of a text that is not yet written, and how many bytes of the text were written before.
#[derive(Drop)]
pub struct Output {
    /// What is not yet written.
    pub pending: Vec<u8>,
    /// How many bytes are written: [`u64::MAX`] if they are more.
    pub written: u64,
}

impl Output {
    /// Nothing was written, and nothing is pending.
    pub fn new(alloc: Global) -> Output
        ensures pending { result.pending.items ≡ [] }
        ensures written { result.written ≡ 0 }
    {
        Output {
            pending: Vec::new(alloc),
            written: 0,
        }
    }

    /// Nothing was written, nothing is pending, and a piece has room. Fails only when out of memory.
    pub fn with_room(alloc: Global) -> Result<Output, AllocError>
        ensures pending { IfOk result (λ output. output.pending.items ≡ []) }
        ensures written { IfOk result (λ output. output.written ≡ 0) }
    {
        Ok(Output {
            pending: Vec::with_capacity(alloc, PIECE)?,
            written: 0,
        })
    }

    /// How many bytes of the text are written: [`u64::MAX`] if they are more.
    pub fn count_written(&self) -> u64
        ensures value { result ≡ self.now.written }
        ensures fits { result < 2 ^ 64 }
    {
        self.written
    }

    /// Passes bytes on without memory: they are pending if they have room, and else they are written, after all that was pending. Fails if
    /// the writer does, with the count of all bytes that are written: [`u64::MAX`] if they are more.
    pub fn pass<W: Write>(&mut self, writer: &mut W, bytes: &[u8]) -> Result<(), WriteFault>
        ensures { IsPassed (W.contents writer.old) (W.contents writer.new) self.old self.new bytes.now result }
    {
        if self.hold(bytes) {
            return Ok(());
        }
        self.write_pending(writer)?;
        if self.hold(bytes) {
            return Ok(());
        }
        self.written = send(writer, self.written, bytes)?;
        Ok(())
    }

    // Whether bytes have room after those that are pending. They are pending then.
    fn hold(&mut self, bytes: &[u8]) -> bool
        ensures pending { MatchBool result (self.new.pending.items ≡ self.old.pending.items ++ bytes.now)
            (self.new.pending.items ≡ self.old.pending.items) }
        ensures written { self.new.written ≡ self.old.written }
    {
        if bytes.len() > self.pending.capacity().saturating_sub(self.pending.len()) {
            return false;
        }
        match self.pending.extend_from_slice(bytes) {
            Ok(()) => true,
            Err(_) => false,
        }
    }

    /// Writes what is pending if it is a large piece. Fails as [`flush`](Output::flush) does.
    pub fn flush_piece<W: Write>(&mut self, writer: &mut W) -> Result<(), ToolFault>
        ensures buffered { IsBuffered (W.contents writer.old) (W.contents writer.new) self.old self.new [] result }
        ensures short { OnOk result (length self.new.pending.items < PIECE) }
    {
        if self.pending.len() < PIECE {
            return Ok(());
        }
        self.flush(writer)
    }

    /// Writes all that is pending. If the writer fails, [`ToolFault::Write`] has the count of all bytes that are written: [`u64::MAX`] if
    /// they are more.
    pub fn flush<W: Write>(&mut self, writer: &mut W) -> Result<(), ToolFault>
        ensures buffered { IsBuffered (W.contents writer.old) (W.contents writer.new) self.old self.new [] result }
        ensures empty { OnOk result (self.new.pending.items ≡ []) }
    {
        self.write_pending(writer)?;
        Ok(())
    }

    /// Writes all that is pending. Fails only if the writer does, with the count of all bytes that are written: [`u64::MAX`] if they are
    /// more.
    pub fn write_pending<W: Write>(&mut self, writer: &mut W) -> Result<(), WriteFault>
        ensures passed { IsPassed (W.contents writer.old) (W.contents writer.new) self.old self.new [] result }
        ensures empty { OnOk result (self.new.pending.items ≡ []) }
    {
        self.written = send(writer, self.written, &self.pending)?;
        self.pending.clear();
        Ok(())
    }
}
