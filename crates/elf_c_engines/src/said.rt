//! What an engine says to a caller whose buffer may be too small: no more of its text is kept than the buffer has room for.
ghost use Rattle.std.specs.Prelude.{◌≡◌, [], MatchResult, length};
ghost use Rattle.elf_c_engines.specs.Calls.{IsAnswered, IsToldSaid, IsUnkept};
ghost use Rattle.elf_c_engines.specs.declared.calls.CallFault.TheVariants.{OutOfMemory};

use crate::calls::{CallFault, Outcome, give_up, put_text, small_room};
use elf_tool_check::Verdict;
use std::alloc::Global;
use std::io::{self, ErrorKind, Write};

/// Takes at most so many bytes, and keeps them. A write that would pass these fails, and takes nothing.
#[derive(Drop)]
pub(crate) struct Bounded {
    text: Vec<u8>,
    most: usize,
}

impl Bounded {
    /// It took nothing yet.
    pub(crate) fn new(alloc: Global, most: usize) -> Bounded
        ensures { result.text.items ≡ [] }
    {
        Bounded {
            text: Vec::new(alloc),
            most,
        }
    }
}

impl Write for Bounded {
    ghost use Rattle.std.specs.Prelude.{Some};

    ghost contents = { λ bounded. Some bounded.text.items };

    fn write(&mut self, buf: &[u8]) -> io::Result<usize> {
        if buf.len() > self.most.saturating_sub(self.text.len()) {
            return Err(ErrorKind::StorageFull.into());
        }
        self.text.write(buf)
    }

    fn flush(&mut self) -> io::Result<()> {
        Ok(())
    }
}

/// What an engine says.
#[derive(Drop)]
pub(crate) struct Said {
    verdict: Verdict,
    /// How long its text is.
    length: u64,
    /// The text, if all of it is kept; otherwise nothing.
    text: Vec<u8>,
}

impl Said {
    /// All of its text was taken.
    pub(crate) fn whole(verdict: Verdict, written: Bounded) -> Said
        ensures verdict { result.verdict ≡ verdict }
        ensures length { result.length ≡ length written.text.items }
        ensures text { result.text.items ≡ written.text.items }
    {
        Said {
            verdict,
            length: written.text.len() as u64,
            text: written.text,
        }
    }

    /// Nothing of its text is kept, which has so many bytes, or at least [`u64::MAX`]. A text that has room in `most` bytes was not written
    /// for want of memory, if there is anything to write.
    pub(crate) fn unkept(
        alloc: Global,
        verdict: Verdict,
        length: u64,
        most: usize,
    ) -> Result<Said, CallFault>
        ensures { MatchResult result (IsUnkept verdict length most) (λ fault. fault ≡ OutOfMemory) }
    {
        let has_room = 0 < length && length <= most as u64;
        if has_room || length == u64::MAX {
            return Err(CallFault::OutOfMemory);
        }
        Ok(Said {
            verdict,
            length,
            text: Vec::new(alloc),
        })
    }
}

/// Ends a call of an engine: the text that is kept is copied into the buffer, if that is long enough. Otherwise the buffer is unchanged.
/// Returns the status.
pub(crate) fn answer(said: Result<Said, CallFault>, room: &mut [u8], outcome: &mut Outcome) -> u32
    ensures { IsAnswered said room.old room.new outcome.new result }
{
    match said {
        Ok(said) => tell_kept(&said, room, outcome),
        Err(fault) => give_up(fault, outcome),
    }
}

fn tell_kept(said: &Said, room: &mut [u8], outcome: &mut Outcome) -> u32
    ensures { IsToldSaid said.now room.old room.new outcome.new result }
{
    if said.length > room.len() as u64 {
        return small_room(said.length, outcome);
    }
    put_text(said.verdict, said.text.as_slice(), room, outcome)
}
