//! Lists of bytes in memory, one after the other, as one source.
ghost use Rattle.std.specs.Prelude.{◌≡◌, ◌≤◌, ◌<◌, ◌^◌, OnOk, IfErr, IfNone, IfOk, IfSome, get_or, length, ◌-◌};
ghost use Rattle.std.specs.List.Sorted.{IsNonDecreasing};
ghost use Rattle.elf_field.specs.Bytes.{IsBytes};
ghost use Rattle.elf_image_sources.specs.Joined.{IsCountUpTo, IsFrom, IsJoinFault, bytes_of_lists};

use elf_image_stream::{Bytes, Failed, Source};
use std::alloc::{AllocError, AllocFailed, Global};
use std::marker::Model;
use thiserror::Error;

/// Why lists of bytes are not one source.
#[derive(Clone, Copy, Debug, PartialEq, Eq, Error)]
pub enum JoinFault {
    /// Together they have 2^64 bytes or more. Lists may be the same bytes, so that this needs no such memory.
    #[error("the lists have 2^64 bytes or more")]
    TooLong,
    /// An allocation failed.
    #[error("out of memory")]
    OutOfMemory,
}

impl From<AllocError> for JoinFault {
    ghost use Rattle.elf_image_sources.specs.declared.joined.JoinFault.TheVariants.{OutOfMemory};

    ghost from_gives = { λ _ fault. fault ≡ OutOfMemory };

    fn from(_refused: AllocError) -> JoinFault {
        JoinFault::OutOfMemory
    }
}

impl<T: Drop> From<AllocFailed<T>> for JoinFault {
    ghost use Rattle.elf_image_sources.specs.declared.joined.JoinFault.TheVariants.{OutOfMemory};

    ghost from_gives = { λ _ fault. fault ≡ OutOfMemory };

    fn from(_refused: AllocFailed<T>) -> JoinFault {
        JoinFault::OutOfMemory
    }
}

/// Lists of bytes, one after the other. It reports them, and never fails. A read gives bytes of one list. It finds the list by a binary
/// search.
#[derive(Debug, Drop)]
pub struct Joined<'a> {
    lists: &'a [&'a [u8]],
    // The offset after each of them.
    ends: Vec<u64>,
}

impl<'a> Model for Joined<'a> {
    ghost use Rattle.std.specs.Prelude.{ℕ, List};

    ghost Value = { List ℕ };

    ghost use Rattle.elf_image_sources.specs.Joined.{AreListEnds, bytes_of_lists};

    ghost view = { λ source. bytes_of_lists source.lists.now };

    ghost invariant = { λ source. AreListEnds source.lists.now source.ends.items };
}

impl<'a> Joined<'a> {
    /// A source over these lists, whose bytes are theirs in order. Takes 8 bytes of memory for each list.
    ///
    /// [`JoinFault::TooLong`] if they have 2^64 bytes or more, and [`JoinFault::OutOfMemory`] if an allocation fails.
    pub fn new(alloc: Global, lists: &'a [&'a [u8]]) -> Result<Joined<'a>, JoinFault>
        ensures joined { IfOk result (λ source. source ≡ bytes_of_lists lists.now) }
        ensures fits { OnOk result (length (bytes_of_lists lists.now) < 2 ^ 64) }
        ensures err { IfErr result (IsJoinFault (bytes_of_lists lists.now)) }
    {
        let mut ends = Vec::with_capacity(alloc, lists.len())?;
        let mut end: u64 = 0;
        for list in lists {
            let Some(next) = end.checked_add(length_of(list)) else {
                return Err(JoinFault::TooLong);
            };
            end = next;
            ends.push(end)?;
        }
        Ok(Joined { lists, ends })
    }

    /// The list that the byte at this offset is in, from this byte on; None if no byte is there.
    fn list_from(&self, at: u64) -> Option<&'a [u8]>
        ensures from { IfSome result (λ list. IsFrom self.now at list.now) }
        ensures none { IfNone result (length self.now ≤ at) }
    {
        let index = count_up_to(&self.ends, at);
        if index >= self.lists.len() {
            return None;
        }
        let list = self.lists[index];
        let rest = (self.ends[index] - at) as usize;
        Some(&list[list.len() - rest..])
    }
}

/// How many of these offsets, which do not fall, are at most `at`.
fn count_up_to(ends: &[u64], at: u64) -> usize
    requires ascend { IsNonDecreasing ends.now }
    ensures bound { result ≤ length ends.now }
    ensures count { IsCountUpTo at ends.now result }
{
    ends.partition_point(|end| *end <= at)
}

/// The last of these offsets; 0 if there is none.
fn last_of(ends: &[u64]) -> u64
    ensures { result ≡ get_or ends.now (length ends.now - 1) 0 }
{
    match ends {
        [.., end] => *end,
        [] => 0,
    }
}

/// The length of a list of bytes.
fn length_of(list: &[u8]) -> u64
    ensures length { result ≡ length list.now }
    // The type of a slice that is part of a value does not say it.
    ensures bytes { IsBytes list.now }
{
    list.len() as u64
}

impl<'a> Source for Joined<'a> {
    ghost use Rattle.std.specs.Prelude.{Some};
    ghost use Rattle.elf_image_stream.specs.Source.{no_failures};

    ghost content = { λ source. Some source };

    ghost failures = { λ _. no_failures };

    fn length(&mut self) -> Result<u64, Failed> {
        Ok(last_of(&self.ends))
    }

    fn read_at(&mut self, at: u64, buf: &mut [u8]) -> Result<usize, Failed> {
        match self.list_from(at) {
            Some(list) => Ok(Bytes(list).copy_at(0, buf)),
            None => Ok(0),
        }
    }
}
