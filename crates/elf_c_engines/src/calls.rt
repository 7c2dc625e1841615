//! What the calls of the library for C have in common: the relocation rules that they are given, and what they return.
ghost use Rattle.std.specs.Prelude.{◌≡◌, ◌≤◌, ◌++◌, drop, length, MatchResult};
ghost use Rattle.elf_c_engines.specs.Calls.{IsPutOrTooSmall, LacksRules, fault_numbers, fault_status};
ghost use Rattle.elf_c_engines.specs.Calls.{length_alone, small_room_status, verdict_numbers, verdict_status};
ghost use Rattle.elf_tool_rule_file.specs.RuleFile.{AreRules};

use elf_link_field::RelocRule;
use elf_tool_check::{Refusal, Verdict};
use elf_tool_rule_file::{RulesFault, read_rules};
use std::alloc::Global;

// How a call ends: with the output of an engine in the caller's buffer, or without output.

/// The statuses, by the names that C has: `ELFMAP_DONE` and so on.
pub(crate) const DONE: u32 = 0;

const REFUSED: u32 = 1;

const NOT_LINKED: u32 = 2;

const TOO_LONG: u32 = 3;

const SMALL_ROOM: u32 = 4;

pub(crate) const NO_MEMORY: u32 = 5;

const BAD_RULES: u32 = 6;

/// `struct elfmap_outcome`: what a call reports beside its status. A number that says nothing is 0.
#[repr(C)]
#[derive(Clone, Copy)]
pub struct Outcome {
    /// How long the whole text or file is, in bytes, also if the buffer is shorter.
    pub length: u64,
    /// Of a refused file the lowest offset at which it breaks the rule, in bytes; of files that don't link the entry at which the rule is
    /// broken, from 0; of bad rules the line, from 1.
    pub at: u64,
    /// Which file, from 0.
    pub file: u64,
    /// Of files that don't link the index in the file at which the rule is broken, from 0.
    pub index: u64,
    /// The number of the rule.
    pub rule: u16,
}

/// Why a call ends without the output of an engine.
#[derive(Clone, Copy)]
pub(crate) enum CallFault {
    /// This line of the rules is bad, and none before it. Lines count from 1.
    BadRules { line: usize },
    /// An allocation failed.
    OutOfMemory,
}

/// Copies the output of an engine into the buffer, if the buffer is long enough. Otherwise the buffer is unchanged. Returns the status.
pub(crate) fn put_text(verdict: Verdict, text: &[u8], room: &mut [u8], outcome: &mut Outcome) -> u32
    ensures { IsPutOrTooSmall verdict text.now room.old room.new outcome.new result }
{
    if text.len() > room.len() {
        return small_room(text.len() as u64, outcome);
    }
    put(text, room);
    verdict_alone(verdict, text.len() as u64, outcome)
}

/// Ends a call whose output has no room in the buffer; so long it is. Returns the status.
pub(crate) fn small_room(length: u64, outcome: &mut Outcome) -> u32
    ensures status { result ≡ small_room_status }
    ensures numbers { outcome.new ≡ length_alone length }
{
    *outcome = numbers_of(Verdict::Done, length);
    SMALL_ROOM
}

/// Ends a call with a verdict and a length; there is no output to copy. Returns the status.
pub(crate) fn verdict_alone(verdict: Verdict, length: u64, outcome: &mut Outcome) -> u32
    ensures status { result ≡ verdict_status verdict }
    ensures numbers { outcome.new ≡ verdict_numbers verdict length }
{
    *outcome = numbers_of(verdict, length);
    status_of(verdict)
}

/// Ends a call without the output of an engine. Returns the status.
pub(crate) fn give_up(fault: CallFault, outcome: &mut Outcome) -> u32
    ensures status { result ≡ fault_status fault }
    ensures numbers { outcome.new ≡ fault_numbers fault }
{
    let nothing = numbers_of(Verdict::Done, 0);
    let (status, numbers) = match fault {
        CallFault::BadRules { line } => (
            BAD_RULES,
            Outcome {
                at: line as u64,
                ..nothing
            },
        ),
        CallFault::OutOfMemory => (NO_MEMORY, nothing),
    };
    *outcome = numbers;
    status
}

// Copies a text to the beginning of a buffer.
fn put(text: &[u8], room: &mut [u8])
    requires { length text.now ≤ length room.old }
    ensures { room.new ≡ text.now ++ drop (length text.now) room.old }
{
    room[..text.len()].copy_from_slice(text);
}

fn status_of(verdict: Verdict) -> u32
    ensures { result ≡ verdict_status verdict }
{
    match verdict {
        Verdict::Done => DONE,
        Verdict::Refused(Refusal::File { .. }) => REFUSED,
        Verdict::Refused(Refusal::Link { .. }) => NOT_LINKED,
        Verdict::Refused(Refusal::TooLong) => TOO_LONG,
    }
}

// The numbers of a verdict and of the length of its text.
fn numbers_of(verdict: Verdict, length: u64) -> Outcome
    ensures { result ≡ verdict_numbers verdict length }
{
    let numbers = Outcome {
        length,
        at: 0,
        file: 0,
        index: 0,
        rule: 0,
    };
    match verdict {
        Verdict::Refused(Refusal::File { file, rule, at }) => Outcome {
            at,
            file: file as u64,
            rule,
            ..numbers
        },
        Verdict::Refused(
            Refusal::Link {
                rule,
                file,
                index,
                entry,
            },
        ) => Outcome {
            at: entry as u64,
            file: file as u64,
            index: index as u64,
            rule,
            ..numbers
        },
        Verdict::Done | Verdict::Refused(Refusal::TooLong) => numbers,
    }
}

/// The relocation rules of a text.
pub(crate) fn rules_in(alloc: Global, text: &[u8]) -> Result<Vec<RelocRule>, CallFault>
    ensures { MatchResult result (λ rules. AreRules text.now rules.items) (LacksRules text.now) }
{
    match read_rules(alloc, text) {
        Ok(rules) => Ok(rules),
        Err(RulesFault::BadLine { line }) => Err(CallFault::BadRules { line }),
        Err(RulesFault::OutOfMemory) => Err(CallFault::OutOfMemory),
    }
}
