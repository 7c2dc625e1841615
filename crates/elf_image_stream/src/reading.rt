//! All bytes of a reader, however its reads are cut.
ghost use Rattle.std.specs.Prelude.{◌≡◌, ◌+◌, ◌-◌, ◌<◌, ◌≤◌, ◌⊎◌, [], ◌++◌, length, take, drop, vec_len, IfErr, IfOk, IfSome, OnErr, OnOk};
ghost use Rattle.std.specs.Io.KnownBytes.{Consumes, IsAtEnd, Keeps};
ghost use Rattle.elf_image_rule_names.specs.Longest.{MAX_LEN};
ghost use Rattle.elf_image_stream.specs.Reading.{IsInputFailure, AppendsRead, IsReadFault};

use crate::fault::{Fault, InputFault};
use std::alloc::AllocError;
use std::io;
use std::io::Read;

/// No more bytes than these are read: one above the longest file that is accepted, so that a
/// longer one is known as such.
const MOST_BYTES: usize = elf_image_rule_names::MAX_LEN as usize + 1;

/// How many bytes the first read may return.
const FIRST_ROOM: usize = 1 << 16;

/// No read may return more bytes than this. The zeros that are written before a read are then still
/// in the cache when the bytes come.
const MOST_ROOM: usize = 1 << 18;

/// From so many bytes on, capacity is asked for well ahead.
const LARGE: usize = 1 << 22;

/// That many times what is filled.
const AHEAD: usize = 64;

/// Reads until a read gives 0 bytes or `buf`, which is empty at the call, holds 2^30 + 1 bytes.
///
/// After a fault too `buf` holds exactly the bytes that the reader gave, in order. Any error of the reader, an interruption too, is
/// [`Fault::Io`] at the count of these bytes; a failed allocation is
/// [`Fault::OutOfMemory`], and loses no byte; [`Fault::Rule`] never comes. Linear in the bytes read;
/// `buf` alone takes memory, also ahead of what is read.
pub fn read_to_end<R: Read>(reader: &mut R, buf: &mut Vec<u8>) -> Result<(), Fault>
    requires { buf.old.items ≡ [] }
    ensures taken { Consumes (R.remaining reader.old) (R.remaining reader.new) buf.new.items }
    ensures limit { vec_len buf.new ≤ MAX_LEN + 1 }
    ensures ok { OnOk result (IsAtEnd (R.remaining reader.new) ⊎ (vec_len buf.new ≡ MAX_LEN + 1)) }
    ensures fault { IfErr result (λ e. IsReadFault e (vec_len buf.new)) }

    // A reader that reports its bytes gives them all, up to the limit.
    ensures whole { OnOk result (IfSome (R.remaining reader.old)
        (λ bytes. buf.new.items ≡ take (MAX_LEN + 1) bytes)) }
{
    Ok(read_all(reader, buf)?)
}

/// Reads as [`read_to_end`] does, whose fault is the public form of this one.
pub fn read_all<R: Read>(reader: &mut R, buf: &mut Vec<u8>) -> Result<(), InputFault>
    requires { buf.old.items ≡ [] }
    ensures taken { Consumes (R.remaining reader.old) (R.remaining reader.new) buf.new.items }
    ensures limit { vec_len buf.new ≤ MAX_LEN + 1 }
    ensures ok { OnOk result (IsAtEnd (R.remaining reader.new) ⊎ (vec_len buf.new ≡ MAX_LEN + 1)) }
    ensures fault { IfErr result (λ e. IsInputFailure e (vec_len buf.new)) }

    // A reader that reports its bytes gives them all, up to the limit.
    ensures whole { OnOk result (IfSome (R.remaining reader.old)
        (λ bytes. buf.new.items ≡ take (MAX_LEN + 1) bytes)) }
{
    read_on(reader, buf)
}

/// Reads on, after what `buf` holds, at most 2^30 + 1 bytes at the call, until a read gives 0 bytes or `buf` holds 2^30 + 1 bytes. So a
/// call after [`Fault::OutOfMemory`] goes on where the reading stopped.
///
/// After a fault too `buf` holds what it held, and after it exactly the bytes that the reader gave, in order. Any error of the reader, an
/// interruption too, is [`Fault::Io`] at the count of all these bytes; a failed allocation is [`Fault::OutOfMemory`], and loses no byte,
/// because memory for a read is taken before it; [`Fault::Rule`] never comes. Linear in the bytes read and those held; `buf` alone takes
/// memory, also ahead of what is read.
pub fn resume<R: Read>(reader: &mut R, buf: &mut Vec<u8>) -> Result<(), Fault>
    requires room { vec_len buf.old ≤ MAX_LEN + 1 }
    ensures taken { AppendsRead (R.remaining reader.old) (R.remaining reader.new) buf.old.items buf.new.items }
    ensures limit { vec_len buf.new ≤ MAX_LEN + 1 }
    ensures ok { OnOk result (IsAtEnd (R.remaining reader.new) ⊎ (vec_len buf.new ≡ MAX_LEN + 1)) }
    ensures fault { IfErr result (λ e. IsReadFault e (vec_len buf.new)) }

    // A reader that reports its bytes gives them all, up to the limit.
    ensures whole { OnOk result (IfSome (R.remaining reader.old)
        (λ bytes. buf.new.items ≡ buf.old.items ++ take (MAX_LEN + 1 - length buf.old.items) bytes)) }
{
    Ok(read_on(reader, buf)?)
}

// Reads on as [`resume`] does.
fn read_on<R: Read>(reader: &mut R, buf: &mut Vec<u8>) -> Result<(), InputFault>
    requires room { vec_len buf.old ≤ MAX_LEN + 1 }
    ensures taken { AppendsRead (R.remaining reader.old) (R.remaining reader.new) buf.old.items buf.new.items }
    ensures limit { vec_len buf.new ≤ MAX_LEN + 1 }
    ensures ok { OnOk result (IsAtEnd (R.remaining reader.new) ⊎ (vec_len buf.new ≡ MAX_LEN + 1)) }
    ensures fault { IfErr result (λ e. IsInputFailure e (vec_len buf.new)) }
    ensures whole { OnOk result (IfSome (R.remaining reader.old)
        (λ bytes. buf.new.items ≡ buf.old.items ++ take (MAX_LEN + 1 - length buf.old.items) bytes)) }
{
    let (filled, result) = fill(reader, buf);
    buf.truncate(filled);
    result
}

// What `buf` held and the bytes read, as the front of `buf`, whose rest is free: how many these are, and why it stopped.
fn fill<R: Read>(reader: &mut R, buf: &mut Vec<u8>) -> (usize, Result<(), InputFault>)
    requires room { vec_len buf.old ≤ MAX_LEN + 1 }
    ensures within { result.0 ≤ vec_len buf.new }
    ensures taken { AppendsRead (R.remaining reader.old) (R.remaining reader.new) buf.old.items (take result.0 buf.new.items) }
    ensures limit { result.0 ≤ MAX_LEN + 1 }
    ensures ok { OnOk result.1 (IsAtEnd (R.remaining reader.new) ⊎ (result.0 ≡ MAX_LEN + 1)) }
    ensures fault { IfErr result.1 (λ e. IsInputFailure e result.0) }
{
    let mut filled = buf.len();
    while filled < MOST_BYTES {
        // Memory is taken first, so that a failed allocation loses no byte.
        let Ok(()) = make_room(buf, filled) else {
            return (filled, Err(InputFault::OutOfMemory));
        };
        match read_at(reader, buf, filled) {
            Ok(0) => return (filled, Ok(())),
            Ok(count) => filled += count,
            Err(_) => return (filled, Err(InputFault::Io { at: filled as u64 })),
        }
    }
    (filled, Ok(()))
}

// At least one free byte after the first `filled`. The vector's capacity doubles as it grows, so that growing costs each byte a constant
// number of copies. But only the bytes for the next read are filled: memory after them is never touched.
fn make_room(buf: &mut Vec<u8>, filled: usize) -> Result<(), AllocError>
    requires within { filled ≤ vec_len buf.old }
    requires below { filled < MAX_LEN + 1 }
    requires limit { vec_len buf.old ≤ MAX_LEN + 1 }
    ensures room { OnOk result (filled < vec_len buf.new) }
    ensures limit { vec_len buf.new ≤ MAX_LEN + 1 }
    ensures within { filled ≤ vec_len buf.new }
    ensures front { take filled buf.new.items ≡ take filled buf.old.items }
{
    if filled < buf.len() {
        return Ok(());
    }
    reserve_ahead(buf, filled);
    let room = filled.max(FIRST_ROOM).min(MOST_ROOM);
    buf.resize((filled + room).min(MOST_BYTES), 0)
}

// Capacity for many times the first `filled` bytes, where these are many and fill what there is: a
// large file is then seldom moved, and lies in large pages where the system has them. Where so much
// is refused the vector stays as it is, and grows as it would have.
fn reserve_ahead(buf: &mut Vec<u8>, filled: usize)
    requires { filled < MAX_LEN + 1 }
    ensures items { buf.new.items ≡ buf.old.items }
    ensures len { vec_len buf.new ≡ vec_len buf.old }
{
    if filled < LARGE || filled < buf.capacity() {
        return;
    }
    let capacity = (AHEAD * filled).min(MOST_BYTES);
    // A refusal is no fault: less may serve.
    let _ = buf.reserve_exact(capacity.saturating_sub(buf.len()));
}

// One read into `buf` after its first `filled` bytes, which stay.
fn read_at<R: Read>(reader: &mut R, buf: &mut Vec<u8>, filled: usize) -> io::Result<usize>
    requires { filled < vec_len buf.old }
    ensures front { take filled buf.new.items ≡ take filled buf.old.items }
    ensures len { vec_len buf.new ≡ vec_len buf.old }
    ensures fits { IfOk result (λ count. filled + count ≤ vec_len buf.new) }
    ensures ok { IfOk result (λ count. Consumes (R.remaining reader.old) (R.remaining reader.new)
        (take count (drop filled buf.new.items))) }
    ensures end { IfOk result (λ count. count ≡ 0 → IsAtEnd (R.remaining reader.new)) }
    ensures err { OnErr result (Keeps (R.remaining reader.old) (R.remaining reader.new)) }
{
    reader.read(&mut buf[filled..])
}
