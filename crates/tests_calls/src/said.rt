//! How a call ended, and the line on it.
use elf_image_stream::Fault;
use std::io::Write;

/// How a call ended.
#[derive(Clone, Copy)]
pub enum Said {
    /// With an answer, which this number describes.
    Done(u64),
    /// When out of memory.
    Memory,
    /// With another fault.
    Refused,
}

/// Of a call that can read.
pub fn of_fault(fault: Fault) -> Said {
    match fault {
        Fault::OutOfMemory => Said::Memory,
        _ => Said::Refused,
    }
}

/// Writes the line on a call.
pub fn say<W: Write>(out: &mut W, call: &str, said: Said) {
    let _ = match said {
        Said::Done(answer) => writeln!(out, "{call} {answer}"),
        Said::Memory => writeln!(out, "{call} out of memory"),
        Said::Refused => writeln!(out, "{call} refused"),
    };
}
