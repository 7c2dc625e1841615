//! Calls of the library, for tests that make allocations fail, make reads and writes fail, or compare what the calls say.
//!
//! `tests_calls growths RULES FILE..` makes each call that takes memory, of records and extents by themselves and of these files, and
//! prints a line on each: which it was, and a number that reports its answer, or `out of memory`, or `refused`. After them it prints what
//! is asked of the values that came out, which takes no memory. `tests_calls quiet N FILE..` makes each call that takes no memory N times
//! on what these files are, and prints nothing of them.
//!
//! `tests_calls write FILE`, `object` and `copy` write the file again: its image, the object that it denotes, or by `copy_image` what is
//! read where it has to be. They end as the program does: status 0 if all is written, 1 if a rule is broken, 3 with a line on standard
//! error where memory, a read or a write failed. `tests_calls changes FILE` is about the beginnings of the file, and of the files that
//! differ from it in one byte, what each call says ([`images::report`]).
#![tactic(auto)]

mod extents;
mod images;
mod links;
mod objects;
mod quiet;
mod said;
mod words;

use elf_image_stream::{Fault, Opened, Seeking, read_to_end, resume};
use said::{Said, of_fault, say};
use std::alloc::Global;
use std::io::{Read, Write};
use std::process::ExitCode;
use std::{env, fs, io};

fn main(rt: HostRuntime) -> io::Result<ExitCode> {
    let words: Vec<String> = env::args(&rt)?.collect(rt.alloc())?;
    let [_, call, names @ ..] = words.as_slice() else {
        return Ok(ExitCode::from(2));
    };
    match call.as_str() {
        "growths" => growths(&rt, names),
        "quiet" => quiet_calls(&rt, names),
        call => match names {
            [name] => written(&rt, call, name),
            _ => Ok(ExitCode::from(2)),
        },
    }
}

/// The calls that take memory, on the files of these words; the first one names a file of relocation rules.
fn growths(rt: &HostRuntime, words: &[String]) -> io::Result<ExitCode> {
    let alloc = rt.alloc();
    let mut out = rt.stdout();
    let [rules, names @ ..] = words else {
        return Ok(ExitCode::from(2));
    };
    extents::calls(alloc, &mut out);
    words::calls(alloc, &mut out);
    objects::calls(alloc, &mut out);
    let Ok(rules) = read_file(rt, rules, &mut out)? else {
        return Ok(ExitCode::from(3));
    };
    let Ok(files) = images_of(rt, names, &mut out)? else {
        return Ok(ExitCode::from(3));
    };
    links::calls(alloc, &files, &rules, &mut out);
    Ok(ExitCode::from(0))
}

/// The bytes of the files of these words, after the calls on each.
fn images_of<W: Write>(
    rt: &HostRuntime,
    names: &[String],
    out: &mut W,
) -> io::Result<Result<Vec<Vec<u8>>, Fault>> {
    let mut files = Vec::new(rt.alloc());
    for name in names {
        let file = match read_file(rt, name, out)? {
            Ok(file) => file,
            Err(fault) => return Ok(Err(fault)),
        };
        images::calls(rt.alloc(), &file, out);
        files.push(file)?;
    }
    Ok(Ok(files))
}

/// The bytes of a file.
fn read_file<W: Write>(
    rt: &HostRuntime,
    name: &String,
    out: &mut W,
) -> io::Result<Result<Vec<u8>, Fault>> {
    let mut file = fs::open(rt, name.as_str())?;
    Ok(read(rt.alloc(), &mut file, out))
}

/// The calls that take no memory, so many times, as the first of these words says, on the files of the other ones.
fn quiet_calls(rt: &HostRuntime, words: &[String]) -> io::Result<ExitCode> {
    let alloc = rt.alloc();
    let [times, names @ ..] = words else {
        return Ok(ExitCode::from(2));
    };
    let Ok(times) = times.as_str().parse::<u32>() else {
        return Ok(ExitCode::from(2));
    };
    let mut files = Vec::new(alloc);
    for name in names {
        files.push(fs::read(rt, name.as_str())?)?;
    }
    quiet::calls(alloc, files.as_slice(), times);
    Ok(ExitCode::from(0))
}

/// A call that writes a file again, or is about those that differ from it.
fn written(rt: &HostRuntime, call: &str, name: &String) -> io::Result<ExitCode> {
    let alloc = rt.alloc();
    let (mut out, mut err) = (rt.stdout(), rt.stderr());
    if call == "copy" {
        let mut source = Seeking::new(Opened(fs::open(rt, name.as_str())?));
        let ended = images::copy(alloc, &mut source, &mut out);
        return Ok(ExitCode::from(images::status(ended, &mut err)));
    }
    let mut bytes = Vec::new(alloc);
    let ended = match read_to_end(&mut fs::open(rt, name.as_str())?, &mut bytes) {
        Err(fault) => Err(fault.into()),
        Ok(()) => match call {
            "write" => images::image(alloc, &bytes, &mut out),
            "object" => images::object(alloc, &bytes, &mut out),
            _ => return Ok(ExitCode::from(images::report(alloc, &mut bytes, &mut out))),
        },
    };
    Ok(ExitCode::from(images::status(ended, &mut err)))
}

/// All bytes of a reader. Where an allocation fails it is asked for once more, and nothing that was read is lost.
fn read<R: Read, W: Write>(alloc: Global, reader: &mut R, out: &mut W) -> Result<Vec<u8>, Fault> {
    let mut bytes = Vec::new(alloc);
    let ended = match read_to_end(reader, &mut bytes) {
        Err(Fault::OutOfMemory) => {
            say(out, "read_to_end", Said::Memory);
            resume(reader, &mut bytes)
        }
        ended => ended,
    };
    if let Err(fault) = ended {
        say(out, "read_to_end", of_fault(fault));
        return Err(fault);
    }
    say(out, "read_to_end", Said::Done(sum_of(&bytes)));
    Ok(bytes)
}

/// A number that distinguishes these bytes from others that a reading might give in their place.
fn sum_of(bytes: &[u8]) -> u64 {
    let mut sum = bytes.len() as u64;
    for byte in bytes {
        sum = sum.wrapping_mul(257).wrapping_add(*byte as u64);
    }
    sum
}
