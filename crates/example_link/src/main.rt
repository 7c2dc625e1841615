//! `example_link A B`: links two objects of x86-64, and writes the executable, which begins at `_start`, to standard output. On standard
//! error it says the first byte of its memory, as the executable's own image has it.
#![tactic(auto)]

ghost use Rattle.std.specs.Prelude.{ℕ, [], ◌∷◌, IfOk, List, OnOk};
ghost use Rattle.std.specs.Io.KnownBytes.{Appends};
ghost use Rattle.elf_exec.specs.Executable.{LoadsLink, LoadsLinkOf, IsMemoryOf};
ghost use Rattle.elf_link.specs.LinkMap.{IsLinkMap};
ghost use Rattle.elf_object.specs.Object.{ObjectValue};
ghost use Rattle.elf_tool.specs.ObjectFiles.{AreObjectFiles};

use elf_exec::{prove_loaded, write_exec};
use elf_image::parse;
use elf_link::{Form, Mapped, Options, Range, RelocRule, Width};
use elf_tool::mapped_files;
use std::alloc::Global;
use std::process::ExitCode;
use std::{env, fs, io};

const OPTIONS: Options<'static> = Options {
    base: 0x400000,
    page: 0x1000,
    entry: Some(b"_start"),
};

const RULES: [RelocRule; 1] = [RelocRule {
    kind: 4, // R_X86_64_PLT32, of calls
    form: Form::Pc,
    width: Width::W4,
    range: Range::Signed,
}];

fn main(rt: HostRuntime) -> io::Result<ExitCode> {
    let words: Vec<String> = env::args(&rt)?.collect(rt.alloc())?;
    let [_, first, second] = words.as_slice() else {
        eprintln!(rt; "usage: example_link A B")?;
        return Ok(ExitCode::from(2));
    };
    let first = fs::read(&rt, first.as_str())?;
    let second = fs::read(&rt, second.as_str())?;
    match link(rt.alloc(), &OPTIONS, &first, &second, &mut rt.stdout()) {
        Ok(Some(byte)) => eprintln!(rt; "the first byte of its memory: {byte:#x}")?,
        Ok(None) => {}
        Err(why) => {
            eprintln!(rt; "example_link: {why}")?;
            return Ok(ExitCode::from(1));
        }
    }
    Ok(ExitCode::from(0))
}

/// Writes the executable of the link of two files by these options. Returns the byte that it loads at the base, if there is one.
fn link<W: io::Write>(
    alloc: Global,
    options: &Options<'_>,
    first: &[u8],
    second: &[u8],
    to: &mut W,
) -> Result<Option<u8>, &'static str>
    // The files are objects, and what was written is the executable of their link by these options: an image that loads its memory, with
    // the value of the entry symbol as `e_entry`. What is returned is the byte of this memory.
    ensures { IfOk result (λ found. (objects : List ObjectValue) × AreObjectFiles (first.now ∷ second.now ∷ []) objects ×
        ((executable : List ℕ) × LoadsLinkOf options.now objects RULES executable ×
        Appends (W.contents to.old) (W.contents to.new) executable ×
        IsMemoryOf options.now objects RULES options.now.base found)) }
{
    let mapped = mapped(alloc, options, first, second)?;
    let executable = executable(alloc, options, &mapped)?;
    let found = byte_at_base(alloc, options, &mapped, &executable)?;
    write_out(&executable, to)?;
    Ok(found)
}

/// The objects that the files are, with their link map.
fn mapped<'a>(
    alloc: Global,
    options: &Options<'_>,
    first: &'a [u8],
    second: &'a [u8],
) -> Result<Mapped<'a>, &'static str>
    ensures objects { IfOk result (λ mapped. AreObjectFiles (first.entry.now ∷ second.entry.now ∷ []) mapped.objects) }
    ensures map { IfOk result (λ mapped. IsLinkMap options.now mapped.objects mapped.map) }
{
    match mapped_files(alloc, &[first, second], options) {
        Ok(mapped) => Ok(mapped),
        Err(_) => Err("the files can't be linked"),
    }
}

/// The executable of objects by their map.
fn executable(
    alloc: Global,
    options: &Options<'_>,
    mapped: &Mapped<'_>,
) -> Result<Vec<u8>, &'static str>
    requires { IsLinkMap options.now mapped.now.objects mapped.now.map }
    ensures { IfOk result (λ executable. LoadsLinkOf options.now mapped.now.objects RULES executable.items) }
{
    let mut executable = Vec::new(alloc);
    write_linked(alloc, mapped, &mut executable)?;
    Ok(executable)
}

fn write_linked<W: io::Write>(
    alloc: Global,
    mapped: &Mapped<'_>,
    to: &mut W,
) -> Result<(), &'static str>
    ensures { OnOk result ((executable : List ℕ) × LoadsLink mapped.now.objects mapped.now.map RULES executable ×
        Appends (W.contents to.old) (W.contents to.new) executable) }
{
    let Ok(linked) = mapped.relocated(alloc, &RULES) else {
        return Err("a relocation can't be applied");
    };
    write_exec(alloc, &linked, to).map_err(|_| "the executable can't be made")
}

/// The byte that the executable, read as a file, has at the base: that of the memory of the link.
fn byte_at_base(
    alloc: Global,
    options: &Options<'_>,
    mapped: &Mapped<'_>,
    executable: &[u8],
) -> Result<Option<u8>, &'static str>
    requires { LoadsLinkOf options.now mapped.now.objects RULES executable.now }
    ensures { IfOk result (IsMemoryOf options.now mapped.now.objects RULES options.now.base) }
{
    let Ok(image) = parse(alloc, executable) else {
        return Err("the executable can't be parsed");
    };
    let found = image.load(options.base);
    let objects = mapped.objects();
    prove_loaded(
        options,
        objects,
        &RULES,
        executable,
        &image,
        options.base,
        found,
    );
    Ok(found)
}

fn write_out<W: io::Write>(executable: &[u8], to: &mut W) -> Result<(), &'static str>
    ensures { OnOk result (Appends (W.contents to.old) (W.contents to.new) executable.now) }
{
    match to.write_all(executable) {
        Ok(()) => Ok(()),
        Err(_) => Err("the executable can't be written"),
    }
}
