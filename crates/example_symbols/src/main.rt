//! `example_symbols FILE`: lists the symbols of an ELF-64 file but symbol 0, a line each: value, size, kind, binding, section, name.
#![tactic(auto)]

use elf_field::abi::{SHT_DYNSYM, SHT_SYMTAB};
use elf_image::{Fault, Image, parse};
use elf_table::{Place, Symbol, Symbols};
use std::process::ExitCode;
use std::{env, fs, io};

const KINDS: [&str; 7] = [
    "notype", "object", "func", "section", "file", "common", "tls",
];

const BINDINGS: [&str; 3] = ["local", "global", "weak"];

fn main(rt: HostRuntime) -> io::Result<ExitCode> {
    let words: Vec<String> = env::args(&rt)?.collect(rt.alloc())?;
    let [_, name] = words.as_slice() else {
        eprintln!(rt; "usage: example_symbols FILE")?;
        return Ok(ExitCode::from(2));
    };
    if let Err((status, why)) = list_symbols(&rt, name.as_str()) {
        eprintln!(rt; "example_symbols: {why}")?;
        return Ok(ExitCode::from(status));
    }
    Ok(ExitCode::from(0))
}

fn list_symbols(rt: &HostRuntime, name: &str) -> Result<(), (u8, &'static str)> {
    let bytes = fs::read(rt, name).map_err(|_| (3, "the file can't be read"))?;
    let image = match parse(rt.alloc(), &bytes) {
        Ok(image) => image,
        Err(Fault::OutOfMemory) => return Err((3, "there is too little memory")),
        Err(_) => return Err((1, "this is no ELF-64 file")),
    };
    for i in 0..image.section_count() {
        if matches!(image.section(i).sh_type, SHT_SYMTAB | SHT_DYNSYM) {
            let symbols = Symbols::new(&image, i).map_err(|_| (1, "a symbol table is broken"))?;
            for symbol in symbols.iter().skip(1) {
                list_symbol(rt, &image, &symbol).map_err(|_| (3, "the list can't be written"))?;
            }
        }
    }
    Ok(())
}

fn list_symbol(rt: &impl Print, image: &Image<'_>, symbol: &Symbol<'_>) -> io::Result<()> {
    let kind = KINDS.get(symbol.symbol_type as usize).unwrap_or(&"other");
    let binding = BINDINGS.get(symbol.binding as usize).unwrap_or(&"other");
    let section = match symbol.place {
        Place::Undefined => b"undefined".as_slice(),
        Place::Section(i) if (i as usize) < image.section_count() => image.name(i as usize),
        Place::Absolute => b"absolute",
        Place::Common => b"common",
        _ => b"reserved",
    };
    let (section, name) = (section.escape_ascii(), symbol.name.escape_ascii());
    let Symbol { value, size, .. } = *symbol;
    println!(rt; "{value:016x} {size:>8} {kind:<7} {binding:<6} {section} {name}")
}
