//! `example_make`: makes an object from nothing and writes it to standard output: a function `answer` of x86-64, which answers 42. Before
//! that it reads the object back from its file, and finds it the same.
#![tactic(auto)]

ghost use Rattle.std.specs.Prelude.{IfOk, IsTrue};
ghost use Rattle.elf_object.specs.ObjectFile.{IsWrittenFile};

use elf_field::Order;
use elf_field::abi::*;
use elf_image::parse;
use elf_object::{
    Body, Info, Object, ObjectParts, Place, Section, Symbol, object_of, prove_read_back,
    write_object,
};
use std::alloc::Global;
use std::io;
use std::process::ExitCode;

/// `mov eax, 42; ret`
const CODE: [u8; 6] = [0xb8, 42, 0, 0, 0, 0xc3];

/// `e_machine` of x86-64.
const EM_X86_64: u16 = 62;

fn main(rt: HostRuntime) -> io::Result<ExitCode> {
    let alloc = rt.alloc();
    let Some(object) = answer(alloc) else {
        eprintln!(rt; "example_make: there is too little memory")?;
        return Ok(ExitCode::from(3));
    };
    if let Err(why) = is_read_back(alloc, &object) {
        eprintln!(rt; "example_make: {why}")?;
        return Ok(ExitCode::from(3));
    }
    if write_object(alloc, &object, &mut rt.stdout()).is_err() {
        eprintln!(rt; "example_make: the object can't be written")?;
        return Ok(ExitCode::from(3));
    }
    Ok(ExitCode::from(0))
}

/// The object's file.
fn file_of(alloc: Global, object: &Object<'_>) -> Result<Vec<u8>, &'static str>
    ensures { IfOk result (λ file. IsWrittenFile object.now file.items) }
{
    let mut file = Vec::new(alloc);
    match write_object(alloc, object, &mut file) {
        Ok(()) => Ok(file),
        Err(_) => Err("the object can't be written"),
    }
}

/// Whether the object that is read from its file is the same: so it is, where memory suffices.
fn is_read_back(alloc: Global, object: &Object<'_>) -> Result<bool, &'static str>
    ensures { IfOk result (λ same. IsTrue same) }
{
    let file = file_of(alloc, object)?;
    let Ok(image) = parse(alloc, &file) else {
        return Err("the file can't be parsed");
    };
    let Ok(read) = object_of(alloc, &image) else {
        return Err("the object can't be read");
    };
    prove_read_back(object, &file, &image, &read);
    Ok(read == *object)
}

/// The object, or None if there is too little memory.
fn answer(alloc: Global) -> Option<Object<'static>> {
    let text = Section {
        name: b".text",
        flags: SHF_ALLOC | SHF_EXECINSTR,
        addr: 0,
        align: 16,
        entsize: 0,
        link: None,
        info: Info::Number(0),
        body: Body::Bits(SHT_PROGBITS, &CODE),
    };
    let answer = Symbol {
        name: b"answer",
        info: STB_GLOBAL << 4 | STT_FUNC,
        other: 0,
        place: Place::In(0),
        value: 0,
        size: CODE.len() as u64,
    };
    let parts = ObjectParts {
        order: Order::Little,
        osabi: 0,
        abi: 0,
        machine: EM_X86_64,
        flags: 0,
        sections: vec![in alloc; text].ok()?,
        symbols: vec![in alloc; answer].ok()?,
    };
    Object::new(alloc, parts).ok()
}
