//! The object without sections and symbols: 376 bytes of header, symbol table, string tables and section header table.
use elf::field::Order;
use elf::image::{Fault, parse, verdict};
use elf::object::{
    LayoutFault, Object, ObjectFault, ObjectParts, ObjectWriteFault, lay_out, object_of,
    write_object,
};
use elf::table::Symbols;
use std::alloc::Global;

fn empty_object(alloc: Global) -> Result<Object<'static>, ObjectFault> {
    let parts = ObjectParts {
        order: Order::Little,
        osabi: 0,
        abi: 0,
        machine: 62,
        flags: 0,
        sections: Vec::new(alloc),
        symbols: Vec::new(alloc),
    };
    Object::new(alloc, parts)
}

/// The length of the layout of an object.
fn length(alloc: Global, object: &Object<'_>) -> Result<u64, LayoutFault> {
    Ok(lay_out(alloc, object)?.length())
}

/// How many sections and symbols a file has, and how many sections the object of the file has.
fn counts(alloc: Global, file: &[u8]) -> Result<[usize; 3], Fault> {
    let image = parse(alloc, file)?;
    if image.section_count() < 2 {
        return Ok([0; 3]);
    }
    let symbols = Symbols::new(&image, 1)?;
    let object = object_of(alloc, &image)?;
    Ok([
        image.section_count(),
        symbols.len(),
        object.sections().len(),
    ])
}

/// The verdict on a file, and its counts.
type File = (Option<(u16, u64)>, Result<[usize; 3], Fault>);

/// The verdict on the file of an object, and its counts.
fn file_of(alloc: Global, object: &Object<'_>) -> Result<File, ObjectWriteFault> {
    let mut file = Vec::new(alloc);
    write_object(alloc, object, &mut file)?;
    Ok((verdict(&file), counts(alloc, &file)))
}

/// The length of the layout of the object, and its file.
fn seen(
    alloc: Global,
) -> Result<(Result<u64, LayoutFault>, Result<File, ObjectWriteFault>), ObjectFault> {
    let object = empty_object(alloc)?;
    Ok((length(alloc, &object), file_of(alloc, &object)))
}

#[test]
fn it_is_laid_out_written_and_read_back(rt: HostRuntime) {
    let expected = (Ok(376), Ok((None, Ok([4, 1, 0]))));
    assert_eq!(rt; seen(rt.alloc()), Ok(expected));
}
