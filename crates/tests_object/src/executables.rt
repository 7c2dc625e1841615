//! The executable of no file at all, and how one goes out. Executables byte for byte are in `cases/links.txt`.
ghost use Rattle.std.specs.Prelude.{IfOk};
ghost use Rattle.elf_link_relocate.specs.Linked.{IsSoundMapButOptions, IsSoundMap};

use crate::asserts::assert_same;
use elf_exec::{ExecFault, write_exec};
use elf_field::Order;
use elf_link_field::{Form, Range, RelocRule, Width};
use elf_link_map::{LinkFault, LinkMap, Options, map};
use elf_link_relocate::relocate;
use elf_object_file::write_object;
use elf_object_type::{Object, ObjectFault};
use elf_object_writer::ObjectWriteFault;
use std::alloc::Global;
use std::hash::{BuildHasherDefault, DefaultHasher};
use std::io::Write;
use tests_files::{OnceFailingWriter, callee_object, caller_object, set_header};

// The executable of objects: their link, written.

/// Kind 2 is a call: where its target is from the field on, in four bytes.
const CALL: RelocRule = RelocRule {
    kind: 2,
    form: Form::Pc,
    width: Width::W4,
    range: Range::Signed,
};

/// These options.
pub(crate) fn options(base: u64, page: u64, entry: Option<&[u8]>) -> Options<'_> {
    Options { base, page, entry }
}

/// The link map of these objects.
fn mapped<'a>(
    alloc: Global,
    objects: &[Object<'a>],
    options: &Options<'_>,
) -> Result<LinkMap<'a>, LinkFault>
    ensures { IfOk result (λ m. IsSoundMap objects.now m) }
{
    map(
        alloc,
        objects,
        options,
        BuildHasherDefault::<DefaultHasher>::new(),
    )
}

/// How a link ended, and how the writing of its executable did.
pub(crate) type Ended = Result<Result<(), ExecFault>, LinkFault>;

/// Writes the executable of these objects.
pub(crate) fn write_linked<W: Write>(
    alloc: Global,
    objects: &[Object<'_>],
    options: &Options<'_>,
    writer: &mut W,
) -> Ended {
    let map = mapped(alloc, objects, options)?;
    write_mapped(alloc, &map, objects, writer)
}

/// Writes the executable of these objects by their link map.
fn write_mapped<'m, 'a, W: Write>(
    alloc: Global,
    map: &'m LinkMap<'a>,
    objects: &'m [Object<'a>],
    writer: &mut W,
) -> Ended
    requires map { IsSoundMapButOptions objects.now map.now }
    requires some { IsSoundMap objects.now map.now }
{
    let rules = [CALL];
    let linked = relocate(alloc, map, objects, &rules)?;
    Ok(write_exec(alloc, &linked, writer))
}

/// A header alone, of type `ET_EXEC`, without an order or a processor of any file.
fn header_file() -> [u8; 64] {
    let mut file = [0; 64];
    set_header(&mut file, Order::Little, &[(16, 2, 2), (18, 2, 0)]);
    file
}

#[test]
fn the_executable_of_no_files(rt: HostRuntime) {
    let none: [Object<'static>; 0] = [];
    let mut text = Vec::new(rt.alloc());
    let ended = write_linked(rt.alloc(), &none, &options(0, 1, None), &mut text);
    assert_same(
        &rt,
        (ended, text.as_slice()),
        (Ok(Ok(())), header_file().as_slice()),
    );
}

// The executable of a call, and one of its objects, onto a writer that takes a byte a call.

/// The caller and the function that it calls.
fn both(alloc: Global) -> Result<[Object<'static>; 2], ObjectFault> {
    Ok([caller_object(alloc)?, callee_object(alloc)?])
}

/// Writes the executable, and then the object of the function that is called.
fn write_call(
    alloc: Global,
    writer: &mut OnceFailingWriter,
) -> Result<(Ended, Result<(), ObjectWriteFault>), ObjectFault> {
    let objects = both(alloc)?;
    let options = options(0x1000, 1, Some(b"main"));
    let linked = write_linked(alloc, &objects, &options, writer);
    Ok((linked, write_object(alloc, &objects[1], writer)))
}

// The executable has 127 bytes, and the object 488. There are as many calls as bytes, so none is empty.
#[test]
fn nothing_is_flushed_and_nothing_empty_is_written(rt: HostRuntime) {
    let mut writer = OnceFailingWriter::new(rt.alloc(), 1, 0);
    let ended = write_call(rt.alloc(), &mut writer);
    let counts = [writer.bytes.len(), writer.offers.len(), writer.flushes];
    assert_same(
        &rt,
        (ended, counts),
        (Ok((Ok(Ok(())), Ok(()))), [127 + 488, 127 + 488, 0]),
    );
}
