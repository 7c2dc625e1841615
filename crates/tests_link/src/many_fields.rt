//! A million fields of one byte, side by side.
ghost use Rattle.std.specs.Prelude.{◌<◌};

use crate::asserts::assert_same;
use crate::parts::{data, relocated_bytes, rule};
use elf_field::Order;
use elf_link_field::{Form, Range, Width};
use elf_link_map::LinkFault;
use elf_object_type::{Object, ObjectFault, Place, Relocation};
use std::alloc::{AllocError, Global};
use tests_files::{GLOBAL, list, object, relocs, symbol};

const COUNT: usize = 1_000_000;

/// The entry at this position, for each `step`th byte in turn; the field at an offset adds the offset's rest by 251.
fn entry(position: usize, step: usize) -> Relocation
    requires position { position < 1000000 }
    requires step { step < 10000 }
{
    let offset = position * step % COUNT;
    Relocation {
        offset: offset as u64,
        symbol: Some(0),
        kind: 1,
        addend: (offset % 251) as i64,
    }
}

/// The entries of all bytes.
fn entries(alloc: Global, step: usize) -> Result<Vec<Relocation>, AllocError>
    requires { step < 10000 }
{
    let mut entries = Vec::with_capacity(alloc, COUNT)?;
    for position in 0..COUNT {
        entries.push(entry(position, step))?;
    }
    Ok(entries)
}

/// A section of these bytes with its relocations, and the number 1 as a symbol.
fn file(alloc: Global, content: &[u8], step: usize) -> Result<Object<'_>, ObjectFault>
    requires { step < 10000 }
{
    let entries = entries(alloc, step)?;
    let sections = list(alloc, [data(b".data", content), relocs(0, entries)])?;
    let symbols = list(alloc, [symbol(b"one", GLOBAL, Place::Abs, 1)])?;
    object(alloc, Order::Little, sections, symbols)
}

/// The first byte that is not the rest of its offset by 251 and 1.
fn first_wrong(bytes: &[u8]) -> Option<usize> {
    for offset in 0..bytes.len() {
        if bytes[offset] as usize != offset % 251 + 1 {
            return Some(offset);
        }
    }
    None
}

/// How many bytes a section has, and the first wrong one.
type Outcome = (usize, Option<usize>);

/// The outcome of the section in the link of these objects.
fn outcome_of(alloc: Global, objects: &[Object<'_>]) -> Result<Outcome, LinkFault> {
    let rules = [rule(1, Form::Abs, Width::W1, Range::Unsigned)];
    let bytes = relocated_bytes(alloc, objects, &rules)?;
    Ok((bytes.len(), first_wrong(&bytes)))
}

/// The outcome of the section in the link of such a file.
fn outcome_by(alloc: Global, step: usize) -> Result<Result<Outcome, LinkFault>, ObjectFault>
    requires { step < 10000 }
{
    let content = vec![in alloc; 0; COUNT]?;
    let objects = [file(alloc, &content, step)?];
    Ok(outcome_of(alloc, &objects))
}

// 7,919 and a million have no common divisor, so each byte has one entry.
#[test]
fn a_million_fields_in_two_orders(rt: HostRuntime) {
    let found = [outcome_by(rt.alloc(), 1), outcome_by(rt.alloc(), 7_919)];
    assert_same(&rt, found, [Ok(Ok((COUNT, None))); 2]);
}
