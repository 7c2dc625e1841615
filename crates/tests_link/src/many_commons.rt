//! Five thousand commons, each of which has an entry in each of forty files.
ghost use Rattle.std.specs.Prelude.{◌<◌};

use crate::asserts::assert_same;
use crate::parts::mapped;
use elf_field::Order;
use elf_link_map::{LinkFault, LinkMap};
use elf_object_type::{Object, Place, Symbol};
use std::alloc::{AllocError, Global};
use std::test::Fail;
use tests_files::{DIGITS, GLOBAL, numbered, object, symbol};

const NAMES: u64 = 5_000;

const FILES: u64 = 40;

/// The address of the first common.
const BASE: u64 = 0x1_0000;

/// The size and the alignment of a name's entry in a file: the one grows by one from file to file, the other doubles up to that of the
/// name, the power of two of the rest of its position by 13.
fn entry(file: u64, position: u64) -> (u64, u64)
    requires file { file < 40 }
    requires position { position < 5000 }
{
    let bits = (position % 13).min(file);
    (position + file + 1, 1 << bits)
}

/// The entries of a file.
fn symbols(alloc: Global, names: &[u8], file: u64) -> Result<Vec<Symbol<'_>>, AllocError>
    requires { file < 40 }
{
    let mut symbols = Vec::new(alloc);
    for position in 0..NAMES {
        let start = DIGITS * position as usize;
        let name = names.get(start..start + DIGITS).unwrap_or(b"");
        let (size, align) = entry(file, position);
        let common = symbol(name, GLOBAL, Place::Common, align);
        symbols.push(Symbol { size, ..common })?;
    }
    Ok(symbols)
}

/// The files.
fn files(alloc: Global, names: &[u8]) -> Result<Vec<Object<'_>>, Fail> {
    let mut files = Vec::new(alloc);
    for file in 0..FILES {
        let symbols = symbols(alloc, names, file)?;
        files.push(object(alloc, Order::Little, Vec::new(alloc), symbols)?)?;
    }
    Ok(files)
}

/// The first common that has not the largest size and alignment of its entries, those of the last file, or that is not at the least
/// multiple of its alignment after the one before it.
fn first_wrong(link: &LinkMap<'_>) -> Option<u64> {
    let mut end = BASE;
    for position in 0..NAMES {
        let (size, align) = entry(FILES - 1, position);
        let address = end.checked_next_multiple_of(align).unwrap_or(0);
        let found = link.commons().get(position as usize);
        let found = found.map(|common| (common.address, common.size, common.align));
        if found != Some((address, size, align)) {
            return Some(position);
        }
        end = address.wrapping_add(size);
    }
    None
}

/// How many commons the link of these objects has, and the first one that is wrong.
fn outcome_of(alloc: Global, objects: &[Object<'_>]) -> Result<(usize, Option<u64>), LinkFault> {
    let link = mapped(alloc, objects, BASE, None)?;
    Ok((link.commons().len(), first_wrong(&link)))
}

/// How many commons the link of the files has, and the first one that is wrong.
fn outcome(alloc: Global) -> Result<(usize, Option<u64>), Fail> {
    let names = numbered(alloc, NAMES as usize)?;
    let objects = files(alloc, names.as_bytes())?;
    Ok(outcome_of(alloc, &objects)?)
}

#[test]
fn five_thousand_commons_of_forty_files(rt: HostRuntime) -> Result<(), Fail> {
    let found = outcome(rt.alloc())?;
    assert_same(&rt, found, (5_000, None));
    Ok(())
}
