//! Extents, places and hash tables of names by themselves.
use crate::said::{Said, say};
use elf_extent::{Extent, OutOfMemory, PlaceFault, SortedExtents, account, first_double, place};
use elf_table_hash::{HashFault, build_hash};
use std::alloc::Global;
use std::io::Write;

const EXTENTS: [Extent; 3] = [
    Extent { start: 8, len: 4 },
    Extent { start: 0, len: 4 },
    Extent { start: 20, len: 0 },
];

/// The calls on them.
pub fn calls<W: Write>(alloc: Global, out: &mut W) {
    say(out, "SortedExtents::new", sorted(alloc));
    say(out, "first_double", double(alloc));
    say(out, "account", accounted(alloc));
    say(out, "place", placed(alloc));
    say(out, "build_hash", hashed(alloc));
}

fn sorted(alloc: Global) -> Said {
    match SortedExtents::new(alloc, &EXTENTS) {
        Ok(sorted) => Said::Done(sorted.first_double().is_some() as u64),
        Err(OutOfMemory) => Said::Memory,
    }
}

fn double(alloc: Global) -> Said {
    match first_double(alloc, &EXTENTS) {
        Ok(found) => Said::Done(found.is_some() as u64),
        Err(OutOfMemory) => Said::Memory,
    }
}

fn accounted(alloc: Global) -> Said {
    match account(alloc, &EXTENTS, 16) {
        Ok(pieces) => Said::Done(pieces.len() as u64),
        Err(OutOfMemory) => Said::Memory,
    }
}

fn placed(alloc: Global) -> Said {
    match place(alloc, &[(3, 1), (4, 8)], 64) {
        Ok(places) => Said::Done(places.len() as u64),
        Err(PlaceFault::OutOfMemory) => Said::Memory,
        Err(PlaceFault::Overflow { .. }) => Said::Refused,
    }
}

fn hashed(alloc: Global) -> Said {
    match build_hash(alloc, &[b"", b"printf", b"exit", b"a"], 2) {
        Ok(words) => Said::Done(words.len() as u64),
        Err(HashFault::OutOfMemory) => Said::Memory,
        Err(_) => Said::Refused,
    }
}
