//! Strings of one table, of which many may share their bytes (gABI chapter 4, String Table).
ghost use Rattle.std.specs.List.{range_with_len};
ghost use Rattle.std.specs.Prelude.{◌≡◌, ◌≤◌, ℕ, ◌+◌, ◌/◌, IfOk, length, map, slice_range};
ghost use Rattle.elf_field.specs.Strings.{string};
ghost use Rattle.elf_object_reader.specs.FileRules.{BLOCK, block_end};

use elf_image_type::strings::string_at;
use std::alloc::{AllocError, Global};

/// How many bytes of a table are a block.
const BLOCK: usize = 4096;

/// A string table in blocks. Where a string ends that goes on from one block into the next is known beforehand, by one pass over the table.
/// So no string is read further than to the end of its block: many names may be one long string, or its tails.
#[derive(Drop)]
pub(crate) struct StringBlocks<'a> {
    /// The table.
    pub(crate) table: &'a [u8],
    // For each block but the first one, where the string at its beginning ends.
    ends: Vec<usize>,
    ghost known: { ends.items ≡ map (block_end table.now) (range_with_len 1 (length table.now / BLOCK)) },
}

impl<'a> StringBlocks<'a> {
    /// The blocks of a table. It takes a number of memory for each of them.
    pub(crate) fn new(alloc: Global, table: &'a [u8]) -> Result<StringBlocks<'a>, AllocError>
        ensures { IfOk result (λ blocks. blocks.table.now ≡ table.now) }
    {
        let ends = block_ends(alloc, table)?;
        Ok(StringBlocks { table, ends })
    }

    /// The string at an offset, which is read to the end of its block at most. No contract can say so: what is answered is the same if it
    /// is read whole.
    pub(crate) fn string(&self, offset: u32) -> &'a [u8]
        ensures { result.now ≡ string self.now.table.now offset }
    {
        let at = offset as usize;
        let block = at / BLOCK;
        if block >= self.ends.len() {
            return string_at(self.table, at);
        }
        let next = BLOCK * (block + 1);
        let near = string_at(&self.table[..next], at);
        if at + near.len() < next {
            return near;
        }
        between(self.table, at, self.ends[block])
    }
}

/// The bytes of a table from one offset to another.
fn between(table: &[u8], start: usize, end: usize) -> &[u8]
    requires order { start ≤ end }
    requires within { end ≤ length table.now }
    ensures { result.now ≡ slice_range table.now start end }
{
    &table[start..end]
}

/// For each block of a table but the first one, where the string at its beginning ends.
fn block_ends(alloc: Global, table: &[u8]) -> Result<Vec<usize>, AllocError>
    ensures { IfOk result (λ ends. ends.items ≡ map (block_end table.now) (range_with_len 1 (length table.now / BLOCK))) }
{
    let count = table.len() / BLOCK;
    let mut ends = Vec::with_capacity(alloc, count)?;
    let mut end = string_at(table, 0).len();
    for block in 0..count {
        end = end_from(table, end, BLOCK * (block + 1));
        ends.push(end)?;
    }
    Ok(ends)
}

/// Where the string at an offset ends, by where a string before it does, unless that ends before this one begins.
fn end_from(table: &[u8], end: usize, offset: usize) -> usize
    requires within { offset ≤ length table.now }
    requires before { offset ≤ end → (start : ℕ) × (start ≤ offset) × (start + length (string table.now start) ≡ end) }
    ensures { result ≡ offset + length (string table.now offset) }
{
    if offset <= end {
        end
    } else {
        offset + string_at(table, offset).len()
    }
}
