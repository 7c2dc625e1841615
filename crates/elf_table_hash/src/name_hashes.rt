//! The hashes of symbols' names, by their places in the file (gABI chapter 5, Hash Table).
//!
//! Each tail of a name is hashed by itself: its hash does not follow from that of a longer or a shorter one. So 16 tails of one name are
//! hashed side by side. A name of at most 64 bytes is hashed for each symbol.
//!
//! Hash tables may share a symbol table, and symbols may share a name. To hash the name of each symbol for each table could read one long
//! name as often as the file has words. So each long name is hashed once for each place where one begins.
ghost use Rattle.std.specs.Prelude.{◌≡◌, ◌≤◌, IfSome, length};
ghost use Rattle.elf_field.specs.Strings.{string};
ghost use Rattle.elf_table_hash.specs.HashTable.{hash_of};
ghost use Rattle.elf_table_hash.specs.NameHashes.{AreLanesRun, LANES, place_key};
ghost use Rattle.elf_table_symbols.specs.Sections.{content, sections_of};

use crate::hash_building::elf_hash;
use crate::hash_lanes::{LANES, Lanes, hash_up_to};
use elf_image_type::Image;
use elf_image_type::strings::string_at;
use std::alloc::{AllocError, Global};
use std::collections::BTreeMap;
use std::marker::Model;

/// The most bytes of a name that is hashed each time. A hash table has a word for each symbol, so that this is linear in the file.
const SHORT_NAME: usize = 64;

/// The hashes of the strings of an image: each string of more than 64 bytes is hashed once, for the place in the file where it begins.
/// Only such strings take memory.
#[derive(Drop)]
pub struct NameHashes<'i, 'a> {
    image: &'i Image<'a>,
    // By the section, and the offset in it.
    kept: BTreeMap<u64, u32>,
}

impl<'i, 'a> Model for NameHashes<'i, 'a> {
    ghost use Rattle.elf_table_symbols.specs.Sections.{Sections, sections_of};
    ghost use Rattle.elf_table_hash.specs.NameHashes.{AreHashesKept};

    ghost Value = { Sections };

    ghost view = { λ a. sections_of a.image.now };

    ghost invariant = { AreHashesKept };
}

impl<'i, 'a> NameHashes<'i, 'a> {
    /// The hashes of this image's names, of which none is kept.
    pub fn new(alloc: Global, image: &'i Image<'a>) -> NameHashes<'i, 'a>
        ensures { result ≡ sections_of image.entry.now }
    {
        NameHashes {
            image,
            kept: BTreeMap::new(alloc),
        }
    }

    /// The hash of the string at an offset of the content of a section, if the string is short or its hash is kept.
    pub(crate) fn known(&self, section: u32, strings: &[u8], offset: u32) -> Option<u32>
        requires { strings.now ≡ content self.now section }
        ensures { IfSome result (λ hash. hash ≡ hash_of (string strings.now offset)) }
    {
        let near = near_string(strings, offset);
        if near.len() <= SHORT_NAME {
            return Some(elf_hash(near));
        }
        self.kept.get(&key_of(section, offset)).copied()
    }

    /// Whether the hash of the string at an offset has to be kept, and is not.
    pub(crate) fn is_wanted(&self, section: u32, strings: &[u8], offset: u32) -> bool {
        near_string(strings, offset).len() > SHORT_NAME
            && !self.kept.contains_key(&key_of(section, offset))
    }

    /// Keeps the hashes of the strings at these offsets. Those that end at one place are hashed side by side, if their offsets ascend.
    pub(crate) fn keep_all(
        &mut self,
        section: u32,
        strings: &[u8],
        offsets: &[u32],
    ) -> Result<(), AllocError>
        requires { strings.now ≡ content self.old section }
        ensures { self.new ≡ self.old }
    {
        let mut from = 0;
        'pieces: while from < offsets.len() {
            let to = offsets.len().min(from.saturating_add(LANES));
            self.keep_some(section, strings, &offsets[from..to])?;
            from = to;
        }
        Ok(())
    }

    // Keeps those of at most as many strings as there are lanes.
    fn keep_some(&mut self, section: u32, strings: &[u8], offsets: &[u32]) -> Result<(), AllocError>
        requires own { strings.now ≡ content self.old section }
        requires few { length offsets.now ≤ LANES }
        ensures { self.new ≡ self.old }
    {
        let Some(&last) = offsets.last() else {
            return Ok(());
        };
        let mut lanes = Lanes::new(strings, last);
        for k in 0..offsets.len() {
            match hash_up_to(strings, offsets[k], last) {
                Some(hash) => lanes.put(strings, last, k, offsets[k], hash),
                None => self.keep_alone(section, strings, offsets[k])?,
            }
        }
        lanes.run(strings, last);
        self.keep_lanes(section, strings, &lanes)
    }

    // Keeps the hash of a string that ends by itself.
    fn keep_alone(&mut self, section: u32, strings: &[u8], offset: u32) -> Result<(), AllocError>
        requires { strings.now ≡ content self.old section }
        ensures { self.new ≡ self.old }
    {
        let hash = elf_hash(string_at(strings, offset as usize));
        self.keep(section, strings, offset, hash)
    }

    fn keep_lanes(&mut self, section: u32, strings: &[u8], lanes: &Lanes) -> Result<(), AllocError>
        requires own { strings.now ≡ content self.old section }
        requires run { AreLanesRun strings.now lanes.now }
        ensures { self.new ≡ self.old }
    {
        for k in 0..LANES {
            self.keep(section, strings, lanes.offsets[k], lanes.hashes[k])?;
        }
        Ok(())
    }

    // Keeps the hash of the string at an offset.
    fn keep(
        &mut self,
        section: u32,
        strings: &[u8],
        offset: u32,
        hash: u32,
    ) -> Result<(), AllocError>
        requires own { strings.now ≡ content self.old section }
        requires hash { hash ≡ hash_of (string strings.now offset) }
        ensures { self.new ≡ self.old }
    {
        let _ = strings;
        self.kept.insert(key_of(section, offset), hash)?;
        Ok(())
    }
}

// An offset in a section, as one number.
fn key_of(section: u32, offset: u32) -> u64
    ensures { result ≡ place_key section offset }
{
    (section as u64) * (1 << 32) + offset as u64
}

// The string at an offset of a string table; of a long one the beginning, of one byte more than a short one has.
fn near_string(table: &[u8], offset: u32) -> &[u8]
    ensures { length result.now ≤ 64 → result.now ≡ string table.now offset }
{
    let rest = &table[(offset as usize).min(table.len())..];
    string_at(&rest[..rest.len().min(SHORT_NAME + 1)], 0)
}
