//! A hash table of three names, and such tables built.
ghost use Rattle.std.specs.Prelude.{◌<◌, length};

use crate::asserts::assert_same;
use elf_field::Order;
use elf_image::{Fault, Image, parse};
use elf_table::{Hash, HashFault, build_hash, elf_hash};
use std::alloc::{AllocError, Global};
use std::test::Fail;
use tests_files::{DIGITS, Field, numbered, set_header};

/// A hash table of two buckets at 64, four symbols at 96, their names at 192, and the section headers at 208.
const HASH: [Field; 34] = [
    (40, 8, 208),
    (58, 2, 64),
    (60, 2, 4),
    (64, 4, 2),
    (68, 4, 4),
    (72, 4, 1),
    (76, 4, 3),
    (84, 4, 2),
    (120, 4, 1),
    (124, 1, 0x10),
    (144, 4, 8),
    (148, 1, 0x10),
    (168, 4, 13),
    (172, 1, 0x10),
    (276, 4, 5),
    (296, 8, 64),
    (304, 8, 32),
    (312, 4, 2),
    (320, 8, 4),
    (328, 8, 4),
    (340, 4, 2),
    (360, 8, 96),
    (368, 8, 96),
    (376, 4, 3),
    (380, 4, 1),
    (384, 8, 8),
    (392, 8, 24),
    (404, 4, 3),
    (424, 8, 192),
    (432, 8, 15),
    (448, 8, 1),
    (193, 6, 0x6674_6e69_7270),
    (200, 4, 0x7469_7865),
    (205, 1, 0x61),
];

fn hash() -> [u8; 464] {
    let mut file = [0; 464];
    set_header(&mut file, Order::Little, &HASH);
    file
}

/// Whether each name is found, and no other, after so many looks.
fn finds_each_name(hash: &Hash<'_>) -> bool {
    let found = [
        hash.find(b"printf"),
        hash.find(b"exit"),
        hash.find(b"b"),
        hash.find(b""),
    ];
    let probed = [hash.probe(b"exit"), hash.probe(b"a"), hash.probe(b"b")];
    found == [Some(1), Some(2), None, None] && probed == [(Some(2), 2), (Some(3), 1), (None, 2)]
}

/// Whether it has these words.
fn has_words(hash: &Hash<'_>) -> bool {
    (hash.nbucket(), hash.nchain(), hash.len()) == (2, 4, 8)
        && hash.entry(3) == 3
        && hash.iter().count() == 8
}

/// Both of the image's section 1.
fn seen_in(alloc: Global, image: &Image<'_>) -> Result<[bool; 2], Fault> {
    if image.section_count() < 2 {
        return Ok([false; 2]);
    }
    let hash = Hash::new(alloc, image, 1)?;
    Ok([finds_each_name(&hash), has_words(&hash)])
}

/// Both of section 1 of a file.
fn seen(alloc: Global, file: &[u8]) -> Result<[bool; 2], Fault> {
    let image = parse(alloc, file)?;
    seen_in(alloc, &image)
}

#[test]
fn hashes_and_finds_each_name(rt: HostRuntime) {
    let hashes = [
        elf_hash(b""),
        elf_hash(b"printf"),
        elf_hash(b"exit"),
        elf_hash(b"syscall"),
    ];
    assert_same(
        &rt,
        (hashes, seen(rt.alloc(), &hash())),
        ([0, 0x0779_05a6, 0x0006_cf04, 0x0b09_985c], Ok([true; 2])),
    );
}

const NAMES: &[&[u8]] = &[b"", b"printf", b"exit", b"a"];

const NO_NAMES: &[&[u8]] = &[b""];

/// Whether these words are built of the names, in so many buckets.
fn are_built(
    alloc: Global,
    names: &[&[u8]],
    buckets: u32,
    expected: &[u32],
) -> Result<bool, HashFault>
    requires { 0 < length names.now }
{
    let words = build_hash(alloc, names, buckets)?;
    Ok(words.as_slice() == expected)
}

// None without a bucket, or of too many.
#[test]
fn builds_a_hash_table(rt: HostRuntime) {
    let alloc = rt.alloc();
    let built = [
        are_built(alloc, NAMES, 2, &[2, 4, 1, 3, 0, 2, 0, 0]),
        are_built(alloc, NO_NAMES, 1, &[1, 1, 0, 0]),
        are_built(alloc, NO_NAMES, 0, &[]),
        are_built(alloc, NO_NAMES, 0x0100_0001, &[]),
    ];
    assert_same(
        &rt,
        built,
        [
            Ok(true),
            Ok(true),
            Err(HashFault::NoBuckets),
            Err(HashFault::TooMany),
        ],
    );
}

// A table of a thousand names: the empty one, and the digits of 1 to 999. The sum of its words is one of the table that a program built
// by the definition, symbol by symbol, with the hash of the standard.

/// How many names there are, and how many buckets.
const MANY: usize = 1000;

const MANY_BUCKETS: u32 = 131;

/// How many words the table has, and their sum, in which each word has another weight.
const MANY_WORDS: (usize, u64) = (1133, 0x5508_6202_3329_c177);

fn many_names<'a>(alloc: Global, digits: &'a [u8]) -> Result<Vec<&'a [u8]>, AllocError> {
    let mut names = Vec::new(alloc);
    names.push(b"".as_slice())?;
    for name in digits.chunks_exact(DIGITS).skip(1) {
        names.push(name)?;
    }
    Ok(names)
}

fn sum_of(words: &[u32]) -> (usize, u64) {
    let mut sum: u64 = 0;
    for word in words {
        sum = sum
            .wrapping_mul(0x100_0000_01b3)
            .wrapping_add(u64::from(*word));
    }
    (words.len(), sum)
}

/// The sum of the table of the names in these digits.
fn sum_of_many(alloc: Global, digits: &[u8]) -> Result<(usize, u64), HashFault> {
    let names = many_names(alloc, digits)?;
    if names.is_empty() {
        return Err(HashFault::TooMany);
    }
    let words = build_hash(alloc, &names, MANY_BUCKETS)?;
    Ok(sum_of(&words))
}

#[test]
fn builds_a_table_of_a_thousand_names(rt: HostRuntime) -> Result<(), Fail> {
    let digits = numbered(rt.alloc(), MANY)?;
    assert_same(
        &rt,
        sum_of_many(rt.alloc(), digits.as_bytes()),
        Ok(MANY_WORDS),
    );
    Ok(())
}
