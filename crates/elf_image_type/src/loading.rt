//! The bytes that the loadable segments of an image give their addresses (gABI chapter 5, Program Header).
ghost use Rattle.std.specs.Prelude.{◌≡◌, ◌<◌, ◌≤◌, ◌*◌, ◌↔◌, ℕ, IsTrue, List, MatchOption, length, map, slice_index};
ghost use Rattle.std.specs.List.{flat_map};
ghost use Rattle.elf_image_outline.specs.Image.{IsSoundImage, joined, part_bytes};
ghost use Rattle.elf_image_outline.specs.Outline.{image_of, placed_part};
ghost use Rattle.elf_image_type.specs.ImageView.{HasAddress, HaveNoAddress, IsFirstWithAddress, LoadsFirst};

use elf_field::abi::PT_LOAD;
use elf_field::{Order, Phdr, Record};
use elf_image_outline::{Outline, Owner, Part};

// The size of the longest records of an image: its header, and section headers.
const LONGEST_RECORD: usize = 64;

/// The byte that the first loadable segment with this address gives it.
pub(crate) fn load(outline: &Outline, contents: &[&[u8]], file: &[u8], address: u64) -> Option<u8>
    requires { IsSoundImage (image_of outline.now (map (λ content. content.now) contents.now) file.now) }
    ensures { LoadsFirst (joined (image_of outline.now (map (λ content. content.now) contents.now) file.now))
        outline.now.segments address result }
{
    match first_with_address(outline.segments(), address) {
        Some(j) => {
            let segment = outline.segment(j);
            let k = address - segment.p_vaddr;
            if k < segment.p_filesz {
                Some(byte_at(outline, contents, file, segment.p_offset + k))
            } else {
                Some(0)
            }
        }
        None => None,
    }
}

// The first segment that is loadable and has this address.
fn first_with_address(segments: &[Phdr], address: u64) -> Option<usize>
    ensures { MatchOption result (HaveNoAddress segments.now (length segments.now) address)
        (λ j. IsFirstWithAddress segments.now address j) }
{
    for (j, segment) in segments.iter().enumerate() {
        if has_address(segment, address) {
            return Some(j);
        }
    }
    None
}

fn has_address(segment: &Phdr, address: u64) -> bool
    ensures { IsTrue result ↔ HasAddress segment.now address }
{
    segment.p_type == PT_LOAD
        && segment.p_vaddr <= address
        && address - segment.p_vaddr < segment.p_memsz
}

// The byte at an offset of the file that represents the image: that of the part which the offset lies in.
fn byte_at(outline: &Outline, contents: &[&[u8]], file: &[u8], offset: u64) -> u8
    requires sound { IsSoundImage (image_of outline.now (map (λ content. content.now) contents.now) file.now) }
    requires within { offset < outline.now.len }
    ensures { result ≡ slice_index (joined (image_of outline.now (map (λ content. content.now) contents.now) file.now)) offset }
{
    for part in outline.parts() {
        let k = offset - part.start;
        if k < part.len {
            return part_byte(outline, contents, file, *part, k);
        }
    }
    0
}

// Byte `k` of a part, which has as many bytes as its length says.
fn part_byte(outline: &Outline, contents: &[&[u8]], file: &[u8], part: Part, k: u64) -> u8
    requires within { k < part.len }
    requires whole { let v = image_of outline.now (map (λ content. content.now) contents.now) file.now in
        length (part_bytes v (placed_part outline.now.zeroed file.now part)) ≡ part.len }
    ensures { let v = image_of outline.now (map (λ content. content.now) contents.now) file.now in
        result ≡ slice_index (part_bytes v (placed_part outline.now.zeroed file.now part)) k }
{
    match part.owner {
        Owner::Header => record_byte(outline.order(), &outline.header(), k as usize),
        Owner::SectionTable => table_byte(outline.order(), outline.sections(), k as usize),
        Owner::ProgramTable => table_byte(outline.order(), outline.segments(), k as usize),
        Owner::Content(i) => contents[i][k as usize],
        Owner::Gap if outline.is_zeroed() => 0,
        Owner::Gap => file[(part.start + k) as usize],
    }
}

// Byte `k` of a table of records.
fn table_byte<T: Record>(order: Order, records: &[T], k: usize) -> u8
    requires some { 0 < T.SIZE }
    requires short { T.SIZE ≤ LONGEST_RECORD }
    requires within { k < T.SIZE * length records.now }
    ensures { result ≡ slice_index (flat_map (T.bytes order) records.now) k }
{
    record_byte(order, &records[k / T::SIZE], k % T::SIZE)
}

// Byte `k` of a record.
fn record_byte<T: Record>(order: Order, entry: &T, k: usize) -> u8
    requires short { T.SIZE ≤ LONGEST_RECORD }
    requires within { k < T.SIZE }
    ensures { result ≡ slice_index (T.bytes order entry.now) k }
{
    let mut bytes = [0; LONGEST_RECORD];
    entry.put(order, &mut bytes[..T::SIZE]);
    bytes[k]
}
