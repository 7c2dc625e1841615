//! The parts of a file, in slots that a caller lends.
ghost use Rattle.std.specs.Prelude.{◌≡◌, ◌≤◌, ◌<◌, ◌+◌, ◌*◌, ◌++◌, length, map, take, filter, ◌^◌, IfErr, IfOk, None};
ghost use Rattle.std.specs.List.Sorted.{IsNonDecreasingBy};
ghost use Rattle.std.specs.List.{All};
ghost use Rattle.elf_extent.specs.Account.{gap_between};
ghost use Rattle.elf_extent.specs.Extent.{AreDisjoint, AreMembers, Doubly, holds_any, IsLowest};
ghost use Rattle.elf_image_rules.specs.Rules.{KeepsRecordRules, extents_of_file, IsFault};
ghost use Rattle.elf_image_rules.specs.ValidatedRecords.{file_of, file_extents};
ghost use Rattle.elf_c_parts.specs.Slots.{AccountsFor, member_of_part, piece_of_part, extent_of_part, IsPartsRefusal, parts_wanted};

use elf_extent::{Extent, Row, sweep};
use elf_image_rules::rules::SHARED_BYTE;
use elf_image_rules::{FileExtents, ValidatedRecords, validate_records};

// A part of a file, and why a buffer holds none.

/// What is in place of an owner's index at a gap.
pub const GAP: u64 = u64::MAX;

/// `struct elfmap_part`: the bytes at the offsets from `start` to below `start + len`, and what they belong to.
#[repr(C)]
#[derive(Clone, Copy, PartialEq, Eq, Debug)]
pub struct Part {
    /// The offset of the first byte.
    pub start: u64,
    /// How many bytes.
    pub len: u64,
    /// The header is 0, the section header table 1, the program header table 2, the content of section i is 3 + i; [`GAP`] for none.
    pub owner: u64,
}

/// Why a file's parts are not reported.
#[derive(Clone, Copy)]
pub enum PartsFault {
    /// The first rule that the file breaks, and the lowest offset at which it does, in bytes.
    Rule { rule: u16, at: u64 },
    /// The file breaks none of rules 1 to 32, and the buffer has too few slots. It needs three for each extent of the file, and one.
    ShortRoom { wanted: u64 },
}

// The account of a file, from its extents in ascending order.

/// Writes the account of the file into the first slots, from its extents that hold a byte, in ascending order: how many parts there are.
pub fn put_account(records: &ValidatedRecords, members: &[Part], parts: &mut [Part]) -> usize
    requires kept { KeepsRecordRules (file_of records.now) }
    requires disjoint { AreDisjoint (extents_of_file (file_of records.now)) }
    requires members { let es = extents_of_file (file_of records.now) in AreMembers es (length es) (map member_of_part members.now) }
    requires ascending { IsNonDecreasingBy (λ part. part.start) members.now }
    requires room { 2 * length members.now + 1 ≤ length parts.old }
    ensures within { result ≤ length parts.new }
    ensures account { AccountsFor (file_of records.now) result parts.new }
{
    let mut count = 0;
    let mut at = 0;
    for member in members {
        count = put_gap(parts, count, at, member.start);
        parts[count] = *member;
        count += 1;
        at = member.start + member.len;
    }
    put_gap(parts, count, at, records.bytes().len() as u64)
}

/// Writes the gap from `start` to `end`, if it is not empty, after the first `count` parts: how many parts there are then.
fn put_gap(parts: &mut [Part], count: usize, start: u64, end: u64) -> usize
    requires order { start ≤ end }
    requires room { count < length parts.old }
    ensures more { count ≤ result }
    ensures most { result ≤ count + 1 }
    ensures gap { map piece_of_part (take result parts.new) ≡ map piece_of_part (take count parts.old) ++ gap_between start end }
{
    if start == end {
        return count;
    }
    parts[count] = Part {
        start,
        len: end - start,
        owner: GAP,
    };
    count + 1
}

// The extents of a file that hold a byte, in the slots of a buffer.

/// Puts the extents of the file that hold a byte into the buffer, from its first slot on, each with its index. Returns how many these are.
pub fn put_members(extents: &FileExtents, room: &mut [Part]) -> usize
    requires { length (file_extents extents.now) ≤ length room.old }
    ensures within { result ≤ length room.new }
    ensures few { result ≤ length (file_extents extents.now) }
    ensures members { let es = file_extents extents.now in
        AreMembers es (length es) (map member_of_part (take result room.new)) }
    ensures held { map extent_of_part (take result room.new) ≡ filter holds_any (file_extents extents.now) }
{
    let mut count = 0;
    for index in 0..extents.len() {
        let extent = extents.at(index);
        if extent.len > 0 {
            room[count] = Part {
                start: extent.start,
                len: extent.len,
                owner: index,
            };
            count += 1;
        }
    }
    count
}

/// The lowest byte that two of these hold, each of which holds one. They are in ascending order of their starts.
pub fn lowest_double(members: &[Part]) -> Option<u64>
    requires ascending { IsNonDecreasingBy (λ part. part.start) members.now }
    requires nonempty { All (λ e. 0 < e.len) (map extent_of_part members.now) }
    ensures { IsLowest (Doubly (map extent_of_part members.now)) result }
{
    sweep(&mut PartRow { members, looks: 0 })
}

/// A row of the extents in parts.
#[derive(Drop)]
pub(crate) struct PartRow<'a> {
    members: &'a [Part],
    looks: u64,
}

impl<'a> Row for PartRow<'a> {
    ghost use Rattle.elf_c_parts.specs.Slots.{part_extents, part_looks};

    ghost extents = { part_extents };

    ghost looks = { part_looks };

    fn len(&self) -> usize {
        self.members.len()
    }

    fn at(&mut self, k: usize) -> Extent {
        self.looks += 1;
        let part = self.members[k];
        Extent {
            start: part.start,
            len: part.len,
        }
    }
}

// What each byte of a file belongs to, with a buffer for its parts.

/// The parts of a file. Returns how many there are. They are in the first slots of the buffer, in ascending order, and none is empty. They
/// hold each byte of the file exactly once: each extent that holds a byte, and each gap between them, as long as it can be.
///
/// Returns [`PartsFault::Rule`] if the file breaks one of rules 1 to 33. Returns [`PartsFault::ShortRoom`] if it breaks none of rules 1 to
/// 32 and the buffer has fewer slots than three for each extent and one: rule 33 is not tested then. It takes n log n for any file, and no
/// memory but the buffer, which it overwrites.
pub fn parts_in(bytes: &[u8], room: &mut [Part]) -> Result<usize, PartsFault>
    ensures kept { IfOk result (λ count. IsFault bytes.now None) }
    ensures room { IfOk result (λ count. parts_wanted bytes.now ≤ length room.old) }
    ensures within { IfOk result (λ count. count ≤ length room.new) }
    ensures account { IfOk result (λ count. AccountsFor bytes.now count room.new) }
    ensures fault { IfErr result (IsPartsRefusal bytes.now (length room.old)) }
{
    let records = match validate_records(bytes) {
        Ok(records) => records,
        Err(broken) => {
            return Err(PartsFault::Rule {
                rule: broken.rule,
                at: broken.at,
            });
        }
    };
    let wanted = slots_wanted(FileExtents::new(&records).len());
    if (room.len() as u64) < wanted {
        return Err(PartsFault::ShortRoom { wanted });
    }
    put_parts(&records, room)
}

/// How many slots a file with so many extents needs: three for each, and one.
fn slots_wanted(extents: u64) -> u64
    requires { 3 * extents + 1 < 2 ^ 64 }
    ensures { result ≡ 3 * extents + 1 }
{
    3 * extents + 1
}

/// Puts the parts of the file into the first slots of the buffer. The extents that hold a byte are sorted in the back of the buffer. The
/// account is written from them into the front.
fn put_parts(records: &ValidatedRecords, room: &mut [Part]) -> Result<usize, PartsFault>
    requires kept { KeepsRecordRules (file_of records.now) }
    requires room { parts_wanted (file_of records.now) ≤ length room.old }
    ensures kept { IfOk result (λ count. IsFault (file_of records.now) None) }
    ensures within { IfOk result (λ count. count ≤ length room.new) }
    ensures account { IfOk result (λ count. AccountsFor (file_of records.now) count room.new) }
    ensures fault { IfErr result (IsPartsRefusal (file_of records.now) (length room.old)) }
{
    let extents = FileExtents::new(records);
    let mid = 2 * extents.len() as usize + 1;
    let (parts, back) = room.split_at_mut(mid);
    let count = put_members(&extents, back);
    let (members, _) = back.split_at_mut(count);
    members.sort_unstable_by_key(|member| member.start);
    match lowest_double(members) {
        Some(at) => Err(PartsFault::Rule {
            rule: SHARED_BYTE,
            at,
        }),
        None => Ok(put_account(records, members, parts)),
    }
}
