//! Note sections (gABI chapter 5, Note Section).
ghost use Rattle.std.specs.Prelude.{◌≡◌, ◌<◌, ◌≤◌, ◌+◌, ◌^◌, length, MatchResult, MatchOption, None};
ghost use Rattle.elf_field.specs.Abi.{NHDR_SIZE};
ghost use Rattle.elf_table_lists.specs.Notes.{note_at as note_of, note_end as note_end_of, padded as padded_of, note_value};
ghost use Rattle.elf_table_lists.specs.Notes.{IsUnclosedNoteName, name_last, note_rules, note_section_rules, IsCut, notes_of};
ghost use Rattle.elf_image_rules.specs.Rows.{fault_of, FirstIn};
ghost use Rattle.elf_image_rules.specs.Rules.{MAX_LEN};
ghost use Rattle.elf_table_symbols.specs.Sections.{sections_of, sections_seen};
ghost use Rattle.elf_table_symbols.specs.Verdicts.{IsValidated, IsOnlyValidated, OfItsFile};

use elf_field::abi::*;
use elf_field::{Order, get_at};
use elf_image_rules::Broken;
use elf_image_stream::Fault;
use elf_image_type::Image;
use elf_table_symbols::rules::*;
use elf_table_symbols::{SectionsOf, TableSection};
use std::marker::Model;

// A note (gABI chapter 5, Note Section).

/// A note of a note section. It borrows from the bytes of the file.
#[derive(Clone, Copy, Debug, PartialEq, Eq)]
pub struct Note<'a> {
    /// The type, whose meaning is the owner's, whom the name names.
    pub note_type: u32,
    /// The name, without its closing zero and its padding; empty where the note has none.
    pub name: &'a [u8],
    /// The descriptor, without its padding.
    pub desc: &'a [u8],
}

/// The header of the note at an offset of a content, which lies in the content.
#[derive(Clone, Copy, Drop)]
pub struct NoteHeader<'a> {
    /// The byte order of the content.
    pub order: Order,
    /// The content.
    pub table: &'a [u8],
    /// The offset.
    pub at: usize,
    ghost inside: { at + NHDR_SIZE ≤ length table.now },
}

impl NoteHeader<'_> {
    ghost use Rattle.std.specs.Prelude.{◌≡◌, ◌<◌, ◌^◌};
    ghost use Rattle.elf_table_lists.specs.Notes.{desc_start as desc_start_of, descsz as descsz_of};
    ghost use Rattle.elf_table_lists.specs.Notes.{namesz as namesz_of, note_end as note_end_of};

    /// The size in bytes of the note's name, its closing zero counted.
    #[tactic(auto, unfolding(crate::specs::Notes::namesz))]
    pub fn namesz(self) -> usize
        ensures value { result ≡ namesz_of self.entry.order self.entry.table.now self.entry.at }
        ensures short { result < 2 ^ 32 }
    {
        let size: u32 = get_at(self.order, self.table, self.at + N_NAMESZ_AT as usize);
        size as usize
    }

    /// The size in bytes of its descriptor.
    #[tactic(auto, unfolding(crate::specs::Notes::descsz))]
    pub fn descsz(self) -> usize
        ensures value { result ≡ descsz_of self.entry.order self.entry.table.now self.entry.at }
        ensures short { result < 2 ^ 32 }
    {
        let size: u32 = get_at(self.order, self.table, self.at + N_DESCSZ_AT as usize);
        size as usize
    }

    /// Where its descriptor begins, in the content or past its end.
    #[tactic(auto, unfolding(crate::specs::Notes::desc_start))]
    pub fn desc_start(self) -> usize
        ensures value { result ≡ desc_start_of self.entry.order self.entry.table.now self.entry.at }
        ensures short { result ≤ length self.entry.table.now + 2 ^ 32 }
    {
        self.at + NHDR_SIZE as usize + padded(self.namesz())
    }

    /// Where the note ends, its padding too, in the content or past its end.
    #[tactic(auto, unfolding(crate::specs::Notes::note_end))]
    pub fn note_end(self) -> usize
        ensures { result ≡ note_end_of self.entry.order self.entry.table.now self.entry.at }
    {
        self.desc_start() + padded(self.descsz())
    }
}

// This size with its padding.
fn padded(size: usize) -> usize
    requires { size < 2 ^ 32 }
    ensures value { result ≡ padded_of size }
    ensures short { result ≤ 2 ^ 32 }
{
    let align = NOTE_ALIGN as usize;
    (size + (align - 1)) / align * align
}

/// The note at this offset of a content, which is whole.
#[tactic(auto, unfolding(crate::specs::Notes::note_at, crate::specs::Notes::note_end, crate::specs::Notes::desc_start))]
pub fn note_at<'a>(order: Order, table: &'a [u8], at: usize) -> Note<'a>
    requires { note_end_of order table.now at ≤ length table.now }
    ensures { note_value result ≡ note_of order table.now at }
{
    let header = NoteHeader { order, table, at };
    let name = at + NHDR_SIZE as usize;
    let desc = header.desc_start();
    Note {
        note_type: get_at(order, table, at + N_TYPE_AT as usize),
        name: &table[name..name + header.namesz().saturating_sub(1)],
        desc: &table[desc..desc + header.descsz()],
    }
}

// Rules 59 to 62: the notes of a note section (gABI chapter 5, Note Section).

/// Rules 40 and 59 to 62 of a note section. [`Broken`] is the first of them that is broken, at its lowest offset.
#[tactic(auto, unfolding(crate::specs::Notes::note_section_rules))]
pub fn validate_note_section(table: TableSection<'_, '_>) -> Result<(), Broken<u64>>
    ensures { FirstIn (note_section_rules (sections_seen table.entry.sections) table.entry.index) (fault_of result) }
{
    let section = table.header();
    if section.sh_type != SHT_NOTE {
        let at = table.header_offset() + SH_TYPE_AT;
        return Err(Broken::new(WRONG_TABLE_TYPE, at));
    }
    validate_notes(table.order(), table.content(), section.sh_offset)
}

/// Rules 59 to 62, of the notes of a content at `start` in the file. A name that is not closed is answered only once all notes are
/// seen to be whole.
pub(crate) fn validate_notes(order: Order, table: &[u8], start: u64) -> Result<(), Broken<u64>>
    requires { 0 < length table.now → start + length table.now ≤ MAX_LEN }
    ensures { FirstIn (note_rules order table.now start) (fault_of result) }
{
    let mut unclosed = None;
    let mut at = 0;
    while at < table.len() {
        let end = validate_end(order, table, start, at)?;
        unclosed = unclosed.or(unclosed_note_name(order, table, at));
        at = end;
    }
    match unclosed {
        Some(last) => Err(Broken::new(UNCLOSED_NOTE_NAME, start + last as u64)),
        None => Ok(()),
    }
}

/// Where the note at this offset ends, or the one of rules 59 to 61 that it breaks.
fn validate_end(order: Order, table: &[u8], start: u64, at: usize) -> Result<usize, Broken<u64>>
    requires there { at < length table.now }
    requires inside { start + length table.now ≤ MAX_LEN }
    ensures { MatchResult result
        (λ end. (end ≡ note_end_of order table.now at) × (end ≤ length table.now))
        (λ broken. IsCut order table.now start at broken) }
{
    let place = start + at as u64;
    if table.len() - at < NHDR_SIZE as usize {
        return Err(Broken::new(PARTIAL_NOTE, place));
    }
    let header = NoteHeader { order, table, at };
    if header.desc_start() > table.len() {
        return Err(Broken::new(NOTE_NAME_PAST_END, place + N_NAMESZ_AT));
    }
    let end = header.note_end();
    if end > table.len() {
        return Err(Broken::new(NOTE_DESC_PAST_END, place + N_DESCSZ_AT));
    }
    Ok(end)
}

/// The last byte of the name of the note at this offset, which is whole, where it isn't 0.
#[tactic(auto, unfolding(crate::specs::Notes::note_end, crate::specs::Notes::desc_start, crate::specs::Notes::name_last))]
fn unclosed_note_name(order: Order, table: &[u8], at: usize) -> Option<usize>
    requires { note_end_of order table.now at ≤ length table.now }
    ensures { MatchOption result
        (IsUnclosedNoteName order table.now at → ⊥)
        (λ last. IsUnclosedNoteName order table.now at × (last ≡ name_last order table.now at) × (last < length table.now)) }
{
    let size = NoteHeader { order, table, at }.namesz();
    if size == 0 {
        return None;
    }
    let last = at + NHDR_SIZE as usize + size - 1;
    if table[last] == 0 { None } else { Some(last) }
}

/// A note section: the list of its notes. It borrows from the bytes of the file.
#[derive(Drop)]
pub struct Notes<'a> {
    order: Order,
    table: &'a [u8],
}

impl<'a> Model for Notes<'a> {
    ghost use Rattle.std.specs.Prelude.{List};
    ghost use Rattle.elf_table_lists.specs.Notes.{AreNotesWhole, NoteValue, notes_in};

    ghost Value = { List NoteValue };

    ghost view = { λ a. notes_in a.order a.table.now 0 };

    ghost invariant = { λ a. AreNotesWhole a.order a.table.now 0 };
}

impl<'a> Notes<'a> {
    /// The notes that section `i` holds, where `i` is below the image's count of section headers. It takes no memory.
    ///
    /// [`Fault::Rule`] is the first of rules 40 and 59 to 62 that the section breaks, at its lowest offset; no other fault comes.
    /// Linear in the number of notes: of a name and a descriptor only the ends are looked at.
    pub fn new(image: &Image<'a>, i: usize) -> Result<Notes<'a>, Fault>
        requires { i < length image.now.sections }
        ensures validated { IsValidated (note_section_rules (sections_of image.now) i)
            (λ notes. notes ≡ notes_of (sections_of image.now) i) result }
        ensures file { OfItsFile image.now
            (λ f. IsOnlyValidated (note_section_rules f i) (λ notes. notes ≡ notes_of f i) result) }
    {
        image.prove_stands();
        validate_note_section(TableSection {
            sections: SectionsOf::Image(image),
            index: i,
        })?;
        Ok(sound_notes(image, i))
    }

    /// The notes in order.
    pub fn iter(&self) -> NoteIter<'a>
        ensures { result ≡ self.now }
    {
        NoteIter {
            order: self.order,
            table: self.table,
            at: 0,
        }
    }
}

/// The notes of section `i`, which breaks no rule.
pub fn sound_notes<'a>(image: &Image<'a>, i: usize) -> Notes<'a>
    requires there { i < length image.now.sections }
    requires sound { FirstIn (note_section_rules (sections_of image.now) i) None }
    ensures { result ≡ notes_of (sections_of image.now) i }
{
    let section = TableSection {
        sections: SectionsOf::Image(image),
        index: i,
    };
    Notes {
        order: section.order(),
        table: section.content(),
    }
}

impl<'s, 'a> IntoIterator for &'s Notes<'a> {
    type Item = Note<'a>;

    type IntoIter = NoteIter<'a>;

    ghost into_iter_gives = { λ table r. r ≡ table.now };

    fn into_iter(self) -> NoteIter<'a> {
        self.iter()
    }
}

/// The notes of a section, in order: those that are left are a list.
#[derive(Drop)]
pub struct NoteIter<'a> {
    order: Order,
    table: &'a [u8],
    // Where the next one begins.
    at: usize,
}

impl<'a> Model for NoteIter<'a> {
    ghost use Rattle.std.specs.Prelude.{List};
    ghost use Rattle.elf_table_lists.specs.Notes.{AreNotesWhole, NoteValue, notes_in};

    ghost Value = { List NoteValue };

    ghost view = { λ a. notes_in a.order a.table.now a.at };

    ghost invariant = { λ a. AreNotesWhole a.order a.table.now a.at };
}

impl<'a> Iterator for NoteIter<'a> {
    ghost use Rattle.std.specs.Prelude.{List};
    ghost use Rattle.std.specs.Iterator.{YieldsFirstBy, item_count};
    ghost use Rattle.elf_table_lists.specs.Notes.{NoteValue};
    ghost use Rattle.elf_table_lists.specs.Notes.{note_value};

    type Item = Note<'a>;

    ghost next_gives = { YieldsFirstBy note_value (λ (it : List NoteValue). it) };

    ghost remaining = { item_count (λ (it : List NoteValue). it) };

    fn next(&mut self) -> Option<Note<'a>> {
        if self.at >= self.table.len() {
            return None;
        }
        let note = note_at(self.order, self.table, self.at);
        let header = NoteHeader {
            order: self.order,
            table: self.table,
            at: self.at,
        };
        self.at = header.note_end();
        Some(note)
    }
}
