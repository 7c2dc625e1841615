//! The notes of note sections (gABI chapter 5, Note Section).
ghost use Rattle.std.specs.Prelude.{◌≡◌, ℕ, ◌+◌, ◌<◌, ◌≤◌, ◌↔◌, IfNone, IfSome, IsSome, IsTrue, SomeIff, get_or, length};
ghost use Rattle.std.specs.Bool.{OnFalse, OnTrue};
ghost use Rattle.elf_table_symbols.specs.Sections.{content, order, sections_in};
ghost use Rattle.elf_table_symbols.specs.declared.table_section.TableKind.TheVariants.{NoteSection};
ghost use Rattle.elf_table_lists.specs.Notes.{note_at as note_of_content, note_end as note_end_of, note_offset, notes_of};
ghost use Rattle.elf_c.specs.Tables.{HasNote, HasNoteAt, LiesInFile, no_note_value, reported_note, NoteStandsAt, IsTableOfKind, IsTableOf};
ghost use Rattle.elf_c.specs.Tables.{slot_bytes};
ghost use Rattle.elf_c.specs.Files.{order_named};

use crate::places::{bytes_of, order_of};
use crate::shapes::{Note, Table, put};
use crate::tables::is_of_kind;
use elf_c_parts::Slot;
use elf_field::abi::{N_TYPE_AT, NHDR_SIZE};
use elf_field::{Order, get_at};
use elf_table_lists::NoteHeader;
use elf_table_symbols::TableKind;

/// Note `index` of a note section; false if there is none of this index, or it or one before it is cut, and for a table of another kind.
/// It goes over the notes before it.
#[unsafe(no_mangle)]
pub extern "C" fn elfmap_note(table: &Table, bytes: &[u8], index: u64, note: &mut Note) -> bool
    ensures there { (i : ℕ) → IsTableOf NoteSection table.now bytes.now i →
        IsTrue result ↔ (index < length (notes_of (sections_in bytes.now) i)) }
    ensures value { (i : ℕ) → IsTableOf NoteSection table.now bytes.now i →
        OnTrue result (reported_note bytes.now note.new ≡ get_or (notes_of (sections_in bytes.now) i) index no_note_value) }
    ensures next { (i : ℕ) → IsTableOf NoteSection table.now bytes.now i → let f = sections_in bytes.now in
        OnTrue result (note.new.next ≡ note_offset (order f) (content f i) 0 (index + 1)) }
    ensures stands { let t = table.now in let o = order_named t.ei_data in let notes = slot_bytes bytes.now t.content in
        OnTrue result (NoteStandsAt note.new o notes t.content.start (note_offset o notes 0 index)) }
    ensures lies { IsTrue result ↔ HasNote table.now bytes.now index }
    ensures typed { OnTrue result (IsTableOfKind NoteSection table.now) }
    ensures inside { OnTrue result (LiesInFile note.new (length bytes.now)) }
    ensures unchanged { OnFalse result (note.new ≡ note.old) }
{
    put(note_of_index(table, bytes, index), note)
}

/// The note at an offset of a note section; false if none begins there that is whole, and for a table of another kind.
#[unsafe(no_mangle)]
pub extern "C" fn elfmap_note_at(table: &Table, bytes: &[u8], offset: u64, note: &mut Note) -> bool
    ensures there { IsTrue result ↔ HasNoteAt table.now bytes.now offset }
    ensures value { let t = table.now in let content = slot_bytes bytes.now t.content in
        OnTrue result (reported_note bytes.now note.new ≡ note_of_content (order_named t.ei_data) content offset) }
    ensures next { let t = table.now in let content = slot_bytes bytes.now t.content in
        OnTrue result (note.new.next ≡ note_end_of (order_named t.ei_data) content offset) }
    ensures stands { let t = table.now in
        OnTrue result (NoteStandsAt note.new (order_named t.ei_data) (slot_bytes bytes.now t.content) t.content.start offset) }
    ensures inside { OnTrue result (LiesInFile note.new (length bytes.now)) }
    ensures unchanged { OnFalse result (note.new ≡ note.old) }
{
    put(note_of(table, bytes, offset), note)
}

/// Note `index` of a note section.
fn note_of_index(table: &Table, bytes: &[u8], index: u64) -> Option<Note>
    ensures there { (i : ℕ) → IsTableOf NoteSection table.now bytes.now i →
        IsSome result ↔ (index < length (notes_of (sections_in bytes.now) i)) }
    ensures value { (i : ℕ) → IsTableOf NoteSection table.now bytes.now i →
        IfSome result (λ n. reported_note bytes.now n ≡ get_or (notes_of (sections_in bytes.now) i) index no_note_value) }
    ensures next { (i : ℕ) → IsTableOf NoteSection table.now bytes.now i → let f = sections_in bytes.now in
        IfSome result (λ n. n.next ≡ note_offset (order f) (content f i) 0 (index + 1)) }
    ensures stands { let t = table.now in let o = order_named t.ei_data in let notes = slot_bytes bytes.now t.content in
        IfSome result (λ n. NoteStandsAt n o notes t.content.start (note_offset o notes 0 index)) }
    ensures lies { IsSome result ↔ HasNote table.now bytes.now index }
    ensures typed { IfSome result (λ n. IsTableOfKind NoteSection table.now) }
    ensures inside { IfSome result (λ n. LiesInFile n (length bytes.now)) }
{
    let content = bytes_of(bytes, table.content);
    let offset = offset_of_note(order_of(table.ei_data), content, index)?;
    note_of(table, bytes, offset as u64)
}

/// The note at an offset of a note section; None if it is no note section, or the note is cut.
fn note_of(table: &Table, bytes: &[u8], offset: u64) -> Option<Note>
    ensures there { IsSome result ↔ HasNoteAt table.now bytes.now offset }
    ensures value { let t = table.now in let content = slot_bytes bytes.now t.content in
        IfSome result (λ n. reported_note bytes.now n ≡ note_of_content (order_named t.ei_data) content offset) }
    ensures next { let t = table.now in let content = slot_bytes bytes.now t.content in
        IfSome result (λ n. n.next ≡ note_end_of (order_named t.ei_data) content offset) }
    ensures stands { let t = table.now in
        IfSome result (λ n. NoteStandsAt n (order_named t.ei_data) (slot_bytes bytes.now t.content) t.content.start offset) }
    ensures inside { IfSome result (λ n. LiesInFile n (length bytes.now)) }
{
    if !is_of_kind(table, TableKind::NoteSection) {
        return None;
    }
    let order = order_of(table.ei_data);
    let content = bytes_of(bytes, table.content);
    let next = end_of_note(order, content, offset)?;
    let at = table.content.start + offset;
    Some(note_in(order, bytes, at as usize, next))
}

/// Where the note at an offset of a content ends; None if it is cut, and at the end.
pub fn end_of_note(order: Order, content: &[u8], offset: u64) -> Option<usize>
    ensures { SomeIff result (note_end_of order content.now offset ≤ length content.now) (note_end_of order content.now offset) }
{
    let len = content.len() as u64;
    if offset >= len || len - offset < NHDR_SIZE {
        return None;
    }
    let header = NoteHeader {
        order,
        table: content,
        at: offset as usize,
    };
    let end = header.note_end();
    if end <= content.len() {
        Some(end)
    } else {
        None
    }
}

/// The note that begins at an offset of the file, where it is whole, after which the next one begins at `next` of the section.
#[tactic(auto, unfolding(elf_table_lists::specs::Notes::note_at, elf_table_lists::specs::Notes::note_end, elf_table_lists::specs::Notes::desc_start))]
fn note_in(order: Order, bytes: &[u8], at: usize, next: usize) -> Note
    requires { note_end_of order bytes.now at ≤ length bytes.now }
    ensures value { reported_note bytes.now result ≡ note_of_content order bytes.now at }
    ensures next { result.next ≡ next }
    ensures stands { NoteStandsAt result order bytes.now 0 at }
    ensures inside { LiesInFile result (length bytes.now) }
{
    let header = NoteHeader {
        order,
        table: bytes,
        at,
    };
    Note {
        name: Slot {
            start: at as u64 + NHDR_SIZE,
            len: header.namesz().saturating_sub(1) as u64,
        },
        desc: Slot {
            start: header.desc_start() as u64,
            len: header.descsz() as u64,
        },
        next: next as u64,
        n_type: get_at(order, bytes, at + N_TYPE_AT as usize),
    }
}

/// Where note `index` of a content begins; None if a note before it is cut.
fn offset_of_note(order: Order, content: &[u8], index: u64) -> Option<usize>
    ensures found { IfSome result (λ at. at ≡ note_offset order content.now 0 index) }
    ensures cut { IfNone result ((k : ℕ) × (k < index) ×
        (length content.now < note_end_of order content.now (note_offset order content.now 0 k))) }
{
    let mut at = 0;
    for _k in 0..index {
        at = end_of_note(order, content, at as u64)?;
    }
    Some(at)
}
