//! A note section, of a file of one note.
use crate::asserts::assert_same;
use elf_field::Order;
use elf_image::{Fault, Image, parse};
use elf_table::{Note, Notes};
use std::alloc::Global;
use tests_files::{Field, set_header};

/// A note section of one note, whose 20 bytes are at 64, and the section headers at 88.
const NOTE: [Field; 12] = [
    (40, 8, 88),
    (58, 2, 64),
    (60, 2, 2),
    (64, 4, 4),
    (68, 4, 3),
    (72, 4, 1),
    (76, 4, 0x554e47),
    (80, 4, 0xccbbaa),
    (156, 4, 7),
    (176, 8, 64),
    (184, 8, 20),
    (200, 8, 4),
];

fn note() -> [u8; 216] {
    let mut file = [0; 216];
    set_header(&mut file, Order::Little, &NOTE);
    file
}

/// The first two notes of the image's section 1.
fn notes_of<'a>(image: &Image<'a>) -> Result<(Option<Note<'a>>, Option<Note<'a>>), Fault> {
    if image.section_count() < 2 {
        return Ok((None, None));
    }
    let mut notes = Notes::new(image, 1)?.iter();
    let first = notes.next();
    Ok((first, notes.next()))
}

/// The first two notes of section 1 of a file. They outlive the image.
fn notes_of_file<'a>(
    alloc: Global,
    file: &'a [u8],
) -> Result<(Option<Note<'a>>, Option<Note<'a>>), Fault> {
    let image = parse(alloc, file)?;
    notes_of(&image)
}

#[test]
fn reports_each_note_and_notes_outlive_the_image(rt: HostRuntime) {
    let file = note();
    let seen = notes_of_file(rt.alloc(), &file);
    let note = Note {
        note_type: 1,
        name: b"GNU",
        desc: b"\xaa\xbb\xcc",
    };
    assert_same(&rt, seen, Ok((Some(note), None)));
}
