//! The lines of `show`: each function appends one to the text that will be written. The numbers of a line are put together from the last
//! one on, and appended in one piece.
ghost use Rattle.std.specs.Prelude.{◌≡◌, ◌≤◌, ◌+◌, ◌++◌, OnOk, drop, length, take};
ghost use Rattle.elf_tool_check.specs.FileLines.{further_words};
ghost use Rattle.elf_tool_show.specs.Show.{file_line, order_text, owner_words, part_line, section_line, segment_line};

use elf_field::{Ehdr, Order, Phdr, Shdr};
use elf_image_outline::{Owner, Part};
use elf_image_rules::tables::order_in;
use elf_tool_text::line::{
    begin_line, end_line, push_decimal, push_hexadecimal, push_name, push_word,
};
use elf_tool_text::line_end::{LINE_ROOM, LineEnd};
use std::alloc::{AllocError, Global};

/// How many bytes of a gap are shown.
const GAP_BYTES: usize = 16;

/// The most bytes that say what a part is: ` gap ` and two digits for each byte that is shown.
const OWNER_ROOM: usize = 5 + 2 * GAP_BYTES;

/// `file little|big TYPE MACHINE ENTRY FLAGS`.
pub(crate) fn push_file_line(text: &mut Vec<u8>, header: &Ehdr) -> Result<(), AllocError>
    ensures { OnOk result (text.new.items ≡ text.old.items ++ file_line header.now) }
{
    begin_line(text, b"file")?;
    push_word(text, order_name(order_in(&header.e_ident)).as_bytes())?;
    push_decimal(text, header.e_type as u64)?;
    push_decimal(text, header.e_machine as u64)?;
    push_hexadecimal(text, header.e_entry)?;
    push_hexadecimal(text, header.e_flags as u64)?;
    end_line(text)
}

fn order_name(order: Order) -> &'static str
    ensures { result.now ≡ order_text order }
{
    match order {
        Order::Little => "little",
        Order::Big => "big",
    }
}

/// `part START LENGTH` and what the part is, of a file of these bytes.
pub(crate) fn push_part_line(text: &mut Vec<u8>, bytes: &[u8], part: Part) -> Result<(), AllocError>
    ensures { OnOk result (text.new.items ≡ text.old.items ++ part_line bytes.now part) }
{
    let mut line = LineEnd::new();
    line.put(b"\n");
    put_owner(&mut line, bytes, part);
    line.put_hexadecimal(part.len);
    line.put_hexadecimal(part.start);
    line.put(b"part");
    text.extend_from_slice(line.as_bytes())
}

// Puts what a part is; of a gap its first bytes.
fn put_owner(line: &mut LineEnd, bytes: &[u8], part: Part)
    requires room { length line.old + OWNER_ROOM ≤ LINE_ROOM }
    ensures bytes { line.new
        ≡ further_words (owner_words (take part.len (drop part.start bytes.now)) part.owner) ++ line.old }
    ensures room { length line.new ≤ length line.old + OWNER_ROOM }
{
    match part.owner {
        Owner::Header => line.put(b" header"),
        Owner::ProgramTable => line.put(b" segments"),
        Owner::SectionTable => line.put(b" sections"),
        Owner::Content(index) => {
            line.put_decimal(index as u64);
            line.put(b" content");
        }
        Owner::Gap => {
            line.put_bytes(gap_front(bytes, part));
            line.put(b" gap ");
        }
    }
}

// The bytes of a gap that are shown.
fn gap_front<'a>(bytes: &'a [u8], part: Part) -> &'a [u8]
    ensures { result.now ≡ take GAP_BYTES (take part.len (drop part.start bytes.entry.now)) }
{
    let gap = first(rest_from(bytes, part.start as usize), part.len as usize);
    first(gap, GAP_BYTES)
}

fn rest_from(bytes: &[u8], start: usize) -> &[u8]
    ensures { result.now ≡ drop start bytes.entry.now }
{
    &bytes[start.min(bytes.len())..]
}

fn first(bytes: &[u8], count: usize) -> &[u8]
    ensures { result.now ≡ take count bytes.entry.now }
{
    &bytes[..count.min(bytes.len())]
}

/// `section I TYPE FLAGS ADDRESS OFFSET SIZE LINK INFO ALIGNMENT ENTSIZE NAME`.
pub(crate) fn push_section_line(
    alloc: Global,
    text: &mut Vec<u8>,
    index: usize,
    section: &Shdr,
    name: &[u8],
) -> Result<(), AllocError>
    ensures { OnOk result (text.new.items ≡ text.old.items ++ section_line index section.now name.now) }
{
    let mut line = LineEnd::new();
    line.put_hexadecimal(section.sh_entsize);
    line.put_hexadecimal(section.sh_addralign);
    line.put_decimal(section.sh_info as u64);
    line.put_decimal(section.sh_link as u64);
    line.put_hexadecimal(section.sh_size);
    line.put_hexadecimal(section.sh_offset);
    line.put_hexadecimal(section.sh_addr);
    line.put_hexadecimal(section.sh_flags);
    line.put_decimal(section.sh_type as u64);
    line.put_decimal(index as u64);
    line.put(b"section");
    text.extend_from_slice(line.as_bytes())?;
    push_name(alloc, text, name)?;
    end_line(text)
}

/// `segment J TYPE FLAGS OFFSET VADDR PADDR FILESZ MEMSZ ALIGNMENT`.
pub(crate) fn push_segment_line(
    text: &mut Vec<u8>,
    index: usize,
    segment: &Phdr,
) -> Result<(), AllocError>
    ensures { OnOk result (text.new.items ≡ text.old.items ++ segment_line index segment.now) }
{
    let mut line = LineEnd::new();
    line.put(b"\n");
    line.put_hexadecimal(segment.p_align);
    line.put_hexadecimal(segment.p_memsz);
    line.put_hexadecimal(segment.p_filesz);
    line.put_hexadecimal(segment.p_paddr);
    line.put_hexadecimal(segment.p_vaddr);
    line.put_hexadecimal(segment.p_offset);
    line.put_hexadecimal(segment.p_flags as u64);
    line.put_decimal(segment.p_type as u64);
    line.put_decimal(index as u64);
    line.put(b"segment");
    text.extend_from_slice(line.as_bytes())
}
