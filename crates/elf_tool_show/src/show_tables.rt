//! The lines of `show` on the tables that a file holds.
ghost use Rattle.std.specs.Prelude.{◌≡◌, ◌∷◌, ◌≤◌, ◌+◌, ◌++◌, OnOk, length, map, ◌<◌};
ghost use Rattle.std.specs.Fmt.{decimal};
ghost use Rattle.elf_tool_check.specs.FileLines.{blank, further_words};
ghost use Rattle.elf_tool_text.specs.Line.{bytes_text};
ghost use Rattle.elf_tool_show.specs.Show.{addend_text, dynamic_line, group_line, hash_line, note_line, place_text, relocation_line};
ghost use Rattle.elf_tool_show.specs.Show.{string_words, symbol_line, table_refused_line, all_table_lines, note_lines, table_text};
ghost use Rattle.elf_table_symbols.specs.SymbolView.{symbol_entry_value};
ghost use Rattle.elf_table_lists.specs.Notes.{note_value};
ghost use Rattle.elf_tool_text.specs.Buffered.{IsBuffered};
ghost use Rattle.elf_table_symbols.specs.Sections.{sections_of};
ghost use Rattle.elf_table_all.specs.Tables.{HasSoundTable, signature_name};
ghost use Rattle.elf_table_lists.specs.Groups.{group_of};
ghost use Rattle.elf_table_symbols.specs.declared.table_section.TableKind.TheVariants as kind;

use elf_field::Dyn;
use elf_image_rules::Broken;
use elf_image_type::Image;
use elf_image_type::strings::string_at;
use elf_table_all::{
    Dynamic, Group, Hash, Note, Notes, Place, Relocation, Relocs, Symbol, Symbols, TableKind,
    Tables, is_string_tag,
};
use elf_tool_check::ToolFault;
use elf_tool_text::Output;
use elf_tool_text::line::{
    begin_line, end_line, push_bytes, push_decimal, push_hexadecimal, push_name, push_signed,
    push_word,
};
use elf_tool_text::line_end::{DECIMAL_ROOM, LINE_ROOM, LineEnd, SIGNED_ROOM};
use elf_tool_text::lines::{Lines, show_lines};
use std::alloc::{AllocError, Global};
use std::io::Write;

// The lines of tables: each function appends one to the text that will be written. A file may have millions of symbols or relocations, so
// the numbers of their lines are put together from the last one on, and appended in one piece.

/// `symbol I S BINDING TYPE OTHER PLACE VALUE SIZE NAME`, of symbol `j` of the table in section `i`.
pub(crate) fn push_symbol_line(
    alloc: Global,
    text: &mut Vec<u8>,
    i: usize,
    j: usize,
    symbol: &Symbol<'_>,
) -> Result<(), AllocError>
    ensures { OnOk result (text.new.items ≡ text.old.items ++ symbol_line i j (symbol_entry_value symbol.now)) }
{
    let mut line = LineEnd::new();
    line.put_hexadecimal(symbol.size);
    line.put_hexadecimal(symbol.value);
    put_place(&mut line, symbol.place);
    line.put_decimal(symbol.other as u64);
    line.put_decimal(symbol.symbol_type as u64);
    line.put_decimal(symbol.binding as u64);
    line.put_decimal(j as u64);
    line.put_decimal(i as u64);
    line.put(b"symbol");
    text.extend_from_slice(line.as_bytes())?;
    push_name(alloc, text, symbol.name)?;
    end_line(text)
}

// Puts where a symbol is defined.
fn put_place(line: &mut LineEnd, place: Place)
    requires room { length line.old + DECIMAL_ROOM ≤ LINE_ROOM }
    ensures bytes { line.new ≡ blank ∷ place_text place ++ line.old }
    ensures room { length line.new ≤ length line.old + DECIMAL_ROOM }
{
    match place {
        Place::Undefined => line.put(b" undef"),
        Place::Absolute => line.put(b" abs"),
        Place::Common => line.put(b" common"),
        Place::Reserved(_) => line.put(b" reserved"),
        Place::Section(index) => line.put_decimal(index as u64),
    }
}

/// `reloc I R OFFSET SYMBOL TYPE ADDEND`, of relocation `j` of section `i`.
pub(crate) fn push_relocation_line(
    text: &mut Vec<u8>,
    i: usize,
    j: usize,
    relocation: Relocation,
) -> Result<(), AllocError>
    ensures { OnOk result (text.new.items ≡ text.old.items ++ relocation_line i j relocation) }
{
    let mut line = LineEnd::new();
    line.put(b"\n");
    put_addend(&mut line, relocation.addend);
    line.put_decimal(relocation.relocation_type as u64);
    line.put_decimal(relocation.symbol as u64);
    line.put_hexadecimal(relocation.offset);
    line.put_decimal(j as u64);
    line.put_decimal(i as u64);
    line.put(b"reloc");
    text.extend_from_slice(line.as_bytes())
}

// Puts what is added.
fn put_addend(line: &mut LineEnd, addend: Option<i64>)
    requires room { length line.old + SIGNED_ROOM ≤ LINE_ROOM }
    ensures bytes { line.new ≡ blank ∷ addend_text addend ++ line.old }
    ensures room { length line.new ≤ length line.old + SIGNED_ROOM }
{
    match addend {
        Some(addend) => line.put_signed(addend),
        None => line.put(b" -"),
    }
}

/// `group I FLAGS NAME MEMBER..`, of the group in section `i`, by its signature's name.
pub(crate) fn push_group_line(
    alloc: Global,
    text: &mut Vec<u8>,
    i: usize,
    name: &[u8],
    group: &Group<'_>,
) -> Result<(), AllocError>
    ensures { OnOk result (text.new.items ≡ text.old.items ++ group_line i name.now group.now) }
{
    begin_line(text, b"group")?;
    push_decimal(text, i as u64)?;
    push_decimal(text, group.flags() as u64)?;
    push_name(alloc, text, name)?;
    push_members(text, group)?;
    end_line(text)
}

// The members of a group.
fn push_members(text: &mut Vec<u8>, group: &Group<'_>) -> Result<(), AllocError>
    ensures { OnOk result (text.new.items ≡ text.old.items ++ further_words (map decimal group.now.members)) }
{
    for member in group.iter() {
        push_decimal(text, member as u64)?;
    }
    Ok(())
}

/// `note I TYPE NAME DESC`, of a note of section `i`.
pub(crate) fn push_note_line(
    alloc: Global,
    text: &mut Vec<u8>,
    i: usize,
    note: &Note<'_>,
) -> Result<(), AllocError>
    ensures { OnOk result (text.new.items ≡ text.old.items ++ note_line i (note_value note.now)) }
{
    begin_line(text, b"note")?;
    push_decimal(text, i as u64)?;
    push_decimal(text, note.note_type as u64)?;
    push_name(alloc, text, note.name)?;
    push_descriptor(alloc, text, note.desc)?;
    end_line(text)
}

// The bytes of a descriptor.
fn push_descriptor(alloc: Global, text: &mut Vec<u8>, desc: &[u8]) -> Result<(), AllocError>
    ensures { OnOk result (text.new.items ≡ text.old.items ++ blank ∷ bytes_text desc.now) }
{
    if desc.is_empty() {
        return push_word(text, b"-");
    }
    push_bytes(alloc, text, desc)
}

/// `dynamic I TAG VALUE`, and the string of an entry that has one in this string table, of an entry of the dynamic section `i`.
pub(crate) fn push_dynamic_line(
    alloc: Global,
    text: &mut Vec<u8>,
    i: usize,
    strings: &[u8],
    entry: Dyn,
) -> Result<(), AllocError>
    ensures { OnOk result (text.new.items ≡ text.old.items ++ dynamic_line i strings.now entry) }
{
    begin_line(text, b"dynamic")?;
    push_decimal(text, i as u64)?;
    push_signed(text, entry.d_tag)?;
    push_hexadecimal(text, entry.d_un)?;
    push_string(alloc, text, strings, entry)?;
    end_line(text)
}

// The string of an entry that has one.
fn push_string(
    alloc: Global,
    text: &mut Vec<u8>,
    strings: &[u8],
    entry: Dyn,
) -> Result<(), AllocError>
    ensures { OnOk result (text.new.items ≡ text.old.items ++ further_words (string_words strings.now entry)) }
{
    if is_string_tag(entry.d_tag) {
        return push_name(alloc, text, string_at(strings, entry.d_un as usize));
    }
    Ok(())
}

/// `hash I NBUCKET NCHAIN`, of the hash table in section `i`.
pub(crate) fn push_hash_line(
    text: &mut Vec<u8>,
    i: usize,
    hash: &Hash<'_>,
) -> Result<(), AllocError>
    ensures { OnOk result (text.new.items ≡ text.old.items ++ hash_line i hash.now.words) }
{
    begin_line(text, b"hash")?;
    push_decimal(text, i as u64)?;
    push_decimal(text, hash.nbucket() as u64)?;
    push_decimal(text, hash.nchain() as u64)?;
    end_line(text)
}

/// `refused I RULE AT`, of the table in section `i`.
pub(crate) fn push_table_refused_line(
    text: &mut Vec<u8>,
    i: usize,
    broken: Broken<u64>,
) -> Result<(), AllocError>
    ensures { OnOk result (text.new.items ≡ text.old.items ++ table_refused_line i broken.rule broken.at) }
{
    begin_line(text, b"refused")?;
    push_decimal(text, i as u64)?;
    push_decimal(text, broken.rule as u64)?;
    push_decimal(text, broken.at)?;
    end_line(text)
}

/// The lines of all tables of the image.
pub(crate) fn show_tables<W: Write>(
    alloc: Global,
    image: &Image<'_>,
    tables: &Tables<'_, '_>,
    output: &mut Output,
    writer: &mut W,
) -> Result<(), ToolFault>
    requires { tables.now.image ≡ image.now }
    ensures { IsBuffered (W.contents writer.old) (W.contents writer.new) output.old output.new
        (all_table_lines tables.now) result }
{
    for i in 0..image.section_count() {
        show_table(alloc, image, tables, i, output, writer)?;
    }
    Ok(())
}

// The lines of the table in section `i`.
#[tactic(auto, unfolding(crate::specs::Show::symbol_lines, crate::specs::Show::relocation_lines, crate::specs::Show::dynamic_lines))]
fn show_table<W: Write>(
    alloc: Global,
    image: &Image<'_>,
    tables: &Tables<'_, '_>,
    i: usize,
    output: &mut Output,
    writer: &mut W,
) -> Result<(), ToolFault>
    requires image { tables.now.image ≡ image.now }
    requires there { i < length image.now.sections }
    ensures { IsBuffered (W.contents writer.old) (W.contents writer.new) output.old output.new
        (table_text tables.now i) result }
{
    if let Err(broken) = tables.verdict(i) {
        return show_refused(i, broken, output, writer);
    }
    match TableKind::of(image.section(i).sh_type) {
        Some(TableKind::SymbolTable) => {
            let lines = SymbolLines {
                section: i,
                symbols: &tables.symbols(i),
            };
            show_lines(alloc, &lines, output, writer)
        }
        Some(TableKind::RelocationTable) => {
            let lines = RelocationLines {
                section: i,
                relocs: &tables.relocs(i),
            };
            show_lines(alloc, &lines, output, writer)
        }
        Some(TableKind::SectionGroup) => show_group(alloc, tables, i, output, writer),
        Some(TableKind::NoteSection) => show_notes(alloc, i, &tables.notes(i), output, writer),
        Some(TableKind::DynamicArray) => {
            let lines = DynamicLines {
                section: i,
                strings: tables.dynamic_strings(i),
                dynamic: &tables.dynamic(i),
            };
            show_lines(alloc, &lines, output, writer)
        }
        Some(TableKind::HashTable) => show_hash(i, &tables.hash(i), output, writer),
        None => Ok(()),
    }
}

// The line of the hash table in section `i`.
fn show_hash<W: Write>(
    i: usize,
    hash: &Hash<'_>,
    output: &mut Output,
    writer: &mut W,
) -> Result<(), ToolFault>
    ensures { IsBuffered (W.contents writer.old) (W.contents writer.new) output.old output.new
        (hash_line i hash.now.words) result }
{
    push_hash_line(&mut output.pending, i, hash)?;
    output.flush_piece(writer)
}

// The line of the group in section `i`.
fn show_group<W: Write>(
    alloc: Global,
    tables: &Tables<'_, '_>,
    i: usize,
    output: &mut Output,
    writer: &mut W,
) -> Result<(), ToolFault>
    requires { HasSoundTable tables.now i kind.SectionGroup }
    ensures { let f = sections_of tables.now.image in
        IsBuffered (W.contents writer.old) (W.contents writer.new) output.old output.new
        (group_line i (signature_name f i) (group_of f i)) result }
{
    let name = tables.signature_name(i);
    push_group_line(alloc, &mut output.pending, i, name, &tables.group(i))?;
    output.flush_piece(writer)
}

// The line of the table in section `i`, which is refused.
fn show_refused<W: Write>(
    i: usize,
    broken: Broken<u64>,
    output: &mut Output,
    writer: &mut W,
) -> Result<(), ToolFault>
    ensures { IsBuffered (W.contents writer.old) (W.contents writer.new) output.old output.new
        (table_refused_line i broken.rule broken.at) result }
{
    push_table_refused_line(&mut output.pending, i, broken)?;
    output.flush_piece(writer)
}

// The lines of the note section `i`.
fn show_notes<W: Write>(
    alloc: Global,
    i: usize,
    notes: &Notes<'_>,
    output: &mut Output,
    writer: &mut W,
) -> Result<(), ToolFault>
    ensures { IsBuffered (W.contents writer.old) (W.contents writer.new) output.old output.new
        (note_lines i notes.now) result }
{
    for note in notes.iter() {
        push_note_line(alloc, &mut output.pending, i, &note)?;
        output.flush_piece(writer)?;
    }
    Ok(())
}

// The lines of the symbol table in a section.
#[derive(Drop)]
struct SymbolLines<'s, 'a> {
    section: usize,
    symbols: &'s Symbols<'a>,
}

impl<'s, 'a> Lines for SymbolLines<'s, 'a> {
    ghost use Rattle.std.specs.Prelude.{length};
    ghost use Rattle.elf_tool_show.specs.Show.{symbol_text};

    ghost count = { λ lines. length lines.symbols.now };

    ghost line = { λ lines. symbol_text lines.section lines.symbols.now };

    fn count(&self) -> usize {
        self.symbols.len()
    }

    fn push(&self, alloc: Global, text: &mut Vec<u8>, j: usize) -> Result<(), AllocError> {
        push_symbol_line(alloc, text, self.section, j, &self.symbols.entry(j))
    }
}

// The lines of a relocation section.
#[derive(Drop)]
struct RelocationLines<'s, 'a> {
    section: usize,
    relocs: &'s Relocs<'a>,
}

impl<'s, 'a> Lines for RelocationLines<'s, 'a> {
    ghost use Rattle.std.specs.Prelude.{length};
    ghost use Rattle.elf_tool_show.specs.Show.{relocation_text};

    ghost count = { λ lines. length lines.relocs.now };

    ghost line = { λ lines. relocation_text lines.section lines.relocs.now };

    fn count(&self) -> usize {
        self.relocs.len()
    }

    fn push(&self, _alloc: Global, text: &mut Vec<u8>, j: usize) -> Result<(), AllocError> {
        push_relocation_line(text, self.section, j, self.relocs.entry(j))
    }
}

// The lines of a dynamic section.
#[derive(Drop)]
struct DynamicLines<'s, 'a> {
    section: usize,
    strings: &'a [u8],
    dynamic: &'s Dynamic<'a>,
}

impl<'s, 'a> Lines for DynamicLines<'s, 'a> {
    ghost use Rattle.std.specs.Prelude.{length};
    ghost use Rattle.elf_tool_show.specs.Show.{dynamic_text};

    ghost count = { λ lines. length lines.dynamic.now };

    ghost line = { λ lines. dynamic_text lines.section lines.strings.now lines.dynamic.now };

    fn count(&self) -> usize {
        self.dynamic.len()
    }

    fn push(&self, alloc: Global, text: &mut Vec<u8>, j: usize) -> Result<(), AllocError> {
        push_dynamic_line(
            alloc,
            text,
            self.section,
            self.strings,
            self.dynamic.entry(j),
        )
    }
}
