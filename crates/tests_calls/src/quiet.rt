//! The calls that take no memory, each made so many times: `tools/test failing-calls` counts the allocations, which have to be as many as
//! where none of them is made.
ghost use Rattle.std.specs.Prelude.{◌<◌, length};

use crate::links::{mapped, object_in};
use elf_extent::{Counted, Extent, next_place, sweep};
use elf_field::{Order, Record, Shdr};
use elf_image_outline::{Outline, copy_image, scan};
use elf_image_rules::rules::SHARED_BYTE;
use elf_image_rules::verdict;
use elf_image_stream::{Bytes, Opened, Seeking, Source};
use elf_image_type::{Image, parse, write};
use elf_link_map::LinkMap;
use elf_link_relocate::{Linked, relocate};
use elf_object_layout::{Layout, lay_out};
use elf_object_type::Object;
use elf_table_hash::{Hash, elf_hash};
use elf_table_lists::{Dynamic, Group, Notes, Relocs};
use elf_table_symbols::{Strings, Symbols};
use std::alloc::Global;
use std::io::{Cursor, sink};

/// The calls on these files, which link by no rule where they have no relocations.
pub fn calls(alloc: Global, files: &[Vec<u8>], times: u32) {
    let mut objects = Vec::new(alloc);
    for file in files {
        on_file(alloc, file.as_slice(), times);
        let Ok(object) = object_in(alloc, file.as_slice()) else {
            return;
        };
        on_object(alloc, &object, times);
        let Ok(()) = objects.push(object) else {
            return;
        };
    }
    on_objects(alloc, objects.as_slice(), times);
}

/// The calls on the bytes of one file.
fn on_file(alloc: Global, bytes: &[u8], times: u32) {
    for _ in 0..times {
        on_bytes(bytes);
        on_refused(alloc, bytes);
    }
    if let Ok(image) = parse(alloc, bytes) {
        on_parsed(alloc, image, times);
    }
    if let Ok(outline) = scan(alloc, &mut Bytes(bytes)) {
        on_scanned(outline, bytes, times);
    }
}

/// Rules 1 to 32 are tested before memory is asked for, so that want of memory never hides a broken one.
fn on_refused(alloc: Global, bytes: &[u8]) {
    if let Some((rule, _)) = verdict(bytes) {
        if rule < SHARED_BYTE {
            let _ = parse(alloc, bytes);
        }
    }
}

fn on_parsed(alloc: Global, image: Image<'_>, times: u32) {
    let mut image = image;
    for _ in 0..times {
        on_image(&image);
        edited(&mut image);
    }
    on_hashes(alloc, &image, times);
}

fn on_scanned(outline: Outline, bytes: &[u8], times: u32) {
    let mut outline = outline;
    for _ in 0..times {
        on_outline(&outline, bytes);
        outline.set_entry(1);
        let _ = outline.set_flags(1, 2);
        outline.zero_gaps();
    }
}

/// The calls on its layout.
fn on_object(alloc: Global, object: &Object<'_>, times: u32) {
    if let Ok(layout) = lay_out(alloc, object) {
        for _ in 0..times {
            on_layout(&layout);
        }
    }
}

/// Records, places, sweeps and verdicts.
fn on_bytes(bytes: &[u8]) {
    let _ = verdict(bytes);
    let _ = next_place(5, 8);
    let extents = [Extent { start: 0, len: 3 }, Extent { start: 2, len: 9 }];
    let mut row = Counted::new(&extents);
    let _ = sweep(&mut row);
    let _ = row.looks();
    let _ = elf_hash(b"main");
    let record = [0; 64];
    let header = Shdr::get(Order::Big, &record);
    let mut copy = [0; 64];
    header.put(Order::Little, &mut copy);
    header.fits();
    let mut buf = [0; 8];
    let mut source = Bytes(bytes);
    let _ = source.length();
    let _ = source.read_at(0, &mut buf);
}

/// What an image reports, and writes.
fn on_image(image: &Image<'_>) {
    let _ = (image.len(), image.order(), image.header());
    let _ = (image.name_table(), image.parts().len(), image.load(0x1000));
    for i in 0..image.section_count() {
        let _ = image.section(i);
        let _ = (image.name(i).len(), image.content(i).len());
        on_tables(image, i);
    }
    for j in 0..image.segment_count() {
        let _ = image.segment(j);
    }
    let _ = write(image, &mut sink());
}

/// The edits of an image.
fn edited(image: &mut Image<'_>) {
    image.set_entry(1);
    let _ = image.set_flags(1, 2);
    let _ = image.replace(1, b"x");
    image.zero_gaps();
}

/// The tables of a section that take no memory.
fn on_tables(image: &Image<'_>, i: usize)
    requires { i < length image.now.sections }
{
    if let Ok(strings) = Strings::new(image, i) {
        let _ = strings.get(1);
    }
    if let Ok(symbols) = Symbols::new(image, i) {
        on_symbols(&symbols);
    }
    on_entries(image, i);
}

fn on_symbols(symbols: &Symbols<'_>) {
    for symbol in symbols {
        let _ = symbol.name;
    }
    for j in 0..symbols.len() {
        let _ = symbols.entry(j);
    }
}

/// The tables whose entries are read one by one.
fn on_entries(image: &Image<'_>, i: usize)
    requires { i < length image.now.sections }
{
    if let Ok(relocs) = Relocs::new(image, i) {
        for relocation in &relocs {
            let _ = relocation;
        }
    }
    if let Ok(notes) = Notes::new(image, i) {
        for note in &notes {
            let _ = note;
        }
    }
    if let Ok(dynamic) = Dynamic::new(image, i) {
        for entry in &dynamic {
            let _ = entry;
        }
    }
}

/// Groups and hash tables, of which each takes memory when it is made.
fn on_hashes(alloc: Global, image: &Image<'_>, times: u32) {
    for i in 0..image.section_count() {
        if let Ok(hash) = Hash::new(alloc, image, i) {
            for _ in 0..times {
                on_hash(&hash);
            }
        }
        if let Ok(group) = Group::new(alloc, image, i) {
            for _ in 0..times {
                on_group(&group);
            }
        }
    }
}

fn on_hash(hash: &Hash<'_>) {
    let _ = (hash.find(b"main"), hash.probe(b"none"));
    for word in hash {
        let _ = word;
    }
}

fn on_group(group: &Group<'_>) {
    let _ = (group.flags(), group.signature(), group.len());
    for member in group {
        let _ = member;
    }
}

/// What an outline reports, and the copy of its file.
fn on_outline(outline: &Outline, bytes: &[u8]) {
    let _ = (outline.len(), outline.order(), outline.header());
    let _ = (outline.sections().len(), outline.segments().len());
    let _ = (outline.parts().len(), outline.name_table());
    let mut source = Seeking::new(Opened(Cursor::new(bytes)));
    let _ = copy_image(outline, &mut source, &mut sink());
}

/// What a layout reports.
fn on_layout(layout: &Layout) {
    let _ = (layout.table(), layout.length());
    for i in 0..layout.section_count() {
        let _ = layout.offset(i);
    }
}

/// The link of objects, and what it reports.
fn on_objects(alloc: Global, objects: &[Object<'_>], times: u32) {
    let Ok(link) = mapped(alloc, objects) else {
        return;
    };
    on_link(&link, times);
    if let Ok(linked) = relocate(alloc, &link, objects, &[]) {
        on_linked(&linked, times);
    }
}

fn on_link(link: &LinkMap<'_>, times: u32) {
    for _ in 0..times {
        let _ = (link.address(0, 0), link.discarded(0, 0));
        let _ = (link.binding(b"main"), link.names().len());
        let _ = (link.outputs().len(), link.commons().len());
        let _ = (link.base(), link.page(), link.entry());
    }
}

fn on_linked(linked: &Linked<'_, '_>, times: u32) {
    for _ in 0..times {
        let _ = linked.bytes(0, 0).is_some();
        let _ = linked.objects().len();
        let _ = (linked.rules().len(), linked.identity());
    }
}
