//! The text of `map`: the lines of a link map and those of relocated bytes, passed on as they are made.
ghost use Rattle.std.specs.Prelude.{◌≡◌};
ghost use Rattle.std.specs.List.{flat_map};
ghost use Rattle.elf_tool_text.specs.Buffered.{IsPassed};
ghost use Rattle.elf_tool_link.specs.Map.{bytes_lines, common_lines, discarded_lines, map_text, member_bytes, member_text, name_lines};
ghost use Rattle.elf_tool_link.specs.Map.{output_lines, output_text};
ghost use Rattle.elf_link_map.specs.Standing.{size_in};
ghost use Rattle.elf_link_outputs.specs.Placed.{output_value};

use crate::map_lines::{
    pass_bytes_line, pass_common_line, pass_discarded_line, pass_member_line, pass_name_line,
    pass_output_line,
};
use elf_image_stream::WriteFault;
use elf_link_map::{LinkMap, Member, Output, memory_size};
use elf_link_relocate::{Linked, binding_value};
use elf_object_type::Object;
use elf_tool_text::Output as Text;
use elf_tool_text::passed::{PassedLines, pass_lines};
use std::io::Write;

// The lines of a link map.

/// The lines of the link map of these objects: each output section and after it its members, the commons, the discarded sections, and the
/// names.
#[tactic(auto, unfolding(crate::specs::Map::map_text))]
pub(crate) fn pass_map<'l, 'a, W: Write>(
    objects: &'l [Object<'a>],
    link: &'l LinkMap<'a>,
    text: &mut Text,
    writer: &mut W,
) -> Result<(), WriteFault>
    ensures { IsPassed (W.contents writer.old) (W.contents writer.new) text.old text.new (map_text objects.now link.now) result }
{
    pass_outputs(objects, link, text, writer)?;
    pass_commons(link, text, writer)?;
    pass_discarded(objects, link, text, writer)?;
    pass_names(objects, link, text, writer)
}

#[tactic(auto, unfolding(crate::specs::Map::output_lines))]
fn pass_outputs<'l, 'a, W: Write>(
    objects: &'l [Object<'a>],
    link: &'l LinkMap<'a>,
    text: &mut Text,
    writer: &mut W,
) -> Result<(), WriteFault>
    ensures { IsPassed (W.contents writer.old) (W.contents writer.new) text.old text.new (output_lines objects.now link.now) result }
{
    pass_lines(&OutputLines { objects, link }, text, writer)
}

#[tactic(auto, unfolding(crate::specs::Map::common_lines))]
fn pass_commons<W: Write>(
    link: &LinkMap<'_>,
    text: &mut Text,
    writer: &mut W,
) -> Result<(), WriteFault>
    ensures { IsPassed (W.contents writer.old) (W.contents writer.new) text.old text.new (common_lines link.now) result }
{
    pass_lines(&CommonLines { link }, text, writer)
}

#[tactic(auto, unfolding(crate::specs::Map::discarded_lines))]
fn pass_discarded<'l, 'a, W: Write>(
    objects: &'l [Object<'a>],
    link: &'l LinkMap<'a>,
    text: &mut Text,
    writer: &mut W,
) -> Result<(), WriteFault>
    ensures { IsPassed (W.contents writer.old) (W.contents writer.new) text.old text.new (discarded_lines objects.now link.now) result }
{
    pass_lines(&DiscardedLines { objects, link }, text, writer)
}

#[tactic(auto, unfolding(crate::specs::Map::name_lines))]
fn pass_names<'l, 'a, W: Write>(
    objects: &'l [Object<'a>],
    link: &'l LinkMap<'a>,
    text: &mut Text,
    writer: &mut W,
) -> Result<(), WriteFault>
    ensures { IsPassed (W.contents writer.old) (W.contents writer.new) text.old text.new (name_lines objects.now link.now) result }
{
    pass_lines(&NameLines { objects, link }, text, writer)
}

// The outputs, each with its members.
#[derive(Drop)]
struct OutputLines<'l, 'a> {
    objects: &'l [Object<'a>],
    link: &'l LinkMap<'a>,
}

impl<'l, 'a> PassedLines for OutputLines<'l, 'a> {
    ghost use Rattle.std.specs.Prelude.{get_or, length};
    ghost use Rattle.elf_tool_link.specs.Map.{output_text};
    ghost use Rattle.elf_link_outputs.specs.Placed.{no_output};

    ghost count = { λ lines. length lines.link.now.outputs };

    ghost line = { λ lines k. output_text lines.objects.now lines.link.now (get_or lines.link.now.outputs k no_output) };

    fn count(&self) -> usize {
        self.link.outputs().len()
    }

    fn pass<W: Write>(&self, text: &mut Text, writer: &mut W, k: usize) -> Result<(), WriteFault> {
        pass_output(
            self.objects,
            self.link,
            &self.link.outputs()[k],
            text,
            writer,
        )
    }
}

fn pass_output<'l, 'a, W: Write>(
    objects: &'l [Object<'a>],
    link: &'l LinkMap<'a>,
    output: &'l Output<'a>,
    text: &mut Text,
    writer: &mut W,
) -> Result<(), WriteFault>
    ensures { IsPassed (W.contents writer.old) (W.contents writer.new) text.old text.new
        (output_text objects.now link.now (output_value output.now)) result }
{
    pass_output_line(output, text, writer)?;
    pass_members(objects, link, &output.members, text, writer)
}

fn pass_members<'l, 'a, W: Write>(
    objects: &'l [Object<'a>],
    link: &'l LinkMap<'a>,
    members: &'l [Member],
    text: &mut Text,
    writer: &mut W,
) -> Result<(), WriteFault>
    ensures { IsPassed (W.contents writer.old) (W.contents writer.new) text.old text.new
        (flat_map (member_text objects.now link.now) members.now) result }
{
    let lines = MemberLines {
        objects,
        link,
        members,
    };
    pass_lines(&lines, text, writer)
}

// The members of an output.
#[derive(Drop)]
struct MemberLines<'l, 'a> {
    objects: &'l [Object<'a>],
    link: &'l LinkMap<'a>,
    members: &'l [Member],
}

impl<'l, 'a> PassedLines for MemberLines<'l, 'a> {
    ghost use Rattle.std.specs.Prelude.{get_or, length};
    ghost use Rattle.elf_link_map.specs.Standing.{no_member};
    ghost use Rattle.elf_tool_link.specs.Map.{member_text};

    ghost count = { λ lines. length lines.members.now };

    ghost line = { λ lines k. member_text lines.objects.now lines.link.now (get_or lines.members.now k no_member) };

    fn count(&self) -> usize {
        self.members.len()
    }

    fn pass<W: Write>(&self, text: &mut Text, writer: &mut W, k: usize) -> Result<(), WriteFault> {
        let member = self.members[k];
        let address = self.link.address(member.file, member.section).unwrap_or(0);
        let size = size_of(self.objects, member.file, member.section);
        pass_member_line(address, size, member, text, writer)
    }
}

// The size of a section in memory; 0 if there is none at that position.
fn size_of(objects: &[Object<'_>], file: usize, section: usize) -> u64
    ensures { result ≡ size_in objects.now file section }
{
    if file >= objects.len() {
        return 0;
    }
    let sections = objects[file].sections();
    if section >= sections.len() {
        return 0;
    }
    memory_size(&sections[section].body)
}

// The commons.
#[derive(Drop)]
struct CommonLines<'l, 'a> {
    link: &'l LinkMap<'a>,
}

impl<'l, 'a> PassedLines for CommonLines<'l, 'a> {
    ghost use Rattle.std.specs.Prelude.{length};
    ghost use Rattle.elf_tool_link.specs.Map.{common_line};
    ghost use Rattle.elf_link_outputs.specs.Placed.{common_at};

    ghost count = { λ lines. length lines.link.now.commons };

    ghost line = { λ lines k. common_line (common_at lines.link.now.commons k) };

    fn count(&self) -> usize {
        self.link.commons().len()
    }

    fn pass<W: Write>(&self, text: &mut Text, writer: &mut W, k: usize) -> Result<(), WriteFault> {
        pass_common_line(&self.link.commons()[k], text, writer)
    }
}

// The discarded sections, file by file.
#[derive(Drop)]
struct DiscardedLines<'l, 'a> {
    objects: &'l [Object<'a>],
    link: &'l LinkMap<'a>,
}

impl<'l, 'a> PassedLines for DiscardedLines<'l, 'a> {
    ghost use Rattle.std.specs.Prelude.{length};
    ghost use Rattle.elf_tool_link.specs.Map.{file_discarded_text};

    ghost count = { λ lines. length lines.objects.now };

    ghost line = { λ lines. file_discarded_text lines.objects.now lines.link.now };

    fn count(&self) -> usize {
        self.objects.len()
    }

    fn pass<W: Write>(
        &self,
        text: &mut Text,
        writer: &mut W,
        file: usize,
    ) -> Result<(), WriteFault> {
        let sections = FileDiscardedLines {
            object: &self.objects[file],
            file,
            link: self.link,
        };
        pass_lines(&sections, text, writer)
    }
}

// The discarded sections of a file.
#[derive(Drop)]
struct FileDiscardedLines<'l, 'a> {
    object: &'l Object<'a>,
    file: usize,
    link: &'l LinkMap<'a>,
}

impl<'l, 'a> PassedLines for FileDiscardedLines<'l, 'a> {
    ghost use Rattle.std.specs.Prelude.{length};
    ghost use Rattle.elf_tool_link.specs.Map.{discarded_text};

    ghost count = { λ lines. length lines.object.now.sections };

    ghost line = { λ lines. discarded_text lines.link.now lines.file };

    fn count(&self) -> usize {
        self.object.sections().len()
    }

    fn pass<W: Write>(
        &self,
        text: &mut Text,
        writer: &mut W,
        section: usize,
    ) -> Result<(), WriteFault> {
        if self.link.discarded(self.file, section) {
            return pass_discarded_line(self.file, section, text, writer);
        }
        Ok(())
    }
}

// The names.
#[derive(Drop)]
struct NameLines<'l, 'a> {
    objects: &'l [Object<'a>],
    link: &'l LinkMap<'a>,
}

impl<'l, 'a> PassedLines for NameLines<'l, 'a> {
    ghost use Rattle.std.specs.Prelude.{get_or, length};
    ghost use Rattle.elf_tool_link.specs.Map.{named_text};
    ghost use Rattle.elf_link_map.specs.LinkMap.{no_name};

    ghost count = { λ lines. length lines.link.now.bindings };

    ghost line = { λ lines k. named_text lines.objects.now lines.link.now (get_or lines.link.now.bindings k no_name) };

    fn count(&self) -> usize {
        self.link.names().len()
    }

    fn pass<W: Write>(&self, text: &mut Text, writer: &mut W, k: usize) -> Result<(), WriteFault> {
        let named = self.link.names()[k];
        let value = binding_value(self.objects, self.link, named.binding);
        pass_name_line(value, named, text, writer)
    }
}

// The lines of relocated bytes.

/// The lines of the relocated bytes, in order of placement.
#[tactic(auto, unfolding(crate::specs::Map::bytes_lines))]
pub(crate) fn pass_relocated<W: Write>(
    linked: &Linked<'_, '_>,
    text: &mut Text,
    writer: &mut W,
) -> Result<(), WriteFault>
    ensures { IsPassed (W.contents writer.old) (W.contents writer.new) text.old text.new (bytes_lines linked.now) result }
{
    pass_lines(&OutputBytes { linked }, text, writer)
}

// Output by output.
#[derive(Drop)]
struct OutputBytes<'l, 'm, 'a> {
    linked: &'l Linked<'m, 'a>,
}

impl<'l, 'm, 'a> PassedLines for OutputBytes<'l, 'm, 'a> {
    ghost use Rattle.std.specs.Prelude.{get_or, length};
    ghost use Rattle.elf_tool_link.specs.Map.{output_bytes};
    ghost use Rattle.elf_link_outputs.specs.Placed.{no_output};

    ghost count = { λ lines. length lines.linked.now.map.outputs };

    ghost line = { λ lines k. output_bytes lines.linked.now (get_or lines.linked.now.map.outputs k no_output) };

    fn count(&self) -> usize {
        self.linked.map().outputs().len()
    }

    fn pass<W: Write>(&self, text: &mut Text, writer: &mut W, k: usize) -> Result<(), WriteFault> {
        let output = &self.linked.map().outputs()[k];
        pass_member_bytes(self.linked, &output.members, text, writer)
    }
}

fn pass_member_bytes<W: Write>(
    linked: &Linked<'_, '_>,
    members: &[Member],
    text: &mut Text,
    writer: &mut W,
) -> Result<(), WriteFault>
    ensures { IsPassed (W.contents writer.old) (W.contents writer.new) text.old text.new
        (flat_map (member_bytes linked.now) members.now) result }
{
    pass_lines(&MemberBytes { linked, members }, text, writer)
}

// Member by member of an output.
#[derive(Drop)]
struct MemberBytes<'l, 'm, 'a> {
    linked: &'l Linked<'m, 'a>,
    members: &'l [Member],
}

impl<'l, 'm, 'a> PassedLines for MemberBytes<'l, 'm, 'a> {
    ghost use Rattle.std.specs.Prelude.{get_or, length};
    ghost use Rattle.elf_link_map.specs.Standing.{no_member};
    ghost use Rattle.elf_tool_link.specs.Map.{member_bytes};

    ghost count = { λ lines. length lines.members.now };

    ghost line = { λ lines k. member_bytes lines.linked.now (get_or lines.members.now k no_member) };

    fn count(&self) -> usize {
        self.members.len()
    }

    fn pass<W: Write>(&self, text: &mut Text, writer: &mut W, k: usize) -> Result<(), WriteFault> {
        let member = self.members[k];
        match self.linked.bytes(member.file, member.section) {
            Some(bytes) => pass_bytes_line(member, bytes, text, writer),
            None => Ok(()),
        }
    }
}
