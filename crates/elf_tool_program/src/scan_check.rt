//! `check` over a source: the same verdict, of what the check needs to read alone.
ghost use Rattle.std.specs.Prelude.{◌≡◌, ℕ, List, Ok, Some, IfErr, IfOk, string_bytes};
ghost use Rattle.elf_image_rules.specs.Rows.{fault_of};
ghost use Rattle.elf_image_stream.specs.Source.{Remembers};
ghost use Rattle.elf_tool_check.specs.Check.{verdict_of};
ghost use Rattle.elf_tool_check.specs.Engine.{IsOneReport};
ghost use Rattle.elf_tool_program.specs.CheckSource.{IsScanStopped, IsScanned, IsSourceSaid, SourceSays, check_failure, line_of_scan};

use elf_image_outline::{Outline, scan};
use elf_image_rules::Broken;
use elf_image_stream::{Fault, Source, write_whole};
use elf_tool_check::{Refusal, ToolFault, Verdict, ok_line, refused_line};
use std::alloc::{AllocError, Global};
use std::io::Write;

/// Reads the header, the two tables and the ends of the section name string table of a source, and no other byte, and writes the line that
/// [`check`](elf_tool_check::check) writes on the whole file.
///
/// The verdict is what the line says. Nothing was written after [`ToolFault::Read`] and after [`ToolFault::OutOfMemory`]. After
/// [`ToolFault::Write`] exactly the first `written` bytes of the line are written. [`ToolFault::Read`] has the offset of a call of the
/// source that failed (0 for a failed `length`), or that gave no byte though the length says that there is one. After such a call nothing
/// else is returned. Time and memory are those of [`scan`](elf_image_outline::scan), and a line.
pub fn check_source<S: Source, W: Write>(
    alloc: Global,
    source: &mut S,
    writer: &mut W,
) -> Result<Verdict, ToolFault>
    ensures kept { S.content source.new ≡ S.content source.old }
    ensures failures { Remembers (check_failure result) (S.failures source.old) (S.failures source.new) }
    ensures said { IsSourceSaid (S.content source.old) (W.contents writer.old) (W.contents writer.new) result }
    ensures only { IsOneReport (λ b. SourceSays (Some b)) }
{
    let validated = validated_by_scan(alloc, source)?;
    let line = line_on_scan(alloc, &validated)?;
    write_whole(writer, line.as_bytes())?;
    Ok(verdict_on_scan(&validated))
}

/// The outline of a source that breaks no rule, or the first one that it breaks.
fn validated_by_scan<S: Source>(
    alloc: Global,
    source: &mut S,
) -> Result<Result<Outline, Broken<u64>>, ToolFault>
    ensures kept { S.content source.new ≡ S.content source.old }
    ensures failures { Remembers (check_failure result) (S.failures source.old) (S.failures source.new) }
    ensures stopped { IfErr result IsScanStopped }
    ensures known { (b : List ℕ) → S.content source.old ≡ Some b → IfOk result (IsScanned b) }
{
    match scan(alloc, source) {
        Ok(outline) => Ok(Ok(outline)),
        Err(Fault::Rule { rule, at }) => Ok(Err(Broken { rule, at })),
        Err(Fault::Io { at }) => Err(ToolFault::Read { at }),
        Err(Fault::OutOfMemory) => Err(ToolFault::OutOfMemory),
    }
}

fn line_on_scan(
    alloc: Global,
    validated: &Result<Outline, Broken<u64>>,
) -> Result<String, AllocError>
    ensures { IfOk result (λ line. string_bytes line ≡ line_of_scan validated.now) }
{
    match validated {
        Ok(outline) => line_on_outline(alloc, outline),
        Err(broken) => refused_line(alloc, broken.rule, broken.at),
    }
}

fn line_on_outline(alloc: Global, outline: &Outline) -> Result<String, AllocError>
    ensures { IfOk result (λ line. string_bytes line ≡ line_of_scan (Ok outline.now)) }
{
    let sections = outline.section_count() as u64;
    let segments = outline.segment_count() as u64;
    ok_line(alloc, outline.len() as usize, sections, segments)
}

fn verdict_on_scan(validated: &Result<Outline, Broken<u64>>) -> Verdict
    ensures { result ≡ verdict_of (fault_of validated.now) }
{
    match validated {
        Ok(_) => Verdict::Done,
        Err(broken) => Verdict::Refused(Refusal::File {
            file: 0,
            rule: broken.rule,
            at: broken.at,
        }),
    }
}
