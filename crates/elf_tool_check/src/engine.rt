//! `check`: is this an ELF-64 file, and if not, why and where.
ghost use Rattle.std.specs.Prelude.{◌≡◌, length, IfOk, string_bytes};
ghost use Rattle.elf_image_rules.specs.Rows.{fault_of};
ghost use Rattle.elf_image_rules.specs.Rules.{IsFault};
ghost use Rattle.elf_image_rules.specs.ValidatedRecords.{file_of};
ghost use Rattle.elf_tool_check.specs.Check.{CheckSays, IsChecked, file_sections, file_segments, verdict_of};
ghost use Rattle.elf_tool_check.specs.Engine.{IsOneReport};
ghost use Rattle.elf_tool_check.specs.FileLines.{ok_line as ok_line_of, refused_line as refused_line_of};

use crate::calls::{Refusal, ToolFault, Verdict, read_input};
use elf_image_rules::{Broken, ValidatedRecords, validate_by_sorting};
use elf_image_stream::write_whole;
use std::alloc::{AllocError, Global};
use std::io::{Read, Write};

/// Reads a whole file and writes one line on it: `ok L N M` with its length and its counts of
/// sections and of segments, or `refused R A` with the first rule that it breaks and the lowest
/// offset where it breaks it.
///
/// The verdict is what the line says. [`ToolFault::Read`] comes if a read fails, an interruption too, and [`ToolFault::OutOfMemory`]
/// only if an allocation for the file or the line fails. Nothing was written then. After [`ToolFault::Write`] exactly the first
/// `written` bytes of the line are written.
///
/// Linear in the bytes. Contents that are not in the order of their section headers are sorted. If the allocation for that fails, every
/// two are compared.
#[tactic(auto, using(crate::proofs::SaysOne::one_check))]
pub fn check<R: Read, W: Write>(
    alloc: Global,
    reader: &mut R,
    writer: &mut W,
) -> Result<Verdict, ToolFault>
    ensures said { IsChecked (R.remaining reader.old) (R.remaining reader.new)
        (W.contents writer.old) (W.contents writer.new) result }
    ensures only { IsOneReport CheckSays }
{
    let mut buf = Vec::new(alloc);
    read_input(reader, &mut buf)?;
    let bytes = buf.as_slice();
    let validated = validate_by_sorting(alloc, bytes);
    let line = line_on(alloc, bytes, validated)?;
    write_whole(writer, line.as_bytes())?;
    Ok(verdict_on(validated))
}

fn line_on(
    alloc: Global,
    bytes: &[u8],
    validated: Result<ValidatedRecords<'_>, Broken<u64>>,
) -> Result<String, AllocError>
    requires fault { IsFault bytes.now (fault_of validated) }
    requires file { IfOk validated (λ records. file_of records ≡ bytes.now) }
    ensures { IfOk result (λ line. CheckSays bytes.now (verdict_of (fault_of validated.entry)) (string_bytes line)) }
{
    match validated {
        Ok(records) => line_on_image(alloc, &records),
        Err(Broken { rule, at }) => refused_line(alloc, rule, at),
    }
}

fn line_on_image(alloc: Global, records: &ValidatedRecords<'_>) -> Result<String, AllocError>
    ensures { let b = file_of records.now in
        IfOk result (λ line. string_bytes line ≡ ok_line_of (length b) (file_sections b) (file_segments b)) }
{
    let sections = records.section_count();
    let segments = records.segment_count();
    ok_line(alloc, records.bytes().len(), sections, segments)
}

fn verdict_on(validated: Result<ValidatedRecords<'_>, Broken<u64>>) -> Verdict
    ensures { result ≡ verdict_of (fault_of validated.entry) }
{
    match validated {
        Ok(_) => Verdict::Done,
        Err(Broken { rule, at }) => Verdict::Refused(Refusal::File { file: 0, rule, at }),
    }
}

// The lines on a file, which all engines share.

/// The line on a file of this length in bytes, with so many sections and segments, that is accepted. Fails only when out of memory.
pub fn ok_line(
    alloc: Global,
    length: usize,
    sections: u64,
    segments: u64,
) -> Result<String, AllocError>
    ensures { IfOk result (λ line. string_bytes line ≡ ok_line_of length sections segments) }
{
    format!(in alloc; "ok {length} {sections} {segments}\n")
}

/// The line on a file that is refused by this rule at this offset. Fails only when out of memory.
pub fn refused_line(alloc: Global, rule: u16, at: u64) -> Result<String, AllocError>
    ensures { IfOk result (λ line. string_bytes line ≡ refused_line_of rule at) }
{
    format!(in alloc; "refused {rule} {at}\n")
}
