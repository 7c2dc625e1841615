//! Rules 22 to 33 of tables in memory, and the parts of a file that has such tables.
ghost use Rattle.std.specs.Prelude.{◌≡◌, ◌≤◌, ◌<◌, ◌+◌, ◌-◌, ℕ, List, IfErr, IfOk, OnOk, min};
ghost use Rattle.elf_image_outline.specs.Outline.{IsSoundOutline, outline_value};
ghost use Rattle.elf_image_outline.specs.Scanning.{AreCleanTables, BreaksTables, HasTables, KeepTables, names_extent};
ghost use Rattle.elf_image_rules.specs.Rules.{AreEnds};
ghost use Rattle.elf_image_rules.specs.Tables.{section_header_of};

use crate::extents::unshared_parts;
use crate::outline::Part;
use crate::scanning::Tables;
use elf_image_rules::{TableEnds, TableRecords, validate_entries};
use elf_image_stream::BytesFault;
use std::alloc::Global;

/// The parts of a file of `len` bytes with these tables, and a section name string table with these ends; otherwise the first of rules
/// 22 to 33 that they break. Memory is taken only if they break none of rules 22 to 32.
pub(crate) fn validated_parts(
    alloc: Global,
    len: u64,
    tables: &Tables,
    ends: TableEnds,
) -> Result<Vec<Part>, BytesFault>
    requires tables { HasTables len tables.now.header tables.now.counts tables.now.sections.items tables.now.segments.items }
    requires some { (names : List ℕ) × AreEnds ends names }
    requires place { 0 < ends.len → (section_header_of tables.now.sections.items tables.now.counts.name_table).sh_offset + ends.len ≤ len }
    requires clipped { let names = names_extent tables.now.sections.items tables.now.counts.name_table in
        ends.len ≡ min (len - names.start) names.len }
    ensures ok { IfOk result (λ parts. (names : List ℕ) → AreEnds ends names →
        KeepTables len tables.now.header tables.now.sections.items tables.now.segments.items names parts.items) }
    ensures sound { IfOk result (λ parts.
        IsSoundOutline (outline_value len tables.now.header tables.now.sections.items tables.now.segments.items parts.items)) }
    ensures err { IfErr result (λ fault. (names : List ℕ) → AreEnds ends names →
        BreaksTables len tables.now.header tables.now.sections.items tables.now.segments.items names fault) }
{
    let records = TableRecords {
        sections: &tables.sections,
        segments: &tables.segments,
    };
    validate_entries(&records, &tables.header, tables.counts, ends, len)?;
    unshared_parts(
        alloc,
        len,
        &tables.header,
        &tables.sections,
        &tables.segments,
    )
}
