//! A file whose records were validated.
ghost use Rattle.std.specs.Prelude.{◌≡◌, ◌<◌, ◌≤◌, length};
ghost use Rattle.elf_image_rules.specs.KeepsRules.{kept_prop};
ghost use Rattle.elf_image_rules.specs.Rules.{KeepsRecordRules};
ghost use Rattle.elf_image_rules.specs.Tables.{file_counts, header as file_header, phdr_offset, sections, segments, shdr_offset};

use crate::tables::{Counts, section_at, segment_at};
use elf_field::{Ehdr, Phdr, Shdr};
use elf_image_rule_names::MAX_LEN;

/// A file that keeps rules 1 to 32, with its header and its counts: all its records are there, and
/// are read with no further test. [`crate::validate_records`] makes it.
#[derive(Clone, Copy, Drop)]
pub struct ValidatedRecords<'a> {
    bytes: &'a [u8],
    header: Ehdr,
    counts: Counts,
    ghost kept: { KeepsRecordRules bytes.now } by { kept_prop _ },
    ghost own_header: { header ≡ file_header bytes.now },
    ghost own_counts: { counts ≡ file_counts bytes.now },
}

impl<'a> ValidatedRecords<'a> {
    ghost use Rattle.elf_image_rules.specs.ValidatedRecords.{file_of};

    /// A file that keeps rules 1 to 32, with its own header and counts.
    pub(crate) fn new(bytes: &'a [u8], header: Ehdr, counts: Counts) -> ValidatedRecords<'a>
        requires kept { KeepsRecordRules bytes.now }
        requires header { header ≡ file_header bytes.now }
        requires counts { counts ≡ file_counts bytes.now }
        ensures { file_of result ≡ bytes.entry.now }
    {
        ValidatedRecords {
            bytes,
            header,
            counts,
        }
    }

    /// The file's bytes.
    pub fn bytes(&self) -> &'a [u8]
        ensures { result.now ≡ file_of self.now }
    {
        self.bytes
    }

    /// The file's header.
    pub fn header(&self) -> Ehdr
        ensures { result ≡ file_header (file_of self.now) }
    {
        self.header
    }

    /// How many section headers there are.
    pub fn section_count(&self) -> u64
        ensures count { result ≡ (file_counts (file_of self.now)).sections }
        ensures inside { shdr_offset (file_header (file_of self.now)) result ≤ length (file_of self.now) }
        ensures short { length (file_of self.now) ≤ MAX_LEN }
    {
        self.counts.sections
    }

    /// How many program headers there are.
    pub fn segment_count(&self) -> u64
        ensures count { result ≡ (file_counts (file_of self.now)).segments }
        ensures inside { 0 < result → phdr_offset (file_header (file_of self.now)) result ≤ length (file_of self.now) }
        ensures short { length (file_of self.now) ≤ MAX_LEN }
    {
        self.counts.segments
    }

    /// The index of the section name string table, 0 for none.
    pub fn name_table(&self) -> u64
        ensures { result ≡ (file_counts (file_of self.now)).name_table }
    {
        self.counts.name_table
    }

    /// Section header `index`.
    pub fn section(&self, index: u64) -> Shdr
        requires { index < (file_counts (file_of self.now)).sections }
        ensures { result ≡ sections (file_of self.now) (file_header (file_of self.now)) index }
    {
        section_at(self.bytes, &self.header, index)
    }

    /// Program header `index`.
    pub fn segment(&self, index: u64) -> Phdr
        requires { index < (file_counts (file_of self.now)).segments }
        ensures { result ≡ segments (file_of self.now) (file_header (file_of self.now)) index }
    {
        segment_at(self.bytes, &self.header, index)
    }
}
