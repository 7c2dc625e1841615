//! Where the records of a file are read: in its bytes, or in tables in memory.
//!
//! One code over a trait ([`Records`]) tests both. A record that is missing in memory counts as zeros.
ghost use Rattle.std.specs.Prelude.{◌≡◌, ◌≢◌, ◌≤◌, ◌+◌, length};

use crate::tables::{NO_SECTION, NO_SEGMENT, section_at, segment_at};
use elf_field::{Ehdr, Phdr, Shdr};

/// Section headers and program headers by index.
pub trait Records {
    ghost use Rattle.std.specs.Prelude.{ℕ};
    ghost use Rattle.elf_field.specs.declared.shdr.Shdr.{Shdr};
    ghost use Rattle.elf_field.specs.declared.phdr.Phdr.{Phdr};

    // section header i, and whether it can be read
    ghost sections: { Self → ℕ → Shdr };

    ghost HasSection: { Self → ℕ → Type 0 };

    // program header j, and whether it can be read
    ghost segments: { Self → ℕ → Phdr };

    ghost HasSegment: { Self → ℕ → Type 0 };

    /// Section header `index`; all zeros without a section table.
    fn section(&self, index: u64) -> Shdr
        requires { HasSection self.now index }
        ensures { result ≡ sections self.now index };

    /// Program header `index`.
    fn segment(&self, index: u64) -> Phdr
        requires { HasSegment self.now index }
        ensures { result ≡ segments self.now index };
}

/// The records in the bytes of a file with this header.
#[derive(Clone, Copy, Drop)]
pub struct FileRecords<'a> {
    /// The whole file.
    pub bytes: &'a [u8],
    /// The ELF header, which says where the two tables are.
    pub header: &'a Ehdr,
}

impl<'a> Records for FileRecords<'a> {
    ghost use Rattle.std.specs.Prelude.{◌≢◌, ◌≤◌, ◌+◌, length};
    ghost use Rattle.elf_field.specs.Abi.{PHDR_SIZE, SHDR_SIZE};
    ghost use Rattle.elf_image_rules.specs.Tables.{phdr_offset, sections as sections_in, segments as segments_in, shdr_offset};

    ghost sections = { λ r i. sections_in r.bytes.now r.header.now i };

    ghost HasSection = { λ r i. r.header.now.e_shoff ≢ 0 → shdr_offset r.header.now i + SHDR_SIZE ≤ length r.bytes.now };

    ghost segments = { λ r j. segments_in r.bytes.now r.header.now j };

    ghost HasSegment = { λ r j. phdr_offset r.header.now j + PHDR_SIZE ≤ length r.bytes.now };

    fn section(&self, index: u64) -> Shdr {
        section_at(self.bytes, self.header, index)
    }

    fn segment(&self, index: u64) -> Phdr {
        segment_at(self.bytes, self.header, index)
    }
}

/// The records in tables in memory.
#[derive(Clone, Copy, Drop)]
pub struct TableRecords<'a> {
    /// The section headers, from index 0 on.
    pub sections: &'a [Shdr],
    /// The program headers, from index 0 on.
    pub segments: &'a [Phdr],
}

impl<'a> Records for TableRecords<'a> {
    ghost use Rattle.elf_image_rules.specs.Tables.{program_header_of, section_header_of};

    ghost sections = { λ r i. section_header_of r.sections.now i };

    // what is not there is all zeros
    ghost HasSection = { λ r i. Unit {0} };

    ghost segments = { λ r j. program_header_of r.segments.now j };

    ghost HasSegment = { λ r j. Unit {0} };

    fn section(&self, index: u64) -> Shdr {
        match self.sections.get(index as usize) {
            Some(entry) => *entry,
            None => NO_SECTION,
        }
    }

    fn segment(&self, index: u64) -> Phdr {
        match self.segments.get(index as usize) {
            Some(entry) => *entry,
            None => NO_SEGMENT,
        }
    }
}
