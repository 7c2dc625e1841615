//! Index tables: the section indexes that the symbols of a table cannot hold themselves (gABI chapter 4, Sections:
//! SHT_SYMTAB_SHNDX).
ghost use Rattle.std.specs.Prelude.{◌≡◌, ◌<◌, length};
ghost use Rattle.elf_table_symbols.specs.Symbols.{AreIndexTables, index_table as index_table_of, noted};
ghost use Rattle.elf_table_symbols.specs.Sections.{count, sections_of, sections_seen};

use crate::sections_of::SectionsOf;
use elf_field::abi::*;
use elf_image_type::Image;

/// The first two index tables of a symbol table, by the indexes of their sections.
#[derive(Clone, Copy)]
pub struct IndexTables {
    /// The first, None if there is none.
    pub first: Option<usize>,
    /// The second.
    pub second: Option<usize>,
}

impl IndexTables {
    /// None.
    pub const NONE: IndexTables = IndexTables {
        first: None,
        second: None,
    };

    /// With section `j` too, whose index is above theirs.
    pub fn with(self, j: usize) -> IndexTables
        ensures { result ≡ noted self j }
    {
        match (self.first, self.second) {
            (None, second) => IndexTables {
                first: Some(j),
                second,
            },
            (first, None) => IndexTables {
                first,
                second: Some(j),
            },
            _ => self,
        }
    }
}

/// The first two index tables of the symbol table in section `i`.
pub(crate) fn index_tables_of(sections: SectionsOf<'_, '_>, i: usize) -> IndexTables
    ensures { AreIndexTables (sections_seen sections.entry) i (count (sections_seen sections.entry)) result }
{
    let mut tables = IndexTables::NONE;
    for j in 0..sections.section_count() {
        let section = sections.section(j);
        if section.sh_type == SHT_SYMTAB_SHNDX && section.sh_link as usize == i {
            tables = tables.with(j);
        }
    }
    tables
}

/// The first index table of the symbol table in section `i`, by the index of its section; `None` if there is none. Linear in the sections.
pub fn index_table(image: &Image<'_>, i: usize) -> Option<usize>
    ensures { result ≡ index_table_of (sections_of image.now) i }
{
    index_tables_of(SectionsOf::Image(image), i).first
}
