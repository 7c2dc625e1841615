//! What the rules of a symbol table look at, beside its own section header (gABI chapter 4, Symbol Table).
ghost use Rattle.std.specs.Prelude.{◌≡◌, ℕ, Some, ◌*◌, ◌/◌, ◌+◌, ◌<◌, ◌≤◌, length};
ghost use Rattle.elf_field.specs.Abi.{SHDR_SIZE};
ghost use Rattle.elf_image_rules.specs.Rules.{MAX_LEN};
ghost use Rattle.elf_table_symbols.specs.Sections.{count, section, sections_seen};

use crate::index_tables::IndexTables;
use crate::symbol_rules::index_words_in;
use crate::table_section::LinkedTable;
use elf_field::Order;
use elf_field::abi::*;

/// The content of a symbol table, of the string table that it links to, and of its index table, with their offsets. All of them lie in one
/// file of at most 2^30 bytes.
#[derive(Clone, Copy, Drop)]
pub(crate) struct SymbolParts<'a> {
    pub order: Order,
    /// The offset of the section header, and its `sh_info`.
    pub header: u64,
    pub info: u32,
    pub table: &'a [u8],
    pub start: u64,
    pub names: &'a [u8],
    pub names_start: u64,
    pub index_table: Option<usize>,
    /// The index table's content, empty where there is none.
    pub words: &'a [u8],
    pub words_start: u64,
    /// How many section headers there are.
    pub sections: usize,
    // The section header and the contents lie in a file of at most MAX_LEN bytes.
    ghost header_inside: { header + SHDR_SIZE ≤ MAX_LEN },
    ghost table_inside: { 0 < length table.now → start + length table.now ≤ MAX_LEN },
    ghost names_inside: { 0 < length names.now → names_start + length names.now ≤ MAX_LEN },
    ghost words_inside: { 0 < length words.now → words_start + length words.now ≤ MAX_LEN },
}

impl<'a> SymbolParts<'a> {
    ghost use Rattle.elf_table_symbols.specs.Symbols.{AreIndexTables};
    ghost use Rattle.elf_table_symbols.specs.Symbols.{parts_value, symbol_parts};
    ghost use Rattle.elf_table_symbols.specs.Symbols.{entry_count};

    /// The parts of this symbol table, with its index tables.
    pub(crate) fn new(linked: LinkedTable<'_, 'a>, tables: IndexTables) -> SymbolParts<'a>
        requires { let t = linked.table in AreIndexTables (sections_seen t.sections) t.index (count (sections_seen t.sections)) tables }
        ensures value { parts_value result ≡ symbol_parts (sections_seen linked.entry.table.sections) linked.entry.table.index }
        ensures sized { (j : ℕ) → tables.first ≡ Some j →
            length result.words.now ≡ (section (sections_seen linked.entry.table.sections) j).sh_size }
    {
        let table = linked.table;
        let section = table.header();
        let (words, words_start) = index_words_in(table.sections, tables.first);
        SymbolParts {
            order: table.order(),
            header: table.header_offset(),
            info: section.sh_info,
            table: table.content(),
            start: section.sh_offset,
            names: linked.linked_content(),
            names_start: linked.linked_header().sh_offset,
            index_table: tables.first,
            words,
            words_start,
            sections: table.sections.section_count(),
        }
    }

    /// How many symbols there are.
    pub(crate) fn len(&self) -> usize
        ensures { result ≡ entry_count self.now.table.now }
    {
        self.table.len() / SYM_SIZE as usize
    }
}
