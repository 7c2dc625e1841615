//! What the rules of a hash table look at (gABI chapter 5, Hash Table).
ghost use Rattle.std.specs.Prelude.{◌≡◌, ◌+◌, ◌/◌, ◌<◌, ◌≤◌, length};
ghost use Rattle.elf_field.specs.Abi.{SHDR_SIZE, WORD_SIZE};
ghost use Rattle.elf_image_rules.specs.Rules.{MAX_LEN};
ghost use Rattle.elf_table_hash.specs.HashTable.{names_in};

use crate::hash_words::{HashWords, SymbolNames};
use elf_field::Order;
use elf_table_symbols::{LinkedTable, TableKind, entry};

/// The words of a hash table, the names of the symbols that it is for, and where the table is.
#[derive(Drop)]
pub(crate) struct HashParts<'a> {
    /// The offset of the section header, and its `sh_size`.
    pub header: u64,
    pub size: u64,
    pub words: HashWords<'a>,
    pub start: u64,
    pub names: SymbolNames<'a>,
    /// The byte order, the contents of the symbol table and of its string table, and the index of the latter: where the names are.
    pub order: Order,
    pub symbols: &'a [u8],
    pub strings: &'a [u8],
    pub strings_index: u32,
    // The table has the words of its size, and lies in a file of at most MAX_LEN bytes, as its symbols do.
    ghost sized: { length words ≡ size / WORD_SIZE },
    ghost header_inside: { header + SHDR_SIZE ≤ MAX_LEN },
    ghost table_inside: { 0 < size → start + size ≤ MAX_LEN },
    ghost names_inside: { length names ≤ MAX_LEN },
    ghost named: { names ≡ names_in order symbols.now strings.now },
}

impl<'a> HashParts<'a> {
    ghost use Rattle.std.specs.Prelude.{None};
    ghost use Rattle.elf_image_rules.specs.Rows.{FirstIn};
    ghost use Rattle.elf_table_symbols.specs.Sections.{own_rules};
    ghost use Rattle.elf_table_symbols.specs.Sections.{content, section, sections_seen};
    ghost use Rattle.elf_table_symbols.specs.Symbols.{symbol_table_rules};
    ghost use Rattle.elf_table_hash.specs.HashRules.{hash_parts, hash_parts_value};
    ghost use Rattle.elf_table_hash.specs.HashTable.{name_of};
    ghost use Rattle.elf_field.specs.Strings.{string};

    /// The parts of a hash table whose section header breaks no rule, as the symbol table that it links to.
    pub(crate) fn new(linked: LinkedTable<'_, 'a>) -> HashParts<'a>
        requires own { FirstIn (own_rules TableKind.HashTable (sections_seen linked.table.sections) linked.table.index) None }
        requires symbols { let f = sections_seen linked.table.sections in
            FirstIn (symbol_table_rules f (section f linked.table.index).sh_link) None }
        ensures value { hash_parts_value result ≡ hash_parts (sections_seen linked.entry.table.sections) linked.entry.table.index }
        ensures strings { result.strings.now ≡ content (sections_seen linked.entry.table.sections) result.strings_index }
    {
        let table = linked.table;
        let section = table.header();
        let order = table.order();
        let symbols = linked.linked_content();
        let strings_index = linked.linked_header().sh_link;
        let strings = table.sections.content(strings_index as usize);
        HashParts {
            header: table.header_offset(),
            size: section.sh_size,
            words: HashWords::new(order, table.content()),
            start: section.sh_offset,
            names: SymbolNames::new(order, symbols, strings),
            order,
            symbols,
            strings,
            strings_index,
        }
    }

    /// Where the name of symbol `s` begins in the string table.
    pub(crate) fn name_offset(&self, s: u32) -> u32
        requires { s < length self.now.names }
        ensures { name_of self.now.names s ≡ string self.now.strings.now result }
    {
        entry(self.order, self.symbols, s as usize).st_name
    }
}
