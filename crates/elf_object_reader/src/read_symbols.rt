//! The symbols of a file as those of an object (gABI chapter 4, Symbol Table).
ghost use Rattle.std.specs.Prelude.{◌≡◌, IfOk, length, map, ◌<◌, ◌*◌, Some, drop, get_or};
ghost use Rattle.elf_object_reader.specs.FileRules.{sections_of_file};
ghost use Rattle.elf_field.specs.Entries.{sym_at};
ghost use Rattle.elf_object_reader.specs.Denotes.{place_denoted, symbol_denoted, symbols_denoted};
ghost use Rattle.elf_object_type.specs.ObjectView.{symbol_value};
ghost use Rattle.elf_table_symbols.specs.Sections.{content, order, section};
ghost use Rattle.elf_table_symbols.specs.Symbols.{symbol_parts};
ghost use Rattle.elf_table_symbols.specs.SymbolView.{no_symbol_entry};

use crate::object_file::FileSymbols;
use crate::reading::ObjectReader;
use crate::string_blocks::StringBlocks;
use elf_field::abi::*;
use elf_field::{Sym, get_at};
use elf_object_type::{Place, Symbol};
use std::alloc::{AllocError, Global};

impl<'i, 'a> ObjectReader<'i, 'a> {
    /// Where a symbol is defined; a reserved index that is neither absolute nor common has been refused.
    fn read_place(&self, place: elf_table_all::Place) -> Place
        ensures { result ≡ place_denoted self.now.file.left (sections_of_file self.now.file) place }
    {
        match place {
            elf_table_all::Place::Undefined | elf_table_all::Place::Reserved(_) => Place::Undef,
            elf_table_all::Place::Absolute => Place::Abs,
            elf_table_all::Place::Common => Place::Common,
            elf_table_all::Place::Section(k) => Place::In(self.position_at(k as usize)),
        }
    }

    /// Symbol `j` of the symbol table, whose name this is.
    fn read_symbol(&self, symbols: &FileSymbols<'_, 'i, 'a>, j: usize, name: &'a [u8]) -> Symbol<'a>
        requires there { j < length symbols.now.entries }
        requires name { name.now ≡ (get_or symbols.now.entries j no_symbol_entry).name }
        ensures { let file = self.now.file in
            symbol_value result ≡ symbol_denoted file.left (sections_of_file file) (get_or symbols.now.entries j no_symbol_entry) }
    {
        let entry = symbols.record(j);
        Symbol {
            name,
            info: entry.st_info,
            other: entry.st_other,
            place: self.read_place(symbols.entries.place(j)),
            value: entry.st_value,
            size: entry.st_size,
        }
    }

    /// The symbols of the symbol table from symbol 1 on.
    fn read_table(
        &self,
        alloc: Global,
        symbols: &FileSymbols<'_, 'i, 'a>,
        strings: &'a [u8],
    ) -> Result<Vec<Symbol<'a>>, AllocError>
        requires { strings.now ≡ (symbol_parts (sections_of_file symbols.now.file.now) symbols.now.index).names }
        ensures { let file = self.now.file in IfOk result (λ read.
            map symbol_value read.items ≡ map (symbol_denoted file.left (sections_of_file file)) (drop 1 symbols.now.entries)) }
    {
        let blocks = StringBlocks::new(alloc, strings)?;
        let mut read = Vec::new(alloc);
        for j in 0..symbols.entries.len().saturating_sub(1) {
            let name = blocks.string(symbols.record(j + 1).st_name);
            read.push(self.read_symbol(symbols, j + 1, name))?;
        }
        Ok(read)
    }

    /// The string table that the symbol table in section `t` links to.
    fn strings_of(&self, t: usize) -> &'a [u8]
        requires there { t < length self.now.file.image.now.sections }
        requires linked { (section (sections_of_file self.now.file) t).sh_link < length self.now.file.image.now.sections }
        ensures { result.now ≡ (symbol_parts (sections_of_file self.now.file) t).names }
    {
        let image = self.file.image;
        image.content(image.section(t).sh_link as usize)
    }

    /// The symbols from symbol 1 on, none if there is no symbol table.
    pub(crate) fn read_symbols(&self, alloc: Global) -> Result<Vec<Symbol<'a>>, AllocError>
        ensures { let file = self.now.file in IfOk result (λ read.
            map symbol_value read.items ≡ symbols_denoted file.left (sections_of_file file) file.left.symbol_table) }
    {
        match self.file.left.symbol_table {
            Some(t) => {
                let symbols = FileSymbols {
                    file: &self.file,
                    index: t,
                    entries: self.file.tables.symbols(t),
                };
                self.read_table(alloc, &symbols, self.strings_of(t))
            }
            None => Ok(Vec::new(alloc)),
        }
    }
}

impl<'f, 'i, 'a> FileSymbols<'f, 'i, 'a> {
    /// The entry of symbol `j`.
    fn record(&self, j: usize) -> Sym
        requires { j < length self.now.entries }
        ensures { let f = sections_of_file self.now.file.now in result ≡ sym_at (order f) (content f self.now.index) (24 * j) }
    {
        let image = self.file.image;
        get_at(
            image.order(),
            image.content(self.index),
            SYM_SIZE as usize * j,
        )
    }
}
