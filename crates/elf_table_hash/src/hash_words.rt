//! The words of a hash table, and the names that it is for (gABI chapter 5, Hash Table).
ghost use Rattle.std.specs.Prelude.{◌≡◌, ◌≢◌, ◌↔◌, ◌<◌, ◌≤◌, ◌+◌, ◌%◌, [], IsTrue, length, get_or};
ghost use Rattle.elf_table_hash.specs.HashTable.{bucket as bucket_word, chain as chain_word, nbucket as nbucket_of, nchain as nchain_of};
ghost use Rattle.elf_table_hash.specs.HashTable.{names_in, words_in};
ghost use Rattle.elf_field.specs.Strings.{string};

use elf_field::Order;
use elf_field::abi::*;
use elf_image_type::strings::string_at;
use elf_table_symbols::{entry, word};
use std::marker::Model;

/// The words of a section: nbucket, nchain, a word for each bucket, and a chain word for each symbol.
#[derive(Drop)]
pub(crate) struct HashWords<'a> {
    order: Order,
    table: &'a [u8],
}

impl<'a> Model for HashWords<'a> {
    ghost use Rattle.std.specs.Prelude.{ℕ, List};
    ghost use Rattle.elf_table_hash.specs.HashTable.{words_in};

    ghost Value = { List ℕ };

    ghost view = { λ a. words_in a.order a.table.now };
}

impl<'a> HashWords<'a> {
    /// The words of this content.
    pub(crate) fn new(order: Order, table: &'a [u8]) -> HashWords<'a>
        ensures { result ≡ words_in order table.now }
    {
        HashWords { order, table }
    }

    /// How many words there are.
    pub(crate) fn len(&self) -> usize
        ensures { result ≡ length self.now }
    {
        self.table.len() / WORD_SIZE as usize
    }

    /// Word `j`.
    pub(crate) fn get(&self, j: usize) -> u32
        requires { j < length self.now }
        ensures { result ≡ get_or self.now j 0 }
    {
        word(self.order, self.table, j)
    }

    /// Word `j`; 0 if there is none of this index.
    pub(crate) fn word_or_zero(&self, j: usize) -> u32
        ensures { result ≡ get_or self.now j 0 }
    {
        if j < self.len() { self.get(j) } else { 0 }
    }

    /// How many buckets the table says it has.
    pub(crate) fn nbucket(&self) -> u32
        requires { 2 ≤ length self.now }
        ensures { result ≡ nbucket_of self.now }
    {
        self.get(0)
    }

    /// How many chain words the table says it has.
    pub(crate) fn nchain(&self) -> u32
        requires { 2 ≤ length self.now }
        ensures { result ≡ nchain_of self.now }
    {
        self.get(1)
    }

    /// The word of bucket `b`.
    #[tactic(auto, unfolding(crate::specs::HashTable::bucket))]
    pub(crate) fn bucket(&self, b: u32) -> u32
        requires { 2 + b < length self.now }
        ensures { result ≡ bucket_word self.now b }
    {
        self.get(2 + b as usize)
    }

    /// The word of the bucket for symbols of a name with this hash, in a table of some buckets.
    pub(crate) fn bucket_of(&self, hash: u32) -> u32
        requires some { nbucket_of self.now ≢ 0 }
        requires long { 2 + nbucket_of self.now ≤ length self.now }
        ensures { result ≡ bucket_word self.now (hash % nbucket_of self.now) }
    {
        self.bucket(hash % self.nbucket())
    }

    /// The chain word of symbol `s`.
    #[tactic(auto, unfolding(crate::specs::HashTable::chain))]
    pub(crate) fn chain(&self, s: u32) -> u32
        requires { 2 + nbucket_of self.now + s < length self.now }
        ensures { result ≡ chain_word self.now s }
    {
        self.get(2 + self.nbucket() as usize + s as usize)
    }

    /// The chain word of symbol `s`, and 0 if there is no such word.
    #[tactic(auto, unfolding(crate::specs::HashTable::chain))]
    pub(crate) fn chain_or_zero(&self, s: u32) -> u32
        ensures { result ≡ chain_word self.now s }
    {
        self.word_or_zero(2 + self.word_or_zero(0) as usize + s as usize)
    }
}

/// The names of the symbols of a symbol table, symbol 0 among them.
#[derive(Drop)]
pub(crate) struct SymbolNames<'a> {
    order: Order,
    table: &'a [u8],
    names: &'a [u8],
}

impl<'a> Model for SymbolNames<'a> {
    ghost use Rattle.std.specs.Prelude.{ℕ, List};
    ghost use Rattle.elf_table_hash.specs.HashTable.{names_in};

    ghost Value = { List (List ℕ) };

    ghost view = { λ a. names_in a.order a.table.now a.names.now };
}

impl<'a> SymbolNames<'a> {
    /// The names of a symbol table of this content, with this content of its string table.
    pub(crate) fn new(order: Order, table: &'a [u8], names: &'a [u8]) -> SymbolNames<'a>
        ensures { result ≡ names_in order table.now names.now }
    {
        SymbolNames {
            order,
            table,
            names,
        }
    }

    /// How many symbols there are.
    pub(crate) fn len(&self) -> usize
        ensures { result ≡ length self.now }
    {
        self.table.len() / SYM_SIZE as usize
    }

    /// The name of symbol `s`.
    pub(crate) fn get(&self, s: u32) -> &'a [u8]
        requires { s < length self.now }
        ensures { result.now ≡ get_or self.now s [] }
    {
        let symbol = entry(self.order, self.table, s as usize);
        string_at(self.names, symbol.st_name as usize)
    }

    /// Whether symbol `s` is there, and has this name.
    pub(crate) fn has(&self, s: u32, name: &[u8]) -> bool
        ensures { IsTrue result ↔ (s < length self.now) × (get_or self.now s [] ≡ name.now) }
    {
        (s as usize) < self.len() && self.is_named(s, name)
    }

    /// Whether symbol `s` has this name.
    fn is_named(&self, s: u32, name: &[u8]) -> bool
        requires { s < length self.now }
        ensures { IsTrue result ↔ (get_or self.now s [] ≡ name.now) }
    {
        let symbol = entry(self.order, self.table, s as usize);
        is_string_at(self.names, symbol.st_name as usize, name)
    }
}

/// Whether this is the string at an offset of a string table. No more of that is read than one byte beyond this length.
fn is_string_at(table: &[u8], offset: usize, name: &[u8]) -> bool
    ensures { IsTrue result ↔ (string table.now offset ≡ name.now) }
{
    let rest = &table[offset.min(table.len())..];
    let near = &rest[..rest.len().min(name.len().saturating_add(1))];
    string_at(near, 0) == name
}
