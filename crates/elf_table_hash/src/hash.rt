//! Hash tables (gABI chapter 5, Hash Table).
ghost use Rattle.std.specs.Prelude.{◌≡◌, ◌↔◌, ◌<◌, ◌≤◌, ℕ, None, IsSome, length, get_or};
ghost use Rattle.elf_image_rules.specs.Rows.{FirstIn};
ghost use Rattle.elf_table_symbols.specs.Verdicts.{IsValidatedAfter, IsOnlyValidatedAfter, OfItsFile};
ghost use Rattle.elf_table_symbols.specs.Sections.{sections_of};
ghost use Rattle.elf_table_hash.specs.HashView.{words_left, hash_of_section};
ghost use Rattle.elf_table_hash.specs.HashRules.{hash_table_front, hash_table_rules};
ghost use Rattle.elf_table_hash.specs.HashTable.{nbucket as nbucket_of, nchain as nchain_of, HasSymbolNamed, IsProbed, Valid, chain};
ghost use Rattle.elf_table_hash.specs.HashTable.{IsEndingChain, IsFirstNamed, hash_in};

use crate::hash_building::elf_hash;
use crate::hash_parts::HashParts;
use crate::hash_rules::validate_hash_table;
use crate::hash_words::{HashWords, SymbolNames};
use crate::name_hashes::NameHashes;
use elf_field::Order;
use elf_image_stream::Fault;
use elf_image_type::Image;
use elf_table_symbols::{LinkedTable, SectionsOf, SymbolVerdicts, TableSection};
use std::alloc::Global;
use std::marker::Model;

/// A hash table, which leads from a name to a symbol of the symbol table that it links to: its words, and the names of the
/// symbols. It borrows from the bytes of the file.
#[derive(Drop)]
pub struct Hash<'a> {
    words: HashWords<'a>,
    names: SymbolNames<'a>,
}

impl<'a> Model for Hash<'a> {
    ghost use Rattle.elf_table_hash.specs.HashTable.{Valid};
    ghost use Rattle.elf_table_hash.specs.HashTable.{HashValue};

    ghost Value = { HashValue };

    ghost view = { λ a. record { words = a.words; names = a.names } };

    ghost invariant = { λ a. Valid a.words a.names };
}

impl<'a> Hash<'a> {
    /// The hash table that section `i` holds, where `i` is below the image's count of section headers. It takes memory for
    /// each symbol while it tests the chains, and for each place where a name of more than 64 bytes begins.
    ///
    /// [`Fault::Rule`] is the first rule that is broken, at its lowest offset: 40, 42, 43, 44, then all rules of the symbol table that the
    /// section links to, then 65 to 69. [`Fault::OutOfMemory`] comes only if an allocation fails, and no rule from 40 to 67 is broken.
    /// No other fault comes.
    ///
    /// It takes a pass over the section headers, the symbols and the words, and log n steps at most to find a symbol on a chain. Each name
    /// is hashed, but one of more than 64 bytes once for each place where it begins, and none if there is one bucket. So the time is n
    /// log n, unless many symbols have tails of one long name: then it is the sum of their lengths. The whole symbol table is validated
    /// too. `Tables` of `elf_table` validates each symbol table of an image once, and hashes long names once for all of its hash tables.
    pub fn new(alloc: Global, image: &Image<'a>, i: usize) -> Result<Hash<'a>, Fault>
        requires { i < length image.now.sections }
        ensures validated { let f = sections_of image.now in
            IsValidatedAfter (hash_table_front f i) (hash_table_rules f i) (λ hash. hash ≡ hash_of_section f i) result }
        ensures file { OfItsFile image.now
            (λ f. IsOnlyValidatedAfter (hash_table_front f i) (hash_table_rules f i) (λ hash. hash ≡ hash_of_section f i) result) }
    {
        image.prove_stands();
        let table = TableSection {
            sections: SectionsOf::Image(image),
            index: i,
        };
        let mut hashes = NameHashes::new(alloc, image);
        validate_hash_table(alloc, table, SymbolVerdicts::Unknown, &mut hashes)?;
        Ok(sound_hash(image, i))
    }

    /// How many buckets there are: word 0.
    pub fn nbucket(&self) -> u32
        ensures { result ≡ nbucket_of self.now.words }
    {
        self.words.nbucket()
    }

    /// How many chain words there are, one for each symbol: word 1.
    pub fn nchain(&self) -> u32
        ensures { result ≡ nchain_of self.now.words }
    {
        self.words.nchain()
    }

    /// How many words there are, `nbucket` and `nchain` among them.
    pub fn len(&self) -> usize
        ensures { result ≡ length self.now.words }
    {
        self.words.len()
    }

    /// Word `j`, which is below [`len`](Hash::len): `nbucket`, `nchain`, then the word of each bucket, then that of each symbol.
    pub fn entry(&self, j: usize) -> u32
        requires { j < length self.now.words }
        ensures { result ≡ get_or self.now.words j 0 }
    {
        self.words.get(j)
    }

    /// The words in order.
    pub fn iter(&self) -> HashIter<'_, 'a>
        ensures { words_left result ≡ self.now.words }
    {
        HashIter {
            hash: self,
            next: 0,
        }
    }

    /// The first symbol of this name on the chain of the name's bucket: some symbol exactly if a symbol from 1 on has the
    /// name. It takes no memory, and as many comparisons of names as [`probe`](Hash::probe) counts symbols.
    pub fn find(&self, name: &[u8]) -> Option<u32>
        ensures found { (steps : ℕ) × IsProbed self.now name.now result steps }
        ensures some { IsSome result ↔ HasSymbolNamed self.now name.now }
    {
        self.probe(name).0
    }

    /// What [`find`](Hash::find) returns, and how many symbols of the chain were looked at: the position of the symbol found,
    /// counted from 1, or else the length of the chain. There are fewer of them than symbols. It takes no memory.
    pub fn probe(&self, name: &[u8]) -> (Option<u32>, u32)
        ensures found { IsProbed self.now name.now result.0 result.1 }
        ensures some { IsSome result.0 ↔ HasSymbolNamed self.now name.now }
        ensures few { result.1 < nchain_of self.now.words }
    {
        probe_in(&self.words, &self.names, name)
    }
}

/// The hash table in section `i`, which breaks no rule.
pub fn sound_hash<'a>(image: &Image<'a>, i: usize) -> Hash<'a>
    requires there { i < length image.now.sections }
    requires sound { FirstIn (hash_table_rules (sections_of image.now) i) None }
    ensures { result ≡ hash_of_section (sections_of image.now) i }
{
    let table = TableSection {
        sections: SectionsOf::Image(image),
        index: i,
    };
    let parts = HashParts::new(LinkedTable { table });
    Hash {
        words: parts.words,
        names: parts.names,
    }
}

impl<'s, 'a> IntoIterator for &'s Hash<'a> {
    type Item = u32;

    type IntoIter = HashIter<'s, 'a>;

    ghost into_iter_gives = { λ table r. words_left r ≡ table.now.words };

    fn into_iter(self) -> HashIter<'s, 'a> {
        self.iter()
    }
}

/// The words of a hash table, in order.
#[derive(Drop)]
pub struct HashIter<'s, 'a> {
    hash: &'s Hash<'a>,
    next: usize,
}

impl<'s, 'a> Iterator for HashIter<'s, 'a> {
    ghost use Rattle.std.specs.Iterator.{YieldsFirst, item_count};
    ghost use Rattle.elf_table_hash.specs.HashView.{words_left};

    type Item = u32;

    ghost next_gives = { YieldsFirst words_left };

    ghost remaining = { item_count words_left };

    fn next(&mut self) -> Option<u32> {
        if self.next >= self.hash.len() {
            return None;
        }
        let word = self.hash.entry(self.next);
        self.next += 1;
        Some(word)
    }
}

// Looking up a name in words that may be any (gABI chapter 5, Hash Table).

/// What [`Hash::find`](crate::Hash::find) returns, of a hash table with this content, whose symbol table and string table have these: the
/// first symbol of this name on the chain of the name's bucket. Of contents that break a rule it returns some symbol or none. It takes no
/// memory, and no more steps than there are symbols.
pub fn find_in(
    order: Order,
    table: &[u8],
    symbols: &[u8],
    strings: &[u8],
    name: &[u8],
) -> Option<u32>
    ensures found { let hash = hash_in order table.now symbols.now strings.now in
        Valid hash.words hash.names → (steps : ℕ) × IsProbed hash name.now result steps }
    ensures some { let hash = hash_in order table.now symbols.now strings.now in
        Valid hash.words hash.names → (IsSome result ↔ HasSymbolNamed hash name.now) }
{
    let words = HashWords::new(order, table);
    let names = SymbolNames::new(order, symbols, strings);
    probe_in(&words, &names, name).0
}

/// The first symbol of this name on the chain of the name's bucket, with its position there, counted from 1, or else the length of the
/// chain.
pub(crate) fn probe_in(
    words: &HashWords<'_>,
    names: &SymbolNames<'_>,
    name: &[u8],
) -> (Option<u32>, u32)
    ensures found { Valid words.now names.now →
        IsProbed (record { words = words.now; names = names.now }) name.now result.0 result.1 }
    ensures few { Valid words.now names.now → result.1 < nchain_of words.now }
{
    let nbucket = words.word_or_zero(0);
    // A table that breaks a rule may report more symbols than there are.
    if nbucket == 0 || words.word_or_zero(1) as usize != names.len() {
        return (None, 0);
    }
    let start = words.word_or_zero(2 + (elf_hash(name) % nbucket) as usize);
    first_named(words, names, name, start)
}

// The first symbol of this name on the chain of `start`, with its position, or the length of the chain.
fn first_named(
    words: &HashWords<'_>,
    names: &SymbolNames<'_>,
    name: &[u8],
    start: u32,
) -> (Option<u32>, u32)
    ensures found { IsEndingChain words.now names.now start →
        IsFirstNamed (chain words.now) names.now name.now start result.0 result.1 }
    ensures few { IsEndingChain words.now names.now start → result.1 < nchain_of words.now }
{
    let mut s = start;
    // A chain has fewer symbols than there are.
    for steps in 0..words.word_or_zero(1) {
        if s == 0 {
            return (None, steps);
        }
        if names.has(s, name) {
            return (Some(s), steps + 1);
        }
        s = words.chain_or_zero(s);
    }
    (None, 0)
}
