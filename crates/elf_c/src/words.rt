//! The words of section groups, index tables and hash tables (gABI chapter 4, Section Groups, Sections: `SHT_SYMTAB_SHNDX`; chapter 5,
//! Hash Table).
ghost use Rattle.std.specs.Prelude.{◌≡◌, ◌<◌, ◌↔◌, ℕ, IsTrue, get_or, length};
ghost use Rattle.std.specs.Bool.{OnFalse, OnTrue};
ghost use Rattle.elf_table_lists.specs.Groups.{group_of};
ghost use Rattle.elf_table_symbols.specs.Sections.{sections_in};
ghost use Rattle.elf_table_symbols.specs.declared.table_section.TableKind.TheVariants.{SectionGroup};
ghost use Rattle.elf_c.specs.Tables.{IsTableOf, words_of};
ghost use Rattle.elf_c.specs.Words.{AreWordsOf, HasWord, ReadsWord, words_of_group, word_read};

use crate::places::{bytes_of, order_of};
use crate::records::holds_words;
use crate::shapes::{Table, put};
use elf_field::abi::WORD_SIZE;
use elf_table_symbols::word;

/// Word `index` of a section group, an index table or a hash table; false if there is none of this index, and for a table of another kind.
/// Word 0 of a group has its flags, and each other one is the index of a member.
#[unsafe(no_mangle)]
pub extern "C" fn elfmap_word(table: &Table, bytes: &[u8], index: u64, word: &mut u32) -> bool
    ensures there { (i : ℕ) → AreWordsOf table.now bytes.now i →
        IsTrue result ↔ (index < length (words_of (sections_in bytes.now) i)) }
    ensures value { (i : ℕ) → AreWordsOf table.now bytes.now i →
        OnTrue result (word.new ≡ get_or (words_of (sections_in bytes.now) i) index 0) }
    ensures group { (i : ℕ) → IsTableOf SectionGroup table.now bytes.now i →
        words_of (sections_in bytes.now) i ≡ words_of_group (group_of (sections_in bytes.now) i) }
    ensures lies { IsTrue result ↔ HasWord table.now bytes.now index }
    ensures read { OnTrue result (word.new ≡ word_read table.now bytes.now index) }
    ensures unchanged { OnFalse result (word.new ≡ word.old) }
{
    put(word_of(table, bytes, index), word)
}

/// Word `index` of a section group, an index table or a hash table; None if there is none of this index, and for a table of another kind.
pub fn word_of(table: &Table, bytes: &[u8], index: u64) -> Option<u32>
    ensures { ReadsWord table.now bytes.now index result }
{
    let content = bytes_of(bytes, table.content);
    if !holds_words(table.sh_type) || index >= content.len() as u64 / WORD_SIZE {
        return None;
    }
    let order = order_of(table.ei_data);
    Some(word(order, content, index as usize))
}
