//! Many entries at once, in a buffer of the caller.
ghost use Rattle.std.specs.Prelude.{ℕ};
ghost use Rattle.elf_table_lists.specs.Groups.{group_of};
ghost use Rattle.elf_table_symbols.specs.Sections.{sections_in};
ghost use Rattle.elf_table_symbols.specs.declared.table_section.TableKind.TheVariants.{DynamicArray, RelocationTable, SectionGroup};
ghost use Rattle.elf_table_symbols.specs.declared.table_section.TableKind.TheVariants.{SymbolTable};
ghost use Rattle.elf_c.specs.Bulk.{IsFilled};
ghost use Rattle.elf_c.specs.Files.{IsFileOf, ListsSection, ReadsSection};
ghost use Rattle.elf_c.specs.Tables.{IsTableOf, ListsDynamic, ListsRelocation, ListsSymbol, ReadsDynamic, ReadsRelocation, ReadsSymbol};
ghost use Rattle.elf_c.specs.Tables.{words_of};
ghost use Rattle.elf_c.specs.Words.{AreWordsOf, ListsWord, ReadsWord, words_of_group};

use crate::entries::{dynamic_of, relocation_of, symbol_of};
use crate::file::section_in;
use crate::shapes::{DynamicEntry, File, Relocation, Section, Symbol, Table};
use crate::words::word_of;

/// Puts the section headers from `first` on into the buffer, as many as lie in the file and fit. Returns how many these are.
#[unsafe(no_mangle)]
pub extern "C" fn elfmap_sections(
    file: &File,
    bytes: &[u8],
    first: u64,
    buffer: &mut [Section],
) -> u64
    ensures read { IsFilled (ReadsSection file.now bytes.now) first buffer.old buffer.new result }
    ensures listed { IsFileOf file.now bytes.now → IsFilled (ListsSection bytes.now) first buffer.old buffer.new result }
{
    fill(buffer, first, |index| section_in(file, bytes, index))
}

/// Puts the symbols of a symbol table from `first` on into the buffer, up to the first that is not there, and as many as fit. Returns how
/// many these are.
#[unsafe(no_mangle)]
pub extern "C" fn elfmap_symbols(
    table: &Table,
    bytes: &[u8],
    first: u64,
    buffer: &mut [Symbol],
) -> u64
    ensures read { IsFilled (ReadsSymbol table.now bytes.now) first buffer.old buffer.new result }
    ensures listed { (i : ℕ) → IsTableOf SymbolTable table.now bytes.now i →
        IsFilled (ListsSymbol bytes.now i) first buffer.old buffer.new result }
{
    fill(buffer, first, |index| symbol_of(table, bytes, index))
}

/// Puts the relocations of a relocation section from `first` on into the buffer, as many as there are and fit. Returns how many these are.
#[unsafe(no_mangle)]
pub extern "C" fn elfmap_relocations(
    table: &Table,
    bytes: &[u8],
    first: u64,
    buffer: &mut [Relocation],
) -> u64
    ensures read { IsFilled (ReadsRelocation table.now bytes.now) first buffer.old buffer.new result }
    ensures listed { (i : ℕ) → IsTableOf RelocationTable table.now bytes.now i →
        IsFilled (ListsRelocation bytes.now i) first buffer.old buffer.new result }
{
    fill(buffer, first, |index| relocation_of(table, bytes, index))
}

/// Puts the entries of a dynamic array from `first` on into the buffer, as many as are before the first of tag `DT_NULL` and fit. Returns
/// how many these are.
#[unsafe(no_mangle)]
pub extern "C" fn elfmap_dynamics(
    table: &Table,
    bytes: &[u8],
    first: u64,
    buffer: &mut [DynamicEntry],
) -> u64
    ensures read { IsFilled (ReadsDynamic table.now bytes.now) first buffer.old buffer.new result }
    ensures listed { (i : ℕ) → IsTableOf DynamicArray table.now bytes.now i →
        IsFilled (ListsDynamic bytes.now i) first buffer.old buffer.new result }
{
    fill(buffer, first, |index| dynamic_of(table, bytes, index))
}

/// Puts the words of a section group, an index table or a hash table from `first` on into the buffer, as many as there are and fit. Returns
/// how many these are.
#[unsafe(no_mangle)]
pub extern "C" fn elfmap_words(table: &Table, bytes: &[u8], first: u64, buffer: &mut [u32]) -> u64
    ensures read { IsFilled (ReadsWord table.now bytes.now) first buffer.old buffer.new result }
    ensures listed { (i : ℕ) → AreWordsOf table.now bytes.now i →
        IsFilled (ListsWord (words_of (sections_in bytes.now) i)) first buffer.old buffer.new result }
    ensures group { (i : ℕ) → IsTableOf SectionGroup table.now bytes.now i →
        IsFilled (ListsWord (words_of_group (group_of (sections_in bytes.now) i))) first buffer.old buffer.new result }
{
    fill(buffer, first, |index| word_of(table, bytes, index))
}

/// Puts the entries from `first` on into the buffer, up to the first that is not there, and as many as fit. Returns how many these are.
fn fill<T: Copy, F: Fn(u64) -> Option<T>>(buffer: &mut [T], first: u64, entry: F) -> u64
    requires { F.IsAlwaysCallable entry }
    ensures { IsFilled (F.post entry) first buffer.old buffer.new result }
{
    for k in 0..buffer.len() {
        let Some(index) = first.checked_add(k as u64) else {
            return k as u64;
        };
        let Some(found) = entry(index) else {
            return k as u64;
        };
        buffer[k] = found;
    }
    buffer.len() as u64
}
