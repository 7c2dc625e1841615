//! What holds of the rules of tables themselves, and of tables and the bytes of a file.
ghost use Rattle.std.specs.Prelude.{◌≡◌, ◌+◌, ◌*◌, ◌<◌, ◌≤◌, ℕ, List, None, Option, Some, length, slice_get};
ghost use Rattle.elf_extent.specs.declared.extent.Extent.{Extent};
ghost use Rattle.elf_field.specs.declared.number.Order.{Order};
ghost use Rattle.elf_field.specs.Abi.{DYN_SIZE, RELA_SIZE, REL_SIZE, SYM_SIZE, WORD_SIZE};
ghost use Rattle.elf_field.specs.Entries.{dyn_at, rel_at, rela_at, sym_at, word_at};
ghost use Rattle.elf_image_outline.specs.Image.{ImageValue, IsImage};
ghost use Rattle.elf_image_rules.specs.Rows.{FirstIn};
ghost use Rattle.elf_image_rules.specs.Tables.{bytes_in};
ghost use Rattle.elf_table_symbols.specs.Sections.{Sections, sections_in, sections_of};
ghost use Rattle.elf_table_symbols.specs.Symbols.{string_table_rules, entry, symbol_table_rules, word};
ghost use Rattle.elf_table_lists.specs.Dynamic.{dynamic_entry};
ghost use Rattle.elf_table_lists.specs.Notes.{note_at, note_end, note_offset, notes_in};
ghost use Rattle.elf_table_all.specs.Tables.{AreAlike, table_rules};

/// The rules of a table look at the header, the section headers and the contents of an image; these are the ones that the bytes have for
/// which the image is, edited or as read.
pub fn sections_of_bytes()
    ensures { (v : ImageValue) (b : List ℕ) → IsImage v b → sections_of v ≡ sections_in b }
{}

/// A table has one fault or none: no other rule and offset meets the definition, and it cannot be that no answer does.
pub fn one_table_fault()
    ensures strings { (f : Sections) (i : ℕ) (x y : Option (ℕ × ℕ)) → FirstIn (string_table_rules f i) x →
        FirstIn (string_table_rules f i) y → x ≡ y }
    ensures symbols { (f : Sections) (i : ℕ) (x y : Option (ℕ × ℕ)) → FirstIn (symbol_table_rules f i) x →
        FirstIn (symbol_table_rules f i) y → x ≡ y }
    ensures table { (f : Sections) (i : ℕ) (x y : Option (ℕ × ℕ)) → FirstIn (table_rules f i) x → FirstIn (table_rules f i) y → x ≡ y }
    ensures some_strings { (f : Sections) (i : ℕ) → ((x : Option (ℕ × ℕ)) → FirstIn (string_table_rules f i) x → ⊥) → ⊥ }
    ensures some_table { (f : Sections) (i : ℕ) → ((x : Option (ℕ × ℕ)) → FirstIn (table_rules f i) x → ⊥) → ⊥ }
{}

/// The verdict on a table depends on its own content and on those of the tables that it links to alone, beside the header and the section
/// headers: in two files in which these are equal, the same rule is broken first, at the same offset, or none is.
pub fn contents_looked_at()
    ensures { (f g : Sections) (i : ℕ) (x : Option (ℕ × ℕ)) → AreAlike f g i → FirstIn (table_rules f i) x → FirstIn (table_rules g i) x }
{}

/// Entry j of a content is the record at the content's offset in the file and j times its size: of symbols, of the words of index
/// tables, groups and hash tables, of relocations, and of dynamic arrays. Entry k of a note section is the note at the offset
/// in the content that the rules of notes walk to, if that is in it, and that note is the one at the content's offset in the file
/// and that one.
pub fn entries_in_file()
    ensures symbols { (o : Order) (b : List ℕ) (e : Extent) (j : ℕ) → SYM_SIZE * j + SYM_SIZE ≤ e.len →
        entry o (bytes_in b e) j ≡ sym_at o b (e.start + SYM_SIZE * j) }
    ensures words { (o : Order) (b : List ℕ) (e : Extent) (j : ℕ) → WORD_SIZE * j + WORD_SIZE ≤ e.len →
        word o (bytes_in b e) j ≡ word_at o b (e.start + WORD_SIZE * j) }
    ensures rela { (o : Order) (b : List ℕ) (e : Extent) (j : ℕ) → RELA_SIZE * j + RELA_SIZE ≤ e.len →
        rela_at o (bytes_in b e) (RELA_SIZE * j) ≡ rela_at o b (e.start + RELA_SIZE * j) }
    ensures rel { (o : Order) (b : List ℕ) (e : Extent) (j : ℕ) → REL_SIZE * j + REL_SIZE ≤ e.len →
        rel_at o (bytes_in b e) (REL_SIZE * j) ≡ rel_at o b (e.start + REL_SIZE * j) }
    ensures dynamic { (o : Order) (b : List ℕ) (e : Extent) (j : ℕ) → DYN_SIZE * j + DYN_SIZE ≤ e.len →
        dynamic_entry o (bytes_in b e) j ≡ dyn_at o b (e.start + DYN_SIZE * j) }
    ensures notes { (o : Order) (table : List ℕ) (k : ℕ) → note_offset o table 0 k < length table →
        slice_get (notes_in o table 0) k ≡ Some (note_at o table (note_offset o table 0 k)) }
    ensures no_note { (o : Order) (table : List ℕ) (k : ℕ) → length table ≤ note_offset o table 0 k →
        slice_get (notes_in o table 0) k ≡ None }
    ensures note { (o : Order) (b : List ℕ) (e : Extent) (x : ℕ) → note_end o (bytes_in b e) x ≤ e.len →
        note_at o (bytes_in b e) x ≡ note_at o b (e.start + x) }
{}
