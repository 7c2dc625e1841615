//! The tables of an image, each validated once (gABI chapter 4, Sections: sh_type).
//!
//! However many tables link to a symbol table, it is validated once, and its verdict is kept. A group's name and the strings of a dynamic
//! array are in the linked table, which is then known to be sound; so [`Tables`] returns them too. The `new` of `Symbols`, `Strings`,
//! `Relocs`, `Notes` and `Dynamic` takes no memory; that of `Group` and `Hash` does.
ghost use Rattle.std.specs.Prelude.{◌≡◌, ◌<◌, None, IfOk, get_or, length};
ghost use Rattle.elf_image_rules.specs.Rows.{fault_of, FirstIn, HaveOneFault};
ghost use Rattle.elf_image_outline.specs.Image.{OfItsBytes};
ghost use Rattle.elf_table_symbols.specs.Sections.{sections_in, sections_of};
ghost use Rattle.elf_table_symbols.specs.Verdicts.{OfItsFile};
ghost use Rattle.elf_table_symbols.specs.Symbols.{symbols_of};
ghost use Rattle.elf_table_hash.specs.HashView.{hash_of_section};
ghost use Rattle.elf_table_lists.specs.Dynamic.{dynamic_array_of};
ghost use Rattle.elf_table_lists.specs.Groups.{group_of};
ghost use Rattle.elf_table_lists.specs.Notes.{notes_of};
ghost use Rattle.elf_table_lists.specs.Relocations.{relocations_of};
ghost use Rattle.elf_table_all.specs.Tables.{AreOnlyVerdicts, dynamic_strings, signature_name, table_rules, AreVerdicts, HasSoundTable};
ghost use Rattle.elf_table_symbols.specs.declared.table_section.TableKind.TheVariants as kind;

use crate::verdicts::{AllIndexTables, all_verdicts};
use elf_image_rules::Broken;
use elf_image_type::Image;
use elf_table_hash::{Hash, sound_hash};
use elf_table_lists::{
    Dynamic, Group, Notes, Relocs, section_relocs, sound_dynamic, sound_group, sound_notes,
};
use elf_table_symbols::{Symbols, Verdicts, sound_symbols};
use std::alloc::{AllocError, Global};
use std::marker::Model;

/// The tables of an image, with the verdict on each. Every symbol table is validated once, however many other tables link to it, and
/// the index tables are found in one pass over the section headers. A name of more than 64 bytes is hashed once for each place where one
/// begins, however many hash tables are for its symbols. A string table is validated with the table that links to it, or by
/// [`Strings::new`](crate::Strings::new).
#[derive(Drop)]
pub struct Tables<'i, 'a> {
    image: &'i Image<'a>,
    index_tables: AllIndexTables,
    // For each section.
    verdicts: Verdicts,
}

impl<'i, 'a> Model for Tables<'i, 'a> {
    ghost use Rattle.elf_table_all.specs.Tables.{TablesValue};
    ghost use Rattle.elf_table_all.specs.Tables.{AreVerdictsKept, tables_view};

    ghost Value = { TablesValue };

    ghost view = { tables_view };

    ghost invariant = { AreVerdictsKept };
}

impl<'i, 'a> Tables<'i, 'a> {
    /// The tables of this image, all validated. The error comes only if an allocation fails. They keep an entry for each table that
    /// breaks a rule, and one for each symbol table that has an index table. A section group or a hash table can take memory while it is
    /// tested. Names of over 64 bytes of symbols in hash tables take memory too, until all tables are tested: a few bytes for each place
    /// where such a name begins.
    ///
    /// The time is n log n in the section headers and the entries of all tables, and linear in the file. One case takes more: hash tables
    /// whose symbols have many tails of one long name. Each tail is hashed once, so that this takes the sum of their lengths.
    pub fn new(alloc: Global, image: &'i Image<'a>) -> Result<Tables<'i, 'a>, AllocError>
        ensures image { IfOk result (λ tables. tables.image ≡ image.entry.now) }
        ensures verdicts { IfOk result
            (λ tables. AreVerdicts (sections_of image.entry.now) (length image.entry.now.sections) tables.verdicts) }
        ensures file { IfOk result (λ tables. OfItsBytes image.entry.now (λ b. AreOnlyVerdicts (sections_in b) tables.verdicts)) }
    {
        image.prove_stands();
        let index_tables = AllIndexTables::new(alloc, image)?;
        let verdicts = all_verdicts(alloc, image, &index_tables)?;
        Ok(Tables {
            image,
            index_tables,
            verdicts,
        })
    }

    /// How many section headers the image has.
    pub fn section_count(&self) -> usize
        ensures { result ≡ length self.now.image.sections }
    {
        self.image.section_count()
    }

    /// The verdict on the table that section `i` holds, where `i` is below the image's count of section headers: the first of its
    /// rules that is broken, at its lowest offset. `Ok` where none is, and where the section holds no table.
    pub fn verdict(&self, i: usize) -> Result<(), Broken<u64>>
        requires { i < length self.now.image.sections }
        ensures kept { fault_of result ≡ get_or self.now.verdicts i None }
        ensures fault { FirstIn (table_rules (sections_of self.now.image) i) (fault_of result) }
        ensures file { OfItsFile self.now.image (λ f. HaveOneFault (table_rules f i) × FirstIn (table_rules f i) (fault_of result)) }
    {
        self.image.prove_stands();
        self.verdicts.get(i)
    }

    /// The symbol table that section `i` holds, where `i` is below the image's count of section headers, the section is of the
    /// [kind](crate::TableKind::of) that holds one, and its [`verdict`](Tables::verdict) is `Ok`.
    pub fn symbols(&self, i: usize) -> Symbols<'a>
        requires { HasSoundTable self.now i kind.SymbolTable }
        ensures { result ≡ symbols_of (sections_of self.now.image) i }
    {
        sound_symbols(self.image, i, self.index_tables.of(i))
    }

    /// The relocation section `i`, under the same conditions.
    pub fn relocs(&self, i: usize) -> Relocs<'a>
        requires { HasSoundTable self.now i kind.RelocationTable }
        ensures { result ≡ relocations_of (sections_of self.now.image) i }
    {
        section_relocs(self.image, i)
    }

    /// The group in section `i`, under the same conditions.
    pub fn group(&self, i: usize) -> Group<'a>
        requires { HasSoundTable self.now i kind.SectionGroup }
        ensures { result ≡ group_of (sections_of self.now.image) i }
    {
        sound_group(self.image, i)
    }

    /// The name of the group in section `i`, under the same conditions: its signature's, in the symbol table that it links to.
    pub fn signature_name(&self, i: usize) -> &'a [u8]
        requires { HasSoundTable self.now i kind.SectionGroup }
        ensures { result.now ≡ signature_name (sections_of self.now.image) i }
    {
        let section = self.image.section(i);
        let symbols = self.symbols(section.sh_link as usize);
        symbols.entry(section.sh_info as usize).name
    }

    /// The notes of section `i`, under the same conditions.
    pub fn notes(&self, i: usize) -> Notes<'a>
        requires { HasSoundTable self.now i kind.NoteSection }
        ensures { result ≡ notes_of (sections_of self.now.image) i }
    {
        sound_notes(self.image, i)
    }

    /// The dynamic array in section `i`, under the same conditions.
    pub fn dynamic(&self, i: usize) -> Dynamic<'a>
        requires { HasSoundTable self.now i kind.DynamicArray }
        ensures { result ≡ dynamic_array_of (sections_of self.now.image) i }
    {
        sound_dynamic(self.image, i)
    }

    /// The hash table in section `i`, under the same conditions.
    pub fn hash(&self, i: usize) -> Hash<'a>
        requires { HasSoundTable self.now i kind.HashTable }
        ensures { result ≡ hash_of_section (sections_of self.now.image) i }
    {
        sound_hash(self.image, i)
    }

    /// The string table of the dynamic array in section `i`, under the same conditions: the one that it links to.
    pub fn dynamic_strings(&self, i: usize) -> &'a [u8]
        requires { HasSoundTable self.now i kind.DynamicArray }
        ensures { result.now ≡ dynamic_strings (sections_of self.now.image) i }
    {
        self.image.content(self.image.section(i).sh_link as usize)
    }
}
