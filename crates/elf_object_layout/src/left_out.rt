//! The sections of a file that an object does not keep, because its layout makes them again (gABI chapter 4, Sections, String Table, Symbol
//! Table).
ghost use Rattle.std.specs.Prelude.{◌≡◌, ◌<◌, IfSome, length};
ghost use Rattle.std.specs.Bool.{OnTrue};
ghost use Rattle.elf_object_layout.specs.SectionsLeftOut.{is_at as is_at_of, is_kept as is_kept_of, left_out};
ghost use Rattle.elf_object_layout.specs.SectionsLeftOut.{symbol_table as symbol_table_of};
ghost use Rattle.elf_table_symbols.specs.Sections.{sections_of};

use elf_field::abi::*;
use elf_image_type::Image;
use elf_table_symbols::index_table;

/// The sections that an object leaves out, beside those without a type, by their indexes: the symbol table with its string
/// table and its index table, and the section name string table (0 for none).
#[derive(Clone, Copy)]
pub struct LeftOut {
    /// The symbol table.
    pub symbol_table: Option<usize>,
    /// The string table of the symbols' names.
    pub strings: Option<usize>,
    /// The index table of the symbol table.
    pub index_table: Option<usize>,
    /// The section name string table, 0 for none.
    pub names: usize,
}

impl LeftOut {
    /// The sections that the object of this image does not keep.
    pub fn of(image: &Image<'_>) -> LeftOut
        ensures { result ≡ left_out (sections_of image.now) }
    {
        let names = image.name_table() as usize;
        match symbol_table(image) {
            Some(t) => LeftOut {
                symbol_table: Some(t),
                strings: Some(image.section(t).sh_link as usize),
                index_table: index_table(image, t),
                names,
            },
            None => LeftOut {
                symbol_table: None,
                strings: None,
                index_table: None,
                names,
            },
        }
    }

    /// Whether the object keeps section `i`; it keeps none that is not there.
    #[tactic(auto, unfolding(crate::specs::SectionsLeftOut::is_kept))]
    pub fn is_kept(&self, image: &Image<'_>, i: usize) -> bool
        ensures value { result ≡ is_kept_of self.now (sections_of image.now) i }
        ensures there { OnTrue result (i < length image.now.sections) }
    {
        if i >= image.section_count() {
            return false;
        }
        !(image.section(i).sh_type == SHT_NULL
            || (i == 0
                || (is_at(self.symbol_table, i)
                    || (is_at(self.strings, i)
                        || (is_at(self.index_table, i) || self.names == i)))))
    }
}

/// Whether a section that may be missing is section `i`.
fn is_at(section: Option<usize>, i: usize) -> bool
    ensures { result ≡ is_at_of section i }
{
    match section {
        Some(k) => k == i,
        None => false,
    }
}

/// The symbol table: the first section of that type.
pub fn symbol_table(image: &Image<'_>) -> Option<usize>
    ensures found { result ≡ symbol_table_of (sections_of image.now) }
    ensures there { IfSome result (λ t. t < length image.now.sections) }
{
    for i in 0..image.section_count() {
        if image.section(i).sh_type == SHT_SYMTAB {
            return Some(i);
        }
    }
    None
}
