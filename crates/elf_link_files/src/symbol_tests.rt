//! What a symbol is to the link (gABI chapter 4, Symbol Table).
ghost use Rattle.std.specs.Prelude.{◌≡◌, ◌↔◌, IsTrue};
ghost use Rattle.elf_link_files.specs.FileRules.{IsBadCommon, IsBadSymbol, IsNoPower};
ghost use Rattle.elf_link_files.specs.Files.{object_at, symbol_with, IsCommon, IsDefinedAt, IsDefinition, IsEntry, IsNotWeak, IsPlaceIn};
ghost use Rattle.elf_link_files.specs.Files.{IsUndefinedAt, is_common as is_common_of};
ghost use Rattle.elf_object_type.specs.ObjectView.{symbol_value};

use crate::files::symbol_of;
use crate::inputs::{InputSymbol, SectionId};
use elf_field::abi::*;
use elf_image_rules::is_wrong_alignment;
use elf_object_type::{Place, Symbol};

/// Whether a place is a common block.
fn is_common(place: Place) -> bool
    ensures { result ≡ is_common_of place }
{
    matches!(place, Place::Common)
}

/// Whether a number is no power of two.
pub fn is_no_power(number: u64) -> bool
    ensures { IsTrue result ↔ IsNoPower number }
{
    number == 0 || is_wrong_alignment(number)
}

impl<'i, 'l, 'a> InputSymbol<'i, 'l, 'a> {
    /// What its file says of it.
    pub fn symbol(&self) -> Symbol<'a>
        ensures { symbol_value result ≡ symbol_with self.now.inputs.now self.now.id }
    {
        symbol_of(self.inputs.objects(), self.id)
    }

    /// Rule 6: whether it has a binding above weak, the type of thread-local storage, or no name though it is not local.
    pub(crate) fn is_bad(&self) -> bool
        ensures { IsTrue result ↔ IsBadSymbol (symbol_with self.now.inputs.now self.now.id) }
    {
        let symbol = self.symbol();
        let bound = symbol.binding();
        bound > STB_WEAK
            || symbol.symbol_type() == STT_TLS
            || (bound != STB_LOCAL && symbol.name.is_empty())
    }

    /// Rule 7: whether it is a common that is not global, or whose alignment is no power of two.
    pub(crate) fn is_bad_common(&self) -> bool
        ensures { IsTrue result ↔ IsBadCommon (symbol_with self.now.inputs.now self.now.id) }
    {
        let symbol = self.symbol();
        is_common(symbol.place) && (symbol.binding() != STB_GLOBAL || is_no_power(symbol.value))
    }

    /// Whether it is an entry of its name: not local.
    pub(crate) fn is_entry(&self) -> bool
        ensures { IsTrue result ↔
            IsEntry self.now.inputs.now (symbol_with self.now.inputs.now self.now.id).name self.now.id.file self.now.id.index }
    {
        self.symbol().binding() != STB_LOCAL
    }

    /// Whether it is a common of its name.
    pub fn is_common(&self) -> bool
        ensures { IsTrue result ↔
            IsCommon self.now.inputs.now (symbol_with self.now.inputs.now self.now.id).name self.now.id.file self.now.id.index }
    {
        self.is_entry() && is_common(self.symbol().place)
    }

    /// Whether it is an entry of its name that is not weak.
    pub fn is_not_weak(&self) -> bool
        ensures { IsTrue result ↔
            IsNotWeak self.now.inputs.now (symbol_with self.now.inputs.now self.now.id).name self.now.id.file self.now.id.index }
    {
        self.is_entry() && self.symbol().binding() != STB_WEAK
    }

    /// The symbol's place: where that is in a section, it is one of its file.
    fn place(&self) -> Place
        ensures place { result ≡ (symbol_with self.now.inputs.now self.now.id).place }
        ensures there { IsPlaceIn (object_at self.now.inputs.now self.now.id.file) result }
    {
        self.inputs.object(self.id.file).prove_rules();
        self.symbol().place
    }

    /// Whether a place in its file is a definition: absolute, or in a section that is not discarded.
    fn is_defined_at(&self, place: Place) -> bool
        requires { IsPlaceIn (object_at self.now.inputs.now self.now.id.file) place }
        ensures { IsTrue result ↔ IsDefinedAt self.now.inputs.now self.now.id.file place }
    {
        let file = self.id.file;
        match place {
            Place::Undef | Place::Common => false,
            Place::Abs => true,
            Place::In(index) => !self.inputs.is_discarded(SectionId { file, index }),
        }
    }

    /// Whether a place in its file counts as undefined: nowhere, or in a section that is discarded.
    fn is_undefined_at(&self, place: Place) -> bool
        requires { IsPlaceIn (object_at self.now.inputs.now self.now.id.file) place }
        ensures { IsTrue result ↔ IsUndefinedAt self.now.inputs.now self.now.id.file place }
    {
        let file = self.id.file;
        match place {
            Place::Abs | Place::Common => false,
            Place::Undef => true,
            Place::In(index) => self.inputs.is_discarded(SectionId { file, index }),
        }
    }

    /// Whether it is a definition of its name, of this binding.
    pub fn is_definition(&self, bound: u8) -> bool
        ensures { IsTrue result ↔
            IsDefinition bound self.now.inputs.now (symbol_with self.now.inputs.now self.now.id).name self.now.id.file self.now.id.index }
    {
        self.symbol().binding() == bound && self.is_defined_at(self.place())
    }

    /// Whether it counts as undefined.
    pub fn is_undefined(&self) -> bool
        ensures { IsTrue result ↔ IsUndefinedAt self.now.inputs.now self.now.id.file (symbol_with self.now.inputs.now self.now.id).place }
    {
        self.is_undefined_at(self.place())
    }
}
