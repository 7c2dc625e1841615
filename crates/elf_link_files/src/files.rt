//! The sections and symbols of the files, by position.
ghost use Rattle.std.specs.Prelude.{◌≡◌, ◌<◌, length};
ghost use Rattle.elf_link_files.specs.Files.{object_at, section_in, IsSymbolIn, symbol_with};
ghost use Rattle.elf_object_type.specs.Object.{section_at as section};
ghost use Rattle.elf_object_type.specs.ObjectRules.{IsObject};
ghost use Rattle.elf_object_type.specs.ObjectView.{section_value, symbol_value};

use crate::inputs::SymbolId;
use elf_object_type::{Object, Section, Symbol};

/// Promises that a file breaks none of the object rules. It does nothing.
pub fn prove_rules(objects: &[Object<'_>], file: usize)
    requires { file < length objects.now }
    ensures { IsObject (object_at objects.now file) }
{
    objects[file].prove_rules();
}

/// How many sections a file has.
pub fn section_count(object: &Object<'_>) -> usize
    ensures { result ≡ length object.now.sections }
{
    object.sections().len()
}

/// How many symbols a file has.
pub fn symbol_count(object: &Object<'_>) -> usize
    ensures { result ≡ length object.now.symbols }
{
    object.symbols().len()
}

/// The section at position `index` of an object. There has to be one.
pub(crate) fn section_at<'o, 'a>(object: &'o Object<'a>, index: usize) -> &'o Section<'a>
    requires { index < length object.now.sections }
    ensures { section_value result.now ≡ section object.now index }
{
    &object.sections()[index]
}

/// The section at position `index` of a file. There has to be one.
pub fn section_of<'o, 'a>(objects: &'o [Object<'a>], file: usize, index: usize) -> &'o Section<'a>
    requires file { file < length objects.now }
    requires index { index < length (object_at objects.now file).sections }
    ensures { section_value result.now ≡ section_in objects.now file index }
{
    section_at(&objects[file], index)
}

/// A symbol of a file. There has to be one.
pub fn symbol_of<'a>(objects: &[Object<'a>], id: SymbolId) -> Symbol<'a>
    requires { IsSymbolIn objects.now id }
    ensures { symbol_value result ≡ symbol_with objects.now id }
{
    objects[id.file].symbols()[id.index]
}
