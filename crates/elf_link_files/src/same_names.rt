//! Which sections, or symbols, of the files of a link have the same name.
ghost use Rattle.std.specs.Prelude.{◌≡◌, ◌<◌, ◌≤◌, ◌++◌, IfOk, get_or, length};
ghost use Rattle.std.specs.List.{All};
ghost use Rattle.elf_link_files.specs.Files.{object_at};
ghost use Rattle.elf_link_files.specs.SameNames.{AreInFile, IsNamedIn, site_name, site_names, names_of_object};
ghost use Rattle.elf_object_strings.specs.StringTable.{AreEqualTo, AreTails, texts};

use crate::file_names::FileNames;
use crate::site::Site;
use elf_object_type::{Object, section_ends, symbol_ends};
use std::alloc::{AllocError, Global};

/// What has a name: a section, or a symbol.
#[derive(Clone, Copy)]
pub enum Named {
    /// A section, by its header.
    Section,
    /// A symbol.
    Symbol,
}

/// The name of a section or symbol.
fn name_of<'a>(objects: &[Object<'a>], named: Named, site: Site) -> &'a [u8]
    requires { IsNamedIn objects.now named site }
    ensures { result.now ≡ site_name objects.now named site }
{
    let object = &objects[site.file];
    match named {
        Named::Section => object.sections()[site.index].name,
        Named::Symbol => object.symbols()[site.index].name,
    }
}

/// Where the names of an object's sections, or symbols, end in the string table that they were read from, as far as that is known.
fn ends_of<'o>(object: &'o Object<'_>, named: Named) -> &'o [u32]
    ensures { AreTails (names_of_object object.now named) result.now }
{
    match named {
        Named::Section => section_ends(object),
        Named::Symbol => symbol_ends(object),
    }
}

/// The end of the name at this index; 0 if it is not known.
fn end_at(ends: &[u32], index: usize) -> u32
    ensures { result ≡ get_or ends.now index 0 }
{
    if index < ends.len() { ends[index] } else { 0 }
}

/// Where the sites of the file of the first one end, from a position on.
fn end_of_file(sites: &[Site], start: usize) -> usize
    requires { start < length sites.now }
    ensures more { start < result }
    ensures within { result ≤ length sites.now }
    ensures file { AreInFile sites.now start result }
{
    let mut end = start + 1;
    while end < sites.len() && sites[end].file == sites[start].file {
        end += 1;
    }
    end
}

/// The names of these sections or symbols of one file, with their ends, added to those of the files before.
fn with_names_of_file<'a>(
    alloc: Global,
    objects: &[Object<'a>],
    named: Named,
    sites: &[Site],
    before: FileNames<'a>,
) -> Result<FileNames<'a>, AllocError>
    requires some { 0 < length sites.now }
    requires file { AreInFile sites.now 0 (length sites.now) }
    requires there { All (IsNamedIn objects.now named) sites.now }
    ensures { IfOk result (λ more. more ≡ before.entry ++ site_names objects.now named sites.now) }
{
    let ends = ends_of(&objects[sites[0].file], named);
    let mut own = Vec::with_capacity(alloc, sites.len())?;
    let mut own_ends = Vec::with_capacity(alloc, sites.len())?;
    for k in 0..sites.len() {
        own.push(name_of(objects, named, sites[k]))?;
        own_ends.push(end_at(ends, sites[k].index))?;
    }
    before.with_file(&own, &own_ends)
}

/// For each of these sections or symbols the position among them of the first one that has the same name. They are in the order of their
/// files. Takes n log n comparisons, and reads no byte again for each of the names that share it. Fails only when out of memory.
pub fn first_of_names(
    alloc: Global,
    objects: &[Object<'_>],
    named: Named,
    sites: &[Site],
) -> Result<Vec<usize>, AllocError>
    requires { All (IsNamedIn objects.now named) sites.now }
    ensures { IfOk result (λ firsts. AreEqualTo (site_names objects.now named sites.now) firsts.items) }
{
    let mut names = FileNames::new(alloc, objects.len());
    let mut start = 0;
    while start < sites.len() {
        let end = end_of_file(sites, start);
        names = with_names_of_file(alloc, objects, named, &sites[start..end], names)?;
        start = end;
    }
    names.first_equals(alloc)
}
