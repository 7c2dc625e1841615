//! The files of a link, with the sections of them that it discards.
ghost use Rattle.std.specs.Prelude.{◌≡◌, ◌↔◌, ◌<◌, IfOk, IsTrue, length, map};
ghost use Rattle.elf_link_files.specs.Files.{IsSectionIn, IsSymbolIn, AreDiscardMarks, Discarded, object_at};

use crate::discarded::discarded;
use elf_object_type::Object;
use std::alloc::{AllocError, Global};
use std::marker::Model;

// The sections and symbols of the files of a link, by file and position.

/// A section of a file. It may be none: a function that reads it asks for one that is there.
#[derive(Clone, Copy)]
pub struct SectionId {
    /// The file's position among the objects, from 0.
    pub file: usize,
    /// The section's position in the file, from 0.
    pub index: usize,
}

/// A symbol of a file. It may be none: a function that reads it asks for one that is there.
#[derive(Clone, Copy)]
pub struct SymbolId {
    /// The file's position among the objects, from 0.
    pub file: usize,
    /// The symbol's position in the file, from 0.
    pub index: usize,
}

// A section of the files of a link.

/// A section of the files of a link, which is there: [`Inputs::section`] makes it.
#[derive(Drop)]
pub struct InputSection<'i, 'l, 'a> {
    /// The files.
    pub inputs: &'i Inputs<'l, 'a>,
    /// Where it is in them.
    pub id: SectionId,
    ghost there: { IsSectionIn inputs.now id },
}

// A symbol of the files of a link.

/// A symbol of the files of a link, which is there: [`Inputs::symbol`] makes it.
#[derive(Drop)]
pub struct InputSymbol<'i, 'l, 'a> {
    /// The files.
    pub inputs: &'i Inputs<'l, 'a>,
    /// Where it is in them.
    pub id: SymbolId,
    ghost there: { IsSymbolIn inputs.now id },
}

/// The files of a link, with a mark for each section: whether it is discarded. To a contract it is the files.
#[derive(Drop)]
pub struct Inputs<'l, 'a> {
    objects: &'l [Object<'a>],
    marks: Vec<Vec<bool>>,
}

impl<'l, 'a> Model for Inputs<'l, 'a> {
    ghost use Rattle.std.specs.Prelude.{List};
    ghost use Rattle.elf_object_type.specs.Object.{ObjectValue};

    ghost Value = { List ObjectValue };

    ghost use Rattle.elf_link_files.specs.Files.{AreMarked, objects_of};

    ghost view = { objects_of };

    ghost invariant = { AreMarked };
}

impl<'l, 'a> Inputs<'l, 'a> {
    /// These files. It takes n log n comparisons of the signatures of COMDAT groups.
    ///
    /// Fails only when out of memory.
    pub fn new(alloc: Global, objects: &'l [Object<'a>]) -> Result<Inputs<'l, 'a>, AllocError>
        ensures { IfOk result (λ inputs. inputs ≡ objects.entry.now) }
    {
        let marks = discarded(alloc, objects)?;
        Ok(Inputs { objects, marks })
    }

    /// The files.
    pub fn objects(&self) -> &'l [Object<'a>]
        ensures { result.now ≡ self.now }
    {
        self.objects
    }

    /// A mark for each section of each file, whether it is discarded.
    pub fn into_marks(self) -> Vec<Vec<bool>>
        ensures { AreDiscardMarks self.entry (map (λ row. row.items) result.items) }
    {
        self.marks
    }

    /// How many files there are.
    pub fn file_count(&self) -> usize
        ensures { result ≡ length self.now }
    {
        self.objects.len()
    }

    /// A file.
    pub fn object(&self, file: usize) -> &'l Object<'a>
        requires { file < length self.now }
        ensures { result.now ≡ object_at self.now file }
    {
        let objects = self.objects;
        &objects[file]
    }

    /// A section of a file.
    pub fn section(&self, id: SectionId) -> InputSection<'_, 'l, 'a>
        requires { IsSectionIn self.now id }
        ensures inputs { result.inputs.now ≡ self.now }
        ensures id { result.id ≡ id }
    {
        InputSection { inputs: self, id }
    }

    /// A symbol of a file.
    pub fn symbol(&self, id: SymbolId) -> InputSymbol<'_, 'l, 'a>
        requires { IsSymbolIn self.now id }
        ensures inputs { result.inputs.now ≡ self.now }
        ensures id { result.id ≡ id }
    {
        InputSymbol { inputs: self, id }
    }

    /// Whether a section is discarded: it is a member of a COMDAT group, and an earlier one has the same signature.
    pub fn is_discarded(&self, id: SectionId) -> bool
        requires { IsSectionIn self.now id }
        ensures { IsTrue result ↔ Discarded self.now id.file id.index }
    {
        self.marks[id.file][id.index]
    }
}
