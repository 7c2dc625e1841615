//! Names of the files of a link, which may share bytes (gABI chapter 4, String Table).
ghost use Rattle.std.specs.Prelude.{◌≡◌, ◌<◌, ◌≤◌, ◌++◌, [], IfOk, OnOk, length, map};
ghost use Rattle.elf_link_files.specs.FileNames.{numbered_end};
ghost use Rattle.elf_object_strings.specs.StringTable.{AreEqualTo, AreTails, texts};

use elf_object_strings::first_equals;
use std::alloc::{AllocError, Global};
use std::marker::Model;

/// Names of the first files of a link. To a contract it is the list of them.
#[derive(Drop)]
pub struct FileNames<'a> {
    names: Vec<&'a [u8]>,
    // A number for the file of each name and where it ended in a string table there; 0 if it is not known or too large. Of two names with
    // one number the longer one ends with the other.
    ends: Vec<u32>,
    files: usize,
    count: usize,
}

impl<'a> Model for FileNames<'a> {
    ghost use Rattle.std.specs.Prelude.{ℕ, List};

    ghost Value = { List (List ℕ) };

    ghost use Rattle.elf_link_files.specs.FileNames.{AreFileNames, file_names_value};

    ghost view = { file_names_value };

    ghost invariant = { AreFileNames };
}

impl<'a> FileNames<'a> {
    /// No names, of none of so many files.
    pub fn new(alloc: Global, count: usize) -> FileNames<'a>
        ensures { result ≡ [] }
    {
        FileNames {
            names: Vec::new(alloc),
            ends: Vec::new(alloc),
            files: 0,
            count,
        }
    }

    /// These names and those of the next file, with where each of them ended in a string table there, or 0 if that is not known. Fails only
    /// when out of memory.
    pub fn with_file(self, names: &[&'a [u8]], ends: &[u32]) -> Result<FileNames<'a>, AllocError>
        requires tails { AreTails (texts names.now) ends.now }
        requires all { length ends.now ≡ length names.now }
        ensures { IfOk result (λ more. more ≡ self.entry ++ texts names.now) }
    {
        let FileNames {
            names: mut all_names,
            ends: mut all_ends,
            files,
            count,
        } = self;
        add_numbers(&mut all_ends, ends, files, count)?;
        all_names.extend_from_slice(names)?;
        Ok(FileNames {
            names: all_names,
            ends: all_ends,
            files: next_file(files, count),
            count,
        })
    }

    /// For each name the index of an equal one, the same for all that are equal: that of the first of them. Takes n log n comparisons, and
    /// reads no byte again for each of the names that share it. Fails only when out of memory.
    pub fn first_equals(&self, alloc: Global) -> Result<Vec<usize>, AllocError>
        ensures { IfOk result (λ firsts. AreEqualTo self.now firsts.items) }
    {
        first_equals(alloc, &self.names, &self.ends)
    }
}

/// The file after this one, of so many files.
fn next_file(file: usize, count: usize) -> usize
    ensures same { file ≤ result }
    ensures next { file < count → file < result }
{
    if file < count { file + 1 } else { file }
}

/// Adds the numbers of ends in a file.
fn add_numbers(
    numbers: &mut Vec<u32>,
    ends: &[u32],
    file: usize,
    count: usize,
) -> Result<(), AllocError>
    ensures { OnOk result (numbers.new.items ≡ numbers.old.items ++ map (numbered_end file count) ends.now) }
{
    for end in ends {
        numbers.push(numbered_end(*end, file, count))?;
    }
    Ok(())
}

/// The number of an end in a file, of so many files: no other end of them has it. 0 if the end is not known, or the number is too large.
fn numbered_end(end: u32, file: usize, count: usize) -> u32
    ensures { result ≡ numbered_end file count end }
{
    if end == 0 || file >= count {
        return 0;
    }
    let number = (end as u64)
        .saturating_mul(count as u64)
        .saturating_add(file as u64);
    u32::try_from(number).unwrap_or(0)
}
