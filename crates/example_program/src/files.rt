//! Files in memory, which the program opens by their names.
ghost use Rattle.std.specs.Prelude.{◌≡◌, None, MatchOption, Some};
ghost use Rattle.example_program.specs.Files.{file_bytes};

use elf_image::Seeking;
use elf_tool::{OpenFault, Opener};
use std::io::Cursor;

/// A file in memory.
#[derive(Drop)]
pub struct NamedFile<'a> {
    /// Its name, as an argument gives it.
    pub name: &'a str,
    /// All of its bytes.
    pub bytes: &'a [u8],
}

/// Three files. Of two with one name the first is opened.
#[derive(Drop)]
pub struct Files<'a> {
    pub first: NamedFile<'a>,
    pub second: NamedFile<'a>,
    pub third: NamedFile<'a>,
}

impl<'a> Files<'a> {
    /// The bytes of the file of this name.
    fn find(&self, name: &str) -> Option<&'a [u8]>
        ensures { MatchOption result (file_bytes self.now name.now ≡ None) (λ bytes. file_bytes self.now name.now ≡ Some bytes.now) }
    {
        if self.first.name == name {
            return Some(self.first.bytes);
        }
        if self.second.name == name {
            return Some(self.second.bytes);
        }
        if self.third.name == name {
            return Some(self.third.bytes);
        }
        None
    }
}

impl<'a> Opener for Files<'a> {
    ghost use Rattle.example_program.specs.Files.{file_bytes, is_file};

    type Input = &'a [u8];

    // What seeks in a file of the machine seeks here too.
    type Seek = Seeking<Cursor<&'a [u8]>>;

    ghost holds = { λ files name. file_bytes files name };

    ghost opens = { λ files name. is_file files name };

    fn reader(&mut self, name: &str) -> Result<&'a [u8], OpenFault> {
        match self.find(name) {
            Some(bytes) => Ok(bytes),
            None => Err(OpenFault::Refused),
        }
    }

    fn source(&mut self, name: &str) -> Result<Seeking<Cursor<&'a [u8]>>, OpenFault> {
        match self.find(name) {
            Some(bytes) => Ok(Seeking::new(Cursor::new(bytes))),
            None => Err(OpenFault::Refused),
        }
    }
}
