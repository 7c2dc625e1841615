//! The link map: where everything is, and what each name is bound to (gABI chapter 4, Sections, Symbol Table).
ghost use Rattle.std.specs.Prelude.{◌≡◌, MatchOption, None, map};
ghost use Rattle.elf_link_files.specs.Files.{mark};
ghost use Rattle.elf_link_outputs.specs.Placed.{cell, common_value, output_value};
ghost use Rattle.elf_link_map.specs.LinkMap.{bound_in, named_value};
ghost use Rattle.elf_link_map.specs.Naming.{IsBindingAt};

use crate::bindings::{Binding, Named, Names};
use elf_link_outputs::{Common, Output};
use std::marker::Model;

/// Where the sections and commons of a link are, and what each name is bound to. No accessor takes memory.
#[derive(Debug, Drop)]
pub struct LinkMap<'a> {
    pub(crate) addresses: Vec<Vec<Option<u64>>>,
    pub(crate) discarded: Vec<Vec<bool>>,
    pub(crate) names: Names<'a>,
    pub(crate) outputs: Vec<Output<'a>>,
    pub(crate) commons: Vec<Common<'a>>,
    pub(crate) base: u64,
    pub(crate) page: u64,
    pub(crate) entry: u64,
}

impl<'a> Model for LinkMap<'a> {
    ghost use Rattle.elf_link_map.specs.LinkMap.{LinkMapValue};

    ghost Value = { LinkMapValue };

    ghost use Rattle.elf_link_map.specs.LinkMap.{link_map_value};

    ghost view = { link_map_value };
}

impl<'a> LinkMap<'a> {
    /// The address of a section; None if it is not live, or if there is none at that position.
    pub fn address(&self, file: usize, section: usize) -> Option<u64>
        ensures { result ≡ cell self.now.addresses file section }
    {
        *self.addresses.get(file)?.get(section)?
    }

    /// Whether a section is discarded: it is a member of a COMDAT group, and an earlier one has the same signature.
    pub fn discarded(&self, file: usize, section: usize) -> bool
        ensures { result ≡ mark self.now.discarded file section }
    {
        match self.discarded.get(file) {
            Some(row) => row.get(section).copied().unwrap_or(false),
            None => false,
        }
    }

    /// What a name is bound to; None if no symbol that is not local has it. It takes a look at a few slots. Only if names were chosen to
    /// share their hashes, it may go through all of them.
    pub fn binding(&self, name: &[u8]) -> Option<Binding>
        ensures { result ≡ bound_in self.now.bindings name.now }
    {
        self.names.binding(name)
    }

    /// Where a name of the files is among [`LinkMap::names`]; None if it is not there.
    pub(crate) fn position(&self, name: &'a [u8]) -> Option<usize>
        ensures { MatchOption result (bound_in self.now.bindings name.now ≡ None) (IsBindingAt self.now.bindings name.now) }
    {
        self.names.position(name)
    }

    /// Every name that a symbol has that is not local, with what it is bound to, in the order of the first such symbol of each,
    /// by file and position.
    pub fn names(&self) -> &[Named<'a>]
        ensures { map named_value result.now ≡ self.now.bindings }
    {
        self.names.list()
    }

    /// The output sections, in order of placement.
    pub fn outputs(&self) -> &[Output<'a>]
        ensures { map output_value result.now ≡ self.now.outputs }
    {
        &self.outputs
    }

    /// The commons that have an address, after all output sections.
    pub fn commons(&self) -> &[Common<'a>]
        ensures { map common_value result.now ≡ self.now.commons }
    {
        &self.commons
    }

    /// Where placement begins.
    pub fn base(&self) -> u64
        ensures { result ≡ self.now.base }
    {
        self.base
    }

    /// What each output section begins at a multiple of.
    pub fn page(&self) -> u64
        ensures { result ≡ self.now.page }
    {
        self.page
    }

    /// The value of the entry symbol; 0 if none is named.
    pub fn entry(&self) -> u64
        ensures { result ≡ self.now.entry }
    {
        self.entry
    }
}
