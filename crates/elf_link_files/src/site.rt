//! Where a rule of the link is broken.
ghost use Rattle.std.specs.Prelude.{◌≡◌, ◌↔◌, IsTrue, ◌<◌, MatchOption, length};
ghost use Rattle.elf_link_files.specs.Files.{object_at};
ghost use Rattle.elf_extent.specs.Extent.{Never};
ghost use Rattle.elf_link_files.specs.Rows.{IsFirstAt};
ghost use Rattle.elf_link_files.specs.FileRules.{BreaksSiteTest, HasNoneIn, IsFirstIn, counted, row_of};

use crate::files::{section_count, symbol_count};
use crate::inputs::{Inputs, SectionId, SymbolId};
use elf_field::abi::*;
use elf_object_type::Object;

/// Where a rule may be broken in the files of a link: a file, a section or symbol of it, and an entry of a relocation section. What a rule
/// does not look at is 0. Of two sites the one in the earlier file comes first, in one file the one of the lower index, and there the one
/// of the lower entry.
#[derive(Clone, Copy)]
pub struct Site {
    /// The position of the file among the objects, from 0.
    pub file: usize,
    /// The position in it of the section, or of the symbol where the rule is on symbols, from 0.
    pub index: usize,
    /// The position of the entry in the relocation section, from 0.
    pub entry: usize,
}

/// The site of a section or symbol of a file.
pub fn site_in(file: usize, index: usize) -> Site
    ensures { result ≡ record { file = file; index = index; entry = 0 } }
{
    Site {
        file,
        index,
        entry: 0,
    }
}

/// Whether a site is the section or symbol at `index` of a file.
pub fn is_at(found: Site, file: usize, index: usize) -> bool
    ensures { IsTrue result ↔ ((found.file ≡ file) × (found.index ≡ index)) }
{
    found.file == file && found.index == index
}

// The commons that are placed (gABI chapter 4, Symbol Table: `SHN_COMMON`).

/// A common that is placed.
#[derive(Clone, Copy)]
pub struct Chosen {
    /// The first common of its name.
    pub site: Site,
    /// The largest size of all.
    pub size: u64,
    /// The largest alignment of all.
    pub align: u64,
}

// The first section or symbol that breaks a rule by itself, over all files.

/// A rule of the link that looks at one section or one symbol by itself.
#[derive(Clone, Copy)]
pub enum SiteTest {
    /// Rule 3, [`TLS`](crate::rules::TLS).
    Tls,
    /// Rule 4, [`LINK_ORDER`](crate::rules::LINK_ORDER).
    LinkOrder,
    /// Rule 5, [`EMPTY_SIGNATURE`](crate::rules::EMPTY_SIGNATURE).
    EmptySignature,
    /// Rule 6, [`BAD_SYMBOL`](crate::rules::BAD_SYMBOL).
    BadSymbol,
    /// Rule 7, [`BAD_COMMON`](crate::rules::BAD_COMMON).
    BadCommon,
}

/// How many sections or symbols of a file are tested.
fn tested_count(test: SiteTest, object: &Object<'_>) -> usize
    ensures { result ≡ counted test object.now }
{
    match test {
        SiteTest::Tls | SiteTest::LinkOrder | SiteTest::EmptySignature => section_count(object),
        _ => symbol_count(object),
    }
}

impl<'l, 'a> Inputs<'l, 'a> {
    /// Whether the section or symbol at `index` of a file breaks the rule.
    fn breaks(&self, test: SiteTest, file: usize, index: usize) -> bool
        requires file { file < length self.now }
        requires index { index < counted test (object_at self.now file) }
        ensures { IsTrue result ↔ BreaksSiteTest self.now test file index }
    {
        match test {
            SiteTest::Tls => {
                let section = self.section(SectionId { file, index });
                section.is_live_with(SHF_TLS)
            }
            SiteTest::LinkOrder => {
                let section = self.section(SectionId { file, index });
                section.is_live_with(SHF_LINK_ORDER)
            }
            SiteTest::EmptySignature => {
                let section = self.section(SectionId { file, index });
                section.has_empty_signature()
            }
            SiteTest::BadSymbol => self.symbol(SymbolId { file, index }).is_bad(),
            SiteTest::BadCommon => self.symbol(SymbolId { file, index }).is_bad_common(),
        }
    }

    /// The first position in a file that breaks the rule.
    fn first_in_file(&self, test: SiteTest, file: usize) -> Option<usize>
        requires { file < length self.now }
        ensures { MatchOption result (HasNoneIn self.now test file) (IsFirstIn self.now test file) }
    {
        for index in 0..tested_count(test, self.object(file)) {
            if self.breaks(test, file, index) {
                return Some(index);
            }
        }
        None
    }

    /// The first site that breaks the rule, by file and position.
    pub fn first_site(&self, test: SiteTest) -> Option<Site>
        ensures { MatchOption result (Never (row_of self.now test)) (IsFirstAt (row_of self.now test)) }
    {
        for file in 0..self.file_count() {
            if let Some(index) = self.first_in_file(test, file) {
                return Some(site_in(file, index));
            }
        }
        None
    }
}
