//! Rules 8 and 9: the definitions of a name.
ghost use Rattle.std.specs.Prelude.{◌↔◌, ◌<◌, IsTrue, MatchOption, length};
ghost use Rattle.elf_link_names.specs.KnownNames.{Makes, SaysUnbound, SaysEarlier};
ghost use Rattle.elf_link_files.specs.Files.{IsEarlier};
ghost use Rattle.elf_extent.specs.Extent.{Never};
ghost use Rattle.elf_image_rules.specs.Rows.{fault_of};
ghost use Rattle.elf_link_files.specs.Rows.{AtSymbol, FirstAt, IsFirstAt};
ghost use Rattle.elf_link_names.specs.Binds.{BreaksName, HasNoName, HasTwoDefinitions, IsFirstName, IsUndefinedName, link_name_rules};

use crate::name_table::{NameTable, NamedSymbol};
use elf_field::abi::*;
use elf_link_files::rules::*;
use elf_link_files::{Broken, Known, Site, SymbolId, site_in};

// What a name is bound to, before anything has an address.

/// The binding of a name.
#[derive(Clone, Copy)]
pub enum Choice {
    /// A global definition.
    Strong { file: usize, symbol: usize },
    /// A common of the largest size and the largest alignment.
    Common { size: u64, align: u64 },
    /// The first weak definition.
    Weak { file: usize, symbol: usize },
    /// Zero: only weak entries, and no definition.
    Zero,
}

// What a name is bound to, by what is known of it (gABI chapter 4, Symbol Table).

/// Whether a name is bound to nothing: it has no definition and no common, and an entry that is not weak.
pub(crate) fn is_unbound(known: Known) -> bool
    ensures { SaysUnbound known result }
{
    if let Some(_) = known.strong {
        return false;
    }
    if let Some(_) = known.common {
        return false;
    }
    if let Some(_) = known.weak {
        return false;
    }
    known.not_weak
}

/// What a name that is bound makes of what is known of it.
pub(crate) fn choice_of(known: Known) -> Choice
    ensures { Makes known result }
{
    if let Some(id) = known.strong {
        return Choice::Strong {
            file: id.file,
            symbol: id.index,
        };
    }
    if let Some(block) = known.common {
        return Choice::Common {
            size: block.size,
            align: block.align,
        };
    }
    if let Some(id) = known.weak {
        return Choice::Weak {
            file: id.file,
            symbol: id.index,
        };
    }
    Choice::Zero
}

/// A rule on the entries of a name.
#[derive(Clone, Copy)]
enum NameRule {
    /// Rule 8, [`TWO_DEFINITIONS`].
    TwoDefinitions,
    /// Rule 9, [`UNDEFINED_NAME`].
    UndefinedName,
}

/// Whether a symbol comes before another.
fn is_earlier(first: SymbolId, id: SymbolId) -> bool
    ensures { IsTrue result ↔ IsEarlier first.file first.index id.file id.index }
{
    first.file < id.file || (first.file == id.file && first.index < id.index)
}

/// Whether a global definition of a name comes before a symbol, by what is known of the name.
fn has_earlier(known: Known, id: SymbolId) -> bool
    ensures { SaysEarlier known id result }
{
    match known.strong {
        Some(first) => is_earlier(first, id),
        None => false,
    }
}

impl<'t, 'l, 'a> NamedSymbol<'t, 'l, 'a> {
    /// Rule 8: whether it is a global definition, and one before it is of its name.
    fn has_two_definitions(&self) -> bool
        ensures { IsTrue result ↔ HasTwoDefinitions self.now.table.now self.now.id.file self.now.id.index }
    {
        self.input().is_definition(STB_GLOBAL) && has_earlier(self.table.known_of(self.id), self.id)
    }

    /// Rule 9: whether it is global, counts as undefined, and its name is bound to nothing.
    fn is_undefined_name(&self) -> bool
        ensures { IsTrue result ↔ IsUndefinedName self.now.table.now self.now.id.file self.now.id.index }
    {
        let symbol = self.input();
        symbol.symbol().binding() == STB_GLOBAL
            && symbol.is_undefined()
            && is_unbound(self.table.known_of(self.id))
    }

    /// Whether it breaks the rule.
    fn breaks(&self, rule: NameRule) -> bool
        ensures { IsTrue result ↔ BreaksName self.now.table.now rule self.now.id.file self.now.id.index }
    {
        match rule {
            NameRule::TwoDefinitions => self.has_two_definitions(),
            NameRule::UndefinedName => self.is_undefined_name(),
        }
    }
}

impl<'l, 'a> NameTable<'l, 'a> {
    /// The first symbol of a file that breaks the rule.
    fn first_name_in(&self, rule: NameRule, file: usize) -> Option<usize>
        requires { file < length self.now }
        ensures { MatchOption result (HasNoName self.now rule file) (IsFirstName self.now rule file) }
    {
        for index in 0..self.symbol_count(file) {
            if self.symbol(SymbolId { file, index }).breaks(rule) {
                return Some(index);
            }
        }
        None
    }

    /// The first site of a symbol that breaks the rule, by file and position.
    fn first_name(&self, rule: NameRule) -> Option<Site>
        ensures { MatchOption result (Never (AtSymbol self.now (BreaksName self.now rule)))
            (IsFirstAt (AtSymbol self.now (BreaksName self.now rule))) }
    {
        for file in 0..self.file_count() {
            if let Some(index) = self.first_name_in(rule, file) {
                return Some(site_in(file, index));
            }
        }
        None
    }

    /// Rules 8 and 9. What is known of a name is read by its index.
    pub(crate) fn validate_names(&self) -> Result<(), Broken<Site>>
        ensures { FirstAt (link_name_rules self.now) (fault_of result) }
    {
        if let Some(site) = self.first_name(NameRule::TwoDefinitions) {
            return Err(Broken::new(TWO_DEFINITIONS, site));
        }
        if let Some(site) = self.first_name(NameRule::UndefinedName) {
            return Err(Broken::new(UNDEFINED_NAME, site));
        }
        Ok(())
    }
}
