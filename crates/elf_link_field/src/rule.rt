//! Relocation rules: what the relocations of a kind are.
ghost use Rattle.std.specs.Prelude.{◌≡◌, MatchOption};
ghost use Rattle.elf_link_field.specs.Field.{HasNoRelocationRule, IsFirstRelocationRule, size_of};

/// What an entry's number is made of.
#[derive(Clone, Copy, Debug, PartialEq, Eq)]
pub enum Form {
    /// The symbol's value and the addend.
    Abs,
    /// The symbol's value and the addend, less the address of the field.
    Pc,
    /// Nothing: there is no field.
    None,
}

/// The bytes of a field.
#[derive(Clone, Copy, Debug, PartialEq, Eq)]
pub enum Width {
    /// One byte.
    W1,
    /// Two bytes.
    W2,
    /// Four bytes.
    W4,
    /// Eight bytes.
    W8,
}

impl Width {
    /// How many bytes these are.
    pub fn size(self) -> usize
        ensures { result ≡ size_of self }
    {
        match self {
            Width::W1 => 1,
            Width::W2 => 2,
            Width::W4 => 4,
            Width::W8 => 8,
        }
    }
}

/// The numbers that a field of some width admits.
#[derive(Clone, Copy, Debug, PartialEq, Eq)]
pub enum Range {
    /// The numbers that are in it as two's complement.
    Signed,
    /// The numbers from 0 on that are in it.
    Unsigned,
    /// All numbers, of which it holds the lowest bytes.
    Wrap,
}

/// What relocations of one kind are. `kind` is `r_info mod 2^32`, whose meaning processor supplements give.
#[derive(Clone, Copy, Debug, PartialEq, Eq)]
pub struct RelocRule {
    /// The type of the relocations, as entries have it.
    pub kind: u32,
    /// What their number is made of.
    pub form: Form,
    /// How many bytes their field has.
    pub width: Width,
    /// Which numbers the field admits.
    pub range: Range,
}

/// The first relocation rule of this kind; None if there is none.
pub fn rule_of(rules: &[RelocRule], kind: u32) -> Option<RelocRule>
    ensures { MatchOption result (HasNoRelocationRule kind rules.now) (IsFirstRelocationRule kind rules.now) }
{
    for rule in rules {
        if rule.kind == kind {
            return Some(*rule);
        }
    }
    None
}
