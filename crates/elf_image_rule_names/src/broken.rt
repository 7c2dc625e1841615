//! A rule that is broken.
ghost use Rattle.std.specs.Prelude.{◌≡◌};

/// A rule by its number, and where it is broken: at an offset in a file, in bytes, or at a file, index and entry of a link.
#[derive(Clone, Copy, Debug, PartialEq, Eq)]
pub struct Broken<At> {
    /// The number of the rule.
    pub rule: u16,
    /// The first place where it is broken: the lowest offset.
    pub at: At,
}

impl<At> Broken<At> {
    /// The rule of this number, broken here.
    pub fn new(rule: u16, at: At) -> Broken<At>
        ensures { result ≡ record { rule = rule; at = at } }
    {
        Broken { rule, at }
    }
}
