//! A law of sources, as the contract of a function that does nothing.
ghost use Rattle.std.specs.Prelude.{◌≡◌, ℕ, Option};
ghost use Rattle.elf_image_stream.specs.Source.{Remembers};
ghost use Rattle.elf_image_stream.specs.declared.source.Failures.{Failures};

/// What a source remembers after a call, or several of which the last alone may fail, reports whether one failed, and what it was asked
/// for: there is no second answer.
pub fn one_failure()
    ensures { (a b : Option ℕ) (old new : Failures) → Remembers a old new → Remembers b old new → a ≡ b }
{}
