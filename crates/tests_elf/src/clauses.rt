//! Clauses that name definitions, a struct and a variant of the library over the crate `elf` alone.
ghost use Rattle.std.specs.Prelude.{◌≡◌, ◌+◌, ◌≤◌, ℕ, List, IfErr, IfOk, IfSome, Some, length};
ghost use Rattle.elf.specs.extent.Place.{IsLeastPlace};
ghost use Rattle.elf.specs.field.Types.Ehdr.{Ehdr};
ghost use Rattle.elf.specs.image.Image.{ImageValue, IsImage};
ghost use Rattle.elf.specs.image.Parsing.{IsParseFault};
ghost use Rattle.elf.specs.image.Rules.{IsFault};
ghost use Rattle.elf.specs.image.Types.Fault.TheVariants.{Rule};

use elf::extent::next_place;
use elf::image::{Fault, parse, verdict};
use std::alloc::Global;

/// The entry of the image that these bytes are.
pub fn entry_of(alloc: Global, bytes: &[u8]) -> Result<u64, Fault>
    ensures entry { IfOk result (λ entry. (image : ImageValue) × IsImage image bytes.now ×
        ((header : Ehdr) × (header ≡ image.header) × (entry ≡ header.e_entry))) }
    ensures fault { IfErr result (IsParseFault bytes.now) }
{
    let image = parse(alloc, bytes)?;
    Ok(image.header().e_entry)
}

/// The fault of these bytes.
pub fn fault_of(bytes: &[u8]) -> Option<Fault>
    ensures { (rule at : ℕ) → result ≡ Some (Rule rule at) → IsFault bytes.now (Some (rule, at)) }
{
    match verdict(bytes) {
        Some((rule, at)) => Some(Fault::Rule { rule, at }),
        None => None,
    }
}

/// The least place for a part of this alignment after a file.
pub fn place_after(file: u64, align: u64) -> Option<u64>
    ensures { IfSome result (IsLeastPlace file align) }
{
    next_place(file, align)
}
