//! A law of texts, as the contract of a function that does nothing.
ghost use Rattle.std.specs.Prelude.{ℕ, ◌<◌, ◌≤◌, ◌^◌, List, Option, length};
ghost use Rattle.elf_link_field.specs.declared.rule.RelocRule.{RelocRule};
ghost use Rattle.elf_link_files.specs.declared.fault.Options.{Options};
ghost use Rattle.elf_tool_check.specs.declared.calls.Verdict.TheVariants.{Done};
ghost use Rattle.elf_tool_link.specs.Map.{MapSays};

/// The text of `map` on at most 64 files that are linked is shorter than 2^64 bytes, so that a count can report how much of it is written.
pub fn few_files_are_short()
    ensures { (opt : Options) (rules : Option (List RelocRule)) (files : List (List ℕ)) (text : List ℕ) → length files ≤ 64 →
        MapSays opt rules files Done text → length text < 2 ^ 64 }
{}
