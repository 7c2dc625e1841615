//! What the layers above may know of a string table.
ghost use Rattle.std.specs.Prelude.{ℕ, List};
ghost use Rattle.elf_object_strings.specs.StringTable.{HoldsNames, AreZeroFree, SharesTails, name_offset, string_table};

/// The table of a list of names holds each of them at its offset.
pub fn holds_names()
    ensures { (names : List (List ℕ)) → HoldsNames names (string_table names) (name_offset names) }
{}

/// Of names without a zero byte it has each at the lowest offset at which the name is with a zero after it, and no table that holds them
/// all is shorter.
#[tactic(auto, using(crate::proofs::Public::shares_tails))]
pub fn shares_tails()
    ensures { (names : List (List ℕ)) → AreZeroFree names → SharesTails names }
{}
