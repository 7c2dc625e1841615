//! What the layers above may know of a field that was patched.
ghost use Rattle.std.specs.Prelude.{ℕ, ◌+◌, ◌≤◌, ℤ, List, length};
ghost use Rattle.elf_field.specs.declared.number.Order.{Order};
ghost use Rattle.elf_link_field.specs.Field.{IsPatched, patched};

/// The bytes of a field that was patched are those of its number, and all others are as before.
pub fn patched_field()
    ensures { (o : Order) (b : List ℕ) (x n : ℕ) (z : ℤ) → x + n ≤ length b → IsPatched o b x n z (patched o b x n z) }
{}
