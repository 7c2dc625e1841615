//! Laws of extents, of accounts and of least places, for the layers above: each function is the proof of what
//! it ensures, and does nothing.
ghost use Rattle.std.specs.Prelude.{ℕ, ◌≡◌, ◌<◌, ◌≤◌, List, Some, length, slice_get, slice_index};
ghost use Rattle.elf_extent.specs.declared.extent.Extent.{Extent};
ghost use Rattle.elf_extent.specs.declared.extent.Piece.{Piece};
ghost use Rattle.elf_extent.specs.Account.{Accounts, IsOnlyPieceAt};
ghost use Rattle.elf_extent.specs.Extent.{AreDisjoint, AreWithin, Doubly, Never};
ghost use Rattle.elf_extent.specs.Place.{Fits, Least, end_of};

/// Extents are disjoint exactly if no byte is held by two of them.
pub fn disjoint()
    ensures only { (es : List Extent) → AreDisjoint es → Never (Doubly es) }
    ensures from { (es : List Extent) → Never (Doubly es) → AreDisjoint es }
{}

/// Extents that share no byte and end at or below the total have an account.
pub fn some_account()
    ensures { (es : List Extent) (total : ℕ) → AreDisjoint es → AreWithin es total →
        (ps : List Piece) × Accounts es total 0 ps }
{}

/// An account is one list: no other list of pieces meets it.
pub fn one_account()
    ensures { (es : List Extent) (total : ℕ) (ps qs : List Piece) →
        AreDisjoint es → Accounts es total 0 ps → Accounts es total 0 qs → ps ≡ qs }
{}

/// Each offset below the total lies in one piece, and in no other.
pub fn in_piece()
    ensures { (es : List Extent) (total : ℕ) (ps : List Piece) (x : ℕ) →
        Accounts es total 0 ps → x < total → (k : ℕ) × (p : Piece) × IsOnlyPieceAt ps x k p }
{}

/// An extent that holds a byte below the total has a piece of its own.
pub fn piece_for()
    ensures { (es : List Extent) (total : ℕ) (ps : List Piece) (i : ℕ) (e : Extent) →
        AreDisjoint es → Accounts es total 0 ps →
        slice_get es i ≡ Some e → 0 < e.len → e.start < total →
        (k : ℕ) × (slice_get ps k ≡ Some (record { owner = Some i; start = e.start; len = e.len })) }
{}

/// Places that fit are as many as the parts.
pub fn fits_length()
    ensures { (parts : List (ℕ × ℕ)) (from : ℕ) (places : List ℕ) →
        Fits parts from places → length places ≡ length parts }
{}

/// In places that fit no part begins below `from`.
pub fn above_from()
    ensures { (parts : List (ℕ × ℕ)) (from : ℕ) (places : List ℕ) (k : ℕ) →
        Fits parts from places → k < length parts → from ≤ slice_index places k }
{}

/// In places that fit no part begins before the end of an earlier one.
pub fn above_earlier()
    ensures { (parts : List (ℕ × ℕ)) (from : ℕ) (places : List ℕ) (i j : ℕ) →
        Fits parts from places → i < j → j < length parts →
        end_of parts places i ≤ slice_index places j }
{}

/// Least places are one list.
pub fn same_least()
    ensures { (parts : List (ℕ × ℕ)) (from : ℕ) (p q : List ℕ) →
        Least parts from p → Least parts from q → p ≡ q }
{}
