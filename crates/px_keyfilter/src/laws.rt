//! No key is lost.
ghost use Rattle.std.specs.Prelude.{◌≡◌, ◌≢◌, ◌<◌, ◌++◌, ℕ, List, length, replicate};
ghost use Rattle.std.specs.List.{AllByRecursion};
ghost use Rattle.px_cells.specs.CellData.{CellData};
ghost use Rattle.px_keyfilter.specs.Keys.{HasAll, HasKeyBits, with_keys, with_key};

/// A key that is added is there, and each that was there before. So are the keys of cells.
pub fn keys_are_kept()
    ensures added { (words key : List ℕ) → 0 < length words → HasKeyBits (with_key words key) key }
    ensures kept { (words key other : List ℕ) → 0 < length words → HasKeyBits words other → HasKeyBits (with_key words key) other }
    ensures all { (words : List ℕ) (cells more : List CellData) → 0 < length words → HasAll words cells → HasAll (with_keys words more) (cells ++ more) }
    ensures size { (words : List ℕ) (cells : List CellData) → length (with_keys words cells) ≡ length words }
{}

/// No cell has a key that isn't there; and at first none is there.
pub fn a_key_that_is_not_there()
    ensures none { (words key : List ℕ) (cells : List CellData) → HasAll words cells → (HasKeyBits words key → ⊥) → AllByRecursion (λ (c : CellData). c.key ≢ key) cells }
    ensures empty { (count : ℕ) (key : List ℕ) → HasKeyBits (replicate count 0) key → ⊥ }
{}
