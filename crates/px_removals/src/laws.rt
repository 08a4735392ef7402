//! How what is removed is split into batches.
ghost use Rattle.std.specs.Prelude.{◌≡◌, ◌≢◌, ◌≤◌, ◌++◌, ◌∷◌, [], ℕ, List, true, drop, length, take};
ghost use Rattle.std.specs.List.{AllByRecursion};
ghost use Rattle.std.specs.List.Sorted.{IsStrictlySortedBy};
ghost use Rattle.px_values.specs.declared.change.Change.{Change as RowChange};
ghost use Rattle.px_tables.specs.declared.table.KeyPlace.{KeyPlace as Part};
ghost use Rattle.px_tables.specs.declared.table.Table.{Table};
ghost use Rattle.px_trail.specs.Batches.{is_distinct, rows_of};
ghost use Rattle.px_calls.specs.Known.{Known};
ghost use Rattle.px_calls.specs.Requires.{AreFitting};
ghost use Rattle.px_removals.specs.Removals.{IsSplit, key_order};

/// Of what is to be removed, in order and each row once, the next part may be begun as a batch, and it is one part more of the whole; so with
/// what is left.
pub fn law_parts()
    ensures some { (cs : List RowChange) → cs ≢ [] → take 1000 cs ≢ [] }
    ensures rows { (cs : List RowChange) → length (take 1000 cs) ≤ 1000 }
    ensures distinct { (key : List Part) → (cs : List RowChange) → IsStrictlySortedBy (key_order key) (rows_of cs) → is_distinct (rows_of (take 1000 cs)) ≡ true }
    ensures left { (key : List Part) → (cs : List RowChange) → IsStrictlySortedBy (key_order key) (rows_of cs) → IsStrictlySortedBy (key_order key) (rows_of (drop 1000 cs)) }
    ensures fits { (k : Known) → (t : ℕ) → (cs : List RowChange) → AreFitting k t cs → AreFitting k t (take 1000 cs) }
    ensures fits_left { (k : Known) → (t : ℕ) → (cs : List RowChange) → AreFitting k t cs → AreFitting k t (drop 1000 cs) }
    ensures more { (cs : List RowChange) → (parts : List (List RowChange)) → (left : List RowChange) → IsSplit cs parts left → left ≢ [] → IsSplit cs (parts ++ take 1000 left ∷ []) (drop 1000 left) }
{}
