//! The changes of a row as a history: by stamps, what became of each, and the states before and after it.
//! A trail tells it, as a fold over its entries, and the worlds of a row and its indexes are made from it.
//! `law_history` says that it is the trail's own words: fates by batches, states by the written changes, each change
//! beginning where those before it end. No code here runs.
#![tactic(auto)]

ghost use Rattle.std.specs.Prelude.{◌≡◌, ◌++◌, ◌∷◌, [], ℕ, List};
ghost use Rattle.px_values.specs.declared.row.Value.{Value as ColumnValue};
ghost use Rattle.px_values.specs.declared.name.TableId.{TableId as TableNumber};
ghost use Rattle.px_trail.specs.declared.entry.Entry.{Entry as Entries};
ghost use Rattle.px_trail.specs.Trail.{Base, IsBase, shape_of};
ghost use Rattle.px_trail.specs.Legal.{IsLegal};
ghost use Rattle.px_trail.specs.States.{state_of};
ghost use Rattle.px_history.specs.History.{written_state};
ghost use Rattle.px_history.specs.Rows.{IsLater, SameChange, Tied, history_of, history_step};

/// In every legal trail the history of a row is the trail's own words.
pub fn law_history()
    ensures tied { (b : Base) → (t : TableNumber) → (r : List ColumnValue) → IsBase b t.0 r → (es : List Entries) → IsLegal b es → Tied (shape_of b es t.0) b es t.0 r (history_of b es t.0 r) }
    ensures states { (b : Base) → (t : TableNumber) → (r : List ColumnValue) → IsBase b t.0 r → (es : List Entries) → IsLegal b es → (p : ℕ) → written_state (history_of b es t.0 r) p ≡ state_of b es t.0 r p }
    ensures step { (b : Base) → (es : List Entries) → (e : Entries) → (t : ℕ) → (r : List ColumnValue) → shape_of b (es ++ e ∷ []) t ≡ shape_of b es t → history_of b (es ++ e ∷ []) t r ≡ history_step (shape_of b es t) t r (history_of b es t r) e.act }
    ensures stays { (b : Base) → (es : List Entries) → (e : Entries) → (t : ℕ) → (r : List ColumnValue) → (s : ℕ) → shape_of b (es ++ e ∷ []) t ≡ shape_of b es t → IsLater s e.act → SameChange (history_of b es t r) (history_of b (es ++ e ∷ []) t r) s }
{}
