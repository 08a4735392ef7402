//! The laws of trails. Each holds of every base and all entries.
ghost use Rattle.std.specs.Prelude.{◌≡◌, ◌≢◌, ◌<◌, ◌≤◌, ◌++◌, ◌∷◌, [], ℕ, Bool, true, false, nat_le, if◌then◌else◌, List, Some, None, length, take};
ghost use Rattle.px_values.specs.declared.row.Value.{Value as ColumnValue};
ghost use Rattle.px_values.specs.declared.change.Change.{Change as RowChange};
ghost use Rattle.px_values.specs.declared.change.What.{What as Effect};
ghost use Rattle.px_values.specs.declared.name.TableId.{TableId as TableNumber};
ghost use Rattle.px_values.specs.States.{apply};
ghost use Rattle.px_trail.specs.declared.entry.Entry.{Entry as Entries};
ghost use Rattle.px_trail.specs.declared.entry.Act.TheVariants.{Begun, Phase, Wrote, Ended};
ghost use Rattle.px_trail.specs.Batches.{Batch, BatchPhase, IsBatchIn, IsDecided, IsSoundOption, Marking, Writing, Verifying, Closing, Over, acknowledged, acknowledged_by, batch_of, batch_step, change_of, has, unwritten};
ghost use Rattle.px_trail.specs.Trail.{Base, IsCatalogue, acts_by, base_catalogue, calls_of, catalogue_of, catalogue_step, closing_call, closing_step, horizon_of, horizon_step, last_of, last_step, open_points, points_step, shape_of, shape_step};
ghost use Rattle.px_trail.specs.Legal.{IsEndable, IsLegal, IsWritable, MayCome};
ghost use Rattle.px_trail.specs.States.{Dated, IsRising, begun, begun_by, state_of, written};
ghost use Rattle.px_trail.specs.Lasting.{TellSame, lasting};

/// A legal trail goes on by an entry that may come, and the first entries of a legal trail are a legal trail.
pub fn law_legal()
    ensures none { (b : Base) → IsLegal b [] }
    ensures more { (b : Base) → (es : List Entries) → (e : Entries) → IsLegal b es → MayCome b es e → IsLegal b (es ++ e ∷ []) }
    ensures first { (b : Base) → (es : List Entries) → (more : List Entries) → IsLegal b (es ++ more) → IsLegal b es }
    ensures stays { (es : List Entries) → (more : List Entries) → (n : ℕ) → n ≤ length es → take n (es ++ more) ≡ take n es }
{}

/// What is told is a fold from the left: one entry more is one step more.
pub fn law_told()
    ensures catalogue { (b : Base) → (es : List Entries) → (e : Entries) → catalogue_of b (es ++ e ∷ []) ≡ catalogue_step (catalogue_of b es) e.act }
    ensures shape { (b : Base) → (es : List Entries) → (e : Entries) → (t : ℕ) → shape_of b (es ++ e ∷ []) t ≡ shape_step t (shape_of b es t) e.act }
    ensures batch { (t : ℕ) → (s : ℕ) → (es : List Entries) → (e : Entries) → batch_of t s (es ++ e ∷ []) ≡ batch_step t s (batch_of t s es) e.seat e.act }
    ensures last { (b : Base) → (t : ℕ) → (es : List Entries) → (e : Entries) → last_of b t (es ++ e ∷ []) ≡ last_step t (last_of b t es) e.act }
    ensures horizon { (b : Base) → (t : ℕ) → (es : List Entries) → (e : Entries) → horizon_of b t (es ++ e ∷ []) ≡ horizon_step t (horizon_of b t es) e.act }
    ensures points { (seat : ℕ) → (t : ℕ) → (s : ℕ) → (es : List Entries) → (e : Entries) → open_points seat t s (es ++ e ∷ []) ≡ points_step seat t s (open_points seat t s es) e.seat e.act }
    ensures closing { (es : List Entries) → (e : Entries) → closing_call (es ++ e ∷ []) ≡ closing_step (closing_call es) e.act }
    ensures calls { (es : List Entries) → (e : Entries) → calls_of (es ++ e ∷ []) ≡ e.calls }
    ensures begins { (t : ℕ) → (r : List ColumnValue) → (es : List Entries) → (e : Entries) → begun t r (es ++ e ∷ []) ≡ begun t r es ++ begun_by t r e.act }
    ensures acknowledges { (t : ℕ) → (es : List Entries) → (e : Entries) → acknowledged t (es ++ e ∷ []) ≡ acknowledged t es ++ acknowledged_by t e.act }
{}

/// Tables and indexes of a legal trail have numbers below the next one, and a table whose number was drawn keeps its shape.
pub fn law_stands()
    ensures numbers { (b : Base) → (es : List Entries) → IsCatalogue (base_catalogue b) → IsLegal b es → IsCatalogue (catalogue_of b es) }
    ensures shapes { (b : Base) → (t : ℕ) → (es : List Entries) → (more : List Entries) → IsLegal b (es ++ more) → t < (catalogue_of b es).next → shape_of b (es ++ more) t ≡ shape_of b es t }
{}

/// How a batch goes on by its own entries.
pub fn law_phases()
    ensures sound { (b : Base) → (t : ℕ) → (s : ℕ) → (es : List Entries) → IsLegal b es → IsSoundOption (batch_of t s es) }
    ensures fresh { (b : Base) → (t : ℕ) → (s : ℕ) → (es : List Entries) → last_of b t es < s → batch_of t s es ≡ None }
    ensures begins { (b : Base) → (es : List Entries) → (seat : ℕ) → (calls : ℕ) → (t : TableNumber) → (s : ℕ) → (cs : List RowChange) → last_of b t.0 es < s → IsBatchIn (es ++ record { seat = seat; calls = calls; act = Begun t s cs } ∷ []) seat t.0 s Marking }
    ensures marks { (b : Base) → (es : List Entries) → (seat : ℕ) → (calls : ℕ) → (t : TableNumber) → (s : ℕ) → IsLegal b es → IsBatchIn es seat t.0 s Marking → IsBatchIn (es ++ record { seat = seat; calls = calls; act = Phase t s 1 } ∷ []) seat t.0 s Writing }
    ensures writes_some { (es : List Entries) → (seat : ℕ) → (calls : ℕ) → (t : TableNumber) → (s : ℕ) → (rows : List (List ColumnValue)) → (f : IsWritable es seat t.0 s rows) → unwritten (record f.batch { written = f.batch.written ++ rows }) ≢ [] → IsBatchIn (es ++ record { seat = seat; calls = calls; act = Wrote t s rows } ∷ []) seat t.0 s Writing }
    ensures writes_all { (es : List Entries) → (seat : ℕ) → (calls : ℕ) → (t : TableNumber) → (s : ℕ) → (rows : List (List ColumnValue)) → (f : IsWritable es seat t.0 s rows) → unwritten (record f.batch { written = f.batch.written ++ rows }) ≡ [] → IsBatchIn (es ++ record { seat = seat; calls = calls; act = Wrote t s rows } ∷ []) seat t.0 s Verifying }
    ensures verifies { (es : List Entries) → (seat : ℕ) → (calls : ℕ) → (t : TableNumber) → (s : ℕ) → IsBatchIn es seat t.0 s Verifying → IsBatchIn (es ++ record { seat = seat; calls = calls; act = Phase t s 3 } ∷ []) seat t.0 s Closing }
    ensures ends { (es : List Entries) → (seat : ℕ) → (calls : ℕ) → (t : TableNumber) → (s : ℕ) → IsEndable es seat t.0 s → IsBatchIn (es ++ record { seat = seat; calls = calls; act = Ended t s } ∷ []) seat t.0 s Over }
{}

/// What is true of a seat's batches and points stays true under legal entries of other seats.
pub fn law_others()
    ensures batches { (b : Base) → (es : List Entries) → (others : List Entries) → (seat : ℕ) → (t : ℕ) → (s : ℕ) → (p : BatchPhase) → IsLegal b (es ++ others) → acts_by seat others ≡ [] → IsBatchIn es seat t s p → IsBatchIn (es ++ others) seat t s p }
    ensures points { (seat : ℕ) → (t : ℕ) → (s : ℕ) → (es : List Entries) → (others : List Entries) → acts_by seat others ≡ [] → open_points seat t s (es ++ others) ≡ open_points seat t s es }
{}

/// The changes of a row are begun in the order of their stamps, and the written ones are the first of them.
pub fn law_order()
    ensures rising { (b : Base) → (es : List Entries) → (t : ℕ) → (r : List ColumnValue) → IsLegal b es → IsRising (begun t r es) }
    ensures first { (b : Base) → (es : List Entries) → (t : ℕ) → (r : List ColumnValue) → IsLegal b es → (rest : List Dated) × (begun t r es ≡ written es t r ++ rest) }
{}

/// The states of rows: an entry that doesn't last changes none, a Wrote those of its rows from its stamp on, and at a decided point
/// all stay.
pub fn law_states()
    ensures quiet { (b : Base) → (es : List Entries) → (e : Entries) → MayCome b es e → lasting e ≡ false → TellSame b es (es ++ e ∷ []) }
    ensures named { (b : Base) → (es : List Entries) → (e : Entries) → (t : TableNumber) → (s : ℕ) → (rows : List (List ColumnValue)) → IsLegal b es → e.act ≡ Wrote t s rows → MayCome b es e → (f : IsWritable es e.seat t.0 s rows) → (r : List ColumnValue) → (p : ℕ) → (w : Effect) → has rows r ≡ true → change_of f.batch.changes r ≡ Some w → state_of b (es ++ e ∷ []) t.0 r p ≡ (if nat_le s p then apply (shape_of b es t.0) r (state_of b es t.0 r p) w else state_of b es t.0 r p) }
    ensures unnamed { (b : Base) → (es : List Entries) → (e : Entries) → (t : TableNumber) → (s : ℕ) → (rows : List (List ColumnValue)) → IsLegal b es → e.act ≡ Wrote t s rows → MayCome b es e → IsWritable es e.seat t.0 s rows → (r : List ColumnValue) → (p : ℕ) → has rows r ≡ false → state_of b (es ++ e ∷ []) t.0 r p ≡ state_of b es t.0 r p }
    ensures decided { (b : Base) → (t : ℕ) → (p : ℕ) → (es : List Entries) → (more : List Entries) → IsLegal b (es ++ more) → IsDecided es t p → p ≤ last_of b t es → IsDecided (es ++ more) t p }
    ensures stays { (b : Base) → (t : ℕ) → (r : List ColumnValue) → (p : ℕ) → (es : List Entries) → (more : List Entries) → IsLegal b (es ++ more) → IsDecided es t p → p ≤ last_of b t es → t < (catalogue_of b es).next → state_of b (es ++ more) t r p ≡ state_of b es t r p }
{}
