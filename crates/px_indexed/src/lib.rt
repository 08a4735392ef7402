//! What stays true of a table's rows, of one of its indexes, and of the cells of its rows, as a trail and the cells tell it.
//! Definitions and laws, no code. `world_at` is the world of a row and an index; `IndexKept` and `DataKept` are what stays true,
//! and `RowsKept` what every legal trail gives. `law_rows` promises that; `law_looks` says that the top of a world is the
//! version that a point sees, and its values those that are seen; `law_compacted` says what a major compaction leaves.
//! The lemmas in proofs/ are one for each event: it may come, the world after it is the event's, and what is kept stays.
#![tactic(auto)]

ghost use Rattle.std.specs.Prelude.{◌≡◌, ◌≤◌, ◌<◌, ◌↔◌, ◌⊎◌, ℕ, Bool, true, List, Some};
ghost use Rattle.px_cells.specs.declared.kind.CellKind.TheVariants.{Put};
ghost use Rattle.px_cells.specs.CellData.{CellData};
ghost use Rattle.px_cells.specs.Contents.{cell_of, value_at};
ghost use Rattle.px_cells.specs.Order.{Reads};
ghost use Rattle.px_cells.specs.Sight.{IsPlainRegion, seen_at};
ghost use Rattle.px_cells.specs.Visible.{IsVisible};
ghost use Rattle.px_values.specs.declared.row.Value.{Value as ColumnValue};
ghost use Rattle.px_values.specs.declared.name.TableId.{TableId as TableNumber};
ghost use Rattle.px_values.specs.States.{Shape as RowShape};
ghost use Rattle.px_trail.specs.declared.entry.Entry.{Entry as Entries};
ghost use Rattle.px_trail.specs.Trail.{Base, IsBase, horizon_of};
ghost use Rattle.px_trail.specs.Legal.{IsLegal};
ghost use Rattle.px_world.specs.World.{read_at, top, vis};
ghost use Rattle.px_indexed.specs.Kept.{AreIndexCells, IsCompacted, RowsKept};
ghost use Rattle.px_indexed.specs.Worlds.{Indexed, world_at};

/// What a legal trail tells of a table's rows.
pub fn law_rows()
    ensures { (sh : RowShape) → (b : Base) → (t : TableNumber) → ((r : List ColumnValue) → IsBase b t.0 r) → b.horizon t.0 ≤ b.last t.0 → (es : List Entries) → IsLegal b es → RowsKept sh b es t.0 (horizon_of b t.0 es) }
{}

/// The top of a key in the world of the row that it holds is the version whose status a point sees, and each value is the one seen.
pub fn law_looks()
    ensures top_seen { (sh : RowShape) → (b : Base) → (es : List Entries) → (t : ℕ) → (raised : ℕ) → (x : Indexed) → (r : List ColumnValue) → (k : List ℕ) → x.form.owns r k ≡ true → (last : ℕ) → AreIndexCells x.form last x.cells → (p : ℕ) → (s : ℕ) → top (world_at sh b es t raised x r) k p ≡ Some s → (v : List ℕ) × ((value_at x.cells k 1 s Put ≡ Some v) × IsVisible x.cells p (cell_of k 1 s Put v)) }
    ensures seen_top { (sh : RowShape) → (b : Base) → (es : List Entries) → (t : ℕ) → (raised : ℕ) → (x : Indexed) → (r : List ColumnValue) → (k : List ℕ) → x.form.owns r k ≡ true → (last : ℕ) → AreIndexCells x.form last x.cells → (p : ℕ) → (c : CellData) → c.key ≡ k → c.qualifier ≡ 1 → IsVisible x.cells p c → top (world_at sh b es t raised x r) k p ≡ Some c.stamp }
    ensures values { (sh : RowShape) → (b : Base) → (es : List Entries) → (t : ℕ) → (raised : ℕ) → (x : Indexed) → (r : List ColumnValue) → (k : List ℕ) → x.form.owns r k ≡ true → (c : ℕ) → c < x.form.columns → (p : ℕ) → vis (world_at sh b es t raised x r) k p c ≡ read_at (λ s. value_at x.cells k (x.form.place c) s Put) (seen_at (value_at x.cells) k (x.form.place c) p) }
{}

/// Of cells of which those above the horizon stay and of the others those that are seen at it, what is left is told place by place.
pub fn law_compacted()
    ensures { (old : List CellData) → (new : List CellData) → (h : ℕ) → IsPlainRegion old → ((c : CellData) → Reads new c ↔ (Reads old c × ((h < c.stamp) ⊎ IsVisible old h c))) → IsCompacted old new h }
{}
