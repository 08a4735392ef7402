//! The open batches of a table, as values that its steps keep: the changes that are still to be written, the rows on which
//! another batch was pending, and the cells of all three phases, which are made when the batch begins.
//! `OpensKept` is what stays true of them. `law_states`: the state that a batch begins with is what the cells spell, then what is
//! pending. `law_met`: the rows of a receipt are exactly the concurrent ones. `law_open`: every entry keeps the list.
//! `law_hands`: what is handed to a region in each phase is what the index protocol asks. Definitions and laws, no code.
#![tactic(auto)]

ghost use Rattle.std.specs.Prelude.{◌≡◌, ◌<◌, ◌≤◌, ◌++◌, ◌∷◌, [], ℕ, Bool, true, List, length, get_or, map, Some, is_some};
ghost use Rattle.std.specs.List.{AllByRecursion};
ghost use Rattle.px_cells.specs.CellData.{CellData};
ghost use Rattle.px_cells.specs.Contents.{value_at};
ghost use Rattle.px_cells.specs.Order.{ReadsSame};
ghost use Rattle.px_values.specs.declared.row.Value.{Value as ColumnValue};
ghost use Rattle.px_values.specs.declared.change.Change.{Change as RowChange};
ghost use Rattle.px_values.specs.declared.change.What.{What as Effect};
ghost use Rattle.px_values.specs.declared.name.TableId.{TableId as TableNumber};
ghost use Rattle.px_values.specs.States.{apply};
ghost use Rattle.px_trail.specs.declared.entry.Act.TheVariants.{Begun, Wrote, Ended, Phase};
ghost use Rattle.px_trail.specs.declared.entry.Entry.{Entry as Entries};
ghost use Rattle.px_trail.specs.Batches.{IsConcurrent, change_of, has, is_distinct, rows_of, unwritten};
ghost use Rattle.px_trail.specs.Legal.{IsEndable, IsPhased, IsWritable};
ghost use Rattle.px_trail.specs.Trail.{Base, last_of};
ghost use Rattle.px_forms.specs.Indexes.{IndexForm};
ghost use Rattle.px_indexed.specs.Idle.{IsElsewhere};
ghost use Rattle.px_indexed.specs.Kept.{ReadsWrites};
ghost use Rattle.px_indexed.specs.Worlds.{history_at};
ghost use Rattle.px_groupworld.specs.Group.{GroupData, GroupKept, no_open, no_part, table_form};
ghost use Rattle.px_groupworld.specs.Asks.{CanMark, CanVerify};
ghost use Rattle.px_forms.specs.Several.{cells_for};
ghost use Rattle.px_openbatches.specs.Made.{IsComputed, RowCells, picked_cells};
ghost use Rattle.px_openbatches.specs.Pending.{HeldBatch, HeldKept, IsHeldBatch, after_pending, held_begun, held_ended, held_wrote, to_verify};
ghost use Rattle.px_openbatches.specs.Opens.{IsBatchReady, OpensKept, form_in};

use px_groupworld::Formed;

/// The states of a row before and after a new change: what its cells spell at a newest point, then the pending changes of the
/// open batches in the order of their stamps, then the change.
pub fn law_states<F: Formed>()
    ensures old { (b : Base) → (id : TableNumber) → (index : ℕ → IndexForm) → (es : List Entries) → (v : GroupData) → GroupKept (table_form b id index F.rows) es v → (hs : List HeldBatch) → HeldKept b es id.0 hs → (e : Entries) → (s : ℕ) → (cs : List RowChange) → e.act ≡ Begun id s cs → last_of b id.0 es < s → (p : ℕ) → last_of b id.0 es ≤ p → v.low ≤ p → (r : List ColumnValue) → (w : Effect) → change_of cs r ≡ Some w → (history_at F.rows.shape b (es ++ e ∷ []) id.0 r).old s ≡ after_pending F.rows.shape r (F.rows.spelled (value_at v.cells) r p) hs }
    ensures new { (b : Base) → (id : TableNumber) → (index : ℕ → IndexForm) → (es : List Entries) → (v : GroupData) → GroupKept (table_form b id index F.rows) es v → (hs : List HeldBatch) → HeldKept b es id.0 hs → (e : Entries) → (s : ℕ) → (cs : List RowChange) → e.act ≡ Begun id s cs → last_of b id.0 es < s → (p : ℕ) → last_of b id.0 es ≤ p → v.low ≤ p → (r : List ColumnValue) → (w : Effect) → change_of cs r ≡ Some w → (history_at F.rows.shape b (es ++ e ∷ []) id.0 r).new s ≡ apply F.rows.shape r (after_pending F.rows.shape r (F.rows.spelled (value_at v.cells) r p) hs) w }
{}

/// The rows that an open batch met are exactly those of its rows that are concurrent, at every time, and those that it doesn't
/// hand to the third phase.
pub fn law_met()
    ensures met { (es : List Entries) → (t : ℕ) → (h : HeldBatch) → IsHeldBatch es t h → (r : List ColumnValue) → has h.met r ≡ true → (is_some (change_of h.changes r) ≡ true) × IsConcurrent es t h.stamp r }
    ensures concurrent { (es : List Entries) → (t : ℕ) → (h : HeldBatch) → IsHeldBatch es t h → (r : List ColumnValue) → is_some (change_of h.changes r) ≡ true → IsConcurrent es t h.stamp r → has h.met r ≡ true }
{}

/// Each entry keeps the open batches.
pub fn law_open<F: Formed>()
    ensures begins { (b : Base) → (id : TableNumber) → (index : ℕ → IndexForm) → (es : List Entries) → (v : GroupData) → GroupKept (table_form b id index F.rows) es v → (hs : List HeldBatch) → OpensKept (table_form b id index F.rows) es v.indexes hs → (e : Entries) → (s : ℕ) → (cs : List RowChange) → e.act ≡ Begun id s cs → last_of b id.0 es < s → is_distinct (rows_of cs) ≡ true → (p : ℕ) → last_of b id.0 es ≤ p → v.low ≤ p → (made : List RowCells) → map (λ (x : RowCells). x.row) made ≡ rows_of cs → AllByRecursion (IsComputed (table_form b id index F.rows) (form_in (table_form b id index F.rows) v.indexes) (length v.indexes) s cs (λ r. after_pending F.rows.shape r (F.rows.spelled (value_at v.cells) r p) hs)) made → OpensKept (table_form b id index F.rows) (es ++ e ∷ []) v.indexes (held_begun s cs (length v.indexes) made hs) }
    ensures writes { (b : Base) → (id : TableNumber) → (index : ℕ → IndexForm) → (es : List Entries) → (v : GroupData) → GroupKept (table_form b id index F.rows) es v → (hs : List HeldBatch) → OpensKept (table_form b id index F.rows) es v.indexes hs → (e : Entries) → (s : ℕ) → (rows : List (List ColumnValue)) → e.act ≡ Wrote id s rows → IsWritable es e.seat id.0 s rows → OpensKept (table_form b id index F.rows) (es ++ e ∷ []) v.indexes (held_wrote s rows hs) }
    ensures ends { (b : Base) → (id : TableNumber) → (index : ℕ → IndexForm) → (es : List Entries) → (v : GroupData) → GroupKept (table_form b id index F.rows) es v → (hs : List HeldBatch) → OpensKept (table_form b id index F.rows) es v.indexes hs → (e : Entries) → (s : ℕ) → e.act ≡ Ended id s → IsEndable es e.seat id.0 s → OpensKept (table_form b id index F.rows) (es ++ e ∷ []) v.indexes (held_ended s hs) }
    ensures phases { (b : Base) → (id : TableNumber) → (index : ℕ → IndexForm) → (es : List Entries) → (v : GroupData) → GroupKept (table_form b id index F.rows) es v → (hs : List HeldBatch) → OpensKept (table_form b id index F.rows) es v.indexes hs → (e : Entries) → (s : ℕ) → (phase : ℕ) → e.act ≡ Phase id s phase → IsPhased es e.seat id.0 s phase → OpensKept (table_form b id index F.rows) (es ++ e ∷ []) v.indexes hs }
    ensures idles { (b : Base) → (id : TableNumber) → (index : ℕ → IndexForm) → (es : List Entries) → (v : GroupData) → GroupKept (table_form b id index F.rows) es v → (hs : List HeldBatch) → OpensKept (table_form b id index F.rows) es v.indexes hs → (e : Entries) → IsElsewhere id e.act → OpensKept (table_form b id index F.rows) (es ++ e ∷ []) v.indexes hs }
{}

/// What an open batch hands to the regions, one row after another, is what its phases ask for.
pub fn law_hands<F: Formed>()
    ensures marks { (b : Base) → (id : TableNumber) → (index : ℕ → IndexForm) → (es : List Entries) → (v : GroupData) → GroupKept (table_form b id index F.rows) es v → (h : HeldBatch) → (is : IsHeldBatch es id.0 h) → IsBatchReady (table_form b id index F.rows) es v.indexes h → (m : ℕ) → (done : ℕ) → m < length v.opens → record { stamp = h.stamp; done = done; count = h.count } ≡ get_or v.opens m no_open → done < h.count → is.batch.phase ≡ 0 → (batch : List CellData) → ReadsSame batch (cells_for (picked_cells (λ x. get_or x.marks done []) h.cells) (rows_of h.changes)) → CanMark (table_form b id index F.rows) es v m batch }
    ensures writes { (b : Base) → (id : TableNumber) → (index : ℕ → IndexForm) → (es : List Entries) → (v : GroupData) → GroupKept (table_form b id index F.rows) es v → (h : HeldBatch) → IsHeldBatch es id.0 h → IsBatchReady (table_form b id index F.rows) es v.indexes h → (seat : ℕ) → (rows : List (List ColumnValue)) → (may : IsWritable es seat id.0 h.stamp rows) → (batch : List CellData) → ReadsSame batch (cells_for (picked_cells (λ x. x.puts) h.cells) rows) → ReadsWrites F.rows may.batch h.stamp rows batch }
    ensures closes { (b : Base) → (id : TableNumber) → (index : ℕ → IndexForm) → (es : List Entries) → (v : GroupData) → GroupKept (table_form b id index F.rows) es v → (h : HeldBatch) → (is : IsHeldBatch es id.0 h) → IsBatchReady (table_form b id index F.rows) es v.indexes h → (i : ℕ) → i < h.count → unwritten is.batch ≡ [] → (batch : List CellData) → ReadsSame batch (cells_for (picked_cells (λ x. get_or x.closes i []) h.cells) (to_verify h)) → CanVerify (table_form b id index F.rows) es v i h.stamp (to_verify h) batch }
{}
