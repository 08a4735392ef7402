//! A table with its open batches: what stays true of both, and which events of the index protocol each step is.
//! `TableKept` ties the worlds of px_groupworld to the batches of px_openbatches. `law_steps` has every step of a batch, from what is
//! handed to a region alone: begin with computed cells, mark, write, verify, end, and an entry of others. `law_other` has the rest.
//! `law_receipt`: where a batch verified at all its indexes, the marks of each row that isn't concurrent are closed.
//! Definitions and laws, no code. The group of a table's regions is the code that makes these steps.
#![tactic(auto)]

ghost use Rattle.std.specs.Prelude.{◌≡◌, ◌<◌, ◌≤◌, ◌+◌, ◌++◌, ◌∷◌, [], ℕ, Bool, true, List, length, get_or, map, Some, is_some};
ghost use Rattle.std.specs.List.{AllByRecursion};
ghost use Rattle.std.proofs.Math.ListN.{set};
ghost use Rattle.px_cells.specs.CellData.{CellData};
ghost use Rattle.px_cells.specs.Contents.{value_at};
ghost use Rattle.px_cells.specs.Order.{ReadsSame};
ghost use Rattle.px_values.specs.declared.row.Value.{Value as ColumnValue};
ghost use Rattle.px_values.specs.declared.change.Change.{Change as RowChange};
ghost use Rattle.px_values.specs.declared.name.TableId.{TableId as TableNumber};
ghost use Rattle.px_trail.specs.declared.entry.Act.TheVariants.{Begun, Wrote, Ended, Phase, Raised};
ghost use Rattle.px_trail.specs.declared.entry.Entry.{Entry as Entries};
ghost use Rattle.px_trail.specs.Batches.{IsBatchIn, IsConcurrent, Marking, Verifying, change_of, has, rows_of};
ghost use Rattle.px_trail.specs.Legal.{MayCome};
ghost use Rattle.px_trail.specs.Trail.{Base, last_of};
ghost use Rattle.px_world.specs.Closed.{Closed};
ghost use Rattle.px_world.specs.Events.{Mark, Verify, Write, End, Raise};
ghost use Rattle.px_forms.specs.Indexes.{IndexForm, IsIndexForm};
ghost use Rattle.px_indexed.specs.Idle.{IsElsewhere};
ghost use Rattle.px_indexed.specs.Worlds.{begin_event, change_event, row_event};
ghost use Rattle.px_groupworld.specs.Group.{GroupData, no_part, shape_in, table_form, world_in};
ghost use Rattle.px_groupworld.specs.Steps.{Events, Steps, at_index, no_events, begun_data, cells_data, ended_data, gone_on, raised_data, wrote_data};
ghost use Rattle.px_groupworld.specs.Asks.{FitAll};
ghost use Rattle.px_forms.specs.Several.{cells_for};
ghost use Rattle.px_openbatches.specs.Made.{IsComputed, RowCells, picked_cells};
ghost use Rattle.px_openbatches.specs.Pending.{HeldBatch, after_pending, held_begun, held_ended, held_wrote, to_verify};
ghost use Rattle.px_openbatches.specs.Opens.{form_in};
ghost use Rattle.px_tablesteps.specs.Kept.{IsQuietGroupStep, TableBears, TableKept, TableSteps, no_held, open_of};

use px_groupworld::Formed;

/// The steps of a batch.
pub fn law_steps<F: Formed>()
    ensures begins { (b : Base) → (id : TableNumber) → (index : ℕ → IndexForm) → (es : List Entries) → (v : GroupData) → (hs : List HeldBatch) → TableKept (table_form b id index F.rows) es v hs → (e : Entries) → MayCome b es e → (s : ℕ) → (cs : List RowChange) → e.act ≡ Begun id s cs → FitAll (table_form b id index F.rows) cs → (p : ℕ) → last_of b id.0 es ≤ p → v.low ≤ p → (made : List RowCells) → map (λ (x : RowCells). x.row) made ≡ rows_of cs → AllByRecursion (IsComputed (table_form b id index F.rows) (form_in (table_form b id index F.rows) v.indexes) (length v.indexes) s cs (λ r. after_pending F.rows.shape r (F.rows.spelled (value_at v.cells) r p) hs)) made → TableSteps (table_form b id index F.rows) (λ i r. begin_event s (change_of cs r)) es v (es ++ e ∷ []) (begun_data s v) (held_begun s cs (length v.indexes) made hs) }
    ensures marks { (b : Base) → (id : TableNumber) → (index : ℕ → IndexForm) → (es : List Entries) → (v : GroupData) → (hs : List HeldBatch) → TableKept (table_form b id index F.rows) es v hs → (m : ℕ) → m < length hs → (seat : ℕ) → IsBatchIn es seat id.0 (get_or hs m no_held).stamp Marking → (get_or hs m no_held).done < (get_or hs m no_held).count → (batch : List CellData) → (cells : List CellData) → ReadsSame batch (cells_for (picked_cells (λ x. get_or x.marks (get_or hs m no_held).done []) (get_or hs m no_held).cells) (rows_of (get_or hs m no_held).changes)) → ReadsSame cells (batch ++ (get_or v.indexes (get_or hs m no_held).done no_part).cells) → TableSteps (table_form b id index F.rows) (λ i r. at_index (get_or hs m no_held).done i (change_event (Mark (get_or hs m no_held).stamp) (change_of (get_or hs m no_held).changes r))) es v es (record (cells_data (get_or hs m no_held).done cells v) { opens = set v.opens m (gone_on (open_of (get_or hs m no_held))) }) (set hs m (record (get_or hs m no_held) { done = (get_or hs m no_held).done + 1; verified = (get_or hs m no_held).verified })) }
    ensures marked { (b : Base) → (id : TableNumber) → (index : ℕ → IndexForm) → (es : List Entries) → (v : GroupData) → (hs : List HeldBatch) → TableKept (table_form b id index F.rows) es v hs → (m : ℕ) → m < length hs → (e : Entries) → MayCome b es e → (get_or hs m no_held).done ≡ (get_or hs m no_held).count → e.act ≡ Phase id (get_or hs m no_held).stamp 1 → TableSteps (table_form b id index F.rows) no_events es v (es ++ e ∷ []) v hs }
    ensures writes { (b : Base) → (id : TableNumber) → (index : ℕ → IndexForm) → (es : List Entries) → (v : GroupData) → (hs : List HeldBatch) → TableKept (table_form b id index F.rows) es v hs → (e : Entries) → MayCome b es e → (m : ℕ) → m < length hs → (rows : List (List ColumnValue)) → e.act ≡ Wrote id (get_or hs m no_held).stamp rows → (batch : List CellData) → (cells : List CellData) → ReadsSame batch (cells_for (picked_cells (λ x. x.puts) (get_or hs m no_held).cells) rows) → ReadsSame cells (batch ++ v.cells) → TableSteps (table_form b id index F.rows) (λ i r. row_event (Write (get_or hs m no_held).stamp) (has rows r)) es v (es ++ e ∷ []) (wrote_data cells v) (held_wrote (get_or hs m no_held).stamp rows hs) }
    ensures verifies { (b : Base) → (id : TableNumber) → (index : ℕ → IndexForm) → (es : List Entries) → (v : GroupData) → (hs : List HeldBatch) → TableKept (table_form b id index F.rows) es v hs → (m : ℕ) → m < length hs → (seat : ℕ) → IsBatchIn es seat id.0 (get_or hs m no_held).stamp Verifying → (get_or hs m no_held).verified < (get_or hs m no_held).count → (batch : List CellData) → (cells : List CellData) → ReadsSame batch (cells_for (picked_cells (λ x. get_or x.closes (get_or hs m no_held).verified []) (get_or hs m no_held).cells) (to_verify (get_or hs m no_held))) → ReadsSame cells (batch ++ (get_or v.indexes (get_or hs m no_held).verified no_part).cells) → TableSteps (table_form b id index F.rows) (λ i r. at_index (get_or hs m no_held).verified i (row_event (Verify (get_or hs m no_held).stamp) (has (to_verify (get_or hs m no_held)) r))) es v es (cells_data (get_or hs m no_held).verified cells v) (set hs m (record (get_or hs m no_held) { done = (get_or hs m no_held).done; verified = (get_or hs m no_held).verified + 1 })) }
    ensures verified { (b : Base) → (id : TableNumber) → (index : ℕ → IndexForm) → (es : List Entries) → (v : GroupData) → (hs : List HeldBatch) → TableKept (table_form b id index F.rows) es v hs → (e : Entries) → MayCome b es e → (s : ℕ) → e.act ≡ Phase id s 3 → TableSteps (table_form b id index F.rows) no_events es v (es ++ e ∷ []) v hs }
    ensures ends { (b : Base) → (id : TableNumber) → (index : ℕ → IndexForm) → (es : List Entries) → (v : GroupData) → (hs : List HeldBatch) → TableKept (table_form b id index F.rows) es v hs → (m : ℕ) → m < length hs → (e : Entries) → MayCome b es e → (get_or hs m no_held).done ≡ (get_or hs m no_held).count → e.act ≡ Ended id (get_or hs m no_held).stamp → TableSteps (table_form b id index F.rows) (λ i r. change_event (End (get_or hs m no_held).stamp) (change_of (get_or hs m no_held).changes r)) es v (es ++ e ∷ []) (ended_data (get_or hs m no_held).stamp v) (held_ended (get_or hs m no_held).stamp hs) }
    ensures idles { (b : Base) → (id : TableNumber) → (index : ℕ → IndexForm) → (es : List Entries) → (v : GroupData) → (hs : List HeldBatch) → TableKept (table_form b id index F.rows) es v hs → (e : Entries) → MayCome b es e → IsElsewhere id e.act → TableSteps (table_form b id index F.rows) no_events es v (es ++ e ∷ []) v hs }
{}

/// A step of the table's regions alone, that makes no index: the open batches stay as they are.
pub fn law_other<F: Formed>()
    ensures { (b : Base) → (id : TableNumber) → (index : ℕ → IndexForm) → (es : List Entries) → (v : GroupData) → (hs : List HeldBatch) → TableKept (table_form b id index F.rows) es v hs → (e : Events) → (now : GroupData) → Steps (table_form b id index F.rows) e es v es now → IsQuietGroupStep e v now → TableSteps (table_form b id index F.rows) e es v es now hs }
{}

/// The table's horizon rises, and an index is born, while batches are open.
pub fn law_upkeep<F: Formed>()
    ensures raises { (b : Base) → (id : TableNumber) → (index : ℕ → IndexForm) → (es : List Entries) → (v : GroupData) → (hs : List HeldBatch) → TableKept (table_form b id index F.rows) es v hs → (e : Entries) → MayCome b es e → (h : ℕ) → e.act ≡ Raised id h → TableSteps (table_form b id index F.rows) (λ i r. Some (Raise h)) es v (es ++ e ∷ []) (raised_data h v) hs }
    ensures bears { (b : Base) → (id : TableNumber) → (index : ℕ → IndexForm) → (es : List Entries) → (v : GroupData) → (hs : List HeldBatch) → TableKept (table_form b id index F.rows) es v hs → (e : Entries) → MayCome b es e → IsElsewhere id e.act → (number : ℕ) → (s : ℕ) → last_of b id.0 es < s → s ≤ last_of b id.0 (es ++ e ∷ []) → IsIndexForm (index number) → TableBears (table_form b id index F.rows) number s es v (es ++ e ∷ []) hs }
{}

/// Where a batch has verified at each of its indexes, the marks of each of its rows that isn't concurrent are closed there.
pub fn law_receipt<F: Formed>()
    ensures { (b : Base) → (id : TableNumber) → (index : ℕ → IndexForm) → (es : List Entries) → (v : GroupData) → (hs : List HeldBatch) → TableKept (table_form b id index F.rows) es v hs → (m : ℕ) → m < length hs → (get_or hs m no_held).verified ≡ (get_or hs m no_held).count → (i : ℕ) → i < (get_or hs m no_held).count → (r : List ColumnValue) → is_some (change_of (get_or hs m no_held).changes r) ≡ true → (IsConcurrent es id.0 (get_or hs m no_held).stamp r → ⊥) → Closed (shape_in (table_form b id index F.rows) v i r) (world_in (table_form b id index F.rows) es v i r) (get_or hs m no_held).stamp }
{}
