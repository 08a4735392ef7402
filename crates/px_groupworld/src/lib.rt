//! A table as the world of each of its rows at each of its indexes: what stays true of the trail and of the cells of all its
//! regions, whatever comes, and which event of the index protocol each step is, of every row and at every index.
//! Definitions and laws, no code. `GroupKept` is what stays true; `Steps` says that a step keeps it and is its events.
//! `law_batches` has the steps of a batch, `law_upkeep` those of horizons, compactions, builds and repairs, and `law_idle` all else;
//! `law_answers` is what queries may rely on. The code of a table's regions is proved to make these steps.
#![tactic(auto)]

ghost use Rattle.std.specs.Prelude.{◌≡◌, ◌<◌, ◌≤◌, ◌++◌, ◌∷◌, [], ℕ, List, length, get_or, Bool, true, false, Some, None};
ghost use Rattle.px_cells.specs.CellData.{CellData};
ghost use Rattle.px_cells.specs.Order.{ReadsSame};
ghost use Rattle.px_values.specs.declared.row.Value.{Value as ColumnValue};
ghost use Rattle.px_values.specs.declared.change.Change.{Change as RowChange};
ghost use Rattle.px_values.specs.declared.name.TableId.{TableId as TableNumber};
ghost use Rattle.px_trail.specs.declared.entry.Act.TheVariants.{Made, Begun, Wrote, Ended, Phase, Raised};
ghost use Rattle.px_trail.specs.declared.entry.Entry.{Entry as Entries};
ghost use Rattle.px_trail.specs.Batches.{Batch, batch_of, change_of, has};
ghost use Rattle.px_trail.specs.Legal.{IsLegal, MayCome};
ghost use Rattle.px_trail.specs.Trail.{Base, IsRightBase, last_of, new_shape};
ghost use Rattle.px_world.specs.Events.{Mark, Write, Verify, End, Fix, Raise, Forget, Base as BaseVersion, Ready, Comes};
ghost use Rattle.px_forms.specs.Indexes.{IndexForm, IsIndexForm};
ghost use Rattle.px_forms.specs.Rows.{IsDataForm};
ghost use Rattle.px_tables.specs.declared.table.NewTable.{NewTable as TableDefinition};
ghost use Rattle.px_indexed.specs.Worlds.{begin_event, change_event, row_event};
ghost use Rattle.px_indexed.specs.Kept.{IsCompacted, ReadsWrites};
ghost use Rattle.px_indexed.specs.Idle.{IsElsewhere};
ghost use Rattle.px_groupworld.specs.Group.{GroupData, GroupKept, AllAnswer, table_form, no_part, no_open, shape_in, world_in};
ghost use Rattle.px_groupworld.specs.Steps.{Steps, Bears, no_events, at_index, begun_data, marked_data, cells_data, wrote_data, ended_data, raised_data, forgot_data, own_forgot_data, ready_data};
ghost use Rattle.px_groupworld.specs.Asks.{FitAll, CanMark, HasMarked, CanVerify, CanFix, CanBase};
ghost use Rattle.px_groupworld.specs.Sound.{IsSoundTable, made_data};

/// How the rows of the tables are spelled, for laws alone.
pub trait Formed {
    ghost use Rattle.px_forms.specs.Rows.{DataForm};

    ghost rows: { DataForm };
}

/// What a sound folder gives is kept before the first entry.
pub fn law_sound<F: Formed>()
    ensures { (b : Base) → (id : TableNumber) → (index : ℕ → IndexForm) → (v : GroupData) → IsSoundTable (table_form b id index F.rows) v → GroupKept (table_form b id index F.rows) [] v }
{}

/// A table that is made in the run is kept, without a row and without an index: its number is drawn, so nothing was done to it before.
pub fn law_made<F: Formed>()
    ensures { (b : Base) → (id : TableNumber) → (index : ℕ → IndexForm) → IsRightBase b → (es : List Entries) → IsLegal b es → (e : Entries) → MayCome b es e → (what : TableDefinition) → e.act ≡ Made id what → new_shape what ≡ F.rows.shape → IsDataForm F.rows → ((r : List ColumnValue) → (p : ℕ) → F.rows.spelled (λ k q s d. None) r p ≡ None) → ((r : List ColumnValue) → F.rows.IsWhole 0 (λ k q s d. None) r) → GroupKept (table_form b id index F.rows) (es ++ e ∷ []) made_data }
{}

/// As of a point, a verified top shows the row's state of the trail, the key of that state has a top, and the cells of the rows spell it.
pub fn law_answers<F: Formed>()
    ensures { (b : Base) → (id : TableNumber) → (index : ℕ → IndexForm) → (es : List Entries) → (v : GroupData) → GroupKept (table_form b id index F.rows) es v → AllAnswer (table_form b id index F.rows) es v }
{}

/// The steps of a batch, each with its event of every row at every index.
pub fn law_batches<F: Formed>()
    ensures begins { (b : Base) → (id : TableNumber) → (index : ℕ → IndexForm) → (es : List Entries) → (v : GroupData) → GroupKept (table_form b id index F.rows) es v → (e : Entries) → MayCome b es e → (s : ℕ) → (cs : List RowChange) → e.act ≡ Begun id s cs → FitAll (table_form b id index F.rows) cs → Steps (table_form b id index F.rows) (λ i r. begin_event s (change_of cs r)) es v (es ++ e ∷ []) (begun_data s v) }
    ensures marks { (b : Base) → (id : TableNumber) → (index : ℕ → IndexForm) → (es : List Entries) → (v : GroupData) → GroupKept (table_form b id index F.rows) es v → (m : ℕ) → (batch : List CellData) → (cells : List CellData) → (can : CanMark (table_form b id index F.rows) es v m batch) → ReadsSame cells (batch ++ (get_or v.indexes (get_or v.opens m no_open).done no_part).cells) → Steps (table_form b id index F.rows) (λ i r. at_index (get_or v.opens m no_open).done i (change_event (Mark (get_or v.opens m no_open).stamp) (change_of can.batch.changes r))) es v es (marked_data m cells v) }
    ensures marked { (b : Base) → (id : TableNumber) → (index : ℕ → IndexForm) → (es : List Entries) → (v : GroupData) → GroupKept (table_form b id index F.rows) es v → (e : Entries) → MayCome b es e → (m : ℕ) → HasMarked v m → e.act ≡ Phase id (get_or v.opens m no_open).stamp 1 → Steps (table_form b id index F.rows) no_events es v (es ++ e ∷ []) v }
    ensures writes { (b : Base) → (id : TableNumber) → (index : ℕ → IndexForm) → (es : List Entries) → (v : GroupData) → GroupKept (table_form b id index F.rows) es v → (e : Entries) → MayCome b es e → (s : ℕ) → (rows : List (List ColumnValue)) → e.act ≡ Wrote id s rows → (y : Batch) → batch_of id.0 s es ≡ Some y → (batch : List CellData) → (cells : List CellData) → ReadsWrites F.rows y s rows batch → ReadsSame cells (batch ++ v.cells) → Steps (table_form b id index F.rows) (λ i r. row_event (Write s) (has rows r)) es v (es ++ e ∷ []) (wrote_data cells v) }
    ensures verifies { (b : Base) → (id : TableNumber) → (index : ℕ → IndexForm) → (es : List Entries) → (v : GroupData) → GroupKept (table_form b id index F.rows) es v → (at : ℕ) → (batch : List CellData) → (cells : List CellData) → ReadsSame cells (batch ++ (get_or v.indexes at no_part).cells) → (s : ℕ) → (rows : List (List ColumnValue)) → CanVerify (table_form b id index F.rows) es v at s rows batch → Steps (table_form b id index F.rows) (λ i r. at_index at i (row_event (Verify s) (has rows r))) es v es (cells_data at cells v) }
    ensures verified { (b : Base) → (id : TableNumber) → (index : ℕ → IndexForm) → (es : List Entries) → (v : GroupData) → GroupKept (table_form b id index F.rows) es v → (e : Entries) → MayCome b es e → (s : ℕ) → e.act ≡ Phase id s 3 → Steps (table_form b id index F.rows) no_events es v (es ++ e ∷ []) v }
    ensures ends { (b : Base) → (id : TableNumber) → (index : ℕ → IndexForm) → (es : List Entries) → (v : GroupData) → GroupKept (table_form b id index F.rows) es v → (e : Entries) → MayCome b es e → (m : ℕ) → HasMarked v m → e.act ≡ Ended id (get_or v.opens m no_open).stamp → (y : Batch) → batch_of id.0 (get_or v.opens m no_open).stamp es ≡ Some y → Steps (table_form b id index F.rows) (λ i r. change_event (End (get_or v.opens m no_open).stamp) (change_of y.changes r)) es v (es ++ e ∷ []) (ended_data (get_or v.opens m no_open).stamp v) }
{}

/// The steps of upkeep: a horizon that rises, compactions, an index that is born, given base versions and made ready, and repairs.
pub fn law_upkeep<F: Formed>()
    ensures raises { (b : Base) → (id : TableNumber) → (index : ℕ → IndexForm) → (es : List Entries) → (v : GroupData) → GroupKept (table_form b id index F.rows) es v → (e : Entries) → MayCome b es e → (h : ℕ) → e.act ≡ Raised id h → Steps (table_form b id index F.rows) (λ i r. Some (Raise h)) es v (es ++ e ∷ []) (raised_data h v) }
    ensures forgets { (b : Base) → (id : TableNumber) → (index : ℕ → IndexForm) → (es : List Entries) → (v : GroupData) → GroupKept (table_form b id index F.rows) es v → (cells : List CellData) → IsCompacted v.cells cells v.high → Steps (table_form b id index F.rows) (λ i r. Some (Forget false)) es v es (forgot_data cells v) }
    ensures forgets_own { (b : Base) → (id : TableNumber) → (index : ℕ → IndexForm) → (es : List Entries) → (v : GroupData) → GroupKept (table_form b id index F.rows) es v → (at : ℕ) → at < length v.indexes → (cells : List CellData) → IsCompacted (get_or v.indexes at no_part).cells cells v.high → Steps (table_form b id index F.rows) (λ i r. at_index at i (Some (Forget true))) es v es (own_forgot_data at cells v) }
    ensures bears { (b : Base) → (id : TableNumber) → (index : ℕ → IndexForm) → (es : List Entries) → (v : GroupData) → GroupKept (table_form b id index F.rows) es v → (e : Entries) → MayCome b es e → IsElsewhere id e.act → (number : ℕ) → (s : ℕ) → last_of b id.0 es < s → s ≤ last_of b id.0 (es ++ e ∷ []) → IsIndexForm (index number) → Bears (table_form b id index F.rows) number s es v (es ++ e ∷ []) }
    ensures bases { (b : Base) → (id : TableNumber) → (index : ℕ → IndexForm) → (es : List Entries) → (v : GroupData) → GroupKept (table_form b id index F.rows) es v → (at : ℕ) → (batch : List CellData) → (cells : List CellData) → ReadsSame cells (batch ++ (get_or v.indexes at no_part).cells) → (rows : List (List ColumnValue)) → CanBase (table_form b id index F.rows) es v at rows batch → Steps (table_form b id index F.rows) (λ i r. at_index at i (row_event BaseVersion (has rows r))) es v es (cells_data at cells v) }
    ensures readies { (b : Base) → (id : TableNumber) → (index : ℕ → IndexForm) → (es : List Entries) → (v : GroupData) → GroupKept (table_form b id index F.rows) es v → (at : ℕ) → at < length v.indexes → ((r : List ColumnValue) → Comes (shape_in (table_form b id index F.rows) v at r) (world_in (table_form b id index F.rows) es v at r) Ready) → Steps (table_form b id index F.rows) (λ i r. at_index at i (Some Ready)) es v es (ready_data at v) }
    ensures fixes { (b : Base) → (id : TableNumber) → (index : ℕ → IndexForm) → (es : List Entries) → (v : GroupData) → GroupKept (table_form b id index F.rows) es v → (at : ℕ) → (batch : List CellData) → (cells : List CellData) → ReadsSame cells (batch ++ (get_or v.indexes at no_part).cells) → (key : List ℕ) → (s : ℕ) → CanFix (table_form b id index F.rows) es v at key s batch → Steps (table_form b id index F.rows) (λ i r. at_index at i (row_event (Fix key s) ((index (get_or v.indexes at no_part).id).owns r key))) es v es (cells_data at cells v) }
{}

/// An entry of another table, or of points, repairs, indexes and device calls, is no event of the table's worlds.
pub fn law_idle<F: Formed>()
    ensures { (b : Base) → (id : TableNumber) → (index : ℕ → IndexForm) → (es : List Entries) → (v : GroupData) → GroupKept (table_form b id index F.rows) es v → (e : Entries) → MayCome b es e → IsElsewhere id e.act → Steps (table_form b id index F.rows) no_events es v (es ++ e ∷ []) v }
{}
