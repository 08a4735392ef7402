//! What the cells of a row's change are to the steps of a table, and what the rows are that a table's cells spell.
//! `law_rows_made`, `law_rows_put`: the cells that px_indexrow and px_rows make of a change are such as an open batch keeps, at the
//! row's own keys, of kinds that may stand there. `law_fixes`: those of the repair that is due are what a repair asks for, of every row.
//! `law_typed`, `law_stays_typed`: the rows that cells spell, and those that a new batch counts on, have values of their columns'
//! types. `law_short_keys`: they have keys of at most 1,024 bytes. Definitions and laws, no code.
#![tactic(auto)]

ghost use Rattle.std.specs.Prelude.{◌≡◌, ◌<◌, ◌≤◌, ◌++◌, ◌∷◌, [], ℕ, Bool, true, false, List, length, get_or, Some, None};
ghost use Rattle.std.specs.List.{AllByRecursion};
ghost use Rattle.px_cells.specs.CellData.{CellData};
ghost use Rattle.px_cells.specs.Order.{IsCellList, ReadsSame};
ghost use Rattle.px_values.specs.declared.row.Value.{Value as ColumnValue};
ghost use Rattle.px_values.specs.States.{RowState, Shape as RowShape};
ghost use Rattle.px_values.specs.declared.name.TableId.{TableId as TableNumber};
ghost use Rattle.px_trail.specs.declared.entry.Entry.{Entry as Entries};
ghost use Rattle.px_trail.specs.Trail.{Base, last_of, table_shape};
ghost use Rattle.px_world.specs.Events.{due, stands};
ghost use Rattle.px_world.specs.IndexCells.{mark_cells, close_cells};
ghost use Rattle.px_world.specs.World.{horizon, is_undecided, st};
ghost use Rattle.px_forms.specs.Indexes.{IndexForm, IsIndexForm, IsPlaced, shape_at};
ghost use Rattle.px_indexed.specs.Worlds.{history_at};
ghost use Rattle.px_groupworld.specs.Group.{GroupData, GroupKept, no_part, shape_in, table_form, world_in};
ghost use Rattle.px_groupworld.specs.Asks.{CanFix};
ghost use Rattle.px_indexrow.specs.Lists.{closes_of, fix_of, marks_of};
ghost use Rattle.px_openbatches.specs.Made.{IsIndexRow, IsPutOfRow};
ghost use Rattle.px_cells.specs.Contents.{Contents, value_at};
ghost use Rattle.px_cells.specs.declared.kind.CellKind.{CellKind};
ghost use Rattle.px_forms.specs.Rows.{IsChangeWritten, IsClearFrom, IsCompactedAt};
ghost use Rattle.px_openbatches.specs.Pending.{HeldBatch, HeldKept, IsHeldBatch, after_pending};
ghost use Rattle.px_rows.specs.Keys.{IsRightTable, row_key};
ghost use Rattle.px_rows.specs.Spelled.{FitsTable, change_contents, row_form, row_spelling};
ghost use Rattle.px_tablefolder.specs.Folder.{IsFolderBase, TableFiles};
ghost use Rattle.px_tablereads.specs.Told.{WritesSome};
ghost use Rattle.px_tables.specs.declared.table.Table.{Table};
ghost use Rattle.px_trail.specs.Batches.{change_of};
ghost use Rattle.px_trail.specs.States.{begun_by};
ghost use Rattle.px_trail.specs.declared.entry.Act.TheVariants.{Begun};
ghost use Rattle.px_values.specs.Limits.{most_key};
ghost use Rattle.px_values.specs.declared.change.Change.{Change as RowChange};
ghost use Rattle.px_values.specs.declared.change.What.{What};
ghost use Rattle.px_batchcells.specs.Keys.{AreShort, HaveShortKeys};
ghost use Rattle.px_batchcells.specs.Typed.{AreTyped, IsTypedFrom};

use px_groupworld::Formed;

/// A row's marks, and what closes them, are such as an open batch keeps.
pub fn law_rows_made()
    ensures marks { (sh : RowShape) → (f : IndexForm) → IsIndexForm f → IsPlaced f → (r : List ColumnValue) → (s : ℕ) → (old : RowState) → (new : RowState) → IsIndexRow f r s (mark_cells (shape_at sh f r) s old new) (marks_of f r s old new) }
    ensures closes { (sh : RowShape) → (f : IndexForm) → IsIndexForm f → IsPlaced f → (r : List ColumnValue) → (s : ℕ) → (old : RowState) → (new : RowState) → IsIndexRow f r s (close_cells (shape_at sh f r) s old new) (closes_of f r s old new) }
{}

/// The cells of a row's change are such as an open batch keeps, and each change writes one.
pub fn law_rows_put()
    ensures keys { (b : Base) → (id : TableNumber) → (index : ℕ → IndexForm) → (t : Table) → (r : List ColumnValue) → (s : ℕ) → (w : What) → (cells : List CellData) → IsCellList cells → AllByRecursion (λ c. c.key ≡ row_key t r) cells → value_at cells ≡ change_contents (row_spelling t) r s w → AllByRecursion (IsPutOfRow (table_form b id index (row_form t)) r) cells }
    ensures puts { (b : Base) → (id : TableNumber) → (index : ℕ → IndexForm) → (t : Table) → (r : List ColumnValue) → (s : ℕ) → (w : What) → (cells : List CellData) → IsCellList cells → AllByRecursion (λ c. c.key ≡ row_key t r) cells → value_at cells ≡ change_contents (row_spelling t) r s w → (q : ℕ) → (u : ℕ) → (d : CellKind) → value_at cells ((row_form t).key_of r) q u d ≡ (row_form t).cells_of r s w ((row_form t).key_of r) q u d }
    ensures some { (t : Table) → WritesSome (row_form t) }
{}

/// The cells of the repair that is due of a version are its repair, of every row.
pub fn law_fixes<F: Formed>()
    ensures { (b : Base) → (id : TableNumber) → (index : ℕ → IndexForm) → (es : List Entries) → (v : GroupData) → (i : ℕ) → i < length v.indexes → IsIndexForm (index (get_or v.indexes i no_part).id) → IsPlaced (index (get_or v.indexes i no_part).id) → (r : List ColumnValue) → (key : List ℕ) → (s : ℕ) → (index (get_or v.indexes i no_part).id).owns r key ≡ true → stands (world_in (table_form b id index F.rows) es v i r) key s → is_undecided ((history_at F.rows.shape b es id.0 r).fate s) ≡ false → s ≤ last_of b id.0 es → (cells : List CellData) → ReadsSame cells (fix_of (index (get_or v.indexes i no_part).id) (horizon (world_in (table_form b id index F.rows) es v i r)) (st (world_in (table_form b id index F.rows) es v i r) (horizon (world_in (table_form b id index F.rows) es v i r))) key s (due (shape_in (table_form b id index F.rows) v i r) (world_in (table_form b id index F.rows) es v i r) key s)) → CanFix (table_form b id index F.rows) es v i key s cells }
{}

/// The states that the cells of a table's rows spell have values of its columns' types, where those of its base have; so do the
/// states that a new batch counts on, and the changes of open batches are ones that the table lets in.
pub fn law_typed()
    ensures spelled { (t : Table) → IsRightTable t → (b : Base) → (id : TableNumber) → (index : ℕ → IndexForm) → (es : List Entries) → (v : GroupData) → GroupKept (table_form b id index (row_form t)) es v → AreTyped t v.low (b.state id.0) → AreTyped t v.low ((row_form t).spelled (value_at v.cells)) }
    ensures change { (t : Table) → (b : Base) → (id : TableNumber) → (index : ℕ → IndexForm) → (es : List Entries) → (v : GroupData) → GroupKept (table_form b id index (row_form t)) es v → (h : HeldBatch) → IsHeldBatch es id.0 h → (r : List ColumnValue) → (w : What) → change_of h.changes r ≡ Some w → FitsTable t r w }
    ensures expected { (t : Table) → IsRightTable t → (b : Base) → (id : TableNumber) → (index : ℕ → IndexForm) → (es : List Entries) → (v : GroupData) → GroupKept (table_form b id index (row_form t)) es v → AreTyped t v.low (b.state id.0) → (hs : List HeldBatch) → HeldKept b es id.0 hs → AreTyped t v.low (λ r p. after_pending (table_shape t) r ((row_form t).spelled (value_at v.cells) r p) hs) }
{}

/// So it is where nothing stands, and it stays so where a change is written and where cells are forgotten up to a horizon. The base
/// of a run that opens the folder has such states.
pub fn law_stays_typed()
    ensures nothing { (t : Table) → (low : ℕ) → AreTyped t low ((row_form t).spelled (λ k q s d. None)) }
    ensures written { (t : Table) → (low : ℕ) → (g : Contents) → (g' : Contents) → (r : List ColumnValue) → IsRightTable t → (s : ℕ) → (w : What) → low < s → FitsTable t r w → (row_form t).IsWhole low g r → IsClearFrom (row_form t) g r s → IsChangeWritten (row_form t) g g' r s w → IsTypedFrom t low ((row_form t).spelled g r) → IsTypedFrom t low ((row_form t).spelled g' r) }
    ensures compacted { (t : Table) → (low : ℕ) → (g : Contents) → (g' : Contents) → (r : List ColumnValue) → (h : ℕ) → low ≤ h → (row_form t).IsWhole low g r → IsCompactedAt g g' ((row_form t).key_of r) h → IsTypedFrom t low ((row_form t).spelled g r) → IsTypedFrom t h ((row_form t).spelled g' r) }
    ensures opened { (t : Table) → (b : Base) → (id : TableNumber) → (n : TableFiles) → IsFolderBase b id.0 (row_form t) n → AreTyped t n.horizon ((row_form t).spelled (value_at n.cells)) → (low : ℕ) → AreTyped t low (b.state id.0) }
{}

/// Each row that stands in the cells of a table has a key of at most 1,024 bytes, where each of its base's has and each row that a
/// batch began to change.
pub fn law_short_keys()
    ensures spelled { (t : Table) → (b : Base) → (id : TableNumber) → (index : ℕ → IndexForm) → (es : List Entries) → (v : GroupData) → GroupKept (table_form b id index (row_form t)) es v → HaveShortKeys t v.low (b.state id.0) → AreShort t id.0 es → HaveShortKeys t v.low ((row_form t).spelled (value_at v.cells)) }
    ensures opened { (t : Table) → (b : Base) → (id : TableNumber) → (n : TableFiles) → IsFolderBase b id.0 (row_form t) n → HaveShortKeys t n.horizon ((row_form t).spelled (value_at n.cells)) → (low : ℕ) → HaveShortKeys t low (b.state id.0) }
    ensures none { (t : Table) → (n : ℕ) → AreShort t n [] }
    ensures begins { (t : Table) → (n : ℕ) → (es : List Entries) → AreShort t n es → (e : Entries) → (id : TableNumber) → (s : ℕ) → (cs : List RowChange) → e.act ≡ Begun id s cs → AllByRecursion (λ c. length (row_key t c.row) ≤ most_key) cs → AreShort t n (es ++ e ∷ []) }
    ensures others { (t : Table) → (n : ℕ) → (es : List Entries) → AreShort t n es → (e : Entries) → ((r : List ColumnValue) → begun_by n r e.act ≡ []) → AreShort t n (es ++ e ∷ []) }
{}
