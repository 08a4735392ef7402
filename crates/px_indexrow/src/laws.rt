// What each row sees of the cells of index rows.
ghost use Rattle.std.specs.Prelude.{◌≡◌, ℕ, List, true, Some};
ghost use Rattle.px_cells.specs.CellData.{CellData};
ghost use Rattle.px_cells.specs.Order.{ReadsSame};
ghost use Rattle.px_forms.specs.Indexes.{IndexForm, IsIndexForm, IsPlaced, cells_if, shape_at, view_at};
ghost use Rattle.px_keys.specs.Spelling.{Fits, spelled};
ghost use Rattle.px_rows.specs.Keys.{IsRightTable, row_columns};
ghost use Rattle.px_tables.specs.declared.index.Index.{Index};
ghost use Rattle.px_tables.specs.declared.table.Table.{Table};
ghost use Rattle.px_trail.specs.Batches.{has, is_distinct};
ghost use Rattle.px_values.specs.States.{RowState, Shape, apply};
ghost use Rattle.px_values.specs.declared.change.What.{What};
ghost use Rattle.px_rows.specs.Spelled.{FitsTable};
ghost use Rattle.px_trail.specs.Trail.{table_shape};
ghost use Rattle.px_values.specs.declared.row.Value.{Value as ColumnValue};
ghost use Rattle.px_world.specs.Events.{Verdict as Repair};
ghost use Rattle.px_world.specs.IndexCells.{base_cells, close_cells, fix_cells, mark_cells};
ghost use Rattle.px_indexrow.specs.Form.{FitsRowState, IsRightIndex, index_columns, index_form, index_values, key_of_state};
ghost use Rattle.px_forms.specs.Several.{AreOwned, cells_for};
ghost use Rattle.px_indexrow.specs.Lists.{base_version, closes_of, fix_of, marks_of};

/// The index rows of a table's index keep what an index region asks: a row's keys are its own, and no two rows have one. The key
/// of a state is its indexed values and the row's primary key, and a change that fits leaves a state that fits.
pub fn law_index()
    ensures form { (t : Table) (i : Index) → IsIndexForm (index_form t i) }
    ensures placed { (t : Table) (i : Index) → IsRightIndex t i → IsPlaced (index_form t i) }
    ensures key { (t : Table) (i : Index) (r row : List ColumnValue) → IsRightTable t → IsRightIndex t i → Fits (row_columns t) r → FitsRowState t (Some row) → key_of_state t i r (Some row) ≡ Some (spelled (index_columns t i) (index_values t i r row)) }
    ensures fits { (t : Table) (r : List ColumnValue) (o : RowState) (w : What) → IsRightTable t → FitsTable t r w → FitsRowState t o → FitsRowState t (apply (table_shape t) r o w) }
{}

/// Of the marks and closes of rows, in any order, each row sees the cells of its own event and no others;
/// and so it does of a base version and of a repair.
pub fn law_batches()
    ensures marks { (sh : Shape) (f : IndexForm) → IsIndexForm f → IsPlaced f → (s : ℕ) (old new : List ColumnValue → RowState) (rows : List (List ColumnValue)) → is_distinct rows ≡ true → (batch : List CellData) → ReadsSame batch (cells_for (λ r. marks_of f r s (old r) (new r)) rows) → (r : List ColumnValue) → view_at f r batch ≡ cells_if (has rows r) (mark_cells (shape_at sh f r) s (old r) (new r)) }
    ensures closes { (sh : Shape) (f : IndexForm) → IsIndexForm f → IsPlaced f → (s : ℕ) (old new : List ColumnValue → RowState) (rows : List (List ColumnValue)) → is_distinct rows ≡ true → (batch : List CellData) → ReadsSame batch (cells_for (λ r. closes_of f r s (old r) (new r)) rows) → (r : List ColumnValue) → view_at f r batch ≡ cells_if (has rows r) (close_cells (shape_at sh f r) s (old r) (new r)) }
    ensures one_mark { (sh : Shape) (f : IndexForm) → IsIndexForm f → IsPlaced f → (r : List ColumnValue) (s : ℕ) (old new : RowState) → view_at f r (marks_of f r s old new) ≡ mark_cells (shape_at sh f r) s old new }
    ensures one_close { (sh : Shape) (f : IndexForm) → IsIndexForm f → IsPlaced f → (r : List ColumnValue) (s : ℕ) (old new : RowState) → view_at f r (closes_of f r s old new) ≡ close_cells (shape_at sh f r) s old new }
    ensures base { (sh : Shape) (f : IndexForm) → IsIndexForm f → IsPlaced f → (r : List ColumnValue) (s : ℕ) (state : RowState) → view_at f r (base_version f r s state) ≡ base_cells (shape_at sh f r) s state }
    ensures fix { (sh : Shape) (f : IndexForm) → IsIndexForm f → IsPlaced f → (r : List ColumnValue) (h : ℕ) (state : RowState) (k : List ℕ) → f.owns r k ≡ true → (t : ℕ) (v : Repair) → view_at f r (fix_of f h state k t v) ≡ fix_cells (shape_at sh f r) h state k t v }
    ensures own { (f : IndexForm) → IsIndexForm f → (r : List ColumnValue) (s : ℕ) (old new : RowState) → AreOwned f r (marks_of f r s old new) × AreOwned f r (closes_of f r s old new) × AreOwned f r (base_version f r s new) }
{}
