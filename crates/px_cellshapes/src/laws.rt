// What holds of tables whose cells have their shape.
ghost use Rattle.std.specs.Prelude.{◌≡◌, ◌≤◌, ◌++◌, ℕ, [], List, Some, length};
ghost use Rattle.std.specs.List.{AllByRecursion};
ghost use Rattle.px_cells.specs.CellData.{CellData};
ghost use Rattle.px_cells.specs.Contents.{value_at};
ghost use Rattle.px_cells.specs.Order.{IsAscending, IsCellList, Reads, ReadsSame};
ghost use Rattle.px_cells.specs.Sight.{IsPlainRegion};
ghost use Rattle.px_forms.specs.Several.{cells_for};
ghost use Rattle.px_indexed.specs.Kept.{AreIndexCells, AreRowCells, IsCompacted};
ghost use Rattle.px_indexrow.specs.Form.{FitsRowState, IsLongInIndex, IsRightIndex, index_columns, index_form};
ghost use Rattle.px_indexrow.specs.Lists.{base_version, closes_of, fix_of, marks_of};
ghost use Rattle.px_keys.specs.Reading.{IsKey};
ghost use Rattle.px_keys.specs.Spelling.{Fits, IsKeyOf};
ghost use Rattle.px_merge.specs.Settle.{settle};
ghost use Rattle.px_paths.specs.Paths.{columns_on, index_path as path_of_index, table_path as path_of_table};
ghost use Rattle.px_rows.specs.Keys.{IsRightTable, row_columns, row_key};
ghost use Rattle.px_rows.specs.Spelled.{FitsTable, IsPlainAt, change_contents, row_form, row_spelling};
ghost use Rattle.px_tables.specs.declared.index.Index.{Index as Indexes};
ghost use Rattle.px_tables.specs.declared.table.Table.{Table as Tables};
ghost use Rattle.px_values.specs.Limits.{most_key};
ghost use Rattle.px_values.specs.States.{RowState};
ghost use Rattle.px_values.specs.declared.change.What.{What};
ghost use Rattle.px_values.specs.declared.row.Value.{Value as ColumnValue};
ghost use Rattle.px_world.specs.Events.{Verdict};
ghost use Rattle.px_cellshapes.specs.Keys.{AreRightKeys, IsRightIndexCell};
ghost use Rattle.px_cellshapes.specs.Rows.{AreRightRows, IsRightRowCell};

/// The columns of the keys of a path are those that rows and index rows are spelled with.
pub fn law_paths()
    ensures table { (t : Tables) → columns_on (path_of_table t) ≡ row_columns t }
    ensures index { (t : Tables) (i : Indexes) → columns_on (path_of_index t i) ≡ index_columns t i }
{}

/// Right cells of rows have no marker that a reader doesn't know, each stands at a row's key, and each row that they spell at any
/// point has values of its columns' types and a key of at most 1,024 bytes.
pub fn law_rows_read()
    ensures each { (t : Tables) (cells : List CellData) → AreRightRows t cells → (c : CellData) → Reads cells c → IsRightRowCell t c }
    ensures listed { (t : Tables) (cells : List CellData) → AllByRecursion (IsRightRowCell t) cells → AreRightRows t cells }
    ensures plain { (t : Tables) (cells : List CellData) → AreRightRows t cells → IsPlainRegion cells }
    ensures plain_at { (t : Tables) (cells : List CellData) → AreRightRows t cells → (k : List ℕ) → IsPlainAt (value_at cells) k }
    ensures owned { (t : Tables) (cells : List CellData) → AreRightRows t cells → AreRowCells (row_form t) cells }
    ensures typed { (t : Tables) (cells : List CellData) → IsRightTable t → AreRightRows t cells → (r : List ColumnValue) (p : ℕ) → FitsRowState t ((row_form t).spelled (value_at cells) r p) }
    ensures short { (t : Tables) (cells : List CellData) → AreRightRows t cells → (r row : List ColumnValue) (p : ℕ) → (row_form t).spelled (value_at cells) r p ≡ Some row → IsKeyOf (row_columns t) r (row_key t r) }
{}

/// Right cells of an index's keys have no marker that a reader doesn't know, each stands at a key of the index, and at a row's.
pub fn law_keys_read()
    ensures each { (t : Tables) (i : Indexes) (cells : List CellData) → AreRightKeys t i cells → (c : CellData) → Reads cells c → IsRightIndexCell t i c }
    ensures listed { (t : Tables) (i : Indexes) (cells : List CellData) → AllByRecursion (IsRightIndexCell t i) cells → AreRightKeys t i cells }
    ensures plain { (t : Tables) (i : Indexes) (cells : List CellData) → AreRightKeys t i cells → IsPlainRegion cells }
    ensures keys { (t : Tables) (i : Indexes) (cells : List CellData) → AreRightKeys t i cells → (c : CellData) → Reads cells c → IsKey most_key (columns_on (path_of_index t i)) c.key }
    ensures owned { (t : Tables) (i : Indexes) (cells : List CellData) (last : ℕ) → AreRightKeys t i cells → ((c : CellData) → Reads cells c → c.stamp ≤ last) → AreIndexCells (index_form t i) last cells }
{}

/// No cells are right, so are right ones over right ones, and those that are left of right ones.
pub fn law_rows_stay()
    ensures none { (t : Tables) → AreRightRows t [] }
    ensures over { (t : Tables) (batch old new : List CellData) → AreRightRows t batch → AreRightRows t old → ReadsSame new (batch ++ old) → AreRightRows t new }
    ensures settled { (t : Tables) (batch old : List CellData) → AreRightRows t batch → AreRightRows t old → AreRightRows t (settle (batch ++ old)) }
    ensures fewer { (t : Tables) (old new : List CellData) → AreRightRows t old → ((c : CellData) → Reads new c → Reads old c) → AreRightRows t new }
    ensures compacted { (t : Tables) (old new : List CellData) (h : ℕ) → AreRightRows t old → IsCompacted old new h → AreRightRows t new }
{}

/// The same of the cells of an index's keys, also of several rows.
pub fn law_keys_stay()
    ensures none { (t : Tables) (i : Indexes) → AreRightKeys t i [] }
    ensures over { (t : Tables) (i : Indexes) (batch old new : List CellData) → AreRightKeys t i batch → AreRightKeys t i old → ReadsSame new (batch ++ old) → AreRightKeys t i new }
    ensures settled { (t : Tables) (i : Indexes) (batch old : List CellData) → AreRightKeys t i batch → AreRightKeys t i old → AreRightKeys t i (settle (batch ++ old)) }
    ensures fewer { (t : Tables) (i : Indexes) (old new : List CellData) → AreRightKeys t i old → ((c : CellData) → Reads new c → Reads old c) → AreRightKeys t i new }
    ensures compacted { (t : Tables) (i : Indexes) (old new : List CellData) (h : ℕ) → AreRightKeys t i old → IsCompacted old new h → AreRightKeys t i new }
    ensures several { (t : Tables) (i : Indexes) (m : List ColumnValue → List CellData) (rows : List (List ColumnValue)) → AllByRecursion (λ r. AllByRecursion (IsRightIndexCell t i) (m r)) rows → AllByRecursion (IsRightIndexCell t i) (cells_for m rows) }
{}

/// The cells of a change that fits are right, where the row's key has at most 1,024 bytes.
pub fn law_rows_written()
    ensures put { (t : Tables) (r : List ColumnValue) (s : ℕ) (w : What) (cells : List CellData) → FitsTable t r w → length (row_key t r) ≤ most_key → value_at cells ≡ change_contents (row_spelling t) r s w → AreRightRows t cells }
    ensures each { (t : Tables) (r : List ColumnValue) (s : ℕ) (w : What) (cells : List CellData) → FitsTable t r w → length (row_key t r) ≤ most_key → value_at cells ≡ change_contents (row_spelling t) r s w → IsCellList cells → AllByRecursion (IsRightRowCell t) cells }
{}

/// So are the marks, the closes, the base versions and the repairs of index rows, where their keys have at most 1,024 bytes.
pub fn law_keys_written()
    ensures marks { (t : Tables) (i : Indexes) (r : List ColumnValue) (s : ℕ) (old new : RowState) → IsRightTable t → IsRightIndex t i → Fits (row_columns t) r → FitsRowState t old → FitsRowState t new → (IsLongInIndex t i r old → ⊥) → (IsLongInIndex t i r new → ⊥) → AllByRecursion (IsRightIndexCell t i) (marks_of (index_form t i) r s old new) }
    ensures closes { (t : Tables) (i : Indexes) (r : List ColumnValue) (s : ℕ) (old new : RowState) → IsRightTable t → IsRightIndex t i → Fits (row_columns t) r → FitsRowState t old → FitsRowState t new → (IsLongInIndex t i r old → ⊥) → (IsLongInIndex t i r new → ⊥) → AllByRecursion (IsRightIndexCell t i) (closes_of (index_form t i) r s old new) }
    ensures base { (t : Tables) (i : Indexes) (r : List ColumnValue) (s : ℕ) (state : RowState) → IsRightTable t → IsRightIndex t i → Fits (row_columns t) r → FitsRowState t state → (IsLongInIndex t i r state → ⊥) → AllByRecursion (IsRightIndexCell t i) (base_version (index_form t i) r s state) }
    ensures fix { (t : Tables) (i : Indexes) (h : ℕ) (state : RowState) (k : List ℕ) (s : ℕ) (v : Verdict) → IsRightIndex t i → FitsRowState t state → IsKey most_key (index_columns t i) k → AllByRecursion (IsRightIndexCell t i) (fix_of (index_form t i) h state k s v) }
{}
