// What looks find, in the words of a query's steps.
ghost use Rattle.std.specs.Prelude.{◌≡◌, ◌<◌, ◌≤◌, ℕ, true, List, Option, Some, get_or, length, max};
ghost use Rattle.px_cells.specs.CellData.{CellData};
ghost use Rattle.px_cells.specs.Contents.{Contents, value_at};
ghost use Rattle.px_cells.specs.declared.kind.CellKind.TheVariants.{Put};
ghost use Rattle.px_calls.specs.Looks.{Shows, ShowsRows};
ghost use Rattle.px_calls.specs.declared.query.By.TheVariants.{Index as ByIndex, Table as ByTable};
ghost use Rattle.px_calls.specs.declared.query.FoundKey.{FoundKey as Finding};
ghost use Rattle.px_calls.specs.declared.query.Path.{Path as PathData};
ghost use Rattle.px_calls.specs.declared.query.Point.{Point as PointData};
ghost use Rattle.px_cellshapes.specs.Rows.{AreRightRows};
ghost use Rattle.px_forms.specs.Indexes.{IndexForm};
ghost use Rattle.px_groupworld.specs.Group.{GroupData, GroupKept, no_part, table_form};
ghost use Rattle.px_indexrow.specs.Form.{IsRightIndex, index_form, owns, row_of_index};
ghost use Rattle.px_keys.specs.Reading.{IsKey};
ghost use Rattle.px_keys.specs.Spelling.{Fits, IsKeyOf};
ghost use Rattle.px_looks.specs.Found.{AreNext};
ghost use Rattle.px_looks.specs.IndexKeys.{ShowsKey};
ghost use Rattle.px_looks.specs.Rows.{ShowsRow};
ghost use Rattle.px_paths.specs.Paths.{columns_on, index_path as path_of_index, owner_of};
ghost use Rattle.px_rows.specs.Keys.{IsRightTable, row_columns};
ghost use Rattle.px_rows.specs.Spelled.{row_form};
ghost use Rattle.px_tables.specs.declared.index.Index.{Index as Indexes};
ghost use Rattle.px_tables.specs.declared.table.Table.{Table as Tables};
ghost use Rattle.px_trail.specs.Trail.{Base};
ghost use Rattle.px_trail.specs.declared.entry.Entry.{Entry as Entries};
ghost use Rattle.px_values.specs.Limits.{most_key};
ghost use Rattle.px_values.specs.declared.row.Value.{Value as ColumnValue};
ghost use Rattle.px_shown.specs.Told.{IsHolder, IsIndexAt, IsPointOfTable, SpellsRows, keyed_if, reach_of};

/// Right cells of rows spell rows of the table, at every point.
pub fn law_spells()
    ensures { (t : Tables) (cells : List CellData) → IsRightTable t → AreRightRows t cells → SpellsRows t (value_at cells) }
{}

/// The next rows of a table are what a look of its path gives: keys in order, and of the rows at the point each, and no other.
pub fn law_rows_shown()
    ensures keys { (t : Tables) (g : Contents) (q : ℕ) (p : PointData) (path : PathData) → path.by ≡ ByTable → (after : Option (List ℕ)) (found : List Finding) (next : Option (List ℕ)) → AreNext (ShowsRow t q) g path.low path.high after found next → Shows p path after found next }
    ensures rows { (t : Tables) → IsRightTable t → (b : Base) (index : ℕ → IndexForm) (es : List Entries) (v : GroupData) → GroupKept (table_form b t.id index (row_form t)) es v → SpellsRows t (value_at v.cells) → (p : PointData) → IsPointOfTable t p → v.low ≤ reach_of p → (path : PathData) → path.by ≡ ByTable → (after : Option (List ℕ)) (found : List Finding) (next : Option (List ℕ)) → AreNext (ShowsRow t (reach_of p)) (value_at v.cells) path.low path.high after found next → ShowsRows b es p path after found next }
{}

/// The next keys of an index that queries may read are what a look of its path gives, from its horizon on: a sure key has its row
/// at the point, and each row there has its key among them, sure or in doubt.
pub fn law_keys_shown()
    ensures keys { (t : Tables) (x : Indexes) (g : Contents) (q : ℕ) (p : PointData) → p.found.table ≡ t → IsIndexAt p x → (path : PathData) → path.by ≡ ByIndex x.id → (after : Option (List ℕ)) (found : List Finding) (next : Option (List ℕ)) → AreNext (ShowsKey t x q) g path.low path.high after found next → Shows p path after found next }
    ensures rows { (t : Tables) (x : Indexes) → IsRightTable t → IsRightIndex t x → (b : Base) (index : ℕ → IndexForm) (es : List Entries) (v : GroupData) → GroupKept (table_form b t.id index (row_form t)) es v → SpellsRows t (value_at v.cells) → (i : ℕ) → i < length v.indexes → (get_or v.indexes i no_part).is_built ≡ true → index (get_or v.indexes i no_part).id ≡ index_form t x → ((k : List ℕ) (s : ℕ) (status : List ℕ) → value_at (get_or v.indexes i no_part).cells k 1 s Put ≡ Some status → length k ≤ most_key) → (p : PointData) → IsPointOfTable t p → IsIndexAt p x → max (get_or v.indexes i no_part).birth v.high ≤ reach_of p → (path : PathData) → path.by ≡ ByIndex x.id → (after : Option (List ℕ)) (found : List Finding) (next : Option (List ℕ)) → AreNext (ShowsKey t x (reach_of p)) (value_at (get_or v.indexes i no_part).cells) path.low path.high after found next → ShowsRows b es p path after found next }
{}

/// The row with the primary key values that an index key holds is the one that has the key, if its own key is this one: no other has it.
pub fn law_held()
    ensures { (t : Tables) (x : Indexes) → IsRightTable t → IsRightIndex t x → (b : Base) (index : ℕ → IndexForm) (es : List Entries) (v : GroupData) → GroupKept (table_form b t.id index (row_form t)) es v → SpellsRows t (value_at v.cells) → (p : PointData) → IsPointOfTable t p → IsIndexAt p x → v.low ≤ reach_of p → (k : List ℕ) (values : List ColumnValue) → IsKeyOf (columns_on (path_of_index t x)) values k → IsHolder b es p x.id k (keyed_if t x (owner_of t (path_of_index t x) values) k ((row_form t).spelled (value_at v.cells) (owner_of t (path_of_index t x) values) (reach_of p))) }
{}

/// The primary key values that an index key holds are those among its values; they fit the table's primary key, and the key is theirs.
pub fn law_owners()
    ensures read { (t : Tables) (x : Indexes) (k : List ℕ) (values : List ColumnValue) → IsKeyOf (columns_on (path_of_index t x)) values k → owner_of t (path_of_index t x) values ≡ row_of_index t x k }
    ensures fits { (t : Tables) (x : Indexes) (k : List ℕ) → IsKey most_key (columns_on (path_of_index t x)) k → Fits (row_columns t) (row_of_index t x k) }
    ensures owns { (t : Tables) (x : Indexes) (k : List ℕ) → owns t x (row_of_index t x k) k ≡ true }
{}
