// What base versions are to the steps of a table.
ghost use Rattle.std.specs.Prelude.{◌≡◌, ◌<◌, ◌≤◌, ◌+◌, ◌*◌, ℕ, List, length, get_or};
ghost use Rattle.px_cells.specs.CellData.{CellData};
ghost use Rattle.px_cells.specs.Order.{ReadsSame};
ghost use Rattle.px_cellshapes.specs.Keys.{AreRightKeys};
ghost use Rattle.px_forms.specs.Indexes.{IndexForm};
ghost use Rattle.px_groupworld.specs.Asks.{CanBase};
ghost use Rattle.px_groupworld.specs.Group.{GroupData, GroupKept, no_part, table_form};
ghost use Rattle.px_indexrow.specs.Form.{IsRightIndex, index_form};
ghost use Rattle.px_keptcells.specs.Kept.{laid};
ghost use Rattle.px_rows.specs.Keys.{IsRightTable};
ghost use Rattle.px_rows.specs.Spelled.{row_form};
ghost use Rattle.px_tables.specs.declared.index.Index.{Index as Indexes};
ghost use Rattle.px_tables.specs.declared.table.Table.{Table as Tables};
ghost use Rattle.px_trail.specs.Trail.{Base};
ghost use Rattle.px_trail.specs.declared.entry.Entry.{Entry as Entries};
ghost use Rattle.px_baserows.specs.Rows.{AreBaseRows, StoodAt, base_parts, owners_in};
ghost use Rattle.px_calls.specs.declared.query.BaseRow.{BaseRow as Given};

/// The base versions of rows have the shape of the index's region. Where the table had the rows at the birth of the index, they are what the
/// event Base asks for at the index, of exactly these rows.
pub fn law_bases()
    ensures right { (t : Tables) → (x : Indexes) → (s : ℕ) → (xs : List Given) → IsRightTable t → IsRightIndex t x → AreBaseRows t x xs → AreRightKeys t x (laid (base_parts (index_form t x) s xs)) }
    ensures count { (f : IndexForm) → (s : ℕ) → (xs : List Given) → length (laid (base_parts f s xs)) ≡ length xs * (f.columns + 1) }
    ensures can { (b : Base) → (index : ℕ → IndexForm) → (es : List Entries) → (t : Tables) → (v : GroupData) → GroupKept (table_form b t.id index (row_form t)) es v → (i : ℕ) → i < length v.indexes → (x : Indexes) → IsRightTable t → IsRightIndex t x → index (get_or v.indexes i no_part).id ≡ index_form t x → (get_or v.indexes i no_part).birth ≡ x.birth → (xs : List Given) → AreBaseRows t x xs → StoodAt b es t x.birth xs → (cells : List CellData) → ReadsSame cells (laid (base_parts (index_form t x) x.birth xs)) → CanBase (table_form b t.id index (row_form t)) es v i (owners_in t xs) cells }
{}
