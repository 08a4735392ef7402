// What holds of the cells of all tables' rows.
ghost use Rattle.std.specs.Prelude.{◌≡◌, ◌≢◌, ℕ, List, None};
ghost use Rattle.px_keys.specs.Spelling.{Fits, spelled};
ghost use Rattle.px_tables.specs.declared.table.Table.{Table};
ghost use Rattle.px_values.specs.Types.{HasType};
ghost use Rattle.px_values.specs.declared.column.ColType.{ColType};
ghost use Rattle.px_values.specs.declared.row.Value.{Value as ColumnValue};
ghost use Rattle.px_values.specs.declared.row.Value.TheVariants.{Null as NullValue};
ghost use Rattle.px_forms.specs.Rows.{IsDataForm};
ghost use Rattle.px_rows.specs.Keys.{row_columns, row_key};
ghost use Rattle.px_rows.specs.Spelled.{row_form};
ghost use Rattle.px_rows.specs.Stored.{stored, value_of_bytes};

/// The cells of a table's rows keep what a data region asks of them; a row's key is its primary key, a stored value is
/// read again, and where nothing stands there is no row.
pub fn law_rows()
    ensures form { (t : Table) → IsDataForm (row_form t) }
    ensures nothing { (t : Table) (r : List ColumnValue) (low p : ℕ) → ((row_form t).spelled (λ k q s d. None) r p ≡ None) × (row_form t).IsWhole low (λ k q s d. None) r }
    ensures key { (t : Table) (r : List ColumnValue) → Fits (row_columns t) r → row_key t r ≡ spelled (row_columns t) r }
    ensures value { (ty : ColType) (v : ColumnValue) → HasType ty v → v ≢ NullValue → value_of_bytes ty (stored ty v) ≡ v }
{}
