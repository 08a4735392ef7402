// The keys of a row on the paths of its table.
ghost use Rattle.std.specs.Prelude.{◌≡◌, ℕ, List, get_or, true};
ghost use Rattle.px_keys.specs.Spelling.{Fits};
ghost use Rattle.px_paths.specs.Paths.{FitsRow, columns_on, index_path, is_held as is_held_of, shown_on, table_path, values_on};
ghost use Rattle.px_tables.specs.declared.index.Index.{Index as Indexes};
ghost use Rattle.px_tables.specs.declared.table.Table.{Table as Tables};
ghost use Rattle.px_values.specs.declared.row.Value.{Value};
ghost use Rattle.px_values.specs.declared.row.Value.TheVariants.{Null};

/// Each row of a table has a key on the path of each index; the key tells the row's primary key; and what the index shows of
/// the row has that key, and the row's values in the columns that it holds.
pub fn law_index_keys()
    ensures fits { (t : Tables) (x : Indexes) (row : List Value) → FitsRow t row → Fits (columns_on (index_path t x)) (values_on (index_path t x) row) }
    ensures tells { (t : Tables) (x : Indexes) (a b : List Value) → values_on (index_path t x) a ≡ values_on (index_path t x) b → values_on (table_path t) a ≡ values_on (table_path t) b }
    ensures shown { (t : Tables) (x : Indexes) (row : List Value) → values_on (index_path t x) (shown_on t x row) ≡ values_on (index_path t x) row }
    ensures held { (t : Tables) (x : Indexes) (row : List Value) (place : ℕ) → is_held_of t x place ≡ true → get_or (shown_on t x row) place Null ≡ get_or row place Null }
{}
