//! How a table's rows and its indexes are spelled as cells, as forms that the layers above take: definitions and laws, no code.
//! `DataForm` and `IsDataForm` are what the cells of rows must meet, `IndexForm` and `IsIndexForm` what those of an index must.
//! `view_at` is what one row sees of an index's region: the cells of the world of that row and index.
//! `law_views` promises that what a row sees of cells written over others is its view of the one over its view of the other.
//! The spelling of the product's rows and of its index rows are such forms, and the group of a table's regions asks no more.
#![tactic(auto)]

ghost use Rattle.std.specs.Prelude.{◌≡◌, ◌++◌, [], List};
ghost use Rattle.px_cells.specs.CellData.{CellData};
ghost use Rattle.px_cells.specs.Order.{ReadsSame};
ghost use Rattle.px_values.specs.declared.row.Value.{Value as ColumnValue};
ghost use Rattle.px_values.specs.States.{Shape as RowShape};
ghost use Rattle.px_world.specs.Shape.{IsLawful};
ghost use Rattle.px_world.specs.IndexCells.{no_cells, over};
ghost use Rattle.px_forms.specs.Indexes.{IndexForm, IsIndexForm, shape_at, view_at};

/// What a row sees of cells written over others, of cells that are read alike, and of none; and keys and values are compared exactly.
pub fn law_views()
    ensures put { (f : IndexForm) → (r : List ColumnValue) → (batch : List CellData) → (old : List CellData) → (new : List CellData) → ReadsSame new (batch ++ old) → view_at f r new ≡ over (view_at f r batch) (view_at f r old) }
    ensures append { (f : IndexForm) → (r : List ColumnValue) → (xs : List CellData) → (ys : List CellData) → view_at f r (xs ++ ys) ≡ over (view_at f r xs) (view_at f r ys) }
    ensures same { (f : IndexForm) → (r : List ColumnValue) → (xs : List CellData) → (ys : List CellData) → ReadsSame xs ys → view_at f r xs ≡ view_at f r ys }
    ensures empty { (f : IndexForm) → (r : List ColumnValue) → view_at f r [] ≡ no_cells }
    ensures lawful { (sh : RowShape) → (f : IndexForm) → (r : List ColumnValue) → IsIndexForm f → IsLawful (shape_at sh f r) }
{}
