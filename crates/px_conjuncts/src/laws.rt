// What a condition says on every path.
ghost use Rattle.std.specs.Prelude.{◌↔◌, List};
ghost use Rattle.px_conjuncts.specs.Conjuncts.{all_true, conjuncts_of};
ghost use Rattle.px_conjuncts.specs.Paths.{conjuncts_left, leading_of};
ghost use Rattle.px_paths.specs.declared.path.PathColumn.{PathColumn};
ghost use Rattle.px_expr.specs.Holds.{Selects};
ghost use Rattle.px_expr.specs.declared.bound.Bound.{Bound};
ghost use Rattle.px_ranges.specs.Led.{IsFor, IsLed};
ghost use Rattle.px_values.specs.declared.row.Value.{Value};
ghost use Rattle.px_paths.specs.Paths.{columns_on, values_on};

/// A condition is true of a row exactly where its conjuncts are.
pub fn law_condition()
    ensures { (b : Bound) (row : List Value) → (Selects b row ↔ all_true row (conjuncts_of b)) }
{}

/// On every path, conjuncts are true of a row exactly where its key begins as they say and the rest of them is true.
pub fn law_paths()
    ensures { (path : List PathColumn) (conjuncts : List Bound) (row : List Value) → (all_true row conjuncts ↔ (IsLed (leading_of path conjuncts) (values_on path row) × all_true row (conjuncts_left path conjuncts))) }
{}

/// What conjuncts say of a path is a range of its keys: there is a column for each value and for the bounds, and these can
/// bound it.
pub fn law_ranged()
    ensures { (path : List PathColumn) (conjuncts : List Bound) → IsFor (columns_on path) (leading_of path conjuncts).equal (leading_of path conjuncts).span }
{}
