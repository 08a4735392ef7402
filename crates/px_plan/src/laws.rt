// The answer of a query.
ghost use Rattle.std.specs.Prelude.{◌≡◌, ◌↔◌, List, Option, true, map};
ghost use Rattle.std.specs.List.{Contains};
ghost use Rattle.px_bind.specs.declared.request.Query.{Query};
ghost use Rattle.px_paths.specs.Paths.{FitsRow, index_path, shown_on};
ghost use Rattle.px_paths.specs.declared.path.PathColumn.{PathColumn};
ghost use Rattle.px_plan.specs.Answers.{AreKeyed, IsAnswer};
ghost use Rattle.px_plan.specs.Naming.{columns_named, holds_all};
ghost use Rattle.px_plan.specs.PathColumns.{path_of};
ghost use Rattle.px_plan.specs.Plans.{HasKey};
ghost use Rattle.px_tables.specs.declared.index.Index.{Index as Indexes};
ghost use Rattle.px_tables.specs.declared.table.Table.{Table as Tables};
ghost use Rattle.px_values.specs.declared.row.Value.{Value};

/// A query has one answer by a path, and by two paths the same rows before LIMIT cuts them off: only the order that the
/// ORDER BY leaves open is the path's. By each path of a table there is an answer, over rows of which no primary key stands
/// twice; each row of the table has a key on the path; and over what an index shows of the rows the answer is the same, where
/// it holds the columns that the query names.
pub fn law_answer()
    ensures one { (rows : List (List Value)) (q : Query) (path : List PathColumn) (a b : List (List Value)) → IsAnswer rows q path a → IsAnswer rows q path b → a ≡ b }
    ensures same { (rows : List (List Value)) (q : Query) (path other : List PathColumn) (a b : List (List Value)) (x : IsAnswer rows q path a) (y : IsAnswer rows q other b) (row : List Value) → (Contains x.sorted row ↔ Contains y.sorted row) }
    ensures some { (t : Tables) (by : Option Indexes) (q : Query) (rows : List (List Value)) → AreKeyed t rows → ((answer : List (List Value)) × IsAnswer rows q (path_of t by) answer) }
    ensures keys { (t : Tables) (by : Option Indexes) (row : List Value) → FitsRow t row → HasKey (path_of t by) row }
    ensures shown { (t : Tables) (x : Indexes) (q : Query) (rows answer : List (List Value)) → AreKeyed t rows → holds_all t x (columns_named q) ≡ true → (IsAnswer rows q (index_path t x) answer ↔ IsAnswer (map (shown_on t x) rows) q (index_path t x) answer) }
{}
