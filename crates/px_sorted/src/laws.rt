// The order of an answer.
ghost use Rattle.std.specs.Prelude.{◌≡◌, ◌↔◌, List, Option, map};
ghost use Rattle.std.specs.List.{Contains};
ghost use Rattle.std.specs.List.Sorted.{IsPermutation, IsSortedBy, IsStableBy};
ghost use Rattle.px_bind.specs.declared.request.Query.{Query};
ghost use Rattle.px_paths.specs.declared.path.PathColumn.{PathColumn};
ghost use Rattle.px_plan.specs.Answers.{Ascends, IsAnswer, by_path};
ghost use Rattle.px_plan.specs.Asked.{asked_of};
ghost use Rattle.px_plan.specs.Plans.{IsSelected};
ghost use Rattle.px_scan.specs.declared.answer.Placed.{Placed as PlacedRow};
ghost use Rattle.px_sorted.specs.Sorting.{answer_of, is_ordered_before, sorted_by};
ghost use Rattle.px_tables.specs.declared.table.KeyPlace.{KeyPlace as Places};
ghost use Rattle.px_values.specs.declared.row.Value.{Value};

/// Sorted rows are the same rows. None comes before the one in front of it by the ORDER BY, those that it doesn't tell apart
/// are in their order, and there is one such list.
pub fn law_sorted()
    ensures same { (order : List Places) (rows : List PlacedRow) → IsPermutation rows (sorted_by order rows) }
    ensures sorted { (order : List Places) (rows : List PlacedRow) → IsSortedBy (is_ordered_before order) (sorted_by order rows) }
    ensures stable { (order : List Places) (rows : List PlacedRow) → IsStableBy (is_ordered_before order) rows (sorted_by order rows) }
    ensures one { (order : List Places) (rows other : List PlacedRow) → IsSortedBy (is_ordered_before order) other → IsStableBy (is_ordered_before order) rows other → other ≡ sorted_by order rows }
{}

/// Where a scan found the selected rows in the order of its path, what is made of them is the answer of the query by this path.
pub fn law_answered()
    ensures { (rows : List (List Value)) (q : Query) (path : List PathColumn) (found : List PlacedRow) → Ascends (by_path path) (map (λ p. p.row) found) → ((row : List Value) → Contains (map (λ p. p.row) found) row ↔ (Contains rows row × IsSelected q.filter row)) → IsAnswer rows q path (answer_of (asked_of q) found).rows }
{}
