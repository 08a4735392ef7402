//! What a SELECT answers, of what its scan gathered.
ghost use Rattle.std.specs.Prelude.{◌≡◌, ◌<◌, ◌≤◌, ◌++◌, ℕ, List, Option};
ghost use Rattle.std.specs.Ordering.{is_lt};
ghost use Rattle.px_bind.specs.declared.request.Query.{Query as Queries};
ghost use Rattle.px_calls.specs.declared.query.By.{By as Bys};
ghost use Rattle.px_calls.specs.declared.query.Path.{Path as Paths};
ghost use Rattle.px_calls.specs.declared.query.Point.{Point as Points};
ghost use Rattle.px_gather.specs.Answers.{IsAnswerBy};
ghost use Rattle.px_gather.specs.Query.{IsPathFor};
ghost use Rattle.px_paths.specs.Paths.{FitsRow, key_on};
ghost use Rattle.px_plan.specs.Answers.{comes_before};
ghost use Rattle.px_plan.specs.PathColumns.{path_of};
ghost use Rattle.px_planned.specs.Queries.{query_of};
ghost use Rattle.px_planned.specs.declared.planned.Planned.{Planned as Plans};
ghost use Rattle.px_scan.specs.declared.answer.Placed.{Placed as PlacedRow};
ghost use Rattle.px_scan.specs.Turns.{given_of};
ghost use Rattle.px_sorted.specs.Sorting.{answer_of};
ghost use Rattle.px_sorted.specs.declared.answer.Shown.{Shown as Shows};
ghost use Rattle.px_tables.specs.declared.found.Found.{Found as FoundTable};
ghost use Rattle.px_tables.specs.declared.index.Index.{Index as Indexes};
ghost use Rattle.px_tables.specs.declared.table.Table.{Table as Tables};
ghost use Rattle.px_trail.specs.declared.entry.Entry.{Entry as Entries};
ghost use Rattle.px_trail.specs.Legal.{IsLegal};
ghost use Rattle.px_trail.specs.Trail.{Base, catalogue_of, last_of};
ghost use Rattle.px_values.specs.declared.row.Value.{Value};
ghost use Rattle.px_answers.specs.Selects.{IsExactSelect, IsSelectBy, goes_before};

/// What a scan gathered, sorted by the ORDER BY, cut at the LIMIT and shown, is the answer of the SELECT: a current one, or under an SCN that of
/// px_plan over all rows at the point, which it stays in whatever legal trail comes. The order of the bytes of keys is that of
/// their values.
pub fn law_selects()
    ensures answers { (b : Base) (es : List Entries) (p : Plans) (scn : Option ℕ) (point : Points) (path : Paths) (first last : ℕ) (rows : List PlacedRow) → IsPathFor (query_of p) point path → IsAnswerBy b es (query_of p) scn point.found path.by first last (given_of rows) → IsSelectBy b es p scn point.found path.by first last (answer_of p.asked rows) }
    ensures stays { (b : Base) (es more : List Entries) (p : Plans) (found : FoundTable) (by : Bys) (point : ℕ) (s : Shows) → IsLegal b (es ++ more) → point ≤ last_of b p.table.id.0 es → p.table.id.0 < (catalogue_of b es).next → IsExactSelect b es p found by point s → IsExactSelect b (es ++ more) p found by point s }
    ensures values { (t : Tables) (by : Option Indexes) (q : Queries) (x y : List Value) → FitsRow t x → FitsRow t y → goes_before q.order (key_on (path_of t by)) x y ≡ is_lt (comes_before q (path_of t by) x y) }
{}
