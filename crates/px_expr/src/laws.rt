// What OR, AND and NOT are worth.
ghost use Rattle.std.specs.Prelude.{◌≡◌, ◌↔◌, All, Any, List, map};
ghost use Rattle.px_expr.specs.Holds.{Selects, truth_of};
ghost use Rattle.px_expr.specs.Truth.{each_of, opposite, some_of};
ghost use Rattle.px_expr.specs.declared.bound.Bound.{Bound};
ghost use Rattle.px_expr.specs.declared.bound.Bound.TheVariants as bounds;
ghost use Rattle.px_values.specs.declared.row.Value.{Value};

/// The truth of OR, AND and NOT is made of that of their parts.
#[tactic(auto, using(crate::proofs::Rows::truth_or, crate::proofs::Rows::truth_and, crate::proofs::Rows::truth_not))]
pub fn law_truth()
    ensures or { (row : List Value) (parts : List Bound) → truth_of row (bounds.Or parts) ≡ some_of (map (truth_of row) parts) }
    ensures and { (row : List Value) (parts : List Bound) → truth_of row (bounds.And parts) ≡ each_of (map (truth_of row) parts) }
    ensures not { (row : List Value) (part : Bound) → truth_of row (bounds.Not part) ≡ opposite (truth_of row part) }
{}

/// An OR selects a row where one of its parts does, an AND where each of them does.
pub fn law_selected()
    ensures or { (row : List Value) (parts : List Bound) → Selects (bounds.Or parts) row ↔ Any (λ part. Selects part row) parts }
    ensures and { (row : List Value) (parts : List Bound) → Selects (bounds.And parts) row ↔ All (λ part. Selects part row) parts }
{}
