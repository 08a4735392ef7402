// The truth of a condition over a row.
ghost use Rattle.std.specs.Prelude.{◌≡◌, map};
ghost use Rattle.px_expr.specs.Holds.{truth_of};
ghost use Rattle.px_expr.specs.Truth.{each_of, opposite, some_of, ◌and◌, ◌or◌};

use crate::test::test_truth;
use crate::{Bound, Truth};
use px_values::Value;

/// The truth of a condition over a row. A column is its place in the row; one behind the row's end is NULL.
/// The parts of an OR are tried up to the first that is true, those of an AND up to the first that is false.
#[cycle(condition)]
#[tactic(auto, using(crate::proofs::Rows::truth_or, crate::proofs::Rows::truth_and, crate::proofs::Rows::truth_not))]
pub fn holds(condition: &Bound, row: &[Value]) -> Truth
    ensures { result ≡ truth_of row.now condition.now }
{
    match condition {
        Bound::Or(parts) => some_holds(parts.as_slice(), row),
        Bound::And(parts) => each_holds(parts.as_slice(), row),
        Bound::Not(part) => negated(holds(part.get(), row)),
        Bound::Test(test) => test_truth(test, row),
    }
}

#[cycle(condition)]
fn some_holds(parts: &[Bound], row: &[Value]) -> Truth
    ensures { result ≡ some_of (map (truth_of row.now) parts.now) }
{
    let mut found = Truth::False;
    for part in parts {
        match holds(part, row) {
            Truth::True => return Truth::True,
            truth => found = either(found, truth),
        }
    }
    found
}

#[cycle(condition)]
fn each_holds(parts: &[Bound], row: &[Value]) -> Truth
    ensures { result ≡ each_of (map (truth_of row.now) parts.now) }
{
    let mut found = Truth::True;
    for part in parts {
        match holds(part, row) {
            Truth::False => return Truth::False,
            truth => found = both(found, truth),
        }
    }
    found
}

/// OR of two.
pub(crate) fn either(a: Truth, b: Truth) -> Truth
    ensures { result ≡ a or b }
{
    match (a, b) {
        (Truth::True, _) | (_, Truth::True) => Truth::True,
        (Truth::Unknown, _) | (_, Truth::Unknown) => Truth::Unknown,
        (Truth::False, Truth::False) => Truth::False,
    }
}

/// AND of two.
pub(crate) fn both(a: Truth, b: Truth) -> Truth
    ensures { result ≡ a and b }
{
    match (a, b) {
        (Truth::False, _) | (_, Truth::False) => Truth::False,
        (Truth::Unknown, _) | (_, Truth::Unknown) => Truth::Unknown,
        (Truth::True, Truth::True) => Truth::True,
    }
}

/// NOT.
pub(crate) fn negated(truth: Truth) -> Truth
    ensures { result ≡ opposite truth }
{
    match truth {
        Truth::False => Truth::True,
        Truth::Unknown => Truth::Unknown,
        Truth::True => Truth::False,
    }
}
