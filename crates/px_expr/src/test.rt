// The truth of a condition without AND, OR and NOT.
ghost use Rattle.std.specs.Prelude.{◌≡◌, ◌↔◌, IsTrue, map};
ghost use Rattle.px_ast.specs.declared.condition.Comparison.TheVariants as comparisons;
ghost use Rattle.px_expr.specs.Holds.{compared_values, meets, null_test, term_value, test_of};
ghost use Rattle.px_expr.specs.Truth.{known_truth, negated_if, some_of, ◌and◌};
ghost use Rattle.px_values.specs.declared.row.Value.TheVariants.{Null};

use crate::truth::{both, either, negated};
use crate::{Term, Test, Truth};
use px_ast::Comparison;
use px_values::{Direction, Value, compare};
use std::cmp::Ordering;

/// The truth of a condition without AND, OR and NOT before it over a row.
pub(crate) fn test_truth(test: &Test, row: &[Value]) -> Truth
    ensures { result ≡ test_of row.now test.now }
{
    let null = Value::Null;
    let truth = truth_with(test, row, &null);
    drop(null);
    truth
}

/// The same, where `null` is what a column behind the row's end is.
fn truth_with(test: &Test, row: &[Value], null: &Value) -> Truth
    requires { null.now ≡ Null }
    ensures { result ≡ test_of row.now test.now }
{
    match test {
        Test::Compare {
            comparison,
            left,
            right,
        } => comparison_truth(
            *comparison,
            value_of(row, null, left),
            value_of(row, null, right),
        ),
        Test::IsNull { term, negated } => negated_where(
            *negated,
            null_truth(value_of(row, null, term)),
        ),
        Test::In {
            term,
            negated,
            values,
        } => negated_where(
            *negated,
            among(value_of(row, null, term), values.as_slice()),
        ),
        Test::Between {
            term,
            negated,
            low,
            high,
        } => negated_where(
            *negated,
            between(
                value_of(row, null, term),
                value_of(row, null, low),
                value_of(row, null, high),
            ),
        ),
    }
}

/// The value of a term in a row.
fn value_of<'a>(row: &'a [Value], null: &'a Value, term: &'a Term) -> &'a Value
    requires { null.now ≡ Null }
    ensures { result.now ≡ term_value row.now term.now }
{
    match term {
        Term::Column(place) => match row.get(*place as usize) {
            Some(value) => value,
            None => null,
        },
        Term::Value(value) => value,
    }
}

/// Whether the order of two values meets a comparison.
fn is_met(comparison: Comparison, order: Ordering) -> bool
    ensures { result ≡ meets comparison order }
{
    match comparison {
        Comparison::Equal => order == Ordering::Equal,
        Comparison::NotEqual => order != Ordering::Equal,
        Comparison::Less => order == Ordering::Less,
        Comparison::LessEqual => order != Ordering::Greater,
        Comparison::Greater => order == Ordering::Greater,
        Comparison::GreaterEqual => order != Ordering::Less,
    }
}

fn known(is: bool) -> Truth
    ensures { result ≡ known_truth is }
{
    if is { Truth::True } else { Truth::False }
}

/// A comparison of two values.
fn comparison_truth(comparison: Comparison, a: &Value, b: &Value) -> Truth
    ensures { result ≡ compared_values comparison a.now b.now }
{
    match (a, b) {
        (Value::Null, _) | (_, Value::Null) => Truth::Unknown,
        _ => known(is_met(comparison, compare(a, b, Direction::Ascending))),
    }
}

fn null_truth(value: &Value) -> Truth
    ensures { result ≡ null_test value.now }
{
    known(matches!(value, Value::Null))
}

fn negated_where(written: bool, truth: Truth) -> Truth
    ensures { result ≡ negated_if written truth }
{
    if written { negated(truth) } else { truth }
}

/// An OR of equalities.
fn among(value: &Value, values: &[Value]) -> Truth
    ensures { result ≡ some_of (map (compared_values comparisons.Equal value.now) values.now) }
{
    let mut found = Truth::False;
    for other in values {
        match comparison_truth(Comparison::Equal, value, other) {
            Truth::True => return Truth::True,
            truth => found = either(found, truth),
        }
    }
    found
}

fn between(value: &Value, low: &Value, high: &Value) -> Truth
    ensures { result ≡ (compared_values comparisons.GreaterEqual value.now low.now and compared_values comparisons.LessEqual value.now high.now) }
{
    both(
        comparison_truth(Comparison::GreaterEqual, value, low),
        comparison_truth(Comparison::LessEqual, value, high),
    )
}
