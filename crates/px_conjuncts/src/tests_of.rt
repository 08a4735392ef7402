// What one conjunct says of a column.
ghost use Rattle.std.specs.Prelude.{◌≡◌};
ghost use Rattle.std.specs.Option.{option_copied, option_map};
ghost use Rattle.px_conjuncts.specs.Conjuncts.{edge as edge_in, edge_beside, equal_in as equal_of, lower_in as lower_of, told_by, upper_in as upper_of};
ghost use Rattle.px_conjuncts.specs.Paths.{edge_of, equal_value};

use crate::{EqualTo, Side};
use px_ast::Comparison;
use px_expr::{Bound, Term, Test};
use px_paths::PathColumn;
use px_ranges::can_bound;
use px_values::Value;

/// What the conjunct says that the column is equal to.
pub(crate) fn equal_in(column: PathColumn, conjunct: &Bound) -> Option<EqualTo<'_>>
    ensures { option_map equal_value result ≡ told_by (equal_of column) conjunct.now }
{
    let Bound::Test(test) = conjunct else {
        return None;
    };
    match test {
        Test::Compare {
            comparison: Comparison::Equal,
            left: Term::Column(place),
            right: Term::Value(value),
        } if *place == column.place && !matches!(value, Value::Null) => Some(EqualTo::Value(value)),
        Test::IsNull {
            term: Term::Column(place),
            negated: false,
        } if *place == column.place => Some(EqualTo::Null),
        _ => None,
    }
}

/// A literal as a bound of the column, where it can be one.
fn side(column: PathColumn, value: &Value, included: bool) -> Option<Side<'_>>
    ensures { option_map edge_of result ≡ edge_in column included value.now }
{
    if can_bound(column.column, value) {
        Some(Side { value, included })
    } else {
        None
    }
}

/// A literal of a BETWEEN as a bound of the column, where both can be one.
fn side_beside<'a>(column: PathColumn, other: &Value, value: &'a Value) -> Option<Side<'a>>
    ensures { option_map edge_of result ≡ edge_beside column other.now value.now }
{
    if can_bound(column.column, other) {
        side(column, value, true)
    } else {
        None
    }
}

/// The lower bound that the conjunct sets for the column.
pub(crate) fn lower_in(column: PathColumn, conjunct: &Bound) -> Option<Side<'_>>
    ensures { option_map edge_of result ≡ told_by (lower_of column) conjunct.now }
{
    let Bound::Test(test) = conjunct else {
        return None;
    };
    match test {
        Test::Compare {
            comparison: Comparison::Greater,
            left: Term::Column(place),
            right: Term::Value(value),
        } if *place == column.place => side(column, value, false),
        Test::Compare {
            comparison: Comparison::GreaterEqual,
            left: Term::Column(place),
            right: Term::Value(value),
        } if *place == column.place => side(column, value, true),
        Test::Between {
            term: Term::Column(place),
            negated: false,
            low: Term::Value(low),
            high: Term::Value(high),
        } if *place == column.place => side_beside(column, high, low),
        _ => None,
    }
}

/// The upper bound that the conjunct sets for the column.
pub(crate) fn upper_in(column: PathColumn, conjunct: &Bound) -> Option<Side<'_>>
    ensures { option_map edge_of result ≡ told_by (upper_of column) conjunct.now }
{
    let Bound::Test(test) = conjunct else {
        return None;
    };
    match test {
        Test::Compare {
            comparison: Comparison::Less,
            left: Term::Column(place),
            right: Term::Value(value),
        } if *place == column.place => side(column, value, false),
        Test::Compare {
            comparison: Comparison::LessEqual,
            left: Term::Column(place),
            right: Term::Value(value),
        } if *place == column.place => side(column, value, true),
        Test::Between {
            term: Term::Column(place),
            negated: false,
            low: Term::Value(low),
            high: Term::Value(high),
        } if *place == column.place => side_beside(column, low, high),
        _ => None,
    }
}
