// Values as edges of a column's span.
ghost use Rattle.std.specs.Prelude.{◌≡◌, ◌↔◌, true, IsTrue};
ghost use Rattle.std.specs.Option.{option_copied};
ghost use Rattle.px_keys.specs.Spelling.{FitsColumn};
ghost use Rattle.px_ranges.specs.Led.{EdgeIsFor, can_bound as can_bound_of};
ghost use Rattle.px_ranges.specs.inner.Cuts.{is_beyond as is_beyond_of, is_high as is_high_of, is_low as is_low_of, lower_within as lower_within_of, upper_within as upper_within_of};

use crate::{Edge, Span};
use px_keys::{KeyColumn, Part};
use px_values::{ColType, Value};

/// Whether a value can be the edge of a column's span: any number of a number column, and else a value of its type,
/// but never NULL.
pub fn can_bound(column: KeyColumn, value: &Value) -> bool
    ensures { result ≡ can_bound_of column.ty value.now }
{
    match value {
        Value::Null => false,
        Value::Number(_) => column.ty.is_number(),
        Value::Truth(_) => column.ty == ColType::Boolean,
        Value::Text(_) => Part { column, value }.can_stand(),
    }
}

/// Whether a key of the column can have the value.
pub(crate) fn fits(column: KeyColumn, value: &Value) -> bool
    ensures { IsTrue result ↔ FitsColumn column value.now }
{
    match value {
        Value::Null => column.may_be_null,
        _ => Part { column, value }.can_stand(),
    }
}

/// Whether a value is a number below those of the column's type.
fn is_low(column: KeyColumn, value: &Value) -> bool
    ensures { result ≡ is_low_of column value.now }
{
    match value {
        Value::Number(number) => *number < column.ty.least(),
        _ => false,
    }
}

/// Whether a value is a number above those of the column's type.
fn is_high(column: KeyColumn, value: &Value) -> bool
    ensures { result ≡ is_high_of column value.now }
{
    match value {
        Value::Number(number) => column.ty.greatest() < *number,
        _ => false,
    }
}

/// Whether no value of the column is in the span.
pub(crate) fn is_beyond(column: KeyColumn, span: &Span) -> bool
    ensures { result ≡ is_beyond_of column span.now }
{
    let over = match &span.lower {
        Some(edge) => is_high(column, &edge.value),
        None => false,
    };
    let under = match &span.upper {
        Some(edge) => is_low(column, &edge.value),
        None => false,
    };
    over || under
}

/// The lower edge of a span, unless all values of the column are over it.
pub(crate) fn lower_within(column: KeyColumn, span: &Span) -> Option<&Edge>
    ensures { option_copied result ≡ lower_within_of column span.now.lower }
{
    match &span.lower {
        Some(edge) if !is_low(column, &edge.value) => Some(edge),
        _ => None,
    }
}

/// The upper edge of a span, unless all values of the column are under it.
pub(crate) fn upper_within(column: KeyColumn, span: &Span) -> Option<&Edge>
    ensures { option_copied result ≡ upper_within_of column span.now.upper }
{
    match &span.upper {
        Some(edge) if !is_high(column, &edge.value) => Some(edge),
        _ => None,
    }
}
