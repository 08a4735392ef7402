// The keys of the rows that begin so.
ghost use Rattle.std.specs.Prelude.{◌≡◌, ◌<◌, ◌≤◌, ◌+◌, ◌↔◌, ◌++◌, [], ℕ, List, Option, Some, IfOk, IsTrue, length, take};
ghost use Rattle.std.specs.List.{All, slice_get};
ghost use Rattle.std.specs.Option.{option_copied, option_to_list};
ghost use Rattle.px_keys.specs.Range.{IsBetween, bound_bytes};
ghost use Rattle.px_keys.specs.Spelling.{Fits, columns_of, spelled, values_of};
ghost use Rattle.px_ranges.specs.Led.{EdgeIsFor, IsFor, IsLed};
ghost use Rattle.px_ranges.specs.inner.Cuts.{FitsFirst, IsBelow, StandsBefore, behind_values, cut_of};
ghost use Rattle.px_values.specs.declared.row.Value.{Value};

use crate::cuts::{Beside, end, start};
use crate::edges::{fits, is_beyond, lower_within, upper_within};
use crate::{KeyBounds, Leading, Span};
use px_keys::{KeyColumn, Part, end_of_range, spell_front};
use px_values::{Items, Key, Value};
use std::alloc::{AllocError, Global};

/// The keys of the rows that begin so: of a row of these columns, the key is between the bounds exactly where the row
/// begins with the equal values and its next value is in the span. Where no row can begin so there is no such key.
pub fn key_bounds(
    alloc: Global,
    columns: &[KeyColumn],
    leading: &Leading,
) -> Result<KeyBounds, AllocError>
    requires { IsFor columns.now leading.now.equal leading.now.span }
    ensures { IfOk result (λ bounds. (row : List Value) → Fits columns.now row → (IsBetween bounds.low bounds.high (spelled columns.now row) ↔ IsLed leading.now row)) }
{
    let equal = leading.equal.as_slice();
    if !all_fit(columns, equal) {
        return Ok(no_keys(alloc));
    }
    match &leading.span {
        Some(span) => span_bounds(alloc, columns, equal, span),
        None => equal_bounds(alloc, columns, equal),
    }
}

/// Whether these values are of the first columns.
fn all_fit(columns: &[KeyColumn], values: &[Value]) -> bool
    requires { length values.now ≤ length columns.now }
    ensures { IsTrue result ↔ FitsFirst columns.now values.now }
{
    for (index, value) in values.iter().enumerate() {
        if !fits(columns[index], value) {
            return false;
        }
    }
    true
}

/// Bounds with no key between them.
fn no_keys(alloc: Global) -> KeyBounds
    ensures { (key : List ℕ) → IsBetween result.low result.high key → ⊥ }
{
    KeyBounds {
        low: Items::of(Vec::new(alloc)),
        high: Some(Items::of(Vec::new(alloc))),
    }
}

/// The keys of the rows that begin with these values.
fn equal_bounds(
    alloc: Global,
    columns: &[KeyColumn],
    equal: &[Value],
) -> Result<KeyBounds, AllocError>
    requires { FitsFirst columns.now equal.now }
    ensures { IfOk result (λ bounds. (row : List Value) → Fits columns.now row → (IsBetween bounds.low bounds.high (spelled columns.now row) ↔ IsLed (record { equal = equal.now; span = None }) row)) }
{
    let low = Beside {
        next: None,
        behind: false,
    };
    let high = Beside {
        next: None,
        behind: true,
    };
    bounds_between(alloc, columns, equal, low, high)
}

/// The keys of the rows that begin with these values, and of which the next is in the span.
fn span_bounds(
    alloc: Global,
    columns: &[KeyColumn],
    equal: &[Value],
    span: &Span,
) -> Result<KeyBounds, AllocError>
    requires fit { FitsFirst columns.now equal.now }
    requires span { IsFor columns.now equal.now (Some span.now) }
    ensures { IfOk result (λ bounds. (row : List Value) → Fits columns.now row → (IsBetween bounds.low bounds.high (spelled columns.now row) ↔ IsLed (record { equal = equal.now; span = Some span.now }) row)) }
{
    let column = columns[equal.len()];
    if is_beyond(column, span) {
        return Ok(no_keys(alloc));
    }
    let lower = lower_within(column, span);
    let upper = upper_within(column, span);
    let null = Value::Null;
    let low = start(column, lower, upper, &null);
    let high = end(column, lower, upper, &null);
    let bounds = bounds_between(alloc, columns, equal, low, high);
    drop(null);
    bounds
}

/// The keys between two places.
fn bounds_between(
    alloc: Global,
    columns: &[KeyColumn],
    equal: &[Value],
    low: Beside<'_>,
    high: Beside<'_>,
) -> Result<KeyBounds, AllocError>
    requires low { FitsFirst columns.now (equal.now ++ (cut_of low).values) }
    requires high { FitsFirst columns.now (equal.now ++ (cut_of high).values) }
    ensures { IfOk result (λ bounds. (key : List ℕ) → All (λ b. b < 256) key → (IsBetween bounds.low bounds.high key ↔ ((StandsBefore columns.now key (behind_values equal.now (cut_of low.entry)) → ⊥) × StandsBefore columns.now key (behind_values equal.now (cut_of high.entry))))) }
{
    let Some(low) = place_bytes(alloc, columns, equal, low)? else {
        return Ok(no_keys(alloc));
    };
    match place_bytes(alloc, columns, equal, high) {
        Ok(high) => Ok(KeyBounds {
            low: Items::of(low),
            high: bound(high),
        }),
        Err(fault) => {
            drop(low);
            Err(fault)
        }
    }
}

/// The bytes of a bound as a key.
fn bound(bytes: Option<Vec<u8>>) -> Option<Key>
    ensures { result ≡ bound_bytes bytes }
{
    match bytes {
        Some(bytes) => Some(Items::of(bytes)),
        None => None,
    }
}

/// The least bytes that don't stand before a place; None where all do.
fn place_bytes(
    alloc: Global,
    columns: &[KeyColumn],
    equal: &[Value],
    place: Beside<'_>,
) -> Result<Option<Vec<u8>>, AllocError>
    requires { FitsFirst columns.now (equal.now ++ (cut_of place).values) }
    ensures { IfOk result (λ bytes. (key : List ℕ) → All (λ b. b < 256) key → (IsBelow key (bound_bytes bytes) ↔ StandsBefore columns.now key (behind_values equal.now (cut_of place.entry)))) }
{
    let parts = leading_parts(alloc, columns, equal, place.next)?;
    let front = spell_front(alloc, parts.as_slice());
    drop(parts);
    let front = front?;
    if !place.behind {
        return Ok(Some(front));
    }
    let end = end_of_range(alloc, front.as_slice());
    drop(front);
    end
}

/// Leading values as parts of a key: the equal ones, and a next one where there is one.
fn leading_parts<'a>(
    alloc: Global,
    columns: &[KeyColumn],
    equal: &'a [Value],
    next: Option<&'a Value>,
) -> Result<Vec<Part<'a>>, AllocError>
    requires { length equal.now + length (option_to_list (option_copied next)) ≤ length columns.now }
    ensures values { IfOk result (λ parts. values_of parts.items ≡ equal.now ++ option_to_list (option_copied next.entry)) }
    ensures columns { IfOk result (λ parts. columns_of parts.items ≡ take (length equal.now + length (option_to_list (option_copied next.entry))) columns.now) }
{
    let mut parts = Vec::with_capacity(alloc, columns.len())?;
    for (index, value) in equal.iter().enumerate() {
        parts.push(Part {
            column: columns[index],
            value,
        })?;
    }
    if let Some(value) = next {
        parts.push(Part {
            column: columns[equal.len()],
            value,
        })?;
    }
    Ok(parts)
}
