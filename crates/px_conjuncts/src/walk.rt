// What conjuncts tell of a path.
ghost use Rattle.std.specs.Prelude.{◌≡◌, true, false, not, IfOk, length, map, replicate};
ghost use Rattle.std.specs.Option.{is_some, option_map};
ghost use Rattle.px_conjuncts.specs.Conjuncts.{equal_in as equal_of, lower_in as lower_of, upper_in as upper_of};
ghost use Rattle.px_conjuncts.specs.Paths.{conjuncts_left, edge_of, equal_value, first_told, is_told as is_told_by, leading_of, leading_told, or_first, span_between, span_in, unmarked, without_bounds, without_first};

use crate::tests_of::{equal_in, lower_in, upper_in};
use crate::{Bounds, EqualTo, Side, Told};
use px_expr::Bound;
use px_paths::PathColumn;
use px_ranges::{Edge, Leading, Span};
use px_values::{Items, Value};
use std::alloc::{AllocError, Global};

/// What the conjuncts tell of a path, and which of them this tells.
pub fn told<'a>(
    alloc: Global,
    path: &[PathColumn],
    conjuncts: &'a [Bound],
) -> Result<Told<'a>, AllocError>
    ensures leading { IfOk result (λ t. leading_told t ≡ leading_of path.now conjuncts.now) }
    ensures rest { IfOk result (λ t. unmarked conjuncts.now t.marks.items ≡ conjuncts_left path.now conjuncts.now) }
    ensures marks { IfOk result (λ t. length t.marks.items ≡ length conjuncts.now) }
{
    let mut marks = no_marks(alloc, conjuncts.len())?;
    let mut equal = Vec::new(alloc);
    for column in path {
        match first_equal(*column, conjuncts, &mut marks) {
            Some(value) => equal.push(value)?,
            None => {
                let bounds = first_bounds(*column, conjuncts, &mut marks);
                return Ok(Told {
                    equal,
                    bounds,
                    marks,
                });
            }
        }
    }
    let bounds = Bounds {
        lower: None,
        upper: None,
    };
    Ok(Told {
        equal,
        bounds,
        marks,
    })
}

/// A list of marks, none of which is set.
fn no_marks(alloc: Global, count: usize) -> Result<Vec<bool>, AllocError>
    ensures { IfOk result (λ marks. marks.items ≡ replicate count false) }
{
    vec![in alloc; false; count]
}

/// What the first conjunct without a mark that says so says that the column is equal to. This one gets a mark.
fn first_equal<'a>(
    column: PathColumn,
    conjuncts: &'a [Bound],
    marks: &mut [bool],
) -> Option<EqualTo<'a>>
    requires { length marks.old ≡ length conjuncts.now }
    ensures value { option_map equal_value result ≡ first_told (equal_of column) (unmarked conjuncts.now marks.old) }
    ensures left { unmarked conjuncts.now marks.new ≡ without_first (equal_of column) (unmarked conjuncts.now marks.old) }
{
    for (index, conjunct) in conjuncts.iter().enumerate() {
        if marks[index] {
            continue;
        }
        if let Some(value) = equal_in(column, conjunct) {
            marks[index] = true;
            return Some(value);
        }
    }
    None
}

/// Whether each bound that a conjunct sets is the first of its kind.
fn is_told(bounds: Bounds<'_>, lower: Option<Side<'_>>, upper: Option<Side<'_>>) -> bool
    ensures { result ≡ is_told_by (not (is_some (option_map edge_of bounds.entry.lower))) (not (is_some (option_map edge_of bounds.entry.upper))) (option_map edge_of lower.entry) (option_map edge_of upper.entry) }
{
    match (lower, upper) {
        (None, None) => false,
        (Some(_), None) => bounds.lower.is_none(),
        (None, Some(_)) => bounds.upper.is_none(),
        (Some(_), Some(_)) => bounds.lower.is_none() && bounds.upper.is_none(),
    }
}

/// The first of two bounds of one kind.
fn first_side<'a>(found: Option<Side<'a>>, later: Option<Side<'a>>) -> Option<Side<'a>>
    ensures { option_map edge_of result ≡ or_first (option_map edge_of found.entry) (option_map edge_of later.entry) }
{
    match found {
        Some(side) => Some(side),
        None => later,
    }
}

/// The first bounds of each kind that conjuncts without a mark set for the column. Each conjunct that this tells gets a
/// mark.
fn first_bounds<'a>(column: PathColumn, conjuncts: &'a [Bound], marks: &mut [bool]) -> Bounds<'a>
    requires { length marks.old ≡ length conjuncts.now }
    ensures bounds { span_in result ≡ span_between (first_told (lower_of column) (unmarked conjuncts.now marks.old)) (first_told (upper_of column) (unmarked conjuncts.now marks.old)) }
    ensures left { unmarked conjuncts.now marks.new ≡ without_bounds column true true (unmarked conjuncts.now marks.old) }
{
    let mut lower = None;
    let mut upper = None;
    for (index, conjunct) in conjuncts.iter().enumerate() {
        if marks[index] {
            continue;
        }
        let low = lower_in(column, conjunct);
        let high = upper_in(column, conjunct);
        marks[index] = is_told(Bounds { lower, upper }, low, high);
        lower = first_side(lower, low);
        upper = first_side(upper, high);
    }
    Bounds { lower, upper }
}

// ---- as values

fn copied_equal(alloc: Global, equal: &[EqualTo<'_>]) -> Result<Items<Value>, AllocError>
    ensures { IfOk result (λ vs. vs ≡ map equal_value equal.now) }
{
    let mut values = Vec::with_capacity(alloc, equal.len())?;
    for to in equal {
        match to {
            EqualTo::Null => values.push(Value::Null)?,
            EqualTo::Value(value) => values.push(value.copied(alloc)?)?,
        }
    }
    Ok(Items::of(values))
}

fn copied_side(alloc: Global, side: Option<Side<'_>>) -> Result<Option<Edge>, AllocError>
    ensures { IfOk result (λ e. e ≡ option_map edge_of side.entry) }
{
    match side {
        Some(side) => Ok(Some(Edge {
            value: side.value.copied(alloc)?,
            included: side.included,
        })),
        None => Ok(None),
    }
}

fn copied_span(alloc: Global, bounds: Bounds<'_>) -> Result<Option<Span>, AllocError>
    ensures { IfOk result (λ s. s ≡ span_in bounds.entry) }
{
    if bounds.lower.is_none() && bounds.upper.is_none() {
        return Ok(None);
    }
    let lower = copied_side(alloc, bounds.lower)?;
    match copied_side(alloc, bounds.upper) {
        Ok(upper) => Ok(Some(Span { lower, upper })),
        Err(fault) => {
            drop(lower);
            Err(fault)
        }
    }
}

/// What was told, in values of its own.
pub fn leading(alloc: Global, told: &Told<'_>) -> Result<Leading, AllocError>
    ensures { IfOk result (λ l. l ≡ leading_told told.now) }
{
    let equal = copied_equal(alloc, told.equal.as_slice())?;
    match copied_span(alloc, told.bounds) {
        Ok(span) => Ok(Leading { equal, span }),
        Err(fault) => {
            drop(equal);
            Err(fault)
        }
    }
}
