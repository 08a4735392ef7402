// Changes that may begin.
ghost use Rattle.std.specs.Prelude.{◌≡◌, ◌≢◌, ◌≤◌, ◌<◌, ◌⊎◌, [], true, false, length, IfNone, IfSome};
ghost use Rattle.std.specs.List.{AllByRecursion};
ghost use Rattle.px_values.specs.Order.{row_order};
ghost use Rattle.px_trail.specs.Batches.{has as has_row, is_distinct as are_apart, rows_of};
ghost use Rattle.px_calls.specs.Requires.{IsChangeOf};

use px_fitting::fits;
use px_tables::Table;
use px_values::{Change, Changes, Direction, Value, compare};
use std::cmp::Ordering;

/// The order of two rows: that of the first values that differ.
fn order_of(a: &[Value], b: &[Value]) -> Ordering
    ensures { result ≡ row_order a.now b.now }
{
    match a {
        [] => match b {
            [] => Ordering::Equal,
            _ => Ordering::Less,
        },
        [first, others @ ..] => match b {
            [] => Ordering::Greater,
            [other, rest @ ..] => {
                let order = compare(first, other, Direction::Ascending);
                if order != Ordering::Equal {
                    return order;
                }
                order_of(others, rest)
            }
        },
    }
}

/// Whether one of the changes is of this row.
#[tactic(auto, unfolding(px_trail::specs::Batches::has))]
fn names(changes: &[Change], row: &[Value]) -> bool
    ensures { result ≡ has_row (rows_of changes.now) row.now }
{
    match changes {
        [] => false,
        [first, others @ ..] => order_of(first.row.as_slice(), row).is_eq() || names(others, row),
    }
}

/// Whether each row is changed once.
#[tactic(auto, unfolding(px_trail::specs::Batches::is_distinct))]
fn are_distinct(changes: &[Change]) -> bool
    ensures { result ≡ are_apart (rows_of changes.now) }
{
    match changes {
        [] => true,
        [first, others @ ..] => !names(others, first.row.as_slice()) && are_distinct(others),
    }
}

/// Whether each change is one of a row of the table. Nothing is told by false, as of one change.
pub fn are_fitting(table: &Table, changes: &[Change]) -> bool
    ensures { result ≡ true → AllByRecursion (IsChangeOf table.now) changes.now }
{
    match changes {
        [] => true,
        [first, others @ ..] => fits(table, first) && are_fitting(table, others),
    }
}

/// The changes of a batch that may begin.
#[derive(Drop)]
pub struct Batch {
    pub changes: Changes,
    ghost some: { changes ≢ [] },
    ghost rows: { length changes ≤ 1000 },
    ghost apart: { are_apart (rows_of changes) ≡ true },
}

impl Batch {
    /// A batch of these changes, where it may begin.
    pub fn of(changes: Changes) -> Option<Batch>
        ensures made { IfSome result (λ b. b.changes ≡ changes) }
        ensures none { IfNone result ((changes ≡ []) ⊎ ((1000 < length changes) ⊎ (are_apart (rows_of changes) ≡ false))) }
    {
        let len = changes.as_slice().len();
        if len == 0 || len > 1_000 || !are_distinct(changes.as_slice()) {
            return None;
        }
        Some(Batch { changes })
    }
}
