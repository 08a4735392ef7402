// The changes that remove rows.
ghost use Rattle.std.specs.Prelude.{◌≡◌, IfOk, OnOk};
ghost use Rattle.std.specs.List.{AllByRecursion};
ghost use Rattle.px_calls.specs.Requires.{IsChangeOf};
ghost use Rattle.px_removals.specs.Removals.{AreRemovals, first_direction, key_order, later_parts};
ghost use Rattle.px_removals.specs.inner.Put.{IsPut, place_in};

use px_fitting::fits;
use px_tables::{KeyPlace, Table};
use px_values::{Change, Direction, Row, Rows, Value, What, compare};
use std::alloc::{AllocError, Global};
use std::cmp::Ordering;
use std::collections::VecDeque;

/// The direction of the first part of a key, and the parts behind it. What stands behind a key goes up.
fn first_of(key: &[KeyPlace]) -> (Direction, &[KeyPlace])
    ensures { (result.0 ≡ first_direction key.now) × (result.1.now ≡ later_parts key.now) }
{
    match key {
        [] => (Direction::Ascending, key),
        [place, parts @ ..] => (place.direction, parts),
    }
}

/// The order of two rows by the parts of a key: that of the first values that differ.
fn order_of(key: &[KeyPlace], a: &[Value], b: &[Value]) -> Ordering
    ensures { result ≡ key_order key.now a.now b.now }
{
    match a {
        [] => match b {
            [] => Ordering::Equal,
            _ => Ordering::Less,
        },
        [first, others @ ..] => match b {
            [] => Ordering::Greater,
            [other, rest @ ..] => {
                let (direction, parts) = first_of(key);
                let order = compare(first, other, direction);
                if order != Ordering::Equal {
                    return order;
                }
                order_of(parts, others, rest)
            }
        },
    }
}

/// Where a row stands to the first that is removed.
fn place_of(key: &[KeyPlace], removals: &VecDeque<Change>, row: &[Value]) -> Ordering
    ensures { result ≡ place_in key.now row.now removals.now.items }
{
    match removals.front() {
        Some(first) => order_of(key, row, first.row.as_slice()),
        None => Ordering::Less,
    }
}

/// Puts the removal of a row in front of the others, unless it is the first of them. A row that isn't one of the table, or isn't in
/// order, takes no place.
fn put(table: &Table, removals: &mut VecDeque<Change>, row: Row) -> Result<(), AllocError>
    ensures { OnOk result (IsPut table.now removals.old.items row removals.new.items) }
{
    match place_of(table.key.as_slice(), removals, row.as_slice()) {
        Ordering::Less => {}
        Ordering::Equal => {
            drop(row);
            return Ok(());
        }
        Ordering::Greater => {
            drop(row);
            return Err(AllocError);
        }
    }
    let change = Change {
        row,
        what: What::Gone,
    };
    if !fits(table, &change) {
        drop(change);
        return Err(AllocError);
    }
    match removals.push_front(change) {
        Ok(()) => Ok(()),
        Err(failed) => {
            drop(failed);
            Err(AllocError)
        }
    }
}

/// The changes that remove these rows, which come in the order of the table's key.
pub fn removals(alloc: Global, table: &Table, rows: Rows) -> Result<VecDeque<Change>, AllocError>
    ensures removals { IfOk result (λ cs. AreRemovals table.now.key rows cs.items) }
    ensures fits { IfOk result (λ cs. AllByRecursion (IsChangeOf table.now) cs.items) }
{
    let mut rows = rows.into_vec();
    let mut removals = VecDeque::with_capacity(alloc, rows.len())?;
    'rows: while let Some(row) = rows.pop() {
        put(table, &mut removals, row)?;
    }
    Ok(removals)
}
