// The changes that are held, each of another row.
ghost use Rattle.std.specs.Prelude.{◌≡◌, ◌≤◌, ◌++◌, ◌∷◌, [], false, length, IfErr, OnOk, OnErr, MatchOption};
ghost use Rattle.std.specs.Ordering.{is_eq};
ghost use Rattle.px_values.specs.Order.{row_order};
ghost use Rattle.px_trail.specs.Batches.{has, rows_of};
ghost use Rattle.px_trail.specs.Trail.{table_shape};
ghost use Rattle.px_held.specs.Held as spec;

use crate::merging::merged;
use px_tables::Table;
use px_values::{Change, Direction, Value, compare};
use std::alloc::Global;
use std::cmp::Ordering;
use std::collections::VecDeque;

/// Why a change isn't held.
#[derive(Clone, Copy, Debug, PartialEq, Eq)]
pub enum HoldFault {
    /// It is of another row, and 1,000 rows are held.
    Rows,
    /// No memory was found.
    Memory,
}

/// The most rows of a batch.
const MOST_ROWS: usize = 1_000;

/// Whether two rows have the same values.
fn same_row(a: &[Value], b: &[Value]) -> bool
    ensures { result ≡ is_eq (row_order a.now b.now) }
{
    match a {
        [] => b.is_empty(),
        [first, others @ ..] => match b {
            [] => false,
            [other, rest @ ..] => {
                compare(first, other, Direction::Ascending) == Ordering::Equal
                    && same_row(others, rest)
            }
        },
    }
}

/// The place of the change of this row, where there is one.
fn place_of(held: &[Change], row: &[Value]) -> Option<usize>
    ensures { MatchOption result (has (rows_of held.now) row.now ≡ false) (λ i. spec.IsPlace held.now row.now i) }
{
    for i in 0..held.len() {
        if same_row(held[i].row.as_slice(), row) {
            return Some(i);
        }
    }
    None
}

/// Holds one change more of a row of the table: it is merged with the one of its row, where one is held, and else stands
/// behind the others. Where it isn't held, the others stay as they are.
pub fn hold(
    alloc: Global,
    table: &Table,
    held: &mut Vec<Change>,
    change: Change,
) -> Result<(), HoldFault>
    requires { length table.now.columns ≤ 255 }
    ensures ok { OnOk result (held.new.items ≡ spec.with_change (table_shape table.now) held.old.items change) }
    ensures err { OnErr result (held.new.items ≡ held.old.items) }
    ensures fault { IfErr result (λ fault. spec.IsFull fault held.old.items change.row) }
    ensures rows { length held.old.items ≤ 1000 → length held.new.items ≤ 1000 }
{
    match place_of(held.as_slice(), change.row.as_slice()) {
        Some(place) => match merged(alloc, table, &held[place].what, change.what) {
            Ok(what) => {
                held[place].what = what;
                Ok(())
            }
            Err(_) => Err(HoldFault::Memory),
        },
        None => add(held, change),
    }
}

/// Holds changes of rows of the table one after the other, up to the first that isn't held.
pub(crate) fn hold_each(
    alloc: Global,
    table: &Table,
    held: &mut Vec<Change>,
    mut changes: VecDeque<Change>,
) -> Result<(), HoldFault>
    requires { length table.now.columns ≤ 255 }
    ensures ok { OnOk result (held.new.items ≡ spec.with_changes (table_shape table.now) held.old.items changes.items) }
    ensures fault { IfErr result (λ fault. spec.AreTooMany fault (table_shape table.now) held.old.items changes.items) }
    ensures rows { length held.old.items ≤ 1000 → length held.new.items ≤ 1000 }
{
    'changes: while let Some(change) = changes.pop_front() {
        match hold(alloc, table, held, change) {
            Ok(()) => {}
            Err(fault) => {
                drop(changes);
                return Err(fault);
            }
        }
    }
    Ok(())
}

/// Holds a change of a row of which none is held.
fn add(held: &mut Vec<Change>, change: Change) -> Result<(), HoldFault>
    ensures ok { OnOk result (held.new.items ≡ held.old.items ++ change ∷ []) }
    ensures err { OnErr result (held.new.items ≡ held.old.items) }
    ensures fault { IfErr result (λ fault. spec.IsManyRows fault held.old.items) }
    ensures rows { length held.old.items ≤ 1000 → length held.new.items ≤ 1000 }
{
    if held.len() >= MOST_ROWS {
        drop(change);
        return Err(HoldFault::Rows);
    }
    match held.push(change) {
        Ok(()) => Ok(()),
        Err(failed) => {
            drop(failed);
            Err(HoldFault::Memory)
        }
    }
}
