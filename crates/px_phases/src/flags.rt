// The rows of an open batch on which another batch was pending.
ghost use Rattle.std.specs.Prelude.{◌≡◌, length};
ghost use Rattle.std.specs.Ordering.{is_eq};
ghost use Rattle.px_values.specs.Order.{row_order};
ghost use Rattle.px_trail.specs.Batches.{has, rows_of};
ghost use Rattle.px_openbatches.specs.Pending.{meet_flags};

use px_values::{Changes, Direction, Value, compare};
use std::cmp::Ordering;

/// Whether two rows have the same values.
pub(crate) fn is_same(a: &[Value], b: &[Value]) -> bool
    ensures { result ≡ is_eq (row_order a.now b.now) }
{
    if a.len() != b.len() {
        return false;
    }
    for i in 0..a.len() {
        if compare(&a[i], &b[i], Direction::Ascending) != Ordering::Equal {
            return false;
        }
    }
    true
}

/// Whether these changes name the row.
pub(crate) fn names(changes: &Changes, row: &[Value]) -> bool
    ensures { result ≡ has (rows_of changes.now) row.now }
{
    for change in changes.as_slice() {
        if is_same(change.row.as_slice(), row) {
            return true;
        }
    }
    false
}

/// What another batch's begin makes of a batch's flags. It takes no memory.
pub(crate) fn meet(flags: &mut [bool], changes: &Changes, others: &Changes)
    requires { length flags.old ≡ length changes.now }
    ensures { flags.new ≡ meet_flags (rows_of others.now) flags.old (rows_of changes.now) }
{
    let changes = changes.as_slice();
    for i in 0..changes.len() {
        if names(others, changes[i].row.as_slice()) {
            flags[i] = true;
        }
    }
}
