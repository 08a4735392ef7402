// What open batches are still to write.
ghost use Rattle.std.specs.Prelude.{◌≡◌, IfOk, List, map};
ghost use Rattle.std.specs.Option.{option_copied};
ghost use Rattle.std.specs.List.{AllByRecursion};
ghost use Rattle.px_indexrow.specs.Form.{FitsRowState};
ghost use Rattle.px_openbatches.specs.Pending.{applied_if};
ghost use Rattle.px_rows.specs.Keys.{IsRightTable};
ghost use Rattle.px_trail.specs.Batches.{change_of, rows_of};
ghost use Rattle.px_trail.specs.Trail.{table_shape};
ghost use Rattle.px_phases.specs.Batch.{AllFit, is_left_in, left_in, pending_state};

use crate::OpenBatch;
use crate::flags::is_same;
use crate::transition::changed;
use px_tables::Table;
use px_values::{Change, Row, Value, What};
use std::alloc::{AllocError, Global};

/// What a list of changes does to a row.
fn change_in<'a>(changes: &'a [Change], row: &[Value]) -> Option<&'a What>
    ensures { option_copied result ≡ change_of changes.now row.now }
{
    for change in changes {
        if is_same(change.row.as_slice(), row) {
            return Some(&change.what);
        }
    }
    None
}

impl OpenBatch {
    /// Its change of the row with these primary key values, if it is still to write it.
    pub fn left_of(&self, row: &[Value]) -> Option<&What>
        ensures { option_copied result ≡ left_in self.now row.now }
    {
        if !self.is_left() {
            return None;
        }
        change_in(self.changes().as_slice(), row)
    }
}

/// The row with these primary key values where all that is pending counts as written: its state, then the change of each batch
/// that is still to write it, one after another.
pub fn expected(
    alloc: Global,
    table: &Table,
    row: &[Value],
    state: Option<Row>,
    batches: &[OpenBatch],
) -> Result<Option<Row>, AllocError>
    requires table { IsRightTable table.now }
    requires state { FitsRowState table.now state }
    requires fit { AllByRecursion (λ b. AllFit table.now b.changes) batches.now }
    ensures { IfOk result (λ new. new ≡ pending_state (table_shape table.now) row.now state batches.now) }
{
    let mut state = state;
    for batch in batches {
        state = after(alloc, table, row, state, batch)?;
    }
    Ok(state)
}

/// A row's state once a batch has written it, if it is still to do so.
fn after(
    alloc: Global,
    table: &Table,
    row: &[Value],
    state: Option<Row>,
    batch: &OpenBatch,
) -> Result<Option<Row>, AllocError>
    requires table { IsRightTable table.now }
    requires state { FitsRowState table.now state }
    requires fit { AllFit table.now batch.now.changes }
    ensures { IfOk result (λ new. new ≡ applied_if (table_shape table.now) row.now state (left_in batch.now row.now)) }
{
    match batch.left_of(row) {
        Some(what) => {
            let new = changed(alloc, table, row, &state, what);
            drop(state);
            new
        }
        None => Ok(state),
    }
}

/// For each change, whether a batch is still to write its row.
pub fn pending_flags(
    alloc: Global,
    changes: &[Change],
    batches: &[OpenBatch],
) -> Result<Vec<bool>, AllocError>
    ensures { IfOk result (λ flags. flags.items ≡ map (is_left_in batches.now) (rows_of changes.now)) }
{
    let mut flags = Vec::with_capacity(alloc, changes.len())?;
    for change in changes {
        flags.push(is_pending(batches, change.row.as_slice()))?;
    }
    Ok(flags)
}

/// Whether a batch is still to write the row.
fn is_pending(batches: &[OpenBatch], row: &[Value]) -> bool
    ensures { result ≡ is_left_in batches.now row.now }
{
    batches.iter().any(|batch| batch.left_of(row).is_some())
}
