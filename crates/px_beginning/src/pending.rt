// What the batches of a table are still to write.
ghost use Rattle.std.specs.Prelude.{◌≡◌, IfOk, is_some, map};
ghost use Rattle.std.specs.List.{AllByRecursion, list_any};
ghost use Rattle.px_indexrow.specs.Form.{FitsRowState};
ghost use Rattle.px_rows.specs.Keys.{IsRightTable};
ghost use Rattle.px_trail.specs.Batches.{rows_of};
ghost use Rattle.px_trail.specs.Trail.{table_shape};
ghost use Rattle.px_group.specs.Group.{batch_in};
ghost use Rattle.px_phases.specs.Batch.{AllFit, is_left_in, left_in, pending_state};

use px_group::Begun;
use px_phases::expected;
use px_tables::Table;
use px_values::{Change, Row, Value};
use std::alloc::{AllocError, Global};
use std::slice::from_ref;

/// The row with these primary key values where all that is pending counts as written.
pub(crate) fn expected_of(
    alloc: Global,
    table: &Table,
    row: &[Value],
    state: Option<Row>,
    batches: &[Begun],
) -> Result<Option<Row>, AllocError>
    requires table { IsRightTable table.now }
    requires state { FitsRowState table.now state }
    requires fit { AllByRecursion (λ m. AllFit table.now m.batch.changes) batches.now }
    ensures state { IfOk result (λ new. new ≡ pending_state (table_shape table.now) row.now state (map batch_in batches.now)) }
    ensures fits { IfOk result (λ new. FitsRowState table.now new) }
{
    let mut state = state;
    for begun in batches {
        state = expected(alloc, table, row, state, from_ref(&begun.batch))?;
    }
    Ok(state)
}

/// For each change, whether a batch is still to write its row.
pub(crate) fn flags_of(
    alloc: Global,
    changes: &[Change],
    batches: &[Begun],
) -> Result<Vec<bool>, AllocError>
    ensures { IfOk result (λ flags. flags.items ≡ map (is_left_in (map batch_in batches.now)) (rows_of changes.now)) }
{
    let mut flags = Vec::with_capacity(alloc, changes.len())?;
    for change in changes {
        flags.push(is_pending(batches, change.row.as_slice()))?;
    }
    Ok(flags)
}

/// Whether a batch is still to write the row.
fn is_pending(batches: &[Begun], row: &[Value]) -> bool
    ensures { result ≡ list_any (λ m. is_some (left_in m.batch row.now)) batches.now }
{
    batches
        .iter()
        .any(|begun| begun.batch.left_of(row).is_some())
}
