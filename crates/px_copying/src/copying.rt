// The same values, rows and changes again.
ghost use Rattle.std.specs.Prelude.{◌≡◌, IfOk};
ghost use Rattle.px_trail.specs.Batches.{rows_of};

use px_values::{Assignment, Assignments, Change, Changes, Row, Rows, Value, What};
use std::alloc::{AllocError, Global};

/// The same changes again.
pub fn copied(alloc: Global, changes: &[Change]) -> Result<Changes, AllocError>
    ensures { IfOk result (λ copy. copy ≡ changes.now) }
{
    let mut copies = Vec::with_capacity(alloc, changes.len())?;
    for change in changes {
        copies.push(copied_change(alloc, change)?)?;
    }
    Ok(Changes::of(copies))
}

/// The rows of changes.
pub fn copied_rows(alloc: Global, changes: &[Change]) -> Result<Rows, AllocError>
    ensures { IfOk result (λ rows. rows ≡ rows_of changes.now) }
{
    let mut rows = Vec::with_capacity(alloc, changes.len())?;
    for change in changes {
        rows.push(copied_row(alloc, &change.row)?)?;
    }
    Ok(Rows::of(rows))
}

/// The same values again.
pub fn copied_values(alloc: Global, values: &[Value]) -> Result<Vec<Value>, AllocError>
    ensures { IfOk result (λ copies. copies.items ≡ values.now) }
{
    let mut copies = Vec::with_capacity(alloc, values.len())?;
    for value in values {
        copies.push(value.copied(alloc)?)?;
    }
    Ok(copies)
}

fn copied_change(alloc: Global, change: &Change) -> Result<Change, AllocError>
    ensures { IfOk result (λ copy. copy ≡ change.now) }
{
    let row = copied_row(alloc, &change.row)?;
    match copied_what(alloc, &change.what) {
        Ok(what) => Ok(Change { row, what }),
        Err(fault) => {
            drop(row);
            Err(fault)
        }
    }
}

fn copied_row(alloc: Global, row: &Row) -> Result<Row, AllocError>
    ensures { IfOk result (λ copy. copy ≡ row.now) }
{
    let copies = copied_values(alloc, row.as_slice())?;
    Ok(Row::of(copies))
}

fn copied_what(alloc: Global, what: &What) -> Result<What, AllocError>
    ensures { IfOk result (λ copy. copy ≡ what.now) }
{
    match what {
        What::Gone => Ok(What::Gone),
        What::Set(assignments) => {
            let assignments = copied_assignments(alloc, assignments)?;
            Ok(What::Set(assignments))
        }
    }
}

fn copied_assignments(alloc: Global, assignments: &Assignments) -> Result<Assignments, AllocError>
    ensures { IfOk result (λ copy. copy ≡ assignments.now) }
{
    let assignments = assignments.as_slice();
    let mut copies = Vec::with_capacity(alloc, assignments.len())?;
    for assignment in assignments {
        let value = assignment.value.copied(alloc)?;
        copies.push(Assignment {
            column: assignment.column,
            value,
        })?;
    }
    Ok(Assignments::of(copies))
}
