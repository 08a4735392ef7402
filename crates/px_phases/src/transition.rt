// Rows before and after a change.
ghost use Rattle.std.specs.Prelude.{◌≡◌, ◌<◌, ◌≤◌, ℕ, List, IfOk, length};
ghost use Rattle.std.specs.List.{AllByRecursion};
ghost use Rattle.std.specs.Option.{unwrap_or};
ghost use Rattle.px_indexrow.specs.Form.{FitsRowState};
ghost use Rattle.px_rows.specs.Keys.{IsRightTable};
ghost use Rattle.px_rows.specs.Spelled.{FitsColumnOf, FitsTable};
ghost use Rattle.px_trail.specs.Trail.{table_shape};
ghost use Rattle.px_values.specs.States.{apply, assigned as assigned_row, fresh_row};

use px_rows::fresh;
use px_tables::Table;
use px_values::{Assignment, Row, Value, What};
use std::alloc::{AllocError, Global};

/// A row before a change and after it. A row that isn't there is none.
#[derive(Drop)]
pub struct Transition {
    pub old: Option<Row>,
    pub new: Option<Row>,
}

/// The row with these primary key values after a change.
pub fn changed(
    alloc: Global,
    table: &Table,
    row: &[Value],
    old: &Option<Row>,
    what: &What,
) -> Result<Option<Row>, AllocError>
    requires table { IsRightTable table.now }
    requires fits { FitsTable table.now row.now what.now }
    requires old { FitsRowState table.now old.now }
    ensures { IfOk result (λ new. new ≡ apply (table_shape table.now) row.now old.now what.now) }
{
    match what {
        What::Gone => Ok(None),
        What::Set(assignments) => {
            let values = values_of(alloc, table, row, old)?;
            match assigned(alloc, values, assignments.as_slice()) {
                Ok(values) => Ok(Some(Row::of(values))),
                Err(fault) => Err(fault),
            }
        }
    }
}

/// The values of a row, or those of one of which only the key is known.
fn values_of(
    alloc: Global,
    table: &Table,
    row: &[Value],
    old: &Option<Row>,
) -> Result<Vec<Value>, AllocError>
    requires table { IsRightTable table.now }
    requires count { length row.now ≡ length table.now.key }
    ensures { IfOk result (λ values. values.items ≡ unwrap_or old.now (fresh_row (table_shape table.now) row.now)) }
{
    match old {
        Some(old) => copied(alloc, old.as_slice()),
        None => fresh(alloc, table, row),
    }
}

/// The same values again.
fn copied(alloc: Global, values: &[Value]) -> Result<Vec<Value>, AllocError>
    ensures { IfOk result (λ copies. copies.items ≡ values.now) }
{
    let mut copies = Vec::with_capacity(alloc, values.len())?;
    for value in values {
        copies.push(value.copied(alloc)?)?;
    }
    Ok(copies)
}

/// The values with these assignments.
fn assigned(
    alloc: Global,
    mut values: Vec<Value>,
    assignments: &[Assignment],
) -> Result<Vec<Value>, AllocError>
    requires { AllByRecursion (λ a. a.column < length values.items) assignments.now }
    ensures { IfOk result (λ set. set.items ≡ assigned_row values.items assignments.now) }
{
    for assignment in assignments {
        let value = assignment.value.copied(alloc)?;
        values[assignment.column as usize] = value;
    }
    Ok(values)
}
