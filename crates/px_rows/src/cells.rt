// The cells that a change of a row writes.
ghost use Rattle.std.specs.Prelude.{◌≡◌, ◌≢◌, ◌<◌, ◌≤◌, ℕ, IfOk, length};
ghost use Rattle.std.specs.List.{AllByRecursion};
ghost use Rattle.px_cells.specs.Contents.{value_at};
ghost use Rattle.px_cells.specs.Order.{IsCellList};
ghost use Rattle.px_values.specs.Limits.{most_key};
ghost use Rattle.px_values.specs.Types.{HasType};
ghost use Rattle.px_rows.specs.Keys.{IsRightTable, column_in, row_key};
ghost use Rattle.px_rows.specs.Spelled.{FitsColumnOf, FitsTable, FitsWhat, assigned_to, change_contents, row_spelling};
ghost use Rattle.px_rows.specs.inner.Found.{AreOf};
ghost use Rattle.px_rows.specs.Cells.{value_cell};
ghost use Rattle.px_rows.specs.inner.Lists.{change_list, set_cells};
ghost use Rattle.std.specs.Option.{option_copied};

use crate::{RowFault, key_of, stored_value};
use px_cells::{Cell, CellKind, Cells};
use px_tables::{Table, TableColumn};
use px_values::{Assignment, Change, Value, What};
use std::alloc::{AllocError, Global};

/// The qualifier of the empty column, which stands where the row does.
pub const EMPTY_COLUMN: u8 = 1;

/// The qualifier of the first column of a table.
pub const FIRST_COLUMN: u8 = 2;

/// The cells of a change of a row: all at its key and of the stamp, in order.
pub fn cells_of(
    alloc: Global,
    table: &Table,
    change: &Change,
    stamp: u64,
) -> Result<Cells, RowFault>
    requires table { IsRightTable table.now }
    requires fits { FitsTable table.now change.now.row change.now.what }
    ensures cells { IfOk result (λ cells. value_at cells ≡ change_contents (row_spelling table.now) change.now.row stamp change.now.what) }
    ensures list { IfOk result (λ cells. IsCellList cells) }
    ensures own { IfOk result (λ cells. AreOf (row_key table.now change.now.row) cells) }
    ensures too_long { result ≡ Err RowFault.KeyTooLong → most_key < length (row_key table.now change.now.row) }
    ensures not_a_row { (place : ℕ) → result ≢ Err (RowFault.NotARow place) }
{
    let key = key_of(alloc, table, change.row.as_slice())?;
    match change_cells(alloc, table, key.as_slice(), &change.what, stamp) {
        Ok(cells) => Ok(cells),
        Err(_) => Err(RowFault::Memory),
    }
}

fn change_cells(
    alloc: Global,
    table: &Table,
    key: &[u8],
    what: &What,
    stamp: u64,
) -> Result<Cells, AllocError>
    requires table { IsRightTable table.now }
    requires fits { FitsWhat table.now what.now }
    ensures { IfOk result (λ cells. cells ≡ change_list table.now.columns key.now stamp what.now) }
{
    match what {
        What::Gone => {
            let mut cells = Cells::new(alloc);
            cells.push(cell(alloc, key, 0, stamp, CellKind::DeleteFamily, &[])?)?;
            Ok(cells)
        }
        What::Set(assignments) => { set_cells(alloc, table, key, assignments.as_slice(), stamp) }
    }
}

/// The cells of the assignments, in the order of the columns.
fn set_cells(
    alloc: Global,
    table: &Table,
    key: &[u8],
    assignments: &[Assignment],
    stamp: u64,
) -> Result<Cells, AllocError>
    requires table { IsRightTable table.now }
    requires fits { AllByRecursion (FitsColumnOf table.now) assignments.now }
    ensures { IfOk result (λ cells. cells ≡ set_cells table.now.columns key.now stamp assignments.now (length table.now.columns)) }
{
    let columns = table.columns.as_slice();
    let mut cells = Cells::new(alloc);
    cells.push(cell(alloc, key, EMPTY_COLUMN, stamp, CellKind::Put, &[])?)?;
    for place in 0..columns.len() {
        if let Some(value) = assigned(assignments, place) {
            cells.push(column_cell(alloc, columns, key, place, stamp, value)?)?;
        }
    }
    Ok(cells)
}

/// The value that the assignments give a column: the last one counts.
fn assigned(assignments: &[Assignment], column: usize) -> Option<&Value>
    ensures { option_copied result ≡ assigned_to assignments.now column }
{
    let mut found = None;
    for assignment in assignments {
        if assignment.column as usize == column {
            found = Some(&assignment.value);
        }
    }
    found
}

/// The cell of the column at this place of the table: a put of the value, and a DeleteColumn for NULL.
pub fn column_cell(
    alloc: Global,
    columns: &[TableColumn],
    key: &[u8],
    place: usize,
    stamp: u64,
    value: &Value,
) -> Result<Cell, AllocError>
    requires within { place < length columns.now }
    requires most { length columns.now ≤ 254 }
    requires has_type { HasType (column_in columns.now place).column_type value.now }
    ensures { IfOk result (λ cell. cell ≡ value_cell columns.now key.now stamp place value.now) }
{
    let qualifier = FIRST_COLUMN + place as u8;
    if let Value::Null = value {
        return cell(alloc, key, qualifier, stamp, CellKind::DeleteColumn, &[]);
    }
    let bytes = stored_value(alloc, columns[place].column_type, value)?;
    Cell::new(alloc, key, qualifier, stamp, CellKind::Put, &bytes)
}

/// A cell with copies of the key and the value.
pub fn cell(
    alloc: Global,
    key: &[u8],
    qualifier: u8,
    stamp: u64,
    kind: CellKind,
    value: &[u8],
) -> Result<Cell, AllocError>
    ensures { IfOk result (λ cell. cell ≡ record { key = key.now; qualifier = qualifier; stamp = stamp; kind = kind; value = value.now }) }
{
    Cell::new(alloc, key, qualifier, stamp, kind, value)
}
