// The row that a point sees of its cells.
ghost use Rattle.std.specs.Prelude.{◌≡◌, ◌<◌, ◌≤◌, ℕ, List, IfOk, length, replicate};
ghost use Rattle.px_cells.specs.Contents.{value_at};
ghost use Rattle.px_cells.specs.Order.{IsAscending, IsCellList};
ghost use Rattle.px_trail.specs.Trail.{table_shape};
ghost use Rattle.px_values.specs.States.{fresh_row};
ghost use Rattle.px_values.specs.declared.row.Value.{Value as ValueData};
ghost use Rattle.px_values.specs.declared.row.Value.TheVariants.{Null as NullValue};
ghost use Rattle.px_rows.specs.Keys.{IsRightTable, row_key};
ghost use Rattle.px_rows.specs.Spelled.{IsPlainAt, column_at, overlay, row_spelling, spelled_at};
ghost use Rattle.px_rows.specs.inner.Found.{AreOf, FindsNewest, FindsSeen, IsFamily, hidden_by, is_before as before_test};

use crate::{EMPTY_COLUMN, FIRST_COLUMN, read_value};
use px_cells::{Cell, CellKind};
use px_tables::Table;
use px_values::{Row, Value};
use std::alloc::{AllocError, Global};

/// The state of the row with these primary key values that a point sees, by the sorted list of the row's cells. None of
/// them is a Delete or a marker of one version.
pub fn row_at(
    alloc: Global,
    table: &Table,
    row: &[Value],
    cells: &[Cell],
    point: u64,
) -> Result<Option<Row>, AllocError>
    requires table { IsRightTable table.now }
    requires count { length row.now ≡ length table.now.key }
    requires list { IsCellList cells.now }
    requires own { AreOf (row_key table.now row.now) cells.now }
    requires plain { IsPlainAt (value_at cells.now) (row_key table.now row.now) }
    ensures { IfOk result (λ state. state ≡ spelled_at (row_spelling table.now) (value_at cells.now) row.now point) }
{
    let family = family_in(cells, point);
    if seen_in(cells, EMPTY_COLUMN, point, family).is_none() {
        return Ok(None);
    }
    let values = fresh(alloc, table, row)?;
    match seen_over(alloc, table, values, cells, point, family) {
        Ok(values) => Ok(Some(Row::of(values))),
        Err(fault) => Err(fault),
    }
}

/// The newest cell of a column at or below a point, in the sorted list of a row's cells. It takes logarithmic time.
fn newest_in(cells: &[Cell], qualifier: u8, point: u64) -> Option<&Cell>
    requires { IsAscending cells.now }
    ensures { (k : List ℕ) → AreOf k cells.now → FindsNewest cells.now k qualifier point result }
{
    let at = cells.partition_point(
        |cell: &Cell| -> bool
            ensures { result ≡ before_test qualifier point cell.now }
        { is_before(qualifier, point, cell) },
    );
    if at < cells.len() && cells[at].qualifier() == qualifier {
        return Some(&cells[at]);
    }
    None
}

/// Whether a cell stands before those of the column at or below the point.
fn is_before(qualifier: u8, point: u64, cell: &Cell) -> bool
    ensures { result ≡ before_test qualifier point cell.now }
{
    cell.qualifier() < qualifier || (cell.qualifier() == qualifier && point < cell.stamp())
}

/// The stamp of the newest DeleteFamily at or below a point.
fn family_in(cells: &[Cell], point: u64) -> Option<u64>
    requires { IsCellList cells.now }
    ensures { (k : List ℕ) → AreOf k cells.now → IsPlainAt (value_at cells.now) k → IsFamily (value_at cells.now) k point result }
{
    match newest_in(cells, 0, point) {
        Some(cell) => Some(cell.stamp()),
        None => None,
    }
}

/// The put of a column that a point sees, where this is the newest DeleteFamily for it.
fn seen_in(cells: &[Cell], qualifier: u8, point: u64, family: Option<u64>) -> Option<&Cell>
    requires { IsCellList cells.now }
    ensures { (k : List ℕ) → AreOf k cells.now → IsPlainAt (value_at cells.now) k → IsFamily (value_at cells.now) k point family → FindsSeen cells.now k qualifier point result }
{
    let cell = newest_in(cells, qualifier, point)?;
    match cell.kind() {
        CellKind::Put => {
            if is_hidden(cell.stamp(), family) {
                return None;
            }
            Some(cell)
        }
        _ => None,
    }
}

fn is_hidden(stamp: u64, family: Option<u64>) -> bool
    ensures { result ≡ hidden_by family stamp }
{
    match family {
        Some(newest) => stamp <= newest,
        None => false,
    }
}

/// The row with this key in which all other columns are NULL.
pub fn fresh(alloc: Global, table: &Table, row: &[Value]) -> Result<Vec<Value>, AllocError>
    requires table { IsRightTable table.now }
    requires count { length row.now ≡ length table.now.key }
    ensures { IfOk result (λ values. values.items ≡ fresh_row (table_shape table.now) row.now) }
{
    let key = table.key.as_slice();
    let mut values = nulls(alloc, table.columns.as_slice().len())?;
    for index in 0..key.len() {
        let value = row[index].copied(alloc)?;
        values[key[index].column as usize] = value;
    }
    Ok(values)
}

fn nulls(alloc: Global, count: usize) -> Result<Vec<Value>, AllocError>
    ensures { IfOk result (λ values. values.items ≡ replicate count NullValue) }
{
    let mut values = Vec::with_capacity(alloc, count)?;
    for index in 0..count {
        values.push(Value::Null)?;
    }
    Ok(values)
}

/// The values that a point sees, over those of a row.
fn seen_over(
    alloc: Global,
    table: &Table,
    mut values: Vec<Value>,
    cells: &[Cell],
    point: u64,
    family: Option<u64>,
) -> Result<Vec<Value>, AllocError>
    requires most { length values.items ≤ 254 }
    requires same { length values.items ≡ length table.now.columns }
    requires list { IsCellList cells.now }
    ensures { IfOk result (λ seen. (r : List ValueData) → AreOf (row_key table.now r) cells.now → IsPlainAt (value_at cells.now) (row_key table.now r) → IsFamily (value_at cells.now) (row_key table.now r) point family → seen.items ≡ overlay (column_at (row_spelling table.now) (value_at cells.now) r point) 0 values.items) }
{
    let columns = table.columns.as_slice();
    for place in 0..columns.len() {
        if let Some(cell) = seen_in(cells, FIRST_COLUMN + place as u8, point, family) {
            let value = read_value(alloc, columns[place].column_type, cell.value())?;
            values[place] = value;
        }
    }
    Ok(values)
}
