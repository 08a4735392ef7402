// Whether cells are those of a table's rows.
ghost use Rattle.std.specs.Prelude.{◌≡◌, ◌↔◌, IfOk, IsTrue};
ghost use Rattle.std.specs.List.{AllByRecursion};
ghost use Rattle.px_cells.specs.Order.{IsAscending};
ghost use Rattle.px_keys.specs.Reading.{IsKey};
ghost use Rattle.px_rows.specs.Keys.{IsRightTable, row_columns};
ghost use Rattle.px_values.specs.Limits.{most_key};
ghost use Rattle.px_cellshapes.specs.Rows.{AreRightRows, FitsColumnCell, FitsPlace, IsRightRowCell};

use crate::definitions::is_part;
use crate::keys::{columns_of, has_key};
use crate::values::is_stored;
use px_cells::{Cell, CellKind, is_placed};
use px_keys::KeyColumn;
use px_paths::table_path;
use px_rows::{EMPTY_COLUMN, FIRST_COLUMN};
use px_tables::Table;
use std::alloc::{AllocError, Global};

/// Whether the cells, each before those that follow it in the order of cells, are those of the table's rows. It looks at each cell
/// once, and takes memory for one key and one value at a time.
pub fn are_right_rows(alloc: Global, table: &Table, cells: &[Cell]) -> Result<bool, AllocError>
    requires ascending { IsAscending cells.now }
    ensures { IfOk result (λ are. IsTrue are ↔ AreRightRows table.now cells.now) }
{
    let path = table_path(alloc, table)?;
    let columns = columns_of(alloc, path.as_slice())?;
    all_right(alloc, table, &columns, cells)
}

/// Whether each of the cells is one of a row.
fn all_right(
    alloc: Global,
    table: &Table,
    columns: &[KeyColumn],
    cells: &[Cell],
) -> Result<bool, AllocError>
    requires columns { columns.now ≡ row_columns table.now }
    ensures { IfOk result (λ are. IsTrue are ↔ AllByRecursion (IsRightRowCell table.now) cells.now) }
{
    for place in 0..cells.len() {
        if !has_key(alloc, columns, cells, place)? {
            return Ok(false);
        }
        if !is_right(alloc, table, &cells[place])? {
            return Ok(false);
        }
    }
    Ok(true)
}

/// Whether a cell that stands at a key of the table is one of a row.
fn is_right(alloc: Global, table: &Table, cell: &Cell) -> Result<bool, AllocError>
    requires { IsKey most_key (row_columns table.now) cell.now.key }
    ensures { IfOk result (λ is. IsTrue is ↔ IsRightRowCell table.now cell.now) }
{
    let kind = cell.kind();
    if !is_placed(cell) || kind == CellKind::Delete || kind == CellKind::DeleteFamilyVersion {
        return Ok(false);
    }
    fits_place(alloc, table, cell)
}

/// Whether the cell is one that stands at its qualifier.
fn fits_place(alloc: Global, table: &Table, cell: &Cell) -> Result<bool, AllocError>
    ensures { IfOk result (λ fits. IsTrue fits ↔ FitsPlace table.now cell.now.qualifier cell.now.kind cell.now.value) }
{
    match cell.qualifier() {
        0 => Ok(true),
        EMPTY_COLUMN => Ok(cell.kind() != CellKind::Put || cell.value().is_empty()),
        qualifier => fits_column(alloc, table, qualifier - FIRST_COLUMN, cell),
    }
}

/// Whether the column is one outside the primary key, and what the cell puts is a value of it.
fn fits_column(alloc: Global, table: &Table, column: u8, cell: &Cell) -> Result<bool, AllocError>
    ensures { IfOk result (λ fits. IsTrue fits ↔ FitsColumnCell table.now column cell.now.kind cell.now.value) }
{
    let columns = table.columns.as_slice();
    if column as usize >= columns.len() || is_part(table.key.as_slice(), column) {
        return Ok(false);
    }
    if cell.kind() != CellKind::Put {
        return Ok(true);
    }
    is_stored(alloc, columns[column as usize].column_type, cell.value())
}
