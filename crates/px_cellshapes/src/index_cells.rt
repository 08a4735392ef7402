// Whether cells are those of an index's keys.
ghost use Rattle.std.specs.Prelude.{◌≡◌, ◌∷◌, [], ◌↔◌, IfOk, IsTrue};
ghost use Rattle.std.specs.List.{AllByRecursion};
ghost use Rattle.px_cells.specs.Order.{IsAscending};
ghost use Rattle.px_indexrow.specs.Form.{IsRightIndex, index_columns};
ghost use Rattle.px_keys.specs.Reading.{IsKey};
ghost use Rattle.px_values.specs.Limits.{most_key};
ghost use Rattle.px_cellshapes.specs.Keys.{AreRightKeys, FitsIncluded, FitsKeyPlace, FitsStatus, IsRightIndexCell};

use crate::definitions::is_among;
use crate::keys::{columns_of, has_key};
use crate::values::is_stored;
use px_cells::{Cell, CellKind, is_placed};
use px_indexrow::{UNVERIFIED, VERIFIED};
use px_keys::KeyColumn;
use px_paths::index_path;
use px_rows::{EMPTY_COLUMN, FIRST_COLUMN};
use px_tables::{Index, Table};
use std::alloc::{AllocError, Global};

/// Whether the cells, each before those that follow it in the order of cells, are those of the index's keys. It looks at each cell
/// once, and takes memory for one key and one value at a time.
pub fn are_right_keys(
    alloc: Global,
    table: &Table,
    index: &Index,
    cells: &[Cell],
) -> Result<bool, AllocError>
    requires index { IsRightIndex table.now index.now }
    requires ascending { IsAscending cells.now }
    ensures { IfOk result (λ are. IsTrue are ↔ AreRightKeys table.now index.now cells.now) }
{
    let path = index_path(alloc, table, index)?;
    let columns = columns_of(alloc, path.as_slice())?;
    all_right(alloc, table, index, &columns, cells)
}

/// Whether each of the cells is one of an index's key.
fn all_right(
    alloc: Global,
    table: &Table,
    index: &Index,
    columns: &[KeyColumn],
    cells: &[Cell],
) -> Result<bool, AllocError>
    requires index { IsRightIndex table.now index.now }
    requires columns { columns.now ≡ index_columns table.now index.now }
    ensures { IfOk result (λ are. IsTrue are ↔ AllByRecursion (IsRightIndexCell table.now index.now) cells.now) }
{
    for place in 0..cells.len() {
        if !has_key(alloc, columns, cells, place)? {
            return Ok(false);
        }
        if !is_right(alloc, table, index, &cells[place])? {
            return Ok(false);
        }
    }
    Ok(true)
}

/// Whether a cell that stands at a key of the index is one of the index.
fn is_right(alloc: Global, table: &Table, index: &Index, cell: &Cell) -> Result<bool, AllocError>
    requires index { IsRightIndex table.now index.now }
    requires key { IsKey most_key (index_columns table.now index.now) cell.now.key }
    ensures { IfOk result (λ is. IsTrue is ↔ IsRightIndexCell table.now index.now cell.now) }
{
    if !is_placed(cell) || cell.kind() == CellKind::Delete {
        return Ok(false);
    }
    fits_place(alloc, table, index, cell)
}

/// Whether the cell is one that stands at its qualifier.
fn fits_place(alloc: Global, table: &Table, index: &Index, cell: &Cell) -> Result<bool, AllocError>
    requires { IsRightIndex table.now index.now }
    ensures { IfOk result (λ fits. IsTrue fits ↔ FitsKeyPlace table.now index.now cell.now.qualifier cell.now.kind cell.now.value) }
{
    match cell.qualifier() {
        0 => Ok(true),
        EMPTY_COLUMN => Ok(fits_status(cell)),
        qualifier => fits_included(alloc, table, index, qualifier - FIRST_COLUMN, cell),
    }
}

/// Whether a cell may stand in the column of the status.
fn fits_status(cell: &Cell) -> bool
    ensures { IsTrue result ↔ FitsStatus cell.now.kind cell.now.value }
{
    match cell.kind() {
        CellKind::DeleteColumn => false,
        CellKind::Put => is_byte(cell.value(), VERIFIED) || is_byte(cell.value(), UNVERIFIED),
        _ => true,
    }
}

/// Whether the bytes are this one alone.
fn is_byte(bytes: &[u8], byte: u8) -> bool
    ensures { IsTrue result ↔ (bytes.now ≡ byte ∷ []) }
{
    bytes.len() == 1 && bytes[0] == byte
}

/// Whether the index includes the column, and what the cell puts is a value of it.
fn fits_included(
    alloc: Global,
    table: &Table,
    index: &Index,
    column: u8,
    cell: &Cell,
) -> Result<bool, AllocError>
    requires { IsRightIndex table.now index.now }
    ensures { IfOk result (λ fits. IsTrue fits ↔ FitsIncluded table.now index.now column cell.now.kind cell.now.value) }
{
    if !is_among(index.included.as_slice(), column) {
        return Ok(false);
    }
    match cell.kind() {
        CellKind::Put => {
            let columns = table.columns.as_slice();
            is_stored(alloc, columns[column as usize].column_type, cell.value())
        }
        _ => Ok(true),
    }
}
