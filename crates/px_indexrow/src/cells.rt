// The cells of index rows.
ghost use Rattle.std.specs.Prelude.{◌≡◌, ◌≢◌, ◌<◌, ◌≤◌, ◌⊎◌, ℕ, Some, None, IfOk, IsOk, suc, length, get_or, ◌∷◌, []};
ghost use Rattle.std.specs.Option.{option_copied};
ghost use Rattle.px_keys.specs.Spelling.{Fits};
ghost use Rattle.px_indexrow.specs.Verdicts.{verdict_of};
ghost use Rattle.px_rows.specs.Keys.{IsRightTable, row_columns};
ghost use Rattle.px_indexrow.specs.Form.{FitsRowState, IsLongInIndex, IsRightIndex, index_form};
ghost use Rattle.px_indexrow.specs.Lists.{base_version, closes_of, column_cell as included_cell, fix_of, left_key, marks_of, status_cell, version_cells, version_if as version_cells_of};
ghost use Rattle.px_indexrow.specs.Form.{bytes_if};
ghost use Rattle.px_rows.specs.Keys.{column_in};
ghost use Rattle.px_rows.specs.Stored.{stored};
ghost use Rattle.px_values.specs.declared.row.Value.TheVariants.{Null as NullValue};

use crate::Repair;
use crate::keys::state_key;
use px_cells::{Cell, CellKind, Cells};
use px_rows::{EMPTY_COLUMN, RowFault, cell, column_cell};
use px_tables::{Index, Table};
use px_values::{Key, Row, Value};
use std::alloc::{AllocError, Global};

/// The status of a version that tells its row.
pub const VERIFIED: u8 = 1;

/// The status of a version that a batch has marked.
pub const UNVERIFIED: u8 = 2;

/// The marks of a change, which are written before it: a version at the row's new index key, and the status alone at an old
/// key that the row leaves.
pub fn marks(
    alloc: Global,
    table: &Table,
    index: &Index,
    row: &[Value],
    old: &Option<Row>,
    new: &Option<Row>,
    stamp: u64,
) -> Result<Cells, RowFault>
    requires table { IsRightTable table.now }
    requires index { IsRightIndex table.now index.now }
    requires fits { Fits (row_columns table.now) row.now }
    requires old { FitsRowState table.now old.now }
    requires new { FitsRowState table.now new.now }
    ensures cells { IfOk result (λ cells. cells ≡ marks_of (index_form table.now index.now) row.now stamp old.now new.now) }
    ensures short { IsOk result → (IsLongInIndex table.now index.now row.now new.now → ⊥) × (IsLongInIndex table.now index.now row.now old.now → ⊥) }
    ensures too_long { result ≡ Err RowFault.KeyTooLong → IsLongInIndex table.now index.now row.now new.now ⊎ IsLongInIndex table.now index.now row.now old.now }
    ensures not_a_row { (place : ℕ) → result ≢ Err (RowFault.NotARow place) }
{
    let new_key = state_key(alloc, table, index, row, new)?;
    let old_key = state_key(alloc, table, index, row, old)?;
    let mut cells = version_if(alloc, table, index, &new_key, new, stamp, UNVERIFIED)?;
    if let Some(key) = left(&old_key, &new_key) {
        cells.push(status(alloc, key.as_slice(), stamp, UNVERIFIED)?)?;
    }
    Ok(cells)
}

/// What closes the marks of a change, once it is written: the version at the new key is verified, and an old key that the row
/// has left is retired.
pub fn closes(
    alloc: Global,
    table: &Table,
    index: &Index,
    row: &[Value],
    old: &Option<Row>,
    new: &Option<Row>,
    stamp: u64,
) -> Result<Cells, RowFault>
    requires table { IsRightTable table.now }
    requires index { IsRightIndex table.now index.now }
    requires fits { Fits (row_columns table.now) row.now }
    requires old { FitsRowState table.now old.now }
    requires new { FitsRowState table.now new.now }
    ensures cells { IfOk result (λ cells. cells ≡ closes_of (index_form table.now index.now) row.now stamp old.now new.now) }
    ensures short { IsOk result → (IsLongInIndex table.now index.now row.now new.now → ⊥) × (IsLongInIndex table.now index.now row.now old.now → ⊥) }
    ensures too_long { result ≡ Err RowFault.KeyTooLong → IsLongInIndex table.now index.now row.now new.now ⊎ IsLongInIndex table.now index.now row.now old.now }
    ensures not_a_row { (place : ℕ) → result ≢ Err (RowFault.NotARow place) }
{
    let new_key = state_key(alloc, table, index, row, new)?;
    let old_key = state_key(alloc, table, index, row, old)?;
    let mut cells = Cells::new(alloc);
    if let Some(key) = &new_key {
        cells.push(status(alloc, key.as_slice(), stamp, VERIFIED)?)?;
    }
    if let Some(key) = left(&old_key, &new_key) {
        cells.push(cell(alloc, key.as_slice(), 0, stamp, CellKind::DeleteFamily, &[])?)?;
    }
    Ok(cells)
}

/// The base version of a row, with which an index is built.
pub fn base(
    alloc: Global,
    table: &Table,
    index: &Index,
    row: &[Value],
    state: &Option<Row>,
    stamp: u64,
) -> Result<Cells, RowFault>
    requires table { IsRightTable table.now }
    requires index { IsRightIndex table.now index.now }
    requires fits { Fits (row_columns table.now) row.now }
    requires state { FitsRowState table.now state.now }
    ensures cells { IfOk result (λ cells. cells ≡ base_version (index_form table.now index.now) row.now stamp state.now) }
    ensures too_long { result ≡ Err RowFault.KeyTooLong → IsLongInIndex table.now index.now row.now state.now }
    ensures not_a_row { (place : ℕ) → result ≢ Err (RowFault.NotARow place) }
{
    let key = state_key(alloc, table, index, row, state)?;
    match version_if(alloc, table, index, &key, state, stamp, VERIFIED) {
        Ok(cells) => Ok(cells),
        Err(_) => Err(RowFault::Memory),
    }
}

/// What a repair of a version writes. Where it verifies a version at or below the horizon, that version is given a cell for each
/// included column of the row there.
pub fn fix(
    alloc: Global,
    table: &Table,
    index: &Index,
    key: &[u8],
    state: &Option<Row>,
    horizon: u64,
    stamp: u64,
    repair: Repair,
) -> Result<Cells, AllocError>
    requires table { IsRightTable table.now }
    requires index { IsRightIndex table.now index.now }
    requires state { FitsRowState table.now state.now }
    requires stands { repair ≡ Repair.Verify → stamp ≤ horizon → state.now ≢ None }
    ensures { IfOk result (λ cells. cells ≡ fix_of (index_form table.now index.now) horizon state.now key.now stamp (verdict_of repair)) }
{
    match repair {
        Repair::Leave => Ok(Cells::new(alloc)),
        Repair::Verify => {
            match state {
                Some(row) if stamp <= horizon => version_at(
                    alloc,
                    table,
                    index,
                    key,
                    row.as_slice(),
                    stamp,
                    VERIFIED,
                ),
                _ => one(alloc, status(alloc, key, stamp, VERIFIED)?),
            }
        }
        Repair::Retire => one(
            alloc,
            cell(alloc, key, 0, stamp, CellKind::DeleteFamily, &[])?,
        ),
        Repair::Erase => one(
            alloc,
            cell(alloc, key, 0, stamp, CellKind::DeleteFamilyVersion, &[])?,
        ),
    }
}

/// The list of one cell.
fn one(alloc: Global, cell: Cell) -> Result<Cells, AllocError>
    ensures { IfOk result (λ cells. cells ≡ cell ∷ []) }
{
    let mut cells = Cells::new(alloc);
    cells.push(cell)?;
    Ok(cells)
}

/// The old key, where the row has left it.
fn left<'a>(old: &'a Option<Key>, new: &Option<Key>) -> Option<&'a Key>
    ensures { option_copied result ≡ left_key old.now new.now }
{
    match (old, new) {
        (Some(old), Some(new)) => {
            if old.as_slice() == new.as_slice() {
                return None;
            }
            Some(old)
        }
        (Some(old), None) => Some(old),
        (None, _) => None,
    }
}

/// A version at the key of a state, where it has one.
fn version_if(
    alloc: Global,
    table: &Table,
    index: &Index,
    key: &Option<Key>,
    state: &Option<Row>,
    stamp: u64,
    byte: u8,
) -> Result<Cells, AllocError>
    requires index { IsRightIndex table.now index.now }
    requires most { length table.now.columns ≤ 254 }
    requires state { FitsRowState table.now state.now }
    requires key { state.now ≡ None → key.now ≡ None }
    ensures { IfOk result (λ cells. cells ≡ version_cells_of (index_form table.now index.now) stamp byte state.now key.now) }
{
    match (key, state) {
        (Some(key), Some(state)) => version_at(
            alloc,
            table,
            index,
            key.as_slice(),
            state.as_slice(),
            stamp,
            byte,
        ),
        (_, _) => Ok(Cells::new(alloc)),
    }
}

/// A version of a row's state at a key: its status, and a cell for each included column.
pub fn version_at(
    alloc: Global,
    table: &Table,
    index: &Index,
    key: &[u8],
    state: &[Value],
    stamp: u64,
    byte: u8,
) -> Result<Cells, AllocError>
    requires index { IsRightIndex table.now index.now }
    requires most { length table.now.columns ≤ 254 }
    requires state { FitsRowState table.now (Some state.now) }
    ensures { IfOk result (λ cells. cells ≡ version_cells (index_form table.now index.now) key.now stamp byte (Some state.now)) }
{
    let mut cells = Cells::new(alloc);
    cells.push(status(alloc, key, stamp, byte)?)?;
    let included = index.included.as_slice();
    let mut left = included.len();
    while left > 0 {
        left -= 1;
        cells.push(column(alloc, table, key, included[left], stamp, state)?)?;
    }
    Ok(cells)
}

/// The cell of an included column: a put of its value, and a DeleteColumn for NULL.
fn column(
    alloc: Global,
    table: &Table,
    key: &[u8],
    place: u8,
    stamp: u64,
    state: &[Value],
) -> Result<Cell, AllocError>
    requires within { place < length table.now.columns }
    requires most { length table.now.columns ≤ 254 }
    requires state { FitsRowState table.now (Some state.now) }
    ensures { IfOk result (λ cell. cell ≡ included_cell key.now stamp (suc (suc place)) (bytes_if (stored (column_in table.now.columns place).column_type (get_or state.now place NullValue)) (get_or state.now place NullValue))) }
{
    let value = &state[place as usize];
    column_cell(
        alloc,
        table.columns.as_slice(),
        key,
        place as usize,
        stamp,
        value,
    )
}

/// The cell of a version's status.
fn status(alloc: Global, key: &[u8], stamp: u64, byte: u8) -> Result<Cell, AllocError>
    ensures { IfOk result (λ cell. cell ≡ status_cell key.now stamp byte) }
{
    cell(alloc, key, EMPTY_COLUMN, stamp, CellKind::Put, &[byte])
}
