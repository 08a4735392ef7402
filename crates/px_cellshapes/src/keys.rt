// Whether the keys of cells are keys.
ghost use Rattle.std.specs.Prelude.{◌≡◌, ◌↔◌, ◌<◌, ◌-◌, IfOk, IsTrue, length};
ghost use Rattle.px_cells.specs.Scan.{cell_at};
ghost use Rattle.px_keys.specs.Reading.{IsKey};
ghost use Rattle.px_paths.specs.Paths.{columns_on};
ghost use Rattle.px_values.specs.Limits.{most_key};

use px_cells::Cell;
use px_keys::{KeyColumn, KeyFault, decode_key};
use px_paths::PathColumn;
use std::alloc::{AllocError, Global};

/// The columns of the keys of a path.
pub(crate) fn columns_of(alloc: Global, path: &[PathColumn]) -> Result<Vec<KeyColumn>, AllocError>
    ensures { IfOk result (λ columns. columns.items ≡ columns_on path.now) }
{
    let mut columns = Vec::with_capacity(alloc, path.len())?;
    for part in path {
        columns.push(part.column)?;
    }
    Ok(columns)
}

/// Whether the bytes are a key of these columns.
fn is_key(alloc: Global, columns: &[KeyColumn], bytes: &[u8]) -> Result<bool, AllocError>
    ensures { IfOk result (λ is. IsTrue is ↔ IsKey most_key columns.now bytes.now) }
{
    match decode_key(alloc, bytes, columns) {
        Ok(_) => Ok(true),
        Err(KeyFault::Memory) => Err(AllocError),
        Err(_) => Ok(false),
    }
}

/// Whether the cell at this place stands at a key of these columns, where the cells before it do. Cells of one key stand side by
/// side, so each key is read once.
pub(crate) fn has_key(
    alloc: Global,
    columns: &[KeyColumn],
    cells: &[Cell],
    place: usize,
) -> Result<bool, AllocError>
    requires within { place < length cells.now }
    requires before { 0 < place → IsKey most_key columns.now (cell_at cells.now (place - 1)).key }
    ensures { IfOk result (λ has. IsTrue has ↔ IsKey most_key columns.now (cell_at cells.now place).key) }
{
    let key = cells[place].key();
    if place > 0 && cells[place - 1].key() == key {
        return Ok(true);
    }
    is_key(alloc, columns, key)
}
