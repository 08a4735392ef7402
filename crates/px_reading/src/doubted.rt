// The row of a doubted key.
ghost use Rattle.std.specs.Prelude.{◌≡◌, ◌<◌, ◌≤◌, ◌+◌, ℕ, Some, IfOk, length, slice_get, ◌≢◌, Err};
ghost use Rattle.px_outside.specs.OnDisk.{Rose};
ghost use Rattle.px_region.specs.OnlyRead.{HasOnlyRead};
ghost use Rattle.px_region.specs.declared.fault.LookFault.{LookFault as LookFaults};
ghost use Rattle.px_cells.specs.Rows.{IsRow};
ghost use Rattle.px_cellshapes.specs.Rows.{AreRightRows};
ghost use Rattle.px_indexrow.specs.Form.{row_of_index};
ghost use Rattle.px_keys.specs.Reading.{IsKey};
ghost use Rattle.px_keys.specs.Spelling.{Fits};
ghost use Rattle.px_paths.specs.Paths.{columns_on, index_path as path_of, owner_of as owner_among};
ghost use Rattle.px_region.specs.Region.{read_of};
ghost use Rattle.px_rows.specs.Keys.{IsRightTable, row_columns, row_key};
ghost use Rattle.px_tables.specs.declared.index.Index.{Index as Indexes};
ghost use Rattle.px_tables.specs.declared.table.Table.{Table as Tables};
ghost use Rattle.px_values.specs.Limits.{most_key};
ghost use Rattle.px_group.specs.Group.{IsRightGroup};
ghost use Rattle.px_group.specs.declared.group.IndexRegion.{IndexRegion as Part};
ghost use Rattle.px_reading.specs.Doubts.{IsKeyIn};
ghost use Rattle.px_reading.specs.Looked.{HasLooked, IsLookedAt};

use px_cells::Cell;
use px_group::Group;
use px_keys::{KeyColumn, KeyFault, decode_key};
use px_looks::{columns_of, row_cells, value_among};
use px_outside::Disk;
use px_paths::{PathColumn, index_path};
use px_region::{LookFault, Region};
use px_rows::{RowFault, key_of};
use px_tables::{Index, Table};
use px_values::{Row, Value};
use std::alloc::{AllocError, Global};

/// The primary key values that an index key holds, and the cells of their row.
#[derive(Drop)]
pub struct Doubted {
    pub row: Vec<Value>,
    pub cells: Vec<Cell>,
}

/// The primary key values among those of a key.
fn values_among(
    alloc: Global,
    table: &Table,
    path: &[PathColumn],
    values: &Row,
) -> Result<Vec<Value>, AllocError>
    ensures { IfOk result (λ found. found.items ≡ owner_among table.now path.now values.now) }
{
    let mut found = Vec::with_capacity(alloc, table.key.as_slice().len())?;
    for place in table.key.as_slice() {
        let value = value_among(alloc, path, values.as_slice(), place.column as usize)?;
        found.push(value)?;
    }
    Ok(found)
}

/// The primary key values that a key on the path of the index holds.
fn owner_on(
    alloc: Global,
    table: &Table,
    path: &[PathColumn],
    columns: &[KeyColumn],
    key: &[u8],
) -> Result<Vec<Value>, AllocError>
    requires columns { columns.now ≡ columns_on path.now }
    requires key { IsKey most_key columns.now key.now }
    ensures { IfOk result (λ row. (t : Tables) (x : Indexes) → t ≡ table.now → path.now ≡ path_of t x → row.items ≡ row_of_index t x key.now) }
{
    let values = match decode_key(alloc, key, columns) {
        Ok(values) => values,
        Err(KeyFault::Memory) => return Err(AllocError),
        Err(_) => unreachable!(),
    };
    values_among(alloc, table, path, &values)
}

/// The primary key values that a key of the index holds.
fn owner_of(
    alloc: Global,
    table: &Table,
    index: &Index,
    key: &[u8],
) -> Result<Vec<Value>, AllocError>
    requires key { IsKey most_key (columns_on (path_of table.now index.now)) key.now }
    ensures { IfOk result (λ row. row.items ≡ row_of_index table.now index.now key.now) }
{
    let path = index_path(alloc, table, index)?;
    let columns = columns_of(alloc, path.as_slice())?;
    owner_on(alloc, table, path.as_slice(), &columns, key)
}

/// The cells of the row with these primary key values. A row whose key would be too long has none.
fn cells_of_row<D: Disk>(
    alloc: Global,
    disk: &mut D,
    rows: &mut Region,
    table: &Table,
    row: &[Value],
) -> Result<Vec<Cell>, LookFault>
    requires table { IsRightTable table.now }
    requires fits { Fits (row_columns table.now) row.now }
    requires right { AreRightRows table.now (read_of rows.old) }
    ensures cells { IfOk result (λ cells. IsRow (read_of rows.old) (row_key table.now row.now) cells.items) }
    ensures counted { rows.new.looked ≤ rows.old.looked + 1 }
    ensures looked { IsLookedAt rows.old rows.new }
    ensures undamaged { (file place : ℕ) → result ≢ Err (LookFaults.Damaged file place) }
    ensures failed { result ≡ Err LookFaults.ReadFault → Rose ⟦<D as Disk>⟧ disk.old disk.new }
    ensures only_read { HasOnlyRead ⟦<D as Disk>⟧ disk.old disk.new }
{
    match key_of(alloc, table, row) {
        Ok(key) => row_cells(alloc, disk, rows, key.as_slice()),
        Err(RowFault::KeyTooLong) => Ok(Vec::new(alloc)),
        Err(_) => Err(LookFault::Memory),
    }
}

/// The row of a key of the index at a place.
///
/// It looks at one row of the table. The disk is only read.
pub fn row_of_doubt<D: Disk>(
    alloc: Global,
    disk: &mut D,
    group: &mut Group,
    place: usize,
    key: &[u8],
) -> Result<Doubted, LookFault>
    requires right { IsRightGroup group.old }
    requires there { place < length group.old.indexes.items }
    requires key { (x : Part) → slice_get group.old.indexes.items place ≡ Some x → IsKeyIn group.old x key.now }
    ensures row { IfOk result (λ d. (x : Part) → slice_get group.old.indexes.items place ≡ Some x → d.row.items ≡ row_of_index group.old.table x.index key.now) }
    ensures cells { IfOk result (λ d. IsRow (read_of group.old.rows) (row_key group.old.table d.row.items) d.cells.items) }
    ensures looked { HasLooked group.old group.new }
    ensures counted { group.new.rows.looked ≤ group.old.rows.looked + 1 }
    ensures indexes { group.new.indexes ≡ group.old.indexes }
    ensures undamaged { (file place : ℕ) → result ≢ Err (LookFaults.Damaged file place) }
    ensures failed { result ≡ Err LookFaults.ReadFault → Rose ⟦<D as Disk>⟧ disk.old disk.new }
    ensures only_read { HasOnlyRead ⟦<D as Disk>⟧ disk.old disk.new }
{
    let Ok(row) = owner_of(alloc, &group.table, &group.indexes[place].index, key) else {
        return Err(LookFault::Memory);
    };
    let cells = cells_of_row(alloc, disk, &mut group.rows, &group.table, &row)?;
    Ok(Doubted { row, cells })
}
