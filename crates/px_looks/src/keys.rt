// The keys of an index's path.
ghost use Rattle.std.specs.Prelude.{◌≡◌, ◌<◌, ◌≤◌, ℕ, List, suc, IfOk, length, map, ◌≢◌, Err};
ghost use Rattle.std.specs.Option.{option_copied};
ghost use Rattle.px_cells.specs.Contents.{value_at};
ghost use Rattle.px_cells.specs.Order.{IsCellList};
ghost use Rattle.px_cells.specs.Sight.{IsPlainRegion};
ghost use Rattle.px_outside.specs.OnDisk.{Rose};
ghost use Rattle.px_region.specs.OnlyRead.{HasOnlyRead};
ghost use Rattle.px_region.specs.Promise.{IsAlike, IsSamePromise};
ghost use Rattle.px_region.specs.Region.{read_of};
ghost use Rattle.px_region.specs.declared.fault.LookFault.{LookFault as Fault};
ghost use Rattle.px_paths.specs.Paths.{columns_on, index_path as path_of, value_on_path};
ghost use Rattle.px_rows.specs.Keys.{IsRightTable, column_in};
ghost use Rattle.px_rows.specs.inner.Found.{AreOf};
ghost use Rattle.px_looks.specs.Counted.{HasCounted};
ghost use Rattle.px_looks.specs.Found.{AreNext, at_key};
ghost use Rattle.px_looks.specs.IndexKeys.{ShowsKey, column_shown, columns_shown, found_at, found_with, is_included as includes, shown_of_key, value_or_null};
ghost use Rattle.px_looks.specs.Versions.{HasNoDelete, is_verified as verified_by};
ghost use Rattle.px_looks.specs.inner.Seen.{value_in};

use crate::next::{NextKeys, look_next};
use crate::reader::Reader;
use crate::version::{FIRST, STATUS, is_verified, put_of, seen_in};
use px_calls::{Doubt, FoundKey, FoundRow};
use px_cells::Cell;
use px_keys::{KeyColumn, KeyFault, decode_key};
use px_outside::Disk;
use px_paths::{PathColumn, index_path};
use px_region::{LookFault, Region};
use px_rows::read_value;
use px_tables::{Index, Table};
use px_values::{Key, Row, Value};
use std::alloc::{AllocError, Global};

/// The value of a column among those of a key, or NULL.
pub fn value_among(
    alloc: Global,
    path: &[PathColumn],
    values: &[Value],
    place: usize,
) -> Result<Value, AllocError>
    ensures { IfOk result (λ value. value ≡ value_on_path path.now values.now place) }
{
    match path {
        [] => Ok(Value::Null),
        [first, columns @ ..] => match values {
            [] => Ok(Value::Null),
            [value, others @ ..] => {
                if first.place as usize == place {
                    return value.copied(alloc);
                }
                value_among(alloc, columns, others, place)
            }
        },
    }
}

/// Whether the index includes a column.
fn is_included(index: &Index, place: usize) -> bool
    ensures { result ≡ includes index.now place }
{
    index
        .included
        .as_slice()
        .iter()
        .any(|column| *column as usize == place)
}

/// The stored value of a column, or NULL.
fn stored_in(alloc: Global, table: &Table, puts: &[Cell], place: usize) -> Result<Value, AllocError>
    requires table { IsRightTable table.now }
    requires within { place < length table.now.columns }
    ensures { IfOk result (λ value. value ≡ value_or_null (column_in table.now.columns place).column_type (value_in puts.now (suc (suc place)))) }
{
    match put_of(puts, FIRST + place as u64) {
        Some(cell) => {
            let column = &table.columns.as_slice()[place];
            read_value(alloc, column.column_type, cell.value())
        }
        None => Ok(Value::Null),
    }
}

/// What the index shows of a column.
fn shown_in(
    alloc: Global,
    table: &Table,
    index: &Index,
    path: &[PathColumn],
    values: &[Value],
    puts: &[Cell],
    place: usize,
) -> Result<Value, AllocError>
    requires table { IsRightTable table.now }
    requires path { path.now ≡ path_of table.now index.now }
    requires within { place < length table.now.columns }
    ensures { IfOk result (λ value. value ≡ column_shown table.now index.now values.now (value_in puts.now) place) }
{
    if is_included(index, place) {
        return stored_in(alloc, table, puts, place);
    }
    value_among(alloc, path, values, place)
}

/// The row that the index shows.
fn row_of(
    alloc: Global,
    table: &Table,
    index: &Index,
    path: &[PathColumn],
    values: &[Value],
    puts: &[Cell],
) -> Result<Row, AllocError>
    requires table { IsRightTable table.now }
    requires path { path.now ≡ path_of table.now index.now }
    ensures { IfOk result (λ row. row ≡ shown_of_key table.now index.now values.now (value_in puts.now)) }
{
    let count = table.columns.as_slice().len();
    let mut row = Vec::with_capacity(alloc, count)?;
    for place in 0..count {
        let value = shown_in(alloc, table, index, path, values, puts, place)?;
        row.push(value)?;
    }
    Ok(Row::of(row))
}

/// What is found at a key with this status.
fn found_by(
    alloc: Global,
    table: &Table,
    index: &Index,
    path: &[PathColumn],
    key: &[u8],
    values: &[Value],
    puts: &[Cell],
    status: &Cell,
) -> Result<FoundKey, AllocError>
    requires table { IsRightTable table.now }
    requires path { path.now ≡ path_of table.now index.now }
    ensures { IfOk result (λ found. found ≡ found_with table.now index.now key.now values.now (value_in puts.now) status.now.stamp (verified_by (Some status.now.value))) }
{
    let key = Key::of(Vec::from_slice(alloc, key)?);
    if !is_verified(status) {
        return Ok(FoundKey::InDoubt(Doubt {
            index: index.id,
            key,
            stamp: status.stamp(),
            verdict: None,
        }));
    }
    match row_of(alloc, table, index, path, values, puts) {
        Ok(row) => Ok(FoundKey::Sure(FoundRow { key, row })),
        Err(fault) => Err(fault),
    }
}

/// What is found at a key with these values, by all its cells.
fn found_in(
    alloc: Global,
    reader: &KeyReader<'_>,
    key: &[u8],
    values: &[Value],
    cells: &[Cell],
) -> Result<Option<FoundKey>, AllocError>
    requires list { IsCellList cells.now }
    requires own { AreOf key.now cells.now }
    requires bare { HasNoDelete (at_key (value_at cells.now) key.now) }
    ensures { IfOk result (λ found. found ≡ found_at reader.now.table.now reader.now.index.now key.now values.now (at_key (value_at cells.now) key.now) reader.now.point) }
{
    let seen = seen_in(alloc, cells, reader.point)?;
    let puts = seen.as_slice();
    match put_of(puts, STATUS) {
        Some(status) => {
            let found = found_by(
                alloc,
                reader.table,
                reader.index,
                reader.path,
                key,
                values,
                puts,
                status,
            )?;
            Ok(Some(found))
        }
        None => Ok(None),
    }
}

/// Reads the keys of an index as of a point.
#[derive(Drop)]
pub(crate) struct KeyReader<'a> {
    pub(crate) table: &'a Table,
    pub(crate) index: &'a Index,
    /// The columns of its keys, with their places in the table.
    pub(crate) path: &'a [PathColumn],
    pub(crate) columns: &'a [KeyColumn],
    pub(crate) point: u64,
    ghost right: { IsRightTable table.now },
    ghost on: { path.now ≡ path_of table.now index.now },
    ghost keyed: { columns.now ≡ columns_on (path_of table.now index.now) },
}

impl<'a> Reader for KeyReader<'a> {
    ghost shows = { λ r. ShowsKey r.table.now r.index.now r.point };

    ghost admits = { λ r k h. HasNoDelete h };

    fn read(
        &self,
        alloc: Global,
        key: &[u8],
        cells: &[Cell],
    ) -> Result<Option<FoundKey>, AllocError> {
        let values = match decode_key(alloc, key, self.columns) {
            Ok(values) => values,
            Err(KeyFault::Memory) => return Err(AllocError),
            Err(_) => return Ok(None),
        };
        found_in(alloc, self, key, values.as_slice(), cells)
    }

    fn law(&self) {}
}

/// The columns of the keys of a path.
pub fn columns_of(alloc: Global, path: &[PathColumn]) -> Result<Vec<KeyColumn>, AllocError>
    ensures { IfOk result (λ columns. columns.items ≡ columns_on path.now) }
{
    let mut columns = Vec::with_capacity(alloc, path.len())?;
    for part in path {
        columns.push(part.column)?;
    }
    Ok(columns)
}

/// The next keys of an index, from the key `low` on and below `high`, past the key `after`, where a point sees a version: in
/// their order, each once, at most 64, and none missing up to the last. A verified version is sure, with the row that the
/// index shows, and another one is in doubt. Where there may be more, `next` is the key of the last.
///
/// The keys are found in logarithmic time and read one after the other; each one that is looked at is counted, also one
/// without a version at the point. Nothing else of the region changes, and the disk is only read.
pub fn look_keys<D: Disk>(
    alloc: Global,
    disk: &mut D,
    region: &mut Region,
    table: &Table,
    index: &Index,
    low: &[u8],
    high: Option<&[u8]>,
    after: Option<&[u8]>,
    point: u64,
) -> Result<NextKeys, LookFault>
    requires table { IsRightTable table.now }
    requires region { IsPlainRegion (read_of region.old) }
    ensures next { IfOk result (λ n. AreNext (ShowsKey table.now index.now point) (value_at (read_of region.old)) low.now (option_copied high.entry) (option_copied after.entry) n.found n.next) }
    ensures counted { IfOk result (λ n. HasCounted region.old region.new (length n.found)) }
    ensures risen { region.old.looked ≤ region.new.looked }
    ensures alike { IsAlike region.old region.new }
    ensures promised { IsSamePromise region.old region.new }
    ensures undamaged { (file place : ℕ) → result ≢ Err (Fault.Damaged file place) }
    ensures failed { result ≡ Err Fault.ReadFault → Rose ⟦<D as Disk>⟧ disk.old disk.new }
    ensures only_read { HasOnlyRead ⟦<D as Disk>⟧ disk.old disk.new }
{
    let Ok(path) = index_path(alloc, table, index) else {
        return Err(LookFault::Memory);
    };
    let Ok(columns) = columns_of(alloc, path.as_slice()) else {
        return Err(LookFault::Memory);
    };
    let reader = KeyReader {
        table,
        index,
        path: path.as_slice(),
        columns: &columns,
        point,
    };
    look_next(alloc, disk, region, &reader, low, high, after)
}
