// The keys of rows.
ghost use Rattle.std.specs.Prelude.{◌≡◌, ◌≢◌, ◌≤◌, ◌<◌, ◌↔◌, ℕ, IfOk, length, map};
ghost use Rattle.px_values.specs.Limits.{most_key};
ghost use Rattle.px_keys.specs.Reading.{BreaksAt};
ghost use Rattle.px_keys.specs.Spelling.{Fits, IsKeyOf, columns_of, spelled, values_of};
ghost use Rattle.px_rows.specs.Keys.{column_in, IsRightTable, key_admits_null, key_column, row_columns, row_key};

use crate::RowFault;
use px_keys::{KeyColumn, KeyFault, Part, decode_key, encode_key};
use px_tables::{KeyPlace, Table, TableColumn};
use px_values::{ColType, Key, Row, Value};
use std::alloc::{AllocError, Global};

/// The key of the row with these primary key values.
pub fn key_of(alloc: Global, table: &Table, row: &[Value]) -> Result<Key, RowFault>
    requires table { IsRightTable table.now }
    requires fits { Fits (row_columns table.now) row.now }
    ensures ok { IfOk result (λ key. (key ≡ row_key table.now row.now) × (length key ≤ most_key)) }
    ensures too_long { result ≡ Err RowFault.KeyTooLong → most_key < length (row_key table.now row.now) }
    ensures not_a_row { (place : ℕ) → result ≢ Err (RowFault.NotARow place) }
{
    let parts = parts_of(alloc, table, row)?;
    match encode_key(alloc, &parts) {
        Ok(key) => Ok(key),
        Err(KeyFault::TooLong) => Err(RowFault::KeyTooLong),
        Err(_) => Err(RowFault::Memory),
    }
}

/// The values of the primary key, each with its column.
fn parts_of<'a>(alloc: Global, table: &Table, row: &'a [Value]) -> Result<Vec<Part<'a>>, AllocError>
    requires table { IsRightTable table.now }
    requires count { length row.now ≡ length table.now.key }
    ensures columns { IfOk result (λ parts. columns_of parts.items ≡ row_columns table.now) }
    ensures values { IfOk result (λ parts. values_of parts.items ≡ row.now) }
{
    let columns = table.columns.as_slice();
    let key = table.key.as_slice();
    let mut parts = Vec::with_capacity(alloc, key.len())?;
    for index in 0..key.len() {
        parts.push(Part {
            column: column_of(columns, key[index]),
            value: &row[index],
        })?;
    }
    Ok(parts)
}

/// A column of the primary key as a part of keys.
pub fn column_of(columns: &[TableColumn], place: KeyPlace) -> KeyColumn
    requires { place.column < length columns.now }
    ensures { result ≡ key_column columns.now place }
{
    let column = &columns[place.column as usize];
    KeyColumn {
        ty: column.column_type,
        direction: place.direction,
        may_be_null: column.column_type == ColType::Varchar && !column.not_null,
    }
}

/// The primary key values of the row that has this key.
pub fn row_of_key(alloc: Global, table: &Table, key: &[u8]) -> Result<Row, RowFault>
    requires { IsRightTable table.now }
    ensures ok { IfOk result (λ row. Fits (row_columns table.now) row × (row_key table.now row ≡ key.now)) }
    ensures not_a_row { (place : ℕ) → result ≡ Err (RowFault.NotARow place) → BreaksAt (row_columns table.now) key.now place }
    ensures not_too_long { result ≢ Err RowFault.KeyTooLong }
{
    let columns = columns_of(alloc, table)?;
    match decode_key(alloc, key, &columns) {
        Ok(row) => Ok(row),
        Err(KeyFault::NotAKey { place }) => Err(RowFault::NotARow { place }),
        Err(_) => Err(RowFault::Memory),
    }
}

/// The columns of the primary key as parts of keys.
fn columns_of(alloc: Global, table: &Table) -> Result<Vec<KeyColumn>, AllocError>
    requires { IsRightTable table.now }
    ensures { IfOk result (λ columns. columns.items ≡ row_columns table.now) }
{
    let mut columns = Vec::with_capacity(alloc, table.key.as_slice().len())?;
    for place in table.key.as_slice() {
        columns.push(column_of(table.columns.as_slice(), *place))?;
    }
    Ok(columns)
}
