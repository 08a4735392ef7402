// The keys of index rows.
ghost use Rattle.std.specs.Prelude.{◌≡◌, ◌≢◌, ◌<◌, ◌≤◌, ℕ, Some, IfOk, IsOk, length, map};
ghost use Rattle.std.specs.List.{All};
ghost use Rattle.px_values.specs.Limits.{most_key};
ghost use Rattle.px_keys.specs.Spelling.{Fits, columns_of, spelled, values_of};
ghost use Rattle.px_rows.specs.Keys.{IsRightTable, is_part as part_test, row_columns};
ghost use Rattle.px_indexrow.specs.Form.{FitsRowState, IsLongInIndex, IsRightIndex, index_column, index_columns, index_places, index_values, key_of_state, value_of_column};

use px_keys::{KeyColumn, KeyFault, Part, encode_key};
use px_rows::RowFault;
use px_tables::{Index, KeyPlace, Table};
use px_values::{ColType, Key, Row, Value};
use std::alloc::{AllocError, Global};

/// The index key of the row with these primary key values and this state.
pub fn index_key(
    alloc: Global,
    table: &Table,
    index: &Index,
    row: &[Value],
    state: &[Value],
) -> Result<Key, RowFault>
    requires table { IsRightTable table.now }
    requires index { IsRightIndex table.now index.now }
    requires fits { Fits (row_columns table.now) row.now }
    requires state { FitsRowState table.now (Some state.now) }
    ensures ok { IfOk result (λ key. (Some key ≡ key_of_state table.now index.now row.now (Some state.now)) × (length key ≤ most_key)) }
    ensures too_long { result ≡ Err RowFault.KeyTooLong → most_key < length (spelled (index_columns table.now index.now) (index_values table.now index.now row.now state.now)) }
    ensures not_a_row { (place : ℕ) → result ≢ Err (RowFault.NotARow place) }
{
    let places = places_of(alloc, table, index)?;
    let parts = parts_of(alloc, table, &places, row, state)?;
    match encode_key(alloc, &parts) {
        Ok(key) => Ok(key),
        Err(KeyFault::TooLong) => Err(RowFault::KeyTooLong),
        Err(_) => Err(RowFault::Memory),
    }
}

/// The index key of a state; that of no row has none.
pub(crate) fn state_key(
    alloc: Global,
    table: &Table,
    index: &Index,
    row: &[Value],
    state: &Option<Row>,
) -> Result<Option<Key>, RowFault>
    requires table { IsRightTable table.now }
    requires index { IsRightIndex table.now index.now }
    requires fits { Fits (row_columns table.now) row.now }
    requires state { FitsRowState table.now state.now }
    ensures ok { IfOk result (λ key. key ≡ key_of_state table.now index.now row.now state.now) }
    ensures short { IsOk result → IsLongInIndex table.now index.now row.now state.now → ⊥ }
    ensures too_long { result ≡ Err RowFault.KeyTooLong → IsLongInIndex table.now index.now row.now state.now }
    ensures not_a_row { (place : ℕ) → result ≢ Err (RowFault.NotARow place) }
{
    match state {
        Some(values) => {
            let key = index_key(alloc, table, index, row, values.as_slice())?;
            Ok(Some(key))
        }
        None => Ok(None),
    }
}

/// The indexed columns, and then those of the primary key that aren't among them.
fn places_of(alloc: Global, table: &Table, index: &Index) -> Result<Vec<KeyPlace>, AllocError>
    ensures { IfOk result (λ places. places.items ≡ index_places table.now index.now) }
{
    let indexed = index.parts.as_slice();
    let mut places = Vec::from_slice(alloc, indexed)?;
    for place in table.key.as_slice() {
        if !is_part(indexed, place.column) {
            places.push(*place)?;
        }
    }
    Ok(places)
}

/// The values of these columns, each with its column.
fn parts_of<'a>(
    alloc: Global,
    table: &Table,
    places: &[KeyPlace],
    row: &'a [Value],
    state: &'a [Value],
) -> Result<Vec<Part<'a>>, AllocError>
    requires within { All (λ p. p.column < length table.now.columns) places.now }
    requires count { length row.now ≡ length table.now.key }
    requires state { length state.now ≡ length table.now.columns }
    ensures columns { IfOk result (λ parts. columns_of parts.items ≡ map (index_column table.now) places.now) }
    ensures values { IfOk result (λ parts. values_of parts.items ≡ map (λ p. value_of_column table.now.key row.now state.now p.column) places.now) }
{
    let mut parts = Vec::with_capacity(alloc, places.len())?;
    for index in 0..places.len() {
        let place = places[index];
        parts.push(Part {
            column: column_of(table, place),
            value: value_in(table.key.as_slice(), row, state, place.column),
        })?;
    }
    Ok(parts)
}

/// A column of an index key as a part of keys: one that isn't in the primary key may be NULL.
fn column_of(table: &Table, place: KeyPlace) -> KeyColumn
    requires { place.column < length table.now.columns }
    ensures { result ≡ index_column table.now place }
{
    let column = &table.columns.as_slice()[place.column as usize];
    let admits_null = column.column_type == ColType::Varchar && !column.not_null;
    KeyColumn {
        ty: column.column_type,
        direction: place.direction,
        may_be_null: admits_null || !is_part(table.key.as_slice(), place.column),
    }
}

/// The value of a column: of one in the primary key its value there, of another that of the row.
fn value_in<'a>(key: &[KeyPlace], row: &'a [Value], state: &'a [Value], column: u8) -> &'a Value
    requires count { length row.now ≡ length key.now }
    requires within { column < length state.now }
    ensures { result.now ≡ value_of_column key.now row.now state.now column }
{
    for index in 0..key.len() {
        if key[index].column == column {
            return &row[index];
        }
    }
    &state[column as usize]
}

/// Whether a column is one of these.
fn is_part(places: &[KeyPlace], column: u8) -> bool
    ensures { result ≡ part_test places.now column }
{
    places.iter().any(|place| place.column == column)
}
