// The base versions of the rows that a look finds.
ghost use Rattle.std.specs.Prelude.{◌≡◌, ◌⊎◌, ◌≤◌, ◌∷◌, [], IfOk, OnOk, true, length, ℕ};
ghost use Rattle.px_calls.specs.Causes.{IsLong};
ghost use Rattle.px_keys.specs.Spelling.{Fits};
ghost use Rattle.px_paths.specs.Paths.{AreOfTypes, columns_on, key_on as key_on_path, values_on};
ghost use Rattle.px_upkeep.specs.Rows.{AreBasesOf, ArePieces, HasLong, HasLongChunk, IsBaseOf, IsMadeOf, KeepsRow};
ghost use Rattle.px_upkeep.specs.declared.rows.RowsFault.TheVariants.{Memory};
ghost use Rattle.px_values.specs.Limits.{most_key};
ghost use Rattle.px_values.specs.Types.{HasType};
ghost use Rattle.px_values.specs.declared.row.Value.TheVariants.{Null};

use px_calls::{BaseRow, BaseRows, FoundKey, FoundRow};
use px_entries::key_on;
use px_keys::{KeyColumn, Part};
use px_paths::PathColumn;
use px_tables::TableColumn;
use px_values::{ColType, Direction, Items, Key, MOST_KEY, Value};
use rayon::prelude::*;
use std::alloc::{AllocError, Global};
use std::thread::Threads;

/// Why rows that were found have no base versions. A row that isn't one of its table, or not the one of its key, is told as want of memory: a sound
/// folder has none.
#[derive(Clone, Copy)]
pub enum RowsFault {
    /// A row's key in the index is longer than a key may be.
    TooLong,
    Memory,
}

impl From<AllocError> for RowsFault {
    ghost from_gives = { λ _ fault. fault ≡ Memory };

    fn from(_fault: AllocError) -> RowsFault {
        RowsFault::Memory
    }
}

/// The row's key on a path, where it is no longer than a key may be. A row whose values don't fit the path's columns has none.
fn short_key_on(alloc: Global, path: &[PathColumn], row: &[Value]) -> Result<Key, RowsFault>
    ensures fits { IfOk result (λ key. Fits (columns_on path.now) (values_on path.now row.now)) }
    ensures key { IfOk result (λ key. key_on_path path.now row.now ≡ key) }
    ensures short { IfOk result (λ key. length key ≤ most_key) }
    ensures too_long { result ≡ Err RowsFault.TooLong → IsLong (key_on_path path.now row.now) }
{
    match key_on(alloc, path, row)? {
        None => Err(RowsFault::Memory),
        Some(key) => {
            if key.as_slice().len() > MOST_KEY {
                return Err(RowsFault::TooLong);
            }
            Ok(key)
        }
    }
}

/// Whether a column of the type may have the value, or NULL.
fn is_of_type(ty: ColType, value: &Value) -> bool
    ensures { result ≡ true → (value.now ≡ Null) ⊎ HasType ty value.now }
{
    let column = KeyColumn {
        ty,
        direction: Direction::Ascending,
        may_be_null: true,
    };
    Part { column, value }.can_stand()
}

/// Whether these are values of the columns' types, or NULL.
fn are_of_types(columns: &[TableColumn], row: &[Value]) -> bool
    ensures { result ≡ true → AreOfTypes columns.now row.now }
{
    match columns {
        [] => row.is_empty(),
        [column, columns @ ..] => match row {
            [] => false,
            [value, values @ ..] => {
                is_of_type(column.column_type, value) && are_of_types(columns, values)
            }
        },
    }
}

/// Whether the row is one of the table, and has the key there that it was found by.
fn is_row(
    alloc: Global,
    table: &[TableColumn],
    keys: &[PathColumn],
    found: &FoundRow,
) -> Result<bool, AllocError>
    ensures types { IfOk result (λ is. is ≡ true → AreOfTypes table.now found.now.row) }
    ensures fits { IfOk result (λ is. is ≡ true → Fits (columns_on keys.now) (values_on keys.now found.now.row)) }
    ensures key { IfOk result (λ is. is ≡ true → key_on_path keys.now found.now.row ≡ found.now.key) }
{
    let row = found.row.as_slice();
    if !are_of_types(table, row) {
        return Ok(false);
    }
    match short_key_on(alloc, keys, row) {
        Ok(own) => Ok(own.as_slice() == found.key.as_slice()),
        Err(RowsFault::TooLong) => Ok(false),
        Err(RowsFault::Memory) => Err(AllocError),
    }
}

/// The key in the index of a row that was found.
fn base_key(
    alloc: Global,
    table: &[TableColumn],
    keys: &[PathColumn],
    columns: &[PathColumn],
    found: &FoundRow,
) -> Result<Key, RowsFault>
    ensures ok { IfOk result (λ key. IsBaseOf table.now keys.now columns.now found.now (record { key = key; row = found.now.row })) }
    ensures too_long { result ≡ Err RowsFault.TooLong → IsLong (key_on_path columns.now found.now.row) }
{
    if !is_row(alloc, table, keys, found)? {
        return Err(RowsFault::Memory);
    }
    short_key_on(alloc, columns, found.row.as_slice())
}

/// The base version of a row that was found.
fn base_row(
    alloc: Global,
    table: &[TableColumn],
    keys: &[PathColumn],
    columns: &[PathColumn],
    found: FoundRow,
) -> Result<BaseRow, RowsFault>
    ensures ok { IfOk result (λ base. IsBaseOf table.now keys.now columns.now found base) }
    ensures too_long { result ≡ Err RowsFault.TooLong → IsLong (key_on_path columns.now found.row) }
{
    match base_key(alloc, table, keys, columns, &found) {
        Ok(key) => {
            let FoundRow { key: own, row } = found;
            drop(own);
            Ok(BaseRow { key, row })
        }
        Err(fault) => {
            drop(found);
            Err(fault)
        }
    }
}

/// Keeps the base version of a row that was found. Nothing is in doubt on a table's own path.
fn keep_row(
    alloc: Global,
    table: &[TableColumn],
    keys: &[PathColumn],
    columns: &[PathColumn],
    key: FoundKey,
    rows: &mut Vec<BaseRow>,
) -> Result<(), RowsFault>
    ensures ok { OnOk result (KeepsRow table.now keys.now columns.now key rows.old.items rows.new.items) }
    ensures too_long { result ≡ Err RowsFault.TooLong → HasLong columns.now (key ∷ []) }
{
    match key {
        FoundKey::InDoubt(doubt) => {
            drop(doubt);
            Err(RowsFault::Memory)
        }
        FoundKey::Sure(found) => {
            let row = base_row(alloc, table, keys, columns, found)?;
            match rows.push(row) {
                Ok(()) => Ok(()),
                Err(_) => Err(RowsFault::Memory),
            }
        }
    }
}

/// The base versions of rows that were found.
pub(crate) fn base_rows(
    alloc: Global,
    table: &[TableColumn],
    keys: &[PathColumn],
    columns: &[PathColumn],
    found: Items<FoundKey>,
) -> Result<BaseRows, RowsFault>
    ensures ok { IfOk result (λ rows. AreBasesOf table.now keys.now columns.now found rows) }
    ensures too_long { result ≡ Err RowsFault.TooLong → HasLong columns.now found }
{
    let mut rows = Vec::new(alloc);
    for key in found.into_vec() {
        keep_row(alloc, table, keys, columns, key, &mut rows)?;
    }
    Ok(Items::of(rows))
}

/// The base versions, in an index with these columns, of the rows that looks on their table's own path found (`keys` are its columns): chunk by chunk,
/// from as many threads as there are processors. `TooLong` comes where a row's key in the index is too long, and then nothing is kept.
pub fn base_pieces<R: Threads + Sync>(
    rt: &R,
    alloc: Global,
    table: &[TableColumn],
    keys: &[PathColumn],
    columns: &[PathColumn],
    chunks: Items<Items<FoundKey>>,
) -> Result<Items<BaseRows>, RowsFault>
    ensures ok { IfOk result (λ pieces. ArePieces table.now keys.now columns.now chunks pieces) }
    ensures too_long { result ≡ Err RowsFault.TooLong → HasLongChunk columns.now chunks }
{
    let made: Result<Result<Vec<BaseRows>, RowsFault>, AllocError> = chunks
        .into_vec()
        .into_par_iter()
        .with_min_len(1)
        .map(
            |found: Items<FoundKey>| -> Result<BaseRows, RowsFault>
                ensures { IsMadeOf table.entry.now keys.entry.now columns.entry.now found result }
            { base_rows(alloc, table, keys, columns, found) },
        )
        .collect(rt, alloc);
    match made {
        Ok(Ok(pieces)) => Ok(Items::of(pieces)),
        Ok(Err(fault)) => Err(fault),
        Err(_) => Err(RowsFault::Memory),
    }
}
