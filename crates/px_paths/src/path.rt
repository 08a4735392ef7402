// The paths of tables and indexes.
ghost use Rattle.std.specs.Prelude.{◌≡◌, ◌++◌, IfOk, OnOk, map, filter, nat_eq, not};
ghost use Rattle.std.specs.List.{list_any};
ghost use Rattle.px_paths.specs.Paths.{index_part as index_part_of, index_path as index_path_of, is_held as is_held_of, is_keyed as is_keyed_of, key_part as key_part_of, may_be_null_in, table_path as table_path_of, type_in};

use px_keys::KeyColumn;
use px_tables::{Index, KeyPlace, Table, TableColumn};
use px_values::{ColType, Items};
use std::alloc::{AllocError, Global};

/// A column of a path: its place in the table, and itself as a part of row keys.
#[derive(Clone, Copy)]
pub struct PathColumn {
    pub place: u8,
    pub column: KeyColumn,
}

/// A part of a table's row keys.
fn key_part(columns: &[TableColumn], part: KeyPlace) -> PathColumn
    ensures { result ≡ key_part_of columns.now part }
{
    let (ty, may_be_null) = match columns.get(part.column as usize) {
        Some(column) => (
            column.column_type,
            column.column_type == ColType::Varchar && !column.not_null,
        ),
        None => (ColType::Varchar, true),
    };
    PathColumn {
        place: part.column,
        column: KeyColumn {
            ty,
            direction: part.direction,
            may_be_null,
        },
    }
}

/// Whether one of the parts is of the column at this place.
fn is_keyed(key: &[KeyPlace], place: u8) -> bool
    ensures { result ≡ is_keyed_of key.now place }
{
    key.iter().any(|part| part.column == place)
}

/// A part of an index's row keys.
fn index_part(table: &Table, part: KeyPlace) -> PathColumn
    ensures { result ≡ index_part_of table.now part }
{
    let mut column = key_part(table.columns.as_slice(), part);
    if !is_keyed(table.key.as_slice(), part.column) {
        column.column.may_be_null = true;
    }
    column
}

/// The columns of a table's row keys.
pub fn table_path(alloc: Global, table: &Table) -> Result<Items<PathColumn>, AllocError>
    ensures { IfOk result (λ path. path ≡ table_path_of table.now) }
{
    let key = table.key.as_slice();
    let mut path = Vec::with_capacity(alloc, key.len())?;
    for part in key {
        path.push(key_part(table.columns.as_slice(), *part))?;
    }
    Ok(Items::of(path))
}

fn add_parts(
    path: &mut Vec<PathColumn>,
    table: &Table,
    parts: &[KeyPlace],
) -> Result<(), AllocError>
    ensures { OnOk result (path.new.items ≡ path.old.items ++ map (index_part_of table.now) parts.now) }
{
    for part in parts {
        path.push(index_part(table, *part))?;
    }
    Ok(())
}

fn add_key(path: &mut Vec<PathColumn>, table: &Table, parts: &[KeyPlace]) -> Result<(), AllocError>
    ensures { OnOk result (path.new.items ≡ path.old.items ++ map (key_part_of table.now.columns) (filter (λ p. not (is_keyed_of parts.now p.column)) table.now.key)) }
{
    let key = table.key.as_slice();
    for part in key {
        if !is_keyed(parts, part.column) {
            path.push(key_part(table.columns.as_slice(), *part))?;
        }
    }
    Ok(())
}

/// The columns of an index's row keys: the indexed ones, then those of the primary key that aren't among them.
pub fn index_path(
    alloc: Global,
    table: &Table,
    index: &Index,
) -> Result<Items<PathColumn>, AllocError>
    ensures { IfOk result (λ path. path ≡ index_path_of table.now index.now) }
{
    let parts = index.parts.as_slice();
    let mut path = Vec::new(alloc);
    add_parts(&mut path, table, parts)?;
    add_key(&mut path, table, parts)?;
    Ok(Items::of(path))
}

fn is_included(index: &Index, place: u8) -> bool
    ensures { result ≡ list_any (λ c. nat_eq c place) index.now.included }
{
    index
        .included
        .as_slice()
        .iter()
        .any(|column| *column == place)
}

/// Whether the index holds the column at this place: it is indexed, included or of the primary key.
pub fn is_held(table: &Table, index: &Index, place: u8) -> bool
    ensures { result ≡ is_held_of table.now index.now place }
{
    is_keyed(index.parts.as_slice(), place)
        || is_keyed(table.key.as_slice(), place)
        || is_included(index, place)
}
