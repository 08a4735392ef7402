// The primary key of a new table.
ghost use Rattle.std.specs.Prelude.{◌≡◌, ◌≤◌, ◌++◌, IfOk, OnOk, is_some, length, map, slice_get};
ghost use Rattle.std.specs.List.{flat_map};
ghost use Rattle.std.specs.Option.{option_map};
ghost use Rattle.px_resolve.specs.Names.{key_place};
ghost use Rattle.px_create.specs.Tables.{constraint_key, first_key_column, inline_key_places, key_of, new_names};

use px_ast::{Column, CreateTable, KeyConstraint, KeyPart};
use px_keys::KeyColumn;
use px_resolve::names::{find_place, may_be_null};
use px_tables::KeyPlace;
use px_values::{Direction, Items};
use std::alloc::{AllocError, Global};

/// The first column of a primary key: its place, and itself as a part of keys.
#[derive(Clone, Copy)]
pub(crate) struct FirstKey {
    pub(crate) place: usize,
    pub(crate) column: KeyColumn,
}

/// The place of the first column with a primary key, and its direction.
fn first_inline(columns: &[Column]) -> Option<(usize, Direction)>
    ensures { option_map (λ p. record { column = p.0; direction = p.1 }) result ≡ slice_get (flat_map (inline_key_places (new_names columns.now)) columns.now) 0 }
{
    for column in columns {
        if let Some(direction) = column.key {
            return Some((find_place(columns, &column.name), direction));
        }
    }
    None
}

/// The place of the first column of a constraint, and its direction.
fn first_constrained(
    columns: &[Column],
    constraint: &Option<KeyConstraint>,
) -> Option<(usize, Direction)>
    ensures { option_map (λ p. record { column = p.0; direction = p.1 }) result ≡ slice_get (constraint_key (new_names columns.now) constraint.now) 0 }
{
    match constraint {
        Some(constraint) => match constraint.parts.as_slice().first() {
            Some(part) => Some((find_place(columns, &part.column), part.direction)),
            None => None,
        },
        None => None,
    }
}

/// The place of the first key column, and its direction.
fn first_part(statement: &CreateTable) -> Option<(usize, Direction)>
    ensures { option_map (λ p. record { column = p.0; direction = p.1 }) result ≡ slice_get (key_of statement.now) 0 }
{
    let columns = statement.columns.as_slice();
    match first_inline(columns) {
        Some(part) => Some(part),
        None => first_constrained(columns, &statement.constraint),
    }
}

/// Whether a new table has a primary key.
pub(crate) fn has_key(statement: &CreateTable) -> bool
    ensures { result ≡ is_some (slice_get (key_of statement.now) 0) }
{
    first_part(statement).is_some()
}

/// The first key column of a new table.
pub(crate) fn first_key(statement: &CreateTable) -> Option<FirstKey>
    ensures { result ≡ first_key_column statement.now }
{
    let Some((place, direction)) = first_part(statement) else {
        return None;
    };
    match statement.columns.as_slice().get(place) {
        Some(column) => Some(FirstKey {
            place,
            column: KeyColumn {
                ty: column.column_type,
                direction,
                may_be_null: may_be_null(column.column_type, column.not_null),
            },
        }),
        None => None,
    }
}

fn add_inline(key: &mut Vec<KeyPlace>, columns: &[Column]) -> Result<(), AllocError>
    requires { length columns.now ≤ 255 }
    ensures { OnOk result (key.new.items ≡ key.old.items ++ flat_map (inline_key_places (new_names columns.now)) columns.now) }
{
    for column in columns {
        if let Some(direction) = column.key {
            key.push(KeyPlace {
                column: find_place(columns, &column.name) as u8,
                direction,
            })?;
        }
    }
    Ok(())
}

fn add_parts(
    key: &mut Vec<KeyPlace>,
    columns: &[Column],
    parts: &[KeyPart],
) -> Result<(), AllocError>
    requires { length columns.now ≤ 255 }
    ensures { OnOk result (key.new.items ≡ key.old.items ++ map (key_place (new_names columns.now)) parts.now) }
{
    for part in parts {
        key.push(KeyPlace {
            column: find_place(columns, &part.column) as u8,
            direction: part.direction,
        })?;
    }
    Ok(())
}

fn add_key(key: &mut Vec<KeyPlace>, statement: &CreateTable) -> Result<(), AllocError>
    requires { length statement.now.columns ≤ 255 }
    ensures { OnOk result (key.new.items ≡ key.old.items ++ key_of statement.now) }
{
    let columns = statement.columns.as_slice();
    add_inline(key, columns)?;
    match &statement.constraint {
        Some(constraint) => add_parts(key, columns, constraint.parts.as_slice()),
        None => Ok(()),
    }
}

/// The primary key of a new table.
pub(crate) fn make_key(
    alloc: Global,
    statement: &CreateTable,
) -> Result<Items<KeyPlace>, AllocError>
    requires { length statement.now.columns ≤ 255 }
    ensures { IfOk result (λ key. key ≡ key_of statement.now) }
{
    let mut key = Vec::new(alloc);
    match add_key(&mut key, statement) {
        Ok(()) => Ok(Items::of(key)),
        Err(fault) => {
            drop(key);
            Err(fault)
        }
    }
}
