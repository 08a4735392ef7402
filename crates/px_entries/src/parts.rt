// A row's key on a path, by its parts.
ghost use Rattle.std.specs.Prelude.{◌≡◌, ◌↔◌, ◌⊎◌, Some, IfOk, IfSome, IsTrue};
ghost use Rattle.std.specs.List.{All};
ghost use Rattle.px_keys.specs.Spelling.{Fits, IsNullFixed, PartFits, columns_of, values_of};
ghost use Rattle.px_paths.specs.Paths.{columns_on, key_on as key_on_path, values_on};
ghost use Rattle.px_values.specs.declared.row.Value.TheVariants.{Null};

use px_keys::{KeyFault, Part, encode_key, spell_front};
use px_paths::PathColumn;
use px_values::{Key, Value};
use std::alloc::{AllocError, Global};

/// The row's values on a path, each with its column. `null` stands where the row has none.
fn parts_of<'a>(
    alloc: Global,
    path: &[PathColumn],
    row: &'a [Value],
    null: &'a Value,
) -> Result<Vec<Part<'a>>, AllocError>
    requires { null.now ≡ Null }
    ensures columns { IfOk result (λ parts. columns_of parts.items ≡ columns_on path.now) }
    ensures values { IfOk result (λ parts. values_of parts.items ≡ values_on path.now row.now) }
{
    let mut parts = Vec::with_capacity(alloc, path.len())?;
    for column in path {
        parts.push(Part {
            column: column.column,
            value: row.get(column.place as usize).unwrap_or(null),
        })?;
    }
    Ok(parts)
}

/// Whether a key can have these parts: each value fits its column, or is a NULL of fixed width.
fn can_stand(parts: &[Part<'_>]) -> bool
    ensures { IsTrue result ↔ All (λ part. PartFits part ⊎ IsNullFixed part) parts.now }
{
    parts.iter().all(|part| part.can_stand())
}

/// The row's key on a path, however long it is. A row whose values don't fit the path's columns has none.
pub fn key_on(alloc: Global, path: &[PathColumn], row: &[Value]) -> Result<Option<Key>, AllocError>
    ensures key { IfOk result (λ key. Fits (columns_on path.now) (values_on path.now row.now) → key ≡ Some (key_on_path path.now row.now)) }
    ensures fits { IfOk result (λ key. IfSome key (λ _. Fits (columns_on path.now) (values_on path.now row.now))) }
{
    let null = Value::Null;
    let parts = parts_of(alloc, path, row, &null)?;
    if !can_stand(&parts) {
        return Ok(None);
    }
    match encode_key(alloc, &parts) {
        Ok(key) => Ok(Some(key)),
        Err(KeyFault::TooLong) => Ok(Some(Key::of(spell_front(alloc, &parts)?))),
        Err(KeyFault::NullFixed) => Ok(None),
        Err(_) => Err(AllocError),
    }
}
