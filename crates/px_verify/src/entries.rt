// What is kept of the keys that looks find.
ghost use Rattle.std.specs.Prelude.{◌≡◌, ◌++◌, ◌∷◌, [], Some, IfOk, OnOk, get_or, map};
ghost use Rattle.px_keys.specs.Spelling.{Fits};
ghost use Rattle.px_paths.specs.Paths.{columns_on, values_on};
ghost use Rattle.px_values.specs.declared.row.Value.TheVariants.{Null};
ghost use Rattle.px_verify.specs.Lists.{HaveKeys, entries_of, entry_on, values_in, version_found};

use crate::report::{IndexEntry, Version};
use px_calls::FoundKey;
use px_entries::key_on;
use px_paths::PathColumn;
use px_values::{Items, Row, Value};
use std::alloc::{AllocError, Global};

/// The value of a column, or NULL where the row has none.
fn value_in(alloc: Global, row: &[Value], column: u8) -> Result<Value, AllocError>
    ensures { IfOk result (λ v. v ≡ get_or row.now column Null) }
{
    match row.get(column as usize) {
        Some(value) => value.copied(alloc),
        None => Ok(Value::Null),
    }
}

/// The row's values in the included columns.
fn included_values(alloc: Global, included: &[u8], row: &[Value]) -> Result<Row, AllocError>
    ensures { IfOk result (λ values. values ≡ values_in included.now row.now) }
{
    let mut values = Vec::with_capacity(alloc, included.len())?;
    for column in included {
        values.push(value_in(alloc, row, *column)?)?;
    }
    Ok(Items::of(values))
}

/// The entry that a row asks for, if it has a key.
fn entry_of(
    alloc: Global,
    path: &[PathColumn],
    included: &[u8],
    row: &[Value],
) -> Result<Option<IndexEntry>, AllocError>
    ensures { IfOk result (λ entry. Fits (columns_on path.now) (values_on path.now row.now) → entry ≡ Some (entry_on path.now included.now row.now)) }
{
    match key_on(alloc, path, row)? {
        None => Ok(None),
        Some(key) => {
            let values = included_values(alloc, included, row)?;
            Ok(Some(IndexEntry { key, values }))
        }
    }
}

/// Keeps the entry that a row found on a table's path asks for. Nothing is in doubt there.
fn keep_row(
    alloc: Global,
    path: &[PathColumn],
    included: &[u8],
    key: FoundKey,
    rows: &mut Vec<IndexEntry>,
) -> Result<(), AllocError>
    ensures { OnOk result (HaveKeys path.now (key ∷ []) → rows.new.items ≡ rows.old.items ++ entries_of path.now included.now (key ∷ [])) }
{
    match key {
        FoundKey::InDoubt(_) => Ok(()),
        FoundKey::Sure(found) => match entry_of(alloc, path, included, found.row.as_slice())? {
            None => Ok(()),
            Some(entry) => {
                rows.push(entry)?;
                Ok(())
            }
        },
    }
}

/// Keeps the entries that the rows found on a table's path ask for.
pub(crate) fn keep_rows(
    alloc: Global,
    path: &[PathColumn],
    included: &[u8],
    keys: Items<FoundKey>,
    rows: &mut Vec<IndexEntry>,
) -> Result<(), AllocError>
    ensures { OnOk result (HaveKeys path.now keys → rows.new.items ≡ rows.old.items ++ entries_of path.now included.now keys) }
{
    for key in keys.into_vec() {
        keep_row(alloc, path, included, key, rows)?;
    }
    Ok(())
}

/// The version that was found at a key of an index's path.
fn version_of(alloc: Global, included: &[u8], key: FoundKey) -> Result<Version, AllocError>
    ensures { IfOk result (λ version. version ≡ version_found included.now key) }
{
    match key {
        FoundKey::InDoubt(doubt) => Ok(Version::Unverified(doubt.key)),
        FoundKey::Sure(found) => {
            let values = included_values(alloc, included, found.row.as_slice())?;
            Ok(Version::Verified(IndexEntry {
                key: found.key,
                values,
            }))
        }
    }
}

/// Keeps the versions found on an index's path.
pub(crate) fn keep_versions(
    alloc: Global,
    included: &[u8],
    keys: Items<FoundKey>,
    versions: &mut Vec<Version>,
) -> Result<(), AllocError>
    ensures { OnOk result (versions.new.items ≡ versions.old.items ++ map (version_found included.now) keys) }
{
    for key in keys.into_vec() {
        versions.push(version_of(alloc, included, key)?)?;
    }
    Ok(())
}
