// CREATE INDEX, DROP INDEX and ALTER INDEX.
ghost use Rattle.std.specs.Prelude.{◌≡◌, ◌≤◌, ◌++◌, [], IfOk, OnOk, length, map};
ghost use Rattle.px_resolve.specs.Answers.{AnswersFirst};
ghost use Rattle.px_create.specs.Indexes.{index_faults, index_id_named, missing_index, new_index};
ghost use Rattle.px_resolve.specs.Names.{key_place, names_of, once, part_names, place_of_name};

use crate::limits::check_name_limit;
use px_ast::CreateIndex;
use px_resolve::fault::BindFault;
use px_resolve::names::{bind_once, copied};
use px_resolve::places::{column_places, key_places};
use px_tables::{Index, KeyPlace, NewIndex, Table, TableColumn};
use px_values::{IndexId, Items, Name};
use std::alloc::{AllocError, Global};

/// The places of the indexed columns and those of the primary key, which INCLUDE may not name.
fn held(
    alloc: Global,
    columns: &[TableColumn],
    key: &[KeyPlace],
    statement: &CreateIndex,
) -> Result<Vec<usize>, BindFault>
    ensures faults { AnswersFirst (once (names_of columns.now) [] (part_names statement.now.parts)) result }
    ensures places { IfOk result (λ places. places.items ≡ map (place_of_name (names_of columns.now)) (part_names statement.now.parts) ++ map (λ p. p.column) key.now) }
{
    let mut places = bind_once(alloc, columns, &[], statement.parts.as_slice())?;
    match add_key(&mut places, key) {
        Ok(()) => Ok(places),
        Err(_) => {
            drop(places);
            Err(BindFault::Memory)
        }
    }
}

fn add_key(places: &mut Vec<usize>, key: &[KeyPlace]) -> Result<(), AllocError>
    ensures { OnOk result (places.new.items ≡ places.old.items ++ map (λ p. p.column) key.now) }
{
    for part in key {
        places.push(part.column as usize)?;
    }
    Ok(())
}

/// Refuses names that are wrong in a CREATE INDEX.
fn check_index(alloc: Global, table: &Table, statement: &CreateIndex) -> Result<(), BindFault>
    ensures { AnswersFirst (index_faults table.now statement.now) result }
{
    let columns = table.columns.as_slice();
    let before = held(alloc, columns, table.key.as_slice(), statement)?;
    drop(bind_once(
        alloc,
        columns,
        before.as_slice(),
        statement.include.as_slice(),
    )?);
    check_name_limit(&statement.name)
}

/// The index that a CREATE INDEX asks for.
pub fn bind_index(
    alloc: Global,
    table: &Table,
    statement: &CreateIndex,
) -> Result<NewIndex, BindFault>
    requires { length table.now.columns ≤ 255 }
    ensures faults { AnswersFirst (index_faults table.now statement.now) result }
    ensures index { IfOk result (λ i. i ≡ new_index table.now statement.now) }
{
    check_index(alloc, table, statement)?;
    match make_index(alloc, table, statement) {
        Ok(index) => Ok(index),
        Err(_) => Err(BindFault::Memory),
    }
}

fn make_index(alloc: Global, table: &Table, statement: &CreateIndex) -> Result<NewIndex, AllocError>
    requires { length table.now.columns ≤ 255 }
    ensures { IfOk result (λ i. i ≡ new_index table.now statement.now) }
{
    let name = Name::from_str(alloc, statement.name.as_str())?;
    match make_parts(alloc, table.columns.as_slice(), statement) {
        Ok((parts, included)) => Ok(NewIndex {
            table: table.id,
            name,
            parts,
            included,
        }),
        Err(fault) => {
            drop(name);
            Err(fault)
        }
    }
}

fn make_parts(
    alloc: Global,
    columns: &[TableColumn],
    statement: &CreateIndex,
) -> Result<(Items<KeyPlace>, Items<u8>), AllocError>
    requires { length columns.now ≤ 255 }
    ensures { IfOk result (λ made. (made.0 ≡ map (key_place (names_of columns.now)) statement.now.parts) × (made.1 ≡ map (place_of_name (names_of columns.now)) statement.now.include)) }
{
    let parts = key_places(alloc, columns, statement.parts.as_slice())?;
    match column_places(alloc, columns, statement.include.as_slice()) {
        Ok(included) => Ok((parts, included)),
        Err(fault) => {
            drop(parts);
            Err(fault)
        }
    }
}

/// The number of the index of this name.
fn find_index(indexes: &[Index], name: &Name) -> Option<IndexId>
    ensures { result ≡ index_id_named indexes.now name.now }
{
    for index in indexes {
        if index.name.as_str() == name.as_str() {
            return Some(index.id);
        }
    }
    None
}

/// The number of the index of this name, where a table has it or IF EXISTS is written.
pub fn bind_index_name(
    alloc: Global,
    indexes: &[Index],
    if_exists: bool,
    name: &Name,
) -> Result<Option<IndexId>, BindFault>
    ensures faults { AnswersFirst (missing_index indexes.now if_exists name.now) result }
    ensures index { IfOk result (λ found. found ≡ index_id_named indexes.now name.now) }
{
    let found = find_index(indexes, name);
    if found.is_none() && !if_exists {
        return Err(BindFault::NoIndex(copied(alloc, name)?));
    }
    Ok(found)
}
