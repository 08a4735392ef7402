// Copies of a table with an index, and what they were made from.
use px_tables::{Found, Index, IndexState, NewIndex, NewTable, Table, TableColumn, TableRegion};
use px_tests_layouts::{column, place};
use px_values::{ColType, Direction, IndexId, Items, Key, Name, TableId};
use std::alloc::{AllocError, Global};
use std::test::Fail;

fn region(alloc: Global, number: u32, least_key: &[u8]) -> Result<TableRegion, AllocError> {
    let bytes = Vec::from_slice(alloc, least_key)?;
    Ok(TableRegion {
        number,
        least_key: Key::of(bytes),
    })
}

fn regions(alloc: Global) -> Result<Items<TableRegion>, AllocError> {
    let mut regions = Vec::new(alloc);
    regions.push(region(alloc, 3, b"")?)?;
    regions.push(region(alloc, 4, b"m")?)?;
    Ok(Items::of(regions))
}

fn columns(alloc: Global) -> Result<Items<TableColumn>, AllocError> {
    let mut columns = Vec::new(alloc);
    columns.push(column(alloc, "A", ColType::Varchar, false)?)?;
    columns.push(column(
        alloc,
        "a name of more than sixteen bytes",
        ColType::Varchar,
        true,
    )?)?;
    Ok(Items::of(columns))
}

/// The columns of the table, and its regions.
fn lists(alloc: Global) -> Result<(Items<TableColumn>, Items<TableRegion>), AllocError> {
    let columns = columns(alloc)?;
    match regions(alloc) {
        Ok(regions) => Ok((columns, regions)),
        Err(fault) => {
            drop(columns);
            Err(fault)
        }
    }
}

fn table(alloc: Global) -> Result<Table, AllocError> {
    let key = place(alloc, 1, Direction::Descending)?;
    let name = Name::from_str(alloc, "T")?;
    match lists(alloc) {
        Ok((columns, regions)) => Ok(Table {
            id: TableId(5),
            name,
            columns,
            key,
            regions,
        }),
        Err(fault) => {
            drop(name);
            Err(fault)
        }
    }
}

fn index(alloc: Global) -> Result<Index, AllocError> {
    let parts = place(alloc, 1, Direction::Descending)?;
    let included = vec![in alloc; 0]?;
    let name = Name::from_str(alloc, "T_A")?;
    Ok(Index {
        id: IndexId(7),
        table: TableId(5),
        name,
        state: IndexState::Building,
        birth: 9,
        region: 6,
        parts,
        included: Items::of(included),
    })
}

fn indexes(alloc: Global) -> Result<Items<Index>, AllocError> {
    let index = index(alloc)?;
    Ok(Items::of(vec![in alloc; index]?))
}

fn found(alloc: Global) -> Result<Found, AllocError> {
    let table = table(alloc)?;
    match indexes(alloc) {
        Ok(indexes) => Ok(Found {
            table,
            indexes,
            at: 12,
        }),
        Err(fault) => {
            drop(table);
            Err(fault)
        }
    }
}

/// The copy of a table with its index; the first one is gone.
fn copy_of_found(alloc: Global) -> Result<Found, AllocError> {
    let first = found(alloc)?;
    let copy = first.copied(alloc);
    drop(first);
    copy
}

fn is_new_table(new: &NewTable) -> bool {
    let last = match new.columns.as_slice().last() {
        Some(column) => column.not_null && column.name.as_str().len() == 33,
        None => false,
    };
    let least = match new.least_keys.as_slice().last() {
        Some(key) => key.as_slice() == b"m".as_slice(),
        None => false,
    };
    last && least && new.name.as_str() == "T" && new.key.as_slice().len() == 1
}

fn is_new_index(new: &NewIndex) -> bool {
    new.name.as_str() == "T_A"
        && new.table == TableId(5)
        && new.included.as_slice() == [0].as_slice()
}

fn is_found(found: &Found) -> bool {
    found.at == 12 && found.table.id == TableId(5) && found.table.regions.as_slice().len() == 2
}

/// Whether what the table was made from, and a copy of it, are right.
fn is_table_copied(alloc: Global, table: &Table) -> Result<bool, AllocError> {
    let new = table.definition(alloc)?;
    let first = is_new_table(&new);
    let copy = new.copied(alloc);
    drop(new);
    let copy = copy?;
    let second = is_new_table(&copy);
    drop(copy);
    Ok(first && second)
}

/// The same of the index, which stands as it stood.
fn is_index_copied(alloc: Global, index: &Index) -> Result<bool, AllocError> {
    let stands = index.birth == 9 && index.state == IndexState::Building;
    let new = index.definition(alloc)?;
    let first = is_new_index(&new);
    let copy = new.copied(alloc);
    drop(new);
    let copy = copy?;
    let second = is_new_index(&copy);
    drop(copy);
    Ok(stands && first && second)
}

fn is_first_index_copied(alloc: Global, found: &Found) -> Result<bool, AllocError> {
    match found.indexes.as_slice() {
        [index] => is_index_copied(alloc, index),
        _ => Ok(false),
    }
}

#[test]
fn copies_are_the_same(rt: HostRuntime) -> Result<(), Fail> {
    let alloc = rt.alloc();
    let found = copy_of_found(alloc)?;
    let same = is_found(&found);
    let table = is_table_copied(alloc, &found.table);
    let index = is_first_index_copied(alloc, &found);
    drop(found);
    assert!(rt; same);
    assert!(rt; table?);
    assert!(rt; index?);
    Ok(())
}
