// How many tables, indexes and numbers a catalogue has room for.
use px_schema::{Standing, fresh};
use px_tables::{Index, IndexState, Table};
use px_values::{IndexId, Items, Name, TableId};
use std::alloc::{AllocError, Global};
use std::test::Fail;

/// A table of this number without a column.
fn table(alloc: Global, number: u32) -> Result<Table, AllocError> {
    let name = Name::from_str(alloc, "T")?;
    Ok(Table {
        id: TableId(number),
        name,
        columns: Items::of(Vec::new(alloc)),
        key: Items::of(Vec::new(alloc)),
        regions: Items::of(Vec::new(alloc)),
    })
}

/// An index of table 2.
fn index(alloc: Global, number: u32) -> Result<Index, AllocError> {
    let name = Name::from_str(alloc, "I")?;
    Ok(Index {
        id: IndexId(number),
        table: TableId(2),
        name,
        state: IndexState::Active,
        birth: 1,
        region: number,
        parts: Items::of(Vec::new(alloc)),
        included: Items::of(Vec::new(alloc)),
    })
}

/// What stands with so many tables, and so many indexes of table 2.
fn standing(alloc: Global, next: u32, tables: u32, indexes: u32) -> Result<Standing, AllocError> {
    let mut listed = Vec::new(alloc);
    for number in 0..tables {
        listed.push(table(alloc, number)?)?;
    }
    let tables = Items::of(listed);
    match indexes_of(alloc, indexes) {
        Ok(indexes) => Ok(Standing {
            next,
            tables,
            indexes,
        }),
        Err(fault) => {
            drop(tables);
            Err(fault)
        }
    }
}

fn indexes_of(alloc: Global, count: u32) -> Result<Items<Index>, AllocError> {
    let mut listed = Vec::new(alloc);
    for number in 0..count {
        listed.push(index(alloc, number)?)?;
    }
    Ok(Items::of(listed))
}

#[test]
fn the_fresh_one_has_room(rt: HostRuntime) -> Result<(), Fail> {
    let standing = fresh(rt.alloc())?;
    let room = standing.has_room_for_table()
        && standing.has_room_for_index(TableId(2))
        && standing.has_numbers(4_294_967_292)
        && !standing.has_numbers(4_294_967_293);
    drop(standing);
    assert!(rt; room);
    Ok(())
}

/// The 256th table, the 8th index of a table and the number 4,294,967,294 have room, and the next ones haven't.
#[test]
fn one_more_passes_the_limit(rt: HostRuntime) -> Result<(), Fail> {
    let below = standing(rt.alloc(), 4_294_967_294, 255, 7)?;
    let room = below.has_room_for_table()
        && below.has_room_for_index(TableId(2))
        && below.has_numbers(1)
        && !below.has_numbers(2);
    drop(below);
    assert!(rt; room);
    let full = standing(rt.alloc(), 4_294_967_295, 256, 8)?;
    let none = !full.has_room_for_table()
        && !full.has_room_for_index(TableId(2))
        && full.has_room_for_index(TableId(3))
        && full.has_numbers(0)
        && !full.has_numbers(1);
    drop(full);
    assert!(rt; none);
    Ok(())
}
