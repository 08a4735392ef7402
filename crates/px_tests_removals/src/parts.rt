// A table with one number as its key.
use px_removals::{next_part, removals};
use px_tables::{KeyPlace, Table, TableColumn};
use px_values::{ColType, Direction, Items, Name, Row, Rows, TableId, Value, What};
use std::alloc::{AllocError, Global};

fn numbers(alloc: Global) -> Result<Table, AllocError> {
    numbers_by(alloc, Direction::Ascending)
}

fn numbers_by(alloc: Global, direction: Direction) -> Result<Table, AllocError> {
    let mut columns = Vec::new(alloc);
    columns.push(TableColumn {
        name: Name::from_str(alloc, "N")?,
        column_type: ColType::BigInt,
        not_null: true,
    })?;
    let mut key = Vec::new(alloc);
    key.push(KeyPlace {
        column: 0,
        direction,
    })?;
    Ok(Table {
        id: TableId(3),
        name: Name::from_str(alloc, "NUMBERS")?,
        columns: Items::of(columns),
        key: Items::of(key),
        regions: Items::of(Vec::new(alloc)),
    })
}

fn row(alloc: Global, value: Value) -> Result<Row, AllocError> {
    let mut values = Vec::new(alloc);
    values.push(value)?;
    Ok(Items::of(values))
}

/// The numbers below one, each so many times.
fn rows(alloc: Global, below: u16, times: u8) -> Result<Rows, AllocError> {
    let mut rows = Vec::new(alloc);
    for number in 0..below {
        for _ in 0..times {
            rows.push(row(alloc, Value::Number(i128::from(number)))?)?;
        }
    }
    Ok(Items::of(rows))
}

/// How many parts there are of the removal of these rows, and how many changes in all.
fn counted(alloc: Global, rows: Rows) -> Result<(usize, usize), AllocError> {
    let table = numbers(alloc)?;
    let mut left = removals(alloc, &table, rows)?;
    let mut parts: usize = 0;
    let mut changes: usize = 0;
    for _ in 0..10 {
        let part = next_part(alloc, &mut left)?;
        if !part.as_slice().is_empty() {
            parts = parts.saturating_add(1);
        }
        changes = changes.saturating_add(part.as_slice().len());
    }
    Ok((parts, changes))
}

#[test]
fn a_part_has_a_thousand_rows(rt: HostRuntime) -> Result<(), AllocError> {
    let alloc = rt.alloc();
    for (below, times, parts) in [
        (0, 1, 0),
        (1, 1, 1),
        (1_000, 1, 1),
        (1_001, 1, 2),
        (2_500, 1, 3),
        (2_000, 2, 2),
    ] {
        let found = rows(alloc, below, times)?;
        assert!(rt; counted(alloc, found)? == (parts, below as usize));
    }
    Ok(())
}

#[test]
fn they_come_in_order_and_are_removed(rt: HostRuntime) -> Result<(), AllocError> {
    let alloc = rt.alloc();
    let table = numbers(alloc)?;
    let mut left = removals(alloc, &table, rows(alloc, 7, 3)?)?;
    let part = next_part(alloc, &mut left)?;
    let mut number: i128 = 0;
    for change in part.as_slice() {
        assert!(rt; matches!(change.what, What::Gone));
        assert!(rt; matches!(change.row.as_slice(), [Value::Number(n)] if *n == number));
        number = number.saturating_add(1);
    }
    assert!(rt; number == 7);
    Ok(())
}

#[test]
fn a_key_that_goes_down_turns_the_order(rt: HostRuntime) -> Result<(), AllocError> {
    let alloc = rt.alloc();
    let table = numbers_by(alloc, Direction::Descending)?;
    assert!(rt; removals(alloc, &table, rows(alloc, 2, 1)?).is_err());
    let mut found = Vec::new(alloc);
    for number in 0..1_001u16 {
        found.push(row(alloc, Value::Number(2_000 - i128::from(number)))?)?;
    }
    let mut left = removals(alloc, &table, Items::of(found))?;
    drop(next_part(alloc, &mut left)?);
    let last = next_part(alloc, &mut left)?;
    assert!(rt;
        matches!(last.as_slice(), [change] if matches!(change.row.as_slice(), [Value::Number(1_000)]))
    );
    Ok(())
}

#[test]
fn what_is_no_row_is_refused(rt: HostRuntime) -> Result<(), AllocError> {
    let alloc = rt.alloc();
    let table = numbers(alloc)?;
    let mut rows = Vec::new(alloc);
    rows.push(row(alloc, Value::Null)?)?;
    assert!(rt; removals(alloc, &table, Items::of(rows)).is_err());
    Ok(())
}
