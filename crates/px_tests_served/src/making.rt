// Batches of rows.
use px_tests_making::Batch;
use px_values::{Assignment, Change, Changes, Items, Row, Text, Value, What};
use std::alloc::{AllocError, Global};

/// How many rows a full batch has.
pub const ROWS: u64 = 1_000;

/// A row key of one value.
fn key_of(alloc: Global, value: Value) -> Result<Row, AllocError> {
    let mut values = Vec::with_capacity(alloc, 1)?;
    values.push(value)?;
    Ok(Items::of(values))
}

/// A batch that removes the row of this number.
pub fn removal(alloc: Global, number: i128) -> Option<Batch> {
    let row = key_of(alloc, Value::Number(number)).ok()?;
    let mut changes = Vec::new(alloc);
    changes
        .push(Change {
            row,
            what: What::Gone,
        })
        .ok()?;
    Batch::of(Items::of(changes))
}

/// A batch that writes one row of ORDERS.
pub fn order(alloc: Global, number: i128, customer: &str, amount: i128) -> Option<Batch> {
    let row = key_of(alloc, Value::Number(number)).ok()?;
    let mut assignments = Vec::new(alloc);
    let customer = Value::Text(Text::from_str(alloc, customer).ok()?);
    assignments
        .push(Assignment {
            column: 1,
            value: customer,
        })
        .ok()?;
    assignments
        .push(Assignment {
            column: 2,
            value: Value::Number(amount),
        })
        .ok()?;
    let what = What::Set(Items::of(assignments));
    let mut changes = Vec::new(alloc);
    changes.push(Change { row, what }).ok()?;
    Batch::of(Items::of(changes))
}

/// 'k' and the number's five digits.
fn name_of(alloc: Global, number: u64) -> Result<Text, AllocError> {
    let mut name = String::from_str(alloc, "k")?;
    let mut unit: u64 = 10_000;
    for _digit in 0..5 {
        let digit = (number / unit.max(1) % 10) as u8;
        name.push(char::from(b'0'.wrapping_add(digit)))?;
        unit /= 10;
    }
    Ok(Text::of(name))
}

/// A row of a name and a letter.
fn change(alloc: Global, number: u64) -> Result<Change, AllocError> {
    let row = key_of(alloc, Value::Text(name_of(alloc, number)?))?;
    let mut assignments = Vec::with_capacity(alloc, 1)?;
    assignments.push(Assignment {
        column: 1,
        value: Value::Text(Text::from_str(alloc, "v")?),
    })?;
    Ok(Change {
        row,
        what: What::Set(Items::of(assignments)),
    })
}

/// The rows of a number and of those behind it.
fn changes(alloc: Global, first: u64) -> Result<Changes, AllocError> {
    let mut changes = Vec::with_capacity(alloc, ROWS as usize)?;
    for place in 0..ROWS {
        changes.push(change(alloc, first.wrapping_add(place))?)?;
    }
    Ok(Items::of(changes))
}

/// A batch of 1,000 rows of KV that are in no batch of another place.
pub fn full_batch(alloc: Global, place: u64) -> Option<Batch> {
    Batch::of(changes(alloc, place.wrapping_mul(ROWS)).ok()?)
}
