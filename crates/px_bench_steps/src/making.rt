// Batches that are made before they are timed.
use px_tests_making::Batch;
use px_values::{Assignment, Change, Changes, Items, Row, Text, Value, What};
use std::alloc::{AllocError, Global};

/// How many batches there are of each kind, and of how many rows. More of them would pass the 16,384 cells of the region of the index.
pub const BATCHES: u64 = 20;

pub const ROWS: u64 = 100;

/// Whether rows are new, or their customers change.
#[derive(Clone, Copy)]
pub enum Kind {
    New,
    Changed,
}

fn row(alloc: Global, id: u64) -> Result<Row, AllocError> {
    let mut values = Vec::with_capacity(alloc, 1)?;
    values.push(Value::Number(i128::from(id)))?;
    Ok(Items::of(values))
}

/// A customer's name, of eleven letters.
fn customer(alloc: Global, number: u64) -> Result<Text, AllocError> {
    let mut digits = itoa::Buffer::new();
    let mut text = String::from_str(alloc, "name ")?;
    text.push_str(digits.format((number % 900_000).wrapping_add(100_000)))?;
    Ok(Text::of(text))
}

/// Adds what is set by a number: a customer, and the last three digits.
fn assign(alloc: Global, number: u64, assignments: &mut Vec<Assignment>) -> Result<(), AllocError> {
    let customer = customer(alloc, number)?;
    assignments.push(Assignment {
        column: 1,
        value: Value::Text(customer),
    })?;
    assignments.push(Assignment {
        column: 2,
        value: Value::Number(i128::from(number % 1_000)),
    })?;
    Ok(())
}

fn what(alloc: Global, id: u64, kind: Kind) -> Result<What, AllocError> {
    let number = match kind {
        Kind::New => id.wrapping_mul(7_919),
        Kind::Changed => id.wrapping_mul(104_729),
    };
    let mut assignments = Vec::with_capacity(alloc, 2)?;
    match assign(alloc, number, &mut assignments) {
        Ok(()) => Ok(What::Set(Items::of(assignments))),
        Err(failed) => {
            drop(assignments);
            Err(failed)
        }
    }
}

fn change(alloc: Global, id: u64, kind: Kind) -> Result<Change, AllocError> {
    let row = row(alloc, id)?;
    match what(alloc, id, kind) {
        Ok(what) => Ok(Change { row, what }),
        Err(failed) => {
            drop(row);
            Err(failed)
        }
    }
}

/// Adds the changes of one batch.
fn add_changes(
    alloc: Global,
    first: u64,
    kind: Kind,
    changes: &mut Vec<Change>,
) -> Result<(), AllocError> {
    for place in 0..ROWS {
        let change = change(alloc, first.wrapping_add(place), kind)?;
        changes.push(change)?;
    }
    Ok(())
}

fn changes(alloc: Global, first: u64, kind: Kind) -> Result<Changes, AllocError> {
    let mut changes = Vec::with_capacity(alloc, ROWS as usize)?;
    match add_changes(alloc, first, kind, &mut changes) {
        Ok(()) => Ok(Items::of(changes)),
        Err(failed) => {
            drop(changes);
            Err(failed)
        }
    }
}

/// Adds all batches of a kind.
fn add_batches(alloc: Global, kind: Kind, all: &mut Vec<Batch>) -> Result<(), AllocError> {
    for place in 0..BATCHES {
        if let Some(batch) = Batch::of(changes(alloc, place.wrapping_mul(ROWS), kind)?) {
            all.push(batch)?;
        }
    }
    Ok(())
}

/// All batches of a kind.
pub fn batches(alloc: Global, kind: Kind) -> Result<Vec<Batch>, AllocError> {
    let mut all = Vec::new(alloc);
    match add_batches(alloc, kind, &mut all) {
        Ok(()) => Ok(all),
        Err(failed) => {
            drop(all);
            Err(failed)
        }
    }
}
