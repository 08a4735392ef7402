// What a query answers of the rows that its scan found.
ghost use Rattle.std.specs.Prelude.{◌≡◌, IfOk, List, true, get_or, length, map};
ghost use Rattle.px_sorted.specs.Sorting.{answer_of, row_shown};
ghost use Rattle.px_values.specs.declared.row.Value.{Value as ValueData};
ghost use Rattle.px_values.specs.declared.row.Value.TheVariants.{Null};

use crate::sorted::{cut, sort};
use px_plan::Asked;
use px_scan::Placed;
use px_values::{Items, Row, Rows, Value};
use std::alloc::{AllocError, Global};

/// The rows of an answer, and for each a number of entries after which the table held it.
#[derive(Drop)]
pub struct Shown {
    pub rows: Rows,
    pub places: Items<u64>,
}

/// The value of a column, or NULL where the row has none.
fn copied_value(alloc: Global, row: &[Value], column: u8) -> Result<Value, AllocError>
    ensures { IfOk result (λ v. v ≡ get_or row.now column Null) }
{
    match row.get(column as usize) {
        Some(value) => value.copied(alloc),
        None => Ok(Value::Null),
    }
}

/// What is shown of a row.
fn shown_row(alloc: Global, columns: &[u8], row: &[Value]) -> Result<Row, AllocError>
    ensures { IfOk result (λ r. r ≡ row_shown columns.now row.now) }
{
    let mut values = Vec::with_capacity(alloc, columns.len())?;
    for column in columns {
        values.push(copied_value(alloc, row, *column)?)?;
    }
    Ok(Items::of(values))
}

/// Whether these are all columns of a row of so many, in order.
fn are_all(columns: &[u8], count: usize) -> bool
    ensures { result ≡ true → (row : List ValueData) → length row ≡ count → row_shown columns.now row ≡ row }
{
    if columns.len() != count {
        return false;
    }
    for (place, column) in columns.iter().enumerate() {
        if *column as usize != place {
            return false;
        }
    }
    true
}

/// What is shown of a row: the row itself where all of its columns are, else a copy of some of its values.
fn shown_of(alloc: Global, columns: &[u8], row: Row) -> Result<Row, AllocError>
    ensures { IfOk result (λ r. r ≡ row_shown columns.now row) }
{
    if are_all(columns, row.as_slice().len()) {
        return Ok(row);
    }
    let shown = shown_row(alloc, columns, row.as_slice());
    drop(row);
    shown
}

/// What is shown of each row.
fn shown_rows(alloc: Global, columns: &[u8], rows: Vec<Placed>) -> Result<Rows, AllocError>
    ensures { IfOk result (λ rs. rs ≡ map (λ p. row_shown columns.now p.row) rows.items) }
{
    let mut all = Vec::with_capacity(alloc, rows.len())?;
    for placed in rows {
        all.push(shown_of(alloc, columns, placed.row)?)?;
    }
    Ok(Items::of(all))
}

/// The place of each row.
fn places_of(alloc: Global, rows: &[Placed]) -> Result<Items<u64>, AllocError>
    ensures { IfOk result (λ ps. ps ≡ map (λ p. p.at) rows.now) }
{
    let mut places = Vec::with_capacity(alloc, rows.len())?;
    for placed in rows {
        places.push(placed.at)?;
    }
    Ok(Items::of(places))
}

/// What a query answers of the rows that were found, which come in the order of its path: sorted, cut, and of each what is shown.
pub fn answered(alloc: Global, asked: &Asked, mut rows: Vec<Placed>) -> Result<Shown, AllocError>
    ensures { IfOk result (λ s. s ≡ answer_of asked.now rows.items) }
{
    sort(&mut rows, asked.order.as_slice())?;
    cut(&mut rows, asked.limit);
    let places = places_of(alloc, rows.as_slice())?;
    let rows = shown_rows(alloc, asked.shown.as_slice(), rows)?;
    Ok(Shown { rows, places })
}
