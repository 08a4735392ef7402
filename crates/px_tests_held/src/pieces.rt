// Changes as the tests write them, made and compared.
use px_tables::{Table, TableColumn};
use px_tests_layouts as layouts;
use px_tests_layouts::{column, places};
use px_values::{Assignment, Change, ColType, Direction, Items, Row, Text, Value, What};
use std::alloc::{AllocError, Global};

/// A row of the key, by its two texts; the empty one is NULL.
pub type Written = (&'static str, &'static str);

/// What a change does: it sets these columns to these texts, of which the empty one is NULL, or it removes the row.
pub type Doing = Option<&'static [(u8, &'static str)]>;

fn columns(alloc: Global) -> Result<Items<TableColumn>, AllocError> {
    let mut columns = Vec::new(alloc);
    for name in ["A", "K", "B", "L", "C"] {
        columns.push(column(alloc, name, ColType::Varchar, false)?)?;
    }
    Ok(Items::of(columns))
}

/// A table of five columns, of which 0, 2 and 4 are outside the key.
pub fn table(alloc: Global) -> Result<Table, AllocError> {
    let key = places(
        alloc,
        &[(1, Direction::Ascending), (3, Direction::Descending)],
    )?;
    match columns(alloc) {
        Ok(columns) => layouts::table(alloc, 5, columns, key),
        Err(fault) => {
            drop(key);
            Err(fault)
        }
    }
}

fn value(alloc: Global, text: &str) -> Result<Value, AllocError> {
    if text.is_empty() {
        return Ok(Value::Null);
    }
    let text = Text::from_str(alloc, text)?;
    Ok(Value::Text(text))
}

fn row(alloc: Global, written: Written) -> Result<Row, AllocError> {
    let mut row = Vec::new(alloc);
    row.push(value(alloc, written.0)?)?;
    row.push(value(alloc, written.1)?)?;
    Ok(Items::of(row))
}

fn assignments(alloc: Global, written: &[(u8, &str)]) -> Result<Items<Assignment>, AllocError> {
    let mut list = Vec::new(alloc);
    for (column, text) in written {
        let value = value(alloc, text)?;
        list.push(Assignment {
            column: *column,
            value,
        })?;
    }
    Ok(Items::of(list))
}

/// What a change does.
pub fn what(alloc: Global, doing: Doing) -> Result<What, AllocError> {
    match doing {
        None => Ok(What::Gone),
        Some(written) => {
            let list = assignments(alloc, written)?;
            Ok(What::Set(list))
        }
    }
}

/// A change of a row.
pub fn change(alloc: Global, written: Written, doing: Doing) -> Result<Change, AllocError> {
    let row = row(alloc, written)?;
    match what(alloc, doing) {
        Ok(what) => Ok(Change { row, what }),
        Err(fault) => {
            drop(row);
            Err(fault)
        }
    }
}

/// A change of the row whose key is a number and NULL.
pub fn numbered(alloc: Global, number: i128, doing: Doing) -> Result<Change, AllocError> {
    let row = vec![in alloc; Value::Number(number), Value::Null]?;
    match what(alloc, doing) {
        Ok(what) => Ok(Change {
            row: Items::of(row),
            what,
        }),
        Err(fault) => {
            drop(row);
            Err(fault)
        }
    }
}

fn is_value(value: &Value, text: &str) -> bool {
    match value {
        Value::Null => text.is_empty(),
        Value::Text(found) => found.as_str() == text,
        Value::Number(_) | Value::Truth(_) => false,
    }
}

fn are_assigned(found: &[Assignment], written: &[(u8, &str)]) -> bool {
    if found.len() != written.len() {
        return false;
    }
    for i in 0..found.len() {
        let (column, text) = written[i];
        if found[i].column != column || !is_value(&found[i].value, text) {
            return false;
        }
    }
    true
}

/// Whether a change does this, with the assignments in this order.
pub fn is_what(what: &What, doing: Doing) -> bool {
    match (what, doing) {
        (What::Gone, None) => true,
        (What::Set(found), Some(written)) => are_assigned(found.as_slice(), written),
        _ => false,
    }
}

/// Whether it is this change of this row.
pub fn is_change(change: &Change, written: Written, doing: Doing) -> bool {
    let same = match change.row.as_slice() {
        [first, second] => is_value(first, written.0) && is_value(second, written.1),
        _ => false,
    };
    same && is_what(&change.what, doing)
}
