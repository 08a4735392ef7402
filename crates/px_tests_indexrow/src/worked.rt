// A table, an index and a change of a row, and the cells of each phase.
ghost use Rattle.std.specs.Prelude.{◌≡◌, ◌∷◌, [], IfOk, Some};
ghost use Rattle.px_values.specs.declared.change.What.TheVariants.{Set};
ghost use Rattle.px_values.specs.declared.row.Value.TheVariants.{Text as TextValue};
ghost use Rattle.px_tests_indexrow.specs.Worked.{worked, worked_change, worked_index, worked_new, worked_old, worked_table};

use px_cells::Cells;
use px_indexrow::{base, closes, marks};
use px_rows::{RowFault, cells_of};
use px_tables::{Index, IndexState, Table, TableColumn};
use px_tests_layouts as layouts;
use px_tests_layouts::{column, keyed_table, place};
use px_values::{Assignment, Change, ColType, Direction, Items, Row, Text, Value, What};
use std::alloc::{AllocError, Global};

/// A change of a row of a table with an index, and the row before and after it.
#[derive(Drop)]
pub struct Case {
    pub table: Table,
    pub index: Index,
    pub change: Change,
    pub old: Option<Row>,
    pub new: Option<Row>,
}

fn columns(alloc: Global) -> Result<Items<TableColumn>, AllocError>
    ensures { IfOk result (λ columns. columns ≡ worked_table.columns) }
{
    let mut columns = Vec::new(alloc);
    columns.push(column(alloc, "ID", ColType::BigInt, true)?)?;
    columns.push(column(alloc, "C", ColType::Varchar, false)?)?;
    columns.push(column(alloc, "A", ColType::Integer, false)?)?;
    columns.push(column(alloc, "N", ColType::Varchar, false)?)?;
    Ok(Items::of(columns))
}

fn table(alloc: Global) -> Result<Table, AllocError>
    ensures { IfOk result (λ table. table ≡ worked_table) }
{
    let columns = columns(alloc)?;
    keyed_table(alloc, 4, columns)
}

fn index(alloc: Global) -> Result<Index, AllocError>
    ensures { IfOk result (λ index. index ≡ worked_index) }
{
    let parts = place(alloc, 2, Direction::Descending)?;
    layouts::index(alloc, IndexState::Active, 0, parts, &[1, 3])
}

fn text(alloc: Global, text: &str) -> Result<Value, AllocError>
    ensures { IfOk result (λ v. v ≡ TextValue text.now) }
{
    let text = Text::from_str(alloc, text)?;
    Ok(Value::Text(text))
}

fn old_row(alloc: Global) -> Result<Row, AllocError>
    ensures { IfOk result (λ row. Some row ≡ worked_old) }
{
    let mut row = Vec::new(alloc);
    row.push(Value::Number(1))?;
    row.push(text(alloc, "bo")?)?;
    row.push(Value::Number(5))?;
    row.push(Value::Null)?;
    Ok(Items::of(row))
}

fn new_row(alloc: Global) -> Result<Row, AllocError>
    ensures { IfOk result (λ row. Some row ≡ worked_new) }
{
    let mut row = Vec::new(alloc);
    row.push(Value::Number(1))?;
    row.push(text(alloc, "al")?)?;
    row.push(Value::Null)?;
    row.push(text(alloc, "x")?)?;
    Ok(Items::of(row))
}

fn assignments(alloc: Global) -> Result<Items<Assignment>, AllocError>
    ensures { IfOk result (λ list. Set list ≡ worked_change.what) }
{
    let mut list = Vec::new(alloc);
    list.push(Assignment {
        column: 1,
        value: text(alloc, "al")?,
    })?;
    list.push(Assignment {
        column: 2,
        value: Value::Null,
    })?;
    list.push(Assignment {
        column: 3,
        value: text(alloc, "x")?,
    })?;
    Ok(Items::of(list))
}

fn change(alloc: Global) -> Result<Change, AllocError>
    ensures { IfOk result (λ change. change ≡ worked_change) }
{
    let mut row = Vec::new(alloc);
    row.push(Value::Number(1))?;
    match assignments(alloc) {
        Ok(list) => Ok(Change {
            row: Items::of(row),
            what: What::Set(list),
        }),
        Err(fault) => {
            drop(row);
            Err(fault)
        }
    }
}

/// The row before and after the change.
fn rows(alloc: Global) -> Result<(Row, Row), AllocError>
    ensures { IfOk result (λ rows. (Some rows.0 ≡ worked_old) × (Some rows.1 ≡ worked_new)) }
{
    let old = old_row(alloc)?;
    match new_row(alloc) {
        Ok(new) => Ok((old, new)),
        Err(fault) => {
            drop(old);
            Err(fault)
        }
    }
}

/// The table with its index.
fn tables(alloc: Global) -> Result<(Table, Index), AllocError>
    ensures { IfOk result (λ both. (both.0 ≡ worked_table) × (both.1 ≡ worked_index)) }
{
    let table = table(alloc)?;
    match index(alloc) {
        Ok(index) => Ok((table, index)),
        Err(fault) => {
            drop(table);
            Err(fault)
        }
    }
}

/// The change with the rows.
fn changes(alloc: Global) -> Result<(Change, Row, Row), AllocError>
    ensures { IfOk result (λ all. (all.0 ≡ worked_change) × (Some all.1 ≡ worked_old) × (Some all.2 ≡ worked_new)) }
{
    let change = change(alloc)?;
    match rows(alloc) {
        Ok((old, new)) => Ok((change, old, new)),
        Err(fault) => {
            drop(change);
            Err(fault)
        }
    }
}

/// The case that specs/Worked.antt has.
pub fn made(alloc: Global) -> Result<Case, AllocError>
    ensures { IfOk result (λ case. case ≡ worked) }
{
    let (table, index) = tables(alloc)?;
    match changes(alloc) {
        Ok((change, old, new)) => Ok(Case {
            table,
            index,
            change,
            old: Some(old),
            new: Some(new),
        }),
        Err(fault) => {
            drop(table);
            drop(index);
            Err(fault)
        }
    }
}

/// The marks of its change, of stamp 7.
pub fn marked(alloc: Global, case: &Case) -> Result<Cells, RowFault>
    requires { case.now ≡ worked }
{
    let row = case.change.row.as_slice();
    marks(
        alloc,
        &case.table,
        &case.index,
        row,
        &case.old,
        &case.new,
        7,
    )
}

/// The cells of the row.
pub fn written(alloc: Global, case: &Case) -> Result<Cells, RowFault>
    requires { case.now ≡ worked }
{
    cells_of(alloc, &case.table, &case.change, 7)
}

/// What closes the marks.
pub fn closed(alloc: Global, case: &Case) -> Result<Cells, RowFault>
    requires { case.now ≡ worked }
{
    let row = case.change.row.as_slice();
    closes(
        alloc,
        &case.table,
        &case.index,
        row,
        &case.old,
        &case.new,
        7,
    )
}

/// The base version of the row before the change, of stamp 3.
pub fn built(alloc: Global, case: &Case) -> Result<Cells, RowFault>
    requires { case.now ≡ worked }
{
    let row = case.change.row.as_slice();
    base(alloc, &case.table, &case.index, row, &case.old, 3)
}

/// The marks of the change that removes the row, of stamp 7.
pub fn removed(alloc: Global, case: &Case) -> Result<Cells, RowFault>
    requires { case.now ≡ worked }
{
    let row = case.change.row.as_slice();
    marks(alloc, &case.table, &case.index, row, &case.old, &None, 7)
}
