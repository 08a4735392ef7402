// A table, an index and two rows with their index keys, and the cells of their base versions.
ghost use Rattle.std.specs.Prelude.{◌≡◌, ◌∷◌, [], ◌⊎◌, IfOk, pos};
ghost use Rattle.px_baserows.specs.Rows.{AreBaseRows, IsBaseRow};
ghost use Rattle.px_tests_baserows.specs.Worked.{first_row, second_row, worked_index, worked_table};

use px_baserows::{base_versions, owners_of};
use px_calls::BaseRow;
use px_cells::Cells;
use px_indexrow::index_key;
use px_tables::{Index, IndexState, Table, TableColumn};
use px_tests_layouts as layouts;
use px_tests_layouts::{column, keyed_table, place};
use px_values::{ColType, Direction, Items, Row, Rows, Value};
use std::alloc::{AllocError, Global};

/// A table with an index, and two of its rows.
#[derive(Drop)]
pub struct Case {
    pub table: Table,
    pub index: Index,
    pub rows: Vec<BaseRow>,
}

/// The cells of the base versions, and the primary keys.
#[derive(Drop)]
pub struct Answer {
    pub cells: Cells,
    pub owners: Rows,
}

fn columns(alloc: Global) -> Result<Items<TableColumn>, AllocError>
    ensures { IfOk result (λ columns. columns ≡ worked_table.columns) }
{
    let mut columns = Vec::new(alloc);
    columns.push(column(alloc, "ID", ColType::BigInt, true)?)?;
    columns.push(column(alloc, "A", ColType::Integer, false)?)?;
    columns.push(column(alloc, "B", ColType::Integer, false)?)?;
    Ok(Items::of(columns))
}

fn table(alloc: Global) -> Result<Table, AllocError>
    ensures { IfOk result (λ table. table ≡ worked_table) }
{
    let columns = columns(alloc)?;
    keyed_table(alloc, 4, columns)
}

fn index(alloc: Global) -> Result<Index, AllocError>
    ensures { IfOk result (λ index. index ≡ worked_index) }
{
    let parts = place(alloc, 1, Direction::Ascending)?;
    layouts::index(alloc, IndexState::Building, 3, parts, &[2])
}

fn first(alloc: Global) -> Result<Row, AllocError>
    ensures { IfOk result (λ row. row ≡ first_row) }
{
    let mut row = Vec::new(alloc);
    row.push(Value::Number(1))?;
    row.push(Value::Number(5))?;
    row.push(Value::Number(7))?;
    Ok(Items::of(row))
}

fn second(alloc: Global) -> Result<Row, AllocError>
    ensures { IfOk result (λ row. row ≡ second_row) }
{
    let mut row = Vec::new(alloc);
    row.push(Value::Number(2))?;
    row.push(Value::Null)?;
    row.push(Value::Null)?;
    Ok(Items::of(row))
}

/// A row with its key in the index.
fn keyed(
    alloc: Global,
    table: &Table,
    index: &Index,
    id: i128,
    row: Row,
) -> Result<BaseRow, AllocError>
    requires table { table.now ≡ worked_table }
    requires index { index.now ≡ worked_index }
    requires row { ((id ≡ pos 1) × (row ≡ first_row)) ⊎ ((id ≡ pos 2) × (row ≡ second_row)) }
    ensures base { IfOk result (IsBaseRow worked_table worked_index) }
    ensures row { IfOk result (λ base. base.row ≡ row) }
{
    match index_key(alloc, table, index, &[Value::Number(id)], row.as_slice()) {
        Ok(key) => Ok(BaseRow { key, row }),
        Err(_) => {
            drop(row);
            Err(AllocError)
        }
    }
}

/// Both rows.
fn rows(alloc: Global, table: &Table, index: &Index) -> Result<Vec<BaseRow>, AllocError>
    requires table { table.now ≡ worked_table }
    requires index { index.now ≡ worked_index }
    ensures { IfOk result (λ rows. AreBaseRows worked_table worked_index rows.items) }
{
    let mut rows = Vec::with_capacity(alloc, 2)?;
    rows.push_reserved(keyed(alloc, table, index, 1, first(alloc)?)?);
    rows.push_reserved(keyed(alloc, table, index, 2, second(alloc)?)?);
    Ok(rows)
}

/// The case that specs/Worked.antt has.
pub fn made(alloc: Global) -> Result<Case, AllocError>
    ensures table { IfOk result (λ case. case.table ≡ worked_table) }
    ensures index { IfOk result (λ case. case.index ≡ worked_index) }
    ensures rows { IfOk result (λ case. AreBaseRows worked_table worked_index case.rows.items) }
{
    let table = table(alloc)?;
    let index = match index(alloc) {
        Ok(index) => index,
        Err(fault) => {
            drop(table);
            return Err(fault);
        }
    };
    match rows(alloc, &table, &index) {
        Ok(rows) => Ok(Case { table, index, rows }),
        Err(fault) => {
            drop(table);
            drop(index);
            Err(fault)
        }
    }
}

/// The cells of the base versions of its rows, of stamp 3, and their primary keys.
pub fn based(alloc: Global, case: &Case) -> Result<Answer, AllocError>
    requires table { case.now.table ≡ worked_table }
    requires index { case.now.index ≡ worked_index }
    requires rows { AreBaseRows worked_table worked_index case.now.rows.items }
{
    let owners = owners_of(alloc, &case.table, &case.rows)?;
    match base_versions(alloc, &case.table, &case.index, &case.rows, 3) {
        Ok(kept) => Ok(Answer {
            cells: kept.hand(&[]),
            owners,
        }),
        Err(fault) => {
            drop(owners);
            Err(fault)
        }
    }
}
