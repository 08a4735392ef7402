// Reading tables.
ghost use Rattle.std.specs.Prelude.{◌≡◌, ◌≤◌, length};
ghost use Rattle.px_pieces.specs.Chains.{repeat};
ghost use Rattle.px_schema.specs.Format.{defined, keyed, named, no_table, table, tables_in as tables_piece};
ghost use Rattle.px_schema.specs.Outcomes.{ReadsPiece, paired};

use crate::list::{columns_in, parts_in, regions_in};
use crate::part::name_in;
use crate::{DefFault, GREATEST_COUNT, GREATEST_ID};
use px_pieces::number_in;
use px_tables::{KeyPlace, Table, TableColumn, TableRegion};
use px_values::{Items, Name, TableId};
use std::alloc::Global;

/// A value before what was read behind it. Where nothing was read it is let go.
pub(crate) fn with_first<T: Drop, U>(
    first: T,
    rest: Result<(U, usize), DefFault>,
) -> Result<((T, U), usize), DefFault>
    ensures { result ≡ paired first rest }
{
    match rest {
        Ok((second, end)) => Ok(((first, second), end)),
        Err(fault) => {
            drop(first);
            Err(fault)
        }
    }
}

type Keyed = (Items<KeyPlace>, Items<TableRegion>);

type Defined = (Items<TableColumn>, Keyed);

type Named = (Name, Defined);

/// The key and the regions of a table with so many columns, and the place behind them.
fn keyed_in(
    alloc: Global,
    bytes: &[u8],
    at: usize,
    columns: usize,
) -> Result<(Keyed, usize), DefFault>
    requires begins { at ≤ length bytes.now }
    ensures { ReadsPiece (keyed columns) bytes.now at result }
{
    let (key, behind) = parts_in(alloc, bytes, at, columns)?;
    with_first(key, regions_in(alloc, bytes, behind))
}

/// The columns of a table and what comes behind them.
fn defined_in(alloc: Global, bytes: &[u8], at: usize) -> Result<(Defined, usize), DefFault>
    requires begins { at ≤ length bytes.now }
    ensures { ReadsPiece defined bytes.now at result }
{
    let (columns, behind) = columns_in(alloc, bytes, at)?;
    let rest = keyed_in(alloc, bytes, behind, columns.as_slice().len());
    with_first(columns, rest)
}

/// The name of a table and what comes behind it.
fn named_in(alloc: Global, bytes: &[u8], at: usize) -> Result<(Named, usize), DefFault>
    requires begins { at ≤ length bytes.now }
    ensures { ReadsPiece named bytes.now at result }
{
    let (name, behind) = name_in(alloc, bytes, at)?;
    with_first(name, defined_in(alloc, bytes, behind))
}

/// The table at a place, and the place behind it.
pub(crate) fn table_in(alloc: Global, bytes: &[u8], at: usize) -> Result<(Table, usize), DefFault>
    requires begins { at ≤ length bytes.now }
    ensures { ReadsPiece table bytes.now at result }
{
    let number = number_in(bytes, at, 4, GREATEST_ID)?;
    let ((name, (columns, (key, regions))), end) = named_in(alloc, bytes, at + 4)?;
    let table = Table {
        id: TableId(number as u32),
        name,
        columns,
        key,
        regions,
    };
    Ok((table, end))
}

/// The tables behind their count, and the place behind them.
pub(crate) fn tables_in(
    alloc: Global,
    bytes: &[u8],
    at: usize,
) -> Result<(Items<Table>, usize), DefFault>
    requires begins { at ≤ length bytes.now }
    ensures { ReadsPiece tables_piece bytes.now at result }
{
    let count = number_in(bytes, at, 2, GREATEST_COUNT)?;
    tables_from(alloc, bytes, at + 2, count)
}

/// So many tables.
fn tables_from(
    alloc: Global,
    bytes: &[u8],
    at: usize,
    count: u64,
) -> Result<(Items<Table>, usize), DefFault>
    requires begins { at ≤ length bytes.now }
    ensures { ReadsPiece (repeat no_table table count) bytes.now at result }
{
    let mut list = Vec::new(alloc);
    let mut end = at;
    for _taken in 0..count {
        match table_in(alloc, bytes, end) {
            Ok((table, behind)) => {
                if list.push(table).is_err() {
                    drop(list);
                    return Err(DefFault::Memory);
                }
                end = behind;
            }
            Err(fault) => {
                drop(list);
                return Err(fault);
            }
        }
    }
    Ok((Items::of(list), end))
}
