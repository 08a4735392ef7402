// The primary keys of rows.
ghost use Rattle.std.specs.Prelude.{◌≡◌, ◌<◌, IfOk, Some, length};
ghost use Rattle.std.specs.List.{All, AllByRecursion};
ghost use Rattle.px_indexrow.specs.Form.{FitsRowState};
ghost use Rattle.px_rows.specs.Keys.{IsRightTable};
ghost use Rattle.px_baserows.specs.Rows.{owner_in, owners_in};

use px_calls::BaseRow;
use px_tables::Table;
use px_values::{Row, Rows, Value};
use std::alloc::{AllocError, Global};

/// The primary key values of a row.
fn owner_of(alloc: Global, table: &Table, row: &[Value]) -> Result<Row, AllocError>
    requires within { All (λ p. p.column < length row.now) table.now.key }
    ensures { IfOk result (λ owner. owner ≡ owner_in table.now row.now) }
{
    let places = table.key.as_slice();
    let mut values = Vec::with_capacity(alloc, places.len())?;
    for place in places {
        values.push(row[place.column as usize].copied(alloc)?)?;
    }
    Ok(Row::of(values))
}

/// The primary key values of each row, in order.
pub fn owners_of(alloc: Global, table: &Table, rows: &[BaseRow]) -> Result<Rows, AllocError>
    requires table { IsRightTable table.now }
    requires fits { AllByRecursion (λ x. FitsRowState table.now (Some x.row)) rows.now }
    ensures { IfOk result (λ owners. owners ≡ owners_in table.now rows.now) }
{
    let mut owners = Vec::with_capacity(alloc, rows.len())?;
    for base in rows {
        owners.push(owner_of(alloc, table, base.row.as_slice())?)?;
    }
    Ok(Rows::of(owners))
}
