// The query by which a DELETE finds its rows.
ghost use Rattle.std.specs.Prelude.{◌≡◌, IfOk, map};
ghost use Rattle.px_deleting.specs.Asking.{planned_for};

use px_bind::Query;
use px_expr::Bound;
use px_planned::Planned;
use px_tables::{KeyPlace, Table};
use px_values::Items;
use std::alloc::{AllocError, Global};

/// The columns of a key.
fn columns_of(alloc: Global, key: &[KeyPlace]) -> Result<Items<u8>, AllocError>
    ensures { IfOk result (λ columns. columns ≡ map (λ p. p.column) key.now) }
{
    let mut columns = Vec::with_capacity(alloc, key.len())?;
    for place in key {
        columns.push(place.column)?;
    }
    Ok(Items::of(columns))
}

/// The parts of a key, which a query sorts by.
fn order_of(alloc: Global, key: &[KeyPlace]) -> Result<Items<KeyPlace>, AllocError>
    ensures { IfOk result (λ order. order ≡ key.now) }
{
    Ok(Items::of(Vec::from_slice(alloc, key)?))
}

/// The query by which a DELETE finds its rows: of each row of the table that meets the condition the values of its key, in the order of the
/// key.
pub fn planned(alloc: Global, table: Table, filter: Option<Bound>) -> Result<Planned, AllocError>
    ensures { IfOk result (λ p. p ≡ planned_for table filter) }
{
    let shown = columns_of(alloc, table.key.as_slice())?;
    let order = order_of(alloc, table.key.as_slice())?;
    let query = Query {
        table: table.id,
        hints: Items::of(Vec::new(alloc)),
        shown,
        filter,
        order,
        limit: None,
    };
    Planned::new(alloc, table, query)
}
