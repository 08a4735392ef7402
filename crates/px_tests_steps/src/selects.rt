// A SELECT on a table that doesn't stand.
ghost use Rattle.std.specs.Prelude.{◌≡◌, IfOk};

use crate::bare::Bare;
use px_bind::Query;
use px_planned::Planned;
use px_scan::QueryFault;
use px_select::run_select;
use px_tables::Table;
use px_values::{Items, Name, TableId};
use std::alloc::{AllocError, Global};

/// All rows of table 3, as a query that was bound to it.
fn all_rows(alloc: Global) -> Result<Planned, AllocError>
    ensures { IfOk result (λ p. p.table.id.0 ≡ 3) }
{
    let name = Name::from_str(alloc, "GONE")?;
    let table = Table {
        id: TableId(3),
        name,
        columns: Items::of(Vec::new(alloc)),
        key: Items::of(Vec::new(alloc)),
        regions: Items::of(Vec::new(alloc)),
    };
    let query = Query {
        table: TableId(3),
        hints: Items::of(Vec::new(alloc)),
        shown: Items::of(Vec::new(alloc)),
        filter: None,
        order: Items::of(Vec::new(alloc)),
        limit: None,
    };
    Planned::new(alloc, table, query)
}

#[test]
fn a_select_is_refused(rt: HostRuntime) -> Result<(), AllocError> {
    let planned = all_rows(rt.alloc())?;
    let answer = run_select(&rt, rt.alloc(), &mut Bare::new(), planned, None);
    assert!(rt; matches!(answer, Err(QueryFault::NoTable)));
    Ok(())
}
