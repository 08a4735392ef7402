// A DELETE on a table that doesn't stand.
ghost use Rattle.std.specs.Prelude.{◌≡◌, IfOk};
ghost use Rattle.px_deleting.specs.Deleting.{IsDeleteNew};
ghost use Rattle.px_planned.specs.declared.planned.Planned.{Planned as Plans};

use crate::bare::Bare;
use px_deleting::{DeleteFault, DeleteRun, run_delete};
use px_scan::QueryFault;
use px_tables::Table;
use px_values::{Items, Name, TableId};
use std::alloc::{AllocError, Global};

/// A DELETE of all rows of table 3.
fn all_rows(alloc: Global) -> Result<DeleteRun, AllocError>
    ensures { IfOk result (λ run. (p : Plans) × (p.table.id.0 ≡ 3) × IsDeleteNew p run.state) }
{
    let name = Name::from_str(alloc, "GONE")?;
    let table = Table {
        id: TableId(3),
        name,
        columns: Items::of(Vec::new(alloc)),
        key: Items::of(Vec::new(alloc)),
        regions: Items::of(Vec::new(alloc)),
    };
    DeleteRun::new(alloc, table, None)
}

#[test]
fn a_delete_is_refused(rt: HostRuntime) -> Result<(), AllocError> {
    let run = all_rows(rt.alloc())?;
    let deleted = run_delete(&rt, &mut Bare::new(), run);
    assert!(rt; deleted.receipts.is_empty());
    assert!(rt; matches!(deleted.end, Err(DeleteFault::Unread(QueryFault::NoTable))));
    Ok(())
}
