// A batch and a query on a table that doesn't stand.
ghost use Rattle.std.specs.Prelude.{◌≡◌, IfOk};
ghost use Rattle.px_tests_steps.specs.Bare.{one_gone};

use crate::bare::Bare;
use px_batch::{BatchFault, run_batch};
use px_calls::{Path, Point};
use px_scan::{Asks, PathFault, QueryFault, run_query};
use px_values::{Change, Changes, Row, TableId, Value, What};
use std::alloc::{AllocError, Global};

/// All rows of table 3.
#[derive(Drop)]
struct AllRows;

impl Asks for AllRows {
    ghost use Rattle.px_tests_steps.specs.Bare.{all_rows};

    ghost asked = { λ _. all_rows };

    fn table(&self) -> TableId {
        TableId(3)
    }

    fn limit(&self) -> Option<u64> {
        None
    }

    fn meets(&self, _row: &Row) -> bool {
        true
    }

    fn path(&self, _alloc: Global, _point: &Point) -> Result<Path, PathFault> {
        Err(PathFault::Memory)
    }
}

fn one_change(alloc: Global) -> Result<Changes, AllocError>
    ensures { IfOk result (λ cs. cs ≡ one_gone) }
{
    let mut row = Vec::new(alloc);
    row.push(Value::Number(1))?;
    let mut changes = Vec::new(alloc);
    changes.push(Change {
        row: Row::of(row),
        what: What::Gone,
    })?;
    Ok(Changes::of(changes))
}

#[test]
fn a_batch_is_refused(rt: HostRuntime) -> Result<(), AllocError> {
    let changes = one_change(rt.alloc())?;
    let mut bare = Bare::new();
    let answer = run_batch(&rt, &mut bare, TableId(3), changes);
    assert!(rt; matches!(answer, Err(BatchFault::NoTable)));
    assert!(rt; bare.calls == 1);
    Ok(())
}

#[test]
fn a_query_is_refused(rt: HostRuntime) {
    let mut bare = Bare::new();
    let answer = run_query(&rt, rt.alloc(), &mut bare, AllRows, None);
    assert!(rt; matches!(answer, Err(QueryFault::NoTable)));
    assert!(rt; bare.calls == 1);
}
