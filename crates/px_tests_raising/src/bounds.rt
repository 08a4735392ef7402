// A table with a batch and two points.
use px_group::{Begun, Group, OpenPoint, Phase};
use px_keptcells::KeptCells;
use px_phases::OpenBatch;
use px_raising::{raise, raise_to};
use px_region::Region;
use px_tests_layouts as layouts;
use px_values::{Changes, ColType, Direction, Items, Rows};
use std::alloc::{AllocError, Global};
use std::collections::VecDeque;
use std::test::Fail;

/// A table of one column, with this last stamp and this horizon.
fn group_of(alloc: Global, last: u64, horizon: u64) -> Result<Group, AllocError> {
    let mut columns = Vec::new(alloc);
    columns.push(layouts::column(alloc, "ID", ColType::BigInt, true)?)?;
    let key = layouts::place(alloc, 0, Direction::Ascending)?;
    let table = layouts::table(alloc, 1, Items::of(columns), key)?;
    Ok(Group {
        table,
        rows: Region::fresh(alloc, 1),
        indexes: Vec::new(alloc),
        batches: Vec::new(alloc),
        points: Vec::new(alloc),
        last,
        horizon,
    })
}

/// A batch of the stamp, without a change.
fn begun(alloc: Global, stamp: u64) -> Begun {
    let batch = OpenBatch::new(
        stamp,
        Changes::of(Vec::new(alloc)),
        Vec::new(alloc),
        VecDeque::new(alloc),
        KeptCells::new(alloc),
        VecDeque::new(alloc),
    );
    Begun {
        phase: Phase::Marking,
        count: 0,
        batch,
        rows: None,
        receipt: Rows::of(Vec::new(alloc)),
    }
}

#[test]
fn a_horizon_stays_below_batches_and_at_points(rt: HostRuntime) -> Result<(), Fail> {
    let alloc = rt.alloc();
    let mut group = group_of(alloc, 20, 3)?;
    let free = [
        raise_to(&group, 0),
        raise_to(&group, 4),
        raise_to(&group, 18),
        raise_to(&group, 40),
    ];
    group.batches.push(begun(alloc, 15))?;
    let below = raise_to(&group, 0);
    for (seat, stamp) in [(0, 12), (1, 9)] {
        group.points.push(OpenPoint { seat, stamp })?;
    }
    let at = raise_to(&group, 0);
    raise(&mut group, at);
    let risen = (group.horizon, raise_to(&group, 0));
    group.points.clear();
    let later = raise_to(&group, 0);
    drop(group);
    assert!(rt; free.as_slice() == [20, 16, 3, 3].as_slice());
    assert!(rt; below == 14 && at == 9 && later == 14);
    assert!(rt; risen == (9, 9));
    Ok(())
}
