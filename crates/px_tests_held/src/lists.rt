// Lists of changes that are held whole or not at all.
use crate::pieces::{numbered, table};
use px_held::{HeldChanges, HoldFault, held_with};
use px_tables::Table;
use px_values::Change;
use std::alloc::{AllocError, Global};
use std::collections::VecDeque;
use std::test::Fail;

/// Rows that are removed one list after the other, from a number to before another, and how many are held then.
const LISTS: &[(u64, u64, Result<u64, HoldFault>)] = &[
    (0, 0, Ok(0)),
    (0, 1_001, Err(HoldFault::Rows)),
    (7, 7, Ok(0)),
    (0, 3, Ok(3)),
    (2, 5, Ok(5)),
    (0, 1_001, Err(HoldFault::Rows)),
    (9, 9, Ok(5)),
    (1, 1_000, Ok(1_000)),
    (999, 1_001, Err(HoldFault::Rows)),
    (0, 1_000, Ok(1_000)),
];

// The removals of these rows.
fn removals(alloc: Global, from: u64, to: u64) -> Result<VecDeque<Change>, AllocError> {
    let mut changes = VecDeque::new(alloc);
    for number in from..to {
        let change = numbered(alloc, number as i128, None)?;
        changes.push_back(change)?;
    }
    Ok(changes)
}

fn rows_in(held: &Option<HeldChanges>) -> u64 {
    match held {
        Some(held) => held.rows(),
        None => 0,
    }
}

// What comes of holding the removals of these rows.
fn hold_list(
    alloc: Global,
    table: &Table,
    held: &mut Option<HeldChanges>,
    from: u64,
    to: u64,
) -> Result<u64, HoldFault> {
    if table.columns.as_slice().len() > 255 {
        return Err(HoldFault::Memory);
    }
    let changes = match removals(alloc, from, to) {
        Ok(changes) => changes,
        Err(_) => return Err(HoldFault::Memory),
    };
    let after = held_with(alloc, table, held, changes)?;
    *held = after;
    Ok(rows_in(held))
}

#[test]
fn a_list_is_held_whole_or_not_at_all(rt: HostRuntime) -> Result<(), Fail> {
    let alloc = rt.alloc();
    let table = table(alloc)?;
    let mut held = None;
    let mut wrong = None;
    for i in 0..LISTS.len() {
        let (from, to, rows) = LISTS[i];
        let before = rows_in(&held);
        let came = hold_list(alloc, &table, &mut held, from, to);
        if came != rows || (came.is_err() && rows_in(&held) != before) {
            wrong = Some(i);
        }
    }
    drop(held);
    drop(table);
    assert!(rt; wrong.is_none(), "{wrong:?}");
    Ok(())
}
