// Calls of steps.
ghost use Rattle.std.specs.Prelude.{◌≡◌, ◌≢◌, ◌≤◌, [], true, length, IfOk, IfSome};
ghost use Rattle.px_trail.specs.Batches.{Marking, is_distinct, rows_of};
ghost use Rattle.px_calls.specs.Known.{Sees};
ghost use Rattle.px_calls.specs.Requires.{AreFitting, TicketIn};
ghost use Rattle.px_tests_served.specs.Beside.{LeavesAll};

use crate::making::order;
use crate::served::Wrong;
use px_batch::{BatchRun, BatchTurn};
use px_calls::{Receipt, StepFault, Steps, Ticket, Work};
use px_tests_making::{Batch, are_fitting};
use px_values::{Changes, Name, TableId};
use std::alloc::Global;
use std::sync::Wait;

/// A batch that was made, and in how many calls.
#[derive(Drop)]
pub struct Made {
    pub receipt: Receipt,
    pub calls: u64,
}

/// Makes upkeep until it is idle. Answers whether it came to be so.
pub fn settle<S: Steps>(s: &mut S) -> bool {
    for _ in 0..100_000 {
        match s.upkeep() {
            Ok(Work::Did) => {}
            Ok(Work::Idle) => return true,
            Err(_) => return false,
        }
    }
    false
}

/// Makes a batch, if nothing is refused and it needn't wait.
fn make_fitting<R: Wait, S: Steps>(
    rt: &R,
    s: &mut S,
    table: TableId,
    changes: Changes,
) -> Option<Made>
    requires some { changes ≢ [] }
    requires rows { length changes ≤ 1000 }
    requires distinct { is_distinct (rows_of changes) ≡ true }
    requires fits { AreFitting (S.known s.old) table.0 changes }
{
    let mut run = BatchRun::new(table, changes);
    let mut calls: u64 = 0;
    'steps: for _ in rt.forever() {
        calls = calls.saturating_add(1);
        match run.step(s) {
            BatchTurn::Stepped => {}
            BatchTurn::Waiting { .. } => {}
            BatchTurn::Over(result) => {
                run.finish();
                return match result {
                    Ok(receipt) => Some(Made { receipt, calls }),
                    Err(_) => None,
                };
            }
        }
    }
    unreachable!()
}

/// The table that has the name, where the changes are of its rows.
#[tactic(auto, using(px_tests_making::proofs::Fitting::fitting))]
pub fn table_for<S: Steps>(s: &mut S, name: &Name, changes: &Changes) -> Option<TableId>
    ensures fits { IfSome result (λ t. AreFitting (S.known s.new) t.0 changes.now) }
    ensures sees { IfSome result (λ t. Sees (S.known s.old) (S.known s.new)) }
{
    let Ok(found) = s.find(name) else {
        return None;
    };
    let table = found.table.id;
    let is_fitting = are_fitting(&found.table, changes.as_slice());
    drop(found);
    if is_fitting { Some(table) } else { None }
}

/// Makes a batch of the table that has the name.
pub fn make<R: Wait, S: Steps>(rt: &R, s: &mut S, name: &Name, batch: Batch) -> Option<Made> {
    let Batch { changes } = batch;
    let Some(table) = table_for(s, name, &changes) else {
        drop(changes);
        return None;
    };
    make_fitting(rt, s, table, changes)
}

/// Begins a batch of row 1 of ORDERS.
pub fn begun<S: Steps>(
    alloc: Global,
    s: &mut S,
    customer: &str,
    amount: i128,
) -> Result<Ticket, Wrong>
    ensures ticket { IfOk result (λ t. TicketIn (S.known s.new) t Marking) }
    ensures others { IfOk result (λ t. LeavesAll (S.known s.old) (S.known s.new)) }
{
    let Ok(name) = Name::from_str(alloc, "ORDERS") else {
        return Err(Wrong::NoMemory);
    };
    let Some(Batch { changes }) = order(alloc, 1, customer, amount) else {
        return Err(Wrong::NoBatch);
    };
    let Some(table) = table_for(s, &name, &changes) else {
        drop(changes);
        return Err(Wrong::NoTable);
    };
    let begun = s.begin(table, &changes);
    drop(changes);
    match begun {
        Ok(ticket) => Ok(ticket),
        Err(_) => Err(Wrong::NotMade),
    }
}

/// Why a batch of the table that has the name doesn't begin.
pub fn refusal<S: Steps>(s: &mut S, name: &Name, batch: Batch) -> Option<StepFault> {
    let Batch { changes } = batch;
    let Some(table) = table_for(s, name, &changes) else {
        drop(changes);
        return None;
    };
    let begun = s.begin(table, &changes);
    drop(changes);
    match begun {
        Ok(ticket) => {
            let Ticket { table: _, stamp: _ } = ticket;
            None
        }
        Err(fault) => Some(fault),
    }
}
