// A DELETE as a machine: each step makes one call.
ghost use Rattle.std.specs.Prelude.{◌≡◌, ◌<◌, List, length, vec_capacity};
ghost use Rattle.std.specs.List.Sorted.{IsStrictlySortedBy};
ghost use Rattle.px_tables.specs.declared.table.KeyPlace.{KeyPlace as Part};
ghost use Rattle.px_removals.specs.Removals.{key_order};
ghost use Rattle.px_trail.specs.Batches.{rows_of};
ghost use Rattle.px_planned.specs.declared.planned.Planned.{Planned as Plans};
ghost use Rattle.px_deleting.specs.Deleting.{DeleteTurns, FitsDelete, IsDeleteGoing};
ghost use Rattle.px_deleting.specs.inner.Going.{IsAfterAnswer, IsAfterBatch, IsAfterFound, IsStopped, IsUnread, IsWhole};

use crate::deleted::{DeleteFault, DeleteTurn, Deleted, Removed};
use px_batch::{BatchFault, BatchRun, BatchTurn};
use px_calls::{Receipt, Steps};
use px_removals::{next_part, removals};
use px_scan::QueryFault;
use px_select::{SelectRun, SelectTurn, Selected};
use px_sorted::Shown;
use px_values::{Change, TableId};
use std::alloc::Global;
use std::collections::VecDeque;

/// What is left to a DELETE whose rows are found: the changes behind the batch under way, the receipts of the finished ones with room for the
/// others, the number of all rows, and that of entries when the point was opened.
#[derive(Drop)]
pub struct Left {
    pub table: TableId,
    pub changes: VecDeque<Change>,
    pub receipts: Vec<Receipt>,
    pub rows: u64,
    pub first: u64,
}

/// What the next step of a DELETE is.
pub enum DeleteState {
    /// Its rows are being found.
    Finding(SelectRun),
    /// A batch of them is being removed.
    Removing(BatchRun, Left),
    Over,
}

/// The most rows of a batch.
const MOST_ROWS: usize = 1_000;

/// No row was removed.
fn unread(alloc: Global, fault: QueryFault) -> DeleteTurn
    ensures { IsUnread fault result }
{
    DeleteTurn::Over(Deleted {
        receipts: Vec::new(alloc),
        end: Err(DeleteFault::Unread(fault)),
    })
}

/// Begins the first batch of what is to be removed, if there is any. It makes no call.
fn begin(
    alloc: Global,
    table: TableId,
    mut changes: VecDeque<Change>,
    first: u64,
) -> (DeleteState, DeleteTurn)
    requires ordered { (key : List Part) × IsStrictlySortedBy (key_order key) (rows_of changes.items) }
    ensures { IsAfterFound table changes.items first result.0 result.1 }
{
    let rows = changes.len() as u64;
    if changes.is_empty() {
        let end = Ok(Removed { rows, first });
        let receipts = Vec::new(alloc);
        return (
            DeleteState::Over,
            DeleteTurn::Over(Deleted { receipts, end }),
        );
    }
    let receipts = match Vec::with_capacity(alloc, changes.len() / MOST_ROWS + 1) {
        Ok(receipts) => receipts,
        Err(_) => return (DeleteState::Over, unread(alloc, QueryFault::Memory)),
    };
    match next_part(alloc, &mut changes) {
        Ok(part) => (
            DeleteState::Removing(
                BatchRun::new(table, part),
                Left {
                    table,
                    changes,
                    receipts,
                    rows,
                    first,
                },
            ),
            DeleteTurn::Stepped,
        ),
        Err(_) => (DeleteState::Over, unread(alloc, QueryFault::Memory)),
    }
}

/// Goes on with what was found. It makes no call.
fn found(alloc: Global, run: &SelectRun, selected: Selected) -> (DeleteState, DeleteTurn)
    ensures { IsAfterAnswer run.now.scan.query selected result.0 result.1 }
{
    let Selected {
        shown,
        first,
        last: _last,
    } = selected;
    let Shown { rows, places } = shown;
    drop(places);
    let planned = run.planned();
    match removals(alloc, &planned.table, rows) {
        Ok(changes) => begin(alloc, planned.table.id, changes, first),
        Err(_) => (DeleteState::Over, unread(alloc, QueryFault::Memory)),
    }
}

/// Goes on to find the rows.
fn find<S: Steps>(s: &mut S, alloc: Global, mut run: SelectRun) -> (DeleteState, DeleteTurn)
    requires { (p : Plans) × FitsDelete S.sound p (DeleteState.Finding run) (S.known s.old) }
    ensures turns { (p : Plans) → FitsDelete S.sound p (DeleteState.Finding run) (S.known s.old) → DeleteTurns S.sound p (DeleteState.Finding run) (S.known s.old) result.0 (S.known s.new) result.1 }
    ensures one_call { S.one_call s.old s.new }
{
    match run.step(s) {
        SelectTurn::Stepped => (DeleteState::Finding(run), DeleteTurn::Stepped),
        SelectTurn::Waiting { stamp } => {
            (DeleteState::Finding(run), DeleteTurn::Waiting { stamp })
        }
        SelectTurn::Over(Ok(selected)) => {
            let next = found(alloc, &run, selected);
            run.finish();
            next
        }
        SelectTurn::Over(Err(fault)) => {
            run.finish();
            (DeleteState::Over, unread(alloc, fault))
        }
    }
}

/// The next batch isn't made, and no other.
fn stopped(left: Left, fault: BatchFault) -> DeleteTurn
    ensures { IsStopped left.receipts.items fault result }
{
    let Left {
        table: _table,
        changes,
        receipts,
        rows: _rows,
        first: _first,
    } = left;
    drop(changes);
    DeleteTurn::Over(Deleted {
        receipts,
        end: Err(DeleteFault::Unmade(fault)),
    })
}

/// All rows are removed.
fn whole(left: Left) -> DeleteTurn
    ensures { IsWhole left result }
{
    let Left {
        table: _table,
        changes,
        receipts,
        rows,
        first,
    } = left;
    drop(changes);
    DeleteTurn::Over(Deleted {
        receipts,
        end: Ok(Removed { rows, first }),
    })
}

/// Goes on after a batch. It makes no call.
fn go_on(alloc: Global, mut left: Left, receipt: Receipt) -> (DeleteState, DeleteTurn)
    requires room { length left.receipts.items < vec_capacity left.receipts }
    requires ordered { (key : List Part) × IsStrictlySortedBy (key_order key) (rows_of left.changes.items) }
    ensures { IsAfterBatch left receipt result.0 result.1 }
{
    left.receipts.push_reserved(receipt);
    if left.changes.is_empty() {
        return (DeleteState::Over, whole(left));
    }
    match next_part(alloc, &mut left.changes) {
        Ok(part) => (
            DeleteState::Removing(BatchRun::new(left.table, part), left),
            DeleteTurn::Stepped,
        ),
        Err(_) => (DeleteState::Over, stopped(left, BatchFault::Memory)),
    }
}

/// Goes on with a batch.
fn remove<S: Steps>(
    s: &mut S,
    alloc: Global,
    mut run: BatchRun,
    left: Left,
) -> (DeleteState, DeleteTurn)
    requires { (p : Plans) × FitsDelete S.sound p (DeleteState.Removing run left) (S.known s.old) }
    ensures turns { (p : Plans) → FitsDelete S.sound p (DeleteState.Removing run left) (S.known s.old) → DeleteTurns S.sound p (DeleteState.Removing run left) (S.known s.old) result.0 (S.known s.new) result.1 }
    ensures one_call { S.one_call s.old s.new }
{
    match run.step(s) {
        BatchTurn::Stepped => (DeleteState::Removing(run, left), DeleteTurn::Stepped),
        BatchTurn::Waiting { stamp } => {
            (
                DeleteState::Removing(run, left),
                DeleteTurn::Waiting { stamp },
            )
        }
        BatchTurn::Over(Ok(receipt)) => {
            run.finish();
            go_on(alloc, left, receipt)
        }
        BatchTurn::Over(Err(fault)) => {
            run.finish();
            (DeleteState::Over, stopped(left, fault))
        }
    }
}

/// The next step of a DELETE: one call.
pub(crate) fn advance<S: Steps>(
    s: &mut S,
    alloc: Global,
    state: DeleteState,
) -> (DeleteState, DeleteTurn)
    requires fits { (p : Plans) × FitsDelete S.sound p state (S.known s.old) }
    requires going { IsDeleteGoing state }
    ensures turns { (p : Plans) → FitsDelete S.sound p state (S.known s.old) → DeleteTurns S.sound p state (S.known s.old) result.0 (S.known s.new) result.1 }
    ensures one_call { S.one_call s.old s.new }
{
    match state {
        DeleteState::Finding(run) => find(s, alloc, run),
        DeleteState::Removing(run, left) => remove(s, alloc, run, left),
        DeleteState::Over => unreachable!(),
    }
}

/// Lets a state go that is under way with nothing.
pub(crate) fn let_go(state: DeleteState)
    requires { state ≡ DeleteState.Over }
{
    match state {
        DeleteState::Over => {}
        _ => unreachable!(),
    }
}
