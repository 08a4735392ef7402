// A whole batch.
ghost use Rattle.std.specs.Prelude.{◌≡◌, ◌≢◌, ◌≤◌, ℕ, [], true, length};
ghost use Rattle.px_trail.specs.Batches.{is_distinct, rows_of};
ghost use Rattle.px_calls.specs.Causes.{index_count};
ghost use Rattle.px_calls.specs.Requires.{AreFitting};
ghost use Rattle.px_batch.specs.Bounds.{Spends};
ghost use Rattle.px_batch.specs.Turns.{BatchTurns, FitsBatch, IsBatchGoing, RanBatch};

use crate::batch::{self, BatchFault, BatchState, BatchTurn};
use px_calls::{Receipt, Steps};
use px_values::{Changes, TableId};
use std::sync::Wait;
use std::{mem, thread};

/// A batch on its way. Other seats may act between two of its steps.
pub struct BatchRun {
    table: TableId,
    changes: Changes,
    state: BatchState,
    ghost some: { changes ≢ [] },
    ghost rows: { length changes ≤ 1000 },
    ghost distinct: { is_distinct (rows_of changes) ≡ true },
}

impl BatchRun {
    /// A run that has made no step.
    pub fn new(table: TableId, changes: Changes) -> BatchRun
        requires some { changes ≢ [] }
        requires rows { length changes ≤ 1000 }
        requires distinct { is_distinct (rows_of changes) ≡ true }
        ensures table { result.table ≡ table }
        ensures changes { result.changes ≡ changes }
        ensures state { result.state ≡ BatchState.Beginning }
    {
        BatchRun {
            table,
            changes,
            state: BatchState::Beginning,
        }
    }

    /// Makes one call.
    pub fn step<S: Steps>(&mut self, s: &mut S) -> BatchTurn
        requires fits { FitsBatch S.sound self.old.table self.old.changes self.old.state (S.known s.old) }
        requires going { IsBatchGoing self.old.state }
        ensures table { self.new.table ≡ self.old.table }
        ensures changes { self.new.changes ≡ self.old.changes }
        ensures turns { BatchTurns S.sound self.old.table self.old.changes self.old.state (S.known s.old) self.new.state (S.known s.new) result }
        ensures spends { (S.known s.old).alone ≡ true → (n : ℕ) → index_count (S.known s.new) self.old.table.0 ≤ n → Spends n (S.left s.old) self.old.state (S.left s.new) self.new.state result }
        ensures one_call { S.one_call s.old s.new }
    {
        let state = mem::replace(&mut self.state, BatchState::Over);
        let (state, turn) = batch::advance(s, self.table, &self.changes, state);
        batch::let_go(mem::replace(&mut self.state, state));
        turn
    }

    /// Lets a run go that is over.
    pub fn finish(self)
        requires { self.state ≡ BatchState.Over }
    {
        let BatchRun {
            table: _table,
            changes: _changes,
            state,
        } = self;
        batch::let_go(state);
    }
}

/// Makes a batch. It tries again for as long as the server is busy or an earlier batch is pending.
pub fn run_batch<R: Wait, S: Steps>(
    rt: &R,
    s: &mut S,
    table: TableId,
    changes: Changes,
) -> Result<Receipt, BatchFault>
    requires some { changes ≢ [] }
    requires rows { length changes ≤ 1000 }
    requires distinct { is_distinct (rows_of changes) ≡ true }
    requires fits { AreFitting (S.known s.old) table.0 changes }
    ensures { RanBatch S.sound table changes (S.known s.old) (S.known s.new) result }
{
    let mut run = BatchRun::new(table, changes);
    'steps: for _ in rt.forever() {
        match run.step(s) {
            BatchTurn::Stepped => {}
            BatchTurn::Waiting { .. } => thread::yield_now(),
            BatchTurn::Over(result) => {
                run.finish();
                return result;
            }
        }
    }
    unreachable!()
}
