// A DELETE on its way.
ghost use Rattle.std.specs.Prelude.{◌≡◌, IfOk};
ghost use Rattle.px_planned.specs.declared.planned.Planned.{Planned as Plans};
ghost use Rattle.px_deleting.specs.Asking.{planned_for};
ghost use Rattle.px_deleting.specs.Deleting.{CanBegin, DeleteTurns, FitsDelete, IsDeleteGoing, IsDeleteNew, RanDelete};

use crate::asking;
use crate::deleted::{DeleteTurn, Deleted};
use crate::machine::{self, DeleteState};
use px_calls::Steps;
use px_expr::Bound;
use px_select::SelectRun;
use px_tables::Table;
use std::alloc::{AllocError, Global};
use std::sync::Wait;
use std::{mem, thread};

/// A DELETE on its way. Other seats may act between two of its steps.
pub struct DeleteRun {
    state: DeleteState,
    alloc: Global,
}

impl DeleteRun {
    /// A run that has made no step, of the rows of a table that meet a condition.
    pub fn new(alloc: Global, table: Table, filter: Option<Bound>) -> Result<DeleteRun, AllocError>
        ensures { IfOk result (λ run. IsDeleteNew (planned_for table filter) run.state) }
    {
        let planned = asking::planned(alloc, table, filter)?;
        Ok(DeleteRun {
            state: DeleteState::Finding(SelectRun::new(alloc, planned, None)),
            alloc,
        })
    }

    /// Makes one call.
    pub fn step<S: Steps>(&mut self, s: &mut S) -> DeleteTurn
        requires fits { (p : Plans) × FitsDelete S.sound p self.old.state (S.known s.old) }
        requires going { IsDeleteGoing self.old.state }
        ensures turns { (p : Plans) → FitsDelete S.sound p self.old.state (S.known s.old) → DeleteTurns S.sound p self.old.state (S.known s.old) self.new.state (S.known s.new) result }
        ensures one_call { S.one_call s.old s.new }
    {
        let state = mem::replace(&mut self.state, DeleteState::Over);
        let (state, turn) = machine::advance(s, self.alloc, state);
        machine::let_go(mem::replace(&mut self.state, state));
        turn
    }

    /// Lets a run go that is over.
    pub fn finish(self)
        requires { self.state ≡ DeleteState.Over }
    {
        let DeleteRun {
            state,
            alloc: _alloc,
        } = self;
        machine::let_go(state);
    }
}

/// Removes rows. It tries again for as long as the server is busy or an earlier batch is pending.
pub fn run_delete<R: Wait, S: Steps>(rt: &R, s: &mut S, mut run: DeleteRun) -> Deleted
    requires new { (p : Plans) × IsDeleteNew p run.state × CanBegin (S.known s.old) p }
    ensures { (p : Plans) → IsDeleteNew p run.state → CanBegin (S.known s.old) p → RanDelete S.sound p (S.known s.old) (S.known s.new) result }
{
    'steps: for _ in rt.forever() {
        match run.step(s) {
            DeleteTurn::Stepped => {}
            DeleteTurn::Waiting { .. } => thread::yield_now(),
            DeleteTurn::Over(result) => {
                run.finish();
                return result;
            }
        }
    }
    unreachable!()
}
