// A whole report.
ghost use Rattle.std.specs.Prelude.{◌≡◌};
ghost use Rattle.px_verify.specs.Turns.{FitsReport, IsReportGoing, IsReportNew, RanReport, ReportTurns};

use crate::answer::{ReportFault, ReportTurn, Reported};
use crate::machine::{self, ReportState};
use px_calls::Steps;
use px_values::{IndexId, TableId};
use std::alloc::Global;
use std::sync::Wait;
use std::{mem, thread};

/// A report on its way. Other seats may act between two of its steps. It is let go by `finish` once it is over.
pub struct ReportRun {
    table: TableId,
    index: IndexId,
    state: ReportState,
    alloc: Global,
}

impl ReportRun {
    /// A run that has made no step.
    pub fn new(alloc: Global, table: TableId, index: IndexId) -> ReportRun
        ensures table { result.table ≡ table }
        ensures index { result.index ≡ index }
        ensures state { IsReportNew result.state }
    {
        ReportRun {
            table,
            index,
            state: ReportState::Opening,
            alloc,
        }
    }

    /// Makes one call. It waits while a batch at or below the point isn't written: the same call is then tried again. A step that doesn't wait
    /// comes to a later key, or to what is next; a refused one drops what was kept, and the step behind it closes the point.
    pub fn step<S: Steps>(&mut self, s: &mut S) -> ReportTurn
        requires fits { FitsReport S.sound self.old.table self.old.index self.old.state (S.known s.old) }
        requires going { IsReportGoing self.old.state }
        ensures table { self.new.table ≡ self.old.table }
        ensures index { self.new.index ≡ self.old.index }
        ensures turns { ReportTurns S.sound self.old.table self.old.index self.old.state (S.known s.old) self.new.state (S.known s.new) result }
        ensures one_call { S.one_call s.old s.new }
    {
        let state = mem::replace(&mut self.state, ReportState::Over);
        let (state, turn) = machine::advance(s, self.alloc, self.table, self.index, state);
        machine::let_go(mem::replace(&mut self.state, state));
        turn
    }

    /// Lets a run go that is over.
    pub fn finish(self)
        requires { self.state ≡ ReportState.Over }
    {
        let ReportRun {
            table: _table,
            index: _index,
            state,
            alloc: _alloc,
        } = self;
        machine::let_go(state);
    }
}

/// Reports on an index of a table: how what its rows at one point ask for agrees with what it has there. It holds the index key and the
/// included values of each row and of each version. `NoTable` and `NoIndex` come where none stands at the point, `Memory` where none is
/// found; the other faults hand on why a step was refused. What it opened is closed in any case, and it writes nothing.
pub fn run_report<R: Wait, S: Steps>(
    rt: &R,
    alloc: Global,
    s: &mut S,
    table: TableId,
    index: IndexId,
) -> Result<Reported, ReportFault>
    ensures { RanReport S.sound table index (S.known s.old) (S.known s.new) result }
{
    let mut run = ReportRun::new(alloc, table, index);
    'steps: for _ in rt.forever() {
        match run.step(s) {
            ReportTurn::Stepped => {}
            ReportTurn::Waiting { .. } => thread::yield_now(),
            ReportTurn::Over(result) => {
                run.finish();
                return result;
            }
        }
    }
    unreachable!()
}
