// A SELECT on its way.
ghost use Rattle.std.specs.Prelude.{◌≡◌, true};
ghost use Rattle.px_calls.specs.Requires.{IsScn};
ghost use Rattle.px_planned.specs.Queries.{query_of};
ghost use Rattle.px_scan.specs.declared.answer.QueryTurn.{QueryTurn as Turn};
ghost use Rattle.px_scan.specs.declared.machine.QueryState.TheVariants as query_state;
ghost use Rattle.px_scan.specs.Fixes.{KeepsDoubts};
ghost use Rattle.px_scan.specs.Looking.{IsByIndex, Looks};
ghost use Rattle.px_scan.specs.Turns as scan;
ghost use Rattle.px_scan.specs.Turns.{FitsScan, IsBound, IsQueryGoing, IsQueryNew};
ghost use Rattle.px_select.specs.Selecting.{IsEnd, IsTurnOf, RanSelect, SelectTurns};

use px_calls::Steps;
use px_plan::Asked;
use px_planned::Planned;
use px_scan::{Answer, QueryFault, QueryRun, QueryTurn};
use px_sorted::{Shown, answered};
use std::alloc::Global;
use std::sync::Wait;
use std::thread;

/// The answer of a SELECT: what is shown of its rows, with their places, the number of entries when its point was opened, and that when it was
/// closed.
#[derive(Drop)]
pub struct Selected {
    pub shown: Shown,
    pub first: u64,
    pub last: u64,
}

/// What one step of a SELECT came to.
#[derive(Drop)]
pub enum SelectTurn {
    Stepped,
    /// The batch of this stamp, at or below the point, isn't written yet.
    Waiting { stamp: u64 },
    Over(Result<Selected, QueryFault>),
}

/// A SELECT on its way. Other seats may act between two of its steps.
pub struct SelectRun {
    scan: QueryRun<Planned>,
    alloc: Global,
}

/// What is answered of a scan that is over.
fn closed(
    alloc: Global,
    asked: &Asked,
    end: Result<Answer, QueryFault>,
) -> Result<Selected, QueryFault>
    ensures { IsEnd asked.now end result }
{
    match end {
        Ok(answer) => {
            let Answer { rows, first, last } = answer;
            match answered(alloc, asked, rows) {
                Ok(shown) => Ok(Selected { shown, first, last }),
                Err(_) => Err(QueryFault::Memory),
            }
        }
        Err(fault) => Err(fault),
    }
}

impl SelectRun {
    /// A run that has made no step.
    pub fn new(alloc: Global, planned: Planned, scn: Option<u64>) -> SelectRun
        ensures planned { result.scan.query ≡ planned }
        ensures scn { result.scan.scn ≡ scn }
        ensures state { IsQueryNew result.scan.state }
    {
        SelectRun {
            scan: QueryRun::new(alloc, planned, scn),
            alloc,
        }
    }

    /// Makes one call. With the last one the rows are sorted, cut and shown.
    pub fn step<S: Steps>(&mut self, s: &mut S) -> SelectTurn
        requires fits { FitsScan S.sound (query_of self.old.scan.query) self.old.scan.scn self.old.scan.state (S.known s.old) }
        requires going { IsQueryGoing self.old.scan.state }
        ensures planned { self.new.scan.query ≡ self.old.scan.query }
        ensures scn { self.new.scan.scn ≡ self.old.scan.scn }
        ensures turns { SelectTurns S.sound self.old.scan.query self.old.scan.scn self.old.scan.state (S.known s.old) self.new.scan.state (S.known s.new) result }
        ensures scans { (t : Turn) × scan.QueryTurns S.sound (query_of self.old.scan.query) self.old.scan.scn self.old.scan.state (S.known s.old) self.new.scan.state (S.known s.new) t × IsTurnOf self.old.scan.query.asked t result }
        ensures looks { (S.known s.old).alone ≡ true → IsByIndex self.old.scan.state → Looks S.sound self.old.scan.state (S.known s.old) (S.looked s.old) self.new.scan.state (S.known s.new) (S.looked s.new) (S.doubtful s.new) }
        ensures doubts { (S.known s.old).alone ≡ true → S.sound → KeepsDoubts self.old.scan.state (S.known s.old) (S.doubtful s.old) self.new.scan.state (S.known s.new) (S.doubtful s.new) }
        ensures one_call { S.one_call s.old s.new }
    {
        match self.scan.step(s) {
            QueryTurn::Stepped => SelectTurn::Stepped,
            QueryTurn::Waiting { stamp } => SelectTurn::Waiting { stamp },
            QueryTurn::Over(end) => {
                let planned = self.scan.query();
                SelectTurn::Over(closed(self.alloc, &planned.asked, end))
            }
        }
    }

    /// The query that it answers.
    pub fn planned(&self) -> &Planned
        ensures { result.now ≡ self.now.scan.query }
    {
        self.scan.query()
    }

    /// Lets a run go that is over.
    pub fn finish(self)
        requires { self.scan.state ≡ query_state.Over }
    {
        let SelectRun {
            scan,
            alloc: _alloc,
        } = self;
        let _planned = scan.finish();
    }
}

/// Answers a SELECT.
pub fn run_select<R: Wait, S: Steps>(
    rt: &R,
    alloc: Global,
    s: &mut S,
    planned: Planned,
    scn: Option<u64>,
) -> Result<Selected, QueryFault>
    requires bound { IsBound (S.known s.old) (query_of planned) }
    requires scn { IsScn scn }
    ensures { RanSelect S.sound planned scn (S.known s.old) (S.known s.new) result }
{
    let mut run = SelectRun::new(alloc, planned, scn);
    'steps: for _ in rt.forever() {
        match run.step(s) {
            SelectTurn::Stepped => {}
            SelectTurn::Waiting { .. } => thread::yield_now(),
            SelectTurn::Over(result) => {
                run.finish();
                return result;
            }
        }
    }
    unreachable!()
}
