// A whole query.
ghost use Rattle.std.specs.Prelude.{◌≡◌, true};
ghost use Rattle.px_calls.specs.Requires.{IsScn};
ghost use Rattle.px_scan.specs.Bounds.{Spends};
ghost use Rattle.px_scan.specs.Courses.{IsCourse};
ghost use Rattle.px_scan.specs.Fixes.{KeepsDoubts};
ghost use Rattle.px_scan.specs.Looking.{IsByIndex, Looks};
ghost use Rattle.px_scan.specs.Turns.{FitsScan, IsBound, IsQueryGoing, IsQueryNew, QueryTurns, RanQuery};

use crate::answer::{Answer, QueryFault, QueryTurn};
use crate::asks::Asks;
use crate::machine::{self, QueryState};
use px_calls::Steps;
use std::alloc::Global;
use std::sync::Wait;
use std::{mem, thread};

/// A query on its way. Other seats may act between two of its steps.
pub struct QueryRun<Q> {
    query: Q,
    scn: Option<u64>,
    state: QueryState,
    alloc: Global,
}

impl<Q: Asks> QueryRun<Q> {
    /// A run that has made no step.
    pub fn new(alloc: Global, query: Q, scn: Option<u64>) -> QueryRun<Q>
        ensures query { result.query ≡ query }
        ensures scn { result.scn ≡ scn }
        ensures state { IsQueryNew result.state }
    {
        QueryRun {
            query,
            scn,
            state: QueryState::Opening(Vec::new(alloc)),
            alloc,
        }
    }

    /// Makes one call.
    pub fn step<S: Steps>(&mut self, s: &mut S) -> QueryTurn
        requires fits { FitsScan S.sound (Q.asked self.old.query) self.old.scn self.old.state (S.known s.old) }
        requires going { IsQueryGoing self.old.state }
        ensures query { self.new.query ≡ self.old.query }
        ensures scn { self.new.scn ≡ self.old.scn }
        ensures turns { QueryTurns S.sound (Q.asked self.old.query) self.old.scn self.old.state (S.known s.old) self.new.state (S.known s.new) result }
        ensures spends { Spends S.sound self.old.state (S.known s.old) self.new.state (S.known s.new) result }
        ensures looks { (S.known s.old).alone ≡ true → IsByIndex self.old.state → Looks S.sound self.old.state (S.known s.old) (S.looked s.old) self.new.state (S.known s.new) (S.looked s.new) (S.doubtful s.new) }
        ensures doubts { (S.known s.old).alone ≡ true → S.sound → KeepsDoubts self.old.state (S.known s.old) (S.doubtful s.old) self.new.state (S.known s.new) (S.doubtful s.new) }
        ensures one_call { S.one_call s.old s.new }
    {
        let state = mem::replace(&mut self.state, QueryState::Over);
        let (state, turn) = machine::advance(s, self.alloc, &self.query, self.scn, state);
        machine::let_go(mem::replace(&mut self.state, state));
        turn
    }

    /// The query that it answers.
    pub fn query(&self) -> &Q
        ensures { result.now ≡ self.now.query }
    {
        &self.query
    }

    /// The query of a run that is over.
    pub fn finish(self) -> Q
        requires { self.state ≡ QueryState.Over }
        ensures { result ≡ self.query }
    {
        let QueryRun {
            query,
            scn: _scn,
            state,
            alloc: _alloc,
        } = self;
        machine::let_go(state);
        query
    }
}

/// Answers a query: as of a timestamp exactly the rows of the table then, and else a current answer, if what was opened is sound. Where nobody else acts and it
/// goes by an index, it looks at no more than two rows of tables for each doubt that it finds and one for each refused repair, and has each doubt repaired.
pub fn run_query<R: Wait, Q: Asks + Drop, S: Steps>(
    rt: &R,
    alloc: Global,
    s: &mut S,
    query: Q,
    scn: Option<u64>,
) -> Result<Answer, QueryFault>
    requires bound { IsBound (S.known s.old) (Q.asked query) }
    requires scn { IsScn scn }
    ensures ran { RanQuery S.sound (Q.asked query) scn (S.known s.old) (S.known s.new) result }
    ensures course { IsCourse ⟦<S as Steps>⟧ (Q.asked query) scn s.old s.new result }
{
    let mut run = QueryRun::new(alloc, query, scn);
    'steps: for _ in rt.forever() {
        match run.step(s) {
            QueryTurn::Stepped => {}
            QueryTurn::Waiting { .. } => thread::yield_now(),
            QueryTurn::Over(result) => {
                let _query = run.finish();
                return result;
            }
        }
    }
    unreachable!()
}
