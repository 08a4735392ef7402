// A whole verification.
ghost use Rattle.std.specs.Prelude.{◌≡◌, ℕ, List, None};
ghost use Rattle.px_calls.specs.Requires.{IsDrawn};
ghost use Rattle.px_trail.specs.declared.entry.Act.{Act as Acts};
ghost use Rattle.px_verifying.specs.Turns.{Begins, FitsState, MayBegin, RanVerify, VerificationTurns, none_done};

use crate::answer::{Reports, Unfinished, VerifyKind, VerifyTurn};
use crate::machine::{self, Asked, Came, VerifyState};
use px_calls::Steps;
use px_values::{IndexId, TableId};
use std::alloc::Global;
use std::sync::Wait;
use std::thread::Threads;
use std::{mem, thread};

/// A verification on its way. Other seats may act between two of its steps. It is let go by `finish` once it is over.
pub struct VerifyRun {
    alloc: Global,
    table: TableId,
    index: IndexId,
    kind: VerifyKind,
    done: Reports,
    state: VerifyState,
}

impl VerifyRun {
    /// A run that has made no step.
    pub fn new(alloc: Global, table: TableId, index: IndexId, kind: VerifyKind) -> VerifyRun
        ensures table { result.table ≡ table }
        ensures index { result.index ≡ index }
        ensures kind { result.kind ≡ kind }
        ensures done { result.done ≡ none_done }
        ensures state { Begins table index kind result.state }
    {
        let asked = Asked {
            alloc,
            table,
            index,
            kind,
        };
        VerifyRun {
            alloc,
            table,
            index,
            kind,
            done: Reports {
                before: None,
                rebuilt: None,
                after: None,
            },
            state: machine::begin(asked),
        }
    }

    /// Makes one call. A part that is finished is followed by the next one of the kind, and a refused part by none.
    pub fn step<R: Threads + Sync, S: Steps>(&mut self, rt: &R, s: &mut S) -> VerifyTurn
        requires { (n : ℕ) × (own : List Acts) × FitsState S.sound n self.old.table self.old.index self.old.kind own self.old.done self.old.state (S.known s.old) }
        ensures table { self.new.table ≡ self.old.table }
        ensures index { self.new.index ≡ self.old.index }
        ensures kind { self.new.kind ≡ self.old.kind }
        ensures turns { (n : ℕ) → (own : List Acts) → FitsState S.sound n self.old.table self.old.index self.old.kind own self.old.done self.old.state (S.known s.old) → VerificationTurns S.sound n self.old.table self.old.index self.old.kind own self.old.state (S.known s.old) (S.known s.new) self.new.done self.new.state result }
        ensures one_call { S.one_call s.old s.new }
    {
        let asked = Asked {
            alloc: self.alloc,
            table: self.table,
            index: self.index,
            kind: self.kind,
        };
        let state = mem::replace(&mut self.state, VerifyState::Over);
        let Came { done, state, turn } = machine::advance(rt, s, asked, self.done, state);
        self.done = done;
        machine::let_go(mem::replace(&mut self.state, state));
        turn
    }

    /// Lets a run go that is over.
    pub fn finish(self)
        requires { self.state ≡ VerifyState.Over }
    {
        let VerifyRun {
            alloc: _alloc,
            table: _table,
            index: _index,
            kind: _kind,
            done: _done,
            state,
        } = self;
        machine::let_go(state);
    }
}

/// Verifies an index: it reports on it, has it built again, or both, as the kind says. The answer has each part that was finished; of a refused one it has the
/// fault, and the parts before it.
pub fn run_verify<R: Threads + Wait + Sync, S: Steps>(
    rt: &R,
    alloc: Global,
    s: &mut S,
    table: TableId,
    index: IndexId,
    kind: VerifyKind,
) -> Result<Reports, Unfinished>
    requires { MayBegin table index kind (S.known s.old) }
    ensures { RanVerify S.sound table index kind (S.known s.old) (S.known s.new) result }
{
    let mut run = VerifyRun::new(alloc, table, index, kind);
    'steps: for _ in rt.forever() {
        match run.step(rt, s) {
            VerifyTurn::Stepped => {}
            VerifyTurn::Waiting => thread::yield_now(),
            VerifyTurn::Over(result) => {
                run.finish();
                return result;
            }
        }
    }
    unreachable!()
}
