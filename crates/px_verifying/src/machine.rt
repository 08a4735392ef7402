// A verification as a machine: each step is one of the part that is under way.
ghost use Rattle.std.specs.Prelude.{◌≡◌, ℕ, List, Ok, Err};
ghost use Rattle.px_trail.specs.declared.entry.Act.{Act as Acts};
ghost use Rattle.px_verifying.specs.Turns.{Begins, FitsState, IsNewRebuilding, IsNewReport, VerificationTurns};

use crate::answer::{Reports, Unfinished, VerifyFault, VerifyKind, VerifyTurn};
use crate::faults::{build_fault, definition_fault, report_fault};
use px_calls::{Definition, Steps};
use px_defining::{DefineRun, DefineTurn};
use px_upkeep::{BuildRun, BuildTurn};
use px_values::{IndexId, TableId};
use px_verify::{ReportRun, ReportTurn};
use std::alloc::Global;
use std::thread::Threads;

/// What the next step of a verification is.
pub enum VerifyState {
    /// One of the report that comes first.
    Before(ReportRun),
    /// The index is to be put back to building, from a new birth on.
    Defining(DefineRun),
    /// One of its build.
    Building(BuildRun),
    /// One of the report behind the rebuilding.
    After(ReportRun),
    Over,
}

/// Which index is verified, and how.
#[derive(Clone, Copy)]
pub(crate) struct Asked {
    pub(crate) alloc: Global,
    pub(crate) table: TableId,
    pub(crate) index: IndexId,
    pub(crate) kind: VerifyKind,
}

/// What a step led to.
pub(crate) struct Came {
    pub(crate) done: Reports,
    pub(crate) state: VerifyState,
    pub(crate) turn: VerifyTurn,
}

/// A report that has made no step.
fn report_of(asked: Asked) -> ReportRun
    ensures { IsNewReport asked.table asked.index result }
{
    ReportRun::new(asked.alloc, asked.table, asked.index)
}

/// The index is to be built again.
fn rebuilding_of(asked: Asked) -> DefineRun
    ensures { IsNewRebuilding asked.table asked.index result }
{
    DefineRun::new(Definition::Rebuilding {
        table: asked.table,
        index: asked.index,
    })
}

/// The part that comes first.
pub(crate) fn begin(asked: Asked) -> VerifyState
    ensures { Begins asked.table asked.index asked.kind result }
{
    if asked.kind.reports_first() {
        VerifyState::Before(report_of(asked))
    } else {
        VerifyState::Defining(rebuilding_of(asked))
    }
}

fn went_on(done: Reports, state: VerifyState) -> Came
    ensures { result ≡ record { done = done; state = state; turn = VerifyTurn.Stepped } }
{
    Came {
        done,
        state,
        turn: VerifyTurn::Stepped,
    }
}

fn waits(done: Reports, state: VerifyState) -> Came
    ensures { result ≡ record { done = done; state = state; turn = VerifyTurn.Waiting } }
{
    Came {
        done,
        state,
        turn: VerifyTurn::Waiting,
    }
}

/// The last part is finished.
fn finished(done: Reports) -> Came
    ensures { result ≡ record { done = done; state = VerifyState.Over; turn = VerifyTurn.Over (Ok done) } }
{
    Came {
        done,
        state: VerifyState::Over,
        turn: VerifyTurn::Over(Ok(done)),
    }
}

/// A part was refused.
fn refused(done: Reports, fault: VerifyFault) -> Came
    ensures { result ≡ record { done = done; state = VerifyState.Over; turn = VerifyTurn.Over (Err (record { done = done; fault = fault })) } }
{
    Came {
        done,
        state: VerifyState::Over,
        turn: VerifyTurn::Over(Err(Unfinished { done, fault })),
    }
}

/// One step of the report that comes first.
fn report_before<S: Steps>(s: &mut S, asked: Asked, done: Reports, mut run: ReportRun) -> Came
    requires { (n : ℕ) × (own : List Acts) × FitsState S.sound n asked.table asked.index asked.kind own done (VerifyState.Before run) (S.known s.old) }
    ensures turns { (n : ℕ) → (own : List Acts) → FitsState S.sound n asked.table asked.index asked.kind own done (VerifyState.Before run) (S.known s.old) → VerificationTurns S.sound n asked.table asked.index asked.kind own (VerifyState.Before run) (S.known s.old) (S.known s.new) result.done result.state result.turn }
    ensures one_call { S.one_call s.old s.new }
{
    match run.step(s) {
        ReportTurn::Stepped => went_on(done, VerifyState::Before(run)),
        ReportTurn::Waiting { .. } => waits(done, VerifyState::Before(run)),
        ReportTurn::Over(Err(f)) => {
            run.finish();
            refused(done, report_fault(f))
        }
        ReportTurn::Over(Ok(reported)) => {
            run.finish();
            let done = Reports {
                before: Some(reported),
                rebuilt: None,
                after: None,
            };
            if asked.kind.rebuilds() {
                went_on(done, VerifyState::Defining(rebuilding_of(asked)))
            } else {
                finished(done)
            }
        }
    }
}

/// One step of the definition that puts the index back to building.
fn define<S: Steps>(s: &mut S, asked: Asked, done: Reports, mut run: DefineRun) -> Came
    requires { (n : ℕ) × (own : List Acts) × FitsState S.sound n asked.table asked.index asked.kind own done (VerifyState.Defining run) (S.known s.old) }
    ensures turns { (n : ℕ) → (own : List Acts) → FitsState S.sound n asked.table asked.index asked.kind own done (VerifyState.Defining run) (S.known s.old) → VerificationTurns S.sound n asked.table asked.index asked.kind own (VerifyState.Defining run) (S.known s.old) (S.known s.new) result.done result.state result.turn }
    ensures one_call { S.one_call s.old s.new }
{
    match run.step(s) {
        DefineTurn::Stepped => went_on(done, VerifyState::Defining(run)),
        DefineTurn::Waiting { .. } => waits(done, VerifyState::Defining(run)),
        DefineTurn::Over(Err(f)) => {
            drop(run);
            refused(done, definition_fault(f))
        }
        DefineTurn::Over(Ok(made)) => {
            drop(run);
            let build = BuildRun::new(asked.alloc, asked.table, asked.index, made.stamp);
            went_on(done, VerifyState::Building(build))
        }
    }
}

/// One step of the build.
fn build<R: Threads + Sync, S: Steps>(
    rt: &R,
    s: &mut S,
    asked: Asked,
    done: Reports,
    run: BuildRun,
) -> Came
    requires { (n : ℕ) × (own : List Acts) × FitsState S.sound n asked.table asked.index asked.kind own done (VerifyState.Building run) (S.known s.old) }
    ensures turns { (n : ℕ) → (own : List Acts) → FitsState S.sound n asked.table asked.index asked.kind own done (VerifyState.Building run) (S.known s.old) → VerificationTurns S.sound n asked.table asked.index asked.kind own (VerifyState.Building run) (S.known s.old) (S.known s.new) result.done result.state result.turn }
    ensures one_call { S.one_call s.old s.new }
{
    match run.step(rt, s) {
        BuildTurn::Stepped(run) => went_on(done, VerifyState::Building(run)),
        BuildTurn::Waiting(run) => waits(done, VerifyState::Building(run)),
        BuildTurn::Over(Err(f)) => refused(done, build_fault(f)),
        BuildTurn::Over(Ok(made)) => {
            let done = Reports {
                before: done.before,
                rebuilt: Some(made),
                after: None,
            };
            if asked.kind.reports_last() {
                went_on(done, VerifyState::After(report_of(asked)))
            } else {
                finished(done)
            }
        }
    }
}

/// One step of the report behind the rebuilding.
fn report_after<S: Steps>(s: &mut S, asked: Asked, done: Reports, mut run: ReportRun) -> Came
    requires { (n : ℕ) × (own : List Acts) × FitsState S.sound n asked.table asked.index asked.kind own done (VerifyState.After run) (S.known s.old) }
    ensures turns { (n : ℕ) → (own : List Acts) → FitsState S.sound n asked.table asked.index asked.kind own done (VerifyState.After run) (S.known s.old) → VerificationTurns S.sound n asked.table asked.index asked.kind own (VerifyState.After run) (S.known s.old) (S.known s.new) result.done result.state result.turn }
    ensures one_call { S.one_call s.old s.new }
{
    match run.step(s) {
        ReportTurn::Stepped => went_on(done, VerifyState::After(run)),
        ReportTurn::Waiting { .. } => waits(done, VerifyState::After(run)),
        ReportTurn::Over(Err(fault)) => {
            run.finish();
            refused(done, report_fault(fault))
        }
        ReportTurn::Over(Ok(reported)) => {
            run.finish();
            finished(Reports {
                before: done.before,
                rebuilt: done.rebuilt,
                after: Some(reported),
            })
        }
    }
}

/// One step: one call.
pub(crate) fn advance<R: Threads + Sync, S: Steps>(
    rt: &R,
    s: &mut S,
    asked: Asked,
    done: Reports,
    state: VerifyState,
) -> Came
    requires { (n : ℕ) × (own : List Acts) × FitsState S.sound n asked.table asked.index asked.kind own done state (S.known s.old) }
    ensures turns { (n : ℕ) → (own : List Acts) → FitsState S.sound n asked.table asked.index asked.kind own done state (S.known s.old) → VerificationTurns S.sound n asked.table asked.index asked.kind own state (S.known s.old) (S.known s.new) result.done result.state result.turn }
    ensures one_call { S.one_call s.old s.new }
{
    match state {
        VerifyState::Before(run) => report_before(s, asked, done, run),
        VerifyState::Defining(run) => define(s, asked, done, run),
        VerifyState::Building(run) => build(rt, s, asked, done, run),
        VerifyState::After(run) => report_after(s, asked, done, run),
        VerifyState::Over => unreachable!(),
    }
}

/// Lets a state go that is over.
pub(crate) fn let_go(state: VerifyState)
    requires { state ≡ VerifyState.Over }
{
    match state {
        VerifyState::Over => {}
        _ => unreachable!(),
    }
}
