// The job of a thread: a session on its seat.
ghost use Rattle.std.specs.Prelude.{◌≡◌, ℕ, Some, length, slice_get};
ghost use Rattle.px_session.specs.declared.state.SessionState.{SessionState as States};
ghost use Rattle.px_turn.specs.Seats.{seen_by_seat};
ghost use Rattle.px_seat.specs.Grown.{mine};
ghost use Rattle.px_rounds.specs.inner.Jobs.{CanRun, RanOut, RanStage};

use crate::course::Course;
use crate::gate::Gate;
use px_calls::Steps;
use px_lex::script::Piece;
use px_reply::Transcript;
use px_seat::{Based, LockNamed, SeatAt, Single};
use px_session::{Ending, SessionRun, SessionState, SessionTurn};
use std::alloc::Global;
use std::sync::Wait;
use std::thread::Threads;
use std::{mem, thread};

/// What a session came to.
#[derive(Drop)]
pub(crate) struct Came {
    pub(crate) transcript: Transcript,
    pub(crate) state: SessionState,
    pub(crate) ending: Ending,
}

/// How far a job is.
#[derive(Drop)]
pub(crate) enum Stage<'a> {
    /// The session is to be run on these pieces, from this state.
    Ready(Vec<Piece<'a>>, SessionState),
    /// It is being run.
    Taken,
    /// It has come to its end.
    Over(Came),
}

/// A session on its seat. It is made in its thread, since what it does between two steps isn't sent to one.
pub(crate) struct Job<'a, R: Wait, S: Single, N: LockNamed, B: Based> {
    pub(crate) at: SeatAt<'a, R, S, N, B>,
    pub(crate) session: u32,
    pub(crate) number: u64,
    pub(crate) stage: Stage<'a>,
}

/// Runs a course to its end, through the gate after each step.
fn run_gated<R: Threads + Wait + Sync, S: Steps, X: Course, G: Gate>(
    rt: &R,
    alloc: Global,
    gate: &G,
    s: &mut S,
    course: &mut X,
)
    requires live { (began : States) × X.on_way S.sound began (S.known s.old) course.old }
    ensures ran { RanOut (X.on_way S.sound) X.stays X.over (S.known s.old) course.old (S.known s.new) course.new }
{
    'steps: for _ in rt.forever() {
        match course.advance(rt, alloc, s) {
            SessionTurn::Finished => return,
            SessionTurn::Waiting => thread::yield_now(),
            SessionTurn::Stepped | SessionTurn::Passed => {}
        }
        course.pass(gate);
    }
    unreachable!()
}

impl<'a, R: Threads + Wait + Sync, S: Single, N: LockNamed, B: Based> Job<'a, R, S, N, B> {
    fn run<G: Gate>(&mut self, rt: &R, alloc: Global, gate: &G)
        requires ready { CanRun (⟦<SeatAt<'a, R, S, N, B> as Steps>⟧.known self.old.at) self.old.session self.old.stage }
        ensures same { (self.new.session ≡ self.old.session) × (self.new.number ≡ self.old.number) }
        ensures ran { RanStage S.sound self.old.number (⟦<SeatAt<'a, R, S, N, B> as Steps>⟧.known self.old.at) self.old.stage (⟦<SeatAt<'a, R, S, N, B> as Steps>⟧.known self.new.at) self.new.stage }
    {
        let Stage::Ready(pieces, state) = mem::replace(&mut self.stage, Stage::Taken) else {
            unreachable!()
        };
        let from = self.at.seen();
        let mut run = SessionRun::of(alloc, self.session, self.number, pieces, state, from);
        run_gated(rt, alloc, gate, &mut self.at, &mut run);
        let (transcript, state, ending) = run.transcript::<S>();
        self.stage = Stage::Over(Came {
            transcript,
            state,
            ending,
        });
    }
}

/// Runs the sessions, each in a thread of its own where one can be made. Those for which none can be run one after another.
pub(crate) fn run_all<
    'a,
    R: Threads + Wait + Sync,
    S: Single + Send,
    G: Gate + Sync,
    N: LockNamed + Send + Sync,
    B: Based + Send + Sync,
>(rt: &R, alloc: Global, gate: &G, jobs: &mut Vec<Job<'a, R, S, N, B>>)
    requires ready { (i : ℕ) (job : _) → slice_get jobs.old.items i ≡ Some job → CanRun (mine job.at.id B.base B.damaged (seen_by_seat job.at.seat)) job.session job.stage }
    ensures len { length jobs.new.items ≡ length jobs.old.items }
    ensures each { (i : ℕ) (a : _) (b : _) → slice_get jobs.old.items i ≡ Some a → slice_get jobs.new.items i ≡ Some b → RanStage S.sound a.number (mine a.at.id B.base B.damaged (seen_by_seat a.at.seat)) a.stage (mine b.at.id B.base B.damaged (seen_by_seat b.at.seat)) b.stage }
{
    let threads = jobs.len().max(1);
    let run = |_: usize, job: &mut Job<R, S, N, B>|
        requires ready { CanRun (mine job.old.at.id B.base B.damaged (seen_by_seat job.old.at.seat)) job.old.session job.old.stage }
        ensures ran { RanStage S.sound job.old.number (mine job.old.at.id B.base B.damaged (seen_by_seat job.old.at.seat)) job.old.stage (mine job.new.at.id B.base B.damaged (seen_by_seat job.new.at.seat)) job.new.stage }
    { job.run(rt, alloc, gate) };
    thread::for_each_mut(rt, jobs.as_mut_slice(), threads, &run);
}
