// Sessions that take turns on one thread.
ghost use Rattle.std.specs.Prelude.{◌≡◌, ◌≢◌, ◌<◌, ◌≤◌, ◌^◌, List, length, true, None, Some, slice_get};
ghost use Rattle.px_session.specs.declared.run.SessionRun.{SessionRun as Runs};
ghost use Rattle.px_session.specs.declared.state.SessionState.{SessionState as States};
ghost use Rattle.px_rounds.specs.Turns.{AreLive, AreOver, IsSingle, Turned};

use px_calls::Steps;
use px_seat::Single;
use px_session::{SessionRun, SessionTurn};
use std::alloc::Global;
use std::sync::Wait;
use std::thread::Threads;

/// A step of the session at this place of the list. Session n stands at place n - 1, and has seat n.
fn turn<R: Threads + Sync, S: Single>(
    rt: &R,
    alloc: Global,
    s: &mut S,
    runs: &mut [SessionRun<'_>],
    place: usize,
) -> SessionTurn
    requires place { (place < length runs.old) × (length runs.old < 2 ^ 32) }
    requires single { IsSingle (S.known s.old) }
    requires live { (began : List States) × AreLive S.sound (S.known s.old) began runs.old }
    ensures turned { Turned S.sound (S.known s.old) runs.old (S.known s.new) runs.new }
{
    s.act_as(place as u32 + 1);
    runs[place].step(rt, alloc, s)
}

/// One call of a session, where it is there and not over.
fn call<R: Threads + Wait + Sync, S: Single>(
    rt: &R,
    alloc: Global,
    s: &mut S,
    runs: &mut [SessionRun<'_>],
    session: usize,
)
    requires count { length runs.old < 2 ^ 32 }
    requires single { IsSingle (S.known s.old) }
    requires live { (began : List States) × AreLive S.sound (S.known s.old) began runs.old }
    ensures turned { Turned S.sound (S.known s.old) runs.old (S.known s.new) runs.new }
{
    if session == 0 || session > runs.len() {
        return;
    }
    'calls: for _ in rt.forever() {
        match turn(rt, alloc, s, runs, session - 1) {
            SessionTurn::Passed => {}
            SessionTurn::Stepped | SessionTurn::Waiting | SessionTurn::Finished => return,
        }
    }
    unreachable!()
}

/// The calls that a list of sessions names.
fn listed<R: Threads + Wait + Sync, S: Single>(
    rt: &R,
    alloc: Global,
    s: &mut S,
    runs: &mut [SessionRun<'_>],
    schedule: &[u32],
)
    requires count { length runs.old < 2 ^ 32 }
    requires single { IsSingle (S.known s.old) }
    requires live { (began : List States) × AreLive S.sound (S.known s.old) began runs.old }
    ensures turned { Turned S.sound (S.known s.old) runs.old (S.known s.new) runs.new }
{
    for session in schedule {
        call(rt, alloc, s, runs, *session as usize);
    }
}

/// A call of each session.
fn swept<R: Threads + Wait + Sync, S: Single>(
    rt: &R,
    alloc: Global,
    s: &mut S,
    runs: &mut [SessionRun<'_>],
)
    requires count { length runs.old < 2 ^ 32 }
    requires single { IsSingle (S.known s.old) }
    requires live { (began : List States) × AreLive S.sound (S.known s.old) began runs.old }
    ensures turned { Turned S.sound (S.known s.old) runs.old (S.known s.new) runs.new }
{
    'sweep: for place in 0..runs.len() {
        call(rt, alloc, s, runs, place + 1);
    }
}

fn are_over(runs: &[SessionRun<'_>]) -> bool
    ensures { result ≡ true → AreOver runs.now }
{
    for run in runs {
        if !run.is_over() {
            return false;
        }
    }
    true
}

/// Runs sessions to their ends: first by the list of whose call is next, and then in turns.
pub fn run_turns<R: Threads + Wait + Sync, S: Single>(
    rt: &R,
    alloc: Global,
    s: &mut S,
    runs: &mut [SessionRun<'_>],
    schedule: &[u32],
)
    requires count { length runs.old < 2 ^ 32 }
    requires single { IsSingle (S.known s.old) }
    requires live { (began : List States) × AreLive S.sound (S.known s.old) began runs.old }
    ensures turned { Turned S.sound (S.known s.old) runs.old (S.known s.new) runs.new }
    ensures over { AreOver runs.new }
{
    listed(rt, alloc, s, runs, schedule);
    'sweeps: for _ in rt.forever() {
        if are_over(runs) {
            return;
        }
        swept(rt, alloc, s, runs);
    }
    unreachable!()
}
