// A round in threads.
ghost use Rattle.std.specs.Prelude.{◌≡◌, ◌+◌, ◌<◌, ◌≤◌, ◌^◌, ℕ, [], length, slice_get, Some, IfOk, IfErr, vec_capacity};
ghost use Rattle.px_turn.specs.Seats.{AllSeats, name_of, seen_by_seat};
ghost use Rattle.px_rounds.specs.Rounds.{HasRound};
ghost use Rattle.px_rounds.specs.Turns.{IsSingle, TrailGoesOn};
ghost use Rattle.px_rounds.specs.inner.Jobs.{IsRoundLaid, SeatsTold};

use crate::desks::Told;
use crate::gate::Gate;
use crate::job::{Job, run_all};
use crate::one::{Lists, lists_for};
use crate::seats::{seated, unseated};
use px_calls::Steps;
use px_script::Round;
use px_seat::{Based, LockNamed, Owned, Single};
use px_session::SessionState;
use px_turn::{Seats, TurnLock};
use std::alloc::{AllocError, Global};
use std::marker::Brand;
use std::snapshot::Snapshot;
use std::sync::Wait;
use std::thread::Threads;

/// The lists of a round whose sessions are at a lock.
struct Room<'a, R: Wait, S: Single, N: LockNamed, B: Based> {
    seats: Seats<Owned<S, B>>,
    jobs: Vec<Job<'a, R, S, N, B>>,
}

fn room_for<'a, R: Wait, S: Single, N: LockNamed, B: Based>(
    alloc: Global,
    count: usize,
) -> Result<Room<'a, R, S, N, B>, AllocError>
    requires { count + 1 < 2 ^ 32 }
    ensures { IfOk result (λ room. (room.seats.items ≡ []) × (room.jobs.items ≡ []) × (count + 1 ≤ vec_capacity room.seats) × (count ≤ vec_capacity room.jobs)) }
{
    let seats = Vec::with_capacity(alloc, count + 1)?;
    let jobs = Vec::with_capacity(alloc, count)?;
    Ok(Room { seats, jobs })
}

/// Runs the sessions of a round on the seats of the lock from seat 1 on. Where no memory is found for its lists it runs none.
fn run_seats<
    'a,
    R: Threads + Wait + Sync,
    S: Single + Send,
    G: Gate + Sync,
    N: LockNamed + Send + Sync,
    B: Based + Send + Sync,
>(
    rt: &'a R,
    alloc: Global,
    gate: &G,
    lock: &'a TurnLock<Owned<S, B>>,
    first: &Snapshot<S>,
    mut given: Seats<Owned<S, B>>,
    seen: u64,
    number: u64,
    lists: Lists<'a>,
    states: Vec<SessionState>,
) -> (Seats<Owned<S, B>>, Result<Told, Vec<SessionState>>)
    requires named { name_of lock.now ≡ N.name }
    requires seats { AllSeats N.name given.items × (length given.items ≡ length states.items + 1) × (length given.items < 2 ^ 32) }
    requires seen { (i : ℕ) (seat : _) → slice_get given.items i ≡ Some seat → seen_by_seat seat ≡ (S.known first.now.value).seen }
    requires count { seen ≡ length (S.known first.now.value).seen }
    requires lists { IsRoundLaid (length states.items) lists }
    ensures seats { AllSeats N.name result.0.items }
    ensures told { IfOk result.1 (λ told. SeatsTold S.sound B.base B.damaged (S.known first.now.value).seen number states.items lists.entry.pieces.items result.0.items told.transcripts.items told.states.items told.lacked) }
    ensures none { IfErr result.1 (λ back. (back.items ≡ states.items) × ((i : ℕ) (seat : _) → slice_get result.0.items i ≡ Some seat → seen_by_seat seat ≡ (S.known first.now.value).seen)) }
{
    let Lists {
        pieces,
        transcripts,
        states: after,
    } = lists;
    let Ok(room) = room_for::<R, S, N, B>(alloc, states.len()) else {
        return (given, Err(states));
    };
    let Room { seats, jobs } = room;
    let idle = given.remove(0);
    let mut jobs = seated::<R, S, N, B>(rt, lock, first, given, seen, number, pieces, states, jobs);
    run_all(rt, alloc, gate, &mut jobs);
    let (seats, told) = unseated(idle, jobs, seats, transcripts, after);
    (seats, Ok(told))
}

/// A round, where base and damaged places are known by their names.
fn round_at<R: Threads + Wait + Sync, S: Single + Send, G: Gate + Sync, B: Based + Send + Sync>(
    rt: &R,
    alloc: Global,
    gate: &G,
    server: S,
    number: u64,
    round: &Round,
    states: Vec<SessionState>,
) -> (S, Result<Told, Vec<SessionState>>)
    requires base { (S.known server).base ≡ B.base }
    requires damaged { (S.known server).damaged ≡ B.damaged }
    requires single { IsSingle (S.known server) }
    requires count { length states.items + 1 < 2 ^ 32 }
    ensures goes { TrailGoesOn (S.known server) (S.known result.0) }
    ensures round { IfOk result.1 (λ told. HasRound S.sound (S.known result.0) (length (S.known server).seen) (length (S.known result.0).seen) number states.items round.now told.transcripts.items told.states.items told.lacked) }
    ensures none { IfErr result.1 (λ back. (back.items ≡ states.items) × ((S.known result.0).seen ≡ (S.known server).seen)) }
{
    let Ok(lists) = lists_for(alloc, round, states.len()) else {
        return (server, Err(states));
    };
    let first = Snapshot::of(&server);
    let seen = server.seen();
    let owned = Owned::<S, B>::new(server);
    let (lock, given) = match TurnLock::new(alloc, owned, states.len() as u32 + 1) {
        Ok(made) => made,
        Err((owned, _)) => return (owned.into_core(), Err(states)),
    };
    let (seats, told) = run_seats::<R, S, G, Brand, B>(
        rt, alloc, gate, &lock, &first, given, seen, number, lists, states,
    );
    (lock.close(seats).into_core(), told)
}

/// Runs a round, each session in a thread of its own on the seat of its number; seat 0 is left to upkeep. Where no memory is found for
/// its lists it runs nothing, and hands the states back.
pub fn in_threads<R: Threads + Wait + Sync, S: Single + Send, G: Gate + Sync>(
    rt: &R,
    alloc: Global,
    gate: &G,
    server: S,
    number: u64,
    round: &Round,
    states: Vec<SessionState>,
) -> (S, Result<Told, Vec<SessionState>>)
    requires single { IsSingle (S.known server) }
    requires count { length states.items + 1 < 2 ^ 32 }
    ensures goes { TrailGoesOn (S.known server) (S.known result.0) }
    ensures round { IfOk result.1 (λ told. HasRound S.sound (S.known result.0) (length (S.known server).seen) (length (S.known result.0).seen) number states.items round.now told.transcripts.items told.states.items told.lacked) }
    ensures none { IfErr result.1 (λ back. (back.items ≡ states.items) × ((S.known result.0).seen ≡ (S.known server).seen)) }
{
    round_at::<R, S, G, Brand>(rt, alloc, gate, server, number, round, states)
}
