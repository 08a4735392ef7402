// The seats of a round's sessions.
ghost use Rattle.std.specs.Prelude.{◌≡◌, ◌+◌, ◌<◌, ◌≤◌, ◌^◌, ℕ, [], Some, length, slice_get, vec_capacity};
ghost use Rattle.px_turn.specs.Seats.{AllSeats, IsSeat, name_of, seat_number, seen_by_seat};
ghost use Rattle.px_seat.specs.Grown.{mine};
ghost use Rattle.px_rounds.specs.declared.job.Came.{Came as HasCome};
ghost use Rattle.px_rounds.specs.declared.job.Stage.TheVariants.{Over as IsOver};
ghost use Rattle.px_rounds.specs.inner.Jobs.{IsSet, IsTaken};

use crate::desks::{Told, either, is_memory};
use crate::job::{Came, Job, Stage};
use px_lex::script::Piece;
use px_reply::Transcript;
use px_seat::{Based, LockNamed, Owned, SeatAt, Single};
use px_session::SessionState;
use px_turn::{Seats, TurnLock, TurnSeat};
use std::snapshot::Snapshot;
use std::sync::Wait;

/// A job for each session, on the seat of its number. Seat 0 is not among the given ones.
pub(crate) fn seated<'a, R: Wait, S: Single, N: LockNamed, B: Based>(
    rt: &'a R,
    lock: &'a TurnLock<Owned<S, B>>,
    first: &Snapshot<S>,
    given: Seats<Owned<S, B>>,
    seen: u64,
    number: u64,
    mut all: Vec<Vec<Piece<'a>>>,
    mut states: Vec<SessionState>,
    mut jobs: Vec<Job<'a, R, S, N, B>>,
) -> Vec<Job<'a, R, S, N, B>>
    requires named { name_of lock.now ≡ N.name }
    requires seats { (i : ℕ) (seat : _) → slice_get given.items i ≡ Some seat → IsSeat N.name seat × (seat_number seat ≡ i + 1) }
    requires few { length given.items + 1 < 2 ^ 32 }
    requires seen { (i : ℕ) (seat : _) → slice_get given.items i ≡ Some seat → seen_by_seat seat ≡ (S.known first.now.value).seen }
    requires count { seen ≡ length (S.known first.now.value).seen }
    requires sessions { (length all.items ≡ length given.items) × (length states.items ≡ length given.items) }
    requires room { (jobs.items ≡ []) × (length given.items ≤ vec_capacity jobs) }
    ensures len { length result.items ≡ length given.items }
    ensures each { (i : ℕ) (job : _) (st : _) (pieces : _) → slice_get result.items i ≡ Some job → slice_get states.items i ≡ Some st → slice_get all.entry.items i ≡ Some pieces
        → IsSet B.base B.damaged (S.known first.now.value).seen number (i + 1) st pieces (mine job.at.id B.base B.damaged (seen_by_seat job.at.seat)) job.session job.number job.stage }
{
    let _first = first;
    let mut session = 0;
    for seat in given {
        session += 1;
        let pieces = all.remove(0);
        let state = states.remove(0);
        jobs.push_reserved(Job {
            at: SeatAt::new(rt, lock, seat, session, seen),
            session,
            number,
            stage: Stage::Ready(pieces, state),
        });
    }
    jobs
}

/// What a job came to that was run.
fn came_of(stage: Stage<'_>) -> Came
    requires { (came : HasCome) × (stage ≡ IsOver came) }
    ensures { stage.entry ≡ IsOver result }
{
    let Stage::Over(came) = stage else {
        unreachable!()
    };
    came
}

/// The seats again, behind seat 0, and what the sessions came to.
pub(crate) fn unseated<'a, R: Wait, S: Single, N: LockNamed, B: Based>(
    idle: TurnSeat<Owned<S, B>>,
    mut jobs: Vec<Job<'a, R, S, N, B>>,
    mut seats: Seats<Owned<S, B>>,
    mut transcripts: Vec<Transcript>,
    mut states: Vec<SessionState>,
) -> (Seats<Owned<S, B>>, Told)
    requires idle { IsSeat N.name idle × (seat_number idle ≡ 0) }
    requires jobs { (length jobs.items + 1 ≡ N.name.seats) × ((i : ℕ) (job : _) → slice_get jobs.items i ≡ Some job → job.at.id ≡ i + 1) }
    requires over { (i : ℕ) (job : _) → slice_get jobs.items i ≡ Some job → (came : HasCome) × (job.stage ≡ IsOver came) }
    requires room { (seats.items ≡ []) × (length jobs.items + 1 ≤ vec_capacity seats) × (transcripts.items ≡ []) × (length jobs.items ≤ vec_capacity transcripts) × (states.items ≡ []) × (length jobs.items ≤ vec_capacity states) }
    ensures seats { AllSeats N.name result.0.items }
    ensures count { (length result.1.transcripts.items + 1 ≡ length result.0.items) × (length result.1.states.items ≡ length result.1.transcripts.items) }
    ensures idle { slice_get result.0.items 0 ≡ Some idle }
    ensures each { (i : ℕ) (job : _) (seat : _) (t : _) (st : _) → slice_get jobs.entry.items i ≡ Some job → slice_get result.0.items (i + 1) ≡ Some seat → slice_get result.1.transcripts.items i ≡ Some t → slice_get result.1.states.items i ≡ Some st
        → (seen_by_seat seat ≡ seen_by_seat job.at.seat) × IsTaken job.stage t st result.1.lacked }
{
    seats.push_reserved(idle);
    let mut lacked = false;
    while !jobs.is_empty() {
        let Job {
            at,
            session: _,
            number: _,
            stage,
        } = jobs.remove(0);
        seats.push_reserved(at.seat());
        let came = came_of(stage);
        let Came {
            transcript,
            state,
            ending,
        } = came;
        transcripts.push_reserved(transcript);
        states.push_reserved(state);
        lacked = either(lacked, is_memory(ending));
    }
    jobs.destroy_empty();
    (
        seats,
        Told {
            transcripts,
            states,
            lacked,
        },
    )
}
