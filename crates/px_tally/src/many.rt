//! Any number of threads.
ghost use Rattle.std.specs.Prelude.{◌≡◌, ℕ, ◌<◌, ◌≤◌, ◌++◌, [], true, length, vec_capacity, All, IfOk, Some, slice_get};
ghost use Rattle.px_turn.specs.Lists.{own};
ghost use Rattle.px_turn.specs.Seats.{name_of, seat_number, seen_by_seat, IsSeat, AllSeats};
ghost use Rattle.px_tally.specs.Marks.{marks, seat_of};

use crate::tally::Tally;
use crate::turns::mark_turns;
use px_turn::{Seats, TurnLock, TurnSeat};
use std::alloc::{AllocError, Global};
use std::sync::Wait;
use std::thread;
use std::thread::Threads;

/// What a thread has: its seat, and whether it left all of its marks.
struct Job<'a> {
    lock: &'a TurnLock<Tally>,
    seat: TurnSeat<Tally>,
    whole: bool,
    ghost is_seat: { IsSeat (name_of lock.now) seat },
}

impl Job<'_> {
    fn run<R: Wait>(&mut self, rt: &R, times: u32)
        ensures home { (self.new.lock ≡ self.old.lock) × (seat_number self.new.seat ≡ seat_number self.old.seat) }
        ensures marked { self.new.whole ≡ true → own seat_of (seat_number self.old.seat) (seen_by_seat self.new.seat) ≡ own seat_of (seat_number self.old.seat) (seen_by_seat self.old.seat) ++ marks (seat_number self.old.seat) times }
    {
        self.whole = mark_turns(rt, self.lock, &mut self.seat, times).is_ok();
    }
}

// Each job in a thread of its own.
fn run_all<R: Threads + Wait + Sync>(rt: &R, jobs: &mut Vec<Job<'_>>, times: u32)
    requires { 0 < length jobs.old.items }
    ensures len { length jobs.new.items ≡ length jobs.old.items }
    ensures each { (k : ℕ) (a : _) (b : _) → slice_get jobs.old.items k ≡ Some a → slice_get jobs.new.items k ≡ Some b → (b.lock ≡ a.lock) × (seat_number b.seat ≡ seat_number a.seat) × (b.whole ≡ true → own seat_of (seat_number a.seat) (seen_by_seat b.seat) ≡ own seat_of (seat_number a.seat) (seen_by_seat a.seat) ++ marks (seat_number a.seat) times) }
{
    let threads = jobs.len();
    thread::for_each_mut(
        rt,
        jobs.as_mut_slice(),
        threads,
        &|_, job| job.run(rt, times),
    );
}

// A job for each seat.
fn opened<'a>(
    lock: &'a TurnLock<Tally>,
    given: Seats<Tally>,
    mut jobs: Vec<Job<'a>>,
) -> Vec<Job<'a>>
    requires seats { AllSeats (name_of lock.now) given.items }
    requires empty { (k : ℕ) (seat : _) → slice_get given.items k ≡ Some seat → seen_by_seat seat ≡ [] }
    requires room { (jobs.items ≡ []) × (length given.items ≤ vec_capacity jobs) }
    ensures len { length result.items ≡ length given.items }
    ensures each { (k : ℕ) (job : _) → slice_get result.items k ≡ Some job → (job.lock.now ≡ lock.entry.now) × (seat_number job.seat ≡ k) × (seen_by_seat job.seat ≡ []) }
{
    for seat in given {
        jobs.push_reserved(Job {
            lock,
            seat,
            whole: false,
        });
    }
    jobs
}

// The seats again, and whether each thread left all of its marks.
fn taken_back(
    lock: &TurnLock<Tally>,
    mut jobs: Vec<Job<'_>>,
    times: u32,
    mut seats: Seats<Tally>,
) -> (Seats<Tally>, bool)
    requires jobs { (length jobs.items ≡ (name_of lock.now).seats) × ((k : ℕ) (job : _) → slice_get jobs.items k ≡ Some job → (job.lock.now ≡ lock.now) × (seat_number job.seat ≡ k) × (job.whole ≡ true → own seat_of k (seen_by_seat job.seat) ≡ marks k times)) }
    requires room { (seats.items ≡ []) × (length jobs.items ≤ vec_capacity seats) }
    ensures seats { AllSeats (name_of lock.now) result.0.items }
    ensures whole { result.1 ≡ true → (k : ℕ) (seat : _) → slice_get result.0.items k ≡ Some seat → own seat_of k (seen_by_seat seat) ≡ marks k times }
{
    let (_lock, _times) = (lock, times);
    let mut all_whole = true;
    while !jobs.is_empty() {
        let Job {
            lock: _,
            seat,
            whole,
        } = jobs.remove(0);
        seats.push_reserved(seat);
        all_whole &= whole;
    }
    jobs.destroy_empty();
    (seats, all_whole)
}

// Empty lists with room for so many.
fn room<'a>(alloc: Global, count: u32) -> Result<(Vec<Job<'a>>, Seats<Tally>), AllocError>
    ensures { IfOk result (λ r. (r.0.items ≡ []) × (r.1.items ≡ []) × (count ≤ vec_capacity r.0) × (count ≤ vec_capacity r.1)) }
{
    let seats = Vec::with_capacity(alloc, count as usize)?;
    let jobs = Vec::with_capacity(alloc, count as usize)?;
    Ok((jobs, seats))
}

/// So many threads take so many turns each, with a mark in each turn.
pub fn all<R: Threads + Wait + Sync>(
    rt: &R,
    alloc: Global,
    threads: u32,
    times: u32,
) -> Result<Tally, AllocError>
    requires { 0 < threads }
    ensures each { IfOk result (λ t. (k : ℕ) → k < threads → own seat_of k t.marks.items ≡ marks k times) }
    ensures others { IfOk result (λ t. All (λ m. m.seat < threads) t.marks.items) }
{
    let (jobs, seats) = room(alloc, threads)?;
    let (lock, given) = match TurnLock::new(alloc, Tally::new(alloc), threads) {
        Ok(made) => made,
        Err((_, error)) => {
            jobs.destroy_empty();
            return Err(error);
        }
    };
    let mut jobs = opened(&lock, given, jobs);
    run_all(rt, &mut jobs, times);
    let (seats, all_whole) = taken_back(&lock, jobs, times, seats);
    let tally = lock.close(seats);
    if all_whole {
        Ok(tally)
    } else {
        Err(AllocError)
    }
}
