//! Two threads.
ghost use Rattle.std.specs.Prelude.{◌≡◌, ◌<◌, ◌++◌, All, IfOk, OnOk};
ghost use Rattle.px_turn.specs.Lists.{own};
ghost use Rattle.px_turn.specs.Seats.{name_of, seat_number, seen_by_seat, IsSeat};
ghost use Rattle.px_tally.specs.Marks.{marks, seat_of};

use crate::tally::Tally;
use crate::turns::mark_turns;
use px_turn::{TurnLock, TurnSeat};
use std::alloc::{AllocError, Global};
use std::sync::Wait;
use std::thread::{Threads, join};

// A thread's seat, and whether there was memory for all of its marks.
type Marked = (TurnSeat<Tally>, Result<(), AllocError>);

/// Two threads take so many turns each, with a mark in each turn.
pub fn both<R: Threads + Wait + Sync>(
    rt: &R,
    alloc: Global,
    times: u32,
) -> Result<Tally, AllocError>
    ensures first { IfOk result (λ t. own seat_of 0 t.marks.items ≡ marks 0 times) }
    ensures second { IfOk result (λ t. own seat_of 1 t.marks.items ≡ marks 1 times) }
    ensures others { IfOk result (λ t. All (λ m. m.seat < 2) t.marks.items) }
{
    let (lock, mut seats) = match TurnLock::new(alloc, Tally::new(alloc), 2) {
        Ok(made) => made,
        Err((_, error)) => return Err(error),
    };
    let (Some(second), Some(first)) = (seats.pop(), seats.pop()) else {
        unreachable!()
    };
    let shared = &lock;
    let (a, b) = join(
        rt,
        move || -> Marked
            requires { IsSeat (name_of shared.now) first × (seat_number first ≡ 0) }
            ensures { IsSeat (name_of shared.entry.now) result.0 × (seat_number result.0 ≡ 0) × OnOk result.1 (own seat_of 0 (seen_by_seat result.0) ≡ own seat_of 0 (seen_by_seat first) ++ marks 0 times) }
        { marked(rt, shared, first, times) },
        move || -> Marked
            requires { IsSeat (name_of shared.now) second × (seat_number second ≡ 1) }
            ensures { IsSeat (name_of shared.entry.now) result.0 × (seat_number result.0 ≡ 1) × OnOk result.1 (own seat_of 1 (seen_by_seat result.0) ≡ own seat_of 1 (seen_by_seat second) ++ marks 1 times) }
        { marked(rt, shared, second, times) },
    );
    seats.push_reserved(a.0);
    seats.push_reserved(b.0);
    let tally = lock.close(seats);
    a.1?;
    b.1?;
    Ok(tally)
}

// The turns of a thread that owns its seat.
fn marked<R: Wait>(rt: &R, lock: &TurnLock<Tally>, mut seat: TurnSeat<Tally>, times: u32) -> Marked
    requires { IsSeat (name_of lock.now) seat }
    ensures seat { IsSeat (name_of lock.now) result.0 × (seat_number result.0 ≡ seat_number seat) }
    ensures marked { OnOk result.1 (own seat_of (seat_number seat) (seen_by_seat result.0) ≡ own seat_of (seat_number seat) (seen_by_seat seat) ++ marks (seat_number seat) times) }
{
    let outcome = mark_turns(rt, lock, &mut seat, times);
    (seat, outcome)
}
