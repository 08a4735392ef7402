//! What one thread does.
ghost use Rattle.std.specs.Prelude.{◌≡◌, ◌++◌, ◌∷◌, [], OnOk};
ghost use Rattle.px_turn.specs.Lists.{own};
ghost use Rattle.px_turn.specs.Seats.{name_of, seat_number, seen_by_seat, IsSeat};
ghost use Rattle.px_tally.specs.Marks.{marks, seat_of};

use crate::tally::{Mark, Tally};
use px_turn::{TurnLock, TurnSeat};
use std::alloc::AllocError;
use std::sync::Wait;

// One turn, with one mark.
fn mark_once<R: Wait>(
    rt: &R,
    lock: &TurnLock<Tally>,
    seat: &mut TurnSeat<Tally>,
    mark: Mark,
) -> Result<(), AllocError>
    requires { IsSeat (name_of lock.now) seat.old × (seat_number seat.old ≡ mark.seat) }
    ensures seat { IsSeat (name_of lock.now) seat.new × (seat_number seat.new ≡ mark.seat) }
    ensures marked { OnOk result (own seat_of mark.seat (seen_by_seat seat.new) ≡ own seat_of mark.seat (seen_by_seat seat.old) ++ mark ∷ []) }
{
    let mut guard = lock.enter(rt, seat);
    let added = guard.value().add(mark);
    guard.leave();
    added
}

/// Takes so many turns, with a mark in each.
pub fn mark_turns<R: Wait>(
    rt: &R,
    lock: &TurnLock<Tally>,
    seat: &mut TurnSeat<Tally>,
    times: u32,
) -> Result<(), AllocError>
    requires { IsSeat (name_of lock.now) seat.old }
    ensures seat { IsSeat (name_of lock.now) seat.new × (seat_number seat.new ≡ seat_number seat.old) }
    ensures marked { OnOk result (own seat_of (seat_number seat.old) (seen_by_seat seat.new) ≡ own seat_of (seat_number seat.old) (seen_by_seat seat.old) ++ marks (seat_number seat.old) times) }
{
    let number = seat.number();
    for turn in 0..times {
        let mark = Mark { seat: number, turn };
        mark_once(rt, lock, seat, mark)?;
    }
    Ok(())
}
