// The histories of fixed seeds.
use crate::histories::{Making, Wrong, alone, history};
use crate::told::Tally;
use px_tests_runs::dice::Dice;
use std::alloc::Global;
use std::sync::Wait;
use std::thread::Threads;

const NOTHING: Tally = Tally {
    entries: 0,
    answers: 0,
    stops: 0,
    doubts: 0,
};

/// What was done in the histories of some seeds; or what was wrong in the one of a seed.
fn all<R: Threads + Wait + Sync>(
    rt: &R,
    alloc: Global,
    making: Making,
    first: u64,
    behind: u64,
) -> Result<Tally, (u64, Wrong)> {
    let mut tally = NOTHING;
    for seed in first..behind {
        let mut dice = Dice::of(seed);
        match history(rt, alloc, &mut dice, making, tally) {
            Ok(more) => tally = more,
            Err(wrong) => return Err((seed, wrong)),
        }
    }
    Ok(tally)
}

/// Whether at least so many entries were made, answers found right beside others' steps, runs stopped, and doubts met.
fn has_done(
    done: &Result<Tally, (u64, Wrong)>,
    entries: u64,
    answers: u64,
    stops: u64,
    doubts: u64,
) -> bool {
    match done {
        Ok(tally) => {
            tally.entries >= entries
                && tally.answers >= answers
                && tally.stops >= stops
                && tally.doubts >= doubts
        }
        Err(_) => false,
    }
}

/// Histories of two sessions.
const TWO: Making = Making {
    sessions: 2,
    each: 5,
    from: 130,
    calls: 200,
    runs: 3,
};

#[test]
fn histories_of_two_seats_are_answered_by_their_dated_rows(rt: HostRuntime) {
    let done = all(&rt, rt.alloc(), TWO, 0, 500);
    assert!(rt; has_done(&done, 40_000, 13_000, 40, 500), "{done:?}");
}

#[test]
fn more_histories_of_two_seats_are_answered_by_their_dated_rows(rt: HostRuntime) {
    let done = all(&rt, rt.alloc(), TWO, 500, 1_000);
    assert!(rt; has_done(&done, 40_000, 13_000, 40, 500), "{done:?}");
}

#[test]
fn still_more_histories_of_two_seats_are_answered_by_their_dated_rows(rt: HostRuntime) {
    let done = all(&rt, rt.alloc(), TWO, 1_000, 1_500);
    assert!(rt; has_done(&done, 40_000, 13_000, 40, 500), "{done:?}");
}

#[test]
fn the_last_histories_of_two_seats_are_answered_by_their_dated_rows(rt: HostRuntime) {
    let done = all(&rt, rt.alloc(), TWO, 1_500, 2_000);
    assert!(rt; has_done(&done, 40_000, 13_000, 40, 500), "{done:?}");
}

#[test]
fn steps_of_six_seats_are_answered_by_their_dated_rows(rt: HostRuntime) {
    let making = Making {
        sessions: 6,
        each: 6,
        from: 150,
        calls: 400,
        runs: 3,
    };
    let done = all(&rt, rt.alloc(), making, 0, 100);
    assert!(rt; has_done(&done, 20_000, 4_000, 5, 200), "{done:?}");
}

#[test]
fn a_seat_alone_leaves_no_doubt(rt: HostRuntime) {
    for seed in 0..20 {
        let mut dice = Dice::of(seed);
        let left = alone(&rt, rt.alloc(), &mut dice);
        assert!(rt; left == Ok(0), "{seed} {left:?}");
    }
}
