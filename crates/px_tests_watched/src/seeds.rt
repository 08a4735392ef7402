// The courses of fixed seeds.
use crate::course::{Making, Tally, Wrong, watched};
use px_tests_runs::dice::Dice;
use std::alloc::Global;
use std::sync::Wait;
use std::thread::Threads;

const NOTHING: Tally = Tally {
    steps: 0,
    answers: 0,
    images: 0,
    stops: 0,
    open: 0,
};

const MAKING: Making = Making {
    runs: 2,
    steps: 100,
    calls: 400,
};

/// What was done in the courses of some seeds; or what was wrong in the one of a seed.
fn all<R: Threads + Wait + Sync>(
    rt: &R,
    alloc: Global,
    first: u64,
    behind: u64,
) -> Result<Tally, (u64, Wrong)> {
    let mut tally = NOTHING;
    for seed in first..behind {
        let mut dice = Dice::of(seed);
        match watched(rt, alloc, &mut dice, MAKING, tally) {
            Ok(more) => tally = more,
            Err(wrong) => return Err((seed, wrong)),
        }
    }
    Ok(tally)
}

/// Whether at least so many steps were watched, and each other thing was met often enough.
fn has_done(done: &Result<Tally, (u64, Wrong)>, steps: u64) -> bool {
    match done {
        Ok(tally) => {
            tally.steps >= steps
                && tally.answers >= steps.saturating_mul(16)
                && tally.images >= steps / 4
                && tally.stops >= 25
                && tally.open == 6
        }
        Err(_) => false,
    }
}

// Four tests, since each has its own time: 20,000 steps in all.
#[test]
fn all_paths_give_the_dated_rows_after_each_step(rt: HostRuntime) {
    let done = all(&rt, rt.alloc(), 0, 50);
    assert!(rt; has_done(&done, 5_000), "{done:?}");
}

#[test]
fn all_paths_give_the_dated_rows_after_more_steps(rt: HostRuntime) {
    let done = all(&rt, rt.alloc(), 50, 100);
    assert!(rt; has_done(&done, 5_000), "{done:?}");
}

#[test]
fn all_paths_give_the_dated_rows_after_still_more_steps(rt: HostRuntime) {
    let done = all(&rt, rt.alloc(), 100, 150);
    assert!(rt; has_done(&done, 5_000), "{done:?}");
}

#[test]
fn all_paths_give_the_dated_rows_after_the_last_steps(rt: HostRuntime) {
    let done = all(&rt, rt.alloc(), 150, 200);
    assert!(rt; has_done(&done, 5_000), "{done:?}");
}
