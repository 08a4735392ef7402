// The courses of fixed seeds.
use crate::counts::{NOTHING, Tally};
use crate::course::{Making, Wrong, met};
use px_tests_runs::dice::Dice;
use std::alloc::Global;
use std::sync::Wait;
use std::thread::Threads;

const MAKING: Making = Making {
    rows: 72,
    runs: 3,
    turns: 320,
    calls: 900,
    points: 1,
};

/// What each course meets at least, of which most meet more. A compaction of four files merges three of them into the fourth.
const LEAST: Tally = Tally {
    runs: 3,
    stops: 1,
    made: 2,
    rebuilt: 3,
    built: 5,
    begun: 11,
    wrote: 8,
    flushed: 2,
    merged: 3,
    dated: 7,
    ..NOTHING
};

/// What was met in the course of a seed, or what was wrong in it.
fn course<R: Threads + Wait + Sync>(rt: &R, alloc: Global, seed: u64) -> Result<Tally, Wrong> {
    let mut dice = Dice::of(seed);
    met(rt, alloc, &mut dice, MAKING)
}

/// Whether all was right, each build was of two chunks, and each thing was met often enough.
fn has_met(met: &Result<Tally, Wrong>, least: Tally) -> bool {
    match met {
        Ok(tally) => tally.has(&least) && tally.chunks / 2 >= tally.built,
        Err(_) => false,
    }
}

#[test]
fn the_indexes_of_course_0_are_exact_from_their_births_on(rt: HostRuntime) {
    let met = course(&rt, rt.alloc(), 0);
    let least = Tally {
        stops: 1,
        unopened: 1,
        rebuilt: 8,
        disabled: 2,
        built: 9,
        cut: 1,
        begun: 20,
        wrote: 15,
        flushed: 6,
        answers: 4,
        dated: 20,
        ..LEAST
    };
    assert!(rt; has_met(&met, least), "{met:?}");
}

#[test]
fn the_indexes_of_course_1_are_exact_from_their_births_on(rt: HostRuntime) {
    let met = course(&rt, rt.alloc(), 1);
    let least = Tally {
        stops: 3,
        made: 3,
        beneath: 2,
        rebuilt: 4,
        disabled: 2,
        dropped: 1,
        built: 6,
        cut: 1,
        begun: 15,
        wrote: 12,
        flushed: 4,
        dated: 14,
        ..LEAST
    };
    assert!(rt; has_met(&met, least), "{met:?}");
}

#[test]
fn the_indexes_of_course_2_are_exact_from_their_births_on(rt: HostRuntime) {
    let met = course(&rt, rt.alloc(), 2);
    let least = Tally {
        made: 4,
        rebuilt: 5,
        disabled: 2,
        dropped: 3,
        built: 10,
        begun: 15,
        flushed: 6,
        merged: 6,
        answers: 4,
        ..LEAST
    };
    assert!(rt; has_met(&met, least), "{met:?}");
}

#[test]
fn the_indexes_of_course_3_are_exact_from_their_births_on(rt: HostRuntime) {
    let met = course(&rt, rt.alloc(), 3);
    let least = Tally {
        stops: 2,
        made: 3,
        beneath: 1,
        disabled: 2,
        dropped: 1,
        cut: 1,
        begun: 12,
        answers: 7,
        dated: 25,
        ..LEAST
    };
    assert!(rt; has_met(&met, least), "{met:?}");
}

#[test]
fn the_indexes_of_course_5_are_exact_from_their_births_on(rt: HostRuntime) {
    let met = course(&rt, rt.alloc(), 5);
    let least = Tally {
        stops: 2,
        rebuilt: 5,
        disabled: 3,
        built: 5,
        cut: 2,
        flushed: 4,
        answers: 2,
        dated: 12,
        ..LEAST
    };
    assert!(rt; has_met(&met, least), "{met:?}");
}

#[test]
fn the_indexes_of_course_6_are_exact_from_their_births_on(rt: HostRuntime) {
    let met = course(&rt, rt.alloc(), 6);
    let least = Tally {
        stops: 2,
        made: 3,
        beneath: 2,
        disabled: 2,
        dropped: 1,
        begun: 17,
        wrote: 15,
        flushed: 4,
        answers: 7,
        dated: 28,
        ..LEAST
    };
    assert!(rt; has_met(&met, least), "{met:?}");
}

#[test]
fn the_indexes_of_course_7_are_exact_from_their_births_on(rt: HostRuntime) {
    let met = course(&rt, rt.alloc(), 7);
    let least = Tally {
        stops: 2,
        made: 4,
        beneath: 1,
        rebuilt: 4,
        dropped: 2,
        built: 7,
        cut: 1,
        begun: 15,
        wrote: 14,
        flushed: 3,
        answers: 8,
        dated: 20,
        ..LEAST
    };
    assert!(rt; has_met(&met, least), "{met:?}");
}

#[test]
fn the_indexes_of_course_8_are_exact_from_their_births_on(rt: HostRuntime) {
    let met = course(&rt, rt.alloc(), 8);
    let least = Tally {
        stops: 2,
        made: 3,
        beneath: 1,
        rebuilt: 5,
        disabled: 2,
        dropped: 1,
        cut: 2,
        flushed: 4,
        answers: 5,
        dated: 20,
        ..LEAST
    };
    assert!(rt; has_met(&met, least), "{met:?}");
}
