// The stamps of runs whose clock stands still, jumps back, or lies beyond what a stamp may be.
ghost use Rattle.px_outside.specs.MemDisk.{mem_calls as calls_of, mem_faults as faults_of, mem_first_fault as first_fault_of};
ghost use Rattle.std.specs.Prelude.{◌≡◌, false};

use crate::runs::{bytes_of, words_of};
use px_outside::{Clock, FixedClock, MemDisk, MemSink, MemSource};
use px_program::{Outcome, phoenix};
use px_trail::{Act, Trail};
use std::alloc::{AllocError, Global};
use std::sync::Wait;
use std::thread::Threads;

/// The greatest clock that counts as itself.
const LATEST: u64 = 4_611_686_018_427_387_904;

const TWO: &str = "UPSERT INTO KV VALUES ('a','b'); UPSERT INTO KV VALUES ('c','d')";

/// A clock that tells the first number so many times, and then the second.
#[derive(Drop)]
struct JumpingClock {
    first: u64,
    times: u64,
    second: u64,
}

impl Clock for JumpingClock {
    ghost tells = { false };

    ghost times = { λ clock n. 0 };

    fn now(&mut self) -> u64 {
        if self.times == 0 {
            return self.second;
        }
        self.times -= 1;
        self.first
    }
}

/// What two UPSERTs left: their stamps, and the disk.
#[derive(Drop)]
struct Stamped {
    first: u64,
    second: u64,
    disk: MemDisk,
}

/// The stamp of the nth batch that the trail begins, counted from 0; 0 where there are fewer.
fn stamp_at(trail: &Trail, n: u64) -> u64 {
    let mut left = n;
    for place in 0..trail.len() {
        if let Act::Begun { stamp, .. } = &trail.entry(place).act {
            if left == 0 {
                return *stamp;
            }
            left -= 1;
        }
    }
    0
}

/// The stamps and the disk of an outcome.
fn stamps_of(outcome: Outcome<MemDisk>) -> Stamped {
    let Outcome {
        status: _,
        disk,
        trail,
        late,
        transcripts,
        memory: _,
    } = outcome;
    drop(late);
    drop(transcripts);
    let (first, second) = (stamp_at(&trail, 0), stamp_at(&trail, 1));
    drop(trail);
    Stamped {
        first,
        second,
        disk,
    }
}

/// The words of a run, and the two UPSERTs.
fn given(alloc: Global) -> Result<(Vec<String>, Vec<u8>), AllocError> {
    let words = words_of(alloc, "run folder")?;
    match bytes_of(alloc, TWO) {
        Ok(bytes) => Ok((words, bytes)),
        Err(fault) => {
            drop(words);
            Err(fault)
        }
    }
}

/// A run of the two UPSERTs.
fn run_at<R: Threads + Wait + Sync, C: Clock + Drop + Send>(
    rt: &R,
    alloc: Global,
    disk: MemDisk,
    clock: C,
) -> Result<Stamped, AllocError>
    requires fresh { (calls_of disk ≡ 0) × (faults_of disk ≡ 0) × (first_fault_of disk ≡ 0) }
{
    match given(alloc) {
        Ok((words, bytes)) => {
            let mut input = MemSource::of(bytes);
            let mut printed = MemSink::new(alloc);
            let outcome = phoenix(rt, alloc, &words, disk, clock, &mut input, &mut printed);
            drop(words);
            drop(input);
            drop(printed);
            Ok(stamps_of(outcome))
        }
        Err(fault) => {
            drop(disk);
            drop(clock);
            Err(fault)
        }
    }
}

/// Whether two UPSERTs at this clock have these stamps.
fn are_stamped<R: Threads + Wait + Sync, C: Clock + Drop + Send>(
    rt: &R,
    alloc: Global,
    clock: C,
    first: u64,
    second: u64,
) -> Result<bool, AllocError> {
    let run = run_at(rt, alloc, MemDisk::new(alloc), clock)?;
    let stamped = run.first == first && run.second == second;
    drop(run);
    Ok(stamped)
}

#[test]
fn a_clock_that_stands_still_counts_up(rt: HostRuntime) {
    let alloc = rt.alloc();
    assert!(rt; are_stamped(&rt, alloc, FixedClock(0), 1, 2) == Ok(true));
    assert!(rt; are_stamped(&rt, alloc, FixedClock(7), 7, 8) == Ok(true));
}

#[test]
fn a_clock_that_jumps_is_followed_forward_alone(rt: HostRuntime) {
    let alloc = rt.alloc();
    // The first batch asks the clock twice: its region has no log yet when it begins.
    let (back, forth) = (
        JumpingClock {
            first: 100,
            times: 2,
            second: 5,
        },
        JumpingClock {
            first: 5,
            times: 2,
            second: 100,
        },
    );
    assert!(rt; are_stamped(&rt, alloc, back, 100, 101) == Ok(true));
    assert!(rt; are_stamped(&rt, alloc, forth, 5, 100) == Ok(true));
}

#[test]
fn a_clock_beyond_the_latest_counts_as_it(rt: HostRuntime) {
    let alloc = rt.alloc();
    let past = FixedClock(LATEST + 1);
    assert!(rt; are_stamped(&rt, alloc, FixedClock(LATEST), LATEST, LATEST + 1) == Ok(true));
    assert!(rt; are_stamped(&rt, alloc, past, LATEST, LATEST + 1) == Ok(true));
    assert!(rt; are_stamped(&rt, alloc, FixedClock(u64::MAX), LATEST, LATEST + 1) == Ok(true));
}

/// The stamps of two runs, one after the other on one disk, of which the second's clock is behind.
fn runs_back<R: Threads + Wait + Sync>(rt: &R, alloc: Global) -> Result<bool, AllocError> {
    let first = run_at(rt, alloc, MemDisk::new(alloc), FixedClock(1_000))?;
    let Stamped { disk, .. } = first;
    let second = run_at(rt, alloc, disk.image(), FixedClock(10))?;
    let stamped = second.first == 1_002 && second.second == 1_003;
    drop(second);
    Ok(stamped)
}

#[test]
fn a_clock_that_jumps_back_between_runs_is_passed_over(rt: HostRuntime) {
    assert!(rt; runs_back(&rt, rt.alloc()) == Ok(true));
}
