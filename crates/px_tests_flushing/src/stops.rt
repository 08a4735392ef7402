use crate::pieces::{Parts, flush, opened, put, shown, step, switch};
use px_outside::{Choice, MemDisk};
use px_tests_stops::{Run, all_stop_well, calls_of};
use std::alloc::Global;
use std::test::Fail;

// Two rows, a flush of them while a third comes, and a flush of that one. Counts the rows that were told to be there.
fn run_in(alloc: Global, disk: &mut MemDisk, parts: &mut Parts, told: &mut u64) -> Option<()> {
    put(alloc, disk, parts, 1, 1, 1)?;
    *told = 1;
    put(alloc, disk, parts, 2, 2, 1)?;
    *told = 2;
    switch(disk, parts)?;
    for _ in 0..3 {
        step(disk, parts)?;
    }
    put(alloc, disk, parts, 1, 3, 1)?;
    *told = 3;
    flush(disk, parts)?;
    flush(disk, parts)?;
    Some(())
}

fn run(alloc: Global, disk: &mut MemDisk, told: &mut u64) -> Option<()> {
    let mut parts = opened(alloc, disk)?;
    let done = run_in(alloc, disk, &mut parts, told);
    drop(parts);
    done
}

// How many rows are shown, if it is what stands after so many of them.
fn rows_of(shown: &[u64]) -> u64 {
    if shown.is_empty() {
        0
    } else if shown == [11].as_slice() {
        1
    } else if shown == [11, 22].as_slice() {
        2
    } else if shown == [13, 11, 22].as_slice() {
        3
    } else {
        9
    }
}

// How many rows an image shows.
fn rows_shown(alloc: Global, image: &mut MemDisk) -> Option<u64> {
    let seen = shown(alloc, image)?;
    let rows = rows_of(&seen);
    drop(seen);
    Some(rows)
}

// Whether a flush of what an image has leaves it as it is.
fn goes_on(alloc: Global, image: &mut MemDisk) -> Option<bool> {
    let before = rows_shown(alloc, image)?;
    let mut parts = opened(alloc, image)?;
    let flushed = flush(image, &mut parts).is_some();
    drop(parts);
    let after = rows_shown(alloc, image)?;
    Some(flushed && before == after)
}

/// Three rows and their flushes, which a further flush leaves as they are.
struct Flushes;

impl Run for Flushes {
    fn make(&self, alloc: Global, disk: &mut MemDisk, told: &mut u64) -> Option<()> {
        run(alloc, disk, told)
    }

    fn shown(&self, alloc: Global, image: &mut MemDisk) -> Option<u64> {
        let rows = rows_shown(alloc, image);
        if goes_on(alloc, image)? { rows } else { None }
    }
}

#[test]
fn a_stop_in_a_flush_loses_nothing(rt: HostRuntime) -> Result<(), Fail> {
    let calls = calls_of(rt.alloc(), &Flushes);
    assert!(rt; calls == Some((75, 3)), "{calls:?}");
    assert!(rt; all_stop_well(rt.alloc(), &Flushes, 1, 76, Choice::Old));
    Ok(())
}

#[test]
fn nor_does_one_that_leaves_all(rt: HostRuntime) -> Result<(), Fail> {
    assert!(rt; all_stop_well(rt.alloc(), &Flushes, 1, 76, Choice::New));
    Ok(())
}

#[test]
fn nor_does_one_that_leaves_zeros(rt: HostRuntime) -> Result<(), Fail> {
    assert!(rt; all_stop_well(rt.alloc(), &Flushes, 1, 76, Choice::Fill(0)));
    Ok(())
}

#[test]
fn nor_does_one_that_leaves_ones(rt: HostRuntime) -> Result<(), Fail> {
    assert!(rt; all_stop_well(rt.alloc(), &Flushes, 1, 76, Choice::Fill(1)));
    Ok(())
}

#[test]
fn nor_does_one_that_leaves_full_bytes(rt: HostRuntime) -> Result<(), Fail> {
    assert!(rt; all_stop_well(rt.alloc(), &Flushes, 1, 76, Choice::Fill(255)));
    Ok(())
}
