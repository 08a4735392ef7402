//! Turns worked by hand.
use px_turns::{Turns, greatest_of, next_stamp};
use px_values::Key;
use std::alloc::{AllocError, Global};

fn key(alloc: Global, byte: u8) -> Result<Key, AllocError> {
    let bytes = vec![in alloc; byte]?;
    Ok(Key::of(bytes))
}

/// The stamp of the batch that keeps another from writing, or 0.
fn blocker(turns: &Turns, stamp: u64, keys: &[Key]) -> u64 {
    match turns.may_write(stamp, keys) {
        Ok(()) => 0,
        Err(blocker) => blocker.stamp,
    }
}

#[test]
fn two_batches_on_one_row(rt: HostRuntime) -> Result<(), AllocError> {
    let alloc = rt.alloc();
    let first = [key(alloc, 1)?];
    let second = [key(alloc, 2)?];
    let both = [key(alloc, 1)?, key(alloc, 2)?];
    let mut turns = Turns::new(alloc, 4, 0);
    let begun = turns.last() < 5 && turns.begin(5, &first).is_ok();
    assert!(rt; begun);
    let begun = turns.last() < 6 && turns.begin(6, &both).is_ok();
    assert!(rt; begun);
    assert_eq!(rt; blocker(&turns, 5, &first), 0);
    assert_eq!(rt; blocker(&turns, 6, &both), 5);
    assert_eq!(rt; blocker(&turns, 6, &second), 0);
    assert!(rt; turns.undecided_to(4).is_none());
    assert_eq!(rt; turns.undecided_to(5).unwrap_or(0), 5);
    turns.write(&first);
    turns.decide(5);
    assert_eq!(rt; blocker(&turns, 6, &both), 0);
    assert_eq!(rt; turns.undecided_to(9).unwrap_or(0), 6);
    Ok(())
}

#[test]
fn horizons_and_stamps(rt: HostRuntime) -> Result<(), AllocError> {
    let alloc = rt.alloc();
    let keys = [key(alloc, 1)?];
    let mut turns = Turns::new(alloc, 10, 3);
    assert_eq!(rt; turns.raise_to(0), 10);
    assert_eq!(rt; turns.raise_to(4), 6);
    assert_eq!(rt; turns.raise_to(20), 3);
    assert!(rt; turns.open_point(8).is_ok());
    assert_eq!(rt; turns.raise_to(0), 8);
    let begun = turns.last() < 11 && turns.begin(11, &keys).is_ok();
    assert!(rt; begun);
    turns.close_point(8);
    assert_eq!(rt; turns.raise_to(0), 10);
    turns.end(11);
    assert_eq!(rt; turns.raise_to(0), 11);
    turns.raise(11);
    assert_eq!(rt; turns.horizon(), 11);
    assert_eq!(rt; next_stamp(11, 5).unwrap_or(0), 12);
    assert_eq!(rt; next_stamp(11, 50).unwrap_or(0), 50);
    assert_eq!(rt;
        next_stamp(11, u64::MAX).unwrap_or(0),
        4_611_686_018_427_387_904
    );
    assert!(rt; next_stamp(9_223_372_036_854_775_807, 5).is_none());
    assert_eq!(rt; greatest_of(&[3, 9, 4]), 9);
    Ok(())
}
