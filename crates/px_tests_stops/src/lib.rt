//! Runs on a disk in memory that are stopped at one of their calls, and what the images that are left show.
//!
//! A `Run` writes one thing after another, and says how many of them an image shows. What was told to be there has to be shown, and the
//! thing that was under way whole or not at all.
#![tactic(auto)]

use px_outside::{Choice, MemDisk};
use std::alloc::Global;

/// What a stop may leave of the bytes that are open.
pub const CHOICES: [Choice; 5] = [
    Choice::Old,
    Choice::New,
    Choice::Fill(0),
    Choice::Fill(1),
    Choice::Fill(255),
];

/// A run that writes one thing after another.
pub trait Run {
    /// Makes the run, and counts the things that were told to be there.
    fn make(&self, alloc: Global, disk: &mut MemDisk, told: &mut u64) -> Option<()>;

    /// How many of them an image shows, if it goes on from there as it should.
    fn shown(&self, alloc: Global, image: &mut MemDisk) -> Option<u64>;
}

/// What a stop left.
#[derive(Clone, Copy)]
pub struct Stopped {
    /// How many things were told to be there by then.
    pub told: u64,
    /// The run came to its end.
    pub whole: bool,
    /// How many things the image shows, if it goes on from there as it should.
    pub shown: Option<u64>,
}

impl Stopped {
    /// Whether those that were told are there, and of the one that was under way all or nothing.
    pub fn is_well(&self) -> bool {
        match self.shown {
            Some(shown) => {
                shown == self.told || !self.whole && shown == self.told.saturating_add(1)
            }
            None => false,
        }
    }
}

/// What a stop at a call of the run leaves.
pub fn stop<R: Run>(alloc: Global, run: &R, call: u64, choice: Choice) -> Stopped {
    let mut told = 0;
    let mut disk = MemDisk::new(alloc).stop_at(call, choice);
    let whole = run.make(alloc, &mut disk, &mut told).is_some();
    let mut image = disk.image();
    let shown = run.shown(alloc, &mut image);
    drop(image);
    Stopped { told, whole, shown }
}

/// Whether a stop at a call of the run leaves what it should.
pub fn stops_well<R: Run>(alloc: Global, run: &R, call: u64, choice: Choice) -> bool {
    stop(alloc, run, call, choice).is_well()
}

/// Whether a stop at each of these calls of the run leaves what it should.
pub fn all_stop_well<R: Run>(
    alloc: Global,
    run: &R,
    first: u64,
    behind: u64,
    choice: Choice,
) -> bool {
    for call in first..behind {
        if !stops_well(alloc, run, call, choice) {
            return false;
        }
    }
    true
}

/// How many calls the run makes, if it comes to its end, and how many things are told to be there then.
pub fn calls_of<R: Run>(alloc: Global, run: &R) -> Option<(u64, u64)> {
    let mut told = 0;
    let mut disk = MemDisk::new(alloc);
    let done = run.make(alloc, &mut disk, &mut told);
    let calls = disk.calls_made().len() as u64;
    drop(disk);
    done?;
    Some((calls, told))
}
