// The switch of a region's log to another segment.

use crate::pieces::row;
use px_cellbytes::read_cells;
use px_gatelog::{Frame, Rolled};
use px_outside::{Choice, MemDisk};
use px_wal::{Replayed, Wal};
use std::alloc::Global;
use std::process::Abort;
use std::test::Fail;

/// The log of a region that was flushed up to a number.
pub fn replayed(alloc: Global, disk: &mut MemDisk, region: u32, flushed: u64) -> Option<Wal> {
    let Replayed {
        wal,
        store,
        cells: _,
        bytes: _,
    } = Wal::replay(alloc, disk, region, flushed).ok()?;
    drop(store);
    Some(wal)
}

/// Makes the steps of a switch, and answers whether it may be made, where the log was flushed up to a number.
pub fn switched(alloc: Global, disk: &mut MemDisk, region: u32, flushed: u64) -> Option<bool> {
    let mut wal = replayed(alloc, disk, region, flushed)?;
    let done = switch(disk, &mut wal, flushed);
    drop(wal);
    done
}

fn switch(disk: &mut MemDisk, wal: &mut Wal, flushed: u64) -> Option<bool> {
    if !wal.is_open() || !wal.may_switch(flushed) {
        return Some(false);
    }
    for _ in 0..3 {
        if !wal.is_open() {
            return None;
        }
        if wal.switch_step(disk).ok()? == Rolled::Rolled {
            return Some(true);
        }
    }
    None
}

fn open_log(disk: &mut MemDisk, wal: &mut Wal) -> Option<()> {
    for _ in 0..3 {
        if wal.is_open() {
            return Some(());
        }
        let _ = wal.roll_step(disk).ok()?;
    }
    Some(())
}

// Appends a batch of one row, whose stamp is its number.
fn append(alloc: Global, disk: &mut MemDisk, wal: &mut Wal) -> Option<u64> {
    let bytes = row(alloc, b"a\0", wal.last().saturating_add(1), b"b").ok()?;
    if bytes.len() > 1_000 {
        return None;
    }
    let mut frame = Frame::with_room(alloc, 12 + bytes.len() as u64).ok()?;
    let number = match read_cells(alloc, &bytes, 2) {
        Ok(cells) => {
            let number = if wal.is_open() {
                wal.append(disk, &cells, &mut frame).ok()
            } else {
                None
            };
            drop(cells);
            number
        }
        Err(_) => None,
    };
    drop(frame);
    number
}

// Two batches, a switch, a batch, and where the first two were flushed, a switch and a batch more. It counts the batches that were
// told to be there.
fn run(alloc: Global, disk: &mut MemDisk, told: &mut u64, flushed: &mut u64) -> Option<()> {
    let mut wal = replayed(alloc, disk, 1, 0)?;
    let done = run_in(alloc, disk, &mut wal, told, flushed);
    drop(wal);
    done
}

fn run_in(
    alloc: Global,
    disk: &mut MemDisk,
    wal: &mut Wal,
    told: &mut u64,
    flushed: &mut u64,
) -> Option<()> {
    open_log(disk, wal)?;
    *told = append(alloc, disk, wal)?;
    *told = append(alloc, disk, wal)?;
    if switch(disk, wal, 0)? {
        *told = append(alloc, disk, wal)?;
    }
    if switch(disk, wal, 0)? {
        return None;
    }
    *flushed = 2;
    if switch(disk, wal, 2)? {
        *told = append(alloc, disk, wal)?;
    }
    Some(())
}

// The last number, how many cells stand above the flushed number, and up to which number the older segment's batches go.
fn seen(alloc: Global, disk: &mut MemDisk, flushed: u64) -> Option<(u64, u64, u64)> {
    let replayed = Wal::replay(alloc, disk, 1, flushed).ok()?;
    let seen = (replayed.wal.last(), replayed.cells, replayed.wal.older_to());
    drop(replayed);
    Some(seen)
}

#[test]
fn flushed_batches_leave_the_log(rt: HostRuntime) -> Result<(), Fail> {
    let alloc = rt.alloc();
    let mut disk = MemDisk::new(alloc);
    leave_flushed(&rt, alloc, &mut disk);
    drop(disk);
    Ok(())
}

fn leave_flushed(rt: &impl Abort, alloc: Global, disk: &mut MemDisk) {
    let (mut told, mut flushed) = (0, 0);
    assert!(rt; run(alloc, disk, &mut told, &mut flushed).is_some());
    assert!(rt; (told, flushed) == (4, 2));
    assert!(rt; seen(alloc, disk, 2) == Some((4, 4, 3)));
    // Batches 1 and 2 are gone, so that the log isn't right where they weren't flushed.
    assert!(rt; seen(alloc, disk, 0).is_none());
}

// Whether a stop at a call leaves all batches above the flushed number, and the log takes one more.
fn stops_well(alloc: Global, call: u64, choice: Choice) -> bool {
    let (mut told, mut flushed) = (0, 0);
    let mut disk = MemDisk::new(alloc).stop_at(call, choice);
    let whole = run(alloc, &mut disk, &mut told, &mut flushed).is_some();
    let mut image = disk.image();
    let there = seen(alloc, &mut image, flushed);
    let more = goes_on(alloc, &mut image, flushed);
    drop(image);
    match there {
        None => false,
        Some((last, cells, _)) => {
            let next = last.saturating_add(1);
            (last == told || !whole && last == told.saturating_add(1))
                && cells == last.saturating_sub(flushed).saturating_mul(2)
                && more == Some(next)
        }
    }
}

fn goes_on(alloc: Global, image: &mut MemDisk, flushed: u64) -> Option<u64> {
    let mut wal = replayed(alloc, image, 1, flushed)?;
    let number = append_behind(alloc, image, &mut wal, flushed);
    drop(wal);
    number
}

// Switches the log where it may be, and appends.
fn append_behind(alloc: Global, image: &mut MemDisk, wal: &mut Wal, flushed: u64) -> Option<u64> {
    open_log(image, wal)?;
    if wal.older_to() <= flushed {
        let _ = switch(image, wal, flushed)?;
    }
    append(alloc, image, wal)
}

fn calls_of_run(alloc: Global) -> Option<u64> {
    let (mut told, mut flushed) = (0, 0);
    let mut disk = MemDisk::new(alloc);
    let done = run(alloc, &mut disk, &mut told, &mut flushed);
    let calls = disk.calls_made().len() as u64;
    drop(disk);
    done?;
    Some(calls)
}

#[test]
fn a_stop_of_a_switch_leaves_all_above_the_flushed_number(rt: HostRuntime) -> Result<(), Fail> {
    let alloc = rt.alloc();
    let calls = calls_of_run(alloc);
    assert!(rt; calls == Some(40), "{calls:?}");
    for call in 1..41u64 {
        for choice in [
            Choice::Old,
            Choice::New,
            Choice::Fill(0),
            Choice::Fill(1),
            Choice::Fill(255),
        ] {
            assert!(rt; stops_well(alloc, call, choice), "call {call}");
        }
    }
    Ok(())
}
