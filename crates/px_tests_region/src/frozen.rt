use crate::pieces::{opened, put_row};
use crate::switch::{replayed, switched};
use px_frozen::{Frozen, freeze};
use px_gatelog::StartFault;
use px_outside::{Disk, MemDisk};
use px_wal::Wal;
use std::alloc::Global;
use std::process::Abort;
use std::test::Fail;

// Writes a row twice, as two batches.
fn put_two(alloc: Global, disk: &mut MemDisk) -> Option<()> {
    let mut region = opened(alloc, disk, 1)?;
    let first = put_row(alloc, disk, &mut region, b"a\0", 1, b"b");
    let second = put_row(alloc, disk, &mut region, b"a\0", 2, b"c");
    drop(region);
    first?;
    second
}

// What a flush writes of the segment that was left, where it has a batch above the flushed number.
fn frozen(alloc: Global, disk: &mut MemDisk, flushed: u64) -> Option<Frozen> {
    let wal = replayed(alloc, disk, 1, flushed)?;
    let frozen = frozen_of(alloc, disk, flushed, &wal);
    drop(wal);
    frozen
}

fn frozen_of(alloc: Global, disk: &mut MemDisk, flushed: u64, wal: &Wal) -> Option<Frozen> {
    if wal.older_to() <= flushed {
        return None;
    }
    freeze(alloc, disk, 1, flushed, wal).ok()
}

// The number, the counts, and how many cells are read.
fn told(alloc: Global, disk: &mut MemDisk, flushed: u64) -> Option<(u64, u64, u64, usize)> {
    let frozen = frozen(alloc, disk, flushed)?;
    let told = (
        frozen.upto(),
        frozen.count(),
        frozen.bytes(),
        frozen.cells().len(),
    );
    drop(frozen);
    Some(told)
}

#[test]
fn the_segment_that_was_left_is_frozen(rt: HostRuntime) -> Result<(), Fail> {
    let alloc = rt.alloc();
    let mut disk = MemDisk::new(alloc);
    let done = freeze_left(&rt, alloc, &mut disk);
    drop(disk);
    done
}

fn freeze_left(rt: &impl Abort, alloc: Global, disk: &mut MemDisk) -> Result<(), Fail> {
    assert!(rt; put_two(alloc, disk).is_some());
    assert!(rt; told(alloc, disk, 0).is_none());
    assert!(rt; switched(alloc, disk, 1, 0) == Some(true));
    assert!(rt; put_two(alloc, disk).is_some());
    assert!(rt; told(alloc, disk, 0) == Some((2, 4, 66, 4)));
    assert!(rt; told(alloc, disk, 1) == Some((2, 2, 33, 2)));
    assert!(rt; told(alloc, disk, 2).is_none());
    let newest = frozen(alloc, disk, 0).ok_or("not frozen")?;
    let stamps = match newest.cells() {
        [first, second, ..] => [first.stamp(), second.stamp()],
        _ => [0, 0],
    };
    drop(newest);
    assert!(rt; stamps == [2, 1]);
    Ok(())
}

// It is read by two calls, and nothing is brought to the disk.
#[test]
fn a_segment_is_read_again_by_two_calls(rt: HostRuntime) -> Result<(), Fail> {
    let alloc = rt.alloc();
    let mut disk = MemDisk::new(alloc);
    let done = freeze_switched(&rt, alloc, &mut disk);
    drop(disk);
    done
}

fn freeze_switched(rt: &impl Abort, alloc: Global, disk: &mut MemDisk) -> Result<(), Fail> {
    assert!(rt; put_two(alloc, disk).is_some());
    assert!(rt; switched(alloc, disk, 1, 0) == Some(true));
    let wal = replayed(alloc, disk, 1, 0).ok_or("not read")?;
    let done = freeze_by_two_calls(rt, alloc, disk, &wal);
    drop(wal);
    done
}

fn freeze_by_two_calls(
    rt: &impl Abort,
    alloc: Global,
    disk: &mut MemDisk,
    wal: &Wal,
) -> Result<(), Fail> {
    if wal.older_to() == 0 {
        return Err("not switched".into());
    }
    let before = disk.calls_made().len();
    let frozen = freeze(alloc, disk, 1, 0, wal).ok().ok_or("not frozen")?;
    drop(frozen);
    assert!(rt; disk.calls_made().len().saturating_sub(before) == 2);
    Ok(())
}

// A log that was changed meanwhile is told as such.
#[test]
fn a_changed_log_is_not_frozen(rt: HostRuntime) -> Result<(), Fail> {
    let alloc = rt.alloc();
    let mut disk = MemDisk::new(alloc);
    let done = freeze_changed(&rt, alloc, &mut disk);
    drop(disk);
    done
}

fn freeze_changed(rt: &impl Abort, alloc: Global, disk: &mut MemDisk) -> Result<(), Fail> {
    assert!(rt; put_two(alloc, disk).is_some());
    assert!(rt; switched(alloc, disk, 1, 0) == Some(true));
    let wal = replayed(alloc, disk, 1, 0).ok_or("not read")?;
    let done = freeze_damaged(rt, alloc, disk, &wal);
    drop(wal);
    done
}

fn freeze_damaged(
    rt: &impl Abort,
    alloc: Global,
    disk: &mut MemDisk,
    wal: &Wal,
) -> Result<(), Fail> {
    if wal.older_to() == 0 {
        return Err("not switched".into());
    }
    assert!(rt; disk.write(4_294_967_296, 17, &[7]).is_ok());
    let damaged = match freeze(alloc, disk, 1, 0, wal) {
        Err(StartFault::Damaged { file, place }) => Some((file, place)),
        Err(_) => None,
        Ok(frozen) => {
            drop(frozen);
            None
        }
    };
    assert!(rt; damaged == Some((4_294_967_296, 17)));
    Ok(())
}
