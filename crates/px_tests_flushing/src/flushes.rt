use crate::pieces::{Parts, flush, newest, opened, put, shown, step, switch};
use px_flushing::FlushStep;
use px_outside::{Disk, MemDisk};
use std::alloc::Global;
use std::process::Abort;
use std::test::Fail;

/// Writes five batches, makes steps of their flush and writes a batch between them. Answers whether there were more steps behind each.
fn write_beside(alloc: Global, disk: &mut MemDisk, parts: &mut Parts) -> Option<bool> {
    for row in 0..5u8 {
        put(alloc, disk, parts, row, 1, 9_000)?;
    }
    switch(disk, parts)?;
    let mut more = true;
    // The cells are taken, the file is begun, and a block of four cells is written.
    for _ in 0..3 {
        more = step(disk, parts)? == FlushStep::More && more;
    }
    put(alloc, disk, parts, 2, 2, 1)?;
    // The other block, no further one, index and footer, and the length.
    for _ in 0..4 {
        more = step(disk, parts)? == FlushStep::More && more;
    }
    Some(more)
}

#[test]
fn a_flush_goes_on_beside_batches(rt: HostRuntime) -> Result<(), Fail> {
    let mut disk = MemDisk::new(rt.alloc());
    let Some(mut parts) = opened(rt.alloc(), &mut disk) else {
        panic!(rt; "not opened")
    };
    let flushed = flush_beside(&rt, rt.alloc(), &mut disk, &mut parts);
    drop(parts);
    drop(disk);
    flushed
}

fn flush_beside(
    rt: &impl Abort,
    alloc: Global,
    disk: &mut MemDisk,
    parts: &mut Parts,
) -> Result<(), Fail> {
    assert!(rt; step(disk, parts) == Some(FlushStep::Done));
    assert!(rt; write_beside(alloc, disk, parts) == Some(true));
    let named = FlushStep::Named {
        cells: 5,
        bytes: 45_075,
    };
    assert!(rt; step(disk, parts) == Some(named));
    let first = newest(parts).ok_or("no file")?;
    assert!(rt; first.local == 4 && first.cells == 5);
    assert!(rt; disk.len(4_294_967_300).ok() == Some(first.len));
    assert!(rt; parts.manifest.snapshot().flushed == 5 && parts.manifest.snapshot().stamp == 1);
    let seen = shown(alloc, disk).ok_or("not shown")?;
    assert!(rt; seen.as_slice() == [1, 11, 22, 21, 31, 41].as_slice());
    drop(seen);
    // The batch that came meanwhile goes to a second file, which is read before the first.
    assert!(rt; flush(disk, parts) == Some(7));
    let second = newest(parts).ok_or("no file")?;
    assert!(rt; parts.flushing.files().len() == 2 && second.local == 5);
    assert!(rt; step(disk, parts) == Some(FlushStep::Done));
    let seen = shown(alloc, disk).ok_or("not shown")?;
    assert!(rt; seen.as_slice() == [1, 11, 22, 21, 31, 41].as_slice());
    Ok(())
}

#[test]
fn what_is_written_last_is_read(rt: HostRuntime) -> Result<(), Fail> {
    let mut disk = MemDisk::new(rt.alloc());
    let written = write_twice(&rt, rt.alloc(), &mut disk);
    drop(disk);
    written
}

// What is written later stands before what a file has of the same place.
fn write_twice(rt: &impl Abort, alloc: Global, disk: &mut MemDisk) -> Result<(), Fail> {
    assert!(rt; flush_two(alloc, disk) == Some((7, 7)));
    let seen = shown(alloc, disk).ok_or("not shown")?;
    assert!(rt; seen.as_slice() == [11].as_slice());
    drop(seen);
    let parts = opened(alloc, disk).ok_or("not opened")?;
    assert!(rt; parts.flushing.files().len() == 2 && parts.wal.last() == 2);
    drop(parts);
    Ok(())
}

// Two puts at one place, each flushed: how many steps each flush took.
fn flush_two(alloc: Global, disk: &mut MemDisk) -> Option<(u64, u64)> {
    let mut parts = opened(alloc, disk)?;
    let steps = flush_two_in(alloc, disk, &mut parts);
    drop(parts);
    steps
}

fn flush_two_in(alloc: Global, disk: &mut MemDisk, parts: &mut Parts) -> Option<(u64, u64)> {
    put(alloc, disk, parts, 1, 1, 1)?;
    let first = flush(disk, parts)?;
    put(alloc, disk, parts, 1, 1, 2)?;
    let second = flush(disk, parts)?;
    Some((first, second))
}
