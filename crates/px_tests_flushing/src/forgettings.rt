use crate::pieces::{Parts, begin_forgetting, flush, forget, mark, opened, put, shown, step};
use px_outside::{Choice, MemDisk};
use std::alloc::Global;
use std::process::Abort;
use std::test::Fail;

// Two rows in three files: the first has puts of the stamps 1, 2 and 4, the second a put of stamp 1 and a marker of stamp 3 that hides it.
fn fill(alloc: Global, disk: &mut MemDisk, parts: &mut Parts) -> Option<()> {
    put(alloc, disk, parts, 1, 1, 1)?;
    put(alloc, disk, parts, 2, 1, 1)?;
    flush(disk, parts)?;
    put(alloc, disk, parts, 1, 2, 1)?;
    mark(alloc, disk, parts, 2, 3)?;
    flush(disk, parts)?;
    put(alloc, disk, parts, 1, 4, 1)?;
    flush(disk, parts)?;
    Some(())
}

#[test]
fn what_no_point_sees_is_forgotten(rt: HostRuntime) -> Result<(), Fail> {
    let mut disk = MemDisk::new(rt.alloc());
    let Some(mut parts) = opened(rt.alloc(), &mut disk) else {
        panic!(rt; "not opened")
    };
    let forgotten = forget_below(&rt, rt.alloc(), &mut disk, &mut parts);
    drop(parts);
    drop(disk);
    forgotten
}

fn forget_below(
    rt: &impl Abort,
    alloc: Global,
    disk: &mut MemDisk,
    parts: &mut Parts,
) -> Result<(), Fail> {
    fill(alloc, disk, parts).ok_or("not filled")?;
    let seen = shown(alloc, disk).ok_or("not shown")?;
    assert!(rt; seen.as_slice() == [14, 12, 11, 23, 21].as_slice());
    drop(seen);
    begin_forgetting(parts, 3).ok_or("not begun")?;
    for _ in 0..4 {
        step(disk, parts).ok_or("no step")?;
    }
    put(alloc, disk, parts, 1, 5, 1).ok_or("not put")?;
    assert!(rt; forget(disk, parts) == Some(3));
    assert!(rt;
        parts.manifest.snapshot().horizon == 3 && parts.manifest.snapshot().files.len() == 1
    );
    let seen = shown(alloc, disk).ok_or("not shown")?;
    assert!(rt; seen.as_slice() == [15, 14, 12].as_slice());
    drop(seen);
    forget_again(rt, alloc, disk, parts)
}

// A later horizon keeps the newest alone, and an earlier one isn't named any more.
fn forget_again(
    rt: &impl Abort,
    alloc: Global,
    disk: &mut MemDisk,
    parts: &mut Parts,
) -> Result<(), Fail> {
    flush(disk, parts).ok_or("not flushed")?;
    begin_forgetting(parts, 5).ok_or("not begun")?;
    assert!(rt; forget(disk, parts) == Some(5));
    let seen = shown(alloc, disk).ok_or("not shown")?;
    assert!(rt; seen.as_slice() == [15].as_slice());
    drop(seen);
    begin_forgetting(parts, 4).ok_or("not begun")?;
    assert!(rt; forget(disk, parts).is_none());
    Ok(())
}

#[test]
fn a_file_may_be_empty(rt: HostRuntime) -> Result<(), Fail> {
    let mut disk = MemDisk::new(rt.alloc());
    let Some(mut parts) = opened(rt.alloc(), &mut disk) else {
        panic!(rt; "not opened")
    };
    let forgotten = forget_everything(&rt, rt.alloc(), &mut disk, &mut parts);
    drop(parts);
    drop(disk);
    forgotten
}

// A region of which nothing is seen keeps a file without a cell.
fn forget_everything(
    rt: &impl Abort,
    alloc: Global,
    disk: &mut MemDisk,
    parts: &mut Parts,
) -> Result<(), Fail> {
    put(alloc, disk, parts, 1, 1, 1).ok_or("not put")?;
    mark(alloc, disk, parts, 1, 2).ok_or("not put")?;
    flush(disk, parts).ok_or("not flushed")?;
    begin_forgetting(parts, 2).ok_or("not begun")?;
    assert!(rt; forget(disk, parts) == Some(2));
    let seen = shown(alloc, disk).ok_or("not shown")?;
    assert!(rt; seen.is_empty());
    drop(seen);
    put(alloc, disk, parts, 1, 3, 1).ok_or("not put")?;
    flush(disk, parts).ok_or("not flushed")?;
    let seen = shown(alloc, disk).ok_or("not shown")?;
    assert!(rt; seen.as_slice() == [13].as_slice());
    Ok(())
}

// ---- stops

fn run(alloc: Global, disk: &mut MemDisk) -> Option<()> {
    let mut parts = opened(alloc, disk)?;
    let filled = fill(alloc, disk, &mut parts);
    let begun = begin_forgetting(&mut parts, 3);
    let forgotten = forget(disk, &mut parts);
    drop(parts);
    filled?;
    begun?;
    forgotten?;
    Some(())
}

fn fill_in(alloc: Global, disk: &mut MemDisk) -> Option<()> {
    let mut parts = opened(alloc, disk)?;
    let filled = fill(alloc, disk, &mut parts);
    drop(parts);
    filled
}

// How many calls it takes until the files are there, and until the end.
fn calls_of_run(alloc: Global) -> Option<(u64, u64)> {
    let mut disk = MemDisk::new(alloc);
    let filled = fill_in(alloc, &mut disk);
    let first = disk.calls_made().len() as u64;
    drop(disk);
    filled?;
    let mut disk = MemDisk::new(alloc);
    let done = run(alloc, &mut disk);
    let calls = disk.calls_made().len() as u64;
    drop(disk);
    done?;
    Some((first, calls))
}

// The horizon that an image names, and whether it has all cells, or those that are kept.
fn found(alloc: Global, image: &mut MemDisk) -> Option<(u64, bool)> {
    let parts = opened(alloc, image)?;
    let horizon = parts.manifest.snapshot().horizon;
    drop(parts);
    let seen = shown(alloc, image)?;
    let all = seen.as_slice() == [14, 12, 11, 23, 21].as_slice();
    let kept = seen.as_slice() == [14, 12].as_slice();
    drop(seen);
    if all || kept {
        Some((horizon, all))
    } else {
        None
    }
}

// A stop at a call leaves all cells with the old horizon, or those that are kept with theirs.
fn stops_well(alloc: Global, call: u64, choice: Choice) -> bool {
    let mut disk = MemDisk::new(alloc).stop_at(call, choice);
    let whole = run(alloc, &mut disk).is_some();
    let mut image = disk.image();
    let found = found(alloc, &mut image);
    drop(image);
    match found {
        Some((horizon, true)) => horizon == 0 && !whole,
        Some((horizon, false)) => horizon == 3,
        None => false,
    }
}

fn each_stops_well(alloc: Global, choice: Choice) -> bool {
    let Some((first, calls)) = calls_of_run(alloc) else {
        return false;
    };
    for call in first.saturating_add(1)..calls.saturating_add(2) {
        if !stops_well(alloc, call, choice) {
            return false;
        }
    }
    first < calls
}

#[test]
fn a_stop_leaves_one_or_the_other(rt: HostRuntime) -> Result<(), Fail> {
    assert!(rt; each_stops_well(rt.alloc(), Choice::Old));
    assert!(rt; each_stops_well(rt.alloc(), Choice::New));
    assert!(rt; each_stops_well(rt.alloc(), Choice::Fill(1)));
    Ok(())
}
