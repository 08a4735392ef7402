use crate::pieces::{Parts, begin, flush, mark, merge, newest, opened, put, shown, step};
use px_flushing::FlushStep;
use px_outside::{Choice, Disk, MemDisk};
use px_tests_stops::{Run, all_stop_well, calls_of};
use std::alloc::Global;
use std::process::Abort;
use std::test::Fail;

// The file of two puts at one column, of stamps 1 and 2, which two flushes wrote: the later stamp stands first.
const MERGED: [u8; 91] = [
    80, 72, 88, 70, 73, 76, 48, 49, // PHXFIL01
    0, 0, 0, 2, // two cells
    0, 1, 1, 1, 0, 0, 0, 0, 0, 0, 0, 2, 4, 0, 1, 1, // key 01, qualifier 1, stamp 2, put, value 01
    0, 1, 1, 1, 0, 0, 0, 0, 0, 0, 0, 1, 4, 0, 1, 1, // the same of stamp 1
    0, 0, 0, 0, 0, 0, 0, 8, 0, 0, 0, 36, 0, 1, 1, // the block at 8 has 36 bytes and begins with key 01
    0, 0, 0, 0, 0, 0, 0, 44, 0, 0, 0, 1, // the index at 44, of one block
    0, 0, 0, 0, 0, 0, 0, 2, 0, 0, 0, 0, 0, 0, 0, 2, // two cells, the greatest stamp is 2
    80, 88, 70, 49, // PXF1
];

#[test]
fn a_merged_file_has_these_bytes(rt: HostRuntime) -> Result<(), Fail> {
    let mut disk = MemDisk::new(rt.alloc());
    let Some(mut parts) = opened(rt.alloc(), &mut disk) else {
        panic!(rt; "not opened")
    };
    let merged = merge_two(&rt, rt.alloc(), &mut disk, &mut parts);
    drop(parts);
    drop(disk);
    merged
}

// Two puts in two files, their merging, and a flush behind it.
fn merge_two(
    rt: &impl Abort,
    alloc: Global,
    disk: &mut MemDisk,
    parts: &mut Parts,
) -> Result<(), Fail> {
    put(alloc, disk, parts, 1, 1, 1).ok_or("not put")?;
    flush(disk, parts).ok_or("not flushed")?;
    put(alloc, disk, parts, 1, 2, 1).ok_or("not put")?;
    flush(disk, parts).ok_or("not flushed")?;
    begin(parts, 2).ok_or("not begun")?;
    let steps = merge(disk, parts);
    assert!(rt; steps == Some(11), "{steps:?}");
    is_as_written(rt, disk, parts)?;
    // The next flush takes the number of a file that isn't named any more.
    put(alloc, disk, parts, 2, 3, 1).ok_or("not put")?;
    flush(disk, parts).ok_or("not flushed")?;
    let file = newest(parts).ok_or("no file")?;
    assert!(rt; file.local == 4);
    let seen = shown(alloc, disk).ok_or("not shown")?;
    assert!(rt; seen.as_slice() == [12, 11, 23].as_slice());
    Ok(())
}

// The merged file has its bytes, and is named alone, by a manifest that counts one compaction.
fn is_as_written(rt: &impl Abort, disk: &mut MemDisk, parts: &Parts) -> Result<(), Fail> {
    let file = newest(parts).ok_or("no file")?;
    assert!(rt; file.local == 6 && file.len == 91 && file.cells == 2);
    let mut bytes = [0u8; 91];
    let read = disk.read(4_294_967_302, 0, &mut bytes).ok();
    assert!(rt; read == Some(91) && bytes.as_slice() == MERGED.as_slice());
    assert!(rt; disk.len(4_294_967_302).ok() == Some(91));
    assert!(rt; parts.manifest.snapshot().files.len() == 1 && parts.flushing.files().len() == 1);
    assert!(rt;
        parts.manifest.snapshot().compactions == 1 && parts.manifest.snapshot().flushed == 2
    );
    Ok(())
}

#[test]
fn the_newest_files_are_merged(rt: HostRuntime) -> Result<(), Fail> {
    let mut disk = MemDisk::new(rt.alloc());
    let Some(mut parts) = opened(rt.alloc(), &mut disk) else {
        panic!(rt; "not opened")
    };
    let merged = merge_newest(&rt, rt.alloc(), &mut disk, &mut parts);
    drop(parts);
    drop(disk);
    merged
}

// Of several blocks, of the newest files alone, beside a batch: markers stay, and what is hidden is gone.
fn merge_newest(
    rt: &impl Abort,
    alloc: Global,
    disk: &mut MemDisk,
    parts: &mut Parts,
) -> Result<(), Fail> {
    put(alloc, disk, parts, 1, 1, 1).ok_or("not put")?;
    flush(disk, parts).ok_or("not flushed")?;
    for row in 0..5u8 {
        put(alloc, disk, parts, row, 2, 9_000).ok_or("not put")?;
    }
    flush(disk, parts).ok_or("not flushed")?;
    mark(alloc, disk, parts, 2, 3).ok_or("not put")?;
    put(alloc, disk, parts, 3, 2, 1).ok_or("not put")?;
    flush(disk, parts).ok_or("not flushed")?;
    begin(parts, 2).ok_or("not begun")?;
    for _ in 0..4 {
        assert!(rt; step(disk, parts) == Some(FlushStep::More));
    }
    put(alloc, disk, parts, 4, 4, 1).ok_or("not put")?;
    merge(disk, parts).ok_or("not merged")?;
    let file = newest(parts).ok_or("no file")?;
    assert!(rt; parts.flushing.files().len() == 2 && file.local == 7 && file.cells == 6);
    let seen = shown(alloc, disk).ok_or("not shown")?;
    assert!(rt; seen.as_slice() == [2, 12, 11, 23, 22, 32, 44, 42].as_slice());
    drop(seen);
    merge_all(rt, alloc, disk, parts)
}

// A compaction of all, and of more files than there are, of which nothing comes.
fn merge_all(
    rt: &impl Abort,
    alloc: Global,
    disk: &mut MemDisk,
    parts: &mut Parts,
) -> Result<(), Fail> {
    begin(parts, 2).ok_or("not begun")?;
    merge(disk, parts).ok_or("not merged")?;
    begin(parts, 2).ok_or("not begun")?;
    assert!(rt; parts.flushing.is_idle());
    flush(disk, parts).ok_or("not flushed")?;
    let seen = shown(alloc, disk).ok_or("not shown")?;
    assert!(rt; seen.as_slice() == [2, 12, 11, 23, 22, 32, 44, 42].as_slice());
    Ok(())
}

// ---- stops

// Four rows in four files. Counts the rows that were told to be there.
fn fill(alloc: Global, disk: &mut MemDisk, parts: &mut Parts, told: &mut u64) -> Option<()> {
    for stamp in 1..5u8 {
        put(alloc, disk, parts, 1, stamp, 1)?;
        *told = u64::from(stamp);
        flush(disk, parts)?;
    }
    Some(())
}

// A compaction of these while a fifth row comes, and a flush of that one.
fn run_in(alloc: Global, disk: &mut MemDisk, parts: &mut Parts, told: &mut u64) -> Option<()> {
    fill(alloc, disk, parts, told)?;
    begin(parts, 4)?;
    for _ in 0..10 {
        step(disk, parts)?;
    }
    put(alloc, disk, parts, 1, 5, 1)?;
    *told = 5;
    merge(disk, parts)?;
    flush(disk, parts)?;
    Some(())
}

fn run(alloc: Global, disk: &mut MemDisk, told: &mut u64) -> Option<()> {
    let mut parts = opened(alloc, disk)?;
    let done = run_in(alloc, disk, &mut parts, told);
    drop(parts);
    done
}

// How many rows an image shows, if it is what stands after so many of them.
fn rows_shown(alloc: Global, image: &mut MemDisk) -> Option<u64> {
    let seen = shown(alloc, image)?;
    let all: [u64; 5] = [15, 14, 13, 12, 11];
    let count = seen.len();
    let right = count <= 5 && seen.as_slice() == &all[5 - count..];
    drop(seen);
    if right { Some(count as u64) } else { None }
}

// Whether all files that are named could be merged, and the log flushed.
fn merges_all(image: &mut MemDisk, parts: &mut Parts) -> bool {
    let count = parts.flushing.files().len();
    let merged = count == 0 || begin(parts, count).is_some() && merge(image, parts).is_some();
    let flushed = flush(image, parts).is_some();
    merged && flushed
}

// Whether a compaction of all files that an image names, and a flush, leave it as it is.
fn goes_on(alloc: Global, image: &mut MemDisk) -> Option<bool> {
    let before = rows_shown(alloc, image)?;
    let mut parts = opened(alloc, image)?;
    let merged = merges_all(image, &mut parts);
    drop(parts);
    let after = rows_shown(alloc, image)?;
    Some(merged && before == after)
}

/// Four rows in four files.
struct Filled;

impl Run for Filled {
    fn make(&self, alloc: Global, disk: &mut MemDisk, told: &mut u64) -> Option<()> {
        let mut parts = opened(alloc, disk)?;
        let done = fill(alloc, disk, &mut parts, told);
        drop(parts);
        done
    }

    fn shown(&self, alloc: Global, image: &mut MemDisk) -> Option<u64> {
        rows_shown(alloc, image)
    }
}

/// The compaction of these beside a fifth row, which a further compaction leaves as it is.
struct Compactions;

impl Run for Compactions {
    fn make(&self, alloc: Global, disk: &mut MemDisk, told: &mut u64) -> Option<()> {
        run(alloc, disk, told)
    }

    fn shown(&self, alloc: Global, image: &mut MemDisk) -> Option<u64> {
        let rows = rows_shown(alloc, image);
        if goes_on(alloc, image)? { rows } else { None }
    }
}

#[test]
fn a_stop_in_a_compaction_loses_nothing(rt: HostRuntime) -> Result<(), Fail> {
    let first = calls_of(rt.alloc(), &Filled);
    assert!(rt; first == Some((117, 4)), "{first:?}");
    let calls = calls_of(rt.alloc(), &Compactions);
    assert!(rt; calls == Some((155, 5)), "{calls:?}");
    assert!(rt; all_stop_well(rt.alloc(), &Compactions, 117, 156, Choice::Old));
    Ok(())
}

#[test]
fn nor_does_one_that_leaves_all(rt: HostRuntime) -> Result<(), Fail> {
    assert!(rt; all_stop_well(rt.alloc(), &Compactions, 117, 156, Choice::New));
    Ok(())
}

#[test]
fn nor_does_one_that_leaves_ones(rt: HostRuntime) -> Result<(), Fail> {
    assert!(rt; all_stop_well(rt.alloc(), &Compactions, 117, 156, Choice::Fill(1)));
    Ok(())
}
