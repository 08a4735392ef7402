use crate::pieces::{flush, opened, put_row, rows_in};
use px_gatelog::{Frame, Rolled};
use px_outside::{Choice, MemDisk};
use px_region::Region;
use px_tests_stops::{Run, calls_of, stops_well};
use px_wal::Manifest;
use std::alloc::Global;
use std::process::Abort;
use std::test::Fail;

/// How many files the manifest of region 3 names.
fn named(alloc: Global, disk: &mut MemDisk) -> Option<usize> {
    let manifest = Manifest::start(alloc, disk, 3).ok()?;
    let files = manifest.snapshot().files.len();
    drop(manifest);
    Some(files)
}

/// The value that is written as the row of a stamp.
fn value(stamp: u64) -> &'static [u8] {
    match stamp {
        1 => b"1",
        2 => b"2",
        3 => b"3",
        4 => b"4",
        _ => b"5",
    }
}

// A row is written five times, and flushed each time: before the fifth flush the four files are merged to one.
fn run_in(alloc: Global, disk: &mut MemDisk, region: &mut Region, told: &mut u64) -> Option<()> {
    for stamp in 1..6u64 {
        put_row(alloc, disk, region, b"a\0", stamp, value(stamp))?;
        *told = stamp;
        flush(disk, region)?;
    }
    Some(())
}

fn run(alloc: Global, disk: &mut MemDisk, told: &mut u64) -> Option<()> {
    let mut region = opened(alloc, disk, 3)?;
    let done = run_in(alloc, disk, &mut region, told);
    drop(region);
    done
}

// What a folder shows after each number of them: the empty column of each, and then each value, the latest first.
const EXPECTED: [&[u8]; 6] = [
    b"",
    b"a\0a\x001",
    b"a\0a\0a\x002a\x001",
    b"a\0a\0a\0a\x003a\x002a\x001",
    b"a\0a\0a\0a\0a\x004a\x003a\x002a\x001",
    b"a\0a\0a\0a\0a\0a\x005a\x004a\x003a\x002a\x001",
];

// How many rows an image shows, if they are the same after a further flush.
fn rows_shown(alloc: Global, image: &mut MemDisk) -> Option<u64> {
    let mut region = opened(alloc, image, 3)?;
    let before = rows_in(alloc, image, &mut region, &EXPECTED);
    let flushed = flush(image, &mut region).is_some() && flush(image, &mut region).is_some();
    drop(region);
    let mut again = Region::reopen(alloc, image, 3).ok()?;
    let after = rows_in(alloc, image, &mut again, &EXPECTED);
    drop(again);
    if flushed && after == before {
        before
    } else {
        None
    }
}

#[test]
fn four_files_are_merged_before_a_flush(rt: HostRuntime) -> Result<(), Fail> {
    let alloc = rt.alloc();
    let mut disk = MemDisk::new(alloc);
    merge_four(&rt, alloc, &mut disk);
    drop(disk);
    Ok(())
}

fn merge_four(rt: &impl Abort, alloc: Global, disk: &mut MemDisk) {
    let mut told = 0;
    let done = run(alloc, disk, &mut told);
    assert!(rt; done == Some(()) && told == 5);
    let files = named(alloc, disk);
    assert!(rt; files == Some(2), "{files:?}");
    let rows = rows_shown(alloc, disk);
    assert!(rt; rows == Some(5), "{rows:?}");
}

/// Makes the steps of the next segment of the manifest of region 3, which is open, and answers their number.
fn renewed(alloc: Global, disk: &mut MemDisk) -> Option<u64> {
    let mut manifest = Manifest::start(alloc, disk, 3).ok()?;
    let steps = renew(alloc, disk, &mut manifest);
    drop(manifest);
    steps
}

fn renew(alloc: Global, disk: &mut MemDisk, manifest: &mut Manifest) -> Option<u64> {
    for steps in 1..5u64 {
        let mut frame = Frame::with_room(alloc, manifest.snapshot().body_len()).ok()?;
        let rolled = manifest.roll_step(disk, &mut frame);
        drop(frame);
        match rolled.ok()? {
            Rolled::More => {}
            Rolled::Rolled => return Some(steps),
        }
    }
    None
}

#[test]
fn a_renewed_manifest_names_the_same(rt: HostRuntime) -> Result<(), Fail> {
    let alloc = rt.alloc();
    let mut disk = MemDisk::new(alloc);
    renew_twice(&rt, alloc, &mut disk);
    drop(disk);
    Ok(())
}

fn renew_twice(rt: &impl Abort, alloc: Global, disk: &mut MemDisk) {
    let mut told = 0;
    let done = run(alloc, disk, &mut told);
    assert!(rt; done == Some(()) && named(alloc, disk) == Some(2));
    assert!(rt; renewed(alloc, disk) == Some(3));
    assert!(rt; renewed(alloc, disk) == Some(3));
    assert!(rt; named(alloc, disk) == Some(2));
    let rows = rows_shown(alloc, disk);
    assert!(rt; rows == Some(5), "{rows:?}");
}

/// Five rows, each with its flush, of which the last one has a compaction before it.
struct Compactions;

impl Run for Compactions {
    fn make(&self, alloc: Global, disk: &mut MemDisk, told: &mut u64) -> Option<()> {
        run(alloc, disk, told)
    }

    fn shown(&self, alloc: Global, image: &mut MemDisk) -> Option<u64> {
        rows_shown(alloc, image)
    }
}

#[test]
fn a_stop_in_a_compaction_leaves_what_is_read(rt: HostRuntime) -> Result<(), Fail> {
    let alloc = rt.alloc();
    let (calls, told) = calls_of(alloc, &Compactions).ok_or("not run")?;
    assert!(rt; calls > 100 && told == 5, "{calls}");
    for call in calls.saturating_sub(60)..calls {
        assert!(rt;
            stops_well(alloc, &Compactions, call, Choice::New),
            "call {call}"
        );
    }
    Ok(())
}
