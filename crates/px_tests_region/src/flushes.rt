use crate::pieces::{THREE, flush, opened, put_row, rows_in};
use px_outside::{Choice, MemDisk};
use px_region::Region;
use px_tests_stops::{Run, calls_of, stops_well};
use std::alloc::Global;
use std::process::Abort;
use std::test::Fail;

/// Makes so many steps of a flush.
fn steps(disk: &mut MemDisk, region: &mut Region, most: u64) -> Option<()> {
    for _ in 0..most {
        region.upkeep_step(disk).ok()?;
    }
    Some(())
}

// Three rows: one is flushed, one comes while the flush of another is under way.
fn run_in(alloc: Global, disk: &mut MemDisk, region: &mut Region, told: &mut u64) -> Option<()> {
    put_row(alloc, disk, region, b"a\0", 1, b"0")?;
    *told = 1;
    flush(disk, region)?;
    put_row(alloc, disk, region, b"b\0", 2, b"1")?;
    *told = 2;
    steps(disk, region, 5)?;
    put_row(alloc, disk, region, b"a\0", 3, b"2")?;
    *told = 3;
    flush(disk, region)?;
    Some(())
}

fn run(alloc: Global, disk: &mut MemDisk, told: &mut u64) -> Option<u64> {
    let mut region = opened(alloc, disk, 3)?;
    let done = run_in(alloc, disk, &mut region, told);
    let logged = region.logged_cells();
    drop(region);
    done?;
    Some(logged)
}

// How many rows an image shows, if they are the same after a flush of all.
fn rows_shown(alloc: Global, image: &mut MemDisk) -> Option<u64> {
    let mut region = opened(alloc, image, 3)?;
    let before = rows_in(alloc, image, &mut region, &THREE);
    let flushed = flush(image, &mut region).is_some() && flush(image, &mut region).is_some();
    let logged = region.logged_cells();
    let after = rows_in(alloc, image, &mut region, &THREE);
    drop(region);
    let mut again = Region::reopen(alloc, image, 3).ok()?;
    let opened = rows_in(alloc, image, &mut again, &THREE);
    drop(again);
    if flushed && logged == 0 && after == before && opened == before {
        before
    } else {
        None
    }
}

#[test]
fn a_flush_leaves_what_is_read(rt: HostRuntime) -> Result<(), Fail> {
    let alloc = rt.alloc();
    let mut disk = MemDisk::new(alloc);
    flush_three(&rt, alloc, &mut disk);
    drop(disk);
    Ok(())
}

fn flush_three(rt: &impl Abort, alloc: Global, disk: &mut MemDisk) {
    let mut told = 0;
    let logged = run(alloc, disk, &mut told);
    assert!(rt; logged == Some(2), "{logged:?}");
    let rows = rows_shown(alloc, disk);
    assert!(rt; rows == Some(3), "{rows:?}");
}

/// Three rows and the flush of two.
struct Flushes;

impl Run for Flushes {
    fn make(&self, alloc: Global, disk: &mut MemDisk, told: &mut u64) -> Option<()> {
        run(alloc, disk, told)?;
        Some(())
    }

    fn shown(&self, alloc: Global, image: &mut MemDisk) -> Option<u64> {
        rows_shown(alloc, image)
    }
}

#[test]
fn a_stop_in_a_flush_leaves_what_is_read(rt: HostRuntime) -> Result<(), Fail> {
    let alloc = rt.alloc();
    let (calls, told) = calls_of(alloc, &Flushes).ok_or("not run")?;
    assert!(rt; calls > 50 && told == 3, "{calls}");
    for call in 0..calls {
        for choice in [Choice::Old, Choice::New, Choice::Fill(1)] {
            assert!(rt; stops_well(alloc, &Flushes, call, choice), "call {call}");
        }
    }
    Ok(())
}
