use crate::pieces::{THREE, opened, put_row, rows_in, shown};
use px_outside::MemDisk;
use px_region::Region;
use px_tests_stops::{CHOICES, Run, calls_of, stops_well};
use std::alloc::Global;
use std::test::Fail;

// Writes three rows of two keys, and counts those that were told to be there.
fn put_three(alloc: Global, disk: &mut MemDisk, region: &mut Region, told: &mut u64) -> Option<()> {
    put_row(alloc, disk, region, b"a\0", 1, b"0")?;
    *told = 1;
    put_row(alloc, disk, region, b"b\0", 2, b"1")?;
    *told = 2;
    put_row(alloc, disk, region, b"a\0", 3, b"2")?;
    *told = 3;
    Some(())
}

fn run(alloc: Global, disk: &mut MemDisk, told: &mut u64) -> Option<()> {
    let mut region = opened(alloc, disk, 3)?;
    let done = put_three(alloc, disk, &mut region, told);
    drop(region);
    done
}

// How many rows an image shows.
fn rows_shown(alloc: Global, image: &mut MemDisk) -> Option<u64> {
    let mut region = Region::reopen(alloc, image, 3).ok()?;
    let rows = rows_in(alloc, image, &mut region, &THREE);
    drop(region);
    rows
}

// Whether an image takes one row more.
fn goes_on(alloc: Global, image: &mut MemDisk) -> Option<bool> {
    let mut region = opened(alloc, image, 3)?;
    let put = put_row(alloc, image, &mut region, b"c\0", 9, b"x").is_some();
    let seen = shown(alloc, image, &mut region);
    drop(region);
    let seen = seen?;
    let more = seen.as_slice().ends_with(b"c\0c\0x");
    drop(seen);
    Some(put && more)
}

/// Three rows.
struct Rows;

impl Run for Rows {
    fn make(&self, alloc: Global, disk: &mut MemDisk, told: &mut u64) -> Option<()> {
        run(alloc, disk, told)
    }

    fn shown(&self, alloc: Global, image: &mut MemDisk) -> Option<u64> {
        let rows = rows_shown(alloc, image);
        if goes_on(alloc, image)? { rows } else { None }
    }
}

#[test]
fn a_stop_leaves_a_row_whole_or_not_at_all(rt: HostRuntime) -> Result<(), Fail> {
    let alloc = rt.alloc();
    let calls = calls_of(alloc, &Rows);
    assert!(rt; calls == Some((37, 3)), "{calls:?}");
    for call in 1..38u64 {
        for choice in CHOICES {
            assert!(rt; stops_well(alloc, &Rows, call, choice), "call {call}");
        }
    }
    Ok(())
}
