// An index of which a byte was changed by hand (docs/use/FORMAT.md): a report counts it, and a rebuilding mends it.
use crate::orders::{TWO_MATCH, orders, verified, verifies};
use px_outside::{Disk, MemDisk};
use px_program::Status;
use px_tests_program::runs::{disk_of, is_printed, run_again};
use std::alloc::{AllocError, Global};
use std::sync::Wait;
use std::thread::Threads;

/// The first file of cells of the index's region, which is the fifth.
const CELLS: u64 = 21_474_836_484;

/// How long the file of the cells of two index rows is: 8 bytes of letters, a count of 4, the rows of 'al' and of 'bo' with 55 each, an index
/// of 25 and a footer of 32.
const LENGTH: usize = 179;

/// The orders, with all rows in files.
fn flushed<R: Threads + Wait + Sync>(rt: &R, alloc: Global) -> Result<MemDisk, AllocError> {
    let made = orders(rt, alloc)?;
    let run = run_again(rt, alloc, disk_of(made), "!flush")?;
    Ok(disk_of(run).image())
}

/// The bytes of the file of cells.
fn cells_on(disk: &mut MemDisk) -> Option<[u8; LENGTH]> {
    let mut bytes = [0; LENGTH];
    let count = disk.read(CELLS, 0, &mut bytes).ok()?;
    let len = disk.len(CELLS).ok()?;
    if count == LENGTH && len == 179 {
        Some(bytes)
    } else {
        None
    }
}

/// Lets the index row of 'bo' stand unverified: the byte of its status.
fn with_status(disk: &mut MemDisk) -> Option<()> {
    let bytes = cells_on(disk)?;
    if bytes[92] != 1 {
        return None;
    }
    disk.write(CELLS, 92, &[2]).ok()?;
    disk.sync(CELLS).ok()
}

/// Whether a report on that disk prints this, and a rebuilding mends it.
fn is_found_and_mended<R: Threads + Wait + Sync>(
    rt: &R,
    alloc: Global,
    disk: MemDisk,
    report: &str,
) -> Result<bool, AllocError> {
    let found = verified(rt, alloc, disk, "ONLY")?;
    let is_found = is_printed(&found, Status::Done, report);
    let mut after = String::from_str(alloc, "rebuilt\n")?;
    after.push_str(TWO_MATCH)?;
    let is_mended = verifies(rt, alloc, disk_of(found), "AFTER", &after)?;
    Ok(is_found && is_mended)
}

#[test]
fn a_status_that_is_no_longer_verified_is_counted(rt: HostRuntime) {
    let alloc = rt.alloc();
    let Ok(mut disk) = flushed(&rt, alloc) else {
        panic!(rt; "no memory")
    };
    let changed = with_status(&mut disk);
    let report = "matching 1\nunverified 1\nmissing 0\nextra 0\nwrong 0\n";
    assert!(rt; is_found_and_mended(&rt, alloc, disk, report) == Ok(true) && changed.is_some());
}
