ghost use Rattle.std.specs.Prelude.{◌<◌};

use crate::files::{cells_of, made};
use px_cells::{Cells, is_cell_list};
use px_file::FileFault;
use px_memstore::MemStore;
use px_outside::{MemDisk, Numbers};
use px_reads::{Parts, ReadFile};
use std::alloc::{AllocError, Global};
use std::process::Abort;
use std::slice::from_ref;
use std::test::Fail;

const ROWS: [u8; 12] = [0, 1, 2, 3, 4, 5, 6, 7, 8, 9, 10, 11];

/// Puts some rows at a stamp into a store.
fn put_rows(alloc: Global, store: &mut MemStore, rows: &[u8], stamp: u8) -> Option<()> {
    store.reserve(16).ok()?;
    let cells = cells_of(alloc, rows, stamp, 1)?;
    if !is_cell_list(cells.as_slice()) || cells.len() as u64 > store.room() {
        drop(cells);
        return None;
    }
    store.put(cells);
    Some(())
}

/// A store of some rows at a stamp.
fn store_of(alloc: Global, rows: &[u8], stamp: u8) -> Option<MemStore> {
    let mut store = MemStore::new(alloc);
    match put_rows(alloc, &mut store, rows, stamp) {
        Some(()) => Some(store),
        None => {
            drop(store);
            None
        }
    }
}

/// Two stores, of which the first was written later.
#[derive(Drop)]
struct Stores {
    store: MemStore,
    older: MemStore,
}

/// The stores of some rows at a stamp, and of older ones at theirs.
fn stores_of(
    alloc: Global,
    rows: &[u8],
    stamp: u8,
    older_rows: &[u8],
    older_stamp: u8,
) -> Option<Stores> {
    let store = store_of(alloc, rows, stamp)?;
    match store_of(alloc, older_rows, older_stamp) {
        Some(older) => Some(Stores { store, older }),
        None => {
            drop(store);
            None
        }
    }
}

/// Ten times the row of each cell, and its stamp.
fn numbers(alloc: Global, cells: &Cells) -> Result<Vec<u64>, AllocError> {
    let mut numbers = Vec::new(alloc);
    for cell in cells.as_slice() {
        let row = match cell.key() {
            [] => 0,
            [row, ..] => u64::from(*row),
        };
        numbers.push(row * 10 + cell.stamp() % 10)?;
    }
    Ok(numbers)
}

/// The cells of a row, and how many reads of the disk they took.
fn row(alloc: Global, disk: &mut MemDisk, parts: Parts<'_>, key: u8) -> Option<(Vec<u64>, usize)> {
    let before = disk.calls_made().len();
    let cells = parts.row(alloc, disk, &[key]).ok()?;
    let reads = disk.calls_made().len().saturating_sub(before);
    let numbers = numbers(alloc, &cells);
    drop(cells);
    Some((numbers.ok()?, reads))
}

/// The first rows of a range, whether they are all, and how many reads they took.
fn rows(
    alloc: Global,
    disk: &mut MemDisk,
    parts: Parts<'_>,
    low: &[u8],
    high: Option<&[u8]>,
    most: u64,
) -> Option<(Vec<u64>, bool, usize)>
    requires { 0 < most }
{
    let before = disk.calls_made().len();
    let found = parts.first_rows(alloc, disk, low, high, most).ok()?;
    let reads = disk.calls_made().len().saturating_sub(before);
    let numbers = numbers(alloc, &found.cells);
    let is_all = found.is_all;
    drop(found);
    Some((numbers.ok()?, is_all, reads))
}

#[test]
fn a_row_is_read_by_its_blocks_alone(rt: HostRuntime) -> Result<(), Fail> {
    let alloc = rt.alloc();
    let mut disk = MemDisk::new(alloc);
    let done = read_blocks_alone(&rt, alloc, &mut disk);
    drop(disk);
    done
}

fn read_blocks_alone(rt: &impl Abort, alloc: Global, disk: &mut MemDisk) -> Result<(), Fail> {
    let file = made(alloc, disk, &ROWS, 1, 4).ok_or("not made")?;
    let done = read_blocks_below(rt, alloc, disk, from_ref(&file));
    drop(file);
    done
}

fn read_blocks_below(
    rt: &impl Abort,
    alloc: Global,
    disk: &mut MemDisk,
    files: &[ReadFile],
) -> Result<(), Fail> {
    let stores = stores_of(alloc, &[5], 3, &[5, 6], 2).ok_or("no store")?;
    let parts = Parts {
        store: &stores.store,
        older: &stores.older,
        files,
    };
    let done = read_single_rows(rt, alloc, disk, parts);
    drop(stores);
    done
}

fn read_single_rows(
    rt: &impl Abort,
    alloc: Global,
    disk: &mut MemDisk,
    parts: Parts<'_>,
) -> Result<(), Fail> {
    let (five, reads) = row(alloc, disk, parts, 5).ok_or("not read")?;
    assert!(rt; five.as_slice() == [53, 52, 51].as_slice() && reads == 1);
    let (six, reads) = row(alloc, disk, parts, 6).ok_or("not read")?;
    assert!(rt; six.as_slice() == [62, 61].as_slice() && reads == 1);

    // The first row of a block may stand at the end of the block before it.
    let (eight, reads) = row(alloc, disk, parts, 8).ok_or("not read")?;
    assert!(rt; eight.as_slice() == [81].as_slice() && reads == 2);
    let (none, reads) = row(alloc, disk, parts, 200).ok_or("not read")?;
    assert!(rt; none.is_empty() && reads == 0);
    Ok(())
}

#[test]
fn what_is_later_written_hides_the_rest(rt: HostRuntime) -> Result<(), Fail> {
    let alloc = rt.alloc();
    let mut disk = MemDisk::new(alloc);
    let done = hide_rest(&rt, alloc, &mut disk);
    drop(disk);
    done
}

fn hide_rest(rt: &impl Abort, alloc: Global, disk: &mut MemDisk) -> Result<(), Fail> {
    let newer = made(alloc, disk, &[1, 3], 2, 5).ok_or("not made")?;
    match made(alloc, disk, &[1, 2, 3], 1, 4) {
        Some(first) => {
            let files = [newer, first];
            hide_rest_of(rt, alloc, disk, &files)
        }
        None => {
            drop(newer);
            Err("not made".into())
        }
    }
}

fn hide_rest_of(
    rt: &impl Abort,
    alloc: Global,
    disk: &mut MemDisk,
    files: &[ReadFile],
) -> Result<(), Fail> {
    let stores = stores_of(alloc, &[1], 1, &[], 1).ok_or("no store")?;
    let parts = Parts {
        store: &stores.store,
        older: &stores.older,
        files,
    };
    let done = read_latest(rt, alloc, disk, parts);
    drop(stores);
    done
}

fn read_latest(
    rt: &impl Abort,
    alloc: Global,
    disk: &mut MemDisk,
    parts: Parts<'_>,
) -> Result<(), Fail> {
    let (all, is_all, _reads) = rows(alloc, disk, parts, &[], None, 100).ok_or("not read")?;
    assert!(rt; all.as_slice() == [12, 11, 21, 32, 31].as_slice() && is_all);
    let found = parts.row(alloc, disk, &[1]).ok().ok_or("not read")?;
    have_lengths(rt, &found);
    drop(found);
    Ok(())
}

/// At one place the cell of the store is read, whose value is short.
fn have_lengths(rt: &impl Abort, found: &Cells) {
    let lengths = [9_000usize, 1];
    assert!(rt; found.len() == lengths.len());
    for (cell, length) in found.as_slice().iter().zip(&lengths) {
        assert!(rt; cell.value().len() == *length);
    }
}

#[test]
fn the_first_rows_are_read_part_by_part(rt: HostRuntime) -> Result<(), Fail> {
    let alloc = rt.alloc();
    let mut disk = MemDisk::new(alloc);
    let done = read_parts(&rt, alloc, &mut disk);
    drop(disk);
    done
}

fn read_parts(rt: &impl Abort, alloc: Global, disk: &mut MemDisk) -> Result<(), Fail> {
    let file = made(alloc, disk, &ROWS, 1, 4).ok_or("not made")?;
    let done = read_parts_of(rt, alloc, disk, from_ref(&file));
    drop(file);
    done
}

fn read_parts_of(
    rt: &impl Abort,
    alloc: Global,
    disk: &mut MemDisk,
    files: &[ReadFile],
) -> Result<(), Fail> {
    let stores = stores_of(alloc, &[20], 1, &[], 1).ok_or("no store")?;
    let parts = Parts {
        store: &stores.store,
        older: &stores.older,
        files,
    };
    let done = read_first_rows(rt, alloc, disk, parts);
    drop(stores);
    done
}

fn read_first_rows(
    rt: &impl Abort,
    alloc: Global,
    disk: &mut MemDisk,
    parts: Parts<'_>,
) -> Result<(), Fail> {
    let (one, is_all, reads) = rows(alloc, disk, parts, &[], None, 1).ok_or("not read")?;
    assert!(rt; one.as_slice() == [1].as_slice() && !is_all && reads == 1);
    let (some, is_all, reads) = rows(alloc, disk, parts, &[2], Some(&[6]), 64).ok_or("not read")?;
    assert!(rt; some.as_slice() == [21, 31, 41, 51].as_slice() && is_all && reads == 2);
    let (all, is_all, reads) = rows(alloc, disk, parts, &[10], None, 64).ok_or("not read")?;
    assert!(rt; all.as_slice() == [101, 111, 201].as_slice() && is_all && reads == 1);
    Ok(())
}

/// Lets the next call of a disk fail.
fn fail_next(alloc: Global, disk: MemDisk) -> Result<MemDisk, AllocError> {
    let next = disk.calls_made().len() as u64 + 1;
    let calls = vec![in alloc; next];
    match calls {
        Ok(calls) => Ok(disk.fail_at(Numbers::of(calls))),
        Err(_) => {
            drop(disk);
            Err(AllocError)
        }
    }
}

#[test]
fn a_read_that_fails_is_told(rt: HostRuntime) -> Result<(), Fail> {
    let alloc = rt.alloc();
    let mut disk = MemDisk::new(alloc);
    let Some(file) = made(alloc, &mut disk, &ROWS, 1, 4) else {
        drop(disk);
        return Err("not made".into());
    };
    match fail_next(alloc, disk) {
        Ok(mut disk) => {
            let done = fail_once(&rt, alloc, &mut disk, from_ref(&file));
            drop(disk);
            drop(file);
            done
        }
        Err(fault) => {
            drop(file);
            Err(fault.into())
        }
    }
}

fn fail_once(
    rt: &impl Abort,
    alloc: Global,
    disk: &mut MemDisk,
    files: &[ReadFile],
) -> Result<(), Fail> {
    let store = store_of(alloc, &[], 1).ok_or("no store")?;
    let parts = Parts {
        store: &store,
        older: &store,
        files,
    };
    let done = read_again(rt, alloc, disk, parts);
    drop(store);
    done
}

fn read_again(
    rt: &impl Abort,
    alloc: Global,
    disk: &mut MemDisk,
    parts: Parts<'_>,
) -> Result<(), Fail> {
    let failed = match parts.row(alloc, disk, &[5]) {
        Ok(cells) => {
            drop(cells);
            false
        }
        Err(fault) => fault == FileFault::ReadFault,
    };
    assert!(rt; failed);
    let (five, reads) = row(alloc, disk, parts, 5).ok_or("not read")?;
    assert!(rt; five.as_slice() == [51].as_slice() && reads == 1);
    Ok(())
}
