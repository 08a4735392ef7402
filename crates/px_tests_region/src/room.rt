use crate::pieces::{Values, is_shown, opened, put_row, row, shown};
use px_outside::{Disk, MemDisk};
use px_region::{PromiseFault, Region};
use px_tests_storage::put;
use std::alloc::{AllocError, Global};
use std::test::Fail;

// Writes one row, and gives what is shown then.
fn first_row(alloc: Global, disk: &mut MemDisk) -> Option<Vec<u8>> {
    let mut region = opened(alloc, disk, 1)?;
    let put = put_row(alloc, disk, &mut region, b"a\0", 1, b"b").is_some();
    let seen = shown(alloc, disk, &mut region);
    drop(region);
    if put {
        return seen;
    }
    drop(seen);
    None
}

// The first segment after one row, byte by byte.
#[test]
fn the_first_segment_has_68_bytes(rt: HostRuntime) -> Result<(), Fail> {
    let mut disk = MemDisk::new(rt.alloc());
    let seen = is_shown(first_row(rt.alloc(), &mut disk), b"a\0a\0b");
    let mut bytes = [9u8; 70];
    let read = disk.read(4_294_967_296, 0, &mut bytes).ok();
    let manifest = disk.len(4_294_967_298).ok();
    drop(disk);
    assert!(rt; seen && read == Some(68) && manifest == Some(49));
    assert!(rt; &bytes[..16] == b"\x01PHXSEG1\0\0\0\0\0\0\0\x01".as_slice());
    assert!(rt; &bytes[16..34] == b"\x01\x02\0\0\0\x2d\0\0\0\0\0\0\0\x01\0\0\0\x02".as_slice());
    assert!(rt; &bytes[34..50] == b"\0\x02a\0\x01\0\0\0\0\0\0\0\x01\x04\0\0".as_slice());
    assert!(rt; &bytes[50..67] == b"\0\x02a\0\x03\0\0\0\0\0\0\0\x01\x04\0\x01b".as_slice());
    assert!(rt; &bytes[67..] == b"\0\x09\x09".as_slice());
    Ok(())
}

fn number_key(i: u64) -> [u8; 7] {
    let digit = |n: u64| -> u8 { b'0' + (n % 10) as u8 };
    [
        b'k',
        digit(i / 10_000),
        digit(i / 1_000),
        digit(i / 100),
        digit(i / 10),
        digit(i),
        0,
    ]
}

fn push_row(alloc: Global, bytes: &mut Vec<u8>, key: &[u8]) -> Option<()> {
    let one = row(alloc, key, 7, b"v").ok()?;
    let done = bytes.extend_from_slice(&one).ok();
    drop(one);
    done
}

// Writes rows of these numbers in one batch.
fn put_rows(
    alloc: Global,
    disk: &mut MemDisk,
    region: &mut Region,
    from: u64,
    to: u64,
) -> Option<()> {
    let mut bytes = Vec::new(alloc);
    let mut cells = 0u32;
    for i in from..to {
        push_row(alloc, &mut bytes, &number_key(i))?;
        cells = cells.saturating_add(2);
    }
    if cells == 0 || bytes.len() > 1_000_000 {
        return None;
    }
    put(alloc, disk, region, &bytes, cells)
}

// Nothing is promised before the files are made.
fn is_not_ready(alloc: Global, disk: &mut MemDisk) -> Option<bool> {
    let mut region = Region::reopen(alloc, disk, 1).ok()?;
    let refused = region.promise(2, 43) == Err(PromiseFault::NotReady);
    drop(region);
    Some(refused)
}

// An empty log has room for 16,384 cells of 16 MiB, and for no more.
fn has_room(region: &mut Region) -> bool {
    let busy = Err(PromiseFault::Busy { cells: 0, bytes: 0 });
    let none = region.promise(16_385, 0) == busy && region.promise(0, 16_777_217) == busy;
    let all = region.promise(16_384, 16_777_216) == Ok(());
    if all {
        region.give_back(16_384, 16_777_216);
    }
    none && all
}

// Writes 8,192 rows of two cells.
fn fill(alloc: Global, disk: &mut MemDisk, region: &mut Region) -> Option<()> {
    for batch in 0..4u64 {
        put_rows(alloc, disk, region, batch * 2_000, batch * 2_000 + 2_000)?;
    }
    put_rows(alloc, disk, region, 8_000, 8_191)?;
    put_row(alloc, disk, region, &number_key(8_191), 8, b"v")
}

fn is_ready_again(alloc: Global, disk: &mut MemDisk) -> Option<bool> {
    let again = Region::reopen(alloc, disk, 1).ok()?;
    let ready = again.number() == 1 && again.looked() == 0 && again.is_ready();
    drop(again);
    Some(ready)
}

// The versions of one row, in one look.
fn looks_once(alloc: Global, disk: &mut MemDisk, region: &mut Region) -> bool {
    let mut values = Values {
        bytes: Vec::new(alloc),
    };
    let done = region.row_versions(disk, b"k00041\0", &mut values).is_ok();
    let same = values.bytes.as_slice() == b"k00041\0k00041\0v".as_slice();
    drop(values);
    done && same && region.looked() == 1
}

// The ten rows of a range, part by part: each of them, in order, with its two cells.
fn gives_ten(region: &mut Region) -> bool {
    let end = number_key(60);
    let mut cells = 0u64;
    for _part in 0..10 {
        let part = region.rows(&number_key(50u64.wrapping_add(cells / 2)), Some(&end));
        for cell in part.cells {
            if cell.key() != number_key(50u64.wrapping_add(cells / 2)).as_slice() {
                return false;
            }
            cells = cells.wrapping_add(1);
        }
        if part.is_all {
            break;
        }
    }
    region.look_at(10);
    cells == 20 && region.looked() == 11
}

// What isn't so of a region that is filled, and read.
fn wrong(alloc: Global, disk: &mut MemDisk, region: &mut Region) -> Option<&'static str> {
    if !has_room(region) {
        return Some("room");
    }
    if fill(alloc, disk, region).is_none() {
        return Some("fill");
    }
    let full = PromiseFault::Busy {
        cells: 16_384,
        bytes: 352_256,
    };
    if region.promise(1, 0) != Err(full) || region.logged_cells() != 16_384 {
        return Some("full");
    }
    if is_ready_again(alloc, disk) != Some(true) {
        return Some("again");
    }
    if !looks_once(alloc, disk, region) {
        return Some("row");
    }
    if !gives_ten(region) {
        return Some("ten");
    }
    None
}

#[test]
fn a_log_has_16384_cells(rt: HostRuntime) -> Result<(), Fail> {
    let alloc = rt.alloc();
    let mut disk = MemDisk::new(alloc);
    let early = is_not_ready(alloc, &mut disk);
    let found = match opened(alloc, &mut disk, 1) {
        Some(mut region) => {
            let found = wrong(alloc, &mut disk, &mut region);
            drop(region);
            found
        }
        None => Some("open"),
    };
    drop(disk);
    assert!(rt; early == Some(true));
    assert!(rt; found.is_none(), "{found:?}");
    Ok(())
}

// How many cells are read of a region.
fn read_cells_of(region: &Region) -> usize {
    let mut cells = 0usize;
    for at in 0..region.piece_count() {
        cells = cells.wrapping_add(region.piece(at).len());
    }
    cells
}

// A row that is written twice is read once. How many cells of it its log has, and how many are read.
fn written_twice(alloc: Global, disk: &mut MemDisk) -> Option<(u64, usize)> {
    let mut region = opened(alloc, disk, 1)?;
    let first = put_row(alloc, disk, &mut region, b"a\0", 1, b"b").is_some();
    let second = put_row(alloc, disk, &mut region, b"a\0", 1, b"c").is_some();
    let counts = (region.logged_cells(), read_cells_of(&region));
    drop(region);
    if first && second { Some(counts) } else { None }
}

// So it is where the log is opened again.
fn opened_again(alloc: Global, disk: &mut MemDisk) -> Option<(u64, usize)> {
    let region = Region::reopen(alloc, disk, 1).ok()?;
    let counts = (region.logged_cells(), read_cells_of(&region));
    drop(region);
    Some(counts)
}

#[test]
fn cells_that_are_written_again_count_again(rt: HostRuntime) {
    let mut disk = MemDisk::new(rt.alloc());
    let counts = written_twice(rt.alloc(), &mut disk);
    let again = opened_again(rt.alloc(), &mut disk);
    drop(disk);
    assert!(rt; counts == Some((4, 2)));
    assert!(rt; again == Some((4, 2)));
}
