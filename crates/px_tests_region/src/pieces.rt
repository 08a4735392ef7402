// What the tests of regions have together.

use px_cells::{Cell, CellKind};
use px_outside::MemDisk;
use px_region::{CellTaker, JobStep, Region};
use px_tests_storage::{prepared, put};
use std::alloc::{AllocError, Global};

/// What a region shows after each number of three rows: of `a`, of `b`, and of `a` again.
pub const THREE: [&[u8]; 4] = [
    b"",
    b"a\0a\x000",
    b"a\0a\x000b\0b\x001",
    b"a\0a\0a\x002a\x000b\0b\x001",
];

/// Takes keys and values, one after the other.
#[derive(Drop)]
pub struct Values {
    pub bytes: Vec<u8>,
}

impl CellTaker for Values {
    ghost has_taken = { λ t cells. Unit {0} };

    fn take(&mut self, cell: &Cell) -> Result<(), AllocError> {
        self.bytes.extend_from_slice(cell.key())?;
        self.bytes.extend_from_slice(cell.value())?;
        Ok(())
    }
}

/// The keys and values that a region shows.
pub fn shown(alloc: Global, disk: &mut MemDisk, region: &mut Region) -> Option<Vec<u8>> {
    let mut values = Values {
        bytes: Vec::new(alloc),
    };
    let _disk = disk;
    for at in 0..region.piece_count() {
        for cell in region.piece(at) {
            if values.take(cell).is_err() {
                drop(values);
                return None;
            }
        }
    }
    Some(values.bytes)
}

/// After how many rows a region shows what it does, by what it shows after each number of them.
pub fn rows_in(
    alloc: Global,
    disk: &mut MemDisk,
    region: &mut Region,
    expected: &[&[u8]],
) -> Option<u64> {
    let seen = shown(alloc, disk, region)?;
    let mut rows = 0u64;
    for text in expected {
        if seen.as_slice() == *text {
            return Some(rows);
        }
        rows = rows.saturating_add(1);
    }
    None
}

/// Whether this was shown.
pub fn is_shown(shown: Option<Vec<u8>>, expected: &[u8]) -> bool {
    let same = match &shown {
        Some(bytes) => bytes.as_slice() == expected,
        None => false,
    };
    drop(shown);
    same
}

fn push_cell(
    bytes: &mut Vec<u8>,
    key: &[u8],
    qualifier: u8,
    stamp: u64,
    value: &[u8],
) -> Result<(), AllocError> {
    bytes.push(0)?;
    bytes.push((key.len() % 256) as u8)?;
    bytes.extend_from_slice(key)?;
    bytes.push(qualifier)?;
    bytes.extend_from_slice(&stamp.to_be_bytes())?;
    bytes.push(CellKind::Put.code())?;
    bytes.push(0)?;
    bytes.push((value.len() % 256) as u8)?;
    bytes.extend_from_slice(value)?;
    Ok(())
}

/// The two cells of a row as bytes: its empty column, and its first value.
pub fn row(alloc: Global, key: &[u8], stamp: u64, value: &[u8]) -> Result<Vec<u8>, AllocError> {
    let mut bytes = Vec::new(alloc);
    push_cell(&mut bytes, key, 1, stamp, b"")?;
    push_cell(&mut bytes, key, 3, stamp, value)?;
    Ok(bytes)
}

/// Writes a row.
pub fn put_row(
    alloc: Global,
    disk: &mut MemDisk,
    region: &mut Region,
    key: &[u8],
    stamp: u64,
    value: &[u8],
) -> Option<()> {
    let bytes = row(alloc, key, stamp, value).ok()?;
    if bytes.len() > 1_000_000 {
        return None;
    }
    put(alloc, disk, region, &bytes, 2)
}

/// Opens a region, and makes its files where there are none.
pub fn opened(alloc: Global, disk: &mut MemDisk, number: u32) -> Option<Region> {
    let mut region = Region::reopen(alloc, disk, number).ok()?;
    match prepared(disk, &mut region) {
        Some(()) => Some(region),
        None => {
            drop(region);
            None
        }
    }
}

/// Makes the steps up to the end of a flush, and answers their number.
pub fn flush(disk: &mut MemDisk, region: &mut Region) -> Option<u64> {
    for steps in 1..100u64 {
        if region.upkeep_step(disk).ok()? == JobStep::Done {
            return Some(steps);
        }
    }
    None
}
