ghost use Rattle.std.specs.Prelude.{◌≡◌, ◌≤◌, true, length, IfOk};

use px_cellbytes::read_cells;
use px_file::{FileFault, FileWriter, RegionFile};
use px_outside::{Disk, MemDisk};
use std::alloc::Global;
use std::test::Fail;

const FILE: u64 = 4_294_967_300;

// The two cells of a row.
const ROW: [u8; 33] = [
    0, 2, 97, 0, 1, 0, 0, 0, 0, 0, 0, 0, 1, 4, 0, 0, 0, 2, 97, 0, 3, 0, 0, 0, 0, 0, 0, 0, 1, 4, 0,
    1, 98,
];

// The file of these cells, worked out by hand: the first letters and the count; behind the cells the index and the footer.
const HEAD: [u8; 12] = [80, 72, 88, 70, 73, 76, 48, 49, 0, 0, 0, 2];

const TAIL: [u8; 48] = [
    0, 0, 0, 0, 0, 0, 0, 8, 0, 0, 0, 37, 0, 2, 97, 0, 0, 0, 0, 0, 0, 0, 0, 45, 0, 0, 0, 1, 0, 0, 0,
    0, 0, 0, 0, 2, 0, 0, 0, 0, 0, 0, 0, 1, 80, 88, 70, 49,
];

// Writes the row's file.
fn write(alloc: Global, disk: &mut MemDisk) -> Option<RegionFile> {
    let cells = read_cells(alloc, &ROW, 2).ok()?;
    let mut writer = FileWriter::begin(alloc, disk, FILE).ok()?;
    if cells.is_empty() || !writer.goes_on() {
        return None;
    }
    let n = writer.step(alloc, disk, cells.as_slice()).ok()?;
    drop(cells);
    if n != 2 {
        return None;
    }
    writer.finish(alloc, disk).ok()
}

// Whether the file has just these bytes.
fn has_bytes(disk: &mut MemDisk) -> Result<bool, Fail> {
    let mut found = [0u8; 100];
    let n = disk.read(FILE, 0, &mut found)?;
    Ok(
        n == 93
            && found.starts_with(&HEAD)
            && found[12..].starts_with(&ROW)
            && found[45..].starts_with(&TAIL),
    )
}

#[test]
fn a_file_is_as_by_hand(rt: HostRuntime) -> Result<(), Fail> {
    let alloc = rt.alloc();
    let mut disk = MemDisk::new(alloc);
    assert!(rt; write(alloc, &mut disk).is_some());
    assert!(rt; has_bytes(&mut disk)?);
    let opened = RegionFile::open(alloc, &mut disk, FILE)
        .ok()
        .ok_or("not opened")?;
    assert!(rt; opened.blocks() == 1 && opened.cells() == 2 && opened.stamp() == 1);
    if opened.blocks() == 1 {
        let block = opened.block(alloc, &mut disk, 0).ok().ok_or("not read")?;
        assert!(rt; block.len() == 2);
    }
    Ok(())
}

// Where the file is damaged after a byte is changed.
fn damage(alloc: Global, at: u64, byte: u8) -> Result<Option<u64>, Fail> {
    let mut disk = MemDisk::new(alloc);
    write(alloc, &mut disk).ok_or("not written")?;
    disk.write(FILE, at, &[byte])?;
    match RegionFile::open(alloc, &mut disk, FILE) {
        Err(FileFault::Damaged { file: _, place }) => Ok(Some(place)),
        Err(_) => Ok(None),
        Ok(_) => Ok(None),
    }
}

// The place of a byte and what is written there, and where the file is damaged then: its letters, the count, the kind of
// a cell, the order, the index, the footer, and a byte behind it.
const DAMAGED: [(u64, u8, u64); 10] = [
    (3, 9, 3),
    (11, 3, 56),
    (11, 1, 29),
    (25, 5, 25),
    (32, 1, 28),
    (52, 9, 52),
    (56, 1, 56),
    (68, 44, 68),
    (92, 50, 92),
    (93, 0, 93),
];

#[test]
fn damage_is_found_at_its_place(rt: HostRuntime) -> Result<(), Fail> {
    let alloc = rt.alloc();
    for (at, byte, place) in DAMAGED {
        let found = damage(alloc, at, byte)?;
        assert!(rt; found == Some(place), "{at}: {found:?}");
    }
    Ok(())
}
