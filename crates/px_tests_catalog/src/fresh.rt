use crate::{add, table_body};
use px_catalog::Catalog;
use px_gatelog::Rolled;
use px_outside::{Disk, MemDisk};
use std::alloc::Global;
use std::test::Fail;

/// The first segment: its header with generation 1, then the fresh snapshot, of kind 1 and 34 bytes, and a closed gate.
/// Next number 3; one table, of number 2, named KV, with the columns K (VARCHAR, NOT NULL) and V (VARCHAR), the key K
/// ascending, and region 1 with the empty least key; no index.
const FRESH: [u8; 57] = [
    1, 80, 72, 88, 83, 69, 71, 49, 0, 0, 0, 0, 0, 0, 0, 1, 1, 1, 0, 0, 0, 34, 0, 0, 0, 3, 0, 1, 0,
    0, 0, 2, 2, 75, 86, 2, 1, 75, 8, 1, 1, 86, 8, 0, 1, 0, 0, 1, 0, 0, 0, 1, 0, 0, 0, 0, 0,
];

/// Whether the next number and the count of tables are these.
fn has(catalog: &Catalog, next: u32, tables: usize) -> bool {
    catalog.standing().next == next && catalog.standing().tables.as_slice().len() == tables
}

/// Whether a catalogue that is opened has these, and nothing is written.
fn reopens(alloc: Global, disk: &mut MemDisk, next: u32, tables: usize) -> bool {
    match Catalog::reopen(alloc, disk) {
        Ok(again) => {
            let same = has(&again, next, tables);
            drop(again);
            same
        }
        Err(_) => false,
    }
}

/// Where nothing was written, opening writes nothing, and the fresh catalogue stands.
#[test]
fn opening_writes_nothing(rt: HostRuntime) -> Result<(), Fail> {
    let mut disk = MemDisk::new(rt.alloc());
    let fresh = match Catalog::reopen(rt.alloc(), &mut disk) {
        Ok(read) => {
            let fresh = !read.is_open() && read.is_full() && has(&read, 3, 1);
            drop(read);
            fresh
        }
        Err(_) => false,
    };
    let lengths = (disk.len(0).ok(), disk.len(1).ok());
    drop(disk);
    assert!(rt; fresh);
    assert!(rt; lengths == (Some(0), Some(0)));
    Ok(())
}

/// Whether the fresh catalogue is made.
fn is_fresh_made(alloc: Global, disk: &mut MemDisk) -> bool {
    match Catalog::start(alloc, disk) {
        Ok(catalog) => {
            let made = catalog.is_open() && !catalog.is_full() && has(&catalog, 3, 1);
            drop(catalog);
            made
        }
        Err(_) => false,
    }
}

/// A folder of an earlier program, which had no catalogue, gets the fresh one, and its other files stay.
#[test]
fn the_fresh_catalogue_has_57_bytes(rt: HostRuntime) -> Result<(), Fail> {
    let mut disk = MemDisk::new(rt.alloc());
    let earlier = disk.write(4_294_967_296, 0, b"\x01PHXSEG1\0\0\0\0\0\0\0\x01\0");
    let made = is_fresh_made(rt.alloc(), &mut disk);
    let lengths = (
        disk.len(0).ok(),
        disk.len(1).ok(),
        disk.len(4_294_967_296).ok(),
    );
    let mut bytes = [9u8; 57];
    let read = disk.read(0, 0, &mut bytes).ok();
    drop(disk);
    assert!(rt; earlier.is_ok() && made);
    assert!(rt; lengths == (Some(57), Some(0), Some(17)));
    assert!(rt; read == Some(57));
    assert!(rt; bytes.as_slice() == FRESH.as_slice());
    Ok(())
}

/// Defines a table in the middle of a renewal and drops it behind it; between the second step and the third nothing is
/// defined.
fn renewed(alloc: Global, disk: &mut MemDisk, catalog: &mut Catalog) -> Option<bool> {
    let first = catalog.roll_step(disk).ok()? == Rolled::More && !catalog.is_full();
    add(alloc, disk, catalog, 2, &table_body(4, 3, b'T'))?;
    let laid = catalog.roll_step(disk).ok()? == Rolled::More && catalog.is_full();
    let refused = add(alloc, disk, catalog, 4, &[0, 0, 0, 4]).is_none();
    let open = catalog.roll_step(disk).ok()? == Rolled::Rolled && !catalog.is_full();
    add(alloc, disk, catalog, 4, &[0, 0, 0, 4])?;
    Some(first && laid && refused && open && has(catalog, 5, 1))
}

/// Between the second and the third step of a renewal nothing is defined; behind it there is.
#[test]
fn a_laid_segment_takes_no_definition(rt: HostRuntime) -> Result<(), Fail> {
    let mut disk = MemDisk::new(rt.alloc());
    let done = match Catalog::start(rt.alloc(), &mut disk) {
        Ok(mut catalog) => {
            let done = renewed(rt.alloc(), &mut disk, &mut catalog);
            drop(catalog);
            done
        }
        Err(_) => None,
    };
    let again = reopens(rt.alloc(), &mut disk, 5, 1);
    let length = disk.len(0).ok();
    drop(disk);
    assert!(rt; done == Some(true));
    assert!(rt; again && length == Some(88));
    Ok(())
}
