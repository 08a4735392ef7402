use crate::{add, table_body};
use px_catalog::Catalog;
use px_gatelog::StartFault;
use px_outside::{DeviceCall, Disk, MemDisk};
use std::alloc::Global;
use std::test::Fail;

/// The place of a byte of file 0 and what is written there, and where the catalogue is damaged then: a letter and the
/// generation of the header; of the snapshot its gate, its kind, its length, the count of tables, the type of K and
/// whether K may be NULL; the kind of the table's record, which is that of a snapshot or of none; the table's number,
/// which the drop doesn't name then, the length of its name, a column that it hasn't, its first least key; the kind of the
/// drop's record, where no index stands, and a number in it that no table has.
const PLACES: [(u64, u8, u64); 16] = [
    (3, 9, 3),
    (15, 0, 8),
    (16, 0, 16),
    (17, 2, 17),
    (21, 33, 55),
    (27, 2, 56),
    (38, 9, 38),
    (39, 2, 39),
    (57, 1, 57),
    (57, 9, 57),
    (62, 255, 96),
    (66, 0, 66),
    (78, 2, 78),
    (86, 1, 86),
    (88, 5, 93),
    (96, 3, 96),
];

/// Makes a table and drops it, and writes a byte in file 0.
fn made_and_hit(alloc: Global, disk: &mut MemDisk, at: u64, byte: u8) -> Option<()> {
    let mut catalog = Catalog::start(alloc, disk).ok()?;
    let made = add(alloc, disk, &mut catalog, 2, &table_body(4, 3, b'T'));
    let dropped = add(alloc, disk, &mut catalog, 4, &[0, 0, 0, 4]);
    drop(catalog);
    made?;
    dropped?;
    disk.write(0, at, &[byte]).ok()
}

/// Where the catalogue is damaged after a byte is written in file 0, if nothing is written by opening it.
fn damage(alloc: Global, at: u64, byte: u8) -> Option<(u64, u64)> {
    let mut disk = MemDisk::new(alloc);
    let made = made_and_hit(alloc, &mut disk, at, byte).is_some();
    let mut image = disk.image();
    let found = told(alloc, &mut image);
    drop(image);
    if made { found } else { None }
}

/// Where an image is damaged, if nothing is written by opening it.
fn told(alloc: Global, image: &mut MemDisk) -> Option<(u64, u64)> {
    match Catalog::start(alloc, image) {
        Err(StartFault::Damaged { file, place }) => {
            if image.calls_made().iter().any(|made| made.call == DeviceCall::Write
                || made.call == DeviceCall::Cut)
            {
                return None;
            }
            Some((file, place))
        }
        Err(_) => None,
        Ok(catalog) => {
            drop(catalog);
            None
        }
    }
}

#[test]
fn damage_is_found_at_its_place(rt: HostRuntime) -> Result<(), Fail> {
    let alloc = rt.alloc();
    for (at, byte, place) in PLACES {
        let found = damage(alloc, at, byte);
        assert!(rt; found == Some((0, place)), "{at}: {found:?}");
    }
    Ok(())
}

/// What opening tells of a file of so many zeros, if nothing is written by it.
fn told_of_zeros(alloc: Global, file: u64, zeros: &[u8]) -> Option<(u64, u64)> {
    let mut disk = MemDisk::new(alloc);
    let written = disk.write(file, 0, zeros).is_ok();
    let mut image = disk.image();
    let found = told(alloc, &mut image);
    drop(image);
    if written { found } else { None }
}

/// Whether the fresh catalogue is made where a file has these zeros.
fn is_made_over(alloc: Global, file: u64, zeros: &[u8]) -> bool {
    let mut disk = MemDisk::new(alloc);
    let written = disk.write(file, 0, zeros).is_ok();
    let mut image = disk.image();
    let is_fresh = match Catalog::start(alloc, &mut image) {
        Ok(catalog) => {
            let is_fresh = catalog.standing().next == 3 && catalog.is_open();
            drop(catalog);
            is_fresh
        }
        Err(_) => false,
    };
    drop(image);
    written && is_fresh
}

/// Without an open segment a file of more than 4,096 bytes is damaged.
#[test]
fn a_long_file_is_no_empty_folder(rt: HostRuntime) -> Result<(), Fail> {
    let alloc = rt.alloc();
    let zeros = [0u8; 4_097];
    for file in [0, 1] {
        assert!(rt; told_of_zeros(alloc, file, &zeros) == Some((file, 0)));
        assert!(rt; is_made_over(alloc, file, &zeros[1..]));
    }
    Ok(())
}
