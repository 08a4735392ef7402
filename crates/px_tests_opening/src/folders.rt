// Folders that are opened.
ghost use Rattle.std.specs.Prelude.{◌≤◌, ◌<◌, ◌^◌, length};

use px_catalog::Catalog;
use px_opening::{OpenFault, Opened, open};
use px_outside::{Disk, MemDisk};
use px_region::Region;
use px_schema::read_definition;
use px_tests_storage as storage;
use px_tests_storage::prepared;
use std::alloc::Global;

/// The first file of region 1's log.
pub const LOG: u64 = 4_294_967_296;

/// The row ('a', 'b') of KV at stamp 1 in the log of region 1.
pub const ROW_LOG: [u8; 68] = [
    1, 80, 72, 88, 83, 69, 71, 49, 0, 0, 0, 0, 0, 0, 0, 1, 1, 2, 0, 0, 0, 45, 0, 0, 0, 0, 0, 0, 0,
    1, 0, 0, 0, 2, 0, 2, 97, 0, 1, 0, 0, 0, 0, 0, 0, 0, 1, 4, 0, 0, 0, 2, 97, 0, 3, 0, 0, 0, 0, 0,
    0, 0, 1, 4, 0, 1, 98, 0,
];

/// How much was opened: groups, indexes of the first one, other regions, its last stamp and its horizon, and its cells.
#[derive(Clone, Copy, PartialEq, Eq)]
pub struct Found {
    pub groups: usize,
    pub indexes: usize,
    pub others: usize,
    pub last: u64,
    pub horizon: u64,
    pub cells: usize,
}

fn counted(opened: &Opened) -> Found {
    let mut found = Found {
        groups: opened.groups.len(),
        indexes: 0,
        others: opened.others.len(),
        last: 0,
        horizon: 0,
        cells: 0,
    };
    if let Some(group) = opened.groups.first() {
        found.indexes = group.indexes.len();
        found.last = group.last;
        found.horizon = group.horizon;
        for at in 0..group.rows.piece_count() {
            found.cells = found.cells.wrapping_add(group.rows.piece(at).len());
        }
    }
    found
}

/// What is opened, or why nothing is.
pub fn opened<D: Disk>(alloc: Global, disk: &mut D) -> Result<Found, OpenFault> {
    match open(alloc, disk) {
        Ok(opened) => {
            let found = counted(&opened);
            drop(opened);
            Ok(found)
        }
        Err(fault) => Err(fault),
    }
}

/// The body of the record of an index of KV's column V: its number, that of its region, its state and its birth.
pub fn index_body(number: u8, region: u8, state: u8, birth: u8) -> [u8; 27] {
    [
        0, 0, 0, number, 0, 0, 0, 2, 1, b'I', state, 0, 0, 0, 0, 0, 0, 0, birth, 0, 0, 0, region,
        1, 1, 0, 0,
    ]
}

/// The body of the record of a table with the columns K and V and two regions, of which the second begins at a key.
pub fn split_body() -> [u8; 32] {
    [
        0, 0, 0, 5, 1, b'T', 2, 1, b'K', 8, 1, 1, b'V', 8, 0, 1, 0, 0, 2, 0, 0, 0, 3, 0, 0, 0, 0,
        0, 4, 0, 1, b'm',
    ]
}

/// Adds the definition of a body to the catalogue of a folder.
pub fn define(alloc: Global, disk: &mut MemDisk, kind: u8, body: &[u8]) -> Option<()>
    requires short { length body.now < 2 ^ 32 }
{
    let mut catalog = Catalog::start(alloc, disk).ok()?;
    let done = match read_definition(alloc, kind, body, catalog.standing()) {
        Ok(item) => catalog.append(disk, item).is_ok(),
        Err(_) => false,
    };
    drop(catalog);
    if done { Some(()) } else { None }
}

/// Writes the cells of bytes into a region, whose files are made.
pub fn put(alloc: Global, disk: &mut MemDisk, number: u32, bytes: &[u8], count: u32) -> Option<()>
    requires few { 1 ≤ count }
    requires short { length bytes.now < 2 ^ 32 }
{
    let mut region = Region::reopen(alloc, disk, number).ok()?;
    let done = prepared(disk, &mut region).is_some()
        && storage::put(alloc, disk, &mut region, bytes, count).is_some();
    drop(region);
    if done { Some(()) } else { None }
}
