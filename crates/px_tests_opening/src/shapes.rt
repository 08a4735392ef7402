// Folders whose definitions or cells haven't their shape.
ghost use Rattle.std.specs.Prelude.{◌<◌, ◌^◌, length};

use crate::folders::{Found, LOG, define, index_body, opened, put, split_body};
use px_opening::OpenFault;
use px_outside::MemDisk;
use std::alloc::Global;
use std::test::Fail;

// Where the folder with a definition is damaged.
fn defined(alloc: Global, kind: u8, body: &[u8]) -> Option<Result<Found, OpenFault>>
    requires short { length body.now < 2 ^ 32 }
{
    let mut disk = MemDisk::new(alloc);
    let done = define(alloc, &mut disk, kind, body).is_some();
    let found = opened(alloc, &mut disk);
    drop(disk);
    if done { Some(found) } else { None }
}

#[test]
fn wrong_definitions_are_damage(rt: HostRuntime) -> Result<(), Fail> {
    let alloc = rt.alloc();
    let damaged = Some(Err(OpenFault::Damaged { file: 0, place: 0 }));
    // A region of two, a region 0, a table with two regions.
    assert!(rt;
        defined(alloc, 3, &index_body(4, 1, 1, 9)) == damaged,
        "twice"
    );
    assert!(rt;
        defined(alloc, 3, &index_body(4, 0, 1, 9)) == damaged,
        "zero"
    );
    assert!(rt; defined(alloc, 2, &split_body()) == damaged, "split");
    Ok(())
}

// What is opened of a folder with these two indexes, which are defined in this order.
fn indexed(alloc: Global, first: &[u8], second: &[u8]) -> Option<Result<Found, OpenFault>>
    requires first_short { length first.now < 2 ^ 32 }
    requires second_short { length second.now < 2 ^ 32 }
{
    let mut disk = MemDisk::new(alloc);
    let done = define(alloc, &mut disk, 3, first).is_some()
        && define(alloc, &mut disk, 3, second).is_some();
    let found = opened(alloc, &mut disk);
    drop(disk);
    if done { Some(found) } else { None }
}

#[test]
fn definitions_stand_in_the_order_of_their_numbers(rt: HostRuntime) -> Result<(), Fail> {
    let alloc = rt.alloc();
    let damaged = Some(Err(OpenFault::Damaged { file: 0, place: 0 }));
    let early = index_body(4, 3, 2, 0);
    let late = index_body(6, 5, 2, 0);
    assert!(rt;
        matches!(indexed(alloc, &early, &late), Some(Ok(_))),
        "rising"
    );
    assert!(rt; indexed(alloc, &late, &early) == damaged, "falling");
    Ok(())
}

// Where the folder with one cell in region 1 is damaged.
fn celled(alloc: Global, cell: &[u8]) -> Option<Result<Found, OpenFault>>
    requires short { length cell.now < 2 ^ 32 }
{
    let mut disk = MemDisk::new(alloc);
    let made = opened(alloc, &mut disk).is_ok() && put(alloc, &mut disk, 1, cell, 1).is_some();
    let found = opened(alloc, &mut disk);
    drop(disk);
    if made { Some(found) } else { None }
}

#[test]
fn wrong_cells_are_damage(rt: HostRuntime) -> Result<(), Fail> {
    let alloc = rt.alloc();
    let damaged = Some(Err(OpenFault::Damaged {
        file: LOG,
        place: 0,
    }));
    // A key without its end, a column of the key, a column that the table lacks, a value that isn't a text.
    assert!(rt;
        celled(alloc, &[0, 1, 97, 1, 0, 0, 0, 0, 0, 0, 0, 1, 4, 0, 0]) == damaged,
        "key"
    );
    assert!(rt;
        celled(
            alloc,
            &[0, 2, 97, 0, 2, 0, 0, 0, 0, 0, 0, 0, 1, 4, 0, 1, 98]
        ) == damaged,
        "key column"
    );
    assert!(rt;
        celled(
            alloc,
            &[0, 2, 97, 0, 4, 0, 0, 0, 0, 0, 0, 0, 1, 4, 0, 1, 98]
        ) == damaged,
        "no column"
    );
    assert!(rt;
        celled(
            alloc,
            &[0, 2, 97, 0, 3, 0, 0, 0, 0, 0, 0, 0, 1, 4, 0, 1, 255]
        ) == damaged,
        "no text"
    );
    // And a right one.
    assert!(rt;
        matches!(
            celled(
                alloc,
                &[0, 2, 97, 0, 3, 0, 0, 0, 0, 0, 0, 0, 1, 4, 0, 1, 98]
            ),
            Some(Ok(_))
        ),
        "right"
    );
    Ok(())
}
