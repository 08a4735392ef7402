ghost use Rattle.std.specs.Prelude.{◌≡◌, IfSome, length};
ghost use Rattle.px_wal.specs.Snapshot.{IsSnapshot};
ghost use Rattle.px_wal.specs.SnapshotOf.{files_of, snapshot_of};

use crate::pieces::{opened, put_row};
use px_gatelog::{Frame, StartFault};
use px_outside::{Disk, MemDisk};
use px_region::Region;
use px_wal::{FileEntry, Manifest, Snapshot};
use std::alloc::Global;
use std::test::Fail;

// Writes one row twice.
fn put_two(alloc: Global, disk: &mut MemDisk) -> Option<()> {
    let mut region = opened(alloc, disk, 1)?;
    let first = put_row(alloc, disk, &mut region, b"a\0", 1, b"b");
    let second = put_row(alloc, disk, &mut region, b"a\0", 2, b"c");
    drop(region);
    first?;
    second
}

// Where the region is damaged.
fn told(alloc: Global, disk: &mut MemDisk) -> Option<(u64, u64)> {
    match Region::reopen(alloc, disk, 1) {
        Err(StartFault::Damaged { file, place }) => Some((file, place)),
        Err(_) => None,
        Ok(region) => {
            drop(region);
            None
        }
    }
}

// Where the region is damaged after a byte is written in one of its files.
fn damage(alloc: Global, file: u64, at: u64, byte: u8) -> Result<Option<(u64, u64)>, &'static str> {
    let mut disk = MemDisk::new(alloc);
    let put = put_two(alloc, &mut disk).is_some();
    let hit = disk.write(file, at, &[byte]).is_ok();
    let found = told(alloc, &mut disk);
    drop(disk);
    if put && hit {
        Ok(found)
    } else {
        Err("not put")
    }
}

// The place of a byte and what is written there, and where the log is damaged then: its letters, its generation, the kind
// of the first record, its number, the count of its cells, its first cell's kind, the number of the second record.
const LOG: [(u64, u8, u64); 9] = [
    (3, 9, 3),
    (15, 0, 8),
    (17, 7, 17),
    (25, 5, 25),
    (29, 2, 29),
    (33, 3, 67),
    (47, 5, 47),
    (80, 1, 80),
    (76, 1, 76),
];

// The same of the manifest: the kind of its record, the number of compactions, the count of files.
const MANIFEST: [(u64, u8, u64); 3] = [(17, 7, 17), (46, 8, 46), (47, 1, 48)];

#[test]
fn damage_is_found_at_its_place(rt: HostRuntime) -> Result<(), Fail> {
    let alloc = rt.alloc();
    for (at, byte, place) in LOG {
        let found = damage(alloc, 4_294_967_296, at, byte)?;
        assert!(rt; found == Some((4_294_967_296, place)), "{at}: {found:?}");
    }
    for (at, byte, place) in MANIFEST {
        let found = damage(alloc, 4_294_967_298, at, byte)?;
        assert!(rt; found == Some((4_294_967_298, place)), "{at}: {found:?}");
    }
    // Values, keys and stamps are any, and a closed gate ends the log.
    assert!(rt; damage(alloc, 4_294_967_296, 66, 9)?.is_none());
    assert!(rt; damage(alloc, 4_294_967_296, 67, 0)?.is_none());
    Ok(())
}

// Whether a folder with these bytes takes a row.
fn takes_a_row(alloc: Global, bytes: &[u8]) -> bool {
    let mut disk = MemDisk::new(alloc);
    let written = disk.write(4_294_967_296, 0, bytes).is_ok();
    let put = match opened(alloc, &mut disk, 1) {
        Some(mut region) => {
            let put = put_row(alloc, &mut disk, &mut region, b"a\0", 1, b"b").is_some();
            drop(region);
            put
        }
        None => false,
    };
    let ready = match Region::reopen(alloc, &mut disk, 1) {
        Ok(region) => {
            let ready = region.is_ready();
            drop(region);
            ready
        }
        Err(_) => false,
    };
    drop(disk);
    written && put && ready
}

// A folder that a stop left while its first segment was made has no cells.
#[test]
fn a_half_made_segment_is_none(rt: HostRuntime) -> Result<(), Fail> {
    let alloc = rt.alloc();
    for bytes in [
        b"\x01PHXSEG1\0\0\0\0\0\0\0\x01".as_slice(),
        b"\0PHXSEG1\0\0\0\0\0\0\0\x01\0".as_slice(),
        b"\xffrubbish".as_slice(),
    ] {
        assert!(rt; takes_a_row(alloc, bytes));
    }
    Ok(())
}

fn roll(alloc: Global, disk: &mut MemDisk, manifest: &mut Manifest) -> Option<()> {
    let mut frame = Frame::with_room(alloc, manifest.snapshot().body_len()).ok()?;
    let done = manifest.roll_step(disk, &mut frame).is_ok();
    drop(frame);
    if done { Some(()) } else { None }
}

// One file, without its bytes.
fn with_file(alloc: Global) -> Option<Snapshot>
    ensures right { IfSome result (λ s. IsSnapshot (snapshot_of s)) }
    ensures one { IfSome result (λ s. length (files_of s) ≡ 1) }
{
    let files = vec![in alloc;
        FileEntry {
            local: 5,
            len: 33,
            cells: 2
        },
    ]
    .ok()?;
    Some(Snapshot {
        flushed: 1,
        horizon: 0,
        stamp: 1,
        compactions: 0,
        files,
    })
}

fn append_file(alloc: Global, disk: &mut MemDisk, manifest: &mut Manifest) -> Option<()> {
    for _ in 0..3 {
        roll(alloc, disk, manifest)?;
    }
    if !manifest.is_open() || manifest.is_rolling() {
        return None;
    }
    let mut frame = Frame::with_room(alloc, 46).ok()?;
    let done = match with_file(alloc) {
        Some(snapshot) => manifest.append(disk, snapshot, &mut frame).is_ok(),
        None => false,
    };
    drop(frame);
    if done { Some(()) } else { None }
}

// Makes a manifest that names a file, which lacks.
fn name_file(alloc: Global, disk: &mut MemDisk) -> Option<()> {
    let mut manifest = Manifest::start(alloc, disk, 1).ok()?;
    let done = append_file(alloc, disk, &mut manifest);
    drop(manifest);
    done
}

#[test]
fn a_file_that_lacks_is_damaged(rt: HostRuntime) -> Result<(), Fail> {
    let mut disk = MemDisk::new(rt.alloc());
    let named = name_file(rt.alloc(), &mut disk).is_some();
    let found = told(rt.alloc(), &mut disk);
    drop(disk);
    assert!(rt; named);
    assert!(rt; found == Some((4_294_967_301, 0)));
    Ok(())
}
