// Folders that are right.
use crate::folders::{Found, LOG, ROW_LOG, define, index_body, opened, put};
use px_opening::OpenFault;
use px_outside::{DeviceCall, Disk, MemDisk, Numbers};
use std::alloc::Global;
use std::test::Fail;

#[test]
fn an_empty_folder_has_the_table_kv(rt: HostRuntime) -> Result<(), Fail> {
    let alloc = rt.alloc();
    let mut disk = MemDisk::new(alloc);
    let first = opened(alloc, &mut disk);
    let second = opened(alloc, &mut disk);
    drop(disk);
    let expected = Found {
        groups: 1,
        indexes: 0,
        others: 0,
        last: 0,
        horizon: 0,
        cells: 0,
    };
    assert!(rt; first == Ok(expected), "first");
    assert!(rt; second == Ok(expected), "second");
    Ok(())
}

#[test]
fn rows_of_the_program_are_read(rt: HostRuntime) -> Result<(), Fail> {
    let alloc = rt.alloc();
    let mut disk = MemDisk::new(alloc);
    let written = disk.write(LOG, 0, &ROW_LOG).is_ok();
    let found = opened(alloc, &mut disk);
    drop(disk);
    assert!(rt; written, "written");
    assert!(rt;
        found.is_ok_and(|found| found.groups == 1 && found.last == 1 && found.cells == 2),
        "found"
    );
    Ok(())
}

// The index of a state, with a cell at a stamp in its region.
fn with_index(alloc: Global, state: u8) -> Option<Result<Found, OpenFault>> {
    let mut disk = MemDisk::new(alloc);
    // The key of ('b', 'a'): both texts with their ends. The status 1 at stamp 12.
    let cell = [
        0, 4, b'b', 0, b'a', 0, 1, 0, 0, 0, 0, 0, 0, 0, 12, 4, 0, 1, 1,
    ];
    let made = define(alloc, &mut disk, 3, &index_body(4, 3, state, 9)).is_some()
        && put(alloc, &mut disk, 3, &cell, 1).is_some();
    let found = opened(alloc, &mut disk);
    drop(disk);
    if made { Some(found) } else { None }
}

#[test]
fn an_active_index_is_maintained_and_others_are_not(rt: HostRuntime) -> Result<(), Fail> {
    let alloc = rt.alloc();
    for (state, indexes) in [(0, 0), (1, 1), (2, 0)] {
        let Some(Ok(found)) = with_index(alloc, state) else {
            return Err("not opened".into());
        };
        assert!(rt;
            found.indexes == indexes && found.others == 1 - indexes,
            "{state}"
        );
        assert!(rt; found.last == 12, "{state}: {}", found.last);
    }
    Ok(())
}

// The calls that an opening of an empty folder makes, in order.
fn calls_of_opening(alloc: Global) -> Result<Vec<DeviceCall>, Fail> {
    let mut disk = MemDisk::new(alloc);
    if opened(alloc, &mut disk).is_err() {
        return Err("not opened".into());
    }
    let mut calls = Vec::new(alloc);
    for made in disk.calls_made() {
        calls.push(made.call)?;
    }
    Ok(calls)
}

// What is told where that call fails.
fn fault_of(call: DeviceCall) -> OpenFault {
    match call {
        DeviceCall::Len | DeviceCall::Read => OpenFault::ReadFault,
        DeviceCall::Write | DeviceCall::Cut | DeviceCall::Sync => OpenFault::WriteFault,
    }
}

#[test]
fn a_failed_call_is_told(rt: HostRuntime) -> Result<(), Fail> {
    let alloc = rt.alloc();
    let calls = calls_of_opening(alloc)?;
    assert!(rt; calls.len() == 27);
    let mut number: u64 = 0;
    for call in &calls {
        number = number.saturating_add(1);
        let mut disk = MemDisk::new(alloc).fail_at(Numbers::of(vec![in alloc; number]?));
        let found = opened(alloc, &mut disk);
        let made = disk.calls_made().len() as u64;
        drop(disk);
        assert!(rt; found == Err(fault_of(*call)), "{number}");
        // Nothing is asked of the disk behind it.
        assert!(rt; made == number, "{number}");
    }
    Ok(())
}
