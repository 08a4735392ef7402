use crate::pieces::{flush, is_shown, opened, put_row, shown};
use px_outside::{Choice, Disk, MemDisk};
use px_region::{ForgetStep, Region};
use px_tests_stops::{Run, calls_of, stops_well};
use px_wal::local_file;
use std::alloc::Global;
use std::process::Abort;
use std::test::Fail;

/// Orders a compaction that forgets at a horizon, makes the steps until it did, and answers their number.
fn forget(disk: &mut MemDisk, region: &mut Region, horizon: u64) -> Option<u64> {
    region.order_compact();
    for steps in 1..200u64 {
        if region.wants_to_forget() && !region.is_due() {
            region.begin_forgetting::<MemDisk>(horizon);
        }
        if region.forget_step(disk, horizon).ok()? == ForgetStep::Forgot {
            return Some(steps);
        }
    }
    None
}

// A row is written three times, of which two are flushed, and another one once.
fn fill(alloc: Global, disk: &mut MemDisk, region: &mut Region) -> Option<()> {
    put_row(alloc, disk, region, b"a\0", 1, b"1")?;
    flush(disk, region)?;
    put_row(alloc, disk, region, b"a\0", 2, b"2")?;
    put_row(alloc, disk, region, b"b\0", 2, b"4")?;
    flush(disk, region)?;
    put_row(alloc, disk, region, b"a\0", 3, b"3")?;
    Some(())
}

// What is read of them all, and what a horizon of 2 keeps.
const ALL: &[u8] = b"a\0a\0a\0a\x003a\x002a\x001b\0b\x004";

const KEPT: &[u8] = b"a\0a\0a\x003a\x002b\0b\x004";

fn forgot(alloc: Global, disk: &mut MemDisk, region: &mut Region) -> Option<&'static str> {
    if fill(alloc, disk, region).is_none() {
        return Some("filled");
    }
    if !is_shown(shown(alloc, disk, region), ALL) {
        return Some("all");
    }
    if forget(disk, region, 2).is_none() || region.wants_to_forget() {
        return Some("forgot");
    }
    if !is_shown(shown(alloc, disk, region), KEPT) {
        return Some("kept");
    }
    if region.horizon() != 2 || region.file_count() != 1 || region.logged_cells() != 0 {
        return Some("named");
    }
    None
}

#[test]
fn a_region_forgets_in_memory_and_on_the_disk(rt: HostRuntime) -> Result<(), Fail> {
    let alloc = rt.alloc();
    let mut disk = MemDisk::new(alloc);
    let done = forget_on_disk(&rt, alloc, &mut disk);
    drop(disk);
    done
}

fn forget_on_disk(rt: &impl Abort, alloc: Global, disk: &mut MemDisk) -> Result<(), Fail> {
    let mut region = opened(alloc, disk, 3).ok_or("not opened")?;
    let wrong = forgot(alloc, disk, &mut region);
    drop(region);
    assert!(rt; wrong.is_none(), "{wrong:?}");
    let mut again = opened(alloc, disk, 3).ok_or("not opened")?;
    let same = is_shown(shown(alloc, disk, &mut again), KEPT);
    let horizon = again.horizon();
    drop(again);
    assert!(rt; same && horizon == 2);
    Ok(())
}

// A row comes at the horizon while a compaction that forgets is under way, and is kept.
fn interrupted(alloc: Global, disk: &mut MemDisk, region: &mut Region) -> Option<()> {
    fill(alloc, disk, region)?;
    flush(disk, region)?;
    region.order_compact();
    region.begin_forgetting::<MemDisk>(2);
    for _ in 0..3 {
        region.forget_step(disk, 2).ok()?;
    }
    put_row(alloc, disk, region, b"c\0", 2, b"5")?;
    let mut horizon = 0;
    for _ in 0..20 {
        region.forget_step(disk, 2).ok()?;
        horizon = region.horizon();
    }
    if horizon != 0 {
        return None;
    }
    forget(disk, region, 2)?;
    Some(())
}

#[test]
fn a_cell_at_the_horizon_puts_it_off(rt: HostRuntime) -> Result<(), Fail> {
    let alloc = rt.alloc();
    let mut disk = MemDisk::new(alloc);
    let done = put_off(&rt, alloc, &mut disk);
    drop(disk);
    done
}

fn put_off(rt: &impl Abort, alloc: Global, disk: &mut MemDisk) -> Result<(), Fail> {
    let mut region = opened(alloc, disk, 3).ok_or("not opened")?;
    let done = interrupted(alloc, disk, &mut region);
    let kept = is_shown(
        shown(alloc, disk, &mut region),
        b"a\0a\0a\x003a\x002b\0b\x004c\0c\x005",
    );
    let horizon = region.horizon();
    drop(region);
    assert!(rt; done == Some(()) && kept && horizon == 2);
    Ok(())
}

// What a horizon hid that isn't the one of the compaction isn't forgotten.
#[test]
fn another_horizon_begins_anew(rt: HostRuntime) -> Result<(), Fail> {
    let alloc = rt.alloc();
    let mut disk = MemDisk::new(alloc);
    let done = begin_anew(&rt, alloc, &mut disk);
    drop(disk);
    done
}

fn begin_anew(rt: &impl Abort, alloc: Global, disk: &mut MemDisk) -> Result<(), Fail> {
    let mut region = opened(alloc, disk, 3).ok_or("not opened")?;
    let filled = fill(alloc, disk, &mut region).is_some() && flush(disk, &mut region).is_some();
    region.order_compact();
    region.begin_forgetting::<MemDisk>(1);
    let given_up = matches!(region.forget_step(disk, 2), Ok(ForgetStep::More))
        && region.wants_to_forget();
    let done = forget(disk, &mut region, 2);
    let kept = is_shown(shown(alloc, disk, &mut region), KEPT);
    let horizon = region.horizon();
    // One that isn't above the horizon of before isn't wanted.
    region.order_compact();
    region.begin_forgetting::<MemDisk>(1);
    let wanted = region.wants_to_forget();
    drop(region);
    assert!(rt; filled && given_up && done.is_some() && kept && horizon == 2 && !wanted);
    Ok(())
}

// A row that stands in the log at the horizon is flushed before, by a region that is opened again too.
#[test]
fn a_region_forgets_what_it_read_again(rt: HostRuntime) -> Result<(), Fail> {
    let alloc = rt.alloc();
    let mut disk = MemDisk::new(alloc);
    let done = forget_behind_reopening(&rt, alloc, &mut disk);
    drop(disk);
    done
}

fn forget_behind_reopening(rt: &impl Abort, alloc: Global, disk: &mut MemDisk) -> Result<(), Fail> {
    let mut region = opened(alloc, disk, 3).ok_or("not opened")?;
    let filled = fill(alloc, disk, &mut region).is_some();
    drop(region);
    let mut again = opened(alloc, disk, 3).ok_or("not opened again")?;
    let steps = forget(disk, &mut again, 3);
    let kept = is_shown(shown(alloc, disk, &mut again), b"a\0a\x003b\0b\x004");
    let horizon = again.horizon();
    drop(again);
    assert!(rt; filled && kept && horizon == 3, "{steps:?}");
    Ok(())
}

// Puts other bytes at the place where these are first in a file.
fn put_over(disk: &mut MemDisk, file: u64, found: &[u8], put: &[u8]) -> Option<()> {
    let mut bytes = [0u8; 256];
    let read = disk.read(file, 0, &mut bytes).ok()?;
    for at in 0..read {
        if bytes[at..read].starts_with(found) {
            return disk.write(file, at as u64, put).ok();
        }
    }
    None
}

// The second file gets the stamp 1 where it had 2, behind the back of the region.
fn changed(alloc: Global, disk: &mut MemDisk, region: &mut Region) -> Option<()> {
    fill(alloc, disk, region)?;
    flush(disk, region)?;
    for qualifier in [1u8, 3] {
        let had = [97, 0, qualifier, 0, 0, 0, 0, 0, 0, 0, 2];
        let has = [97, 0, qualifier, 0, 0, 0, 0, 0, 0, 0, 1];
        put_over(disk, local_file(3, SECOND), &had, &has)?;
    }
    Some(())
}

// The local number of the second file of cells: the log has two before them, and the manifest.
const SECOND: u32 = 5;

// What is read stays as it is where a file has other cells than were written: the compaction is given up.
#[test]
fn a_file_of_other_cells_takes_none_from_memory(rt: HostRuntime) -> Result<(), Fail> {
    let alloc = rt.alloc();
    let mut disk = MemDisk::new(alloc);
    let done = keep_all(&rt, alloc, &mut disk);
    drop(disk);
    done
}

fn keep_all(rt: &impl Abort, alloc: Global, disk: &mut MemDisk) -> Result<(), Fail> {
    let mut region = opened(alloc, disk, 3).ok_or("not opened")?;
    let changed = changed(alloc, disk, &mut region).is_some();
    let steps = forget(disk, &mut region, 2);
    let all = is_shown(shown(alloc, disk, &mut region), ALL);
    let horizon = region.horizon();
    let wanted = region.wants_to_forget();
    drop(region);
    assert!(rt;
        changed && steps.is_none() && all && horizon == 0 && !wanted,
        "{steps:?} {changed} {all} {horizon}"
    );
    Ok(())
}

// ---- stops

fn filled(alloc: Global, disk: &mut MemDisk) -> Option<Region> {
    let mut region = opened(alloc, disk, 3)?;
    match fill(alloc, disk, &mut region) {
        Some(()) => Some(region),
        None => {
            drop(region);
            None
        }
    }
}

// How many calls of the disk the rows take.
fn calls_of_rows(alloc: Global) -> Option<u64> {
    let mut disk = MemDisk::new(alloc);
    let is_filled = match filled(alloc, &mut disk) {
        Some(region) => {
            drop(region);
            true
        }
        None => false,
    };
    let calls = disk.calls_made().len() as u64;
    drop(disk);
    if is_filled { Some(calls) } else { None }
}

/// Rows, and then what a horizon hides of them is forgotten.
struct Forgettings;

impl Run for Forgettings {
    fn make(&self, alloc: Global, disk: &mut MemDisk, told: &mut u64) -> Option<()> {
        let mut region = filled(alloc, disk)?;
        *told = 1;
        let done = forget(disk, &mut region, 2);
        drop(region);
        done?;
        *told = 2;
        Some(())
    }

    fn shown(&self, alloc: Global, image: &mut MemDisk) -> Option<u64> {
        let mut region = opened(alloc, image, 3)?;
        let all = is_shown(shown(alloc, image, &mut region), ALL) && region.horizon() == 0;
        let kept = is_shown(shown(alloc, image, &mut region), KEPT) && region.horizon() == 2;
        let goes_on = forget(image, &mut region, 2).is_some()
            && is_shown(shown(alloc, image, &mut region), KEPT);
        drop(region);
        match (goes_on, all, kept) {
            (true, true, false) => Some(1),
            (true, false, true) => Some(2),
            _ => None,
        }
    }
}

#[test]
fn a_stop_leaves_all_or_what_is_kept(rt: HostRuntime) -> Result<(), Fail> {
    let alloc = rt.alloc();
    let first = calls_of_rows(alloc).ok_or("not filled")?;
    let (calls, told) = calls_of(alloc, &Forgettings).ok_or("not run")?;
    assert!(rt;
        first.saturating_add(20) < calls && told == 2,
        "{first} {calls}"
    );
    // The first call behind the rows is the one after those made.
    for call in first.saturating_add(1)..calls.saturating_add(1) {
        for choice in [Choice::Old, Choice::New, Choice::Fill(1)] {
            assert!(rt;
                stops_well(alloc, &Forgettings, call, choice),
                "call {call}"
            );
        }
    }
    Ok(())
}
