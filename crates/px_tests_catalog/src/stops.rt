use crate::{add, table_body};
use px_catalog::Catalog;
use px_outside::{CallMade, DeviceCall, Disk, MemDisk};
use px_schema::Standing;
use px_tests_stops::{CHOICES, Run, calls_of, stop};
use std::alloc::Global;
use std::test::Fail;

/// How many definitions and drops a run has.
const MOST: u64 = 5;

/// Makes tables, drops some, renews the catalogue and makes another; counts what was told to be there.
fn steps(alloc: Global, disk: &mut MemDisk, catalog: &mut Catalog, told: &mut u64) -> Option<()> {
    add(alloc, disk, catalog, 2, &table_body(4, 3, b'T'))?;
    *told = 1;
    add(alloc, disk, catalog, 2, &table_body(6, 5, b'U'))?;
    *told = 2;
    add(alloc, disk, catalog, 4, &[0, 0, 0, 6])?;
    *told = 3;
    for _ in 0..3 {
        catalog.roll_step(disk).ok()?;
    }
    add(alloc, disk, catalog, 4, &[0, 0, 0, 2])?;
    *told = 4;
    for _ in 0..3 {
        catalog.roll_step(disk).ok()?;
    }
    add(alloc, disk, catalog, 2, &table_body(8, 7, b'W'))?;
    *told = 5;
    Some(())
}

fn run(alloc: Global, disk: &mut MemDisk, told: &mut u64) -> Option<()> {
    let mut catalog = Catalog::start(alloc, disk).ok()?;
    let done = steps(alloc, disk, &mut catalog, told);
    drop(catalog);
    done
}

/// The next number and the tables after so many definitions and drops.
fn numbers_after(count: u64) -> &'static [u32] {
    match count {
        0 => &[3, 2],
        1 => &[5, 2, 4],
        2 => &[7, 2, 4, 6],
        3 => &[7, 2, 4],
        4 => &[7, 4],
        _ => &[9, 4, 8],
    }
}

fn has_numbers(standing: &Standing, numbers: &[u32]) -> bool {
    match numbers {
        [] => false,
        [next, tables @ ..] => {
            standing.next == *next
                && standing.tables.as_slice().len() == tables.len()
                && standing
                    .tables
                    .as_slice()
                    .iter()
                    .zip(tables)
                    .all(|(table, number)| table.id.0 == *number)
        }
    }
}

/// After which of them this stands.
fn count_of(standing: &Standing) -> Option<u64> {
    for count in 0..=MOST {
        if has_numbers(standing, numbers_after(count)) {
            return Some(count);
        }
    }
    None
}

/// After how many of them this stands, and the next number, if it takes one more.
fn takes_one(alloc: Global, image: &mut MemDisk, catalog: &mut Catalog) -> Option<(u64, u8)> {
    let count = count_of(catalog.standing())?;
    let next = (catalog.standing().next % 100) as u8;
    add(alloc, image, catalog, 2, &table_body(next + 1, next, b'X'))?;
    Some((count, next))
}

/// After how many of them an image stands, if it takes one more and is the same when it is opened again.
fn opens(alloc: Global, image: &mut MemDisk) -> Option<u64> {
    let mut catalog = Catalog::start(alloc, image).ok()?;
    let taken = takes_one(alloc, image, &mut catalog);
    drop(catalog);
    let (count, next) = taken?;
    let again = Catalog::reopen(alloc, image).ok()?;
    let standing = again.standing();
    let more = standing.next == u32::from(next) + 2
        && standing.tables.as_slice().len() == numbers_after(count).len();
    drop(again);
    if more { Some(count) } else { None }
}

/// Definitions and drops, between which the catalogue is renewed.
struct Definitions;

impl Run for Definitions {
    fn make(&self, alloc: Global, disk: &mut MemDisk, told: &mut u64) -> Option<()> {
        run(alloc, disk, told)
    }

    fn shown(&self, alloc: Global, image: &mut MemDisk) -> Option<u64> {
        opens(alloc, image)
    }
}

#[test]
fn a_stop_leaves_a_definition_whole_or_not_at_all(rt: HostRuntime) -> Result<(), Fail> {
    let alloc = rt.alloc();
    let (calls, told) = calls_of(alloc, &Definitions).ok_or("not ended")?;
    assert!(rt; told == MOST && calls > 40 && calls < 60, "{calls}");
    for call in 1..=calls {
        for choice in CHOICES {
            let left = stop(alloc, &Definitions, call, choice);
            assert!(rt; !left.whole && left.is_well(), "call {call}");
        }
    }
    Ok(())
}

/// Does the calls before this one again, and of its bytes so many.
fn done_again(disk: &mut MemDisk, calls: &[CallMade], at: usize, bytes: usize) -> Option<()> {
    for (i, made) in calls.iter().enumerate() {
        if made.call == DeviceCall::Write && i < at {
            disk.write(made.file, made.at, made.bytes.as_slice()).ok()?;
        }
        if made.call == DeviceCall::Write && i == at {
            let front = made.bytes.as_slice().get(..bytes)?;
            disk.write(made.file, made.at, front).ok()?;
        }
    }
    Some(())
}

/// After how many of them what such a cut leaves stands.
fn count_of_cut(alloc: Global, calls: &[CallMade], at: usize, bytes: usize) -> Option<u64> {
    let mut disk = MemDisk::new(alloc);
    let done = done_again(&mut disk, calls, at, bytes).is_some();
    let count = opens(alloc, &mut disk);
    drop(disk);
    if done { count } else { None }
}

/// After how many of them the last write leaves the catalogue, or the call in which a cut leaves another.
fn count_of_cuts(alloc: Global, calls: &[CallMade]) -> Result<u64, usize> {
    let mut before = 0;
    for (at, made) in calls.iter().enumerate() {
        if made.call == DeviceCall::Write {
            let mut last = before;
            for bytes in 0..=made.bytes.len() {
                last = count_of_cut(alloc, calls, at, bytes).ok_or(at)?;
                if last != before && last != before.saturating_add(1) {
                    return Err(at);
                }
            }
            before = last;
        }
    }
    Ok(before)
}

/// A write that is cut inside leaves what stood before it, or what stands after it.
#[test]
fn a_write_may_be_cut_anywhere(rt: HostRuntime) -> Result<(), Fail> {
    let alloc = rt.alloc();
    let mut told = 0;
    let mut disk = MemDisk::new(alloc);
    let ended = run(alloc, &mut disk, &mut told).is_some();
    let count = count_of_cuts(alloc, disk.calls_made());
    drop(disk);
    assert!(rt; ended);
    assert!(rt; count == Ok(MOST), "{count:?}");
    Ok(())
}
