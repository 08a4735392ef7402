// Tables whose logs are flushed.
use crate::expected::expect_printed;
use crate::runs::{Run, disk_of, is_printed, prints, run_again, run_new};
use crate::stops::stopped;
use px_outside::{Choice, Disk, MemDisk};
use px_program::Status;
use std::alloc::{AllocError, Global};
use std::process::Abort;
use std::sync::Wait;
use std::thread::Threads;

/// The first file of cells of KV's region.
const FIRST_FILE: u64 = 4_294_967_300;

/// The first segment of the manifest of KV's region.
const MANIFEST: u64 = 4_294_967_298;

/// Adds a number as four digits.
fn push_number(to: &mut String, number: u32) -> Result<(), AllocError> {
    for place in [1000, 100, 10, 1] {
        to.push((b'0' + (number / place % 10) as u8) as char)?;
    }
    Ok(())
}

/// A script that puts so many rows into KV, each of two cells, in batches of a thousand.
fn filling(alloc: Global, rows: u32) -> Result<String, AllocError> {
    let mut script = String::from_str(alloc, "!autocommit off\n")?;
    for row in 0..rows {
        script.push_str("UPSERT INTO KV VALUES ('")?;
        push_number(&mut script, row)?;
        script.push_str("','v');\n")?;
        if row % 1000 == 999 {
            script.push_str("!commit\n")?;
        }
    }
    Ok(script)
}

/// What a SELECT of all keys prints where KV has so many rows.
fn told(alloc: Global, rows: u32) -> Result<String, AllocError> {
    let mut text = String::new(alloc);
    for row in 0..rows {
        text.push('\'')?;
        push_number(&mut text, row)?;
        text.push_str("'\n")?;
    }
    push_number(&mut text, rows)?;
    text.push_str(" rows selected\n")?;
    Ok(text)
}

/// Whether a run tells all rows of nine batches and no other, or of eight where the last may lack.
fn tells(alloc: Global, run: &Run, may_lack: bool) -> Result<bool, AllocError> {
    let (eight, nine) = (told(alloc, 8000)?, told(alloc, 9000)?);
    Ok(is_printed(run, Status::Done, &nine) || may_lack && is_printed(run, Status::Done, &eight))
}

/// Whether a disk shows all rows of nine batches and no other, or of eight where the last may lack.
fn shows<R: Threads + Wait + Sync>(
    rt: &R,
    alloc: Global,
    disk: MemDisk,
    may_lack: bool,
) -> Result<bool, AllocError> {
    let run = run_again(rt, alloc, disk, "SELECT K FROM KV;\n")?;
    let shown = tells(alloc, &run, may_lack);
    drop(run);
    shown
}

/// A run of the script on an empty folder: the calls it made, and the disk.
fn filled<R: Threads + Wait + Sync>(
    rt: &R,
    alloc: Global,
    script: &str,
) -> Result<(u64, MemDisk), AllocError> {
    let run = run_new(rt, alloc, script)?;
    let calls = run.disk.calls_made().len() as u64;
    Ok((calls, disk_of(run)))
}

/// Stops the test where the file is shorter than 300,000 bytes.
fn expect_long(rt: &impl Abort, len: u64) {
    assert!(rt; len > 300_000, "{len}");
}

// The ninth batch would pass 16,384 cells, so those before it go to a file.
#[test]
fn a_full_log_goes_to_a_file(rt: HostRuntime) -> Result<(), AllocError> {
    let alloc = rt.alloc();
    let script = filling(alloc, 9000)?;
    let (_calls, mut disk) = filled(&rt, alloc, &script)?;
    let len = disk.len(FIRST_FILE).unwrap_or(0);
    expect_long(&rt, len);
    assert!(rt; shows(&rt, alloc, disk, false)?);
    Ok(())
}

/// Whether a stop in that call leaves what was acknowledged: eight batches, or all nine.
fn keeps<R: Threads + Wait + Sync>(
    rt: &R,
    alloc: Global,
    call: u64,
    choice: Choice,
    script: &str,
) -> Result<bool, AllocError> {
    match stopped(rt, alloc, MemDisk::new(alloc), call, choice, script)? {
        None => Ok(false),
        Some(left) => shows(rt, alloc, left, true),
    }
}

/// How many calls a run of so many rows makes.
fn calls_of<R: Threads + Wait + Sync>(rt: &R, alloc: Global, rows: u32) -> Result<u64, AllocError> {
    let script = filling(alloc, rows)?;
    let (calls, disk) = filled(rt, alloc, &script)?;
    drop(disk);
    Ok(calls)
}

// What a run of nine batches does more than one of eight is the flush, and the ninth batch.
#[test]
fn a_stop_in_a_flush_leaves_what_was_acknowledged(rt: HostRuntime) -> Result<(), AllocError> {
    let alloc = rt.alloc();
    let script = filling(alloc, 9000)?;
    let before = calls_of(&rt, alloc, 8000)?;
    let calls = calls_of(&rt, alloc, 9000)?;
    assert!(rt;
        before.saturating_add(20) < calls && calls < before.saturating_add(80),
        "{before} {calls}"
    );
    for step in 0..40 {
        let call = before.saturating_add(1 + 2 * step);
        if call > calls {
            return Ok(());
        }
        for choice in [Choice::Old, Choice::New, Choice::Fill(1)] {
            assert!(rt;
                keeps(&rt, alloc, call, choice, &script)?,
                "{call} {choice:?}"
            );
        }
    }
    Ok(())
}

const ROW: &str = "UPSERT INTO KV VALUES ('a','1');\n";

const FLUSHED: &str = "UPSERT INTO KV VALUES ('a','1');\n!flush\n";

/// Stops the test where the first file of cells is empty.
fn expect_cells(rt: &impl Abort, disk: &mut MemDisk) {
    assert!(rt; disk.len(FIRST_FILE).unwrap_or(0) > 0);
}

#[test]
fn what_is_flushed_stands_in_a_file(rt: HostRuntime) -> Result<(), AllocError> {
    let alloc = rt.alloc();
    let run = run_new(&rt, alloc, FLUSHED)?;
    let text = "1 row affected\nflushed\n";
    expect_printed(&rt, &run, Status::Done, text, "the first run");
    let mut disk = disk_of(run);
    expect_cells(&rt, &mut disk);
    let run = run_again(&rt, alloc, disk, "!flush\nSELECT * FROM KV;\n")?;
    let text = "flushed\n'a', '1'\n1 row selected\n";
    assert!(rt; prints(run, Status::Done, text));
    Ok(())
}

/// Gives the manifest's first record a kind that isn't one.
fn damage_manifest(rt: &impl Abort, disk: &mut MemDisk) {
    assert!(rt; disk.write(MANIFEST, 17, &[7]).is_ok() && disk.sync(MANIFEST).is_ok());
}

#[test]
fn a_damaged_manifest_is_refused_at_its_place(rt: HostRuntime) -> Result<(), AllocError> {
    let alloc = rt.alloc();
    let script = "UPSERT INTO KV VALUES ('a','b'); SELECT * FROM KV;\n!flush\n";
    let run = run_new(&rt, alloc, script)?;
    let text = "1 row affected\n'a', 'b'\n1 row selected\nflushed\n";
    expect_printed(&rt, &run, Status::Done, text, "the first run");
    let mut disk = disk_of(run);
    damage_manifest(&rt, &mut disk);
    let run = run_again(&rt, alloc, disk, "SELECT * FROM KV")?;
    let status = Status::Damaged {
        file: MANIFEST,
        place: 17,
    };
    let entries = run.entries;
    let printed = prints(run, status, "");
    assert!(rt; printed && entries == 0);
    Ok(())
}

/// Whether what a stop in that call leaves shows the row, also flushed once more.
fn leaves_the_row<R: Threads + Wait + Sync>(
    rt: &R,
    alloc: Global,
    call: u64,
    choice: Choice,
) -> Result<bool, AllocError> {
    match stopped(rt, alloc, MemDisk::new(alloc), call, choice, FLUSHED)? {
        None => Err(AllocError),
        Some(left) => {
            let run = run_again(rt, alloc, left, "!flush\nSELECT * FROM KV")?;
            let text = "flushed\n'a', '1'\n1 row selected\n";
            Ok(prints(run, Status::Done, text))
        }
    }
}

// Whatever a stop in one of its calls leaves, the row was acknowledged before.
#[test]
fn a_stop_in_an_ordered_flush_leaves_the_row(rt: HostRuntime) -> Result<(), AllocError> {
    let alloc = rt.alloc();
    let (before, disk) = filled(&rt, alloc, ROW)?;
    drop(disk);
    let (calls, disk) = filled(&rt, alloc, FLUSHED)?;
    drop(disk);
    assert!(rt; before.saturating_add(10) < calls, "{before} {calls}");
    for call in before.saturating_add(1)..calls.saturating_add(1) {
        for choice in [Choice::Old, Choice::New, Choice::Fill(1)] {
            assert!(rt;
                leaves_the_row(&rt, alloc, call, choice)?,
                "{call} {choice:?}"
            );
        }
    }
    Ok(())
}
