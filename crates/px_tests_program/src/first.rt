// The first runs: their rows, their file, and words that are no command.
use crate::expected::expect_printed;
use crate::runs::{
    FIRST_SCRIPT, FIRST_SEGMENT, Run, bytes_of, disk_of, is_printed, prints, run_again, run_new,
    run_words, words_of,
};
use px_outside::{Disk, MemDisk};
use px_program::{Status, folder_disk};
use std::alloc::{AllocError, Global};
use std::process::Abort;
use std::sync::Wait;
use std::thread::Threads;

/// Whether the first file of region 1's log has exactly these bytes.
fn has_file(disk: &mut MemDisk, bytes: &[u8]) -> bool {
    let mut front = [0u8; 68];
    let (Ok(len), Ok(n)) = (
        disk.len(4_294_967_296),
        disk.read(4_294_967_296, 0, &mut front),
    ) else {
        return false;
    };
    len == 68 && n == 68 && front.as_slice() == bytes
}

/// Stops the test where the first run printed otherwise, or did more or less.
fn expect_first(rt: &impl Abort, run: &Run, text: &str) {
    assert!(rt; is_printed(run, Status::Done, text));
    assert_eq!(rt; run.entries, 7);
}

/// Stops the test where the file is another one.
fn expect_file(rt: &impl Abort, disk: &mut MemDisk) {
    assert!(rt; has_file(disk, &FIRST_SEGMENT));
}

#[test]
fn the_first_run_prints_its_row_and_leaves_its_file(rt: HostRuntime) {
    let alloc = rt.alloc();
    let run = run_new(&rt, alloc, FIRST_SCRIPT).expect(&rt, "no memory");
    let text = "1 row affected\n'a', 'b'\n1 row selected\n";
    expect_first(&rt, &run, text);
    let mut disk = disk_of(run);
    expect_file(&rt, &mut disk);
    let again = run_again(&rt, alloc, disk, FIRST_SCRIPT).expect(&rt, "no memory");
    assert!(rt; prints(again, Status::Done, text));
}

#[test]
fn an_empty_script_prints_nothing(rt: HostRuntime) {
    let run = run_new(&rt, rt.alloc(), "").expect(&rt, "no memory");
    let entries = run.entries;
    assert!(rt; prints(run, Status::Done, ""));
    assert_eq!(rt; entries, 0);
}

#[test]
fn rows_are_kept_in_key_order_over_runs(rt: HostRuntime) {
    let alloc = rt.alloc();
    let first = "UPSERT INTO KV VALUES ('b','1');\nUPSERT INTO KV VALUES ('a','2');";
    let run = run_new(&rt, alloc, first).expect(&rt, "no memory");
    let text = "1 row affected\n1 row affected\n";
    expect_printed(&rt, &run, Status::Done, text, "the first run");
    let then = "UPSERT INTO KV VALUES ('b','3'); SELECT * FROM KV";
    let again = run_again(&rt, alloc, disk_of(run), then).expect(&rt, "no memory");
    let text = "1 row affected\n'a', '2'\n'b', '3'\n2 rows selected\n";
    assert!(rt; prints(again, Status::Done, text));
}

#[test]
fn bad_words_touch_nothing(rt: HostRuntime) {
    let alloc = rt.alloc();
    for line in [
        "",
        "run",
        "run ",
        "run --",
        "run -d",
        "runs d",
        "run d d",
        "run run d",
        "run d --",
        "run d --lookback -1",
        "run d --lookback",
        "run d --lookback 2 --lookback 2",
        "run d --lookback 9223372036854775808",
        "verify d",
        "verify d --table T --index I",
        "run d --table T",
    ] {
        let disk = MemDisk::new(alloc);
        let run = run_words(&rt, alloc, line, disk, FIRST_SCRIPT).expect(&rt, "no memory");
        let is_untouched = run.disk.calls_made().is_empty();
        assert!(rt; prints(run, Status::BadWords, ""));
        assert!(rt; is_untouched);
    }
}

/// Writes these bytes into a file, and syncs it.
fn write_synced(rt: &impl Abort, disk: &mut MemDisk, file: u64, at: u64, bytes: &[u8]) {
    assert!(rt; disk.write(file, at, bytes).is_ok());
    assert!(rt; disk.sync(file).is_ok());
}

#[test]
fn a_damaged_log_is_refused_at_its_place(rt: HostRuntime) {
    let alloc = rt.alloc();
    let mut disk = MemDisk::new(alloc);
    let mut bytes = FIRST_SEGMENT;
    bytes[17] = 3;
    write_synced(&rt, &mut disk, 4_294_967_296, 0, &bytes);
    let run = run_again(&rt, alloc, disk, FIRST_SCRIPT).expect(&rt, "no memory");
    let status = Status::Damaged {
        file: 4_294_967_296,
        place: 17,
    };
    assert!(rt; prints(run, status, ""));
}

#[test]
fn a_folder_without_a_catalogue_has_its_row(rt: HostRuntime) -> Result<(), AllocError> {
    let alloc = rt.alloc();
    let mut disk = MemDisk::new(alloc);
    write_synced(&rt, &mut disk, 4_294_967_296, 0, &FIRST_SEGMENT);
    let script = "SELECT * FROM KV; UPSERT INTO KV VALUES ('b','c'); SELECT * FROM KV;";
    let run = run_again(&rt, alloc, disk, script)?;
    let text = "'a', 'b'\n1 row selected\n1 row affected\n'a', 'b'\n'b', 'c'\n2 rows selected\n";
    assert!(rt; prints(run, Status::Done, text));
    Ok(())
}

#[test]
fn a_damaged_manifest_is_refused_at_its_place(rt: HostRuntime) -> Result<(), AllocError> {
    let alloc = rt.alloc();
    let script = "UPSERT INTO KV VALUES ('a','b'); SELECT * FROM KV;\n!flush\n";
    let flushed = run_new(&rt, alloc, script)?;
    let text = "1 row affected\n'a', 'b'\n1 row selected\nflushed\n";
    expect_printed(&rt, &flushed, Status::Done, text, "flushed");
    let mut disk = disk_of(flushed).image();
    write_synced(&rt, &mut disk, 4_294_967_298, 17, &[7]);
    let run = run_again(&rt, alloc, disk, FIRST_SCRIPT)?;
    let status = Status::Damaged {
        file: 4_294_967_298,
        place: 17,
    };
    let entries = run.entries;
    let printed = prints(run, status, "");
    assert!(rt; printed && entries == 0);
    Ok(())
}

/// The value of the long row: characters of two, three and four bytes.
const LONG_VALUE: &str = "\u{fc}\u{20ac}\u{1f600}";

/// The first segment of region 1's log with one row: a key of 1,023 letters, LONG_VALUE, and the greatest stamp.
fn long_segment(alloc: Global) -> Result<Vec<u8>, AllocError> {
    let mut bytes = Vec::new(alloc);
    bytes.extend_from_slice(&FIRST_SEGMENT[..18])?;
    bytes.extend_from_slice(&[0, 0, 0x08, 0x31])?;
    bytes.extend_from_slice(&FIRST_SEGMENT[22..34])?;
    for (qualifier, len, value) in [(1, 0, ""), (3, 9, LONG_VALUE)] {
        bytes.extend_from_slice(&[4, 0])?;
        for _ in 0..1_023 {
            bytes.push(b'k')?;
        }
        bytes.extend_from_slice(&[0, qualifier, 0x7f])?;
        bytes.extend_from_slice(&[0xff, 0xff, 0xff, 0xff, 0xff, 0xff, 0xff, 4])?;
        bytes.extend_from_slice(&[0, len])?;
        bytes.extend_from_slice(value.as_bytes())?;
    }
    bytes.push(0)?;
    Ok(bytes)
}

/// What is printed of the long row, and of an UPSERT for which no stamp is left.
fn long_replies(alloc: Global) -> Result<Vec<u8>, AllocError> {
    let mut bytes = bytes_of(alloc, "'")?;
    for _ in 0..1_023 {
        bytes.push(b'k')?;
    }
    bytes.extend_from_slice(b"', '")?;
    bytes.extend_from_slice(LONG_VALUE.as_bytes())?;
    bytes.extend_from_slice(b"'\n1 row selected\nE11 limit: STAMPS 9223372036854775807\n")?;
    Ok(bytes)
}

/// Whether the long row is read from its file, and no stamp is left behind it.
fn reads_the_long_row<R: Threads + Wait + Sync>(rt: &R, alloc: Global) -> Result<bool, AllocError> {
    let (bytes, replies) = (long_segment(alloc)?, long_replies(alloc)?);
    let mut disk = MemDisk::new(alloc);
    let written = disk.write(4_294_967_296, 0, &bytes).is_ok() && disk.sync(4_294_967_296).is_ok();
    let script = "SELECT * FROM KV; UPSERT INTO KV VALUES ('a','b')";
    let run = run_again(rt, alloc, disk, script)?;
    let is_told = run.status == Status::Refused && run.printed.held() == replies.as_slice();
    drop(run);
    Ok(written && is_told)
}

#[test]
fn a_row_at_its_limits_is_read(rt: HostRuntime) {
    assert!(rt; reads_the_long_row(&rt, rt.alloc()) == Ok(true));
}

#[test]
fn the_words_of_a_command_name_a_disk(rt: HostRuntime) {
    let alloc = rt.alloc();
    for (line, is_named) in [("run folder", true), ("run", false), ("run -d", false)] {
        let words = words_of(alloc, line).expect(&rt, "no memory");
        let is_some = match folder_disk(&rt, alloc, &words) {
            Ok(disk) => {
                let is_some = disk.is_some();
                drop(disk);
                is_some
            }
            Err(_) => panic!(rt; "no memory"),
        };
        drop(words);
        assert_eq!(rt; is_some, is_named);
    }
}

#[test]
fn each_status_has_its_number(rt: HostRuntime) {
    let damaged = Status::Damaged { file: 1, place: 2 };
    for (status, code) in [
        (Status::Done, 0),
        (Status::Refused, 1),
        (Status::BadWords, 2),
        (Status::Device { call: 9 }, 3),
        (Status::Memory, 4),
        (damaged, 5),
        (Status::SourceFault, 6),
        (Status::SinkFault, 7),
    ] {
        assert_eq!(rt; status.code(), code);
    }
}
