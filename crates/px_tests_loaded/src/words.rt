// The words of the command, and what it tells.
use px_outside::{MemDisk, MemSink, MemSource, Numbers};
use px_program::Status;
use px_tests_program::runs::{bytes_of, disk_of, is_printed, run_again, run_between, run_words};
use std::alloc::{AllocError, Global};
use std::sync::Wait;
use std::thread::Threads;

const ONE: &str = "load 0 rows 1\ntable rows 1\nindex rows 1\namount 937\n";

/// Whether these words on an empty folder end so and print this.
fn say<R: Threads + Wait + Sync>(
    rt: &R,
    alloc: Global,
    words: &str,
    status: Status,
    text: &str,
) -> Result<bool, AllocError> {
    let run = run_words(rt, alloc, words, MemDisk::new(alloc), "")?;
    Ok(is_printed(&run, status, text))
}

#[test]
fn options_stand_in_any_order(rt: HostRuntime) {
    let alloc = rt.alloc();
    for words in [
        "load d --number 0 --rows 1",
        "load --rows 1 --number 0 d",
        "load --rows=1 d --number=0",
        "load --number=000 --rows 0000000000000000000000001 a=b",
    ] {
        assert!(rt;
            say(&rt, alloc, words, Status::Done, ONE) == Ok(true),
            "{words}"
        );
    }
}

#[test]
fn other_words_are_no_command(rt: HostRuntime) {
    let alloc = rt.alloc();
    for words in [
        "load",
        "load d",
        "load d --number 0",
        "load d --rows 1",
        "load --number 0 --rows 1",
        "load d d --number 0 --rows 1",
        "load d --number 0 --number 0 --rows 1",
        "load d --number 0 --number=0 --rows 1",
        "load d --number --rows 1",
        "load d --number= --rows 1",
        "load d --number 0 --rows",
        "load d --number 0 --rows 0",
        "load d --number 0 --rows 100001",
        "load d --number 0 --rows 18446744073709551617",
        "load d --number 18446744073709551616 --rows 1",
        "load d --number +0 --rows 1",
        "load d --number=+0 --rows 1",
        "load d --number=-0 --rows 1",
        "load d --number 0x1 --rows 1",
        "load d --number 1_0 --rows 1",
        "load d --number 0 --rows 1.0",
        "load d --number 0 --rows 1 --kind ONLY",
        "load d --number 0 --rows 1 --table LOAD",
        "load d --number 0 --rows 1 --lookback 1",
        "LOAD d --number 0 --rows 1",
        "run d --number 0",
        "run d --rows 1",
        "verify d --table LOAD --index LOAD_GRP --kind ONLY --rows 1",
        "verify d --table LOAD --index LOAD_GRP --kind ONLY --number 1",
    ] {
        assert!(rt;
            say(&rt, alloc, words, Status::BadWords, "") == Ok(true),
            "{words}"
        );
    }
}

const GREATEST: &str = "load 18446744073709551615 rows 2\n";

/// Whether the greatest number is one of a load.
fn begins_so<R: Threads + Wait + Sync>(rt: &R, alloc: Global) -> Result<bool, AllocError> {
    let words = "load d --number 18446744073709551615 --rows 2";
    let run = run_words(rt, alloc, words, MemDisk::new(alloc), "")?;
    Ok(run.status == Status::Done && run.printed.held().starts_with(GREATEST.as_bytes()))
}

#[test]
fn the_greatest_number_is_one_of_a_load(rt: HostRuntime) {
    assert!(rt; begins_so(&rt, rt.alloc()) == Ok(true));
}

/// Whether a load of a row is told, though the first read of the input would fail.
fn reads_no_input<R: Threads + Wait + Sync>(rt: &R, alloc: Global) -> Result<bool, AllocError> {
    let failing = Numbers::of(vec![in alloc; 1]?);
    let input = MemSource::of(bytes_of(alloc, "SELECT")?).fail_at(failing);
    let run = run_between(
        rt,
        alloc,
        "load d --number 0 --rows 1",
        MemDisk::new(alloc),
        input,
        MemSink::new(alloc),
    )?;
    Ok(is_printed(&run, Status::Done, ONE))
}

#[test]
fn no_input_is_read(rt: HostRuntime) {
    assert!(rt; reads_no_input(&rt, rt.alloc()) == Ok(true));
}

const ALL: &str = "SELECT /*+ NO_INDEX */ * FROM LOAD;
SELECT /*+ INDEX(LOAD LOAD_GRP) */ ID, AMT FROM LOAD WHERE GRP = 'G24';
";

const ANSWERED: &str = "0, 'G24', 937\n1 row selected\n0, 937\n1 row selected\n";

/// Whether a second load is refused, and the row of the first one stands.
fn is_refused<R: Threads + Wait + Sync>(rt: &R, alloc: Global) -> Result<bool, AllocError> {
    let words = "load d --number 0 --rows 1";
    let first = run_words(rt, alloc, words, MemDisk::new(alloc), "")?;
    let is_first = is_printed(&first, Status::Done, ONE);
    let again = run_words(rt, alloc, words, disk_of(first).image(), "")?;
    let is_again = is_printed(&again, Status::Refused, "E03 name exists: LOAD\n");
    let asked = run_again(rt, alloc, disk_of(again), ALL)?;
    Ok(is_first && is_again && is_printed(&asked, Status::Done, ANSWERED))
}

#[test]
fn a_second_load_is_refused_and_changes_nothing(rt: HostRuntime) {
    assert!(rt; is_refused(&rt, rt.alloc()) == Ok(true));
}
