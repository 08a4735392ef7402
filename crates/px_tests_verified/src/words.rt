// The words of the command, and names that don't stand.
use crate::orders::{ORDERS, TWO_MATCH, orders};
use px_outside::{MemDisk, MemSink, MemSource, Numbers};
use px_program::Status;
use px_tests_program::runs::{bytes_of, disk_of, is_printed, run_between, run_words};
use std::alloc::{AllocError, Global};
use std::sync::Wait;
use std::thread::Threads;

/// Whether these words on the orders end so and print this.
fn say<R: Threads + Wait + Sync>(
    rt: &R,
    alloc: Global,
    words: &str,
    status: Status,
    text: &str,
) -> Result<bool, AllocError> {
    let made = orders(rt, alloc)?;
    let run = run_words(rt, alloc, words, disk_of(made).image(), ORDERS)?;
    Ok(is_printed(&run, status, text))
}

#[test]
fn options_stand_in_any_order(rt: HostRuntime) {
    let alloc = rt.alloc();
    for words in [
        "verify d --table ORDERS --index BY_CUST --kind ONLY",
        "verify --kind ONLY --index BY_CUST --table ORDERS d",
        "verify --kind=ONLY d --index=BY_CUST --table ORDERS",
        "verify --table=ORDERS --index BY_CUST --kind=ONLY a=b",
    ] {
        assert!(rt;
            say(&rt, alloc, words, Status::Done, TWO_MATCH) == Ok(true),
            "{words}"
        );
    }
}

#[test]
fn other_words_are_no_command(rt: HostRuntime) {
    let alloc = rt.alloc();
    for words in [
        "verify",
        "verify d",
        "verify d --table ORDERS --index BY_CUST",
        "verify --table ORDERS --index BY_CUST --kind ONLY",
        "verify d d --table ORDERS --index BY_CUST --kind ONLY",
        "verify d --table ORDERS --index BY_CUST --kind only",
        "verify d --table ORDERS --index BY_CUST --kind",
        "verify d --table ORDERS --index BY_CUST --kind=",
        "verify d --table ORDERS --table ORDERS --index BY_CUST --kind ONLY",
        "verify d --table ORDERS --table=ORDERS --index BY_CUST --kind ONLY",
        "verify d --table ORDERS --index --kind ONLY",
        "verify d --table ORDERS --index -x --kind ONLY",
        "verify d --table ORDERS --index BY_CUST --kind ONLY --",
        "verify d --table ORDERS --index BY_CUST --kind ONLY --lookback 1",
        "verify d --tables ORDERS --index BY_CUST --kind ONLY",
        "VERIFY d --table ORDERS --index BY_CUST --kind ONLY",
        "run d --kind ONLY",
        "run d --lookback 9223372036854775808",
    ] {
        assert!(rt;
            say(&rt, alloc, words, Status::BadWords, "") == Ok(true),
            "{words}"
        );
    }
}

// A value that stands behind `=` may begin with `-`, and names are taken as they are written.
#[test]
fn names_that_do_not_stand_are_told(rt: HostRuntime) {
    let alloc = rt.alloc();
    for (words, text) in [
        (
            "verify d --table ORDERS --index NONE_SUCH --kind ONLY",
            "E09 no such index: NONE_SUCH\n",
        ),
        (
            "verify d --table ORDERS --index by_cust --kind BOTH",
            "E09 no such index: by_cust\n",
        ),
        (
            "verify d --table orders --index BY_CUST --kind NONE",
            "E05 no such table: orders\n",
        ),
        (
            "verify d --table=-x --index BY_CUST --kind AFTER",
            "E05 no such table: -x\n",
        ),
        (
            "verify d --table=a=b --index BY_CUST --kind BEFORE",
            "E05 no such table: a=b\n",
        ),
    ] {
        assert!(rt;
            say(&rt, alloc, words, Status::Refused, text) == Ok(true),
            "{words}"
        );
    }
}

/// Whether the orders are verified where the first read of the input would fail.
fn reads_no_input<R: Threads + Wait + Sync>(rt: &R, alloc: Global) -> Result<bool, AllocError> {
    let made = orders(rt, alloc)?;
    let failing = Numbers::of(vec![in alloc; 1]?);
    let input = MemSource::of(bytes_of(alloc, ORDERS)?).fail_at(failing);
    let run = run_between(
        rt,
        alloc,
        "verify d --table ORDERS --index BY_CUST --kind ONLY",
        disk_of(made).image(),
        input,
        MemSink::new(alloc),
    )?;
    Ok(is_printed(&run, Status::Done, TWO_MATCH))
}

#[test]
fn no_input_is_read(rt: HostRuntime) {
    assert!(rt; reads_no_input(&rt, rt.alloc()) == Ok(true));
}

#[test]
fn a_fresh_folder_has_no_index(rt: HostRuntime) {
    let alloc = rt.alloc();
    let words = "verify d --table KV --index X --kind BOTH";
    let Ok(run) = run_words(&rt, alloc, words, MemDisk::new(alloc), "") else {
        panic!(rt; "no memory")
    };
    assert!(rt; is_printed(&run, Status::Refused, "E09 no such index: X\n"));
}
