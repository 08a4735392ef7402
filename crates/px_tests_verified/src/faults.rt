// A verification in which the disk fails, or a stop comes.
use crate::orders::{TWO_MATCH, orders, verifies, words_of};
use px_outside::{Choice, MemDisk, Numbers};
use px_program::Status;
use px_tests_program::runs::{disk_of, is_printed, run_again, run_words};
use std::alloc::{AllocError, Global};
use std::sync::Wait;
use std::thread::Threads;

/// What the orders are, by the table and by the index where it may be read.
const ASKED: &str = "SELECT ID, CUST, AMT FROM ORDERS WHERE ID >= 0;
SELECT ID, CUST, AMT FROM ORDERS WHERE CUST = 'bo';
";

const TOLD: &str = "1, 'bo', 5\n2, 'al', 7\n2 rows selected\n1, 'bo', 5\n1 row selected\n";

/// Whether a disk has the orders, and a rebuilding of the index there is right.
fn is_mended<R: Threads + Wait + Sync>(
    rt: &R,
    alloc: Global,
    left: MemDisk,
) -> Result<bool, AllocError> {
    let again = run_again(rt, alloc, left, ASKED)?;
    let is_whole = is_printed(&again, Status::Done, TOLD);
    let mut after = String::from_str(alloc, "rebuilt\n")?;
    after.push_str(TWO_MATCH)?;
    let is_right = verifies(rt, alloc, disk_of(again), "AFTER", &after)?;
    Ok(is_whole && is_right)
}

/// Whether the run where that call fails tells it, and leaves what can be mended; none where it isn't made.
fn failed<R: Threads + Wait + Sync>(
    rt: &R,
    alloc: Global,
    call: u64,
) -> Result<Option<bool>, AllocError> {
    let (words, made) = (words_of(alloc, "BOTH")?, orders(rt, alloc)?);
    let failing = disk_of(made)
        .image()
        .fail_at(Numbers::of(vec![in alloc; call]?));
    let run = run_words(rt, alloc, &words, failing, "")?;
    if run.status == Status::Done {
        drop(run);
        return Ok(None);
    }
    let is_told = run.status == Status::Device { call };
    Ok(Some(is_told && is_mended(rt, alloc, disk_of(run))?))
}

/// Whether what a stop leaves in that call can be mended; none where the call isn't made.
fn stopped<R: Threads + Wait + Sync>(
    rt: &R,
    alloc: Global,
    call: u64,
    choice: Choice,
) -> Result<Option<bool>, AllocError> {
    let (words, made) = (words_of(alloc, "BOTH")?, orders(rt, alloc)?);
    let stopping = disk_of(made).image().stop_at(call, choice);
    let run = run_words(rt, alloc, &words, stopping, "")?;
    if run.status == Status::Done {
        drop(run);
        return Ok(None);
    }
    Ok(Some(is_mended(rt, alloc, disk_of(run))?))
}

#[test]
fn each_call_that_fails_is_told(rt: HostRuntime) {
    let alloc = rt.alloc();
    let mut calls = 0;
    for call in 1..400 {
        let Ok(found) = failed(&rt, alloc, call) else {
            panic!(rt; "no memory")
        };
        let Some(is_right) = found else {
            break;
        };
        assert!(rt; is_right, "call {call}");
        calls = call;
    }
    assert!(rt; calls >= 12);
}

#[test]
fn a_stop_at_each_call_can_be_mended(rt: HostRuntime) {
    let alloc = rt.alloc();
    for choice in [Choice::Old, Choice::New, Choice::Fill(1)] {
        let mut calls = 0;
        for call in 1..400 {
            let Ok(found) = stopped(&rt, alloc, call, choice) else {
                panic!(rt; "no memory")
            };
            let Some(is_right) = found else {
                break;
            };
            assert!(rt; is_right, "call {call}");
            calls = call;
        }
        assert!(rt; calls >= 12);
    }
}
