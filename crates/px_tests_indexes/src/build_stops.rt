// What is there after stops within a build.
use crate::orders::orders;
use px_outside::{Choice, MemDisk};
use px_program::Status;
use px_tests_program::runs::{disk_of, is_printed, run_again, run_words};
use std::alloc::{AllocError, Global};
use std::sync::Wait;
use std::thread::Threads;

/// What is asked where a stop came in a build: the same rows by the table, and by the path that is chosen.
const BUILT: &str = "SELECT /*+ NO_INDEX */ CUST FROM ORDERS WHERE AMT = 7;
SELECT CUST FROM ORDERS WHERE AMT = 7;
";

const SHOWN: &str = "'al'\n1 row selected\n'al'\n1 row selected\n";

/// Whether what a stop leaves in that call of the statement shows the rows as they are; none where the call isn't made.
fn keeps_rows<R: Threads + Wait + Sync>(
    rt: &R,
    alloc: Global,
    disk: MemDisk,
    statement: &str,
    call: u64,
    choice: Choice,
) -> Result<Option<bool>, AllocError> {
    let stopping = disk.image().stop_at(call, choice);
    let run = run_words(rt, alloc, "run folder", stopping, statement)?;
    if run.status == Status::Done {
        drop(run);
        return Ok(None);
    }
    let again = run_again(rt, alloc, disk_of(run), BUILT)?;
    Ok(Some(is_printed(&again, Status::Done, SHOWN)))
}

#[test]
fn a_build_that_is_stopped_at_each_call_changes_no_row(rt: HostRuntime) {
    let alloc = rt.alloc();
    for (statement, choice) in [
        (
            "CREATE INDEX BY_AMT ON ORDERS (AMT) INCLUDE (CUST);",
            Choice::Old,
        ),
        (
            "CREATE INDEX BY_AMT ON ORDERS (AMT) INCLUDE (CUST);",
            Choice::New,
        ),
        ("ALTER INDEX BY_CUST ON ORDERS REBUILD;", Choice::Old),
        ("ALTER INDEX BY_CUST ON ORDERS REBUILD;", Choice::Fill(255)),
    ] {
        let mut calls = 0;
        for call in 1..200 {
            let Ok(run) = orders(&rt, alloc) else {
                panic!(rt; "no memory")
            };
            let Ok(shown) = keeps_rows(&rt, alloc, disk_of(run), statement, call, choice) else {
                panic!(rt; "no memory")
            };
            let Some(is_right) = shown else {
                break;
            };
            assert!(rt; is_right, "{statement} {call}");
            calls = call;
        }
        assert!(rt; calls >= 8);
    }
}
