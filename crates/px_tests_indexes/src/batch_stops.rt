// What is there after stops between a batch's phases.
use crate::orders::orders;
use px_outside::{Choice, MemDisk};
use px_program::Status;
use px_tests_program::runs::{disk_of, is_printed, run_again, run_words};
use std::alloc::{AllocError, Global};
use std::sync::Wait;
use std::thread::Threads;

/// What both orders are, by the table and by the index.
const BOTH: &str = "SELECT ID, CUST, AMT FROM ORDERS WHERE ID >= 0;
SELECT ID, CUST, AMT FROM ORDERS WHERE CUST = 'bo';
SELECT ID, CUST, AMT FROM ORDERS WHERE CUST = 'zed';
";

const BEFORE: &str =
    "1, 'bo', 5\n2, 'al', 7\n2 rows selected\n1, 'bo', 5\n1 row selected\n0 rows selected\n";

const AFTER: &str =
    "1, 'zed', 5\n2, 'al', 7\n2 rows selected\n0 rows selected\n1, 'zed', 5\n1 row selected\n";

/// Whether what a stop leaves in that call of the UPSERT shows the rows of before or of after it, twice; none where the call isn't made.
fn shows_one<R: Threads + Wait + Sync>(
    rt: &R,
    alloc: Global,
    disk: MemDisk,
    call: u64,
    choice: Choice,
) -> Result<Option<bool>, AllocError> {
    let script = "UPSERT INTO ORDERS (ID, CUST) VALUES (1,'zed');";
    let run = run_words(
        rt,
        alloc,
        "run folder",
        disk.image().stop_at(call, choice),
        script,
    )?;
    if run.status == Status::Done {
        drop(run);
        return Ok(None);
    }
    let again = run_again(rt, alloc, disk_of(run), BOTH)?;
    let (is_before, is_after) = (
        is_printed(&again, Status::Done, BEFORE),
        is_printed(&again, Status::Done, AFTER),
    );
    // What the first run repaired stays so.
    let more = run_again(rt, alloc, disk_of(again), BOTH)?;
    let stays = is_printed(&more, Status::Done, if is_before { BEFORE } else { AFTER });
    Ok(Some((is_before || is_after) && stays))
}

#[test]
fn a_row_that_moves_is_there_once_after_a_stop_at_each_call(rt: HostRuntime) {
    let alloc = rt.alloc();
    for choice in [Choice::Old, Choice::New, Choice::Fill(1), Choice::Fill(255)] {
        let mut calls = 0;
        for call in 1..200 {
            let Ok(run) = orders(&rt, alloc) else {
                panic!(rt; "no memory")
            };
            let Ok(shown) = shows_one(&rt, alloc, disk_of(run), call, choice) else {
                panic!(rt; "no memory")
            };
            let Some(is_right) = shown else {
                break;
            };
            assert!(rt; is_right);
            calls = call;
        }
        assert!(rt; calls >= 12);
    }
}

/// What is asked where a stop came in the UPSERT that moves the first order. The last UPSERT has the next stamp.
const COUNTED: &str = "!status ORDERS
SELECT ID, CUST, AMT FROM ORDERS WHERE CUST = 'bo';
SELECT ID, CUST, AMT FROM ORDERS WHERE CUST = 'zed';
!status ORDERS
UPSERT INTO ORDERS (ID, CUST, AMT) VALUES (3,'cy',1);
!status ORDERS
";

/// Each UPSERT writes two cells of marks, three of the row, and the status once more, at the place of its mark.
const UNMARKED: &str = "last 3 horizon 0
cells 12 files 0
BY_CUST ACTIVE unverified 0
1, 'bo', 5
1 row selected
0 rows selected
last 3 horizon 0
cells 12 files 0
BY_CUST ACTIVE unverified 0
1 row affected
last 4 horizon 0
cells 18 files 0
BY_CUST ACTIVE unverified 0
";

/// A version is marked, and the status of the key that is left. Both queries erase what they find.
const MARKED: &str = "last 4 horizon 0
cells 15 files 0
BY_CUST ACTIVE unverified 2
1, 'bo', 5
1 row selected
0 rows selected
last 4 horizon 0
cells 17 files 0
BY_CUST ACTIVE unverified 0
1 row affected
last 5 horizon 0
cells 23 files 0
BY_CUST ACTIVE unverified 0
";

/// The row is written too. One query retires the key that was left, the other verifies the version.
const WRITTEN: &str = "last 4 horizon 0
cells 17 files 0
BY_CUST ACTIVE unverified 2
0 rows selected
1, 'zed', 5
1 row selected
last 4 horizon 0
cells 19 files 0
BY_CUST ACTIVE unverified 0
1 row affected
last 5 horizon 0
cells 25 files 0
BY_CUST ACTIVE unverified 0
";

const STAGES: [&str; 3] = [UNMARKED, MARKED, WRITTEN];

/// How far the UPSERT had come where a stop comes in that call and leaves what was synced; none where the call isn't made.
fn stage_of<R: Threads + Wait + Sync>(
    rt: &R,
    alloc: Global,
    disk: MemDisk,
    call: u64,
) -> Result<Option<usize>, AllocError> {
    let script = "UPSERT INTO ORDERS (ID, CUST) VALUES (1,'zed');";
    let stopping = disk.image().stop_at(call, Choice::Old);
    let run = run_words(rt, alloc, "run folder", stopping, script)?;
    if run.status == Status::Done {
        drop(run);
        return Ok(None);
    }
    let again = run_again(rt, alloc, disk_of(run), COUNTED)?;
    let mut stage: usize = 0;
    for printed in STAGES {
        if is_printed(&again, Status::Done, printed) {
            break;
        }
        stage = stage.saturating_add(1);
    }
    drop(again);
    Ok(Some(stage))
}

#[test]
fn a_status_counts_each_cell_that_was_written(rt: HostRuntime) {
    let alloc = rt.alloc();
    let mut seen = [false; 3];
    let mut least = 0;
    for call in 1..200 {
        let Ok(run) = orders(&rt, alloc) else {
            panic!(rt; "no memory")
        };
        let Ok(found) = stage_of(&rt, alloc, disk_of(run), call) else {
            panic!(rt; "no memory")
        };
        let Some(stage) = found else {
            break;
        };
        assert!(rt; least <= stage && stage < 3, "call {call}: {stage}");
        seen[stage] = true;
        least = stage;
    }
    assert!(rt; seen == [true; 3]);
}
