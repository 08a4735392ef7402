// Tables that are compacted, and how long their versions are kept.
use crate::runs::{Run, disk_of, is_printed, prints, run_again, run_new, run_words};
use crate::stops::stopped;
use px_outside::{Choice, MemDisk};
use px_program::Status;
use std::alloc::{AllocError, Global};
use std::process::Abort;
use std::sync::Wait;
use std::thread::Threads;

/// Ten versions of a row at the stamps 1 to 10, and what is seen of them behind a compaction.
const VERSIONS: &str = "UPSERT INTO KV VALUES ('a','1'); UPSERT INTO KV VALUES ('a','2');
UPSERT INTO KV VALUES ('a','3'); UPSERT INTO KV VALUES ('a','4');
UPSERT INTO KV VALUES ('a','5'); UPSERT INTO KV VALUES ('a','6');
UPSERT INTO KV VALUES ('a','7'); UPSERT INTO KV VALUES ('a','8');
UPSERT INTO KV VALUES ('a','9'); UPSERT INTO KV VALUES ('a','10');
!compact
";

const ADDED: &str = "1 row affected
1 row affected
1 row affected
1 row affected
1 row affected
1 row affected
1 row affected
1 row affected
1 row affected
1 row affected
compacted
";

const SEEN: &str = "!scn 3
SELECT * FROM KV;
!scn 9
SELECT * FROM KV;
";

/// A run of these words on an empty folder, of two scripts one after the other.
fn run_both<R: Threads + Wait + Sync>(
    rt: &R,
    alloc: Global,
    line: &str,
    first: &str,
    second: &str,
) -> Result<Run, AllocError> {
    let mut script = String::from_str(alloc, first)?;
    script.push_str(second)?;
    run_words(rt, alloc, line, MemDisk::new(alloc), &script)
}

/// Whether a run printed one text and then another.
fn is_printed_both(
    alloc: Global,
    run: &Run,
    status: Status,
    first: &str,
    second: &str,
) -> Result<bool, AllocError> {
    let mut text = String::from_str(alloc, first)?;
    text.push_str(second)?;
    Ok(is_printed(run, status, &text))
}

/// The same, and lets go of the run.
fn prints_both(
    alloc: Global,
    run: Run,
    status: Status,
    first: &str,
    second: &str,
) -> Result<bool, AllocError> {
    let printed = is_printed_both(alloc, &run, status, first, second);
    drop(run);
    printed
}

/// Stops the test where the run printed otherwise.
fn expect_both(
    rt: &impl Abort,
    alloc: Global,
    run: &Run,
    status: Status,
    told: (&str, &str),
    name: &str,
) -> Result<(), AllocError> {
    assert!(rt;
        is_printed_both(alloc, run, status, told.0, told.1)?,
        "{name}"
    );
    Ok(())
}

/// The disk after a run, which printed one text and then another.
fn disk_behind(
    rt: &impl Abort,
    alloc: Global,
    run: Run,
    status: Status,
    told: (&str, &str),
    name: &str,
) -> Result<MemDisk, AllocError> {
    match expect_both(rt, alloc, &run, status, told, name) {
        Ok(()) => Ok(disk_of(run)),
        Err(fault) => {
            drop(run);
            Err(fault)
        }
    }
}

#[test]
fn versions_are_kept_for_the_lookback(rt: HostRuntime) -> Result<(), AllocError> {
    let alloc = rt.alloc();
    let below = "scn 3\nE12 scn below horizon 8\nscn 9\n'a', '8'\n1 row selected\n";
    let line = "run folder --lookback 2";
    let run = run_both(&rt, alloc, line, VERSIONS, SEEN)?;
    let disk = disk_behind(&rt, alloc, run, Status::Refused, (ADDED, below), line)?;
    // So they are when the folder is opened again, however long they are kept from then on.
    let run = run_again(&rt, alloc, disk, SEEN)?;
    assert!(rt; prints(run, Status::Refused, below));
    Ok(())
}

#[test]
fn versions_are_kept_three_days_where_nothing_is_said(rt: HostRuntime) -> Result<(), AllocError> {
    let alloc = rt.alloc();
    let text = "scn 3\n'a', '2'\n1 row selected\nscn 9\n'a', '8'\n1 row selected\n";
    for line in ["run folder", "run --lookback=259200000 folder"] {
        let run = run_both(&rt, alloc, line, VERSIONS, SEEN)?;
        assert!(rt;
            prints_both(alloc, run, Status::Done, ADDED, text)?,
            "{line}"
        );
    }
    Ok(())
}

/// A table with an index, of which both rows were removed at the stamp 4.
const REMOVED: &str =
    "CREATE TABLE ORDERS (ID BIGINT NOT NULL PRIMARY KEY, CUST VARCHAR, AMT INTEGER, NOTE VARCHAR);
CREATE INDEX BY_CUST ON ORDERS (CUST) INCLUDE (AMT);
UPSERT INTO ORDERS (ID, CUST, AMT) VALUES (1,'bo',5);
UPSERT INTO ORDERS (ID, CUST, AMT) VALUES (2,'al',7);
DELETE FROM ORDERS;
!compact
";

const GONE: &str = "table created
index created
1 row affected
1 row affected
2 rows affected
compacted
";

const ASKED: &str = "SELECT ID, CUST, AMT FROM ORDERS WHERE CUST = 'al';
!scn 4
SELECT ID, CUST, AMT FROM ORDERS WHERE CUST = 'al';
";

#[test]
fn rows_that_were_removed_stay_removed(rt: HostRuntime) -> Result<(), AllocError> {
    let alloc = rt.alloc();
    for (line, status, text) in [
        (
            "run folder --lookback 259200000",
            Status::Done,
            "0 rows selected\nscn 4\n2, 'al', 7\n1 row selected\n",
        ),
        (
            "run folder --lookback 0",
            Status::Refused,
            "0 rows selected\nscn 4\nE12 scn below horizon 4\n",
        ),
    ] {
        let run = run_both(&rt, alloc, line, REMOVED, ASKED)?;
        let disk = disk_behind(&rt, alloc, run, status, (GONE, text), line)?;
        let run = run_again(&rt, alloc, disk, ASKED)?;
        assert!(rt; prints(run, status, text), "{line}");
    }
    Ok(())
}

// A second one finds nothing to forget, and an empty folder has nothing at all.
#[test]
fn a_compaction_of_nothing_ends(rt: HostRuntime) -> Result<(), AllocError> {
    let alloc = rt.alloc();
    let run = run_new(&rt, alloc, "!compact\n!compact\n")?;
    assert!(rt; prints(run, Status::Done, "compacted\ncompacted\n"));
    let line = "run folder --lookback 0";
    let run = run_both(&rt, alloc, line, VERSIONS, "!compact\n")?;
    let told = (ADDED, "compacted\n");
    let disk = disk_behind(&rt, alloc, run, Status::Done, told, line)?;
    let run = run_again(&rt, alloc, disk, "!compact\nSELECT * FROM KV;\n")?;
    let text = "compacted\n'a', '10'\n1 row selected\n";
    assert!(rt; prints(run, Status::Done, text));
    Ok(())
}

const TWO: &str = "UPSERT INTO KV VALUES ('a','1'); UPSERT INTO KV VALUES ('a','2');\n";

const COMPACTED: &str =
    "UPSERT INTO KV VALUES ('a','1'); UPSERT INTO KV VALUES ('a','2');\n!compact\n";

/// How many calls a run on an empty folder makes.
fn calls_of<R: Threads + Wait + Sync>(
    rt: &R,
    alloc: Global,
    script: &str,
) -> Result<u64, AllocError> {
    let run = run_new(rt, alloc, script)?;
    let calls = run.disk.calls_made().len() as u64;
    drop(disk_of(run));
    Ok(calls)
}

/// Whether what a stop in that call leaves shows the row, also compacted once more.
fn leaves_the_row<R: Threads + Wait + Sync>(
    rt: &R,
    alloc: Global,
    call: u64,
    choice: Choice,
) -> Result<bool, AllocError> {
    match stopped(rt, alloc, MemDisk::new(alloc), call, choice, COMPACTED)? {
        None => Err(AllocError),
        Some(left) => {
            let run = run_again(rt, alloc, left, "!compact\nSELECT * FROM KV")?;
            let text = "compacted\n'a', '2'\n1 row selected\n";
            Ok(prints(run, Status::Done, text))
        }
    }
}

// Whatever a stop in one of its calls leaves, the last version was acknowledged before.
#[test]
fn a_stop_in_a_compaction_leaves_the_row(rt: HostRuntime) -> Result<(), AllocError> {
    let alloc = rt.alloc();
    let before = calls_of(&rt, alloc, TWO)?;
    let calls = calls_of(&rt, alloc, COMPACTED)?;
    assert!(rt; before.saturating_add(10) < calls, "{before} {calls}");
    for call in before.saturating_add(1)..calls.saturating_add(1) {
        for choice in [Choice::Old, Choice::New, Choice::Fill(1)] {
            assert!(rt;
                leaves_the_row(&rt, alloc, call, choice)?,
                "{call} {choice:?}"
            );
        }
    }
    Ok(())
}

// A query of another session sees the row, whatever its turn.
#[test]
fn sessions_are_compacted_beside_each_other(rt: HostRuntime) -> Result<(), AllocError> {
    let alloc = rt.alloc();
    let script = "UPSERT INTO KV VALUES ('a','1');
---
UPSERT INTO KV VALUES ('a','2');
@2 !compact
@3 SELECT K FROM KV
";
    let text = "1 row affected
1 row affected
@2
compacted
@3
'a'
1 row selected
";
    let run = run_words(
        &rt,
        alloc,
        "run folder --lookback 0",
        MemDisk::new(alloc),
        script,
    )?;
    assert!(rt; prints(run, Status::Done, text));
    Ok(())
}
