// Two sessions change one row at once, in an order that a schedule says.
use px_outside::MemSink;
use px_rounds::NoGate;
use px_tests_runs::runs::run_whole;
use std::alloc::{AllocError, Global};
use std::sync::Wait;
use std::thread::Threads;

/// The first round makes the logs too. The two sessions of the second one have the stamps 4 and 5, in the order in which they begin.
const CHANGES: &str =
    "CREATE TABLE ORDERS (ID BIGINT NOT NULL PRIMARY KEY, CUST VARCHAR, AMT INTEGER, NOTE VARCHAR);
CREATE INDEX BY_CUST ON ORDERS (CUST) INCLUDE (AMT);
UPSERT INTO ORDERS (ID, CUST) VALUES (9,'none');
DELETE FROM ORDERS;
---
UPSERT INTO ORDERS (ID, CUST, AMT) VALUES (1,'bo',5);
@2 UPSERT INTO ORDERS (ID, CUST, AMT) VALUES (1,'al',7);
";

/// What is there in the end.
const ASKED: &str = "---
SELECT ID, CUST, AMT FROM ORDERS WHERE CUST = 'bo';
SELECT ID, CUST, AMT FROM ORDERS WHERE CUST = 'al';
SELECT ID, CUST, AMT FROM ORDERS WHERE CUST = 'bo';
SELECT ID, CUST, AMT FROM ORDERS WHERE CUST = 'al';
@3 !scn 5
@3 SELECT CUST FROM ORDERS;
@3 !scn 6
@3 SELECT CUST FROM ORDERS;
";

const FIRST: &str = "table created
index created
1 row affected
1 row affected
1 row affected
@2
1 row affected
";

/// Session 2 began later.
const AL: &str = "0 rows selected
1, 'al', 7
1 row selected
0 rows selected
1, 'al', 7
1 row selected
@3
scn 5
'bo'
1 row selected
scn 6
'al'
1 row selected
";

/// Session 1 began later.
const BO: &str = "1, 'bo', 5
1 row selected
0 rows selected
1, 'bo', 5
1 row selected
0 rows selected
@3
scn 5
'al'
1 row selected
scn 6
'bo'
1 row selected
";

/// Whose call is next, in each round, and what is there in the end. An UPSERT finds its table, begins, marks, writes, verifies and ends.
const SCHEDULES: &[(&[u32], &str)] = &[
    (&[], AL),
    // One behind the other.
    (&[1, 1, 1, 1, 1, 1, 2, 2, 2, 2, 2, 2], AL),
    (&[2, 2, 2, 2, 2, 2, 1, 1, 1, 1, 1, 1], BO),
    // The later one marks first, and waits for the earlier one to write.
    (&[1, 1, 2, 2, 2, 2, 2, 2, 1, 1, 2, 1, 1], AL),
    (&[2, 2, 1, 1, 1, 1, 1, 1, 2, 2, 1, 2, 2], BO),
    // The later one begins behind the earlier one's marks, or behind its write.
    (&[1, 1, 1, 2, 2, 2, 2, 1, 2, 2, 2, 1], AL),
    (&[2, 2, 2, 2, 1, 1, 1, 2, 2, 1, 1], BO),
    // Session 2 finds its table first, and begins later.
    (&[2, 1, 1, 2, 2, 1], AL),
    // Sessions that aren't there, or are over.
    (
        &[0, 33, 2, 9, 2, 65_535, 3, 1, 3, 3, 3, 3, 3, 3, 3, 3, 3, 3],
        BO,
    ),
    (&[7, 7, 7], AL),
];

/// One text behind another.
fn joined(alloc: Global, first: &str, last: &str) -> Result<String, AllocError> {
    let mut text = String::from_str(alloc, first)?;
    match text.push_str(last) {
        Ok(()) => Ok(text),
        Err(failed) => {
            drop(text);
            Err(failed)
        }
    }
}

/// Whether what is printed is a beginning and an end.
fn is_joined(
    alloc: Global,
    printed: &MemSink,
    first: &str,
    last: &str,
) -> Result<bool, AllocError> {
    let text = joined(alloc, first, last)?;
    let is_joined = printed.held() == text.as_bytes();
    drop(text);
    Ok(is_joined)
}

/// Whether the changes by this schedule, and what is asked behind them, print this.
fn ends_so<R: Threads + Wait + Sync>(
    rt: &R,
    alloc: Global,
    schedule: &[u32],
    asked: &str,
    last: &str,
) -> Result<bool, AllocError> {
    let script = joined(alloc, CHANGES, asked)?;
    let printed = run_whole(rt, alloc, &NoGate, &script, Some(schedule));
    drop(script);
    match printed {
        Some(printed) => {
            let is_so = is_joined(alloc, &printed, FIRST, last);
            drop(printed);
            is_so
        }
        None => Ok(false),
    }
}

#[test]
fn the_session_that_began_later_has_the_last_word(rt: HostRuntime) {
    for (schedule, last) in SCHEDULES {
        assert!(rt; ends_so(&rt, rt.alloc(), schedule, ASKED, last) == Ok(true));
    }
}

/// What the sessions of the second round have written, and what is left of it once both keys were asked for twice.
const COUNTED: &str = "---
!status ORDERS
---
SELECT ID, CUST, AMT FROM ORDERS WHERE CUST = 'bo';
SELECT ID, CUST, AMT FROM ORDERS WHERE CUST = 'bo';
SELECT ID, CUST, AMT FROM ORDERS WHERE CUST = 'al';
!status ORDERS
";

/// Eight cells of the first round, five of the session that began first, and six of the other, which marks both keys; neither verifies its
/// marks. The queries add a marker and a status.
const COUNTS: &str = "last 5 horizon 0
cells 19 files 0
BY_CUST ACTIVE unverified 2
0 rows selected
0 rows selected
1, 'al', 7
1 row selected
last 5 horizon 0
cells 21 files 0
BY_CUST ACTIVE unverified 0
";

// The later one waits for the earlier one to write, so both know of each other's change.
#[test]
fn queries_leave_no_key_unverified(rt: HostRuntime) {
    let schedule = [1, 1, 2, 2, 2, 2, 1, 1, 2, 1, 1, 2, 2];
    assert!(rt; ends_so(&rt, rt.alloc(), &schedule, COUNTED, COUNTS) == Ok(true));
}
