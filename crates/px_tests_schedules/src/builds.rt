// An index is built while another session changes rows of its table, in an order that a schedule says.
use px_rounds::NoGate;
use px_tests_runs::runs::run_whole;
use std::alloc::Global;
use std::fmt;
use std::fmt::Write;
use std::sync::Wait;
use std::thread::Threads;

/// So many rows are read in three chunks.
const ROWS: u32 = 130;

/// What both sessions do, and then what is there by the index.
const BUILT: &str = "
!commit
---
CREATE INDEX BY_A ON T (A);
@2 UPSERT INTO T VALUES (1, 'x');
@2 UPSERT INTO T VALUES (129, 'y'); DELETE FROM T WHERE ID = 3;
---
EXPLAIN SELECT ID FROM T WHERE A = 'x' AND ID < 8;
SELECT ID FROM T WHERE A = 'x' AND ID < 8;
SELECT ID FROM T WHERE A = 'x' AND ID > 118;
SELECT /*+ NO_INDEX */ ID FROM T WHERE A = 'x' AND ID < 8;
";

const PRINTED: &str = "index created
@2
1 row affected
1 row affected
1 row affected
SCAN INDEX BY_A OF T
KEY EQUAL 1 RANGE 1
0
1
6
3 rows selected
120
123
126
3 rows selected
0
1
6
3 rows selected
";

/// Whose call is next, in the second round. A build finds its table, makes the index, opens a point, looks and gives rows their base versions three times,
/// makes the index active, and closes the point. An UPSERT finds its table, begins, marks, writes, verifies and ends.
const SCHEDULES: &[&[u32]] = &[
    &[],
    // One behind the other.
    &[1, 1, 1, 1, 1, 1, 1, 1, 1, 1, 1, 1, 1, 1],
    &[
        2, 2, 2, 2, 2, 2, 2, 2, 2, 2, 2, 2, 2, 2, 2, 2, 2, 2, 2, 2, 2, 2, 2, 2,
    ],
    // A batch has begun when the index is made, and the build waits for it to write.
    &[2, 2, 2, 1, 1, 1, 1, 1, 2, 2, 2],
    // Whole batches between a chunk's look and its base versions, and between two chunks.
    &[
        1, 1, 1, 1, 1, 1, 2, 2, 2, 2, 2, 2, 1, 2, 2, 2, 2, 2, 2, 1, 1,
    ],
    // A batch on each side of a look.
    &[1, 1, 1, 2, 2, 2, 1, 1, 2, 2, 2, 1, 2, 2, 2, 1, 1, 2, 2, 2],
    &[
        1, 2, 1, 2, 1, 2, 1, 2, 1, 2, 1, 2, 1, 2, 1, 2, 1, 2, 1, 2, 1, 2,
    ],
    &[
        2, 1, 1, 2, 2, 1, 1, 2, 2, 1, 1, 2, 2, 1, 1, 2, 2, 1, 1, 2, 2,
    ],
];

/// Adds a table of so many rows, of which each third has the same text, and then what both sessions do.
fn add_all(script: &mut String) -> Result<(), fmt::Error> {
    script.write_str("CREATE TABLE T (ID BIGINT PRIMARY KEY, A VARCHAR);\n!autocommit off\n")?;
    for row in 0..ROWS {
        let letter = if row % 3 == 0 { 'x' } else { 'y' };
        write!(script, "UPSERT INTO T VALUES ({row}, '{letter}');")?;
    }
    script.write_str(BUILT)
}

/// The whole script.
fn script(alloc: Global) -> Result<String, fmt::Error> {
    let mut script = String::new(alloc);
    match add_all(&mut script) {
        Ok(()) => Ok(script),
        Err(failed) => {
            drop(script);
            Err(failed)
        }
    }
}

/// Whether the index is built by this schedule, and has the rows that the table has then.
fn is_built<R: Threads + Wait + Sync>(
    rt: &R,
    alloc: Global,
    schedule: &[u32],
) -> Result<bool, fmt::Error> {
    let script = script(alloc)?;
    let printed = run_whole(rt, alloc, &NoGate, &script, Some(schedule));
    drop(script);
    match printed {
        Some(printed) => {
            let is_built = printed.held().ends_with(PRINTED.as_bytes());
            drop(printed);
            Ok(is_built)
        }
        None => Ok(false),
    }
}

#[test]
fn an_index_is_built_beside_another_session(rt: HostRuntime) {
    for schedule in SCHEDULES {
        assert!(rt; matches!(is_built(&rt, rt.alloc(), schedule), Ok(true)));
    }
}
