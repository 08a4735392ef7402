// Steps of a few batches and queries, in orders and with stops that were worked out by hand.
use px_outside::{Choice, MemDisk};
use px_reply::{Item, Transcript};
use px_tests_runs::runs::{disk_of, run, run_back};
use px_trail::{Act, Trail};
use px_values::Value;
use std::alloc::{AllocError, Global};
use std::sync::Wait;
use std::thread::Threads;

/// A table with an index that covers a column. The index is born at stamp 1.
const ORDERS: &str =
    "CREATE TABLE ORDERS (ID BIGINT NOT NULL PRIMARY KEY, CUST VARCHAR, AMT INTEGER, NOTE VARCHAR);
CREATE INDEX BY_CUST ON ORDERS (CUST) INCLUDE (AMT);
";

/// Two rows, at the stamps 2 and 3.
const TWO_ROWS: &str = "UPSERT INTO ORDERS (ID, CUST, AMT) VALUES (1,'bo',5);
UPSERT INTO ORDERS (ID, CUST, AMT) VALUES (2,'al',7);
";

/// What an entry of a batch says, with its stamp.
#[derive(Clone, Copy, Debug, PartialEq, Eq)]
enum Step {
    Begun(u64),
    Marked(u64),
    Wrote(u64),
    Verified(u64),
    Ended(u64),
}

fn step_of(act: &Act) -> Option<Step> {
    match act {
        Act::Begun { stamp, .. } => Some(Step::Begun(*stamp)),
        Act::Phase {
            stamp,
            phase: 1,
            ..
        } => Some(Step::Marked(*stamp)),
        Act::Phase { stamp, .. } => Some(Step::Verified(*stamp)),
        Act::Wrote { stamp, .. } => Some(Step::Wrote(*stamp)),
        Act::Ended { stamp, .. } => Some(Step::Ended(*stamp)),
        _ => None,
    }
}

/// Whether the entries of batches in a trail are these.
fn has_steps(trail: &Trail, expected: &[Step]) -> bool {
    let mut count: usize = 0;
    for place in 0..trail.len() {
        if let Some(step) = step_of(&trail.entry(place).act) {
            if expected.get(count) != Some(&step) {
                return false;
            }
            count = count.saturating_add(1);
        }
    }
    count == expected.len()
}

/// How many calls of the disk had been made when the entry of a step was added.
fn calls_at(trail: &Trail, wanted: Step) -> Option<u64> {
    for place in 0..trail.len() {
        let entry = trail.entry(place);
        if step_of(&entry.act) == Some(wanted) {
            return Some(entry.calls);
        }
    }
    None
}

/// The places of the entries that close a point and drop an index: the last of each.
#[derive(Clone, Copy, Debug, PartialEq, Eq)]
struct Places {
    closed: u64,
    dropped: u64,
}

fn last_places(trail: &Trail) -> Places {
    let mut places = Places {
        closed: 0,
        dropped: 0,
    };
    for place in 0..trail.len() {
        match &trail.entry(place).act {
            Act::Released { .. } => places.closed = place + 1,
            Act::Dropped { .. } => places.dropped = place + 1,
            _ => {}
        }
    }
    places
}

/// The disk after a script on a disk.
fn after<R: Threads + Wait + Sync>(
    rt: &R,
    alloc: Global,
    disk: MemDisk,
    text: &str,
) -> Option<MemDisk> {
    let ran = run(rt, alloc, disk.image(), text, &[]).ran()?;
    Some(disk_of(ran))
}

/// The table with its two rows.
fn two_rows<R: Threads + Wait + Sync>(rt: &R, alloc: Global) -> Option<MemDisk> {
    let disk = after(rt, alloc, MemDisk::new(alloc), ORDERS)?;
    after(rt, alloc, disk, TWO_ROWS)
}

/// The table without rows, whose regions have their logs: what a stop leaves behind the beginning of an UPSERT, whose stamp 2 is nowhere then.
fn prepared<R: Threads + Wait + Sync>(rt: &R, alloc: Global) -> Option<MemDisk> {
    let disk = after(rt, alloc, MemDisk::new(alloc), ORDERS)?;
    let ran = run(rt, alloc, disk.image(), TWO_ROWS, &[]).ran()?;
    let call = calls_at(&ran.trail, Step::Begun(2));
    drop(ran);
    let call = call?.saturating_add(1);
    let disk = after(rt, alloc, MemDisk::new(alloc), ORDERS)?;
    let stopping = disk.image().stop_at(call, Choice::Old);
    let ran = run(rt, alloc, stopping, TWO_ROWS, &[]).ran()?;
    Some(disk_of(ran))
}

/// What a run on a disk left that was stopped behind a step of it.
fn stopped<R: Threads + Wait + Sync>(
    rt: &R,
    alloc: Global,
    text: &str,
    behind: Step,
) -> Option<MemDisk> {
    let disk = two_rows(rt, alloc)?;
    let ran = run(rt, alloc, disk.image(), text, &[]).ran()?;
    let call = calls_at(&ran.trail, behind);
    drop(ran);
    let call = call?.saturating_add(1);
    let disk = two_rows(rt, alloc)?;
    let stopping = disk.image().stop_at(call, Choice::Old);
    let ran = run(rt, alloc, stopping, text, &[]).ran()?;
    Some(disk_of(ran))
}

/// Whether a run on a disk prints this; and the steps of its batches are these.
fn prints<R: Threads + Wait + Sync>(
    rt: &R,
    alloc: Global,
    disk: MemDisk,
    text: &str,
    printed: &str,
    steps: &[Step],
) -> bool {
    let Some(ran) = run(rt, alloc, disk.image(), text, &[]).ran() else {
        return false;
    };
    let is_right = ran.printed.held() == printed.as_bytes() && has_steps(&ran.trail, steps);
    drop(ran);
    is_right
}

/// The steps of one batch alone.
fn alone(stamp: u64) -> [Step; 5] {
    [
        Step::Begun(stamp),
        Step::Marked(stamp),
        Step::Wrote(stamp),
        Step::Verified(stamp),
        Step::Ended(stamp),
    ]
}

const MOVES: &str = "UPSERT INTO ORDERS (ID, CUST) VALUES (1,'zed');\n";

const MOVED: &str = "!status ORDERS
SELECT ID, CUST, AMT FROM ORDERS WHERE CUST = 'bo';
SELECT ID, CUST, AMT FROM ORDERS WHERE CUST = 'zed';
!status ORDERS
UPSERT INTO ORDERS (ID, CUST) VALUES (1,'zed');
";

// Each row has 3 cells and 3 in the index, where the status is written twice. The marks are 1 cell of the old key and 2 of the new one, and each
// query repairs one of the two by a cell of its own.
const MOVED_PRINTED: &str = "last 4 horizon 0
cells 15 files 0
BY_CUST ACTIVE unverified 2
1, 'bo', 5
1 row selected
0 rows selected
last 4 horizon 0
cells 17 files 0
BY_CUST ACTIVE unverified 0
1 row affected
";

#[test]
fn a_stop_behind_the_marks_leaves_doubts_that_queries_repair(rt: HostRuntime) {
    let Some(disk) = stopped(&rt, rt.alloc(), MOVES, Step::Marked(4)) else {
        panic!(rt; "not stopped")
    };
    assert!(rt; prints(&rt, rt.alloc(), disk, MOVED, MOVED_PRINTED, &alone(5)));
}

const EMPTIES: &str = "UPSERT INTO ORDERS (ID, AMT) VALUES (2,NULL);\n";

const EMPTIED: &str = "SELECT ID, CUST, AMT FROM ORDERS WHERE CUST = 'al';
SELECT ID, CUST, AMT FROM ORDERS WHERE CUST = 'al';
!status ORDERS
";

#[test]
fn a_value_that_was_to_be_null_comes_back_with_the_version_before(rt: HostRuntime) {
    let Some(disk) = stopped(&rt, rt.alloc(), EMPTIES, Step::Marked(4)) else {
        panic!(rt; "not stopped")
    };
    let printed = "2, 'al', 7
1 row selected
2, 'al', 7
1 row selected
last 4 horizon 0
cells 15 files 0
BY_CUST ACTIVE unverified 0
";
    assert!(rt; prints(&rt, rt.alloc(), disk, EMPTIED, printed, &[]));
}

/// Two batches on row 1, and then what is there.
const MEETING: &str = "UPSERT INTO ORDERS (ID, CUST, AMT) VALUES (1,'bo',5);
@2 UPSERT INTO ORDERS (ID, CUST, AMT) VALUES (1,'al',7);
---
SELECT ID, CUST, AMT FROM ORDERS WHERE CUST = 'bo';
SELECT ID, CUST, AMT FROM ORDERS WHERE CUST = 'bo';
SELECT ID, CUST, AMT FROM ORDERS WHERE CUST = 'al';
SELECT ID, CUST, AMT FROM ORDERS WHERE CUST = 'al';
";

const MET: &str = "1 row affected
@2
1 row affected
0 rows selected
0 rows selected
1, 'al', 7
1 row selected
1, 'al', 7
1 row selected
";

// Session 1 finds and begins. Session 2 finds, begins and marks; its next step waits for session 1, which marks and writes then.
const MEETS: [u32; 13] = [1, 1, 2, 2, 2, 2, 1, 1, 2, 1, 1, 2, 2];

const MET_STEPS: [Step; 10] = [
    Step::Begun(2),
    Step::Begun(3),
    Step::Marked(3),
    Step::Marked(2),
    Step::Wrote(2),
    Step::Wrote(3),
    Step::Verified(2),
    Step::Ended(2),
    Step::Verified(3),
    Step::Ended(3),
];

/// The item of a place of a transcript; none where there is no such item.
fn item_at(all: &[Transcript], transcript: usize, place: usize) -> Option<&Item> {
    match all.get(transcript) {
        Some(transcript) => transcript.items.as_slice().get(place),
        None => None,
    }
}

/// Whether the one batch of an item has this stamp, met another on row 1 and was finished.
fn has_met(all: &[Transcript], transcript: usize, stamp: u64) -> bool {
    let Some(item) = item_at(all, transcript, 0) else {
        return false;
    };
    let [receipt] = item.evidence.receipts.as_slice() else {
        return false;
    };
    let is_row = match receipt.concurrent.as_slice() {
        [row] => match row.as_slice() {
            [Value::Number(number)] => *number == 1,
            _ => false,
        },
        _ => false,
    };
    is_row && receipt.stamp == stamp && receipt.unfinished.is_none()
}

/// How many repairs a run made.
fn repairs(trail: &Trail) -> u64 {
    let mut count: u64 = 0;
    for place in 0..trail.len() {
        if let Act::Fixed { .. } = &trail.entry(place).act {
            count = count.saturating_add(1);
        }
    }
    count
}

const STATUS: &str = "!status ORDERS\n";

const NO_DOUBT: &str = "last 3 horizon 0
cells 13 files 0
BY_CUST ACTIVE unverified 0
";

#[test]
fn two_batches_meet_on_a_row(rt: HostRuntime) {
    let alloc = rt.alloc();
    let Some(disk) = prepared(&rt, alloc) else {
        panic!(rt; "not prepared")
    };
    let Some(ran) = run(&rt, alloc, disk.image(), MEETING, &MEETS).ran() else {
        panic!(rt; "not run")
    };
    let all = ran.transcripts.as_slice();
    let met = has_met(all, 0, 2) && has_met(all, 1, 3);
    let right = has_steps(&ran.trail, &MET_STEPS) && ran.printed.held() == MET.as_bytes();
    let fixed = repairs(&ran.trail);
    let disk = disk_of(ran);
    let none = prints(&rt, alloc, disk, STATUS, NO_DOUBT, &[]);
    assert!(rt;
        met && right && fixed == 2 && none,
        "{met} {right} {fixed} {none}"
    );
}

/// The same two batches; then a query of the row, beside which it is removed.
const LATE: &str = "UPSERT INTO ORDERS (ID, CUST, AMT) VALUES (1,'bo',5);
@2 UPSERT INTO ORDERS (ID, CUST, AMT) VALUES (1,'al',7);
---
SELECT ID, CUST, AMT FROM ORDERS WHERE CUST = 'al';
@2 DELETE FROM ORDERS WHERE ID = 1;
---
SELECT ID, CUST, AMT FROM ORDERS WHERE CUST = 'al';
";

const LATE_PRINTED: &str = "1 row affected
@2
1 row affected
1, 'al', 7
1 row selected
@2
1 row affected
0 rows selected
";

// The list is that of each round. In the second one it names the query's first four steps, which find, open, look and ask the row. Then
// the row is removed, at stamp 4 and to its end, and only then the query repairs the version at stamp 3, which is right as of then. No row comes
// back by that.
const LATE_STEPS: [u32; 22] = [
    1, 1, 2, 2, 1, 1, 2, 2, 2, 2, 2, 2, 2, 2, 2, 2, 2, 2, 2, 2, 2, 2,
];

#[test]
fn a_late_repair_brings_no_row_back(rt: HostRuntime) {
    let alloc = rt.alloc();
    let Some(disk) = prepared(&rt, alloc) else {
        panic!(rt; "not prepared")
    };
    let Some(ran) = run(&rt, alloc, disk.image(), LATE, &LATE_STEPS).ran() else {
        panic!(rt; "not run")
    };
    let right = ran.printed.held() == LATE_PRINTED.as_bytes();
    let removed = calls_at(&ran.trail, Step::Ended(4)).is_some();
    let fixed = repairs(&ran.trail);
    drop(ran);
    assert!(rt; right && removed && fixed == 1, "{right} {removed} {fixed}");
}

/// The same, where the table is compacted as well before the repair comes; and then what is there, before and behind another compaction.
const KEPT: &str = "UPSERT INTO ORDERS (ID, CUST, AMT) VALUES (1,'bo',5);
@2 UPSERT INTO ORDERS (ID, CUST, AMT) VALUES (1,'al',7);
---
SELECT ID, CUST, AMT FROM ORDERS WHERE CUST = 'al';
@2 DELETE FROM ORDERS WHERE ID = 1;
@2 !compact
---
SELECT ID, CUST, AMT FROM ORDERS WHERE CUST = 'al';
!scn 4
SELECT ID, CUST, AMT FROM ORDERS WHERE CUST = 'al';
!scn off
!compact
SELECT ID, CUST, AMT FROM ORDERS WHERE CUST = 'al';
SELECT ID, CUST, AMT FROM ORDERS WHERE CUST = 'bo';
!scn 4
SELECT ID, CUST, AMT FROM ORDERS WHERE CUST = 'al';
";

const KEPT_PRINTED: &str = "1 row affected
@2
1 row affected
1, 'al', 7
1 row selected
@2
1 row affected
compacted
0 rows selected
scn 4
1, 'al', 7
1 row selected
scn off
compacted
0 rows selected
0 rows selected
scn 4
E12 scn below horizon 4
";

/// The steps of a query's beginning, and then more of the other session than it has.
fn late_steps(alloc: Global) -> Result<Vec<u32>, AllocError> {
    let mut steps = Vec::new(alloc);
    for session in [1, 1, 2, 2, 1, 1] {
        steps.push(session)?;
    }
    for _step in 0..400 {
        steps.push(2)?;
    }
    Ok(steps)
}

/// The horizons that rose in a run, and its repairs, in order: a repair has no horizon.
fn rises(alloc: Global, trail: &Trail) -> Result<Vec<Option<u64>>, AllocError> {
    let mut found = Vec::new(alloc);
    for place in 0..trail.len() {
        match &trail.entry(place).act {
            Act::Raised { horizon, .. } => found.push(Some(*horizon))?,
            Act::Fixed { .. } => found.push(None)?,
            _ => {}
        }
    }
    Ok(found)
}

// Nothing is kept but what is current, and what the query's point sees, at stamp 3: the horizon doesn't pass it. So the version that it repairs
// is still there. Behind the second compaction the other version is repaired, of which no query asked before.
#[test]
fn a_compaction_keeps_what_a_query_is_to_repair(rt: HostRuntime) -> Result<(), AllocError> {
    let alloc = rt.alloc();
    let Some(disk) = prepared(&rt, alloc) else {
        panic!(rt; "not prepared")
    };
    let steps = match late_steps(alloc) {
        Ok(steps) => steps,
        Err(failed) => {
            drop(disk);
            return Err(failed);
        }
    };
    let ran = run_back(&rt, alloc, disk.image(), 0, KEPT, &steps).ran();
    drop(steps);
    let Some(ran) = ran else {
        panic!(rt; "not run")
    };
    let right = ran.printed.held() == KEPT_PRINTED.as_bytes();
    let rises = rises(alloc, &ran.trail);
    drop(ran);
    let rises = rises?;
    assert!(rt;
        right && matches!(rises.as_slice(), [Some(3), None, Some(4), None]),
        "{right}"
    );
    Ok(())
}

const DROPPING: &str = "SELECT ID, CUST, AMT FROM ORDERS WHERE CUST = 'al';
@2 DROP INDEX BY_CUST ON ORDERS; DROP INDEX BY_CUST ON ORDERS;
";

const DROPPED: &str = "2, 'al', 7
1 row selected
@2
index dropped
E09 no such index: BY_CUST
";

// The query finds and opens a point, under which the index isn't dropped in two steps; once the point is closed it is in one.
const DROPS: [u32; 8] = [1, 1, 2, 2, 2, 1, 1, 2];

#[test]
fn an_index_is_dropped_once_no_point_is_open(rt: HostRuntime) {
    let alloc = rt.alloc();
    let Some(disk) = two_rows(&rt, alloc) else {
        panic!(rt; "not made")
    };
    let Some(ran) = run(&rt, alloc, disk.image(), DROPPING, &DROPS).ran() else {
        panic!(rt; "not run")
    };
    let right = ran.printed.held() == DROPPED.as_bytes();
    let places = last_places(&ran.trail);
    drop(ran);
    let is_behind = places.closed > 0 && places.dropped == places.closed.saturating_add(1);
    assert!(rt; right && is_behind, "{right} {places:?}");
}
