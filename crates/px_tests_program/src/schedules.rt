// Sessions whose steps come by a list, which the words say.
use crate::expected::expect_printed;
use crate::runs::{Run, disk_of, is_printed, prints, run_again, run_words};
use px_outside::{CallMade, DeviceCall, MemDisk, Numbers};
use px_program::Status;
use std::alloc::{AllocError, Global};
use std::fmt;
use std::fmt::Write;
use std::sync::Wait;
use std::thread::Threads;

/// Two sessions change one row in the second round, at the stamps 4 and 5 in the order in which they begin.
const CHANGES: &str =
    "CREATE TABLE ORDERS (ID BIGINT NOT NULL PRIMARY KEY, CUST VARCHAR, AMT INTEGER, NOTE VARCHAR);
CREATE INDEX BY_CUST ON ORDERS (CUST) INCLUDE (AMT);
UPSERT INTO ORDERS (ID, CUST, AMT) VALUES (1,'bo',5);
UPSERT INTO ORDERS (ID, CUST, AMT) VALUES (2,'al',7);
---
UPSERT INTO ORDERS (ID, CUST) VALUES (1,'zed');
@2 UPSERT INTO ORDERS (ID, CUST) VALUES (1,'amy');
---
SELECT CUST FROM ORDERS WHERE ID = 1;
!scn 5
SELECT CUST FROM ORDERS WHERE ID = 1;
";

const MADE: &str = "table created
index created
1 row affected
1 row affected
";

/// Session 2 began later.
const AMY: &str = "1 row affected
@2
1 row affected
'amy'
1 row selected
scn 5
'zed'
1 row selected
";

/// Session 1 began later.
const ZED: &str = "1 row affected
@2
1 row affected
'zed'
1 row selected
scn 5
'amy'
1 row selected
";

/// A run of a script on an empty folder by these words behind `run folder`.
fn run_by<R: Threads + Wait + Sync>(
    rt: &R,
    alloc: Global,
    words: &str,
    script: &str,
) -> Result<Run, AllocError> {
    let mut line = String::from_str(alloc, "run folder ")?;
    line.push_str(words)?;
    run_words(rt, alloc, &line, MemDisk::new(alloc), script)
}

/// What is printed behind the first round.
fn behind(alloc: Global, last: &str) -> Result<String, AllocError> {
    let mut text = String::from_str(alloc, MADE)?;
    text.push_str(last)?;
    Ok(text)
}

#[test]
fn steps_come_as_the_words_list_them(rt: HostRuntime) -> Result<(), AllocError> {
    let alloc = rt.alloc();
    for (words, last) in [
        // One behind the other: an UPSERT finds its table, begins, marks, writes, verifies and ends.
        ("--schedule 1,1,1,1,1,1,2,2,2,2,2,2", AMY),
        ("--schedule=2,2,2,2,2,2,1,1,1,1,1,1", ZED),
        // The later one marks first, and waits for the earlier one to write.
        ("--lookback 9 --schedule 1,1,2,2,2,2,2,2,1,1,2,1,1", AMY),
        (
            "--schedule 02,02,01,01,01,01,01,01,2,2,1,2,2 --lookback=9",
            ZED,
        ),
        // Sessions that aren't there, and turns behind the list.
        ("--schedule 32,2,9,2,31,3,1", ZED),
        ("--schedule 7", AMY),
    ] {
        let text = behind(alloc, last)?;
        let run = run_by(&rt, alloc, words, CHANGES)?;
        assert!(rt; prints(run, Status::Done, &text), "{words}");
    }
    Ok(())
}

#[test]
fn a_list_has_numbers_of_sessions_alone(rt: HostRuntime) -> Result<(), AllocError> {
    let alloc = rt.alloc();
    for words in [
        "--schedule",
        "--schedule=",
        "--schedule 0",
        "--schedule 33",
        "--schedule 1,",
        "--schedule ,1",
        "--schedule=,",
        "--schedule 1,,2",
        "--schedule 1;2",
        "--schedule 1,+2",
        "--schedule 1,2x",
        "--schedule 1,0x2",
        "--schedule 1,18446744073709551617",
        "--schedule=-1",
        "--schedule 1 2",
        "--schedule 1 --schedule 2",
        "--schedule 1 --kind ONLY",
    ] {
        let run = run_by(&rt, alloc, words, CHANGES)?;
        let is_untouched = run.disk.calls_made().is_empty();
        assert!(rt; prints(run, Status::BadWords, ""), "{words}");
        assert!(rt; is_untouched);
    }
    for line in [
        "verify d --table KV --index X --kind ONLY --schedule 1",
        "load d --number 0 --rows 1 --schedule 1",
    ] {
        let run = run_words(&rt, alloc, line, MemDisk::new(alloc), "")?;
        assert!(rt; prints(run, Status::BadWords, ""), "{line}");
    }
    Ok(())
}

/// A list that names session 2 so often.
fn list_of(alloc: Global, count: u32) -> Result<String, AllocError> {
    let mut words = String::from_str(alloc, "--schedule 2")?;
    for _ in 1..count {
        words.push_str(",2")?;
    }
    Ok(words)
}

#[test]
fn a_list_names_65535_at_most(rt: HostRuntime) -> Result<(), AllocError> {
    let alloc = rt.alloc();
    let text = behind(alloc, ZED)?;
    let run = run_by(&rt, alloc, &list_of(alloc, 65_535)?, CHANGES)?;
    assert!(rt; prints(run, Status::Done, &text));
    let run = run_by(&rt, alloc, &list_of(alloc, 65_536)?, CHANGES)?;
    assert!(rt; prints(run, Status::BadWords, ""));
    Ok(())
}

/// Behind the first orders session 1 changes one, and session 2 asks for the other twice.
const BESIDE: &str =
    "CREATE TABLE ORDERS (ID BIGINT NOT NULL PRIMARY KEY, CUST VARCHAR, AMT INTEGER, NOTE VARCHAR);
CREATE INDEX BY_CUST ON ORDERS (CUST) INCLUDE (AMT);
UPSERT INTO ORDERS (ID, CUST, AMT) VALUES (1,'bo',5);
UPSERT INTO ORDERS (ID, CUST, AMT) VALUES (2,'al',7);
---
UPSERT INTO ORDERS (ID, CUST, AMT) VALUES (1,'zed',9);
@2 SELECT AMT FROM ORDERS WHERE ID = 2;
@2 SELECT AMT FROM ORDERS WHERE ID = 2;
";

/// Session 2 has its first answer, and then session 1 makes its step that writes.
const ORDER: &str = "--schedule 2,2,2,2,1,1,1,1,2";

/// The log of the table's region, which is the third.
const LOG: u64 = 12_884_901_888;

/// The number of the call that writes the table's last record: the last but one of its log's writes, of which the last opens the gate.
fn last_record(calls: &[CallMade]) -> u64 {
    let (mut last, mut before) = (0, 0);
    for made in calls {
        if made.file == LOG && made.call == DeviceCall::Write {
            before = last;
            last = made.number;
        }
    }
    before
}

/// What the sessions are told where that call fails.
fn told_where(alloc: Global, call: u64) -> Result<String, fmt::Error> {
    let mut text = String::new(alloc);
    text.write_str(MADE)?;
    write!(
        text,
        "F2 write fault\n@2\n7\n1 row selected\nF3 closed by device call {call}\n"
    )?;
    Ok(text)
}

/// Whether the row is there as it was, or changed as a whole.
fn is_whole<R: Threads + Wait + Sync>(
    rt: &R,
    alloc: Global,
    disk: MemDisk,
) -> Result<bool, AllocError> {
    let run = run_again(rt, alloc, disk, "SELECT CUST, AMT FROM ORDERS WHERE ID = 1")?;
    let whole = is_printed(&run, Status::Done, "'bo', 5\n1 row selected\n")
        || is_printed(&run, Status::Done, "'zed', 9\n1 row selected\n");
    drop(run);
    Ok(whole)
}

/// A run of the two sessions by their order, where the call of this number fails.
fn run_failing<R: Threads + Wait + Sync>(
    rt: &R,
    alloc: Global,
    call: u64,
) -> Result<Run, AllocError> {
    let mut line = String::from_str(alloc, "run folder ")?;
    line.push_str(ORDER)?;
    let failing = Numbers::of(vec![in alloc; call]?);
    let disk = MemDisk::new(alloc).fail_at(failing);
    run_words(rt, alloc, &line, disk, BESIDE)
}

#[test]
fn a_write_that_fails_closes_the_server_for_the_other_session(
    rt: HostRuntime,
) -> Result<(), AllocError> {
    let alloc = rt.alloc();
    let text = behind(
        alloc,
        "1 row affected\n@2\n7\n1 row selected\n7\n1 row selected\n",
    )?;
    let run = run_by(&rt, alloc, ORDER, BESIDE)?;
    let call = last_record(run.disk.calls_made());
    assert!(rt; prints(run, Status::Done, &text));
    let Ok(text) = told_where(alloc, call) else {
        return Err(AllocError);
    };
    let run = run_failing(&rt, alloc, call)?;
    expect_printed(&rt, &run, Status::Device { call }, &text, "the failing run");
    assert!(rt; is_whole(&rt, alloc, disk_of(run))?);
    Ok(())
}
