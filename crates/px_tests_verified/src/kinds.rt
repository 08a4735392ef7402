// What each kind prints, of indexes in several states.
use crate::orders::{TWO_MATCH, orders, verified, verifies};
use px_outside::{Choice, MemDisk};
use px_program::Status;
use px_tests_program::runs::{disk_of, is_printed, run_again, run_new, run_words};
use std::alloc::{AllocError, Global};
use std::fmt;
use std::fmt::Write;
use std::sync::Wait;
use std::thread::Threads;

const REPORT_AND_REBUILT: &str = "matching 2\nunverified 0\nmissing 0\nextra 0\nwrong 0\nrebuilt\n";

const REBUILT_AND_REPORT: &str = "rebuilt\nmatching 2\nunverified 0\nmissing 0\nextra 0\nwrong 0\n";

const BOTH: &str =
    "matching 2\nunverified 0\nmissing 0\nextra 0\nwrong 0\nrebuilt\nmatching 2\nunverified 0\nmissing 0\nextra 0\nwrong 0\n";

#[test]
fn each_kind_has_its_parts(rt: HostRuntime) {
    let alloc = rt.alloc();
    for (kind, text) in [
        ("NONE", "rebuilt\n"),
        ("ONLY", TWO_MATCH),
        ("BEFORE", REPORT_AND_REBUILT),
        ("AFTER", REBUILT_AND_REPORT),
        ("BOTH", BOTH),
    ] {
        let Ok(made) = orders(&rt, alloc) else {
            panic!(rt; "no memory")
        };
        assert!(rt;
            verifies(&rt, alloc, disk_of(made), kind, text) == Ok(true),
            "{kind}"
        );
    }
}

/// The disk that a stop leaves in that call of an UPSERT that moves the first order; none where the call isn't made.
fn stopped<R: Threads + Wait + Sync>(
    rt: &R,
    alloc: Global,
    call: u64,
) -> Result<Option<MemDisk>, AllocError> {
    let made = orders(rt, alloc)?;
    let script = "UPSERT INTO ORDERS (ID, CUST) VALUES (1,'zed');";
    let stopping = disk_of(made).image().stop_at(call, Choice::Old);
    let run = run_words(rt, alloc, "run folder", stopping, script)?;
    if run.status == Status::Done {
        drop(run);
        return Ok(None);
    }
    Ok(Some(disk_of(run)))
}

const ONE_MATCHES: &str = "matching 1\nunverified 2\nmissing 0\nextra 0\nwrong 0\n";

const MENDED: &str =
    "matching 1\nunverified 2\nmissing 0\nextra 0\nwrong 0\nrebuilt\nmatching 2\nunverified 0\nmissing 0\nextra 0\nwrong 0\n";

/// Whether a report finds that the rows are marked, where a stop left so much; none where neither it nor a rebuilding is right.
fn is_marked<R: Threads + Wait + Sync>(
    rt: &R,
    alloc: Global,
    left: MemDisk,
) -> Result<Option<bool>, AllocError> {
    let found = verified(rt, alloc, left, "ONLY")?;
    let is_marked = is_printed(&found, Status::Done, ONE_MATCHES);
    let is_right = is_marked || is_printed(&found, Status::Done, TWO_MATCH);
    let text = if is_marked { MENDED } else { BOTH };
    let is_mended = verifies(rt, alloc, disk_of(found), "BOTH", text)?;
    Ok(if is_right && is_mended {
        Some(is_marked)
    } else {
        None
    })
}

// Up to the marks all agrees; from there on the old key and the new one stand unverified.
#[test]
fn a_report_counts_what_a_stop_leaves_unverified(rt: HostRuntime) {
    let alloc = rt.alloc();
    let (mut calls, mut marked) = (0, false);
    for call in 1..200 {
        let Ok(left) = stopped(&rt, alloc, call) else {
            panic!(rt; "no memory")
        };
        let Some(left) = left else {
            break;
        };
        let Ok(Some(is_so)) = is_marked(&rt, alloc, left) else {
            panic!(rt; "call {call}")
        };
        marked = marked || is_so;
        calls = call;
    }
    assert!(rt; marked && calls >= 12);
}

// An index that may not be read has no version in a report.
#[test]
fn a_disabled_index_misses_each_row(rt: HostRuntime) {
    let alloc = rt.alloc();
    let Ok(made) = orders(&rt, alloc) else {
        panic!(rt; "no memory")
    };
    let script =
        "ALTER INDEX BY_CUST ON ORDERS DISABLE; UPSERT INTO ORDERS (ID, CUST, AMT) VALUES (3,'al',9);";
    let Ok(disabled) = run_again(&rt, alloc, disk_of(made), script) else {
        panic!(rt; "no memory")
    };
    assert!(rt; is_printed(&disabled, Status::Done, "index disabled\n1 row affected\n"));
    let report = "matching 0\nunverified 0\nmissing 3\nextra 0\nwrong 0\n";
    let Ok(missing) = verified(&rt, alloc, disk_of(disabled), "ONLY") else {
        panic!(rt; "no memory")
    };
    assert!(rt; is_printed(&missing, Status::Done, report));
    let text =
        "matching 0\nunverified 0\nmissing 3\nextra 0\nwrong 0\nrebuilt\nmatching 3\nunverified 0\nmissing 0\nextra 0\nwrong 0\n";
    assert!(rt; verifies(&rt, alloc, disk_of(missing), "BOTH", text) == Ok(true));
}

// A rebuilding that is refused leaves the index disabled, and the report before it is printed.
#[test]
fn a_refusal_comes_after_the_parts_that_were_finished(rt: HostRuntime) {
    let alloc = rt.alloc();
    let mut script = String::new(alloc);
    let Ok(()) = script.write_str(
        "CREATE TABLE T (ID BIGINT PRIMARY KEY, A VARCHAR); CREATE INDEX X ON T (A); ALTER INDEX X ON T DISABLE; UPSERT INTO T VALUES (1, '",
    ) else {
        panic!(rt; "no memory")
    };
    for _ in 0..1020 {
        let Ok(()) = script.write_str("x") else {
            panic!(rt; "no memory")
        };
    }
    let Ok(()) = script.write_str("');") else {
        panic!(rt; "no memory")
    };
    let Ok(made) = run_new(&rt, alloc, &script) else {
        panic!(rt; "no memory")
    };
    assert!(rt; made.status == Status::Done);
    let Ok(run) = run_words(
        &rt,
        alloc,
        "verify d --table T --index X --kind BOTH",
        disk_of(made).image(),
        "",
    ) else {
        panic!(rt; "no memory")
    };
    assert!(rt;
        is_printed(
            &run,
            Status::Refused,
            "matching 0\nunverified 0\nmissing 1\nextra 0\nwrong 0\nE11 limit: KEY 1024\n"
        )
    );
    drop(run);
}

/// Rows 1 to `rows` of a table without an index; in the next round one session makes the index, and another moves the first hundred rows.
fn built_while_written(alloc: Global, rows: u32) -> Result<String, fmt::Error> {
    let mut script = String::new(alloc);
    script.write_str(
        "CREATE TABLE ORDERS (ID BIGINT NOT NULL PRIMARY KEY, CUST VARCHAR, AMT INTEGER, NOTE VARCHAR);\n!autocommit off\n",
    )?;
    for row in 1..=rows {
        let cust = row % 100;
        write!(
            script,
            "UPSERT INTO ORDERS (ID, CUST, AMT) VALUES ({row}, 'c{cust}', {row});\n"
        )?;
        if row % 500 == 0 {
            script.write_str("!commit\n")?;
        }
    }
    script.write_str(
        "!commit\n!autocommit on\n---\nCREATE INDEX BY_CUST ON ORDERS (CUST) INCLUDE (AMT);\n",
    )?;
    for row in 1..=100 {
        write!(
            script,
            "@2 UPSERT INTO ORDERS (ID, CUST) VALUES ({row}, 'x');\n"
        )?;
    }
    Ok(script)
}

#[test]
fn an_index_that_is_built_while_rows_move_matches_each(rt: HostRuntime) {
    let alloc = rt.alloc();
    let Ok(script) = built_while_written(alloc, 700) else {
        panic!(rt; "no memory")
    };
    let Ok(run) = run_new(&rt, alloc, &script) else {
        panic!(rt; "no memory")
    };
    assert!(rt; run.status == Status::Done);
    let Ok(found) = verified(&rt, alloc, disk_of(run), "ONLY") else {
        panic!(rt; "no memory")
    };
    assert!(rt;
        is_printed(
            &found,
            Status::Done,
            "matching 700\nunverified 0\nmissing 0\nextra 0\nwrong 0\n"
        )
    );
    drop(found);
}
