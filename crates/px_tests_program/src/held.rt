// Changes that are held, and commits of them.
use crate::runs::{bytes_of, disk_of, ends, is_printed, prints, run_again, run_between};
use px_outside::{MemDisk, MemSink, MemSource, Numbers};
use px_program::Status;
use std::alloc::{AllocError, Global};
use std::sync::Wait;
use std::thread::Threads;

/// Scripts on an empty folder, and what they print: a script ends at `=>`, and what it prints at `;;`.
const SCRIPTS: &str = "!autocommit on
!autocommit off
!autocommit off
!commit
!autocommit on
=>autocommit on
autocommit off
autocommit off
0 rows affected
autocommit on
;;!autocommit off
UPSERT INTO KV VALUES ('a','1');
SELECT * FROM KV;
EXPLAIN SELECT * FROM KV;
!commit
SELECT * FROM KV;
!commit
=>autocommit off
1 row held
0 rows selected
SCAN TABLE KV
KEY EQUAL 0 RANGE 0
1 row affected
'a', '1'
1 row selected
0 rows affected
;;CREATE TABLE T (A BIGINT PRIMARY KEY, B VARCHAR, C BIGINT);
!autocommit off
UPSERT INTO T (A, B) VALUES (1,'x');
UPSERT INTO T VALUES (2,'y',20);
UPSERT INTO T (A, C) VALUES (1,10);
UPSERT INTO T (A, B) VALUES (1,'z');
UPSERT INTO T (A, B) VALUES (2,NULL);
!commit
SELECT * FROM T;
=>table created
autocommit off
1 row held
1 row held
1 row held
1 row held
1 row held
2 rows affected
1, 'z', 10
2, null, 20
2 rows selected
;;CREATE TABLE T (A BIGINT PRIMARY KEY);
!autocommit off
UPSERT INTO KV VALUES ('a','1');
UPSERT INTO KV VALUES ('b','2');
UPSERT INTO T VALUES (7);
SELECT * FROM KV;
SELECT * FROM T;
!commit
SELECT * FROM T;
=>table created
autocommit off
1 row held
1 row held
2 rows affected
1 row held
'a', '1'
'b', '2'
2 rows selected
0 rows selected
1 row affected
7
1 row selected
;;!autocommit off
UPSERT INTO KV VALUES ('a','1');
!autocommit on
SELECT * FROM KV;
UPSERT INTO KV VALUES ('b','2');
!commit
=>autocommit off
1 row held
1 row affected
autocommit on
'a', '1'
1 row selected
1 row affected
0 rows affected
;;!autocommit off
UPSERT INTO KV VALUES ('a','1');
!autocommit off
!scn 5
!commit
SELECT * FROM KV;
!scn off
SELECT * FROM KV;
=>autocommit off
1 row held
autocommit off
scn 5
1 row affected
'a', '1'
1 row selected
scn off
'a', '1'
1 row selected
;;!autocommit off
UPSERT INTO KV VALUES ('a','1');
!scn 1
!autocommit on
SELECT * FROM KV;
=>autocommit off
1 row held
scn 1
1 row affected
autocommit on
0 rows selected
;;!autocommit off
UPSERT INTO KV VALUES ('a','1');
---
UPSERT INTO KV VALUES ('b','2');
---
!commit
SELECT * FROM KV;
=>autocommit off
1 row held
1 row held
2 rows affected
'a', '1'
'b', '2'
2 rows selected
;;!autocommit off
UPSERT INTO KV VALUES ('a','1');
@2 UPSERT INTO KV VALUES ('a','2');
---
SELECT * FROM KV;
@2 SELECT * FROM KV;
---
!commit
---
@2 SELECT * FROM KV;
=>autocommit off
1 row held
@2
1 row affected
'a', '2'
1 row selected
@2
'a', '2'
1 row selected
1 row affected
@2
'a', '1'
1 row selected
;;!autocommit off
UPSERT INTO KV VALUES ('a','1');
CREATE TABLE T (A BIGINT PRIMARY KEY);
CREATE INDEX I ON KV (V);
DROP TABLE T;
SELECT * FROM KV;
!commit
SELECT V, K FROM KV ORDER BY V;
=>autocommit off
1 row held
table created
index created
table dropped
0 rows selected
1 row affected
'1', 'a'
1 row selected
;;!autocommit off
UPSERT INTO KV VALUES ('a','1')
=>autocommit off
1 row held
;;!status KV
UPSERT INTO KV VALUES ('a','1');
CREATE TABLE \"t\" (A BIGINT PRIMARY KEY, B VARCHAR);
CREATE INDEX I ON \"t\" (B);
!status \"t\"
!STATUS kv
=>last 0 horizon 0
cells 0 files 0
1 row affected
table created
index created
last 1 horizon 0
cells 0 files 0
I ACTIVE unverified 0
last 1 horizon 0
cells 2 files 0
";

/// Scripts with DELETEs whose removals are held, and what they print.
const REMOVALS: &str = "!autocommit off
DELETE FROM KV;
UPSERT INTO KV VALUES ('a','1');
DELETE FROM KV WHERE K = 'a';
!commit
SELECT * FROM KV;
=>autocommit off
0 rows held
1 row held
0 rows held
1 row affected
'a', '1'
1 row selected
;;UPSERT INTO KV VALUES ('a','1');
UPSERT INTO KV VALUES ('b','2');
!autocommit off
UPSERT INTO KV VALUES ('a','3');
UPSERT INTO KV VALUES ('c','4');
DELETE FROM KV WHERE V < '3';
SELECT * FROM KV;
!commit
SELECT * FROM KV;
=>1 row affected
1 row affected
autocommit off
1 row held
1 row held
2 rows held
'a', '1'
'b', '2'
2 rows selected
3 rows affected
'c', '4'
1 row selected
;;CREATE TABLE T (A BIGINT PRIMARY KEY, B VARCHAR, C BIGINT);
UPSERT INTO T VALUES (1,'x',10);
UPSERT INTO T VALUES (2,'y',20);
!autocommit off
DELETE FROM T;
UPSERT INTO T (A, B) VALUES (1,'z');
DELETE FROM T WHERE A = 2;
!commit
SELECT * FROM T;
=>table created
1 row affected
1 row affected
autocommit off
2 rows held
1 row held
1 row held
2 rows affected
1, 'z', null
1 row selected
;;CREATE INDEX I ON KV (V);
UPSERT INTO KV VALUES ('a','1');
UPSERT INTO KV VALUES ('b','2');
UPSERT INTO KV VALUES ('c','2');
!autocommit off
DELETE FROM KV WHERE V = '2';
UPSERT INTO KV VALUES ('c','9');
SELECT K FROM KV WHERE V = '2';
!autocommit on
SELECT V, K FROM KV ORDER BY V;
=>index created
1 row affected
1 row affected
1 row affected
autocommit off
2 rows held
1 row held
'b'
'c'
2 rows selected
2 rows affected
autocommit on
'1', 'a'
'9', 'c'
2 rows selected
;;UPSERT INTO KV VALUES ('a','1');
UPSERT INTO KV VALUES ('b','2');
---
!autocommit off
DELETE FROM KV;
@2 SELECT * FROM KV;
---
@2 UPSERT INTO KV VALUES ('a','3');
---
!commit
---
@2 SELECT * FROM KV;
=>1 row affected
1 row affected
autocommit off
2 rows held
@2
'a', '1'
'b', '2'
2 rows selected
@2
1 row affected
2 rows affected
@2
0 rows selected
;;UPSERT INTO KV VALUES ('a','1');
!autocommit off
DELETE FROM KV
=>1 row affected
autocommit off
1 row held
";

/// Scripts some of whose statements are refused.
const REFUSED: &str = "!autocommit off
!scn 9
UPSERT INTO KV VALUES ('a','1');
DROP TABLE KV;
CREATE TABLE T (A BIGINT PRIMARY KEY);
CREATE INDEX I ON KV (V);
DROP INDEX I ON KV;
DELETE FROM KV;
SELECT * FROM KV;
!commit
=>autocommit off
scn 9
E13 not under scn
E13 not under scn
E13 not under scn
E13 not under scn
E13 not under scn
E13 not under scn
0 rows selected
0 rows affected
;;CREATE TABLE T (A BIGINT PRIMARY KEY);
!autocommit off
UPSERT INTO T VALUES (1);
UPSERT INTO T VALUES ('x');
UPSERT INTO NOPE VALUES (1);
UPSERT INTO KV (X) VALUES ('x');
UPSERT INTO KV VALUES ('','x');
UPSERT INTO KV VALUES (1,'x');
SELECT * FROM T;
!commit
SELECT * FROM T;
=>table created
autocommit off
1 row held
E06 type mismatch at byte 22
E05 no such table: NOPE
E04 no such column: X
E08 null key column: K
E06 type mismatch at byte 23
0 rows selected
1 row affected
1
1 row selected
;;CREATE TABLE T (A BIGINT PRIMARY KEY);
!autocommit off
UPSERT INTO T VALUES (1);
DROP TABLE T;
!commit
!commit
=>table created
autocommit off
1 row held
table dropped
E05 no such table: T
0 rows affected
;;CREATE TABLE T (A BIGINT PRIMARY KEY);
UPSERT INTO T VALUES (1);
!autocommit off
DELETE FROM T;
DROP TABLE T;
DELETE FROM T;
!commit
!commit
=>table created
1 row affected
autocommit off
1 row held
table dropped
E05 no such table: T
E05 no such table: T
0 rows affected
;;CREATE TABLE T (A BIGINT PRIMARY KEY);
UPSERT INTO T VALUES (1);
!autocommit off
UPSERT INTO KV VALUES ('a','1');
DELETE FROM T WHERE B = 1;
DELETE FROM T WHERE A = 'x';
DELETE FROM NOPE;
SELECT * FROM KV;
DELETE FROM T;
SELECT * FROM KV;
DELETE FROM KV;
SELECT * FROM T;
!commit
SELECT * FROM KV;
=>table created
1 row affected
autocommit off
1 row held
E04 no such column: B
E06 type mismatch at byte 24
E05 no such table: NOPE
0 rows selected
1 row affected
1 row held
'a', '1'
1 row selected
1 row affected
1 row held
0 rows selected
1 row affected
0 rows selected
;;CREATE TABLE T (A BIGINT PRIMARY KEY);
!autocommit off
UPSERT INTO T VALUES (1);
DROP TABLE T;
CREATE TABLE T (A BIGINT PRIMARY KEY);
UPSERT INTO T VALUES (2);
SELECT * FROM T;
UPSERT INTO T VALUES (3);
!commit
SELECT * FROM T;
=>table created
autocommit off
1 row held
table dropped
table created
E05 no such table: T
0 rows selected
1 row held
1 row affected
3
1 row selected
;;CREATE TABLE T (A BIGINT PRIMARY KEY);
!autocommit off
UPSERT INTO T VALUES (1);
DROP TABLE T;
!autocommit on
UPSERT INTO KV VALUES ('a','1');
!autocommit on
UPSERT INTO KV VALUES ('b','2');
!commit
=>table created
autocommit off
1 row held
table dropped
E05 no such table: T
1 row held
1 row affected
autocommit on
1 row affected
0 rows affected
;;CREATE TABLE T (A BIGINT PRIMARY KEY);
!autocommit off
UPSERT INTO T VALUES (1);
DROP TABLE T;
UPSERT INTO KV VALUES ('a','1');
SELECT * FROM KV;
!commit
=>table created
autocommit off
1 row held
table dropped
E05 no such table: T
0 rows selected
0 rows affected
;;!status
!status NOPE
!status kv more
!autocommit
!autocommit maybe
!commit now
!flush now
!compact now
=>E01 syntax at byte 7
E05 no such table: NOPE
E01 syntax at byte 11
E01 syntax at byte 11
E01 syntax at byte 12
E01 syntax at byte 8
E01 syntax at byte 7
E01 syntax at byte 9
";

/// Whether each script of a table ends so and prints its text.
fn all_end<R: Threads + Wait + Sync>(rt: &R, alloc: Global, table: &str, status: Status) -> bool {
    for case in table.split(";;") {
        let Some((script, text)) = case.split_once("=>") else {
            return false;
        };
        if ends(rt, alloc, script, status, text) != Ok(true) {
            return false;
        }
    }
    true
}

#[test]
fn changes_are_held_and_committed(rt: HostRuntime) {
    assert!(rt; all_end(&rt, rt.alloc(), SCRIPTS, Status::Done));
}

#[test]
fn removals_are_held_and_committed(rt: HostRuntime) {
    assert!(rt; all_end(&rt, rt.alloc(), REMOVALS, Status::Done));
}

#[test]
fn what_is_held_outlasts_a_refusal_but_not_a_commit(rt: HostRuntime) {
    assert!(rt; all_end(&rt, rt.alloc(), REFUSED, Status::Refused));
}

const DIGITS: [&str; 10] = ["0", "1", "2", "3", "4", "5", "6", "7", "8", "9"];

/// Adds an UPSERT of a key of three digits.
fn push_row(script: &mut String, key: [&str; 3], value: &str) -> Result<(), AllocError> {
    script.push_str("UPSERT INTO KV VALUES ('")?;
    for digit in key {
        script.push_str(digit)?;
    }
    script.push_str("','")?;
    script.push_str(value)?;
    script.push_str("');\n")
}

/// Holds UPSERTs of a thousand rows.
fn push_thousand(script: &mut String, text: &mut String) -> Result<(), AllocError> {
    script.push_str("!autocommit off\n")?;
    text.push_str("autocommit off\n")?;
    for a in DIGITS {
        for b in DIGITS {
            for c in DIGITS {
                push_row(script, [a, b, c], "v")?;
                text.push_str("1 row held\n")?;
            }
        }
    }
    Ok(())
}

/// A thousand rows are held, of which one is changed once more; another row isn't held.
fn push_changed(script: &mut String, text: &mut String) -> Result<(), AllocError> {
    push_thousand(script, text)?;
    push_row(script, ["k", "0", "0"], "v")?;
    push_row(script, ["9", "9", "9"], "w")?;
    script.push_str("!commit\nSELECT * FROM KV WHERE K > '998';\nSELECT K FROM KV WHERE V = 'w';")?;
    text.push_str("E11 limit: ROWS 1000\n1 row held\n1000 rows affected\n")?;
    text.push_str("'999', 'w'\n1 row selected\n'999'\n1 row selected\n")
}

fn thousand(alloc: Global) -> Result<(String, String), AllocError> {
    let mut script = String::new(alloc);
    let mut text = String::new(alloc);
    match push_changed(&mut script, &mut text) {
        Ok(()) => Ok((script, text)),
        Err(fault) => {
            drop(script);
            drop(text);
            Err(fault)
        }
    }
}

#[test]
fn at_most_a_thousand_rows_are_held(rt: HostRuntime) {
    let alloc = rt.alloc();
    let Ok((script, text)) = thousand(alloc) else {
        panic!(rt; "no memory")
    };
    assert!(rt; ends(&rt, alloc, &script, Status::Refused, &text) == Ok(true));
}

/// The removals of 1,001 rows aren't held, nor is one of them; those of 1,000 are.
const REMOVED: &str = "!commit
UPSERT INTO KV VALUES ('x','v');
!commit
DELETE FROM KV;
!commit
DELETE FROM KV WHERE K < 'x';
DELETE FROM KV WHERE K = 'x';
DELETE FROM KV WHERE K >= '500' AND K < 'x';
!commit
SELECT * FROM KV;
=>1000 rows affected
1 row held
1 row affected
E11 limit: ROWS 1000
0 rows affected
1000 rows held
E11 limit: ROWS 1000
500 rows held
1000 rows affected
'x', 'v'
1 row selected
";

fn push_removed(script: &mut String, text: &mut String) -> Result<(), AllocError> {
    push_thousand(script, text)?;
    if let Some((more, told)) = REMOVED.split_once("=>") {
        script.push_str(more)?;
        text.push_str(told)?;
    }
    Ok(())
}

fn thousand_removed(alloc: Global) -> Result<(String, String), AllocError> {
    let mut script = String::new(alloc);
    let mut text = String::new(alloc);
    match push_removed(&mut script, &mut text) {
        Ok(()) => Ok((script, text)),
        Err(fault) => {
            drop(script);
            drop(text);
            Err(fault)
        }
    }
}

#[test]
fn at_most_a_thousand_removals_are_held(rt: HostRuntime) {
    let alloc = rt.alloc();
    let Ok((script, text)) = thousand_removed(alloc) else {
        panic!(rt; "no memory")
    };
    assert!(rt; ends(&rt, alloc, &script, Status::Refused, &text) == Ok(true));
}

/// Two rows are held and committed, and another session goes on.
const COMMITTED: &str = "!autocommit off
UPSERT INTO KV VALUES ('a','1');
UPSERT INTO KV VALUES ('b','2');
!commit
UPSERT INTO KV VALUES ('c','3');
!commit
---
@2 SELECT * FROM KV;
";

/// Whether the commit ends so where the disk fails at its call of this number, and what is there in a later run.
fn fails_so<R: Threads + Wait + Sync>(
    rt: &R,
    alloc: Global,
    call: u64,
    status: Status,
    text: &str,
    later: &str,
) -> Result<bool, AllocError> {
    let failing = Numbers::of(vec![in alloc; call]?);
    let input = MemSource::of(bytes_of(alloc, COMMITTED)?);
    let disk = MemDisk::new(alloc).fail_at(failing);
    let run = run_between(rt, alloc, "run folder", disk, input, MemSink::new(alloc))?;
    let printed = is_printed(&run, status, text);
    let again = run_again(rt, alloc, disk_of(run), "SELECT * FROM KV;")?;
    let is_there = prints(again, Status::Done, later);
    Ok(printed && is_there)
}

#[test]
fn a_commit_that_fails_ends_its_session(rt: HostRuntime) {
    let held = "autocommit off\n1 row held\n1 row held\n";
    let Ok(mut text) = String::from_str(rt.alloc(), held) else {
        panic!(rt; "no memory")
    };
    let told = text.push_str("F2 write fault\n@2\nF3 closed by device call 34\n");
    assert!(rt; told.is_ok());
    let status = Status::Device { call: 34 };
    assert!(rt; fails_so(&rt, rt.alloc(), 34, status, &text, "0 rows selected\n") == Ok(true));
}
