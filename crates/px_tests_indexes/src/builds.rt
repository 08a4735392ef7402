// Indexes that are built of tables with rows, disabled, and built again.
use crate::orders::with_orders;
use px_program::Status;
use px_tests_program::runs::{ends, run_new};
use std::alloc::{AllocError, Global};
use std::fmt;
use std::fmt::Write;

#[test]
fn an_index_of_a_table_with_rows_has_them(rt: HostRuntime) {
    let alloc = rt.alloc();
    for (statements, text) in [
        (
            "CREATE INDEX BY_AMT ON ORDERS (AMT DESC) INCLUDE (CUST);
SELECT CUST, AMT FROM ORDERS WHERE AMT = 7; EXPLAIN SELECT CUST, AMT FROM ORDERS WHERE AMT = 7;
UPSERT INTO ORDERS (ID, CUST, AMT) VALUES (3,'cy',7); SELECT CUST, AMT FROM ORDERS WHERE AMT = 7;",
            "index created\n'al', 7\n1 row selected\nSCAN INDEX BY_AMT OF ORDERS\nKEY EQUAL 1 RANGE 0\n1 row affected\n'al', 7\n'cy', 7\n2 rows selected\n",
        ),
        (
            "CREATE INDEX BY_AMT ON ORDERS (AMT) INCLUDE (CUST);
!scn 4
EXPLAIN SELECT CUST, AMT FROM ORDERS WHERE AMT = 7; SELECT CUST, AMT FROM ORDERS WHERE AMT = 7;",
            "index created\nscn 4\nSCAN TABLE ORDERS\nKEY EQUAL 0 RANGE 0\nFILTER\n'al', 7\n1 row selected\n",
        ),
    ] {
        assert!(rt; with_orders(&rt, alloc, statements, Status::Done, text) == Ok(true));
    }
}

/// A table of so many rows, and an index that is made then. Each third row has the same text, by which those are asked for that meet the condition.
fn many_rows(alloc: Global, rows: u32, condition: &str) -> Result<String, fmt::Error> {
    let mut script = String::new(alloc);
    script.write_str("CREATE TABLE T (ID BIGINT PRIMARY KEY, A VARCHAR);\n!autocommit off\n")?;
    for row in 0..rows {
        let letter = if row % 3 == 0 { 'x' } else { 'y' };
        write!(script, "UPSERT INTO T VALUES ({row}, '{letter}');")?;
        if row % 1000 == 999 {
            script.write_str("\n!commit\n")?;
        }
    }
    script.write_str("\n!commit\nCREATE INDEX BY_A ON T (A);\n")?;
    write!(
        script,
        "SELECT ID FROM T WHERE A = 'x'{condition};\nEXPLAIN SELECT ID FROM T WHERE A = 'x'{condition};\n"
    )?;
    Ok(script)
}

#[test]
fn an_index_is_built_chunk_by_chunk(rt: HostRuntime) {
    let alloc = rt.alloc();
    let Ok(script) = many_rows(alloc, 130, " AND ID >= 120") else {
        panic!(rt; "no memory")
    };
    let Ok(run) = run_new(&rt, alloc, &script) else {
        panic!(rt; "no memory")
    };
    assert!(rt; run.status == Status::Done);
    let end =
        b"130 rows affected\nindex created\n120\n123\n126\n129\n4 rows selected\nSCAN INDEX BY_A OF T\nKEY EQUAL 1 RANGE 1\n";
    assert!(rt; run.printed.held().ends_with(end));
}

/// Base versions are made of 64 chunks at once, and then of the two that are left.
#[test]
fn an_index_is_built_of_more_chunks_than_are_made_at_once(rt: HostRuntime) {
    let alloc = rt.alloc();
    let Ok(script) = many_rows(alloc, 4200, "") else {
        panic!(rt; "no memory")
    };
    let Ok(run) = run_new(&rt, alloc, &script) else {
        panic!(rt; "no memory")
    };
    assert!(rt; run.status == Status::Done);
    let end = b"4191\n4194\n4197\n1400 rows selected\nSCAN INDEX BY_A OF T\nKEY EQUAL 1 RANGE 0\n";
    assert!(rt; run.printed.held().ends_with(end));
}

#[test]
fn an_index_is_disabled_and_built_again(rt: HostRuntime) {
    let alloc = rt.alloc();
    let all = "ALTER INDEX BY_CUST ON ORDERS DISABLE;
EXPLAIN SELECT ID, CUST, AMT FROM ORDERS WHERE CUST = 'al';
UPSERT INTO ORDERS (ID, CUST, AMT) VALUES (3,'al',9); SELECT ID, CUST, AMT FROM ORDERS WHERE CUST = 'al';
ALTER INDEX BY_CUST ON ORDERS REBUILD;
SELECT ID, CUST, AMT FROM ORDERS WHERE CUST = 'al'; EXPLAIN SELECT ID, CUST, AMT FROM ORDERS WHERE CUST = 'al';
!scn 4
SELECT ID, CUST, AMT FROM ORDERS WHERE CUST = 'al'; EXPLAIN SELECT ID, CUST, AMT FROM ORDERS WHERE CUST = 'al';
";
    let text = "index disabled
SCAN TABLE ORDERS
KEY EQUAL 0 RANGE 0
FILTER
1 row affected
2, 'al', 7
3, 'al', 9
2 rows selected
index rebuilt
2, 'al', 7
3, 'al', 9
2 rows selected
SCAN INDEX BY_CUST OF ORDERS
KEY EQUAL 1 RANGE 0
scn 4
2, 'al', 7
1 row selected
SCAN TABLE ORDERS
KEY EQUAL 0 RANGE 0
FILTER
";
    assert!(rt; with_orders(&rt, alloc, all, Status::Done, text) == Ok(true));
    let (again, text) = (
        "ALTER INDEX BY_CUST ON ORDERS DISABLE; ALTER INDEX BY_CUST ON ORDERS DISABLE;
DROP INDEX BY_CUST ON ORDERS;",
        "index disabled\nindex disabled\nindex dropped\n",
    );
    assert!(rt; with_orders(&rt, alloc, again, Status::Done, text) == Ok(true));
    let (at_once, text) = (
        "ALTER INDEX BY_CUST ON ORDERS REBUILD; SELECT ID, CUST, AMT FROM ORDERS WHERE CUST = 'bo';",
        "index rebuilt\n1, 'bo', 5\n1 row selected\n",
    );
    assert!(rt; with_orders(&rt, alloc, at_once, Status::Done, text) == Ok(true));
}

/// A table with one row whose text has so many letters, and an index on that text; and then a status.
fn long_text(alloc: Global, letters: usize) -> Result<String, AllocError> {
    let mut script = String::from_str(
        alloc,
        "CREATE TABLE ORDERS (ID BIGINT NOT NULL PRIMARY KEY, CUST VARCHAR, AMT INTEGER);
UPSERT INTO ORDERS VALUES (1, '",
    )?;
    for _ in 0..letters {
        script.push_str("x")?;
    }
    script.push_str(
        "', 5);\nCREATE INDEX BY_CUST ON ORDERS (CUST) INCLUDE (AMT);\n!status ORDERS\n",
    )?;
    Ok(script)
}

#[test]
fn an_index_with_a_key_that_is_too_long_is_disabled(rt: HostRuntime) {
    let alloc = rt.alloc();
    let Ok(script) = long_text(alloc, 1_020) else {
        panic!(rt; "no memory")
    };
    let text = "table created
1 row affected
E11 limit: KEY 1024
last 2 horizon 0
cells 3 files 0
BY_CUST DISABLED unverified 0
";
    assert!(rt; ends(&rt, alloc, &script, Status::Refused, text) == Ok(true));
}
