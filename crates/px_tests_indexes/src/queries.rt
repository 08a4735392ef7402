// Which queries use a covered index, what these give, and what definitions answer.
use crate::orders::with_orders;
use px_program::Status;

#[test]
fn a_query_reads_the_index_that_covers_it(rt: HostRuntime) {
    let alloc = rt.alloc();
    for (statements, text) in [
        (
            "SELECT ID, CUST, AMT FROM ORDERS WHERE CUST = 'al';",
            "2, 'al', 7\n1 row selected\n",
        ),
        (
            "EXPLAIN SELECT ID, CUST, AMT FROM ORDERS WHERE CUST = 'al';",
            "SCAN INDEX BY_CUST OF ORDERS\nKEY EQUAL 1 RANGE 0\n",
        ),
        (
            "SELECT NOTE FROM ORDERS WHERE CUST = 'al'; EXPLAIN SELECT NOTE FROM ORDERS WHERE CUST = 'al';",
            "null\n1 row selected\nSCAN TABLE ORDERS\nKEY EQUAL 0 RANGE 0\nFILTER\n",
        ),
        (
            "UPSERT INTO ORDERS (ID, CUST) VALUES (1,'zed');
SELECT ID, CUST, AMT FROM ORDERS WHERE CUST = 'bo'; SELECT ID, CUST, AMT FROM ORDERS WHERE CUST = 'zed';
!scn 4
SELECT ID, CUST, AMT FROM ORDERS WHERE CUST = 'bo';",
            "1 row affected\n0 rows selected\n1, 'zed', 5\n1 row selected\nscn 4\n1, 'bo', 5\n1 row selected\n",
        ),
        (
            "UPSERT INTO ORDERS (ID, CUST, AMT) VALUES (2,'',NULL);
SELECT ID, CUST, AMT FROM ORDERS WHERE CUST IS NULL; SELECT ID, CUST FROM ORDERS ORDER BY CUST;",
            "1 row affected\n2, null, null\n1 row selected\n2, null\n1, 'bo'\n2 rows selected\n",
        ),
        (
            "UPSERT INTO ORDERS (ID, CUST) VALUES (1,'zed'); UPSERT INTO ORDERS (ID, CUST, AMT) VALUES (2,'',NULL);
SELECT ID, CUST, AMT FROM ORDERS WHERE CUST IS NULL; SELECT ID, CUST FROM ORDERS ORDER BY CUST;",
            "1 row affected\n1 row affected\n2, null, null\n1 row selected\n2, null\n1, 'zed'\n2 rows selected\n",
        ),
        (
            "DELETE FROM ORDERS; SELECT ID, CUST, AMT FROM ORDERS WHERE CUST = 'al';
!scn 4
SELECT ID, CUST, AMT FROM ORDERS WHERE CUST = 'al';",
            "2 rows affected\n0 rows selected\nscn 4\n2, 'al', 7\n1 row selected\n",
        ),
        (
            "SELECT CUST FROM ORDERS; SELECT CUST FROM ORDERS WHERE AMT > 5;",
            "'bo'\n'al'\n2 rows selected\n'al'\n1 row selected\n",
        ),
    ] {
        assert!(rt; with_orders(&rt, alloc, statements, Status::Done, text) == Ok(true));
    }
    let hinted = "SELECT /*+ INDEX(ORDERS BY_CUST) */ NOTE FROM ORDERS WHERE CUST = 'al';";
    assert!(rt;
        with_orders(
            &rt,
            alloc,
            hinted,
            Status::Refused,
            "E02 left out: INDEX JOIN\n"
        ) == Ok(true)
    );
}

#[test]
fn indexes_are_made_kept_and_dropped(rt: HostRuntime) {
    let alloc = rt.alloc();
    for (statements, text) in [
        (
            "CREATE INDEX BY_CUST ON ORDERS (AMT);",
            "E03 name exists: BY_CUST\n",
        ),
        ("CREATE INDEX KV ON ORDERS (AMT);", "E03 name exists: KV\n"),
        (
            "CREATE INDEX I ON NOWHERE (AMT);",
            "E05 no such table: NOWHERE\n",
        ),
        ("CREATE INDEX I ON ORDERS (NO);", "E04 no such column: NO\n"),
        (
            "CREATE INDEX I ON ORDERS (AMT, AMT);",
            "E10 column named twice: AMT\n",
        ),
        (
            "CREATE INDEX I ON ORDERS (AMT) INCLUDE (ID);",
            "E10 column named twice: ID\n",
        ),
        (
            "ALTER INDEX BY_CUST ON NOWHERE DISABLE;",
            "E05 no such table: NOWHERE\n",
        ),
        ("ALTER INDEX I ON ORDERS REBUILD;", "E09 no such index: I\n"),
        (
            "!scn 3\nALTER INDEX BY_CUST ON ORDERS DISABLE;",
            "scn 3\nE13 not under scn\n",
        ),
        (
            "DROP INDEX BY_CUST ON ORDERS; DROP INDEX BY_CUST ON ORDERS;",
            "index dropped\nE09 no such index: BY_CUST\n",
        ),
        (
            "!scn 3\nCREATE INDEX I ON ORDERS (AMT);",
            "scn 3\nE13 not under scn\n",
        ),
    ] {
        assert!(rt; with_orders(&rt, alloc, statements, Status::Refused, text) == Ok(true));
    }
    for (statements, text) in [
        (
            "CREATE INDEX IF NOT EXISTS BY_CUST ON ORDERS (AMT);",
            "index kept\n",
        ),
        (
            "DROP INDEX BY_CUST ON ORDERS; EXPLAIN SELECT ID FROM ORDERS WHERE CUST = 'al';",
            "index dropped\nSCAN TABLE ORDERS\nKEY EQUAL 0 RANGE 0\nFILTER\n",
        ),
        (
            "DROP TABLE ORDERS; CREATE TABLE BY_CUST (A BIGINT PRIMARY KEY);",
            "table dropped\ntable created\n",
        ),
    ] {
        assert!(rt; with_orders(&rt, alloc, statements, Status::Done, text) == Ok(true));
    }
}
