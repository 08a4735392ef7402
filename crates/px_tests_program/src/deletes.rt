// Rows are removed, by table and by index, and are there as of earlier stamps.
use crate::runs::{disk_of, ends_behind, prints, run_again, run_new};
use px_program::Status;
use std::alloc::{AllocError, Global};
use std::sync::Wait;
use std::thread::Threads;

/// A table of orders with an index, and four orders at the stamps 2 to 5.
const ORDERS: &str =
    "CREATE TABLE ORDERS (ID BIGINT NOT NULL PRIMARY KEY, CUST VARCHAR, AMT INTEGER, NOTE VARCHAR);
CREATE INDEX BY_CUST ON ORDERS (CUST) INCLUDE (AMT);
UPSERT INTO ORDERS (ID, CUST, AMT) VALUES (1,'bo',5);
UPSERT INTO ORDERS (ID, CUST, AMT) VALUES (2,'al',7);
UPSERT INTO ORDERS (ID, CUST, AMT) VALUES (3,'al',NULL);
UPSERT INTO ORDERS (ID, CUST, AMT) VALUES (4,NULL,1);
";

const ORDERED: &str = "table created
index created
1 row affected
1 row affected
1 row affected
1 row affected
";

fn ordered<R: Threads + Wait + Sync>(
    rt: &R,
    alloc: Global,
    statements: &str,
    status: Status,
    text: &str,
) -> Result<bool, AllocError> {
    ends_behind(rt, alloc, (ORDERS, ORDERED), statements, status, text)
}

#[test]
fn rows_that_match_are_removed(rt: HostRuntime) {
    for (statements, text) in [
        (
            "DELETE FROM ORDERS WHERE CUST = 'al'; SELECT ID FROM ORDERS; SELECT ID FROM ORDERS WHERE CUST = 'al';",
            "2 rows affected\n1\n4\n2 rows selected\n0 rows selected\n",
        ),
        (
            "DELETE FROM ORDERS WHERE ID > 1 AND AMT IS NOT NULL; SELECT ID, CUST FROM ORDERS WHERE ID > 0;",
            "2 rows affected\n1, 'bo'\n3, 'al'\n2 rows selected\n",
        ),
        (
            "DELETE FROM ORDERS WHERE NOTE = 'none'; SELECT CUST FROM ORDERS WHERE CUST IS NULL;",
            "0 rows affected\nnull\n1 row selected\n",
        ),
        (
            "DELETE FROM ORDERS; DELETE FROM ORDERS; SELECT * FROM ORDERS; UPSERT INTO ORDERS (ID, CUST) VALUES (2,'cy');
SELECT ID, CUST, AMT FROM ORDERS WHERE CUST = 'cy';",
            "4 rows affected\n0 rows affected\n0 rows selected\n1 row affected\n2, 'cy', null\n1 row selected\n",
        ),
        (
            "DELETE FROM ORDERS WHERE ID = 2;
!scn 6
SELECT ID, AMT FROM ORDERS WHERE CUST = 'al';
!scn off
SELECT ID, AMT FROM ORDERS WHERE CUST = 'al';",
            "1 row affected\nscn 6\n2, 7\n3, null\n2 rows selected\nscn off\n3, null\n1 row selected\n",
        ),
    ] {
        assert!(rt; ordered(&rt, rt.alloc(), statements, Status::Done, text) == Ok(true));
    }
    for (statements, text) in [
        ("DELETE FROM NOWHERE;", "E05 no such table: NOWHERE\n"),
        (
            "DELETE FROM ORDERS WHERE NO = 1;",
            "E04 no such column: NO\n",
        ),
        (
            "DELETE FROM ORDERS WHERE CUST = 1;",
            "E06 type mismatch at byte 32\n",
        ),
        ("!scn 2\nDELETE FROM ORDERS;", "scn 2\nE13 not under scn\n"),
    ] {
        assert!(rt; ordered(&rt, rt.alloc(), statements, Status::Refused, text) == Ok(true));
    }
}

#[test]
fn removed_rows_stay_removed_in_a_later_run(rt: HostRuntime) {
    let alloc = rt.alloc();
    let Ok(mut script) = String::from_str(alloc, ORDERS) else {
        panic!(rt; "no memory")
    };
    assert!(rt;
        script
            .push_str("DELETE FROM ORDERS WHERE CUST = 'al';")
            .is_ok()
    );
    let run = run_new(&rt, alloc, &script).expect(&rt, "no memory");
    let script = "SELECT ID FROM ORDERS; SELECT ID FROM ORDERS WHERE CUST = 'al';
!scn 6
SELECT ID FROM ORDERS WHERE CUST = 'al';";
    let text = "1\n4\n2 rows selected\n0 rows selected\nscn 6\n2\n3\n2 rows selected\n";
    let again = run_again(&rt, alloc, disk_of(run), script).expect(&rt, "no memory");
    assert!(rt; prints(again, Status::Done, text));
}
