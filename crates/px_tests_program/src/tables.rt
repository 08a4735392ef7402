// Tables of every type: definitions, rows, conditions, order, and what refuses them.
use crate::runs::{ends, ends_behind};
use px_program::Status;
use std::alloc::{AllocError, Global};
use std::sync::Wait;
use std::thread::Threads;

/// A table of orders with two rows.
const ORDERS: &str =
    "CREATE TABLE ORDERS (ID BIGINT NOT NULL PRIMARY KEY, CUST VARCHAR, AMT INTEGER, NOTE VARCHAR);
UPSERT INTO ORDERS (ID, CUST, AMT) VALUES (1,'bo',5);
UPSERT INTO ORDERS (ID, CUST, AMT) VALUES (2,'al',7);
";

const ORDERED: &str = "table created\n1 row affected\n1 row affected\n";

/// Whether these statements print this behind the table of orders.
fn ordered<R: Threads + Wait + Sync>(
    rt: &R,
    alloc: Global,
    statements: &str,
    text: &str,
) -> Result<bool, AllocError> {
    let status = if text.starts_with("E") {
        Status::Refused
    } else {
        Status::Done
    };
    ends_behind(rt, alloc, (ORDERS, ORDERED), statements, status, text)
}

#[test]
fn numbers_come_in_the_order_of_their_values(rt: HostRuntime) {
    let script = "CREATE TABLE N (K BIGINT NOT NULL PRIMARY KEY);
UPSERT INTO N VALUES (0); UPSERT INTO N VALUES (9223372036854775807); UPSERT INTO N VALUES (-1);
UPSERT INTO N VALUES (-9223372036854775808); SELECT * FROM N; UPSERT INTO N VALUES (9223372036854775808);";
    let text = "table created
1 row affected
1 row affected
1 row affected
1 row affected
-9223372036854775808
-1
0
9223372036854775807
4 rows selected
E07 value out of range at byte 22
";
    assert!(rt; ends(&rt, rt.alloc(), script, Status::Refused, text) == Ok(true));
}

#[test]
fn rows_are_set_column_by_column(rt: HostRuntime) {
    for (statements, text) in [
        (
            "SELECT ID, CUST, AMT FROM ORDERS WHERE CUST = 'al';",
            "2, 'al', 7\n1 row selected\n",
        ),
        (
            "UPSERT INTO ORDERS (ID, CUST) VALUES (1,'zed'); SELECT * FROM ORDERS;",
            "1 row affected\n1, 'zed', 5, null\n2, 'al', 7, null\n2 rows selected\n",
        ),
        (
            "UPSERT INTO ORDERS (ID, CUST, AMT) VALUES (2,'',NULL); SELECT ID, CUST, AMT FROM ORDERS WHERE CUST IS NULL;",
            "1 row affected\n2, null, null\n1 row selected\n",
        ),
        (
            "UPSERT INTO ORDERS (ID) VALUES (2); SELECT AMT, ID, AMT FROM ORDERS WHERE ID = 2;",
            "1 row affected\n7, 2, 7\n1 row selected\n",
        ),
        (
            "UPSERT INTO ORDERS (CUST, ID) VALUES ('cy', 0); SELECT ID, CUST FROM ORDERS ORDER BY CUST DESC LIMIT 2;",
            "1 row affected\n0, 'cy'\n1, 'bo'\n2 rows selected\n",
        ),
        (
            "SELECT NOTE FROM ORDERS WHERE CUST = 'al';",
            "null\n1 row selected\n",
        ),
        ("SELECT ID FROM ORDERS LIMIT 0;", "0 rows selected\n"),
    ] {
        assert!(rt; ordered(&rt, rt.alloc(), statements, text) == Ok(true));
    }
}

#[test]
fn the_path_of_a_query_is_explained(rt: HostRuntime) {
    for (statement, text) in [
        (
            "EXPLAIN SELECT * FROM ORDERS;",
            "SCAN TABLE ORDERS\nKEY EQUAL 0 RANGE 0\n",
        ),
        (
            "EXPLAIN SELECT * FROM ORDERS WHERE ID = 1;",
            "SCAN TABLE ORDERS\nKEY EQUAL 1 RANGE 0\n",
        ),
        (
            "EXPLAIN SELECT ID FROM ORDERS WHERE CUST = 'al';",
            "SCAN TABLE ORDERS\nKEY EQUAL 0 RANGE 0\nFILTER\n",
        ),
        (
            "EXPLAIN SELECT * FROM ORDERS WHERE ID > 1 AND AMT = 2 ORDER BY AMT LIMIT 3;",
            "SCAN TABLE ORDERS\nKEY EQUAL 0 RANGE 1\nFILTER\nSORT\nLIMIT 3\n",
        ),
    ] {
        assert!(rt; ordered(&rt, rt.alloc(), statement, text) == Ok(true));
    }
}

#[test]
fn what_is_wrong_with_a_statement_is_told_by_its_code(rt: HostRuntime) {
    for (statement, text) in [
        (
            "SELECT CUSTOMER FROM ORDERS;",
            "E04 no such column: CUSTOMER\n",
        ),
        ("SELECT X FROM NOWHERE;", "E05 no such table: NOWHERE\n"),
        (
            "UPSERT INTO \"orders\" VALUES (1);",
            "E05 no such table: orders\n",
        ),
        (
            "SELECT ID FROM ORDERS WHERE CUST > 5;",
            "E06 type mismatch at byte 35\n",
        ),
        (
            "UPSERT INTO ORDERS VALUES (1, 2, 3, 4);",
            "E06 type mismatch at byte 30\n",
        ),
        (
            "UPSERT INTO ORDERS VALUES (1);",
            "E06 type mismatch at byte 19\n",
        ),
        (
            "UPSERT INTO ORDERS (ID, AMT) VALUES (1, 2147483648);",
            "E07 value out of range at byte 40\n",
        ),
        (
            "UPSERT INTO ORDERS (CUST) VALUES ('a');",
            "E08 null key column: ID\n",
        ),
        (
            "UPSERT INTO KV VALUES ('','b');",
            "E08 null key column: K\n",
        ),
        ("DROP INDEX X ON ORDERS;", "E09 no such index: X\n"),
        (
            "UPSERT INTO ORDERS (ID, AMT, ID) VALUES (1, 2, 3);",
            "E10 column named twice: ID\n",
        ),
        (
            "UPSERT INTO ORDERS (NO, ID, ID) VALUES (1, 2, 3);",
            "E04 no such column: NO\n",
        ),
        (
            "SELECT ID FROM ORDERS ORDER BY NO;",
            "E04 no such column: NO\n",
        ),
        ("SELECT ID FROM ORDERS JOIN KV;", "E02 left out: JOIN\n"),
    ] {
        assert!(rt; ordered(&rt, rt.alloc(), statement, text) == Ok(true));
    }
}

#[test]
fn definitions_are_made_kept_and_dropped(rt: HostRuntime) {
    let script = "CREATE TABLE KV (X BIGINT PRIMARY KEY);
CREATE TABLE IF NOT EXISTS KV (X BIGINT PRIMARY KEY);
CREATE TABLE T (A BIGINT PRIMARY KEY);
UPSERT INTO T VALUES (1);
DROP TABLE T;
SELECT * FROM T;
DROP TABLE T;
DROP TABLE IF EXISTS T;
DROP INDEX IF EXISTS I ON KV;
CREATE TABLE T (A BIGINT PRIMARY KEY, B VARCHAR);
SELECT * FROM T;
DROP TABLE KV;
SELECT * FROM KV;";
    let text = "E03 name exists: KV
table kept
table created
1 row affected
table dropped
E05 no such table: T
E05 no such table: T
table absent
index absent
table created
0 rows selected
table dropped
E05 no such table: KV
";
    assert!(rt; ends(&rt, rt.alloc(), script, Status::Refused, text) == Ok(true));
}

#[test]
fn a_definition_that_is_wrong_makes_nothing(rt: HostRuntime) {
    for (statement, text) in [
        ("CREATE TABLE D (A BIGINT)", "E08 null key column: A\n"),
        (
            "CREATE TABLE D (A BIGINT, B VARCHAR CONSTRAINT PK PRIMARY KEY (A, A))",
            "E10 column named twice: A\n",
        ),
        (
            "CREATE TABLE D (A BIGINT, A VARCHAR CONSTRAINT PK PRIMARY KEY (A))",
            "E10 column named twice: A\n",
        ),
        (
            "CREATE TABLE D (A BIGINT PRIMARY KEY, B VARCHAR PRIMARY KEY)",
            "E10 column named twice: B\n",
        ),
        (
            "CREATE TABLE D (A BIGINT, B VARCHAR CONSTRAINT PK PRIMARY KEY (X))",
            "E04 no such column: X\n",
        ),
    ] {
        assert!(rt; ends(&rt, rt.alloc(), statement, Status::Refused, text) == Ok(true));
    }
}

#[test]
fn a_key_has_parts_in_either_direction(rt: HostRuntime) {
    let script =
        "CREATE TABLE C (A BIGINT NOT NULL, B VARCHAR NOT NULL, C SMALLINT CONSTRAINT PK PRIMARY KEY (B DESC, A));
UPSERT INTO C VALUES (1,'x',3); UPSERT INTO C VALUES (2,'x',NULL); UPSERT INTO C VALUES (1,'y',-5); UPSERT INTO C (B, A) VALUES ('z', 0);
SELECT * FROM C;
SELECT C FROM C WHERE B = 'x' AND A > 1;
EXPLAIN SELECT * FROM C WHERE B = 'x' AND A > 1;
UPSERT INTO C VALUES (NULL,'y',-5);
UPSERT INTO C VALUES (1,'y',40000);";
    let text = "table created
1 row affected
1 row affected
1 row affected
1 row affected
0, 'z', null
1, 'y', -5
1, 'x', 3
2, 'x', null
4 rows selected
null
1 row selected
SCAN TABLE C
KEY EQUAL 1 RANGE 1
E08 null key column: A
E07 value out of range at byte 28
";
    assert!(rt; ends(&rt, rt.alloc(), script, Status::Refused, text) == Ok(true));
}

#[test]
fn quoted_names_differ_in_case(rt: HostRuntime) {
    let script =
        "CREATE TABLE \"c\" (\"b\" TINYINT PRIMARY KEY, \"B\" UNSIGNED_INT, D UNSIGNED_LONG);
UPSERT INTO \"c\" VALUES (-128, 2147483647, 9223372036854775807);
SELECT \"B\", \"b\", d FROM \"c\";
UPSERT INTO \"c\" VALUES (128, 1, 1);
UPSERT INTO \"c\" VALUES (1, -1, 1);
SELECT * FROM c;";
    let text = "table created
1 row affected
2147483647, -128, 9223372036854775807
1 row selected
E07 value out of range at byte 24
E07 value out of range at byte 27
E05 no such table: C
";
    assert!(rt; ends(&rt, rt.alloc(), script, Status::Refused, text) == Ok(true));
}
