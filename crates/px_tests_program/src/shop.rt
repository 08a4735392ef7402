// A shop's order lines with three indexes, which two sessions fill and change at once.
use crate::runs::ends;
use px_program::Status;
use std::alloc::Global;
use std::fmt;
use std::fmt::Write;

/// The table and its indexes.
const TABLE: &str =
    "CREATE TABLE LINES (ORD BIGINT NOT NULL, NO SMALLINT NOT NULL, SKU VARCHAR, QTY INTEGER, STATE VARCHAR CONSTRAINT PK PRIMARY KEY (ORD, NO));
CREATE INDEX BY_SKU ON LINES (SKU) INCLUDE (QTY);
CREATE INDEX BY_STATE ON LINES (STATE, QTY DESC);
CREATE INDEX BY_QTY ON LINES (QTY) INCLUDE (SKU);
";

const MADE: &str = "table created
index created
index created
index created
";

/// What is read in the end.
const QUERIES: &str = "SELECT ORD, NO, QTY FROM LINES WHERE STATE = 'paid';
SELECT ORD, NO, QTY FROM LINES WHERE SKU = 'S3' AND QTY > 4;
SELECT ORD, NO, SKU FROM LINES WHERE QTY = 6 LIMIT 3;
EXPLAIN SELECT ORD, NO, QTY FROM LINES WHERE SKU = 'S3' AND QTY > 4;
";

const ROWS: &str = "6, 1, 6
4, 1, 5
2, 1, 4
9, 1, 4
7, 1, 3
5, 1, 2
3, 1, 1
10, 1, 1
1, 1, 0
8, 1, 0
10 rows selected
4, 2, 6
9, 2, 5
21, 4, 6
26, 4, 5
39, 2, 6
44, 2, 5
6 rows selected
2, 3, 'S6'
4, 2, 'S3'
6, 1, 'S0'
3 rows selected
SCAN INDEX BY_SKU OF LINES
KEY EQUAL 1 RANGE 0
FILTER
";

/// The lines of 50 orders, half of them by each session; then ten are paid, while some are removed.
fn script_of(alloc: Global) -> Result<String, fmt::Error> {
    let mut script = String::new(alloc);
    script.write_str(TABLE)?;
    script.write_str("---\n")?;
    for i in 0..200 {
        if 100 <= i {
            script.write_str("@2 ")?;
        }
        let (order, line, sku, quantity) = (1 + i / 4, 1 + i % 4, i % 10, i % 7);
        write!(
            script,
            "UPSERT INTO LINES VALUES ({order},{line},'S{sku}',{quantity},'new');\n"
        )?;
    }
    script.write_str("---\n")?;
    for order in 1..11 {
        write!(
            script,
            "UPSERT INTO LINES (ORD, NO, STATE) VALUES ({order},1,'paid');\n"
        )?;
    }
    script.write_str("@2 DELETE FROM LINES WHERE SKU = 'S3' AND QTY < 2;\n---\n")?;
    script.write_str(QUERIES)?;
    Ok(script)
}

/// What all that prints.
fn text_of(alloc: Global) -> Result<String, fmt::Error> {
    let mut text = String::new(alloc);
    text.write_str(MADE)?;
    for _ in 0..100 {
        text.write_str("1 row affected\n")?;
    }
    text.write_str("@2\n")?;
    for _ in 0..110 {
        text.write_str("1 row affected\n")?;
    }
    text.write_str("@2\n5 rows affected\n")?;
    text.write_str(ROWS)?;
    Ok(text)
}

#[test]
fn two_sessions_fill_and_change_a_table_with_three_indexes(rt: HostRuntime) {
    let alloc = rt.alloc();
    let (Ok(script), Ok(text)) = (script_of(alloc), text_of(alloc)) else {
        panic!(rt; "no memory")
    };
    assert!(rt; ends(&rt, alloc, &script, Status::Done, &text) == Ok(true));
}
