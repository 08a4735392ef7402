// Queries over six tables with twelve indexes, and what EXPLAIN prints of each, worked out by hand.
use px_ast::Statement;
use px_bind::{Query, Request};
use px_parse::parse;
use px_plan::{PlanFault, choose, explain};
use px_tables::{Found, IndexState};
use px_tests_bound::{bound, table_of, with_index};
use px_values::Line;
use std::alloc::{AllocError, Global};
use std::process::Abort;
use std::test::Fail;

/// The tables, and behind each its indexes in order of number: how far one is built, the stamp of its birth, and its
/// statement.
const TABLES: &str =
    "CREATE TABLE ORDERS (ID BIGINT PRIMARY KEY, CUST VARCHAR, AMT INTEGER, NOTE VARCHAR)
ACTIVE 1 CREATE INDEX BY_CUST ON ORDERS (CUST) INCLUDE (AMT)
ACTIVE 5 CREATE INDEX BY_CA ON ORDERS (CUST, AMT DESC)
BUILDING 1 CREATE INDEX BY_AMT ON ORDERS (AMT)
CREATE TABLE LOG (DAY INTEGER NOT NULL, SEQ BIGINT, TXT VARCHAR CONSTRAINT PK PRIMARY KEY (DAY, SEQ DESC))
ACTIVE 1 CREATE INDEX LOG_TXT ON LOG (TXT)
ACTIVE 1 CREATE INDEX LOG_SEQ ON LOG (SEQ DESC)
CREATE TABLE FLAGS (K VARCHAR PRIMARY KEY DESC, F BOOLEAN, G TINYINT)
ACTIVE 1 CREATE INDEX FLAG_F ON FLAGS (F, G)
ACTIVE 1 CREATE INDEX FLAG_G ON FLAGS (G DESC, F)
CREATE TABLE KV (K VARCHAR NOT NULL PRIMARY KEY, V VARCHAR)
DISABLED 1 CREATE INDEX KV_V ON KV (V)
CREATE TABLE P (A SMALLINT, B SMALLINT, C SMALLINT, D VARCHAR CONSTRAINT PK PRIMARY KEY (A, B, C))
ACTIVE 1 CREATE INDEX P_BC ON P (B, C)
ACTIVE 1 CREATE INDEX P_CB ON P (C, B) INCLUDE (D)
ACTIVE 1 CREATE INDEX P_D ON P (D)
CREATE TABLE U (ID UNSIGNED_INT PRIMARY KEY, X UNSIGNED_LONG, Y VARCHAR)
ACTIVE 9 CREATE INDEX U_X ON U (X) INCLUDE (Y)";

/// The stamp of the point, 0 for a current one, and a query, with the lines that EXPLAIN prints of it.
const QUERIES: &str = "0 SELECT * FROM ORDERS => SCAN TABLE ORDERS/KEY EQUAL 0 RANGE 0
0 SELECT * FROM ORDERS WHERE ID = 5 => SCAN TABLE ORDERS/KEY EQUAL 1 RANGE 0
0 SELECT * FROM ORDERS WHERE ID > 5 => SCAN TABLE ORDERS/KEY EQUAL 0 RANGE 1
0 SELECT * FROM ORDERS WHERE 5 < ID => SCAN TABLE ORDERS/KEY EQUAL 0 RANGE 0/FILTER
0 SELECT * FROM ORDERS WHERE CUST = 'al' => SCAN TABLE ORDERS/KEY EQUAL 0 RANGE 0/FILTER
0 SELECT ID, CUST, AMT FROM ORDERS WHERE CUST = 'al' => SCAN INDEX BY_CUST OF ORDERS/KEY EQUAL 1 RANGE 0
0 SELECT AMT FROM ORDERS WHERE CUST = 'al' AND AMT = 3 => SCAN INDEX BY_CA OF ORDERS/KEY EQUAL 2 RANGE 0
4 SELECT AMT FROM ORDERS WHERE CUST = 'al' AND AMT = 3 => SCAN INDEX BY_CUST OF ORDERS/KEY EQUAL 1 RANGE 0/FILTER
5 SELECT AMT FROM ORDERS WHERE CUST = 'al' AND AMT = 3 => SCAN INDEX BY_CA OF ORDERS/KEY EQUAL 2 RANGE 0
0 SELECT ID FROM ORDERS WHERE CUST = 'al' AND AMT > 4 => SCAN INDEX BY_CA OF ORDERS/KEY EQUAL 1 RANGE 1
0 SELECT ID FROM ORDERS WHERE AMT > 4 AND CUST = 'al' AND AMT > 5 => SCAN INDEX BY_CA OF ORDERS/KEY EQUAL 1 RANGE 1/FILTER
0 SELECT ID FROM ORDERS WHERE AMT = 4 => SCAN TABLE ORDERS/KEY EQUAL 0 RANGE 0/FILTER
0 SELECT CUST FROM ORDERS ORDER BY CUST => SCAN INDEX BY_CUST OF ORDERS/KEY EQUAL 0 RANGE 0
0 SELECT CUST FROM ORDERS ORDER BY CUST, AMT DESC => SCAN INDEX BY_CA OF ORDERS/KEY EQUAL 0 RANGE 0
0 SELECT CUST FROM ORDERS ORDER BY CUST, AMT => SCAN TABLE ORDERS/KEY EQUAL 0 RANGE 0/SORT
0 SELECT CUST FROM ORDERS ORDER BY CUST, ID => SCAN INDEX BY_CUST OF ORDERS/KEY EQUAL 0 RANGE 0
0 SELECT CUST FROM ORDERS ORDER BY CUST DESC => SCAN TABLE ORDERS/KEY EQUAL 0 RANGE 0/SORT
0 SELECT CUST FROM ORDERS WHERE CUST = 'al' ORDER BY CUST => SCAN INDEX BY_CUST OF ORDERS/KEY EQUAL 1 RANGE 0/SORT
0 SELECT CUST FROM ORDERS WHERE CUST = 'al' ORDER BY ID => SCAN INDEX BY_CUST OF ORDERS/KEY EQUAL 1 RANGE 0
0 SELECT CUST FROM ORDERS WHERE CUST = 'al' ORDER BY AMT DESC => SCAN INDEX BY_CA OF ORDERS/KEY EQUAL 1 RANGE 0
0 SELECT CUST FROM ORDERS WHERE CUST IS NULL => SCAN INDEX BY_CUST OF ORDERS/KEY EQUAL 1 RANGE 0
0 SELECT CUST FROM ORDERS WHERE CUST IS NOT NULL => SCAN TABLE ORDERS/KEY EQUAL 0 RANGE 0/FILTER
0 SELECT CUST FROM ORDERS WHERE CUST = NULL => SCAN TABLE ORDERS/KEY EQUAL 0 RANGE 0/FILTER
0 SELECT CUST FROM ORDERS WHERE CUST IN ('al') => SCAN TABLE ORDERS/KEY EQUAL 0 RANGE 0/FILTER
0 SELECT CUST FROM ORDERS WHERE CUST BETWEEN 'a' AND 'b' => SCAN INDEX BY_CUST OF ORDERS/KEY EQUAL 0 RANGE 1
0 SELECT CUST FROM ORDERS WHERE CUST NOT BETWEEN 'a' AND 'b' => SCAN TABLE ORDERS/KEY EQUAL 0 RANGE 0/FILTER
0 SELECT CUST FROM ORDERS WHERE CUST BETWEEN 'a' AND NULL => SCAN TABLE ORDERS/KEY EQUAL 0 RANGE 0/FILTER
0 SELECT CUST FROM ORDERS WHERE CUST >= 'a' AND CUST BETWEEN 'b' AND 'c' => SCAN INDEX BY_CUST OF ORDERS/KEY EQUAL 0 RANGE 1/FILTER
0 SELECT CUST FROM ORDERS WHERE CUST = 'a' OR CUST = 'b' => SCAN TABLE ORDERS/KEY EQUAL 0 RANGE 0/FILTER
0 SELECT CUST FROM ORDERS WHERE (CUST = 'a') AND ((AMT = 2)) => SCAN INDEX BY_CA OF ORDERS/KEY EQUAL 2 RANGE 0
0 SELECT CUST FROM ORDERS WHERE NOT CUST <> 'a' => SCAN TABLE ORDERS/KEY EQUAL 0 RANGE 0/FILTER
0 SELECT CUST FROM ORDERS WHERE CUST = 'a' AND CUST = 'b' => SCAN INDEX BY_CUST OF ORDERS/KEY EQUAL 1 RANGE 0/FILTER
0 SELECT CUST FROM ORDERS WHERE CUST = 'a' AND CUST > 'b' => SCAN INDEX BY_CUST OF ORDERS/KEY EQUAL 1 RANGE 0/FILTER
0 SELECT CUST FROM ORDERS WHERE CUST = 'a' AND ID = 3 => SCAN INDEX BY_CUST OF ORDERS/KEY EQUAL 2 RANGE 0
0 SELECT CUST FROM ORDERS LIMIT 3 => SCAN TABLE ORDERS/KEY EQUAL 0 RANGE 0/LIMIT 3
0 SELECT CUST FROM ORDERS WHERE NOTE = 'x' ORDER BY AMT LIMIT 0 => SCAN TABLE ORDERS/KEY EQUAL 0 RANGE 0/FILTER/SORT/LIMIT 0
0 SELECT /*+ INDEX(ORDERS BY_CUST) */ CUST FROM ORDERS => SCAN INDEX BY_CUST OF ORDERS/KEY EQUAL 0 RANGE 0
0 SELECT /*+ INDEX(ORDERS BY_CA) */ CUST FROM ORDERS WHERE CUST = 'al' => SCAN INDEX BY_CA OF ORDERS/KEY EQUAL 1 RANGE 0
0 SELECT /*+ NO_INDEX */ CUST FROM ORDERS WHERE CUST = 'al' => SCAN TABLE ORDERS/KEY EQUAL 0 RANGE 0/FILTER
0 SELECT /*+ INDEX(ORDERS BY_AMT) */ AMT FROM ORDERS WHERE AMT = 4 => SCAN TABLE ORDERS/KEY EQUAL 0 RANGE 0/FILTER
0 SELECT /*+ INDEX(ORDERS NONE) NO_INDEX */ AMT FROM ORDERS WHERE CUST = 'a' => SCAN TABLE ORDERS/KEY EQUAL 0 RANGE 0/FILTER
0 SELECT /*+ INDEX(ORDERS BY_AMT) INDEX(ORDERS BY_CA) NO_INDEX */ AMT FROM ORDERS => SCAN INDEX BY_CA OF ORDERS/KEY EQUAL 0 RANGE 0
0 SELECT /*+ INDEX(ORDERS BY_CA) */ NOTE FROM ORDERS => INDEX JOIN
0 SELECT /*+ INDEX(ORDERS BY_CA) NO_INDEX */ AMT FROM ORDERS WHERE NOTE = 'x' => INDEX JOIN
0 SELECT /*+ INDEX(ORDERS BY_CA) */ AMT FROM ORDERS ORDER BY NOTE => INDEX JOIN
4 SELECT /*+ INDEX(ORDERS BY_CA) */ AMT FROM ORDERS => SCAN TABLE ORDERS/KEY EQUAL 0 RANGE 0
4 SELECT /*+ INDEX(ORDERS BY_CA) */ NOTE FROM ORDERS => SCAN TABLE ORDERS/KEY EQUAL 0 RANGE 0
0 SELECT /*+ INDEX(LOG BY_CA) */ AMT FROM ORDERS => SCAN TABLE ORDERS/KEY EQUAL 0 RANGE 0
0 SELECT * FROM LOG WHERE DAY = 1 => SCAN TABLE LOG/KEY EQUAL 1 RANGE 0
0 SELECT * FROM LOG WHERE DAY = 1 AND SEQ = 2 => SCAN TABLE LOG/KEY EQUAL 2 RANGE 0
0 SELECT * FROM LOG WHERE DAY = 1 AND SEQ > 2 AND SEQ <= 9 => SCAN TABLE LOG/KEY EQUAL 1 RANGE 1
0 SELECT * FROM LOG WHERE DAY = 1 ORDER BY SEQ DESC => SCAN TABLE LOG/KEY EQUAL 1 RANGE 0
0 SELECT * FROM LOG WHERE DAY = 1 ORDER BY SEQ => SCAN TABLE LOG/KEY EQUAL 1 RANGE 0/SORT
0 SELECT * FROM LOG ORDER BY DAY, SEQ DESC => SCAN TABLE LOG/KEY EQUAL 0 RANGE 0
0 SELECT * FROM LOG ORDER BY DAY DESC, SEQ => SCAN TABLE LOG/KEY EQUAL 0 RANGE 0/SORT
0 SELECT SEQ FROM LOG ORDER BY SEQ DESC => SCAN INDEX LOG_SEQ OF LOG/KEY EQUAL 0 RANGE 0
0 SELECT SEQ FROM LOG WHERE SEQ = 4 => SCAN INDEX LOG_SEQ OF LOG/KEY EQUAL 1 RANGE 0
0 SELECT SEQ, TXT FROM LOG WHERE SEQ = 4 => SCAN TABLE LOG/KEY EQUAL 0 RANGE 0/FILTER
0 SELECT * FROM LOG WHERE TXT = 'x' => SCAN INDEX LOG_TXT OF LOG/KEY EQUAL 1 RANGE 0
0 SELECT * FROM LOG WHERE TXT = 'x' AND DAY = 1 => SCAN INDEX LOG_TXT OF LOG/KEY EQUAL 2 RANGE 0
0 SELECT * FROM LOG WHERE TXT = 'x' AND DAY = 1 AND SEQ BETWEEN 1 AND 2 => SCAN INDEX LOG_TXT OF LOG/KEY EQUAL 2 RANGE 1
0 SELECT * FROM LOG WHERE DAY = 3000000000 => SCAN TABLE LOG/KEY EQUAL 1 RANGE 0
0 SELECT * FROM LOG WHERE DAY IS NULL => SCAN TABLE LOG/KEY EQUAL 1 RANGE 0
0 SELECT * FROM LOG WHERE DAY < 3000000000 => SCAN TABLE LOG/KEY EQUAL 0 RANGE 1
0 SELECT * FROM FLAGS WHERE F = TRUE => SCAN INDEX FLAG_F OF FLAGS/KEY EQUAL 1 RANGE 0
0 SELECT * FROM FLAGS WHERE G = 1 => SCAN INDEX FLAG_G OF FLAGS/KEY EQUAL 1 RANGE 0
0 SELECT * FROM FLAGS WHERE G = 1 AND F = FALSE => SCAN INDEX FLAG_F OF FLAGS/KEY EQUAL 2 RANGE 0
0 SELECT * FROM FLAGS WHERE F = FALSE AND G < 1 => SCAN INDEX FLAG_F OF FLAGS/KEY EQUAL 1 RANGE 1
0 SELECT * FROM FLAGS WHERE G = 1 AND F > FALSE => SCAN INDEX FLAG_G OF FLAGS/KEY EQUAL 1 RANGE 1
0 SELECT * FROM FLAGS WHERE F IS NULL AND G IS NULL AND K = 'x' => SCAN INDEX FLAG_F OF FLAGS/KEY EQUAL 3 RANGE 0
0 SELECT * FROM FLAGS WHERE K = 'x' => SCAN TABLE FLAGS/KEY EQUAL 1 RANGE 0
0 SELECT * FROM FLAGS ORDER BY K DESC => SCAN TABLE FLAGS/KEY EQUAL 0 RANGE 0
0 SELECT * FROM FLAGS ORDER BY K => SCAN TABLE FLAGS/KEY EQUAL 0 RANGE 0/SORT
0 SELECT * FROM FLAGS ORDER BY G DESC, F, K DESC => SCAN INDEX FLAG_G OF FLAGS/KEY EQUAL 0 RANGE 0
0 SELECT V FROM KV WHERE V = 'x' => SCAN TABLE KV/KEY EQUAL 0 RANGE 0/FILTER
0 SELECT /*+ INDEX(KV KV_V) */ V FROM KV WHERE V = 'x' => SCAN TABLE KV/KEY EQUAL 0 RANGE 0/FILTER
0 SELECT A FROM P WHERE B = 1 AND C = 2 => SCAN INDEX P_BC OF P/KEY EQUAL 2 RANGE 0
0 SELECT D FROM P WHERE B = 1 AND C = 2 => SCAN INDEX P_CB OF P/KEY EQUAL 2 RANGE 0
0 SELECT A FROM P WHERE A = 1 AND B = 2 => SCAN TABLE P/KEY EQUAL 2 RANGE 0
0 SELECT A FROM P WHERE C = 2 AND A = 1 => SCAN TABLE P/KEY EQUAL 1 RANGE 0/FILTER
0 SELECT A FROM P WHERE C = 1 AND B > 2 => SCAN INDEX P_CB OF P/KEY EQUAL 1 RANGE 1
0 SELECT A FROM P WHERE C = 1 AND B > 2 AND A = 7 => SCAN TABLE P/KEY EQUAL 1 RANGE 1/FILTER
0 SELECT A FROM P WHERE A = B => SCAN TABLE P/KEY EQUAL 0 RANGE 0/FILTER
0 SELECT * FROM P WHERE D = 'x' AND A = 1 AND B = 2 AND C = 3 => SCAN INDEX P_D OF P/KEY EQUAL 4 RANGE 0
0 SELECT X FROM U WHERE X > 5 => SCAN INDEX U_X OF U/KEY EQUAL 0 RANGE 1
8 SELECT X FROM U WHERE X > 5 => SCAN TABLE U/KEY EQUAL 0 RANGE 0/FILTER
0 SELECT * FROM U WHERE X = 5 AND ID >= 1 AND ID < 4 ORDER BY ID LIMIT 2 => SCAN INDEX U_X OF U/KEY EQUAL 1 RANGE 1/LIMIT 2
0 SELECT * FROM U WHERE ID = -1 AND X < -1 => SCAN TABLE U/KEY EQUAL 1 RANGE 0/FILTER";

fn state(rt: &impl Abort, word: &str) -> IndexState {
    match word {
        "ACTIVE" => IndexState::Active,
        "BUILDING" => IndexState::Building,
        "DISABLED" => IndexState::Disabled,
        _ => panic!(rt; "no state: {word}"),
    }
}

/// The table with one index more, of a line.
fn with_line(rt: &impl Abort, alloc: Global, number: u32, line: &str, found: Found) -> Found {
    let (word, others) = line.split_once(" ").expect(rt, "a state");
    let (birth, text) = others.split_once(" ").expect(rt, "a birth");
    let state = state(rt, word);
    let birth = birth.parse::<u64>().expect(rt, "a stamp");
    with_index(alloc, found, number, state, birth, text).expect(rt, "an index")
}

fn tables(rt: &impl Abort, alloc: Global) -> Result<Vec<Found>, AllocError> {
    let mut tables = Vec::new(alloc);
    let mut number = 2u32;
    for line in TABLES.lines() {
        number = number.saturating_add(1);
        let next = if line.starts_with("CREATE TABLE") {
            table_of(alloc, number, line).expect(rt, "a table")
        } else {
            let found = tables.pop().expect(rt, "a table");
            with_line(rt, alloc, number, line, found)
        };
        tables.push(next)?;
    }
    Ok(tables)
}

/// The query of a text on one of these tables, and the number of that table.
fn query(rt: &impl Abort, alloc: Global, text: &str, tables: &[Found]) -> (usize, Query) {
    let Ok(statement) = parse(alloc, text) else {
        panic!(rt; "no statement: {text}")
    };
    let place = match &statement {
        Statement::Select(select) => tables
            .iter()
            .position(|found| found.table.name.as_str() == select.table.as_str())
            .expect(rt, "a table of this name"),
        _ => panic!(rt; "no query: {text}"),
    };
    drop(statement);
    assert!(rt; place < tables.len());
    match bound(alloc, text, &tables[place]) {
        Some(Ok(Request::Select(query))) => (place, query),
        _ => panic!(rt; "not bound: {text}"),
    }
}

/// What EXPLAIN prints of a query.
fn printed(
    rt: &impl Abort,
    alloc: Global,
    point: Option<u64>,
    text: &str,
    tables: &[Found],
) -> Result<Line, AllocError> {
    let (place, query) = query(rt, alloc, text, tables);
    assert!(rt; place < tables.len());
    let mut line = Line::new(alloc);
    let plan = choose(alloc, query, &tables[place], point);
    let done = match &plan {
        Ok(plan) => explain(plan, &mut line),
        Err(PlanFault::IndexJoin) => line.push_str("INDEX JOIN\n"),
        Err(PlanFault::Memory) => panic!(rt; "no memory"),
    };
    drop(plan);
    match done {
        Ok(()) => Ok(line),
        Err(fault) => {
            drop(line);
            Err(fault)
        }
    }
}

/// The lines that are apart by a slash, each with its line feed.
fn lines(alloc: Global, text: &str) -> Result<Line, AllocError> {
    let mut line = Line::new(alloc);
    for part in text.split("/") {
        line.push_str(part)?;
        line.push_str("\n")?;
    }
    Ok(line)
}

#[test]
fn queries_are_explained(rt: HostRuntime) -> Result<(), Fail> {
    let alloc = rt.alloc();
    let tables = tables(&rt, alloc)?;
    let mut count = 0u32;
    for line in QUERIES.lines() {
        let (left, right) = line.split_once(" => ").expect(&rt, "a line with an arrow");
        let (stamp, text) = left.split_once(" ").expect(&rt, "a stamp");
        let stamp = stamp.parse::<u64>().expect(&rt, "a stamp");
        let point = if stamp == 0 { None } else { Some(stamp) };
        let answer = printed(&rt, alloc, point, text, tables.as_slice())?;
        let expected = lines(alloc, right)?;
        assert_eq!(rt; answer.as_slice(), expected.as_slice(), "{text}");
        count = count.saturating_add(1);
    }
    assert_eq!(rt; count, 88);
    Ok(())
}
