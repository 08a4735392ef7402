// Queries over a table with three indexes at points, and the paths that they choose, worked out by hand.
ghost use Rattle.std.specs.Prelude.{◌≡◌, IfOk};
ghost use Rattle.px_calls.specs.Calls.{AreRising};

use px_bind::{Query, Request};
use px_calls::{By, Path, Point};
use px_planned::Planned;
use px_scan::{Asks, PathFault};
use px_tables::{Found, Index, IndexState};
use px_tests_bound::{bound, index_of, table_of};
use px_tests_layouts::row;
use px_values::Items;
use std::alloc::{AllocError, Global};
use std::process::Abort;
use std::test::Fail;

const TABLE: &str =
    "CREATE TABLE ORDERS (ID BIGINT PRIMARY KEY, CUST VARCHAR, AMT INTEGER, NOTE VARCHAR)";

/// Index 7, born at 1.
const BY_CUST: &str = "CREATE INDEX BY_CUST ON ORDERS (CUST) INCLUDE (AMT)";

/// Index 8, born at 5.
const BY_CA: &str = "CREATE INDEX BY_CA ON ORDERS (CUST, AMT DESC)";

/// Index 9, born at 1, not built.
const BY_AMT: &str = "CREATE INDEX BY_AMT ON ORDERS (AMT)";

/// The stamp of a point and a query, with the number of the index that it reads by, 0 for the table; then whether its keys have a
/// low end and a high end.
const PATHS: &str = "9 SELECT * FROM ORDERS => 0 - -
9 SELECT * FROM ORDERS WHERE ID = 5 => 0 low high
9 SELECT * FROM ORDERS WHERE ID > 5 => 0 low -
9 SELECT * FROM ORDERS WHERE CUST = 'al' => 0 - -
9 SELECT ID, CUST, AMT FROM ORDERS WHERE CUST = 'al' => 7 low high
4 SELECT AMT FROM ORDERS WHERE CUST = 'al' AND AMT = 3 => 7 low high
5 SELECT AMT FROM ORDERS WHERE CUST = 'al' AND AMT = 3 => 8 low high
0 SELECT AMT FROM ORDERS WHERE CUST = 'al' AND AMT = 3 => 0 - -
9 SELECT ID FROM ORDERS WHERE AMT = 4 => 0 - -
9 SELECT CUST FROM ORDERS ORDER BY CUST => 7 - -
9 SELECT CUST FROM ORDERS ORDER BY CUST, AMT DESC LIMIT 3 => 8 - -
9 SELECT CUST FROM ORDERS WHERE NOTE = 'x' => 0 - -
9 SELECT /*+ NO_INDEX */ CUST FROM ORDERS WHERE CUST = 'al' => 0 - -
9 SELECT /*+ INDEX(ORDERS BY_CA) */ CUST FROM ORDERS WHERE CUST = 'al' => 8 low high
9 SELECT /*+ INDEX(ORDERS BY_AMT) */ AMT FROM ORDERS WHERE AMT = 4 => 0 - -
9 SELECT /*+ INDEX(ORDERS BY_AMT) INDEX(ORDERS BY_CA) */ AMT FROM ORDERS => 8 - -
9 SELECT /*+ INDEX(ORDERS BY_CA) */ NOTE FROM ORDERS => join
9 SELECT /*+ INDEX(ORDERS BY_CA) NO_INDEX */ AMT FROM ORDERS WHERE NOTE = 'x' => join
9 SELECT /*+ INDEX(ORDERS BY_CA) */ AMT FROM ORDERS ORDER BY NOTE => join
4 SELECT /*+ INDEX(ORDERS BY_CA) */ NOTE FROM ORDERS => 0 - -";

const GIVEN: &str = "1 al 4 NULL
2 bo 9 NULL
3 al 5 NULL
4 NULL NULL NULL";

/// A query, with the numbers of the rows that meet its condition, of the four above, and the LIMIT that ends its scan.
const ROWS: &str = "SELECT * FROM ORDERS => 0 1 2 3 ; -
SELECT * FROM ORDERS WHERE CUST = 'al' => 0 2 ; -
SELECT * FROM ORDERS WHERE CUST = 'al' AND AMT > 4 => 2 ; -
SELECT * FROM ORDERS WHERE NOT CUST = 'al' => 1 ; -
SELECT * FROM ORDERS WHERE AMT IS NULL OR ID = 1 => 0 3 ; -
SELECT * FROM ORDERS WHERE AMT < 100 LIMIT 2 => 0 1 2 ; 2
SELECT * FROM ORDERS WHERE AMT < 100 ORDER BY AMT LIMIT 2 => 0 1 2 ; -
SELECT * FROM ORDERS LIMIT 0 => 0 1 2 3 ; 0";

/// An index of the table, of a number.
fn index(
    rt: &impl Abort,
    alloc: Global,
    number: u32,
    state: IndexState,
    birth: u64,
    text: &str,
    found: &Found,
) -> Index
    ensures { result.id.0 ≡ number }
{
    index_of(alloc, number, state, birth, text, found).expect(rt, "an index")
}

/// The three indexes, in order of number.
fn three_indexes(rt: &impl Abort, alloc: Global, found: &Found) -> Result<Items<Index>, AllocError>
    ensures { IfOk result AreRising }
{
    let mut indexes = Vec::new(alloc);
    indexes.push(index(rt, alloc, 7, IndexState::Active, 1, BY_CUST, found))?;
    indexes.push(index(rt, alloc, 8, IndexState::Active, 5, BY_CA, found))?;
    indexes.push(index(rt, alloc, 9, IndexState::Building, 1, BY_AMT, found))?;
    Ok(Items::of(indexes))
}

/// The table with its indexes.
fn whole_table(rt: &impl Abort, alloc: Global) -> Result<Found, AllocError>
    ensures { IfOk result (λ f. AreRising f.indexes) }
{
    let bare = table_of(alloc, 3, TABLE).expect(rt, "a table");
    let indexes = three_indexes(rt, alloc, &bare);
    let Found {
        table,
        indexes: none,
        at,
    } = bare;
    drop(none);
    match indexes {
        Ok(indexes) => Ok(Found { table, indexes, at }),
        Err(fault) => {
            drop(table);
            Err(fault)
        }
    }
}

fn query(rt: &impl Abort, alloc: Global, text: &str, found: &Found) -> Query {
    match bound(alloc, text, found) {
        Some(Ok(Request::Select(query))) => query,
        _ => panic!(rt; "not bound: {text}"),
    }
}

/// A query on the table.
fn planned(rt: &impl Abort, alloc: Global, text: &str, found: &Found) -> Result<Planned, AllocError>
    ensures { IfOk result (λ p. p.table ≡ found.now.table) }
{
    let query = query(rt, alloc, text, found);
    match found.table.copied(alloc) {
        Ok(table) => Planned::new(alloc, table, query),
        Err(fault) => {
            drop(query);
            Err(fault)
        }
    }
}

/// The index that a path reads by, 0 for the table, and whether its keys have ends.
fn shape(path: Result<Path, PathFault>) -> (u32, bool, bool) {
    match path {
        Ok(path) => {
            let number = match path.by {
                By::Table => 0,
                By::Index(index) => index.0,
            };
            let low = !path.low.as_slice().is_empty();
            let high = path.high.is_some();
            (number, low, high)
        }
        Err(PathFault::IndexJoin) => (100, false, false),
        Err(PathFault::Memory) => (101, false, false),
    }
}

/// The path of a query at a point of the table.
fn path_at(alloc: Global, planned: &Planned, stamp: u64, found: Found) -> (u32, bool, bool)
    requires bound { found.table ≡ planned.now.table }
    requires rising { AreRising found.indexes }
{
    let point = Point {
        table: planned.table.id,
        stamp,
        scn: true,
        found,
    };
    let answer = shape(planned.path(alloc, &point));
    let Point {
        table: _table,
        stamp: _stamp,
        scn: _scn,
        found,
    } = point;
    drop(found);
    answer
}

/// The shape that a line expects.
fn expected(rt: &impl Abort, text: &str) -> (u32, bool, bool) {
    if text == "join" {
        return (100, false, false);
    }
    let (number, ends) = text.split_once(" ").expect(rt, "a number");
    let number = number.parse::<u32>().expect(rt, "a number");
    (number, ends.starts_with("low"), ends.ends_with("high"))
}

fn try_path(rt: &impl Abort, alloc: Global, line: &str, found: &Found) -> Result<(), AllocError>
    requires rising { AreRising found.now.indexes }
{
    let (left, right) = line.split_once(" => ").expect(rt, "a line with an arrow");
    let (stamp, text) = left.split_once(" ").expect(rt, "a stamp");
    let stamp = stamp.parse::<u64>().expect(rt, "a stamp");
    let planned = planned(rt, alloc, text, found)?;
    match found.copied(alloc) {
        Ok(copy) => {
            let answer = path_at(alloc, &planned, stamp, copy);
            drop(planned);
            assert!(rt; answer == expected(rt, right), "{text}");
            Ok(())
        }
        Err(fault) => {
            drop(planned);
            Err(fault)
        }
    }
}

fn try_paths(rt: &impl Abort, alloc: Global, found: &Found) -> Result<u32, AllocError>
    requires rising { AreRising found.now.indexes }
{
    let mut count = 0u32;
    for line in PATHS.lines() {
        try_path(rt, alloc, line, found)?;
        count = count.saturating_add(1);
    }
    Ok(count)
}

#[test]
fn paths_are_chosen(rt: HostRuntime) -> Result<(), Fail> {
    let alloc = rt.alloc();
    let found = whole_table(&rt, alloc)?;
    let count = try_paths(&rt, alloc, &found);
    drop(found);
    assert_eq!(rt; count?, 20);
    Ok(())
}

/// Whether the row of a line meets the condition.
fn meets(alloc: Global, planned: &Planned, line: &str) -> Result<bool, AllocError> {
    let row = row(alloc, line)?;
    let met = planned.meets(&row);
    drop(row);
    Ok(met)
}

/// Whether the line names the number.
fn is_named(numbers: &str, number: u32) -> bool {
    let mut named = false;
    for word in numbers.split_whitespace() {
        if word.parse::<u32>().unwrap_or(9) == number {
            named = true;
        }
    }
    named
}

/// Whether just the rows that are named meet the condition.
fn are_met(alloc: Global, planned: &Planned, numbers: &str) -> Result<bool, AllocError> {
    let mut number = 0u32;
    let mut same = true;
    for line in GIVEN.lines() {
        if meets(alloc, planned, line)? != is_named(numbers, number) {
            same = false;
        }
        number = number.saturating_add(1);
    }
    Ok(same)
}

fn try_rows(rt: &impl Abort, alloc: Global, line: &str, found: &Found) -> Result<bool, AllocError> {
    let (text, right) = line.split_once(" => ").expect(rt, "a line with an arrow");
    let (numbers, limit) = right.split_once(" ; ").expect(rt, "a limit");
    let planned = planned(rt, alloc, text, found)?;
    let same = planned.limit() == limit.parse::<u64>().ok();
    let met = are_met(alloc, &planned, numbers);
    drop(planned);
    Ok(met? && same)
}

fn try_conditions(rt: &impl Abort, alloc: Global, found: &Found) -> Result<(), AllocError> {
    for line in ROWS.lines() {
        assert!(rt; try_rows(rt, alloc, line, found)?, "{line}");
    }
    Ok(())
}

#[test]
fn rows_meet_conditions(rt: HostRuntime) -> Result<(), Fail> {
    let alloc = rt.alloc();
    let found = whole_table(&rt, alloc)?;
    let tried = try_conditions(&rt, alloc, &found);
    drop(found);
    tried?;
    Ok(())
}
