// Conditions of three values, by the truth tables of the SQL standard.
use crate::runs::ends;
use px_program::Status;
use std::alloc::{AllocError, Global};
use std::sync::Wait;
use std::thread::Threads;

/// Every pair of truth values.
const PAIRS: &str = "CREATE TABLE B (K BIGINT PRIMARY KEY, P BOOLEAN, Q BOOLEAN);
UPSERT INTO B VALUES (1,TRUE,TRUE); UPSERT INTO B VALUES (2,TRUE,FALSE); UPSERT INTO B VALUES (3,TRUE,NULL);
UPSERT INTO B VALUES (4,FALSE,TRUE); UPSERT INTO B VALUES (5,FALSE,FALSE); UPSERT INTO B VALUES (6,FALSE,NULL);
UPSERT INTO B VALUES (7,NULL,TRUE); UPSERT INTO B VALUES (8,NULL,FALSE); UPSERT INTO B VALUES (9,NULL,NULL);
";

const ADDED: &str = "table created
1 row affected
1 row affected
1 row affected
1 row affected
1 row affected
1 row affected
1 row affected
1 row affected
1 row affected
";

/// The pairs, and a query of their keys.
fn asked(alloc: Global, query: &str) -> Result<String, AllocError> {
    let mut script = String::from_str(alloc, PAIRS)?;
    script.push_str("SELECT K FROM B ")?;
    script.push_str(query)?;
    Ok(script)
}

/// What is printed where the query gives the keys that these digits are.
fn told(alloc: Global, keys: &str) -> Result<String, AllocError> {
    let mut printed = String::from_str(alloc, ADDED)?;
    for key in keys.chars() {
        printed.push(key)?;
        printed.push('\n')?;
    }
    let count = match keys.len() {
        0 => "0 rows selected\n",
        1 => "1 row selected\n",
        2 => "2 rows selected\n",
        3 => "3 rows selected\n",
        4 => "4 rows selected\n",
        5 => "5 rows selected\n",
        6 => "6 rows selected\n",
        7 => "7 rows selected\n",
        _ => "9 rows selected\n",
    };
    printed.push_str(count)?;
    Ok(printed)
}

/// Whether the query gives the keys that these digits are, in their order.
fn gives<R: Threads + Wait + Sync>(
    rt: &R,
    alloc: Global,
    query: &str,
    keys: &str,
) -> Result<bool, AllocError> {
    let script = asked(alloc, query)?;
    let printed = told(alloc, keys)?;
    ends(rt, alloc, &script, Status::Done, &printed)
}

#[test]
fn conditions_have_three_values(rt: HostRuntime) {
    for (query, keys) in [
        ("WHERE P = TRUE AND Q = TRUE", "1"),
        ("WHERE P = TRUE OR Q = TRUE", "12347"),
        ("WHERE NOT (P = TRUE AND Q = TRUE)", "24568"),
        ("WHERE NOT (P = TRUE OR Q = TRUE)", "5"),
        ("WHERE NOT P = TRUE", "456"),
        ("WHERE NOT NOT P = TRUE", "123"),
        ("WHERE P = Q", "15"),
        ("WHERE P <> Q", "24"),
        ("WHERE P < Q", "4"),
        ("WHERE P <> NULL", ""),
        ("WHERE P = NULL OR Q = TRUE", "147"),
        ("WHERE P IS NULL", "789"),
        ("WHERE NOT P IS NULL AND Q IS NOT NULL", "1245"),
    ] {
        assert!(rt; gives(&rt, rt.alloc(), query, keys) == Ok(true));
    }
}

#[test]
fn lists_and_ranges_have_nulls(rt: HostRuntime) {
    for (query, keys) in [
        ("WHERE P IN (TRUE, NULL)", "123"),
        ("WHERE P NOT IN (TRUE, NULL)", ""),
        ("WHERE NOT P IN (TRUE)", "456"),
        ("WHERE NULL IN (TRUE)", ""),
        ("WHERE K IN (9, 1, 5, 1)", "159"),
        ("WHERE K BETWEEN 3 AND 5", "345"),
        ("WHERE K NOT BETWEEN 3 AND 7", "1289"),
        ("WHERE K BETWEEN 7 AND 3", ""),
        ("WHERE K BETWEEN NULL AND 3", ""),
        ("WHERE K NOT BETWEEN NULL AND 7", "89"),
        ("WHERE K NOT BETWEEN 8 AND NULL", "1234567"),
    ] {
        assert!(rt; gives(&rt, rt.alloc(), query, keys) == Ok(true));
    }
}

#[test]
fn null_is_least_in_each_order(rt: HostRuntime) {
    for (query, keys) in [
        ("ORDER BY P DESC, Q, K DESC", "321654987"),
        ("ORDER BY P, Q DESC LIMIT 4", "7894"),
        ("ORDER BY Q", "369258147"),
        ("ORDER BY Q DESC", "147258369"),
        ("WHERE K > 3 ORDER BY Q DESC LIMIT 2", "47"),
    ] {
        assert!(rt; gives(&rt, rt.alloc(), query, keys) == Ok(true));
    }
}
