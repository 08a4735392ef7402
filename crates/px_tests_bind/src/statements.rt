// Statements over one table, and what binding answers to each, worked out by hand.
use crate::printed::answer;
use px_tables::{Found, IndexState};
use px_tests_bound::{bound, table_of, with_index};
use px_values::Line;
use std::alloc::{AllocError, Global};
use std::process::Abort;
use std::test::Fail;

/// The table of the statements, and its index.
const TABLE: &str =
    "CREATE TABLE T (A INTEGER NOT NULL, B VARCHAR, C TINYINT, D BOOLEAN, E VARCHAR CONSTRAINT PK PRIMARY KEY (A, B DESC))";

const INDEX: &str = "CREATE INDEX T_C ON T (C) INCLUDE (E)";

/// A statement, and what it asks for or its refusal, with the place in bytes or the name. A key part is a column's place
/// with its direction.
const STATEMENTS: &str = "CREATE TABLE X (A INTEGER PRIMARY KEY) => table X key 0+ regions 1
CREATE TABLE X (A INTEGER, B VARCHAR CONSTRAINT C PRIMARY KEY (B, A DESC)) => table X key 1+ 0- regions 1
CREATE TABLE IF NOT EXISTS X (A VARCHAR, \"a\" VARCHAR PRIMARY KEY DESC) => table X key 1- regions 1
CREATE TABLE X (A INTEGER PRIMARY KEY, A VARCHAR) => E10 A
CREATE TABLE X (B INTEGER, A INTEGER PRIMARY KEY, B VARCHAR) => E10 B
CREATE TABLE X (A INTEGER PRIMARY KEY, B VARCHAR PRIMARY KEY) => E10 B
CREATE TABLE X (A INTEGER PRIMARY KEY, B VARCHAR CONSTRAINT C PRIMARY KEY (B)) => E10 B
CREATE TABLE X (A INTEGER PRIMARY KEY, B VARCHAR CONSTRAINT C PRIMARY KEY (Z)) => E04 Z
CREATE TABLE X (A INTEGER CONSTRAINT C PRIMARY KEY (A, A)) => E10 A
CREATE TABLE X (A INTEGER CONSTRAINT C PRIMARY KEY (A, Z, A)) => E04 Z
CREATE TABLE X (A INTEGER CONSTRAINT C PRIMARY KEY (A, A, Z)) => E10 A
CREATE TABLE X (A INTEGER, A INTEGER CONSTRAINT C PRIMARY KEY (Z)) => E10 A
CREATE TABLE X (A INTEGER, B VARCHAR) => E08 A
CREATE TABLE X (A INTEGER) SPLIT ON (1) => E08 A
CREATE TABLE X (A INTEGER CONSTRAINT C PRIMARY KEY (Z)) SPLIT ON ('x') => E04 Z
CREATE TABLE P (K INTEGER NOT NULL PRIMARY KEY, V VARCHAR) SPLIT ON (20, 10) => E07 73
CREATE TABLE P (K INTEGER NOT NULL PRIMARY KEY, V VARCHAR) SPLIT ON (20, 20) => E07 73
CREATE TABLE P (K INTEGER NOT NULL PRIMARY KEY, V VARCHAR) SPLIT ON (10, 20) => table P key 0+ regions 3
CREATE TABLE P (K INTEGER PRIMARY KEY DESC, V VARCHAR) SPLIT ON (20, 10) => table P key 0- regions 3
CREATE TABLE P (K INTEGER PRIMARY KEY DESC, V VARCHAR) SPLIT ON (10, 20) => E07 69
CREATE TABLE P (K INTEGER PRIMARY KEY) SPLIT ON ('a') => E06 49
CREATE TABLE P (K INTEGER PRIMARY KEY) SPLIT ON (2147483648) => E07 49
CREATE TABLE P (K INTEGER PRIMARY KEY) SPLIT ON (1, TRUE, 'a') => E06 52
CREATE TABLE P (K INTEGER PRIMARY KEY) SPLIT ON (NULL) => E08 K
CREATE TABLE P (K INTEGER PRIMARY KEY) SPLIT ON (1, NULL) => E07 52
CREATE TABLE P (K VARCHAR PRIMARY KEY) SPLIT ON (NULL, 'a', 'ab', 'b') => table P key 0+ regions 5
CREATE TABLE P (K VARCHAR PRIMARY KEY) SPLIT ON ('a', '') => E07 54
CREATE TABLE P (K VARCHAR NOT NULL PRIMARY KEY) SPLIT ON ('', 'a') => E08 K
CREATE TABLE P (K TINYINT PRIMARY KEY) SPLIT ON (1,2,3,4,5,6,7,8,9,10,11,12,13,14,15) => table P key 0+ regions 16
CREATE TABLE P (K TINYINT PRIMARY KEY) SPLIT ON (1,2,3,4,5,6,7,8,9,10,11,12,13,14,15,16) => E11 REGIONS
CREATE TABLE P (K TINYINT PRIMARY KEY) SPLIT ON (1,2,3,4,5,6,7,8,9,10,11,12,13,14,15,15) => E07 85
CREATE INDEX I ON T (C) => index I on 2 parts 2+ included
CREATE INDEX IF NOT EXISTS I ON T (C, D DESC) INCLUDE (E) => index I on 2 parts 2+ 3- included 4
CREATE INDEX I ON T (B, C) => index I on 2 parts 1+ 2+ included
CREATE INDEX I ON T (Z) => E04 Z
CREATE INDEX I ON T (C, C) => E10 C
CREATE INDEX I ON T (C, Z, C) INCLUDE (Y) => E04 Z
CREATE INDEX I ON T (C) INCLUDE (Z) => E04 Z
CREATE INDEX I ON T (C) INCLUDE (C) => E10 C
CREATE INDEX I ON T (C) INCLUDE (D, A) => E10 A
CREATE INDEX I ON T (C) INCLUDE (B) => E10 B
CREATE INDEX I ON T (C) INCLUDE (E, D, E) => E10 E
CREATE INDEX I ON T (\"c\") => E04 c
DROP INDEX T_C ON T => drop index 2 7
DROP INDEX Z ON T => E09 Z
DROP INDEX \"t_c\" ON T => E09 t_c
DROP INDEX IF EXISTS Z ON T => absent
DROP INDEX IF EXISTS T_C ON T => drop index 2 7
ALTER INDEX T_C ON T DISABLE => disable 2 7
ALTER INDEX T_C ON T REBUILD => rebuild 2 7
ALTER INDEX Z ON T REBUILD => E09 Z
DROP TABLE T => drop table 2
UPSERT INTO T VALUES (1, 'x', 2, TRUE, 'y') => upsert 1 'x' set 2=2 3=true 4='y'
UPSERT INTO T (E, C, A) VALUES ('e', 3, 9) => upsert 9 null set 4='e' 2=3
UPSERT INTO T (A) VALUES (1) => upsert 1 null set
UPSERT INTO T (A, B, E) VALUES (1, NULL, '') => upsert 1 null set 4=null
UPSERT INTO T (B, A) VALUES ('it''s', -1) => upsert -1 'it''s' set
UPSERT INTO T (A, C) VALUES (2147483647, -128) => upsert 2147483647 null set 2=-128
UPSERT INTO T (A) VALUES (-2147483648) => upsert -2147483648 null set
UPSERT INTO T (A) VALUES (+007) => upsert 7 null set
UPSERT INTO T VALUES (1, 'x', 2, TRUE) => E06 14
UPSERT INTO T (A, B) VALUES (1) => E06 21
UPSERT INTO T (A) VALUES (1, 'x', 2147483648) => E06 18
UPSERT INTO T (A, Z) VALUES (1, 2) => E04 Z
UPSERT INTO T (A, A) VALUES (1, 2) => E10 A
UPSERT INTO T (A, A, Z) VALUES (1) => E10 A
UPSERT INTO T (A, Z, A) VALUES (1) => E04 Z
UPSERT INTO T (\"a\") VALUES (1) => E04 a
UPSERT INTO T (A) VALUES ('x') => E06 26
UPSERT INTO T (A, B) VALUES (1, 5) => E06 32
UPSERT INTO T (A, D) VALUES (1, 0) => E06 32
UPSERT INTO T (A, C) VALUES (1, TRUE) => E06 32
UPSERT INTO T (A) VALUES (2147483648) => E07 26
UPSERT INTO T (A) VALUES (-2147483649) => E07 26
UPSERT INTO T (A) VALUES (99999999999999999999999999999999999999) => E07 26
UPSERT INTO T (A, C) VALUES (1, 128) => E07 32
UPSERT INTO T (A, C, B) VALUES (1, 128, 5) => E07 35
UPSERT INTO T (A, B, C) VALUES (1, 5, 128) => E06 35
UPSERT INTO T (B, C) VALUES ('x', 128) => E07 34
UPSERT INTO T (B) VALUES ('x') => E08 A
UPSERT INTO T (A) VALUES (NULL) => E08 A
UPSERT INTO T (A) VALUES ('') => E08 A
DELETE FROM T => delete
DELETE FROM T WHERE C > 300 => delete (c2 > 300)
DELETE FROM T WHERE A = 1 OR Z = 'x' => E04 Z
DELETE FROM T WHERE A = 'x' OR B = 2 => E06 24
SELECT * FROM T => select 0 1 2 3 4
SELECT E, A, E FROM T => select 4 0 4
SELECT B FROM T WHERE A = 1 AND NOT (C = 2 OR D IS NULL) ORDER BY E, A DESC LIMIT 10 => select 1 where (and (c0 = 1) (not (or (c2 = 2) (null c3)))) order 4+ 0- limit 10
SELECT A FROM T WHERE A IN (1, NULL, -2) => select 0 where (c0 in 1 null -2)
SELECT A FROM T WHERE B NOT IN ('a', '') => select 0 where (c1 not in 'a' null)
SELECT A FROM T WHERE C BETWEEN 1 AND A => select 0 where (c2 between 1 c0)
SELECT A FROM T WHERE 5 NOT BETWEEN C AND NULL => select 0 where (5 not between c2 null)
SELECT A FROM T WHERE E IS NOT NULL => select 0 where (not null c4)
SELECT A FROM T WHERE A = NULL AND '' <> A => select 0 where (and (c0 = null) (null <> c0))
SELECT A FROM T WHERE A < C => select 0 where (c0 < c2)
SELECT A FROM T WHERE NULL IN (1, 'x', TRUE) => select 0 where (null in 1 'x' true)
SELECT A FROM T LIMIT 9223372036854775807 => select 0 limit 9223372036854775807
SELECT Z FROM T WHERE Y = 1 ORDER BY X => E04 Z
SELECT A FROM T WHERE Y = 1 ORDER BY X => E04 Y
SELECT A FROM T WHERE A = 'x' ORDER BY X => E04 X
SELECT A FROM T WHERE A BETWEEN 1 AND Y => E04 Y
SELECT A FROM T WHERE Y IN (1) => E04 Y
SELECT A FROM T WHERE A = 'x' => E06 26
SELECT A FROM T WHERE 'x' = A => E06 28
SELECT A FROM T WHERE 5 > B => E06 26
SELECT A FROM T WHERE D = A => E06 26
SELECT A FROM T WHERE A = 1 AND B = TRUE AND C = 'x' => E06 36
SELECT A FROM T WHERE A IN (1, 'x', TRUE) => E06 31
SELECT A FROM T WHERE A BETWEEN 'y' AND 'x' => E06 32
SELECT A FROM T WHERE A BETWEEN 1 AND 'x' => E06 38
SELECT A FROM T WHERE 1 BETWEEN A AND B => E06 38
SELECT A FROM T WHERE NOT (A = 1 OR NOT B >= 1) => E06 45
SELECT A FROM T WHERE A = 'x' LIMIT 9223372036854775808 => E06 26
SELECT A FROM T LIMIT 9223372036854775808 => E07 22
SELECT /*+ INDEX(T T_C) */ A FROM T => select hints T_C; 0
SELECT /*+ index(t \"t_c\") NO_INDEX */ A FROM T => select hints t_c; none; 0
SELECT /*+ INDEX(X T_C) INDEX(T) NO_INDEX */ A FROM T => select hints none; 0
SELECT /*+ INDEX(T NO_INDEX) */ A FROM T => select hints NO_INDEX; 0
SELECT /*+ \"NO_INDEX\" FAST ! NO_INDEX */ A FROM T => select 0
EXPLAIN SELECT A FROM T WHERE C = 1 => explain 0 where (c2 = 1)
EXPLAIN SELECT Z FROM T => E04 Z";

fn printed(rt: &impl Abort, alloc: Global, text: &str, found: &Found) -> Result<Line, AllocError> {
    let bound = bound(alloc, text, found).expect(rt, text);
    let mut line = Line::new(alloc);
    let done = answer(&bound, &mut line);
    drop(bound);
    match done {
        Ok(()) => Ok(line),
        Err(fault) => {
            drop(line);
            Err(fault)
        }
    }
}

/// The table with its index.
fn found(rt: &impl Abort, alloc: Global) -> Found {
    let bare = table_of(alloc, 2, TABLE).expect(rt, "a table");
    with_index(alloc, bare, 7, IndexState::Active, 1, INDEX).expect(rt, "an index")
}

/// Tests each line, and gives how many there are.
fn are_bound(rt: &impl Abort, alloc: Global, found: &Found) -> Result<u32, AllocError> {
    let mut lines = 0u32;
    for line in STATEMENTS.lines() {
        let (text, expected) = line.split_once(" => ").unwrap_or((line, ""));
        let answer = printed(rt, alloc, text, found)?;
        assert_eq!(rt; answer.as_slice(), expected.as_bytes(), "{text}");
        drop(answer);
        lines = lines.saturating_add(1);
    }
    Ok(lines)
}

#[test]
fn statements_are_bound_or_refused(rt: HostRuntime) -> Result<(), Fail> {
    let found = found(&rt, rt.alloc());
    let lines = are_bound(&rt, rt.alloc(), &found);
    drop(found);
    assert_eq!(rt; lines?, 122);
    Ok(())
}
