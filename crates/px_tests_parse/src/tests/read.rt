// Texts that are statements, each with the statement's print: so a text and its neighbours tell which tree was read.
use crate::tests::{check, repeating};
use px_ast::{Constant, Literal, Statement};
use px_parse::parse;
use std::test::Fail;

const QUERIES: &[(&str, &str)] = &[
    ("SELECT * FROM T", "SELECT * FROM T"),
    ("-- all\nSELECT/**/*FROM T", "SELECT * FROM T"),
    ("select a from t", "SELECT A FROM T"),
    (
        "SELECT A, b, \"c\" FROM \"t t\"",
        "SELECT A , B , \"c\" FROM \"t t\"",
    ),
    (
        "SELECT \"SELECT\" FROM \"FROM\"",
        "SELECT \"SELECT\" FROM \"FROM\"",
    ),
    ("SELECT A FROM T WHERE A = 1", "SELECT A FROM T WHERE A = 1"),
    ("SELECT A FROM T ORDER BY A", "SELECT A FROM T ORDER BY A"),
    (
        "SELECT A FROM T ORDER BY A, B DESC, C ASC LIMIT 10",
        "SELECT A FROM T ORDER BY A , B DESC , C LIMIT 10",
    ),
    ("SELECT A FROM T LIMIT 007", "SELECT A FROM T LIMIT 007"),
    (
        "SELECT A FROM T LIMIT 99999999999999999999999999999999999999",
        "SELECT A FROM T LIMIT 99999999999999999999999999999999999999",
    ),
    (
        "SELECT /*+ INDEX(T I) */ A FROM T",
        "SELECT /*+ INDEX(T I) */ A FROM T",
    ),
    (
        "EXPLAIN SELECT * FROM T WHERE A >= 1",
        "EXPLAIN SELECT * FROM T WHERE A >= 1",
    ),
    (
        "explain select /*+ no_index */ \"A\", \"b\" from t where a = 1 order by \"b\" desc limit 1",
        "EXPLAIN SELECT /*+ no_index */ A , \"b\" FROM T WHERE A = 1 ORDER BY \"b\" DESC LIMIT 1",
    ),
];

/// Behind `DELETE FROM T WHERE`.
const CONDITIONS: &[(&str, &str)] = &[
    // Comparisons.
    ("a=1", "A = 1"),
    ("A != B", "A <> B"),
    ("A <> 'it''s'", "A <> 'it''s'"),
    ("'' < \"a\"", "'' < \"a\""),
    ("A<=-1", "A <= - 1"),
    ("A > +5", "A > 5"),
    ("1 >= A", "1 >= A"),
    ("TRUE = FALSE", "TRUE = FALSE"),
    ("A = NULL", "A = NULL"),
    // Other predicates.
    ("A IS NULL", "A IS NULL"),
    ("1 IS NOT NULL", "1 IS NOT NULL"),
    ("A IN (1)", "A IN ( 1 )"),
    (
        "A IN (1, -2, +3, 'x', TRUE, FALSE, NULL)",
        "A IN ( 1 , - 2 , 3 , 'x' , TRUE , FALSE , NULL )",
    ),
    ("A NOT IN (1)", "A NOT IN ( 1 )"),
    ("A BETWEEN 1 AND 2", "A BETWEEN 1 AND 2"),
    ("A NOT BETWEEN B AND 'c'", "A NOT BETWEEN B AND 'c'"),
    // The AND of a BETWEEN.
    (
        "A BETWEEN 1 AND 2 AND B = 3 OR C NOT BETWEEN 4 AND 5",
        "A BETWEEN 1 AND 2 AND B = 3 OR C NOT BETWEEN 4 AND 5",
    ),
    // AND binds tighter than OR, NOT tighter than AND.
    ("A = 1 OR B = 2 AND C = 3", "A = 1 OR B = 2 AND C = 3"),
    ("A = 1 AND B = 2 OR C = 3", "A = 1 AND B = 2 OR C = 3"),
    ("A = 1 OR (B = 2 AND C = 3)", "A = 1 OR B = 2 AND C = 3"),
    ("(A = 1 OR B = 2) AND C = 3", "( A = 1 OR B = 2 ) AND C = 3"),
    ("A = 1 AND (B = 2 OR C = 3)", "A = 1 AND ( B = 2 OR C = 3 )"),
    ("NOT A = 1 AND B = 2", "NOT A = 1 AND B = 2"),
    ("(NOT A = 1) AND B = 2", "NOT A = 1 AND B = 2"),
    ("NOT (A = 1 AND B = 2)", "NOT ( A = 1 AND B = 2 )"),
    ("NOT A IN (1) OR B = 2", "NOT A IN ( 1 ) OR B = 2"),
    ("NOT NOT A != 1", "NOT NOT A <> 1"),
    ("not c is not null", "NOT C IS NOT NULL"),
    // Lists of more than two are one, and those in parentheses are their own.
    ("A = 1 AND B = 2 AND C = 3", "A = 1 AND B = 2 AND C = 3"),
    (
        "A = 1 AND (B = 2 AND C = 3)",
        "A = 1 AND ( B = 2 AND C = 3 )",
    ),
    ("(A = 1 OR B = 2) OR C = 3", "( A = 1 OR B = 2 ) OR C = 3"),
    ("((A = 1))", "A = 1"),
    (
        "(A = 1 OR B = 2) AND NOT (C = 3)",
        "( A = 1 OR B = 2 ) AND NOT C = 3",
    ),
];

const ROWS: &[(&str, &str)] = &[
    ("UPSERT INTO T VALUES (1)", "UPSERT INTO T VALUES ( 1 )"),
    (
        "upsert into kv values ('it''s', 'x')",
        "UPSERT INTO KV VALUES ( 'it''s' , 'x' )",
    ),
    (
        "UPSERT INTO T (A) VALUES (NULL)",
        "UPSERT INTO T ( A ) VALUES ( NULL )",
    ),
    (
        "UPSERT INTO T (A, \"b\") VALUES (-1, +1, '', TRUE, FALSE)",
        "UPSERT INTO T ( A , \"b\" ) VALUES ( - 1 , 1 , '' , TRUE , FALSE )",
    ),
    ("DELETE FROM T", "DELETE FROM T"),
    ("DELETE FROM T WHERE A = 1", "DELETE FROM T WHERE A = 1"),
];

const DEFINITIONS: &[(&str, &str)] = &[
    ("CREATE TABLE T (A INTEGER)", "CREATE TABLE T ( A INTEGER )"),
    (
        "CREATE TABLE IF NOT EXISTS T (A BIGINT)",
        "CREATE TABLE IF NOT EXISTS T ( A BIGINT )",
    ),
    (
        "CREATE TABLE T (A TINYINT, B SMALLINT NULL, C UNSIGNED_INT, D UNSIGNED_LONG, E BOOLEAN, F VARCHAR)",
        "CREATE TABLE T ( A TINYINT , B SMALLINT , C UNSIGNED_INT , D UNSIGNED_LONG , E BOOLEAN , F VARCHAR )",
    ),
    (
        "CREATE TABLE T (A INTEGER NULL PRIMARY KEY ASC)",
        "CREATE TABLE T ( A INTEGER PRIMARY KEY )",
    ),
    (
        "CREATE TABLE T (A INTEGER NOT NULL PRIMARY KEY DESC)",
        "CREATE TABLE T ( A INTEGER NOT NULL PRIMARY KEY DESC )",
    ),
    (
        "CREATE TABLE T (A INTEGER CONSTRAINT P PRIMARY KEY (A))",
        "CREATE TABLE T ( A INTEGER , CONSTRAINT P PRIMARY KEY ( A ) )",
    ),
    (
        "CREATE TABLE T (A INTEGER, B INTEGER, CONSTRAINT P PRIMARY KEY (A DESC, B ASC))",
        "CREATE TABLE T ( A INTEGER , B INTEGER , CONSTRAINT P PRIMARY KEY ( A DESC , B ) )",
    ),
    (
        "CREATE TABLE T (A INTEGER PRIMARY KEY) SPLIT ON (-1, 'a')",
        "CREATE TABLE T ( A INTEGER PRIMARY KEY ) SPLIT ON ( - 1 , 'a' )",
    ),
    // NOT NULL at columns of the key.
    (
        "CREATE TABLE T (A INTEGER NOT NULL, B INTEGER, C INTEGER NOT NULL, CONSTRAINT P PRIMARY KEY (C, D, A))",
        "CREATE TABLE T ( A INTEGER NOT NULL , B INTEGER , C INTEGER NOT NULL , CONSTRAINT P PRIMARY KEY ( C , D , A ) )",
    ),
    (
        "CREATE TABLE T (\"a\" INTEGER NOT NULL, CONSTRAINT P PRIMARY KEY (\"a\", \"a\"))",
        "CREATE TABLE T ( \"a\" INTEGER NOT NULL , CONSTRAINT P PRIMARY KEY ( \"a\" , \"a\" ) )",
    ),
    // Two primary keys.
    (
        "CREATE TABLE T (A INTEGER PRIMARY KEY, B INTEGER PRIMARY KEY)",
        "CREATE TABLE T ( A INTEGER PRIMARY KEY , B INTEGER PRIMARY KEY )",
    ),
    (
        "CREATE TABLE T (A INTEGER NOT NULL PRIMARY KEY, CONSTRAINT P PRIMARY KEY (B))",
        "CREATE TABLE T ( A INTEGER NOT NULL PRIMARY KEY , CONSTRAINT P PRIMARY KEY ( B ) )",
    ),
    ("DROP TABLE T", "DROP TABLE T"),
    ("DROP TABLE IF EXISTS T", "DROP TABLE IF EXISTS T"),
    ("CREATE INDEX I ON T (A)", "CREATE INDEX I ON T ( A )"),
    (
        "CREATE INDEX IF NOT EXISTS I ON T (A, B DESC) INCLUDE (C, D)",
        "CREATE INDEX IF NOT EXISTS I ON T ( A , B DESC ) INCLUDE ( C , D )",
    ),
    (
        "CREATE INDEX I ON T (A ASC) INCLUDE (C)",
        "CREATE INDEX I ON T ( A ) INCLUDE ( C )",
    ),
    ("DROP INDEX I ON T", "DROP INDEX I ON T"),
    ("DROP INDEX IF EXISTS I ON T", "DROP INDEX IF EXISTS I ON T"),
    ("ALTER INDEX I ON T DISABLE", "ALTER INDEX I ON T DISABLE"),
    ("ALTER INDEX I ON T REBUILD", "ALTER INDEX I ON T REBUILD"),
];

#[test]
fn reads_statements(rt: HostRuntime) {
    for table in [QUERIES, ROWS, DEFINITIONS] {
        for (text, expected) in table.iter() {
            check(&rt, rt.alloc(), text, expected);
        }
    }
}

#[test]
fn reads_conditions(rt: HostRuntime) -> Result<(), Fail> {
    const BEFORE: &str = "DELETE FROM T WHERE ";
    for (condition, expected) in CONDITIONS.iter() {
        let text = repeating(rt.alloc(), BEFORE, condition, 1, "")?;
        let expected = repeating(rt.alloc(), BEFORE, expected, 1, "")?;
        check(&rt, rt.alloc(), text.as_str(), expected.as_str());
    }
    Ok(())
}

/// The place of a text, and the text without the quotes that spell it.
fn placed_text(literal: &Literal) -> Option<PlacedText<'_>> {
    match &literal.constant {
        Constant::Text(text) => Some((literal.place, text.as_str())),
        _ => None,
    }
}

type PlacedText<'a> = (usize, &'a str);

/// The places in an UPSERT of two texts.
fn places_of(read: &Statement) -> Option<(usize, PlacedText<'_>, PlacedText<'_>)> {
    let Statement::Upsert(upsert) = read else {
        return None;
    };
    let [first, second] = upsert.values.as_slice() else {
        return None;
    };
    Some((
        upsert.values_place,
        placed_text(first)?,
        placed_text(second)?,
    ))
}

/// A tree has the places that refusals name.
#[test]
fn keeps_places(rt: HostRuntime) {
    let found = parse(rt.alloc(), "upsert into kv values ('it''s', 'x')").ok();
    let places = found.as_ref().and_then(|read| places_of(read));
    assert_eq!(rt; places, Some((15, (23, "it's"), (32, "x"))));
    drop(found);
}
