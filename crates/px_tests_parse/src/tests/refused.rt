// Texts that are no statements, with the place where none continues or with what is left out there.
use crate::tests::check_fault;
use px_parse::SyntaxFault;

/// The lexer's faults, and texts that no statement begins with.
const TEXTS: &[(&str, usize)] = &[
    ("", 0),
    (" ", 1),
    ("SELEC", 0),
    ("SELECT", 6),
    ("SELECT;", 6),
    ("SELECT A FROM T #", 16),
    ("SELECT # FROM", 7),
    ("SELECT FROM #", 7),
    ("SELECT * FROM KV WHERE K = 'a", 27),
    (
        "SELECT A FROM T WHERE A = 123456789012345678901234567890123456789",
        26,
    ),
];

const QUERIES: &[(&str, usize)] = &[
    ("SELECT A", 8),
    ("SELECT A B FROM T", 9),
    ("SELECT A, FROM T", 10),
    ("SELECT *, A FROM T", 8),
    ("SELECT A FROM", 13),
    ("SELECT A FROM T;", 15),
    ("SELECT A FROM T T", 16),
    ("SELECT A FROM T ORDER A", 22),
    ("SELECT A FROM T ORDER BY", 24),
    ("SELECT A FROM T ORDER BY A,", 27),
    ("SELECT A FROM T LIMIT", 21),
    ("SELECT A FROM T LIMIT 'a'", 22),
    ("SELECT A FROM T LIMIT 1 ORDER BY A", 24),
    ("SELECT A FROM T ORDER BY A WHERE A = 1", 27),
    ("SELECT A /*+ NO_INDEX */ FROM T", 9),
    ("SELECT /*+ A */ /*+ B */ * FROM T", 16),
    ("SELECT F(A) FROM T", 8),
    ("SELECT A FROM F(A)", 15),
    ("SELECT A FROM T ORDER BY F(A)", 26),
    ("SELECT A FROM T ON DUPLICATE", 16),
    ("EXPLAIN", 7),
    ("EXPLAIN DELETE FROM T", 8),
    ("EXPLAIN EXPLAIN SELECT A FROM T", 8),
];

const CONDITIONS: &[(&str, usize)] = &[
    // At the end, and behind an operator.
    ("SELECT A FROM T WHERE", 21),
    ("SELECT A FROM T WHERE A", 23),
    ("SELECT A FROM T WHERE A = ", 26),
    ("SELECT A FROM T WHERE A <>", 26),
    ("SELECT A FROM T WHERE A = = 1", 26),
    ("SELECT A FROM T WHERE A = B = C", 28),
    ("SELECT A FROM T WHERE A = -", 27),
    ("SELECT A FROM T WHERE A = - 'x'", 28),
    ("SELECT A FROM T WHERE A = 1 AND", 31),
    ("SELECT A FROM T WHERE A = 1 OR", 30),
    ("SELECT A FROM T WHERE A = TRUE AND AND", 35),
    ("SELECT A FROM T WHERE NOT", 25),
    ("SELECT A FROM T WHERE A NOT NULL", 28),
    ("SELECT A FROM T WHERE A IS", 26),
    ("SELECT A FROM T WHERE A IS NOT", 30),
    ("SELECT A FROM T WHERE A IS 1", 27),
    ("SELECT A FROM T WHERE A = 'x", 26),
    // Parentheses.
    ("SELECT A FROM T WHERE A = (SELECT", 26),
    ("SELECT A FROM T WHERE (A = 1", 28),
    ("SELECT A FROM T WHERE A = 1)", 27),
    ("SELECT A FROM T WHERE ()", 23),
    ("SELECT A FROM T WHERE (A) = 1", 24),
    // Inside IN.
    ("SELECT A FROM T WHERE A IN", 26),
    ("SELECT A FROM T WHERE A NOT IN", 30),
    ("SELECT A FROM T WHERE A IN (", 28),
    ("SELECT A FROM T WHERE A IN ()", 28),
    ("SELECT A FROM T WHERE A IN (B)", 28),
    ("SELECT A FROM T WHERE A IN (1", 29),
    ("SELECT A FROM T WHERE A IN (1,", 30),
    ("SELECT A FROM T WHERE A IN (1,)", 30),
    ("SELECT A FROM T WHERE A IN (1, 2 3)", 33),
    // Inside BETWEEN.
    ("SELECT A FROM T WHERE A BETWEEN", 31),
    ("SELECT A FROM T WHERE A NOT BETWEEN", 35),
    ("SELECT A FROM T WHERE A BETWEEN AND 2", 32),
    ("SELECT A FROM T WHERE A BETWEEN 1", 33),
    ("SELECT A FROM T WHERE A BETWEEN 1, 2", 33),
    ("SELECT A FROM T WHERE A BETWEEN 1 OR 2", 34),
    ("SELECT A FROM T WHERE A BETWEEN 1 AND", 37),
    ("SELECT A FROM T WHERE A BETWEEN 1 AND (1)", 38),
];

const ROWS: &[(&str, usize)] = &[
    ("UPSERT T", 7),
    ("UPSERT INTO T", 13),
    ("UPSERT INTO T () VALUES (1)", 15),
    ("UPSERT INTO T VALUES", 20),
    ("UPSERT INTO T VALUES (A)", 22),
    ("UPSERT INTO T VALUES (F(1))", 22),
    ("UPSERT INTO T VALUES (1) X", 25),
    ("UPSERT INTO T VALUES (1), (2)", 24),
    ("UPSERT INTO T VALUES (1) ON", 27),
    ("UPSERT INTO T VALUES (1) ON X", 28),
    ("UPSERT INTO T VALUES (1) ON #", 28),
    ("UPSERT INTO T ON DUPLICATE", 14),
    ("DELETE T", 7),
    ("DELETE FROM T WHERE", 19),
    ("DELETE FROM T LIMIT 1", 14),
];

const DEFINITIONS: &[(&str, usize)] = &[
    ("CREATE", 6),
    ("CREATE T", 7),
    ("CREATE TABLE T", 14),
    ("CREATE TABLE T ()", 16),
    ("CREATE TABLE T (A)", 17),
    ("CREATE TABLE T (A INT)", 18),
    ("CREATE TABLE T (A INTEGER,)", 26),
    ("CREATE TABLE T (CONSTRAINT P PRIMARY KEY (A))", 16),
    (
        "CREATE TABLE T (A INTEGER, CONSTRAINT P PRIMARY KEY (A), B INTEGER)",
        55,
    ),
    ("CREATE TABLE T (A INTEGER NOT)", 29),
    ("CREATE TABLE T (A INTEGER PRIMARY)", 33),
    ("CREATE TABLE T (A INTEGER PRIMARY KEY NOT NULL)", 38),
    ("CREATE TABLE T (A INTEGER) SPLIT ON ()", 37),
    ("CREATE TABLE IF EXISTS T (A INTEGER)", 16),
    ("CREATE INDEX I ON T", 19),
    ("CREATE INDEX I (A)", 15),
    ("CREATE INDEX I ON T (F(A))", 22),
    ("CREATE INDEX I ON T (A) INCLUDE", 31),
    ("DROP T", 5),
    ("DROP TABLE IF T", 14),
    ("DROP INDEX I", 12),
    ("ALTER TABLE T", 6),
    ("ALTER INDEX I ON T", 18),
    ("ALTER INDEX I ON T DROP", 19),
];

/// Each word and mark that is left out, where no statement continues.
const LEFT_OUT: &[(&str, &str)] = &[
    ("CREATE TABLE T (A ARRAY)", "ARRAY"),
    ("select a as b from t", "AS"),
    ("SELECT AVG(A) FROM T", "AVG"),
    ("CREATE TABLE T (A BINARY(4) PRIMARY KEY)", "BINARY"),
    ("DROP TABLE T CASCADE", "CASCADE"),
    ("SELECT CASE WHEN A = 1", "CASE"),
    ("SELECT A FROM T WHERE A = CAST", "CAST"),
    ("CREATE TABLE T (A CHAR(4))", "CHAR"),
    ("SELECT COUNT(*) FROM T", "COUNT"),
    ("CREATE TABLE T (A DATE)", "DATE"),
    ("CREATE TABLE T (A DECIMAL)", "DECIMAL"),
    ("CREATE TABLE T (A INTEGER DEFAULT 1)", "DEFAULT"),
    ("SELECT DISTINCT A FROM T", "DISTINCT"),
    ("CREATE TABLE T (A DOUBLE)", "DOUBLE"),
    ("SELECT A FROM T FETCH FIRST 1", "FETCH"),
    ("CREATE TABLE T (A FLOAT)", "FLOAT"),
    ("CREATE FUNCTION F()", "FUNCTION"),
    ("SELECT A FROM T GROUP BY A", "GROUP"),
    ("SELECT A FROM T HAVING A = 1", "HAVING"),
    ("SELECT A FROM T INNER JOIN S", "INNER"),
    ("SELECT ID FROM ORDERS JOIN KV", "JOIN"),
    ("SELECT A FROM T LEFT JOIN S", "LEFT"),
    ("SELECT A FROM T WHERE A LIKE 'x", "LIKE"),
    ("CREATE LOCAL INDEX I", "LOCAL"),
    ("SELECT MAX(A) FROM T", "MAX"),
    ("SELECT MIN(A) FROM T", "MIN"),
    ("SELECT A FROM T LIMIT 1 OFFSET 2", "OFFSET"),
    ("SELECT A FROM T OUTER JOIN S", "OUTER"),
    ("SELECT A FROM T RIGHT JOIN S", "RIGHT"),
    (
        "CREATE TABLE T (A INTEGER PRIMARY KEY) SALT_BUCKETS = 4",
        "SALT_BUCKETS",
    ),
    ("CREATE SCHEMA S", "SCHEMA"),
    ("UPSERT INTO T SELECT", "SELECT"),
    ("SELECT A FROM T WHERE A IN (SELECT", "SELECT"),
    ("DROP SEQUENCE S", "SEQUENCE"),
    ("DROP STATISTICS T", "STATISTICS"),
    ("SELECT SUM(A) FROM T", "SUM"),
    ("CREATE TABLE T (A TIME)", "TIME"),
    ("CREATE TABLE T (A TIMESTAMP)", "TIMESTAMP"),
    ("CREATE TABLE T (A INTEGER) TTL = 5", "TTL"),
    ("CREATE UNCOVERED INDEX I", "UNCOVERED"),
    ("SELECT A FROM T UNION ALL SELECT", "UNION"),
    ("CREATE TABLE T (A VARBINARY)", "VARBINARY"),
    ("CREATE VIEW V", "VIEW"),
    ("SELECT T.A FROM T", "."),
    ("SELECT A FROM T WHERE A = ?", "?"),
    ("SELECT A + 1 FROM T", "+"),
    ("SELECT A FROM T WHERE A + 1 = 2", "+"),
    ("SELECT A FROM T WHERE A IN (1 + 2)", "+"),
    ("SELECT A FROM T WHERE A = - - 1", "-"),
    ("SELECT A FROM T LIMIT -1", "-"),
    ("SELECT A, * FROM T", "*"),
    ("SELECT A / B FROM T", "/"),
    // Behind a whole UPSERT and ON the next token decides.
    (
        "UPSERT INTO T VALUES (1) ON DUPLICATE KEY IGNORE",
        "DUPLICATE",
    ),
    ("UPSERT INTO T VALUES (1) ON GROUP", "GROUP"),
    // A function in a condition.
    ("SELECT A FROM T WHERE F(A) = 1", "FUNCTION"),
    ("SELECT A FROM T WHERE A = \"f\"(1)", "FUNCTION"),
    ("SELECT A FROM T WHERE A = 1 AND F (", "FUNCTION"),
    ("SELECT A FROM T WHERE A BETWEEN F(1)", "FUNCTION"),
    ("SELECT A FROM T WHERE A BETWEEN 1 AND F(", "FUNCTION"),
    ("SELECT A FROM T WHERE NOT F(1)", "FUNCTION"),
    ("DELETE FROM T WHERE (F(1))", "FUNCTION"),
    // NOT NULL at a column outside the key.
    ("CREATE TABLE T (A INTEGER NOT NULL)", "NOT NULL"),
    (
        "CREATE TABLE T (A INTEGER PRIMARY KEY, B INTEGER NOT NULL)",
        "NOT NULL",
    ),
    (
        "CREATE TABLE T (A INTEGER NOT NULL, B INTEGER NOT NULL, CONSTRAINT P PRIMARY KEY (A))",
        "NOT NULL",
    ),
    (
        "CREATE TABLE T (A INTEGER NOT NULL, \"a\" INTEGER NOT NULL, CONSTRAINT P PRIMARY KEY (a))",
        "NOT NULL",
    ),
];

#[test]
fn tells_places(rt: HostRuntime) {
    for table in [TEXTS, QUERIES, CONDITIONS, ROWS, DEFINITIONS] {
        for (text, place) in table.iter() {
            let expected = SyntaxFault::Unexpected { place: *place };
            check_fault(&rt, rt.alloc(), text, Some(expected));
        }
    }
}

#[test]
fn tells_what_is_left_out(rt: HostRuntime) {
    for (text, name) in LEFT_OUT.iter() {
        let expected = SyntaxFault::LeftOut { name: *name };
        check_fault(&rt, rt.alloc(), text, Some(expected));
    }
}
