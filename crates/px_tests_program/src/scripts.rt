// Scripts and what they print.
use crate::runs::{Run, ends, joined, prints, run_between, run_words};
use px_outside::{MemDisk, MemSink, MemSource};
use px_program::Status;
use std::alloc::{AllocError, Global};
use std::process::Abort;
use std::sync::Wait;
use std::thread::Threads;

const FORM: &str = "E02 left out: FORM\n";

const ADDED: &str = "1 row affected\n";

const NO_ROW: &str = "0 rows selected\n";

/// Whether a statement is refused with this text, and the one behind it runs.
fn is_refused<R: Threads + Wait + Sync>(
    rt: &R,
    alloc: Global,
    statement: &str,
    text: &str,
) -> Result<bool, AllocError> {
    let script = joined(alloc, statement, ";\nSELECT * FROM KV;\n")?;
    let printed = joined(alloc, text, NO_ROW)?;
    ends(rt, alloc, &script, Status::Refused, &printed)
}

/// The bytes of a run's script that are no text may be any.
fn run_bytes<R: Threads + Wait + Sync>(
    rt: &R,
    alloc: Global,
    bytes: &[u8],
) -> Result<Run, AllocError> {
    let mut script = Vec::new(alloc);
    script.extend_from_slice(bytes)?;
    let disk = MemDisk::new(alloc);
    run_between(
        rt,
        alloc,
        "run folder",
        disk,
        MemSource::of(script),
        MemSink::new(alloc),
    )
}

/// So many times a text.
fn repeated(alloc: Global, text: &str, times: usize) -> Result<String, AllocError> {
    let mut all = String::new(alloc);
    for _ in 0..times {
        all.push_str(text)?;
    }
    Ok(all)
}

/// An UPSERT of the key 'k' and so many times a text, and a SELECT.
fn with_value(alloc: Global, text: &str, times: usize) -> Result<String, AllocError> {
    let mut script = String::from_str(alloc, "UPSERT INTO KV VALUES ('k', '")?;
    script.push_str(&repeated(alloc, text, times)?)?;
    script.push_str("');")?;
    Ok(script)
}

#[test]
fn the_two_statements_run_however_spelled(rt: HostRuntime) {
    let alloc = rt.alloc();
    let both = "1 row affected\n'a', 'b'\n1 row selected\n";
    for script in [
        "UPSERT INTO KV VALUES('a','b');SELECT*FROM KV",
        "upsert into kv values ( 'a' , 'b' ) ; select * from kv",
        "uPsErT\nInTo\tKv\nVaLuEs('a','b');;; ;\n;SeLeCt/* all */*FROM\"KV\"-- end",
        "-- a comment; with a semicolon\nUPSERT INTO \"KV\" VALUES /* ' */ ('a', 'b')\n;\n/* ; */ SELECT * FROM KV;",
        "--- no line of dashes alone\nUPSERT INTO KV VALUES ('a','b');\n ---\nSELECT * FROM KV\n----\n;",
    ] {
        assert!(rt; ends(&rt, alloc, script, Status::Done, both) == Ok(true));
    }
    let quoted = "upsert into kv values ('it''s', 'x'); -- end\nselect * from kv";
    let text = "1 row affected\n'it''s', 'x'\n1 row selected\n";
    assert!(rt; ends(&rt, alloc, quoted, Status::Done, text) == Ok(true));
    let divided = "UPSERT INTO KV VALUES (';', '--'); SELECT * FROM KV";
    let text = "1 row affected\n';', '--'\n1 row selected\n";
    assert!(rt; ends(&rt, alloc, divided, Status::Done, text) == Ok(true));
    let accented = "UPSERT INTO KV VALUES ('é', '\n'); SELECT * FROM KV";
    let text = "1 row affected\n'é', '\n'\n1 row selected\n";
    assert!(rt; ends(&rt, alloc, accented, Status::Done, text) == Ok(true));
}

#[test]
fn a_text_that_is_no_statement_is_refused_at_its_place(rt: HostRuntime) {
    let alloc = rt.alloc();
    for (statement, text) in [
        ("SELECT", "E01 syntax at byte 6\n"),
        ("  SELECT", "E01 syntax at byte 6\n"),
        ("SELECT * FROM", "E01 syntax at byte 13\n"),
        ("SELECT * FROM KV KV", "E01 syntax at byte 17\n"),
        ("SELECT * FROM KV WHERE K = #", "E01 syntax at byte 27\n"),
        ("/* a */ SELEC * FROM KV", "E01 syntax at byte 0\n"),
        ("UPSERT INTO KV VALUES ('a' 'b')", "E01 syntax at byte 27\n"),
        ("SELECT ID FROM ORDERS JOIN KV", "E02 left out: JOIN\n"),
        ("SELECT COUNT(*) FROM KV", "E02 left out: COUNT\n"),
        (
            "SELECT K FROM KV WHERE F(K) = 1",
            "E02 left out: FUNCTION\n",
        ),
        (
            "CREATE TABLE T (A BIGINT PRIMARY KEY, B BIGINT NOT NULL)",
            "E02 left out: NOT NULL\n",
        ),
    ] {
        assert!(rt; is_refused(&rt, alloc, statement, text) == Ok(true));
    }
    for (script, text) in [
        ("SELECT * FROM KV WHERE K = 'a", "E01 syntax at byte 27\n"),
        (
            "SELECT * FROM KV; /* open",
            "0 rows selected\nE01 syntax at byte 0\n",
        ),
        ("SELECT * FROM \"KV; SELECT", "E01 syntax at byte 14\n"),
    ] {
        assert!(rt; ends(&rt, alloc, script, Status::Refused, text) == Ok(true));
    }
}

#[test]
fn a_last_line_feed_adds_nothing(rt: HostRuntime) {
    let alloc = rt.alloc();
    for (script, text) in [
        ("SELECT", "E01 syntax at byte 6\n"),
        ("SELECT\n", "E01 syntax at byte 6\n"),
        ("SELECT\n\n", "E01 syntax at byte 7\n"),
        ("SELECT;\n", "E01 syntax at byte 6\n"),
        (
            "SELECT * FROM KV;SELECT\n",
            "0 rows selected\nE01 syntax at byte 6\n",
        ),
        ("!\n", "E01 syntax at byte 1\n"),
    ] {
        assert!(rt; ends(&rt, alloc, script, Status::Refused, text) == Ok(true));
    }
    for (script, text) in [("\n", ""), ("SELECT * FROM KV\n", NO_ROW), ("-- end\n", "")] {
        assert!(rt; ends(&rt, alloc, script, Status::Done, text) == Ok(true));
    }
}

#[test]
fn what_is_not_built_is_left_out_piece_by_piece(rt: HostRuntime) {
    let alloc = rt.alloc();
    let split = "CREATE TABLE T (A BIGINT PRIMARY KEY) SPLIT ON (5)";
    assert!(rt; is_refused(&rt, alloc, split, FORM) == Ok(true));
    let script =
        "SELECT * FROM KV;\nCREATE TABLE T (A BIGINT PRIMARY KEY) SPLIT ON (5);\nSELECT * FROM KV;\n";
    let text = "0 rows selected\nE02 left out: FORM\n0 rows selected\n";
    assert!(rt; ends(&rt, alloc, script, Status::Refused, text) == Ok(true));
}

#[test]
fn commands_are_read_behind_their_mark(rt: HostRuntime) {
    let alloc = rt.alloc();
    for (script, text) in [
        ("!commit", "0 rows affected\n"),
        ("!autocommit on", "autocommit on\n"),
        (" \t!scn 7", "scn 7\n"),
        ("! scn 5\n!scn off", "scn 5\nscn off\n"),
        ("!scn 9223372036854775807", "scn 9223372036854775807\n"),
        ("SELECT * FROM KV\n!scn 7", "E01 syntax at byte 17\n"),
    ] {
        let status = if text.starts_with("E") {
            Status::Refused
        } else {
            Status::Done
        };
        assert!(rt; ends(&rt, alloc, script, status, text) == Ok(true));
    }
    for (script, text) in [
        ("!", "E01 syntax at byte 1\n"),
        ("!nothing", "E01 syntax at byte 1\n"),
        ("!scn", "E01 syntax at byte 4\n"),
        ("!scn abc", "E01 syntax at byte 5\n"),
        ("!scn 4 5", "E01 syntax at byte 7\n"),
        ("!scn 0", "E07 value out of range at byte 5\n"),
        (
            "!scn 9223372036854775808",
            "E07 value out of range at byte 5\n",
        ),
    ] {
        assert!(rt; ends(&rt, alloc, script, Status::Refused, text) == Ok(true));
    }
}

#[test]
fn a_text_has_at_most_65535_bytes(rt: HostRuntime) {
    let alloc = rt.alloc();
    let long = "E07 value out of range at byte 28\n";
    for (text, times, answer, status) in [
        ("v", 65_535, ADDED, Status::Done),
        ("v", 65_536, long, Status::Refused),
        ("''", 65_535, ADDED, Status::Done),
        ("''", 65_536, long, Status::Refused),
        ("é", 32_767, ADDED, Status::Done),
        ("é", 32_768, long, Status::Refused),
    ] {
        let Ok(script) = with_value(alloc, text, times) else {
            panic!(rt; "no memory")
        };
        assert!(rt; ends(&rt, alloc, &script, status, answer) == Ok(true));
    }
}

#[test]
fn a_row_key_has_at_most_1024_bytes(rt: HostRuntime) {
    let alloc = rt.alloc();
    for (times, answer, status) in [
        (1_023, ADDED, Status::Done),
        (1_024, "E11 limit: KEY 1024\n", Status::Refused),
    ] {
        let key = repeated(alloc, "k", times).expect(&rt, "no memory");
        let start = "UPSERT INTO KV VALUES ('";
        let mut script = String::from_str(alloc, start).expect(&rt, "no memory");
        assert!(rt; script.push_str(&key).is_ok());
        assert!(rt; script.push_str("', 'v');").is_ok());
        assert!(rt; ends(&rt, alloc, &script, status, answer) == Ok(true));
    }
}

#[test]
fn a_condition_nests_64_deep(rt: HostRuntime) {
    let alloc = rt.alloc();
    for (times, answer, status) in [
        (64, NO_ROW, Status::Done),
        (65, "E11 limit: DEPTH 64\n", Status::Refused),
        (100, "E11 limit: DEPTH 64\n", Status::Refused),
    ] {
        let (whole, cut) = both_nested(alloc, times).expect(&rt, "no memory");
        assert!(rt; ends(&rt, alloc, &whole, status, answer) == Ok(true));
        let disk = MemDisk::new(alloc);
        let run = run_words(&rt, alloc, "run folder", disk, &cut).expect(&rt, "no memory");
        expect_cut(&rt, &run);
        drop(run);
    }
}

/// Stops the test where the run isn't refused by a place of its syntax.
fn expect_cut(rt: &impl Abort, run: &Run) {
    assert!(rt; run.status == Status::Refused);
    assert!(rt; run.printed.held().starts_with(b"E01 syntax at byte "));
}

/// A SELECT with this condition between these parentheses.
fn nested(alloc: Global, open: &str, inner: &str, close: &str) -> Result<String, AllocError> {
    let mut statement = String::from_str(alloc, "SELECT * FROM KV WHERE ")?;
    statement.push_str(open)?;
    statement.push_str(inner)?;
    statement.push_str(close)?;
    Ok(statement)
}

/// A SELECT whose condition stands in so many parentheses, and one whose condition lacks its end.
fn both_nested(alloc: Global, times: usize) -> Result<(String, String), AllocError> {
    let open = repeated(alloc, "(", times)?;
    let close = repeated(alloc, ")", times)?;
    let whole = nested(alloc, &open, "K = 'a'", &close)?;
    match nested(alloc, &open, "K = ", &close) {
        Ok(cut) => Ok((whole, cut)),
        Err(fault) => {
            drop(whole);
            Err(fault)
        }
    }
}

#[test]
fn a_statement_has_at_most_1048576_bytes(rt: HostRuntime) {
    let alloc = rt.alloc();
    // Blanks behind the last token count, those before the first one don't.
    for (blanks, answer, status) in [
        (1_048_560, NO_ROW, Status::Done),
        (1_048_561, "E11 limit: STATEMENT 1048576\n", Status::Refused),
    ] {
        let blanks = repeated(alloc, " ", blanks).expect(&rt, "no memory");
        let start = "\n   SELECT * FROM KV";
        let mut script = String::from_str(alloc, start).expect(&rt, "no memory");
        assert!(rt; script.push_str(&blanks).is_ok());
        assert!(rt; script.push_str("; SELECT * FROM KV").is_ok());
        let Ok(mut printed) = String::from_str(alloc, answer) else {
            panic!(rt; "no memory")
        };
        assert!(rt; printed.push_str(NO_ROW).is_ok());
        assert!(rt; ends(&rt, alloc, &script, status, &printed) == Ok(true));
    }
}

#[test]
fn a_script_that_is_no_text_is_refused_at_its_first_bad_byte(rt: HostRuntime) {
    let alloc = rt.alloc();
    for (script, text) in [
        (b"\xff".as_slice(), "E01 syntax at byte 0\n"),
        (
            b"SELECT * FROM KV;\x80".as_slice(),
            "E01 syntax at byte 17\n",
        ),
        (b"\xc3\xa9\xc3".as_slice(), "E01 syntax at byte 2\n"),
        (b"---\n\xed\xa0\x80".as_slice(), "E01 syntax at byte 4\n"),
    ] {
        let run = run_bytes(&rt, alloc, script).expect(&rt, "no memory");
        let entries = run.entries;
        assert!(rt; prints(run, Status::Refused, text));
        assert_eq!(rt; entries, 0);
    }
}
