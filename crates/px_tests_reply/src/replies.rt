// Replies and their lines, as the description of the language has them.
use px_calls::{IndexCount, Status};
use px_reply::{Cause, Checked, Counts, Defined, Refusal, Reply, print_reply};
use px_tables::IndexState;
use px_values::{CountWord, IndexId, Items, Limit, Line, Name, Row, Rows, Text, Value};
use std::alloc::{AllocError, Global};
use std::process::Abort;
use std::test::Fail;

/// Tests what a reply prints.
fn expect(rt: &impl Abort, alloc: Global, reply: Reply, expected: &str) -> Result<(), AllocError> {
    let mut line = Line::new(alloc);
    let done = print_reply(&reply, &mut line);
    drop(reply);
    assert_eq!(rt; line.as_slice(), expected.as_bytes(), "{expected}");
    drop(line);
    done
}

fn named(alloc: Global, name: &str) -> Result<Name, AllocError> {
    Name::from_str(alloc, name)
}

#[test]
fn counts_and_settings_have_their_lines(rt: HostRuntime) -> Result<(), Fail> {
    let alloc = rt.alloc();
    let counts = [
        (0, CountWord::Affected, "0 rows affected\n"),
        (1, CountWord::Affected, "1 row affected\n"),
        (1000, CountWord::Affected, "1000 rows affected\n"),
        (1, CountWord::Held, "1 row held\n"),
        (2, CountWord::Held, "2 rows held\n"),
    ];
    for (rows, word, expected) in counts {
        expect(&rt, alloc, Reply::Count { rows, word }, expected)?;
    }
    expect(&rt, alloc, Reply::Scn(Some(5)), "scn 5\n")?;
    expect(&rt, alloc, Reply::Scn(None), "scn off\n")?;
    expect(&rt, alloc, Reply::Autocommit(true), "autocommit on\n")?;
    expect(&rt, alloc, Reply::Autocommit(false), "autocommit off\n")?;
    expect(&rt, alloc, Reply::Flushed, "flushed\n")?;
    expect(&rt, alloc, Reply::Compacted, "compacted\n")?;
    Ok(())
}

const DEFINED: &[(Defined, &str)] = &[
    (Defined::TableCreated, "table created\n"),
    (Defined::TableKept, "table kept\n"),
    (Defined::TableDropped, "table dropped\n"),
    (Defined::TableAbsent, "table absent\n"),
    (Defined::IndexCreated, "index created\n"),
    (Defined::IndexKept, "index kept\n"),
    (Defined::IndexDropped, "index dropped\n"),
    (Defined::IndexAbsent, "index absent\n"),
    (Defined::IndexDisabled, "index disabled\n"),
    (Defined::IndexRebuilt, "index rebuilt\n"),
];

#[test]
fn definitions_have_their_lines(rt: HostRuntime) -> Result<(), Fail> {
    let alloc = rt.alloc();
    for (defined, expected) in DEFINED {
        expect(&rt, alloc, Reply::Defined(*defined), expected)?;
    }
    Ok(())
}

#[test]
fn refusals_of_places_and_counts_have_their_lines(rt: HostRuntime) -> Result<(), Fail> {
    let alloc = rt.alloc();
    let refusals = [
        (Refusal::Syntax { place: 6 }, "E01 syntax at byte 6\n"),
        (Refusal::LeftOut { name: "JOIN" }, "E02 left out: JOIN\n"),
        (Refusal::Form, "E02 left out: FORM\n"),
        (Refusal::IndexJoin, "E02 left out: INDEX JOIN\n"),
        (
            Refusal::Mismatch { place: 0 },
            "E06 type mismatch at byte 0\n",
        ),
        (
            Refusal::OutOfRange { place: 22 },
            "E07 value out of range at byte 22\n",
        ),
        (Refusal::Limit(Limit::Rows), "E11 limit: ROWS 1000\n"),
        (
            Refusal::Limit(Limit::Script),
            "E11 limit: SCRIPT 67108864\n",
        ),
        (Refusal::Limit(Limit::Build), "E11 limit: BUILD 0\n"),
        (
            Refusal::BelowHorizon { horizon: 8 },
            "E12 scn below horizon 8\n",
        ),
        (Refusal::UnderScn, "E13 not under scn\n"),
        (Refusal::ReadFault, "F1 read fault\n"),
        (Refusal::WriteFault, "F2 write fault\n"),
        (
            Refusal::Closed { call: 31 },
            "F3 closed by device call 31\n",
        ),
        (
            Refusal::Damaged {
                file: 4_294_967_298,
                place: 17,
            },
            "F4 damaged file 4294967298 at 17\n",
        ),
        (Refusal::Memory, "M1 out of memory\n"),
    ];
    for (refusal, expected) in refusals {
        expect(&rt, alloc, Reply::Refused(refusal), expected)?;
    }
    Ok(())
}

#[test]
fn refusals_of_names_have_their_lines(rt: HostRuntime) -> Result<(), Fail> {
    let alloc = rt.alloc();
    let name = named(alloc, "T")?;
    expect(
        &rt,
        alloc,
        Reply::Refused(Refusal::NameExists(name)),
        "E03 name exists: T\n",
    )?;
    let name = named(alloc, "CUSTOMER")?;
    expect(
        &rt,
        alloc,
        Reply::Refused(Refusal::NoColumn(name)),
        "E04 no such column: CUSTOMER\n",
    )?;
    let name = named(alloc, "a b")?;
    expect(
        &rt,
        alloc,
        Reply::Refused(Refusal::NoTable(name)),
        "E05 no such table: a b\n",
    )?;
    let name = named(alloc, "K")?;
    expect(
        &rt,
        alloc,
        Reply::Refused(Refusal::NullKey(name)),
        "E08 null key column: K\n",
    )?;
    let name = named(alloc, "BY_CUST")?;
    expect(
        &rt,
        alloc,
        Reply::Refused(Refusal::NoIndex(name)),
        "E09 no such index: BY_CUST\n",
    )?;
    let name = named(alloc, "V")?;
    expect(
        &rt,
        alloc,
        Reply::Refused(Refusal::Twice(name)),
        "E10 column named twice: V\n",
    )?;
    Ok(())
}

#[test]
fn refusals_tell_what_they_come_from(rt: HostRuntime) -> Result<(), Fail> {
    assert_eq!(rt; Refusal::UnderScn.cause(), Cause::Statement);
    assert_eq!(rt; Refusal::ReadFault.cause(), Cause::Device);
    assert_eq!(rt;
        Refusal::Damaged { file: 0, place: 0 }.cause(),
        Cause::Device
    );
    assert_eq!(rt; Refusal::WriteFault.cause(), Cause::Closing);
    assert_eq!(rt; Refusal::Closed { call: 1 }.cause(), Cause::Closing);
    assert_eq!(rt; Refusal::Memory.cause(), Cause::Memory);
    Ok(())
}

/// A row of a number and a text.
fn row(alloc: Global, number: i128, text: &str) -> Result<Row, AllocError> {
    let text = Text::from_str(alloc, text)?;
    let mut values = Vec::new(alloc);
    values.push(Value::Number(number))?;
    values.push(Value::Text(text))?;
    values.push(Value::Null)?;
    Ok(Row::of(values))
}

#[test]
fn rows_are_printed_and_counted(rt: HostRuntime) -> Result<(), Fail> {
    let alloc = rt.alloc();
    expect(
        &rt,
        alloc,
        Reply::Rows(Rows::of(Vec::new(alloc))),
        "0 rows selected\n",
    )?;
    let mut rows = Vec::new(alloc);
    rows.push(row(alloc, -1, "it's")?)?;
    expect(
        &rt,
        alloc,
        Reply::Rows(Rows::of(rows)),
        "-1, 'it''s', null\n1 row selected\n",
    )?;
    let mut rows = Vec::new(alloc);
    rows.push(row(alloc, 1, "a")?)?;
    rows.push(row(alloc, 2, "b")?)?;
    expect(
        &rt,
        alloc,
        Reply::Rows(Rows::of(rows)),
        "1, 'a', null\n2, 'b', null\n2 rows selected\n",
    )?;
    Ok(())
}

#[test]
fn plans_and_statuses_have_their_lines(rt: HostRuntime) -> Result<(), Fail> {
    let alloc = rt.alloc();
    let mut plan = Line::new(alloc);
    plan.push_str("SCAN TABLE T\nKEY EQUAL 0 RANGE 0\n")?;
    expect(
        &rt,
        alloc,
        Reply::Explained(plan),
        "SCAN TABLE T\nKEY EQUAL 0 RANGE 0\n",
    )?;
    let mut indexes = Vec::new(alloc);
    indexes.push(IndexCount {
        index: IndexId(4),
        name: named(alloc, "BY_CUST")?,
        state: IndexState::Active,
        unverified: 2,
    })?;
    indexes.push(IndexCount {
        index: IndexId(6),
        name: named(alloc, "b")?,
        state: IndexState::Building,
        unverified: 0,
    })?;
    let status = Status {
        last: 4,
        horizon: 0,
        cells: 15,
        files: 3,
        indexes: Items::of(indexes),
    };
    expect(
        &rt,
        alloc,
        Reply::Status(status),
        "last 4 horizon 0\ncells 15 files 3\nBY_CUST ACTIVE unverified 2\nb BUILDING unverified 0\n",
    )?;
    Ok(())
}

const BEFORE: Counts = Counts {
    matching: 1,
    unverified: 2,
    missing: 3,
    extra: 4,
    wrong: 5,
};

const AFTER: Counts = Counts {
    matching: 6,
    unverified: 0,
    missing: 0,
    extra: 0,
    wrong: 0,
};

#[test]
fn verifications_have_their_lines(rt: HostRuntime) -> Result<(), Fail> {
    let alloc = rt.alloc();
    let parts = [
        (None, false, None, ""),
        (None, true, None, "rebuilt\n"),
        (
            Some(BEFORE),
            false,
            None,
            "matching 1\nunverified 2\nmissing 3\nextra 4\nwrong 5\n",
        ),
        (
            Some(BEFORE),
            true,
            None,
            "matching 1\nunverified 2\nmissing 3\nextra 4\nwrong 5\nrebuilt\n",
        ),
        (
            None,
            true,
            Some(AFTER),
            "rebuilt\nmatching 6\nunverified 0\nmissing 0\nextra 0\nwrong 0\n",
        ),
        (
            Some(BEFORE),
            true,
            Some(AFTER),
            "matching 1\nunverified 2\nmissing 3\nextra 4\nwrong 5\nrebuilt\nmatching 6\nunverified 0\nmissing 0\nextra 0\nwrong 0\n",
        ),
    ];
    for (before, rebuilt, after, expected) in parts {
        expect(
            &rt,
            alloc,
            Reply::Verified(Checked {
                before,
                rebuilt,
                after,
                refused: None,
            }),
            expected,
        )?;
    }
    Ok(())
}

#[test]
fn a_refusal_comes_after_the_parts_that_were_finished(rt: HostRuntime) -> Result<(), Fail> {
    let alloc = rt.alloc();
    let name = named(alloc, "BY_CUST")?;
    let reply = Reply::Verified(Checked {
        before: Some(BEFORE),
        rebuilt: false,
        after: None,
        refused: Some(Refusal::NoIndex(name)),
    });
    assert!(rt; matches!(reply.refusal(), Some(Refusal::NoIndex(_))));
    expect(
        &rt,
        alloc,
        reply,
        "matching 1\nunverified 2\nmissing 3\nextra 4\nwrong 5\nE09 no such index: BY_CUST\n",
    )?;
    assert!(rt; Reply::Flushed.refusal().is_none());
    Ok(())
}
