// Texts that are long or nest deep.
use crate::tests::{check, check_fault, repeat, repeating};
use px_parse::SyntaxFault;
use std::alloc::{AllocError, Global};
use std::test::Fail;

/// How many times which text stands before a condition, what the condition is, and how many times which text stands behind.
const NESTED: &[(&str, usize, &str, &str, usize, Option<SyntaxFault>)] = &[
    ("(", 64, "A = 1", ")", 64, None),
    ("(", 65, "A = 1", ")", 65, Some(SyntaxFault::TooDeep)),
    ("NOT ", 64, "A = 1", "", 0, None),
    ("NOT ", 65, "A = 1", "", 0, Some(SyntaxFault::TooDeep)),
    ("(", 63, "A IN (1)", ")", 63, None),
    ("(", 64, "A IN (1)", ")", 64, Some(SyntaxFault::TooDeep)),
    (
        "NOT (",
        33,
        "A IN (1) AND B",
        ")",
        33,
        Some(SyntaxFault::Unexpected { place: 201 }),
    ),
    (
        "(",
        1000,
        "A = 1",
        ")",
        999,
        Some(SyntaxFault::Unexpected { place: 2026 }),
    ),
    (
        "(",
        1000,
        "A = 1",
        ")",
        1001,
        Some(SyntaxFault::Unexpected { place: 2027 }),
    ),
    (
        "(",
        1000,
        "F(1)",
        ")",
        1000,
        Some(SyntaxFault::LeftOut { name: "FUNCTION" }),
    ),
];

/// Texts with one text 10,000 times in them, in the form in which statements print.
const LONG: &[(&str, &str, &str)] = &[
    ("SELECT * FROM T WHERE A = 1", " AND A = 1", ""),
    ("SELECT * FROM T WHERE A = 1", " OR A = 1", ""),
    (
        "SELECT * FROM T WHERE A BETWEEN 1 AND 2",
        " AND A BETWEEN 1 AND 2",
        "",
    ),
    ("SELECT * FROM T WHERE A IN ( 1", " , 1", " )"),
    ("UPSERT INTO T VALUES ( 'a'", " , 'a'", " )"),
];

fn nested(
    alloc: Global,
    before: &str,
    times: usize,
    condition: &str,
    behind: &str,
    times_behind: usize,
) -> Result<String, AllocError> {
    let mut text = repeating(alloc, "SELECT * FROM T WHERE ", before, times, condition)?;
    repeat(&mut text, behind, times_behind)?;
    Ok(text)
}

#[test]
fn counts_what_is_open(rt: HostRuntime) -> Result<(), Fail> {
    for (before, times, condition, behind, times_behind, expected) in NESTED.iter() {
        let text = nested(rt.alloc(), before, *times, condition, behind, *times_behind)?;
        check_fault(&rt, rt.alloc(), text.as_str(), *expected);
    }
    Ok(())
}

#[test]
fn reads_long_texts(rt: HostRuntime) -> Result<(), Fail> {
    for (before, repeated, behind) in LONG.iter() {
        let text = repeating(rt.alloc(), before, repeated, 10_000, behind)?;
        check(&rt, rt.alloc(), text.as_str(), text.as_str());
    }
    Ok(())
}
