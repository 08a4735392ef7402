//! Times the parser beside the lexer, and shows that no text of 1 MiB exhausts the stack. `px_bench_parse RUNS` lexes and parses
//! three statements of about 1 MiB so many times each, and says the least time of both and their ratio. Without an argument it
//! parses these, and texts that nest deep or go on long, and prints what each of them is.
#![tactic(auto)]

use px_lex::token::lex;
use px_parse::parse;
use std::alloc::{AllocError, Global};
use std::time::Instant;
use std::{env, io};

/// The most bytes that a statement may have.
const SIZE: usize = 1_048_576;

const QUERY: &str = "SELECT * FROM KV WHERE ";

/// Forms of texts: a name, the beginning, what is repeated behind it, the middle, and what is repeated behind that, each as
/// often as the size allows.
const FORMS: &[(&str, &str, &str, &str, &str)] = &[
    ("open parentheses", QUERY, "(", "", ""),
    ("NOTs", QUERY, "NOT ", "", ""),
    ("open parentheses and NOTs", QUERY, "(NOT ", "", ""),
    ("closed parentheses", QUERY, "(", "K = 1", ")"),
    ("closed parentheses and NOTs", QUERY, "NOT (", "K = 1", ")"),
    ("ORs in parentheses", QUERY, "(K = 1 OR ", "K = 1", ")"),
    ("ORs", QUERY, "K = 1 OR ", "K = 1", ""),
    ("ORs and no end", QUERY, "K = 1 OR ", "", ""),
    ("BETWEENs", QUERY, "K BETWEEN 1 AND 2 AND ", "K = 1", ""),
    (
        "an IN list",
        "SELECT * FROM KV WHERE K IN (1",
        ", 1",
        ")",
        "",
    ),
    (
        "an IN list and no end",
        "SELECT * FROM KV WHERE K IN (1",
        ", 1",
        "",
        "",
    ),
    ("signs", QUERY, "- ", "", ""),
    ("a comment", QUERY, "-", "", ""),
    ("functions", QUERY, "F(", "", ""),
    (
        "an UPSERT and ON",
        "UPSERT INTO KV VALUES (1",
        ", 1",
        ") ON X",
        "",
    ),
    ("names", "SELECT A", ", A", " FROM T", ""),
];

fn repeat(to: &mut String, text: &str, times: usize) -> Result<(), AllocError> {
    for _turn in 0..times {
        to.push_str(text)?;
    }
    Ok(())
}

/// A text with one text repeated in front of its middle and one behind it, filled up with blanks.
fn filled(
    alloc: Global,
    before: &str,
    opening: &str,
    middle: &str,
    closing: &str,
) -> Result<String, AllocError> {
    let once = opening.len().saturating_add(closing.len());
    let around = before.len().saturating_add(middle.len());
    let times = SIZE.saturating_sub(around) / once.max(1);
    let mut text = String::from_str(alloc, before)?;
    repeat(&mut text, opening, times)?;
    text.push_str(middle)?;
    repeat(&mut text, closing, times)?;
    let blanks = SIZE.saturating_sub(text.len());
    repeat(&mut text, " ", blanks)?;
    Ok(text)
}

/// Adds so many items, each with a number from 10,000 on between two texts.
fn add_numbered(
    alloc: Global,
    to: &mut String,
    before: &str,
    behind: &str,
    count: u32,
) -> Result<(), AllocError> {
    for number in 10_000..count.saturating_add(10_000) {
        let item = format!(in alloc; "{before}{number}{behind}")?;
        to.push_str(item.as_str())?;
    }
    Ok(())
}

fn in_list(alloc: Global) -> Result<String, AllocError> {
    let mut text = String::from_str(alloc, "SELECT * FROM ORDERS WHERE ID IN (0")?;
    add_numbered(alloc, &mut text, ", ", "", 142_300)?;
    text.push_str(")")?;
    Ok(text)
}

fn ors(alloc: Global) -> Result<String, AllocError> {
    let mut text = String::from_str(alloc, "SELECT * FROM ORDERS WHERE ID = 0")?;
    add_numbered(alloc, &mut text, " OR ID = ", "", 74_800)?;
    Ok(text)
}

/// A table of which each column is NOT NULL and of the key.
fn key_columns(alloc: Global) -> Result<String, AllocError> {
    let mut text = String::from_str(alloc, "CREATE TABLE T (C BIGINT NOT NULL")?;
    add_numbered(alloc, &mut text, ", C", " BIGINT NOT NULL", 32_700)?;
    text.push_str(", CONSTRAINT P PRIMARY KEY (C")?;
    add_numbered(alloc, &mut text, ", C", "", 32_700)?;
    text.push_str("))")?;
    Ok(text)
}

/// What a text is.
fn tell(rt: &HostRuntime, name: &str, text: &str) -> io::Result<()> {
    let bytes = text.len();
    match parse(rt.alloc(), text) {
        Ok(_) => println!(rt; "{name}, {bytes} bytes: a statement"),
        Err(fault) => println!(rt; "{name}, {bytes} bytes: {fault}"),
    }
}

fn tell_all(rt: &HostRuntime) -> io::Result<()> {
    let alloc = rt.alloc();
    for (name, before, opening, middle, closing) in FORMS.iter() {
        let text = filled(alloc, before, opening, middle, closing)?;
        tell(rt, name, text.as_str())?;
    }
    tell(rt, "numbers in IN", in_list(alloc)?.as_str())?;
    tell(rt, "comparisons between ORs", ors(alloc)?.as_str())?;
    tell(rt, "columns of a key", key_columns(alloc)?.as_str())
}

/// Microseconds of one lexing.
fn lexing(rt: &HostRuntime, text: &str) -> io::Result<u128> {
    let start = Instant::now(rt)?;
    let _lexed = lex(rt.alloc(), text);
    Ok(start.elapsed(rt)?.as_micros())
}

/// Microseconds of one parsing.
fn parsing(rt: &HostRuntime, text: &str) -> io::Result<u128> {
    let start = Instant::now(rt)?;
    let _parsed = parse(rt.alloc(), text);
    Ok(start.elapsed(rt)?.as_micros())
}

/// How many hundredths of the first time the second one is.
fn hundredths(first: u128, second: u128) -> u128 {
    second.saturating_mul(100) / first.max(1)
}

fn time(rt: &HostRuntime, name: &str, text: &str, runs: u32) -> io::Result<()> {
    let mut lexed = u128::MAX;
    let mut parsed = u128::MAX;
    for _run in 0..runs {
        lexed = lexed.min(lexing(rt, text)?);
        parsed = parsed.min(parsing(rt, text)?);
    }
    let ratio = hundredths(lexed, parsed);
    let (whole, part) = (ratio / 100, ratio % 100);
    let bytes = text.len();
    println!(rt;
        "{name}, {bytes} bytes: {lexed} microseconds lexed, {parsed} parsed, ratio {whole}.{part:02}"
    )
}

fn time_all(rt: &HostRuntime, runs: u32) -> io::Result<()> {
    let alloc = rt.alloc();
    time(rt, "numbers in IN", in_list(alloc)?.as_str(), runs)?;
    time(rt, "comparisons between ORs", ors(alloc)?.as_str(), runs)?;
    time(rt, "columns of a key", key_columns(alloc)?.as_str(), runs)
}

fn main(rt: HostRuntime) -> io::Result<()> {
    let mut words = env::args(&rt)?;
    let _name = words.next();
    match words.next() {
        Some(runs) => time_all(&rt, runs.as_str().parse::<u32>().unwrap_or(1)),
        None => tell_all(&rt),
    }
}
