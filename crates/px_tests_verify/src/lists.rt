// Entries and versions, and the report on them, worked out by hand.
use px_tests_layouts::numbers;
use px_values::{Items, Key, Row, Text, Value};
use px_verify::{IndexEntry, Version, compare, sort};
use std::alloc::{AllocError, Global};
use std::test::Fail;

/// The entries that rows ask for, in any order; the versions of the index; and the counts: matching, unverified, missing, extra, wrong. An
/// entry is a key of one byte and a value, or a dash for NULL; behind the key of an unverified version stands a question mark.
const REPORTS: &str = "; => 0 0 0 0 0
1a; 1a => 1 0 0 0 0
1a; 1b => 0 0 0 0 1
1a; 1- => 0 0 0 0 1
1-; 1- => 1 0 0 0 0
1-; 1a => 0 0 0 0 1
1a; 1? => 0 1 0 0 0
1a; => 0 0 1 0 0
; 1a => 0 0 0 1 0
; 1? => 0 1 0 0 0
1a; 2a => 0 0 1 1 0
2a; 1a => 0 0 1 1 0
2a; 1? => 0 1 1 0 0
1a; 2? => 0 1 1 0 0
3c 1a 2b; 1a 2b 3c => 3 0 0 0 0
3c 1a 2b; 1a 3c => 2 0 1 0 0
3c 1a 2b; 2b => 1 0 2 0 0
2b; 1a 2b 3c => 1 0 0 2 0
1a 2b 3c; 1a 2? 3d => 1 1 0 0 1
5e 4d 3c 2b 1a; 1? 2? 3? 4? 5? => 0 5 0 0 0
1a 2b 3c 4d; 5a 6b 7c 8d => 0 0 4 4 0
5a 6b 7c 8d; 1a 2b 3c 4d => 0 0 4 4 0
1a 3c 5e 7g; 2b 3c 4? 5f 6? 8h => 1 2 2 2 1
9i 7g 5e 3c 1a; 1a 2? 3? 4d 5e 7x 8? 9- => 2 3 0 1 2";

fn value(alloc: Global, word: &str) -> Result<Value, AllocError> {
    if word == "-" {
        return Ok(Value::Null);
    }
    let text = Text::from_str(alloc, word)?;
    Ok(Value::Text(text))
}

fn key(alloc: Global, word: &str) -> Result<Key, AllocError> {
    let bytes = Vec::from_slice(alloc, word.get(..1).unwrap_or("").as_bytes())?;
    Ok(Key::of(bytes))
}

fn entry(alloc: Global, word: &str) -> Result<IndexEntry, AllocError> {
    let mut values = Vec::new(alloc);
    values.push(value(alloc, word.get(1..).unwrap_or(""))?)?;
    let key = key(alloc, word)?;
    Ok(IndexEntry {
        key,
        values: Row::of(values),
    })
}

fn version(alloc: Global, word: &str) -> Result<Version, AllocError> {
    if word.ends_with("?") {
        let key = key(alloc, word)?;
        return Ok(Version::Unverified(key));
    }
    let entry = entry(alloc, word)?;
    Ok(Version::Verified(entry))
}

fn entries(alloc: Global, words: &str) -> Result<Vec<IndexEntry>, AllocError> {
    let mut entries = Vec::new(alloc);
    for word in words.split_whitespace() {
        entries.push(entry(alloc, word)?)?;
    }
    Ok(entries)
}

fn versions(alloc: Global, words: &str) -> Result<Vec<Version>, AllocError> {
    let mut versions = Vec::new(alloc);
    for word in words.split_whitespace() {
        versions.push(version(alloc, word)?)?;
    }
    Ok(versions)
}

#[test]
fn lists_are_compared(rt: HostRuntime) -> Result<(), Fail> {
    let alloc = rt.alloc();
    let mut lines = 0u32;
    for line in REPORTS.lines() {
        let (lists, counts) = line.split_once("=>").unwrap_or((line, ""));
        let (rows, found) = lists.split_once(";").unwrap_or((lists, ""));
        let mut rows = entries(alloc, rows)?;
        let found = versions(alloc, found)?;
        sort(&mut rows)?;
        let report = compare(rows.as_slice(), found.as_slice());
        let counted = [
            report.matching,
            report.unverified,
            report.missing,
            report.extra,
            report.wrong,
        ];
        let expected = numbers(alloc, counts)?;
        assert_eq!(rt; &counted[..], expected.as_slice(), "{line}");
        lines = lines.saturating_add(1);
    }
    assert_eq!(rt; lines, 24);
    Ok(())
}
