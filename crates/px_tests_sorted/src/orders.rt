// Seven rows by each ORDER BY, worked out by hand: NULL is least, DESC reverses, and ties stay.
use px_plan::Asked;
use px_scan::Placed;
use px_sorted::{Shown, answered};
use px_tables::KeyPlace;
use px_tests_layouts::{numbers, row};
use px_values::{Direction, Items, Line, Value, print_rows};
use std::alloc::{AllocError, Global};
use std::test::Fail;

/// The rows. A row's place is its number here, from 0 on.
const ROWS: &str = "1 5 a
2 NULL b
3 5 NULL
4 9 a
5 NULL NULL
6 -3 B
7 5 ab";

/// An ORDER BY, a LIMIT or a dash, and the places of the rows that come.
const ORDERS: &str = "; - => 0 1 2 3 4 5 6
1+; - => 1 4 5 0 2 6 3
1-; - => 3 0 2 6 5 1 4
2+; - => 2 4 5 0 3 6 1
2-; - => 1 6 0 3 5 2 4
1+ 2+; - => 4 1 5 2 0 6 3
1+ 2-; - => 1 4 5 6 0 2 3
1- 2+; - => 3 2 0 6 5 4 1
1- 2-; - => 3 6 0 2 5 1 4
2+ 1-; - => 2 4 5 3 0 6 1
2- 1+; - => 1 6 0 3 5 4 2
0-; - => 6 5 4 3 2 1 0
1+ 1-; - => 1 4 5 0 2 6 3
2+ 1- 0-; - => 2 4 5 3 0 6 1
1+ 0-; - => 4 1 5 6 2 0 3
9+; - => 0 1 2 3 4 5 6
9- 0-; - => 6 5 4 3 2 1 0
; 0 =>
; 2 => 0 1
1-; 0 =>
1-; 1 => 3
1-; 3 => 3 0 2
1-; 6 => 3 0 2 6 5 1
1-; 7 => 3 0 2 6 5 1 4
1-; 8 => 3 0 2 6 5 1 4
1+ 2+; 2 => 4 1
1+; 18446744073709551615 => 1 4 5 0 2 6 3";

fn rows(alloc: Global) -> Result<Vec<Placed>, AllocError> {
    let mut rows = Vec::new(alloc);
    let mut at = 0u64;
    for line in ROWS.lines() {
        let row = row(alloc, line)?;
        rows.push(Placed { row, at })?;
        at = at.saturating_add(1);
    }
    Ok(rows)
}

fn place(word: &str) -> KeyPlace {
    let column = match word.get(..1) {
        Some(digit) => digit.parse::<u8>().unwrap_or(0),
        None => 0,
    };
    let direction = if word.ends_with("-") {
        Direction::Descending
    } else {
        Direction::Ascending
    };
    KeyPlace { column, direction }
}

fn order(alloc: Global, words: &str) -> Result<Items<KeyPlace>, AllocError> {
    let mut places = Vec::new(alloc);
    for word in words.split_whitespace() {
        places.push(place(word))?;
    }
    Ok(Items::of(places))
}

/// A query that shows these columns.
fn asked(
    alloc: Global,
    words: &str,
    limit: Option<u64>,
    shown: &[u8],
) -> Result<Asked, AllocError> {
    let order = order(alloc, words)?;
    let shown = Items::of(Vec::from_slice(alloc, shown)?);
    Ok(Asked {
        hints: Items::of(Vec::new(alloc)),
        shown,
        conjuncts: Items::of(Vec::new(alloc)),
        order,
        limit,
    })
}

/// What the query answers of the seven rows.
fn answer(
    alloc: Global,
    words: &str,
    limit: Option<u64>,
    shown: &[u8],
) -> Result<Shown, AllocError> {
    let rows = rows(alloc)?;
    match asked(alloc, words, limit, shown) {
        Ok(asked) => {
            let shown = answered(alloc, &asked, rows);
            drop(asked);
            shown
        }
        Err(fault) => {
            drop(rows);
            Err(fault)
        }
    }
}

#[test]
fn rows_come_in_order(rt: HostRuntime) -> Result<(), Fail> {
    let alloc = rt.alloc();
    let mut lines = 0u32;
    for line in ORDERS.lines() {
        let (query, places) = line.split_once("=>").unwrap_or((line, ""));
        let (words, limit) = query.split_once(";").unwrap_or((query, ""));
        let shown = answer(alloc, words, limit.trim().parse::<u64>().ok(), &[0])?;
        let expected = numbers(alloc, places)?;
        assert_eq!(rt; shown.places.as_slice(), expected.as_slice(), "{line}");
        drop(shown);
        lines = lines.saturating_add(1);
    }
    assert_eq!(rt; lines, 27);
    Ok(())
}

/// The lines of an answer.
fn printed(alloc: Global, words: &str, shown: &[u8]) -> Result<Line, AllocError> {
    let shown = answer(alloc, words, Some(3), shown)?;
    let mut line = Line::new(alloc);
    let all = print_rows(&shown.rows, &mut line);
    drop(shown);
    all?;
    Ok(line)
}

#[test]
fn columns_are_shown(rt: HostRuntime) -> Result<(), Fail> {
    let alloc = rt.alloc();
    let whole = printed(alloc, "1- 2+", &[0, 1, 2])?;
    assert_eq!(rt;
        whole.as_slice(),
        "4, 9, 'a'\n3, 5, null\n1, 5, 'a'\n".as_bytes()
    );
    let again = printed(alloc, "2-", &[2, 0, 2])?;
    assert_eq!(rt;
        again.as_slice(),
        "'b', 2, 'b'\n'ab', 7, 'ab'\n'a', 1, 'a'\n".as_bytes()
    );
    let none = printed(alloc, "1+", &[9, 1])?;
    assert_eq!(rt;
        none.as_slice(),
        "null, null\nnull, null\nnull, -3\n".as_bytes()
    );
    Ok(())
}

/// The place of the row that comes as number `index` of 99 rows, in which the numbers 0, 1 and 2 stand in turn.
fn place_of(index: u64) -> u64 {
    (index % 33) * 3 + index / 33
}

#[test]
fn many_rows_keep_their_ties(rt: HostRuntime) -> Result<(), Fail> {
    let alloc = rt.alloc();
    let mut rows = Vec::new(alloc);
    for at in 0..99u64 {
        let row = Items::of(vec![in alloc; Value::Number(i128::from(at % 3))]?);
        rows.push(Placed { row, at })?;
    }
    let asked = asked(alloc, "0+", None, &[0])?;
    let shown = answered(alloc, &asked, rows);
    drop(asked);
    let shown = shown?;
    let mut expected = Vec::new(alloc);
    for index in 0..99u64 {
        expected.push(place_of(index))?;
    }
    assert_eq!(rt; shown.places.as_slice(), expected.as_slice());
    drop(shown);
    Ok(())
}
