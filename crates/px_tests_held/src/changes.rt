// Changes that are held one after the other.
use crate::pieces::{Doing, Written, change, is_change, is_what, numbered, table, what};
use px_held::{HoldFault, hold, merged};
use px_tables::Table;
use px_values::{Change, What};
use std::alloc::{AllocError, Global};
use std::test::Fail;

/// What the change held does, what a later one of its row does, and what the one that is held then does.
const MERGED: &[(Doing, Doing, Doing)] = &[
    // Of a column that both set the later value stays, and the later ones stand behind the others.
    (
        Some(&[(0, "a"), (2, "b")]),
        Some(&[(2, "c"), (4, "")]),
        Some(&[(0, "a"), (2, "c"), (4, "")]),
    ),
    (
        Some(&[(4, "a"), (0, "")]),
        Some(&[(4, "b")]),
        Some(&[(0, ""), (4, "b")]),
    ),
    (Some(&[]), Some(&[(0, "a")]), Some(&[(0, "a")])),
    (Some(&[(0, "a")]), Some(&[]), Some(&[(0, "a")])),
    // A removal makes what was set void.
    (Some(&[(0, "a"), (2, "b")]), None, None),
    (None, None, None),
    // A row that is set behind its removal begins anew.
    (None, Some(&[(2, "b")]), Some(&[(0, ""), (4, ""), (2, "b")])),
    (None, Some(&[]), Some(&[(0, ""), (2, ""), (4, "")])),
    (
        None,
        Some(&[(4, "c"), (2, ""), (0, "a")]),
        Some(&[(4, "c"), (2, ""), (0, "a")]),
    ),
];

// Holds a change. There is no answer where the change can't be made.
fn hold_made(
    alloc: Global,
    table: &Table,
    held: &mut Vec<Change>,
    made: Result<Change, AllocError>,
) -> Option<Result<(), HoldFault>> {
    match made {
        Ok(change) if table.columns.as_slice().len() <= 255 => {
            Some(hold(alloc, table, held, change))
        }
        other => {
            drop(other);
            None
        }
    }
}

// Whether a change of a row is held.
fn hold_one(
    alloc: Global,
    table: &Table,
    held: &mut Vec<Change>,
    row: Written,
    doing: Doing,
) -> bool {
    let made = change(alloc, row, doing);
    hold_made(alloc, table, held, made) == Some(Ok(()))
}

// Whether two changes of a row are held as one.
fn are_held(alloc: Global, table: &Table, earlier: Doing, later: Doing, both: Doing) -> bool {
    let mut held = Vec::new(alloc);
    let first = hold_one(alloc, table, &mut held, ("k", ""), earlier);
    let second = hold_one(alloc, table, &mut held, ("k", ""), later);
    let one = match held.as_slice() {
        [change] => is_change(change, ("k", ""), both),
        _ => false,
    };
    drop(held);
    first && second && one
}

// Whether what two changes do is merged so.
fn are_merged(alloc: Global, table: &Table, earlier: Doing, later: Doing, both: Doing) -> bool {
    match what(alloc, earlier) {
        Ok(earlier) => {
            let same = is_merged(alloc, table, &earlier, later, both);
            drop(earlier);
            same
        }
        Err(_) => false,
    }
}

fn is_merged(alloc: Global, table: &Table, earlier: &What, later: Doing, both: Doing) -> bool {
    if table.columns.as_slice().len() > 255 {
        return false;
    }
    let all = match what(alloc, later) {
        Ok(later) => merged(alloc, table, earlier, later),
        Err(fault) => Err(fault),
    };
    let same = match &all {
        Ok(all) => is_what(all, both),
        Err(_) => false,
    };
    drop(all);
    same
}

#[test]
fn a_later_change_is_merged(rt: HostRuntime) -> Result<(), Fail> {
    let alloc = rt.alloc();
    let table = table(alloc)?;
    let mut wrong = None;
    for i in 0..MERGED.len() {
        let (earlier, later, both) = MERGED[i];
        let held = are_held(alloc, &table, earlier, later, both);
        if !held || !are_merged(alloc, &table, earlier, later, both) {
            wrong = Some(i);
        }
    }
    drop(table);
    assert!(rt; wrong.is_none(), "{wrong:?}");
    Ok(())
}

/// Changes of rows, one after the other.
const CHANGES: &[(Written, Doing)] = &[
    (("b", "x"), Some(&[(0, "1")])),
    (("a", ""), Some(&[(0, "2")])),
    (("b", ""), None),
    (("a", "x"), Some(&[(2, "3")])),
    // From here on of rows of which one is held.
    (("a", ""), Some(&[(2, "4")])),
    (("b", ""), Some(&[(4, "5")])),
    (("a", "x"), None),
    (("a", ""), Some(&[(0, "6")])),
];

/// What is held of them: each row where it was held first.
const HELD: &[(Written, Doing)] = &[
    (("b", "x"), Some(&[(0, "1")])),
    (("a", ""), Some(&[(2, "4"), (0, "6")])),
    (("b", ""), Some(&[(0, ""), (2, ""), (4, "5")])),
    (("a", "x"), None),
];

// Whether these are held, in this order.
fn is_held(held: &[Change], expected: &[(Written, Doing)]) -> bool {
    if held.len() != expected.len() {
        return false;
    }
    for i in 0..held.len() {
        let (row, doing) = expected[i];
        if !is_change(&held[i], row, doing) {
            return false;
        }
    }
    true
}

#[test]
fn rows_stay_in_order(rt: HostRuntime) -> Result<(), Fail> {
    let alloc = rt.alloc();
    let table = table(alloc)?;
    let mut held = Vec::new(alloc);
    let mut all = true;
    for (row, doing) in CHANGES {
        all = hold_one(alloc, &table, &mut held, *row, *doing) && all;
    }
    let same = is_held(held.as_slice(), HELD);
    drop(held);
    drop(table);
    assert!(rt; all);
    assert!(rt; same);
    Ok(())
}

// Removes 1,000 rows, none twice.
fn fill(alloc: Global, table: &Table, held: &mut Vec<Change>) -> bool {
    for number in 0..1_000u64 {
        let made = numbered(alloc, number as i128, None);
        if hold_made(alloc, table, held, made) != Some(Ok(())) {
            return false;
        }
    }
    true
}

// Whether the last of 1,000 changes does this.
fn is_last(held: &[Change], doing: Doing) -> bool {
    held.len() == 1_000 && is_what(&held[999].what, doing)
}

// What isn't so of 1,000 rows: no other is held with them, and a change of one of them is.
fn wrong(alloc: Global, table: &Table, held: &mut Vec<Change>) -> Option<&'static str> {
    if !fill(alloc, table, held) || !is_last(held.as_slice(), None) {
        return Some("fill");
    }
    let other = numbered(alloc, 1_000, Some(&[(0, "a")]));
    if hold_made(alloc, table, held, other) != Some(Err(HoldFault::Rows)) {
        return Some("other");
    }
    if !is_last(held.as_slice(), None) {
        return Some("kept");
    }
    let again = numbered(alloc, 999, Some(&[(0, "a")]));
    if hold_made(alloc, table, held, again) != Some(Ok(())) {
        return Some("again");
    }
    if !is_last(held.as_slice(), Some(&[(2, ""), (4, ""), (0, "a")])) {
        return Some("merged");
    }
    None
}

#[test]
fn at_most_1000_rows_are_held(rt: HostRuntime) -> Result<(), Fail> {
    let alloc = rt.alloc();
    let table = table(alloc)?;
    let mut held = Vec::new(alloc);
    let found = wrong(alloc, &table, &mut held);
    drop(held);
    drop(table);
    assert!(rt; found.is_none(), "{found:?}");
    Ok(())
}
