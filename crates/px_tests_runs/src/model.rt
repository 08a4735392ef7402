// Rows with their dates, as a trail tells them.
use px_trail::{Act, Entry, Trail};
use px_values::{Change, Changes, Row, Rows, Value, What};
use std::alloc::{AllocError, Global};

/// A row: its key, its letter counted from 'a' as 1, and its number. 0 is NULL in the last two.
#[derive(Clone, Copy, PartialEq, Eq)]
pub struct Fields {
    pub id: u32,
    pub a: u32,
    pub b: u32,
}

/// What a batch made of a row at its stamp, and after how many entries of the run it was written; 0 where an earlier run wrote it.
#[derive(Clone, Copy)]
pub struct Version {
    pub table: u32,
    pub stamp: u64,
    pub place: u64,
    pub is_there: bool,
    pub fields: Fields,
}

/// What is seen of a table: versions below a stamp that were written within so many entries of the run.
#[derive(Clone, Copy)]
pub struct View {
    pub table: u32,
    pub below: u64,
    pub within: u64,
}

/// All that was ever written of a table below a stamp.
pub fn as_of(table: u32, below: u64) -> View {
    View {
        table,
        below,
        within: u64::MAX,
    }
}

fn is_seen(version: &Version, view: View) -> bool {
    version.table == view.table && version.stamp < view.below && version.place <= view.within
}

fn is_newer(version: &Version, best: &Option<Version>) -> bool {
    match best {
        Some(old) => old.stamp <= version.stamp,
        None => true,
    }
}

/// Keeps a version by its key where none that is there is newer.
fn keep(rows: &mut Vec<Option<Version>>, version: &Version) -> Result<(), AllocError> {
    let place = version.fields.id as usize;
    for _ in rows.len()..place.saturating_add(1) {
        rows.push(None)?;
    }
    if let Some(slot) = rows.get_mut(place) {
        if is_newer(version, slot) {
            *slot = Some(*version);
        }
    }
    Ok(())
}

/// The newest version in view of each key, at the place of its key.
pub fn newest(
    alloc: Global,
    versions: &[Version],
    view: View,
) -> Result<Vec<Option<Version>>, AllocError> {
    let mut rows = Vec::new(alloc);
    for version in versions {
        if is_seen(version, view) {
            keep(&mut rows, version)?;
        }
    }
    Ok(rows)
}

/// The row of a key among the newest, where it is there.
pub fn row_of(rows: &[Option<Version>], id: u32) -> Option<Fields> {
    match rows.get(id as usize) {
        Some(Some(version)) => if version.is_there {
            Some(version.fields)
        } else {
            None
        },
        _ => None,
    }
}

/// A letter or a number of a row; 0 for NULL.
pub fn small(value: &Value) -> u32 {
    match value {
        Value::Number(number) => if *number > 0 && *number < 1_000 {
            *number as u32
        } else {
            0
        },
        Value::Text(text) => match text.as_bytes() {
            [letter] => u32::from(letter.saturating_sub(b'a')).saturating_add(1),
            _ => 0,
        },
        _ => 0,
    }
}

fn key_of(row: &Row) -> u32 {
    match row.as_slice() {
        [value, ..] => small(value),
        _ => 0,
    }
}

/// What a change makes of a row, and whether it is there then. A column of a row that wasn't there is NULL.
fn changed(before: Option<Fields>, id: u32, change: &Change) -> (bool, Fields) {
    let mut fields = before.unwrap_or(Fields { id, a: 0, b: 0 });
    let What::Set(assignments) = &change.what else {
        return (false, fields);
    };
    for assignment in assignments.as_slice() {
        match assignment.column {
            1 => fields.a = small(&assignment.value),
            2 => fields.b = small(&assignment.value),
            _ => {}
        }
    }
    (true, fields)
}

/// The changes of the batch of a stamp.
fn begun(trail: &Trail, number: u32, wanted: u64) -> Option<&Changes> {
    for place in 0..trail.len() {
        if let Act::Begun {
            table,
            stamp,
            changes,
        } = &trail.entry(place).act
        {
            if table.0 == number && *stamp == wanted {
                return Some(changes);
            }
        }
    }
    None
}

/// The change of a row.
fn change_of(changes: &Changes, id: u32) -> Option<&Change> {
    for change in changes.as_slice() {
        if key_of(&change.row) == id {
            return Some(change);
        }
    }
    None
}

/// Adds what a batch made of some of its rows, which were these before.
fn add_rows(
    changes: &Changes,
    rows: &Rows,
    before: &[Option<Version>],
    at: View,
    place: u64,
    versions: &mut Vec<Version>,
) -> Result<(), AllocError> {
    for row in rows.as_slice() {
        let id = key_of(row);
        if let Some(change) = change_of(changes, id) {
            let (is_there, fields) = changed(row_of(before, id), id, change);
            versions.push(Version {
                table: at.table,
                stamp: at.below,
                place,
                is_there,
                fields,
            })?;
        }
    }
    Ok(())
}

/// Adds what an entry wrote, as the one of this number. A batch may be written in parts.
fn add(
    alloc: Global,
    trail: &Trail,
    entry: &Entry,
    place: u64,
    versions: &mut Vec<Version>,
) -> Result<(), AllocError> {
    let Act::Wrote { table, stamp, rows } = &entry.act else {
        return Ok(());
    };
    let Some(changes) = begun(trail, table.0, *stamp) else {
        return Ok(());
    };
    let at = as_of(table.0, *stamp);
    let before = newest(alloc, versions, at)?;
    add_rows(changes, rows, &before, at, place, versions)
}

/// Adds all that a run wrote.
pub fn add_written(
    alloc: Global,
    trail: &Trail,
    versions: &mut Vec<Version>,
) -> Result<(), AllocError> {
    for place in 0..trail.len() {
        add(alloc, trail, trail.entry(place), place + 1, versions)?;
    }
    Ok(())
}

/// Adds what the run would have written whose step was stopped.
pub fn add_late(
    alloc: Global,
    trail: &Trail,
    late: &Option<Entry>,
    versions: &mut Vec<Version>,
) -> Result<(), AllocError> {
    match late {
        Some(entry) => add(alloc, trail, entry, 0, versions),
        None => Ok(()),
    }
}

/// Lets all versions be those of earlier runs.
pub fn settle(versions: &mut [Version]) {
    for version in versions {
        version.place = 0;
    }
}

/// The greatest stamp that a run drew.
pub fn last_stamp(trail: &Trail) -> u64 {
    let mut last = 0;
    for place in 0..trail.len() {
        match &trail.entry(place).act {
            Act::Begun { stamp, .. }
            | Act::IndexMade { stamp, .. }
            | Act::IndexState { stamp, .. } => last = last.max(*stamp),
            _ => {}
        }
    }
    last
}

/// The numbers of the tables that a run made.
pub fn tables_made(alloc: Global, trail: &Trail) -> Result<Vec<u32>, AllocError> {
    let mut tables = Vec::new(alloc);
    for place in 0..trail.len() {
        if let Act::Made { table, .. } = &trail.entry(place).act {
            tables.push(table.0)?;
        }
    }
    Ok(tables)
}
