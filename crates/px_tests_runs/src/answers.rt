// Whether a session's answers are right by what had been written.
use crate::model::{Version, View, as_of};
use crate::queries::{QUERIES, is_answer};
use px_reply::{Item, Reply, Transcript};
use px_trail::{Act, Trail};
use std::alloc::{AllocError, Global};

/// Whether nobody but the seat has an entry from one place to another.
fn is_alone(trail: &Trail, seat: u32, from: u64, to: u64) -> bool {
    for place in from..to.min(trail.len()) {
        if trail.entry(place).seat != seat {
            return false;
        }
    }
    true
}

/// The stamp of the point as of an SCN that the seat opened from one place to another.
fn dated(trail: &Trail, seat: u32, from: u64, to: u64) -> Option<u64> {
    for place in from..to.min(trail.len()) {
        let entry = trail.entry(place);
        if let Act::Opened {
            stamp,
            scn: true,
            ..
        } = &entry.act
        {
            if entry.seat == seat {
                return Some(*stamp);
            }
        }
    }
    None
}

/// What a query is to have seen of a table: as of its SCN all that was ever written at or below the point, and else what was written when its
/// point was opened, if nobody acted meanwhile. The evidence begins behind the entry of the opening.
fn view_of(trail: &Trail, seat: u32, item: &Item, table: u32) -> Option<View> {
    let (first, last) = (item.evidence.first, item.evidence.last);
    let opening = first.saturating_sub(1);
    if let Some(stamp) = dated(trail, seat, opening, last) {
        return Some(as_of(table, stamp.saturating_add(1)));
    }
    if is_alone(trail, seat, opening, last) {
        Some(View {
            table,
            below: u64::MAX,
            within: first,
        })
    } else {
        None
    }
}

/// Whether a query was answered right; none where nothing is told of it.
pub fn answered(
    alloc: Global,
    trail: &Trail,
    versions: &[Version],
    seat: u32,
    item: &Item,
    asked: usize,
    tables: &[u32],
) -> Result<Option<bool>, AllocError> {
    let (Reply::Rows(rows), Some(query)) = (&item.reply, QUERIES.get(asked)) else {
        return Ok(None);
    };
    let Some(table) = tables.get(query.table) else {
        return Ok(None);
    };
    match view_of(trail, seat, item, *table) {
        Some(view) => Ok(Some(is_answer(alloc, versions, view, *query, rows.as_slice())?)),
        None => Ok(None),
    }
}

/// How many answers were found right; none where one is wrong. Each query stands behind a command.
fn counted(
    alloc: Global,
    trail: &Trail,
    versions: &[Version],
    transcript: &Transcript,
    asked: &[usize],
    tables: &[u32],
) -> Result<Option<u64>, AllocError> {
    let mut count: u64 = 0;
    let items = transcript.items.as_slice();
    for place in 0..items.len() {
        if place % 2 == 0 {
            continue;
        }
        let Some(query) = asked.get(place / 2) else {
            return Ok(None);
        };
        let (seat, item) = (transcript.session, &items[place]);
        match answered(alloc, trail, versions, seat, item, *query, tables)? {
            Some(true) => count = count.saturating_add(1),
            Some(false) => return Ok(None),
            None => {}
        }
    }
    Ok(Some(count))
}

/// How many answers of that session were found right; none where one is wrong.
pub fn right_answers(
    alloc: Global,
    trail: &Trail,
    versions: &[Version],
    transcripts: &[Transcript],
    session: u32,
    asked: &[usize],
    tables: &[u32],
) -> Result<Option<u64>, AllocError> {
    for transcript in transcripts {
        if transcript.session == session {
            return counted(alloc, trail, versions, transcript, asked, tables);
        }
    }
    Ok(Some(0))
}

/// Whether an item of a list of all queries is right: each list is behind a command, and is as of one more than the list before.
fn is_right_item(
    alloc: Global,
    versions: &[Version],
    item: &Item,
    place: usize,
    last: u64,
    tables: &[u32],
) -> Result<bool, AllocError> {
    let lists = QUERIES.len() + 1;
    let below = place as u64 / lists as u64 + 1;
    let (Some(within), Reply::Rows(rows)) = ((place % lists).checked_sub(1), &item.reply) else {
        return Ok(place % lists == 0);
    };
    let Some(query) = QUERIES.get(within) else {
        return Ok(false);
    };
    let table = match tables.get(query.table) {
        Some(table) => *table,
        None => 0,
    };
    let view = as_of(table, if below > last { u64::MAX } else { below });
    is_answer(alloc, versions, view, *query, rows.as_slice())
}

/// Whether all queries as of each SCN to the last one, and then without one, are answered right.
pub fn are_right(
    alloc: Global,
    versions: &[Version],
    transcripts: &[Transcript],
    last: u64,
    tables: &[u32],
) -> Result<bool, AllocError> {
    let [transcript] = transcripts else {
        return Ok(false);
    };
    let items = transcript.items.as_slice();
    for place in 0..items.len() {
        if !is_right_item(alloc, versions, &items[place], place, last, tables)? {
            return Ok(false);
        }
    }
    let lists = last.saturating_add(1);
    Ok(items.len() as u64 == lists.saturating_mul(QUERIES.len() as u64 + 1))
}

/// The query of each table by the table alone.
const BY_TABLE: [usize; 3] = [0, 8, 12];

/// Whether the newest rows of each table are answered, by three queries.
pub fn are_rows(
    alloc: Global,
    versions: &[Version],
    transcripts: &[Transcript],
    tables: &[u32],
) -> Result<bool, AllocError> {
    let [transcript] = transcripts else {
        return Ok(false);
    };
    let items = transcript.items.as_slice();
    for place in 0..BY_TABLE.len() {
        let (Some(item), Some(query)) = (items.get(place), QUERIES.get(BY_TABLE[place])) else {
            return Ok(false);
        };
        let (Reply::Rows(rows), Some(table)) = (&item.reply, tables.get(place)) else {
            return Ok(false);
        };
        let view = as_of(*table, u64::MAX);
        if !is_answer(alloc, versions, view, *query, rows.as_slice())? {
            return Ok(false);
        }
    }
    Ok(true)
}
