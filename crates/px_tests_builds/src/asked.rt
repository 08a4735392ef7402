// Queries by each path, and whether their answers are exact.
use crate::stands::{Stands, after_entries, is_read};
use px_reply::{Item, Reply, Transcript};
use px_tests_runs::model::{Version, View, as_of};
use px_tests_runs::queries::{Order, Query, Which, is_answer};
use px_trail::{Act, Trail};
use px_values::Row;
use std::alloc::{AllocError, Global};

/// By which path a query is to go: by the table, or by an index, where it can be read.
#[derive(Clone, Copy, PartialEq, Eq)]
pub enum By {
    Table,
    Letter,
    Number,
}

pub fn text_of(by: By) -> &'static str {
    match by {
        By::Table => "SELECT /*+ NO_INDEX */ ID, A, B FROM T;\n",
        By::Letter => "SELECT /*+ INDEX(T T_A) */ ID, A, B FROM T;\n",
        By::Number => "SELECT /*+ INDEX(T T_B) */ ID, B FROM T;\n",
    }
}

/// In which order the rows come at a point below a stamp: that of the index, if it is read there.
pub fn order_of(by: By, stands: Stands, below: u64) -> Order {
    match by {
        By::Letter if is_read(stands.first, below) => Order::ByA,
        By::Number if is_read(stands.second, below) => Order::ByB,
        _ => Order::ById,
    }
}

/// Whether these are exactly the rows in view, in their order.
pub fn is_exact(
    alloc: Global,
    versions: &[Version],
    view: View,
    order: Order,
    rows: &[Row],
) -> Result<bool, AllocError> {
    let query = Query {
        table: 0,
        order,
        which: Which::All,
    };
    is_answer(alloc, versions, view, query, rows)
}

/// A point that a seat opened: which entry of the run tells it, its stamp, and whether it is one as of an SCN.
#[derive(Clone, Copy)]
struct Opening {
    place: u64,
    stamp: u64,
    scn: bool,
}

/// The point that the seat opened from one place to another.
fn opened_by(trail: &Trail, seat: u32, from: u64, to: u64) -> Option<Opening> {
    for place in from..to.min(trail.len()) {
        let entry = trail.entry(place);
        if let Act::Opened { stamp, scn, .. } = &entry.act {
            if entry.seat == seat {
                return Some(Opening {
                    place,
                    stamp: *stamp,
                    scn: *scn,
                });
            }
        }
    }
    None
}

/// Whether nobody but the seat has an entry from one place to another.
fn is_alone(trail: &Trail, seat: u32, from: u64, to: u64) -> bool {
    for place in from..to.min(trail.len()) {
        if trail.entry(place).seat != seat {
            return false;
        }
    }
    true
}

/// What a query is to have seen: as of its SCN all that was ever written at or below the point, and else what was written when its point was opened,
/// if nobody acted meanwhile.
fn view_of(trail: &Trail, table: u32, seat: u32, at: Opening, last: u64) -> Option<View> {
    if at.scn {
        return Some(as_of(table, at.stamp.saturating_add(1)));
    }
    if is_alone(trail, seat, at.place, last) {
        Some(View {
            table,
            below: u64::MAX,
            within: at.place,
        })
    } else {
        None
    }
}

/// What an answer came to.
#[derive(Clone, Copy, PartialEq, Eq)]
pub enum Came {
    /// Nothing is told of it.
    Untold,
    Wrong,
    /// It is exact, by an index or by the table.
    Exact { by_index: bool },
}

/// What the rows of an answer came to, where they are to have this order.
fn judged(
    alloc: Global,
    versions: &[Version],
    view: View,
    order: Order,
    reply: &Reply,
) -> Result<Came, AllocError> {
    let Reply::Rows(rows) = reply else {
        return Ok(Came::Wrong);
    };
    if is_exact(alloc, versions, view, order, rows.as_slice())? {
        Ok(Came::Exact {
            by_index: order != Order::ById,
        })
    } else {
        Ok(Came::Wrong)
    }
}

/// What the answer of a session beside others came to, in a run that began with these indexes.
pub fn answered(
    alloc: Global,
    trail: &Trail,
    stands: Stands,
    versions: &[Version],
    table: u32,
    seat: u32,
    item: &Item,
    by: By,
) -> Result<Came, AllocError> {
    let (first, last) = (item.evidence.first, item.evidence.last);
    let Some(at) = opened_by(trail, seat, first.saturating_sub(1), last) else {
        return Ok(Came::Untold);
    };
    let (Some(view), Reply::Rows(_)) = (view_of(trail, table, seat, at, last), &item.reply) else {
        return Ok(Came::Untold);
    };
    let then = after_entries(stands, trail, at.place);
    let order = order_of(by, then, at.stamp.saturating_add(1));
    judged(alloc, versions, view, order, &item.reply)
}

/// A query that was asked by itself: by which path, below which stamp, and which indexes stood then.
#[derive(Clone, Copy)]
pub struct Ask {
    pub by: By,
    pub below: u64,
    pub stands: Stands,
}

/// What the answer of a query by itself came to.
fn came_to(
    alloc: Global,
    versions: &[Version],
    table: u32,
    item: &Item,
    ask: &Ask,
) -> Result<Came, AllocError> {
    let order = order_of(ask.by, ask.stands, ask.below);
    judged(alloc, versions, as_of(table, ask.below), order, &item.reply)
}

/// How many answers by an index were exact, of a session by itself; none where an answer is wrong. Of a command nothing is asked.
pub fn exact_answers(
    alloc: Global,
    versions: &[Version],
    table: u32,
    transcript: &Transcript,
    asked: &[Option<Ask>],
) -> Result<Option<u64>, AllocError> {
    let items = transcript.items.as_slice();
    if items.len() != asked.len() {
        return Ok(None);
    }
    let mut count: u64 = 0;
    for place in 0..items.len() {
        let Some(Some(ask)) = asked.get(place) else {
            continue;
        };
        match came_to(alloc, versions, table, &items[place], ask)? {
            Came::Exact { by_index: true } => count = count.saturating_add(1),
            Came::Exact { by_index: false } => {}
            _ => return Ok(None),
        }
    }
    Ok(Some(count))
}
