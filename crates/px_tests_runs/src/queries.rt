// Queries through each index, and whether an answer is right by the dated rows.
use crate::model::{Fields, Version, View, newest, row_of, small};
use px_values::Row;
use std::alloc::{AllocError, Global};

/// Keys, letters and numbers are below it.
const WIDTH: u32 = 1_000;

/// In which order a query gives its rows: that of the table's keys, or of an index's. B descends where it is the only one, and A where it is the second.
#[derive(Clone, Copy, PartialEq, Eq)]
pub enum Order {
    ById,
    ByA,
    ByB,
    ByAB,
    ByBA,
}

/// Which rows it gives.
#[derive(Clone, Copy)]
pub enum Which {
    All,
    LetterB,
    NumberTwo,
    Both,
}

/// A query: of which table, in which order, and of which rows.
#[derive(Clone, Copy)]
pub struct Query {
    pub table: usize,
    pub order: Order,
    pub which: Which,
}

/// The texts of all queries, one a line: by each table, by each index under a hint, and by what is chosen without one.
pub const TEXTS: &str = "SELECT /*+ NO_INDEX */ ID, A, B FROM T;
SELECT /*+ INDEX(T T_A) */ ID, A, B FROM T;
SELECT /*+ INDEX(T T_B) */ ID, A, B FROM T;
SELECT /*+ INDEX(T T_AB) */ ID, A, B FROM T;
SELECT /*+ INDEX(T T_BA) */ ID, A, B FROM T;
SELECT ID, A, B FROM T WHERE A = 'b' ORDER BY ID;
SELECT ID, A, B FROM T WHERE B = 2 ORDER BY ID;
SELECT /*+ INDEX(T T_AB) */ ID, A, B FROM T WHERE A = 'b' AND B > 1;
SELECT /*+ NO_INDEX */ ID, A, B FROM U;
SELECT /*+ INDEX(U U_A) */ ID, A, B FROM U;
SELECT /*+ INDEX(U U_BA) */ ID, A, B FROM U;
SELECT ID, A, B FROM U WHERE A = 'b';
SELECT /*+ NO_INDEX */ ID, A, B FROM V;
SELECT /*+ INDEX(V V_B) */ ID, A, B FROM V;
SELECT ID, A, B FROM V WHERE B = 2;
";

/// What each of them gives.
pub const QUERIES: [Query; 15] = [
    Query {
        table: 0,
        order: Order::ById,
        which: Which::All,
    },
    Query {
        table: 0,
        order: Order::ByA,
        which: Which::All,
    },
    Query {
        table: 0,
        order: Order::ByB,
        which: Which::All,
    },
    Query {
        table: 0,
        order: Order::ByAB,
        which: Which::All,
    },
    Query {
        table: 0,
        order: Order::ByBA,
        which: Which::All,
    },
    Query {
        table: 0,
        order: Order::ById,
        which: Which::LetterB,
    },
    Query {
        table: 0,
        order: Order::ById,
        which: Which::NumberTwo,
    },
    Query {
        table: 0,
        order: Order::ByAB,
        which: Which::Both,
    },
    Query {
        table: 1,
        order: Order::ById,
        which: Which::All,
    },
    Query {
        table: 1,
        order: Order::ByA,
        which: Which::All,
    },
    Query {
        table: 1,
        order: Order::ByBA,
        which: Which::All,
    },
    Query {
        table: 1,
        order: Order::ById,
        which: Which::LetterB,
    },
    Query {
        table: 2,
        order: Order::ById,
        which: Which::All,
    },
    Query {
        table: 2,
        order: Order::ByB,
        which: Which::All,
    },
    Query {
        table: 2,
        order: Order::ById,
        which: Which::NumberTwo,
    },
];

fn is_among(which: Which, row: Fields) -> bool {
    match which {
        Which::All => true,
        Which::LetterB => row.a == 2,
        Which::NumberTwo => row.b == 2,
        Which::Both => row.a == 2 && row.b > 1,
    }
}

/// A number of three others that is greater the greater the first of them is that differs.
fn joined(first: u32, second: u32, third: u32) -> u32 {
    first
        .saturating_mul(WIDTH)
        .saturating_add(second)
        .saturating_mul(WIDTH)
        .saturating_add(third)
}

fn descending(value: u32) -> u32 {
    WIDTH.saturating_sub(1).saturating_sub(value)
}

/// The place of a row in an order: it rises with the row's values there. NULL is least.
fn rank(order: Order, row: Fields) -> u32 {
    match order {
        Order::ById => row.id,
        Order::ByA => joined(0, row.a, row.id),
        Order::ByB => joined(0, descending(row.b), row.id),
        Order::ByAB => joined(row.a, row.b, row.id),
        Order::ByBA => joined(row.b, descending(row.a), row.id),
    }
}

/// What an answer shows of a row. Some show no letter.
#[derive(Clone, Copy)]
struct Shown {
    id: u32,
    a: Option<u32>,
    b: u32,
}

fn shown_in(row: &Row) -> Option<Shown> {
    match row.as_slice() {
        [id, a, b] => Some(Shown {
            id: small(id),
            a: Some(small(a)),
            b: small(b),
        }),
        [id, b] => Some(Shown {
            id: small(id),
            a: None,
            b: small(b),
        }),
        _ => None,
    }
}

fn is_shown(row: Fields, shown: Shown) -> bool {
    row.b == shown.b
        && match shown.a {
            Some(a) => row.a == a,
            None => true,
        }
}

/// The row of a key among those that are left, where the query gives it.
fn given(left: &[Option<Version>], which: Which, id: u32) -> Option<Fields> {
    let row = row_of(left, id)?;
    if is_among(which, row) {
        Some(row)
    } else {
        None
    }
}

/// Takes the row that is answered out of those that are left, and gives its rank; none where it isn't there, or is another.
fn take(left: &mut [Option<Version>], query: Query, answered: &Row) -> Option<u32> {
    let shown = shown_in(answered)?;
    let row = given(left, query.which, shown.id)?;
    if !is_shown(row, shown) {
        return None;
    }
    if let Some(slot) = left.get_mut(shown.id as usize) {
        *slot = None;
    }
    Some(rank(query.order, row))
}

/// Whether the query gives none of those that are left.
fn are_all_taken(left: &[Option<Version>], which: Which) -> bool {
    for slot in left {
        if let Some(version) = slot {
            if version.is_there && is_among(which, version.fields) {
                return false;
            }
        }
    }
    true
}

/// Whether these are exactly the rows in view that the query gives, in its order.
pub fn is_answer(
    alloc: Global,
    versions: &[Version],
    view: View,
    query: Query,
    rows: &[Row],
) -> Result<bool, AllocError> {
    let mut left = newest(alloc, versions, view)?;
    let mut from = 0;
    for row in rows {
        match take(&mut left, query, row) {
            Some(rank) if rank >= from => from = rank.saturating_add(1),
            _ => return Ok(false),
        }
    }
    Ok(are_all_taken(&left, query.which))
}
