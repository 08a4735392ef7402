// Answers of queries.
use px_values::Row;

/// A row, as its path shows it, and the number of entries after which the table held it.
#[derive(Drop)]
pub struct Placed {
    pub row: Row,
    pub at: u64,
}

/// The rows of an answer, the number of entries when its point was opened, and that when it was closed.
#[derive(Drop)]
pub struct Answer {
    pub rows: Vec<Placed>,
    pub first: u64,
    pub last: u64,
}

/// Why a query wasn't answered.
#[derive(Clone, Copy)]
pub enum QueryFault {
    NoTable,
    BelowHorizon { horizon: u64 },
    /// The chosen path lacks a column that the query names.
    IndexJoin,
    ReadFault,
    WriteFault,
    Damaged { file: u64, place: u64 },
    Closed { call: u64 },
    Memory,
}

/// What one step of a query came to.
#[derive(Drop)]
pub enum QueryTurn {
    Stepped,
    /// The batch of this stamp, at or below the point, isn't written yet.
    Waiting { stamp: u64 },
    Over(Result<Answer, QueryFault>),
}
