// What a batch's steps take and answer.
use px_values::{Rows, TableId};

/// The right to go on with one batch. It must be spent, by `end` or `abandon`.
pub struct Ticket {
    pub table: TableId,
    pub stamp: u64,
}

/// What is known of a batch that has ended.
#[derive(Drop)]
pub struct Receipt {
    pub table: TableId,
    pub stamp: u64,
    /// The number of its rows.
    pub rows: u32,
    /// The rows on which another batch was pending meanwhile, each by its primary key values.
    pub concurrent: Rows,
    /// The device call whose failure closed the server before all index rows were verified.
    pub unfinished: Option<u64>,
    pub at: u64,
}

/// How far phase 1 is.
#[derive(Clone, Copy)]
pub enum Marks {
    More,
    AllMarked,
}

/// How far phase 2 is.
#[derive(Clone, Copy)]
pub enum Writes {
    More,
    AllWritten,
}

/// How far phase 3 is.
#[derive(Clone, Copy)]
pub enum Verifies {
    More,
    Done,
}
