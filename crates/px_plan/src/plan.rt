// What a query reads.
use px_bind::Hint;
use px_expr::Bound;
use px_ranges::KeyBounds;
use px_tables::KeyPlace;
use px_values::{IndexId, Items, Name};

/// By which keys rows are read.
#[derive(Clone, Copy, PartialEq, Eq)]
pub enum By {
    Table,
    Index(IndexId),
}

/// A query with its path. Columns are places in the table.
#[derive(Drop)]
pub struct Plan {
    pub by: By,
    pub table: Name,
    /// The name of the path's index.
    pub index: Option<Name>,
    /// The keys that are read.
    pub bounds: KeyBounds,
    /// How many leading columns of the path have a value.
    pub equal: u64,
    /// Whether the next one has bounds.
    pub bounded: bool,
    /// The conjuncts that the keys don't tell, in text order.
    pub rest: Items<Bound>,
    /// Whether rows are sorted behind the path.
    pub sort: bool,
    pub shown: Items<u8>,
    pub order: Items<KeyPlace>,
    pub limit: Option<u64>,
}

/// A query whose condition is taken apart: its hints, the columns that it shows, the conjuncts of its condition, its ORDER BY,
/// and its LIMIT. Columns are places in the table.
#[derive(Drop)]
pub struct Asked {
    pub hints: Items<Hint>,
    pub shown: Items<u8>,
    pub conjuncts: Items<Bound>,
    pub order: Items<KeyPlace>,
    pub limit: Option<u64>,
}

/// Why a query has no path.
#[derive(Clone, Copy, PartialEq, Eq)]
pub enum PlanFault {
    /// The hinted index lacks a column that the query names.
    IndexJoin,
    Memory,
}
