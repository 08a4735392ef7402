// What a query's steps take and answer.
use px_tables::Found;
use px_values::{IndexId, Items, Key, Row, TableId};

/// By which row keys a table is read: its own, or those of an index.
#[derive(Clone, Copy)]
pub enum By {
    Table,
    Index(IndexId),
}

/// The keys from `low` on and below `high`.
#[derive(Drop)]
pub struct Path {
    pub by: By,
    pub low: Key,
    pub high: Option<Key>,
}

/// The right to read a table as of a stamp, or of a current point as it is at each step. It must be spent, by `close_point`.
pub struct Point {
    pub table: TableId,
    pub stamp: u64,
    pub scn: bool,
    /// The table's definitions at the step that opened the point.
    pub found: Found,
}

/// A row that a path shows, with NULL in the columns that the path's index doesn't hold.
#[derive(Drop)]
pub struct FoundRow {
    pub key: Key,
    pub row: Row,
}

/// A row of a table as it was when an index was born, with its key in the index.
#[derive(Drop)]
pub struct BaseRow {
    pub key: Key,
    pub row: Row,
}

pub type BaseRows = Items<BaseRow>;

/// What is to be done with the version of an index row.
#[derive(Clone, Copy)]
pub enum Verdict {
    Verify,
    Retire,
    Erase,
    Leave,
}

/// The unverified version of an index row.
#[derive(Drop)]
pub struct Doubt {
    pub index: IndexId,
    pub key: Key,
    pub stamp: u64,
    pub verdict: Option<Verdict>,
}

/// A key of a path, with its row or in doubt.
#[derive(Drop)]
pub enum FoundKey {
    Sure(FoundRow),
    InDoubt(Doubt),
}

/// The next keys of a path, in order. There are more exactly where `next` is there, as the last of them.
#[derive(Drop)]
pub struct Chunk {
    pub found: Items<FoundKey>,
    pub next: Option<Key>,
    pub at: u64,
}

/// The whole row of a doubt, where its index key is the doubt's.
#[derive(Drop)]
pub struct Held {
    pub row: Row,
    pub at: u64,
}

/// What became of a repair: it was made, the version no longer stands unverified, or its change is still under way.
#[derive(Clone, Copy)]
pub enum Fixing {
    Fixed,
    Gone,
    InFlight,
}
