// What `status` and `upkeep` answer, and what is ordered of upkeep.
use px_tables::IndexState;
use px_values::{IndexId, Items, Name};

/// An index, and the number of its keys whose newest version is unverified.
#[derive(Drop)]
pub struct IndexCount {
    pub index: IndexId,
    pub name: Name,
    pub state: IndexState,
    pub unverified: u64,
}

pub type IndexCounts = Items<IndexCount>;

/// A table's last stamp and horizon, the cells in its logs that no file has, its files, and its indexes in order of number.
#[derive(Drop)]
pub struct Status {
    pub last: u64,
    pub horizon: u64,
    pub cells: u64,
    pub files: u64,
    pub indexes: IndexCounts,
}

/// Whether a step of upkeep was made, or none was due.
#[derive(Clone, Copy)]
pub enum Work {
    Did,
    Idle,
}

/// What is asked of upkeep before it is due.
#[derive(Clone, Copy)]
pub enum Ordered {
    /// All that stands in the logs of the tables is to be flushed.
    FlushAll,
    /// The horizon of each table is to rise as far as it may, and each of its regions is to forget at it.
    CompactAll,
}
