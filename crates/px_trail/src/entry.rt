// The entries of the trail.
use px_tables::{IndexState, NewIndex, NewTable};
use px_values::{Changes, IndexId, Key, Rows, TableId};

/// What an entry says. A batch is named by its table and its stamp.
#[derive(Drop)]
pub enum Act {
    /// The table was made.
    Made {
        table: TableId,
        what: NewTable,
    },
    /// The index was made, and is being built from this stamp on.
    IndexMade {
        table: TableId,
        index: IndexId,
        stamp: u64,
        what: NewIndex,
    },
    /// The index is in this state. One that is building again has a new birth, which is the stamp.
    IndexState {
        table: TableId,
        index: IndexId,
        state: IndexState,
        stamp: u64,
    },
    /// The index was dropped, or the table with all of its indexes.
    Dropped {
        table: TableId,
        index: Option<IndexId>,
    },
    /// The batch began, with these changes.
    Begun {
        table: TableId,
        stamp: u64,
        changes: Changes,
    },
    /// This phase of the batch is done: 1 where all its index rows are marked, 3 where those of rows that no other
    /// batch changed are verified.
    Phase {
        table: TableId,
        stamp: u64,
        phase: u8,
    },
    /// These rows of the batch, each by its primary key values, were written.
    Wrote {
        table: TableId,
        stamp: u64,
        rows: Rows,
    },
    /// The batch ended.
    Ended {
        table: TableId,
        stamp: u64,
    },
    /// A point was opened at the stamp: of a current query, or where `scn` of one as of that stamp.
    Opened {
        table: TableId,
        stamp: u64,
        scn: bool,
    },
    /// Such a point was closed.
    Released {
        table: TableId,
        stamp: u64,
    },
    /// The horizon rose: older versions may be forgotten.
    Raised {
        table: TableId,
        horizon: u64,
    },
    /// The version of an index row was repaired.
    Fixed {
        index: IndexId,
        key: Key,
    },
    /// The index got verified versions of these rows, each by its primary key values, at its birth.
    Based {
        index: IndexId,
        rows: Rows,
    },
    /// This device call failed, and was a read.
    Missed {
        call: u64,
    },
    /// This device call failed, and its failure closed the server.
    Shut {
        call: u64,
    },
}

/// An entry, with the seat that made it and the number of device calls finished before it.
#[derive(Drop)]
pub struct Entry {
    pub seat: u32,
    pub calls: u64,
    pub act: Act,
}
