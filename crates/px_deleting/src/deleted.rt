// What a DELETE comes to.
use px_batch::BatchFault;
use px_calls::Receipt;
use px_scan::QueryFault;

/// Why a DELETE didn't remove all of its rows.
#[derive(Clone, Copy)]
pub enum DeleteFault {
    /// They weren't found, and so none was removed.
    Unread(QueryFault),
    /// One of its batches wasn't made.
    Unmade(BatchFault),
}

/// The number of rows that were removed, and that of entries when the point was opened at which they were found.
#[derive(Clone, Copy)]
pub struct Removed {
    pub rows: u64,
    pub first: u64,
}

/// The receipts of the batches that were finished, in order, and whether these were all.
#[derive(Drop)]
pub struct Deleted {
    pub receipts: Vec<Receipt>,
    pub end: Result<Removed, DeleteFault>,
}

/// What one step of a DELETE came to.
#[derive(Drop)]
pub enum DeleteTurn {
    Stepped,
    /// The batch of this stamp is pending on a row of the one under way.
    Waiting { stamp: u64 },
    Over(Deleted),
}
