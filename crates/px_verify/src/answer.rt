// Answers of reports.
use crate::report::Report;

/// A report, the number of entries when its point was opened, and that when it was closed.
#[derive(Clone, Copy)]
pub struct Reported {
    pub report: Report,
    pub first: u64,
    pub last: u64,
}

/// Why no report was made.
#[derive(Clone, Copy)]
pub enum ReportFault {
    NoTable,
    /// The table's definitions in the point lack the index.
    NoIndex,
    BelowHorizon { horizon: u64 },
    ReadFault,
    Damaged { file: u64, place: u64 },
    Closed { call: u64 },
    Memory,
}

/// What one step of a report came to.
#[derive(Clone, Copy)]
pub enum ReportTurn {
    Stepped,
    /// The batch of this stamp, at or below the point, isn't written yet.
    Waiting { stamp: u64 },
    Over(Result<Reported, ReportFault>),
}
