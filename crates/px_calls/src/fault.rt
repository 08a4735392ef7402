// Why a step did nothing.
use px_values::Limit;

/// Why a step did nothing. Each call answers only those that its clause names.
#[derive(Clone, Copy)]
pub enum StepFault {
    /// A table or an index has the name.
    NameExists,
    NoTable,
    NoIndex,
    /// The counted quantity would pass this number.
    Limit { which: Limit, count: u64 },
    /// The region has so many cells and bytes in its log, and no room for more before it is flushed.
    Busy { region: u32, cells: u64, bytes: u64 },
    /// The region has no open log.
    NotReady { region: u32 },
    /// So many points and batches of the table are open.
    InUse { count: u64 },
    /// The batch of this stamp isn't written yet.
    NotYet { stamp: u64 },
    BelowHorizon { horizon: u64 },
    /// A device call failed in a read.
    ReadFault,
    /// A device call failed in a write, a cut or a sync. The server is closed.
    WriteFault,
    /// The bytes at this place of the file aren't of the format.
    Damaged { file: u64, place: u64 },
    /// This device call failed before, and closed the server.
    Closed { call: u64 },
    /// No memory was found.
    Memory,
}
