// Why a call on a region is refused.

/// Why no room is promised.
#[derive(Clone, Copy, Debug, PartialEq, Eq)]
pub enum PromiseFault {
    /// So many cells and bytes stand in the log or are promised, and those asked for would be too many.
    Busy { cells: u64, bytes: u64 },
    /// The log has no open segment, or no room in it.
    NotReady,
    Memory,
}

/// Why a row or a range isn't given.
#[derive(Clone, Copy, Debug, PartialEq, Eq)]
pub enum LookFault {
    /// The disk failed in a read.
    ReadFault,
    /// At this place of a file the disk gave what isn't of the format, or what wasn't written there.
    Damaged { file: u64, place: u64 },
    Memory,
}

/// Why a step of a job isn't made.
#[derive(Clone, Copy, Debug, PartialEq, Eq)]
pub enum JobFault {
    /// The disk failed in a write or a sync, or in a read of the log that is flushed.
    WriteFault,
    /// No memory was found, or no generation of a segment is left.
    Memory,
}
