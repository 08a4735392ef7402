// Why base versions aren't written.

/// Why base versions aren't written.
#[derive(Clone, Copy, Debug, PartialEq, Eq)]
pub enum BaseFault {
    /// So many cells and bytes stand in the log of the index's region or are promised, and those of the base versions would be too many.
    Busy { region: u32, cells: u64, bytes: u64 },
    /// The log of the index's region isn't open, or has no room.
    NotReady { region: u32 },
    /// The disk failed in a write or a sync.
    WriteFault,
    Memory,
}
