// Why a step of a flush isn't made.
ghost use Rattle.std.specs.Prelude.{◌≡◌};
ghost use Rattle.px_flushing.specs.Faults.{append_fault, make_fault, read_fault};

use px_file::MakeFault;
use px_gatelog::{AppendFault, StartFault};

/// Why a step of a flush isn't made.
#[derive(Clone, Copy, Debug, PartialEq, Eq)]
pub enum FlushFault {
    /// The disk failed in a read.
    ReadFault,
    /// The disk failed in a write or a sync.
    WriteFault,
    Memory,
    /// The manifest names as many files as it can, or its segment has no room, or no number of a file is left.
    Full,
    /// The manifest has no open segment, or its next one may be laid out.
    NotReady,
    /// The log isn't what was written to it.
    Damaged,
}

/// What a fault of the log is.
pub(crate) fn of_read(fault: StartFault) -> FlushFault
    ensures { result ≡ read_fault fault }
{
    match fault {
        StartFault::ReadFault => FlushFault::ReadFault,
        StartFault::WriteFault => FlushFault::WriteFault,
        StartFault::Memory => FlushFault::Memory,
        StartFault::Damaged { file: _, place: _ } => FlushFault::Damaged,
    }
}

/// What a fault of the file that is made is.
pub(crate) fn of_make(fault: MakeFault) -> FlushFault
    ensures { result ≡ make_fault fault }
{
    match fault {
        MakeFault::WriteFault => FlushFault::WriteFault,
        MakeFault::Memory => FlushFault::Memory,
        MakeFault::Full => FlushFault::Full,
    }
}

/// What a fault of the manifest is.
pub(crate) fn of_append(fault: AppendFault) -> FlushFault
    ensures { result ≡ append_fault fault }
{
    match fault {
        AppendFault::WriteFault => FlushFault::WriteFault,
        AppendFault::Full => FlushFault::Full,
    }
}
