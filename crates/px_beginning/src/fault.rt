// Why a batch doesn't begin.
ghost use Rattle.std.specs.Prelude.{◌≡◌};

use px_region::LookFault;
use px_values::Limit;
use std::alloc::AllocError;

/// Why a batch doesn't begin.
#[derive(Clone, Copy)]
pub enum BeginFault {
    /// A limit of a batch is passed: KEY, CELLS or BYTES.
    Limit(Limit),
    /// The region has no open log, or no room in it.
    NotReady { region: u32 },
    /// So many cells and bytes stand in the region's log or are promised, and those of the batch would be too many.
    Busy { region: u32, cells: u64, bytes: u64 },
    /// The disk failed in a read.
    ReadFault,
    /// At this place of a file the disk gave what isn't of the format, or what wasn't written there.
    Damaged { file: u64, place: u64 },
    Memory,
}

impl From<AllocError> for BeginFault {
    ghost use Rattle.px_beginning.specs.declared.fault.BeginFault.{BeginFault};

    ghost from_gives = { λ e f. f ≡ BeginFault.Memory };

    fn from(error: AllocError) -> BeginFault {
        BeginFault::Memory
    }
}

impl From<LookFault> for BeginFault {
    ghost use Rattle.px_beginning.specs.Faults.{begin_fault_of};

    ghost from_gives = { λ e f. f ≡ begin_fault_of e };

    fn from(fault: LookFault) -> BeginFault {
        match fault {
            LookFault::ReadFault => BeginFault::ReadFault,
            LookFault::Damaged { file, place } => BeginFault::Damaged { file, place },
            LookFault::Memory => BeginFault::Memory,
        }
    }
}
