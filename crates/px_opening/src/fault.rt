// Why a folder isn't opened.
ghost use Rattle.std.specs.Prelude.{◌≡◌};
ghost use Rattle.px_opening.specs.declared.fault.OpenFault.TheVariants.{Memory};
ghost use Rattle.px_opening.specs.inner.Faults.{of_start};

use px_gatelog::StartFault;
use std::alloc::AllocError;

/// Why a folder isn't opened.
#[derive(Clone, Copy, Debug, PartialEq, Eq)]
pub enum OpenFault {
    /// The disk failed in a read.
    ReadFault,
    /// The disk failed in a write or a sync.
    WriteFault,
    /// A place of a file that isn't of the format.
    Damaged { file: u64, place: u64 },
    Memory,
}

impl From<StartFault> for OpenFault {
    ghost from_gives = { λ fault own. own ≡ of_start fault };

    fn from(fault: StartFault) -> OpenFault {
        match fault {
            StartFault::ReadFault => OpenFault::ReadFault,
            StartFault::WriteFault => OpenFault::WriteFault,
            StartFault::Damaged { file, place } => OpenFault::Damaged { file, place },
            StartFault::Memory => OpenFault::Memory,
        }
    }
}

impl From<AllocError> for OpenFault {
    ghost from_gives = { λ _ fault. fault ≡ Memory };

    fn from(_fault: AllocError) -> OpenFault {
        OpenFault::Memory
    }
}
