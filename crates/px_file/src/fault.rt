// Why a file isn't made or read.
ghost use Rattle.std.specs.Prelude.{◌≡◌};
ghost use Rattle.px_file.specs.declared.fault.MakeFault.TheVariants.{WriteFault, Memory};
ghost use Rattle.px_file.specs.declared.fault.FileFault.TheVariants.{ReadFault, Memory as NoMemory};

use px_outside::Failed;
use std::alloc::AllocError;

/// Why a file isn't made.
#[derive(Clone, Copy, Debug, PartialEq, Eq)]
pub enum MakeFault {
    /// The file has as many blocks as its footer can count.
    Full,
    /// The disk failed in a write, a cut or a sync.
    WriteFault,
    Memory,
}

/// Why a file isn't read.
#[derive(Clone, Copy, Debug, PartialEq, Eq)]
pub enum FileFault {
    /// The disk failed in a read.
    ReadFault,
    /// The first place of a file that isn't of the format.
    Damaged { file: u64, place: u64 },
    Memory,
}

impl From<Failed> for MakeFault {
    ghost from_gives = { λ _ fault. fault ≡ WriteFault };

    fn from(_fault: Failed) -> MakeFault {
        MakeFault::WriteFault
    }
}

impl From<AllocError> for MakeFault {
    ghost from_gives = { λ _ fault. fault ≡ Memory };

    fn from(_fault: AllocError) -> MakeFault {
        MakeFault::Memory
    }
}

impl From<Failed> for FileFault {
    ghost from_gives = { λ _ fault. fault ≡ ReadFault };

    fn from(_fault: Failed) -> FileFault {
        FileFault::ReadFault
    }
}

impl From<AllocError> for FileFault {
    ghost from_gives = { λ _ fault. fault ≡ NoMemory };

    fn from(_fault: AllocError) -> FileFault {
        FileFault::Memory
    }
}
