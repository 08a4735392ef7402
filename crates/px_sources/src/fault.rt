// Why cells aren't given.
ghost use Rattle.std.specs.Prelude.{◌≡◌};
ghost use Rattle.px_sources.specs.Faults.{fault_of};

use px_file::FileFault;

/// Why cells aren't given.
#[derive(Clone, Copy, Debug, PartialEq, Eq)]
pub enum GiveFault {
    /// The disk failed in a read.
    ReadFault,
    /// The first place of a block that isn't of the format.
    Damaged { file: u64, place: u64 },
    Memory,
}

/// What a fault of a file is to one who is given cells.
pub(crate) fn given(fault: FileFault) -> GiveFault
    ensures { result ≡ fault_of fault }
{
    match fault {
        FileFault::ReadFault => GiveFault::ReadFault,
        FileFault::Damaged { file, place } => GiveFault::Damaged { file, place },
        FileFault::Memory => GiveFault::Memory,
    }
}
