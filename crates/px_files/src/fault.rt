// Why files aren't opened.
ghost use Rattle.std.specs.Prelude.{◌≡◌};
ghost use Rattle.px_files.specs.Faults.{start_fault};

use px_file::FileFault;
use px_gatelog::StartFault;

/// What a fault of a file is to one who opens a region.
pub fn fault_of(fault: FileFault) -> StartFault
    ensures { result ≡ start_fault fault }
{
    match fault {
        FileFault::ReadFault => StartFault::ReadFault,
        FileFault::Damaged { file, place } => StartFault::Damaged { file, place },
        FileFault::Memory => StartFault::Memory,
    }
}
