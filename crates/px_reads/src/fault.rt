// Why nothing is read.
ghost use Rattle.std.specs.Prelude.{◌≡◌, ◌≢◌, []};
ghost use Rattle.px_file.specs.declared.fault.FileFault.TheVariants as read;
ghost use Rattle.px_reads.specs.inner.Faults.{fault_of};

use crate::ReadFile;
use px_file::FileFault;
use px_sources::GiveFault;

/// What a fault of giving is to one who reads files.
pub(crate) fn given(fault: GiveFault) -> FileFault
    ensures { result ≡ fault_of fault }
{
    match fault {
        GiveFault::ReadFault => FileFault::ReadFault,
        GiveFault::Damaged { file, place } => FileFault::Damaged { file, place },
        GiveFault::Memory => FileFault::Memory,
    }
}

/// The fault of cells that aren't in order, or not of the range: only a disk that gives other bytes than were written has such, and its first file
/// is named. Without a file there are none.
pub(crate) fn disordered(files: &[ReadFile]) -> FileFault
    ensures unread { result ≢ read.ReadFault }
    ensures none { files.now ≡ [] → result ≡ read.Memory }
{
    match files.first() {
        Some(file) => FileFault::Damaged {
            file: file.file.number(),
            place: 0,
        },
        None => FileFault::Memory,
    }
}
