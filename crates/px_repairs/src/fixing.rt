// A repair, from the look to the write.
ghost use Rattle.std.specs.Prelude.{◌≡◌, ◌≢◌, ◌<◌, ◌≤◌, ◌+◌, ℕ, Err, Some, length, slice_get};
ghost use Rattle.px_outside.specs.OnDisk.{Rose};
ghost use Rattle.px_group.specs.Group.{IsRightGroup};
ghost use Rattle.px_group.specs.declared.group.IndexRegion.{IndexRegion as Part};
ghost use Rattle.px_repairs.specs.Refused.{RefusesRepair};
ghost use Rattle.px_repairs.specs.Repairs.{Fixes, repair_fault_of};
ghost use Rattle.px_repairs.specs.declared.repairing.RepairFault.{RepairFault as Fault};

use crate::judging::{Judged, judge};
use crate::repairing::{RepairFault, repair};
use px_calls::Fixing;
use px_group::Group;
use px_outside::Disk;
use px_region::LookFault;
use std::alloc::Global;

/// Why a repair isn't made where the index or the row isn't read.
fn unread(fault: LookFault) -> RepairFault
    ensures { result ≡ repair_fault_of fault }
{
    match fault {
        LookFault::ReadFault => RepairFault::ReadFault,
        LookFault::Damaged { file, place } => RepairFault::Damaged { file, place },
        LookFault::Memory => RepairFault::Memory,
    }
}

/// Repairs the version of a stamp at a key of the index at a place, by a verdict of its own.
///
/// Where it is refused for want of room or memory, or since a read failed, nothing changes. Where a write fails, no call may follow.
pub fn fix<D: Disk>(
    alloc: Global,
    disk: &mut D,
    group: &mut Group,
    place: usize,
    key: &[u8],
    stamp: u64,
) -> Result<Fixing, RepairFault>
    requires right { IsRightGroup group.old }
    requires there { place < length group.old.indexes.items }
    ensures fixes { Fixes ⟦<D as Disk>⟧ group.old group.new disk.old disk.new place key.now stamp result }
    ensures cause { (fault : Fault) → (x : Part) → result ≡ Err fault → slice_get group.old.indexes.items place ≡ Some x → RefusesRepair group.old place x key.now stamp fault }
    ensures counted { group.new.rows.looked ≤ group.old.rows.looked + 1 }
    ensures undamaged { (file at : ℕ) → result ≢ Err (RepairFault.Damaged file at) }
    ensures read_failed { result ≡ Err RepairFault.ReadFault → Rose ⟦<D as Disk>⟧ disk.old disk.new }
    ensures failed { result ≡ Err RepairFault.WriteFault → Rose ⟦<D as Disk>⟧ disk.old disk.new }
{
    match judge(alloc, disk, group, place, key, stamp) {
        Ok(Judged::Gone) => Ok(Fixing::Gone),
        Ok(Judged::InFlight) => Ok(Fixing::InFlight),
        Ok(Judged::Due(kept)) => match repair(alloc, disk, group, place, kept) {
            Ok(()) => Ok(Fixing::Fixed),
            Err(fault) => Err(fault),
        },
        Err(fault) => Err(unread(fault)),
    }
}
