// Base versions of rows, from their cells to the write.
ghost use Rattle.std.specs.Prelude.{◌≡◌, ◌≢◌, ◌<◌, [], Err, IfOk, length, slice_get, Some};
ghost use Rattle.px_outside.specs.OnDisk.{Rose};
ghost use Rattle.px_group.specs.Group.{IsRightGroup};
ghost use Rattle.px_group.specs.declared.group.IndexRegion.{IndexRegion as Part};
ghost use Rattle.px_baserows.specs.Rows.{AreBaseRows, owners_in};
ghost use Rattle.px_basing.specs.Basing.{Bases, base_cells_of};
ghost use Rattle.px_basing.specs.Refused.{IsRefusedFor};
ghost use Rattle.px_basing.specs.declared.fault.BaseFault.{BaseFault as Fault};

use crate::BaseFault;
use crate::writing::write;
use px_baserows::{base_versions, owners_of};
use px_calls::BaseRow;
use px_group::Group;
use px_outside::Disk;
use px_values::Rows;
use std::alloc::Global;

/// Writes the base versions of rows to the region of the index at a place, as one record at the birth of the index, and gives the primary keys
/// of the rows.
///
/// It takes at most 255 cells for a row. Where there is no room (`Busy`, `NotReady`), or no memory, nothing changes. Where the disk fails, no call
/// may follow.
pub fn base<D: Disk>(
    alloc: Global,
    disk: &mut D,
    group: &mut Group,
    place: usize,
    rows: &[BaseRow],
) -> Result<Rows, BaseFault>
    requires right { IsRightGroup group.old }
    requires there { place < length group.old.indexes.items }
    requires some { rows.now ≢ [] }
    requires rows { (x : Part) → slice_get group.old.indexes.items place ≡ Some x → AreBaseRows group.old.table x.index rows.now }
    ensures bases { Bases ⟦<D as Disk>⟧ group.old group.new disk.old disk.new place rows.now result }
    ensures owners { IfOk result (λ owners. owners ≡ owners_in group.old.table rows.now) }
    ensures cause { (fault : Fault) → (x : Part) → result ≡ Err fault → slice_get group.old.indexes.items place ≡ Some x → IsRefusedFor x.region (base_cells_of group.old x rows.now) fault }
    ensures failed { result ≡ Err BaseFault.WriteFault → Rose ⟦<D as Disk>⟧ disk.old disk.new }
{
    let part = &group.indexes[place];
    let Ok(owners) = owners_of(alloc, &group.table, rows) else {
        return Err(BaseFault::Memory);
    };
    let birth = part.index.birth;
    let Ok(kept) = base_versions(alloc, &group.table, &part.index, rows, birth) else {
        drop(owners);
        return Err(BaseFault::Memory);
    };
    match write(alloc, disk, &mut group.indexes[place].region, kept) {
        Ok(()) => Ok(owners),
        Err(fault) => {
            drop(owners);
            Err(fault)
        }
    }
}
