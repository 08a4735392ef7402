// Writing a repair.
ghost use Rattle.std.specs.Prelude.{◌≡◌, ◌<◌, ◌≤◌, ◌+◌, Err, IfErr, OnErr, OnOk, Some, length, slice_get};
ghost use Rattle.px_keptcells.specs.Kept.{laid};
ghost use Rattle.px_outside.specs.OnDisk.{Rose};
ghost use Rattle.px_region.specs.Promise.{IsAlike, IsSamePromise};
ghost use Rattle.px_region.specs.Region.{read_of};
ghost use Rattle.px_group.specs.declared.group.IndexRegion.{IndexRegion as Part};
ghost use Rattle.px_repairs.specs.Refused.{RefusesCells, RefusesRoom};
ghost use Rattle.px_repairs.specs.Repairs.{Repaired, TellsNoDisk, Written};
ghost use Rattle.px_repairs.specs.declared.repairing.RepairFault.{RepairFault as Fault};

use px_gatelog::Frame;
use px_group::Group;
use px_keptcells::KeptCells;
use px_outside::Disk;
use px_region::{PromiseFault, Region};
use std::alloc::Global;

/// Why a repair isn't made.
#[derive(Clone, Copy, Debug, PartialEq, Eq)]
pub enum RepairFault {
    /// So many cells and bytes stand in the region's log or are promised, and the repair's would be too many.
    Busy { cells: u64, bytes: u64 },
    /// The region's log has no open segment, or no room in it.
    NotReady,
    /// The disk failed in a read.
    ReadFault,
    /// At this place of a file the disk gave what isn't of the format, or what wasn't written there.
    Damaged { file: u64, place: u64 },
    /// The disk failed in a write or a sync.
    WriteFault,
    Memory,
}

/// Takes room for so many cells and bytes in a region.
fn take(region: &mut Region, cells: u64, bytes: u64) -> Result<(), RepairFault>
    ensures taken { OnOk result ((region.new.promised ≡ region.old.promised + cells) × (region.new.promised_bytes ≡ region.old.promised_bytes + bytes)) }
    ensures few { OnOk result ((cells ≤ 16384) × (bytes ≤ 16777216)) }
    ensures refused { OnErr result (IsSamePromise region.old region.new) }
    ensures cause { (fault : Fault) → result ≡ Err fault → RefusesRoom region.old cells bytes fault }
    ensures quiet { IfErr result TellsNoDisk }
    ensures alike { IsAlike region.old region.new }
    ensures read { read_of region.new ≡ read_of region.old }
{
    match region.promise(cells, bytes) {
        Ok(()) => Ok(()),
        Err(PromiseFault::Busy { cells, bytes }) => Err(RepairFault::Busy { cells, bytes }),
        Err(PromiseFault::NotReady) => Err(RepairFault::NotReady),
        Err(PromiseFault::Memory) => Err(RepairFault::Memory),
    }
}

/// Writes cells to a region as one record, with room that is taken here.
fn write<D: Disk>(
    alloc: Global,
    disk: &mut D,
    region: &mut Region,
    kept: KeptCells,
) -> Result<(), RepairFault>
    requires some { 1 ≤ length (laid kept) }
    ensures written { Written ⟦<D as Disk>⟧ region.old region.new disk.old disk.new (laid kept) result }
    ensures cause { (fault : Fault) → result ≡ Err fault → RefusesCells region.old (laid kept) fault }
    ensures failed { result ≡ Err RepairFault.WriteFault → Rose ⟦<D as Disk>⟧ disk.old disk.new }
{
    let count = kept.count() as u64;
    let bytes = kept.bytes();
    if let Err(fault) = take(region, count, bytes) {
        drop(kept);
        return Err(fault);
    }
    let Ok(mut frame) = Frame::with_room(alloc, 12 + bytes) else {
        drop(kept);
        region.give_back(count, bytes);
        return Err(RepairFault::Memory);
    };
    let applied = region.apply(disk, kept.hand(&[]), &mut frame);
    drop(frame);
    match applied {
        Ok(()) => Ok(()),
        Err(_) => Err(RepairFault::WriteFault),
    }
}

/// Writes the cells of a repair to the region of the index at a place, as one record.
///
/// Where there is no room, or no memory, nothing changes. Where the disk fails, no call may follow.
pub fn repair<D: Disk>(
    alloc: Global,
    disk: &mut D,
    group: &mut Group,
    place: usize,
    kept: KeptCells,
) -> Result<(), RepairFault>
    requires there { place < length group.old.indexes.items }
    requires some { 1 ≤ length (laid kept) }
    ensures repaired { Repaired ⟦<D as Disk>⟧ group.old group.new disk.old disk.new place (laid kept) result }
    ensures cause { (fault : Fault) → (x : Part) → result ≡ Err fault → slice_get group.old.indexes.items place ≡ Some x → RefusesCells x.region (laid kept) fault }
    ensures no_row { group.new.rows ≡ group.old.rows }
    ensures failed { result ≡ Err RepairFault.WriteFault → Rose ⟦<D as Disk>⟧ disk.old disk.new }
{
    write(alloc, disk, &mut group.indexes[place].region, kept)
}
