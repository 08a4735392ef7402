// Writing base versions.
ghost use Rattle.std.specs.Prelude.{◌≡◌, ◌≢◌, ◌<◌, ◌≤◌, ◌+◌, ◌^◌, Err, OnErr, OnOk, length};
ghost use Rattle.px_keptcells.specs.Kept.{laid};
ghost use Rattle.px_outside.specs.OnDisk.{Rose};
ghost use Rattle.px_region.specs.Promise.{IsAlike, IsSamePromise};
ghost use Rattle.px_region.specs.Region.{read_of};
ghost use Rattle.px_basing.specs.Basing.{Written};
ghost use Rattle.px_basing.specs.Refused.{IsRefusedFor, IsRoomRefused};
ghost use Rattle.px_basing.specs.declared.fault.BaseFault.{BaseFault as Fault};

use crate::BaseFault;
use px_gatelog::Frame;
use px_keptcells::KeptCells;
use px_outside::Disk;
use px_region::{PromiseFault, Region};
use std::alloc::Global;

/// Takes room for so many cells and bytes in a region.
fn take(region: &mut Region, cells: u64, bytes: u64) -> Result<(), BaseFault>
    ensures taken { OnOk result ((region.new.promised ≡ region.old.promised + cells) × (region.new.promised_bytes ≡ region.old.promised_bytes + bytes)) }
    ensures few { OnOk result ((cells ≤ 16384) × (bytes ≤ 16777216)) }
    ensures refused { OnErr result (IsSamePromise region.old region.new) }
    ensures cause { (fault : Fault) → result ≡ Err fault → IsRoomRefused region.old cells bytes fault }
    ensures quiet { result ≢ Err BaseFault.WriteFault }
    ensures alike { IsAlike region.old region.new }
    ensures read { read_of region.new ≡ read_of region.old }
{
    let number = region.number();
    match region.promise(cells, bytes) {
        Ok(()) => Ok(()),
        Err(PromiseFault::Busy { cells, bytes }) => Err(BaseFault::Busy {
            region: number,
            cells,
            bytes,
        }),
        Err(PromiseFault::NotReady) => Err(BaseFault::NotReady { region: number }),
        Err(PromiseFault::Memory) => Err(BaseFault::Memory),
    }
}

/// Writes cells to a region as one record, with room that is taken here.
pub(crate) fn write<D: Disk>(
    alloc: Global,
    disk: &mut D,
    region: &mut Region,
    kept: KeptCells,
) -> Result<(), BaseFault>
    requires some { 1 ≤ length (laid kept) }
    ensures written { Written ⟦<D as Disk>⟧ region.old region.new disk.old disk.new (laid kept) result }
    ensures cause { (fault : Fault) → result ≡ Err fault → IsRefusedFor region.old (laid kept) fault }
    ensures failed { result ≡ Err BaseFault.WriteFault → Rose ⟦<D as Disk>⟧ disk.old disk.new }
{
    let count = kept.count() as u64;
    let bytes = kept.bytes();
    if let Err(fault) = take(region, count, bytes) {
        drop(kept);
        return Err(fault);
    }
    let Ok(mut frame) = Frame::with_room(alloc, 12 + bytes) else {
        drop(kept);
        region.give_back(count, bytes);
        return Err(BaseFault::Memory);
    };
    let applied = region.apply(disk, kept.hand(&[]), &mut frame);
    drop(frame);
    match applied {
        Ok(()) => Ok(()),
        Err(_) => Err(BaseFault::WriteFault),
    }
}
