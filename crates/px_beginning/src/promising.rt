// The room that a batch takes, in each region or in none.
ghost use Rattle.std.specs.Prelude.{◌≡◌, Err, length, OnOk, OnErr, ◌≤◌};
ghost use Rattle.px_region.specs.Promise.{IsAlike, IsSamePromise};
ghost use Rattle.px_beginning.specs.declared.fault.BeginFault.{BeginFault as Fault};
ghost use Rattle.px_beginning.specs.Leaves.{IsTaken, KeepsRooms, LeavesGroup, TakesRooms};
ghost use Rattle.px_beginning.specs.Refused.{IsRefusedAt, IsRefusedFrom, IsRefusedOf};
ghost use Rattle.px_beginning.specs.inner.Places.{AreLike, SamePromised, StayBelow, TakenFrom};

use crate::{BeginFault, Prepared, Room};
use px_group::{Group, IndexRegion};
use px_region::{PromiseFault, Region};

/// Takes the room for a batch: in the data region, then in the region of each index, and a place among the batches. Where it is
/// refused, what was taken is given back.
pub fn promise(group: &mut Group, prepared: &Prepared) -> Result<(), BeginFault>
    requires { length prepared.now.indexes.items ≡ length group.old.indexes.items }
    ensures taken { OnOk result (TakesRooms group.old group.new prepared.now) }
    ensures refused { OnErr result (KeepsRooms group.old group.new) }
    ensures cause { (fault : Fault) → result ≡ Err fault → IsRefusedOf group.old prepared.now fault }
    ensures leaves { LeavesGroup group.old group.new }
{
    if group.batches.reserve(1).is_err() {
        return Err(BeginFault::Memory);
    }
    if let Err(fault) = take(&mut group.rows, prepared.rows) {
        return Err(fault);
    }
    match take_from(group.indexes.as_mut_slice(), prepared.indexes.as_slice(), 0) {
        Ok(()) => Ok(()),
        Err(fault) => {
            give(&mut group.rows, prepared.rows);
            Err(fault)
        }
    }
}

/// Takes room in the region of each index from a place on, or in none of them.
fn take_from(indexes: &mut [IndexRegion], rooms: &[Room], place: usize) -> Result<(), BeginFault>
    requires count { length rooms.now ≡ length indexes.old }
    ensures like { AreLike indexes.old indexes.new }
    ensures below { StayBelow place indexes.old indexes.new }
    ensures taken { OnOk result (TakenFrom place indexes.old indexes.new rooms.now) }
    ensures refused { OnErr result (SamePromised indexes.old indexes.new) }
    ensures cause { (fault : Fault) → result ≡ Err fault → IsRefusedFrom place indexes.old rooms.now fault }
{
    if place >= indexes.len() {
        return Ok(());
    }
    if let Err(fault) = take(&mut indexes[place].region, rooms[place]) {
        return Err(fault);
    }
    match take_from(indexes, rooms, place + 1) {
        Ok(()) => Ok(()),
        Err(fault) => {
            give(&mut indexes[place].region, rooms[place]);
            Err(fault)
        }
    }
}

/// Takes room in a region. A region that gets no cells isn't asked.
fn take(region: &mut Region, room: Room) -> Result<(), BeginFault>
    ensures taken { OnOk result (IsTaken region.old region.new room) }
    ensures refused { OnErr result (IsSamePromise region.old region.new) }
    ensures cause { (fault : Fault) → result ≡ Err fault → IsRefusedAt region.old room fault }
    ensures alike { IsAlike region.old region.new }
{
    if room.cells == 0 && room.bytes == 0 {
        return Ok(());
    }
    let number = region.number();
    match region.promise(room.cells, room.bytes) {
        Ok(()) => Ok(()),
        Err(PromiseFault::NotReady) => Err(BeginFault::NotReady { region: number }),
        Err(PromiseFault::Busy { cells, bytes }) => Err(BeginFault::Busy {
            region: number,
            cells,
            bytes,
        }),
        Err(PromiseFault::Memory) => Err(BeginFault::Memory),
    }
}

/// Gives back what was taken.
fn give(region: &mut Region, room: Room)
    requires cells { room.cells ≤ region.old.promised }
    requires bytes { room.bytes ≤ region.old.promised_bytes }
    ensures given { IsTaken region.new region.old room }
    ensures alike { IsAlike region.old region.new }
{
    if room.cells > 0 || room.bytes > 0 {
        region.give_back(room.cells, room.bytes);
    }
}
