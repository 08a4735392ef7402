// The room that a batch takes.
ghost use Rattle.std.specs.Prelude.{◌≡◌, ◌≤◌, ◌+◌, IfErr, OnErr, OnOk, length, List, sum_by};
ghost use Rattle.px_values.specs.declared.change.Change.{Change as RowChange};
ghost use Rattle.px_trail.specs.Count.{counted_change};
ghost use Rattle.px_trail.specs.declared.entry.Entry.{Entry as Entries};
ghost use Rattle.px_group.specs.declared.group.Group.{Group as Groups};
ghost use Rattle.px_beginning.specs.Leaves.{KeepsRooms, LeavesGroup, TakesRooms};
ghost use Rattle.px_beginning.specs.Refused.{IsRefusedOf};
ghost use Rattle.px_beginning.specs.declared.preparing.Prepared.{Prepared as PreparedBatch};
ghost use Rattle.px_server.specs.Beginning.{HasTaken, untaken_cause};

use crate::readying::{Ready, over};
use px_beginning::{BeginFault, promise};
use px_calls::StepFault;
use px_group::Group;
use px_region::Region;
use px_trail::{Trail, changes_bytes};
use px_values::{Changes, Limit};

/// Takes room in the trail for a batch's own entry and for the four that it owes then. Where it is refused, nothing is taken.
fn take_entries(trail: &mut Trail, changes: &Changes) -> Result<(), StepFault>
    ensures taken { OnOk result (HasTaken trail.old trail.new changes.now) }
    ensures refused { OnErr result (trail.new ≡ trail.old) }
    ensures cause { (g : Groups) (p : PreparedBatch) → IfErr result (untaken_cause g p trail.old.entries changes.now) }
{
    let bytes = changes_bytes(changes.as_slice());
    if trail.counted_bytes().saturating_add(bytes) > Limit::Trail.most() {
        return Err(over(Limit::Trail));
    }
    match trail.reserve(5, bytes) {
        Ok(()) => Ok(()),
        Err(_) => Err(StepFault::Memory),
    }
}

/// Gives that room back.
fn give_entries(trail: &mut Trail, changes: &Changes)
    requires room { 5 ≤ trail.old.room }
    requires bytes { sum_by counted_change changes.now ≤ trail.old.bytes_room }
    requires few { sum_by counted_change changes.now ≤ 536870912 }
    ensures same { trail.new.entries ≡ trail.old.entries }
    ensures room { trail.new.room + 5 ≡ trail.old.room }
    ensures bytes { trail.new.bytes_room + sum_by counted_change changes.now ≡ trail.old.bytes_room }
{
    trail.give_back(5, changes_bytes(changes.as_slice()));
}

/// The region of this number, of the table's rows or of one of its indexes.
fn region_of(group: &Group, number: u32) -> Option<&Region> {
    if group.rows.number() == number {
        return Some(&group.rows);
    }
    for index in &group.indexes {
        if index.region.number() == number {
            return Some(&index.region);
        }
    }
    None
}

/// Whether the region of this number may get the room that it lacks: by a flush, or once other batches end.
fn may_free(group: &Group, number: u32) -> bool {
    match region_of(group, number) {
        Some(region) => region.may_free(),
        None => false,
    }
}

/// Whether a batch could be written to the region of this number, if only its log had room, and none will come.
fn is_full(group: &Group, number: u32) -> bool {
    match region_of(group, number) {
        Some(region) => region.is_ready() && !region.may_free(),
        None => false,
    }
}

/// Why no room was promised: where it may come, the batch is to be begun again after upkeep.
fn unpromised(group: &Group, fault: BeginFault) -> StepFault
    ensures { (g : Groups) (p : PreparedBatch) (es : List Entries) (cs : List RowChange) → IsRefusedOf g p fault → untaken_cause g p es cs result }
{
    match fault {
        BeginFault::NotReady { region } => {
            if is_full(group, region) {
                over(Limit::Log)
            } else {
                StepFault::NotReady { region }
            }
        }
        BeginFault::Busy {
            region,
            cells,
            bytes,
        } => {
            if may_free(group, region) {
                StepFault::Busy {
                    region,
                    cells,
                    bytes,
                }
            } else {
                over(Limit::Region)
            }
        }
        _ => StepFault::Memory,
    }
}

/// Takes all room of a batch: in the trail, and in the regions. Where it is refused, nothing is taken.
pub(crate) fn take_room(
    group: &mut Group,
    trail: &mut Trail,
    ready: &Ready,
) -> Result<(), StepFault>
    requires count { length ready.now.prepared.indexes.items ≡ length group.old.indexes.items }
    ensures taken { OnOk result (TakesRooms group.old group.new ready.now.prepared) }
    ensures entries { OnOk result (HasTaken trail.old trail.new ready.now.started.changes) }
    ensures refused { OnErr result (KeepsRooms group.old group.new × (trail.new ≡ trail.old)) }
    ensures cause { IfErr result (untaken_cause group.old ready.now.prepared trail.old.entries ready.now.started.changes) }
    ensures leaves { LeavesGroup group.old group.new }
{
    if let Err(fault) = take_entries(trail, &ready.started.changes) {
        return Err(fault);
    }
    match promise(group, &ready.prepared) {
        Ok(()) => Ok(()),
        Err(fault) => {
            give_entries(trail, &ready.started.changes);
            Err(unpromised(group, fault))
        }
    }
}
