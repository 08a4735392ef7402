// What is made for a batch before it takes any room.
ghost use Rattle.std.specs.Prelude.{◌≡◌, ◌≢◌, ◌≤◌, ℕ, Err, IfOk, IfErr, List, true};
ghost use Rattle.px_group.specs.Group.{IsRightGroup};
ghost use Rattle.px_outside.specs.OnDisk.{Rose};
ghost use Rattle.px_group.specs.declared.group.Group.{Group as Groups};
ghost use Rattle.px_phases.specs.Batch.{AllFit};
ghost use Rattle.px_region.specs.OnlyRead.{HasOnlyRead};
ghost use Rattle.px_trail.specs.Batches.{is_distinct, rows_of};
ghost use Rattle.px_values.specs.Limits.{most_of};
ghost use Rattle.px_values.specs.declared.change.Change.{Change as RowChange};
ghost use Rattle.px_values.specs.declared.limit.Limit.{Limit as Bound};
ghost use Rattle.px_calls.specs.declared.fault.StepFault.{StepFault as Fault};
ghost use Rattle.px_beginning.specs.Begins.{NeedsLongKey};
ghost use Rattle.px_beginning.specs.Leaves.{KeepsRooms, LeavesGroup};
ghost use Rattle.px_beginning.specs.Rooms.{HasManyBytes, HasManyCells};
ghost use Rattle.px_beginning.specs.declared.fault.BeginFault.{BeginFault as Cause};
ghost use Rattle.px_server.specs.Beginning.{IsReady, unready_cause};

use px_beginning::{BeginFault, Prepared, prepare};
use px_calls::StepFault;
use px_copying::copied;
use px_group::Group;
use px_outside::Disk;
use px_turns::next_stamp;
use px_values::{Changes, Limit};
use std::alloc::Global;

/// A batch that begins: its stamp, and its changes for its entry.
#[derive(Drop)]
pub(crate) struct Started {
    pub(crate) stamp: u64,
    pub(crate) changes: Changes,
}

/// What is made for a batch.
#[derive(Drop)]
pub(crate) struct Ready {
    pub(crate) prepared: Prepared,
    pub(crate) started: Started,
}

/// This limit would be passed.
pub(crate) fn over(which: Limit) -> StepFault
    ensures { result ≡ Fault.Limit which (most_of which) }
{
    StepFault::Limit {
        which,
        count: which.most(),
    }
}

/// Why no batch is prepared.
fn unprepared(fault: BeginFault) -> StepFault
    ensures cause { (g : Groups) (cs : List RowChange) (s : ℕ) → (fault ≡ Cause.Limit Bound.Key → NeedsLongKey g cs) → (fault ≡ Cause.Limit Bound.Cells → HasManyCells g s cs) → (fault ≡ Cause.Limit Bound.Bytes → HasManyBytes g s cs)
        → ((file place : ℕ) → fault ≢ Cause.Damaged file place) → g.last ≤ 9223372036854775807 → unready_cause g cs result }
    ensures read { result ≡ Fault.ReadFault → fault ≡ Cause.ReadFault }
{
    match fault {
        BeginFault::Limit(Limit::Key) => over(Limit::Key),
        BeginFault::Limit(Limit::Cells) => over(Limit::Cells),
        BeginFault::Limit(Limit::Bytes) => over(Limit::Bytes),
        BeginFault::ReadFault => StepFault::ReadFault,
        BeginFault::Damaged { file, place } => StepFault::Damaged { file, place },
        _ => StepFault::Memory,
    }
}

/// Reads the rows of a batch, makes its cells, and draws its stamp behind the last one, while the clock shows this. Nothing of the group
/// changes but how many rows were looked at, and the disk is only read.
pub(crate) fn ready_of<D: Disk>(
    alloc: Global,
    disk: &mut D,
    group: &mut Group,
    changes: &Changes,
    clock: u64,
) -> Result<Ready, StepFault>
    requires right { IsRightGroup group.old }
    requires fit { AllFit group.old.table changes.now }
    requires distinct { is_distinct (rows_of changes.now) ≡ true }
    ensures ready { IfOk result (IsReady group.old changes.now clock) }
    ensures refused { IfErr result (unready_cause group.old changes.now) }
    ensures leaves { LeavesGroup group.old group.new }
    ensures keeps { KeepsRooms group.old group.new }
    ensures failed { result ≡ Err Fault.ReadFault → Rose ⟦<D as Disk>⟧ disk.old disk.new }
    ensures only_read { HasOnlyRead ⟦<D as Disk>⟧ disk.old disk.new }
{
    // No stamp of a folder that the program left is greater.
    if group.last > Limit::Stamps.most() {
        return Err(over(Limit::Stamps));
    }
    let drawn = next_stamp(group.last, clock);
    let prepared = match prepare(alloc, disk, group, changes, drawn.unwrap_or(group.last)) {
        Ok(prepared) => prepared,
        Err(fault) => return Err(unprepared(fault)),
    };
    let Some(stamp) = drawn else {
        drop(prepared);
        return Err(over(Limit::Stamps));
    };
    match copied(alloc, changes.as_slice()) {
        Ok(changes) => Ok(Ready {
            prepared,
            started: Started { stamp, changes },
        }),
        Err(_) => {
            drop(prepared);
            Err(StepFault::Memory)
        }
    }
}
