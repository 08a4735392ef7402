// The third phase of a batch.
ghost use Rattle.std.specs.Prelude.{◌≡◌, ◌≤◌, ◌<◌, ◌+◌, ℕ, length, IsErr, OnOk};
ghost use Rattle.px_outside.specs.OnDisk.{Rose};
ghost use Rattle.px_group.specs.Group.{IsRightGroup};
ghost use Rattle.px_group.specs.Room.{most_bytes};
ghost use Rattle.px_group.specs.declared.group.Phase.TheVariants.{Verifying as InVerifying};
ghost use Rattle.px_batching.specs.Steps.{FinishesCloses, HandsCloses, HasClosed, HasCloses, StandsInPhase, Verified, WroteCloses};

use crate::handing::hand_some;
use px_calls::Verifies;
use px_gatelog::Frame;
use px_group::{Group, Phase};
use px_outside::{Disk, Failed};

/// Closes the marks of the batch at this place at its next index, but those of the rows on which another batch was pending, whose
/// room is given back.
pub fn verify_index<D: Disk>(
    group: &mut Group,
    disk: &mut D,
    frame: &mut Frame,
    place: usize,
) -> Result<(), Failed>
    requires right { IsRightGroup group.old }
    requires left { HasCloses group.old place }
    requires room { 12 + most_bytes ≤ frame.old.room }
    ensures hands { HandsCloses ⟦<D as Disk>⟧ group.old group.new disk.old disk.new place }
    ensures right { OnOk result (IsRightGroup group.new) }
    ensures written { OnOk result (WroteCloses ⟦<D as Disk>⟧ group.old group.new disk.old disk.new place) }
    ensures failed { IsErr result → Rose ⟦<D as Disk>⟧ disk.old disk.new }
    ensures frame { frame.old.room ≤ frame.new.room }
{
    let begun = &mut group.batches[place];
    let index = begun.count - begun.batch.to_close();
    let kept = begun.batch.next_closes();
    let count = kept.count() as u64;
    let bytes = kept.bytes();
    let cells = begun.batch.take_closes();
    hand_some(
        &mut group.indexes[index].region,
        disk,
        frame,
        cells,
        count,
        bytes,
    )
}

/// The marks of the batch at this place are closed at all of its indexes, and it is to end.
pub fn finish_verifying(group: &mut Group, place: usize)
    requires { HasClosed group.old place }
    ensures { FinishesCloses group.old group.new place }
{
    group.batches[place].phase = Phase::Closing;
}

/// Closes the marks of the batch at this place at its next index. With the last one, and at once where there is none, the batch is to end.
pub fn verify<D: Disk>(
    group: &mut Group,
    disk: &mut D,
    frame: &mut Frame,
    place: usize,
) -> Result<Verifies, Failed>
    requires right { IsRightGroup group.old }
    requires verifying { StandsInPhase group.old place InVerifying }
    requires room { 12 + most_bytes ≤ frame.old.room }
    ensures right { OnOk result (IsRightGroup group.new) }
    ensures steps { Verified ⟦<D as Disk>⟧ group.old group.new disk.old disk.new place result }
    ensures failed { IsErr result → Rose ⟦<D as Disk>⟧ disk.old disk.new }
    ensures frame { frame.old.room ≤ frame.new.room }
{
    if group.batches[place].batch.to_close() == 0 {
        finish_verifying(group, place);
        return Ok(Verifies::Done);
    }
    verify_index(group, disk, frame, place)?;
    if group.batches[place].batch.to_close() > 0 {
        return Ok(Verifies::More);
    }
    finish_verifying(group, place);
    Ok(Verifies::Done)
}
