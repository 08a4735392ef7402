// The first phase of a batch.
ghost use Rattle.std.specs.Prelude.{◌≡◌, ◌≤◌, ◌<◌, ◌+◌, ℕ, [], length, slice_get, IsErr, OnOk, Some};
ghost use Rattle.px_outside.specs.OnDisk.{Rose};
ghost use Rattle.px_group.specs.Group.{IsRightGroup};
ghost use Rattle.px_group.specs.Room.{most_bytes};
ghost use Rattle.px_group.specs.declared.group.Phase.TheVariants.{Marking as InMarking};
ghost use Rattle.px_batching.specs.Steps.{FinishesMarks, HandsMarks, HasMarkedIndexes, HasMarks, Marked, StandsInPhase, WroteMarks};

use crate::handing::hand;
use px_calls::Marks;
use px_gatelog::Frame;
use px_group::{Group, Phase};
use px_outside::{Disk, Failed};

/// Hands the marks of the batch at this place for its next index to the region of that index.
pub fn mark_index<D: Disk>(
    group: &mut Group,
    disk: &mut D,
    frame: &mut Frame,
    place: usize,
) -> Result<(), Failed>
    requires right { IsRightGroup group.old }
    requires left { HasMarks group.old place }
    requires room { 12 + most_bytes ≤ frame.old.room }
    ensures hands { HandsMarks ⟦<D as Disk>⟧ group.old group.new disk.old disk.new place }
    ensures right { OnOk result (IsRightGroup group.new) }
    ensures written { OnOk result (WroteMarks ⟦<D as Disk>⟧ group.old group.new disk.old disk.new place) }
    ensures failed { IsErr result → Rose ⟦<D as Disk>⟧ disk.old disk.new }
    ensures frame { frame.old.room ≤ frame.new.room }
{
    let begun = &mut group.batches[place];
    let index = begun.count - begun.batch.to_mark();
    let cells = begun.batch.take_marks();
    hand(&mut group.indexes[index].region, disk, frame, cells)
}

/// The batch at this place has marked its indexes, and is to write its rows.
pub fn finish_marking(group: &mut Group, place: usize)
    requires { HasMarkedIndexes group.old place }
    ensures { FinishesMarks group.old group.new place }
{
    group.batches[place].phase = Phase::Writing;
}

/// Marks the next index of the batch at this place. With the last one, and at once where there is none, the batch is to write its rows.
pub fn mark<D: Disk>(
    group: &mut Group,
    disk: &mut D,
    frame: &mut Frame,
    place: usize,
) -> Result<Marks, Failed>
    requires right { IsRightGroup group.old }
    requires marking { StandsInPhase group.old place InMarking }
    requires room { 12 + most_bytes ≤ frame.old.room }
    ensures right { OnOk result (IsRightGroup group.new) }
    ensures steps { Marked ⟦<D as Disk>⟧ group.old group.new disk.old disk.new place result }
    ensures failed { IsErr result → Rose ⟦<D as Disk>⟧ disk.old disk.new }
    ensures frame { frame.old.room ≤ frame.new.room }
{
    if group.batches[place].batch.to_mark() == 0 {
        finish_marking(group, place);
        return Ok(Marks::AllMarked);
    }
    mark_index(group, disk, frame, place)?;
    if group.batches[place].batch.to_mark() > 0 {
        return Ok(Marks::More);
    }
    finish_marking(group, place);
    Ok(Marks::AllMarked)
}
