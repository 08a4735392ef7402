// The second phase of a batch.
ghost use Rattle.std.specs.Prelude.{◌≡◌, ◌≤◌, ◌<◌, ◌+◌, ℕ, IfErr, IfNone, IfOk, IfSome, length, slice_get, List, None, true, IsErr, OnErr, OnOk, Some};
ghost use Rattle.px_outside.specs.OnDisk.{Rose};
ghost use Rattle.px_group.specs.Group.{IsRightGroup};
ghost use Rattle.px_group.specs.Room.{most_bytes};
ghost use Rattle.px_cells.specs.CellData.{CellData};
ghost use Rattle.px_keptcells.specs.Kept.{laid};
ghost use Rattle.px_phases.specs.Batch.{IsHanded, left_in};
ghost use Rattle.px_trail.specs.Batches.{rows_of};
ghost use Rattle.px_batching.specs.Steps.{HandsPuts, IsBlocked, IsUnblocked, StandsInPhase, TakesRows, WrotePuts, blocks as blocks_test};
ghost use Rattle.px_group.specs.declared.group.Phase.TheVariants.{Writing as InWriting};
ghost use Rattle.std.specs.Prelude.{is_some};
ghost use Rattle.std.specs.List.{list_any};

use crate::handing::hand;
use px_cells::Cells;
use px_gatelog::Frame;
use px_group::{Begun, Group, Phase};
use px_outside::{Disk, Failed};
use px_phases::OpenBatch;
use px_values::{Change, Rows};

/// Whether a batch is still to write one of these rows.
fn has_left(earlier: &OpenBatch, changes: &[Change]) -> bool
    ensures { result ≡ list_any (λ c. is_some (left_in earlier.now c.row)) changes.now }
{
    changes
        .iter()
        .any(|change| earlier.left_of(change.row.as_slice()).is_some())
}

/// Whether a batch is earlier than another one, and is still to write one of its rows.
fn blocks(earlier: &OpenBatch, batch: &OpenBatch) -> bool
    ensures { result ≡ blocks_test earlier.now batch.now }
{
    earlier.stamp() < batch.stamp() && has_left(earlier, batch.changes().as_slice())
}

/// The stamp of an earlier batch that is still to write a row of the batch at this place: on one row batches write in the order of
/// their stamps.
pub fn blocker(group: &Group, place: usize) -> Option<u64>
    requires { place < length group.now.batches.items }
    ensures blocked { IfSome result (IsBlocked group.now place) }
    ensures free { IfNone result (IsUnblocked group.now place) }
{
    let batch = &group.batches[place].batch;
    let found = group
        .batches
        .iter()
        .position(|begun| blocks(&begun.batch, batch))?;
    Some(group.batches[found].batch.stamp())
}

/// The cells of a batch's rows, and the rows by their primary key values.
#[derive(Drop)]
struct Taken {
    cells: Cells,
    rows: Rows,
}

/// Takes them from the batch.
fn take_rows(begun: &mut Begun) -> Taken
    requires cells { is_some begun.old.batch.puts ≡ true }
    requires rows { begun.old.rows ≡ Some (rows_of begun.old.batch.changes) }
    ensures cells { (parts : List (List CellData)) → begun.old.batch.puts ≡ Some parts → IsHanded result.cells (laid parts) }
    ensures rows { result.rows ≡ rows_of begun.old.batch.changes }
    ensures begun { begun.new ≡ record begun.old { batch = record begun.old.batch { puts = None }; rows = None } }
{
    let cells = begun.batch.take_puts();
    let Some(rows) = begun.rows.take() else {
        unreachable!()
    };
    Taken { cells, rows }
}

/// The rows of a write that failed, for the entry that was under way.
#[derive(Drop)]
pub struct Unwritten {
    pub rows: Rows,
}

/// Hands the rows of the batch at this place to the region of the rows, and gives their primary key values back, for the entry that
/// tells that they are written.
pub fn write<D: Disk>(
    group: &mut Group,
    disk: &mut D,
    frame: &mut Frame,
    place: usize,
) -> Result<Rows, Unwritten>
    requires right { IsRightGroup group.old }
    requires writing { StandsInPhase group.old place InWriting }
    requires room { 12 + most_bytes ≤ frame.old.room }
    ensures hands { OnErr result (HandsPuts ⟦<D as Disk>⟧ group.old group.new disk.old disk.new place InWriting) }
    ensures right { OnOk result (IsRightGroup group.new) }
    ensures written { OnOk result (WrotePuts ⟦<D as Disk>⟧ group.old group.new disk.old disk.new place) }
    ensures rows { IfOk result (TakesRows group.old place) }
    ensures late { IfErr result (λ u. TakesRows group.old place u.rows) }
    ensures failed { IsErr result → Rose ⟦<D as Disk>⟧ disk.old disk.new }
    ensures frame { frame.old.room ≤ frame.new.room }
{
    let Taken { cells, rows } = take_rows(&mut group.batches[place]);
    match hand(&mut group.rows, disk, frame, cells) {
        Ok(()) => {
            group.batches[place].phase = Phase::Verifying;
            Ok(rows)
        }
        Err(Failed) => Err(Unwritten { rows }),
    }
}
