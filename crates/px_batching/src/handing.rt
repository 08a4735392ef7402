// Handing cells to a region.
ghost use Rattle.std.specs.Prelude.{◌≡◌, ◌≤◌, ◌<◌, ◌+◌, ◌^◌, ℕ, length, IsErr, OnOk};
ghost use Rattle.std.specs.List.{AllByRecursion};
ghost use Rattle.px_outside.specs.OnDisk.{Rose};
ghost use Rattle.px_cellbytes.specs.Reading.{IsWritten};
ghost use Rattle.px_cellbytes.specs.Spelling.{IsShortEnough, all_bytes};
ghost use Rattle.px_group.specs.Room.{most_bytes};
ghost use Rattle.px_group.specs.Writing.{HasWritten, WritesTo};
ghost use Rattle.px_batching.specs.Steps.{UsesRoom};

use px_cells::{Cell, Cells};
use px_gatelog::Frame;
use px_outside::{Disk, Failed};
use px_region::Region;

/// Writes cells to a region, if there are any.
pub(crate) fn hand<D: Disk>(
    region: &mut Region,
    disk: &mut D,
    frame: &mut Frame,
    cells: Cells,
) -> Result<(), Failed>
    requires written { IsWritten cells }
    requires promised { length cells ≤ region.old.promised }
    requires promised_bytes { length (all_bytes cells) ≤ region.old.promised_bytes }
    requires light { length (all_bytes cells) ≤ most_bytes }
    requires room { 12 + most_bytes ≤ frame.old.room }
    ensures writes { WritesTo ⟦<D as Disk>⟧ region.old region.new disk.old disk.new cells }
    ensures written { OnOk result (HasWritten ⟦<D as Disk>⟧ region.old region.new disk.old disk.new cells) }
    ensures used { OnOk result (UsesRoom region.old region.new (length cells) (length (all_bytes cells))) }
    ensures failed { IsErr result → Rose ⟦<D as Disk>⟧ disk.old disk.new }
    ensures frame { frame.old.room ≤ frame.new.room }
{
    if cells.is_empty() {
        drop(cells);
        return Ok(());
    }
    region.apply(disk, cells, frame)
}

/// How many bytes cells have in a log.
fn byte_len(cells: &[Cell]) -> u64
    requires short { AllByRecursion IsShortEnough cells.now }
    requires small { length (all_bytes cells.now) < 2 ^ 32 }
    ensures { result ≡ length (all_bytes cells.now) }
{
    let mut bytes = 0;
    for cell in cells {
        bytes += 14 + cell.key().len() as u64 + cell.value().len() as u64;
    }
    bytes
}

/// Writes cells to a region, for which more room was promised, and gives the rest of it back.
pub(crate) fn hand_some<D: Disk>(
    region: &mut Region,
    disk: &mut D,
    frame: &mut Frame,
    cells: Cells,
    count: u64,
    bytes: u64,
) -> Result<(), Failed>
    requires written { IsWritten cells }
    requires fewer { length cells ≤ count }
    requires shorter { length (all_bytes cells) ≤ bytes }
    requires promised { count ≤ region.old.promised }
    requires promised_bytes { bytes ≤ region.old.promised_bytes }
    requires light { bytes ≤ most_bytes }
    requires room { 12 + most_bytes ≤ frame.old.room }
    ensures writes { WritesTo ⟦<D as Disk>⟧ region.old region.new disk.old disk.new cells }
    ensures written { OnOk result (HasWritten ⟦<D as Disk>⟧ region.old region.new disk.old disk.new cells) }
    ensures used { OnOk result (UsesRoom region.old region.new count bytes) }
    ensures failed { IsErr result → Rose ⟦<D as Disk>⟧ disk.old disk.new }
    ensures frame { frame.old.room ≤ frame.new.room }
{
    let spare = count - cells.len() as u64;
    let spare_bytes = bytes - byte_len(cells.as_slice());
    hand(region, disk, frame, cells)?;
    region.give_back(spare, spare_bytes);
    Ok(())
}
