// Reading a log again.
ghost use Rattle.std.specs.Prelude.{◌≡◌, ◌≢◌, ◌<◌, ◌↔◌, ℕ, List, IsTrue, IfOk, Err, MatchOption};
ghost use Rattle.px_outside.specs.OnDisk.{Passes, Rose, Stays};
ghost use Rattle.px_cellbytes.specs.Reading.{IsBare, IsInRange, IsWritten};
ghost use Rattle.px_wal.specs.Batches.{LogBatch};
ghost use Rattle.px_wal.specs.Wal.{HasBatches};
ghost use Rattle.px_frozen.specs.Frozen.{IsFrozen};
ghost use Rattle.px_frozen.specs.inner.Fit.{IsFit};

use crate::Frozen;
use px_cells::{Cell, CellKind, Cells, is_cell_list};
use px_gatelog::StartFault;
use px_outside::Disk;
use px_wal::{Reread, Wal, local_file};
use std::alloc::Global;

/// The longest key and the longest value.
const MOST: usize = 65_535;

/// Whether a marker has no value.
fn is_bare(cell: &Cell) -> bool
    ensures { IsTrue result ↔ IsBare cell.now }
{
    match cell.kind() {
        CellKind::Put => true,
        _ => cell.value().is_empty(),
    }
}

/// Whether a cell can be written.
fn is_fit(cell: &Cell) -> bool
    ensures fit { IsTrue result ↔ IsFit cell.now }
    ensures ranged { IsInRange cell.now }
{
    let _qualifier = cell.qualifier();
    let _stamp = cell.stamp();
    cell.key().len() <= MOST && cell.value().len() <= MOST && is_bare(cell)
}

/// Whether cells can be written.
fn are_written(cells: &[Cell]) -> bool
    ensures { IsTrue result ↔ IsWritten cells.now }
{
    for cell in cells {
        if !is_fit(cell) {
            return false;
        }
    }
    is_cell_list(cells)
}

/// Reads the batches of the segment that a region's log left again: those of its older segment above the flushed number. A batch
/// is let go once it is written, so that writing takes no memory; this takes as much as they have. The log is on the disk, so
/// nothing is brought to it, and two calls are made. A stop in the call leaves nothing new. It isn't Damaged while the disk tells
/// that the log is as it was written.
pub fn freeze<D: Disk>(
    alloc: Global,
    disk: &mut D,
    region: u32,
    flushed: u64,
    wal: &Wal,
) -> Result<Frozen, StartFault>
    requires left { flushed < wal.now.older_to }
    ensures frozen { (batches : List LogBatch) → HasBatches ⟦<D as Disk>⟧ region flushed wal.now disk.old batches → IfOk result (λ frozen. IsFrozen flushed batches frozen) }
    ensures upto { IfOk result (λ frozen. frozen.upto ≡ wal.now.older_to) }
    ensures sound { (batches : List LogBatch) → HasBatches ⟦<D as Disk>⟧ region flushed wal.now disk.old batches → (file place : ℕ) → result ≢ Err (StartFault.Damaged file place) }
    ensures seen { D.seen disk.new ≡ D.seen disk.old }
    ensures quiet { Stays ⟦<D as Disk>⟧ disk.old disk.new }
    ensures read_failed { result ≡ Err StartFault.ReadFault → Rose ⟦<D as Disk>⟧ disk.old disk.new }
    ensures write_failed { result ≢ Err StartFault.WriteFault }
    ensures counts { Passes ⟦<D as Disk>⟧ disk.old disk.new 2 }
{
    let Reread {
        store,
        cells: count,
        bytes,
    } = match wal.read_older(alloc, disk, flushed) {
        Ok(again) => again,
        Err(fault) => return Err(fault),
    };
    let cells = store.into_cells();
    if !are_written(cells.as_slice()) {
        drop(cells);
        return Err(StartFault::Damaged {
            file: local_file(region, 0),
            place: 0,
        });
    }
    Ok(Frozen::new(cells, wal.older_to(), count, bytes))
}

/// Cells of files, which a compaction writes: they are of no batch. There are none where these can't be written.
pub fn freeze_merged(cells: Cells) -> Option<Frozen>
    ensures { MatchOption result (IsWritten cells → ⊥) (λ frozen. frozen ≡ record { cells = cells; upto = 0; count = 0; bytes = 0 }) }
{
    if !are_written(cells.as_slice()) {
        drop(cells);
        return None;
    }
    Some(Frozen::new(cells, 0, 0, 0))
}
