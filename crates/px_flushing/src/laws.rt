// The laws of a region's files and the flush of its log.
ghost use Rattle.std.specs.Prelude.{◌≡◌, ◌≤◌, ◌<◌, ◌∷◌, ◌++◌, [], ℕ, List};
ghost use Rattle.px_outside.specs.Disk.{Image};
ghost use Rattle.px_outside.specs.OnDisk.{TouchesOnly};
ghost use Rattle.px_outside.specs.Standing.{StandsIn};
ghost use Rattle.px_cells.specs.CellData.{CellData};
ghost use Rattle.px_merge.specs.Settle.{settle};
ghost use Rattle.px_wal.specs.Batches.{LogBatch, cells_over};
ghost use Rattle.px_wal.specs.Files.{HasFile};
ghost use Rattle.px_wal.specs.Manifest.{named_snapshot};
ghost use Rattle.px_wal.specs.Wal.{HasBatches, log_files};
ghost use Rattle.px_wal.specs.declared.manifest.Manifest.{Manifest};
ghost use Rattle.px_wal.specs.declared.wal.Wal.{Wal};
ghost use Rattle.px_flushing.specs.Flushing.{HasFlushing, IsRegionRead};
ghost use Rattle.px_flushing.specs.declared.flushing.Flushing.{Flushing as Flushes};

use px_outside::Disk;

/// Whatever a stop leaves of its files, they are read as the region's list.
pub fn what_is_held_stands<D: Disk>()
    ensures { (manifest : Manifest) (wal : Wal) (flushing : Flushes) (disk : D) (batches : List LogBatch) (lists : List (List CellData)) → HasFlushing ⟦<D as Disk>⟧ manifest wal flushing disk batches lists
        → StandsIn ⟦<D as Disk>⟧ disk (HasFile flushing.number) (λ image. IsRegionRead flushing.number image (named_snapshot manifest).horizon (cells_over (named_snapshot manifest).flushed batches lists)) }
{}

/// The files of a region are read as one list at most.
pub fn an_image_is_read_as_one()
    ensures { (region : ℕ) (image : Image) (h k : ℕ) (a b : List CellData) → IsRegionRead region image h a → IsRegionRead region image k b → (h ≡ k) × (a ≡ b) }
{}

/// Calls on files of others leave it all as it is.
pub fn a_flush_is_kept<D: Disk>()
    ensures { (manifest : Manifest) (wal : Wal) (flushing : Flushes) (old new : D) (batches : List LogBatch) (lists : List (List CellData)) → TouchesOnly ⟦<D as Disk>⟧ old new (λ touched. HasFile flushing.number touched → ⊥)
        → HasFlushing ⟦<D as Disk>⟧ manifest wal flushing old batches lists → HasFlushing ⟦<D as Disk>⟧ manifest wal flushing new batches lists }
{}

/// A batch may be written while a flush is under way: it is read before all else, and the flush goes on without it.
pub fn a_batch_may_come<D: Disk>()
    ensures goes_on { (manifest : Manifest) (old new : Wal) (flushing : Flushes) (before after : D) (batches : List LogBatch) (b : LogBatch) (lists : List (List CellData)) → TouchesOnly ⟦<D as Disk>⟧ before after (log_files flushing.number)
        → HasFlushing ⟦<D as Disk>⟧ manifest old flushing before batches lists → old.last < b.number → HasBatches ⟦<D as Disk>⟧ flushing.number (named_snapshot manifest).flushed new after (batches ++ b ∷ [])
        → HasFlushing ⟦<D as Disk>⟧ manifest new flushing after (batches ++ b ∷ []) lists }
    ensures read { (flushed : ℕ) (batches : List LogBatch) (b : LogBatch) (lists : List (List CellData)) → flushed < b.number → cells_over flushed (batches ++ b ∷ []) lists ≡ settle (b.cells ++ cells_over flushed batches lists) }
{}
