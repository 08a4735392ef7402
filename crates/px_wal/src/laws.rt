// The laws of batches and files, over every list of them.
ghost use Rattle.std.specs.Prelude.{◌≡◌, ◌≤◌, ◌<◌, ◌∷◌, ◌++◌, ◌↔◌, [], ℕ, List};
ghost use Rattle.std.specs.List.{AllByRecursion};
ghost use Rattle.px_cells.specs.CellData.{CellData};
ghost use Rattle.px_outside.specs.Disk.{Image};
ghost use Rattle.px_merge.specs.Kept.{IsKeptList};
ghost use Rattle.px_merge.specs.Merged.{joined};
ghost use Rattle.px_merge.specs.Settle.{settle};
ghost use Rattle.px_wal.specs.Batches.{AreOverHorizon, AreQualified, AreRisingBatches, IsRest, LogBatch, batches_above, batches_between, cells_over, later_first};
ghost use Rattle.px_wal.specs.Manifest.{SnapshotStands};
ghost use Rattle.px_wal.specs.Snapshot.{SnapshotData};
ghost use Rattle.px_wal.specs.Wal.{HasBatches, LogStands};
ghost use Rattle.px_wal.specs.declared.wal.Wal.{Wal as Logs};

use px_outside::Disk;

/// Batches up to a number may stand in a file, the newest, in place of the log.
pub fn flushed_is_the_same()
    ensures { (m n : ℕ) (batches : List LogBatch) (files : List (List CellData)) (file : List CellData) → m ≤ n → AreRisingBatches batches
        → file ≡ settle (later_first (batches_between m n batches)) → cells_over n batches (file ∷ files) ≡ cells_over m batches files }
{}

/// All files may stand as one, and then the same list stands.
pub fn compacted_is_the_same()
    ensures { (n : ℕ) (batches : List LogBatch) (files : List (List CellData)) (file : List CellData) → file ≡ settle (joined files) → cells_over n batches (file ∷ []) ≡ cells_over n batches files }
{}

/// What a horizon keeps of the files it keeps of the whole list, where all that stands outside the files is above it.
pub fn a_horizon_keeps_the_whole()
    ensures { (n h : ℕ) (batches : List LogBatch) (files : List (List CellData)) (kept : List CellData) → AreOverHorizon h (batches_above n batches) → AreQualified (batches_above n batches)
        → IsKeptList (settle (joined files)) h kept → IsKeptList (cells_over n batches files) h (cells_over n batches (kept ∷ [])) }
{}

/// A batch that is written last is read first.
pub fn the_last_is_read_first()
    ensures { (n : ℕ) (batches : List LogBatch) (files : List (List CellData)) (b : LogBatch) → n < b.number
        → cells_over n (batches ++ b ∷ []) files ≡ settle (b.cells ++ cells_over n batches files) }
{}

/// Batches up to the flushed number may go from the log.
pub fn flushed_batches_may_go()
    ensures { (n : ℕ) (older newer : List LogBatch) (files : List (List CellData)) → AllByRecursion (λ b. b.number ≤ n) older → cells_over n newer files ≡ cells_over n (older ++ newer) files }
{}

/// Where only batches up to the flushed number are gone, the same ones stand above it, and the same list is read.
pub fn only_flushed_ones_are_gone()
    ensures above { (flushed : ℕ) (batches rest : List LogBatch) → IsRest flushed batches rest → batches_above flushed rest ≡ batches_above flushed batches }
    ensures cells { (flushed : ℕ) (batches rest : List LogBatch) (files : List (List CellData)) → IsRest flushed batches rest → cells_over flushed rest files ≡ cells_over flushed batches files }
{}

/// The number up to which the older segment's batches go tells whether all of them were flushed.
pub fn a_number_tells_the_older<D: Disk>()
    ensures { (region flushed : ℕ) (wal : Logs) (disk : D) (batches : List LogBatch) (has : HasBatches ⟦<D as Disk>⟧ region flushed wal disk batches) → (wal.older_to ≤ flushed) ↔ AllByRecursion (λ b. b.number ≤ flushed) has.cut.older }
{}

/// Where the sorted list of what is read of batches is above a horizon, so is each of their cells.
pub fn what_is_read_tells_the_stamps()
    ensures { (h : ℕ) (batches : List LogBatch) → AllByRecursion (λ c. h < c.stamp) (settle (later_first batches)) → AreOverHorizon h batches }
{}

/// The files of a region's log, or of its manifest, stand for one thing at most.
pub fn logs_stand_for_one()
    ensures batches { (region flushed : ℕ) (image : Image) (a b : List LogBatch) → LogStands region flushed image a → LogStands region flushed image b → a ≡ b }
    ensures snapshot { (region : ℕ) (image : Image) (s t : SnapshotData) → SnapshotStands region image s → SnapshotStands region image t → s ≡ t }
{}
