// The laws of what a flush writes.
ghost use Rattle.std.specs.Prelude.{◌≡◌, ◌≤◌, ◌<◌, ◌+◌, ◌∷◌, ◌++◌, [], ℕ, List};
ghost use Rattle.px_wal.specs.Batches.{LogBatch, batches_above};
ghost use Rattle.px_wal.specs.Form.{batch_byte_count, cell_count, last_batch_number};
ghost use Rattle.px_frozen.specs.Frozen.{IsFrozen};
ghost use Rattle.px_frozen.specs.FrozenData.{FrozenData};

/// A batch that comes later is no part of it.
pub fn a_later_batch_is_none_of_it()
    ensures { (flushed : ℕ) (batches : List LogBatch) (b : LogBatch) (frozen : FrozenData) → last_batch_number flushed batches < b.number → IsFrozen flushed batches frozen → IsFrozen flushed (batches ++ b ∷ []) frozen }
{}

/// Where its number is the flushed one, so many cells and bytes less stand above the flushed number.
pub fn so_much_is_freed()
    ensures cells { (flushed : ℕ) (batches : List LogBatch) (frozen : FrozenData) → flushed ≤ frozen.upto → IsFrozen flushed batches frozen → cell_count (batches_above flushed batches) ≡ frozen.count + cell_count (batches_above frozen.upto batches) }
    ensures bytes { (flushed : ℕ) (batches : List LogBatch) (frozen : FrozenData) → flushed ≤ frozen.upto → IsFrozen flushed batches frozen → batch_byte_count (batches_above flushed batches) ≡ frozen.bytes + batch_byte_count (batches_above frozen.upto batches) }
{}
