// The least stamps of the batches that stand in a log above the flushed number.
ghost use Rattle.std.specs.Prelude.{◌≡◌, ◌≤◌, ◌++◌, ◌∷◌, ◌↔◌, [], ℕ, List, IsTrue};
ghost use Rattle.std.specs.List.{AllByRecursion};
ghost use Rattle.px_merge.specs.Settle.{settle};
ghost use Rattle.px_wal.specs.Batches.{LogBatch, batches_above, later_first};
ghost use Rattle.px_region.specs.Stamps.{Allows, AreStampsFrom, HaveLeast};

use px_cells::Cell;
use px_memstore::MemStore;

/// The least stamps of batches: no cell of a batch up to a number has one below the first, and no cell of a batch behind it one below the second. There
/// are two, since a flush takes the older batches while others come.
#[derive(Clone, Copy)]
pub struct LeastStamps {
    pub(crate) upto: u64,
    pub(crate) before: u64,
    pub(crate) behind: u64,
}

/// The least stamp of cells, or a number where that is less.
fn least_of(cells: &[Cell], most: u64) -> u64
    ensures within { result ≤ most }
    ensures from { AreStampsFrom result cells.now }
{
    let mut least = most;
    for cell in cells {
        least = least.min(cell.stamp());
    }
    least
}

/// The least stamp of all cells of a store.
fn least_in(store: &MemStore) -> u64
    ensures { AreStampsFrom result store.now.cells }
{
    let mut least = u64::MAX;
    for at in 0..store.piece_count() {
        least = least_of(store.piece(at), least);
    }
    least
}

impl LeastStamps {
    /// Those of no batch.
    pub(crate) fn none() -> LeastStamps
        ensures { HaveLeast result [] }
    {
        LeastStamps {
            upto: 0,
            before: u64::MAX,
            behind: u64::MAX,
        }
    }

    /// Those of the batches of which a store has what is read.
    pub(crate) fn of_store(store: &MemStore) -> LeastStamps
        ensures { (batches : List LogBatch) → store.now.cells ≡ settle (later_first batches) → HaveLeast result batches }
    {
        let least = least_in(store);
        LeastStamps {
            upto: 0,
            before: least,
            behind: least,
        }
    }

    /// A batch came.
    pub(crate) fn add(&mut self, number: u64, cells: &[Cell])
        ensures { (batches : List LogBatch) → HaveLeast self.old batches → HaveLeast self.new (batches ++ (record { number = number; cells = cells.now }) ∷ []) }
    {
        if number > self.upto {
            self.behind = least_of(cells, self.behind);
        } else {
            self.before = least_of(cells, self.before);
        }
    }

    /// From now on all batches, which go up to a number, are the older ones.
    pub(crate) fn age(&mut self, upto: u64)
        ensures { (batches : List LogBatch) → AllByRecursion (λ b. b.number ≤ upto) batches → HaveLeast self.old batches → HaveLeast self.new batches }
    {
        self.upto = upto;
        self.before = self.before.min(self.behind);
        self.behind = u64::MAX;
    }

    /// The batches up to a number are flushed.
    pub(crate) fn flush(&mut self, flushed: u64)
        ensures { (old : ℕ) (batches : List LogBatch) → old ≤ flushed → HaveLeast self.old (batches_above old batches) → HaveLeast self.new (batches_above flushed batches) }
    {
        if self.upto <= flushed {
            self.before = u64::MAX;
        }
    }

    /// Whether each cell of the batches is known to be above a horizon.
    pub(crate) fn allows(&self, horizon: u64) -> bool
        ensures { IsTrue result ↔ Allows self.now horizon }
    {
        horizon < self.before && horizon < self.behind
    }
}
