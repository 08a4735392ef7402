// A table with its regions.
ghost use Rattle.std.specs.Prelude.{◌≡◌, ℕ, ◌<◌, length, IfSome, IfNone, slice_get, Some};

use px_phases::OpenBatch;
use px_region::Region;
use px_tables::{Index, Table};
use px_values::Rows;

/// What a batch does next: it marks its index rows, writes its rows, verifies the marks, or ends.
#[derive(Clone, Copy, PartialEq, Eq)]
pub enum Phase {
    Marking,
    Writing,
    Verifying,
    Closing,
}

/// A batch that has begun and not ended.
#[derive(Drop)]
pub struct Begun {
    pub phase: Phase,
    /// It marks and verifies the first so many indexes.
    pub count: usize,
    pub batch: OpenBatch,
    /// Its rows, for the entry that they are written, until then.
    pub rows: Option<Rows>,
    /// Its rows once more, for the receipt.
    pub receipt: Rows,
}

/// An index that is maintained, and its region.
#[derive(Drop)]
pub struct IndexRegion {
    pub index: Index,
    pub region: Region,
}

/// A point that a seat has open.
#[derive(Clone, Copy, Drop)]
pub struct OpenPoint {
    pub seat: u32,
    pub stamp: u64,
}

/// A table, the region of its rows, its indexes that are building or active, in the order of their births, the batches that have begun,
/// in the order of their stamps, and the open points; the greatest stamp that was drawn, and the horizon.
#[derive(Drop)]
pub struct Group {
    pub table: Table,
    pub rows: Region,
    pub indexes: Vec<IndexRegion>,
    pub batches: Vec<Begun>,
    pub points: Vec<OpenPoint>,
    pub last: u64,
    pub horizon: u64,
}

impl Group {
    /// The place of the batch of a stamp.
    pub fn batch_place(&self, stamp: u64) -> Option<usize>
        ensures found { IfSome result (λ m. (m < length self.now.batches.items) × ((x : Begun) → slice_get self.now.batches.items m ≡ Some x → x.batch.stamp ≡ stamp)) }
        ensures none { IfNone result ((m : ℕ) (x : Begun) → slice_get self.now.batches.items m ≡ Some x → x.batch.stamp ≡ stamp → ⊥) }
    {
        self.batches
            .iter()
            .position(|begun| begun.batch.stamp() == stamp)
    }
}
