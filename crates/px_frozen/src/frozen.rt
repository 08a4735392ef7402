// The cells that a flush writes.
ghost use Rattle.std.specs.Prelude.{◌≡◌};
ghost use Rattle.px_cellbytes.specs.Reading.{IsWritten};

use px_cells::{Cell, Cells};
use std::marker::Model;

/// The cells that a flush writes: what is read of the batches above the flushed number, as one sorted list.
#[derive(Drop)]
pub struct Frozen {
    cells: Cells,
    /// The number of the last of these batches.
    upto: u64,
    /// How many cells the batches have, and the sum of their bytes.
    count: u64,
    bytes: u64,
}

impl Model for Frozen {
    ghost use Rattle.px_frozen.specs.FrozenData.{FrozenData};
    ghost use Rattle.px_frozen.specs.inner.Inside.{CanBeWritten, frozen_of};

    ghost Value = { FrozenData };

    ghost view = { frozen_of };

    ghost invariant = { CanBeWritten };
}

impl Frozen {
    /// The cells of so many batches.
    pub(crate) fn new(cells: Cells, upto: u64, count: u64, bytes: u64) -> Frozen
        requires { IsWritten cells }
        ensures { result ≡ record { cells = cells; upto = upto; count = count; bytes = bytes } }
    {
        Frozen {
            cells,
            upto,
            count,
            bytes,
        }
    }

    /// They are sorted, and can be written.
    pub fn cells(&self) -> &[Cell]
        ensures cells { result.now ≡ self.now.cells }
        ensures written { IsWritten self.now.cells }
    {
        self.cells.as_slice()
    }

    /// The number of the last of the batches.
    pub fn upto(&self) -> u64
        ensures { result ≡ self.now.upto }
    {
        self.upto
    }

    /// How many cells the batches have.
    pub fn count(&self) -> u64
        ensures { result ≡ self.now.count }
    {
        self.count
    }

    /// The sum of the bytes of their cells.
    pub fn bytes(&self) -> u64
        ensures { result ≡ self.now.bytes }
    {
        self.bytes
    }
}
