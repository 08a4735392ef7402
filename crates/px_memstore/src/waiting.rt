// Where cells of a batch wait while it is merged.
ghost use Rattle.std.specs.Prelude.{◌≡◌, ◌≤◌, ◌<◌, ◌++◌, ◌∷◌, [], vec_len, OnOk};
ghost use Rattle.px_memstore.specs.inner.Waiting.{IsIdle, waiting_room};

use px_cells::Cell;
use std::alloc::{AllocError, Global};

/// Cells of a batch that wait while it is merged, each with the place where it belongs. Else there is none.
#[derive(Drop)]
pub(crate) struct Waiting {
    pub(crate) cells: Vec<Cell>,
    pub(crate) places: Vec<usize>,
}

impl Waiting {
    /// No cell waits.
    pub(crate) fn new(alloc: Global) -> Waiting
        ensures { IsIdle result }
    {
        Waiting {
            cells: Vec::new(alloc),
            places: Vec::new(alloc),
        }
    }

    /// Takes room for so many cells.
    pub(crate) fn reserve(&mut self, n: usize) -> Result<(), AllocError>
        requires idle { IsIdle self.old }
        ensures idle { IsIdle self.new }
        ensures room { OnOk result (n ≤ waiting_room self.new) }
        ensures kept { waiting_room self.old ≤ waiting_room self.new }
    {
        self.cells.reserve(n)?;
        self.places.reserve(n)
    }

    /// For how many cells there is room.
    pub(crate) fn room(&self) -> usize
        ensures { result ≡ waiting_room self.now }
    {
        self.cells.capacity().min(self.places.capacity())
    }

    /// Lets a cell wait, for which there is room.
    pub(crate) fn push(&mut self, cell: Cell, place: usize)
        requires cells { vec_len self.old.cells < waiting_room self.old }
        requires places { vec_len self.old.places < waiting_room self.old }
        ensures cells { self.new.cells.items ≡ self.old.cells.items ++ cell ∷ [] }
        ensures places { self.new.places.items ≡ self.old.places.items ++ place ∷ [] }
        ensures room { waiting_room self.new ≡ waiting_room self.old }
    {
        self.cells.push_reserved(cell);
        self.places.push_reserved(place);
    }
}
