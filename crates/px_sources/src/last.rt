// The cell that was given last.
ghost use Rattle.std.specs.Prelude.{◌≡◌, ◌↔◌, true, false, IsTrue, OnOk};
ghost use Rattle.px_cells.specs.Order.{SamePlace};

use px_cells::{Cell, CellKind};
use std::alloc::{AllocError, Global};

/// The place of the cell that was given last, if there is one.
#[derive(Drop)]
pub(crate) struct Last {
    pub(crate) some: bool,
    pub(crate) key: Vec<u8>,
    pub(crate) qualifier: u8,
    pub(crate) stamp: u64,
    pub(crate) kind: CellKind,
}

impl Last {
    ghost use Rattle.px_sources.specs.Passed.{begins_behind, place_of};

    /// No cell was given.
    pub(crate) fn none(alloc: Global) -> Last
        ensures { result.some ≡ false }
    {
        Last {
            some: false,
            key: Vec::new(alloc),
            qualifier: 0,
            stamp: 0,
            kind: CellKind::Put,
        }
    }

    /// Whether a cell is at this place.
    pub(crate) fn is_at(&self, cell: &Cell) -> bool
        ensures { IsTrue result ↔ SamePlace (place_of self.now) cell.now }
    {
        self.stamp == cell.stamp()
            && self.qualifier == cell.qualifier()
            && self.kind == cell.kind()
            && self.key.as_slice() == cell.key()
    }

    /// Whether a row begins with a cell that comes next.
    pub(crate) fn begins(&self, cell: &Cell) -> bool
        ensures { result ≡ begins_behind self.now cell.now }
    {
        !self.some || self.key.as_slice() != cell.key()
    }

    /// Keeps the place of a cell. Where it is in the same row, no byte is copied.
    pub(crate) fn set(&mut self, cell: &Cell) -> Result<(), AllocError>
        ensures place { OnOk result (SamePlace (place_of self.new) cell.now) }
        ensures some { OnOk result (self.new.some ≡ true) }
    {
        if self.begins(cell) {
            self.key.clear();
            self.key.extend_from_slice(cell.key())?;
        }
        self.some = true;
        self.qualifier = cell.qualifier();
        self.stamp = cell.stamp();
        self.kind = cell.kind();
        Ok(())
    }
}
