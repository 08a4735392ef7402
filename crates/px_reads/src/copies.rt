// Copies of what is given.
ghost use Rattle.std.specs.Prelude.{◌≡◌, ◌∷◌, ◌++◌, [], length, min, nat_lt};
ghost use Rattle.px_sources.specs.Giving.{begins_row, rows_before};

use px_cells::Cell;
use px_sources::CellTaker;
use std::alloc::{AllocError, Global};

/// Takes copies of cells, up to so many rows.
#[derive(Drop)]
pub(crate) struct Copies {
    pub(crate) cells: Vec<Cell>,
    /// How many rows they are of.
    pub(crate) rows: u64,
    pub(crate) most: u64,
    ghost counted: { rows ≡ min (rows_before cells.items (length cells.items)) 18446744073709551615 },
}

impl Copies {
    pub(crate) fn new(alloc: Global, most: u64) -> Copies
        ensures none { result.cells.items ≡ [] }
        ensures rows { result.rows ≡ 0 }
        ensures most { result.most ≡ most }
    {
        Copies {
            cells: Vec::new(alloc),
            rows: 0,
            most,
        }
    }

    /// Whether a row begins with a cell that comes next.
    fn begins(&self, cell: &Cell) -> bool
        ensures { result ≡ begins_row (self.now.cells.items ++ cell.now ∷ []) (length self.now.cells.items) }
    {
        match self.cells.last() {
            None => true,
            Some(last) => last.key() != cell.key(),
        }
    }
}

impl CellTaker for Copies {
    ghost has_taken = { λ copies cells. copies.cells.items ≡ cells };

    ghost wants = { λ copies cells. nat_lt (min (rows_before cells (length cells)) 18446744073709551615) copies.most };

    fn take(&mut self, cell: &Cell) -> Result<(), AllocError> {
        let rows = if self.begins(cell) {
            self.rows.saturating_add(1)
        } else {
            self.rows
        };
        let copy = cell.clone()?;
        self.cells.reserve(1)?;
        self.cells.push_reserved(copy);
        self.rows = rows;
        Ok(())
    }

    fn wants_row(&self) -> bool {
        self.rows < self.most
    }
}
