// What takes the cells of a region.
ghost use Rattle.std.specs.Prelude.{◌++◌, ◌∷◌, [], List, OnOk};
ghost use Rattle.px_cells.specs.CellData.{CellData};

use px_cells::Cell;
use std::alloc::AllocError;

/// Takes cells one after the other, row by row.
pub trait CellTaker {
    /// Whether these are the cells that it has taken.
    ghost has_taken: { Self → List CellData → Type 0 };

    /// Takes the next cell.
    fn take(&mut self, cell: &Cell) -> Result<(), AllocError>
        ensures taken { (cells : List CellData) → has_taken self.old cells → OnOk result (has_taken self.new (cells ++ cell.now ∷ [])) };
}
