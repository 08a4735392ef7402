// What takes cells.
ghost use Rattle.std.specs.Prelude.{◌≡◌, ◌++◌, ◌∷◌, [], Bool, List, OnOk};
ghost use Rattle.px_cells.specs.CellData.{CellData};

use px_cells::Cell;
use std::alloc::AllocError;

/// Takes cells one after the other, row by row.
pub trait CellTaker {
    /// Whether these are the cells that it has taken.
    ghost has_taken: { Self → List CellData → Type 0 };

    /// Whether it wants a further row behind these cells.
    ghost wants: { Self → List CellData → Bool };

    /// Takes the next cell.
    fn take(&mut self, cell: &Cell) -> Result<(), AllocError>
        ensures taken { (cells : List CellData) → has_taken self.old cells → OnOk result (has_taken self.new (cells ++ cell.now ∷ [])) }
        ensures same { wants self.new ≡ wants self.old };

    /// Whether it wants a further row. It is asked before the first cell of each row.
    fn wants_row(&self) -> bool
        ensures { (cells : List CellData) → has_taken self.now cells → result ≡ wants self.now cells };
}
