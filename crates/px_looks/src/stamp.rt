// Whether cells have a stamp.
ghost use Rattle.std.specs.Prelude.{◌≡◌};
ghost use Rattle.px_looks.specs.Stamps.{has_stamp};

use px_cells::Cell;

/// Whether one of the cells has the stamp.
pub fn any_of_stamp(cells: &[Cell], stamp: u64) -> bool
    ensures { result ≡ has_stamp stamp cells.now }
{
    cells.iter().any(|cell| cell.stamp() == stamp)
}
