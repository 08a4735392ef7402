// The place of a cell in a sorted list.
ghost use Rattle.std.specs.Prelude.{◌≡◌, ◌≤◌, ◌<◌, true, false, length, get_or, take, drop};
ghost use Rattle.std.specs.List.{AllByRecursion};
ghost use Rattle.std.specs.Ordering.{is_lt};
ghost use Rattle.px_cells.specs.Order.{Below, IsAscending, SamePlace, cell_cmp};

use px_cells::{Cell, cell_order};

/// Whether there is a cell at the place that differs in its value at most.
pub(crate) fn stands_at(cells: &[Cell], at: usize, cell: &Cell) -> bool
    ensures found { result ≡ true → (at < length cells.now) × SamePlace (get_or cells.now at cell.now) cell.now }
    ensures none { result ≡ false → at < length cells.now → SamePlace (get_or cells.now at cell.now) cell.now → ⊥ }
{
    at < cells.len() && cell_order(&cells[at], cell).is_eq()
}

/// The place of the first cell of a sorted list that isn't below a cell, found by halving.
pub(crate) fn place_for(cells: &[Cell], cell: &Cell) -> usize
    requires { IsAscending cells.now }
    ensures within { result ≤ length cells.now }
    ensures below { AllByRecursion (λ m. Below m cell.now) (take result cells.now) }
    ensures from { AllByRecursion (λ m. Below m cell.now → ⊥) (drop result cells.now) }
{
    cells.partition_point(
        |other: &Cell| -> bool
            ensures { result ≡ is_lt (cell_cmp other.now cell.entry.now) }
        { cell_order(other, cell).is_lt() },
    )
}

/// The same, where the place is mostly near the end: steps that double go down from there, and then what is between two of them is halved.
pub(crate) fn place_near(cells: &[Cell], cell: &Cell) -> usize
    requires { IsAscending cells.now }
    ensures within { result ≤ length cells.now }
    ensures below { AllByRecursion (λ m. Below m cell.now) (take result cells.now) }
    ensures from { AllByRecursion (λ m. Below m cell.now → ⊥) (drop result cells.now) }
{
    let mut step: usize = 1;
    let mut high = cells.len();
    while step <= high {
        let low = high - step;
        if cell_order(&cells[low], cell).is_lt() {
            return low + 1 + place_for(&cells[low + 1..high], cell);
        }
        high = low;
        step = step.saturating_mul(2);
    }
    place_for(&cells[..high], cell)
}
