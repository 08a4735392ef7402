// Whether cells are as they must be.
ghost use Rattle.std.specs.Prelude.{◌≡◌, ◌↔◌, IsTrue};
ghost use Rattle.std.specs.Option.{option_copied};
ghost use Rattle.px_cells.specs.Order.{Below, IsAscending};
ghost use Rattle.px_reads.specs.Range.{AllWithin, IsWithin};

use px_cells::{Cell, cell_order, key_order};

/// Whether a cell stands before another.
fn is_before(a: &Cell, b: &Cell) -> bool
    ensures { IsTrue result ↔ Below a.now b.now }
{
    cell_order(a, b).is_lt()
}

/// Whether a key is at or above one, and below an end.
fn is_within(key: &[u8], low: &[u8], high: Option<&[u8]>) -> bool
    ensures { IsTrue result ↔ IsWithin low.now (option_copied high.entry) key.now }
{
    if key_order(key, low).is_lt() {
        return false;
    }
    match high {
        None => true,
        Some(high) => key_order(key, high).is_lt(),
    }
}

/// Whether cells are sorted.
pub(crate) fn are_sorted(cells: &[Cell]) -> bool
    ensures { IsTrue result ↔ IsAscending cells.now }
{
    for i in 1..cells.len() {
        if !is_before(&cells[i - 1], &cells[i]) {
            return false;
        }
    }
    true
}

/// Whether the keys of all cells are within a range.
pub(crate) fn are_within(cells: &[Cell], low: &[u8], high: Option<&[u8]>) -> bool
    ensures { IsTrue result ↔ AllWithin low.now (option_copied high.entry) cells.now }
{
    for cell in cells {
        if !is_within(cell.key(), low, high) {
            return false;
        }
    }
    true
}
