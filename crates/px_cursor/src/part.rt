// The blocks of a file, and the part of a block, within a range of keys.
ghost use Rattle.std.specs.Prelude.{◌≡◌, ◌≤◌, ◌-◌, List, length, take, drop};
ghost use Rattle.std.specs.Option.{option_copied};
ghost use Rattle.px_cells.specs.CellData.{CellData};
ghost use Rattle.px_cells.specs.Order.{IsAscending};
ghost use Rattle.px_cells.specs.Rows.{AreRows};
ghost use Rattle.px_file.specs.Format.{AreBlocks};
ghost use Rattle.px_file.specs.IndexOf.{IsIndex};
ghost use Rattle.px_cursor.specs.Range.{EndsAt};

use px_cells::{Cell, place_of};
use px_file::RegionFile;

/// The number of the first block behind those that may have cells below the end of a range.
pub(crate) fn limit_of(file: &RegionFile, high: Option<&[u8]>) -> usize
    ensures within { result ≤ length file.now.index.entries.items }
    ensures limit { (blocks : List (List CellData)) → AreBlocks blocks → IsIndex file.now.index blocks → EndsAt blocks (option_copied high.entry) result }
{
    match high {
        None => file.blocks(),
        Some(high) => file.blocks_below(high),
    }
}

/// Where the cells of a range of keys begin in a sorted list, and where they end. It takes logarithmic time.
pub(crate) fn part_of(cells: &[Cell], low: &[u8], high: Option<&[u8]>) -> (usize, usize)
    requires { IsAscending cells.now }
    ensures rows { AreRows cells.now low.now (option_copied high.entry) (take (result.1 - result.0) (drop result.0 cells.now)) }
    ensures order { result.0 ≤ result.1 }
    ensures within { result.1 ≤ length cells.now }
{
    let at = place_of(cells, low);
    match high {
        None => (at, cells.len()),
        Some(high) => (at, at + place_of(&cells[at..], high)),
    }
}
