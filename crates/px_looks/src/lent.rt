// The first rows of a range.
ghost use Rattle.std.specs.Prelude.{◌≡◌, ◌≢◌, ◌+◌, ◌<◌, ◌≤◌, ◌-◌, ℕ, List, Option, true, false, length};
ghost use Rattle.px_cells.specs.CellData.{CellData};
ghost use Rattle.px_cells.specs.Order.{IsAscending};
ghost use Rattle.px_memstore.specs.Pieces.{AreFirstRows};
ghost use Rattle.px_region.specs.Giving.{begins_row, key_at};
ghost use Rattle.px_looks.specs.inner.Lent.{AreFirst, IsRowEnd, IsTaken};

use px_cells::{Cell, place_after};

/// The cells of the first rows of a range.
#[derive(Clone, Copy)]
pub(crate) struct Lent<'a> {
    pub(crate) cells: &'a [Cell],
    /// How many rows they are.
    pub(crate) rows: u64,
    /// So many at most were to be lent: where they are fewer these are all of the range.
    pub(crate) most: u64,
}

/// Whether a cell with this key stands at a place.
fn has_key(cells: &[Cell], place: usize, key: &[u8]) -> bool
    ensures within { result ≡ true → place < length cells.now }
    ensures same { result ≡ true → key_at cells.now place ≡ key.now }
    ensures other { result ≡ false → place < length cells.now → key_at cells.now place ≢ key.now }
{
    if place >= cells.len() {
        return false;
    }
    cells[place].key() == key
}

/// Where the row of a cell ends, by halving all that is behind it.
fn halved_end(cells: &[Cell], at: usize) -> usize
    requires within { at < length cells.now }
    requires sorted { IsAscending cells.now }
    ensures { IsRowEnd cells.now at result (key_at cells.now at) }
{
    let rest = &cells[at..];
    at + place_after(rest, cells[at].key())
}

/// Where the row ends that begins at a place of a sorted list. It takes time logarithmic in the row's own cells: the next cell is looked at,
/// then the second, the fourth and so on up to one of another row, and what is left between two of them is halved.
pub(crate) fn row_end(cells: &[Cell], at: usize) -> usize
    requires within { at < length cells.now }
    requires sorted { IsAscending cells.now }
    ensures on { at < result }
    ensures within { result ≤ length cells.now }
    ensures one { (j : ℕ) → at < j → j < result → begins_row cells.now j ≡ false }
    ensures next { result < length cells.now → begins_row cells.now result ≡ true }
    ensures row { IsRowEnd cells.now at result (key_at cells.now at) }
{
    let key = cells[at].key();
    let mut from = at;
    let mut to = at + 1;
    while has_key(cells, to, key) {
        let step = (to - at).min(cells.len() - to);
        from = to;
        to += step;
    }
    if to - from == 1 {
        return to;
    }
    halved_end(&cells[..to], from)
}

/// The first rows of a sorted list, at most so many.
fn first_rows(cells: &[Cell], most: u64) -> Lent<'_>
    requires { IsAscending cells.now }
    ensures first { AreFirst cells.now most result.rows result.cells.now }
    ensures most { result.most ≡ most }
{
    let mut end = 0usize;
    let mut rows = 0u64;
    while end < cells.len() && rows < most {
        end = row_end(cells, end);
        rows += 1;
    }
    Lent {
        cells: &cells[..end],
        rows,
        most,
    }
}

/// The first rows of a range, at most so many, of the first ones that were read.
pub(crate) fn lend(cells: &[Cell], is_all: bool, most: u64) -> Lent<'_>
    requires sorted { IsAscending cells.now }
    ensures taken { (list : List CellData) (low : List ℕ) (high : Option (List ℕ)) → AreFirstRows list low high cells.now is_all → IsTaken list low high result.most result.rows result.cells.now }
    ensures most { result.most ≤ most }
    ensures some { (is_all ≡ false → 0 < length cells.now) → 0 < most → 0 < result.most }
{
    let lent = first_rows(cells, most);
    if is_all {
        return lent;
    }
    // More rows stand behind them.
    Lent {
        cells: lent.cells,
        rows: lent.rows,
        most: lent.rows,
    }
}
