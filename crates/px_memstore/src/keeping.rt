// Letting cells go.
ghost use Rattle.std.specs.Prelude.{◌≡◌, ◌≤◌, length, map, min, vec_capacity};
ghost use Rattle.std.specs.List.{filter};
ghost use Rattle.px_cells.specs.Order.{IsAscending};
ghost use Rattle.px_memstore.specs.Left.{cell_stays, left};
ghost use Rattle.px_memstore.specs.Pieces.{chained};
ghost use Rattle.px_memstore.specs.inner.Pieces.{ArePieces, is_filled as is_some, lists};

use crate::pieces::Pieces;
use crate::placing::{place_for, stands_at};
use px_cells::Cell;

/// Whether a cell stays where cells go at or below a horizon, a stamp: it is above it, or one of those that are kept, which are
/// sorted, has its place.
pub fn is_left(kept: &[Cell], cell: &Cell, horizon: u64) -> bool
    requires { IsAscending kept.now }
    ensures { result ≡ cell_stays kept.now horizon cell.now }
{
    if horizon < cell.stamp() {
        return true;
    }
    let at = place_for(kept, cell);
    stands_at(kept, at, cell)
}

/// Lets the cells of a piece go that don't stay.
fn keep_part(cells: &mut Vec<Cell>, kept: &[Cell], horizon: u64)
    requires kept { IsAscending kept.now }
    ensures left { cells.new.items ≡ left kept.now horizon cells.old.items }
    ensures capacity { vec_capacity cells.new ≡ vec_capacity cells.old }
{
    cells.retain(
        |cell: &Cell| -> bool
            requires { IsAscending kept.now }
            ensures { result ≡ cell_stays kept.entry.now horizon cell.now }
        { is_left(kept, cell, horizon) },
    );
}

/// The same of each of some pieces. It answers how many cells are left.
fn keep_parts(pieces: &mut Vec<Vec<Cell>>, kept: &[Cell], horizon: u64) -> usize
    requires kept { IsAscending kept.now }
    ensures left { map (λ v. v.items) pieces.new.items ≡ map (left kept.now horizon) (map (λ v. v.items) pieces.old.items) }
    ensures count { result ≡ min (length (chained (map (λ v. v.items) pieces.new.items))) 18446744073709551615 }
{
    let mut count: usize = 0;
    for at in 0..pieces.len() {
        let piece = &mut pieces[at];
        keep_part(piece, kept, horizon);
        count = count.saturating_add(piece.len());
    }
    count
}

/// Whether a piece has a cell.
fn is_filled(piece: &Vec<Cell>) -> bool
    ensures { result ≡ is_some piece.now.items }
{
    match piece.first() {
        None => false,
        Some(_) => true,
    }
}

/// Lets the pieces go that have no cell.
fn drop_empty(pieces: &mut Vec<Vec<Cell>>)
    ensures { map (λ v. v.items) pieces.new.items ≡ filter is_some (map (λ v. v.items) pieces.old.items) }
{
    pieces.retain(
        |piece: &Vec<Cell>| -> bool
            ensures { result ≡ is_some piece.now.items }
        { is_filled(piece) },
    );
}

impl Pieces {
    /// Lets each cell at or below a horizon go whose place none of these cells has.
    pub(crate) fn keep_only(&mut self, kept: &[Cell], horizon: u64)
        requires pieces { ArePieces (lists self.old) }
        requires count { self.old.count ≡ length (chained (lists self.old)) }
        requires within { self.old.count ≤ vec_capacity self.old.first }
        requires kept { IsAscending kept.now }
        ensures left { chained (lists self.new) ≡ left kept.now horizon (chained (lists self.old)) }
        ensures pieces { ArePieces (lists self.new) }
        ensures count { self.new.count ≡ length (chained (lists self.new)) }
        ensures less { self.new.count ≤ self.old.count }
        ensures capacity { vec_capacity self.new.first ≡ vec_capacity self.old.first }
    {
        keep_part(&mut self.first, kept, horizon);
        let count = keep_parts(&mut self.others, kept, horizon);
        drop_empty(&mut self.others);
        self.count = self.first.len().saturating_add(count);
    }
}
