// A sorted list of cells in pieces.
ghost use Rattle.std.specs.Prelude.{◌≡◌, ◌≤◌, ◌<◌, [], true, false, length, get_or, drop, IfOk};
ghost use Rattle.std.specs.Option.{option_copied};
ghost use Rattle.px_cells.specs.Among.{Has};
ghost use Rattle.px_cells.specs.CellData.{CellData};
ghost use Rattle.px_cells.specs.Rows.{IsBeforeEnd, IsRow};
ghost use Rattle.px_memstore.specs.Pieces.{AreFirstRows, chained};
ghost use Rattle.px_memstore.specs.inner.Pieces.{ArePieces, HasMore, IsPlace, begins_by as begins, lists};

use px_cells::{Cell, Cells, key_order, row_in, rows_in};
use std::alloc::{AllocError, Global};

/// A sorted list of cells in pieces, each of whole rows.
#[derive(Drop)]
pub(crate) struct Pieces {
    /// The cells below those of all others. This one alone may be empty, and has room for the cells of all.
    pub(crate) first: Vec<Cell>,
    pub(crate) others: Vec<Vec<Cell>>,
    /// How many cells all have.
    pub(crate) count: usize,
    /// Whether one of the others may have too little room for the row that alone is in it.
    pub(crate) is_tight: bool,
}

/// The first rows of a range.
#[derive(Clone, Copy)]
pub struct FirstRows<'a> {
    pub cells: &'a [Cell],
    /// Whether these are all.
    pub is_all: bool,
}

/// Whether a piece begins at or below a key.
pub(crate) fn begins_by(piece: &Vec<Cell>, key: &[u8]) -> bool
    ensures { result ≡ begins piece.now.items key.now }
{
    match piece.first() {
        None => true,
        Some(cell) => key_order(cell.key(), key).is_le(),
    }
}

/// The cells of a slice, copied.
fn copy_of(alloc: Global, cells: &[Cell]) -> Result<Vec<Cell>, AllocError>
    ensures { IfOk result (λ copy. copy.items ≡ cells.now) }
{
    Ok(Cells::from_slice(alloc, cells)?.into_vec())
}

impl Pieces {
    /// The place of the one piece that can have the row of a key.
    pub(crate) fn place_of(&self, key: &[u8]) -> usize
        requires { ArePieces (lists self.now) }
        ensures { IsPlace (lists self.now) key.now result }
    {
        self.others.as_slice().partition_point(
            |piece: &Vec<Cell>| -> bool
                ensures { result ≡ begins piece.now.items key.entry.now }
            { begins_by(piece, key) },
        )
    }

    /// The cells of a piece.
    pub(crate) fn piece(&self, at: usize) -> &[Cell]
        requires { at ≤ length self.now.others.items }
        ensures { result.now ≡ get_or (lists self.now) at [] }
    {
        if at == 0 {
            return &self.first;
        }
        &self.others[at - 1]
    }

    /// The cells of one row.
    pub(crate) fn row(&self, key: &[u8]) -> &[Cell]
        requires { ArePieces (lists self.now) }
        ensures { IsRow (chained (lists self.now)) key.now result.now }
    {
        row_in(self.piece(self.place_of(key)), key)
    }

    /// Whether no piece from a place on has a row of a range.
    fn ends_before(&self, at: usize, high: Option<&[u8]>) -> bool
        requires pieces { ArePieces (lists self.now) }
        requires some { 0 < at }
        ensures ended { result ≡ true → (c : CellData) → Has (chained (drop at (lists self.now))) c → IsBeforeEnd c.key (option_copied high.entry) → ⊥ }
        ensures more { result ≡ false → HasMore (lists self.now) at (option_copied high.entry) }
    {
        if at > self.others.len() {
            return true;
        }
        match high {
            None => false,
            Some(high) => !begins_by(&self.others[at - 1], high),
        }
    }

    /// The first rows of a range, those of one piece.
    pub(crate) fn rows(&self, low: &[u8], high: Option<&[u8]>) -> FirstRows<'_>
        requires { ArePieces (lists self.now) }
        ensures { AreFirstRows (chained (lists self.now)) low.now (option_copied high.entry) result.cells.now result.is_all }
    {
        let at = self.place_of(low);
        let cells = rows_in(self.piece(at), low, high);
        if cells.is_empty() && at < self.others.len() {
            return FirstRows {
                cells: rows_in(self.piece(at + 1), low, high),
                is_all: self.ends_before(at + 2, high),
            };
        }
        FirstRows {
            cells,
            is_all: self.ends_before(at + 1, high),
        }
    }

    /// A copy of all cells.
    pub(crate) fn copied(&self, alloc: Global) -> Result<Vec<Cell>, AllocError>
        ensures { IfOk result (λ all. all.items ≡ chained (lists self.now)) }
    {
        let mut all = copy_of(alloc, &self.first)?;
        for piece in &self.others {
            let mut copy = copy_of(alloc, piece)?;
            all.append(&mut copy)?;
        }
        Ok(all)
    }

    /// The first piece.
    pub(crate) fn into_first(self) -> Vec<Cell>
        ensures { result.items ≡ self.first.items }
    {
        let Pieces {
            first,
            others,
            count: _,
            is_tight: _,
        } = self;
        drop(others);
        first
    }
}
