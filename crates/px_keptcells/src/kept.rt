// Cells that are kept row by row.
ghost use Rattle.std.specs.Prelude.{◌≡◌, ◌≤◌, ◌+◌, ◌∷◌, ◌++◌, [], drop, length, min, sum, take, OnOk, OnErr, vec_len, vec_capacity, get_or, false};
ghost use Rattle.std.specs.List.{AllByRecursion};
ghost use Rattle.std.specs.List.Sorted.{IsPermutation};
ghost use Rattle.px_cells.specs.Order.{IsAscending, IsApart, ReadsSame, cell_cmp};
ghost use Rattle.px_cellbytes.specs.Reading.{IsWritten};
ghost use Rattle.px_cellbytes.specs.Spelling.{all_bytes};
ghost use Rattle.px_keptcells.specs.Kept.{HaveOtherKeys, IsFitting, but, laid};
ghost use Rattle.px_keptcells.specs.inner.Rows.{cut};

use px_cells::{Cell, Cells, cell_order};
use std::alloc::{AllocError, Global};
use std::cmp::Ordering;
use std::marker::Model;

/// The cells that a batch keeps for one region, by the places of its rows. No two of them have one place in the region.
#[derive(Drop)]
pub struct KeptCells {
    /// The cells of all rows, one row behind the other.
    cells: Vec<Cell>,
    /// How many cells each row has.
    counts: Vec<usize>,
    /// How many bytes the cells have in a log, up to the type's end.
    bytes: u64,
}

impl Model for KeptCells {
    ghost use Rattle.std.specs.Prelude.{List};
    ghost use Rattle.px_cells.specs.CellData.{CellData};
    ghost use Rattle.px_keptcells.specs.inner.Rows.{parts_of, IsKept};

    ghost Value = { List (List CellData) };

    ghost view = { parts_of };

    ghost invariant = { IsKept };
}

impl KeptCells {
    /// No rows.
    pub fn new(alloc: Global) -> KeptCells
        ensures { result ≡ [] }
    {
        KeptCells {
            cells: Vec::new(alloc),
            counts: Vec::new(alloc),
            bytes: 0,
        }
    }

    /// How many cells there are. It stands still at its type's end.
    pub fn count(&self) -> usize
        ensures { result ≡ min (length (laid self.now)) 18446744073709551615 }
    {
        self.cells.len()
    }

    /// How many bytes the cells have in a log. It stands still at its type's end.
    pub fn bytes(&self) -> u64
        ensures { result ≡ min (length (all_bytes (laid self.now))) 18446744073709551615 }
    {
        self.bytes
    }

    /// Adds the cells of the next row. Want of memory leaves everything as it was.
    pub fn add(&mut self, part: Cells) -> Result<(), AllocError>
        requires fitting { AllByRecursion IsFitting part }
        requires apart { IsApart part }
        requires other_keys { HaveOtherKeys (laid self.old) part }
        ensures ok { OnOk result (self.new ≡ self.old ++ part ∷ []) }
        ensures err { OnErr result (self.new ≡ self.old) }
    {
        let mut part = part.into_vec();
        let count = part.len();
        match take_room(&mut self.cells, &mut self.counts, count) {
            Ok(()) => {
                self.bytes = self.bytes.saturating_add(part_bytes(&part));
                self.counts.push_reserved(count);
                move_behind(&mut self.cells, &mut part);
                Ok(())
            }
            Err(fault) => {
                drop(part);
                Err(fault)
            }
        }
    }

    /// The cells as one sorted list, but those of the rows whose place is marked. It takes no memory, and lets the others go.
    pub fn hand(self, left_out: &[bool]) -> Cells
        ensures written { IsWritten result }
        ensures reads { ReadsSame result (laid (but left_out.now self)) }
        ensures count { length result ≡ length (laid (but left_out.now self)) }
        ensures bytes { length (all_bytes result) ≡ length (all_bytes (laid (but left_out.now self))) }
    {
        let KeptCells {
            cells,
            counts,
            bytes: _,
        } = self;
        let mut cells = cells;
        leave_out(&mut cells, &counts, left_out);
        drop(counts);
        sort(&mut cells);
        Cells::from_vec(cells)
    }
}

/// Takes room for one row more, of so many cells.
fn take_room(cells: &mut Vec<Cell>, counts: &mut Vec<usize>, count: usize) -> Result<(), AllocError>
    ensures cells { cells.new.items ≡ cells.old.items }
    ensures counts { counts.new.items ≡ counts.old.items }
    ensures room { OnOk result (vec_len cells.new + count ≤ vec_capacity cells.new) }
    ensures row { OnOk result (vec_len counts.new + 1 ≤ vec_capacity counts.new) }
{
    cells.reserve(count)?;
    counts.reserve(1)
}

/// How many bytes cells have.
fn part_bytes(cells: &[Cell]) -> u64
    ensures { result ≡ min (length (all_bytes cells.now)) 18446744073709551615 }
{
    let mut bytes: u64 = 0;
    for cell in cells {
        bytes = bytes
            .saturating_add(14)
            .saturating_add(cell.key().len() as u64)
            .saturating_add(cell.value().len() as u64);
    }
    bytes
}

/// Lets the cells of the marked rows go: those of each other row take the places behind what stays of the rows before.
fn leave_out(cells: &mut Vec<Cell>, counts: &[usize], marks: &[bool])
    requires { sum counts.now ≡ length cells.old.items }
    ensures { cells.new.items ≡ laid (but marks.now (cut counts.now cells.old.items)) }
{
    let mut next = 0;
    let mut at = 0;
    for (row, count) in counts.iter().enumerate() {
        if !is_marked(marks, row) {
            move_row(cells, next, at, *count);
            next += *count;
        }
        at += *count;
    }
    cells.truncate(next);
}

/// Whether a place is marked.
fn is_marked(marks: &[bool], place: usize) -> bool
    ensures { result ≡ get_or marks.now place false }
{
    match marks.get(place) {
        Some(mark) => *mark,
        None => false,
    }
}

/// Moves so many cells from one place to another before it. What stands between the two comes behind them, in any order.
fn move_row(cells: &mut Vec<Cell>, next: usize, at: usize, count: usize)
    requires before { next ≤ at }
    requires within { at + count ≤ length cells.old.items }
    ensures front { take (next + count) cells.new.items ≡ take next cells.old.items ++ take count (drop at cells.old.items) }
    ensures rest { drop (at + count) cells.new.items ≡ drop (at + count) cells.old.items }
    ensures len { length cells.new.items ≡ length cells.old.items }
{
    if next == at {
        return;
    }
    for i in 0..count {
        cells.swap(next + i, at + i);
    }
}

/// Moves cells behind others, where there is room for them.
fn move_behind(room: &mut Vec<Cell>, part: &mut Vec<Cell>)
    requires { vec_len room.old + vec_len part.old ≤ vec_capacity room.old }
    ensures { room.new.items ≡ room.old.items ++ part.old.items }
{
    let _ = room.append(part);
}

/// Sorts cells.
fn sort(cells: &mut Vec<Cell>)
    ensures permutation { IsPermutation cells.old.items cells.new.items }
    ensures sorted { IsApart cells.old.items → IsAscending cells.new.items }
{
    cells.sort_unstable_by(
        |a: &Cell, b: &Cell| -> Ordering
            ensures { result ≡ cell_cmp a.now b.now }
        { cell_order(a, b) },
    );
}
