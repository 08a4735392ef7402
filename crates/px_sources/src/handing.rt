// Giving what several sources have together.
ghost use Rattle.std.specs.Prelude.{◌≡◌, ◌≢◌, ◌≤◌, ◌<◌, ◌⊎◌, ◌+◌, ◌++◌, ◌∷◌, [], ℕ, List, length, take, drop, min, true, false, if◌then◌else◌, OnOk, Ok, Err};
ghost use Rattle.px_outside.specs.OnDisk.{Rose, Stays};
ghost use Rattle.px_cells.specs.CellData.{CellData};
ghost use Rattle.px_cells.specs.Order.{SamePlace};
ghost use Rattle.px_merge.specs.Merged.{joined};
ghost use Rattle.px_merge.specs.Settle.{settle};
ghost use Rattle.px_sources.specs.Giving.{IsGiven, begins_row, rows_before};
ghost use Rattle.px_sources.specs.Passed.{KnowsRow, begins_behind, place_of};
ghost use Rattle.px_sources.specs.Sources.{AllGive};
ghost use Rattle.px_sources.specs.Turns.{IsMoved};

use crate::fault::given;
use crate::last::Last;
use crate::least::least;
use crate::pass::pass;
use crate::{CellTaker, GiveFault, Source};
use px_cells::Cell;
use px_outside::Disk;
use std::alloc::Global;

/// Whether there is more to give.
#[derive(Clone, Copy, Debug, PartialEq, Eq)]
pub(crate) enum Turn {
    More,
    Over,
}

/// Whether a cell is given: where a row begins with it, that row is wanted. Such a row is counted.
fn enters<T: CellTaker>(cell: &Cell, last: &Last, taker: &T, looked: &mut u64) -> bool
    ensures wanted { (before : List CellData) → T.has_taken taker.now before → result ≡ true → begins_behind last.now cell.now ≡ true → T.wants taker.now before ≡ true }
    ensures ended { (before : List CellData) → T.has_taken taker.now before → result ≡ false → (begins_behind last.now cell.now ≡ true) × (T.wants taker.now before ≡ false) }
    ensures looked { result ≡ true → looked.new ≡ min (looked.old + (if begins_behind last.now cell.now then 1 else 0)) 18446744073709551615 }
    ensures same { result ≡ false → looked.new ≡ looked.old }
{
    let _looked = *looked;
    if !last.begins(cell) {
        return true;
    }
    if !taker.wants_row() {
        return false;
    }
    *looked = looked.saturating_add(1);
    true
}

/// Gives a cell and keeps its place, if its row is wanted.
fn hand<T: CellTaker>(
    cell: &Cell,
    last: &mut Last,
    taker: &mut T,
    looked: &mut u64,
) -> Result<Turn, GiveFault>
    ensures more { (before : List CellData) → T.has_taken taker.old before → result ≡ Ok Turn.More
        → T.has_taken taker.new (before ++ cell.now ∷ []) × (begins_behind last.old cell.now ≡ true → T.wants taker.old before ≡ true) }
    ensures over { (before : List CellData) → T.has_taken taker.old before → result ≡ Ok Turn.Over
        → T.has_taken taker.new before × (begins_behind last.old cell.now ≡ true) × (T.wants taker.old before ≡ false) }
    ensures looked { result ≡ Ok Turn.More → looked.new ≡ min (looked.old + (if begins_behind last.old cell.now then 1 else 0)) 18446744073709551615 }
    ensures stopped { result ≡ Ok Turn.Over → looked.new ≡ looked.old }
    ensures most { looked.new ≤ looked.old + (if begins_behind last.old cell.now then 1 else 0) }
    ensures least { looked.old ≤ looked.new }
    ensures place { result ≡ Ok Turn.More → SamePlace (place_of last.new) cell.now × (last.new.some ≡ true) }
    ensures same { T.wants taker.new ≡ T.wants taker.old }
    ensures unread { result ≢ Err GiveFault.ReadFault }
    ensures sound { (at place : ℕ) → result ≢ Err (GiveFault.Damaged at place) }
{
    let _looked = *looked;
    if !enters(cell, last, taker, looked) {
        return Ok(Turn::Over);
    }
    if taker.take(cell).is_err() {
        return Err(GiveFault::Memory);
    }
    if last.set(cell).is_err() {
        return Err(GiveFault::Memory);
    }
    Ok(Turn::More)
}

/// Gives the next cell of what the sources have together, if there is one and its row is wanted.
fn give_next<D: Disk, T: CellTaker>(
    alloc: Global,
    disk: &mut D,
    sources: &mut [Source<'_>],
    last: &mut Last,
    taker: &mut T,
    looked: &mut u64,
) -> Result<Turn, GiveFault>
    ensures more { (all : List CellData) (n : ℕ) (lists : List (List CellData)) → AllGive ⟦<D as Disk>⟧ sources.old disk.old lists → settle (joined lists) ≡ drop n all → KnowsRow last.old all n → result ≡ Ok Turn.More
        → IsMoved ⟦<D as Disk>⟧ sources.new disk.new last.new all n looked.old looked.new }
    ensures handed { (all : List CellData) (n : ℕ) (lists : List (List CellData)) (before : List CellData) → AllGive ⟦<D as Disk>⟧ sources.old disk.old lists → settle (joined lists) ≡ drop n all → KnowsRow last.old all n
        → T.has_taken taker.old (before ++ take n all) → result ≡ Ok Turn.More → T.has_taken taker.new (before ++ take (n + 1) all) × (begins_row all n ≡ true → T.wants taker.old (before ++ take n all) ≡ true) }
    ensures over { (all : List CellData) (n : ℕ) (lists : List (List CellData)) (before : List CellData) → AllGive ⟦<D as Disk>⟧ sources.old disk.old lists → settle (joined lists) ≡ drop n all → KnowsRow last.old all n → n ≤ length all
        → T.has_taken taker.old (before ++ take n all) → result ≡ Ok Turn.Over
        → T.has_taken taker.new (before ++ take n all) × ((n ≡ length all) ⊎ ((n < length all) × (begins_row all n ≡ true) × (T.wants taker.old (before ++ take n all) ≡ false))) }
    ensures stopped { result ≡ Ok Turn.Over → looked.new ≡ looked.old }
    ensures most { (all : List CellData) (n : ℕ) (lists : List (List CellData)) → AllGive ⟦<D as Disk>⟧ sources.old disk.old lists → settle (joined lists) ≡ drop n all → KnowsRow last.old all n
        → (looked.new ≡ looked.old) ⊎ ((n < length all) × (looked.new ≤ looked.old + (if begins_row all n then 1 else 0))) }
    ensures least { looked.old ≤ looked.new }
    ensures same { T.wants taker.new ≡ T.wants taker.old }
    ensures sound { (lists : List (List CellData)) (at place : ℕ) → AllGive ⟦<D as Disk>⟧ sources.old disk.old lists → result ≢ Err (GiveFault.Damaged at place) }
    ensures seen { D.seen disk.new ≡ D.seen disk.old }
    ensures quiet { Stays ⟦<D as Disk>⟧ disk.old disk.new }
    ensures failed { result ≡ Err GiveFault.ReadFault → Rose ⟦<D as Disk>⟧ disk.old disk.new }
    ensures faults { D.faults disk.old ≤ D.faults disk.new }
{
    let cell = match least(sources) {
        None => return Ok(Turn::Over),
        Some(cell) => cell,
    };
    match hand(cell, last, taker, looked) {
        Err(fault) => Err(fault),
        Ok(Turn::Over) => Ok(Turn::Over),
        Ok(Turn::More) => match pass(alloc, disk, sources, last) {
            Ok(()) => Ok(Turn::More),
            Err(fault) => Err(given(fault)),
        },
    }
}

/// Gives the rows of what sorted sources have together, of which the later written stand first: in order, until the taker
/// wants no further row. Rows that are given are counted. It is refused with `Memory` where the taker is.
pub fn give<D: Disk, T: CellTaker>(
    alloc: Global,
    disk: &mut D,
    sources: &mut [Source<'_>],
    taker: &mut T,
    looked: &mut u64,
) -> Result<(), GiveFault>
    ensures given { (lists : List (List CellData)) (before : List CellData) → AllGive ⟦<D as Disk>⟧ sources.old disk.old lists → T.has_taken taker.old before
        → OnOk result ((n : ℕ) × IsGiven (T.wants taker.old) before (settle (joined lists)) n × T.has_taken taker.new (before ++ take n (settle (joined lists)))
        × (looked.new ≡ min (looked.old + rows_before (settle (joined lists)) n) 18446744073709551615)) }
    ensures most { (lists : List (List CellData)) → AllGive ⟦<D as Disk>⟧ sources.old disk.old lists → looked.new ≤ looked.old + rows_before (settle (joined lists)) (length (settle (joined lists))) }
    ensures least { looked.old ≤ looked.new }
    ensures sound { (lists : List (List CellData)) (at place : ℕ) → AllGive ⟦<D as Disk>⟧ sources.old disk.old lists → result ≢ Err (GiveFault.Damaged at place) }
    ensures seen { D.seen disk.new ≡ D.seen disk.old }
    ensures quiet { Stays ⟦<D as Disk>⟧ disk.old disk.new }
    ensures failed { result ≡ Err GiveFault.ReadFault → Rose ⟦<D as Disk>⟧ disk.old disk.new }
{
    let _looked = *looked;
    let mut last = Last::none(alloc);
    'turns: for _ in 0..u64::MAX {
        match give_next(alloc, disk, sources, &mut last, taker, looked) {
            Ok(Turn::More) => {}
            Ok(Turn::Over) => {
                drop(last);
                return Ok(());
            }
            Err(fault) => {
                drop(last);
                return Err(fault);
            }
        }
    }

    // No memory and no disk has so many cells.
    drop(last);
    Err(GiveFault::Memory)
}
