// The cells of a batch's phases.
ghost use Rattle.std.specs.Prelude.{◌≡◌, ◌≢◌, ◌≤◌, ℕ, length, true, IfOk, IsOk};
ghost use Rattle.std.specs.List.{AllByRecursion};
ghost use Rattle.px_indexrow.specs.Form.{IsRightIndex, index_form};
ghost use Rattle.px_rows.specs.Keys.{IsRightTable, row_key};
ghost use Rattle.px_rows.specs.Spelled.{FitsTable};
ghost use Rattle.px_values.specs.Limits.{most_key};
ghost use Rattle.px_trail.specs.Batches.{is_distinct, rows_of};
ghost use Rattle.px_phases.specs.Phases.{ArePuts, AreTransitions, HasLongIndexed, close_parts, mark_parts};

use crate::Transition;
use px_cells::Cells;
use px_indexrow::{closes, marks};
use px_keptcells::KeptCells;
use px_rows::{RowFault, cells_of};
use px_tables::{Index, Table};
use px_values::Change;
use std::alloc::{AllocError, Global};

/// The marks of each row in an index.
pub fn marks_of_rows(
    alloc: Global,
    table: &Table,
    index: &Index,
    changes: &[Change],
    transitions: &[Transition],
    stamp: u64,
) -> Result<KeptCells, RowFault>
    requires table { IsRightTable table.now }
    requires index { IsRightIndex table.now index.now }
    requires distinct { is_distinct (rows_of changes.now) ≡ true }
    requires transitions { AreTransitions table.now changes.now transitions.now }
    ensures kept { IfOk result (λ kept. kept ≡ mark_parts (index_form table.now index.now) stamp changes.now transitions.now) }
    ensures too_long { result ≡ Err RowFault.KeyTooLong → HasLongIndexed table.now index.now changes.now transitions.now }
    ensures short { IsOk result → HasLongIndexed table.now index.now changes.now transitions.now → ⊥ }
    ensures not_a_row { (place : ℕ) → result ≢ Err (RowFault.NotARow place) }
{
    let mut kept = KeptCells::new(alloc);
    for place in 0..changes.len() {
        let row = changes[place].row.as_slice();
        let transition = &transitions[place];
        let cells = marks(
            alloc,
            table,
            index,
            row,
            &transition.old,
            &transition.new,
            stamp,
        )?;
        kept.add(cells)?;
    }
    Ok(kept)
}

/// What closes the marks of each row in an index.
pub fn closes_of_rows(
    alloc: Global,
    table: &Table,
    index: &Index,
    changes: &[Change],
    transitions: &[Transition],
    stamp: u64,
) -> Result<KeptCells, RowFault>
    requires table { IsRightTable table.now }
    requires index { IsRightIndex table.now index.now }
    requires distinct { is_distinct (rows_of changes.now) ≡ true }
    requires transitions { AreTransitions table.now changes.now transitions.now }
    ensures kept { IfOk result (λ kept. kept ≡ close_parts (index_form table.now index.now) stamp changes.now transitions.now) }
    ensures too_long { result ≡ Err RowFault.KeyTooLong → HasLongIndexed table.now index.now changes.now transitions.now }
    ensures not_a_row { (place : ℕ) → result ≢ Err (RowFault.NotARow place) }
{
    let mut kept = KeptCells::new(alloc);
    for place in 0..changes.len() {
        let row = changes[place].row.as_slice();
        let transition = &transitions[place];
        let cells = closes(
            alloc,
            table,
            index,
            row,
            &transition.old,
            &transition.new,
            stamp,
        )?;
        kept.add(cells)?;
    }
    Ok(kept)
}

/// The data cells of each row. Their keys are short enough.
pub fn puts_of_rows(
    alloc: Global,
    table: &Table,
    changes: &[Change],
    stamp: u64,
) -> Result<KeptCells, RowFault>
    requires table { IsRightTable table.now }
    requires distinct { is_distinct (rows_of changes.now) ≡ true }
    requires fits { AllByRecursion (λ c. FitsTable table.now c.row c.what) changes.now }
    requires short { AllByRecursion (λ c. length (row_key table.now c.row) ≤ most_key) changes.now }
    ensures kept { IfOk result (λ kept. ArePuts table.now stamp changes.now kept) }
    ensures not_too_long { result ≢ Err RowFault.KeyTooLong }
    ensures not_a_row { (place : ℕ) → result ≢ Err (RowFault.NotARow place) }
{
    let mut kept = KeptCells::new(alloc);
    for change in changes {
        let cells = cells_of(alloc, table, change, stamp)?;
        kept.add(cells)?;
    }
    Ok(kept)
}
