// What is made of a batch for each index.
ghost use Rattle.std.specs.Prelude.{◌≡◌, Err, IfOk, IsOk, map, true, IfErr};
ghost use Rattle.std.specs.List.{AllByRecursion};
ghost use Rattle.px_indexrow.specs.Form.{IsRightIndex, index_form};
ghost use Rattle.px_rows.specs.Keys.{IsRightTable};
ghost use Rattle.px_trail.specs.Batches.{is_distinct, rows_of};
ghost use Rattle.px_phases.specs.Phases.{AreTransitions, HasLongIndexed, close_parts, mark_parts};
ghost use Rattle.px_beginning.specs.Faults.{HasLongIn, TellsNoRead};
ghost use Rattle.px_beginning.specs.Reads.{index_forms};
ghost use Rattle.px_values.specs.declared.limit.Limit.{Limit as Bound};
ghost use Rattle.px_beginning.specs.declared.fault.BeginFault.{BeginFault as Fault};

use crate::BeginFault;
use px_group::IndexRegion;
use px_keptcells::KeptCells;
use px_phases::{Transition, closes_of_rows, marks_of_rows};
use px_rows::RowFault;
use px_tables::{Index, Table};
use px_values::{Change, Limit};
use std::alloc::Global;
use std::collections::VecDeque;

/// The marks of each row in an index.
fn marks_at(
    alloc: Global,
    table: &Table,
    index: &Index,
    changes: &[Change],
    transitions: &[Transition],
    stamp: u64,
) -> Result<KeptCells, BeginFault>
    requires table { IsRightTable table.now }
    requires index { IsRightIndex table.now index.now }
    requires distinct { is_distinct (rows_of changes.now) ≡ true }
    requires transitions { AreTransitions table.now changes.now transitions.now }
    ensures kept { IfOk result (λ kept. kept ≡ mark_parts (index_form table.now index.now) stamp changes.now transitions.now) }
    ensures long { result ≡ Err (Fault.Limit Bound.Key) → HasLongIndexed table.now index.now changes.now transitions.now }
    ensures short { IsOk result → HasLongIndexed table.now index.now changes.now transitions.now → ⊥ }
    ensures only { (limit : Bound) → result ≡ Err (Fault.Limit limit) → limit ≡ Bound.Key }
    ensures unread { IfErr result TellsNoRead }
{
    match marks_of_rows(alloc, table, index, changes, transitions, stamp) {
        Ok(cells) => Ok(cells),
        Err(RowFault::KeyTooLong) => Err(BeginFault::Limit(Limit::Key)),
        Err(_) => Err(BeginFault::Memory),
    }
}

/// The marks for each index.
pub(crate) fn marks_of_indexes(
    alloc: Global,
    table: &Table,
    indexes: &[IndexRegion],
    changes: &[Change],
    transitions: &[Transition],
    stamp: u64,
) -> Result<VecDeque<KeptCells>, BeginFault>
    requires table { IsRightTable table.now }
    requires indexes { AllByRecursion (λ x. IsRightIndex table.now x.index) indexes.now }
    requires distinct { is_distinct (rows_of changes.now) ≡ true }
    requires transitions { AreTransitions table.now changes.now transitions.now }
    ensures kept { IfOk result (λ kept. kept.items ≡ map (λ f. mark_parts f stamp changes.now transitions.now) (index_forms table.now indexes.now)) }
    ensures long { result ≡ Err (Fault.Limit Bound.Key) → HasLongIn table.now indexes.now changes.now transitions.now }
    ensures short { IsOk result → AllByRecursion (λ x. HasLongIndexed table.now x.index changes.now transitions.now → ⊥) indexes.now }
    ensures only { (limit : Bound) → result ≡ Err (Fault.Limit limit) → limit ≡ Bound.Key }
    ensures unread { IfErr result TellsNoRead }
{
    let mut kept = VecDeque::with_capacity(alloc, indexes.len())?;
    for part in indexes {
        let cells = marks_at(alloc, table, &part.index, changes, transitions, stamp)?;
        kept.push_back_reserved(cells);
    }
    Ok(kept)
}

/// What closes them.
fn closes_at(
    alloc: Global,
    table: &Table,
    index: &Index,
    changes: &[Change],
    transitions: &[Transition],
    stamp: u64,
) -> Result<KeptCells, BeginFault>
    requires table { IsRightTable table.now }
    requires index { IsRightIndex table.now index.now }
    requires distinct { is_distinct (rows_of changes.now) ≡ true }
    requires transitions { AreTransitions table.now changes.now transitions.now }
    ensures kept { IfOk result (λ kept. kept ≡ close_parts (index_form table.now index.now) stamp changes.now transitions.now) }
    ensures long { result ≡ Err (Fault.Limit Bound.Key) → HasLongIndexed table.now index.now changes.now transitions.now }
    ensures only { (limit : Bound) → result ≡ Err (Fault.Limit limit) → limit ≡ Bound.Key }
    ensures unread { IfErr result TellsNoRead }
{
    match closes_of_rows(alloc, table, index, changes, transitions, stamp) {
        Ok(cells) => Ok(cells),
        Err(RowFault::KeyTooLong) => Err(BeginFault::Limit(Limit::Key)),
        Err(_) => Err(BeginFault::Memory),
    }
}

/// What closes the marks at each index.
pub(crate) fn closes_of_indexes(
    alloc: Global,
    table: &Table,
    indexes: &[IndexRegion],
    changes: &[Change],
    transitions: &[Transition],
    stamp: u64,
) -> Result<VecDeque<KeptCells>, BeginFault>
    requires table { IsRightTable table.now }
    requires indexes { AllByRecursion (λ x. IsRightIndex table.now x.index) indexes.now }
    requires distinct { is_distinct (rows_of changes.now) ≡ true }
    requires transitions { AreTransitions table.now changes.now transitions.now }
    ensures kept { IfOk result (λ kept. kept.items ≡ map (λ f. close_parts f stamp changes.now transitions.now) (index_forms table.now indexes.now)) }
    ensures long { result ≡ Err (Fault.Limit Bound.Key) → HasLongIn table.now indexes.now changes.now transitions.now }
    ensures only { (limit : Bound) → result ≡ Err (Fault.Limit limit) → limit ≡ Bound.Key }
    ensures unread { IfErr result TellsNoRead }
{
    let mut kept = VecDeque::with_capacity(alloc, indexes.len())?;
    for part in indexes {
        let cells = closes_at(alloc, table, &part.index, changes, transitions, stamp)?;
        kept.push_back_reserved(cells);
    }
    Ok(kept)
}
