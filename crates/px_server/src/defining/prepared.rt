// What the definition of an index takes of memory, before its record is written.
ghost use Rattle.std.specs.Prelude.{◌≡◌, IfErr, IfOk, IsTrue};
ghost use Rattle.px_calls.specs.declared.fault.StepFault.TheVariants.{Memory as NoMemory};
ghost use Rattle.px_schema.specs.Counts.{HasNumbers};
ghost use Rattle.px_schema.specs.Stands.{stands_after};
ghost use Rattle.px_schema.specs.declared.item.CatalogItem.TheVariants.{IndexIs};
ghost use Rattle.px_server.specs.inner.Fitting.{CanRecord, IsIndexToActivate, IsIndexToMake};

use crate::defining::spelled::is_spelled;
use crate::defining::tables::standing_after;
use px_calls::StepFault;
use px_schema::{CatalogItem, GREATEST_COUNT, GREATEST_ID, GREATEST_STAMP, Standing};
use px_standing::new_index;
use px_tables::{Index, IndexState, NewIndex};
use std::alloc::{AllocError, Global};

/// A new index, once for its group, for the catalogue and for the trail; and what stands with it.
#[derive(Drop)]
pub(crate) struct IndexToMake {
    pub(crate) index: Index,
    pub(crate) item: Index,
    pub(crate) what: NewIndex,
    pub(crate) standing: Standing,
}

/// An index with another record, once for its group and once for the catalogue; and what stands then.
#[derive(Drop)]
pub(crate) struct IndexToPut {
    pub(crate) index: Index,
    pub(crate) item: Index,
    pub(crate) standing: Standing,
}

/// Whether the catalogue has a record for the index: each of its parts fits its field, and a snapshot has room for one index more.
pub(crate) fn can_record(standing: &Standing, index: &Index) -> bool
    ensures { IsTrue result → CanRecord standing.now index.now }
{
    let parts = index.parts.as_slice().len();
    is_spelled(&index.name)
        && u64::from(index.id.0) <= GREATEST_ID
        && u64::from(index.region) <= GREATEST_ID
        && index.birth <= GREATEST_STAMP
        && parts > 0
        && parts < 256
        && index.included.as_slice().len() < 256
        && (standing.indexes.as_slice().len() as u64) < GREATEST_COUNT
}

/// The index with its record, and what stands then.
pub(crate) fn with_record(
    alloc: Global,
    standing: &Standing,
    index: Index,
) -> Result<IndexToPut, AllocError>
    requires can { CanRecord standing.now index }
    ensures index { IfOk result (λ r. r.index ≡ index) }
    ensures item { IfOk result (λ r. r.item ≡ index) }
    ensures standing { IfOk result (λ r. r.standing ≡ stands_after standing.now (IndexIs index)) }
{
    match record_and_standing(alloc, standing, &index) {
        Ok((item, standing)) => Ok(IndexToPut {
            index,
            item,
            standing,
        }),
        Err(fault) => {
            drop(index);
            Err(fault)
        }
    }
}

/// The index for its record, and what stands then.
fn record_and_standing(
    alloc: Global,
    standing: &Standing,
    index: &Index,
) -> Result<(Index, Standing), AllocError>
    requires can { CanRecord standing.now index.now }
    ensures item { IfOk result (λ r. r.0 ≡ index.now) }
    ensures standing { IfOk result (λ r. r.1 ≡ stands_after standing.now (IndexIs index.now)) }
{
    let item = index.copied(alloc)?;
    let copy = match index.copied(alloc) {
        Ok(copy) => copy,
        Err(fault) => {
            drop(item);
            return Err(fault);
        }
    };
    match standing_after(alloc, standing, CatalogItem::IndexIs(copy)) {
        Ok(standing) => Ok((item, standing)),
        Err(fault) => {
            drop(item);
            Err(fault)
        }
    }
}

/// A new index at this stamp, with the next numbers. One that the catalogue can't spell, as one without a name, is told as want of memory: no
/// statement has such an index.
pub(crate) fn index_to_make(
    alloc: Global,
    standing: &Standing,
    stamp: u64,
    what: &NewIndex,
) -> Result<IndexToMake, StepFault>
    requires numbers { HasNumbers standing.now 2 }
    ensures ok { IfOk result (IsIndexToMake standing.now stamp what.now) }
    ensures refused { IfErr result (λ f. f ≡ NoMemory) }
{
    let Ok(copy) = what.copied(alloc) else {
        return Err(StepFault::Memory);
    };
    let index = new_index(standing.next, stamp, copy);
    if !can_record(standing, &index) {
        drop(index);
        return Err(StepFault::Memory);
    }
    let Ok(put) = with_record(alloc, standing, index) else {
        return Err(StepFault::Memory);
    };
    let Ok(what) = what.copied(alloc) else {
        drop(put);
        return Err(StepFault::Memory);
    };
    let IndexToPut {
        index,
        item,
        standing,
    } = put;
    Ok(IndexToMake {
        index,
        item,
        what,
        standing,
    })
}

/// The index as one that is active.
pub(crate) fn index_to_activate(
    alloc: Global,
    standing: &Standing,
    index: &Index,
) -> Result<IndexToPut, StepFault>
    ensures ok { IfOk result (IsIndexToActivate standing.now index.now) }
    ensures refused { IfErr result (λ f. f ≡ NoMemory) }
{
    let Ok(mut active) = index.copied(alloc) else {
        return Err(StepFault::Memory);
    };
    active.state = IndexState::Active;
    if !can_record(standing, &active) {
        drop(active);
        return Err(StepFault::Memory);
    }
    with_record(alloc, standing, active).map_err(|_| StepFault::Memory)
}
