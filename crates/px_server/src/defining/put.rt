// What an index takes of memory that gets another record.
ghost use Rattle.std.specs.Prelude.{◌≡◌, ◌<◌, get_or, length, IfErr, IfOk};
ghost use Rattle.px_calls.specs.declared.fault.StepFault.TheVariants.{Memory as NoMemory};
ghost use Rattle.px_server.specs.inner.Quiet.{IsIndexToPut};
ghost use Rattle.px_tables.specs.declared.index.Index.{Index as Indexes};

use crate::defining::prepared::{IndexToPut, can_record, with_record};
use px_calls::StepFault;
use px_cellshapes::is_right_index;
use px_schema::Standing;
use px_tables::{IndexState, Table};
use std::alloc::Global;

/// The index at this place of those that stand, of the table, in this state, with this birth and this region. One that isn't right for its
/// table, or that the catalogue can't spell, is told as want of memory: no folder with such an index is opened.
pub(crate) fn index_to_put(
    alloc: Global,
    table: &Table,
    standing: &Standing,
    place: usize,
    state: IndexState,
    birth: u64,
    region: u32,
) -> Result<IndexToPut, StepFault>
    requires { place < length standing.now.indexes }
    ensures ok { IfOk result (λ r. (none : Indexes) → IsIndexToPut table.now standing.now (record (get_or standing.now.indexes place none) { state = state; birth = birth; region = region }) r) }
    ensures refused { IfErr result (λ f. f ≡ NoMemory) }
{
    let Ok(mut index) = standing.indexes.as_slice()[place].copied(alloc) else {
        return Err(StepFault::Memory);
    };
    index.state = state;
    index.birth = birth;
    index.region = region;
    if !can_record(standing, &index) || !is_right_index(table, &index) {
        drop(index);
        return Err(StepFault::Memory);
    }
    with_record(alloc, standing, index).map_err(|_| StepFault::Memory)
}
