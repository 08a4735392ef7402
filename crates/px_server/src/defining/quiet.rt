// An index whose table nothing uses.
ghost use Rattle.std.specs.Prelude.{◌≡◌, ◌<◌, ◌⊎◌, get_or, length, IfErr, IfNone, IfOk, IfSome};
ghost use Rattle.std.specs.List.{AllByRecursion};
ghost use Rattle.px_server.specs.inner.Quiet.{IsOther, IsQuietPlace, IsUnquiet};
ghost use Rattle.px_tables.specs.declared.index.Index.{Index as Indexes};

use px_calls::StepFault;
use px_group::Group;
use px_noting::uses;
use px_schema::Standing;
use px_standing::numbered_place;
use px_tables::Index;
use px_values::{IndexId, TableId};

/// Where an index and its table stand.
#[derive(Clone, Copy)]
pub(crate) struct IndexPlace {
    pub(crate) table: usize,
    pub(crate) index: usize,
}

/// The place of the index of the table among these.
fn place_of(indexes: &[Index], table: TableId, index: IndexId) -> Option<usize>
    ensures found { IfSome result (λ p. p < length indexes.now) }
    ensures id { IfSome result (λ p. (none : Indexes) → (get_or indexes.now p none).id ≡ index) }
    ensures table { IfSome result (λ p. (none : Indexes) → (get_or indexes.now p none).table ≡ table) }
    ensures none { IfNone result (AllByRecursion (IsOther table index) indexes.now) }
{
    for place in 0..indexes.len() {
        if indexes[place].id == index && indexes[place].table == table {
            return Some(place);
        }
    }
    None
}

/// Where the index and its table stand, if no point and no batch of the table is open, or why they aren't to be changed.
pub(crate) fn quiet_place(
    closed: Option<u64>,
    standing: &Standing,
    groups: &[Group],
    table: TableId,
    index: IndexId,
) -> Result<IndexPlace, StepFault>
    requires { length groups.now ≡ length standing.now.tables }
    ensures ok { IfOk result (IsQuietPlace standing.now groups.now closed table index) }
    ensures refused { IfErr result (IsUnquiet standing.now groups.now closed table index) }
{
    if let Some(call) = closed {
        return Err(StepFault::Closed { call });
    }
    let Some(place) = numbered_place(standing, table) else {
        return Err(StepFault::NoTable);
    };
    let Some(at) = place_of(standing.indexes.as_slice(), table, index) else {
        return Err(StepFault::NoIndex);
    };
    let count = uses(&groups[place]);
    if count > 0 {
        return Err(StepFault::InUse { count });
    }
    Ok(IndexPlace {
        table: place,
        index: at,
    })
}
