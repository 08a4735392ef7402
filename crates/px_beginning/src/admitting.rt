// A batch is let in.
ghost use Rattle.std.specs.Prelude.{◌≡◌, ◌<◌, map, vec_len, vec_capacity};
ghost use Rattle.px_trail.specs.Batches.{rows_of};
ghost use Rattle.px_beginning.specs.Admits.{Admits, met_by};

use crate::Prepared;
use px_group::{Begun, Group, Phase};
use px_values::Changes;

/// Lets a batch begin, for which room was promised: each open batch meets it, and it is the last of them. It takes no memory.
pub fn admit(group: &mut Group, prepared: Prepared)
    requires place { vec_len group.old.batches < vec_capacity group.old.batches }
    requires written { (prepared.written ≡ rows_of prepared.batch.changes) × (prepared.receipt ≡ rows_of prepared.batch.changes) }
    ensures { Admits group.old prepared.batch group.new }
{
    let Prepared {
        batch,
        written,
        receipt,
        rows: _,
        indexes: _,
    } = prepared;
    meet_all(group.batches.as_mut_slice(), batch.changes());
    group.last = batch.stamp();
    let count = group.indexes.len();
    group.batches.push_reserved(Begun {
        phase: Phase::Marking,
        count,
        batch,
        rows: Some(written),
        receipt,
    });
}

/// Each open batch meets one that begins with these changes.
fn meet_all(batches: &mut [Begun], changes: &Changes)
    ensures { batches.new ≡ map (met_by changes.now) batches.old }
{
    for begun in batches.iter_mut() {
        begun.batch.meet(changes);
    }
}
