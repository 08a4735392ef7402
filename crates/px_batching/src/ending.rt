// The end of a batch.
ghost use Rattle.std.specs.Prelude.{◌≡◌, ◌<◌, ℕ, length, slice_get, Some};
ghost use Rattle.px_openbatches.specs.Pending.{flagged};
ghost use Rattle.px_batching.specs.Steps.{Ends, GoesAway};

use px_group::{Begun, Group};
use px_values::Rows;

/// What a receipt tells of a batch's rows.
#[derive(Drop)]
pub struct Told {
    /// The number of its rows.
    pub rows: u32,
    /// Those on which another batch was pending.
    pub concurrent: Rows,
}

/// The rows whose place is marked, in order, in linear time: each takes the place behind the last one that was marked.
fn marked_rows(rows: Rows, marks: &[bool]) -> Rows
    ensures { result ≡ flagged marks.now rows }
{
    let mut rows = rows.into_vec();
    let mut next = 0;
    for (i, mark) in marks.iter().enumerate() {
        if i < rows.len() {
            if *mark {
                rows.swap(next, i);
                next += 1;
            }
        }
    }
    rows.truncate(next);
    Rows::of(rows)
}

/// Ends the batch at this place: it is let go, and what its receipt tells of its rows is given back. All of its room is used or given
/// back by then.
pub fn end(group: &mut Group, place: usize) -> Told
    requires { place < length group.old.batches.items }
    ensures { Ends group.old group.new place result }
{
    let Begun {
        phase: _,
        count: _,
        batch,
        rows,
        receipt,
    } = group.batches.remove(place);
    drop(rows);
    let count = u32::try_from(receipt.as_slice().len()).unwrap_or(u32::MAX);
    let concurrent = marked_rows(receipt, batch.met());
    drop(batch);
    Told {
        rows: count,
        concurrent,
    }
}

/// Lets the batch at this place go.
pub fn abandon(group: &mut Group, place: usize)
    requires { place < length group.old.batches.items }
    ensures { GoesAway group.old group.new place }
{
    let begun = group.batches.remove(place);
    drop(begun);
}
