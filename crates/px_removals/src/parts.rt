// The changes of one batch.
ghost use Rattle.std.specs.Prelude.{◌≡◌, IfOk, OnOk, drop, take};

use px_values::{Change, Changes, Items};
use std::alloc::{AllocError, Global};
use std::collections::VecDeque;

/// The most rows of a batch.
const MOST_ROWS: usize = 1_000;

/// Takes the next changes, at most 1,000 of them.
pub fn next_part(alloc: Global, left: &mut VecDeque<Change>) -> Result<Changes, AllocError>
    ensures part { IfOk result (λ part. part ≡ take 1000 left.old.items) }
    ensures left { OnOk result (left.new.items ≡ drop 1000 left.old.items) }
{
    let rows = left.len().min(MOST_ROWS);
    let mut part = Vec::with_capacity(alloc, rows)?;
    for i in 0..rows {
        if let Some(change) = left.pop_front() {
            part.push_reserved(change);
        }
    }
    Ok(Items::of(part))
}
