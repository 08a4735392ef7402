// Two batches that meet on a row, and what each still has to write.
ghost use Rattle.std.specs.Prelude.{◌≡◌, IfOk, is_some, true};

use px_keptcells::KeptCells;
use px_phases::{OpenBatch, pending_flags};
use px_values::{Change, Changes, Row, Value, What};
use std::alloc::{AllocError, Global};
use std::collections::VecDeque;
use std::test::Fail;

/// The row with this key is removed.
fn removal(alloc: Global, key: i128) -> Result<Change, AllocError> {
    let mut row = Vec::new(alloc);
    row.push(Value::Number(key))?;
    Ok(Change {
        row: Row::of(row),
        what: What::Gone,
    })
}

/// A batch that removes the row with this key, and has no cells.
fn batch(alloc: Global, stamp: u64, key: i128) -> Result<OpenBatch, AllocError>
    ensures { IfOk result (λ b. is_some b.puts ≡ true) }
{
    let changes = vec![in alloc; removal(alloc, key)?]?;
    let met = vec![in alloc; false]?;
    Ok(OpenBatch::new(
        stamp,
        Changes::of(changes),
        met,
        VecDeque::new(alloc),
        KeptCells::new(alloc),
        VecDeque::new(alloc),
    ))
}

#[test]
fn a_batch_is_pending_until_it_writes(rt: HostRuntime) -> Result<(), Fail> {
    let alloc = rt.alloc();
    let mut first = batch(alloc, 5, 7)?;
    let later = vec![in alloc; removal(alloc, 7)?, removal(alloc, 8)?]?;
    assert!(rt; first.left_of(later[0].row.as_slice()).is_some());
    assert!(rt; first.left_of(later[1].row.as_slice()).is_none());
    assert!(rt; first.to_mark() == 0 && first.to_close() == 0 && first.stamp() == 5);
    let cells = first.take_puts();
    assert!(rt; cells.is_empty());
    drop(cells);
    assert!(rt; !first.is_left());
    assert!(rt; first.left_of(later[0].row.as_slice()).is_none());
    drop(first);
    drop(later);
    Ok(())
}

#[test]
fn flags_tell_of_each_row(rt: HostRuntime) -> Result<(), Fail> {
    let alloc = rt.alloc();
    let mut batches = Vec::new(alloc);
    batches.push(batch(alloc, 5, 7)?)?;
    let later = vec![in alloc; removal(alloc, 7)?, removal(alloc, 8)?]?;
    let flags = pending_flags(alloc, &later, &batches)?;
    assert!(rt; flags.len() == 2 && flags[0] && !flags[1]);
    drop(batches);
    drop(later);
    Ok(())
}
