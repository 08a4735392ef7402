// What is read for a batch: the rows before its changes, and after them.
ghost use Rattle.std.specs.Prelude.{◌≡◌, ◌≤◌, ◌<◌, Err, IfOk, length, ◌≢◌, ℕ, IfErr};
ghost use Rattle.px_outside.specs.OnDisk.{Rose};
ghost use Rattle.px_region.specs.OnlyRead.{HasOnlyRead};
ghost use Rattle.std.specs.List.{AllByRecursion};
ghost use Rattle.px_cells.specs.Contents.{value_at};
ghost use Rattle.px_region.specs.Promise.{IsAlike, IsSamePromise};
ghost use Rattle.px_region.specs.Region.{read_of};
ghost use Rattle.px_rows.specs.Keys.{IsRightTable, row_key};
ghost use Rattle.px_rows.specs.Spelled.{FitsTable};
ghost use Rattle.px_values.specs.Limits.{most_key};
ghost use Rattle.px_cellshapes.specs.Rows.{AreRightRows};
ghost use Rattle.px_phases.specs.Batch.{AllFit};
ghost use Rattle.px_phases.specs.Begun.{AreFrom};
ghost use Rattle.px_phases.specs.Phases.{AreTransitions, IsTransition};
ghost use Rattle.px_beginning.specs.Faults.{HasLongRow, TellsNoRead};
ghost use Rattle.px_beginning.specs.Reads.{keys_of_rows, old_in};
ghost use Rattle.px_values.specs.declared.limit.Limit.{Limit as Bound};
ghost use Rattle.px_beginning.specs.declared.fault.BeginFault.{BeginFault as Fault};

use crate::BeginFault;
use crate::pending::expected_of;
use px_cellshapes::law_rows_read;
use px_group::Begun;
use px_looks::row_state;
use px_outside::Disk;
use px_phases::{Transition, changed};
use px_region::Region;
use px_rows::{RowFault, key_of};
use px_tables::Table;
use px_values::{Change, Key, Limit};
use std::alloc::Global;

/// The point at which the newest state of each row is seen: the greatest stamp.
const NEWEST: u64 = 9_223_372_036_854_775_807;

/// The key of a changed row.
fn own_key(alloc: Global, table: &Table, change: &Change) -> Result<Key, BeginFault>
    requires table { IsRightTable table.now }
    requires fit { FitsTable table.now change.now.row change.now.what }
    ensures ok { IfOk result (λ key. (key ≡ row_key table.now change.now.row) × (length key ≤ most_key)) }
    ensures long { result ≡ Err (Fault.Limit Bound.Key) → most_key < length (row_key table.now change.now.row) }
    ensures only { (limit : Bound) → result ≡ Err (Fault.Limit limit) → limit ≡ Bound.Key }
    ensures unread { IfErr result TellsNoRead }
{
    match key_of(alloc, table, change.row.as_slice()) {
        Ok(key) => Ok(key),
        Err(RowFault::KeyTooLong) => Err(BeginFault::Limit(Limit::Key)),
        Err(_) => Err(BeginFault::Memory),
    }
}

/// The keys of the changed rows. It is refused where one is too long.
pub(crate) fn row_keys(
    alloc: Global,
    table: &Table,
    changes: &[Change],
) -> Result<Vec<Key>, BeginFault>
    requires table { IsRightTable table.now }
    requires fit { AllFit table.now changes.now }
    ensures keys { IfOk result (λ keys. keys.items ≡ keys_of_rows table.now changes.now) }
    ensures short { IfOk result (λ keys. AllByRecursion (λ c. length (row_key table.now c.row) ≤ most_key) changes.now) }
    ensures long { result ≡ Err (Fault.Limit Bound.Key) → HasLongRow table.now changes.now }
    ensures only { (limit : Bound) → result ≡ Err (Fault.Limit limit) → limit ≡ Bound.Key }
    ensures unread { IfErr result TellsNoRead }
{
    let mut keys = Vec::with_capacity(alloc, changes.len())?;
    for change in changes {
        let key = own_key(alloc, table, change)?;
        keys.push_reserved(key);
    }
    Ok(keys)
}

/// The row of a change before it, where all that is pending counts as written, and after it. The row is looked up once.
fn transition<D: Disk>(
    alloc: Global,
    disk: &mut D,
    table: &Table,
    rows: &mut Region,
    batches: &[Begun],
    change: &Change,
    key: &[u8],
) -> Result<Transition, BeginFault>
    requires table { IsRightTable table.now }
    requires shape { AreRightRows table.now (read_of rows.old) }
    requires batches { AllByRecursion (λ m. AllFit table.now m.batch.changes) batches.now }
    requires fit { FitsTable table.now change.now.row change.now.what }
    requires key { key.now ≡ row_key table.now change.now.row }
    ensures is { IfOk result (λ x. IsTransition table.now change.now x) }
    ensures no_limit { (limit : Bound) → result ≡ Err (Fault.Limit limit) → ⊥ }
    ensures from { IfOk result (λ x. x.old ≡ old_in table.now (read_of rows.old) batches.now change.now.row) }
    ensures alike { IsAlike rows.old rows.new }
    ensures promised { IsSamePromise rows.old rows.new }
    ensures undamaged { (file place : ℕ) → result ≢ Err (Fault.Damaged file place) }
    ensures failed { result ≡ Err Fault.ReadFault → Rose ⟦<D as Disk>⟧ disk.old disk.new }
    ensures only_read { HasOnlyRead ⟦<D as Disk>⟧ disk.old disk.new }
{
    law_rows_read();
    let row = change.row.as_slice();
    let state = row_state(alloc, disk, rows, table, row, key, NEWEST)?;
    let old = expected_of(alloc, table, row, state, batches)?;
    match changed(alloc, table, row, &old, &change.what) {
        Ok(new) => Ok(Transition { old, new }),
        Err(_) => {
            drop(old);
            Err(BeginFault::Memory)
        }
    }
}

/// The rows before the changes and after them.
pub(crate) fn transitions_of<D: Disk>(
    alloc: Global,
    disk: &mut D,
    table: &Table,
    rows: &mut Region,
    batches: &[Begun],
    changes: &[Change],
    keys: &[Key],
) -> Result<Vec<Transition>, BeginFault>
    requires table { IsRightTable table.now }
    requires shape { AreRightRows table.now (read_of rows.old) }
    requires batches { AllByRecursion (λ m. AllFit table.now m.batch.changes) batches.now }
    requires fit { AllFit table.now changes.now }
    requires keys { keys.now ≡ keys_of_rows table.now changes.now }
    ensures are { IfOk result (λ xs. AreTransitions table.now changes.now xs.items) }
    ensures no_limit { (limit : Bound) → result ≡ Err (Fault.Limit limit) → ⊥ }
    ensures from { IfOk result (λ xs. AreFrom (old_in table.now (read_of rows.old) batches.now) changes.now xs.items) }
    ensures alike { IsAlike rows.old rows.new }
    ensures promised { IsSamePromise rows.old rows.new }
    ensures undamaged { (file place : ℕ) → result ≢ Err (Fault.Damaged file place) }
    ensures failed { result ≡ Err Fault.ReadFault → Rose ⟦<D as Disk>⟧ disk.old disk.new }
    ensures only_read { HasOnlyRead ⟦<D as Disk>⟧ disk.old disk.new }
{
    let mut transitions = Vec::with_capacity(alloc, changes.len())?;
    for place in 0..changes.len() {
        let key = keys[place].as_slice();
        let next = transition(alloc, disk, table, rows, batches, &changes[place], key)?;
        transitions.push_reserved(next);
    }
    Ok(transitions)
}
